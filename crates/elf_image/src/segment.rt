//! The segments that are part of the image, and why one is refused.
ghost use Rattle.std.specs.Prelude.{◌≡◌, true, [], IfOk, IfErr, None, Some};
ghost use Rattle.std.specs.List.{list_any};
ghost use Rattle.elf_image.specs.Answers.{Finds};
ghost use Rattle.elf_image.specs.Refusals.{overlap, segment_refusal, segments_refusal};
ghost use Rattle.elf_image.specs.Segments.{addresses_of, is_chosen, segment_size};
ghost use Rattle.elf_image.specs.Table.{IsTable};

use crate::fault::{ElfFault, ElfWhy};
use crate::header::{HeaderTable, ProgramHeader};
use std::alloc::Global;

/// The type of a segment that is loaded, and the flag of one that is executed.
const PT_LOAD: u32 = 1;

const PF_X: u32 = 1;

/// The size of an A64 instruction.
const INSTRUCTION_BYTES: u64 = 4;

/// How many addresses there are.
const ADDRESSES: u128 = 1 << 64;

/// The most segments, and the most bytes that they have: 16 MiB.
const MOST_SEGMENTS: usize = 64;

const MOST_BYTES: u64 = 16 << 20;

/// The addresses of a segment's bytes.
#[derive(Clone, Copy)]
pub struct Addresses {
    pub first: u64,
    pub last: u64,
}

/// Whether one of the addresses is taken. It costs a comparison for each segment before, so that all segments together cost the square of
/// their number. Each is compared without a branch, so that it costs the same in whichever order the segments stand.
fn is_taken(taken: &[Addresses], addresses: Addresses) -> bool
    ensures { result ≡ list_any (overlap addresses) taken.now }
{
    let mut found = false;
    for other in taken {
        found |= (addresses.first <= other.last) & (other.first <= addresses.last);
    }
    found
}

impl ProgramHeader {
    /// Whether the segment is part of the image: it is loaded and executed, and has an instruction.
    pub fn is_chosen(&self) -> bool
        ensures { result ≡ is_chosen self.now }
    {
        self.kind == PT_LOAD && self.flags & PF_X == PF_X && self.filesz >= INSTRUCTION_BYTES
    }

    /// How many bytes are part of the image.
    pub fn size(&self) -> u64
        ensures { result ≡ segment_size self.now }
    {
        self.filesz / INSTRUCTION_BYTES * INSTRUCTION_BYTES
    }

    /// The addresses of the segment, which header k is about, where these are taken; or why it is refused.
    fn addresses(&self, file: &[u8], taken: &[Addresses], k: u32) -> Result<Addresses, ElfWhy>
        requires { is_chosen self.now ≡ true }
        ensures free { IfOk result (λ addresses. (addresses ≡ addresses_of self.now) × (segment_refusal file.now taken.now k self.now ≡ None)) }
        ensures refused { IfErr result (λ why. segment_refusal file.now taken.now k self.now ≡ Some why) }
    {
        let end = u128::from(self.vaddr) + u128::from(self.size());
        if u128::from(self.offset) + u128::from(self.filesz) > file.len() as u128 {
            return Err(ElfWhy::Segment(k));
        }
        if self.vaddr % INSTRUCTION_BYTES != 0 {
            return Err(ElfWhy::Unaligned(k));
        }
        if end > ADDRESSES {
            return Err(ElfWhy::Wraps(k));
        }
        let addresses = Addresses {
            first: self.vaddr,
            last: (end - 1) as u64,
        };
        if is_taken(taken, addresses) {
            return Err(ElfWhy::Overlap(k));
        }
        Ok(addresses)
    }
}

/// Tests the segments in the order of their headers, and then how many they are and how much they have.
pub fn check_segments(alloc: Global, file: &[u8], table: &HeaderTable) -> Result<(), ElfFault>
    requires { IsTable file.now table.now }
    ensures { Finds result (segments_refusal file.now) }
{
    let mut taken = Vec::new(alloc);
    let mut size = 0;
    for k in 0..table.count {
        let header = table.header(file, k);
        if header.is_chosen() {
            let addresses = match header.addresses(file, &taken, u32::from(k)) {
                Ok(addresses) => addresses,
                Err(why) => return Err(ElfFault::Bad(why)),
            };
            taken.push(addresses).map_err(|_| ElfFault::Memory)?;
            size += header.size();
        }
    }
    if taken.len() > MOST_SEGMENTS || size > MOST_BYTES {
        return Err(ElfFault::Bad(ElfWhy::TooLarge));
    }
    Ok(())
}

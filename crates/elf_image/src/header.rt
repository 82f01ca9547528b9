//! The file header and the program headers (System V ABI, "ELF Header" and "Program Header"): the fields that count, each number with its
//! lowest byte first.
ghost use Rattle.std.specs.Prelude.{◌≡◌, ◌+◌, ◌*◌, ◌<◌, ◌≤◌, length, IfOk, IfErr, IsTrue, None, Some};
ghost use Rattle.elf_image.specs.Fields.{is_header, number_at, program_header};
ghost use Rattle.elf_image.specs.Refusals.{file_refusal};
ghost use Rattle.elf_image.specs.Table.{IsTable};

use crate::fault::ElfWhy;
use byteorder::{ByteOrder, LittleEndian};

/// The longest file that is read, in bytes: 256 MiB.
pub const MOST_FILE: usize = 256 << 20;

/// The magic number, ELFCLASS64 and ELFDATA2LSB.
const IDENTIFICATION: [u8; 6] = [0x7f, b'E', b'L', b'F', 2, 1];

const EM_AARCH64: u16 = 183;

/// The size of a file header, and where its fields stand in it.
const FILE_HEADER_BYTES: usize = 64;

const E_MACHINE: usize = 18;

const E_PHOFF: usize = 32;

const E_PHENTSIZE: usize = 54;

const E_PHNUM: usize = 56;

/// The size of a program header, and where its fields stand in it. The first is its type.
const PROGRAM_HEADER_BYTES: usize = 56;

const P_FLAGS: usize = 4;

const P_OFFSET: usize = 8;

const P_VADDR: usize = 16;

const P_FILESZ: usize = 32;

#[tactic(auto, unfolding(crate::specs::Fields::number_at))]
fn u16_at(file: &[u8], at: usize) -> u16
    requires { at + 2 ≤ length file.now }
    ensures { result ≡ number_at 2 at file.now }
{
    LittleEndian::read_u16(&file[at..at + 2])
}

#[tactic(auto, unfolding(crate::specs::Fields::number_at))]
fn u32_at(file: &[u8], at: usize) -> u32
    requires { at + 4 ≤ length file.now }
    ensures { result ≡ number_at 4 at file.now }
{
    LittleEndian::read_u32(&file[at..at + 4])
}

#[tactic(auto, unfolding(crate::specs::Fields::number_at))]
fn u64_at(file: &[u8], at: usize) -> u64
    requires { at + 8 ≤ length file.now }
    ensures { result ≡ number_at 8 at file.now }
{
    LittleEndian::read_u64(&file[at..at + 8])
}

/// Whether the file begins with a header of a program for A64.
fn is_header(file: &[u8]) -> bool
    ensures value { result ≡ is_header file.now }
    ensures long { IsTrue result → 64 ≤ length file.now }
{
    file.len() >= FILE_HEADER_BYTES
        && file.starts_with(&IDENTIFICATION)
        && u16_at(file, E_MACHINE) == EM_AARCH64
        && (u16_at(file, E_PHNUM) == 0
            || usize::from(u16_at(file, E_PHENTSIZE)) == PROGRAM_HEADER_BYTES)
}

/// Where the program headers of a file stand, one behind the other, and how many there are.
#[derive(Clone, Copy)]
pub struct HeaderTable {
    pub offset: u64,
    pub count: u16,
}

/// The program headers of a file, all of which stand in it.
pub fn header_table(file: &[u8]) -> Result<HeaderTable, ElfWhy>
    ensures found { IfOk result (λ table. (file_refusal file.now ≡ None) × IsTable file.now table) }
    ensures refused { IfErr result (λ why. file_refusal file.now ≡ Some why) }
{
    if file.len() > MOST_FILE {
        return Err(ElfWhy::TooLong);
    }
    if !is_header(file) {
        return Err(ElfWhy::Header);
    }
    let offset = u64_at(file, E_PHOFF);
    let count = u16_at(file, E_PHNUM);
    let bytes = PROGRAM_HEADER_BYTES * usize::from(count);
    if count > 0 && u128::from(offset) + bytes as u128 > file.len() as u128 {
        return Err(ElfWhy::Table);
    }
    Ok(HeaderTable { offset, count })
}

impl HeaderTable {
    /// Header k of the file, counted from 0.
    pub fn header(&self, file: &[u8], k: u16) -> ProgramHeader
        requires table { IsTable file.now self.now }
        requires within { k < self.now.count }
        ensures { result ≡ program_header file.now (self.now.offset + 56 * k) }
    {
        ProgramHeader::at(
            file,
            self.offset as usize + PROGRAM_HEADER_BYTES * k as usize,
        )
    }
}

/// What a program header says of a segment: p_type, p_flags, p_offset, p_vaddr and p_filesz.
#[derive(Clone, Copy)]
pub struct ProgramHeader {
    pub kind: u32,
    pub flags: u32,
    pub offset: u64,
    pub vaddr: u64,
    pub filesz: u64,
}

impl ProgramHeader {
    /// The header at an offset.
    fn at(file: &[u8], offset: usize) -> ProgramHeader
        requires { offset + 56 ≤ length file.now }
        ensures { result ≡ program_header file.now offset }
    {
        ProgramHeader {
            kind: u32_at(file, offset),
            flags: u32_at(file, offset + P_FLAGS),
            offset: u64_at(file, offset + P_OFFSET),
            vaddr: u64_at(file, offset + P_VADDR),
            filesz: u64_at(file, offset + P_FILESZ),
        }
    }
}

//! A part of a core's memory: bytes that stand one after another.
ghost use Rattle.std.specs.Prelude.{◌≡◌, ◌+◌, ◌%◌, ◌==◌, ◌^◌, ◌<◌, ◌++◌, [], length, IfOk};
ghost use Rattle.program_image.specs.Part.{Part, end_of, word_in};
ghost use Rattle.program_image.specs.ImageText.{has_between};

use a64_branches::INSTRUCTION_BYTES;
use byteorder::{ByteOrder, LittleEndian};
use std::alloc::{AllocError, Global};
use std::marker::Model;

/// How many addresses there are.
pub const ADDRESSES: u128 = 1 << 64;

#[derive(Drop)]
pub struct Part {
    start: u64,
    bytes: Vec<u8>,
}

impl Model for Part {
    ghost use Rattle.program_image.specs.Part.{Part};

    ghost Value = { Part };

    ghost view = { λ part. record { start = part.start; bytes = part.bytes.items } };
}

impl Part {
    /// A part that has no bytes yet.
    pub fn new(alloc: Global, start: u64) -> Part
        ensures { result ≡ record { start = start; bytes = [] } }
    {
        let bytes = Vec::new(alloc);
        Part { start, bytes }
    }

    /// The address of the first byte.
    pub fn start(&self) -> u64
        ensures { result ≡ self.now.start }
    {
        self.start
    }

    /// The bytes from the start on.
    pub fn bytes(&self) -> &[u8]
        ensures { result.now ≡ self.now.bytes }
    {
        &self.bytes
    }

    /// Whether there is no byte.
    pub fn is_empty(&self) -> bool
        ensures { result ≡ (length self.now.bytes == 0) }
    {
        self.bytes.is_empty()
    }

    /// The address after the last byte, which may be 2^64.
    pub fn end(&self) -> u128
        ensures value { result ≡ end_of self.now }
        ensures small { result < 2 ^ 65 }
    {
        u128::from(self.start) + self.bytes.len() as u128
    }

    /// Whether there is a byte at an address from `from` on and before `to`.
    pub fn has_between(&self, from: u128, to: u128) -> bool
        ensures { result ≡ has_between from to self.now }
    {
        from.max(u128::from(self.start)) < to.min(self.end())
    }

    /// The part with these bytes after its own.
    pub fn with_bytes(mut self, bytes: &[u8]) -> Result<Part, AllocError>
        ensures { IfOk result (λ part. part ≡ record { start = self.start; bytes = self.bytes ++ bytes.now }) }
    {
        self.bytes.extend_from_slice(bytes)?;
        Ok(self)
    }

    /// The instruction word at an address.
    pub fn word_at(&self, addr: u64) -> Option<u32>
        requires aligned { self.now.start % 4 ≡ 0 }
        requires whole { length self.now.bytes % 4 ≡ 0 }
        ensures { result ≡ word_in self.now addr }
    {
        if addr < self.start || addr % INSTRUCTION_BYTES != 0 {
            return None;
        }
        let offset = (addr - self.start) as usize;
        if offset >= self.bytes.len() {
            return None;
        }
        let bytes = &self.bytes[offset..offset + INSTRUCTION_BYTES as usize];
        Some(LittleEndian::read_u32(bytes))
    }
}

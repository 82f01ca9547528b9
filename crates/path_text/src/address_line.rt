//! The line of an instruction, which moves from address to address.
//!
//! The addresses of a block go up by 4, and a loop comes back to the same block, so that most often no digit but the last four
//! changes from a line to the next. The bytes of the line are kept, and then only these four are put.
ghost use Rattle.std.specs.Prelude.{◌≡◌, ◌+◌, ◌-◌, ◌*◌, ◌≤◌, ◌<◌, ◌/◌, ◌%◌, ◌^◌, ◌↔◌, IsTrue, length};
ghost use Rattle.path_text.specs.Lines.{hex};
ghost use Rattle.path_text.specs.Near.{DifferInLastFour};
ghost use Rattle.path_text.specs.Writing.{Writes};

use crate::digits::{digit, hex_count, put_hex, put_last_four_hex};
use a64_branches::INSTRUCTION_BYTES;
use etm_types::Id;
use std::marker::Model;
use trace_io::{Failed, Sink, write_all};

/// The longest line, in bytes: an ID, a space, 16 digits and LF.
const LONGEST: usize = 20;

/// Where the address begins.
const ADDRESS: usize = 3;

/// The line of an address. Contracts see the ID of its stream and the address.
#[derive(Drop)]
pub struct AddressLine {
    id: Id,
    address: u64,
    bytes: [u8; LONGEST],
    len: usize,
}

impl Model for AddressLine {
    ghost use Rattle.std.specs.Prelude.{◌≡◌, ◌≤◌, ◌<◌, ◌^◌, take};
    ghost use Rattle.path_text.specs.Lines.{AtAddress, address_line};

    ghost Value = { AtAddress };

    ghost view = { λ line. record { id = line.id; address = line.address } };

    ghost invariant = { λ line. (line.len ≤ 20) × (take line.len line.bytes ≡ address_line line.id line.address) };
}

impl AddressLine {
    ghost use Rattle.path_text.specs.Lines.{address_line};

    /// The line of address 0.
    #[inline(always)]
    pub fn new(id: Id) -> AddressLine
        ensures id { result.id ≡ id }
        ensures address { result.address ≡ 0 }
    {
        let number = id.get();
        let mut bytes = [0; LONGEST];
        bytes[0] = digit(number / 16);
        bytes[1] = digit(number % 16);
        bytes[2] = b' ';
        bytes[3] = b'0';
        bytes[4] = b'\n';
        AddressLine {
            id,
            address: 0,
            bytes,
            len: 5,
        }
    }

    /// The ID of its stream.
    #[inline(always)]
    pub fn id(&self) -> Id
        ensures { result ≡ self.now.id }
    {
        self.id
    }

    /// Moves to an address: only the last four digits are put, where the others stay.
    #[inline(always)]
    pub fn move_to(&mut self, address: u64)
        ensures id { self.new.id ≡ self.old.id }
        ensures address { self.new.address ≡ address }
    {
        if differs_in_last_four(self.address, address) {
            put_last_four_hex(address, &mut self.bytes, self.len - 1);
        } else {
            let end = ADDRESS + hex_count(address);
            put_hex(address, &mut self.bytes, end);
            self.bytes[end] = b'\n';
            self.len = end + 1;
        }
        self.address = address;
    }

    /// The address of the instruction.
    #[inline(always)]
    pub(crate) fn address(&self) -> u64
        ensures { result ≡ self.now.address }
    {
        self.address
    }

    /// How many bytes it has: 5 to 20.
    #[inline(always)]
    pub fn len(&self) -> usize
        ensures value { result ≡ length (address_line self.now.id self.now.address) }
        ensures short { result ≤ 20 }
    {
        self.bytes().len()
    }

    /// The bytes of the line.
    #[inline(always)]
    pub fn bytes(&self) -> &[u8]
        ensures line { result.now ≡ address_line self.now.id self.now.address }
        ensures short { length result.now ≤ 20 }
    {
        &self.bytes[..self.len]
    }

    /// Writes the line by one call.
    #[inline(always)]
    pub fn write<K: Sink>(&self, sink: &mut K) -> Result<(), Failed>
        ensures { Writes (K.state sink.old) (K.state sink.new) result (address_line self.now.id self.now.address) }
    {
        write_all(sink, &self.bytes[..self.len])
    }
}

/// Whether two numbers have at least four hex digits, and the same ones but for the last four.
#[inline(always)]
fn differs_in_last_four(a: u64, b: u64) -> bool
    ensures { IsTrue result ↔ DifferInLastFour a b }
{
    a / 65536 == b / 65536 && a >= 4096 && b >= 4096
}

/// The lines of how many instructions from an address on differ in no digit but the last four.
#[inline(always)]
pub(crate) fn near_lines(address: u64) -> u64
    ensures some { 0 < result }
    ensures few { result ≤ 16384 }
    ensures near { (1 < result) → (4096 ≤ address) × (address % 65536 + 4 * (result - 1) < 65536) }
    ensures most { (4096 ≤ address) → 65536 ≤ address % 65536 + 4 * result }
{
    if address < 4096 {
        1
    } else {
        (65535 - address % 65536) / INSTRUCTION_BYTES + 1
    }
}

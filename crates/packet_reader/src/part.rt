//! Bytes within a part of a packet: within a number, a timestamp, a field of bytes, or the zeros of an
//! A-sync.
//!
//! Most bytes of the longer packets are such, so they change a state where it is. Each function takes such a
//! byte and says whether it was one; by another byte nothing changes.
ghost use Rattle.std.specs.Prelude.{◌≡◌, ◌+◌, ◌-◌, ◌*◌, ◌^◌, ◌<◌, ◌≤◌, ◌==◌, ◌||◌, not, IsTrue, false};
ghost use Rattle.packet_grammar.specs.Fields.{continues, is_last};
ghost use Rattle.packet_reader.specs.States.{FitsField};

use crate::fields::{CONTINUES, is_last};
use crate::groups::{with_byte, with_group};
use crate::state::Field;

/// A 00 of an A-sync, before its last one.
pub fn zero_goes_on(left: &mut u8, byte: u8) -> bool
    ensures within { result ≡ not ((left.old == 0) || not (byte == 0x00)) }
    ensures left { IsTrue result → left.old ≡ left.new + 1 }
    ensures same { result ≡ false → left.new ≡ left.old }
{
    if *left == 0 || byte != 0x00 {
        return false;
    }
    *left -= 1;
    true
}

/// A group that says that another one follows.
pub fn group_goes_on(left: &mut u8, groups: &mut u8, value: &mut u64, byte: u8) -> bool
    requires { (left.old + groups.old ≤ 8) × (value.old < 128 ^ groups.old) }
    ensures within { result ≡ not ((left.old == 0) || is_last byte) }
    ensures left { IsTrue result → left.old ≡ left.new + 1 }
    ensures groups { IsTrue result → groups.new ≡ groups.old + 1 }
    ensures value { IsTrue result → value.new ≡ value.old + (byte - continues) * 128 ^ groups.old }
    ensures fits { value.new < 128 ^ groups.new }
    ensures same { result ≡ false → (left.new ≡ left.old) × (groups.new ≡ groups.old) × (value.new ≡ value.old) }
{
    if *left == 0 || is_last(byte) {
        return false;
    }
    *value = with_group(*value, byte - CONTINUES, *groups);
    *left -= 1;
    *groups += 1;
    true
}

/// A byte of a field, before its last one.
pub fn byte_goes_on(field: &mut Field, byte: u8) -> bool
    requires { FitsField 6 field.old }
    ensures within { result ≡ not (field.old.left == 1) }
    ensures left { IsTrue result → field.old.left ≡ field.new.left + 1 }
    ensures count { IsTrue result → field.new.count ≡ field.old.count + 1 }
    ensures value { IsTrue result → field.new.value ≡ field.old.value + byte * 256 ^ field.old.count }
    ensures fits { (1 ≤ field.new.left) × (field.new.value < 256 ^ field.new.count) }
    ensures same { result ≡ false → field.new ≡ field.old }
{
    if field.left == 1 {
        return false;
    }
    field.value = with_byte(field.value, byte, field.count);
    field.left -= 1;
    field.count += 1;
    true
}

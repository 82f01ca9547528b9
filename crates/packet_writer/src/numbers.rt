//! Numbers in groups of seven bits or in bytes, the low ones first (Arm IHI 0064, "Descriptions of Trace Packets":
//! fields with a continuation bit).
ghost use Rattle.std.specs.Prelude.{◌≡◌, ◌+◌, ◌-◌, ◌*◌, ◌/◌, ◌^◌, ◌<◌, ◌≤◌, ◌++◌, length};
ghost use Rattle.packet_writer.specs.Numbers.{number, time_stamp, low_bytes};

use crate::buffer::Buffer;
use byteorder::{ByteOrder, LittleEndian};

/// The continuation bit, bit 7: where it is 1 another byte follows.
pub const CONTINUES: u8 = 0x80;

/// How many values a group of seven bits has.
const GROUP: u32 = 1 << 7;

/// Puts a number in as few bytes as it needs.
pub fn put_number(out: &mut Buffer, n: u32)
    requires { length out.old + 5 ≤ 24 }
    ensures bytes { out.new ≡ out.old ++ number n }
    ensures at_most_five { length out.new ≤ length out.old + 5 }
{
    let mut rest = n;
    while rest >= GROUP {
        out.put(CONTINUES + (rest % GROUP) as u8);
        rest /= GROUP;
    }
    out.put(rest as u8);
}

/// Puts the lowest bits of a timestamp, seven in each byte, or all 64 in nine bytes.
pub fn put_time_stamp(out: &mut Buffer, bits: u8, low: u64)
    requires room { length out.old + 9 ≤ 24 }
    requires some { (7 ≤ bits) × (bits ≤ 64) }
    requires fits { low < 256 * 128 ^ (bits / 7 - 1) }
    ensures { out.new ≡ out.old ++ time_stamp bits low }
{
    let mut rest = low;
    for _ in 1..bits / 7 {
        out.put(CONTINUES + (rest % u64::from(GROUP)) as u8);
        rest /= u64::from(GROUP);
    }
    out.put(rest as u8);
}

/// Puts so many bytes of a number.
pub fn put_low_bytes(out: &mut Buffer, size: usize, n: u64)
    requires few { size ≤ 8 }
    requires room { length out.old + size ≤ 24 }
    ensures bytes { out.new ≡ out.old ++ low_bytes size n }
    ensures count { length out.new ≡ length out.old + size }
{
    let mut all = [0; 8];
    LittleEndian::write_u64(&mut all, n);
    out.put_all(&all[..size]);
}

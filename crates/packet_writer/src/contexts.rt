//! Contexts and addresses (Arm IHI 0064, "Context packet", "Address with Context packet", "Short Address packet", "Long
//! Address packets"). Each bit that a reader passes over is 0.
ghost use Rattle.std.specs.Prelude.{◌≡◌, ◌+◌, ◌/◌, ◌%◌, ◌^◌, ◌<◌, ◌≤◌, ◌++◌, length};
ghost use Rattle.packet_grammar.specs.Ranges.{IsContext};
ghost use Rattle.packet_writer.specs.Contexts.{bit_where, context, info_byte, long, short_1, short_2, sized};

use crate::buffer::Buffer;
use crate::numbers::{CONTINUES, put_low_bytes};
use etm_types::{CtxBits, Settings};

/// Bit 4 (SF) of an info byte: AArch64 state.
const AARCH64: u8 = 1 << 4;

/// Where the bits of an address's first byte stand in the address.
const FIRST: u32 = 2;

/// Where those of the second byte stand.
const SECOND: u32 = FIRST + 7;

/// Where those of the third byte stand. From there on the bytes are whole.
const THIRD: u32 = 16;

/// Puts an info byte with its fields.
pub fn put_context(out: &mut Buffer, settings: &Settings, ctx: &CtxBits)
    requires room { length out.old + 9 ≤ 24 }
    requires fits { IsContext settings.now ctx.now }
    ensures { out.new ≡ out.old ++ context settings.now ctx.now }
{
    out.put(info_byte(ctx));
    put_sized(out, settings.vmid_bytes(), ctx.vmid);
    put_sized(out, settings.cid_bytes(), ctx.cid);
}

/// The byte that says what a context is and which fields follow.
fn info_byte(ctx: &CtxBits) -> u8
    requires { ctx.now.el ≤ 3 }
    ensures { result ≡ info_byte ctx.now }
{
    ctx.el
        + AARCH64
        + bit_where(5, ctx.ns)
        + bit_where(6, ctx.vmid.is_some())
        + bit_where(7, ctx.cid.is_some())
}

/// The bit at a place, 1 where this is so.
pub fn bit_where(place: u8, so: bool) -> u8
    requires { place ≤ 7 }
    ensures { result ≡ bit_where place so }
{
    if so { 1 << place } else { 0 }
}

/// Puts a number of so many bytes, where it is there.
fn put_sized(out: &mut Buffer, size: u8, value: Option<u32>)
    requires few { size ≤ 4 }
    requires room { length out.old + size ≤ 24 }
    ensures bytes { out.new ≡ out.old ++ sized size value }
    ensures at_most { length out.new ≤ length out.old + size }
{
    if let Some(n) = value {
        put_low_bytes(out, usize::from(size), u64::from(n));
    }
}

/// Puts bits 8 to 2 of an address.
pub fn put_short_1(out: &mut Buffer, address: u64)
    requires { length out.old < 24 }
    ensures { out.new ≡ out.old ++ short_1 address }
{
    out.put(group(address, FIRST));
}

/// Puts bits 8 to 2 of an address, and behind the continuation bit bits 16 to 9.
pub fn put_short_2(out: &mut Buffer, address: u64)
    requires fits { address < 2 ^ 17 }
    requires room { length out.old + 2 ≤ 24 }
    ensures { out.new ≡ out.old ++ short_2 address }
{
    out.put(CONTINUES + group(address, FIRST));
    out.put((address >> SECOND) as u8);
}

/// Puts bits 8 to 2 of an address, bits 15 to 9, and so many whole bytes from bit 16 on.
pub fn put_long(out: &mut Buffer, address: u64, size: usize)
    requires few { size ≤ 6 }
    requires room { length out.old + size + 2 ≤ 24 }
    ensures bytes { out.new ≡ out.old ++ long size address }
    ensures count { length out.new ≡ length out.old + size + 2 }
{
    out.put(group(address, FIRST));
    out.put(group(address, SECOND));
    put_low_bytes(out, size, address >> THIRD);
}

/// The seven bits of an address from a place on.
fn group(address: u64, place: u32) -> u8
    requires { place ≤ 9 }
    ensures value { result ≡ address / 2 ^ place % 2 ^ 7 }
    ensures below { result < 128 }
{
    ((address >> place) % 0x80) as u8
}

//! Packets in the order of the standard (Arm IHI 0064, "Descriptions of Trace Packets").
ghost use Rattle.std.specs.Prelude.{◌≡◌, ◌+◌, ◌<◌, ◌≤◌, ◌∷◌, ◌++◌, All, List, [], ℕ, length, take, if◌then◌else◌};
ghost use Rattle.etm_types.specs.AddrForm.{IsAddrForm};
ghost use Rattle.etm_types.specs.Settings.{Sizes};
ghost use Rattle.packet_grammar.specs.Spelling.{SpellsPacket};
ghost use Rattle.packet_writer.specs.Fitting.{Fits, HasSpelling};
ghost use Rattle.packet_writer.specs.Laws.{PassedOverAreZero};
ghost use Rattle.packet_writer.specs.Numbers.{number};
ghost use Rattle.packet_writer.specs.Spelling.{control, section, spelling};

use crate::atoms::{byte_of, few};
use crate::buffer::{Buffer, PACKET_ROOM};
use crate::contexts::{bit_where, put_context, put_long, put_short_1, put_short_2};
use crate::numbers::{put_number, put_time_stamp};
use etm_types::{AddrForm, CtxBits, Settings};
use packet_grammar::Packet;
use packet_grammar::headers::{
    ADDRESS_32_WITH_CONTEXT, ADDRESS_64_WITH_CONTEXT, CANCEL_FORMAT_1, CANCEL_FORMAT_1_MISPREDICT,
    CANCEL_FORMAT_2, CANCEL_FORMAT_3, COMMIT, CONTEXT, CONTEXT_INFO, DISCARD, END_OF_SYNC,
    EXACT_MATCH, EXCEPTION, EXTENSION, IGNORE, LONG_ADDRESS_32, LONG_ADDRESS_64, MISPREDICT,
    OVERFLOW, SHORT_ADDRESS, TIMESTAMP, TRACE_INFO, TRACE_ON,
};

/// How many whole bytes a 32-bit and a 64-bit long address have from bit 16 on.
const HIGH_32: usize = 2;

const HIGH_64: usize = 6;

/// Writes the shortest spelling of a packet to the front of `out`, and tells how many bytes it has. Each bit that a reader
/// passes over is 0.
pub fn write_packet(packet: &Packet, settings: &Settings, out: &mut [u8; PACKET_ROOM]) -> usize
    requires { HasSpelling settings.now packet.now }
    ensures bytes { take result out.new ≡ spelling settings.now packet.now }
    ensures count { result ≡ length (spelling settings.now packet.now) }
    ensures some { (1 ≤ result) × (result ≤ 24) }
    ensures spells { SpellsPacket settings.now packet.now (take result out.new) }
    ensures passed_over { PassedOverAreZero settings.now packet.now (take result out.new) }
    ensures shortest { (other : List ℕ) → All (λ b. b < 256) other → SpellsPacket settings.now packet.now other → result ≤ length other }
{
    let mut bytes = Buffer::new();
    put_packet(&mut bytes, packet, settings);
    bytes.write(out)
}

/// Puts the bytes of a packet.
fn put_packet(out: &mut Buffer, packet: &Packet, settings: &Settings)
    requires nothing { out.old ≡ [] }
    requires fits { Fits settings.now packet.now }
    ensures { out.new ≡ spelling settings.now packet.now }
{
    match *packet {
        Packet::Async => out.put_all(&[0, 0, 0, 0, 0, 0, 0, 0, 0, 0, 0, END_OF_SYNC]),
        Packet::Discard => out.put_all(&[EXTENSION, DISCARD]),
        Packet::Overflow => out.put_all(&[EXTENSION, OVERFLOW]),
        Packet::Info {
            info,
            key,
            spec,
            cyct,
        } => put_info(out, info, key, spec, cyct),
        Packet::Time { bits, low } => {
            out.put(TIMESTAMP);
            put_time_stamp(out, bits, low);
        }
        Packet::On => out.put(TRACE_ON),
        Packet::Exc { kind, target } => put_exception(out, kind, target),
        Packet::Commit(n) => put_counted(out, COMMIT, n),
        Packet::Cancel { n, flip } => put_counted(out, cancel_format_1(flip), n),
        Packet::Mispredict(atoms) => out.put(MISPREDICT + few(&atoms)),
        Packet::Cancel2(atoms) => out.put(CANCEL_FORMAT_2 + few(&atoms)),
        Packet::Cancel3 { e, n } => out.put(CANCEL_FORMAT_3 + (n - 2) * 2 + bit_where(0, e)),
        Packet::Ignore => out.put(IGNORE),
        Packet::Event(n) => out.put(IGNORE + n),
        Packet::CtxSame => out.put(CONTEXT),
        Packet::CtxInfo(ctx) => {
            out.put(CONTEXT_INFO);
            put_context(out, settings, &ctx);
        }
        Packet::Addr { form, ctx } => put_address(out, settings, &form, &ctx),
        Packet::Atoms(run) => out.put(byte_of(&run)),
    }
}

/// The header of a Cancel Format 1 packet.
fn cancel_format_1(flip: bool) -> u8
    ensures { result ≡ (if flip then 0x2f else 0x2e) }
{
    if flip {
        return CANCEL_FORMAT_1_MISPREDICT;
    }
    CANCEL_FORMAT_1
}

/// Puts an exception packet.
fn put_exception(out: &mut Buffer, kind: u8, target: bool)
    requires nothing { out.old ≡ [] }
    requires type_fits { kind < 32 }
    ensures { (settings : Sizes) → out.new ≡ spelling settings (Packet.Exc kind target) }
{
    out.put(EXCEPTION);
    out.put(kind * 2 + bit_where(6, target) + bit_where(0, !target));
}

/// Puts a trace info packet.
fn put_info(
    out: &mut Buffer,
    info: Option<u32>,
    key: Option<u32>,
    spec: Option<u32>,
    cyct: Option<u32>,
)
    requires { length out.old + 22 ≤ 24 }
    ensures { out.new ≡ out.old ++ 0x01 ∷ control info key spec cyct ∷ section info ++ (section key ++ (section spec ++ section cyct)) }
{
    out.put(TRACE_INFO);
    out.put(
        bit_where(0, info.is_some())
            + bit_where(1, key.is_some())
            + bit_where(2, spec.is_some())
            + bit_where(3, cyct.is_some()),
    );
    put_section(out, info);
    put_section(out, key);
    put_section(out, spec);
    put_section(out, cyct);
}

/// Puts a section of a trace info packet.
fn put_section(out: &mut Buffer, number: Option<u32>)
    requires { length out.old + 5 ≤ 24 }
    ensures bytes { out.new ≡ out.old ++ section number }
    ensures at_most_five { length out.new ≤ length out.old + 5 }
{
    if let Some(n) = number {
        put_number(out, n);
    }
}

/// Puts a header and a number.
fn put_counted(out: &mut Buffer, header: u8, n: u32)
    requires { length out.old + 6 ≤ 24 }
    ensures { out.new ≡ out.old ++ header ∷ number n }
{
    out.put(header);
    put_number(out, n);
}

/// Puts an address packet.
fn put_address(out: &mut Buffer, settings: &Settings, form: &AddrForm, ctx: &Option<CtxBits>)
    requires nothing { out.old ≡ [] }
    requires fits { Fits settings.now (Packet.Addr form.now ctx.now) }
    ensures { out.new ≡ spelling settings.now (Packet.Addr form.now ctx.now) }
{
    match ctx {
        Some(ctx) => put_address_with_context(out, settings, form, ctx),
        None => put_address_alone(out, form),
    }
}

/// Puts an address packet without a context.
fn put_address_alone(out: &mut Buffer, form: &AddrForm)
    requires nothing { out.old ≡ [] }
    requires fits { IsAddrForm form.now }
    ensures { (settings : Sizes) → out.new ≡ spelling settings (Packet.Addr form.now None) }
{
    match *form {
        AddrForm::Match(index) => out.put(EXACT_MATCH + index),
        AddrForm::Short1(address) => {
            out.put(SHORT_ADDRESS);
            put_short_1(out, address);
        }
        AddrForm::Short2(address) => {
            out.put(SHORT_ADDRESS);
            put_short_2(out, address);
        }
        AddrForm::Long32(address) => {
            out.put(LONG_ADDRESS_32);
            put_long(out, address, HIGH_32);
        }
        AddrForm::Long64(address) => {
            out.put(LONG_ADDRESS_64);
            put_long(out, address, HIGH_64);
        }
    }
}

/// Puts an address with context packet.
fn put_address_with_context(out: &mut Buffer, settings: &Settings, form: &AddrForm, ctx: &CtxBits)
    requires nothing { out.old ≡ [] }
    requires fits { Fits settings.now (Packet.Addr form.now (Some ctx.now)) }
    ensures { out.new ≡ spelling settings.now (Packet.Addr form.now (Some ctx.now)) }
{
    match *form {
        AddrForm::Long32(address) => {
            out.put(ADDRESS_32_WITH_CONTEXT);
            put_long(out, address, HIGH_32);
        }
        AddrForm::Long64(address) => {
            out.put(ADDRESS_64_WITH_CONTEXT);
            put_long(out, address, HIGH_64);
        }
        _ => unreachable!(),
    }
    put_context(out, settings, ctx);
}

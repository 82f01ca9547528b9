//! The texts of packets.
ghost use Rattle.std.specs.Prelude.{◌≡◌, ◌+◌, ◌++◌, ◌≤◌, length, codes};
ghost use Rattle.etm_types.specs.Atoms.{IsFewAtoms, most_atoms};
ghost use Rattle.path_text.specs.Lines.{HasRoom, AddsAtMost, hex, decimal, number_or_dash};
ghost use Rattle.path_text.specs.PacketLines.{HasText, atoms_text, few_text, form_text};
ghost use Rattle.path_text.specs.PacketLines.{told_context_text, carried_text, mispredict_text, packet_text, target_text};

use crate::line::Line;
use etm_types::{AddrForm, AtomRun, CtxBits, FewAtoms};
use packet_grammar::Packet;

/// Adds a number in decimal, or a dash where there is none.
fn add_decimal(line: &mut Line, n: Option<u32>)
    requires { HasRoom 10 line.old }
    ensures value { line.new ≡ line.old ++ number_or_dash decimal n }
    ensures short { AddsAtMost 10 line.old line.new }
{
    match n {
        Some(n) => line.decimal_u32(n),
        None => line.text(b"-"),
    }
}

/// Adds a number in hex, or a dash where there is none.
fn add_hex(line: &mut Line, n: Option<u32>)
    requires { HasRoom 8 line.old }
    ensures value { line.new ≡ line.old ++ number_or_dash hex n }
    ensures short { AddsAtMost 8 line.old line.new }
{
    match n {
        Some(n) => line.hex_u32(n),
        None => line.text(b"-"),
    }
}

/// Adds the numbers of a trace info packet.
fn add_info(
    line: &mut Line,
    info: Option<u32>,
    key: Option<u32>,
    spec: Option<u32>,
    cyct: Option<u32>,
)
    requires { HasRoom 48 line.old }
    ensures value { line.new ≡ line.old ++ packet_text (Packet.Info info key spec cyct) }
    ensures short { AddsAtMost 48 line.old line.new }
{
    line.text(b"info ");
    add_decimal(line, info);
    line.text(b" ");
    add_decimal(line, key);
    line.text(b" ");
    add_decimal(line, spec);
    line.text(b" ");
    add_decimal(line, cyct);
}

/// Adds an event packet.
fn add_event(line: &mut Line, n: u8)
    requires { HasRoom 9 line.old }
    ensures value { line.new ≡ line.old ++ packet_text (Packet.Event n) }
    ensures short { AddsAtMost 9 line.old line.new }
{
    line.text(b"event ");
    line.decimal_u8(n);
}

/// Adds a timestamp packet.
fn add_time(line: &mut Line, bits: u8, low: u64)
    requires { HasRoom 29 line.old }
    ensures value { line.new ≡ line.old ++ packet_text (Packet.Time bits low) }
    ensures short { AddsAtMost 29 line.old line.new }
{
    line.text(b"time ");
    line.decimal_u8(bits);
    line.text(b" ");
    line.decimal(low);
}

/// Adds that the address of an exception is a target too, where it is.
fn add_target(line: &mut Line, target: bool)
    requires { HasRoom 7 line.old }
    ensures value { line.new ≡ line.old ++ target_text target }
    ensures short { AddsAtMost 7 line.old line.new }
{
    if target {
        line.text(b" target");
    }
}

/// Adds an exception packet.
fn add_exception(line: &mut Line, kind: u8, target: bool)
    requires { HasRoom 14 line.old }
    ensures value { line.new ≡ line.old ++ packet_text (Packet.Exc kind target) }
    ensures short { AddsAtMost 14 line.old line.new }
{
    line.text(b"exc ");
    line.decimal_u8(kind);
    add_target(line, target);
}

/// Adds a commit packet.
fn add_commit(line: &mut Line, n: u32)
    requires { HasRoom 17 line.old }
    ensures value { line.new ≡ line.old ++ packet_text (Packet.Commit n) }
    ensures short { AddsAtMost 17 line.old line.new }
{
    line.text(b"commit ");
    line.decimal_u32(n);
}

/// Adds that a prediction was wrong, where it was.
fn add_mispredict(line: &mut Line, flip: bool)
    requires { HasRoom 11 line.old }
    ensures value { line.new ≡ line.old ++ mispredict_text flip }
    ensures short { AddsAtMost 11 line.old line.new }
{
    if flip {
        line.text(b" mispredict");
    }
}

/// Adds a cancel packet of format 1.
fn add_cancel(line: &mut Line, n: u32, flip: bool)
    requires { HasRoom 28 line.old }
    ensures value { line.new ≡ line.old ++ packet_text (Packet.Cancel n flip) }
    ensures short { AddsAtMost 28 line.old line.new }
{
    line.text(b"cancel ");
    line.decimal_u32(n);
    add_mispredict(line, flip);
}

/// Adds the name of a packet, and then no atom, E, EE or N.
fn add_few(line: &mut Line, name: &[u8], few: &FewAtoms)
    requires room { HasRoom 13 line.old }
    requires name { length name.now ≤ 11 }
    requires few { IsFewAtoms few.now }
    ensures value { line.new ≡ line.old ++ (name.now ++ few_text few.now) }
    ensures short { AddsAtMost 13 line.old line.new }
{
    line.text(name);
    match (few.count, few.first) {
        (0, _) => line.text(b"-"),
        (2, _) => line.text(b"EE"),
        (_, true) => line.text(b"E"),
        (_, false) => line.text(b"N"),
    }
}

/// Adds a cancel packet of format 3.
fn add_cancel3(line: &mut Line, e: bool, n: u8)
    requires { HasRoom 13 line.old }
    ensures value { line.new ≡ line.old ++ packet_text (Packet.Cancel3 e n) }
    ensures short { AddsAtMost 13 line.old line.new }
{
    if e {
        line.text(b"cancel3 E ");
    } else {
        line.text(b"cancel3 - ");
    }
    line.decimal_u8(n);
}

/// Adds the fields of a context that a packet has.
fn add_context(line: &mut Line, ctx: &CtxBits)
    requires { HasRoom 30 line.old }
    ensures value { line.new ≡ line.old ++ told_context_text ctx.now }
    ensures short { AddsAtMost 30 line.old line.new }
{
    line.text(b"ctx el");
    line.decimal_u8(ctx.el);
    if ctx.ns {
        line.text(b" ns ");
    } else {
        line.text(b" s ");
    }
    add_hex(line, ctx.vmid);
    line.text(b" ");
    add_hex(line, ctx.cid);
}

/// Adds the form of an address.
fn add_form(line: &mut Line, form: &AddrForm)
    requires { HasRoom 23 line.old }
    ensures value { line.new ≡ line.old ++ form_text form.now }
    ensures short { AddsAtMost 23 line.old line.new }
{
    match *form {
        AddrForm::Match(index) => {
            line.text(b"match ");
            line.decimal_u8(index);
        }
        AddrForm::Short1(value) => {
            line.text(b"short1 ");
            line.hex(value);
        }
        AddrForm::Short2(value) => {
            line.text(b"short2 ");
            line.hex(value);
        }
        AddrForm::Long32(value) => {
            line.text(b"long32 ");
            line.hex(value);
        }
        AddrForm::Long64(value) => {
            line.text(b"long64 ");
            line.hex(value);
        }
    }
}

/// Adds an address packet.
pub fn add_address(line: &mut Line, form: &AddrForm, ctx: &Option<CtxBits>)
    requires { HasRoom 59 line.old }
    ensures value { line.new ≡ line.old ++ packet_text (Packet.Addr form.now ctx.now) }
    ensures short { AddsAtMost 59 line.old line.new }
{
    line.text(b"addr ");
    add_form(line, form);
    if let Some(ctx) = ctx {
        line.text(b" ");
        add_context(line, ctx);
    }
}

/// Adds the letters of a run of atoms, the oldest first.
#[inline(always)]
pub fn add_atoms(line: &mut Line, run: &AtomRun)
    requires room { HasRoom 30 line.old }
    requires most { run.now.count ≤ most_atoms }
    ensures value { line.new ≡ line.old ++ packet_text (Packet.Atoms run.now) }
    ensures short { AddsAtMost 30 line.old line.new }
{
    line.text(b"atoms ");
    line.atoms(run);
}

/// Adds the text of a packet.
pub fn add_packet(line: &mut Line, packet: &Packet)
    requires room { HasRoom 59 line.old }
    requires has_text { HasText packet.now }
    ensures value { line.new ≡ line.old ++ packet_text packet.now }
    ensures short { AddsAtMost 59 line.old line.new }
{
    match packet {
        Packet::Async => line.text(b"async"),
        Packet::Discard => line.text(b"discard"),
        Packet::Overflow => line.text(b"overflow"),
        Packet::On => line.text(b"on"),
        Packet::Ignore => line.text(b"ignore"),
        Packet::Info {
            info,
            key,
            spec,
            cyct,
        } => add_info(line, *info, *key, *spec, *cyct),
        Packet::Event(n) => add_event(line, *n),
        Packet::Time { bits, low } => add_time(line, *bits, *low),
        Packet::Exc { kind, target } => add_exception(line, *kind, *target),
        Packet::Commit(n) => add_commit(line, *n),
        Packet::Cancel { n, flip } => add_cancel(line, *n, *flip),
        Packet::Mispredict(few) => add_few(line, b"mispredict ", few),
        Packet::Cancel2(few) => add_few(line, b"cancel2 ", few),
        Packet::Cancel3 { e, n } => add_cancel3(line, *e, *n),
        Packet::CtxSame => line.text(b"ctx same"),
        Packet::CtxInfo(ctx) => add_context(line, ctx),
        Packet::Addr { form, ctx } => add_address(line, form, ctx),
        Packet::Atoms(run) => add_atoms(line, run),
    }
}

//! What a header makes of a packet, in the order of the headers (Arm IHI 0064, "Descriptions of Trace
//! Packets"). Headers of packets that are read have names; those that are refused stand by their numbers, which the fault tells.
ghost use Rattle.std.specs.Prelude.{◌≡◌, ◌<◌, ◌≤◌};
ghost use Rattle.packet_reader.specs.States.{HeadsBy, IsRun, FitsAfter};

use crate::fields::{field, lowest};
use crate::state::{Long, Progress, Purpose, State};
use atom_formats::atoms_of;
use etm_types::{AddrForm, AtomRun, FewAtoms};
use packet_grammar::headers::{
    ADDRESS_32_WITH_CONTEXT, ADDRESS_64_WITH_CONTEXT, ATOMS, CANCEL_FORMAT_1,
    CANCEL_FORMAT_1_MISPREDICT, CANCEL_FORMAT_2, CANCEL_FORMAT_3, COMMIT, CONTEXT, CONTEXT_INFO,
    EVENT, EXACT_MATCH, EXCEPTION, EXTENSION, IGNORE, LAST_ATOMS, LAST_CANCEL_FORMAT_2,
    LAST_CANCEL_FORMAT_3, LAST_EVENT, LAST_EXACT_MATCH, LAST_MISPREDICT, LONG_ADDRESS_32,
    LONG_ADDRESS_64, MISPREDICT, SHORT_ADDRESS, TIMESTAMP, TRACE_INFO, TRACE_ON,
};
use packet_grammar::{Packet, PacketFault, RefusedKind};

/// What a header makes of a packet. Most headers are those of atom packets, so these come first.
pub fn header(h: u8) -> Progress
    ensures row { HeadsBy h result }
    ensures fits { FitsAfter result }
{
    match h {
        ATOMS..=LAST_ATOMS => whole(Packet::Atoms(run_of(h))),
        0x00..=0x3f => first_headers(h),
        0x40..=0x7f => middle_headers(h),
        0x80..=0x9f => address_headers(h),
        _ => last_headers(h),
    }
}

/// Synchronization, trace info, timestamps, exceptions, and the resolution of speculation.
fn first_headers(h: u8) -> Progress
    requires { h ≤ 0x3f }
    ensures row { HeadsBy h result }
    ensures fits { FitsAfter result }
{
    match h {
        EXTENSION => Progress::Next(State::Extension),
        TRACE_INFO => Progress::Next(State::Control),
        TIMESTAMP => time_stamp(),
        0x03 => refused(RefusedKind::TimeCycle, h),
        TRACE_ON => whole(Packet::On),
        0x05 => refused(RefusedKind::MProfile, h),
        EXCEPTION => Progress::Next(State::Exception),
        0x07 => refused(RefusedKind::MProfile, h),
        0x08..=0x0b => reserved(h),
        0x0c..=0x1f => refused(RefusedKind::CycleCount, h),
        0x20..=0x2c => refused(RefusedKind::DataSync, h),
        COMMIT..=CANCEL_FORMAT_1_MISPREDICT => number(purpose_of(h)),
        MISPREDICT..=LAST_CANCEL_FORMAT_3 => whole(correction_of(h)),
        _ => unreachable!(),
    }
}

/// Conditional instructions and events.
fn middle_headers(h: u8) -> Progress
    requires { (0x40 ≤ h) × (h ≤ 0x7f) }
    ensures row { HeadsBy h result }
    ensures fits { FitsAfter result }
{
    match h {
        0x40..=0x46 => refused(RefusedKind::Conditional, h),
        0x47 => reserved(h),
        0x48..=0x4a => refused(RefusedKind::Conditional, h),
        0x4b => reserved(h),
        0x4c..=0x4e => refused(RefusedKind::Conditional, h),
        0x4f => reserved(h),
        0x50..=0x5f => refused(RefusedKind::Conditional, h),
        0x60..=0x67 => reserved(h),
        0x68..=0x6f => refused(RefusedKind::Conditional, h),
        IGNORE => whole(Packet::Ignore),
        EVENT..=LAST_EVENT => whole(event(h)),
        _ => unreachable!(),
    }
}

/// Contexts and addresses.
fn address_headers(h: u8) -> Progress
    requires { (0x80 ≤ h) × (h ≤ 0x9f) }
    ensures row { HeadsBy h result }
    ensures fits { FitsAfter result }
{
    match h {
        CONTEXT => whole(Packet::CtxSame),
        CONTEXT_INFO => Progress::Next(State::Context { form: None }),
        ADDRESS_32_WITH_CONTEXT => long(false, true),
        0x83 => refused(RefusedKind::Aarch32Address, h),
        0x84 => reserved(h),
        ADDRESS_64_WITH_CONTEXT => long(true, true),
        0x86 => refused(RefusedKind::Aarch32Address, h),
        0x87..=0x8f => reserved(h),
        EXACT_MATCH..=LAST_EXACT_MATCH => whole(match_address(h)),
        0x93..=0x94 => reserved(h),
        SHORT_ADDRESS => Progress::Next(State::Short),
        0x96 => refused(RefusedKind::Aarch32Address, h),
        0x97..=0x99 => reserved(h),
        LONG_ADDRESS_32 => long(false, false),
        0x9b => refused(RefusedKind::Aarch32Address, h),
        0x9c => reserved(h),
        LONG_ADDRESS_64 => long(true, false),
        0x9e => refused(RefusedKind::Aarch32Address, h),
        0x9f => reserved(h),
        _ => unreachable!(),
    }
}

/// Counts of executed instructions (Q elements).
fn last_headers(h: u8) -> Progress
    requires { (0xa0 ≤ h) × (h ≤ 0xbf) }
    ensures row { HeadsBy h result }
    ensures fits { FitsAfter result }
{
    match h {
        0xa0..=0xa2 => refused(RefusedKind::Q, h),
        0xa3..=0xa4 => reserved(h),
        0xa5..=0xa6 => refused(RefusedKind::Q, h),
        0xa7..=0xa9 => reserved(h),
        0xaa..=0xac => refused(RefusedKind::Q, h),
        0xad..=0xae => reserved(h),
        0xaf => refused(RefusedKind::Q, h),
        0xb0..=0xbf => reserved(h),
        _ => unreachable!(),
    }
}

ghost use Rattle.std.specs.Prelude.{Ok, Err, None, ◌==◌, ◌+◌, ◌-◌};
ghost use Rattle.packet_grammar.specs.Headers.{few_atoms};
ghost use Rattle.packet_grammar.specs.Fields.{field, lowest};

/// The header is all.
fn whole(packet: Packet) -> Progress
    ensures { result ≡ Progress.Done (Ok packet) }
{
    Progress::Done(Ok(packet))
}

fn refused(kind: RefusedKind, h: u8) -> Progress
    ensures { result ≡ Progress.Done (Err (PacketFault.Refused kind h)) }
{
    Progress::Done(Err(PacketFault::Refused(kind, h)))
}

fn reserved(h: u8) -> Progress
    ensures { result ≡ Progress.Done (Err (PacketFault.Reserved h)) }
{
    Progress::Done(Err(PacketFault::Reserved(h)))
}

/// A number follows.
fn number(purpose: Purpose) -> Progress
    ensures { result ≡ Progress.Next (State.Number purpose 4 0 0) }
{
    Progress::Next(State::Number {
        purpose,
        left: 4,
        groups: 0,
        value: 0,
    })
}

/// A long address follows.
fn long(wide: bool, with_context: bool) -> Progress
    ensures { result ≡ Progress.Next (State.LongFirst (record { wide = wide; with_context = with_context })) }
{
    Progress::Next(State::LongFirst {
        long: Long { wide, with_context },
    })
}

/// Mispredict and Cancel Format 2 packets: bits 1 and 0 (A) are no atom, E, EE, N.
fn few_atoms(h: u8) -> FewAtoms
    ensures { result ≡ few_atoms h }
{
    match lowest(2, h) {
        0 => FewAtoms {
            count: 0,
            first: false,
        },
        1 => FewAtoms {
            count: 1,
            first: true,
        },
        2 => FewAtoms {
            count: 2,
            first: true,
        },
        _ => FewAtoms {
            count: 1,
            first: false,
        },
    }
}

/// Cancel Format 3 packet: bit 0 (A) is an atom E, and bits 2 and 1 (CC) are the number of elements less 2.
fn cancel_3(h: u8) -> Packet
    ensures { result ≡ Packet.Cancel3 (lowest 1 h == 1) (field 2 1 h + 2) }
{
    Packet::Cancel3 {
        e: lowest(1, h) == 1,
        n: field(2, 1, h) + 2,
    }
}

/// Exact Match Address packet: an address of the history, by its index.
fn match_address(h: u8) -> Packet
    requires { 0x90 ≤ h }
    ensures { result ≡ Packet.Addr (AddrForm.Match (h - 0x90)) None }
{
    Packet::Addr {
        form: AddrForm::Match(h - EXACT_MATCH),
        ctx: None,
    }
}

/// Event packet: bits 3 to 0 (EVENT) are the events.
fn event(h: u8) -> Packet
    ensures { result ≡ Packet.Event (lowest 4 h) }
{
    Packet::Event(lowest(4, h))
}

/// A timestamp follows.
fn time_stamp() -> Progress
    ensures { result ≡ Progress.Next (State.Stamp 8 0 0) }
{
    Progress::Next(State::Stamp {
        left: 8,
        groups: 0,
        low: 0,
    })
}

/// The atoms of an atom packet, which its header alone holds.
#[inline(always)]
pub fn run_of(h: u8) -> AtomRun
    requires { 0xc0 ≤ h }
    ensures run { IsRun h (Progress.Done (Ok (Packet.Atoms result))) }
    ensures fits { FitsAfter (Progress.Done (Ok (Packet.Atoms result))) }
    ensures row { HeadsBy h (Progress.Done (Ok (Packet.Atoms result))) }
{
    match atoms_of(h) {
        Some(run) => run,
        None => unreachable!(),
    }
}

/// The Mispredict packet, or the Cancel packet of format 2 or 3, which its header alone holds.
#[inline(always)]
fn correction_of(h: u8) -> Packet
    requires { (0x30 ≤ h) × (h ≤ 0x3f) }
    ensures { HeadsBy h (Progress.Done (Ok result)) }
{
    match h {
        MISPREDICT..=LAST_MISPREDICT => Packet::Mispredict(few_atoms(h)),
        CANCEL_FORMAT_2..=LAST_CANCEL_FORMAT_2 => Packet::Cancel2(few_atoms(h)),
        CANCEL_FORMAT_3..=LAST_CANCEL_FORMAT_3 => cancel_3(h),
        _ => unreachable!(),
    }
}

/// What the number behind the header of a commit packet or a Cancel Format 1 packet is for.
#[inline(always)]
fn purpose_of(h: u8) -> Purpose
    requires { (0x2d ≤ h) × (h ≤ 0x2f) }
    ensures { HeadsBy h (Progress.Next (State.Number result 4 0 0)) }
{
    match h {
        COMMIT => Purpose::Commit,
        CANCEL_FORMAT_1 => Purpose::Cancel { flip: false },
        CANCEL_FORMAT_1_MISPREDICT => Purpose::Cancel { flip: true },
        _ => unreachable!(),
    }
}

//! What a byte makes of the begun packet (Arm IHI 0064, "Descriptions of Trace Packets"). Those of addresses and contexts are in [`addresses`].
ghost use Rattle.std.specs.Prelude.{◌≡◌, ◌==◌, ◌||◌, IsTrue};
ghost use Rattle.etm_types.specs.Settings.{Sizes};
ghost use Rattle.packet_grammar.specs.Fields.{is_last};
ghost use Rattle.packet_reader.specs.Trees.{after, known, number_tree, stamp_tree, sync_tree};
ghost use Rattle.packet_reader.specs.States.{tree_of, tree_after, progress_of, made_of, Fits, FitsAfter, behind_number, mode_tree, key_tree};
ghost use Rattle.packet_reader.specs.States.{spec_tree, cycles_tree, extension_tree, control_tree, exception_tree};

mod addresses;

use self::addresses::{cid, context, long_first, long_high, long_second, short, short_high, vmid};
use crate::fields::{bit, field};
use crate::groups::with_group;
use crate::part::{group_goes_on, zero_goes_on};
use crate::state::{Progress, Purpose, State};
use crate::sync::ZEROS_OF_SYNC;
use etm_types::Settings;
use packet_grammar::headers::{DISCARD, END_OF_SYNC, OVERFLOW};
use packet_grammar::{Packet, PacketFault};

/// The last of five groups of a number has so many values: it is the number's bits 31 to 28.
const LAST_GROUP: u8 = 1 << 4;

/// The control byte of a trace info packet has so many values: a bit for each of its four sections.
const SECTIONS: u8 = 1 << 4;

/// What a byte makes of the begun packet: where it is read further, the state changes, and else the
/// outcome is known.
pub fn advance(
    settings: &Settings,
    state: &mut State,
    byte: u8,
) -> Option<Result<Packet, PacketFault>>
    requires { Fits state.old }
    ensures tree { tree_after settings.now (progress_of result state.new) ≡ after (tree_of settings.now state.old) byte }
    ensures fits { FitsAfter (progress_of result state.new) }
{
    match state {
        State::Extension => settle(Some(extension(byte)), state),
        State::Zeros { left } => settle(zeros(left, byte), state),
        State::Control => settle(Some(control_byte(byte)), state),
        State::Number {
            purpose,
            left,
            groups,
            value,
        } => settle(number(*purpose, left, groups, value, byte), state),
        State::Stamp { left, groups, low } => settle(stamp(left, groups, low, byte), state),
        State::Exception => settle(Some(Progress::Done(exception(byte))), state),
        State::Short => settle(Some(short(byte)), state),
        State::ShortHigh { low } => settle(Some(short_high(*low, byte)), state),
        State::LongFirst { long } => settle(Some(long_first(*long, byte)), state),
        State::LongSecond { long, low } => settle(Some(long_second(*long, *low, byte)), state),
        State::LongHigh { long, low, field } => settle(long_high(*long, *low, field, byte), state),
        State::Context { form } => settle(Some(context(settings, *form, byte)), state),
        State::Vmid { form, info, field } => {
            settle(vmid(settings, *form, *info, field, byte), state)
        }
        State::Cid {
            form,
            info,
            vmid,
            field,
        } => settle(cid(*form, *info, *vmid, field, byte), state),
    }
}

/// The state that comes next, or the outcome.
fn settle(progress: Option<Progress>, state: &mut State) -> Option<Result<Packet, PacketFault>>
    ensures { progress_of result state.new ≡ made_of progress state.old }
{
    match progress {
        None => None,
        Some(Progress::Next(next)) => {
            *state = next;
            None
        }
        Some(Progress::Done(outcome)) => Some(outcome),
    }
}

/// The byte after a first 00.
fn extension(byte: u8) -> Progress
    ensures tree { (s : Sizes) → tree_after s result ≡ after extension_tree byte }
    ensures fits { FitsAfter result }
{
    match byte {
        0x00 => Progress::Next(State::Zeros {
            left: ZEROS_OF_SYNC - 2,
        }),
        DISCARD => Progress::Done(Ok(Packet::Discard)),
        OVERFLOW => Progress::Done(Ok(Packet::Overflow)),
        _ => Progress::Done(Err(PacketFault::Extension(byte))),
    }
}

/// A byte among the zeros of an A-sync, or after them.
#[tactic(auto, unfolding(crate::specs::Trees::sync_tree))]
fn zeros(left: &mut u8, byte: u8) -> Option<Progress>
    ensures tree { (s : Sizes) → tree_after s (made_of result (State.Zeros left.new)) ≡ after (sync_tree left.old) byte }
    ensures fits { FitsAfter (made_of result (State.Zeros left.new)) }
{
    if zero_goes_on(left, byte) {
        return None;
    }
    if *left == 0 && byte == END_OF_SYNC {
        return Some(Progress::Done(Ok(Packet::Async)));
    }
    Some(Progress::Done(Err(PacketFault::BrokenSync)))
}

/// The byte of information of an exception.
fn exception(byte: u8) -> Result<Packet, PacketFault>
    ensures { known result ≡ after exception_tree byte }
{
    if bit(byte, 7) {
        return Err(PacketFault::ExceptionTwoByte(byte));
    }
    let target = bit(byte, 6);
    if bit(byte, 0) != target {
        return Ok(Packet::Exc {
            kind: field(5, 1, byte),
            target,
        });
    }
    Err(PacketFault::ExceptionForm(byte))
}

/// A group of a number.
fn number(
    purpose: Purpose,
    left: &mut u8,
    groups: &mut u8,
    value: &mut u64,
    byte: u8,
) -> Option<Progress>
    requires { Fits (State.Number purpose left.old groups.old value.old) }
    ensures tree { (s : Sizes) → tree_after s (made_of result (State.Number purpose left.new groups.new value.new))
        ≡ after (number_tree left.old groups.old value.old (behind_number purpose)) byte }
    ensures fits { FitsAfter (made_of result (State.Number purpose left.new groups.new value.new)) }
{
    if group_goes_on(left, groups, value, byte) {
        return None;
    }
    Some(last_group(purpose, *left, *groups, *value, byte))
}

/// The last group of a number. The fifth is the number's bits 31 to 28.
#[tactic(auto, unfolding(crate::specs::Trees::number_tree))]
fn last_group(purpose: Purpose, left: u8, groups: u8, value: u64, byte: u8) -> Progress
    requires fits { Fits (State.Number purpose left groups value) }
    requires last { IsTrue ((left == 0) || is_last byte) }
    ensures tree { (s : Sizes) → tree_after s result ≡ after (number_tree left groups value (behind_number purpose)) byte }
    ensures fits { FitsAfter result }
{
    if left == 0 && byte >= LAST_GROUP {
        return Progress::Done(Err(PacketFault::NumberTooLong));
    }
    behind_number(purpose, with_group(value, byte, groups) as u32)
}

/// After the last byte of a number.
fn behind_number(purpose: Purpose, n: u32) -> Progress
    ensures tree { (s : Sizes) → tree_after s result ≡ behind_number purpose n }
    ensures fits { FitsAfter result }
{
    match purpose {
        Purpose::Commit => Progress::Done(Ok(Packet::Commit(n))),
        Purpose::Cancel { flip } => Progress::Done(Ok(Packet::Cancel { n, flip })),
        Purpose::Mode { control } => behind_mode(control, n),
        Purpose::Key { control, info } => spec_section(control, info, Some(n)),
        Purpose::Spec { control, info, key } => cycles_section(control, info, key, Some(n)),
        Purpose::Cycles { info, key, spec } => Progress::Done(Ok(Packet::Info {
            info,
            key,
            spec,
            cyct: Some(n),
        })),
    }
}

/// A number begins.
fn begin(purpose: Purpose) -> Progress
    ensures tree { (s : Sizes) → tree_after s result ≡ number_tree 4 0 0 (behind_number purpose) }
    ensures fits { FitsAfter result }
{
    Progress::Next(State::Number {
        purpose,
        left: 4,
        groups: 0,
        value: 0,
    })
}

/// The control byte of a trace info packet.
fn control_byte(control: u8) -> Progress
    ensures tree { (s : Sizes) → tree_after s result ≡ after control_tree control }
    ensures fits { FitsAfter result }
{
    if control >= SECTIONS {
        return Progress::Done(Err(PacketFault::InfoControl(control)));
    }
    if bit(control, 0) {
        return begin(Purpose::Mode { control });
    }
    key_section(control, None)
}

/// After an INFO section: only 0 is a mode of this profile.
fn behind_mode(control: u8, mode: u32) -> Progress
    ensures tree { (s : Sizes) → tree_after s result ≡ mode_tree control mode }
    ensures fits { FitsAfter result }
{
    if mode != 0 {
        return Progress::Done(Err(PacketFault::InfoMode(mode)));
    }
    key_section(control, Some(mode))
}

/// A KEY section, where it is there, and what follows it.
fn key_section(control: u8, info: Option<u32>) -> Progress
    ensures tree { (s : Sizes) → tree_after s result ≡ key_tree control info }
    ensures fits { FitsAfter result }
{
    if bit(control, 1) {
        return begin(Purpose::Key { control, info });
    }
    spec_section(control, info, None)
}

/// A SPEC section, where it is there, and what follows it.
fn spec_section(control: u8, info: Option<u32>, key: Option<u32>) -> Progress
    ensures tree { (s : Sizes) → tree_after s result ≡ spec_tree control info key }
    ensures fits { FitsAfter result }
{
    if bit(control, 2) {
        return begin(Purpose::Spec { control, info, key });
    }
    cycles_section(control, info, key, None)
}

/// A CYCT section, where it is there, and the end of the packet.
fn cycles_section(control: u8, info: Option<u32>, key: Option<u32>, spec: Option<u32>) -> Progress
    ensures tree { (s : Sizes) → tree_after s result ≡ cycles_tree control info key spec }
    ensures fits { FitsAfter result }
{
    if bit(control, 3) {
        return begin(Purpose::Cycles { info, key, spec });
    }
    Progress::Done(Ok(Packet::Info {
        info,
        key,
        spec,
        cyct: None,
    }))
}

/// A group of a timestamp: the ninth has eight bits.
#[tactic(auto, unfolding(crate::specs::Trees::stamp_tree))]
fn stamp(left: &mut u8, groups: &mut u8, low: &mut u64, byte: u8) -> Option<Progress>
    requires { Fits (State.Stamp left.old groups.old low.old) }
    ensures tree { (s : Sizes) → tree_after s (made_of result (State.Stamp left.new groups.new low.new)) ≡ after (stamp_tree left.old groups.old low.old) byte }
    ensures fits { FitsAfter (made_of result (State.Stamp left.new groups.new low.new)) }
{
    if group_goes_on(left, groups, low, byte) {
        return None;
    }
    let last = if *left == 0 { 8 } else { 7 };
    Some(Progress::Done(Ok(Packet::Time {
        bits: 7 * *groups + last,
        low: with_group(*low, byte, *groups),
    })))
}

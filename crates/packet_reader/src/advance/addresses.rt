//! What a byte makes of a begun address packet or context packet, or of the context behind an address (Arm IHI 0064, "Address and Context
//! packets").
ghost use Rattle.std.specs.Prelude.{◌≡◌, Ok};
ghost use Rattle.etm_types.specs.Settings.{Sizes};
ghost use Rattle.packet_reader.specs.Trees.{after};
ghost use Rattle.packet_reader.specs.States.{tree_of, tree_after, made_of, Fits, FitsAfter, cid_tree, last_field_tree, context_tree, context_of};
ghost use Rattle.packet_reader.specs.States.{with_context, short_tree, short_high_tree, long_tree, second_tree, high_tree, behind_long};

use crate::fields::{CONTINUES, bit, is_last, lowest};
use crate::groups::with_byte;
use crate::part::byte_goes_on;
use crate::state::{Field, Long, Progress, State};
use etm_types::{AddrForm, CtxBits, Settings};
use packet_grammar::{Packet, PacketFault};

/// The first byte of a short address: bits 8 to 2.
pub fn short(byte: u8) -> Progress
    ensures tree { (s : Sizes) → tree_after s result ≡ after short_tree byte }
    ensures fits { FitsAfter result }
{
    if is_last(byte) {
        let form = AddrForm::Short1(u64::from(byte) << 2);
        return Progress::Done(Ok(Packet::Addr { form, ctx: None }));
    }
    Progress::Next(State::ShortHigh {
        low: u64::from(byte - CONTINUES) << 2,
    })
}

/// The second byte of a short address: bits 16 to 9.
pub fn short_high(low: u64, byte: u8) -> Progress
    requires { Fits (State.ShortHigh low) }
    ensures tree { (s : Sizes) → tree_after s result ≡ after (short_high_tree low) byte }
    ensures fits { FitsAfter result }
{
    let form = AddrForm::Short2(low + (u64::from(byte) << 9));
    Progress::Done(Ok(Packet::Addr { form, ctx: None }))
}

/// A field of so many bytes begins.
fn field_of(left: u8) -> Field
    ensures { result ≡ record { left = left; count = 0; value = 0 } }
{
    Field {
        left,
        count: 0,
        value: 0,
    }
}

/// The first byte of a long address: bits 8 to 2.
pub fn long_first(long: Long, byte: u8) -> Progress
    ensures tree { (s : Sizes) → tree_after s result ≡ after (long_tree s long) byte }
    ensures fits { FitsAfter result }
{
    Progress::Next(State::LongSecond {
        long,
        low: u64::from(lowest(7, byte)) << 2,
    })
}

/// The second byte of a long address: bits 15 to 9.
pub fn long_second(long: Long, low: u64, byte: u8) -> Progress
    requires { Fits (State.LongSecond long low) }
    ensures tree { (s : Sizes) → tree_after s result ≡ after (second_tree s long low) byte }
    ensures fits { FitsAfter result }
{
    Progress::Next(State::LongHigh {
        long,
        low: low + (u64::from(lowest(7, byte)) << 9),
        field: field_of(if long.wide { 6 } else { 2 }),
    })
}

/// A byte of a long address from bit 16 on.
#[tactic(auto, unfolding(crate::specs::Trees::bytes_tree))]
pub fn long_high(long: Long, low: u64, field: &mut Field, byte: u8) -> Option<Progress>
    requires { Fits (State.LongHigh long low field.old) }
    ensures tree { (s : Sizes) → tree_after s (made_of result (State.LongHigh long low field.new)) ≡ after (high_tree s long low field.old) byte }
    ensures fits { FitsAfter (made_of result (State.LongHigh long low field.new)) }
{
    if byte_goes_on(field, byte) {
        return None;
    }
    let value = with_byte(field.value, byte, field.count);
    Some(behind_long(long, low + (value << 16)))
}

/// After the bytes of a long address.
fn behind_long(long: Long, value: u64) -> Progress
    ensures tree { (s : Sizes) → tree_after s result ≡ behind_long s long value }
    ensures fits { FitsAfter result }
{
    let form = if long.wide {
        AddrForm::Long64(value)
    } else {
        AddrForm::Long32(value)
    };
    if long.with_context {
        return Progress::Next(State::Context { form: Some(form) });
    }
    Progress::Done(Ok(Packet::Addr { form, ctx: None }))
}

/// The info byte of a context.
pub fn context(settings: &Settings, form: Option<AddrForm>, info: u8) -> Progress
    ensures tree { tree_after settings.now result ≡ after (context_tree settings.now form) info }
    ensures fits { FitsAfter result }
{
    if !bit(info, 4) {
        return Progress::Done(Err(PacketFault::Aarch32Context(info)));
    }
    let left = settings.vmid_bytes();
    if bit(info, 6) && left != 0 {
        let field = field_of(left);
        return Progress::Next(State::Vmid { form, info, field });
    }
    behind_vmid(settings, form, info, None)
}

/// A byte of a VMID.
#[tactic(auto, unfolding(crate::specs::Trees::bytes_tree))]
pub fn vmid(
    settings: &Settings,
    form: Option<AddrForm>,
    info: u8,
    field: &mut Field,
    byte: u8,
) -> Option<Progress>
    requires { Fits (State.Vmid form info field.old) }
    ensures tree { tree_after settings.now (made_of result (State.Vmid form info field.new))
        ≡ after (tree_of settings.now (State.Vmid form info field.old)) byte }
    ensures fits { FitsAfter (made_of result (State.Vmid form info field.new)) }
{
    if byte_goes_on(field, byte) {
        return None;
    }
    let value = with_byte(field.value, byte, field.count);
    Some(behind_vmid(settings, form, info, Some(value as u32)))
}

/// After a VMID, or where there is none.
fn behind_vmid(settings: &Settings, form: Option<AddrForm>, info: u8, vmid: Option<u32>) -> Progress
    ensures tree { tree_after settings.now result ≡ cid_tree settings.now form info vmid }
    ensures fits { FitsAfter result }
{
    let left = settings.cid_bytes();
    if bit(info, 7) && left != 0 {
        let field = field_of(left);
        return Progress::Next(State::Cid {
            form,
            info,
            vmid,
            field,
        });
    }
    Progress::Done(Ok(with_context(form, context_of(info, vmid, None))))
}

/// A byte of a context ID.
#[tactic(auto, unfolding(crate::specs::Trees::bytes_tree))]
pub fn cid(
    form: Option<AddrForm>,
    info: u8,
    vmid: Option<u32>,
    field: &mut Field,
    byte: u8,
) -> Option<Progress>
    requires { Fits (State.Cid form info vmid field.old) }
    ensures tree { (s : Sizes) → tree_after s (made_of result (State.Cid form info vmid field.new)) ≡ after (last_field_tree form info vmid field.old) byte }
    ensures fits { FitsAfter (made_of result (State.Cid form info vmid field.new)) }
{
    if byte_goes_on(field, byte) {
        return None;
    }
    let value = with_byte(field.value, byte, field.count);
    let ctx = context_of(info, vmid, Some(value as u32));
    Some(Progress::Done(Ok(with_context(form, ctx))))
}

/// The context of an info byte and its fields.
fn context_of(info: u8, vmid: Option<u32>, cid: Option<u32>) -> CtxBits
    ensures { result ≡ context_of info vmid cid }
{
    CtxBits {
        el: lowest(2, info),
        ns: bit(info, 5),
        vmid,
        cid,
    }
}

/// The packet of a context, alone or after an address.
fn with_context(form: Option<AddrForm>, ctx: CtxBits) -> Packet
    ensures { Ok result ≡ with_context form ctx }
{
    match form {
        Some(form) => Packet::Addr {
            form,
            ctx: Some(ctx),
        },
        None => Packet::CtxInfo(ctx),
    }
}

//! Address packets and short commit packets that stand whole at the front of some bytes (Arm IHI 0064, "Exact Match
//! Address packet", "Short Address packet", "Long Address packets", "Address with Context packet", "Commit packet").
//!
//! Where the bytes of a packet are all there, they are read as one, without a state between one byte and the next.
ghost use Rattle.std.specs.Prelude.{◌≡◌, ◌∷◌, ◌++◌, ◌+◌, ◌<◌, ◌≤◌, IfSome, IsTrue, IsSome, None, List, ℕ, length, drop};
ghost use Rattle.etm_types.specs.Settings.{Sizes};
ghost use Rattle.packet_grammar.specs.Contexts.{Context, Field, address_of};
ghost use Rattle.packet_grammar.specs.Numbers.{little};
ghost use Rattle.packet_grammar.specs.Parsed.{Spells};
ghost use Rattle.packet_grammar.specs.Fields.{bit};
ghost use Rattle.packet_reader.specs.Fronts.{IsFieldSize, IsFront};

use crate::fields::{CONTINUES, bit, is_last, lowest};
use crate::groups::BYTE;
use etm_types::{AddrForm, CtxBits, Settings};
use packet_grammar::Packet;
use packet_grammar::headers::{
    ADDRESS_32_WITH_CONTEXT, ADDRESS_64_WITH_CONTEXT, COMMIT, EXACT_MATCH, LAST_EXACT_MATCH,
    LONG_ADDRESS_32, LONG_ADDRESS_64, SHORT_ADDRESS,
};

/// Where the bits of an address packet's first byte stand in the address.
const FIRST: u32 = 2;

/// Where those of the second byte stand.
const SECOND: u32 = FIRST + 7;

/// Where those of the third byte stand. From there on the bytes are whole.
const THIRD: u32 = 2 * BYTE;

/// An address packet.
#[derive(Clone, Copy, Debug, PartialEq, Eq)]
pub struct Address {
    /// The address.
    pub form: AddrForm,
    /// The context of an Address with Context packet.
    pub ctx: Option<CtxBits>,
}

/// The address packet at the front of some bytes, and what follows it.
#[inline(always)]
pub fn address_at<'a>(settings: &Settings, bytes: &'a [u8]) -> Option<(Address, &'a [u8])>
    ensures front { IfSome result (λ r. IsFront (Spells settings.now) bytes.now (Packet.Addr r.0.form r.0.ctx) r.1.now) }
    ensures matched { (h : ℕ) (rest : List ℕ) → bytes.now ≡ h ∷ rest → 0x90 ≤ h → h ≤ 0x92 → IsSome result }
    ensures short { (rest : List ℕ) → bytes.now ≡ 0x95 ∷ rest → 2 ≤ length rest → IsSome result }
    ensures long_32 { (rest : List ℕ) → bytes.now ≡ 0x9a ∷ rest → 4 ≤ length rest → IsSome result }
    ensures long_64 { (rest : List ℕ) → bytes.now ≡ 0x9d ∷ rest → 8 ≤ length rest → IsSome result }
    ensures context_32 { (address rest : List ℕ) (info : ℕ) → bytes.now ≡ 0x82 ∷ address → drop 4 address ≡ info ∷ rest
        → IsTrue (bit 4 info) → 8 ≤ length rest → IsSome result }
    ensures context_64 { (address rest : List ℕ) (info : ℕ) → bytes.now ≡ 0x85 ∷ address → drop 8 address ≡ info ∷ rest
        → IsTrue (bit 4 info) → 8 ≤ length rest → IsSome result }
{
    let (header, rest) = bytes.split_first()?;
    match *header {
        ADDRESS_32_WITH_CONTEXT => {
            let (value, rest) = long_32_at(rest)?;
            let (ctx, rest) = context_at(settings, rest)?;
            let (form, ctx) = (AddrForm::Long32(value), Some(ctx));
            Some((Address { form, ctx }, rest))
        }
        ADDRESS_64_WITH_CONTEXT => {
            let (value, rest) = long_64_at(rest)?;
            let (ctx, rest) = context_at(settings, rest)?;
            let (form, ctx) = (AddrForm::Long64(value), Some(ctx));
            Some((Address { form, ctx }, rest))
        }
        EXACT_MATCH..=LAST_EXACT_MATCH => {
            let form = AddrForm::Match(*header - EXACT_MATCH);
            Some((Address { form, ctx: None }, rest))
        }
        SHORT_ADDRESS => {
            let (form, rest) = short_at(rest)?;
            Some((Address { form, ctx: None }, rest))
        }
        LONG_ADDRESS_32 => {
            let (value, rest) = long_32_at(rest)?;
            let form = AddrForm::Long32(value);
            Some((Address { form, ctx: None }, rest))
        }
        LONG_ADDRESS_64 => {
            let (value, rest) = long_64_at(rest)?;
            let form = AddrForm::Long64(value);
            Some((Address { form, ctx: None }, rest))
        }
        _ => None,
    }
}

/// The address packet without a context at the front of some bytes, where it has the form of an exact match or is short, and what follows it.
/// Most addresses are such.
#[inline(always)]
pub fn near_address_at(bytes: &[u8]) -> Option<(AddrForm, &[u8])>
    ensures front { (s : Sizes) → IfSome result (λ r. IsFront (Spells s) bytes.now (Packet.Addr r.0 None) r.1.now) }
{
    let (header, rest) = bytes.split_first()?;
    if *header == SHORT_ADDRESS {
        return short_at(rest);
    }
    if *header < EXACT_MATCH || *header > LAST_EXACT_MATCH {
        return None;
    }
    Some((AddrForm::Match(*header - EXACT_MATCH), rest))
}

/// The commit packet at the front of some bytes whose number has one byte, and what follows it.
#[inline(always)]
pub fn commit_at(bytes: &[u8]) -> Option<(u32, &[u8])>
    ensures some { (n : ℕ) (rest : List ℕ) → bytes.now ≡ 0x2d ∷ n ∷ rest → n < 0x80 → IsSome result }
    ensures only { IfSome result (λ r. (bytes.now ≡ 0x2d ∷ r.0 ∷ r.1.now) × (r.0 < 0x80)) }
{
    let (header, rest) = bytes.split_first()?;
    if *header != COMMIT {
        return None;
    }
    let (n, rest) = rest.split_first()?;
    if *n >= CONTINUES {
        return None;
    }
    Some((u32::from(*n), rest))
}

/// A short address behind its header, and what follows it.
#[inline(always)]
fn short_at(bytes: &[u8]) -> Option<(AddrForm, &[u8])>
    ensures front { (s : Sizes) → IfSome result (λ r. IsFront (Spells s) (0x95 ∷ bytes.now) (Packet.Addr r.0 None) r.1.now) }
    ensures some { 2 ≤ length bytes.now → IsSome result }
{
    let (a, rest) = bytes.split_first()?;
    if is_last(*a) {
        return Some((AddrForm::Short1(u64::from(*a) << FIRST), rest));
    }
    let (b, rest) = rest.split_first()?;
    let value = (u64::from(*a - CONTINUES) << FIRST) + (u64::from(*b) << SECOND);
    Some((AddrForm::Short2(value), rest))
}

/// A long address of 32 bits, and what follows it.
#[inline(always)]
fn long_32_at(bytes: &[u8]) -> Option<(u64, &[u8])>
    ensures front { IfSome result (λ r. (given : List ℕ) × (bytes.now ≡ given ++ r.1.now) × (length given ≡ 4) × (r.0 ≡ address_of given)) }
    ensures behind { IfSome result (λ r. r.1.now ≡ drop 4 bytes.now) }
    ensures some { 4 ≤ length bytes.now → IsSome result }
{
    let ([a, b, c, d], rest) = bytes.split_first_chunk::<4>()?;
    let low = (u64::from(lowest(7, *a)) << FIRST) + (u64::from(lowest(7, *b)) << SECOND);
    let high = u64::from(*c) + (u64::from(*d) << BYTE);
    Some((low + (high << THIRD), rest))
}

/// A long address of 64 bits, and what follows it.
#[inline(always)]
fn long_64_at(bytes: &[u8]) -> Option<(u64, &[u8])>
    ensures front { IfSome result (λ r. (given : List ℕ) × (bytes.now ≡ given ++ r.1.now) × (length given ≡ 8) × (r.0 ≡ address_of given)) }
    ensures behind { IfSome result (λ r. r.1.now ≡ drop 8 bytes.now) }
    ensures some { 8 ≤ length bytes.now → IsSome result }
{
    let ([a, b, c, d, e, f, g, h], rest) = bytes.split_first_chunk::<8>()?;
    let low = (u64::from(lowest(7, *a)) << FIRST) + (u64::from(lowest(7, *b)) << SECOND);
    let middle = u64::from(*c) + (u64::from(*d) << BYTE) + (u64::from(*e) << (2 * BYTE));
    let high = u64::from(*f) + (u64::from(*g) << BYTE) + (u64::from(*h) << (2 * BYTE));
    Some((low + (middle << THIRD) + (high << (THIRD + 3 * BYTE)), rest))
}

/// A context, and what follows it.
#[inline(never)]
fn context_at<'a>(settings: &Settings, bytes: &'a [u8]) -> Option<(CtxBits, &'a [u8])>
    ensures front { IfSome result (λ r. IsFront (Context settings.now) bytes.now r.0 r.1.now) }
    ensures some { (info : ℕ) (rest : List ℕ) → bytes.now ≡ info ∷ rest → IsTrue (bit 4 info) → 8 ≤ length rest → IsSome result }
{
    let (info, rest) = bytes.split_first()?;
    if !bit(*info, 4) {
        return None;
    }
    let (vmid, rest) = field_at(bit(*info, 6), settings.vmid_bytes(), rest)?;
    let (cid, rest) = field_at(bit(*info, 7), settings.cid_bytes(), rest)?;
    let (el, ns) = (lowest(2, *info), bit(*info, 5));
    Some((CtxBits { el, ns, vmid, cid }, rest))
}

/// A field of so many bytes where it is there, and what follows it.
#[inline(always)]
fn field_at(there: bool, size: u8, bytes: &[u8]) -> Option<(Option<u32>, &[u8])>
    requires { IsFieldSize size }
    ensures front { IfSome result (λ r. IsFront (Field there size) bytes.now r.0 r.1.now) }
    ensures some { 4 ≤ length bytes.now → IfSome result (λ r. length bytes.now ≤ length r.1.now + 4) × IsSome result }
{
    if !there || size == 0 {
        return Some((None, bytes));
    }
    let (number, rest) = number_at(size, bytes)?;
    Some((Some(number), rest))
}

/// A number of 1, 2 or 4 bytes, the low one first, and what follows it.
#[inline(always)]
fn number_at(size: u8, bytes: &[u8]) -> Option<(u32, &[u8])>
    requires { IsFieldSize size × (1 ≤ size) }
    ensures front { IfSome result (λ r. (given : List ℕ) × (bytes.now ≡ given ++ r.1.now) × (length given ≡ size) × (r.0 ≡ little given)) }
    ensures some { 4 ≤ length bytes.now → IfSome result (λ r. length bytes.now ≤ length r.1.now + 4) × IsSome result }
{
    match size {
        1 => {
            let ([a], rest) = bytes.split_first_chunk::<1>()?;
            Some((u32::from(*a), rest))
        }
        2 => {
            let ([a, b], rest) = bytes.split_first_chunk::<2>()?;
            Some((u32::from(*a) + (u32::from(*b) << BYTE), rest))
        }
        4 => {
            let ([a, b, c, d], rest) = bytes.split_first_chunk::<4>()?;
            let low = u32::from(*a) + (u32::from(*b) << BYTE);
            let high = u32::from(*c) + (u32::from(*d) << BYTE);
            Some((low + (high << (2 * BYTE)), rest))
        }
        _ => unreachable!(),
    }
}

//! Where branches to a register went, in a table of bounded size that stands in order: a pair is found where it was found last, or else
//! by bisection, and a new one moves those behind it.
ghost use Rattle.std.specs.Prelude.{◌≡◌, ◌∷◌, [], ◌++◌, ◌≤◌, ◌<◌, ℕ, List, length, map, get_or, true, false, IfOk, IsTrue, IsFalse};
ghost use Rattle.std.specs.List.Sorted.{IsPartitionPoint, IsPartitionedBy};
ghost use Rattle.path_counts.specs.Targets.{Rises, pair_lt, pair_of, same_pair, targets_of};

use std::alloc::{AllocError, Global};
use std::marker::Model;

/// The most different pairs that are kept.
const MOST_PAIRS: usize = 65536;

/// For how many pairs, told apart by [`slot_of`], the place where one was found last is kept.
const SLOTS: usize = 4096;

/// How often a branch went to an address, modulo 2^64.
#[derive(Clone, Copy)]
pub struct Target {
    pub from: u64,
    pub to: u64,
    pub times: u64,
}

/// How often each pair came, of the first different ones, and how often others did. Contracts see it as these numbers.
#[derive(Drop)]
pub struct Targets {
    entries: Vec<Target>,
    more: u64,
    /// The place where a pair of each slot was found last. What stands there may be another pair by now.
    found: [u16; SLOTS],
}

impl Model for Targets {
    ghost use Rattle.std.specs.Prelude.{◌≤◌, length, map, vec_capacity};
    ghost use Rattle.path_counts.specs.Targets.{Rises, Targeting, most_pairs, pair_of};

    ghost Value = { Targeting };

    ghost view = { λ t. record { entries = t.entries.items; more = t.more } };

    ghost invariant = { λ t. Rises (map pair_of t.entries.items) × (length t.entries.items ≤ most_pairs) × (most_pairs ≤ vec_capacity t.entries) };
}

impl Targets {
    /// No pair came. This is the one call that takes memory, 24 bytes for each pair that can be kept, and the error means want of it.
    pub fn new(alloc: Global) -> Result<Targets, AllocError>
        ensures { IfOk result (λ t. t ≡ targets_of []) }
    {
        Ok(Targets {
            entries: Vec::with_capacity(alloc, MOST_PAIRS)?,
            more: 0,
            found: [0; SLOTS],
        })
    }

    /// Counts a branch that went from an address to another. Mostly its pair stands where it was found last. Else it costs a bisection, and for
    /// a pair that comes for the first time a move of those behind it.
    #[inline(always)]
    pub fn add(&mut self, from: u64, to: u64)
        ensures { (pairs : List (ℕ × ℕ)) → self.old ≡ targets_of pairs → self.new ≡ targets_of (pairs ++ (from, to) ∷ []) }
    {
        let slot = slot_of(from, to);
        let place = usize::from(self.found[slot]);
        if is_at(&self.entries, place, from, to) {
            self.add_at(place, from, to);
        } else {
            self.add_by_bisection(slot, from, to);
        }
    }

    /// The same of a pair that stands at this place.
    #[inline(always)]
    fn add_at(&mut self, place: usize, from: u64, to: u64)
        requires within { place < length self.old.entries }
        requires there { (d : Target) → pair_of (get_or self.old.entries place d) ≡ (from, to) }
        ensures { (pairs : List (ℕ × ℕ)) → self.old ≡ targets_of pairs → self.new ≡ targets_of (pairs ++ (from, to) ∷ []) }
    {
        let _ = (from, to);
        let target = &mut self.entries[place];
        target.times = target.times.wrapping_add(1);
    }

    /// The same of any pair. Where it stands is kept in its slot.
    #[inline(never)]
    fn add_by_bisection(&mut self, slot: usize, from: u64, to: u64)
        requires { slot < 4096 }
        ensures { (pairs : List (ℕ × ℕ)) → self.old ≡ targets_of pairs → self.new ≡ targets_of (pairs ++ (from, to) ∷ []) }
    {
        let place = place_of(&self.entries, from, to);
        self.found[slot] = (place % MOST_PAIRS) as u16;
        if is_at(&self.entries, place, from, to) {
            self.add_at(place, from, to);
        } else if self.entries.len() < MOST_PAIRS {
            let target = Target { from, to, times: 1 };
            match self.entries.insert(place, target) {
                Ok(()) => (),
                Err(_) => unreachable!(),
            }
        } else {
            self.more = self.more.wrapping_add(1);
        }
    }

    /// The pairs that are kept.
    #[inline(always)]
    pub(crate) fn entries(&self) -> &[Target]
        ensures value { result.now ≡ self.now.entries }
        ensures order { Rises (map pair_of result.now) }
    {
        &self.entries
    }

    /// How often other pairs came.
    #[inline(always)]
    pub(crate) fn more(&self) -> u64
        ensures { result ≡ self.now.more }
    {
        self.more
    }
}

/// The slot of a pair: twelve bits of a product, in which all bits of both addresses have a part.
#[inline(always)]
fn slot_of(from: u64, to: u64) -> usize
    ensures { result < 4096 }
{
    let mixed = (from ^ to.rotate_left(32)).wrapping_mul(0x9e37_79b9_7f4a_7c15);
    (mixed >> 52) as usize
}

/// How many entries stand before a pair.
fn place_of(entries: &[Target], from: u64, to: u64) -> usize
    requires { IsPartitionedBy (λ e. pair_lt (pair_of e) (from, to)) entries.now }
    ensures value { IsPartitionPoint (λ e. pair_lt (pair_of e) (from, to) ≡ true) (λ e. pair_lt (pair_of e) (from, to) ≡ false) entries.now result }
    ensures within { result ≤ length entries.now }
{
    entries.partition_point(|e| (e.from < from) | ((e.from == from) & (e.to < to)))
}

/// Whether the entry at a place is that of a pair.
#[inline(always)]
fn is_at(entries: &[Target], place: usize, from: u64, to: u64) -> bool
    ensures there { IsTrue result → (place < length entries.now) × ((d : Target) → pair_of (get_or entries.now place d) ≡ (from, to)) }
    ensures other { IsFalse result → place < length entries.now → (d : Target) → same_pair (from, to) (pair_of (get_or entries.now place d)) ≡ false }
{
    match entries.get(place) {
        Some(e) => e.from == from && e.to == to,
        None => false,
    }
}

//! Atoms before which nothing was given, as bits.
ghost use Rattle.std.specs.Prelude.{◌≡◌, ◌+◌, ◌-◌, ◌^◌, ◌≤◌, ◌<◌, [], ◌∷◌, ◌++◌, length, take, drop, slice_get, option_to_list, ◌↔◌, IsSome};
ghost use Rattle.etm_types.specs.Atoms.{atoms_in, low_bits, most_atoms};

use etm_types::{AtomRun, MOST_ATOMS};
use std::marker::Model;

/// How many atoms there may be.
pub(crate) const MOST_PLAIN: u32 = 64;

/// The most atoms of one run.
pub(crate) const MOST_OF_RUN: u32 = MOST_ATOMS as u32;

/// At most 64 atoms before which nothing was given. Contracts see them as a list, oldest first. It has no drop: `close` ends it, so
/// that none is forgotten.
#[must_use]
pub(crate) struct PlainAtoms {
    /// How many atoms there are.
    count: u32,
    /// Bit i is atom i, oldest first: 1 for E. The bits from `count` on are 0.
    bits: u64,
}

impl Model for PlainAtoms {
    ghost use Rattle.std.specs.Prelude.{◌≤◌, ◌<◌, ◌^◌, Bool, List};
    ghost use Rattle.etm_types.specs.Atoms.{low_bits};

    ghost Value = { List Bool };

    ghost view = { λ p. low_bits p.count p.bits };

    ghost invariant = { λ p. (p.count ≤ 64) × (p.bits < 2 ^ p.count) };
}

impl PlainAtoms {
    /// No atom.
    pub(crate) fn new() -> PlainAtoms
        ensures { result ≡ [] }
    {
        PlainAtoms { count: 0, bits: 0 }
    }

    /// How many atoms there are.
    #[inline(always)]
    pub(crate) fn len(&self) -> u32
        ensures len { result ≡ length self.now }
        ensures most { result ≤ 64 }
    {
        self.count
    }

    /// The bits, and how many atoms there are.
    #[inline(always)]
    pub(crate) fn bits(&self) -> (u64, u32)
        ensures atoms { low_bits result.1 result.0 ≡ self.now }
        ensures bits { (result.1 ≤ 64) × (result.0 < 2 ^ result.1) }
    {
        (self.bits, self.count)
    }

    /// These atoms stand in the place of all.
    #[inline(always)]
    pub(crate) fn replace(&mut self, bits: u64, count: u32)
        requires { (count ≤ 64) × (bits < 2 ^ count) }
        ensures { self.new ≡ low_bits count bits }
    {
        self.bits = bits;
        self.count = count;
    }

    /// One atom more.
    #[inline(always)]
    pub(crate) fn push(&mut self, taken: bool)
        requires room { length self.old < 64 }
        ensures { self.new ≡ self.old ++ taken ∷ [] }
    {
        self.bits += u64::from(taken) << self.count;
        self.count += 1;
    }

    /// Takes the oldest out.
    #[inline(always)]
    pub(crate) fn pop_front(&mut self) -> Option<bool>
        ensures order { self.old ≡ option_to_list result ++ self.new }
        ensures some { IsSome result ↔ (0 < length self.old) }
    {
        if self.count == 0 {
            return None;
        }
        let taken = self.bits % 2 == 1;
        self.bits /= 2;
        self.count -= 1;
        Some(taken)
    }

    /// Takes the newest out.
    #[inline(always)]
    pub(crate) fn pop_back(&mut self) -> Option<bool>
        ensures order { self.old ≡ self.new ++ option_to_list result }
        ensures some { IsSome result ↔ (0 < length self.old) }
        ensures room { length self.new < 64 }
    {
        if self.count == 0 {
            return None;
        }
        self.count -= 1;
        let taken = self.bits >> self.count;
        self.bits -= taken << self.count;
        Some(taken == 1)
    }

    /// The atom at `index`, counted from the oldest.
    #[inline(always)]
    pub(crate) fn get(&self, index: usize) -> Option<bool>
        ensures { result ≡ slice_get self.now index }
    {
        if index >= self.count as usize {
            return None;
        }
        Some((self.bits >> index) % 2 == 1)
    }

    /// Takes so many of the oldest out.
    #[inline(always)]
    pub(crate) fn drop_front(&mut self, n: u32)
        requires few { n ≤ most_atoms }
        requires within { n ≤ length self.old }
        ensures { self.new ≡ drop n self.old }
    {
        self.bits >>= n;
        self.count -= n;
    }

    /// Takes so many of the newest out.
    #[inline(always)]
    pub(crate) fn drop_back(&mut self, n: u32)
        requires { n ≤ length self.old }
        ensures { self.new ≡ take (length self.old - n) self.old }
    {
        self.count -= n;
        if self.count < MOST_PLAIN {
            self.bits %= 1 << self.count;
        }
    }

    /// The atoms of a run more.
    #[inline(always)]
    pub(crate) fn push_run(&mut self, atoms: &AtomRun)
        requires few { atoms.now.count ≤ most_atoms }
        requires room { length self.old + atoms.now.count ≤ 64 }
        ensures { self.new ≡ self.old ++ atoms_in atoms.now }
    {
        let bits = atoms.bits % (1 << atoms.count);
        self.bits += u64::from(bits).wrapping_shl(self.count);
        self.count += u32::from(atoms.count);
    }

    /// The oldest, as a run of at most 24.
    #[inline(always)]
    pub(crate) fn front(&self) -> AtomRun
        ensures atoms { atoms_in result ≡ take result.count self.now }
        ensures most { result.count ≤ most_atoms }
        ensures within { result.count ≤ length self.now }
        ensures all { result.count < most_atoms → result.count ≡ length self.now }
    {
        let count = self.count.min(MOST_OF_RUN);
        AtomRun {
            count: count as u8,
            bits: (self.bits % (1 << count)) as u32,
        }
    }

    /// The same of atoms that are copies, which end.
    pub(crate) fn into_front(self) -> AtomRun
        ensures atoms { atoms_in result ≡ take result.count self }
        ensures most { result.count ≤ most_atoms }
        ensures within { result.count ≤ length self }
        ensures all { result.count < most_atoms → result.count ≡ length self }
    {
        let front = self.front();
        let PlainAtoms { count: _, bits: _ } = self;
        front
    }

    /// Ends it, where no atom is left.
    pub(crate) fn close(self)
        requires empty { self ≡ [] }
    {
        let PlainAtoms { count: _, bits: _ } = self;
    }
}

//! What elements would make of a queue in which only atoms wait before which nothing was given: they are tried on a copy of its bits.
ghost use Rattle.std.specs.Prelude.{◌≡◌, ◌≤◌, ◌<◌, ◌+◌, ◌-◌, ◌^◌, ◌++◌, ◌↔◌, [], length, map, take, drop, false, IsTrue, Some};
ghost use Rattle.etm_types.specs.Atoms.{atoms_in, low_bits, most_atoms};
ghost use Rattle.element_queue.specs.Outlooks.{flip_newest_atom, has_room};
ghost use Rattle.element_queue.specs.Pending.{flip_newest};
ghost use Rattle.element_queue.specs.Queued.{plain_atom};

use crate::plain_atoms::{MOST_OF_RUN, MOST_PLAIN};
use etm_types::AtomRun;
use std::marker::Model;

/// How many atoms at most are made on one copy, so that what is tried in vain is little.
const MOST_MADE: u32 = 1 << 8;

/// The atoms of a queue as elements would leave them: those that are committed, oldest first, and behind them those that are held.
#[derive(Drop)]
pub struct Outlook {
    /// Bit i is atom i, oldest first: 1 for E. The bits from `count` on are 0.
    bits: u64,
    count: u32,
    /// How many of them are committed.
    committed: u32,
    /// How many were held at first, and how many were made and taken back since.
    before: u32,
    made: u32,
    cancelled: u32,
    depth: u32,
}

impl Model for Outlook {
    ghost use Rattle.std.specs.Prelude.{◌≡◌, ◌≤◌, ◌<◌, ◌+◌, ◌-◌, ◌^◌, take, drop};
    ghost use Rattle.etm_types.specs.Atoms.{low_bits};
    ghost use Rattle.element_queue.specs.Outlooks.{Outlook};

    ghost Value = { Outlook };

    ghost view = { λ o. record {
      gone = take o.committed (low_bits o.count o.bits);
      held = drop o.committed (low_bits o.count o.bits);
      before = o.before;
      made = o.made;
      cancelled = o.cancelled;
      depth = o.depth;
    } };

    ghost invariant = { λ o. (o.count ≤ 64) × (o.bits < 2 ^ o.count) × (o.committed ≤ o.count) × (o.count + o.cancelled ≡ o.before + o.made)
        × (o.before ≤ 64) × (o.made ≤ 2 ^ 8) };
}

impl Outlook {
    /// These are held, at most so many may be, and nothing was tried.
    pub(crate) fn new(bits: u64, count: u32, depth: u32) -> Outlook
        requires few { count ≤ 64 }
        requires bits { bits < 2 ^ count }
        ensures { result ≡ record { gone = []; held = low_bits count bits; before = count; made = 0; cancelled = 0; depth = depth } }
    {
        Outlook {
            bits,
            count,
            committed: 0,
            before: count,
            made: 0,
            cancelled: 0,
            depth,
        }
    }

    /// The same once more.
    #[inline(always)]
    pub fn again(&self) -> Outlook
        ensures { result ≡ self.now }
    {
        Outlook {
            bits: self.bits,
            count: self.count,
            committed: self.committed,
            before: self.before,
            made: self.made,
            cancelled: self.cancelled,
            depth: self.depth,
        }
    }

    /// The atoms of a run more are held, at most so many in all. Says whether there is room for them; else nothing changes.
    #[inline(always)]
    pub fn hold(&mut self, run: &AtomRun) -> bool
        requires { run.now.count ≤ most_atoms }
        ensures when { IsTrue result ↔ has_room self.old run.now.count }
        ensures holds { IsTrue result
            → self.new ≡ record (self.old) { held = self.old.held ++ atoms_in run.now; made = self.old.made + run.now.count } }
        ensures unchanged { result ≡ false → self.new ≡ self.old }
    {
        let count = u32::from(run.count);
        if self.held() + count > self.depth
            || self.count + count > MOST_PLAIN
            || self.made + count > MOST_MADE
        {
            return false;
        }
        let bits = run.bits % (1 << run.count);
        self.bits += u64::from(bits).wrapping_shl(self.count);
        self.count += count;
        self.made += count;
        true
    }

    /// So many of the oldest that are held, at least one, are committed. Says whether so many are held; else nothing changes.
    #[inline(always)]
    pub fn commit(&mut self, n: u32) -> bool
        ensures when { IsTrue result ↔ ((0 < n) × (n ≤ length self.old.held)) }
        ensures commits { IsTrue result
            → self.new ≡ record (self.old) { gone = self.old.gone ++ take n self.old.held; held = drop n self.old.held } }
        ensures unchanged { result ≡ false → self.new ≡ self.old }
    {
        if n == 0 || n > self.held() {
            return false;
        }
        self.committed += n;
        true
    }

    /// So many of the newest that are held, at least one, are taken back. Says whether so many are held; else nothing changes.
    #[inline(always)]
    pub fn cancel(&mut self, n: u32) -> bool
        ensures when { IsTrue result ↔ ((0 < n) × (n ≤ length self.old.held)) }
        ensures takes { IsTrue result
            → self.new ≡ record (self.old) { held = take (length self.old.held - n) self.old.held; cancelled = self.old.cancelled + n } }
        ensures unchanged { result ≡ false → self.new ≡ self.old }
    {
        if n == 0 || n > self.held() {
            return false;
        }
        self.count -= n;
        self.bits %= 1 << self.count;
        self.cancelled += n;
        true
    }

    /// A mispredict: the newest that is held is the other one. Says whether one is held; else nothing changes.
    #[inline(always)]
    pub fn flip(&mut self) -> bool
        ensures when { IsTrue result ↔ (0 < length self.old.held) }
        ensures flips { IsTrue result → self.new ≡ record (self.old) { held = flip_newest_atom self.old.held } }
        ensures rule { IsTrue result → flip_newest (map plain_atom self.old.held) ≡ Some (map plain_atom self.new.held) }
        ensures unchanged { result ≡ false → self.new ≡ self.old }
    {
        if self.held() == 0 {
            return false;
        }
        self.bits ^= 1 << (self.count - 1);
        true
    }

    /// How many are committed.
    #[inline(always)]
    pub fn committed(&self) -> u32
        ensures { result ≡ length self.now.gone }
    {
        self.committed
    }

    /// The oldest that are committed, as a run of at most 24.
    #[inline(always)]
    pub fn oldest(&self) -> AtomRun
        ensures atoms { atoms_in result ≡ take result.count self.now.gone }
        ensures few { result.count ≤ most_atoms }
        ensures within { result.count ≤ length self.now.gone }
        ensures all { result.count < most_atoms → result.count ≡ length self.now.gone }
    {
        let count = self.committed.min(MOST_OF_RUN);
        AtomRun {
            count: count as u8,
            bits: (self.bits % (1 << count)) as u32,
        }
    }

    /// How many are held.
    #[inline(always)]
    fn held(&self) -> u32
        ensures { result ≡ length self.now.held }
    {
        self.count - self.committed
    }

    /// The atoms but for the `n` oldest: their bits, and how many.
    #[inline(always)]
    pub(crate) fn behind(&self, n: u32) -> (u64, u32)
        requires few { n ≤ most_atoms }
        requires within { n ≤ length self.now.gone }
        ensures atoms { low_bits result.1 result.0 ≡ drop n (self.now.gone ++ self.now.held) }
        ensures bits { (result.1 ≤ 64) × (result.0 < 2 ^ result.1) }
    {
        (self.bits >> n, self.count - n)
    }

    /// How many atoms were made, and how many were taken back.
    #[inline(always)]
    pub(crate) fn tries(&self) -> (u32, u32)
        ensures tries { (result.0 ≡ self.now.made) × (result.1 ≡ self.now.cancelled) }
        ensures balanced { length self.now.gone + length self.now.held + self.now.cancelled ≡ self.now.before + self.now.made }
    {
        (self.made, self.cancelled)
    }
}

//! Numbers in a ring of places, all 0 at first, that are raised by one over a run of places in constant time: what is kept is the
//! difference from each place to the next, and one pass at the end adds them up.
ghost use Rattle.std.specs.Prelude.{◌≡◌, ◌+◌, ◌*◌, ◌-◌, ◌^◌, ◌<◌, ◌≤◌, ℕ, length, replicate, IfOk, nat_le};
ghost use Rattle.path_counts.specs.Levels.{AreLevels, is_within, levels_of, one_if};

use crate::numbers::Numbers;
use std::alloc::{AllocError, Global};
use std::marker::Model;

/// The differences.
#[derive(Drop)]
pub struct Levels {
    steps: Vec<u64>,
}

impl Model for Levels {
    ghost use Rattle.std.specs.Prelude.{List, ℕ};

    ghost Value = { List ℕ };

    ghost view = { λ levels. levels.steps.items };
}

impl Levels {
    /// So many places. This is the one call that takes memory, and the error means want of it.
    pub fn new(alloc: Global, count: usize) -> Result<Levels, AllocError>
        ensures { IfOk result (λ levels. levels ≡ replicate count 0) }
    {
        let mut steps = Vec::new(alloc);
        steps.resize(count, 0)?;
        Ok(Levels { steps })
    }

    /// How many places there are.
    #[inline(always)]
    pub fn len(&self) -> usize
        ensures { result ≡ length self.now }
    {
        self.steps.len()
    }

    /// Raises by one the numbers at so many places from a place on, round the ring.
    #[inline(always)]
    pub fn raise(&mut self, from: usize, count: usize)
        requires place { from < length self.old }
        requires count { count ≤ length self.old }
        requires small { length self.old < 2 ^ 62 }
        ensures raised { (f : ℕ → ℕ) → AreLevels self.old f
            → AreLevels self.new (λ j. f j + one_if (is_within (length self.old) from count j)) }
        ensures length { length self.new ≡ length self.old }
    {
        let len = self.len();
        let end = from + count;
        self.up_from(from);
        if end <= len {
            self.down_from(end);
        } else {
            self.up_from(0);
            self.down_from(end - len);
        }
    }

    /// The same, where these places end before the last one.
    #[inline(always)]
    pub fn raise_within(&mut self, from: usize, count: usize)
        requires within { from + count < length self.old }
        requires small { length self.old < 2 ^ 62 }
        ensures raised { (f : ℕ → ℕ) → AreLevels self.old f
            → AreLevels self.new (λ j. f j + one_if (is_within (length self.old) from count j)) }
        ensures length { length self.new ≡ length self.old }
    {
        self.up_from(from);
        self.down_at(from + count);
    }

    /// Raises by one the numbers from a place on.
    #[inline(always)]
    fn up_from(&mut self, place: usize)
        requires { place < length self.old }
        ensures raised { (f : ℕ → ℕ) → AreLevels self.old f → AreLevels self.new (λ j. f j + one_if (nat_le place j)) }
        ensures length { length self.new ≡ length self.old }
    {
        self.steps[place] = self.steps[place].wrapping_add(1);
    }

    /// Lowers by one the numbers from a place on, where there is one.
    #[inline(always)]
    fn down_from(&mut self, place: usize)
        ensures lowered { (f : ℕ → ℕ) → AreLevels self.old f → AreLevels self.new (λ j. f j + (2 ^ 64 - 1) * one_if (nat_le place j)) }
        ensures length { length self.new ≡ length self.old }
    {
        if place < self.len() {
            self.down_at(place);
        }
    }

    /// Lowers by one the numbers from a place on, which is there.
    #[inline(always)]
    fn down_at(&mut self, place: usize)
        requires { place < length self.old }
        ensures lowered { (f : ℕ → ℕ) → AreLevels self.old f → AreLevels self.new (λ j. f j + (2 ^ 64 - 1) * one_if (nat_le place j)) }
        ensures length { length self.new ≡ length self.old }
    {
        self.steps[place] = self.steps[place].wrapping_sub(1);
    }

    /// The numbers themselves: one pass over all places.
    pub fn totals(self) -> Numbers
        ensures { result ≡ levels_of self }
    {
        let Levels { mut steps } = self;
        let mut total: u64 = 0;
        let mut place = 0;
        while place < steps.len() {
            total = total.wrapping_add(steps[place]);
            steps[place] = total;
            place += 1;
        }
        Numbers::of(steps)
    }
}

//! Numbers at places, all 0 at first, each raised by one at a time.
ghost use Rattle.std.specs.Prelude.{◌≡◌, ◌+◌, ◌==◌, ◌<◌, ℕ, length, get_or, replicate, IfOk};
ghost use Rattle.path_counts.specs.Levels.{AreNumbers, RaisesLast, one_if};

use std::alloc::{AllocError, Global};
use std::marker::Model;

/// A number a place, modulo 2^64.
#[derive(Drop)]
pub struct Numbers {
    of_places: Vec<u64>,
}

impl Model for Numbers {
    ghost use Rattle.std.specs.Prelude.{List, ℕ};

    ghost Value = { List ℕ };

    ghost view = { λ numbers. numbers.of_places.items };
}

impl Numbers {
    /// So many places. The error means want of memory.
    pub fn new(alloc: Global, count: usize) -> Result<Numbers, AllocError>
        ensures { IfOk result (λ numbers. numbers ≡ replicate count 0) }
    {
        let mut of_places = Vec::new(alloc);
        of_places.resize(count, 0)?;
        Ok(Numbers { of_places })
    }

    /// These numbers.
    pub(crate) fn of(of_places: Vec<u64>) -> Numbers
        ensures { result ≡ of_places.items }
    {
        Numbers { of_places }
    }

    /// Raises by one the number at a place.
    #[inline(always)]
    pub fn raise(&mut self, place: usize)
        requires { place < length self.old }
        ensures raised { (f : ℕ → ℕ) → AreNumbers self.old f → AreNumbers self.new (λ j. f j + one_if (place == j)) }
        ensures length { length self.new ≡ length self.old }
    {
        self.of_places[place] = self.of_places[place].wrapping_add(1);
    }

    /// The same where something is so, else nothing. No jump rests on it.
    #[inline(always)]
    pub fn raise_if(&mut self, so: bool, place: usize)
        requires { place < length self.old }
        ensures raised { RaisesLast self.old self.new so place }
        ensures length { length self.new ≡ length self.old }
    {
        self.of_places[place] = self.of_places[place].wrapping_add(u64::from(so));
    }

    /// The number at a place.
    #[inline(always)]
    pub fn at(&self, place: usize) -> u64
        requires { place < length self.now }
        ensures { result ≡ get_or self.now place 0 }
    {
        self.of_places[place]
    }

    /// How many places there are.
    #[inline(always)]
    pub fn len(&self) -> usize
        ensures { result ≡ length self.now }
    {
        self.of_places.len()
    }
}

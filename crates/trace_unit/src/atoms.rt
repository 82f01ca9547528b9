//! The atoms that are not written yet, as many as one packet has at most (Arm IHI 0064, "Atom Format 6 packet").
ghost use Rattle.std.specs.Prelude.{◌≡◌, ◌<◌, ◌≤◌, ◌∷◌, ◌++◌, [], length, take, drop};
ghost use Rattle.trace_unit.specs.Whole.{turn_last};

use std::marker::Model;

/// The most atoms that are held: with so many, a packet goes out.
pub const MOST_HELD: usize = 24;

/// Atoms that are held, oldest first, true for E. Contracts see their list.
#[derive(Debug, Drop)]
pub struct HeldAtoms {
    atoms: [bool; MOST_HELD],
    count: usize,
}

impl Model for HeldAtoms {
    ghost use Rattle.std.specs.Prelude.{◌≤◌, Bool, List, take};

    ghost Value = { List Bool };

    ghost view = { λ a. take a.count a.atoms };

    ghost invariant = { λ a. a.count ≤ 24 };
}

impl HeldAtoms {
    /// None.
    pub fn new() -> HeldAtoms
        ensures { result ≡ [] }
    {
        HeldAtoms {
            atoms: [false; MOST_HELD],
            count: 0,
        }
    }

    /// How many are held.
    pub fn len(&self) -> usize
        ensures value { result ≡ length self.now }
        ensures within { result ≤ 24 }
    {
        self.count
    }

    /// All of them.
    pub fn as_slice(&self) -> &[bool]
        ensures value { result.now ≡ self.now }
        ensures within { length self.now ≤ 24 }
    {
        &self.atoms[..self.count]
    }

    /// Holds one atom more.
    pub fn push(&mut self, taken: bool)
        requires { length self.old < 24 }
        ensures { self.new ≡ self.old ++ taken ∷ [] }
    {
        self.atoms[self.count] = taken;
        self.count += 1;
    }

    /// Holds so many of the oldest on, at most.
    pub fn truncate(&mut self, len: usize)
        ensures { self.new ≡ take len self.old }
    {
        self.count = self.count.min(len);
    }

    /// Holds so many of the oldest no more.
    pub fn drop_front(&mut self, n: usize)
        requires { n ≤ length self.old }
        ensures { self.new ≡ drop n self.old }
    {
        self.atoms.copy_within(n..self.count, 0);
        self.count -= n;
    }

    /// The newest is the other one.
    pub fn turn_newest(&mut self)
        ensures { self.new ≡ turn_last self.old }
    {
        if self.count > 0 {
            let newest = self.count - 1;
            self.atoms[newest] = !self.atoms[newest];
        }
    }
}

//! What became of P0 elements, in counts.
ghost use Rattle.std.specs.Prelude.{◌≡◌};

use std::marker::Model;

/// How many P0 elements were made, and how many of them were committed, cancelled and lost: each
/// modulo 2^64.
#[derive(Clone, Copy, Debug, PartialEq, Eq)]
pub struct Counts {
    pub made: u64,
    pub committed: u64,
    pub cancelled: u64,
    pub lost: u64,
}

/// Keeps [`Counts`]. They rise only where an [`Uncommitted`](crate::Uncommitted) is made or ended, by
/// [`Queue::pass_many`](crate::Queue::pass_many), and by [`Ledger::absorb`]. It is no copy of another one.
#[derive(Drop)]
pub struct Ledger {
    counts: Counts,
}

impl Model for Ledger {
    ghost use Rattle.element_queue.specs.declared.ledger.Counts.{Counts};

    ghost Value = { Counts };

    ghost view = { λ l. l.counts };

    ghost inverse = { λ c. record { counts = c } };
}

impl Ledger {
    ghost use Rattle.std.specs.Prelude.{ℕ, ◌+◌};
    ghost use Rattle.element_queue.specs.Counting.{Balances, add, no_counts, sum_of};

    /// Counts nothing yet.
    pub fn new() -> Ledger
        ensures { result ≡ no_counts }
    {
        Ledger {
            counts: Counts {
                made: 0,
                committed: 0,
                cancelled: 0,
                lost: 0,
            },
        }
    }

    /// The counts.
    pub fn counts(&self) -> Counts
        ensures { result ≡ self.now }
    {
        self.counts
    }

    /// Adds the counts of another ledger, which ends.
    pub fn absorb(&mut self, other: Ledger)
        ensures value { self.new ≡ sum_of self.old other }
        ensures balanced { (m n : ℕ) → Balances self.old m → Balances other n → Balances self.new (m + n) }
    {
        let Ledger { counts } = other;
        self.counts.made = self.counts.made.wrapping_add(counts.made);
        self.counts.committed = self.counts.committed.wrapping_add(counts.committed);
        self.counts.cancelled = self.counts.cancelled.wrapping_add(counts.cancelled);
        self.counts.lost = self.counts.lost.wrapping_add(counts.lost);
    }

    /// One more was made.
    pub(crate) fn count_made(&mut self)
        ensures { self.new ≡ record (self.old) { made = add self.old.made 1 } }
    {
        self.counts.made = self.counts.made.wrapping_add(1);
    }

    /// So many were made and committed at once.
    pub(crate) fn count_passed(&mut self, n: u32)
        ensures { self.new ≡ record (self.old) { made = add self.old.made n; committed = add self.old.committed n } }
    {
        let n = u64::from(n);
        self.counts.made = self.counts.made.wrapping_add(n);
        self.counts.committed = self.counts.committed.wrapping_add(n);
    }

    /// So many more were made.
    #[inline(always)]
    pub(crate) fn count_all_made(&mut self, n: u32)
        ensures { self.new ≡ record (self.old) { made = add self.old.made n } }
    {
        self.counts.made = self.counts.made.wrapping_add(u64::from(n));
    }

    /// So many more were committed.
    #[inline(always)]
    pub(crate) fn count_all_committed(&mut self, n: u32)
        ensures { self.new ≡ record (self.old) { committed = add self.old.committed n } }
    {
        self.counts.committed = self.counts.committed.wrapping_add(u64::from(n));
    }

    /// So many more were cancelled.
    #[inline(always)]
    pub(crate) fn count_all_cancelled(&mut self, n: u32)
        ensures { self.new ≡ record (self.old) { cancelled = add self.old.cancelled n } }
    {
        self.counts.cancelled = self.counts.cancelled.wrapping_add(u64::from(n));
    }

    /// One more was committed.
    pub(crate) fn count_committed(&mut self)
        ensures { self.new ≡ record (self.old) { committed = add self.old.committed 1 } }
    {
        self.counts.committed = self.counts.committed.wrapping_add(1);
    }

    /// One more was cancelled.
    pub(crate) fn count_cancelled(&mut self)
        ensures { self.new ≡ record (self.old) { cancelled = add self.old.cancelled 1 } }
    {
        self.counts.cancelled = self.counts.cancelled.wrapping_add(1);
    }

    /// One more was lost.
    pub(crate) fn count_lost(&mut self)
        ensures { self.new ≡ record (self.old) { lost = add self.old.lost 1 } }
    {
        self.counts.lost = self.counts.lost.wrapping_add(1);
    }
}

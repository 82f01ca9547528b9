//! One P0 element that is not committed yet.
ghost use Rattle.std.specs.Prelude.{◌≡◌, not, Bool};
ghost use Rattle.etm_types.specs.declared.element.P0.TheVariants.{Atom};

use crate::ledger::Ledger;
use crate::slot::Slot;
use etm_types::{Entry, P0, Pre};
use std::marker::Model;

/// A P0 element that may still be taken back, with what came before it. It has no drop: it ends by
/// `commit`, `cancel` or `lose`, and a ledger counts which. Contracts see it as its entry.
#[must_use]
pub struct Uncommitted {
    entry: Entry,
}

impl Model for Uncommitted {
    ghost use Rattle.etm_types.specs.declared.element.Entry.{Entry};

    ghost Value = { Entry };

    ghost view = { λ u. u.entry };

    ghost inverse = { λ e. record { entry = e } };
}

impl Uncommitted {
    ghost use Rattle.element_queue.specs.Counting.{add};

    /// One more P0 element.
    pub fn new(entry: Entry, ledger: &mut Ledger) -> Uncommitted
        ensures entry { result ≡ entry }
        ensures made { ledger.new ≡ record (ledger.old) { made = add ledger.old.made 1 } }
    {
        ledger.count_made();
        Uncommitted { entry }
    }

    /// One that the queue kept.
    #[inline(always)]
    pub(crate) fn from_slot(slot: Slot) -> Uncommitted
        ensures { result ≡ slot }
    {
        Uncommitted { entry: slot.take() }
    }

    /// It was executed.
    pub fn commit(self, ledger: &mut Ledger) -> Entry
        ensures entry { result ≡ self }
        ensures committed { ledger.new ≡ record (ledger.old) { committed = add ledger.old.committed 1 } }
    {
        let Uncommitted { entry } = self;
        ledger.count_committed();
        entry
    }

    /// It is taken back. What was given before it stays given.
    pub fn cancel(self, ledger: &mut Ledger) -> Pre
        ensures pre { result ≡ self.pre }
        ensures cancelled { ledger.new ≡ record (ledger.old) { cancelled = add ledger.old.cancelled 1 } }
    {
        let Uncommitted { entry } = self;
        ledger.count_cancelled();
        entry.pre
    }

    /// Trace was lost before it was known what became of it.
    pub fn lose(self, ledger: &mut Ledger)
        ensures lost { ledger.new ≡ record (ledger.old) { lost = add ledger.old.lost 1 } }
    {
        let Uncommitted { entry: _ } = self;
        ledger.count_lost();
    }

    /// The P0 element, with what was given before it.
    pub fn entry(&self) -> &Entry
        ensures { result.now ≡ self.now }
    {
        &self.entry
    }

    /// A mispredict: the atom is the other one.
    pub fn flip(&mut self)
        requires { (taken : Bool) × (self.old.p0 ≡ Atom taken) }
        ensures { (taken : Bool) → self.old.p0 ≡ Atom taken → self.new ≡ record (self.old) { p0 = Atom (not taken) } }
    {
        match self.entry.p0 {
            P0::Atom(taken) => self.entry.p0 = P0::Atom(!taken),
            P0::Exc { .. } => unreachable!(),
        }
    }
}

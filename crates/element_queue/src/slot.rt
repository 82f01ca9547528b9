//! One P0 element as the queue keeps it.
ghost use Rattle.std.specs.Prelude.{◌≡◌, not, Bool};
ghost use Rattle.etm_types.specs.declared.element.P0.TheVariants.{Atom};
ghost use Rattle.element_queue.specs.Queued.{plain_entry};
ghost use Rattle.element_queue.specs.Packed.{unpacked};

use crate::ledger::Ledger;
use crate::packed::Packed;
use etm_types::{Entry, P0};
use std::marker::Model;

/// An [`Uncommitted`](crate::Uncommitted) as the queue keeps it, in 32 bytes. It has no drop either. Contracts see it as
/// its entry.
#[must_use]
pub(crate) struct Slot {
    packed: Packed,
}

impl Model for Slot {
    ghost use Rattle.etm_types.specs.declared.element.Entry.{Entry};
    ghost use Rattle.element_queue.specs.Packed.{unpacked};

    ghost Value = { Entry };

    ghost view = { λ s. unpacked s.packed };
}

impl Slot {
    ghost use Rattle.element_queue.specs.Counting.{add};

    /// One more P0 element.
    #[inline(always)]
    pub(crate) fn new(packed: Packed, ledger: &mut Ledger) -> Slot
        ensures entry { result ≡ unpacked packed }
        ensures made { ledger.new ≡ record (ledger.old) { made = add ledger.old.made 1 } }
    {
        ledger.count_made();
        Slot { packed }
    }

    /// One that was made before, and was kept as an atom before which nothing was given.
    #[inline(always)]
    pub(crate) fn from_atom(taken: bool) -> Slot
        ensures { result ≡ plain_entry taken }
    {
        Slot {
            packed: Packed::nothing_told().with(P0::Atom(taken)),
        }
    }

    /// The entry, of which an [`Uncommitted`](crate::Uncommitted) is made.
    #[inline(always)]
    pub(crate) fn take(self) -> Entry
        ensures { result ≡ self }
    {
        let Slot { packed } = self;
        packed.entry()
    }

    /// What it holds.
    #[inline(always)]
    pub(crate) fn packed(&self) -> &Packed
        ensures { unpacked result.now ≡ self.now }
    {
        &self.packed
    }

    /// A mispredict: the atom is the other one.
    #[inline(always)]
    pub(crate) fn flip(&mut self)
        requires { (taken : Bool) × (self.old.p0 ≡ Atom taken) }
        ensures { (taken : Bool) → self.old.p0 ≡ Atom taken → self.new ≡ record (self.old) { p0 = Atom (not taken) } }
    {
        self.packed.flip();
    }
}

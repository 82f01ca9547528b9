//! The P0 steps that are not retired, each of which ends as committed, cancelled or lost (Arm IHI 0064, "Speculation"): their P0 elements,
//! and what a unit goes back to where they are taken back.
ghost use Rattle.std.specs.Prelude.{◌≡◌, ◌<◌, ◌≤◌, ◌++◌, ◌∷◌, [], length, drop, map, slice_get, Bool, List, IfOk};
ghost use Rattle.std.specs.Option.{option_map};
ghost use Rattle.element_queue.specs.Counting.{AreCounts, Balances, add, no_counts};
ghost use Rattle.etm_types.specs.declared.element.P0.{P0 as Element};
ghost use Rattle.etm_types.specs.declared.element.P0.TheVariants.{Atom};
ghost use Rattle.spec_run.specs.Steps.{kept, newest};
ghost use Rattle.trace_unit.specs.Effects.{counts_cancelled, counts_lost, counts_made, counts_retired};
ghost use Rattle.trace_unit.specs.Places.{with_newest};
ghost use Rattle.trace_unit.specs.WindowKept.{StepKept, at_newest, oldest_saved, p0s_in, step_emptied, turn_step};

use element_queue::{Counts, Ledger, Uncommitted};
use etm_types::{Ctx, Entry, P0, Pre};
use return_stack::SavedStack;
use spend_ring::SpendRing;
use std::alloc::{AllocError, Global};
use std::marker::Model;

/// What a unit goes back to where a P0 step is taken back.
#[derive(Clone, Copy, Debug, Drop)]
pub struct Saved {
    /// The return addresses before it.
    pub stack: SavedStack,
    /// The context and the start of its block.
    pub context: Ctx,
    pub start: u64,
}

impl Model for Saved {
    ghost use Rattle.trace_unit.specs.Places.{Saved as Keeps};

    ghost Value = { Keeps };

    ghost view = { λ s. record { stack = s.stack; context = s.context; start = s.start } };

    ghost inverse = { λ s. record { stack = s.stack; context = s.context; start = s.start } };
}

/// A P0 step that is not retired. It has no drop: it ends by `commit`, `cancel` or `lose`.
#[must_use]
struct Unretired {
    element: Uncommitted,
    saved: Saved,
}

impl Model for Unretired {
    ghost use Rattle.trace_unit.specs.WindowKept.{StepKept};

    ghost Value = { StepKept };

    ghost view = { λ u. record { p0 = u.element.p0; saved = u.saved } };
}

impl Unretired {
    fn new(p0: P0, saved: Saved, ledger: &mut Ledger) -> Unretired
        ensures step { result ≡ record { p0 = p0; saved = saved } }
        ensures made { ledger.new ≡ record (ledger.old) { made = add ledger.old.made 1 } }
    {
        let entry = Entry {
            pre: Pre::nothing_told(),
            p0,
        };
        Unretired {
            element: Uncommitted::new(entry, ledger),
            saved,
        }
    }

    fn commit(self, ledger: &mut Ledger)
        ensures { ledger.new ≡ counts_retired 1 ledger.old }
    {
        let Unretired { element, saved: _ } = self;
        element.commit(ledger);
    }

    fn cancel(self, ledger: &mut Ledger)
        ensures { ledger.new ≡ counts_cancelled 1 ledger.old }
    {
        let Unretired { element, saved: _ } = self;
        element.cancel(ledger);
    }

    fn lose(self, ledger: &mut Ledger)
        ensures { ledger.new ≡ counts_lost 1 ledger.old }
    {
        let Unretired { element, saved: _ } = self;
        element.lose(ledger);
    }

    fn saved(&self) -> Saved
        ensures { result ≡ self.now.saved }
    {
        self.saved
    }

    /// The atom is the other one.
    fn flip(&mut self)
        requires { (taken : Bool) × (self.old.p0 ≡ Atom taken) }
        ensures { self.new ≡ turn_step self.old }
    {
        self.element.flip();
    }
}

/// The P0 steps that are not retired, oldest first. It has no drop: `close` ends it.
///
/// A call costs the same whatever is held, but for `retire` and `cancel`, which take each step that goes off the ring, and `lose` and
/// `close`, by which all go.
#[must_use]
pub struct Window {
    ring: SpendRing<Unretired>,
    /// So many of the oldest came before a synchronisation, and count as saved without return addresses.
    emptied: usize,
    ledger: Ledger,
}

impl Model for Window {
    ghost use Rattle.std.specs.Prelude.{◌≤◌, length};
    ghost use Rattle.element_queue.specs.Counting.{Balances};
    ghost use Rattle.trace_unit.specs.WindowKept.{StepsKept, without_stacks};

    ghost Value = { StepsKept };

    ghost view = { λ w. record { steps = without_stacks w.emptied w.ring.items; room = w.ring.capacity; counts = w.ledger } };

    ghost invariant = { λ w. Balances w.ledger (length w.ring.items)
        × (length w.ring.items ≤ w.ring.capacity) × (w.emptied ≤ length w.ring.items) };
}

impl Window {
    /// An empty window with room for so many. This is the one call that takes memory, and the error
    /// means want of it.
    pub fn new(alloc: Global, room: usize) -> Result<Window, AllocError>
        ensures { IfOk result (λ w. w ≡ record { steps = []; room = room; counts = no_counts }) }
    {
        Ok(Window {
            ring: SpendRing::with_capacity(alloc, room)?,
            emptied: 0,
            ledger: Ledger::new(),
        })
    }

    /// How many are held.
    pub fn held(&self) -> usize
        ensures held { result ≡ length self.now.steps }
        ensures few { result ≤ self.now.room }
    {
        self.ring.len()
    }

    /// One P0 step more. Where there is no room for any, it is committed at once.
    pub fn push(&mut self, p0: P0, saved: Saved)
        requires { 0 < self.old.room → length self.old.steps < self.old.room }
        ensures { self.new ≡ record (self.old) {
          steps = with_newest self.old.room self.old.steps (record { p0 = p0; saved = saved });
          counts = counts_made self.old.room self.old.counts;
        } }
    {
        let newest = Unretired::new(p0, saved, &mut self.ledger);
        if let Some(retired) = self.ring.push_back(newest) {
            retired.commit(&mut self.ledger);
        }
    }

    /// So many of the oldest are retired.
    pub fn retire(&mut self, n: usize)
        requires { n ≤ length self.old.steps }
        ensures { self.new ≡ record (self.old) { steps = drop n self.old.steps; counts = counts_retired n self.old.counts } }
    {
        for _ in 0..n {
            if let Some(oldest) = self.ring.pop_front() {
                oldest.commit(&mut self.ledger);
            }
        }
        self.emptied = self.emptied.saturating_sub(n);
    }

    /// So many of the newest are taken back. Hands out what is saved of the oldest of them.
    pub fn cancel(&mut self, n: usize) -> Option<Saved>
        requires { n ≤ length self.old.steps }
        ensures oldest { result ≡ oldest_saved (newest n self.old.steps) }
        ensures steps { self.new ≡ record (self.old) { steps = kept n self.old.steps; counts = counts_cancelled n self.old.counts } }
    {
        let held = self.ring.len() - n;
        let oldest = self.saved_at(held);
        for _ in 0..n {
            if let Some(newest) = self.ring.pop_back() {
                newest.cancel(&mut self.ledger);
            }
        }
        self.emptied = self.emptied.min(held);
        oldest
    }

    /// What is saved of the step at an index; 0 is the oldest.
    fn saved_at(&self, index: usize) -> Option<Saved>
        ensures { result ≡ option_map (λ (s : StepKept). s.saved) (slice_get self.now.steps index) }
    {
        let saved = self.ring.get(index)?.saved();
        if index >= self.emptied {
            return Some(saved);
        }
        Some(Saved {
            stack: SavedStack::empty(),
            ..saved
        })
    }

    /// The newest, an atom, is the other one.
    pub fn flip(&mut self)
        requires { (p0s : List Element) × (taken : Bool) × (p0s_in self.old.steps ≡ p0s ++ Atom taken ∷ []) }
        ensures { self.new ≡ record (self.old) { steps = at_newest turn_step self.old.steps } }
    {
        if let Some(newest) = self.ring.get_mut(self.ring.len() - 1) {
            newest.flip();
        }
    }

    /// The reader empties its return stack: nothing that is saved has return addresses any more. This costs the same whatever is held.
    pub fn sync(&mut self)
        ensures { self.new ≡ record (self.old) { steps = map step_emptied self.old.steps } }
    {
        let held = self.ring.len();
        self.emptied = held;
    }

    /// All are lost.
    pub fn lose(&mut self)
        ensures { self.new ≡ record (self.old) { steps = []; counts = counts_lost (length self.old.steps) self.old.counts } }
    {
        while let Some(oldest) = self.ring.pop_front() {
            oldest.lose(&mut self.ledger);
        }
        self.emptied = 0;
    }

    /// What became of all.
    pub fn counts(&self) -> Counts
        ensures value { result ≡ self.now.counts }
        ensures balanced { Balances self.now.counts (length self.now.steps) }
        ensures counted { AreCounts self.now.counts }
    {
        self.ledger.counts()
    }

    /// Ends the window. What is not retired is lost.
    pub fn close(self) -> Ledger
        ensures value { result ≡ counts_lost (length self.steps) self.counts }
        ensures balanced { Balances result 0 }
    {
        let mut window = self;
        window.lose();
        let Window {
            ring,
            emptied: _,
            ledger,
        } = window;
        ring.close();
        ledger
    }
}

//! The places of a run, as far as its trace unit knows them, with the return addresses that a reader has too (Arm IHI 0064,
//! "Return stack"), and its P0 steps that are not retired.
ghost use Rattle.std.specs.Prelude.{◌≡◌, ◌<◌, ◌≤◌, ◌++◌, ◌∷◌, [], length, Bool, List, IfOk};
ghost use Rattle.element_queue.specs.Counting.{AreCounts, Balances, no_counts};
ghost use Rattle.etm_types.specs.declared.element.P0.{P0 as Element};
ghost use Rattle.etm_types.specs.declared.element.P0.TheVariants.{Atom};
ghost use Rattle.return_stack.specs.Stack.{most_addresses};
ghost use Rattle.trace_unit.specs.Effects.{counts_lost};
ghost use Rattle.trace_unit.specs.Orders.{is_target};
ghost use Rattle.trace_unit.specs.Places.{left_by, no_places, placed_back, placed_begun, placed_behind, placed_closed};
ghost use Rattle.trace_unit.specs.Places.{placed_flipped, placed_retired, placed_synced, saves};
ghost use Rattle.trace_unit.specs.WindowKept.{pushed, windowed_cancelled, windowed_flipped, windowed_lost, windowed_retired};

use crate::window::{Saved, Window};
use a64_branches::INSTRUCTION_BYTES;
use element_queue::{Counts, Ledger};
use etm_types::{Ctx, P0};
use return_stack::ReturnStack;
use spec_run::{RunStep, StepKind};
use std::alloc::{AllocError, Global};
use std::marker::Model;

/// The return addresses, what the reader knows of the begun block, and the P0 steps that are not retired, with what is saved of each. It
/// has no drop: `close` ends it.
///
/// A call costs the same whatever is held, but for `retire` and `cancel`, which look once at each P0 step that goes, and `lose` and
/// `close`, by which all go.
#[must_use]
pub struct Places {
    stack: ReturnStack,
    /// Whether the begun block needs an address.
    needs: bool,
    start: u64,
    /// The context that the reader has for the begun block.
    reader_context: Ctx,
    window: Window,
}

impl Model for Places {
    ghost use Rattle.std.specs.Prelude.{◌≤◌, All, length};
    ghost use Rattle.trace_unit.specs.PlacesKept.{PlacesKept};
    ghost use Rattle.trace_unit.specs.WindowKept.{StepKept, p0s_in, saved_in};

    ghost Value = { PlacesKept };

    ghost view = { λ p. record {
      places = record {
        stack = p.stack.addresses;
        saved = saved_in p.window.steps;
        needs = p.needs;
        start = p.start;
        reader_context = p.reader_context;
      };
      stack_depth = p.stack.depth;
      window = record { p0s = p0s_in p.window.steps; room = p.window.room; counts = p.window.counts };
    } };

    ghost invariant = { λ p. All (λ (s : StepKept). length s.saved.stack ≤ p.stack.depth) p.window.steps };
}

impl Places {
    /// No places, with room for so many P0 steps that are not retired, and for so many return addresses.
    /// This is the one call that takes memory, and the error means want of it.
    pub fn new(alloc: Global, room: usize, stack_depth: usize) -> Result<Places, AllocError>
        requires { stack_depth ≤ most_addresses }
        ensures { IfOk result (λ p. p ≡ record {
          places = no_places;
          stack_depth = stack_depth;
          window = record { p0s = []; room = room; counts = no_counts };
        }) }
    {
        Ok(Places {
            stack: ReturnStack::new(alloc, stack_depth)?,
            needs: false,
            start: 0,
            reader_context: Ctx::initial(),
            window: Window::new(alloc, room)?,
        })
    }

    /// How many P0 steps are not retired.
    pub fn held(&self) -> usize
        ensures held { result ≡ length self.now.window.p0s }
        ensures few { result ≤ self.now.window.room }
    {
        self.window.held()
    }

    /// Whether the begun block needs an address.
    pub fn needs(&self) -> bool
        ensures { result ≡ self.now.places.needs }
    {
        self.needs
    }

    /// Where the begun block starts.
    pub fn start(&self) -> u64
        ensures { result ≡ self.now.places.start }
    {
        self.start
    }

    /// Whether the begun block needs an address, and this is it.
    pub fn is_target(&self, addr: u64) -> bool
        ensures { result ≡ is_target self.now.places addr }
    {
        self.needs && self.start == addr
    }

    /// The context that the reader has for it.
    pub fn reader_context(&self) -> Ctx
        ensures { result ≡ self.now.places.reader_context }
    {
        self.reader_context
    }

    /// Tracing begins at an address, where no P0 step is held.
    pub fn begin(&mut self, addr: u64, ctx: Ctx)
        requires { self.old.window.p0s ≡ [] }
        ensures { self.new ≡ record (self.old) { places = placed_begun addr ctx } }
    {
        self.stack.clear();
        self.needs = false;
        self.start = addr;
        self.reader_context = ctx;
    }

    /// A P0 step was executed. At depth 0, where there is no room, it is retired at once.
    pub fn push(&mut self, step: &RunStep, p0: P0)
        requires { 0 < self.old.window.room → length self.old.window.p0s < self.old.window.room }
        ensures { self.new ≡ record (self.old) {
          places = placed_behind self.old.window.room self.old.stack_depth self.old.places step.now;
          window = pushed self.old.window self.old.window.room p0;
        } }
    {
        self.save(step, p0);
        if step.link {
            self.stack.push(step.addr.wrapping_add(INSTRUCTION_BYTES));
        }
        self.needs = self.leave(step);
        self.start = step.next;
        self.reader_context = step.ctx;
    }

    /// Keeps a P0 step, and what the unit goes back to where it is taken back. At depth 0 nothing is kept.
    fn save(&mut self, step: &RunStep, p0: P0)
        requires { 0 < self.old.window.room → length self.old.window.p0s < self.old.window.room }
        ensures { self.new ≡ record (self.old) {
          places = record (self.old.places) { saved = saves self.old.window.room self.old.places step.now };
          window = pushed self.old.window self.old.window.room p0;
        } }
    {
        let saved = Saved {
            stack: self.stack.save(),
            context: step.ctx,
            start: self.start,
        };
        self.window.push(p0, saved);
    }

    /// Takes the return address off where the reader does so too, and tells whether the block
    /// behind a P0 step needs an address.
    fn leave(&mut self, step: &RunStep) -> bool
        ensures needs { result ≡ (left_by step.now.kind step.now.next self.old.places.stack).needs }
        ensures places { self.new ≡ record (self.old) {
          places = record (self.old.places) { stack = (left_by step.now.kind step.now.next self.old.places.stack).stack };
        } }
    {
        match step.kind {
            StepKind::Ind { link: false } if self.stack.top() == Some(step.next) => {
                self.stack.pop();
                false
            }
            StepKind::Ind { .. } | StepKind::Eret | StepKind::Exc { .. } => true,
            _ => false,
        }
    }

    /// So many of the oldest P0 steps are retired.
    pub fn retire(&mut self, n: usize)
        requires { n ≤ length self.old.window.p0s }
        ensures { self.new ≡ record (self.old) {
          places = placed_retired self.old.places n;
          window = windowed_retired self.old.window n;
        } }
    {
        self.window.retire(n);
    }

    /// So many of the newest P0 steps are taken back.
    pub fn cancel(&mut self, n: usize)
        requires { n ≤ length self.old.window.p0s }
        ensures { self.new ≡ record (self.old) {
          places = placed_back self.old.places n;
          window = windowed_cancelled self.old.window n;
        } }
    {
        if let Some(oldest) = self.window.cancel(n) {
            self.stack.restore(&oldest.stack);
            self.needs = false;
            self.start = oldest.start;
            self.reader_context = oldest.context;
        }
    }

    /// The newest step, a conditional branch, goes the other way, to this address.
    pub fn flip(&mut self, pc: u64)
        requires { (p0s : List Element) × (taken : Bool) × (self.old.window.p0s ≡ p0s ++ Atom taken ∷ []) }
        ensures { self.new ≡ record (self.old) {
          places = placed_flipped self.old.places pc;
          window = windowed_flipped self.old.window;
        } }
    {
        self.window.flip();
        self.needs = false;
        self.start = pc;
    }

    /// The reader is told the address and the context of the begun block. It empties its return
    /// stack, and nothing that is saved has return addresses any more. This costs the same whatever is held.
    pub fn sync(&mut self, ctx: Ctx)
        ensures { self.new ≡ record (self.old) { places = placed_synced self.old.places ctx } }
    {
        self.stack.clear();
        self.window.sync();
        self.needs = false;
        self.reader_context = ctx;
    }

    /// Tracing ends: what is held is lost.
    pub fn lose(&mut self)
        ensures { self.new ≡ record (self.old) {
          places = placed_closed self.old.places;
          window = windowed_lost self.old.window;
        } }
    {
        self.window.lose();
    }

    /// What became of the P0 steps.
    pub fn counts(&self) -> Counts
        ensures value { result ≡ self.now.window.counts }
        ensures balanced { Balances self.now.window.counts (length self.now.window.p0s) }
        ensures counted { AreCounts self.now.window.counts }
    {
        self.window.counts()
    }

    /// Ends it. What is not retired is lost.
    pub fn close(self) -> Ledger
        ensures value { result ≡ counts_lost (length self.window.p0s) self.window.counts }
        ensures balanced { Balances result 0 }
    {
        let Places {
            stack: _,
            needs: _,
            start: _,
            reader_context: _,
            window,
        } = self;
        window.close()
    }
}

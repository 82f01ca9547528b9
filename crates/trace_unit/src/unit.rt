//! A trace unit: the bytes of its trace, event by event.
ghost use Rattle.std.specs.Prelude.{◌≡◌, ◌↔◌, ◌<◌, ◌≤◌, ◌+◌, ◌++◌, ◌∷◌, [], ℕ, List, length, replicate, IfOk, IsErr, IsOk, Ok, Err, Some, None};
ghost use Rattle.element_queue.specs.Counting.{Balances, no_counts};
ghost use Rattle.packet_grammar.specs.declared.end.End.TheVariants.{Clean};
ghost use Rattle.path_elements.specs.Path.{IsPath};
ghost use Rattle.program_image.specs.Part.{IsImage};
ghost use Rattle.program_image.specs.declared.image.Image.{Image as Parts};
ghost use Rattle.return_stack.specs.Stack.{most_addresses};
ghost use Rattle.spec_run.specs.Checks.{check};
ghost use Rattle.spec_run.specs.ManySteps.{AllPass, IsStepCount};
ghost use Rattle.spec_run.specs.RetiredItems.{retired_of};
ghost use Rattle.spec_run.specs.RunAfter.{IsEvent, run_after};
ghost use Rattle.spec_run.specs.Runs.{Execution};
ghost use Rattle.spec_run.specs.declared.event.Event.{Event as Events};
ghost use Rattle.spec_run.specs.declared.run_fault.RunFault.{RunFault as Refusal};
ghost use Rattle.trace_unit.specs.Effects.{counts_lost, counts_of};
ghost use Rattle.trace_unit.specs.Kept.{StandsAt};
ghost use Rattle.trace_unit.specs.Small.{unretired};
ghost use Rattle.trace_unit.specs.Written.{settled, written};

use crate::follower::Follower;
use element_queue::{Counts, Ledger};
use etm_types::Settings;
use program_image::Image;
use spec_run::{Event, Run, RunFault};
use std::alloc::{AllocError, Global};
use std::marker::Model;
use thiserror::Error;

/// The bytes that an event writes at most.
const ROOM: usize = 128;

/// Why a unit took no event.
#[derive(Clone, Copy, Debug, PartialEq, Eq, Error)]
pub enum UnitFault {
    /// The run refuses it.
    #[error("{0}")]
    Run(RunFault),
    /// Want of memory.
    #[error("no memory")]
    Memory,
}

/// A trace unit. It stands behind the events that it accepted. It has no drop: it ends by `end` or `abandon`.
///
/// The image is that of all calls. An event costs the same whatever is held, but for a retire or cancel, which costs what it takes, and the
/// end of tracing, which costs what it loses.
#[must_use]
pub struct Unit {
    run: Run,
    follower: Follower,
}

impl Model for Unit {
    ghost use Rattle.trace_unit.specs.Kept.{Kept};

    ghost Value = { Kept };

    ghost use Rattle.trace_unit.specs.Agreeing.{Agree, kept_of};

    ghost view = { λ u. kept_of u.run u.follower };

    ghost invariant = { λ u. Agree u.run u.follower };
}

impl Unit {
    /// A unit that no event came to, with a return stack of so many addresses. It takes all the memory but that of the bytes;
    /// the error means want of it.
    pub fn new(alloc: Global, settings: &Settings, stack_depth: usize) -> Result<Unit, AllocError>
        requires { stack_depth ≤ most_addresses }
        ensures stands { IfOk result (λ unit. (image : Parts) → StandsAt image unit []) }
        ensures settings { IfOk result (λ unit. (unit.settings ≡ settings.now) × (unit.stack_depth ≡ stack_depth)) }
        ensures none { IfOk result (λ unit. unit.counts ≡ no_counts) }
    {
        let run = Run::new(alloc, settings)?;
        let follower = Follower::new(alloc, settings, stack_depth)?;
        Ok(Unit { run, follower })
    }

    /// Takes an event, and appends what the trace says of it. Where the run refuses it, or for want of memory, nothing changes.
    pub fn accept(
        &mut self,
        image: &Image,
        event: &Event,
        bytes: &mut Vec<u8>,
    ) -> Result<(), UnitFault>
        requires { IsEvent self.old.settings event.now }
        ensures stands { (events : List Events) → StandsAt image.now self.old events → IsOk result
            → StandsAt image.now self.new (events ++ event.now ∷ []) }
        ensures written { (events : List Events) → StandsAt image.now self.old events → IsOk result
            → (more : List ℕ) × (bytes.new.items ≡ bytes.old.items ++ more)
            × (written image.now self.old.settings self.old.stack_depth (events ++ event.now ∷ [])
            ≡ written image.now self.old.settings self.old.stack_depth events ++ more) }
        ensures path { (events : List Events) (x : Execution) → StandsAt image.now self.old events → IsOk result
            → IsImage image.now → run_after image.now self.old.settings.depth (events ++ event.now ∷ []) ≡ Ok x
            → IsPath image.now self.old.settings
            (settled image.now self.old.settings self.old.stack_depth (events ++ event.now ∷ [])) (retired_of x) Clean }
        ensures refused { (fault : Refusal) → (result ≡ Err (UnitFault.Run fault))
            ↔ (check image.now self.old.run.depth self.old.run.place event.now ≡ Some fault) }
        ensures accepted { IsOk result → check image.now self.old.run.depth self.old.run.place event.now ≡ None }
        ensures few { length bytes.new.items ≤ length bytes.old.items + 128 }
        ensures kept { IsErr result → (self.new ≡ self.old) × (bytes.new.items ≡ bytes.old.items) }
        ensures settings { (self.new.settings ≡ self.old.settings) × (self.new.stack_depth ≡ self.old.stack_depth) }
    {
        let effect = self.run.plan(image, event).map_err(UnitFault::Run)?;
        bytes.reserve(ROOM).map_err(|_| UnitFault::Memory)?;
        let done = self.run.take(image, &effect);
        self.follower.follow(&done, &self.run, bytes);
        Ok(())
    }

    /// Takes so many events `Step` together, as far as plain words stand from the pc on and there is room for their steps, and
    /// says how many. The trace says nothing of them: the run alone moves.
    pub fn step_many(&mut self, image: &Image, n: u32) -> u32
        ensures count { IsStepCount image.now self.old.run.depth self.old.run.place n result }
        ensures stands { (events : List Events) → StandsAt image.now self.old events
            → StandsAt image.now self.new (events ++ replicate result Events.Step) }
        ensures written { (events : List Events) → StandsAt image.now self.old events
            → written image.now self.old.settings self.old.stack_depth (events ++ replicate result Events.Step)
            ≡ written image.now self.old.settings self.old.stack_depth events }
        ensures accepted { AllPass image.now self.old.run.depth self.old.run.place (replicate result Events.Step) }
        ensures rest { self.new ≡ record (self.old) { run = self.new.run } }
    {
        self.run.step_many(image, n)
    }

    /// What became of the P0 steps.
    pub fn ledger(&self) -> Counts
        ensures value { result ≡ self.now.counts }
        ensures counted { (image : Parts) (events : List Events) → StandsAt image self.now events
            → result ≡ counts_of image self.now.settings.depth events }
    {
        self.follower.places.counts()
    }

    /// Appends what waits to be written, and ends the unit. What is not retired is lost. The error means want of memory; then
    /// nothing is appended, and the unit has ended all the same.
    pub fn end(self, bytes: &mut Vec<u8>) -> Result<Ledger, AllocError>
        ensures written { (image : Parts) (events : List Events) → StandsAt image self events → IsOk result
            → (more : List ℕ) × (bytes.new.items ≡ bytes.old.items ++ more)
            × (settled image self.settings self.stack_depth events ≡ written image self.settings self.stack_depth events ++ more) }
        ensures path { (image : Parts) (events : List Events) (x : Execution) → StandsAt image self events → IsImage image
            → 0 < length events → run_after image self.settings.depth events ≡ Ok x
            → bytes.old.items ≡ written image self.settings self.stack_depth events → IsOk result
            → IsPath image self.settings bytes.new.items (retired_of x) Clean }
        ensures ledger { (image : Parts) (events : List Events) (x : Execution) → StandsAt image self events
            → run_after image self.settings.depth events ≡ Ok x
            → IfOk result (λ ledger. ledger ≡ counts_lost (unretired x.current) (counts_of image self.settings.depth events)) }
        ensures few { length bytes.new.items ≤ length bytes.old.items + 128 }
        ensures balanced { IfOk result (λ ledger. Balances ledger 0) }
        ensures kept { IsErr result → bytes.new.items ≡ bytes.old.items }
    {
        let Unit {
            run: _,
            mut follower,
        } = self;
        match bytes.reserve(ROOM) {
            Ok(()) => {
                follower.teller.settle(bytes);
                Ok(follower.close())
            }
            Err(failed) => {
                follower.close();
                Err(failed)
            }
        }
    }

    /// Ends the unit, and writes nothing. What is not retired is lost.
    pub fn abandon(self) -> Ledger
        ensures ledger { (image : Parts) (events : List Events) (x : Execution) → StandsAt image self events
            → run_after image self.settings.depth events ≡ Ok x
            → result ≡ counts_lost (unretired x.current) (counts_of image self.settings.depth events) }
        ensures balanced { Balances result 0 }
    {
        let Unit { run: _, follower } = self;
        follower.close()
    }
}

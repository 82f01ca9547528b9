//! What a unit does of each thing that its run did: it tells it, and keeps what it may have to go back to (Arm IHI 0064,
//! "Speculation").
ghost use Rattle.std.specs.Prelude.{◌≡◌, ◌<◌, ◌≤◌, ◌^◌, ◌∷◌, ◌++◌, [], Bool, List, length, IfOk, IsSome, Some};
ghost use Rattle.std.specs.Prelude.{vec_capacity};
ghost use Rattle.element_queue.specs.Counting.{Balances};
ghost use Rattle.etm_types.specs.SameContext.{same_context};
ghost use Rattle.etm_types.specs.Settings.{AreSettings};
ghost use Rattle.etm_types.specs.declared.element.P0.{P0 as Element};
ghost use Rattle.etm_types.specs.declared.element.P0.TheVariants.{Atom};
ghost use Rattle.return_stack.specs.Stack.{most_addresses};
ghost use Rattle.spec_run.specs.Checks.{Situation};
ghost use Rattle.spec_run.specs.Runs.{ByOff, ByOverflow};
ghost use Rattle.trace_unit.specs.Followed.{CanFollow, HasRoomFor, begun, cancelled, closed, element_of, first_follower};
ghost use Rattle.trace_unit.specs.Followed.{flipped, followed, orders_done, retired, stepped, synced};
ghost use Rattle.trace_unit.specs.Ordered.{CanTell, CanTellAll, bytes_all, bytes_of, told_all, told_by};
ghost use Rattle.trace_unit.specs.Orders.{Cancel, Close, Flip, Retire, before, begin_orders, lacked, p0_order, step_orders};
ghost use Rattle.trace_unit.specs.Orders.{sync_orders};
ghost use Rattle.trace_unit.specs.Room.{RoomForBytes};
ghost use Rattle.trace_unit.specs.WindowKept.{windowed_lost};

use crate::places::Places;
use crate::teller::Teller;
use element_queue::Ledger;
use etm_types::{Ctx, P0, Settings};
use spec_run::{Done, Run, RunStep, StepKind};
use std::alloc::{AllocError, Global};

/// The places of the run, with its P0 steps that are not retired, and what is told. It has no drop: `close` ends it.
#[must_use]
pub struct Follower {
    pub places: Places,
    pub teller: Teller,
}

impl Follower {
    /// Behind no event. It takes all the memory that it needs, and the error means want of it.
    pub fn new(
        alloc: Global,
        settings: &Settings,
        stack_depth: usize,
    ) -> Result<Follower, AllocError>
        requires { stack_depth ≤ most_addresses }
        ensures first { IfOk result (λ f. f ≡ first_follower settings.now stack_depth) }
        ensures settings { AreSettings settings.now }
    {
        let room = settings.depth() as usize;
        Ok(Follower {
            places: Places::new(alloc, room, stack_depth)?,
            teller: Teller::new(settings),
        })
    }

    /// Follows what the run did, which now is where it is behind that.
    pub fn follow(&mut self, done: &Done, run: &Run, bytes: &mut Vec<u8>)
        requires can { CanFollow done.now run.now.place self.old }
        requires tells { CanTellAll self.old.teller (orders_done done.now run.now.place self.old) }
        requires room { RoomForBytes bytes.old (bytes_all self.old.teller (orders_done done.now run.now.place self.old)) }
        ensures follower { self.new ≡ followed done.now run.now.place self.old }
        ensures bytes { bytes.new.items
            ≡ bytes.old.items ++ bytes_all self.old.teller (orders_done done.now run.now.place self.old) }
    {
        match *done {
            Done::Began => {
                let (pc, ctx) = standing(run);
                self.begin(pc, ctx, bytes);
            }
            Done::Ran(step) => {
                if step.kind.is_p0() {
                    self.step(&step, bytes);
                }
            }
            Done::Contexted => {}
            Done::Retired { p0 } => self.retire(p0),
            Done::Cancelled { p0 } => self.cancel(p0),
            Done::Flipped => {
                let (pc, _) = standing(run);
                self.flip(pc, bytes);
            }
            Done::Synced => {
                let (_, ctx) = standing(run);
                self.sync(ctx, bytes);
            }
            Done::Overflowed => self.overflow(bytes),
            Done::Stopped => self.stop(bytes),
        }
    }

    /// Ends it. What is not retired is lost.
    pub fn close(self) -> Ledger
        ensures value { result ≡ (windowed_lost self.places.window).counts }
        ensures balanced { Balances result 0 }
    {
        let Follower { places, teller: _ } = self;
        places.close()
    }

    /// Tracing begins.
    fn begin(&mut self, addr: u64, ctx: Ctx, bytes: &mut Vec<u8>)
        requires none { self.old.places.window.p0s ≡ [] }
        requires tells { CanTellAll self.old.teller (begin_orders addr ctx) }
        requires room { RoomForBytes bytes.old (bytes_all self.old.teller (begin_orders addr ctx)) }
        ensures follower { self.new ≡ begun self.old addr ctx }
        ensures bytes { bytes.new.items ≡ bytes.old.items ++ bytes_all self.old.teller (begin_orders addr ctx) }
    {
        self.teller.sync(0, bytes);
        self.teller.on(bytes);
        self.teller.start(addr, ctx, bytes);
        self.places.begin(addr, ctx);
    }

    /// A P0 step was executed.
    fn step(&mut self, step: &RunStep, bytes: &mut Vec<u8>)
        requires window { HasRoomFor self.old.places.window.room self.old.places.window.p0s }
        requires tells { CanTellAll self.old.teller (step_orders self.old.places.places step.now) }
        requires room { RoomForBytes bytes.old (bytes_all self.old.teller (step_orders self.old.places.places step.now)) }
        ensures follower { self.new ≡ stepped self.old step.now }
        ensures bytes { bytes.new.items
            ≡ bytes.old.items ++ bytes_all self.old.teller (step_orders self.old.places.places step.now) }
    {
        self.tell(step, bytes);
        self.places.push(step, element_of(step));
    }

    /// Tells what the reader lacks of the block, and a P0 step; of an exception at its target both in one.
    fn tell(&mut self, step: &RunStep, bytes: &mut Vec<u8>)
        requires tells { CanTellAll self.old.teller (step_orders self.old.places.places step.now) }
        requires room { RoomForBytes bytes.old (bytes_all self.old.teller (step_orders self.old.places.places step.now)) }
        ensures follower { self.new
            ≡ record (self.old) { teller = told_all self.old.teller (step_orders self.old.places.places step.now) } }
        ensures bytes { bytes.new.items
            ≡ bytes.old.items ++ bytes_all self.old.teller (step_orders self.old.places.places step.now) }
    {
        match step.kind {
            StepKind::Exc { kind } if self.places.is_target(step.addr) => {
                let ctx = self.lacked(step.ctx);
                self.teller.exception_at_target(ctx, kind, step.addr, bytes);
            }
            _ => {
                self.tell_missing(step.ctx, bytes);
                self.tell_step(step, bytes);
            }
        }
    }

    /// A context where the reader lacks it.
    fn lacked(&self, ctx: Ctx) -> Option<Ctx>
        ensures { result ≡ lacked (same_context ctx self.now.places.places.reader_context) ctx }
    {
        (ctx != self.places.reader_context()).then_some(ctx)
    }

    /// Tells what the reader lacks of the address and the context of the block.
    fn tell_missing(&mut self, ctx: Ctx, bytes: &mut Vec<u8>)
        requires tells { CanTellAll self.old.teller (before self.old.places.places ctx) }
        requires room { RoomForBytes bytes.old (bytes_all self.old.teller (before self.old.places.places ctx)) }
        ensures follower { self.new
            ≡ record (self.old) { teller = told_all self.old.teller (before self.old.places.places ctx) } }
        ensures bytes { bytes.new.items ≡ bytes.old.items ++ bytes_all self.old.teller (before self.old.places.places ctx) }
        ensures capacity { vec_capacity bytes.new ≡ vec_capacity bytes.old }
    {
        let start = self.places.start();
        match (ctx == self.places.reader_context(), self.places.needs()) {
            (true, true) => self.teller.address(start, bytes),
            (true, false) => {}
            (false, true) => self.teller.place(start, ctx, bytes),
            (false, false) => self.teller.context(ctx, bytes),
        }
    }

    /// Tells a P0 step.
    fn tell_step(&mut self, step: &RunStep, bytes: &mut Vec<u8>)
        requires can { CanTell self.old.teller (p0_order step.now.kind step.now.addr) }
        requires room { RoomForBytes bytes.old (bytes_of self.old.teller (p0_order step.now.kind step.now.addr)) }
        ensures follower { self.new
            ≡ record (self.old) { teller = told_by self.old.teller (p0_order step.now.kind step.now.addr) } }
        ensures bytes { bytes.new.items ≡ bytes.old.items ++ bytes_of self.old.teller (p0_order step.now.kind step.now.addr) }
    {
        match step.kind {
            StepKind::Exc { kind } => self.teller.exception(kind, step.addr, bytes),
            StepKind::Cond { taken } => self.teller.branch(taken, bytes),
            _ => self.teller.branch(true, bytes),
        }
    }

    /// So many P0 steps are retired.
    fn retire(&mut self, n: u32)
        requires held { n ≤ length self.old.places.window.p0s }
        requires can { CanTell self.old.teller (Retire n) }
        ensures { self.new ≡ retired self.old n }
    {
        self.teller.retire(n);
        self.places.retire(n as usize);
    }

    /// So many of the newest P0 steps are taken back.
    fn cancel(&mut self, n: u32)
        requires held { n ≤ length self.old.places.window.p0s }
        requires can { CanTell self.old.teller (Cancel n) }
        ensures { self.new ≡ cancelled self.old n }
    {
        self.teller.cancel(n);
        self.places.cancel(n as usize);
    }

    /// The newest step goes the other way, to this address.
    fn flip(&mut self, pc: u64, bytes: &mut Vec<u8>)
        requires newest { (p0s : List Element) × (taken : Bool) × (self.old.places.window.p0s ≡ p0s ++ Atom taken ∷ []) }
        requires can { CanTell self.old.teller Flip }
        requires room { RoomForBytes bytes.old (bytes_of self.old.teller Flip) }
        ensures follower { self.new ≡ flipped self.old pc }
        ensures bytes { bytes.new.items ≡ bytes.old.items ++ bytes_of self.old.teller Flip }
    {
        self.teller.flip(bytes);
        self.places.flip(pc);
    }

    /// Synchronisation, in this context.
    fn sync(&mut self, ctx: Ctx, bytes: &mut Vec<u8>)
        requires few { length self.old.places.window.p0s < 2 ^ 32 }
        requires tells { CanTellAll self.old.teller (sync_orders (length self.old.places.window.p0s) self.old.places.places.start ctx) }
        requires room { RoomForBytes bytes.old
            (bytes_all self.old.teller (sync_orders (length self.old.places.window.p0s) self.old.places.places.start ctx)) }
        ensures follower { self.new ≡ synced self.old ctx }
        ensures bytes { bytes.new.items ≡ bytes.old.items
            ++ bytes_all self.old.teller (sync_orders (length self.old.places.window.p0s) self.old.places.places.start ctx) }
    {
        self.teller.settle(bytes);
        let announced = self.places.held() as u32;
        self.teller.sync(announced, bytes);
        self.teller.start(self.places.start(), ctx, bytes);
        self.places.sync(ctx);
    }

    /// Tracing ends, by an overflow.
    fn overflow(&mut self, bytes: &mut Vec<u8>)
        requires can { CanTell self.old.teller (Close ByOverflow) }
        requires room { RoomForBytes bytes.old (bytes_of self.old.teller (Close ByOverflow)) }
        ensures follower { self.new ≡ closed self.old ByOverflow }
        ensures bytes { bytes.new.items ≡ bytes.old.items ++ bytes_of self.old.teller (Close ByOverflow) }
    {
        self.teller.overflow(bytes);
        self.places.lose();
    }

    /// Tracing ends.
    fn stop(&mut self, bytes: &mut Vec<u8>)
        requires can { CanTell self.old.teller (Close ByOff) }
        requires room { RoomForBytes bytes.old (bytes_of self.old.teller (Close ByOff)) }
        ensures follower { self.new ≡ closed self.old ByOff }
        ensures bytes { bytes.new.items ≡ bytes.old.items ++ bytes_of self.old.teller (Close ByOff) }
    {
        self.teller.stop(bytes);
        self.places.lose();
    }
}

/// The P0 element of a P0 step.
fn element_of(step: &RunStep) -> P0
    ensures { result ≡ element_of step.now.kind step.now.addr }
{
    match step.kind {
        StepKind::Exc { kind } => P0::Exc {
            kind,
            ret: step.addr,
        },
        StepKind::Cond { taken } => P0::Atom(taken),
        _ => P0::Atom(true),
    }
}

/// Where a run goes on, and in which context, while tracing is on.
fn standing(run: &Run) -> (u64, Ctx)
    requires { IsSome run.now.place }
    ensures { (p : Situation) → run.now.place ≡ Some p → result ≡ (p.pc, p.ctx) }
{
    match (run.pc(), run.ctx()) {
        (Some(pc), Some(ctx)) => (pc, ctx),
        _ => unreachable!(),
    }
}

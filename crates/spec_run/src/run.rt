//! A run: which events are accepted one after the other, and what they execute.
ghost use Rattle.std.specs.Prelude.{◌≡◌, ◌≤◌, ◌<◌, ◌+◌, ◌++◌, ◌∷◌, [], ℕ, List, None, Some, Err, IfOk, IsErr, IsOk, length, nat_le};
ghost use Rattle.std.specs.Prelude.{replicate, slice_get, take};
ghost use Rattle.std.specs.Option.{option_map};
ghost use Rattle.etm_types.specs.Settings.{Sizes};
ghost use Rattle.program_image.specs.Blocks.{class_at};
ghost use Rattle.program_image.specs.Part.{Part};
ghost use Rattle.spec_run.specs.Checks.{aim_fault, aligned_fault, check, depth_fault, effect_of, executed, ran_by, room_fault, step_fault, unless, window};
ghost use Rattle.spec_run.specs.Checks.{held_at};
ghost use Rattle.spec_run.specs.Effects.{done_of, place_after, place_begun, place_cancelled, place_contexted, place_flipped, place_ran, place_retired};
ghost use Rattle.spec_run.specs.ManySteps.{AllPass, IsStepCount, place_after_all};
ghost use Rattle.spec_run.specs.RunAfter.{run_after};
ghost use Rattle.spec_run.specs.Runs.{other_next, turned};
ghost use Rattle.spec_run.specs.Steps.{ends_in_cond, isb_behind, newest, p0s};
ghost use Rattle.spec_run.specs.Windows.{RoomInWindow};
ghost use Rattle.spec_run.specs.Windows.{place_of_standing, place_stepped_all, planned, planned_by};
ghost use Rattle.spec_run.specs.Stands.{StandsAt, refused_by};

use crate::effect::Effect;
use crate::event::{Done, Event};
use crate::run_fault::RunFault;
use crate::standing::Standing;
use crate::step::{RunStep, StepKind};
use a64_branches::{Class, INSTRUCTION_BYTES, class_of, target};
use circular_buffer::HeapCircularBuffer;
use etm_types::{Ctx, Settings};
use program_image::Image;
use std::alloc::{AllocError, Global};
use std::marker::Model;

/// The most steps that are held.
const WINDOW: usize = 65_535;

/// A run of a core over an image. It stands behind the events that it accepted, and keeps the steps that are not retired:
/// they are *held*, since a cancel may take them back.
///
/// An event costs the same whatever is held, but for a retire or cancel, which costs what it takes, and the end of tracing,
/// which costs what it loses.
#[derive(Drop)]
pub struct Run {
    depth: u32,
    /// Oldest first.
    held: HeapCircularBuffer<RunStep>,
    /// How many of them are P0 steps.
    p0: u32,
    /// None while tracing is off.
    standing: Option<Standing>,
}

impl Model for Run {
    ghost use Rattle.spec_run.specs.Stands.{Kept};

    ghost Value = { Kept };

    ghost use Rattle.spec_run.specs.Windows.{IsWindow, place_by};

    ghost view = { λ r. record { depth = r.depth; place = place_by r.standing r.held.items } };

    ghost invariant = { λ r. IsWindow r.depth r.held r.p0 r.standing };
}

impl Run {
    /// A run that no event came to. It takes the memory for all the steps that may be held, and no other call takes any;
    /// the error means want of it.
    pub fn new(alloc: Global, settings: &Settings) -> Result<Run, AllocError>
        ensures stands { IfOk result (λ run. (image : List Part) → StandsAt image settings.now run []) }
    {
        Ok(Run {
            depth: settings.depth(),
            held: HeapCircularBuffer::with_capacity(alloc, WINDOW)?,
            p0: 0,
            standing: None,
        })
    }

    /// Forgets all events, and goes on as a new run of these settings. It takes no memory: that of a run is the same for
    /// all settings.
    pub fn restart(&mut self, settings: &Settings)
        ensures stands { (image : List Part) → StandsAt image settings.now self.new [] }
    {
        let depth = settings.depth();
        self.close();
        self.depth = depth;
    }

    /// Takes an event, and says what it did. Where it is refused, nothing changes.
    ///
    /// The image is that of all calls.
    pub fn apply(&mut self, image: &Image, event: &Event) -> Result<Done, RunFault>
        ensures stands { (s : Sizes) (events : List Event) → StandsAt image.now s self.old events → IsOk result
            → StandsAt image.now s self.new (events ++ event.now ∷ []) }
        ensures refused { (s : Sizes) (events : List Event) → StandsAt image.now s self.old events → (fault : RunFault) → result ≡ Err fault
            → run_after image.now s.depth (events ++ event.now ∷ []) ≡ Err (length events, fault) }
        ensures checked { refused_by result ≡ check image.now self.old.depth self.old.place event.now }
        ensures done { IfOk result (λ done. done ≡ done_of (held_at self.old.place) (effect_of image.now self.old.place event.now)) }
        ensures place { IsOk result
            → self.new.place ≡ place_after image.now self.old.depth self.old.place (effect_of image.now self.old.place event.now) }
        ensures kept { IsErr result → self.new ≡ self.old }
        ensures depth { self.new.depth ≡ self.old.depth }
    {
        let effect = self.plan(image, event)?;
        Ok(self.take(image, &effect))
    }

    /// Takes so many events `Step` together, as far as plain words stand from the pc on and there is room for their steps, and
    /// says how many. While tracing is off it takes none. An ISB is left to `apply`.
    ///
    /// It costs the search of a block, and above depth 0 a write for each step.
    pub fn step_many(&mut self, image: &Image, n: u32) -> u32
        ensures count { IsStepCount image.now self.old.depth self.old.place n result }
        ensures stands { (s : Sizes) (events : List Event) → StandsAt image.now s self.old events
            → StandsAt image.now s self.new (events ++ replicate result Event.Step) }
        ensures accepted { AllPass image.now self.old.depth self.old.place (replicate result Event.Step) }
        ensures place { self.new.place
            ≡ place_after_all image.now self.old.depth self.old.place (replicate result Event.Step) }
        ensures depth { self.new.depth ≡ self.old.depth }
    {
        let Some(pc) = self.pc() else {
            return 0;
        };
        let count = self.plain_steps(image, pc, n);
        if self.depth == 0 {
            self.pass_plain(count);
        } else {
            self.hold_plain(count);
        }
        count
    }

    /// How many steps are not retired.
    pub fn unretired(&self) -> u32
        ensures value { result ≡ length (held_at self.now.place) }
        ensures within { result ≤ window }
    {
        self.held.len() as u32
    }

    /// The `k`-th step that is not retired; 0 is the oldest.
    pub fn step_at(&self, k: u32) -> Option<RunStep>
        ensures { result ≡ slice_get (held_at self.now.place) k }
    {
        self.held.get(k as usize).copied()
    }

    /// Where the core goes on, while tracing is on.
    pub fn pc(&self) -> Option<u64>
        ensures { result ≡ option_map (λ p. p.pc) self.now.place }
    {
        self.standing.map(|standing| standing.pc)
    }

    /// In which context, while tracing is on.
    pub fn ctx(&self) -> Option<Ctx>
        ensures { result ≡ option_map (λ p. p.ctx) self.now.place }
    {
        self.standing.map(|standing| standing.ctx)
    }

    /// What an event does, or the first of its checks that fails. Nothing changes.
    pub fn plan(&self, image: &Image, event: &Event) -> Result<Effect, RunFault>
        ensures { result ≡ planned image.now self.now.depth self.now.place event.now }
    {
        let Some(standing) = self.standing else {
            return plan_off(event);
        };
        match *event {
            Event::On { .. } => Err(RunFault::AlreadyOn),
            Event::Exc { kind, addr, ctx } => {
                check_aligned(addr)?;
                self.plan_step(standing.step(StepKind::Exc { kind }, addr, false), ctx)
            }
            Event::Context { ctx } => self.plan_context(&standing, ctx),
            Event::Retire(n) => self.plan_retire(n),
            Event::Cancel(n) => self.plan_cancel(n),
            Event::Flip => self.plan_flip(),
            Event::Sync => Ok(Effect::Synced),
            Event::Overflow => Ok(Effect::Overflowed),
            Event::Off => Ok(Effect::Stopped),
            Event::Step | Event::Taken | Event::NotTaken | Event::To { .. } | Event::Eret { .. } =>
                { self.plan_executed(image, &standing, event) }
        }
    }

    /// The same of an event that executes the instruction at the pc.
    fn plan_executed(
        &self,
        image: &Image,
        standing: &Standing,
        event: &Event,
    ) -> Result<Effect, RunFault>
        requires { self.now.place ≡ Some (place_of_standing standing.now (held_at self.now.place)) }
        ensures { result
            ≡ planned_by (step_fault self.now.depth (class_at image.now standing.now.pc) (place_of_standing standing.now (held_at self.now.place)) event.now)
            (ran_by (executed (class_at image.now standing.now.pc) (place_of_standing standing.now (held_at self.now.place)) event.now)) }
    {
        let pc = standing.pc;
        let class = match image.word_at(pc) {
            Some(word) => class_of(word),
            None => return Err(RunFault::NoCode(pc)),
        };
        if class == Class::Odd {
            return Err(RunFault::Odd(pc));
        }
        let Some((step, ctx)) = standing.executed(class, event) else {
            return Err(RunFault::WrongKind(pc));
        };
        check_aim(event)?;
        self.plan_step(step, ctx)
    }

    /// The same of a step, where there is room for it.
    fn plan_step(&self, step: RunStep, ctx: Ctx) -> Result<Effect, RunFault>
        ensures { result ≡ planned_by (room_fault self.now.depth (held_at self.now.place) step) (Effect.Ran step ctx) }
    {
        self.check_depth(step.kind.is_p0())?;
        if self.held.is_full() {
            return Err(RunFault::WindowFull);
        }
        Ok(Effect::Ran { step, ctx })
    }

    /// Whether one more step would hold more P0 steps than the depth; at depth 0 none is held.
    fn check_depth(&self, p0: bool) -> Result<(), RunFault>
        ensures { refused_by result ≡ depth_fault self.now.depth p0 (p0s (held_at self.now.place)) }
    {
        if p0 && self.depth > 0 && self.p0 >= self.depth {
            return Err(RunFault::TooDeep {
                p0: self.p0 + 1,
                depth: self.depth,
            });
        }
        Ok(())
    }

    /// The same of a change of context.
    fn plan_context(&self, standing: &Standing, ctx: Ctx) -> Result<Effect, RunFault>
        ensures { result ≡ planned_by (unless (isb_behind standing.now.after_isb (held_at self.now.place)) RunFault.ContextPlace) (Effect.Contexted ctx) }
    {
        if !self.is_behind_isb(standing) {
            return Err(RunFault::ContextPlace);
        }
        Ok(Effect::Contexted(ctx))
    }

    /// Whether the newest step, retired or not, is an ISB.
    fn is_behind_isb(&self, standing: &Standing) -> bool
        ensures { result ≡ isb_behind standing.now.after_isb (held_at self.now.place) }
    {
        match self.held.back() {
            Some(newest) => newest.kind.is_isb(),
            None => standing.after_isb,
        }
    }

    /// The same of a retire.
    fn plan_retire(&self, n: u32) -> Result<Effect, RunFault>
        ensures { result
            ≡ planned_by (unless (nat_le n (length (held_at self.now.place))) (RunFault.RetireTooMany n (length (held_at self.now.place))))
            (Effect.Retired n) }
    {
        let held = self.unretired();
        if n > held {
            return Err(RunFault::RetireTooMany { asked: n, held });
        }
        Ok(Effect::Retired(n))
    }

    /// The same of a cancel.
    fn plan_cancel(&self, n: u32) -> Result<Effect, RunFault>
        ensures { result
            ≡ planned_by (unless (nat_le n (length (held_at self.now.place))) (RunFault.CancelTooMany n (length (held_at self.now.place))))
            (Effect.Cancelled n) }
    {
        let held = self.unretired();
        if n > held {
            return Err(RunFault::CancelTooMany { asked: n, held });
        }
        Ok(Effect::Cancelled(n))
    }

    /// The same of a flip.
    fn plan_flip(&self) -> Result<Effect, RunFault>
        ensures { result ≡ planned_by (unless (ends_in_cond (held_at self.now.place)) RunFault.NoBranchToFlip) Effect.Flipped }
    {
        if !self.ends_in_cond() {
            return Err(RunFault::NoBranchToFlip);
        }
        Ok(Effect::Flipped)
    }

    /// Whether the newest of the held steps is a conditional branch.
    fn ends_in_cond(&self) -> bool
        ensures { result ≡ ends_in_cond (held_at self.now.place) }
    {
        match self.held.back() {
            Some(newest) => newest.kind.is_cond(),
            None => false,
        }
    }

    /// Does what an event does by its plan, and says what was done. The plan is of the run as it stands.
    pub fn take(&mut self, image: &Image, effect: &Effect) -> Done
        requires room { RoomInWindow effect.now (held_at self.old.place) }
        ensures place { self.new.place ≡ place_after image.now self.old.depth self.old.place effect.now }
        ensures done { result ≡ done_of (held_at self.old.place) effect.now }
        ensures depth { self.new.depth ≡ self.old.depth }
    {
        match *effect {
            Effect::Began { addr, ctx } => {
                self.begin(addr, ctx);
                Done::Began
            }
            Effect::Ran { step, ctx } => {
                self.run_step(step, ctx);
                Done::Ran(step)
            }
            Effect::Contexted(ctx) => {
                self.set_context(ctx);
                Done::Contexted
            }
            Effect::Retired(n) => Done::Retired { p0: self.retire(n) },
            Effect::Cancelled(n) => Done::Cancelled { p0: self.cancel(n) },
            Effect::Flipped => {
                self.flip(image);
                Done::Flipped
            }
            Effect::Synced => Done::Synced,
            Effect::Overflowed => {
                self.close();
                Done::Overflowed
            }
            Effect::Stopped => {
                self.close();
                Done::Stopped
            }
        }
    }

    /// Tracing begins.
    fn begin(&mut self, addr: u64, ctx: Ctx)
        ensures place { self.new.place ≡ Some (place_begun (held_at self.old.place) addr ctx) }
        ensures depth { self.new.depth ≡ self.old.depth }
    {
        self.standing = Some(Standing {
            pc: addr,
            ctx,
            after_isb: false,
        });
    }

    /// A step is executed; at depth 0 it is retired at once.
    fn run_step(&mut self, step: RunStep, ctx: Ctx)
        requires room { length (held_at self.old.place) < window }
        ensures place { self.new.place ≡ option_map (λ p. place_ran self.old.depth p step ctx) self.old.place }
        ensures depth { self.new.depth ≡ self.old.depth }
    {
        let Some(standing) = self.standing else {
            return;
        };
        if self.depth == 0 {
            self.standing = Some(Standing {
                pc: step.next,
                ctx,
                after_isb: step.kind.is_isb(),
            });
            return;
        }
        self.standing = Some(Standing {
            pc: step.next,
            ctx,
            ..standing
        });
        self.p0 += u32::from(step.kind.is_p0());
        self.held.push_back(step);
    }

    /// How many of so many events `Step` can be taken together from the pc on.
    fn plain_steps(&self, image: &Image, pc: u64, n: u32) -> u32
        requires { option_map (λ p. p.pc) self.now.place ≡ Some pc }
        ensures { IsStepCount image.now self.now.depth self.now.place n result }
    {
        if pc % INSTRUCTION_BYTES != 0 {
            return 0;
        }
        let room = if self.depth == 0 {
            n
        } else {
            n.min((WINDOW - self.held.len()) as u32)
        };
        image.block(pc).plain.min(u64::from(room)) as u32
    }

    /// At depth 0, so many plain steps are executed.
    fn pass_plain(&mut self, count: u32)
        requires flat { self.old.depth ≡ 0 }
        ensures place { self.new.place ≡ option_map (λ p. place_stepped_all self.old.depth p count) self.old.place }
        ensures depth { self.new.depth ≡ self.old.depth }
    {
        let Some(standing) = self.standing else {
            return;
        };
        if count > 0 {
            self.standing = Some(Standing {
                pc: standing
                    .pc
                    .wrapping_add(u64::from(count) * INSTRUCTION_BYTES),
                after_isb: false,
                ..standing
            });
        }
    }

    /// At another depth, so many plain steps are executed, for which there is room.
    fn hold_plain(&mut self, count: u32)
        requires deep { 0 < self.old.depth }
        requires room { length (held_at self.old.place) + count ≤ window }
        ensures place { self.new.place ≡ option_map (λ p. place_stepped_all self.old.depth p count) self.old.place }
        ensures depth { self.new.depth ≡ self.old.depth }
    {
        let Some(mut standing) = self.standing else {
            return;
        };
        for _ in 0..count {
            let next = standing.pc.wrapping_add(INSTRUCTION_BYTES);
            self.held
                .push_back(standing.step(StepKind::Plain, next, false));
            standing.pc = next;
        }
        self.standing = Some(standing);
    }

    /// The context changes.
    fn set_context(&mut self, ctx: Ctx)
        ensures place { self.new.place ≡ option_map (λ p. place_contexted p ctx) self.old.place }
        ensures depth { self.new.depth ≡ self.old.depth }
    {
        if let Some(standing) = self.standing {
            self.standing = Some(Standing { ctx, ..standing });
        }
    }

    /// Retires the oldest of the held steps, and says how many of these are P0 steps.
    fn retire(&mut self, n: u32) -> u32
        ensures place { self.new.place ≡ option_map (λ p. place_retired p n) self.old.place }
        ensures p0 { result ≡ p0s (take n (held_at self.old.place)) }
        ensures depth { self.new.depth ≡ self.old.depth }
    {
        let Some(mut standing) = self.standing else {
            return 0;
        };
        let mut p0 = 0;
        for _ in 0..n {
            if let Some(step) = self.held.pop_front() {
                p0 += u32::from(step.kind.is_p0());
                standing.after_isb = step.kind.is_isb();
            }
        }
        self.p0 -= p0;
        self.standing = Some(standing);
        p0
    }

    /// Takes the newest of the held steps back, and says how many of these are P0 steps. The core goes on at the oldest of
    /// them.
    fn cancel(&mut self, n: u32) -> u32
        ensures place { self.new.place ≡ option_map (λ p. place_cancelled p n) self.old.place }
        ensures p0 { result ≡ p0s (newest n (held_at self.old.place)) }
        ensures depth { self.new.depth ≡ self.old.depth }
    {
        let Some(mut standing) = self.standing else {
            return 0;
        };
        let mut p0 = 0;
        for _ in 0..n {
            if let Some(step) = self.held.pop_back() {
                p0 += u32::from(step.kind.is_p0());
                standing.pc = step.addr;
                standing.ctx = step.ctx;
            }
        }
        self.p0 -= p0;
        self.standing = Some(standing);
        p0
    }

    /// The newest step goes the other way.
    fn flip(&mut self, image: &Image)
        ensures place { self.new.place ≡ option_map (place_flipped image.now) self.old.place }
        ensures depth { self.new.depth ≡ self.old.depth }
    {
        let Some(standing) = self.standing else {
            return;
        };
        if let Some(newest) = self.held.pop_back() {
            let step = turned(image, newest);
            self.standing = Some(Standing {
                pc: step.next,
                ..standing
            });
            self.held.push_back(step);
        }
    }

    /// Tracing ends, and what is held is lost.
    fn close(&mut self)
        ensures place { self.new.place ≡ None }
        ensures depth { self.new.depth ≡ self.old.depth }
    {
        self.held.clear();
        self.p0 = 0;
        self.standing = None;
    }
}

/// A conditional branch that goes the other way; any other step as it is.
fn turned(image: &Image, step: RunStep) -> RunStep
    ensures { result ≡ turned image.now step }
{
    match step.kind {
        StepKind::Cond { taken } => RunStep {
            kind: StepKind::Cond { taken: !taken },
            next: other_next(image, taken, step.addr),
            ..step
        },
        _ => step,
    }
}

/// Where a conditional branch goes, if it does not go the way that it went.
fn other_next(image: &Image, taken: bool, addr: u64) -> u64
    ensures { result ≡ other_next (class_at image.now addr) taken addr }
{
    match image.word_at(addr).map(|word| class_of(word)) {
        Some(Class::Cond { off }) if !taken => target(addr, off),
        _ => addr.wrapping_add(INSTRUCTION_BYTES),
    }
}

/// What an event does while tracing is off, or why it is refused.
fn plan_off(event: &Event) -> Result<Effect, RunFault>
    ensures { (image : List Part) (depth : ℕ) → result ≡ planned image depth None event.now }
{
    match *event {
        Event::On { addr, ctx } => {
            check_aligned(addr)?;
            Ok(Effect::Began { addr, ctx })
        }
        _ => Err(RunFault::NotOn),
    }
}

/// An address at which an instruction may stand is a multiple of 4.
fn check_aligned(addr: u64) -> Result<(), RunFault>
    ensures { refused_by result ≡ aligned_fault addr }
{
    if addr % INSTRUCTION_BYTES != 0 {
        return Err(RunFault::Unaligned(addr));
    }
    Ok(())
}

/// So is that to which an event says that a branch goes.
fn check_aim(event: &Event) -> Result<(), RunFault>
    ensures { refused_by result ≡ aim_fault event.now }
{
    match *event {
        Event::To { addr } | Event::Eret { addr, .. } => check_aligned(addr),
        _ => Ok(()),
    }
}

//! Where the core goes on, and which step an event executes there.
ghost use Rattle.std.specs.Prelude.{◌≡◌, List};
ghost use Rattle.std.specs.Option.{option_map};
ghost use Rattle.spec_run.specs.Checks.{executed, exception_at, step_at};
ghost use Rattle.spec_run.specs.Windows.{ctx_behind, place_of_standing};
ghost use Rattle.spec_run.specs.declared.step.RunStep.{RunStep};

use crate::event::Event;
use crate::step::{RunStep, StepKind};
use a64_branches::{Class, INSTRUCTION_BYTES, target};
use etm_types::Ctx;

/// Where the core goes on, while tracing is on.
#[derive(Clone, Copy, Debug)]
pub struct Standing {
    pub pc: u64,
    pub ctx: Ctx,
    /// Whether the newest retired step is an ISB.
    pub after_isb: bool,
}

impl Standing {
    /// A step from here.
    pub fn step(&self, kind: StepKind, next: u64, link: bool) -> RunStep
        ensures { (held : List RunStep) → result ≡ step_at (place_of_standing self.now held) kind next link }
    {
        RunStep {
            addr: self.pc,
            ctx: self.ctx,
            kind,
            next,
            link,
        }
    }

    /// The step that an event executes here, by the class of the instruction, and the context behind it. None where the
    /// instruction is of another kind than the event says.
    pub fn executed(&self, class: Class, event: &Event) -> Option<(RunStep, Ctx)>
        ensures { (held : List RunStep) → result ≡ executed (Some class) (place_of_standing self.now held) event.now }
    {
        let following = self.pc.wrapping_add(INSTRUCTION_BYTES);
        let (kind, next, link) = match (class, *event) {
            (Class::Plain, Event::Step) => (StepKind::Plain, following, false),
            (Class::Isb, Event::Step) => (StepKind::Isb, following, false),
            (Class::Jump { off, link }, Event::Taken) => (
                StepKind::Jump,
                target(self.pc, off),
                link,
            ),
            (Class::Cond { off }, Event::Taken) => (
                StepKind::Cond { taken: true },
                target(self.pc, off),
                false,
            ),
            (Class::Cond { .. }, Event::NotTaken) => (
                StepKind::Cond { taken: false },
                following,
                false,
            ),
            (Class::Ind { link }, Event::To { addr }) => (StepKind::Ind { link }, addr, link),
            (Class::Eret, Event::Eret { addr, .. }) => (StepKind::Eret, addr, false),
            _ => return None,
        };
        Some((self.step(kind, next, link), self.ctx_behind(event)))
    }

    /// The context behind an event that executes an instruction here: an ERET gives one.
    fn ctx_behind(&self, event: &Event) -> Ctx
        ensures { result ≡ ctx_behind self.now.ctx event.now }
    {
        match *event {
            Event::Eret { ctx, .. } => ctx,
            _ => self.ctx,
        }
    }
}

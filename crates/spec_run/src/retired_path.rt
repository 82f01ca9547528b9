//! The retired path, block by block, from the retired steps.
ghost use Rattle.std.specs.Prelude.{◌≡◌, ◌<◌, ◌≤◌, ◌+◌, ◌^◌, ◌++◌, ◌∷◌, [], List, true};
ghost use Rattle.spec_run.specs.ManySteps.{begun_behind_all, plain_step, plain_steps};
ghost use Rattle.spec_run.specs.RetiredItems.{stretch_items};
ghost use Rattle.spec_run.specs.Stands.{Follows, PathStandsAt, begun_behind, items_shown, shown_by};

use crate::step::{RunStep, StepKind};
use etm_types::{Ctx, ExcMark, Walked};
use std::marker::Model;

/// Takes the retired steps one after the other, and gives each block once its P0 step is there. Contracts say behind which
/// steps since tracing was turned on it stands.
#[derive(Drop, Debug)]
pub struct RetiredPath {
    /// Whether no block was given since tracing was turned on.
    first: bool,
    /// The plain steps since the last block: where they start, how many there are, and in which context.
    start: u64,
    plain: u64,
    ctx: Ctx,
}

impl Model for RetiredPath {
    ghost use Rattle.spec_run.specs.Stands.{OpenBlock};

    ghost Value = { OpenBlock };

    ghost view = { λ p. record { first = p.first; start = p.start; plain = p.plain; ctx = p.ctx } };
}

impl RetiredPath {
    /// A path to which no step was given.
    pub fn new() -> RetiredPath
        ensures stands { PathStandsAt result [] }
        ensures none { result.plain ≡ 0 }
    {
        RetiredPath {
            first: true,
            start: 0,
            plain: 0,
            ctx: Ctx::initial(),
        }
    }

    /// Tracing was turned on. What was begun is forgotten.
    pub fn begin(&mut self)
        ensures stands { PathStandsAt self.new [] }
        ensures none { self.new.plain ≡ 0 }
    {
        *self = RetiredPath::new();
    }

    /// Takes the next retired step, and gives the block that it ends, where it is a P0 step.
    pub fn retire(&mut self, step: &RunStep) -> Option<Walked>
        requires follows { Follows self.old step.now }
        requires few { self.old.plain < 2 ^ 62 }
        ensures stands { (steps : List RunStep) → PathStandsAt self.old steps → PathStandsAt self.new (steps ++ step.now ∷ []) }
        ensures shown { (steps : List RunStep) → PathStandsAt self.old steps
            → stretch_items (steps ++ step.now ∷ []) ≡ stretch_items steps ++ items_shown result }
        ensures value { result ≡ shown_by self.old step.now }
        ensures begun { self.new ≡ begun_behind self.old step.now }
    {
        let start = if self.plain == 0 {
            step.addr
        } else {
            self.start
        };
        if !step.kind.is_p0() {
            self.start = start;
            self.plain += 1;
            self.ctx = step.ctx;
            return None;
        }
        let (instruction, exc) = match step.kind {
            StepKind::Exc { kind } => (
                0,
                Some(ExcMark {
                    kind,
                    ret: step.addr,
                }),
            ),
            _ => (1, None),
        };
        let walked = Walked {
            on: self.first,
            unknown: false,
            ctx: step.ctx,
            start,
            count: self.plain + instruction,
            took: step.kind.took(),
            exc,
        };
        self.first = false;
        self.plain = 0;
        Some(walked)
    }

    /// Takes so many retired plain steps together, from an address on, as so many calls of `retire` do. They end no block.
    pub fn retire_plain(&mut self, addr: u64, n: u32, ctx: Ctx)
        requires follows { 0 < n → Follows self.old (plain_step addr ctx) }
        requires few { self.old.plain + n ≤ 2 ^ 62 }
        ensures stands { (steps : List RunStep) → PathStandsAt self.old steps
            → PathStandsAt self.new (steps ++ plain_steps addr ctx n) }
        ensures shown { (steps : List RunStep) → stretch_items (steps ++ plain_steps addr ctx n) ≡ stretch_items steps }
        ensures begun { self.new ≡ begun_behind_all self.old (plain_steps addr ctx n) }
    {
        if n == 0 {
            return;
        }
        if self.plain == 0 {
            self.start = addr;
        }
        self.plain += u64::from(n);
        self.ctx = ctx;
    }

    /// Tracing ended. What was begun is forgotten.
    pub fn close(&mut self)
        ensures { self.new ≡ record (self.old) { plain = 0 } }
    {
        self.plain = 0;
    }
}

//! The retired path of a stream, printed while its events run.
ghost use Rattle.std.specs.Prelude.{◌≡◌, ◌<◌, ◌≤◌, ◌^◌, ◌++◌, ◌∷◌, [], ℕ, List, IsOk, length, take};
ghost use Rattle.etm_types.specs.Settings.{Sizes};
ghost use Rattle.etm_types.specs.declared.context.Ctx.{Ctx};
ghost use Rattle.path_text.specs.PathLines.{lines_of, shown_after_all};
ghost use Rattle.path_text.specs.Writing.{Writes};
ghost use Rattle.program_image.specs.Part.{Part};
ghost use Rattle.spec_run.specs.Checks.{held_at};
ghost use Rattle.spec_run.specs.RetiredItems.{items_behind};
ghost use Rattle.spec_run.specs.Stands.{Follows, PathStandsAt};
ghost use Rattle.spec_run.specs.declared.step.RunStep.{RunStep};
ghost use Rattle.retired_paths.specs.Retiring.{AddsNothing, CanGoOn, CanRetire, CanShow, IsRetiring, PrintsRetired, StandsDone};
ghost use Rattle.retired_paths.specs.Retiring.{asked, events_with, items_done};

use etm_types::{Ctx, Id, Settings};
use path_text::{write_gap, write_stop, write_walked};
use program_image::Image;
use run_file::BenchLine;
use spec_run::{Done, Event, RetiredPath, Run, RunStep};
use trace_io::{Failed, Sink};

/// A run, and its retired path as far as it is printed.
#[derive(Drop)]
pub struct Retiring {
    pub run: Run,
    /// The maximum speculation depth. At 0 a step is retired as it is executed.
    depth: u32,
    path: RetiredPath,
    /// The context that was printed last.
    shown: Option<Ctx>,
}

impl Retiring {
    /// What prints the retired paths of streams, one after the other: `restart` begins each.
    pub fn new(run: Run) -> Retiring
        ensures { result.run ≡ run }
    {
        Retiring {
            run,
            depth: 0,
            path: RetiredPath::new(),
            shown: None,
        }
    }

    /// Forgets what was run and printed, and begins a stream of these settings.
    pub fn restart(&mut self, settings: &Settings)
        ensures { (image : List Part) → IsRetiring image settings.now self.new [] }
    {
        self.run.restart(settings);
        self.depth = settings.depth();
        self.path.begin();
        self.shown = None;
    }

    /// Runs the events of a line, which are accepted, and prints what they retire.
    pub fn print_line<K: Sink>(
        &mut self,
        image: &Image,
        id: Id,
        line: &BenchLine,
        out: &mut K,
    ) -> Result<(), Failed>
        requires { (s : Sizes) × (events : List Event)
            × CanGoOn image.now s self.old events (events_with events line.now.times line.now.event) }
        ensures { (s : Sizes) (events : List Event)
            → CanGoOn image.now s self.old events (events_with events line.now.times line.now.event)
            → PrintsRetired image.now s id self.old events self.new (events_with events line.now.times line.now.event)
            (K.state out.old) (K.state out.new) result }
    {
        let done = self.pass_plain(image, line);
        for _ in done..line.times {
            self.print_event(image, id, &line.event, out)?;
        }
        Ok(())
    }

    /// Runs the plain steps at the front of a line's events together, and says how many there are. They print nothing.
    fn pass_plain(&mut self, image: &Image, line: &BenchLine) -> u32
        requires { (s : Sizes) × (events : List Event)
            × CanGoOn image.now s self.old events (events_with events line.now.times line.now.event) }
        ensures nothing { (s : Sizes) (events : List Event)
            → CanGoOn image.now s self.old events (events_with events line.now.times line.now.event)
            → AddsNothing image.now s self.old events self.new (events_with events result line.now.event) }
        ensures few { result ≤ line.now.times }
    {
        match line.event {
            Event::Step => self.step_many(image, line.times),
            _ => 0,
        }
    }

    /// Runs so many events `Step`, which are accepted, as far as they can be taken together, and says how many.
    fn step_many(&mut self, image: &Image, n: u32) -> u32
        requires { (s : Sizes) × (events : List Event)
            × CanGoOn image.now s self.old events (events_with events n Event.Step) }
        ensures nothing { (s : Sizes) (events : List Event)
            → CanGoOn image.now s self.old events (events_with events n Event.Step)
            → AddsNothing image.now s self.old events self.new (events_with events result Event.Step) }
        ensures few { result ≤ n }
    {
        let (Some(pc), Some(ctx)) = (self.run.pc(), self.run.ctx()) else {
            return 0;
        };
        let count = self.run.step_many(image, n);
        if self.depth == 0 {
            self.path.retire_plain(pc, count, ctx);
        }
        count
    }

    /// Runs an event, which is accepted, and prints what it retires.
    fn print_event<K: Sink>(
        &mut self,
        image: &Image,
        id: Id,
        event: &Event,
        out: &mut K,
    ) -> Result<(), Failed>
        requires { (s : Sizes) × (events : List Event) × CanGoOn image.now s self.old events (events ++ event.now ∷ []) }
        ensures { (s : Sizes) (events : List Event) → CanGoOn image.now s self.old events (events ++ event.now ∷ [])
            → PrintsRetired image.now s id self.old events self.new (events ++ event.now ∷ [])
            (K.state out.old) (K.state out.new) result }
    {
        self.print_oldest(id, asked(event), out)?;
        let Ok(done) = self.run.apply(image, event) else {
            unreachable!()
        };
        self.print_done(id, &done, out)
    }

    /// Prints what an event retires by its answer. The steps of a retire are printed before.
    fn print_done<K: Sink>(&mut self, id: Id, done: &Done, out: &mut K) -> Result<(), Failed>
        requires { CanShow self.old.depth self.old.path done.now }
        ensures lines { (steps : List RunStep) → PathStandsAt self.old.path steps
            → Writes (K.state out.old) (K.state out.new) result
            (lines_of id self.old.shown (items_done self.old.depth steps done.now)) }
        ensures shown { (steps : List RunStep) → PathStandsAt self.old.path steps → IsOk result
            → self.new.shown ≡ shown_after_all self.old.shown (items_done self.old.depth steps done.now) }
        ensures path { (steps : List RunStep) → PathStandsAt self.old.path steps
            → StandsDone self.old.depth self.new.path steps done.now }
        ensures run { (self.new.run ≡ self.old.run) × (self.new.depth ≡ self.old.depth) }
    {
        match done {
            Done::Began => {
                self.path.begin();
                Ok(())
            }
            Done::Ran(step) if self.depth == 0 => self.print_step(id, step, out),
            Done::Overflowed => {
                self.path.close();
                write_gap(id, out)
            }
            Done::Stopped => {
                self.path.close();
                write_stop(id, out)
            }
            _ => Ok(()),
        }
    }

    /// Prints so many of the oldest steps that are not retired, as retired steps.
    fn print_oldest<K: Sink>(&mut self, id: Id, n: u32, out: &mut K) -> Result<(), Failed>
        requires { 0 < length (take n (held_at self.old.run.place)) → CanRetire self.old (take n (held_at self.old.run.place)) }
        ensures lines { (steps : List RunStep) → PathStandsAt self.old.path steps
            → Writes (K.state out.old) (K.state out.new) result
            (lines_of id self.old.shown (items_behind steps (take n (held_at self.old.run.place)))) }
        ensures shown { (steps : List RunStep) → PathStandsAt self.old.path steps → IsOk result
            → self.new.shown ≡ shown_after_all self.old.shown (items_behind steps (take n (held_at self.old.run.place))) }
        ensures path { (steps : List RunStep) → PathStandsAt self.old.path steps → IsOk result
            → PathStandsAt self.new.path (steps ++ take n (held_at self.old.run.place)) }
        ensures run { (self.new.run ≡ self.old.run) × (self.new.depth ≡ self.old.depth) }
    {
        for k in 0..n {
            if let Some(step) = self.run.step_at(k) {
                self.print_step(id, &step, out)?;
            }
        }
        Ok(())
    }

    /// Takes a retired step, and prints the block that it ends.
    fn print_step<K: Sink>(&mut self, id: Id, step: &RunStep, out: &mut K) -> Result<(), Failed>
        requires follows { Follows self.old.path step.now }
        requires few { self.old.path.plain < 2 ^ 62 }
        ensures lines { (steps : List RunStep) → PathStandsAt self.old.path steps
            → Writes (K.state out.old) (K.state out.new) result
            (lines_of id self.old.shown (items_behind steps (step.now ∷ []))) }
        ensures shown { (steps : List RunStep) → PathStandsAt self.old.path steps → IsOk result
            → self.new.shown ≡ shown_after_all self.old.shown (items_behind steps (step.now ∷ [])) }
        ensures path { (steps : List RunStep) → PathStandsAt self.old.path steps
            → PathStandsAt self.new.path (steps ++ step.now ∷ []) }
        ensures run { (self.new.run ≡ self.old.run) × (self.new.depth ≡ self.old.depth) }
    {
        match self.path.retire(step) {
            Some(walked) => write_walked(id, &walked, &mut self.shown, out),
            None => Ok(()),
        }
    }
}

/// How many of the oldest steps that are not retired an event retires.
fn asked(event: &Event) -> u32
    ensures { result ≡ asked event.now }
{
    match *event {
        Event::Retire(n) => n,
        _ => 0,
    }
}

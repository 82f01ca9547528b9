//! How often each word of an image, and each item that is no instruction, stands in paths.
ghost use Rattle.std.specs.Prelude.{◌≡◌, ◌+◌, ◌-◌, ◌∷◌, [], ◌^◌, ◌<◌, ◌≤◌, ◌↔◌, ℕ, false, length, slice_get, IfOk, IsTrue, List, Some, if◌then◌else◌};
ghost use Rattle.etm_types.specs.Walked.{exception, instructions, items_of};
ghost use Rattle.etm_types.specs.declared.context.Ctx.{Ctx};
ghost use Rattle.etm_types.specs.declared.item.Item.{Item};
ghost use Rattle.etm_types.specs.declared.item.Item.TheVariants.{Gap, On, Stop};
ghost use Rattle.program_image.specs.Places.{AreWords, word_addresses, word_count};
ghost use Rattle.path_text.specs.PathLines.{block_items};
ghost use Rattle.path_text.specs.Writing.{Writes};
ghost use Rattle.program_image.specs.Part.{IsImage, Part};
ghost use Rattle.path_counts.specs.Counts.{Counts, HasNumber, counts_of, mark_count};
ghost use Rattle.path_counts.specs.CountLines.{counts_text};
ghost use Rattle.path_counts.specs.Levels.{RaisesLast, RaisesRun, place_behind};

use crate::count_lines::write_counts;
use crate::levels::Levels;
use crate::numbers::Numbers;
use crate::targets::Targets;
use etm_types::{ExcMark, Walked};
use program_image::Image;
use std::alloc::{AllocError, Global};
use std::marker::Model;
use trace_io::{Failed, Sink};

/// How many items there are that are no instructions, each with a number: on, ?, gap, stop, and exceptions by their types.
const MARKS: usize = 260;

const ON: usize = 0;

const UNKNOWN: usize = 1;

const GAP: usize = 2;

const STOP: usize = 3;

const FIRST_EXCEPTION: usize = 4;

/// The counts so far. Contracts see it as its numbers.
#[derive(Drop)]
pub struct Counter {
    visits: Levels,
    taken: Numbers,
    marks: Numbers,
}

impl Model for Counter {
    ghost use Rattle.std.specs.Prelude.{◌≡◌, length};
    ghost use Rattle.path_counts.specs.Counts.{Counting, mark_count};
    ghost use Rattle.path_counts.specs.Levels.{levels_of};

    ghost Value = { Counting };

    ghost view = { λ c. record { visits = levels_of c.visits; taken = c.taken; marks = c.marks } };

    ghost invariant = { λ c. (length c.taken ≡ length c.visits) × (length c.marks ≡ mark_count) };
}

impl Counter {
    /// No item is counted. This is the one call that takes memory, two numbers of 64 bits a word of the image, and the error means
    /// want of it.
    pub fn new(alloc: Global, image: &Image) -> Result<Counter, AllocError>
        ensures none { IfOk result (λ c. c ≡ counts_of image.now []) }
        ensures length { IfOk result (λ c. length c.visits ≡ word_count image.now) }
    {
        let words = image.word_count();
        let visits = Levels::new(alloc, words)?;
        let taken = Numbers::new(alloc, words)?;
        let marks = Numbers::new(alloc, MARKS)?;
        Ok(Counter {
            visits,
            taken,
            marks,
        })
    }

    /// Whether it has a number for each word of an image.
    #[inline(always)]
    pub fn fits(&self, image: &Image) -> bool
        ensures value { IsTrue result ↔ (length self.now.visits ≡ word_count image.now) }
        ensures parts { IsImage image.now }
    {
        self.taken.len() == image.word_count()
    }

    /// Counts what the walk of one P0 element shows, of which the instructions are words of the image, where their addresses are known.
    /// It costs the same however many these are.
    #[inline(always)]
    pub fn add_walked(&mut self, image: &Image, walked: &Walked)
        requires { length self.old.visits ≡ word_count image.now }
        ensures counted { (walked.now.unknown ≡ false → AreWords image.now walked.now.start walked.now.count)
            → Counts image.now self.old self.new (items_of walked.now) }
        ensures length { length self.new.visits ≡ length self.old.visits }
    {
        self.add_on(walked.on);
        self.add_block(image, walked);
        self.add_exception(&walked.exc);
    }

    /// Counts the instructions of so many words from a place on, one word of the image after another, of which the last may be a
    /// conditional branch that was taken. Nothing is looked up.
    #[inline(always)]
    pub fn add_words(&mut self, place: usize, count: u64, took: bool)
        requires small { length self.old.visits < 2 ^ 62 }
        requires place { place < length self.old.visits }
        requires some { 0 < count }
        ensures counted { (image : List Part) (start : ℕ) → IsImage image → length self.old.visits ≡ word_count image
            → slice_get (word_addresses image) place ≡ Some start → AreWords image start count
            → (ctx : Ctx) → Counts image self.old self.new (instructions ctx start count took) }
        ensures length { length self.new.visits ≡ length self.old.visits }
    {
        if count < (self.taken.len() - place) as u64 {
            self.add_within(place, count as usize, took);
        } else {
            self.add_round(place, count, took);
        }
    }

    /// Counts trace that was lost by an overflow.
    pub fn add_gap(&mut self)
        ensures counted { (image : List Part) → Counts image self.old self.new (Gap ∷ []) }
        ensures length { length self.new.visits ≡ length self.old.visits }
    {
        self.add_mark(GAP);
    }

    /// Counts a stop of tracing.
    pub fn add_stop(&mut self)
        ensures counted { (image : List Part) → Counts image self.old self.new (Stop ∷ []) }
        ensures length { length self.new.visits ≡ length self.old.visits }
    {
        self.add_mark(STOP);
    }

    /// Writes the lines of the counts, with those of where branches went: one pass over the words of the image.
    pub fn write<K: Sink>(
        self,
        image: &Image,
        targets: &Targets,
        sink: &mut K,
    ) -> Result<(), Failed>
        requires { length self.visits ≡ word_count image.now }
        ensures { Writes (K.state sink.old) (K.state sink.new) result (counts_text image.now self targets.now) }
    {
        let Counter {
            visits,
            taken,
            marks,
        } = self;
        write_counts(image, &visits.totals(), &taken, targets, &marks, sink)
    }

    /// Counts trace on, where it is shown.
    #[inline(always)]
    fn add_on(&mut self, on: bool)
        ensures counted { (image : List Part) → Counts image self.old self.new (if on then On ∷ [] else []) }
        ensures length { length self.new.visits ≡ length self.old.visits }
    {
        if on {
            self.add_mark(ON);
        }
    }

    /// Counts what stands between trace on and the exception.
    #[inline(always)]
    fn add_block(&mut self, image: &Image, walked: &Walked)
        requires { length self.old.visits ≡ word_count image.now }
        ensures counted { (walked.now.unknown ≡ false → AreWords image.now walked.now.start walked.now.count)
            → Counts image.now self.old self.new (block_items walked.now) }
        ensures length { length self.new.visits ≡ length self.old.visits }
    {
        if walked.unknown {
            self.add_mark(UNKNOWN);
        } else {
            self.add_run(image, walked.start, walked.count, walked.took);
        }
    }

    /// Counts an exception, where there is one.
    #[inline(always)]
    fn add_exception(&mut self, exc: &Option<ExcMark>)
        ensures counted { (image : List Part) → Counts image self.old self.new (exception exc.now) }
        ensures length { length self.new.visits ≡ length self.old.visits }
    {
        match exc {
            Some(mark) => self.add_mark(FIRST_EXCEPTION + mark.kind as usize),
            None => (),
        }
    }

    /// Counts the item that is no instruction and has this number.
    #[inline(always)]
    fn add_mark(&mut self, number: usize)
        requires { number < mark_count }
        ensures counted { (image : List Part) (i : Item) → HasNumber number i → Counts image self.old self.new (i ∷ []) }
        ensures length { length self.new.visits ≡ length self.old.visits }
    {
        self.marks.raise(number);
    }

    /// Counts so many instructions from an address on, of which the last may be a conditional branch that was taken.
    #[inline(always)]
    fn add_run(&mut self, image: &Image, start: u64, count: u64, took: bool)
        requires { length self.old.visits ≡ word_count image.now }
        ensures counted { AreWords image.now start count → (ctx : Ctx) → Counts image.now self.old self.new (instructions ctx start count took) }
        ensures length { length self.new.visits ≡ length self.old.visits }
    {
        if count == 0 {
            return;
        }
        match image.place_at(start) {
            Some(place) => self.add_words(place, count, took),
            None => (),
        }
    }

    /// The same as [`add_words`](Counter::add_words), where the words may go past the last place, as few do.
    #[inline(never)]
    fn add_round(&mut self, place: usize, count: u64, took: bool)
        requires small { length self.old.visits < 2 ^ 62 }
        requires place { place < length self.old.visits }
        requires some { 0 < count }
        ensures counted { (image : List Part) (start : ℕ) → IsImage image → length self.old.visits ≡ word_count image
            → slice_get (word_addresses image) place ≡ Some start → AreWords image start count
            → (ctx : Ctx) → Counts image self.old self.new (instructions ctx start count took) }
        ensures length { length self.new.visits ≡ length self.old.visits }
    {
        if count <= self.taken.len() as u64 {
            self.add_places(place, count as usize, took);
        }
    }

    /// Counts the instructions at so many places from one on, which end before the last place.
    #[inline(always)]
    fn add_within(&mut self, place: usize, count: usize, took: bool)
        requires small { length self.old.visits < 2 ^ 62 }
        requires some { 0 < count }
        requires within { place + count < length self.old.visits }
        ensures visits { RaisesRun self.old.visits self.new.visits place count }
        ensures taken { RaisesLast self.old.taken self.new.taken took (place_behind (length self.old.visits) place (count - 1)) }
        ensures marks { self.new.marks ≡ self.old.marks }
        ensures length { (length self.new.visits ≡ length self.old.visits) × (length self.new.taken ≡ length self.old.taken) }
    {
        self.visits.raise_within(place, count);
        self.taken.raise_if(took, place + count - 1);
    }

    /// Counts the instructions at so many places from one on, round the ring.
    #[inline(always)]
    fn add_places(&mut self, place: usize, count: usize, took: bool)
        requires small { length self.old.visits < 2 ^ 62 }
        requires place { place < length self.old.visits }
        requires some { 0 < count }
        requires few { count ≤ length self.old.visits }
        ensures visits { RaisesRun self.old.visits self.new.visits place count }
        ensures taken { RaisesLast self.old.taken self.new.taken took (place_behind (length self.old.visits) place (count - 1)) }
        ensures marks { self.new.marks ≡ self.old.marks }
        ensures length { (length self.new.visits ≡ length self.old.visits) × (length self.new.taken ≡ length self.old.taken) }
    {
        self.visits.raise(place, count);
        let last = last_place(place, count - 1, self.taken.len());
        self.taken.raise_if(took, last);
    }
}

/// The place that is so many behind a place, round a ring.
#[inline(always)]
fn last_place(place: usize, more: usize, ring: usize) -> usize
    requires small { ring < 2 ^ 62 }
    requires place { place < ring }
    requires few { more < ring }
    ensures within { result < ring }
    ensures place { result ≡ place_behind ring place more }
{
    let last = place + more;
    if last < ring { last } else { last - ring }
}

//! Marks in a row, kept as runs of equal ones.
//!
//! Nearly always many marks in a row are equal: each P0 element between two timestamps has the same. So what is held is how many of each
//! there are, and a push or a pop is a step of one count, whatever the size of a mark. A cancel goes run by run.
ghost use Rattle.std.specs.Prelude.{◌≡◌, ◌-◌, ◌<◌, ◌≤◌, ◌++◌, ◌∷◌, [], ◌↔◌, length, drop, take, IfOk, IsSome, option_to_list};
ghost use Rattle.spend_ring.specs.Ring.{newest, ring};
ghost use Rattle.time_marks.specs.Runs.{AreRuns, marks_of, run_mark};

use crate::time_line::Stamp;
use spend_ring::SpendRing;
use std::alloc::{AllocError, Global};
use std::marker::Model;

/// So many equal marks in a row. A mark is kept as its two parts, so that a run takes the 16 bytes that a mark alone takes.
#[derive(Clone, Copy, Debug, PartialEq, Eq)]
pub struct EqualMarks {
    /// The timestamp, where it is known.
    pub stamp: u64,
    pub known: bool,
    pub count: u32,
}

impl EqualMarks {
    /// A run of this mark that counts none.
    #[inline(always)]
    fn begin(mark: Stamp) -> EqualMarks
        ensures mark { run_mark result ≡ mark }
        ensures none { result.count ≡ 0 }
    {
        EqualMarks {
            stamp: mark.unwrap_or(0),
            known: mark.is_some(),
            count: 0,
        }
    }

    /// The mark that it counts.
    #[inline(always)]
    fn mark(&self) -> Stamp
        ensures { result ≡ run_mark self.now }
    {
        if self.known { Some(self.stamp) } else { None }
    }
}

/// At most `capacity` marks, oldest first. It has no drop: `close` ends it, once it is empty.
///
/// The runs at both ends stand apart from the ring, so that it moves only where a run begins or ends. They alone may count no mark.
#[must_use]
pub struct Marks {
    oldest: EqualMarks,
    between: SpendRing<EqualMarks>,
    newest: EqualMarks,
    /// The number of marks.
    len: u32,
    capacity: u32,
}

impl Model for Marks {
    ghost use Rattle.std.specs.Prelude.{◌≡◌, ◌≤◌, ◌<◌, ◌^◌, ◌++◌, ◌∷◌, [], length};
    ghost use Rattle.spend_ring.specs.Ring.{Ring, ring};
    ghost use Rattle.time_marks.specs.Runs.{AreRuns, marks_of};
    ghost use Rattle.time_marks.specs.Stamps.{Stamp};

    ghost Value = { Ring Stamp };

    ghost view = { λ m. ring (marks_of (m.oldest ∷ m.between.items ++ m.newest ∷ [])) m.capacity };

    ghost invariant = { λ m. (m.len ≡ length (marks_of (m.oldest ∷ m.between.items ++ m.newest ∷ []))) × (m.len ≤ m.capacity)
        × (m.between.capacity ≡ m.capacity) × (m.capacity < 2 ^ 32) × AreRuns m.between.items };
}

impl Marks {
    /// Without a mark. This is the one call that takes memory, and the error means want of it.
    pub fn with_capacity(alloc: Global, capacity: u32) -> Result<Marks, AllocError>
        ensures empty { IfOk result (λ m. m.items ≡ []) }
        ensures capacity { IfOk result (λ m. m.capacity ≡ capacity) }
    {
        Ok(Marks {
            oldest: EqualMarks::begin(None),
            between: SpendRing::with_capacity(alloc, capacity as usize)?,
            newest: EqualMarks::begin(None),
            len: 0,
            capacity,
        })
    }

    /// The number of marks.
    pub fn len(&self) -> u32
        ensures len { result ≡ length self.now.items }
        ensures bounded { result ≤ self.now.capacity }
    {
        self.len
    }

    /// Appends a mark. Where as many are held as may be, the oldest is handed out, and with a capacity of 0 the mark itself.
    #[inline(always)]
    pub fn push_back(&mut self, mark: Stamp) -> Option<Stamp>
        ensures order { option_to_list result ++ self.new.items ≡ self.old.items ++ mark ∷ [] }
        ensures full { IsSome result ↔ (length self.old.items ≡ self.old.capacity) }
        ensures newest { self.new.items ≡ newest self.old.capacity (self.old.items ++ mark ∷ []) }
        ensures bounded { length self.new.items ≤ self.new.capacity }
        ensures capacity { self.new.capacity ≡ self.old.capacity }
    {
        if self.len < self.capacity {
            self.append(mark);
            return None;
        }
        self.push_full(mark)
    }

    /// Appends a mark where as many are held as may be.
    #[inline(never)]
    fn push_full(&mut self, mark: Stamp) -> Option<Stamp>
        requires full { length self.old.items ≡ self.old.capacity }
        ensures some { IsSome result }
        ensures order { option_to_list result ++ self.new.items ≡ self.old.items ++ mark ∷ [] }
        ensures capacity { self.new.capacity ≡ self.old.capacity }
    {
        match self.pop_front() {
            Some(oldest) => {
                self.append(mark);
                Some(oldest)
            }
            // Where none is held, none may be.
            None => Some(mark),
        }
    }

    #[inline(always)]
    fn append(&mut self, mark: Stamp)
        requires room { length self.old.items < self.old.capacity }
        ensures { self.new ≡ ring (self.old.items ++ mark ∷ []) self.old.capacity }
    {
        if self.newest.mark() != mark {
            begin_run(&mut self.between, &mut self.newest, mark);
        }
        self.newest.count += 1;
        self.len += 1;
    }

    /// Takes the oldest mark out.
    #[inline(always)]
    pub fn pop_front(&mut self) -> Option<Stamp>
        ensures order { self.old.items ≡ option_to_list result ++ self.new.items }
        ensures empty { IsSome result ↔ (0 < length self.old.items) }
        ensures rest { self.new.items ≡ drop 1 self.old.items }
        ensures bounded { length self.new.items ≤ self.new.capacity }
        ensures capacity { self.new.capacity ≡ self.old.capacity }
    {
        if self.len == 0 {
            return None;
        }
        if self.oldest.count == 0 {
            self.oldest = take_oldest(&mut self.between, &mut self.newest);
        }
        self.oldest.count -= 1;
        self.len -= 1;
        Some(self.oldest.mark())
    }

    /// Takes the `n` newest marks out, or all.
    pub fn drop_newest(&mut self, n: u32)
        ensures items { self.new.items ≡ take (length self.old.items - n) self.old.items }
        ensures capacity { self.new.capacity ≡ self.old.capacity }
    {
        let mut left = self.len.min(n);
        while left > 0 {
            left -= self.shorten_newest(left);
        }
    }

    /// Takes some of the newest marks out, at most `most`, all of one run. The answer is how many.
    fn shorten_newest(&mut self, most: u32) -> u32
        requires some { 0 < most }
        requires held { most ≤ length self.old.items }
        ensures some { 0 < result }
        ensures most { result ≤ most }
        ensures items { self.new.items ≡ take (length self.old.items - result) self.old.items }
        ensures capacity { self.new.capacity ≡ self.old.capacity }
    {
        if self.newest.count == 0 {
            self.newest = take_newest(&mut self.between, &mut self.oldest);
        }
        let out = self.newest.count.min(most);
        self.newest.count -= out;
        self.len -= out;
        out
    }

    /// Takes all marks out.
    pub fn clear(&mut self)
        ensures items { self.new.items ≡ [] }
        ensures capacity { self.new.capacity ≡ self.old.capacity }
    {
        self.drop_newest(self.len);
    }

    /// Ends it, where it is empty, and gives its memory back.
    pub fn close(self)
        requires empty { self.items ≡ [] }
    {
        let Marks {
            oldest: _,
            between,
            newest: _,
            len: _,
            capacity: _,
        } = self;
        between.close();
    }
}

/// Begins a run of this mark, and puts the one that was the newest behind the others, where it counts a mark.
#[inline(never)]
fn begin_run(runs: &mut SpendRing<EqualMarks>, newest: &mut EqualMarks, mark: Stamp)
    requires room { 0 < newest.old.count → length runs.old.items < runs.old.capacity }
    requires runs { AreRuns runs.old.items }
    ensures mark { run_mark newest.new ≡ mark }
    ensures none { newest.new.count ≡ 0 }
    ensures marks { marks_of runs.new.items ≡ marks_of (runs.old.items ++ newest.old ∷ []) }
    ensures runs { AreRuns runs.new.items }
    ensures capacity { runs.new.capacity ≡ runs.old.capacity }
{
    if newest.count > 0 {
        runs.push_back(*newest);
    }
    *newest = EqualMarks::begin(mark);
}

/// Takes out the oldest of the runs, or where there is none the newest, which then counts no mark.
#[inline(never)]
fn take_oldest(runs: &mut SpendRing<EqualMarks>, newest: &mut EqualMarks) -> EqualMarks
    requires runs { AreRuns runs.old.items }
    requires some { 0 < length (marks_of (runs.old.items ++ newest.old ∷ [])) }
    ensures some { 0 < result.count }
    ensures marks { marks_of (result ∷ runs.new.items ++ newest.new ∷ []) ≡ marks_of (runs.old.items ++ newest.old ∷ []) }
    ensures runs { AreRuns runs.new.items }
    ensures capacity { runs.new.capacity ≡ runs.old.capacity }
{
    match runs.pop_front() {
        Some(run) => run,
        None => empty(newest),
    }
}

/// Takes out the newest of the runs, or where there is none the oldest, which then counts no mark.
#[inline(never)]
fn take_newest(runs: &mut SpendRing<EqualMarks>, oldest: &mut EqualMarks) -> EqualMarks
    requires runs { AreRuns runs.old.items }
    requires some { 0 < length (marks_of (oldest.old ∷ runs.old.items)) }
    ensures some { 0 < result.count }
    ensures marks { marks_of (oldest.new ∷ runs.new.items ++ result ∷ []) ≡ marks_of (oldest.old ∷ runs.old.items) }
    ensures runs { AreRuns runs.new.items }
    ensures capacity { runs.new.capacity ≡ runs.old.capacity }
{
    match runs.pop_back() {
        Some(run) => run,
        None => empty(oldest),
    }
}

/// Takes all marks out of a run, and answers what it was.
fn empty(run: &mut EqualMarks) -> EqualMarks
    ensures was { result ≡ run.old }
    ensures now { run.new ≡ record (run.old) { count = 0 } }
{
    let was = *run;
    run.count = 0;
    was
}

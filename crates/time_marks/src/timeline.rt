//! The P0 elements of a stream: those that are held, with their marks, and the lines of those that are committed.
ghost use Rattle.std.specs.Prelude.{◌≡◌, ◌++◌, ◌∷◌, ◌≤◌, [], ℕ, List, None, IfOk, IsOk, true, false, All, option_to_list};
ghost use Rattle.std.specs.List.{concat};
ghost use Rattle.etm_types.specs.declared.element.Elem.TheVariants as elem;
ghost use Rattle.etm_types.specs.Atoms.{atoms_in, most_atoms};
ghost use Rattle.path_elements.specs.Elements.{atoms};
ghost use Rattle.path_text.specs.Writing.{Writes};
ghost use Rattle.time_marks.specs.Marked.{IsInfo, IsMarked, MayCome, less, nothing_marked, out_first};
ghost use Rattle.time_marks.specs.Stamps.{Stamp};
ghost use Rattle.time_marks.specs.Timed.{IsAt, Prints};
ghost use Rattle.time_marks.specs.TimeLines.{mark_line, mark_lines, shown_of, time_lines};
ghost use Rattle.time_marks.specs.Times.{Times, after_element, after_elements};
ghost use Rattle.trace_io.specs.Calls.{Serves};

use crate::marked::MarkedQueue;
use crate::shown::Shown;
use crate::time_line::{Stamp, write_time_line};
use etm_types::{AtomRun, Elem, Id, P0};
use packet_grammar::Fault;
use path_elements::Elems;
use std::alloc::{AllocError, Global};
use trace_io::{Failed, Sink};

/// The P0 elements of a stream. It has no drop, since the queue has none.
#[must_use]
pub struct Timeline {
    pub queue: MarkedQueue,
    pub shown: Shown,
    /// The first fault, with the offset of its packet.
    pub fault: Option<(u64, Fault)>,
}

/// Where the elements of a packet stand, and under which ID their lines are printed.
#[derive(Clone, Copy, Debug, PartialEq, Eq)]
pub struct PacketOrigin {
    pub id: Id,
    /// The offset of the packet.
    pub at: u64,
    /// The timestamp behind it.
    pub stamp: Stamp,
}

impl Timeline {
    /// Without an element. This is the one call that takes memory, and the error means want of it.
    pub fn new(alloc: Global, depth: u32) -> Result<Timeline, AllocError>
        ensures none { IfOk result (λ l. (l.queue ≡ nothing_marked depth) × (l.shown ≡ shown_of []) × (l.fault ≡ None)) }
        ensures holds { IfOk result (λ l. IsMarked l.queue) }
    {
        Ok(Timeline {
            queue: MarkedQueue::new(alloc, depth)?,
            shown: Shown::nothing(),
            fault: None,
        })
    }

    /// Takes the elements of a packet, up to the first that has a fault, and writes the lines of those that are committed.
    pub fn take_elements<K: Sink>(
        &mut self,
        place: &PacketOrigin,
        elems: &Elems,
        sink: &mut K,
    ) -> Result<(), Failed>
        requires whole { self.old.fault ≡ None }
        requires comes { self.old.queue.pending.informed ≡ false → All IsInfo elems.now }
        ensures prints { (t : Times) → IsAt self.old t → t.stamp ≡ place.now.stamp
            → Prints place.now.id t (after_elements self.old.queue.depth place.now.at t elems.now) (K.state sink.old) (K.state sink.new) result
            × (IsOk result → IsAt self.new (after_elements self.old.queue.depth place.now.at t elems.now)) }
        ensures nothing { elems.now ≡ [] → self.new.queue ≡ self.old.queue }
        ensures stays { self.old.queue.pending.informed ≡ true → self.new.queue.pending.informed ≡ true }
        ensures informs { (spec : ℕ) → elems.now ≡ elem.Info spec ∷ [] → IsOk result → self.new.fault ≡ None → self.new.queue.pending.informed ≡ true }
        ensures depth { self.new.queue.depth ≡ self.old.queue.depth }
        ensures holds { IsMarked self.old.queue → IsMarked self.new.queue }
        ensures serves { Serves (K.state sink.old) (K.state sink.new) result }
    {
        for next in 0..elems.len() {
            let Some(elem) = elems.get(next) else {
                break;
            };
            if self.fault.is_some() {
                break;
            }
            self.take_element(place, &elem, sink)?;
        }
        Ok(())
    }

    /// Takes the atoms of a packet, and writes the lines of those that are committed. They have no fault.
    #[inline(always)]
    pub fn take_atoms<K: Sink>(
        &mut self,
        place: &PacketOrigin,
        run: &AtomRun,
        sink: &mut K,
    ) -> Result<(), Failed>
        requires whole { self.old.fault ≡ None }
        requires informed { self.old.queue.pending.informed ≡ true }
        requires few { run.now.count ≤ most_atoms }
        ensures prints { (t : Times) → IsAt self.old t → t.stamp ≡ place.now.stamp
            → Prints place.now.id t (after_elements self.old.queue.depth place.now.at t (atoms (atoms_in run.now))) (K.state sink.old) (K.state sink.new) result
            × (IsOk result → IsAt self.new (after_elements self.old.queue.depth place.now.at t (atoms (atoms_in run.now)))) }
        ensures fault { self.new.fault ≡ None }
        ensures stays { self.new.queue.pending.informed ≡ true }
        ensures depth { self.new.queue.depth ≡ self.old.queue.depth }
        ensures holds { IsMarked self.old.queue → IsMarked self.new.queue }
        ensures serves { Serves (K.state sink.old) (K.state sink.new) result }
    {
        for next in 0..u32::from(run.count) {
            let taken = (run.bits >> next) % 2 == 1;
            self.push(place, P0::Atom(taken), sink)?;
        }
        Ok(())
    }

    /// Takes one element.
    fn take_element<K: Sink>(
        &mut self,
        place: &PacketOrigin,
        elem: &Elem,
        sink: &mut K,
    ) -> Result<(), Failed>
        requires whole { self.old.fault ≡ None }
        requires comes { MayCome self.old.queue elem.now }
        ensures prints { (t : Times) → IsAt self.old t → t.stamp ≡ place.now.stamp
            → Prints place.now.id t (after_element self.old.queue.depth place.now.at t elem.now) (K.state sink.old) (K.state sink.new) result
            × (IsOk result → IsAt self.new (after_element self.old.queue.depth place.now.at t elem.now)) }
        ensures stays { self.old.queue.pending.informed ≡ true → self.new.queue.pending.informed ≡ true }
        ensures informs { IsInfo elem.now → self.new.fault ≡ None → self.new.queue.pending.informed ≡ true }
        ensures depth { self.new.queue.depth ≡ self.old.queue.depth }
        ensures holds { IsMarked self.new.queue }
        ensures serves { Serves (K.state sink.old) (K.state sink.new) result }
    {
        match *elem {
            Elem::P0(p0) => self.push(place, p0, sink),
            Elem::Commit(n) => self.commit(place, n, sink),
            _ => {
                if let Err(fault) = self.queue.take(elem) {
                    self.fault = Some((place.at, Fault::Queue(fault)));
                }
                Ok(())
            }
        }
    }

    /// Takes a P0 element.
    #[inline(always)]
    fn push<K: Sink>(&mut self, place: &PacketOrigin, p0: P0, sink: &mut K) -> Result<(), Failed>
        requires whole { self.old.fault ≡ None }
        requires informed { self.old.queue.pending.informed ≡ true }
        ensures prints { (t : Times) → IsAt self.old t → t.stamp ≡ place.now.stamp
            → Prints place.now.id t (after_element self.old.queue.depth place.now.at t (elem.P0 p0)) (K.state sink.old) (K.state sink.new) result
            × (IsOk result → IsAt self.new (after_element self.old.queue.depth place.now.at t (elem.P0 p0))) }
        ensures fault { self.new.fault ≡ self.old.fault }
        ensures stays { self.new.queue.pending.informed ≡ true }
        ensures depth { self.new.queue.depth ≡ self.old.queue.depth }
        ensures holds { IsMarked self.new.queue }
        ensures serves { Serves (K.state sink.old) (K.state sink.new) result }
    {
        match self.queue.push(p0, place.stamp) {
            Some(mark) => show(&mut self.shown, place.id, mark, sink),
            None => Ok(()),
        }
    }

    /// Takes a commit of the `n` oldest.
    pub fn commit<K: Sink>(
        &mut self,
        place: &PacketOrigin,
        n: u32,
        sink: &mut K,
    ) -> Result<(), Failed>
        requires whole { self.old.fault ≡ None }
        ensures prints { (t : Times) → IsAt self.old t
            → Prints place.now.id t (after_element self.old.queue.depth place.now.at t (elem.Commit n)) (K.state sink.old) (K.state sink.new) result
            × (IsOk result → IsAt self.new (after_element self.old.queue.depth place.now.at t (elem.Commit n))) }
        ensures stays { self.new.queue.pending.informed ≡ self.old.queue.pending.informed }
        ensures depth { self.new.queue.depth ≡ self.old.queue.depth }
        ensures holds { IsMarked self.new.queue }
        ensures serves { Serves (K.state sink.old) (K.state sink.new) result }
    {
        if let Err(fault) = self.queue.check_commit(n) {
            self.fault = Some((place.at, Fault::Queue(fault)));
            return Ok(());
        }
        commit_oldest(&mut self.queue, &mut self.shown, place.id, n, sink)
    }
}

/// Commits the `n` oldest, one after the other.
fn commit_oldest<K: Sink>(
    queue: &mut MarkedQueue,
    shown: &mut Shown,
    id: Id,
    n: u32,
    sink: &mut K,
) -> Result<(), Failed>
    requires { IsMarked queue.old }
    ensures prints { (done : List Stamp) → shown.old ≡ shown_of done
        → Writes (K.state sink.old) (K.state sink.new) result (concat (time_lines id (mark_lines done (out_first queue.old n)))) }
    ensures rest { IsOk result → queue.new ≡ less queue.old n }
    ensures shown { IsOk result → (done : List Stamp) → shown.old ≡ shown_of done → shown.new ≡ shown_of (done ++ out_first queue.old n) }
    ensures informed { queue.new.pending.informed ≡ queue.old.pending.informed }
    ensures depth { queue.new.depth ≡ queue.old.depth }
    ensures holds { IsMarked queue.new }
    ensures serves { Serves (K.state sink.old) (K.state sink.new) result }
{
    for _ in 0..n {
        commit_one(queue, shown, id, sink)?;
    }
    Ok(())
}

/// Commits the oldest.
fn commit_one<K: Sink>(
    queue: &mut MarkedQueue,
    shown: &mut Shown,
    id: Id,
    sink: &mut K,
) -> Result<(), Failed>
    ensures writes { (done : List Stamp) → shown.old ≡ shown_of done
        → Writes (K.state sink.old) (K.state sink.new) result (concat (time_lines id (mark_lines done (out_first queue.old 1)))) }
    ensures rest { queue.new ≡ less queue.old 1 }
    ensures shown { (done : List Stamp) → shown.old ≡ shown_of done → shown.new ≡ shown_of (done ++ out_first queue.old 1) }
    ensures holds { IsMarked queue.new }
    ensures serves { Serves (K.state sink.old) (K.state sink.new) result }
{
    match queue.commit_one() {
        Some(mark) => show(shown, id, mark, sink),
        None => Ok(()),
    }
}

/// A P0 element with this mark is committed. Writes its line, where it has one.
#[inline(always)]
fn show<K: Sink>(shown: &mut Shown, id: Id, mark: Stamp, sink: &mut K) -> Result<(), Failed>
    ensures writes { Writes (K.state sink.old) (K.state sink.new) result (concat (time_lines id (option_to_list (mark_line shown.old mark)))) }
    ensures next { (done : List Stamp) → shown.old ≡ shown_of done → shown.new ≡ shown_of (done ++ mark ∷ []) }
{
    match shown.next(mark) {
        Some(line) => write_time_line(id, &line, sink),
        None => Ok(()),
    }
}

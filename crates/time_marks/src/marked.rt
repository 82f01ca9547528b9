//! The P0 elements that are not committed, with their marks.
ghost use Rattle.std.specs.Prelude.{◌≡◌, ◌≤◌, ◌++◌, ◌∷◌, [], true, length, IfOk, IsOk, IsErr, Err, option_to_list};
ghost use Rattle.element_queue.specs.Counting.{Balances, counts_after};
ghost use Rattle.element_queue.specs.Pending.{losing, taken};
ghost use Rattle.etm_types.specs.declared.element.Elem.TheVariants as elem;
ghost use Rattle.etm_types.specs.declared.queue_fault.QueueFault.{QueueFault};
ghost use Rattle.time_marks.specs.Marked.{IsMarked, IsQuiet, MayCome, Moves, less, nothing_marked, out_first};
ghost use Rattle.time_marks.specs.Stamps.{Stamp};

use crate::marks::Marks;
use crate::time_line::Stamp;
use element_queue::{Committed, Counts, Ledger, PreElem, Queue};
use etm_types::{Elem, P0, QueueFault};
use std::alloc::{AllocError, Global};
use std::marker::Model;

/// The P0 elements that are not committed, and the mark of each that was seen. It has no drop: `close` ends it.
///
/// Those that were not seen are older than all others, so the newest marks are those of the newest elements.
#[must_use]
pub struct MarkedQueue {
    queue: Queue,
    marks: Marks,
    /// Whether a trace info was taken.
    informed: bool,
}

impl Model for MarkedQueue {
    ghost use Rattle.std.specs.Prelude.{◌≡◌};
    ghost use Rattle.element_queue.specs.Queued.{IsQueued};
    ghost use Rattle.time_marks.specs.Marked.{IsMarked, Marked, marked_of};

    ghost Value = { Marked };

    ghost view = { λ m. marked_of m.queue m.marks.items m.informed };

    ghost invariant = { λ m. (m.marks.capacity ≡ m.queue.depth) × IsQueued m.queue × IsMarked (marked_of m.queue m.marks.items m.informed) };
}

impl MarkedQueue {
    /// None is held. This is the one call that takes memory, and the error means want of it.
    pub fn new(alloc: Global, depth: u32) -> Result<MarkedQueue, AllocError>
        ensures none { IfOk result (λ m. m ≡ nothing_marked depth) }
        ensures holds { IfOk result IsMarked }
    {
        let queue = Queue::new(alloc, depth)?;
        match Marks::with_capacity(alloc, depth) {
            Ok(marks) => Ok(MarkedQueue {
                queue,
                marks,
                informed: false,
            }),
            Err(error) => {
                queue.close();
                Err(error)
            }
        }
    }

    /// Whether a trace info was taken.
    pub fn informed(&self) -> bool
        ensures { result ≡ self.now.pending.informed }
    {
        self.informed
    }

    /// One more P0 element, with its mark. Where it commits one that was seen, the mark of that one is given.
    pub fn push(&mut self, p0: P0, mark: Stamp) -> Option<Stamp>
        requires { self.old.pending.informed ≡ true }
        ensures moves { Moves self.old mark (elem.P0 p0) (option_to_list result) self.new }
        ensures holds { IsMarked self.new }
    {
        self.queue.push(p0);
        self.marks.push_back(mark)
    }

    /// Whether so many are held that can be committed.
    pub fn check_commit(&self, n: u32) -> Result<(), QueueFault>
        ensures ok { IsOk result → n ≤ length self.now.pending.held }
        ensures fault { (fault : QueueFault) → result ≡ Err fault → taken self.now.depth self.now.pending (elem.Commit n) ≡ Err fault }
        ensures holds { IsMarked self.now }
    {
        self.queue.check_commit(n)
    }

    /// Commits the oldest, and gives its mark where it was seen.
    pub fn commit_one(&mut self) -> Option<Stamp>
        ensures out { option_to_list result ≡ out_first self.old 1 }
        ensures rest { self.new ≡ less self.old 1 }
        ensures holds { IsMarked self.new }
    {
        match self.queue.commit_one() {
            Some(Committed::Seen(_)) => self.marks.pop_front(),
            Some(Committed::Unseen) | None => None,
        }
    }

    /// Takes an element that commits no P0 element.
    pub fn take(&mut self, elem: &Elem) -> Result<(), QueueFault>
        requires comes { MayCome self.old elem.now }
        requires quiet { IsQuiet elem.now }
        ensures ok { IsOk result → (stamp : Stamp) → Moves self.old stamp elem.now [] self.new }
        ensures fault { (fault : QueueFault) → result ≡ Err fault → taken self.old.depth self.old.pending elem.now ≡ Err fault }
        ensures unchanged { IsErr result → self.new ≡ self.old }
        ensures holds { IsMarked self.new }
    {
        match *elem {
            Elem::Info { spec } => return self.inform(spec),
            Elem::On => self.queue.note(PreElem::On),
            Elem::Ctx(ctx) => self.queue.note(PreElem::Ctx(ctx)),
            Elem::Addr(addr) => self.queue.note(PreElem::Addr(addr)),
            Elem::Cancel(n) => return self.cancel(n),
            Elem::Flip => return self.flip(),
            Elem::Overflow | Elem::Discard => self.discard(),
            Elem::P0(_) | Elem::Commit(_) => unreachable!(),
        }
        Ok(())
    }

    /// A trace info. The first one announces P0 elements from before it that are not committed.
    fn inform(&mut self, spec: u32) -> Result<(), QueueFault>
        ensures ok { IsOk result → (stamp : Stamp) → Moves self.old stamp (elem.Info spec) [] self.new }
        ensures fault { (fault : QueueFault) → result ≡ Err fault → taken self.old.depth self.old.pending (elem.Info spec) ≡ Err fault }
        ensures unchanged { IsErr result → self.new ≡ self.old }
        ensures holds { IsMarked self.new }
    {
        if self.informed {
            self.queue.note(PreElem::Info);
            return Ok(());
        }
        self.queue.start(spec)?;
        self.informed = true;
        Ok(())
    }

    /// Takes the `n` newest back, with their marks.
    fn cancel(&mut self, n: u32) -> Result<(), QueueFault>
        ensures ok { IsOk result → (stamp : Stamp) → Moves self.old stamp (elem.Cancel n) [] self.new }
        ensures fault { (fault : QueueFault) → result ≡ Err fault → taken self.old.depth self.old.pending (elem.Cancel n) ≡ Err fault }
        ensures unchanged { IsErr result → self.new ≡ self.old }
        ensures holds { IsMarked self.new }
    {
        self.queue.cancel(n)?;
        self.marks.drop_newest(n);
        Ok(())
    }

    /// A mispredict: the newest is the other atom, with the same mark.
    fn flip(&mut self) -> Result<(), QueueFault>
        ensures ok { IsOk result → (stamp : Stamp) → Moves self.old stamp elem.Flip [] self.new }
        ensures fault { (fault : QueueFault) → result ≡ Err fault → taken self.old.depth self.old.pending elem.Flip ≡ Err fault }
        ensures unchanged { IsErr result → self.new ≡ self.old }
        ensures holds { IsMarked self.new }
    {
        self.queue.flip()
    }

    /// Trace is missing: all that is held is lost, with its marks.
    fn discard(&mut self)
        ensures overflow { (stamp : Stamp) → Moves self.old stamp elem.Overflow [] self.new }
        ensures discard { (stamp : Stamp) → Moves self.old stamp elem.Discard [] self.new }
        ensures holds { IsMarked self.new }
    {
        self.queue.discard();
        self.marks.clear();
    }

    /// What became of the P0 elements.
    pub fn ledger(&self) -> Counts
        ensures value { result ≡ self.now.counts }
        ensures holds { IsMarked self.now }
    {
        self.queue.ledger()
    }

    /// Ends it. What is held is lost.
    pub fn close(self) -> Ledger
        ensures value { result ≡ counts_after self.counts 0 (losing self.pending.held) }
        ensures balanced { Balances result 0 }
    {
        let MarkedQueue {
            queue,
            mut marks,
            informed: _,
        } = self;
        marks.clear();
        marks.close();
        queue.close()
    }
}

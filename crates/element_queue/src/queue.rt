//! The queue of P0 elements that are not committed.
ghost use Rattle.std.specs.Prelude.{◌≡◌, ◌≤◌, ◌<◌, ◌+◌, ◌-◌, ◌↔◌, [], length, take, drop, Err};
ghost use Rattle.std.specs.Prelude.{IfOk, IsOk, IsErr, IsSome, IsTrue, false, ◌∷◌};
ghost use Rattle.etm_types.specs.Pre.{nothing_told, trace_missing};
ghost use Rattle.etm_types.specs.declared.element.Elem.TheVariants as elem;
ghost use Rattle.etm_types.specs.declared.element.P0.TheVariants.{Atom};
ghost use Rattle.etm_types.specs.declared.element.Thing.TheVariants.{Seen};
ghost use Rattle.etm_types.specs.declared.queue_fault.QueueFault.{QueueFault};
ghost use Rattle.element_queue.specs.Counting.{AreCounts, Balances, counts_after, no_counts};
ghost use Rattle.element_queue.specs.Pending.{cancelling, committing, losing, nothing_gone, taken};
ghost use Rattle.element_queue.specs.Queued.{IsQueued, Refuses, Takes, TakesInfo, TakesPre};
ghost use Rattle.element_queue.specs.Queued.{noted, pending_of, thing_of, things_of};

mod many_together;

use crate::entries::Entries;
use crate::ledger::{Counts, Ledger};
use crate::packed::Packed;
use crate::slot::Slot;
use crate::uncommitted::Uncommitted;
use etm_types::{Ctx, Entry, P0, QueueFault};
use std::alloc::{AllocError, Global};
use std::marker::Model;

/// An element that gives something to the next P0 element.
#[derive(Clone, Copy, Debug, PartialEq, Eq)]
pub enum PreElem {
    /// Trace info.
    Info,
    /// Trace on.
    On,
    /// The context of what follows.
    Ctx(Ctx),
    /// The address of the next instruction.
    Addr(u64),
}

/// A P0 element that is committed.
#[derive(Clone, Copy, Debug, PartialEq, Eq)]
pub enum Committed {
    /// One that was seen, with what was given before it.
    Seen(Entry),
    /// One from before the trace that was found, of which nothing else is known.
    Unseen,
}

/// What most entries are: an atom before which nothing was given but, where there is one, an address.
#[derive(Clone, Copy, Debug, PartialEq, Eq)]
pub struct AtomEntry {
    /// The address of the next instruction, where one was given.
    pub addr: Option<u64>,
    /// Whether it is an E atom.
    pub taken: bool,
}

/// The P0 elements that are not committed, oldest first, at most so many as the maximum speculation depth,
/// and what was given since the newest. It has no drop: `close` ends it.
///
/// Those that were not seen are from before all others, so their number is enough.
#[must_use]
pub struct Queue {
    unseen: u32,
    entries: Entries,
    /// What was given since the newest. Which element comes next is not known yet.
    next: Packed,
    depth: u32,
    ledger: Ledger,
}

impl Model for Queue {
    ghost use Rattle.std.specs.Prelude.{◌≡◌, ◌≤◌, ◌<◌, ◌+◌, ◌^◌, ◌++◌, length, map, replicate};
    ghost use Rattle.etm_types.specs.declared.element.Thing.TheVariants.{Seen, Unseen};
    ghost use Rattle.element_queue.specs.Counting.{Balances};
    ghost use Rattle.element_queue.specs.Packed.{pre_of_packed};
    ghost use Rattle.element_queue.specs.Queued.{Queued};

    ghost Value = { Queued };

    ghost view = { λ q. record {
      held = replicate q.unseen Unseen ++ map Seen q.entries.items;
      pre = pre_of_packed q.next;
      depth = q.depth;
      counts = q.ledger;
    } };

    ghost invariant = { λ q. (q.entries.capacity ≡ q.depth) × (q.unseen + length q.entries.items ≤ q.depth) × (q.depth < 2 ^ 32)
        × Balances q.ledger (length q.entries.items) };
}

impl Queue {
    /// An empty queue of a maximum speculation depth. This is the one call that takes memory, and the error
    /// means want of it.
    pub fn new(alloc: Global, depth: u32) -> Result<Queue, AllocError>
        ensures empty { IfOk result (λ q. q ≡ record { held = []; pre = trace_missing; depth = depth; counts = no_counts }) }
        ensures queued { IfOk result IsQueued }
    {
        let entries = Entries::with_capacity(alloc, depth)?;
        Ok(Queue {
            unseen: 0,
            entries,
            next: Packed::trace_missing(),
            depth,
            ledger: Ledger::new(),
        })
    }

    /// What an element gives to the next P0 element. A trace info is a later one here: `start` takes the first.
    pub fn note(&mut self, elem: PreElem)
        ensures takes { TakesPre self.old elem self.new }
        ensures value { self.new ≡ record (self.old) { pre = noted self.old.pre elem } }
        ensures queued { IsQueued self.new }
        ensures counted { AreCounts self.old.counts }
    {
        self.next.note(elem);
    }

    /// One more P0 element. Where more than the depth would be held, the oldest is committed.
    #[inline(always)]
    pub fn push(&mut self, p0: P0) -> Option<Committed>
        ensures takes { Takes self.old (elem.P0 p0) (committing (things_of result)) self.new }
        ensures full { IsSome result ↔ (self.old.depth ≤ length self.old.held) }
        ensures queued { IsQueued self.new }
        ensures counted { AreCounts self.old.counts }
    {
        if self.depth == 0 {
            return Some(Committed::Seen(self.pass(p0)));
        }
        let full = self.held() == self.depth;
        let newest = Slot::new(self.next.with(p0), &mut self.ledger);
        self.next = Packed::nothing_told();
        if let Some(slot) = self.entries.push_back(newest) {
            let oldest = Uncommitted::from_slot(slot);
            return Some(Committed::Seen(oldest.commit(&mut self.ledger)));
        }
        if full {
            self.unseen -= 1;
            return Some(Committed::Unseen);
        }
        None
    }

    /// One more atom, before which nothing was given, where no more may be held: it commits the oldest.
    #[inline(always)]
    pub fn push_plain(&mut self, taken: bool) -> Committed
        requires some { 0 < self.old.depth }
        requires full { self.old.depth ≤ length self.old.held }
        requires given { self.old.pre ≡ nothing_told }
        ensures takes { Takes self.old (elem.P0 (Atom taken)) (committing (thing_of result ∷ [])) self.new }
        ensures queued { IsQueued self.new }
        ensures counted { AreCounts self.old.counts }
    {
        let newest = Slot::new(
            Packed::nothing_told().with(P0::Atom(taken)),
            &mut self.ledger,
        );
        match self.entries.push_back(newest) {
            Some(slot) => {
                let oldest = Uncommitted::from_slot(slot);
                Committed::Seen(oldest.commit(&mut self.ledger))
            }
            None => {
                self.unseen -= 1;
                Committed::Unseen
            }
        }
    }

    /// One more P0 element at depth 0. It is committed at once.
    #[inline(always)]
    fn pass(&mut self, p0: P0) -> Entry
        requires { self.old.depth ≡ 0 }
        ensures takes { Takes self.old (elem.P0 p0) (committing (Seen result ∷ [])) self.new }
        ensures queued { IsQueued self.new }
        ensures counted { AreCounts self.old.counts }
    {
        let newest = Slot::new(self.next.with(p0), &mut self.ledger);
        self.next = Packed::nothing_told();
        Uncommitted::from_slot(newest).commit(&mut self.ledger)
    }

    /// Whether one more may be held, so that it commits nothing.
    #[inline(always)]
    pub fn has_room(&self) -> bool
        ensures { IsTrue result ↔ (length self.now.held < self.now.depth) }
    {
        self.held() < self.depth
    }

    /// How many more may be held, so that they commit nothing.
    #[inline(always)]
    pub fn room(&self) -> u32
        ensures { result + length self.now.held ≡ self.now.depth }
    {
        self.depth - self.held()
    }

    /// Whether so many are held that can be committed.
    #[inline(always)]
    pub fn check_commit(&self, n: u32) -> Result<(), QueueFault>
        ensures ok { IsOk result ↔ (n ≤ length self.now.held) }
        ensures fault { (fault : QueueFault) → result ≡ Err fault → Refuses self.now (elem.Commit n) fault }
    {
        let held = self.held();
        if n > held {
            return Err(QueueFault::CommitOverrun { asked: n, held });
        }
        Ok(())
    }

    /// Commits the oldest.
    #[inline(always)]
    pub fn commit_one(&mut self) -> Option<Committed>
        ensures oldest { things_of result ≡ take 1 self.old.held }
        ensures rest { self.new ≡ record (self.old) { held = drop 1 self.old.held; counts = counts_after self.old.counts 0 (committing (things_of result)) } }
        ensures queued { IsQueued self.new }
        ensures counted { AreCounts self.old.counts }
    {
        if self.unseen > 0 {
            self.unseen -= 1;
            return Some(Committed::Unseen);
        }
        match self.entries.pop_front() {
            None => None,
            Some(slot) => {
                let oldest = Uncommitted::from_slot(slot);
                Some(Committed::Seen(oldest.commit(&mut self.ledger)))
            }
        }
    }

    /// Takes the `n` newest back, and what was given since the oldest of them.
    pub fn cancel(&mut self, n: u32) -> Result<(), QueueFault>
        ensures ok { IsOk result → Takes self.old (elem.Cancel n) (cancelling (drop (length self.old.held - n) self.old.held)) self.new }
        ensures fault { (fault : QueueFault) → result ≡ Err fault → Refuses self.old (elem.Cancel n) fault }
        ensures unchanged { IsErr result → self.new ≡ self.old }
        ensures queued { IsQueued self.new }
        ensures counted { AreCounts self.old.counts }
    {
        if self.cancel_plain(n) {
            return Ok(());
        }
        let held = self.held();
        if n > held {
            return Err(QueueFault::CancelOverrun { asked: n, held });
        }
        self.cancel_each(n);
        Ok(())
    }

    /// Takes the `n` newest back, at least one, where these are kept as atoms before which nothing was given. Else nothing changes.
    #[inline(always)]
    fn cancel_plain(&mut self, n: u32) -> bool
        ensures takes { IsTrue result → Takes self.old (elem.Cancel n) (cancelling (drop (length self.old.held - n) self.old.held)) self.new }
        ensures unchanged { result ≡ false → self.new ≡ self.old }
        ensures queued { IsQueued self.new }
        ensures counted { AreCounts self.old.counts }
    {
        if n == 0 || !self.entries.drop_newest(n) {
            return false;
        }
        self.next = Packed::nothing_told();
        self.ledger.count_all_cancelled(n);
        true
    }

    /// Takes the `n` newest back, one by one.
    fn cancel_each(&mut self, n: u32)
        requires { n ≤ length self.old.held }
        ensures takes { Takes self.old (elem.Cancel n) (cancelling (drop (length self.old.held - n) self.old.held)) self.new }
        ensures queued { IsQueued self.new }
        ensures counted { AreCounts self.old.counts }
    {
        let seen = n.min(self.entries.len());
        for _ in 0..seen {
            if let Some(newest) = self.entries.pop_back() {
                self.next = *newest.packed();
                Uncommitted::from_slot(newest).cancel(&mut self.ledger);
            }
        }
        let unseen = n - seen;
        if unseen > 0 {
            self.unseen -= unseen;
            self.next = Packed::trace_missing();
        }
    }

    /// A mispredict: the newest, an atom, is the other one, and no address is given any more. Of one that was
    /// not seen nothing is known, so trace is missing behind it.
    pub fn flip(&mut self) -> Result<(), QueueFault>
        ensures ok { IsOk result → Takes self.old elem.Flip nothing_gone self.new }
        ensures fault { (fault : QueueFault) → result ≡ Err fault → Refuses self.old elem.Flip fault }
        ensures unchanged { IsErr result → self.new ≡ self.old }
        ensures queued { IsQueued self.new }
        ensures counted { AreCounts self.old.counts }
    {
        if self.entries.len() == 0 && self.unseen > 0 {
            self.next.lose();
            return Ok(());
        }
        if !self.entries.newest_is_atom() {
            return Err(QueueFault::NoAtomToFlip { held: self.held() });
        }
        self.entries.flip();
        self.next.forget_addr();
        Ok(())
    }

    /// The first trace info. It announces P0 elements from before the trace that was found, of which nothing else is known.
    /// Nothing is held yet.
    pub fn start(&mut self, spec: u32) -> Result<(), QueueFault>
        requires { self.old.held ≡ [] }
        ensures within { IsOk result ↔ (spec ≤ self.old.depth) }
        ensures ok { IsOk result → TakesInfo false self.old spec self.new }
        ensures fault { (fault : QueueFault) → result ≡ Err fault → taken self.old.depth (pending_of self.old false) (elem.Info spec) ≡ Err fault }
        ensures unchanged { IsErr result → self.new ≡ self.old }
        ensures queued { IsQueued self.new }
        ensures counted { AreCounts self.old.counts }
    {
        if spec > self.depth {
            return Err(QueueFault::SpecTooDeep {
                spec,
                depth: self.depth,
            });
        }
        self.unseen = spec;
        self.next.note(PreElem::Info);
        Ok(())
    }

    /// Trace is missing: all that is held is lost.
    pub fn discard(&mut self)
        ensures value { self.new
            ≡ record (self.old) { held = []; pre = trace_missing; counts = counts_after self.old.counts 0 (losing self.old.held) } }
        ensures queued { IsQueued self.new }
        ensures counted { AreCounts self.old.counts }
    {
        while let Some(oldest) = self.entries.pop_front() {
            Uncommitted::from_slot(oldest).lose(&mut self.ledger);
        }
        self.unseen = 0;
        self.next = Packed::trace_missing();
    }

    /// How many are held, those that were not seen too.
    #[inline(always)]
    pub fn held(&self) -> u32
        ensures value { result ≡ length self.now.held }
        ensures within { result ≤ self.now.depth }
    {
        self.unseen + self.entries.len()
    }

    /// What became of the P0 elements so far.
    pub fn ledger(&self) -> Counts
        ensures value { result ≡ self.now.counts }
        ensures queued { IsQueued self.now }
        ensures counted { AreCounts self.now.counts }
    {
        self.ledger.counts()
    }

    /// Ends the queue. What is held is lost.
    pub fn close(self) -> Ledger
        ensures value { result ≡ counts_after self.counts 0 (losing self.held) }
        ensures balanced { Balances result 0 }
        ensures counted { AreCounts self.counts }
    {
        let mut queue = self;
        queue.discard();
        let Queue {
            unseen: _,
            entries,
            next: _,
            depth: _,
            ledger,
        } = queue;
        entries.close();
        ledger
    }
}

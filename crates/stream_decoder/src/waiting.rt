//! The P0 elements that wait: those that may still be taken back, and those that an element committed and that
//! are still to be walked.
ghost use Rattle.std.specs.Prelude.{◌≡◌, ◌+◌, ◌<◌, ◌≤◌, Bool, ◌∷◌, ◌++◌, ◌↔◌, [], List, length, map, slice_get, take, option_to_list, false};
ghost use Rattle.std.specs.Prelude.{IsTrue, IfOk, IfSome, IsSome, IsErr, None, Some, Err};
ghost use Rattle.element_queue.specs.Counting.{Balances, counts_after, no_counts};
ghost use Rattle.element_queue.specs.Pending.{committing, losing, taken};
ghost use Rattle.element_queue.specs.Queued.{entry_of, given_atoms, plain_atom, things_of};
ghost use Rattle.element_queue.specs.declared.queue.AtomEntry.{AtomEntry};
ghost use Rattle.element_queue.specs.Resolved.{at_first};
ghost use Rattle.etm_types.specs.Atoms.{atoms_in, most_atoms};
ghost use Rattle.etm_types.specs.declared.element.Elem.{Elem};
ghost use Rattle.etm_types.specs.declared.element.Elem.TheVariants as elem;
ghost use Rattle.etm_types.specs.declared.element.P0.TheVariants.{Atom};
ghost use Rattle.etm_types.specs.declared.element.P0.{P0};
ghost use Rattle.etm_types.specs.declared.element.Thing.TheVariants.{Seen};
ghost use Rattle.etm_types.specs.declared.element.Thing.{Thing};
ghost use Rattle.etm_types.specs.declared.queue_fault.QueueFault.{QueueFault};
ghost use Rattle.path_elements.specs.Elements.{atoms};
ghost use Rattle.stream_decoder.specs.Ahead.{settled_waiting};
ghost use Rattle.stream_decoder.specs.Waiting.{Commits, DropsDue, HoldsAtoms, IsWaiting, TakesAtoms, all_of, committed_by, passed};
ghost use Rattle.etm_types.specs.Pre.{nothing_told};

use element_queue::{Committed, Counts, GivenAtoms, Ledger, Outlook, PreElem, Queue};
use etm_types::{AtomRun, Elem, P0, QueueFault, Thing};
use std::alloc::{AllocError, Global};
use std::marker::Model;

/// The P0 elements that wait. It has no drop: `close` ends it.
///
/// A commit of many is not carried out at once: they stay in the queue, where there is room for them, and are
/// given out one by one.
#[must_use]
pub struct Waiting {
    queue: Queue,
    /// Whether a trace info was taken.
    informed: bool,
    /// How many of the oldest in the queue are due.
    due: u32,
}

impl Model for Waiting {
    ghost use Rattle.std.specs.Prelude.{◌≤◌, length};
    ghost use Rattle.element_queue.specs.Counting.{AreCounts};
    ghost use Rattle.element_queue.specs.Queued.{IsQueued};
    ghost use Rattle.stream_decoder.specs.Waiting.{Waiting, waiting_of};

    ghost Value = { Waiting };

    ghost view = { λ w. waiting_of w.queue w.informed w.due };

    ghost invariant = { λ w. (w.due ≤ length w.queue.held) × IsQueued w.queue × AreCounts w.queue.counts };
}

impl Waiting {
    /// None. This is the one call that takes memory, and the error means want of it.
    pub fn new(alloc: Global, depth: u32) -> Result<Waiting, AllocError>
        ensures none { IfOk result (λ w. w ≡ record { pending = at_first; due = []; depth = depth; counts = no_counts }) }
        ensures holds { IfOk result IsWaiting }
    {
        Ok(Waiting {
            queue: Queue::new(alloc, depth)?,
            informed: false,
            due: 0,
        })
    }

    /// Takes an element, and gives what it commits. What a commit commits is due after it.
    pub fn take(&mut self, elem: &Elem) -> Result<Option<Thing>, QueueFault>
        requires begins { self.old.pending.informed ≡ false → self.old.pending.held ≡ [] }
        requires due { self.old.due ≡ [] }
        ensures ok { IfOk result (λ thing. Commits self.old elem.now self.new (option_to_list thing)) }
        ensures fault { (fault : QueueFault) → result ≡ Err fault → taken self.old.depth self.old.pending elem.now ≡ Err fault }
        ensures unchanged { IsErr result → self.new ≡ self.old }
        ensures holds { IsWaiting self.new }
    {
        match *elem {
            Elem::Info { spec } => return self.inform(spec),
            Elem::On => self.queue.note(PreElem::On),
            Elem::Ctx(ctx) => self.queue.note(PreElem::Ctx(ctx)),
            Elem::Addr(addr) => self.queue.note(PreElem::Addr(addr)),
            Elem::P0(p0) => return Ok(thing_of(self.queue.push(p0))),
            Elem::Commit(n) => {
                self.queue.check_commit(n)?;
                self.due = n;
            }
            Elem::Cancel(n) => self.queue.cancel(n)?,
            Elem::Flip => self.queue.flip()?,
            Elem::Overflow => {
                self.queue.discard();
                return Ok(Some(Thing::Gap));
            }
            Elem::Discard => {
                self.queue.discard();
                return Ok(Some(Thing::Stop));
            }
        }
        Ok(None)
    }

    /// The oldest atoms of all that wait, at most so many, where nothing but an address was given before the first and nothing before the others.
    /// `None` where none waits, and where the oldest is anything but an atom before which nothing but an address was given.
    #[inline(always)]
    pub fn oldest_given(&self, most: usize) -> Option<GivenAtoms>
        ensures atoms { IfSome result (λ given. given_atoms given.addr (atoms_in given.atoms) ≡ take (given.atoms).count (all_of self.now)) }
        ensures most { IfSome result (λ given. (given.atoms).count ≤ most) }
        ensures few { IfSome result (λ given. (given.atoms).count ≤ most_atoms) }
        ensures first { IfSome result (λ given. (taken : Bool)
            × (slice_get (all_of self.now) 0 ≡ Some (Seen (entry_of (record { addr = given.addr; taken = taken }))))) }
        ensures some { IsSome result ↔ ((atom : AtomEntry) × (slice_get (all_of self.now) 0 ≡ Some (Seen (entry_of atom)))) }
    {
        let GivenAtoms { addr, atoms } = self.queue.oldest_given()?;
        Some(GivenAtoms {
            addr,
            atoms: AtomRun {
                count: usize::from(atoms.count).min(most) as u8,
                bits: atoms.bits,
            },
        })
    }

    /// The oldest of all that wait, as atoms of one run of at most so many, as far as they are atoms before which nothing was given.
    #[inline(always)]
    pub fn oldest_plain(&self, most: usize) -> AtomRun
        ensures atoms { map plain_atom (atoms_in result) ≡ take result.count (all_of self.now) }
        ensures most { result.count ≤ most }
        ensures few { result.count ≤ most_atoms }
    {
        let AtomRun { count, bits } = self.queue.oldest_plain();
        AtomRun {
            count: usize::from(count).min(most) as u8,
            bits,
        }
    }

    /// What waits, as an outlook on which elements are tried, where nothing is due, and it is kept as atoms before which nothing was given, and
    /// nothing was given since.
    #[inline(always)]
    pub fn outlook(&self) -> Option<Outlook>
        ensures due { IsSome result → self.now.due ≡ [] }
        ensures held { IfSome result (λ o. map plain_atom o.held ≡ self.now.pending.held) }
        ensures new { IfSome result (λ o. o ≡ record {
          gone = [];
          held = o.held;
          before = length self.now.pending.held;
          made = 0;
          cancelled = 0;
          depth = self.now.depth;
        }) }
        ensures given { IsSome result → self.now.pending.pre ≡ nothing_told }
    {
        if self.due > 0 {
            return None;
        }
        self.queue.outlook()
    }

    /// What was tried on an outlook is done, and so many of the oldest that it commits are given out; the others of them are due.
    #[inline(always)]
    pub fn settle(&mut self, outlook: &Outlook, n: u32)
        requires due { self.old.due ≡ [] }
        requires plain { (atoms : List Bool) × (map plain_atom atoms ≡ self.old.pending.held) }
        requires before { outlook.now.before ≡ length self.old.pending.held }
        requires given { self.old.pending.pre ≡ nothing_told }
        requires short { n ≤ most_atoms }
        requires within { n ≤ length outlook.now.gone }
        requires few { length outlook.now.gone + length outlook.now.held ≤ n + self.old.depth }
        ensures value { self.new ≡ settled_waiting outlook.now n self.old }
        ensures holds { IsWaiting self.new }
    {
        self.queue.settle(outlook, n);
        self.due = outlook.committed() - n;
    }

    /// Takes the atoms of a run one after the other, and lets go what each commits, where no more may be held, nothing was given before them
    /// and as many of the oldest are such atoms too. Else nothing changes.
    #[inline(always)]
    pub fn rotate(&mut self, run: &AtomRun) -> bool
        requires due { self.old.due ≡ [] }
        requires few { run.now.count ≤ most_atoms }
        ensures takes { IsTrue result → (others : List Elem) → TakesAtoms self.old (atoms (atoms_in run.now) ++ others) run.now.count self.new others }
        ensures unchanged { result ≡ false → self.new ≡ self.old }
        ensures holds { IsWaiting self.new }
    {
        self.queue.rotate(run)
    }

    /// Takes the atoms of a run one after the other, where there is room for all of them and nothing was given before them. Else nothing
    /// changes.
    #[inline(always)]
    pub fn hold(&mut self, run: &AtomRun) -> bool
        requires due { self.old.due ≡ [] }
        requires few { run.now.count ≤ most_atoms }
        ensures takes { IsTrue result → (others : List Elem) → HoldsAtoms self.old (atoms (atoms_in run.now) ++ others) run.now.count self.new others }
        ensures unchanged { result ≡ false → self.new ≡ self.old }
        ensures holds { IsWaiting self.new }
    {
        self.queue.hold(run)
    }

    /// How many P0 elements more commit nothing: none where some are due.
    #[inline(always)]
    pub fn room(&self) -> usize
        ensures { 0 < result → self.now.due ≡ [] }
    {
        if self.due > 0 {
            return 0;
        }
        self.queue.room() as usize
    }

    /// So many of the oldest that are due, at most 24, were given out, where so many are and they are atoms before which nothing was given. Else
    /// nothing changes.
    #[inline(always)]
    pub fn drop_plain(&mut self, n: usize) -> bool
        requires few { n ≤ most_atoms }
        ensures drops { IsTrue result → DropsDue self.old n self.new }
        ensures unchanged { result ≡ false → self.new ≡ self.old }
        ensures holds { IsWaiting self.new }
    {
        if n > self.due as usize || !self.queue.commit_plain(n as u32) {
            return false;
        }
        self.due -= n as u32;
        true
    }

    /// Takes an atom, and lets go what it commits.
    #[inline(always)]
    pub fn take_atom(&mut self, taken: bool)
        requires due { self.old.due ≡ [] }
        ensures commits { Commits self.old (elem.P0 (Atom taken)) self.new (committed_by self.old (Atom taken)) }
        ensures holds { IsWaiting self.new }
    {
        self.queue.push(P0::Atom(taken));
    }

    /// Takes an atom before which nothing was given, where no more may be held, and lets go what it commits.
    #[inline(always)]
    pub fn take_plain_atom(&mut self, taken: bool)
        requires due { self.old.due ≡ [] }
        requires some { 0 < self.old.depth }
        requires full { self.old.depth ≤ length self.old.pending.held }
        requires given { self.old.pending.pre ≡ nothing_told }
        ensures commits { Commits self.old (elem.P0 (Atom taken)) self.new (committed_by self.old (Atom taken)) }
        ensures holds { IsWaiting self.new }
    {
        self.queue.push_plain(taken);
    }

    /// Whether one more P0 element commits the oldest: nothing is due, and no more may be held.
    #[inline(always)]
    pub fn is_full(&self) -> bool
        ensures { IsTrue result ↔ ((self.now.due ≡ []) × (self.now.depth ≤ length self.now.pending.held)) }
    {
        self.due == 0 && !self.queue.has_room()
    }

    /// The address that was given before the next P0 element, where one was, if each is committed as it is made, nothing is due and
    /// nothing else was given before it.
    #[inline(always)]
    pub fn passing(&self) -> Option<Option<u64>>
        ensures { IfSome result (λ addr. (self.now.due ≡ []) × (self.now.depth ≡ 0)
            × (self.now.pending.pre ≡ record nothing_told { addr = addr })) }
    {
        if self.due > 0 {
            return None;
        }
        self.queue.passing()
    }

    /// So many P0 elements more, each committed as it is made.
    #[inline(always)]
    pub fn pass_many(&mut self, n: u32)
        requires due { self.old.due ≡ [] }
        requires depth { self.old.depth ≡ 0 }
        ensures value { self.new ≡ passed n self.old }
        ensures holds { IsWaiting self.new }
    {
        self.queue.pass_many(n);
    }

    /// Takes an address.
    #[inline(always)]
    pub fn take_address(&mut self, addr: u64)
        requires due { self.old.due ≡ [] }
        ensures commits { Commits self.old (elem.Addr addr) self.new [] }
        ensures holds { IsWaiting self.new }
    {
        self.queue.note(PreElem::Addr(addr));
    }

    /// A trace info. The first one announces P0 elements from before it that are not committed.
    fn inform(&mut self, spec: u32) -> Result<Option<Thing>, QueueFault>
        requires begins { self.old.pending.informed ≡ false → self.old.pending.held ≡ [] }
        requires due { self.old.due ≡ [] }
        ensures ok { IfOk result (λ thing. Commits self.old (elem.Info spec) self.new (option_to_list thing)) }
        ensures fault { (fault : QueueFault) → result ≡ Err fault → taken self.old.depth self.old.pending (elem.Info spec) ≡ Err fault }
        ensures unchanged { IsErr result → self.new ≡ self.old }
        ensures holds { IsWaiting self.new }
    {
        if self.informed {
            self.queue.note(PreElem::Info);
            return Ok(None);
        }
        self.queue.start(spec)?;
        self.informed = true;
        Ok(None)
    }

    /// Whether some are due.
    #[inline(always)]
    pub fn is_due(&self) -> bool
        ensures none { result ≡ false → self.now.due ≡ [] }
        ensures some { IsTrue result → 0 < length self.now.due }
    {
        self.due > 0
    }

    /// How many are due.
    #[inline(always)]
    pub fn due_count(&self) -> usize
        ensures { result ≡ length self.now.due }
    {
        self.due as usize
    }

    /// The oldest that is due was given out.
    #[inline(always)]
    pub fn drop_due(&mut self)
        ensures others { (thing : Thing) (others : List Thing) → self.old.due ≡ thing ∷ others
            → self.new ≡ record (self.old) { due = others; counts = counts_after self.old.counts 0 (committing (thing ∷ [])) } }
        ensures holds { IsWaiting self.new }
    {
        self.next_due();
    }

    /// Gives out the oldest that is due.
    #[inline(always)]
    pub fn next_due(&mut self) -> Option<Thing>
        ensures order { self.old.due ≡ option_to_list result ++ self.new.due }
        ensures none { result ≡ None → (self.old.due ≡ []) × (self.new ≡ self.old) }
        ensures others { self.new ≡ record (self.old) { due = self.new.due; counts = counts_after self.old.counts 0 (committing (option_to_list result)) } }
        ensures holds { IsWaiting self.new }
    {
        if self.due == 0 {
            return None;
        }
        self.due -= 1;
        thing_of(self.queue.commit_one())
    }

    /// What is due is not given out any more, and counts as held again.
    pub fn keep_due(&mut self)
        ensures value { self.new ≡ record (self.old) { pending = record (self.old.pending) { held = self.old.due ++ self.old.pending.held }; due = [] } }
        ensures holds { IsWaiting self.new }
    {
        self.due = 0;
    }

    /// What became of the P0 elements. What is due is not committed yet.
    pub fn counts(&self) -> Counts
        ensures value { result ≡ self.now.counts }
        ensures holds { IsWaiting self.now }
    {
        self.queue.ledger()
    }

    /// Ends it. All that waits is lost.
    pub fn close(self) -> Ledger
        ensures value { result ≡ counts_after self.counts 0 (losing (self.due ++ self.pending.held)) }
        ensures balanced { Balances result 0 }
    {
        let Waiting {
            queue,
            informed: _,
            due: _,
        } = self;
        queue.close()
    }
}

/// What is committed, as a thing.
#[inline(always)]
fn thing_of(committed: Option<Committed>) -> Option<Thing>
    ensures { option_to_list result ≡ things_of committed }
{
    match committed {
        None => None,
        Some(Committed::Seen(entry)) => Some(Thing::Seen(entry)),
        Some(Committed::Unseen) => Some(Thing::Unseen),
    }
}

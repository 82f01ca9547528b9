//! A fast way: many atoms are looked at, held, committed or passed by one call.
//!
//! *Together* are taken: atoms before which nothing was given, at most 24. Each call is so many of the rules in a row.
//!
//! *Condition:* the atoms are kept as bits, as all are before which nothing was given, and there is room for all of them or none is needed. Before
//! the oldest an address may have been given (`oldest_given`, `passing`).
//!
//! *Left to [`push`](Queue::push) and the other calls for one element:* all else. The answer is `None`, `false` or a run of none then, and nothing
//! changes.
//!
//! *Cost:* some shifts of words of bits, whatever the number of atoms.
//!
//! `counted` is for the proofs of callers: the counts of before are below 2^64, as they are kept.
ghost use Rattle.std.specs.Prelude.{◌≡◌, ◌≤◌, ◌<◌, ◌+◌, ◌↔◌, ℕ, Bool, List, [], length, take, drop, map, slice_get, Option, Some};
ghost use Rattle.std.specs.Prelude.{IfSome, IsSome, IsTrue, false};
ghost use Rattle.etm_types.specs.Atoms.{atoms_in, most_atoms};
ghost use Rattle.etm_types.specs.Pre.{nothing_told};
ghost use Rattle.etm_types.specs.declared.element.Thing.TheVariants.{Seen};
ghost use Rattle.element_queue.specs.Counting.{AreCounts, counts_after};
ghost use Rattle.element_queue.specs.Outlooks.{settled};
ghost use Rattle.element_queue.specs.Pending.{committing};
ghost use Rattle.element_queue.specs.Queued.{AreOldestPlain, BeginsWith, IsQueued, NoPlainAtomAt};
ghost use Rattle.element_queue.specs.Queued.{entry_of, holding, passed, plain_atom, rotated};
ghost use Rattle.element_queue.specs.declared.queue.AtomEntry.{AtomEntry};

use crate::given_atoms::GivenAtoms;
use crate::outlook::Outlook;
use crate::packed::Packed;
use crate::queue::Queue;
use etm_types::AtomRun;

impl Queue {
    /// The address that was given before the next P0 element, where one was, if each is committed as it is made and nothing else
    /// was given before it.
    #[inline(always)]
    pub fn passing(&self) -> Option<Option<u64>>
        ensures value { IfSome result (λ addr. (self.now.depth ≡ 0) × (self.now.pre ≡ record nothing_told { addr = addr })) }
        ensures some { (addr : Option ℕ) → self.now.depth ≡ 0 → self.now.pre ≡ record nothing_told { addr = addr } → IsSome result }
    {
        if self.depth > 0 {
            return None;
        }
        self.next.only_addr()
    }

    /// So many P0 elements more, where each is committed as it is made.
    #[inline(always)]
    pub fn pass_many(&mut self, n: u32)
        requires depth { self.old.depth ≡ 0 }
        ensures value { self.new ≡ passed n self.old }
        ensures queued { IsQueued self.new }
        ensures counted { AreCounts self.new.counts }
    {
        self.next = Packed::nothing_told();
        self.ledger.count_passed(n);
    }

    /// The oldest atoms that are held, where nothing but an address was given before the first and nothing before the others: at most 24.
    /// `None` where nothing is held, and where the oldest is anything but an atom before which nothing but an address was given.
    #[inline(always)]
    pub fn oldest_given(&self) -> Option<GivenAtoms>
        ensures value { IfSome result (λ given. BeginsWith given self.now.held) }
        ensures some { IsSome result ↔ ((atom : AtomEntry) × (slice_get self.now.held 0 ≡ Some (Seen (entry_of atom)))) }
    {
        if self.unseen > 0 {
            return None;
        }
        self.entries.oldest_given()
    }

    /// The oldest that are held, as atoms of one run, as far as they are atoms before which nothing was given: at most 24.
    #[inline(always)]
    pub fn oldest_plain(&self) -> AtomRun
        ensures atoms { map plain_atom (atoms_in result) ≡ take result.count self.now.held }
        ensures most { result.count ≤ most_atoms }
        ensures held { result.count ≤ length self.now.held }
        ensures all { result.count < most_atoms → NoPlainAtomAt result.count self.now.held }
    {
        if self.unseen > 0 {
            return AtomRun { count: 0, bits: 0 };
        }
        self.entries.oldest_plain()
    }

    /// What is held, as an outlook on which elements are tried, where it is kept as atoms before which nothing was given and nothing was given
    /// since. There is one where nothing is held.
    #[inline(always)]
    pub fn outlook(&self) -> Option<Outlook>
        ensures held { IfSome result (λ o. map plain_atom o.held ≡ self.now.held) }
        ensures new { IfSome result (λ o. o ≡ record { gone = []; held = o.held; before = length self.now.held; made = 0; cancelled = 0; depth = self.now.depth }) }
        ensures given { IsSome result → self.now.pre ≡ nothing_told }
        ensures none { self.now.held ≡ [] → self.now.pre ≡ nothing_told → IsSome result }
    {
        if self.unseen > 0 || !self.next.is_nothing_told() {
            return None;
        }
        let (bits, count) = self.entries.all_plain()?;
        Some(Outlook::new(bits, count, self.depth))
    }

    /// What was tried on an outlook of the queue is done, and so many of the oldest that it commits are given out; those that are left of them are
    /// the oldest that are held.
    #[inline(always)]
    pub fn settle(&mut self, outlook: &Outlook, n: u32)
        requires plain { (atoms : List Bool) × (map plain_atom atoms ≡ self.old.held) }
        requires before { outlook.now.before ≡ length self.old.held }
        requires given { self.old.pre ≡ nothing_told }
        requires short { n ≤ most_atoms }
        requires within { n ≤ length outlook.now.gone }
        requires few { length outlook.now.gone + length outlook.now.held ≤ n + self.old.depth }
        ensures value { self.new ≡ settled outlook.now n self.old }
        ensures queued { IsQueued self.new }
        ensures counted { AreCounts self.old.counts }
    {
        let (bits, count) = outlook.behind(n);
        let (made, cancelled) = outlook.tries();
        self.entries.become_plain(bits, count);
        self.ledger.count_all_made(made);
        self.ledger.count_all_committed(n);
        self.ledger.count_all_cancelled(cancelled);
    }

    /// Takes atoms before which nothing was given, where no more may be held and as many of the oldest are such atoms too: each commits
    /// one of these. Else nothing changes.
    #[inline(always)]
    pub fn rotate(&mut self, atoms: &AtomRun) -> bool
        requires { atoms.now.count ≤ most_atoms }
        ensures rotated { IsTrue result → (self.new ≡ rotated (atoms_in atoms.now) self.old) }
        ensures when { IsTrue result ↔ ((self.old.depth ≤ length self.old.held) × (self.old.pre ≡ nothing_told)
            × AreOldestPlain atoms.now.count self.old.held) }
        ensures unchanged { result ≡ false → self.new ≡ self.old }
        ensures queued { IsQueued self.new }
        ensures counted { AreCounts self.old.counts }
    {
        if self.has_room() || !self.next.is_nothing_told() {
            return false;
        }
        let count = u32::from(atoms.count);
        if self.unseen > 0 && count > 0 {
            return false;
        }
        if !self.entries.rotate(atoms) {
            return false;
        }
        self.ledger.count_passed(count);
        true
    }

    /// Holds atoms before which nothing was given, where there is room for all of them. Else nothing changes.
    #[inline(always)]
    pub fn hold(&mut self, atoms: &AtomRun) -> bool
        requires { atoms.now.count ≤ most_atoms }
        ensures holding { IsTrue result → (self.new ≡ holding (atoms_in atoms.now) self.old) }
        ensures when { IsTrue result ↔ ((length self.old.held + atoms.now.count ≤ self.old.depth) × (self.old.pre ≡ nothing_told)) }
        ensures unchanged { result ≡ false → self.new ≡ self.old }
        ensures queued { IsQueued self.new }
        ensures counted { AreCounts self.old.counts }
    {
        let count = u32::from(atoms.count);
        if self.depth - self.held() < count || !self.next.is_nothing_told() {
            return false;
        }
        self.entries.append_run(atoms);
        self.ledger.count_all_made(count);
        true
    }

    /// Commits so many of the oldest, at most 24, where all of these are atoms before which nothing was given. Else nothing changes.
    #[inline(always)]
    pub fn commit_plain(&mut self, n: u32) -> bool
        requires { n ≤ most_atoms }
        ensures rest { IsTrue result → (self.new
            ≡ record (self.old) { held = drop n self.old.held; counts = counts_after self.old.counts 0 (committing (take n self.old.held)) }) }
        ensures when { IsTrue result ↔ AreOldestPlain n self.old.held }
        ensures unchanged { result ≡ false → self.new ≡ self.old }
        ensures queued { IsQueued self.new }
        ensures counted { AreCounts self.old.counts }
    {
        if self.unseen > 0 && n > 0 {
            return false;
        }
        if !self.entries.drop_plain(n) {
            return false;
        }
        self.ledger.count_all_committed(n);
        true
    }
}

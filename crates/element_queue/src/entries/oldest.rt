//! The oldest end of the entries: what is taken out of it, and the atoms that stand there.
ghost use Rattle.std.specs.Prelude.{◌≡◌, ◌≤◌, ◌<◌, ◌↔◌, Bool, List, [], ◌∷◌, ◌++◌, length, drop, map, take, slice_get, option_to_list};
ghost use Rattle.std.specs.Prelude.{IfSome, IsSome, IsTrue, None, Some, false};
ghost use Rattle.std.specs.Option.{option_map};
ghost use Rattle.etm_types.specs.Atoms.{atoms_in, most_atoms};
ghost use Rattle.etm_types.specs.declared.element.Entry.{Entry};
ghost use Rattle.etm_types.specs.declared.element.Thing.TheVariants.{Seen};
ghost use Rattle.element_queue.specs.Kept.{AreOldest, IsFront, NoPlainAt, entries_in, kept};
ghost use Rattle.element_queue.specs.Queued.{BeginsWith, entry_of, plain_entry};
ghost use Rattle.element_queue.specs.declared.entries.AtomsAndEntry.{AtomsAndEntry};
ghost use Rattle.element_queue.specs.declared.queue.AtomEntry.{AtomEntry};

use crate::entries::{AtomsAndEntry, Entries};
use crate::given_atoms::{GivenAtoms, with_first};
use crate::plain_atoms::{MOST_OF_RUN, PlainAtoms};
use crate::queue::AtomEntry;
use crate::slot::Slot;
use etm_types::AtomRun;
use spend_ring::SpendRing;

impl Entries {
    /// Takes the oldest out.
    #[inline(always)]
    pub(crate) fn pop_front(&mut self) -> Option<Slot>
        ensures order { self.old.items ≡ option_to_list result ++ self.new.items }
        ensures empty { IsSome result ↔ (0 < length self.old.items) }
        ensures rest { self.new.items ≡ drop 1 self.old.items }
        ensures bounded { length self.new.items ≤ self.new.capacity }
        ensures capacity { self.new.capacity ≡ self.old.capacity }
    {
        if self.runs.len() == 0 {
            let taken = self.plain.pop_front()?;
            self.count -= 1;
            return Some(Slot::from_atom(taken));
        }
        let oldest = pop_first(&mut self.runs);
        self.count -= 1;
        Some(oldest)
    }

    /// The oldest, where it is an atom before which nothing but an address was given.
    #[inline(always)]
    pub(crate) fn oldest_atom(&self) -> Option<AtomEntry>
        ensures value { IfSome result (λ atom. slice_get self.now.items 0 ≡ Some (entry_of atom)) }
        ensures some { (atom : AtomEntry) → slice_get self.now.items 0 ≡ Some (entry_of atom) → IsSome result }
    {
        match self.runs.get(0) {
            Some(run) => run.oldest_atom(),
            None => plain_atom_of(self.plain.get(0)),
        }
    }

    /// The oldest, as far as they are atoms before which nothing was given: at most 24.
    #[inline(always)]
    pub(crate) fn oldest_plain(&self) -> AtomRun
        ensures atoms { map plain_entry (atoms_in result) ≡ take result.count self.now.items }
        ensures most { result.count ≤ most_atoms }
        ensures held { result.count ≤ length self.now.items }
        ensures all { result.count < most_atoms → NoPlainAt result.count self.now.items }
    {
        front_from(&self.runs, &self.plain, 0)
    }

    /// The oldest atoms, where nothing but an address was given before the first and nothing before the others: at most 24. `None` where the
    /// oldest is no such atom.
    #[inline(always)]
    pub(crate) fn oldest_given(&self) -> Option<GivenAtoms>
        ensures value { IfSome result (λ given. BeginsWith given (map Seen self.now.items)) }
        ensures some { (atom : AtomEntry) → slice_get self.now.items 0 ≡ Some (entry_of atom) → IsSome result }
    {
        let atoms = self.oldest_plain();
        if atoms.count > 0 {
            return Some(GivenAtoms { addr: None, atoms });
        }
        let AtomEntry { addr, taken } = self.oldest_atom()?;
        let behind = front_from(&self.runs, &self.plain, 1);
        Some(GivenAtoms {
            addr,
            atoms: with_first(taken, &behind),
        })
    }

    /// Takes so many of the oldest out, where all of these are atoms before which nothing was given. Else nothing changes.
    #[inline(always)]
    pub(crate) fn drop_plain(&mut self, n: u32) -> bool
        requires few { n ≤ most_atoms }
        ensures rest { IsTrue result → self.new ≡ kept (drop n self.old.items) self.old.capacity }
        ensures oldest { IsTrue result ↔ AreOldest n self.old.items }
        ensures unchanged { result ≡ false → self.new ≡ self.old }
        ensures bounded { length self.old.items ≤ self.old.capacity }
    {
        if !drop_oldest(&mut self.runs, &mut self.plain, n) {
            return self.drop_across(n);
        }
        self.count -= n;
        true
    }

    /// The same, where a run may end among them.
    #[inline(never)]
    fn drop_across(&mut self, n: u32) -> bool
        requires few { n ≤ most_atoms }
        ensures rest { IsTrue result → self.new ≡ kept (drop n self.old.items) self.old.capacity }
        ensures oldest { IsTrue result ↔ AreOldest n self.old.items }
        ensures unchanged { result ≡ false → self.new ≡ self.old }
    {
        if u32::from(self.oldest_plain().count) < n {
            return false;
        }
        for _ in 0..n {
            if let Some(oldest) = self.pop_front() {
                oldest.take();
            }
        }
        true
    }
}

impl AtomsAndEntry {
    /// Whether its bits are all that a front of the entries from it on has: at least 24, or the entry behind them is no such atom.
    #[inline(always)]
    fn has_front(&self) -> bool
        ensures { IsTrue result → (others : List Entry) → IsFront self.now.plain (map plain_entry self.now.plain ++ self.now.last ∷ others) }
    {
        self.plain.len() >= MOST_OF_RUN || self.last.packed().plain_atom().is_none()
    }

    /// Adds its entries to a front that has fewer than 24 atoms, as far as they belong to it. It tells whether the entries behind it may too.
    fn add_to(&self, front: &mut PlainAtoms) -> bool
        requires few { length front.old < most_atoms }
        ensures goes_on { IsTrue result → (map plain_entry front.new ≡ map plain_entry front.old ++ map plain_entry self.now.plain ++ self.now.last ∷ [])
            × (length front.new < most_atoms) }
        ensures ends { result ≡ false
            → (others : List Entry) → IsFront front.new (map plain_entry front.old ++ map plain_entry self.now.plain ++ self.now.last ∷ others) }
    {
        front.push_run(&self.plain.front());
        if front.len() >= MOST_OF_RUN {
            return false;
        }
        let Some(taken) = self.last.packed().plain_atom() else {
            return false;
        };
        front.push(taken);
        front.len() < MOST_OF_RUN
    }

    /// The oldest, where it is an atom before which nothing but an address was given.
    #[inline(always)]
    fn oldest_atom(&self) -> Option<AtomEntry>
        ensures value { IfSome result (λ atom. (plain : List Bool) → slice_get (entries_in (self.now ∷ []) plain) 0 ≡ Some (entry_of atom)) }
        ensures some { (atom : AtomEntry) (plain : List Bool) → slice_get (entries_in (self.now ∷ []) plain) 0 ≡ Some (entry_of atom) → IsSome result }
    {
        match self.plain.get(0) {
            Some(taken) => Some(AtomEntry { addr: None, taken }),
            None => self.last.packed().atom(),
        }
    }
}

/// That atom, where one is there.
#[inline(always)]
fn plain_atom_of(taken: Option<bool>) -> Option<AtomEntry>
    ensures { result ≡ option_map (λ t. record { addr = None; taken = t }) taken }
{
    match taken {
        Some(taken) => Some(AtomEntry { addr: None, taken }),
        None => None,
    }
}

/// The oldest of the runs from one on and of the atoms behind them, as far as they are atoms before which nothing was given: at most 24.
#[inline(always)]
fn front_from(runs: &SpendRing<AtomsAndEntry>, plain: &PlainAtoms, first: usize) -> AtomRun
    ensures atoms { map plain_entry (atoms_in result) ≡ take result.count (entries_in (drop first runs.now.items) plain.now) }
    ensures most { result.count ≤ most_atoms }
    ensures held { result.count ≤ length (entries_in (drop first runs.now.items) plain.now) }
    ensures all { result.count < most_atoms → NoPlainAt result.count (entries_in (drop first runs.now.items) plain.now) }
{
    let Some(run) = runs.get(first) else {
        return plain.front();
    };
    if run.has_front() {
        return run.plain.front();
    }
    front_of(runs, plain, first)
}

/// The same, where it may go on behind a run.
#[inline(never)]
fn front_of(runs: &SpendRing<AtomsAndEntry>, plain: &PlainAtoms, first: usize) -> AtomRun
    ensures atoms { map plain_entry (atoms_in result) ≡ take result.count (entries_in (drop first runs.now.items) plain.now) }
    ensures most { result.count ≤ most_atoms }
    ensures held { result.count ≤ length (entries_in (drop first runs.now.items) plain.now) }
    ensures all { result.count < most_atoms → NoPlainAt result.count (entries_in (drop first runs.now.items) plain.now) }
{
    let mut front = PlainAtoms::new();
    for i in first..runs.len() {
        let Some(run) = runs.get(i) else {
            unreachable!()
        };
        if !run.add_to(&mut front) {
            return front.into_front();
        }
    }
    front.push_run(&plain.front());
    front.into_front()
}

/// Takes the oldest entry of the first run out.
#[inline(always)]
fn pop_first(runs: &mut SpendRing<AtomsAndEntry>) -> Slot
    requires some { 0 < length runs.old.items }
    ensures order { (plain : List Bool) → entries_in runs.old.items plain ≡ result ∷ entries_in runs.new.items plain }
    ensures capacity { runs.new.capacity ≡ runs.old.capacity }
{
    if let Some(taken) = pop_plain(runs) {
        return Slot::from_atom(taken);
    }
    match runs.pop_front() {
        Some(AtomsAndEntry { plain, last }) => {
            plain.close();
            last
        }
        None => unreachable!(),
    }
}

/// Takes the oldest of the first run out, where it is kept as a bit. Else nothing changes.
#[inline(always)]
fn pop_plain(runs: &mut SpendRing<AtomsAndEntry>) -> Option<bool>
    requires some { 0 < length runs.old.items }
    ensures order { IfSome result (λ taken. (plain : List Bool) → entries_in runs.old.items plain ≡ plain_entry taken ∷ entries_in runs.new.items plain) }
    ensures none { result ≡ None → (runs.new ≡ runs.old) × ((run : AtomsAndEntry) → slice_get runs.old.items 0 ≡ Some run → run.plain ≡ []) }
    ensures capacity { runs.new.capacity ≡ runs.old.capacity }
{
    if plain_count(runs) == 0 {
        return None;
    }
    match runs.get_mut(0) {
        Some(run) => run.plain.pop_front(),
        None => unreachable!(),
    }
}

/// How many of the first run are kept as bits.
#[inline(always)]
fn plain_count(runs: &SpendRing<AtomsAndEntry>) -> u32
    ensures { (run : AtomsAndEntry) → slice_get runs.now.items 0 ≡ Some run → result ≡ length run.plain }
{
    match runs.get(0) {
        Some(run) => run.plain.len(),
        None => 0,
    }
}

/// Takes so many of the oldest out of some runs and the atoms behind them, where these are kept as bits. Else nothing changes.
#[inline(always)]
fn drop_oldest(runs: &mut SpendRing<AtomsAndEntry>, plain: &mut PlainAtoms, n: u32) -> bool
    requires few { n ≤ most_atoms }
    ensures rest { IsTrue result → entries_in runs.new.items plain.new ≡ drop n (entries_in runs.old.items plain.old) }
    ensures oldest { IsTrue result → AreOldest n (entries_in runs.old.items plain.old) }
    ensures fewer { length plain.new ≤ length plain.old }
    ensures unchanged { result ≡ false → (runs.new ≡ runs.old) × (plain.new ≡ plain.old) }
    ensures capacity { runs.new.capacity ≡ runs.old.capacity }
{
    if runs.len() > 0 {
        return drop_first(runs, n);
    }
    if plain.len() < n {
        return false;
    }
    plain.drop_front(n);
    true
}

/// The same of the first run.
#[inline(always)]
fn drop_first(runs: &mut SpendRing<AtomsAndEntry>, n: u32) -> bool
    requires few { n ≤ most_atoms }
    requires some { 0 < length runs.old.items }
    ensures rest { IsTrue result → (plain : List Bool) → entries_in runs.new.items plain ≡ drop n (entries_in runs.old.items plain) }
    ensures oldest { IsTrue result → (plain : List Bool) → AreOldest n (entries_in runs.old.items plain) }
    ensures unchanged { result ≡ false → runs.new ≡ runs.old }
    ensures capacity { runs.new.capacity ≡ runs.old.capacity }
{
    if plain_count(runs) < n {
        return false;
    }
    match runs.get_mut(0) {
        Some(run) => run.plain.drop_front(n),
        None => unreachable!(),
    }
    true
}

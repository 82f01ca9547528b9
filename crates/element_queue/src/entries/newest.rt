//! The newest end of the entries: what is appended to it, taken back from it and turned.
ghost use Rattle.std.specs.Prelude.{◌≡◌, ◌+◌, ◌≤◌, ◌<◌, ◌↔◌, [], ◌∷◌, ◌++◌, length, map, option_to_list};
ghost use Rattle.std.specs.Prelude.{IsSome, IsTrue, Some, false};
ghost use Rattle.etm_types.specs.Atoms.{atoms_in, most_atoms};
ghost use Rattle.etm_types.specs.declared.element.Thing.TheVariants.{Seen};
ghost use Rattle.spend_ring.specs.Ring.{newest};
ghost use Rattle.element_queue.specs.Kept.{AreNewest, entries_in, kept};
ghost use Rattle.element_queue.specs.Pending.{flip_newest};
ghost use Rattle.element_queue.specs.Queued.{plain_entry};

use crate::entries::{AtomsAndEntry, Entries};
use crate::plain_atoms::{MOST_PLAIN, PlainAtoms};
use crate::slot::Slot;
use etm_types::AtomRun;
use spend_ring::SpendRing;

impl Entries {
    /// Appends an entry. Where no more may be held the oldest is handed out first, and where none may be, the entry.
    #[inline(always)]
    pub(crate) fn push_back(&mut self, slot: Slot) -> Option<Slot>
        ensures order { option_to_list result ++ self.new.items ≡ self.old.items ++ slot ∷ [] }
        ensures full { IsSome result ↔ (length self.old.items ≡ self.old.capacity) }
        ensures newest { self.new.items ≡ newest self.old.capacity (self.old.items ++ slot ∷ []) }
        ensures bounded { length self.new.items ≤ self.new.capacity }
        ensures capacity { self.new.capacity ≡ self.old.capacity }
    {
        if self.has_room() {
            self.append(slot);
            return None;
        }
        match self.pop_front() {
            Some(oldest) => {
                self.append(slot);
                Some(oldest)
            }
            None => Some(slot),
        }
    }

    /// Whether one more may be held.
    #[inline(always)]
    fn has_room(&self) -> bool
        ensures room { IsTrue result ↔ (length self.now.items < self.now.capacity) }
        ensures bounded { length self.now.items ≤ self.now.capacity }
    {
        (self.count as usize) < self.runs.capacity()
    }

    /// Appends an entry, for which there is room.
    #[inline(always)]
    fn append(&mut self, slot: Slot)
        requires room { length self.old.items < self.old.capacity }
        ensures { self.new ≡ kept (self.old.items ++ slot ∷ []) self.old.capacity }
    {
        match slot.packed().plain_atom() {
            Some(taken) => {
                slot.take();
                self.append_plain(taken);
            }
            None => self.end_run(slot),
        }
    }

    /// Appends an atom before which nothing was given, for which there is room: as a bit, or where no more bits fit as the end of a run.
    #[inline(always)]
    fn append_plain(&mut self, taken: bool)
        requires room { length self.old.items < self.old.capacity }
        ensures { self.new ≡ kept (self.old.items ++ plain_entry taken ∷ []) self.old.capacity }
    {
        if self.plain.len() < MOST_PLAIN {
            self.plain.push(taken);
            self.count += 1;
        } else {
            self.end_run(Slot::from_atom(taken));
        }
    }

    /// Appends an entry of any kind, with which a run ends.
    fn end_run(&mut self, last: Slot)
        requires room { length self.old.items < self.old.capacity }
        ensures { self.new ≡ kept (self.old.items ++ last ∷ []) self.old.capacity }
    {
        put_behind(&mut self.runs, &mut self.plain, last);
        self.count += 1;
    }

    /// Takes the newest out.
    pub(crate) fn pop_back(&mut self) -> Option<Slot>
        ensures order { self.old.items ≡ self.new.items ++ option_to_list result }
        ensures empty { IsSome result ↔ (0 < length self.old.items) }
        ensures bounded { length self.new.items ≤ self.new.capacity }
        ensures capacity { self.new.capacity ≡ self.old.capacity }
    {
        if let Some(taken) = self.plain.pop_back() {
            self.count -= 1;
            return Some(Slot::from_atom(taken));
        }
        let AtomsAndEntry { plain, last } = self.runs.pop_back()?;
        std::mem::replace(&mut self.plain, plain).close();
        self.count -= 1;
        Some(last)
    }

    /// Whether the newest is an atom.
    pub(crate) fn newest_is_atom(&self) -> bool
        ensures { IsTrue result ↔ IsSome (flip_newest (map Seen self.now.items)) }
    {
        if self.plain.len() > 0 {
            return true;
        }
        ends_in_atom(&self.runs)
    }

    /// A mispredict: the newest, an atom, is the other one.
    pub(crate) fn flip(&mut self)
        requires atom { IsSome (flip_newest (map Seen self.old.items)) }
        ensures flipped { flip_newest (map Seen self.old.items) ≡ Some (map Seen self.new.items) }
        ensures count { length self.new.items ≡ length self.old.items }
        ensures capacity { self.new.capacity ≡ self.old.capacity }
    {
        match self.plain.pop_back() {
            Some(taken) => self.plain.push(!taken),
            None => flip_last(&mut self.runs),
        }
    }

    /// Takes so many of the newest out, where these are kept as bits behind all runs. Else nothing changes.
    #[inline(always)]
    pub(crate) fn drop_newest(&mut self, n: u32) -> bool
        ensures rest { IsTrue result → AreNewest n self.new.items self.old.items }
        ensures capacity { self.new.capacity ≡ self.old.capacity }
        ensures unchanged { result ≡ false → self.new ≡ self.old }
    {
        if self.plain.len() < n {
            return false;
        }
        self.plain.drop_back(n);
        self.count -= n;
        true
    }

    /// Appends the atoms of a run, before which nothing was given, for which there is room.
    #[inline(always)]
    pub(crate) fn append_run(&mut self, atoms: &AtomRun)
        requires few { atoms.now.count ≤ most_atoms }
        requires room { length self.old.items + atoms.now.count ≤ self.old.capacity }
        ensures { self.new ≡ kept (self.old.items ++ map plain_entry (atoms_in atoms.now)) self.old.capacity }
    {
        let count = u32::from(atoms.count);
        if self.plain.len() + count > MOST_PLAIN {
            return self.append_behind(atoms);
        }
        self.plain.push_run(atoms);
        self.count += count;
    }

    /// The same, where there may be no room among the bits: with the first of them a run ends.
    #[inline(never)]
    fn append_behind(&mut self, atoms: &AtomRun)
        requires some { 0 < atoms.now.count }
        requires few { atoms.now.count ≤ most_atoms }
        requires room { length self.old.items + atoms.now.count ≤ self.old.capacity }
        ensures { self.new ≡ kept (self.old.items ++ map plain_entry (atoms_in atoms.now)) self.old.capacity }
    {
        let first = Slot::from_atom(atoms.bits % 2 == 1);
        put_behind(&mut self.runs, &mut self.plain, first);
        let others = AtomRun {
            count: atoms.count - 1,
            bits: atoms.bits / 2,
        };
        self.plain.push_run(&others);
        self.count += u32::from(atoms.count);
    }
}

/// Appends an entry of any kind, with which a run ends: the bits before it go there.
#[inline(always)]
fn put_behind(runs: &mut SpendRing<AtomsAndEntry>, plain: &mut PlainAtoms, last: Slot)
    requires room { length runs.old.items < runs.old.capacity }
    ensures entries { entries_in runs.new.items plain.new ≡ entries_in runs.old.items plain.old ++ last ∷ [] }
    ensures bits { plain.new ≡ [] }
    ensures capacity { runs.new.capacity ≡ runs.old.capacity }
{
    let plain = std::mem::replace(plain, PlainAtoms::new());
    put(runs, AtomsAndEntry { plain, last });
}

/// Appends a run, where there is room for it.
#[inline(always)]
fn put(runs: &mut SpendRing<AtomsAndEntry>, run: AtomsAndEntry)
    requires room { length runs.old.items < runs.old.capacity }
    ensures items { runs.new.items ≡ runs.old.items ++ run ∷ [] }
    ensures capacity { runs.new.capacity ≡ runs.old.capacity }
{
    match runs.push_back(run) {
        None => (),
        Some(_) => unreachable!(),
    }
}

/// Whether the last entry of runs is an atom.
fn ends_in_atom(runs: &SpendRing<AtomsAndEntry>) -> bool
    ensures { IsTrue result ↔ IsSome (flip_newest (map Seen (entries_in runs.now.items []))) }
{
    let count = runs.len();
    if count == 0 {
        return false;
    }
    match runs.get(count - 1) {
        None => false,
        Some(run) => run.last.packed().is_atom(),
    }
}

/// The last entry of runs, an atom, is the other one.
fn flip_last(runs: &mut SpendRing<AtomsAndEntry>)
    requires atom { IsSome (flip_newest (map Seen (entries_in runs.old.items []))) }
    ensures flipped { flip_newest (map Seen (entries_in runs.old.items [])) ≡ Some (map Seen (entries_in runs.new.items [])) }
    ensures count { length (entries_in runs.new.items []) ≡ length (entries_in runs.old.items []) }
    ensures capacity { runs.new.capacity ≡ runs.old.capacity }
{
    if runs.len() == 0 {
        return;
    }
    if let Some(AtomsAndEntry { plain, mut last }) = runs.pop_back() {
        last.flip();
        put(runs, AtomsAndEntry { plain, last });
    }
}

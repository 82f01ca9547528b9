//! The entries that a queue holds: most of them as bits.
ghost use Rattle.std.specs.Prelude.{◌≡◌, ◌^◌, ◌≤◌, ◌<◌, ◌↔◌, Bool, List, [], ◌++◌, length, drop, map};
ghost use Rattle.std.specs.Prelude.{IfOk, IfSome, IsSome, IsTrue, false};
ghost use Rattle.etm_types.specs.Atoms.{atoms_in, low_bits, most_atoms};
ghost use Rattle.element_queue.specs.Kept.{AreOldest, kept};
ghost use Rattle.element_queue.specs.Queued.{plain_entry};

mod newest;
mod oldest;

use crate::plain_atoms::PlainAtoms;
use crate::slot::Slot;
use etm_types::AtomRun;
use spend_ring::SpendRing;
use std::alloc::{AllocError, Global};
use std::marker::Model;

/// Atoms before which nothing was given, and behind them an entry of any kind.
pub(crate) struct AtomsAndEntry {
    plain: PlainAtoms,
    last: Slot,
}

const _: () = prove!(size_of::<AtomsAndEntry>() == 48);

/// Entries, oldest first, at most so many as the capacity. Atoms before which nothing was given are kept as bits: those before another entry
/// with it, as a run, and the newest by themselves, at most 64 of each. It has no drop: `close` ends it.
pub(crate) struct Entries {
    runs: SpendRing<AtomsAndEntry>,
    plain: PlainAtoms,
    /// How many entries there are.
    count: u32,
}

impl Model for Entries {
    ghost use Rattle.std.specs.Prelude.{◌≡◌, ◌≤◌, ◌<◌, ◌^◌, length};
    ghost use Rattle.element_queue.specs.Kept.{Kept, entries_in, kept};

    ghost Value = { Kept };

    ghost view = { λ e. kept (entries_in e.runs.items e.plain) e.runs.capacity };

    ghost invariant = { λ e. (e.count ≡ length (entries_in e.runs.items e.plain)) × (e.count ≤ e.runs.capacity) × (e.runs.capacity < 2 ^ 32) };
}

impl Entries {
    /// None, and room for so many. The error means want of memory.
    pub(crate) fn with_capacity(alloc: Global, capacity: u32) -> Result<Entries, AllocError>
        ensures { IfOk result (λ e. e ≡ kept [] capacity) }
    {
        let runs = SpendRing::with_capacity(alloc, capacity as usize)?;
        Ok(Entries {
            runs,
            plain: PlainAtoms::new(),
            count: 0,
        })
    }

    /// The number of entries.
    #[inline(always)]
    pub(crate) fn len(&self) -> u32
        ensures len { result ≡ length self.now.items }
        ensures bounded { result ≤ self.now.capacity }
    {
        self.count
    }

    /// All of them, as bits and how many, where all are kept as bits.
    #[inline(always)]
    pub(crate) fn all_plain(&self) -> Option<(u64, u32)>
        ensures atoms { IfSome result (λ a. map plain_entry (low_bits a.1 a.0) ≡ self.now.items) }
        ensures bits { IfSome result (λ a. (a.1 ≤ 64) × (a.0 < 2 ^ a.1)) }
        ensures none { self.now.items ≡ [] → IsSome result }
    {
        if self.runs.len() > 0 {
            return None;
        }
        Some(self.plain.bits())
    }

    /// In the place of all of them, which must be atoms before which nothing was given, these are kept.
    #[inline(always)]
    pub(crate) fn become_plain(&mut self, bits: u64, count: u32)
        requires plain { (atoms : List Bool) × (map plain_entry atoms ≡ self.old.items) }
        requires bits { (count ≤ 64) × (bits < 2 ^ count) }
        requires few { count ≤ self.old.capacity }
        ensures { self.new ≡ kept (map plain_entry (low_bits count bits)) self.old.capacity }
    {
        if self.runs.len() > 0 {
            return self.replace_all(bits, count);
        }
        self.plain.replace(bits, count);
        self.count = count;
    }

    /// The same, where some may be kept in runs.
    #[inline(never)]
    fn replace_all(&mut self, bits: u64, count: u32)
        requires plain { (atoms : List Bool) × (map plain_entry atoms ≡ self.old.items) }
        requires bits { (count ≤ 64) × (bits < 2 ^ count) }
        requires few { count ≤ self.old.capacity }
        ensures { self.new ≡ kept (map plain_entry (low_bits count bits)) self.old.capacity }
    {
        while let Some(slot) = self.pop_back() {
            slot.take();
        }
        self.plain.replace(bits, count);
        self.count = count;
    }

    /// Takes as many of the oldest out as a run has atoms, where all of these are atoms before which nothing was given, and appends the atoms of the
    /// run, before which nothing was given either. Else nothing changes.
    #[inline(always)]
    pub(crate) fn rotate(&mut self, atoms: &AtomRun) -> bool
        requires few { atoms.now.count ≤ most_atoms }
        ensures rotated { IsTrue result
            → self.new ≡ kept (drop atoms.now.count self.old.items ++ map plain_entry (atoms_in atoms.now)) self.old.capacity }
        ensures oldest { IsTrue result ↔ AreOldest atoms.now.count self.old.items }
        ensures unchanged { result ≡ false → self.new ≡ self.old }
    {
        if !self.drop_plain(u32::from(atoms.count)) {
            return false;
        }
        self.append_run(atoms);
        true
    }

    /// Ends it, where no entry is left.
    pub(crate) fn close(self)
        requires empty { self.items ≡ [] }
    {
        let Entries {
            runs,
            plain,
            count: _,
        } = self;
        runs.close();
        plain.close();
    }
}

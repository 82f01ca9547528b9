//! The oldest atoms that are held, where an address may have been given before the first alone.
ghost use Rattle.std.specs.Prelude.{◌≡◌, ◌≤◌, ◌<◌, ◌+◌, ◌-◌, ◌∷◌, take};
ghost use Rattle.etm_types.specs.Atoms.{atoms_in, most_atoms};

use etm_types::{AtomRun, MOST_ATOMS};

/// How many atoms a run has at most behind its first.
const MOST_BEHIND: u8 = MOST_ATOMS as u8 - 1;

/// Atoms before the first of which nothing but an address was given, and nothing before the others.
#[derive(Clone, Copy, Debug, PartialEq, Eq)]
pub struct GivenAtoms {
    /// The address of the next instruction that was given before the first, where one was.
    pub addr: Option<u64>,
    /// The atoms: 1 to 24.
    pub atoms: AtomRun,
}

/// An atom, and those of a run behind it, as far as there are at most 24 in all.
#[inline(always)]
pub(crate) fn with_first(taken: bool, behind: &AtomRun) -> AtomRun
    requires few { behind.now.count ≤ most_atoms }
    ensures atoms { atoms_in result ≡ taken ∷ take (result.count - 1) (atoms_in behind.now) }
    ensures some { 0 < result.count }
    ensures most { result.count ≤ most_atoms }
    ensures within { result.count ≤ behind.now.count + 1 }
    ensures all { result.count < most_atoms → result.count ≡ behind.now.count + 1 }
{
    let others = behind.count.min(MOST_BEHIND);
    let bits = behind.bits % (1 << others);
    AtomRun {
        count: others + 1,
        bits: bits * 2 + u32::from(taken),
    }
}

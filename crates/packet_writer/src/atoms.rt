//! Atoms (Arm IHI 0064, "Mispredict packet", "Cancel Format 2 packet", "Atom Format 1 packet" to "Atom Format 6 packet").
ghost use Rattle.std.specs.Prelude.{◌≡◌, ◌↔◌, ◌≤◌, ℕ, IsTrue};
ghost use Rattle.etm_types.specs.Atoms.{IsAtomRun, IsFewAtoms, atoms_in};
ghost use Rattle.atom_formats.specs.Formats.{Spells};
ghost use Rattle.packet_writer.specs.Atoms.{few, run_byte};

use atom_formats::atoms_of;
use etm_types::{AtomRun, FewAtoms};
use packet_grammar::headers::{ATOMS, LAST_ATOMS};

/// Bits 1 and 0 (A) of a header: no atom, E, EE, N.
pub fn few(atoms: &FewAtoms) -> u8
    requires { IsFewAtoms atoms.now }
    ensures value { result ≡ few atoms.now }
    ensures two_bits { result ≤ 3 }
{
    match (atoms.count, atoms.first) {
        (0, _) => 0,
        (count, true) => count,
        (_, false) => 3,
    }
}

/// The byte of a run of atoms that one byte tells. It tries the 64 bytes one by one; a trace unit, which writes many, has the byte of
/// [`crate::longest_front`].
pub fn byte_of(run: &AtomRun) -> u8
    requires fits { IsAtomRun run.now }
    requires told { (byte : ℕ) × Spells byte (atoms_in run.now) }
    ensures { result ≡ run_byte run.now }
{
    for byte in ATOMS..=LAST_ATOMS {
        if tells(byte, run) {
            return byte;
        }
    }
    unreachable!()
}

/// Whether a byte tells a run of atoms.
fn tells(byte: u8, run: &AtomRun) -> bool
    requires { IsAtomRun run.now }
    ensures { IsTrue result ↔ Spells byte (atoms_in run.now) }
{
    match atoms_of(byte) {
        Some(found) => found == *run,
        None => false,
    }
}

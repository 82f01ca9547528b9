//! The letters of atoms, put straight to their places in a text.
ghost use Rattle.std.specs.Prelude.{◌≡◌, ◌+◌, ◌∷◌, ◌++◌, ◌≤◌, [], map, length, take, drop};
ghost use Rattle.etm_types.specs.Atoms.{low_bits, most_atoms};
ghost use Rattle.path_text.specs.PacketLines.{letter, atoms_text};

use etm_types::AtomRun;

/// The letters of each four atoms, by their bits, of which bit 0 is the oldest: E for 1.
const FOURS: [u8; 64] = *b"NNNNENNNNENNEENNNNENENENNEENEEENNNNEENNENENEEENENNEEENEENEEEEEEE";

/// The letters of the four atoms in the lowest bits of a number.
#[inline(always)]
fn four(bits: u32) -> [u8; 4]
    ensures { result ≡ map letter (low_bits 4 bits) }
{
    let at = 4 * (bits % 16) as usize;
    [FOURS[at], FOURS[at + 1], FOURS[at + 2], FOURS[at + 3]]
}

/// Puts the letters of the four atoms in the lowest bits of a number.
#[inline(always)]
fn put_four(bits: u32, text: &mut [u8], at: usize)
    requires { at + 4 ≤ length text.old }
    ensures { text.new ≡ take at text.old ++ (map letter (low_bits 4 bits) ++ drop (at + 4) text.old) }
{
    let [first, second, third, fourth] = four(bits);
    text[at] = first;
    text[at + 1] = second;
    text[at + 2] = third;
    text[at + 3] = fourth;
}

/// Puts the letters of a run of atoms from `start` on, the oldest first. Four at a time are put, and always as many as
/// the longest run has, since a test for the end would cost more: so what follows the run is no letter of it.
#[inline(always)]
pub fn put_atoms(run: &AtomRun, text: &mut [u8], start: usize)
    requires room { start + most_atoms ≤ length text.old }
    requires most { run.now.count ≤ most_atoms }
    ensures len { length text.new ≡ length text.old }
    ensures letters { take (start + run.now.count) text.new ≡ take start text.old ++ atoms_text run.now }
{
    let mut rest = run.bits;
    for four in 0..6 {
        put_four(rest, text, start + 4 * four);
        rest /= 16;
    }
}

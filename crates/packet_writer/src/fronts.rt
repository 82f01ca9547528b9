//! The longest front of a list of atoms that one packet holds (Arm IHI 0064, "Atom Format 1 packet" to "Atom Format 6
//! packet").
ghost use Rattle.std.specs.Prelude.{◌≡◌, ◌<◌, ◌≤◌, ℕ, length, not, position};
ghost use Rattle.etm_types.specs.Atoms.{most_atoms};
ghost use Rattle.packet_writer.specs.Front.{SpellsFront};

use etm_types::MOST_ATOMS;

/// How many E stand first in a packet of format 6: as many as its COUNT says, and three.
const LEAST_TAKEN: usize = 3;

/// The packets of format 6 with a COUNT of 0, which end with E and with N.
const EEEE: u8 = 0xc0;

const EEEN: u8 = 0xe0;

/// How many atoms a row of [`ROWS`] tells at most. A packet of more has format 6.
const MOST_IN_ROW: usize = 5;

/// The packet of the longest front of each list of at most five atoms, and how many of them it has. The number of a row is
/// a one and then the atoms, oldest first, of which E is 1. Behind each row stand its atoms, and those that are left.
const ROWS: [(u8, u8); 64] = [
    // No atoms have no packet.
    (0, 0),
    (0, 0),
    // One atom.
    (0xf6, 1), // N
    (0xf7, 1), // E
    // Two atoms.
    (0xd8, 2), // NN
    (0xda, 2), // NE
    (0xd9, 2), // EN
    (0xdb, 2), // EE
    // Three atoms.
    (0xf8, 3), // NNN
    (0xfc, 3), // NNE
    (0xfa, 3), // NEN
    (0xfe, 3), // NEE
    (0xf9, 3), // ENN
    (0xfd, 3), // ENE
    (0xfb, 3), // EEN
    (0xff, 3), // EEE
    // Four atoms.
    (0xdd, 4), // NNNN
    (0xf8, 3), // NNN E
    (0xfc, 3), // NNE N
    (0xfc, 3), // NNE E
    (0xfa, 3), // NEN N
    (0xde, 4), // NENE
    (0xfe, 3), // NEE N
    (0xdc, 4), // NEEE
    (0xf9, 3), // ENN N
    (0xf9, 3), // ENN E
    (0xdf, 4), // ENEN
    (0xfd, 3), // ENE E
    (0xfb, 3), // EEN N
    (0xfb, 3), // EEN E
    (0xe0, 4), // EEEN
    (0xc0, 4), // EEEE
    // Five atoms.
    (0xd5, 5), // NNNNN
    (0xdd, 4), // NNNN E
    (0xf8, 3), // NNN EN
    (0xf8, 3), // NNN EE
    (0xfc, 3), // NNE NN
    (0xfc, 3), // NNE NE
    (0xfc, 3), // NNE EN
    (0xfc, 3), // NNE EE
    (0xfa, 3), // NEN NN
    (0xfa, 3), // NEN NE
    (0xd6, 5), // NENEN
    (0xde, 4), // NENE E
    (0xfe, 3), // NEE NN
    (0xfe, 3), // NEE NE
    (0xdc, 4), // NEEE N
    (0xf5, 5), // NEEEE
    (0xf9, 3), // ENN NN
    (0xf9, 3), // ENN NE
    (0xf9, 3), // ENN EN
    (0xf9, 3), // ENN EE
    (0xdf, 4), // ENEN N
    (0xd7, 5), // ENENE
    (0xfd, 3), // ENE EN
    (0xfd, 3), // ENE EE
    (0xfb, 3), // EEN NN
    (0xfb, 3), // EEN NE
    (0xfb, 3), // EEN EN
    (0xfb, 3), // EEN EE
    (0xe0, 4), // EEEN N
    (0xe0, 4), // EEEN E
    (0xe1, 5), // EEEEN
    (0xc1, 5), // EEEEE
];

/// The same rows as a table in memory, so that a look-up does not make them anew.
static FRONTS: [(u8, u8); 64] = ROWS;

/// The atom packet of the longest front of the atoms, oldest first, that one packet holds, and how many
/// atoms it has. It looks at no more than 24 atoms, and at each of these once or twice.
pub fn longest_front(atoms: &[bool]) -> (u8, usize)
    requires { 0 < length atoms.now }
    ensures front { SpellsFront atoms.now result.0 result.1 }
    ensures longest { (byte n : ℕ) → SpellsFront atoms.now byte n → n ≤ result.1 }
    ensures within { (1 ≤ result.1) × (result.1 ≤ most_atoms) }
{
    let most = atoms.len().min(MOST_ATOMS);
    let front = &atoms[..most];
    let taken = first_not_taken(front).unwrap_or(most);
    if most <= MOST_IN_ROW || taken < LEAST_TAKEN {
        let few = most.min(MOST_IN_ROW);
        return front_of_few(&front[..few]);
    }
    if taken < most {
        (EEEN + (taken - LEAST_TAKEN) as u8, taken + 1)
    } else {
        (EEEE + (taken - LEAST_TAKEN - 1) as u8, taken)
    }
}

/// Where the first N stands.
fn first_not_taken(atoms: &[bool]) -> Option<usize>
    ensures { result ≡ position (λ atom. not atom) atoms.now }
{
    atoms.iter().position(|atom| !*atom)
}

/// The atom packet of the longest front of at most five atoms, and how many of them it has.
fn front_of_few(atoms: &[bool]) -> (u8, usize)
    requires some { 0 < length atoms.now }
    requires few { length atoms.now ≤ 5 }
    ensures front { SpellsFront atoms.now result.0 result.1 }
    ensures longest { (byte n : ℕ) → SpellsFront atoms.now byte n → n ≤ result.1 }
{
    let mut row = 1;
    for atom in atoms {
        row = row * 2 + usize::from(*atom);
    }
    let (byte, count) = FRONTS[row];
    (byte, usize::from(count))
}

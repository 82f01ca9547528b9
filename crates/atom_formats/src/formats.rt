//! The table of the atom packets.
ghost use Rattle.std.specs.Prelude.{◌≡◌, ◌<◌, ◌↔◌, None, IfSome};
ghost use Rattle.etm_types.specs.Atoms.{IsAtomRun, atoms_in};
ghost use Rattle.atom_formats.specs.Formats.{Spells};

use etm_types::AtomRun;

/// The first byte that is an atom packet. All from here on are.
const FIRST: u8 = 0xc0;

/// The atoms of each byte from 0xc0 on: how many, and their bits, of which bit 0 is the oldest atom and 1 is E. So a
/// row's number reads from the right.
const ROWS: [(u8, u32); 64] = [
    // 0xc0 to 0xd4, format 6: E three times and as often as bits 4 to 0 (COUNT) say, and then E.
    (4, 0b1111),
    (5, 0b1_1111),
    (6, 0b11_1111),
    (7, 0b111_1111),
    (8, 0b1111_1111),
    (9, 0b1_1111_1111),
    (10, 0b11_1111_1111),
    (11, 0b111_1111_1111),
    (12, 0b1111_1111_1111),
    (13, 0b1_1111_1111_1111),
    (14, 0b11_1111_1111_1111),
    (15, 0b111_1111_1111_1111),
    (16, 0b1111_1111_1111_1111),
    (17, 0b1_1111_1111_1111_1111),
    (18, 0b11_1111_1111_1111_1111),
    (19, 0b111_1111_1111_1111_1111),
    (20, 0b1111_1111_1111_1111_1111),
    (21, 0b1_1111_1111_1111_1111_1111),
    (22, 0b11_1111_1111_1111_1111_1111),
    (23, 0b111_1111_1111_1111_1111_1111),
    (24, 0b1111_1111_1111_1111_1111_1111),
    // 0xd5 to 0xd7, format 5: NNNNN, NENEN, ENENE.
    (5, 0b0_0000),
    (5, 0b0_1010),
    (5, 0b1_0101),
    // 0xd8 to 0xdb, format 2: bit 0 is the older atom.
    (2, 0b00),
    (2, 0b01),
    (2, 0b10),
    (2, 0b11),
    // 0xdc to 0xdf, format 4: NEEE, NNNN, NENE, ENEN.
    (4, 0b1110),
    (4, 0b0000),
    (4, 0b1010),
    (4, 0b0101),
    // 0xe0 to 0xf4, format 6: E three times and as often as COUNT says, and then N.
    (4, 0b0111),
    (5, 0b0_1111),
    (6, 0b01_1111),
    (7, 0b011_1111),
    (8, 0b0111_1111),
    (9, 0b0_1111_1111),
    (10, 0b01_1111_1111),
    (11, 0b011_1111_1111),
    (12, 0b0111_1111_1111),
    (13, 0b0_1111_1111_1111),
    (14, 0b01_1111_1111_1111),
    (15, 0b011_1111_1111_1111),
    (16, 0b0111_1111_1111_1111),
    (17, 0b0_1111_1111_1111_1111),
    (18, 0b01_1111_1111_1111_1111),
    (19, 0b011_1111_1111_1111_1111),
    (20, 0b0111_1111_1111_1111_1111),
    (21, 0b0_1111_1111_1111_1111_1111),
    (22, 0b01_1111_1111_1111_1111_1111),
    (23, 0b011_1111_1111_1111_1111_1111),
    (24, 0b0111_1111_1111_1111_1111_1111),
    // 0xf5, format 5: NEEEE.
    (5, 0b1_1110),
    // 0xf6 and 0xf7, format 1: bit 0 is the atom.
    (1, 0b0),
    (1, 0b1),
    // 0xf8 to 0xff, format 3: bit 0 is the oldest atom.
    (3, 0b000),
    (3, 0b001),
    (3, 0b010),
    (3, 0b011),
    (3, 0b100),
    (3, 0b101),
    (3, 0b110),
    (3, 0b111),
];

/// The same rows as a table in memory, so that a look-up does not make them anew.
static RUNS: [(u8, u32); 64] = ROWS;

/// The atoms of a byte that is an atom packet: 0xc0 or above. They are looked up, since branches on a byte that no
/// processor foresees would cost more than all else here.
#[inline]
pub fn atoms_of(byte: u8) -> Option<AtomRun>
    ensures none { (result ≡ None) ↔ (byte < 0xc0) }
    ensures run { IfSome result (λ run. Spells byte (atoms_in run)) }
    ensures within { IfSome result (λ run. IsAtomRun run) }
{
    let row = byte.checked_sub(FIRST)?;
    let (count, bits) = RUNS[usize::from(row)];
    Some(AtomRun { count, bits })
}

//! Runs of atoms, as packets carry them (Arm IHI 0064, atom, mispredict and cancel packets).
//!
//! An atom is E, a branch that was taken, or N, a branch that was not.

/// The most atoms that one packet has.
pub const MOST_ATOMS: usize = 24;

/// The atoms of an atom packet, 1 to 24 of them.
#[derive(Clone, Copy, Debug, PartialEq, Eq)]
pub struct AtomRun {
    /// How many atoms there are.
    pub count: u8,
    /// Bit i is atom i, oldest first: 1 for E. The bits from `count` on are 0.
    pub bits: u32,
}

/// The atoms of a mispredict or cancel packet: none, E, EE or N.
#[derive(Clone, Copy, Debug, PartialEq, Eq)]
pub struct FewAtoms {
    /// How many atoms there are: 0, 1 or 2.
    pub count: u8,
    /// Whether the atoms are E. Where there is none it is `false`.
    pub first: bool,
}

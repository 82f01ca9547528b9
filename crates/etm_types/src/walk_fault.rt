//! Faults of the walk of a P0 element over the program's image.

/// Why a walk does not go on. An address alone is that at which it stops.
#[derive(Clone, Copy, Debug, PartialEq, Eq)]
pub enum WalkFault {
    /// The trace gives another address than the walk led to.
    AddressMismatch { known: u64, given: u64 },
    /// The image has no instruction here.
    NoCode(u64),
    /// The instruction here is none that can be followed.
    Odd(u64),
    /// The P0 instruction here is always taken, and its atom is N.
    BadAtom(u64),
    /// A P0 instruction stands here, before the preferred return address of the exception.
    ReturnMissed { addr: u64, ret: u64 },
}

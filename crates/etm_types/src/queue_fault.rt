//! Faults of the P0 elements that are not committed yet (Arm IHI 0064, speculation elements).

/// Why an element does not fit the P0 elements that are held: those traced and not committed yet.
#[derive(Clone, Copy, Debug, PartialEq, Eq)]
pub enum QueueFault {
    /// More are committed than are held.
    CommitOverrun { asked: u32, held: u32 },
    /// More are cancelled than are held.
    CancelOverrun { asked: u32, held: u32 },
    /// A mispredict came where the newest of those held is no atom, or none is held.
    NoAtomToFlip { held: u32 },
    /// Trace info gives a speculation depth above the maximum.
    SpecTooDeep { spec: u32, depth: u32 },
}

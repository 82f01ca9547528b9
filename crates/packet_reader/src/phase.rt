//! Where in its stream a reader is.

use crate::state::State;

/// What a reader does with the next byte.
#[derive(Clone, Copy, Debug, PartialEq, Eq)]
pub enum Phase {
    /// It looks for an A-sync. The bytes end in so many 00; eleven stands for more, too.
    Hunting { zeros: u8 },
    /// It takes it as a header.
    Between,
    /// It takes it as the next byte of the begun packet.
    Within { state: State },
    /// It stopped at a fault.
    Failed,
}

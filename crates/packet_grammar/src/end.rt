//! How the trace of a stream ends.

use crate::Fault;

/// How a stream ends.
#[derive(Clone, Copy, Debug, PartialEq, Eq)]
pub enum End {
    /// After a packet.
    Clean,
    /// Within a packet, of which so many bytes are there.
    Cut(u64),
    /// No A-sync was found.
    NoSync,
    /// With a fault at the packet that begins at this offset.
    Fault { at: u64, fault: Fault },
}

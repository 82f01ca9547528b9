//! Why the trace of a stream is not understood further.

use crate::PacketFault;
use etm_types::{QueueFault, WalkFault};

/// A fault of a stream, by the step of the reader that meets it.
#[derive(Clone, Copy, Debug, PartialEq, Eq)]
pub enum Fault {
    /// The bytes are no packet.
    Packet(PacketFault),
    /// The packet after an exception packet is none that may come before the exception's address.
    AddressAwaited,
    /// The element does not fit the P0 elements that are held.
    Queue(QueueFault),
    /// The walk over the image does not go on.
    Walk(WalkFault),
}

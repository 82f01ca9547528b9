//! What a byte brings.

use packet_grammar::{Packet, PacketFault};

/// The answer to a byte.
#[derive(Clone, Copy, Debug, PartialEq, Eq)]
pub enum Step {
    /// No A-sync was found yet.
    Skipped,
    /// The bytes since the last whole packet begin a spelling.
    More,
    /// The byte ends a packet.
    Whole {
        /// The offset of the packet's first byte in the stream.
        at: u64,
        /// What it is.
        packet: Packet,
    },
    /// The byte shows a fault. Nothing is read any more.
    Bad {
        /// The offset of the first byte of what is no packet.
        at: u64,
        /// What is wrong.
        fault: PacketFault,
    },
    /// A fault was shown before.
    Stopped,
}

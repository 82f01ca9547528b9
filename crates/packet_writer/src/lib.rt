//! A writer of packets (Arm IHI 0064, "Descriptions of Trace Packets").
//!
//! [`write_packet`] writes the shortest spelling of a packet. Which bytes these are is a program over lists
//! in `specs/Spelling.antt`, one row for each kind of packet; the layer above says by it what a trace unit
//! writes. That these bytes spell the packet, and that none that do are fewer, is the contract of
//! [`each_packet_has_its_bytes`], and what a reader finds in packets that were written one after the other
//! that of [`written_packets_are_read`].
//!
//! A trace unit writes the atoms that it holds as the byte of [`longest_front`], and goes on after the atoms of that byte.
#![tactic(auto)]

mod atoms;
mod buffer;
mod contexts;
mod fronts;
mod laws;
mod numbers;
mod packet;

pub use buffer::PACKET_ROOM;
pub use fronts::longest_front;
pub use laws::{each_packet_has_its_bytes, written_packets_are_read};
pub use packet::write_packet;

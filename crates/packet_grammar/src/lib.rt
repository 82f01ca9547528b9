//! The packets of an ETMv4 trace and their spellings (Arm IHI 0064, "Descriptions of Trace Packets").
//!
//! There is no code here. The crate has the types of packets, the names of their [`headers`], the types of the faults that bytes can
//! show, of all faults of a stream, [`Fault`], and of how a stream ends, [`End`]. Its definitions say which bytes
//! spell which packet, which show which fault, and how a stream parses.
//! A reader and a writer of packets promise what they do in these terms. The laws that both build on
//! are the contracts of [`spellings_are_told_apart`], [`bytes_spell_or_begin`],
//! [`spellings_are_short`], [`spelled_values_are_in_range`], [`a_stream_parses_in_one_way`],
//! [`a_stream_goes_on_by_one_spelling`], [`a_longer_stream_begins_alike`] and [`each_sync_is_a_packet`].
#![tactic(auto)]

mod end;
mod fault;
pub mod headers;
mod laws;
mod packet;
mod stream_fault;

pub use end::End;
pub use fault::{PacketFault, RefusedKind};
pub use laws::{
    a_longer_stream_begins_alike, a_stream_goes_on_by_one_spelling, a_stream_parses_in_one_way,
    bytes_spell_or_begin, each_sync_is_a_packet, spelled_values_are_in_range, spellings_are_short,
    spellings_are_told_apart,
};
pub use packet::Packet;
pub use stream_fault::Fault;

//! The packets of a stream, a line each: what `etm packets` prints.
//!
//! A [`PacketStream`] is a stream for `capture_streams`: with each byte it writes the line of the packet that ends there, and at the end how
//! the stream ends. Bytes that hold whole packets of the usual kinds are taken together.
//!
//! The layer above uses that it is a `Stream` whose listing is `packet_lists` (`specs/PacketList.antt`), and two laws: the lines of the
//! packets of a stream are settled by its bytes, and so is the text of an input, in which each source has the lines of its own bytes.
#![tactic(auto)]

mod laws;
mod packet_list;

pub use laws::{packets_have_one_list, packets_have_one_text};
pub use packet_list::PacketStream;

//! A reader of packets that takes one byte at a time (Arm IHI 0064, "Descriptions of Trace Packets").
//!
//! [`PacketReader`] keeps what the bytes of the begun packet hold so far, and not the bytes: each byte is
//! looked at a single time, and changes what is kept where it is. The layer above uses the contract of [`PacketReader::take`]: from a list of bytes the
//! reader comes to stand at that list and the byte, and answers what the parse of the stream gains. That
//! each answer comes exactly there is the contract of [`each_byte_has_its_answer`], and what the answers
//! are as a whole that of [`the_answers_are_the_parse`].
#![tactic(auto)]

mod advance;
mod fields;
mod front;
mod groups;
mod headers;
mod laws;
mod part;
mod phase;
mod reader;
mod state;
mod step;
mod sync;

pub use front::{Address, near_address_at};
pub use laws::{each_byte_has_its_answer, each_spelling_is_told, the_answers_are_the_parse};
pub use reader::PacketReader;
pub use step::Step;

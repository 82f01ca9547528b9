//! Which committed P0 element has which timestamp, and when events came (Arm IHI 0064, "Timestamp packet", "Event packet", "Commit
//! packet"): what `etm times` prints.
//!
//! A timestamp that a trace shows says when it was written, and under speculation a P0 element is written long before it is settled. So an
//! element goes with the timestamp at its packet until it is committed, and gets its number then; what is cancelled or lost goes with its
//! own. Nothing is walked, so no image is needed.
//!
//! The layers above use these contracts:
//! - [`TimesDemux`]: a printer, the `Demux` of `capture_streams` with a [`TimedDecoder`] for each stream; its listing is `times`
//!   (`specs/TimeList.antt`).
//! - [`TimedDecoder`], on which it stands, a `Stream`: it takes a byte a call, and writes the lines that the byte adds.
//! - the laws: [`times_have_one_text`], of any input; [`marks_are_those_of_p0_elements`], that each P0 element has the mark of its own
//!   packet; and [`times_number_what_a_path_shows`], that what has a number is what `path` shows, with the timestamp of its own packet.
//!
//! The definition is `specs/Times.antt`: what the packets of a stream come to, one after the other. Of the code a `MarkedQueue` holds the
//! P0 elements and their `Marks`, a `Timeline` goes through the elements of a packet, and a `Timing` writes. Packets that are `Frequent` go a
//! short way.
//!
//! All memory is taken by the two `new`.
#![tactic(auto)]

mod decoder;
mod frequent;
mod laws;
mod marked;
mod marks;
mod shown;
mod stamp;
mod streams;
mod time_line;
mod timeline;
mod timing;

pub use decoder::TimedDecoder;
pub use laws::{
    marks_are_those_of_p0_elements, times_have_one_text, times_number_what_a_path_shows,
};
pub use streams::TimesDemux;

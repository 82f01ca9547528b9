//! The traces of streams, woven into frames (Arm CoreSight architecture, IHI 0029, the trace formatter).
//!
//! A [`Trace`] is what the trace unit of a stream wrote, with the stream's ID. [`write_woven`] takes bytes of the traces as the weave lines
//! of a run file say, then what is left of each, and writes the frames of all of them.
//!
//! The layer above uses that these are the frames of the bytes in this order (`woven`, `specs/Woven.antt`), and the law that each stream
//! comes out whole and in its own order, and nothing else does.
#![tactic(auto)]

mod laws;
mod weaving;

pub use laws::each_stream_is_woven_whole;
pub use weaving::{Trace, write_woven};

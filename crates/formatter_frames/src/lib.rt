//! Trace formatter frames: sixteen bytes that carry the trace of many sources over one port (Arm
//! CoreSight architecture, IHI 0029, the trace formatter).
//!
//! A frame carries fifteen symbols, each a new ID or a data byte of the ID that holds. Which symbols
//! sixteen bytes mean is said once, and both directions stand on it.
//!
//! The layers above use these contracts:
//! - [`unpack`]: the data bytes of one frame, each with its ID, and the ID that holds after it.
//! - [`FrameReader`]: the same of frames that come by pieces.
//! - [`FrameWriter`]: the frames of the pairs of ID and byte that are pushed, one after the other.
//! - the laws: what unframing gives of framed pairs, and how it goes on from frame to frame.
#![tactic(auto)]

mod frame;
mod laws;
mod reader;
mod symbol;
mod unpacked;
mod writer;

pub use frame::FRAME_BYTES;
pub use laws::{framed_pairs_come_back, unframing_goes_on};
pub use reader::FrameReader;
pub use unpacked::{FrameBytes, unpack};
pub use writer::FrameWriter;

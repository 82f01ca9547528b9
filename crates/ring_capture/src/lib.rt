//! Capture buffers that were written round (Arm IHI 0029, the trace formatter).
//!
//! A trace buffer is a ring. Once it is full, the newest frame is written over the oldest, so that what is read of it begins in the
//! middle of a trace, and its oldest frame may stand anywhere in it. What the end of a trace still tells is a law of `late_reader`.
//!
//! The layers above use these contracts:
//! - [`WrappedDemux`]: a printer, as a `Demux` is, of a buffer whose oldest frame is one of the later ones. The lines of the frames from
//!   that one on come with the bytes, those of the first ones at the end, and then those of the ends.
//! - [`Unwrap`], on which it stands: the frames of such a buffer in their order, with the first ones kept. It takes a byte a call, and
//!   copies it once.
//! - [`last_frames`]: the last frames of a capture, as they are left in a buffer of so many.
//! - the laws: [`the_last_frames_carry_the_last_bytes`], of any bytes, and [`a_buffer_is_read_from_its_oldest_frame`].
//!
//! All memory is taken by the two `new`.
#![tactic(auto)]

mod last;
mod laws;
mod unwrap;
mod wrapped;

pub use last::last_frames;
pub use laws::{a_buffer_is_read_from_its_oldest_frame, the_last_frames_carry_the_last_bytes};
pub use unwrap::{MOST_FRAMES, Unwrap};
pub use wrapped::WrappedDemux;

//! From an input to the lines of its streams: formatter frames of up to 111 trace sources (Arm CoreSight
//! architecture, IHI 0029, the trace formatter), or one stream that is not framed.
//!
//! A [`Stream`] is one stream, whatever is printed of it: the lines that it gains by a byte, and how it ends.
//! A stream decoder, which prints a path, is one. `Sources` has a stream for each source and finds it by its
//! ID, in one step a byte. What is printed of bytes with their IDs is defined once, for any stream: the lines
//! that the bytes add, in order, then those of the ends, by ID, and last that of a frame that is cut.
//! Each stream has the sizes of its own trace unit: `new` takes a table of settings by ID, and all that is said of many
//! streams is said of the sizes by ID (`by_sizes`, in specs).
//!
//! The layer above uses these contracts:
//! - [`Demux`]: from the bytes of frames at which it stands it comes to those and a piece more, and writes the
//!   lines that the piece adds; `finish` writes the last lines. Bytes of the null ID and of reserved IDs add none.
//! - [`RawStream`]: the same of one stream that is not framed, under the ID 01.
//! - [`Printer`]: what the two have in common, however an input is laid out. `Laid` says which pairs of ID and byte
//!   come with its bytes, which of them come at its end, and how many bytes of a frame are left over.
//! - the laws: an input has one text of its paths, what is printed before the ends begins with what is printed of
//!   each front of the input, and the lines of a source are those of its own bytes, whatever other streams hold.
//!
//! All memory is taken by `new`: no more P0 elements of a stream are held than the depth that its sizes give, and each call says so.
//! Code without `unsafe` can't forget a `Demux` or a `RawStream`: each ends by `finish`, `close` or `abandon`, and the
//! streams in it by `finish` or `abandon`. Only `spend_ring` has any `unsafe`.
#![tactic(auto)]

mod demux;
mod laws;
mod paths;
mod printer;
mod raw;
mod sources;
mod stream;

pub use demux::Demux;
pub use laws::{
    a_body_grows, a_stream_is_alone, a_text_is_one, bytes_are_parted, paths_have_one_text,
};
pub use printer::Printer;
pub use raw::RawStream;
pub use stream::Stream;

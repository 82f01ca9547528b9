//! How often each word of an image stands in the paths of all streams of an input (Arm IHI 0064), and where their branches to a register
//! went, printed once no byte more comes.
//!
//! A [`CountStream`] is a stream of `capture_streams` that gives the items of its path to [`PathCounts`], the sum of all streams.
//! No line comes with a byte, and how a stream ends is printed as of its path. A branch and the place that it went to are items of one
//! stream, whatever came of others between them.
//!
//! The layer above uses its contract as a `Stream`: its listing is `counted`, in specs. All memory is taken before the first byte.
//!
//! The laws: an input has one text of its counts; the counts are the sums of those of its streams, each by the path of its own bytes;
//! they never fall as bytes come; and that of an address or a mark is the number of lines that are it where the paths are printed.
#![tactic(auto)]

mod branches;
mod count_stream;
mod counts;
mod laws;

pub use count_stream::CountStream;
pub use counts::PathCounts;
pub use laws::{
    addresses_are_counted_by_their_lines, counts_have_one_text, counts_never_fall_with_bytes,
    each_stream_is_counted, only_words_are_counted,
};

//! Run files: what the cores of some streams do, in text.
//!
//! A text begins with `etm 1` or `etm 2`, then come settings of the trace units, then streams, each with its event lines, and then weaves,
//! which say how the bytes of the streams follow one another in frames. In `etm 2` a stream may have settings of its own.
//! `docs/FORMATS.md`, "Run files", has all lines.
//!
//! The layer above uses this contract: [`Bench::read`] gives the parts that a text says, or its first line that has a fault.
//! Which event a run refuses is told by its definition here, and found by running it.
#![tactic(auto)]

mod bench;
mod draft;
mod event_line;
mod fault;
mod given;
mod laws;
mod line;
mod place;
mod setting;
mod streams;
mod version;
mod weave_line;
mod words;

pub use bench::Bench;
pub use fault::{BenchFault, BenchWhy};
pub use laws::{repeated_lines_are_written_out, streams_are_run_in_order, texts_say_run_files};
pub use line::{BenchLine, Weave};

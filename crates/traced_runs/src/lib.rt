//! What becomes of a run file in trace units: the frames of its traces, and the test of both ends.
//!
//! [`trace_input`] traces each stream of a run file by a trace unit, in memory, and then writes the traces woven into frames, or the last of
//! these frames, with synchronisation packets among them where these are asked for: the command `trace`. [`test_number`] does that of a run
//! file that it makes from a number, reads the frames again as `path` does, and prints how many lines their paths have: the command
//! `selftest`.
//!
//! The layer above uses their contracts, `TracesSo` and `TestsSo` (`specs/Traced.antt`, `specs/Selftest.antt`), a row for each answer, and
//! the law that the frames show the retired path of each stream.
#![tactic(auto)]

mod laws;
mod selftest;
mod traced;

pub use laws::traced_streams_show_their_retired_paths;
pub use selftest::test_number;
pub use traced::trace_input;

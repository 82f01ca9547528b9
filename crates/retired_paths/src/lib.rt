//! A run file that is read, and the paths that its streams retire: what `etm retired` prints.
//!
//! [`read_bench`] reads the text of a run file, and [`refuse`] answers one that is bad. [`retire_input`] does the whole command: it runs all
//! events over the image to see whether each is accepted, and then once more to print what is retired, stream by stream. So nothing is
//! printed of a run file that is bad.
//!
//! The layer above uses the contract of `retire_input`, `RetiresSo` (`specs/Retired.antt`), a row for each answer; and what traces a run
//! file uses the other two, and that events are run line by line (`specs/Retiring.antt`).
#![tactic(auto)]

mod bench_input;
mod retired;
mod retiring;

pub use bench_input::{Unread, read_bench, refuse};
pub use retired::retire_input;

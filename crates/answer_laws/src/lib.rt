//! What the answers of calls come to, as laws over the contract of `run`: what `path` prints, or counts, of what was traced; what is
//! answered where image and input are good and no call failed; and, joined of these, that what `trace` wrote is read back by `path`, the
//! promise of the whole program.
//!
//! There is no code here. The definition of each answer stands in `specs/Answers.antt` of `trace_cmd`.
#![tactic(auto)]

mod laws;
mod read_back;

pub use laws::{
    counts_are_those_of_what_was_traced, good_input_is_answered, path_prints_what_was_traced,
};
pub use read_back::what_was_traced_is_read_back;

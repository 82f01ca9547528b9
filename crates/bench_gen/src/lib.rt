//! An image and a run file that are made from a number, so that what writes trace and what reads it can be held
//! against each other at any size.
//!
//! The image is a loop with one conditional branch, and an exception return apart from it. The run file has up to 111
//! streams, each a core that goes round the loop and decides the branch by the bits of a state, wrongly first where it
//! is mispredicted; and then a weave line for each round. `docs/FORMATS.md`, "The image" and "Run files", says what the
//! lines mean.
//!
//! The layer above uses this contract: [`generate`] gives the two texts that the definition gives for the number, or
//! wants memory.
#![tactic(auto)]

mod generated;
mod lines;
mod round;
mod sizes;
mod streams;
mod weaves;

pub use generated::{Generated, generate};
pub use sizes::{round_count, stream_count};

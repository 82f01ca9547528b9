//! From the P0 elements of a trace to the instructions that were executed: the walk over a program's image
//! (Arm IHI 0064, "Return stack"; Arm DDI 0487, the branches of A64).
//!
//! A [`Walker`] takes one entry after the other, each a P0 element with the context and the address that
//! were given before it, and answers the instructions up to it. An address that a trace leaves out follows
//! from the instruction before, or is the newest return address on the return stack.
#![tactic(auto)]

mod laws;
mod leg;
mod pc;
mod start;
mod stretch;
mod taker;
mod walker;

pub use laws::{an_entry_has_one_walk, joined_things_have_joined_walks, things_have_one_walk};
pub use pc::Pc;
pub use stretch::Stretch;
pub use taker::StretchTaker;
pub use walker::Walker;

//! The address history of a trace, and the forms in which address packets give an address by it (Arm
//! IHI 0064, address packets).
//!
//! A trace unit and its reader keep the same [`History`]: the three addresses that were traced last. The
//! unit gives an address in the first form that [`History::choose`] finds, and the reader has it again
//! by [`History::apply`]. Both then [`History::push`] it, whatever its form was.
#![tactic(auto)]

mod history;

pub use history::History;

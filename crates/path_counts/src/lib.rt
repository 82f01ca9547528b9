//! How often each instruction of an image was executed, how often each of its conditional branches was taken, where its branches to
//! a register went, and how often a path has what else stands in it.
//!
//! What is counted are the items of paths (`etm_types`, `Item`), of all streams together. A word of the image has a place among all
//! its words, and the words that follow one another stand at places that do, round a ring: so the block of a P0 element (Arm IHI
//! 0064, "P0 elements") is counted by three writes at most, however many instructions it has. Of where branches went there is a table
//! of pairs in order, which keeps the first 65,536 different ones. All memory is taken before the first item comes: 16 bytes a word,
//! 260 numbers, and 1.5 MiB of pairs.
//!
//! The layer above uses these contracts:
//! - [`Counter::new`]: no item is counted.
//! - [`Counter::add_walked`], [`Counter::add_words`], [`Counter::add_gap`], [`Counter::add_stop`]: the counts of some items become
//!   those of the items with these behind them.
//! - [`is_pointer_branch`]: of which instructions it is counted where they went.
//! - [`Targets::new`], [`Targets::add`]: the table of some pairs becomes that of the pairs with one more behind them.
//! - [`Counter::write`]: the text of the counts and of the table.
//! - the laws: what counts are.
#![tactic(auto)]

mod count_lines;
mod counter;
mod laws;
mod levels;
mod numbers;
mod pointer_branch;
mod targets;

pub use counter::Counter;
pub use laws::{branches_are_taken_when_executed, counts_never_fall};
pub use pointer_branch::is_pointer_branch;
pub use targets::Targets;

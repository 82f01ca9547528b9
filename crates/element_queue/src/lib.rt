//! The P0 elements of a trace that may still be taken back (Arm IHI 0064, "Speculation").
//!
//! A [`Queue`] holds them up to the maximum speculation depth, with what came before each, and gives out
//! the oldest as they are committed. Each one is an [`Uncommitted`]: it ends as committed, cancelled or lost, and a
//! [`Ledger`] counts which. Code without `unsafe` can't forget it, and only `spend_ring` has any. `entries` has
//! the form in which a queue keeps them: `slot` and `packed` that of one, 32 bytes, and `plain_atoms` that of atoms before which
//! nothing was given, a bit each. Neither form has a drop.
//!
//! The layer above uses the contracts of [`Queue`]: each call is one case of the rules in
//! `specs/Pending.antt`, or of so many of them together. What the rules make of a list of elements is in `specs/Resolved.antt`, and the
//! contracts of the laws say how that goes on from list to list, and how it is counted.
#![tactic(auto)]

mod entries;
mod given_atoms;
mod laws;
mod ledger;
mod outlook;
mod packed;
mod plain_atoms;
mod queue;
mod slot;
mod uncommitted;

pub use given_atoms::GivenAtoms;
pub use laws::{
    a_commit_may_be_deferred, a_flipped_atom_is_the_inverted_atom, a_tally_counts_what_is_resolved,
    cancelled_atoms_vanish, done_stays_done, elements_are_resolved_one_by_one,
    joined_cancels_are_their_sum, no_more_than_the_depth_is_held,
    packed_atoms_are_taken_one_by_one,
};
pub use ledger::{Counts, Ledger};
pub use outlook::Outlook;
pub use queue::{AtomEntry, Committed, PreElem, Queue};
pub use uncommitted::Uncommitted;

//! A list of at most `capacity` values, for values that must be spent: a ring that is taken apart by `close` and never dropped.
//!
//! Why raw memory is wanted here:
//! - A value that must be spent cannot be let go in code without `unsafe`, so it cannot stand in a container that is dropped with
//!   what it holds. The places of a raw block hold such values without owing a drop of any.
//! - The block has one size for good. All memory is had when the ring is made, so no later call can fail for want of it.
//! - A place is empty or holds a value, and no value stands for "none": any `T` will do, with nothing asked of it.
//! - The oldest value leaves at the front and a new one comes at the back without a move of those between.
//!
//! `cells` has all that is unsafe: one block, and the four ways to reach one of its cells. `ring` has no unsafe code, nor has any
//! other crate.
#![tactic(auto)]

mod cells;
mod ring;

// A crate can name a ring in a contract only if the types of its fields are exported.
#[doc(hidden)]
pub use cells::{Cells, First, Lease};
pub use ring::SpendRing;

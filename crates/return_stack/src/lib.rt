//! The return addresses that a trace unit and its reader keep, so that the trace can leave out the
//! target of a return (Arm IHI 0064, "Return stack").
//!
//! A call puts its return address on the [`ReturnStack`], and a return takes the newest one off. The
//! depth of a stack, at most [`MOST_ADDRESSES`], never changes; on a full one the oldest falls out.
//! A [`SavedStack`] keeps the addresses of one time, to restore them, and takes no memory.
#![tactic(auto)]

mod saved;
mod stack;

pub use saved::SavedStack;
pub use stack::{MOST_ADDRESSES, ReturnStack};

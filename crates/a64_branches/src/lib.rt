//! Instruction words of A64 as a trace sees them: which of them are traced, as branches and ISB, and
//! where a branch goes (Arm DDI 0487, "Branches, Exception Generating and System instructions").
//!
//! A walk over an image asks [`class_of`] for each word, and goes on at the [`target`] of a branch that was
//! taken.
#![tactic(auto)]

mod class;
mod encoding;
mod offset;

pub use class::{Class, class_of};
pub use offset::{INSTRUCTION_BYTES, target};

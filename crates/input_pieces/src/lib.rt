//! An input that is read by pieces of up to 4096 bytes: the lines of each are written and flushed before the next is
//! read. It prints by any `capture_streams::Printer`, whatever the layout and whatever is printed of a stream.
//!
//! The layer above uses these contracts:
//! - [`print_input`]: `Listed`, in specs, says for each answer what was read, and which text was printed of that. Where
//!   a write fails, no line is missing but those of the last 4096 bytes, and what is printed is a front of the text.
//! - [`MOST_INPUT`]: an input of more bytes is answered `InputTooLong`.
#![tactic(auto)]

mod input;

pub use input::{MOST_INPUT, print_input};

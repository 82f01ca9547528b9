//! The lines of a text, the words of a line, and the numbers that words spell: of the text of an image, of a run
//! file, and of others that are made of lines in the same way.
//!
//! A line ends with LF, or CR and LF. Its words are parted by spaces and tabs. A number has decimal digits, or hex
//! digits of either case, and nothing else.
#![tactic(auto)]

mod lines;
mod numbers;
mod words;

pub use lines::{NumberedLines, is_utf8};
pub use numbers::{decimal, number, short_number, two_digits};
pub use words::next_word;

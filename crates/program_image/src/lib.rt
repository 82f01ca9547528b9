//! What a core's memory holds of its program: the text that spells it, and the word at an address.
//!
//! A text has lines that end with LF, or CR and LF. `@` and an address of 1 to 16 hex digits begin a
//! part, and the other lines have its bytes in the order in which memory holds them, as words of hex
//! digits of either case, two digits a byte. So `1f2003d5` is the instruction word `0xd503201f`.
//! Lines without words, and those that begin with `#`, are passed over.
//!
//! The layer above uses these contracts:
//! - [`Image::of_text`]: the image that a text spells, or the first line that has a fault, and which.
//! - [`Image::read`]: the same of the text that a source has left.
//! - [`Image::word_at`]: the instruction word at an address.
//! - [`Image::block`]: the plain words from an address on, and what stands after them; and [`Image::placed_run`], the same as
//!   the image keeps it, with the place of the first.
//! - [`Image::near_part`]: a part at hand, in which [`NearPart::run_at`] finds the same without a search.
//! - [`Image::place_at`] and [`Image::address_of`]: the place of a word among all words of the image, and back.
//! - the laws: what a text spells, and what holds of every image.
#![tactic(auto)]

mod block;
mod draft;
mod fault;
mod image;
mod laws;
mod line_bytes;
mod lookup;
mod near_part;
mod part;
mod places;
mod run;
mod run_table;

pub use block::{Block, BlockEnd};
pub use fault::{ImageFault, ImageWhy};
pub use image::Image;
pub use laws::{
    a_fault_is_that_of_the_first_line, each_image_has_a_gap, reads_what_is_spelled,
    words_are_of_their_parts, words_have_places,
};
pub use near_part::NearPart;
pub use run::{PlacedRun, WordBehind, WordRun};

//! ELF64 programs as images of a core's memory (System V ABI, "ELF Header" and "Program Header").
//!
//! Of a file for A64 the *chosen* segments count: those that are loaded and executed, with at least one instruction. Their bytes stand at
//! their virtual addresses, to which nothing is added: a program that is loaded elsewhere is told as it stands in its file. What the file
//! spells is a text of an image, so that one reader of images serves for both.
//!
//! The layer above uses these contracts:
//! - [`read_elf`]: the image of the program that a source has left, or its first refusal.
//! - [`text_of`]: the text of an image that a file spells, or its first refusal. All headers are tested before any of the text is made.
//! - [`ElfWhy`]: the reasons, each with its number, its word, and the program header that it is about. Its text is the word and that number.
//! - the laws: [`the_text_is_an_image`], and [`a_refusal_is_the_first`].
//!
//! Each chosen segment is compared with all that were chosen before it. So the time grows with the square of their number, which is at most
//! 65,535: a file of that many disjoint segments takes about a second.
#![tactic(auto)]

mod fault;
mod header;
mod laws;
mod read;
mod segment;
mod text;

pub use fault::{ElfFault, ElfImageFault, ElfWhy};
pub use laws::{a_refusal_is_the_first, the_text_is_an_image};
pub use read::read_elf;
pub use text::text_of;

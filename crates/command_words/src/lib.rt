//! The words of the command line, and the command that they mean.
//!
//! It says which words are a line of a command (`specs/CommandLines.antt`), and what words mean (`meaning` of `specs/Words.antt`).
//! The commands and their options stand in one table, and the parse is `clap`'s over it. A list that gives single IDs settings of
//! their own is read by itself (`specs/Lists.antt`).
//!
//! The layer above uses three contracts:
//! - `command_of`: the command that the words mean, with its numbers in range. The parse takes memory.
//! - `image_name`: the name of the image that this command reads. It takes no memory.
//! - `words_mean_what_they_spell`, the law: words mean a command exactly where they are a line of it.
#![tactic(auto)]

mod laws;
mod lists;
mod parser;
mod words;

pub use laws::words_mean_what_they_spell;
pub use parser::command_of;
pub use words::{Command, Intake, Layout, Program, ProgramForm, image_name};

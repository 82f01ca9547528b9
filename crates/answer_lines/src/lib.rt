//! How a call of `etm` ends, and the lines that say so.
//!
//! [`Status`] has the answers, with the exit status of each (`specs/Codes.antt`). The lines are those that are no part of a path: that
//! of usage, of an image, an ELF file or a run file that is bad, and the summary of a number. Each is written by one function, as its definition in
//! `specs/` says, or a front of it where a write fails.
//!
//! They stand below the commands, and not in `path_text`: so a new reason to refuse an image or a run file is no change of what reads a
//! stream.
#![tactic(auto)]

mod bench_line;
mod elf_line;
mod image_line;
mod status;
mod summary_line;
mod usage_line;

pub use bench_line::write_bench_bad;
pub use elf_line::write_elf_bad;
pub use image_line::write_image_bad;
pub use status::Status;
pub use summary_line::write_summary;
pub use usage_line::write_usage;

//! The lines that are printed of a stream: those of its path or of its packets, and one for how it ends.
//!
//! A line has the ID of its stream, a text, and LF. The lines of a path are put into a [`LineBlock`], and many of them are written by one call;
//! every other line is put together in a small array and written by a call of its own. So a sink sees whole lines. Each function promises
//! exactly the text that `specs/` gives for its value, or a front of it where a write fails. The contract of
//! [`lines_stand_one_by_one`] says how the lines of the items of a path are put together.
//!
//! The texts are this project's own (`docs/FORMATS.md`, "Lines"); the names of exceptions are of Arm IHI 0064, exception types.
//!
//! [`Line`] is public because `answer_lines` writes with it the lines of a bad image, ELF file or run file and of a number, and `time_marks`
//! and `path_counts` theirs.
#![tactic(auto)]

mod address_line;
mod digits;
mod end_lines;
mod laws;
mod letters;
mod line;
mod line_block;
mod packet_line;
mod packet_lines;
mod page_lines;
mod path_lines;

pub use address_line::AddressLine;
pub use end_lines::{write_end, write_frame_cut};
pub use laws::lines_stand_one_by_one;
pub use line::Line;
pub use line_block::LineBlock;
pub use packet_grammar::End;
pub use packet_line::PacketLine;
pub use path_lines::{add_exception_name, write_gap, write_stop, write_walked, write_walked_on};

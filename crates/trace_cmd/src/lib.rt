//! The commands of `etm`: words, image and input in, bytes out.
//!
//! `run` carries the promise of the whole program. `specs/Answers.antt` has a row for each answer: its cause, and what is printed with
//! it. Where it answers `Done` or `Faulted` of an input, that is the text of the input, as `capture_streams` defines it over the paths of
//! streams, `count_streams` over the counts of these, `packet_list` over their packets, and `time_marks` over their times. The program
//! calls it with files, and tests call it with memory.
//!
//! What each command does stands in the crates below: the words in `command_words`, the reading of an input by pieces in
//! `input_pieces`, `retired` in `retired_paths`, `trace` and `selftest` in `traced_runs`, the answers in `answer_lines`. Here the words
//! are read, then the image, and then the command is done. What all answers come to is said by the laws of `answer_laws`.
#![tactic(auto)]

mod command;

pub use answer_lines::Status;
pub use command::run;
pub use command_words::image_name;

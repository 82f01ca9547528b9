//! Traces of which the first part is missing (Arm IHI 0064, "Alignment Synchronization packet", "Trace Info packet").
//!
//! What the end of a trace still tells is a law: from the first A-sync in it on, the retired path, each block as it is or as one unknown
//! stretch. There is no code here, but for two laws: [`the_last_bytes_show_their_part`], of each run and any number of missing bytes, and
//! [`a_late_reader_shows_its_part`], the same of elements alone.
//!
//! The definitions speak of a *late reader*, which enters a trace at a trace info in it, beside a reader of the whole: `Marks` and `Rows`
//! say which things it has in the place of which, `Walked` what its walk shows of them, `Part` puts both together, and `LastBytes` says so
//! of the bytes that a trace unit wrote.
#![tactic(auto)]

mod laws;

pub use laws::{a_late_reader_shows_its_part, the_last_bytes_show_their_part};

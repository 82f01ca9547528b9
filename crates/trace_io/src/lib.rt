//! Sources and sinks of bytes that count their faults.
//!
//! Every crate of this repository that reads or writes does it through the traits `Source` and
//! `Sink`. A failed call is only `Failed`; what stands for its cause is the count of faults of the
//! object that was called, which contracts see and no code asks for.
//!
//! The layers above use these contracts:
//! - `Source` and `Sink`: what a call gives or takes, and that it fails only where the count rose.
//! - `write_all`: all the bytes were appended, or a front of them that is shorter.
//! - `read_all`: all that was left, unless it is more than a limit.
//! - `StdSource` and `BufferedSink`: the edge to std's readers and writers, used by the program. The sink has a buffer of 64 KiB.
//! - `MemSource`, `SafeSource`, `NoSource`, `MemSink` and `NullSink`: objects over memory, for
//!   callers that hold their bytes and for tests.
#![tactic(auto)]

mod buffered_sink;
mod faults;
mod memory_sink;
mod memory_source;
mod null;
mod over_std;
mod script;
mod traits;
mod whole;

pub use buffered_sink::BufferedSink;
pub use memory_sink::MemSink;
pub use memory_source::{MemSource, SafeSource};
pub use null::{NoSource, NullSink};
pub use over_std::StdSource;
pub use traits::{Failed, Sink, Source};
pub use whole::{ReadAllFault, read_all, write_all};

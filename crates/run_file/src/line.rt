//! The lines of a run file that are kept.

use crate::given::Given;
use crate::setting::Setting;
use etm_types::Id;
use spec_run::Event;

/// An event line.
#[derive(Clone, Copy, Debug, PartialEq, Eq)]
pub struct BenchLine {
    /// The number of the line, from 1 on.
    pub line: u64,
    pub event: Event,
    /// How often the event comes: 1, or what `step N` says.
    pub times: u32,
}

/// What a line behind the header says, by its first word.
#[derive(Clone, Copy)]
pub enum LineKind {
    Setting(Setting),
    Stream,
    Weaves,
    Event,
}

/// The words of a line that declares a stream.
#[derive(Clone, Copy)]
pub struct Declaration {
    pub id: u8,
    /// The stream's own settings; the others are those of the file.
    pub own: Given,
}

/// An event, and how often it comes.
#[derive(Clone, Copy)]
pub struct Repeated {
    pub event: Event,
    pub times: u32,
}

/// Which bytes come next in the frames: so many of a stream, or what is left of it.
#[derive(Clone, Copy, Debug, PartialEq, Eq)]
pub struct Weave {
    pub id: Id,
    /// 1 to 1,048,576.
    pub count: u32,
}

//! Why no run file was read.
ghost use Rattle.std.specs.Prelude.{◌≡◌};
ghost use Rattle.run_file.specs.WhyNumbers.{why_number};

use spec_run::RunFault;
use thiserror::Error;

/// Why a line of a run file is bad.
#[derive(Clone, Copy, Debug, PartialEq, Eq, Error)]
pub enum BenchWhy {
    /// The first line with words is neither `etm 1` nor `etm 2`, or there is none.
    #[error("the header is neither `etm 1` nor `etm 2`")]
    Header,
    /// A line of no form, or out of its place, or a setting that is given twice.
    #[error("the line has no form of a run file here")]
    Syntax,
    /// An ID that is none of a source (01 to 6f), or a weave of an ID that has no stream.
    #[error("the ID has no stream, or is none of a source")]
    IdRange,
    /// A second stream of an ID.
    #[error("the ID has a stream already")]
    DuplicateId,
    /// A number outside its range, or a context that does not fit the sizes of its stream.
    #[error("a number is outside its range")]
    Range,
    /// More than 64 MiB of text.
    #[error("the text has more than 64 MiB")]
    TooLong,
    /// An event that the run refuses.
    #[error("{0}")]
    Run(RunFault),
}

impl BenchWhy {
    /// The number of the reason, 1 to 7.
    pub fn number(&self) -> u8
        ensures { result ≡ why_number self.now }
    {
        match self {
            BenchWhy::Header => 1,
            BenchWhy::Syntax => 2,
            BenchWhy::IdRange => 3,
            BenchWhy::DuplicateId => 4,
            BenchWhy::Range => 5,
            BenchWhy::TooLong => 6,
            BenchWhy::Run(_) => 7,
        }
    }
}

/// Why no run file was read.
#[derive(Clone, Copy, Debug, PartialEq, Eq, Error)]
pub enum BenchFault {
    /// A line is bad. Lines count from 1; 0 stands for the whole text.
    #[error("bench line {line}: {why}")]
    Bad { line: u64, why: BenchWhy },
    #[error("out of memory")]
    Memory,
}

/// Why a line was not taken.
#[derive(Clone, Copy)]
pub enum LineFault {
    Bad(BenchWhy),
    Memory,
}

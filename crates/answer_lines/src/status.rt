//! The answers of a call, and the exit status of each.
ghost use Rattle.std.specs.Prelude.{◌≡◌};

use elf_image::ElfWhy;
use program_image::ImageWhy;
use run_file::BenchWhy;

/// How a call ended.
#[derive(Clone, Copy, Debug, PartialEq, Eq)]
pub enum Status {
    /// All was read and written, and no stream has a fault, and no frame is cut.
    Done,
    /// The words have no meaning.
    Usage,
    /// The text of the image has a fault at this line.
    ImageBad { line: u64, why: ImageWhy },
    /// The text of the run file has a fault at this line, or a run refuses its event.
    BenchBad { line: u64, why: BenchWhy },
    /// All was read and written, and a stream has a fault, or a frame is cut.
    Faulted,
    /// The image or the input could not be read.
    ReadFault,
    /// The output could not be written.
    WriteFault,
    /// Out of memory.
    NoMemory,
    /// The input has more than 2^30 bytes.
    InputTooLong,
    /// The file of the program is no ELF file that can be used.
    ElfBad { why: ElfWhy },
}

impl Status {
    ghost use Rattle.answer_lines.specs.Codes.{code_of};

    /// The exit status, 0 to 9.
    pub fn code(&self) -> u8
        ensures { result ≡ code_of self.now }
    {
        match self {
            Status::Done => 0,
            Status::Usage => 1,
            Status::ImageBad { .. } => 2,
            Status::BenchBad { .. } => 3,
            Status::Faulted => 4,
            Status::ReadFault => 5,
            Status::WriteFault => 6,
            Status::NoMemory => 7,
            Status::InputTooLong => 8,
            Status::ElfBad { .. } => 9,
        }
    }
}

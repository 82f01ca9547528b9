//! Why no image was read.
ghost use Rattle.std.specs.Prelude.{◌≡◌};
ghost use Rattle.program_image.specs.Faults.{fault_number, why_number, why_text};

use std::fmt;
use thiserror::Error;

/// Why a text is no image.
#[derive(Clone, Copy, Debug, PartialEq, Eq)]
pub enum ImageWhy {
    /// A line of neither form, or bytes before the first part.
    Syntax,
    /// An address that is no multiple of 4, or a line whose count of bytes is none.
    Unaligned,
    /// A byte at an address that has one.
    Overlap,
    /// A byte past the last address, 2^64 - 1.
    Wraps,
    /// More than 64 parts, or more than 16 MiB of bytes.
    TooLarge,
    /// More than 64 MiB of text.
    TooLong,
}

impl ImageWhy {
    /// The number of the reason, 1 to 6.
    pub fn number(&self) -> u8
        ensures { result ≡ why_number self.now }
    {
        match self {
            ImageWhy::Syntax => 1,
            ImageWhy::Unaligned => 2,
            ImageWhy::Overlap => 3,
            ImageWhy::Wraps => 4,
            ImageWhy::TooLarge => 5,
            ImageWhy::TooLong => 6,
        }
    }

    /// The word that is printed for the reason.
    pub fn text(&self) -> &'static str
        ensures { result.now ≡ why_text self.now }
    {
        match self {
            ImageWhy::Syntax => "syntax",
            ImageWhy::Unaligned => "unaligned",
            ImageWhy::Overlap => "overlap",
            ImageWhy::Wraps => "wraps",
            ImageWhy::TooLarge => "too-large",
            ImageWhy::TooLong => "too-long",
        }
    }
}

impl fmt::Display for ImageWhy {
    fn fmt<W: fmt::Write>(&self, f: &mut fmt::Formatter<W>) -> fmt::Result {
        f.write_str(self.text())
    }
}

/// Why `read` gave no image.
#[derive(Clone, Copy, Debug, PartialEq, Eq, Error)]
pub enum ImageFault {
    /// The text is no image. Lines count from 1; 0 stands for the whole text.
    #[error("image line {line}: {why}")]
    Bad { line: u64, why: ImageWhy },
    #[error("the image could not be read")]
    ReadFault,
    #[error("out of memory")]
    Memory,
}

impl ImageFault {
    /// The number of the fault: that of the reason of a bad text, 7 or 8.
    pub fn number(&self) -> u8
        ensures { result ≡ fault_number self.now }
    {
        match self {
            ImageFault::Bad { why, .. } => why.number(),
            ImageFault::ReadFault => 7,
            ImageFault::Memory => 8,
        }
    }
}

/// Why a line was not taken.
#[derive(Clone, Copy)]
pub enum LineFault {
    Bad(ImageWhy),
    Memory,
}

//! Why no image was made of a file.
ghost use Rattle.std.specs.Prelude.{◌≡◌};
ghost use Rattle.elf_image.specs.Faults.{header_of, why_number, why_word};

use std::fmt;
use thiserror::Error;

/// Why a file is refused. Program headers count from 0, those of segments that are not chosen too.
#[derive(Clone, Copy, Debug, PartialEq, Eq)]
pub enum ElfWhy {
    /// More than 256 MiB.
    TooLong,
    /// No header of a 64-bit file for A64 with the lowest byte first, or program headers that have not 56 bytes each.
    Header,
    /// The program headers go past the end of the file.
    Table,
    /// The bytes of this segment go past the end of the file.
    Segment(u32),
    /// The address of this segment is no multiple of 4.
    Unaligned(u32),
    /// This segment has a byte past the last address, 2^64 - 1.
    Wraps(u32),
    /// This segment has a byte at an address of a segment before it.
    Overlap(u32),
    /// More than 64 segments, or more than 16 MiB of their bytes.
    TooLarge,
}

impl ElfWhy {
    /// The number of the reason, 1 to 8.
    pub fn number(&self) -> u8
        ensures { result ≡ why_number self.now }
    {
        match self {
            ElfWhy::TooLong => 1,
            ElfWhy::Header => 2,
            ElfWhy::Table => 3,
            ElfWhy::Segment(_) => 4,
            ElfWhy::Unaligned(_) => 5,
            ElfWhy::Wraps(_) => 6,
            ElfWhy::Overlap(_) => 7,
            ElfWhy::TooLarge => 8,
        }
    }

    /// The word that is printed for the reason, before the number of the program header.
    pub fn word(&self) -> &'static str
        ensures { result.now ≡ why_word self.now }
    {
        match self {
            ElfWhy::TooLong => "too-long",
            ElfWhy::Header => "header",
            ElfWhy::Table => "table",
            ElfWhy::Segment(_) => "segment",
            ElfWhy::Unaligned(_) => "unaligned",
            ElfWhy::Wraps(_) => "wraps",
            ElfWhy::Overlap(_) => "overlap",
            ElfWhy::TooLarge => "too-large",
        }
    }

    /// The program header that the reason is about, where it is about one.
    pub fn header(&self) -> Option<u32>
        ensures { result ≡ header_of self.now }
    {
        match self {
            ElfWhy::Segment(k) | ElfWhy::Unaligned(k) | ElfWhy::Wraps(k) | ElfWhy::Overlap(k) => {
                Some(*k)
            }
            _ => None,
        }
    }
}

impl fmt::Display for ElfWhy {
    ghost use Rattle.std.specs.Prelude.{Some};
    ghost use Rattle.elf_image.specs.Faults.{why_text};

    ghost output = { λ why. Some (why_text why) };

    fn fmt<W: fmt::Write>(&self, f: &mut fmt::Formatter<W>) -> fmt::Result {
        match self.header() {
            Some(k) => write!(f, "{} {k}", self.word()),
            None => f.write_str(self.word()),
        }
    }
}

/// Why `text_of` gave no text.
#[derive(Clone, Copy, Debug, PartialEq, Eq, Error)]
pub enum ElfFault {
    #[error("elf: {0}")]
    Bad(ElfWhy),
    #[error("out of memory")]
    Memory,
}

/// Why `read_elf` gave no image.
#[derive(Clone, Copy, Debug, PartialEq, Eq, Error)]
pub enum ElfImageFault {
    #[error("elf: {0}")]
    Bad(ElfWhy),
    #[error("the program could not be read")]
    ReadFault,
    #[error("out of memory")]
    Memory,
}

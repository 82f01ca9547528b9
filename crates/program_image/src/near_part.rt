//! A part of an image at hand, for what looks up one address of it after the other.
ghost use Rattle.std.specs.Prelude.{◌≡◌, ◌+◌, ◌*◌, ◌%◌, ◌^◌, ◌<◌, ◌≤◌, [], length, MatchOption};
ghost use Rattle.program_image.specs.Near.{HasNoRunAt, HasRunAt};

use crate::run::{PlacedRun, TableEntry};
use crate::run_table::kept_at;
use a64_branches::INSTRUCTION_BYTES;
use std::marker::Model;

/// A part of an image: where its words begin, the run from each of them on, and their places. Each look-up reads one entry alone.
#[derive(Drop)]
pub struct NearPart<'a> {
    start: u64,
    runs: &'a [TableEntry],
    /// The place of the first word among all words of the image.
    first: usize,
    /// The place of the part among the parts.
    part: usize,
}

impl<'a> Model for NearPart<'a> {
    ghost use Rattle.program_image.specs.Near.{Fits, Near};

    ghost Value = { Near };

    ghost view = { λ near. record { start = near.start; runs = near.runs.now; first = near.first; part = near.part } };

    ghost invariant = { λ near. Fits (record { start = near.start; runs = near.runs.now; first = near.first; part = near.part }) };
}

impl<'a> NearPart<'a> {
    /// The part with these words.
    #[inline(always)]
    pub(crate) fn new(start: u64, runs: &'a [TableEntry], first: usize, part: usize) -> NearPart<'a>
        requires aligned { start % 4 ≡ 0 }
        requires within { start + 4 * length runs.now ≤ 2 ^ 64 }
        requires few { first + length runs.now < 2 ^ 64 }
        ensures { result ≡ record { start = start; runs = runs.now; first = first; part = part } }
    {
        NearPart {
            start,
            runs,
            first,
            part,
        }
    }

    /// A part without words.
    #[inline(always)]
    pub(crate) fn without_words() -> NearPart<'a>
        ensures { result.runs ≡ [] }
    {
        NearPart {
            start: 0,
            runs: &[],
            first: 0,
            part: 0,
        }
    }

    /// The run from the word at an address on, with its place: none where no word of the part begins there.
    #[inline(always)]
    pub fn run_at(&self, addr: u64) -> Option<PlacedRun>
        requires { addr % 4 ≡ 0 }
        ensures { MatchOption result (HasNoRunAt self.now addr) (HasRunAt self.now addr) }
    {
        let word = (addr.wrapping_sub(self.start) / INSTRUCTION_BYTES) as usize;
        let run = kept_at(self.runs, word)?;
        Some(PlacedRun {
            place: self.first + word,
            part: self.part,
            run,
        })
    }
}

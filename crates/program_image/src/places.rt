//! The places of an image's words in the order of their addresses. Of each part it is kept how many words stand before it, so
//! that a place costs the search of a part, and an address that of a place.
ghost use Rattle.std.specs.Prelude.{◌≡◌, ◌+◌, ◌-◌, ◌<◌, ◌≤◌, length, get_or, nat_le, true, false, IfOk};
ghost use Rattle.std.specs.List.Sorted.{IsPartitionPoint, IsPartitionedBy};
ghost use Rattle.program_image.specs.Part.{IsImage};
ghost use Rattle.program_image.specs.Places.{words_before};

use crate::part::Part;
use a64_branches::INSTRUCTION_BYTES;
use std::alloc::{AllocError, Global};
use std::marker::Model;

/// How many words stand before each part, and at the end how many in all.
#[derive(Drop)]
pub struct Places {
    before: Vec<usize>,
}

impl Model for Places {
    ghost use Rattle.std.specs.Prelude.{List, ℕ};

    ghost Value = { List ℕ };

    ghost view = { λ places. places.before.items };
}

impl Places {
    /// Counts the words of parts.
    pub fn new(alloc: Global, parts: &[Part]) -> Result<Places, AllocError>
        requires { IsImage parts.now }
        ensures { IfOk result (λ places. places ≡ words_before 0 parts.now) }
    {
        let mut before = Vec::with_capacity(alloc, parts.len() + 1)?;
        let mut words = 0;
        let mut rest = parts;
        while let Some((part, after)) = rest.split_first() {
            before.push(words)?;
            words += part.bytes().len() / INSTRUCTION_BYTES as usize;
            rest = after;
        }
        before.push(words)?;
        Ok(Places { before })
    }

    /// How many words stand before a part; after all parts, how many in all.
    #[inline(always)]
    pub fn count_before(&self, part: usize) -> usize
        requires { part < length self.now }
        ensures { result ≡ get_or self.now part 0 }
    {
        self.before[part]
    }

    /// Which part the word at a place is of.
    pub fn part_of(&self, place: usize) -> usize
        requires sorted { IsPartitionedBy (λ words. nat_le words place) self.now }
        requires first { (0 < length self.now) × (get_or self.now 0 0 ≤ place) }
        requires last { place < get_or self.now (length self.now - 1) 0 }
        ensures within { result + 1 < length self.now }
        ensures from { get_or self.now result 0 ≤ place }
        ensures upto { place < get_or self.now (result + 1) 0 }
    {
        begun_at(&self.before, place) - 1
    }
}

/// How many of the counts are at most a place.
fn begun_at(before: &[usize], place: usize) -> usize
    requires { IsPartitionedBy (λ words. nat_le words place) before.now }
    ensures value { IsPartitionPoint (λ words. nat_le words place ≡ true) (λ words. nat_le words place ≡ false) before.now result }
    ensures within { result ≤ length before.now }
{
    before.partition_point(|words| *words <= place)
}

//! The parts that lines spell, one line after another.
ghost use Rattle.std.specs.Prelude.{◌≡◌, ◌≤◌, ◌+◌, ◌∷◌, ◌++◌, [], length, reverse, nat_lt, IfOk};
ghost use Rattle.std.specs.List.{list_any, position};
ghost use Rattle.program_image.specs.Part.{total};
ghost use Rattle.line_words.specs.Line.{words_in};
ghost use Rattle.program_image.specs.ImageText.{add_bytes, add_line, address_of, begin_part, by_address, growth_fault, has_between, placed};
ghost use Rattle.program_image.specs.Answers.{Answers};

use crate::fault::{ImageWhy, LineFault};
use crate::line_bytes::{SYNTAX, line_bytes};
use crate::part::{ADDRESSES, Part};
use a64_branches::INSTRUCTION_BYTES;
use line_words::{is_utf8, next_word, number};
use std::alloc::{AllocError, Global};
use std::marker::Model;

/// The most parts that lines may begin, those without bytes too.
const MOST_PARTS: usize = 64;

/// The most bytes that the parts have: 16 MiB.
const MOST_BYTES: usize = 16 << 20;

/// The parts that lines began so far, in the order of the lines.
#[derive(Drop)]
pub struct Draft {
    parts: Vec<Part>,
    /// How many bytes they have.
    size: usize,
}

impl Model for Draft {
    ghost use Rattle.std.specs.Prelude.{◌≡◌, ◌≤◌, List, reverse};
    ghost use Rattle.program_image.specs.Part.{Part, most_bytes, total};

    ghost Value = { List Part };

    ghost view = { λ draft. reverse draft.parts.items };

    ghost invariant = { λ draft. (draft.size ≡ total (reverse draft.parts.items)) × (draft.size ≤ most_bytes) };
}

impl Draft {
    /// No part.
    pub fn new(alloc: Global) -> Draft
        ensures { result ≡ [] }
    {
        let parts = Vec::new(alloc);
        Draft { parts, size: 0 }
    }

    /// The parts after one line more.
    pub fn with_line(self, alloc: Global, line: &[u8]) -> Result<Draft, LineFault>
        ensures { Answers (λ draft. draft) result (add_line self line.now) }
    {
        if !is_utf8(line) {
            return Err(SYNTAX);
        }
        let Some((word, rest)) = next_word(line) else {
            return Ok(self);
        };
        match word {
            [b'#', ..] => Ok(self),
            [b'@', digits @ ..] => self.begin(alloc, address(digits, rest)?),
            _ => self.with_bytes(&line_bytes(alloc, line)?),
        }
    }

    /// The parts after a line that begins one at an address.
    fn begin(self, alloc: Global, start: u64) -> Result<Draft, LineFault>
        ensures { Answers (λ draft. draft) result (begin_part self start) }
    {
        let Draft { mut parts, size } = self;
        if start % INSTRUCTION_BYTES != 0 {
            return Err(LineFault::Bad(ImageWhy::Unaligned));
        }
        if parts.len() >= MOST_PARTS {
            return Err(LineFault::Bad(ImageWhy::TooLarge));
        }
        let part = Part::new(alloc, start);
        parts.push(part).map_err(|_| LineFault::Memory)?;
        Ok(Draft { parts, size })
    }

    /// The parts with these bytes at the end of the last one.
    fn with_bytes(self, bytes: &[u8]) -> Result<Draft, LineFault>
        ensures { Answers (λ draft. draft) result (add_bytes self bytes.now) }
    {
        let Draft { mut parts, size } = self;
        let Some(part) = parts.pop() else {
            return Err(SYNTAX);
        };
        if let Some(why) = growth_fault(&parts, &part, size, bytes.len()) {
            return Err(LineFault::Bad(why));
        }
        let part = part.with_bytes(bytes).map_err(|_| LineFault::Memory)?;
        parts.push(part).map_err(|_| LineFault::Memory)?;
        let size = size + bytes.len();
        Ok(Draft { parts, size })
    }

    /// The parts that have bytes, by their addresses.
    #[tactic(auto, using(crate::proofs::Lists::reversed_push))]
    pub fn by_address(self, alloc: Global) -> Result<Vec<Part>, AllocError>
        ensures { IfOk result (λ sorted. sorted.items ≡ by_address self) }
    {
        let Draft { mut parts, .. } = self;
        let mut sorted = Vec::new(alloc);
        while let Some(part) = parts.pop() {
            sorted = placed(sorted, part)?;
        }
        Ok(sorted)
    }
}

/// The address in the words after `@`.
fn address(digits: &[u8], rest: &[u8]) -> Result<u64, LineFault>
    ensures { Answers (λ start. start) result (address_of digits.now (words_in rest.now)) }
{
    if next_word(rest).is_some() {
        return Err(SYNTAX);
    }
    number(digits).ok_or(SYNTAX)
}

/// Whether a part has a byte at an address from `from` on and before `to`.
fn overlap(parts: &[Part], from: u128, to: u128) -> bool
    ensures { result ≡ list_any (has_between from to) parts.now }
{
    parts.iter().any(|part| part.has_between(from, to))
}

/// Why the part can't go on with so many bytes, beside the others; all have `size` bytes.
#[tactic(auto, using(crate::proofs::Lists::any_reversed))]
fn growth_fault(others: &[Part], part: &Part, size: usize, count: usize) -> Option<ImageWhy>
    requires size { size ≡ total (part.now ∷ reverse others.now) }
    requires few { size ≤ MOST_BYTES }
    ensures { result ≡ growth_fault (reverse others.now) part.now count }
{
    let from = part.end();
    let to = from + count as u128;
    if count % INSTRUCTION_BYTES as usize != 0 {
        Some(ImageWhy::Unaligned)
    } else if to > ADDRESSES {
        Some(ImageWhy::Wraps)
    } else if overlap(others, from, to) {
        Some(ImageWhy::Overlap)
    } else if count > MOST_BYTES - size {
        Some(ImageWhy::TooLarge)
    } else {
        None
    }
}

/// The first part that begins after an address.
fn first_after(sorted: &[Part], start: u64) -> Option<usize>
    ensures { result ≡ position (λ other. nat_lt start other.start) sorted.now }
{
    sorted.iter().position(|other| start < other.start())
}

/// The part in its place among those that stand by their addresses.
fn placed(mut sorted: Vec<Part>, part: Part) -> Result<Vec<Part>, AllocError>
    ensures { IfOk result (λ all. all.items ≡ placed sorted.items part) }
{
    if part.is_empty() {
        return Ok(sorted);
    }
    let place = first_after(&sorted, part.start()).unwrap_or(sorted.len());
    sorted.insert(place, part)?;
    Ok(sorted)
}

//! How many plain words follow from each word of an image on, and what stands behind them: one entry of 12 bytes a word, made once
//! when the image is read, so that a block is one look-up whatever its length.
//!
//! The run from a plain word on is one longer than that from the next word on, and ends likewise. So the parts are taken from
//! the last to the first, and the words of each likewise. A run goes on over parts that touch, and from
//! the last address to address 0.
ghost use Rattle.std.specs.Prelude.{◌≡◌, ◌==◌, ◌+◌, ◌%◌, ◌^◌, ◌<◌, ◌≤◌, if◌then◌else◌, length, slice_get, Some, IfOk, IsTrue, ◌↔◌, MatchOption, None};
ghost use Rattle.a64_branches.specs.Classes.{class_of};
ghost use Rattle.program_image.specs.Part.{IsImage, end_of, total};
ghost use Rattle.a64_branches.specs.declared.class.Class.TheVariants.{Plain};
ghost use Rattle.program_image.specs.Blocks.{class_at};
ghost use Rattle.program_image.specs.Runs.{IsFollowedBy, IsRun, IsRunLength, IsTable, first_run, no_word, run_from, run_of, runs_of};

use crate::lookup::class_at;
use crate::part::{ADDRESSES, Part};
use crate::run::{PlainRun, TableEntry, WordRun};
use a64_branches::{Class, INSTRUCTION_BYTES, class_of};
use byteorder::{ByteOrder, LittleEndian};
use std::alloc::{AllocError, Global};
use std::marker::Model;

/// The runs from each word of a part on.
#[derive(Drop)]
pub struct Runs {
    of_words: Vec<TableEntry>,
}

impl Model for Runs {
    ghost use Rattle.std.specs.Prelude.{List};
    ghost use Rattle.program_image.specs.declared.run.PlainRun.{PlainRun};

    ghost Value = { List PlainRun };

    ghost view = { λ runs. runs.of_words.items };
}

impl Runs {
    /// The run from a word on, as it is kept; words count from 0.
    #[inline(always)]
    pub fn kept_at(&self, word: usize) -> Option<WordRun>
        ensures { MatchOption result (slice_get self.now word ≡ None) (λ run. slice_get self.now word ≡ Some (run_of run)) }
    {
        kept_at(&self.of_words, word)
    }

    /// The entries of the words.
    #[inline(always)]
    pub fn entries(&self) -> &[TableEntry]
        ensures { result.now ≡ self.now }
    {
        &self.of_words
    }

    /// The run from a word on; words count from 0.
    fn at(&self, word: usize) -> Option<PlainRun>
        ensures { result ≡ slice_get self.now word }
    {
        match self.of_words.get(word) {
            Some(entry) => Some(entry.run()),
            None => None,
        }
    }

    /// The run from the first word on; that from the next word on where there is none.
    fn first(&self, next: PlainRun) -> PlainRun
        ensures { result ≡ first_run self.now next }
    {
        self.at(0).unwrap_or(next)
    }

    /// The runs from each word of the bytes on, by that from the next word on.
    fn of_bytes(alloc: Global, bytes: &[u8], next: PlainRun) -> Result<Runs, AllocError>
        requires whole { length bytes.now % 4 ≡ 0 }
        requires fits { next.plain + length bytes.now < 2 ^ 32 }
        ensures value { IfOk result (λ runs. runs ≡ runs_of bytes.now next) }
        ensures small { IfOk result (λ runs. (first_run runs next).plain ≤ next.plain + length bytes.now) }
    {
        let mut of_words = Vec::with_capacity(alloc, bytes.len() / INSTRUCTION_BYTES as usize)?;
        let mut rest = bytes;
        let mut run = next;
        while let Some((before, word)) = rest.split_last_chunk::<4>() {
            run = run_from(LittleEndian::read_u32(word), run);
            of_words.push(TableEntry::new(run))?;
            rest = before;
        }
        of_words.reverse();
        Ok(Runs { of_words })
    }
}

/// The run from a word on, as entries keep it; words count from 0.
#[inline(always)]
pub fn kept_at(entries: &[TableEntry], word: usize) -> Option<WordRun>
    ensures { MatchOption result (slice_get entries.now word ≡ None) (λ run. slice_get entries.now word ≡ Some (run_of run)) }
{
    match entries.get(word) {
        Some(entry) => Some(entry.kept()),
        None => None,
    }
}

/// The run from a word on, by that from the next word on.
fn run_from(word: u32, next: PlainRun) -> PlainRun
    requires { next.plain + 1 < 2 ^ 32 }
    ensures value { result ≡ run_from (class_of word) next }
    ensures small { result.plain ≤ next.plain + 1 }
{
    match class_of(word) {
        Class::Plain => PlainRun {
            plain: next.plain + 1,
            class: next.class,
        },
        class => PlainRun {
            plain: 0,
            class: Some(class),
        },
    }
}

/// The runs from each word of the parts of an image on.
pub fn table(alloc: Global, parts: &[Part]) -> Result<Vec<Runs>, AllocError>
    requires { IsImage parts.now }
    ensures { IfOk result (λ table. IsTable parts.now parts.now table.items) }
{
    let mut table = Vec::new(alloc);
    let mut rest = parts;
    let mut start = 0;
    let mut run = run_past_last(parts);
    while let Some((part, before)) = rest.split_last() {
        let next = run_after(part, start, run);
        let runs = Runs::of_bytes(alloc, part.bytes(), next)?;
        start = part.start();
        run = runs.first(next);
        table.push(runs)?;
        rest = before;
    }
    table.reverse();
    Ok(table)
}

/// The run after a part: that from an address on, where the part ends there.
fn run_after(part: &Part, start: u64, run: PlainRun) -> PlainRun
    ensures { result ≡ (if end_of part.now % 2 ^ 64 == start then run else no_word) }
{
    if part.end() % ADDRESSES == u128::from(start) {
        run
    } else {
        PlainRun::no_word()
    }
}

/// The run that follows the last part from address 0 on, where the part has the last address.
fn run_past_last(parts: &[Part]) -> PlainRun
    requires { IsImage parts.now }
    ensures run { IsFollowedBy parts.now parts.now 0 result }
    ensures small { result.plain ≤ total parts.now }
{
    match parts.last() {
        Some(part) if part.end() == ADDRESSES => run_from_zero(parts),
        _ => PlainRun::no_word(),
    }
}

/// The run from address 0 on, a word after another.
fn run_from_zero(parts: &[Part]) -> PlainRun
    requires { IsImage parts.now }
    ensures run { IsRun parts.now 0 result }
    ensures small { result.plain ≤ total parts.now }
{
    let plain = plain_from_zero(parts);
    let class = class_at(parts, u64::from(plain) * INSTRUCTION_BYTES);
    PlainRun { plain, class }
}

/// How many plain words there are from address 0 on.
fn plain_from_zero(parts: &[Part]) -> u32
    requires { IsImage parts.now }
    ensures run { IsRunLength parts.now 0 result }
    ensures small { result ≤ total parts.now }
{
    let mut run = 0;
    while is_plain(parts, u64::from(run) * INSTRUCTION_BYTES) {
        run += 1;
    }
    run
}

/// Whether a plain word begins at an address.
fn is_plain(parts: &[Part], addr: u64) -> bool
    requires { IsImage parts.now }
    ensures { IsTrue result ↔ (class_at parts.now addr ≡ Some Plain) }
{
    matches!(class_at(parts, addr), Some(Class::Plain))
}

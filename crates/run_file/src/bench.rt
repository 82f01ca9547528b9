//! A run file: streams of events, each with its trace unit's settings, and weaves.
ghost use Rattle.std.specs.Prelude.{◌≡◌, ◌≤◌, ◌<◌, ◌+◌, ◌^◌, length, IfOk, IfSome, IsSome, None, slice_get};
ghost use Rattle.std.specs.Str.Lines.{lines};
ghost use Rattle.std.specs.Option.{option_and_then, option_map};
ghost use Rattle.std.specs.Result.{result_map_both};
ghost use Rattle.run_file.specs.Answers.{AnswersText};
ghost use Rattle.run_file.specs.BenchText.{add_lines, parsed};
ghost use Rattle.run_file.specs.Kept.{drafts_in};
ghost use Rattle.run_file.specs.Parts.{IsBench};

use crate::draft::{Draft, take_line};
use crate::fault::{BenchFault, BenchWhy, LineFault};
use crate::line::{BenchLine, Weave};
use crate::place::PlacedLines;
use crate::streams::Streams;
use etm_types::{Id, Settings};
use std::alloc::Global;
use std::marker::Model;

/// The parts of a run file, over its text. An event line takes 8 bytes beside the text: it is read again where it is asked for.
#[derive(Drop)]
pub struct Bench<'a> {
    streams: Streams<'a>,
    weaves: Vec<Weave>,
}

impl<'a> Model for Bench<'a> {
    ghost use Rattle.run_file.specs.Parts.{BenchParts, IsBench};

    ghost Value = { BenchParts };

    ghost use Rattle.run_file.specs.Kept.{parts_in};

    ghost view = { parts_in };

    ghost invariant = { λ b. IsBench (parts_in b) };
}

impl<'a> Bench<'a> {
    /// Reads the text of a run file. Its events are those that each line says; whether a run takes them, it does not ask.
    ///
    /// `Bad` has the first line that has a fault, and which. A text of 2^32 - 1 bytes or more is want of memory.
    #[tactic(auto, unfolding(crate::specs::BenchText::parsed))]
    pub fn read(alloc: Global, text: &'a [u8]) -> Result<Bench<'a>, BenchFault>
        ensures value { AnswersText result (parsed text.now) }
        ensures parts { IfOk result IsBench }
    {
        match read_lines(alloc, text)? {
            Some(draft) => Ok(draft.into_bench()),
            None => Err(BenchFault::Bad {
                line: 0,
                why: BenchWhy::Header,
            }),
        }
    }

    /// The run file of these parts.
    pub(crate) fn new(streams: Streams<'a>, weaves: Vec<Weave>) -> Bench<'a>
        requires { IsBench (record { streams = streams.streams; weaves = weaves.items }) }
        ensures { result ≡ record { streams = streams.entry.streams; weaves = weaves.items } }
    {
        Bench { streams, weaves }
    }

    /// How many streams there are.
    pub fn streams(&self) -> usize
        ensures { result ≡ length self.now.streams }
    {
        self.streams.len()
    }

    /// The ID of a stream, by its place in the order of declaration.
    pub fn id_at(&self, s: usize) -> Option<Id>
        ensures { result ≡ option_map (λ stream. stream.id) (slice_get self.now.streams s) }
    {
        Id::new(self.streams.id_at(s)?)
    }

    /// The sizes of a stream's trace unit, by its place in the order of declaration.
    pub fn settings_of(&self, s: usize) -> Option<Settings>
        ensures { result ≡ option_map (λ stream. stream.settings) (slice_get self.now.streams s) }
    {
        self.streams.settings_at(s)
    }

    /// The depth of its return stack.
    pub fn stack_of(&self, s: usize) -> Option<usize>
        ensures value { result ≡ option_map (λ stream. stream.stack) (slice_get self.now.streams s) }
        ensures within { IfSome result (λ stack. stack ≤ 15) }
    {
        self.streams.stack_at(s)
    }

    /// An event line of a stream, by its place among them. It is read again from the text, in time of its length.
    pub fn line_at(&self, s: usize, k: usize) -> Option<BenchLine>
        ensures value { result ≡ option_and_then (λ stream. slice_get stream.lines k) (slice_get self.now.streams s) }
        ensures within { IsSome result → k + 1 < 2 ^ 64 }
    {
        self.streams.line_at(s, k)
    }

    /// A weave, by its place among them.
    pub fn weave_at(&self, k: usize) -> Option<Weave>
        ensures value { result ≡ slice_get self.now.weaves k }
        ensures within { IsSome result → k + 1 < 2 ^ 64 }
    {
        self.weaves.get(k).copied()
    }
}

/// What the lines of a text say; nothing, where none has words.
fn read_lines<'a>(alloc: Global, text: &'a [u8]) -> Result<Option<Draft<'a>>, BenchFault>
    ensures { AnswersText (result_map_both drafts_in (λ fault. fault) result) (add_lines 1 None (lines text.now)) }
{
    let mut draft = None;
    let mut lines = PlacedLines::new(text).ok_or(BenchFault::Memory)?;
    while let Some((place, line)) = lines.next() {
        match take_line(alloc, text, &mut draft, place, line) {
            Ok(()) => {}
            Err(LineFault::Bad(why)) => {
                return Err(BenchFault::Bad {
                    line: u64::from(place.number),
                    why,
                });
            }
            Err(LineFault::Memory) => return Err(BenchFault::Memory),
        }
    }
    Ok(draft)
}

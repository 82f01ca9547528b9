//! The streams of a run file, in the order in which they were declared. Of an event line only its place in the text is kept: who wants
//! it reads it again.
ghost use Rattle.std.specs.Prelude.{◌≡◌, ◌+◌, ◌^◌, ◌<◌, ◌++◌, ◌∷◌, [], false, length, true, IsSome, Ok, OnOk, Some, slice_get};
ghost use Rattle.std.specs.Option.{option_and_then, option_map};
ghost use Rattle.etm_types.specs.Id.{IsId};
ghost use Rattle.etm_types.specs.Settings.{Sizes};
ghost use Rattle.line_words.specs.Line.{words_in};
ghost use Rattle.run_file.specs.Answers.{Answers};
ghost use Rattle.run_file.specs.BenchText.{is_empty, newest, with_line};
ghost use Rattle.run_file.specs.EventLines.{event_of, need, then_ok};
ghost use Rattle.run_file.specs.Parts.{has_stream};
ghost use Rattle.run_file.specs.Places.{IsRead, bench_line, line_of, words_at};

use crate::event_line::event_of;
use crate::fault::{BenchWhy, LineFault};
use crate::line::BenchLine;
use crate::place::{LineStart, line_from};
use etm_types::Settings;
use indexmap::IndexMap;
use line_words::next_word;
use std::alloc::{AllocError, Global};
use std::marker::Model;

/// A stream: the trace unit that writes it, and what its core does.
#[derive(Drop)]
pub struct Stream {
    settings: Settings,
    /// The depth of the return stack.
    stack: usize,
    /// Where the event lines begin, in their order.
    places: Vec<LineStart>,
}

/// The streams of a text.
#[derive(Drop)]
pub struct Streams<'a> {
    text: &'a [u8],
    /// By their IDs.
    by_id: IndexMap<u8, Stream>,
}

impl<'a> Model for Streams<'a> {
    ghost use Rattle.run_file.specs.KeptStreams.{TextStreams, streams_of};

    ghost Value = { TextStreams };

    ghost view = { streams_of };

    ghost use Rattle.run_file.specs.KeptStreams.{AreKept};

    ghost invariant = { λ s. AreKept s.text.now s.by_id.entries };
}

impl<'a> Streams<'a> {
    /// No stream of a text.
    pub fn new(alloc: Global, text: &'a [u8]) -> Streams<'a>
        ensures { result ≡ record { text = text.now; streams = [] } }
    {
        Streams {
            text,
            by_id: IndexMap::new(alloc),
        }
    }

    /// How many there are.
    pub fn len(&self) -> usize
        ensures { result ≡ length self.now.streams }
    {
        self.by_id.len()
    }

    /// Whether there is none.
    pub fn is_empty(&self) -> bool
        ensures { result ≡ is_empty self.now.streams }
    {
        self.by_id.is_empty()
    }

    /// Whether the ID has a stream. Only IDs of sources have.
    pub fn has(&self, id: u8) -> bool
        ensures value { result ≡ has_stream id self.now.streams }
        ensures source { result ≡ true → IsId id }
    {
        self.by_id.contains_key(&id)
    }

    /// The ID of a stream, by its place among them.
    pub fn id_at(&self, s: usize) -> Option<u8>
        ensures { result ≡ option_map (λ stream. stream.id) (slice_get self.now.streams s) }
    {
        let (id, _) = self.by_id.get_index(s)?;
        Some(*id)
    }

    /// The sizes of a stream's trace unit.
    pub fn settings_at(&self, s: usize) -> Option<Settings>
        ensures { result ≡ option_map (λ stream. stream.settings) (slice_get self.now.streams s) }
    {
        let (_, stream) = self.by_id.get_index(s)?;
        Some(stream.settings)
    }

    /// The depth of its return stack.
    pub fn stack_at(&self, s: usize) -> Option<usize>
        ensures { result ≡ option_map (λ stream. stream.stack) (slice_get self.now.streams s) }
    {
        let (_, stream) = self.by_id.get_index(s)?;
        Some(stream.stack)
    }

    /// An event line of a stream, by its place among them. It is read again from the text, in time of its length.
    pub fn line_at(&self, s: usize, k: usize) -> Option<BenchLine>
        ensures value { result ≡ option_and_then (λ stream. slice_get stream.lines k) (slice_get self.now.streams s) }
        ensures within { IsSome result → k + 1 < 2 ^ 64 }
    {
        let (_, stream) = self.by_id.get_index(s)?;
        let place = stream.places.get(k)?;
        Some(line_of(self.text, &stream.settings, *place))
    }

    /// Declares a stream behind the others.
    pub fn declare(
        &mut self,
        alloc: Global,
        id: u8,
        settings: Settings,
        stack: usize,
    ) -> Result<(), AllocError>
        requires source { IsId id }
        requires new { has_stream id self.old.streams ≡ false }
        ensures streams { OnOk result (self.new.streams
            ≡ self.old.streams ++ record { id = id; settings = settings; stack = stack; lines = [] } ∷ []) }
        ensures text { self.new.text ≡ self.old.text }
    {
        let stream = Stream {
            settings,
            stack,
            places: Vec::new(alloc),
        };
        self.by_id.insert(id, stream)?;
        Ok(())
    }

    /// The sizes of the newest stream's trace unit.
    pub fn newest_settings(&self) -> Option<Settings>
        ensures { result ≡ option_map (λ stream. stream.settings) (newest self.now.streams) }
    {
        let (_, stream) = self.by_id.last()?;
        Some(stream.settings)
    }

    /// Puts the event line of these words, which begins at the place, at the end of the newest stream.
    pub fn push_event(
        &mut self,
        place: LineStart,
        word: &[u8],
        rest: &[u8],
    ) -> Result<(), LineFault>
        requires { words_at self.old.text place ≡ word.now ∷ words_in rest.now }
        ensures streams { Answers (λ _. self.new.streams) result
            (need (option_map (λ stream. stream.settings) (newest self.old.streams)) (λ s. then_ok (event_of s word.now (words_in rest.now))
            (λ e. Ok (with_line (bench_line place.number e) self.old.streams)))) }
        ensures text { self.new.text ≡ self.old.text }
    {
        let settings = self
            .newest_settings()
            .ok_or(LineFault::Bad(BenchWhy::Syntax))?;
        event_of(&settings, word, rest).map_err(LineFault::Bad)?;
        self.push_place(place).map_err(|_| LineFault::Memory)?;
        Ok(())
    }

    /// Puts a line at the end of the newest stream, for whose settings it has an event.
    fn push_place(&mut self, place: LineStart) -> Result<(), AllocError>
        requires { (s : Sizes) × (option_map (λ stream. stream.settings) (newest self.old.streams) ≡ Some s) × IsRead self.old.text s place }
        ensures streams { (s : Sizes) → option_map (λ stream. stream.settings) (newest self.old.streams) ≡ Some s
            → OnOk result (self.new.streams ≡ with_line (line_of self.old.text s place) self.old.streams) }
        ensures text { self.new.text ≡ self.old.text }
    {
        let Some(stream) = self.by_id.last_mut() else {
            unreachable!()
        };
        stream.places.push(place)?;
        Ok(())
    }
}

/// The event line at a place where one was read before.
fn line_of(text: &[u8], settings: &Settings, place: LineStart) -> BenchLine
    requires { IsRead text.now settings.now place }
    ensures { result ≡ line_of text.now settings.now place }
{
    let (line, _) = line_from(text, place.start as usize);
    let Some((word, rest)) = next_word(line) else {
        unreachable!()
    };
    let Ok(repeated) = event_of(settings, word, rest) else {
        unreachable!()
    };
    BenchLine {
        line: u64::from(place.number),
        event: repeated.event,
        times: repeated.times,
    }
}

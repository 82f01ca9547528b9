//! Frames put together.
ghost use Rattle.std.specs.Prelude.{◌≡◌, ℕ, List, [], ◌∷◌, ◌++◌, false, Some, OnOk, is_err};
ghost use Rattle.formatter_frames.specs.Symbols.{told};
ghost use Rattle.formatter_frames.specs.Framed.{frames_of, whole_frames, framed};
ghost use Rattle.formatter_frames.specs.Writer.{StandsAt, AppendsGrowth, Puts};
ghost use Rattle.trace_io.specs.Calls.{Serves};

use crate::frame::{SYMBOLS, frame_of};
use crate::symbol::{FrameId, Symbol};
use etm_types::Id;
use std::marker::Model;
use trace_io::{Failed, Sink, write_all};

/// Writes bytes of trace, each with its ID, as frames. Contracts say at which list of pairs a writer
/// stands, and whether a call on it failed.
#[derive(Drop)]
pub struct FrameWriter {
    /// A frame that could not be written stays full.
    symbols: [Symbol; SYMBOLS],
    begun: usize,
    current: Option<Id>,
}

impl Model for FrameWriter {
    ghost use Rattle.std.specs.Prelude.{◌≡◌, ◌≤◌, ◌==◌, length, take};
    ghost use Rattle.formatter_frames.specs.Sizes.{frame_symbols};
    ghost use Rattle.formatter_frames.specs.Writer.{Begun};

    ghost Value = { Begun };

    ghost view = { λ w. record { symbols = take w.begun w.symbols; current = w.current; failed = w.begun == frame_symbols } };

    ghost invariant = { λ w. (w.begun ≤ frame_symbols) × (length w.symbols ≡ frame_symbols) };
}

impl FrameWriter {
    /// A writer that nothing was pushed to.
    pub fn new() -> Self
        ensures { StandsAt result [] }
    {
        FrameWriter {
            symbols: [Symbol::Data(0); SYMBOLS],
            begun: 0,
            current: None,
        }
    }

    /// Adds a byte of the source `id`, and writes the frame that it fills, if any. After it failed the
    /// writer is of no more use.
    pub fn push<K: Sink>(&mut self, id: Id, byte: u8, sink: &mut K) -> Result<(), Failed>
        requires { self.old.failed ≡ false }
        ensures stands { (pairs : List (ℕ × ℕ)) → StandsAt self.old pairs
            → OnOk result (StandsAt self.new (pairs ++ (id, byte) ∷ [])) }
        ensures failed { self.new.failed ≡ is_err result }
        ensures written { (pairs : List (ℕ × ℕ)) → StandsAt self.old pairs
            → AppendsGrowth (K.state sink.old) (K.state sink.new)
            (whole_frames pairs) (whole_frames (pairs ++ (id, byte) ∷ [])) result }
        ensures idle { (pairs : List (ℕ × ℕ)) → StandsAt self.old pairs
            → whole_frames (pairs ++ (id, byte) ∷ []) ≡ whole_frames pairs → sink.new ≡ sink.old }
        ensures serves { Serves (K.state sink.old) (K.state sink.new) result }
    {
        self.tell(id, sink)?;
        self.put(Symbol::Data(byte), sink)
    }

    /// Fills the frame that was begun, if any, with zeros of the null ID, and writes it.
    pub fn finish<K: Sink>(self, sink: &mut K) -> Result<(), Failed>
        requires { self.failed ≡ false }
        ensures written { (pairs : List (ℕ × ℕ)) → StandsAt self pairs
            → AppendsGrowth (K.state sink.old) (K.state sink.new)
            (whole_frames pairs) (framed pairs) result }
        ensures idle { (pairs : List (ℕ × ℕ)) → StandsAt self pairs
            → framed pairs ≡ whole_frames pairs → sink.new ≡ sink.old }
        ensures serves { Serves (K.state sink.old) (K.state sink.new) result }
    {
        if self.begun == 0 {
            return Ok(());
        }
        let mut symbols = self.symbols;
        symbols[self.begun] = Symbol::NewId(FrameId::new(0));
        for place in self.begun + 1..SYMBOLS {
            symbols[place] = Symbol::Data(0);
        }
        write_all(sink, &frame_of(&symbols))
    }

    /// Makes `id` the ID that holds.
    fn tell<K: Sink>(&mut self, id: Id, sink: &mut K) -> Result<(), Failed>
        requires { self.old.failed ≡ false }
        ensures puts { Puts self.old self.new (told self.old.current id) (K.state sink.old) (K.state sink.new) result }
        ensures current { OnOk result (self.new.current ≡ Some id) }
        ensures idle { frames_of (self.old.symbols ++ told self.old.current id) ≡ [] → sink.new ≡ sink.old }
        ensures serves { Serves (K.state sink.old) (K.state sink.new) result }
    {
        if self.current == Some(id) {
            return Ok(());
        }
        self.current = Some(id);
        self.put(Symbol::NewId(FrameId::new(id.get())), sink)
    }

    /// Takes the next place of the frame, and writes the frame once it is full.
    fn put<K: Sink>(&mut self, symbol: Symbol, sink: &mut K) -> Result<(), Failed>
        requires { self.old.failed ≡ false }
        ensures puts { Puts self.old self.new (symbol ∷ []) (K.state sink.old) (K.state sink.new) result }
        ensures current { self.new.current ≡ self.old.current }
        ensures idle { frames_of (self.old.symbols ++ symbol ∷ []) ≡ [] → sink.new ≡ sink.old }
        ensures serves { Serves (K.state sink.old) (K.state sink.new) result }
    {
        self.symbols[self.begun] = symbol;
        self.begun += 1;
        if self.begun < SYMBOLS {
            return Ok(());
        }
        write_all(sink, &frame_of(&self.symbols))?;
        self.begun = 0;
        Ok(())
    }
}

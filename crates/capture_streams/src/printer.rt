//! What prints an input, piece by piece, however it is laid out.
ghost use Rattle.std.specs.Prelude.{◌≡◌, ◌<◌, ◌≤◌, ◌+◌, ◌^◌, ◌++◌, ◌↔◌, [], ℕ, List, length};
ghost use Rattle.std.specs.Prelude.{Bool, false, not, IsOk, IsErr, IsTrue, IfOk};
ghost use Rattle.capture_streams.specs.Demuxed.{Gains};
ghost use Rattle.capture_streams.specs.Laid.{IsLaid, Laid, Rests};
ghost use Rattle.capture_streams.specs.Texts.{IsEnding, IsSum, Listing, Printed, text_of};
ghost use Rattle.etm_types.specs.Settings.{Sizes};
ghost use Rattle.path_text.specs.Writing.{Writes};
ghost use Rattle.trace_io.specs.Calls.{Serves};

use crate::demux::Demux;
use crate::raw::RawStream;
use crate::stream::Stream;
use trace_io::{Failed, Sink};

/// Takes an input by pieces, and writes the lines that they add. It ends by `finish`, `close` or `abandon`: code that works with any printer has
/// no other way.
pub trait Printer {
    /// What all streams of the input share.
    type Shared;

    /// Whether a write failed.
    ghost broken: { Self → Bool };

    /// How many bytes were taken.
    ghost offset: { Self → ℕ };

    /// These bytes were taken, under these sizes of the trace units, by ID.
    ghost stands: { Self.Shared → (ℕ → Sizes) → Self → List ℕ → Type 0 };

    /// What is printed of streams under these sizes, each by its ID.
    ghost listing: { Self.Shared → (ℕ → Sizes) → Listing };

    /// These bytes were taken, and no more come.
    ghost ended: { Self.Shared → (ℕ → Sizes) → Self → List ℕ → Type 0 };

    /// The number of frames that come last.
    ghost frames: { Self → ℕ };

    /// How bytes become pairs of ID and byte, where so many frames come last.
    ghost laid: { ℕ → Laid };

    /// Takes the next bytes, and writes the lines that they add. The error means that a write failed.
    fn take_piece<K: Sink>(
        &mut self,
        shared: &Self::Shared,
        piece: &[u8],
        sink: &mut K,
    ) -> Result<(), Failed>
        requires whole { broken self.old ≡ false }
        requires few { offset self.old + length piece.now ≤ 2 ^ 30 }
        ensures stands { (t : ℕ → Sizes) (bytes : List ℕ) → stands shared.now t self.old bytes → IsOk result
            → stands shared.now t self.new (bytes ++ piece.now) }
        ensures gains { (t : ℕ → Sizes) (bytes : List ℕ) → stands shared.now t self.old bytes
            → Gains (laid (frames self.old)).carried (listing shared.now t) bytes piece.now (K.state sink.old) (K.state sink.new) result }
        ensures serves { Serves (K.state sink.old) (K.state sink.new) result }
        ensures broken { IsTrue (broken self.new) ↔ IsErr result }
        ensures offset { IsOk result → offset self.new ≡ offset self.old + length piece.now }
        ensures frames { frames self.new ≡ frames self.old };

    /// No more bytes come: writes the lines of the pairs that did not come with them. The error means that a write failed.
    fn take_rest<K: Sink>(&mut self, shared: &Self::Shared, sink: &mut K) -> Result<(), Failed>
        requires whole { broken self.old ≡ false }
        requires few { offset self.old ≤ 2 ^ 30 }
        ensures ended { (t : ℕ → Sizes) (bytes : List ℕ) → stands shared.now t self.old bytes → IsOk result
            → ended shared.now t self.new bytes }
        ensures rests { (t : ℕ → Sizes) (bytes : List ℕ) → stands shared.now t self.old bytes
            → Rests (laid (frames self.old)) (listing shared.now t) bytes (K.state sink.old) (K.state sink.new) result }
        ensures serves { Serves (K.state sink.old) (K.state sink.new) result }
        ensures broken { IsTrue (broken self.new) ↔ IsErr result }
        ensures frames { frames self.new ≡ frames self.old };

    /// Writes the lines of the sum, and how the streams end. Says whether none ends with a fault and no frame is cut.
    fn finish<K: Sink>(self, shared: &Self::Shared, sink: &mut K) -> Result<bool, Failed>
        requires { broken self ≡ false }
        ensures ending { (t : ℕ → Sizes) (bytes : List ℕ) → ended shared.now t self bytes
            → (lines : List Printed) × (faulty : Bool)
            × IsEnding (listing shared.now t) ((laid (frames self)).whole bytes) ((laid (frames self)).left bytes) lines faulty
            × Writes (K.state sink.old) (K.state sink.new) result (text_of lines) × IfOk result (λ whole. whole ≡ not faulty) }
        ensures serves { Serves (K.state sink.old) (K.state sink.new) result };

    /// Writes the lines of the sum of what was taken, and ends it without more.
    fn close<K: Sink>(self, shared: &Self::Shared, sink: &mut K) -> Result<(), Failed>
        ensures sum { (t : ℕ → Sizes) (bytes : List ℕ) → stands shared.now t self bytes
            → (sums : List Printed) × IsSum (listing shared.now t) ((laid (frames self)).carried bytes) sums
            × Writes (K.state sink.old) (K.state sink.new) result (text_of sums) }
        ensures serves { Serves (K.state sink.old) (K.state sink.new) result };

    /// Ends it without a line.
    fn abandon(self);

    /// So it is whatever their number.
    ghost is_laid: { (k : ℕ) → IsLaid (laid k) };
}

/// Frames of many sources.
impl<S: Stream> Printer for Demux<S> {
    ghost use Rattle.capture_streams.specs.Demuxed.{StandsAt};
    ghost use Rattle.capture_streams.specs.Laid.{frames_laid, frames_laid_is};
    ghost use Rattle.capture_streams.specs.Texts.{by_sizes};

    type Shared = S::Shared;

    ghost broken = { λ d. d.broken };

    ghost offset = { λ d. d.offset };

    ghost stands = { λ shared t d bytes. StandsAt (S.stands shared) S.sizes (S.sums shared) (S.listing shared) t d bytes };

    ghost listing = { λ shared t. by_sizes (S.listing shared) t };

    ghost ended = { λ shared t d bytes. StandsAt (S.stands shared) S.sizes (S.sums shared) (S.listing shared) t d bytes };

    ghost frames = { λ d. 0 };

    ghost laid = { λ k. frames_laid };

    fn take_piece<K: Sink>(
        &mut self,
        shared: &S::Shared,
        piece: &[u8],
        sink: &mut K,
    ) -> Result<(), Failed> {
        Demux::take_piece(self, shared, piece, sink)
    }

    fn take_rest<K: Sink>(&mut self, _shared: &S::Shared, _sink: &mut K) -> Result<(), Failed> {
        // What frames carry came with the last byte of each, and one that is cut carries nothing.
        Ok(())
    }

    fn finish<K: Sink>(self, shared: &S::Shared, sink: &mut K) -> Result<bool, Failed> {
        Demux::finish(self, shared, sink)
    }

    fn close<K: Sink>(self, shared: &S::Shared, sink: &mut K) -> Result<(), Failed> {
        Demux::close(self, shared, sink)
    }

    fn abandon(self) {
        Demux::abandon(self);
    }

    ghost is_laid = { λ k. frames_laid_is };
}

/// One stream that is not framed.
impl<S: Stream> Printer for RawStream<S> {
    ghost use Rattle.capture_streams.specs.Demuxed.{RawStandsAt};
    ghost use Rattle.capture_streams.specs.Laid.{raw_laid, raw_laid_is};
    ghost use Rattle.capture_streams.specs.Texts.{by_sizes};

    type Shared = S::Shared;

    ghost broken = { λ r. S.broken r.stream };

    ghost offset = { λ r. S.offset r.stream };

    ghost stands = { λ shared t r bytes. RawStandsAt (S.stands shared) S.sizes S.broken S.offset (S.sums shared) (S.listing shared) t r bytes };

    ghost listing = { λ shared t. by_sizes (S.listing shared) t };

    ghost ended = { λ shared t r bytes. RawStandsAt (S.stands shared) S.sizes S.broken S.offset (S.sums shared) (S.listing shared) t r bytes };

    ghost frames = { λ r. 0 };

    ghost laid = { λ k. raw_laid };

    fn take_piece<K: Sink>(
        &mut self,
        shared: &S::Shared,
        piece: &[u8],
        sink: &mut K,
    ) -> Result<(), Failed> {
        RawStream::take_piece(self, shared, piece, sink)
    }

    fn take_rest<K: Sink>(&mut self, _shared: &S::Shared, _sink: &mut K) -> Result<(), Failed> {
        // Each byte came at once.
        Ok(())
    }

    fn finish<K: Sink>(self, shared: &S::Shared, sink: &mut K) -> Result<bool, Failed> {
        RawStream::finish(self, shared, sink)
    }

    fn close<K: Sink>(self, shared: &S::Shared, sink: &mut K) -> Result<(), Failed> {
        RawStream::close(self, shared, sink)
    }

    fn abandon(self) {
        RawStream::abandon(self);
    }

    ghost is_laid = { λ k. raw_laid_is };
}

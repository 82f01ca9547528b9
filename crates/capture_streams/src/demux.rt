//! Frames of many sources, taken by pieces.
ghost use Rattle.std.specs.Prelude.{◌≡◌, ◌<◌, ◌≤◌, ◌+◌, ◌^◌, ◌++◌, ◌∷◌, ◌↔◌, [], ℕ, List, Bool, false, All, not, length, take, map, IsOk, IsErr, IsTrue, IfOk};
ghost use Rattle.capture_streams.specs.Demuxed.{Gains, StandsAt};
ghost use Rattle.capture_streams.specs.Streams.{Adds, AllStand, AllTallied, HoldsToDepth, IsReady, total};
ghost use Rattle.capture_streams.specs.Texts.{IsEnding, IsSum, Printed, by_sizes, text_of};
ghost use Rattle.element_queue.specs.Counting.{Balances, no_counts};
ghost use Rattle.etm_types.specs.Settings.{Sizes};
ghost use Rattle.etm_types.specs.SettingsTable.{sizes_at};
ghost use Rattle.formatter_frames.specs.Reader as reader;
ghost use Rattle.formatter_frames.specs.Unframed.{begun_frame, unframed};
ghost use Rattle.path_text.specs.Writing.{Writes};
ghost use Rattle.trace_io.specs.Calls.{Serves};

use crate::sources::Sources;
use crate::stream::Stream;
use element_queue::{Counts, Ledger};
use etm_types::SettingsTable;
use formatter_frames::{FrameBytes, FrameReader};
use path_text::write_frame_cut;
use std::alloc::{AllocError, Global};
use std::marker::Model;
use trace_io::{Failed, Sink};

/// Takes the bytes of frames piece by piece, parts them into the streams of up to 111 sources, and writes the lines that they
/// add. It has no drop: it ends by `finish`, `close` or `abandon`.
///
/// It stands at the bytes that it took. What all streams share is the same in all calls.
#[must_use]
pub struct Demux<S: Stream> {
    frames: FrameReader,
    sources: Sources<S>,
    /// How many bytes were taken.
    offset: u64,
    /// Whether a write failed.
    broken: bool,
}

impl<S: Stream> Model for Demux<S> {
    ghost use Rattle.std.specs.Prelude.{◌≡◌, ◌≤◌, ◌*◌, false, All};
    ghost use Rattle.capture_streams.specs.Demuxed.{Demuxed, demuxed_code, most_bytes};
    ghost use Rattle.capture_streams.specs.Streams.{HoldsToDepth, IsReady};

    ghost Value = { Demuxed S S.Sum };

    ghost coded = { demuxed_code S.code S.Sum.code };

    ghost view = { λ d. record { frames = d.frames; sources = d.sources; offset = d.offset; broken = d.broken } };

    ghost invariant = { λ d. (d.offset ≤ most_bytes) × (d.broken ≡ false → All (IsReady S.broken S.offset (15 * d.offset)) d.sources.streams)
        × All (HoldsToDepth S.held S.sizes) d.sources.streams };
}

impl<S: Stream> Demux<S> {
    /// A demultiplexer that has taken nothing, with a stream for each source, which has the settings of its ID. This is the one call that
    /// takes memory, and the error means want of it.
    pub fn new(
        alloc: Global,
        shared: &S::Shared,
        table: &SettingsTable,
    ) -> Result<Demux<S>, AllocError>
        ensures stands { IfOk result (λ d.
            StandsAt (S.stands shared.now) S.sizes (S.sums shared.now) (S.listing shared.now) (sizes_at table.now) d []) }
        ensures most { IfOk result (λ d. All (HoldsToDepth S.held S.sizes) d.sources.streams) }
    {
        Ok(Demux {
            frames: FrameReader::new(),
            sources: Sources::new(alloc, shared, table)?,
            offset: 0,
            broken: false,
        })
    }

    /// Takes the next bytes of the frames, and writes the lines that they add. A fault of a stream stops that stream
    /// alone. The error means that a write failed; then nothing more is taken, and it is broken.
    pub fn take_piece<K: Sink>(
        &mut self,
        shared: &S::Shared,
        piece: &[u8],
        sink: &mut K,
    ) -> Result<(), Failed>
        requires whole { self.old.broken ≡ false }
        requires few { self.old.offset + length piece.now ≤ 2 ^ 30 }
        ensures stands { (t : ℕ → Sizes) (bytes : List ℕ)
            → StandsAt (S.stands shared.now) S.sizes (S.sums shared.now) (S.listing shared.now) t self.old bytes → IsOk result
            → StandsAt (S.stands shared.now) S.sizes (S.sums shared.now) (S.listing shared.now) t self.new (bytes ++ piece.now) }
        ensures gains { (t : ℕ → Sizes) (bytes : List ℕ)
            → StandsAt (S.stands shared.now) S.sizes (S.sums shared.now) (S.listing shared.now) t self.old bytes
            → Gains unframed (by_sizes (S.listing shared.now) t) bytes piece.now (K.state sink.old) (K.state sink.new) result }
        ensures serves { Serves (K.state sink.old) (K.state sink.new) result }
        ensures broken { IsTrue self.new.broken ↔ IsErr result }
        ensures offset { IsOk result → self.new.offset ≡ self.old.offset + length piece.now }
        ensures between { (self.old.offset ≤ self.new.offset) × (self.new.offset ≤ self.old.offset + length piece.now) }
        ensures sizes { map S.sizes self.new.sources.streams ≡ map S.sizes self.old.sources.streams }
        ensures most { All (HoldsToDepth S.held S.sizes) self.new.sources.streams }
    {
        let mut at = 0;
        while at < piece.len() {
            match take_front(
                &mut self.frames,
                &mut self.sources,
                shared,
                &piece[at..],
                sink,
            ) {
                Ok(count) => {
                    self.offset += count as u64;
                    at += count;
                }
                Err(failed) => {
                    self.broken = true;
                    return Err(failed);
                }
            }
        }
        Ok(())
    }

    /// Whether a write failed. Then it takes no more bytes, and is abandoned.
    pub fn broken(&self) -> bool
        ensures { result ≡ self.now.broken }
    {
        self.broken
    }

    /// How many bytes of frames were taken.
    pub fn offset(&self) -> u64
        ensures value { result ≡ self.now.offset }
        ensures all { (shared : S.Shared) (t : ℕ → Sizes) (bytes : List ℕ)
            → StandsAt (S.stands shared) S.sizes (S.sums shared) (S.listing shared) t self.now bytes
            → result ≡ length bytes }
    {
        self.offset
    }

    /// What became of the P0 elements of all streams. Never more are held of a stream than the depth that its sizes give, whatever
    /// the bytes.
    pub fn ledger(&self) -> Counts
        ensures value { result ≡ total no_counts (map S.counts self.now.sources.streams) }
        ensures tallied { (shared : S.Shared) (t : ℕ → Sizes) (bytes : List ℕ)
            → StandsAt (S.stands shared) S.sizes (S.sums shared) (S.listing shared) t self.now bytes
            → AllTallied (S.tallies shared) t (map S.counts self.now.sources.streams) (unframed bytes) }
        ensures most { All (HoldsToDepth S.held S.sizes) self.now.sources.streams }
    {
        self.sources.ledger()
    }

    /// Writes the lines of the sum; then that of how each stream ends that had a byte, by ID; and then one where a frame was begun and is
    /// not full. Says whether there is no fault and no such frame.
    pub fn finish<K: Sink>(self, shared: &S::Shared, sink: &mut K) -> Result<bool, Failed>
        requires { self.broken ≡ false }
        ensures ending { (t : ℕ → Sizes) (bytes : List ℕ)
            → StandsAt (S.stands shared.now) S.sizes (S.sums shared.now) (S.listing shared.now) t self bytes
            → (lines : List Printed) × (faulty : Bool)
            × IsEnding (by_sizes (S.listing shared.now) t) (unframed bytes) (length (begun_frame bytes)) lines faulty
            × Writes (K.state sink.old) (K.state sink.new) result (text_of lines) × IfOk result (λ whole. whole ≡ not faulty) }
        ensures serves { Serves (K.state sink.old) (K.state sink.new) result }
    {
        let Demux {
            frames,
            sources,
            offset: _,
            broken: _,
        } = self;
        let left = frames.left();
        let whole = sources.finish(shared, sink)?;
        if left == 0 {
            return Ok(whole);
        }
        write_frame_cut(left, sink)?;
        Ok(false)
    }

    /// Writes the lines of the sum, and ends it without more.
    pub fn close<K: Sink>(self, shared: &S::Shared, sink: &mut K) -> Result<(), Failed>
        ensures sum { (t : ℕ → Sizes) (bytes : List ℕ)
            → StandsAt (S.stands shared.now) S.sizes (S.sums shared.now) (S.listing shared.now) t self bytes
            → (sums : List Printed) × IsSum (by_sizes (S.listing shared.now) t) (unframed bytes) sums
            × Writes (K.state sink.old) (K.state sink.new) result (text_of sums) }
        ensures serves { Serves (K.state sink.old) (K.state sink.new) result }
    {
        let Demux {
            frames: _,
            sources,
            offset: _,
            broken: _,
        } = self;
        sources.close(shared, sink)
    }

    /// Ends it without a line. The ledger has what became of the P0 elements of all streams.
    pub fn abandon(self) -> Ledger
        ensures value { result ≡ total no_counts (map S.counts_left self.sources.streams) }
        ensures balanced { Balances result 0 }
    {
        let Demux {
            frames: _,
            sources,
            offset: _,
            broken: _,
        } = self;
        sources.abandon()
    }
}

/// Takes the bytes of a piece up to the end of the frame that is begun, and the bytes that this frame carries where it is full. Says
/// how many it took of the piece.
fn take_front<S: Stream, K: Sink>(
    frames: &mut FrameReader,
    sources: &mut Sources<S>,
    shared: &S::Shared,
    piece: &[u8],
    sink: &mut K,
) -> Result<usize, Failed>
    requires { All (IsReady S.broken S.offset (2 ^ 61)) sources.old.streams }
    ensures frames { (bytes : List ℕ) → reader.StandsAt frames.old bytes → IfOk result (λ n. reader.StandsAt frames.new (bytes ++ take n piece.now)) }
    ensures stands { (t : ℕ → Sizes) (bytes : List ℕ) → reader.StandsAt frames.old bytes
        → AllStand (S.stands shared.now) S.sizes (S.sums shared.now) (S.listing shared.now) t sources.old (unframed bytes)
        → IfOk result (λ n. AllStand (S.stands shared.now) S.sizes (S.sums shared.now) (S.listing shared.now)
        t sources.new (unframed (bytes ++ take n piece.now))) }
    ensures gains { (t : ℕ → Sizes) (bytes : List ℕ) → reader.StandsAt frames.old bytes
        → AllStand (S.stands shared.now) S.sizes (S.sums shared.now) (S.listing shared.now) t sources.old (unframed bytes)
        → (n : ℕ) × Gains unframed (by_sizes (S.listing shared.now) t) bytes (take n piece.now) (K.state sink.old) (K.state sink.new) result
        × IfOk result (λ count. count ≡ n) }
    ensures serves { Serves (K.state sink.old) (K.state sink.new) result }
    ensures ready { (most : ℕ) → All (IsReady S.broken S.offset most) sources.old.streams → IsOk result
        → All (IsReady S.broken S.offset (most + 15)) sources.new.streams }
    ensures sizes { map S.sizes sources.new.streams ≡ map S.sizes sources.old.streams }
    ensures most { All (HoldsToDepth S.held S.sizes) sources.old.streams → All (HoldsToDepth S.held S.sizes) sources.new.streams }
    ensures some { IfOk result (λ n. (n ≤ length piece.now) × (0 < length piece.now → 0 < n)) }
{
    let (count, frame) = frames.take(piece);
    if let Some(frame) = frame {
        take_frame(sources, shared, &frame, sink)?;
    }
    Ok(count)
}

/// Takes the bytes that a frame carries, in order, those of one ID together.
fn take_frame<S: Stream, K: Sink>(
    sources: &mut Sources<S>,
    shared: &S::Shared,
    frame: &FrameBytes,
    sink: &mut K,
) -> Result<(), Failed>
    requires { All (IsReady S.broken S.offset (2 ^ 61)) sources.old.streams }
    ensures stands { (t : ℕ → Sizes) (pairs : List (ℕ × ℕ))
        → AllStand (S.stands shared.now) S.sizes (S.sums shared.now) (S.listing shared.now) t sources.old pairs → IsOk result
        → AllStand (S.stands shared.now) S.sizes (S.sums shared.now) (S.listing shared.now) t sources.new (pairs ++ frame.now) }
    ensures adds { (t : ℕ → Sizes) (pairs : List (ℕ × ℕ))
        → AllStand (S.stands shared.now) S.sizes (S.sums shared.now) (S.listing shared.now) t sources.old pairs
        → Adds (by_sizes (S.listing shared.now) t) pairs frame.now (K.state sink.old) (K.state sink.new) result }
    ensures serves { Serves (K.state sink.old) (K.state sink.new) result }
    ensures ready { (most : ℕ) → All (IsReady S.broken S.offset most) sources.old.streams → IsOk result
        → All (IsReady S.broken S.offset (most + 15)) sources.new.streams }
    ensures sizes { map S.sizes sources.new.streams ≡ map S.sizes sources.old.streams }
    ensures most { All (HoldsToDepth S.held S.sizes) sources.old.streams → All (HoldsToDepth S.held S.sizes) sources.new.streams }
{
    let mut place = 0;
    while let Some((id, run)) = frame.run_at(place) {
        sources.take_run(shared, id, run, sink)?;
        place += run.len();
    }
    Ok(())
}

//! Frames of many sources in a capture buffer that was written round.
ghost use Rattle.std.specs.Prelude.{◌≡◌, ◌<◌, ◌≤◌, ◌+◌, ◌^◌, ◌++◌, ◌∷◌, ◌↔◌, [], ℕ, List, Bool, false, not, length, IsOk, IsErr, IsTrue, IfOk};
ghost use Rattle.capture_streams.specs.Demuxed.{Gains, StandsAt};
ghost use Rattle.capture_streams.specs.Texts.{by_sizes};
ghost use Rattle.etm_types.specs.Settings.{Sizes};
ghost use Rattle.etm_types.specs.SettingsTable.{sizes_at};
ghost use Rattle.formatter_frames.specs.Unframed.{begun_frame, unframed};
ghost use Rattle.ring_capture.specs.Laid.{later_pairs};
ghost use Rattle.ring_capture.specs.Rotated.{first_frames, later_frames, rotated};
ghost use Rattle.ring_capture.specs.Wrapped.{HaveTaken, offset_of};
ghost use Rattle.trace_io.specs.Calls.{Serves};

use crate::unwrap::Unwrap;
use capture_streams::{Demux, Printer, Stream};
use etm_types::SettingsTable;
use std::alloc::{AllocError, Global};
use std::marker::Model;
use trace_io::{Failed, Sink};

/// Takes the bytes of a capture buffer whose oldest frame is not its first one, and writes the lines that its streams add: those of the
/// frames from the oldest one on as they come, and those of the first frames once no more bytes come. It has no drop: it ends by
/// `finish`, `close` or `abandon`.
#[must_use]
pub struct WrappedDemux<S: Stream> {
    unwrap: Unwrap,
    demux: Demux<S>,
}

impl<S: Stream> Model for WrappedDemux<S> {
    ghost use Rattle.ring_capture.specs.Wrapped.{Wrapped, wrapped_code};

    ghost Value = { Wrapped S S.Sum };

    ghost coded = { wrapped_code S.code S.Sum.code };

    ghost view = { λ w. record { unwrap = w.unwrap; demux = w.demux } };
}

impl<S: Stream> WrappedDemux<S> {
    /// One that has taken nothing, with a stream for each source, which has the settings of its ID. So many frames come last. This is the
    /// one call that takes memory, and the error means want of it.
    pub fn new(
        alloc: Global,
        frames: u32,
        shared: &S::Shared,
        table: &SettingsTable,
    ) -> Result<WrappedDemux<S>, AllocError>
        requires { frames ≤ 65536 }
        ensures frames { IfOk result (λ w. w.unwrap.frames ≡ frames) }
        ensures stands { IfOk result (λ w.
            HaveTaken (S.stands shared.now) S.sizes (S.sums shared.now) (S.listing shared.now) (sizes_at table.now) w.unwrap w.demux []) }
    {
        let unwrap = Unwrap::new(alloc, frames)?;
        Ok(WrappedDemux {
            unwrap,
            demux: Demux::new(alloc, shared, table)?,
        })
    }
}

/// Takes a byte, and writes the lines that it adds.
fn take_byte<S: Stream, K: Sink>(
    unwrap: &mut Unwrap,
    demux: &mut Demux<S>,
    shared: &S::Shared,
    byte: u8,
    sink: &mut K,
) -> Result<(), Failed>
    requires whole { demux.old.broken ≡ false }
    requires few { offset_of unwrap.old demux.old + 1 ≤ 2 ^ 30 }
    ensures stands { (t : ℕ → Sizes) (bytes : List ℕ)
        → HaveTaken (S.stands shared.now) S.sizes (S.sums shared.now) (S.listing shared.now) t unwrap.old demux.old bytes → IsOk result
        → HaveTaken (S.stands shared.now) S.sizes (S.sums shared.now) (S.listing shared.now) t unwrap.new demux.new (bytes ++ byte ∷ []) }
    ensures gains { (t : ℕ → Sizes) (bytes : List ℕ)
        → HaveTaken (S.stands shared.now) S.sizes (S.sums shared.now) (S.listing shared.now) t unwrap.old demux.old bytes
        → Gains (later_pairs unwrap.old.frames) (by_sizes (S.listing shared.now) t) bytes (byte ∷ []) (K.state sink.old) (K.state sink.new) result }
    ensures serves { Serves (K.state sink.old) (K.state sink.new) result }
    ensures broken { IsTrue demux.new.broken ↔ IsErr result }
    ensures good { IsOk result → demux.new.broken ≡ false }
    ensures frames { unwrap.new.frames ≡ unwrap.old.frames }
    ensures offset { IsOk result → offset_of unwrap.new demux.new ≡ offset_of unwrap.old demux.old + 1 }
{
    match unwrap.take(byte) {
        Some(frame) => demux.take_piece(shared, &frame, sink),
        None => Ok(()),
    }
}

/// Takes a piece, and writes the lines that it adds.
fn take_bytes<S: Stream, K: Sink>(
    unwrap: &mut Unwrap,
    demux: &mut Demux<S>,
    shared: &S::Shared,
    piece: &[u8],
    sink: &mut K,
) -> Result<(), Failed>
    requires whole { demux.old.broken ≡ false }
    requires few { offset_of unwrap.old demux.old + length piece.now ≤ 2 ^ 30 }
    ensures stands { (t : ℕ → Sizes) (bytes : List ℕ)
        → HaveTaken (S.stands shared.now) S.sizes (S.sums shared.now) (S.listing shared.now) t unwrap.old demux.old bytes → IsOk result
        → HaveTaken (S.stands shared.now) S.sizes (S.sums shared.now) (S.listing shared.now) t unwrap.new demux.new (bytes ++ piece.now) }
    ensures gains { (t : ℕ → Sizes) (bytes : List ℕ)
        → HaveTaken (S.stands shared.now) S.sizes (S.sums shared.now) (S.listing shared.now) t unwrap.old demux.old bytes
        → Gains (later_pairs unwrap.old.frames) (by_sizes (S.listing shared.now) t) bytes piece.now (K.state sink.old) (K.state sink.new) result }
    ensures serves { Serves (K.state sink.old) (K.state sink.new) result }
    ensures broken { IsTrue demux.new.broken ↔ IsErr result }
    ensures frames { unwrap.new.frames ≡ unwrap.old.frames }
    ensures offset { IsOk result → offset_of unwrap.new demux.new ≡ offset_of unwrap.old demux.old + length piece.now }
{
    let mut at = 0;
    while at < piece.len() {
        match take_byte(unwrap, demux, shared, piece[at], sink) {
            Ok(()) => at += 1,
            Err(failed) => return Err(failed),
        }
    }
    Ok(())
}

/// Takes the frames that were kept, and then the bytes of the frame that was begun, and writes the lines that they add.
fn take_kept<S: Stream, K: Sink>(
    unwrap: &Unwrap,
    demux: &mut Demux<S>,
    shared: &S::Shared,
    sink: &mut K,
) -> Result<(), Failed>
    requires whole { demux.old.broken ≡ false }
    requires few { offset_of unwrap.now demux.old ≤ 2 ^ 30 }
    ensures stands { (t : ℕ → Sizes) (bytes : List ℕ)
        → HaveTaken (S.stands shared.now) S.sizes (S.sums shared.now) (S.listing shared.now) t unwrap.now demux.old bytes → IsOk result
        → StandsAt (S.stands shared.now) S.sizes (S.sums shared.now) (S.listing shared.now) t demux.new (rotated unwrap.now.frames bytes) }
    ensures gains { (t : ℕ → Sizes) (bytes : List ℕ)
        → HaveTaken (S.stands shared.now) S.sizes (S.sums shared.now) (S.listing shared.now) t unwrap.now demux.old bytes
        → Gains unframed (by_sizes (S.listing shared.now) t) (later_frames unwrap.now.frames bytes)
        (first_frames unwrap.now.frames bytes ++ begun_frame bytes) (K.state sink.old) (K.state sink.new) result }
    ensures serves { Serves (K.state sink.old) (K.state sink.new) result }
    ensures broken { IsTrue demux.new.broken ↔ IsErr result }
{
    let mut j = 0;
    while let Some(frame) = unwrap.kept(j) {
        match demux.take_piece(shared, &frame, sink) {
            Ok(()) => j += 1,
            Err(failed) => return Err(failed),
        }
    }
    demux.take_piece(shared, unwrap.tail(), sink)
}

impl<S: Stream> Printer for WrappedDemux<S> {
    ghost use Rattle.capture_streams.specs.Demuxed.{StandsAt};
    ghost use Rattle.capture_streams.specs.Texts.{by_sizes};
    ghost use Rattle.ring_capture.specs.Laid.{wrapped_laid, wrapped_laid_is};
    ghost use Rattle.ring_capture.specs.Rotated.{rotated};
    ghost use Rattle.ring_capture.specs.Wrapped.{HaveTaken, offset_of};

    type Shared = S::Shared;

    ghost broken = { λ w. w.demux.broken };

    ghost offset = { λ w. offset_of w.unwrap w.demux };

    ghost stands = { λ shared t w bytes. HaveTaken (S.stands shared) S.sizes (S.sums shared) (S.listing shared) t w.unwrap w.demux bytes };

    ghost listing = { λ shared t. by_sizes (S.listing shared) t };

    ghost ended = { λ shared t w bytes. StandsAt (S.stands shared) S.sizes (S.sums shared) (S.listing shared) t w.demux (rotated w.unwrap.frames bytes) };

    ghost frames = { λ w. w.unwrap.frames };

    ghost laid = { λ k. wrapped_laid k };

    fn take_piece<K: Sink>(
        &mut self,
        shared: &S::Shared,
        piece: &[u8],
        sink: &mut K,
    ) -> Result<(), Failed> {
        take_bytes(&mut self.unwrap, &mut self.demux, shared, piece, sink)
    }

    fn take_rest<K: Sink>(&mut self, shared: &S::Shared, sink: &mut K) -> Result<(), Failed> {
        take_kept(&self.unwrap, &mut self.demux, shared, sink)
    }

    fn finish<K: Sink>(self, shared: &S::Shared, sink: &mut K) -> Result<bool, Failed> {
        let WrappedDemux { unwrap: _, demux } = self;
        demux.finish(shared, sink)
    }

    fn close<K: Sink>(self, shared: &S::Shared, sink: &mut K) -> Result<(), Failed> {
        let WrappedDemux { unwrap: _, demux } = self;
        demux.close(shared, sink)
    }

    fn abandon(self) {
        let WrappedDemux { unwrap: _, demux } = self;
        demux.abandon();
    }

    ghost is_laid = { λ k. wrapped_laid_is k };
}

//! Frames of many sources in a capture of a trace port.
ghost use Rattle.std.specs.Prelude.{◌≡◌, ◌<◌, ◌≤◌, ◌+◌, ◌^◌, ◌++◌, ◌∷◌, ◌↔◌, [], ℕ, List, Bool, false, not, length, take, IsOk, IsErr, IsTrue, IfOk};
ghost use Rattle.capture_streams.specs.Demuxed.{Gains};
ghost use Rattle.capture_streams.specs.Texts.{by_sizes};
ghost use Rattle.etm_types.specs.Settings.{Sizes};
ghost use Rattle.etm_types.specs.SettingsTable.{sizes_at};
ghost use Rattle.sync_frames.specs.Laid.{synced_pairs};
ghost use Rattle.sync_frames.specs.Synchronised.{HaveTaken, IsAfter};
ghost use Rattle.trace_io.specs.Calls.{Serves};

use crate::unsync::Unsync;
use capture_streams::{Demux, Printer, Stream};
use etm_types::SettingsTable;
use std::alloc::{AllocError, Global};
use std::marker::Model;
use trace_io::{Failed, Sink};

/// Takes the bytes of a trace port, and writes the lines that the frames among them add. Bytes before the first full sync add none. It has no
/// drop: it ends by `finish`, `close` or `abandon`.
#[must_use]
pub struct SyncedDemux<S: Stream> {
    unsync: Unsync,
    demux: Demux<S>,
    /// How many bytes were taken, syncs among them; the demultiplexer took no more.
    offset: u64,
}

impl<S: Stream> Model for SyncedDemux<S> {
    ghost use Rattle.std.specs.Prelude.{◌+◌, ◌≤◌, length};
    ghost use Rattle.sync_frames.specs.Synchronised.{Synchronised, synchronised_code};

    ghost Value = { Synchronised S S.Sum };

    ghost coded = { synchronised_code S.code S.Sum.code };

    ghost view = { λ s. record { unsync = s.unsync; demux = s.demux; offset = s.offset } };

    ghost invariant = { λ s. s.demux.offset + length s.unsync.held ≤ s.offset };
}

impl<S: Stream> SyncedDemux<S> {
    /// One that has taken nothing, with a stream for each source, which has the settings of its ID. This is the one call that takes memory, and
    /// the error means want of it.
    pub fn new(
        alloc: Global,
        shared: &S::Shared,
        table: &SettingsTable,
    ) -> Result<SyncedDemux<S>, AllocError>
        ensures stands { IfOk result (λ s.
            IsAfter (S.stands shared.now) S.sizes (S.sums shared.now) (S.listing shared.now) (sizes_at table.now) s []) }
    {
        let demux = Demux::new(alloc, shared, table)?;
        Ok(SyncedDemux {
            unsync: Unsync::new(),
            offset: demux.offset(),
            demux,
        })
    }

    /// Whether a write failed. Then it takes no more bytes, and is abandoned.
    pub fn broken(&self) -> bool
        ensures { result ≡ self.now.demux.broken }
    {
        self.demux.broken()
    }

    /// How many bytes were taken, syncs among them.
    pub fn offset(&self) -> u64
        ensures value { result ≡ self.now.offset }
        ensures all { (shared : S.Shared) (t : ℕ → Sizes) (bytes : List ℕ)
            → IsAfter (S.stands shared) S.sizes (S.sums shared) (S.listing shared) t self.now bytes → result ≡ length bytes }
    {
        self.offset
    }
}

/// Takes bytes from the front of a piece, and writes the lines that they add: a run that holds no sync, or one byte. Says how many these are.
fn take_front<S: Stream, K: Sink>(
    unsync: &mut Unsync,
    demux: &mut Demux<S>,
    shared: &S::Shared,
    piece: &[u8],
    sink: &mut K,
) -> (usize, Result<(), Failed>)
    requires whole { demux.old.broken ≡ false }
    requires some { 0 < length piece.now }
    requires few { demux.old.offset + length unsync.old.held + length piece.now ≤ 2 ^ 30 }
    ensures stands { (t : ℕ → Sizes) (bytes : List ℕ)
        → HaveTaken (S.stands shared.now) S.sizes (S.sums shared.now) (S.listing shared.now) t unsync.old demux.old bytes → IsOk result.1
        → HaveTaken (S.stands shared.now) S.sizes (S.sums shared.now) (S.listing shared.now) t unsync.new demux.new (bytes ++ take result.0 piece.now) }
    ensures gains { (t : ℕ → Sizes) (bytes : List ℕ)
        → HaveTaken (S.stands shared.now) S.sizes (S.sums shared.now) (S.listing shared.now) t unsync.old demux.old bytes
        → Gains synced_pairs (by_sizes (S.listing shared.now) t) bytes (take result.0 piece.now) (K.state sink.old) (K.state sink.new) result.1 }
    ensures serves { Serves (K.state sink.old) (K.state sink.new) result.1 }
    ensures broken { IsTrue demux.new.broken ↔ IsErr result.1 }
    ensures good { IsOk result.1 → demux.new.broken ≡ false }
    ensures count { (0 < result.0) × (result.0 ≤ length piece.now) }
    ensures room { demux.new.offset + length unsync.new.held ≤ demux.old.offset + length unsync.old.held + result.0 }
{
    let run = unsync.take_run(piece);
    if run > 0 {
        return (run, demux.take_piece(shared, &piece[..run], sink));
    }
    let few = unsync.take(piece[0]);
    (1, demux.take_piece(shared, few.as_slice(), sink))
}

/// Takes a piece, and writes the lines that it adds.
fn take_bytes<S: Stream, K: Sink>(
    unsync: &mut Unsync,
    demux: &mut Demux<S>,
    shared: &S::Shared,
    piece: &[u8],
    sink: &mut K,
) -> Result<(), Failed>
    requires whole { demux.old.broken ≡ false }
    requires few { demux.old.offset + length unsync.old.held + length piece.now ≤ 2 ^ 30 }
    ensures stands { (t : ℕ → Sizes) (bytes : List ℕ)
        → HaveTaken (S.stands shared.now) S.sizes (S.sums shared.now) (S.listing shared.now) t unsync.old demux.old bytes → IsOk result
        → HaveTaken (S.stands shared.now) S.sizes (S.sums shared.now) (S.listing shared.now) t unsync.new demux.new (bytes ++ piece.now) }
    ensures gains { (t : ℕ → Sizes) (bytes : List ℕ)
        → HaveTaken (S.stands shared.now) S.sizes (S.sums shared.now) (S.listing shared.now) t unsync.old demux.old bytes
        → Gains synced_pairs (by_sizes (S.listing shared.now) t) bytes piece.now (K.state sink.old) (K.state sink.new) result }
    ensures serves { Serves (K.state sink.old) (K.state sink.new) result }
    ensures broken { IsTrue demux.new.broken ↔ IsErr result }
    ensures room { demux.new.offset + length unsync.new.held ≤ demux.old.offset + length unsync.old.held + length piece.now }
{
    let mut at = 0;
    while at < piece.len() {
        let (count, taken) = take_front(unsync, demux, shared, &piece[at..], sink);
        match taken {
            Ok(()) => at += count,
            Err(failed) => return Err(failed),
        }
    }
    Ok(())
}

impl<S: Stream> Printer for SyncedDemux<S> {
    ghost use Rattle.capture_streams.specs.Demuxed.{StandsAt};
    ghost use Rattle.capture_streams.specs.Texts.{by_sizes};
    ghost use Rattle.sync_frames.specs.Laid.{synced_laid, synced_laid_is};
    ghost use Rattle.sync_frames.specs.Synchronised.{IsAfter};
    ghost use Rattle.sync_frames.specs.Syncs.{unsynced};

    type Shared = S::Shared;

    ghost broken = { λ s. s.demux.broken };

    ghost offset = { λ s. s.offset };

    ghost stands = { λ shared t s bytes. IsAfter (S.stands shared) S.sizes (S.sums shared) (S.listing shared) t s bytes };

    ghost listing = { λ shared t. by_sizes (S.listing shared) t };

    ghost ended = { λ shared t s bytes. StandsAt (S.stands shared) S.sizes (S.sums shared) (S.listing shared) t s.demux (unsynced bytes) };

    ghost frames = { λ s. 0 };

    ghost laid = { λ k. synced_laid };

    fn take_piece<K: Sink>(
        &mut self,
        shared: &S::Shared,
        piece: &[u8],
        sink: &mut K,
    ) -> Result<(), Failed> {
        self.offset += piece.len() as u64;
        take_bytes(&mut self.unsync, &mut self.demux, shared, piece, sink)
    }

    fn take_rest<K: Sink>(&mut self, shared: &S::Shared, sink: &mut K) -> Result<(), Failed> {
        let rest = std::mem::replace(&mut self.unsync, Unsync::new()).finish();
        self.demux.take_piece(shared, rest.as_slice(), sink)
    }

    fn finish<K: Sink>(self, shared: &S::Shared, sink: &mut K) -> Result<bool, Failed> {
        let SyncedDemux {
            unsync: _,
            demux,
            offset: _,
        } = self;
        demux.finish(shared, sink)
    }

    fn close<K: Sink>(self, shared: &S::Shared, sink: &mut K) -> Result<(), Failed> {
        let SyncedDemux {
            unsync: _,
            demux,
            offset: _,
        } = self;
        demux.close(shared, sink)
    }

    fn abandon(self) {
        let SyncedDemux {
            unsync: _,
            demux,
            offset: _,
        } = self;
        demux.abandon();
    }

    ghost is_laid = { λ k. synced_laid_is };
}

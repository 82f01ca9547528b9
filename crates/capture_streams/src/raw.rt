//! One stream that is not framed, taken by pieces.
ghost use Rattle.std.specs.Prelude.{◌≡◌, ◌<◌, ◌≤◌, ◌+◌, ◌^◌, ◌++◌, ◌∷◌, ◌↔◌, [], ℕ, List, Bool, false, not, length, IsOk, IsErr, IsTrue, IfOk};
ghost use Rattle.capture_streams.specs.Demuxed.{Gains, RawStandsAt, raw_id, raw_pairs};
ghost use Rattle.capture_streams.specs.Streams.{HoldsToDepth};
ghost use Rattle.capture_streams.specs.Texts.{IsEnding, IsSum, Printed, by_sizes, text_of};
ghost use Rattle.element_queue.specs.Counting.{Balances};
ghost use Rattle.etm_types.specs.Settings.{Sizes};
ghost use Rattle.etm_types.specs.SettingsTable.{sizes_at};
ghost use Rattle.path_text.specs.Writing.{Writes};
ghost use Rattle.trace_io.specs.Calls.{Serves};

use crate::stream::Stream;
use element_queue::Ledger;
use etm_types::{Id, SettingsTable};
use std::alloc::{AllocError, Global};
use std::marker::Model;
use trace_io::{Failed, Sink};

/// Takes the bytes of one stream that is not framed piece by piece, and writes the lines that they add, under the ID 01; or sums its items.
/// It has no drop: it ends by `finish`, `close` or `abandon`.
#[must_use]
pub struct RawStream<S: Stream> {
    stream: S,
    sum: S::Sum,
}

impl<S: Stream> Model for RawStream<S> {
    ghost use Rattle.capture_streams.specs.Demuxed.{RawSummed, raw_code};
    ghost use Rattle.capture_streams.specs.Streams.{HoldsToDepth};

    ghost Value = { RawSummed S S.Sum };

    ghost coded = { raw_code S.code S.Sum.code };

    ghost view = { λ r. record { stream = r.stream; sum = r.sum } };

    ghost invariant = { λ r. HoldsToDepth S.held S.sizes r.stream };
}

impl<S: Stream> RawStream<S> {
    /// A stream that has taken nothing, with the settings of the ID 01. This is the one call that takes memory, and the error means want
    /// of it.
    pub fn new(
        alloc: Global,
        shared: &S::Shared,
        table: &SettingsTable,
    ) -> Result<RawStream<S>, AllocError>
        ensures stands { IfOk result (λ r.
            RawStandsAt (S.stands shared.now) S.sizes S.broken S.offset (S.sums shared.now) (S.listing shared.now) (sizes_at table.now) r []) }
        ensures most { IfOk result (λ r. HoldsToDepth S.held S.sizes r.stream) }
    {
        let sum = S::new_sum(alloc, shared)?;
        Ok(RawStream {
            stream: S::new(alloc, &table.get(raw_id()))?,
            sum,
        })
    }

    /// Takes the next bytes, writes the lines that they add, and adds their items to the sum. The error means that a write failed; then
    /// nothing more is taken, and it is broken.
    pub fn take_piece<K: Sink>(
        &mut self,
        shared: &S::Shared,
        piece: &[u8],
        sink: &mut K,
    ) -> Result<(), Failed>
        requires whole { S.broken self.old.stream ≡ false }
        requires few { S.offset self.old.stream + length piece.now ≤ 2 ^ 30 }
        ensures stands { (t : ℕ → Sizes) (bytes : List ℕ)
            → RawStandsAt (S.stands shared.now) S.sizes S.broken S.offset (S.sums shared.now) (S.listing shared.now) t self.old bytes → IsOk result
            → RawStandsAt (S.stands shared.now) S.sizes S.broken S.offset (S.sums shared.now) (S.listing shared.now) t self.new (bytes ++ piece.now) }
        ensures gains { (t : ℕ → Sizes) (bytes : List ℕ)
            → RawStandsAt (S.stands shared.now) S.sizes S.broken S.offset (S.sums shared.now) (S.listing shared.now) t self.old bytes
            → Gains raw_pairs (by_sizes (S.listing shared.now) t) bytes piece.now (K.state sink.old) (K.state sink.new) result }
        ensures serves { Serves (K.state sink.old) (K.state sink.new) result }
        ensures broken { IsTrue (S.broken self.new.stream) ↔ IsErr result }
        ensures offset { IsOk result → S.offset self.new.stream ≡ S.offset self.old.stream + length piece.now }
        ensures between { (S.offset self.old.stream ≤ S.offset self.new.stream)
            × (S.offset self.new.stream ≤ S.offset self.old.stream + length piece.now) }
        ensures sizes { S.sizes self.new.stream ≡ S.sizes self.old.stream }
        ensures most { HoldsToDepth S.held S.sizes self.new.stream }
    {
        self.stream
            .take_run(shared, &mut self.sum, raw_id(), piece, sink)
    }

    /// Writes the lines of the sum, and then that of how the stream ends, where it had a byte. Says whether it ends without a fault.
    pub fn finish<K: Sink>(self, shared: &S::Shared, sink: &mut K) -> Result<bool, Failed>
        requires { S.broken self.stream ≡ false }
        ensures ending { (t : ℕ → Sizes) (bytes : List ℕ)
            → RawStandsAt (S.stands shared.now) S.sizes S.broken S.offset (S.sums shared.now) (S.listing shared.now) t self bytes
            → (lines : List Printed) × (faulty : Bool) × IsEnding (by_sizes (S.listing shared.now) t) (raw_pairs bytes) 0 lines faulty
            × Writes (K.state sink.old) (K.state sink.new) result (text_of lines) × IfOk result (λ whole. whole ≡ not faulty) }
        ensures serves { Serves (K.state sink.old) (K.state sink.new) result }
    {
        let RawStream { stream, sum } = self;
        if let Err(failed) = S::write_sum(sum, shared, sink) {
            stream.abandon();
            return Err(failed);
        }
        stream.finish(raw_id(), sink)
    }

    /// Writes the lines of the sum, and ends it without more.
    pub fn close<K: Sink>(self, shared: &S::Shared, sink: &mut K) -> Result<(), Failed>
        ensures sum { (t : ℕ → Sizes) (bytes : List ℕ)
            → RawStandsAt (S.stands shared.now) S.sizes S.broken S.offset (S.sums shared.now) (S.listing shared.now) t self bytes
            → (sums : List Printed) × IsSum (by_sizes (S.listing shared.now) t) (raw_pairs bytes) sums
            × Writes (K.state sink.old) (K.state sink.new) result (text_of sums) }
        ensures serves { Serves (K.state sink.old) (K.state sink.new) result }
    {
        let RawStream { stream, sum } = self;
        stream.abandon();
        S::write_sum(sum, shared, sink)
    }

    /// Ends it without a line.
    pub fn abandon(self) -> Ledger
        ensures value { result ≡ S.counts_left self.stream }
        ensures balanced { Balances result 0 }
    {
        let RawStream { stream, sum: _ } = self;
        stream.abandon()
    }
}

/// The ID under which a stream is printed that is not framed.
fn raw_id() -> Id
    ensures { result ≡ raw_id }
{
    Id::new(1).unwrap()
}

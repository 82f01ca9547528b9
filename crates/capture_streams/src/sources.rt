//! The streams of all trace sources, each found by its ID, and what is summed over them.
ghost use Rattle.std.specs.Prelude.{◌≡◌, ◌<◌, ◌≤◌, ◌+◌, ◌^◌, ◌++◌, ◌∷◌, [], ℕ, List, Bool, false, All, not, length, map, IsOk, IfOk};
ghost use Rattle.element_queue.specs.Counting.{Balances, no_counts, sum_of};
ghost use Rattle.etm_types.specs.Settings.{Sizes};
ghost use Rattle.etm_types.specs.SettingsTable.{sizes_at};
ghost use Rattle.formatter_frames.specs.Symbols.{run_of};
ghost use Rattle.std.specs.List.{range_with_len};
ghost use Rattle.capture_streams.specs.Streams.{Adds, AllStand, AllTallied, HoldsToDepth, IsReady, StandFrom, source_count, total};
ghost use Rattle.capture_streams.specs.Texts.{EndsOf, IsSum, Printed, by_sizes, sources, text_of};
ghost use Rattle.path_text.specs.Writing.{Writes};
ghost use Rattle.trace_io.specs.Calls.{Serves};

use crate::stream::Stream;
use element_queue::{Counts, Ledger};
use etm_types::{Id, SettingsTable};
use spend_ring::SpendRing;
use std::alloc::{AllocError, Global};
use std::marker::Model;
use trace_io::{Failed, Sink};

/// There is a stream for each source.
const SOURCES: usize = 111;

/// Nothing was made.
const NO_COUNTS: Counts = Counts {
    made: 0,
    committed: 0,
    cancelled: 0,
    lost: 0,
};

/// The stream of each source, and what is summed over them. Contracts see the list of the streams, that of ID 1 first, and the sum. It has
/// no drop: it ends by `finish`, `close` or `abandon`.
#[must_use]
pub struct Sources<S: Stream> {
    ring: SpendRing<S>,
    sum: S::Sum,
}

impl<S: Stream> Model for Sources<S> {
    ghost use Rattle.std.specs.Prelude.{◌≡◌, length};
    ghost use Rattle.capture_streams.specs.Streams.{Summed, source_count, summed_code};

    ghost Value = { Summed S S.Sum };

    ghost coded = { summed_code S.code S.Sum.code };

    ghost view = { λ s. record { streams = s.ring.items; sum = s.sum } };

    ghost invariant = { λ s. length s.ring.items ≡ source_count };
}

impl<S: Stream> Sources<S> {
    /// Streams of which nothing was taken, each with the settings of its ID, and the sum of nothing. This is the one call that takes
    /// memory, and the error means want of it.
    pub fn new(
        alloc: Global,
        shared: &S::Shared,
        table: &SettingsTable,
    ) -> Result<Sources<S>, AllocError>
        ensures stands { IfOk result (λ all. AllStand (S.stands shared.now) S.sizes (S.sums shared.now) (S.listing shared.now) (sizes_at table.now) all []) }
        ensures ready { IfOk result (λ all. All (IsReady S.broken S.offset 0) all.streams) }
        ensures most { IfOk result (λ all. All (HoldsToDepth S.held S.sizes) all.streams) }
    {
        let sum = S::new_sum(alloc, shared)?;
        let ring = new_streams(alloc, table)?;
        Ok(Sources { ring, sum })
    }

    /// Takes the next bytes of the stream of an ID, writes the lines that they add, and adds their items to the sum. Bytes of no source
    /// are passed over.
    pub fn take_run<K: Sink>(
        &mut self,
        shared: &S::Shared,
        id: u8,
        run: &[u8],
        sink: &mut K,
    ) -> Result<(), Failed>
        requires { (most : ℕ) × All (IsReady S.broken S.offset most) self.old.streams × (most + length run.now ≤ 2 ^ 62) }
        ensures stands { (t : ℕ → Sizes) (pairs : List (ℕ × ℕ))
            → AllStand (S.stands shared.now) S.sizes (S.sums shared.now) (S.listing shared.now) t self.old pairs
            → IsOk result → AllStand (S.stands shared.now) S.sizes (S.sums shared.now) (S.listing shared.now) t self.new (pairs ++ run_of id run.now) }
        ensures adds { (t : ℕ → Sizes) (pairs : List (ℕ × ℕ))
            → AllStand (S.stands shared.now) S.sizes (S.sums shared.now) (S.listing shared.now) t self.old pairs
            → Adds (by_sizes (S.listing shared.now) t) pairs (run_of id run.now) (K.state sink.old) (K.state sink.new) result }
        ensures serves { Serves (K.state sink.old) (K.state sink.new) result }
        ensures ready { (most : ℕ) → All (IsReady S.broken S.offset most) self.old.streams → IsOk result
            → All (IsReady S.broken S.offset (most + length run.now)) self.new.streams }
        ensures sizes { map S.sizes self.new.streams ≡ map S.sizes self.old.streams }
        ensures most { All (HoldsToDepth S.held S.sizes) self.old.streams → All (HoldsToDepth S.held S.sizes) self.new.streams }
    {
        let Some(id) = Id::new(id) else {
            return Ok(());
        };
        match self.ring.get_mut(usize::from(id.get()) - 1) {
            Some(stream) => stream.take_run(shared, &mut self.sum, id, run, sink),
            None => unreachable!(),
        }
    }

    /// Writes the lines of the sum, and then that of how each stream ends that had a byte, by ID. Says whether all end without a fault.
    pub fn finish<K: Sink>(self, shared: &S::Shared, sink: &mut K) -> Result<bool, Failed>
        requires { (most : ℕ) × All (IsReady S.broken S.offset most) self.streams }
        ensures ends { (t : ℕ → Sizes) (pairs : List (ℕ × ℕ))
            → AllStand (S.stands shared.now) S.sizes (S.sums shared.now) (S.listing shared.now) t self pairs
            → (sums : List Printed) × IsSum (by_sizes (S.listing shared.now) t) pairs sums
            × (lines : List Printed) × (faulty : Bool) × EndsOf (by_sizes (S.listing shared.now) t) pairs sources lines faulty
            × Writes (K.state sink.old) (K.state sink.new) result (text_of (sums ++ lines)) × IfOk result (λ whole. whole ≡ not faulty) }
        ensures serves { Serves (K.state sink.old) (K.state sink.new) result }
    {
        let Sources { ring, sum } = self;
        if let Err(failed) = S::write_sum(sum, shared, sink) {
            abandon_all(ring);
            return Err(failed);
        }
        finish_all(ring, sink)
    }

    /// Writes the lines of the sum, and ends all streams without a line.
    pub fn close<K: Sink>(self, shared: &S::Shared, sink: &mut K) -> Result<(), Failed>
        ensures sum { (t : ℕ → Sizes) (pairs : List (ℕ × ℕ))
            → AllStand (S.stands shared.now) S.sizes (S.sums shared.now) (S.listing shared.now) t self pairs
            → (sums : List Printed) × IsSum (by_sizes (S.listing shared.now) t) pairs sums
            × Writes (K.state sink.old) (K.state sink.new) result (text_of sums) }
        ensures serves { Serves (K.state sink.old) (K.state sink.new) result }
    {
        let Sources { ring, sum } = self;
        abandon_all(ring);
        S::write_sum(sum, shared, sink)
    }

    /// Ends all streams without a line. The ledger has what became of the P0 elements of all.
    pub fn abandon(self) -> Ledger
        ensures value { result ≡ total no_counts (map S.counts_left self.streams) }
        ensures balanced { Balances result 0 }
    {
        let Sources { ring, sum: _ } = self;
        abandon_all(ring)
    }

    /// What became of the P0 elements of all streams.
    pub fn ledger(&self) -> Counts
        ensures value { result ≡ total no_counts (map S.counts self.now.streams) }
        ensures tallied { (shared : S.Shared) (t : ℕ → Sizes) (pairs : List (ℕ × ℕ)) → StandFrom (S.stands shared) S.sizes t 1 self.now.streams pairs
            → AllTallied (S.tallies shared) t (map S.counts self.now.streams) pairs }
    {
        let mut sum = NO_COUNTS;
        let mut place = 0;
        while let Some(stream) = self.ring.get(place) {
            sum = sum_of(sum, stream.ledger());
            place += 1;
        }
        sum
    }
}

/// A stream for each source of which nothing was taken, that of ID 1 first.
fn new_streams<S: Stream>(alloc: Global, table: &SettingsTable) -> Result<SpendRing<S>, AllocError>
    ensures count { IfOk result (λ ring. length ring.items ≡ source_count) }
    ensures stands { IfOk result (λ ring. (shared : S.Shared) → StandFrom (S.stands shared) S.sizes (sizes_at table.now) 1 ring.items []) }
    ensures ready { IfOk result (λ ring. All (IsReady S.broken S.offset 0) ring.items) }
    ensures most { IfOk result (λ ring. All (HoldsToDepth S.held S.sizes) ring.items) }
{
    let mut ring = SpendRing::with_capacity(alloc, SOURCES)?;
    let mut next = 1;
    while let Some(id) = Id::new(next) {
        match S::new(alloc, &table.get(id)) {
            Ok(stream) => add(&mut ring, stream),
            Err(error) => {
                abandon_all(ring);
                return Err(error);
            }
        }
        next += 1;
    }
    Ok(ring)
}

/// Writes the line of how each stream ends that had a byte, by ID, and says whether all end without a fault.
fn finish_all<S: Stream, K: Sink>(mut ring: SpendRing<S>, sink: &mut K) -> Result<bool, Failed>
    requires ready { (most : ℕ) × All (IsReady S.broken S.offset most) ring.items }
    requires count { length ring.items ≡ source_count }
    ensures ends { (shared : S.Shared) (t : ℕ → Sizes) (pairs : List (ℕ × ℕ)) → StandFrom (S.stands shared) S.sizes t 1 ring.items pairs
        → (lines : List Printed) × (faulty : Bool) × EndsOf (by_sizes (S.listing shared) t) pairs sources lines faulty
        × Writes (K.state sink.old) (K.state sink.new) result (text_of lines) × IfOk result (λ whole. whole ≡ not faulty) }
    ensures serves { Serves (K.state sink.old) (K.state sink.new) result }
{
    let mut id = 1;
    let mut whole = true;
    while let Some(stream) = ring.pop_front() {
        match stream.finish(Id::new(id).unwrap(), sink) {
            Ok(one) => whole &= one,
            Err(failed) => {
                abandon_all(ring);
                return Err(failed);
            }
        }
        id += 1;
    }
    ring.close();
    Ok(whole)
}

/// Adds counts to others, each modulo 2^64.
fn sum_of(a: Counts, b: Counts) -> Counts
    ensures { result ≡ sum_of a b }
{
    Counts {
        made: a.made.wrapping_add(b.made),
        committed: a.committed.wrapping_add(b.committed),
        cancelled: a.cancelled.wrapping_add(b.cancelled),
        lost: a.lost.wrapping_add(b.lost),
    }
}

/// Adds a stream to a ring that has room.
fn add<S: Stream>(ring: &mut SpendRing<S>, stream: S)
    requires { length ring.old.items < ring.old.capacity }
    ensures items { ring.new.items ≡ ring.old.items ++ stream ∷ [] }
    ensures capacity { ring.new.capacity ≡ ring.old.capacity }
{
    if let Some(oldest) = ring.push_back(stream) {
        oldest.abandon();
    }
}

/// Ends streams without a line, and the ring that held them. Each would have had one, by the bytes that it took.
fn abandon_all<S: Stream>(mut ring: SpendRing<S>) -> Ledger
    ensures value { result ≡ total no_counts (map S.counts_left ring.items) }
    ensures balanced { Balances result 0 }
    ensures ends { (shared : S.Shared) (t : ℕ → Sizes) (pairs : List (ℕ × ℕ)) (id : ℕ) → StandFrom (S.stands shared) S.sizes t id ring.items pairs
        → (lines : List Printed) × (faulty : Bool) × EndsOf (by_sizes (S.listing shared) t) pairs (range_with_len id (length ring.items)) lines faulty }
{
    let mut ledger = Ledger::new();
    while let Some(stream) = ring.pop_front() {
        ledger.absorb(stream.abandon());
    }
    ring.close();
    ledger
}

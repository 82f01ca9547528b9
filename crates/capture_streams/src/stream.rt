//! One stream among many, whatever is printed of it.
ghost use Rattle.std.specs.Prelude.{◌≡◌, ◌<◌, ◌≤◌, ◌+◌, ◌^◌, ◌++◌, ◌∷◌, [], ◌↔◌, length, ℕ, List, Bool, false, not, IsOk, IsErr, IsTrue, IfOk};
ghost use Rattle.std.specs.List.{concat};
ghost use Rattle.capture_streams.specs.Streams.{HoldsToDepth, RunAdds, SettlesBut, SumAdds};
ghost use Rattle.capture_streams.specs.Texts.{Listing, Printed, StreamEnds, text_of};
ghost use Rattle.element_queue.specs.Counting.{Balances};
ghost use Rattle.element_queue.specs.declared.ledger.Counts.{Counts};
ghost use Rattle.etm_types.specs.Settings.{Sizes};
ghost use Rattle.etm_types.specs.declared.item.Item.{Item};
ghost use Rattle.path_text.specs.Writing.{Writes};
ghost use Rattle.trace_io.specs.Calls.{Serves};

use element_queue::{Counts, Ledger};
use etm_types::{Id, Settings};
use std::alloc::{AllocError, Global};
use trace_io::{Failed, Sink};

/// One stream, of which lines are printed as its bytes come, or whose items are summed with those of the other streams and printed once no
/// byte more comes. It ends by `finish` or `abandon`: one that holds P0 elements has no drop,
/// and code that works with any stream has no other way.
pub trait Stream {
    /// What all streams of a capture share.
    type Shared;

    /// What all streams of a capture add to.
    type Sum: Drop;

    /// The sizes of the stream's trace unit.
    ghost sizes: { Self → Sizes };

    /// Whether a write failed.
    ghost broken: { Self → Bool };

    /// How many bytes were taken.
    ghost offset: { Self → ℕ };

    /// How many P0 elements it holds. They are not committed yet.
    ghost held: { Self → ℕ };

    /// What became of its P0 elements.
    ghost counts: { Self → Counts };

    /// The same once it is abandoned.
    ghost counts_left: { Self → Counts };

    /// These bytes were taken.
    ghost stands: { Self.Shared → Self → List ℕ → Type 0 };

    /// These counts are such as bytes have under these sizes.
    ghost tallies: { Self.Shared → Sizes → List ℕ → Counts → Type 0 };

    /// What is printed of a stream under these sizes, and what it adds to the sum.
    ghost listing: { Self.Shared → Sizes → Listing };

    /// A sum has these items, each with the ID of its stream, in the order in which they came.
    ghost sums: { Self.Shared → Self.Sum → List (ℕ × Item) → Type 0 };

    /// The sum of nothing. This takes memory, and the error means want of it.
    fn new_sum(alloc: Global, shared: &Self::Shared) -> Result<Self::Sum, AllocError>
        ensures { IfOk result (λ sum. sums shared.now sum []) };

    /// A stream of which nothing was taken. This is the one call that takes memory, and the error means want of it.
    fn new(alloc: Global, settings: &Settings) -> Result<Self, AllocError>
        ensures stands { IfOk result (λ s. (shared : Self.Shared) → stands shared s []) }
        ensures sizes { IfOk result (λ s. sizes s ≡ settings.now) }
        ensures ready { IfOk result (λ s. (broken s ≡ false) × (offset s ≡ 0)) }
        ensures most { IfOk result (HoldsToDepth held sizes) };

    /// Takes the next bytes, writes the lines that they add, all before it returns, and adds their items to the sum. The error means that a
    /// write failed: then a front of the lines is written, and the stream is broken.
    fn take_run<K: Sink>(
        &mut self,
        shared: &Self::Shared,
        sum: &mut Self::Sum,
        id: Id,
        run: &[u8],
        sink: &mut K,
    ) -> Result<(), Failed>
        requires whole { broken self.old ≡ false }
        requires few { offset self.old + length run.now ≤ 2 ^ 62 }
        ensures stands { IsOk result → (bytes : List ℕ) → stands shared.now self.old bytes → stands shared.now self.new (bytes ++ run.now) }
        ensures gains { (bytes : List ℕ) → stands shared.now self.old bytes
            → RunAdds (listing shared.now (sizes self.old)) id bytes run.now (K.state sink.old) (K.state sink.new) result }
        ensures adds { IsOk result → (bytes : List ℕ) → stands shared.now self.old bytes
            → SumAdds (sums shared.now) (listing shared.now (sizes self.old)) id bytes run.now sum.old sum.new }
        ensures serves { Serves (K.state sink.old) (K.state sink.new) result }
        ensures broken { IsTrue (broken self.new) ↔ IsErr result }
        ensures offset { IsOk result → offset self.new ≡ offset self.old + length run.now }
        ensures between { (offset self.old ≤ offset self.new) × (offset self.new ≤ offset self.old + length run.now) }
        ensures sizes { sizes self.new ≡ sizes self.old }
        ensures most { HoldsToDepth held sizes self.old → HoldsToDepth held sizes self.new };

    /// What became of its P0 elements.
    fn ledger(&self) -> Counts
        ensures value { result ≡ counts self.now }
        ensures tallied { (shared : Self.Shared) (bytes : List ℕ) → stands shared self.now bytes → tallies shared (sizes self.now) bytes result }
        ensures balanced { SettlesBut (held self.now) result };

    /// Writes the line of how the stream ends, and says whether it ends without a fault. Nothing is written of a
    /// stream without bytes.
    fn finish<K: Sink>(self, id: Id, sink: &mut K) -> Result<bool, Failed>
        requires { broken self ≡ false }
        ensures ends { (shared : Self.Shared) (bytes : List ℕ) → stands shared self bytes
            → (lines : List Printed) × (faulty : Bool) × StreamEnds (listing shared (sizes self)) id bytes lines faulty
            × Writes (K.state sink.old) (K.state sink.new) result (text_of lines) × IfOk result (λ whole. whole ≡ not faulty) }
        ensures serves { Serves (K.state sink.old) (K.state sink.new) result };

    /// Writes the lines of a sum.
    fn write_sum<K: Sink>(sum: Self::Sum, shared: &Self::Shared, sink: &mut K) -> Result<(), Failed>
        ensures lines { (s : Sizes) (items : List (ℕ × Item)) → sums shared.now sum items
            → Writes (K.state sink.old) (K.state sink.new) result (concat ((listing shared.now s).sums items)) }
        ensures serves { Serves (K.state sink.old) (K.state sink.new) result };

    /// Ends it without a line. It would have had one, by the bytes that it took.
    fn abandon(self) -> Ledger
        ensures value { result ≡ counts_left self }
        ensures balanced { Balances (counts_left self) 0 }
        ensures ends { (shared : Self.Shared) (id : ℕ) (bytes : List ℕ) → stands shared self bytes
            → (lines : List Printed) × (faulty : Bool) × StreamEnds (listing shared (sizes self)) id bytes lines faulty };
}

//! One frame taken apart.
ghost use Rattle.std.specs.Prelude.{◌≡◌, ℕ, ◌+◌, ◌≤◌, ◌<◌, [], ◌∷◌, ◌++◌, ◌≢◌, length, take, drop, slice_get, Some, IfSome, IsNone, ◌↔◌};
ghost use Rattle.formatter_frames.specs.Symbols.{pairs_of, id_after, run_of};
ghost use Rattle.formatter_frames.specs.Frame.{symbols_in};

use crate::frame::{
    AUXILIARY, BytePair, FRAME_BYTES, LAST, PAIRS, SYMBOLS, mixed_symbol, pair_symbols,
};
use crate::symbol::Symbol;
use std::marker::Model;

/// The data bytes of one frame in order, each with its ID. Contracts see the list of the pairs of ID
/// and byte.
#[derive(Drop)]
pub struct FrameBytes {
    ids: [u8; SYMBOLS],
    bytes: [u8; SYMBOLS],
    count: usize,
}

impl Model for FrameBytes {
    ghost use Rattle.std.specs.Prelude.{◌≡◌, ℕ, ◌≤◌, List, length, take, All};
    ghost use Rattle.std.specs.List.{zip};
    ghost use Rattle.formatter_frames.specs.Sizes.{frame_symbols};

    ghost Value = { List (ℕ × ℕ) };

    ghost view = { λ b. take b.count (zip b.ids b.bytes) };

    ghost invariant = { λ b. (b.count ≤ frame_symbols) × (length b.ids ≡ frame_symbols) × (length b.bytes ≡ frame_symbols)
        × All (λ id. id ≤ 127) b.ids };
}

impl FrameBytes {
    /// How many there are, at most fifteen.
    pub fn len(&self) -> usize
        ensures count { result ≡ length self.now }
        ensures most { result ≤ SYMBOLS }
    {
        self.count
    }

    /// The ID and the byte at `i`, counted from 0.
    pub fn get(&self, i: usize) -> Option<(u8, u8)>
        ensures value { result ≡ slice_get self.now i }
        ensures none { IsNone result ↔ (length self.now ≤ i) }
        ensures within { IfSome result (λ pair. pair.0 ≤ 127) }
    {
        if i < self.count {
            Some((self.ids[i], self.bytes[i]))
        } else {
            None
        }
    }

    /// The bytes from `i` on, counted from 0, that have one ID, and that ID: as many as come before another ID.
    #[inline(always)]
    pub fn run_at(&self, i: usize) -> Option<(u8, &[u8])>
        ensures none { IsNone result ↔ (length self.now ≤ i) }
        ensures run { IfSome result (λ run. (0 < length run.1.now) × (take (length run.1.now) (drop i self.now) ≡ run_of run.0 run.1.now)) }
        ensures most { length self.now ≤ SYMBOLS }
        ensures longest { IfSome result (λ run. (next : ℕ × ℕ) → slice_get self.now (i + length run.1.now) ≡ Some next → next.0 ≢ run.0) }
        ensures within { IfSome result (λ run. run.0 ≤ 127) }
    {
        if i >= self.count {
            return None;
        }
        let id = self.ids[i];
        let mut end = i + 1;
        while end < self.count && self.ids[end] == id {
            end += 1;
        }
        Some((id, &self.bytes[i..end]))
    }

    fn new() -> Self
        ensures { result ≡ [] }
    {
        FrameBytes {
            ids: [0; SYMBOLS],
            bytes: [0; SYMBOLS],
            count: 0,
        }
    }

    /// Takes one symbol: a new ID, or a byte of the current ID, where there is one.
    fn take(&mut self, symbol: Symbol, current: &mut Option<u8>)
        requires room { length self.old < SYMBOLS }
        requires held { IfSome current.old (λ id. id ≤ 127) }
        ensures pairs { self.new ≡ self.old ++ pairs_of current.old (symbol ∷ []) }
        ensures current { current.new ≡ id_after current.old (symbol ∷ []) }
        ensures few { length self.new ≤ length self.old + 1 }
        ensures within { IfSome current.new (λ id. id ≤ 127) }
    {
        match symbol {
            Symbol::NewId(id) => *current = Some(id.get()),
            Symbol::Data(byte) => {
                if let Some(id) = *current {
                    self.ids[self.count] = id;
                    self.bytes[self.count] = byte;
                    self.count += 1;
                }
            }
        }
    }
}

/// Takes a frame apart. `current` is the ID that holds before it, and then the one that holds after
/// it; bytes before the first ID are passed over. Bytes of every ID are given, also of the null ID 0
/// and of IDs that are no source.
pub fn unpack(frame: &[u8; FRAME_BYTES], current: &mut Option<u8>) -> FrameBytes
    requires { IfSome current.old (λ id. id ≤ 127) }
    ensures pairs { result ≡ pairs_of current.old (symbols_in frame.now) }
    ensures current { current.new ≡ id_after current.old (symbols_in frame.now) }
    ensures within { IfSome current.new (λ id. id ≤ 127) }
{
    let mut unpacked = FrameBytes::new();
    let mut auxiliary = frame[AUXILIARY];
    for n in 0..PAIRS {
        let pair = BytePair {
            mixed: frame[2 * n],
            data: frame[2 * n + 1],
            bit: auxiliary & 1,
        };
        let (first, second) = pair_symbols(pair);
        unpacked.take(first, current);
        unpacked.take(second, current);
        auxiliary >>= 1;
    }
    unpacked.take(mixed_symbol(frame[LAST], auxiliary & 1), current);
    unpacked
}

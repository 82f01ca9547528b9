//! The bytes of frames among those of a trace port.
ghost use Rattle.std.specs.Prelude.{◌≡◌, ◌<◌, ◌≤◌, ◌+◌, ◌%◌, ℕ, List, [], ◌∷◌, ◌++◌, length, replicate, take, None};
ghost use Rattle.formatter_frames.specs.Sizes.{frame_bytes};
ghost use Rattle.sync_frames.specs.Syncs.{unsynced};
ghost use Rattle.sync_frames.specs.Unsyncing.{IsPhase, StandsAt, place_of, plain_length, rest_of, run_at, state_of};

use crate::few::Few;
use formatter_frames::FRAME_BYTES;
use std::marker::Model;

/// All bytes of a sync but the last.
const ONES: u8 = 0xff;

/// The last byte of a sync.
const LAST: u8 = 0x7f;

/// Where a reader stands, and what it holds back.
#[derive(Clone, Copy)]
enum Phase {
    /// Before the first full sync, behind so many bytes FF, of which no more than three count.
    Hunting(u8),
    /// At this even place of a frame.
    Between(usize),
    /// Behind the byte at this even place of a frame.
    Within(usize, u8),
    /// Before a frame, behind FF FF.
    TwoOnes,
    /// Before a frame, behind FF FF FF.
    ThreeOnes,
}

/// Takes the bytes of a trace port, and gives those of the frames among them: behind the earliest full sync, without the syncs there. Contracts
/// see what it holds back and at which place of a frame it stands. Memory is not taken, and it may be dropped at any time.
#[derive(Drop)]
pub struct Unsync {
    place: Phase,
}

impl Model for Unsync {
    ghost use Rattle.sync_frames.specs.Unsyncing.{IsPhase, Unsyncing, state_of};

    ghost Value = { Unsyncing };

    ghost view = { λ u. state_of u.place };

    ghost invariant = { λ u. IsPhase u.place };
}

impl Unsync {
    /// One that has taken nothing.
    pub fn new() -> Unsync
        ensures stands { StandsAt result [] [] }
        ensures none { result ≡ record { place = None; held = [] } }
    {
        Unsync {
            place: Phase::Hunting(0),
        }
    }

    /// Takes the next byte, and gives the bytes of frames that are known by it: the byte and others before it that might have been of a sync,
    /// or none. At most three bytes are held back.
    pub fn take(&mut self, byte: u8) -> Few
        ensures stands { (bytes given : List ℕ) → StandsAt self.old bytes given → StandsAt self.new (bytes ++ byte ∷ []) (given ++ result) }
        ensures goes_on { (more : List ℕ) → rest_of self.old (byte ∷ more) ≡ result ++ rest_of self.new more }
        ensures place { place_of self.new.place ≡ (place_of self.old.place + length result) % frame_bytes }
        ensures held { length self.new.held ≤ 3 }
        ensures few { length result + length self.new.held ≤ length self.old.held + 1 }
    {
        match self.place {
            Phase::Hunting(ones) => {
                self.place = hunted(ones, byte);
                Few::of(&[])
            }
            Phase::Between(at) => {
                self.place = Phase::Within(at, byte);
                Few::of(&[])
            }
            Phase::Within(at, ONES) if byte == LAST => {
                self.place = Phase::Between(at);
                Few::of(&[])
            }
            Phase::Within(0, ONES) if byte == ONES => {
                self.place = Phase::TwoOnes;
                Few::of(&[])
            }
            Phase::Within(at, first) => {
                self.place = Phase::Between((at + 2) % FRAME_BYTES);
                Few::of(&[first, byte])
            }
            Phase::TwoOnes if byte == ONES => {
                self.place = Phase::ThreeOnes;
                Few::of(&[])
            }
            Phase::TwoOnes => {
                self.place = Phase::Within(2, byte);
                Few::of(&[ONES, ONES])
            }
            Phase::ThreeOnes if byte == LAST => {
                self.place = Phase::Between(0);
                Few::of(&[])
            }
            Phase::ThreeOnes => {
                self.place = Phase::Between(4);
                Few::of(&[ONES, ONES, ONES, byte])
            }
        }
    }

    /// Takes so many of the next bytes as are bytes of frames whatever comes behind them, and says how many: pairs up to the first that begins
    /// with FF. None where it holds a byte back, or has found no full sync.
    pub fn take_run(&mut self, bytes: &[u8]) -> usize
        ensures stands { (before given : List ℕ) → StandsAt self.old before given
            → StandsAt self.new (before ++ take result bytes.now) (given ++ take result bytes.now) }
        ensures value { result ≡ run_at self.old bytes.now }
        ensures within { result ≤ length bytes.now }
        ensures place { place_of self.new.place ≡ (place_of self.old.place + result) % frame_bytes }
        ensures held { self.new.held ≡ self.old.held }
    {
        let Phase::Between(at) = self.place else {
            return 0;
        };
        let count = plain_front(bytes);
        self.place = Phase::Between((at + count % FRAME_BYTES) % FRAME_BYTES);
        count
    }

    /// No byte comes any more: gives the bytes of frames that were held back.
    pub fn finish(self) -> Few
        ensures all { (bytes given : List ℕ) → StandsAt self bytes given → unsynced bytes ≡ given ++ result }
        ensures value { result ≡ rest_of self [] }
        ensures few { length result ≤ length self.held }
    {
        match self.place {
            Phase::Hunting(_) | Phase::Between(_) => Few::of(&[]),
            Phase::Within(_, first) => Few::of(&[first]),
            Phase::TwoOnes => Few::of(&[ONES, ONES]),
            Phase::ThreeOnes => Few::of(&[ONES, ONES, ONES]),
        }
    }
}

/// Before the first full sync, behind so many bytes FF.
fn hunted(ones: u8, byte: u8) -> Phase
    requires { ones ≤ 3 }
    ensures goes_on { (more : List ℕ) → unsynced (replicate ones 255 ++ byte ∷ more) ≡ rest_of (state_of result) more }
    ensures place { place_of (state_of result).place ≡ 0 }
    ensures holds { IsPhase result }
    ensures few { length (state_of result).held ≤ ones + 1 }
{
    if byte == ONES {
        Phase::Hunting(if ones < 3 { ones + 1 } else { 3 })
    } else if byte == LAST && ones == 3 {
        Phase::Between(0)
    } else {
        Phase::Hunting(0)
    }
}

/// How many bytes, from an even place on, are no sync whatever comes behind them: pairs up to the first that begins with FF.
fn plain_front(bytes: &[u8]) -> usize
    ensures value { result ≡ plain_length bytes.now }
    ensures within { result ≤ length bytes.now }
{
    let mut count = 0;
    while count + 1 < bytes.len() && bytes[count] != ONES {
        count += 2;
    }
    count
}

//! Frames that come by pieces.
ghost use Rattle.std.specs.Prelude.{◌≡◌, ℕ, ◌+◌, ◌<◌, ◌≤◌, List, [], ◌++◌, length, take, IsSome, IsNone, ◌↔◌};
ghost use Rattle.formatter_frames.specs.Sizes.{frame_bytes};
ghost use Rattle.formatter_frames.specs.Unframed.{unframed, begun_frame};
ghost use Rattle.formatter_frames.specs.Reader.{StandsAt, gained};

use crate::frame::FRAME_BYTES;
use crate::unpacked::{FrameBytes, unpack};
use std::marker::Model;

/// Takes the bytes of frames piece by piece, from the first byte of a frame on, and gives what a frame
/// carries once it is full. Contracts see the bytes of the frame that was begun, and the ID that holds.
/// Memory is not taken, and a reader may be dropped at any time.
#[derive(Drop)]
pub struct FrameReader {
    frame: [u8; FRAME_BYTES],
    filled: usize,
    current: Option<u8>,
}

impl Model for FrameReader {
    ghost use Rattle.std.specs.Prelude.{◌≡◌, ◌<◌, ◌≤◌, length, take, IfSome};
    ghost use Rattle.formatter_frames.specs.Sizes.{frame_bytes};
    ghost use Rattle.formatter_frames.specs.Reader.{Reading};

    ghost Value = { Reading };

    ghost view = { λ r. record { begun = take r.filled r.frame; current = r.current } };

    ghost invariant = { λ r. (r.filled < frame_bytes) × (length r.frame ≡ frame_bytes) × IfSome r.current (λ id. id ≤ 127) };
}

impl FrameReader {
    /// A reader that has taken nothing.
    pub fn new() -> Self
        ensures stands { StandsAt result [] }
    {
        FrameReader {
            frame: [0; FRAME_BYTES],
            filled: 0,
            current: None,
        }
    }

    /// Takes the bytes of a piece that the begun frame has room for, and says how many these are: all, or as many as fill it. Gives
    /// the pairs of ID and byte of the frame where it is full, as [`unpack`] gives them, bytes of every ID among them.
    pub fn take(&mut self, piece: &[u8]) -> (usize, Option<FrameBytes>)
        ensures stands { (bytes : List ℕ) → StandsAt self.old bytes → StandsAt self.new (bytes ++ take result.0 piece.now) }
        ensures gains { (bytes : List ℕ) → StandsAt self.old bytes
            → unframed (bytes ++ take result.0 piece.now) ≡ unframed bytes ++ gained result.1 }
        ensures full { IsSome result.1 ↔ (length self.old.begun + result.0 ≡ frame_bytes) }
        ensures all { IsNone result.1 → result.0 ≡ length piece.now }
        ensures some { 0 < length piece.now → 0 < result.0 }
        ensures within { (result.0 ≤ length piece.now) × (result.0 ≤ frame_bytes) }
    {
        let count = (FRAME_BYTES - self.filled).min(piece.len());
        self.frame[self.filled..self.filled + count].copy_from_slice(&piece[..count]);
        self.filled += count;
        if self.filled < FRAME_BYTES {
            return (count, None);
        }
        self.filled = 0;
        (count, Some(unpack(&self.frame, &mut self.current)))
    }

    /// How many bytes of a begun frame were taken, 0 to 15.
    pub fn left(&self) -> u8
        ensures value { result ≡ length self.now.begun }
        ensures all { (bytes : List ℕ) → StandsAt self.now bytes → result ≡ length (begun_frame bytes) }
        ensures most { result < FRAME_BYTES }
    {
        self.filled as u8
    }
}

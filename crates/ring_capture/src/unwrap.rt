//! A capture buffer that was written round.
ghost use Rattle.std.specs.Prelude.{◌≡◌, ◌+◌, ◌%◌, ◌↔◌, ◌<◌, ◌≤◌, ℕ, ◌∷◌, ◌++◌, [], List, length, take, IfOk, IsSome};
ghost use Rattle.formatter_frames.specs.Sizes.{frame_bytes};
ghost use Rattle.formatter_frames.specs.Unframed.{begun_frame};
ghost use Rattle.ring_capture.specs.Rotated.{in_bytes, later_frames};
ghost use Rattle.ring_capture.specs.Unwrapping.{StandsAt, count_of, frame_at, given};

use formatter_frames::FRAME_BYTES;
use std::alloc::{AllocError, Global};
use std::marker::Model;

/// The most frames that are kept for the end: 1 MiB of them.
pub const MOST_FRAMES: u32 = 65_536;

/// Takes the bytes of a capture buffer whose oldest frame is not its first one. It keeps the first frames, and gives each later
/// one once it is full; what it keeps is asked for at the end.
#[derive(Drop)]
pub struct Unwrap {
    frames: u32,
    first: Vec<u8>,
    kept: usize,
    frame: [u8; FRAME_BYTES],
    filled: usize,
}

impl Model for Unwrap {
    ghost use Rattle.std.specs.Prelude.{◌≡◌, ◌⊎◌, ◌<◌, ◌≤◌, length, take};
    ghost use Rattle.formatter_frames.specs.Sizes.{frame_bytes};
    ghost use Rattle.ring_capture.specs.Rotated.{in_bytes};
    ghost use Rattle.ring_capture.specs.Unwrapping.{Unwrapping};

    ghost Value = { Unwrapping };

    ghost view = { λ u. record { frames = u.frames; kept = take u.kept u.first.items; begun = take u.filled u.frame } };

    ghost invariant = { λ u. (length u.first.items ≡ in_bytes u.frames) × (u.kept ≤ length u.first.items) × (u.filled < frame_bytes)
        × (length u.frame ≡ frame_bytes) × ((u.filled ≡ 0) ⊎ (u.kept ≡ length u.first.items)) };
}

impl Unwrap {
    /// One that has taken nothing, and keeps so many frames. This is the one call that takes memory, and the error means want
    /// of it.
    pub fn new(alloc: Global, frames: u32) -> Result<Self, AllocError>
        requires { frames ≤ 65536 }
        ensures frames { IfOk result (λ u. u.frames ≡ frames) }
        ensures stands { IfOk result (λ u. StandsAt u []) }
    {
        let first = vec![in alloc; 0; frames as usize * FRAME_BYTES]?;
        Ok(Unwrap {
            frames,
            first,
            kept: 0,
            frame: [0; FRAME_BYTES],
            filled: 0,
        })
    }

    /// Takes a byte. Gives the frame that it fills, where that is not one of the first.
    pub fn take(&mut self, byte: u8) -> Option<[u8; FRAME_BYTES]>
        ensures stands { (bytes : List ℕ) → StandsAt self.old bytes → StandsAt self.new (bytes ++ byte ∷ []) }
        ensures gains { (bytes : List ℕ) → StandsAt self.old bytes
            → later_frames self.old.frames (bytes ++ byte ∷ []) ≡ later_frames self.old.frames bytes ++ given result }
        ensures full { IsSome result ↔ ((length self.old.kept ≡ in_bytes self.old.frames) × (length self.old.begun + 1 ≡ frame_bytes)) }
        ensures frames { self.new.frames ≡ self.old.frames }
        ensures count { count_of self.new + length (given result) ≡ count_of self.old + 1 }
    {
        if self.kept < self.first.len() {
            self.first[self.kept] = byte;
            self.kept += 1;
            return None;
        }
        self.frame[self.filled] = byte;
        self.filled += 1;
        if self.filled < FRAME_BYTES {
            return None;
        }
        self.filled = 0;
        Some(self.frame)
    }

    /// Frame j of the first ones. Nothing where it was not filled, or is not one of them.
    pub fn kept(&self, j: u32) -> Option<[u8; FRAME_BYTES]>
        ensures value { result ≡ frame_at j self.now.kept }
        ensures stands { (bytes : List ℕ) → StandsAt self.now bytes → result ≡ frame_at j (take (in_bytes self.now.frames) bytes) }
    {
        let start = j as usize * FRAME_BYTES;
        if start + FRAME_BYTES > self.kept {
            return None;
        }
        let mut frame = [0; FRAME_BYTES];
        frame.copy_from_slice(&self.first[start..start + FRAME_BYTES]);
        Some(frame)
    }

    /// The bytes of the frame that was begun, 0 to 15.
    pub fn tail(&self) -> &[u8]
        ensures stands { (bytes : List ℕ) → StandsAt self.now bytes → result.now ≡ begun_frame bytes }
        ensures few { length result.now < frame_bytes }
        ensures count { length result.now ≡ count_of self.now % frame_bytes }
    {
        if self.kept < self.first.len() {
            &self.first[self.kept - self.kept % FRAME_BYTES..self.kept]
        } else {
            &self.frame[..self.filled]
        }
    }
}

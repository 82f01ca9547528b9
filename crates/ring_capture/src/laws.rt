//! What frames carry where the first ones of a capture are missing, or where the oldest frame of a buffer is not its first one: laws, as
//! contracts of functions that do nothing.
ghost use Rattle.std.specs.Prelude.{◌≡◌, ℕ, ◌+◌, ◌<◌, ◌≤◌, List, ◌++◌, drop, length};
ghost use Rattle.capture_streams.specs.Laid.{IsLaid};
ghost use Rattle.capture_streams.specs.Texts.{of};
ghost use Rattle.formatter_frames.specs.Framed.{framed};
ghost use Rattle.formatter_frames.specs.Unframed.{begun_frame, unframed};
ghost use Rattle.ring_capture.specs.Ends.{EndsWith};
ghost use Rattle.ring_capture.specs.Laid.{wrapped_laid};
ghost use Rattle.ring_capture.specs.Rotated.{in_bytes, later_frames, rotated};

/// However many leading frames of a capture are missing, what is left carries the last bytes of each ID; and so of framed pairs.
pub fn the_last_frames_carry_the_last_bytes()
    ensures any { (bytes : List ℕ) (n : ℕ) → EndsWith (unframed (drop (in_bytes n) bytes)) (unframed bytes) }
    ensures framed { (pairs : List (ℕ × ℕ)) (n id : ℕ) → 0 < id → EndsWith (of id (unframed (drop (in_bytes n) (framed pairs)))) (of id pairs) }
    ensures each { (last whole : List (ℕ × ℕ)) (id : ℕ) → EndsWith last whole → EndsWith (of id last) (of id whole) }
    ensures left { (last whole : List ℕ) → EndsWith last whole
        → (missing : ℕ) × (missing ≤ length whole) × (last ≡ drop missing whole) }
{}

/// Read from frame k on, the frames from that one on come while the bytes come, and what they carry stands first in all that is
/// carried. As many bytes are left over as in any order. A buffer in which there is no frame k is read as it stands.
pub fn a_buffer_is_read_from_its_oldest_frame()
    ensures laid { (k : ℕ) → IsLaid (wrapped_laid k) }
    ensures grows { (k : ℕ) (bytes more : List ℕ) → (rest : List ℕ) × (later_frames k (bytes ++ more) ≡ later_frames k bytes ++ rest) }
    ensures left { (k : ℕ) (bytes : List ℕ) → begun_frame (rotated k bytes) ≡ begun_frame bytes }
    ensures length { (k : ℕ) (bytes : List ℕ) → length (rotated k bytes) ≡ length bytes }
    ensures from_the_first { (bytes : List ℕ) → rotated 0 bytes ≡ bytes }
    ensures few { (k : ℕ) (bytes : List ℕ) → length bytes < in_bytes (k + 1) → rotated k bytes ≡ bytes }
{}

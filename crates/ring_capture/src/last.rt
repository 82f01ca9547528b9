//! The last frames of a capture.
ghost use Rattle.std.specs.Prelude.{◌≡◌, ◌<◌, ◌-◌, ◌%◌, ℕ, List, length, drop};
ghost use Rattle.capture_streams.specs.Texts.{of};
ghost use Rattle.formatter_frames.specs.Framed.{framed};
ghost use Rattle.formatter_frames.specs.Sizes.{frame_bytes};
ghost use Rattle.formatter_frames.specs.Unframed.{unframed};
ghost use Rattle.ring_capture.specs.Ends.{EndsWith};
ghost use Rattle.ring_capture.specs.Rotated.{in_bytes};

use formatter_frames::FRAME_BYTES;

/// The last n of whole frames, or all of them where there are no more. Each ID has in them the last of its bytes.
pub fn last_frames(bytes: &[u8], n: u32) -> &[u8]
    requires { length bytes.now % frame_bytes ≡ 0 }
    ensures value { result.now ≡ drop (length bytes.now - in_bytes n) bytes.now }
    ensures last { EndsWith (unframed result.now) (unframed bytes.now) }
    ensures carried { (pairs : List (ℕ × ℕ)) (id : ℕ) → bytes.now ≡ framed pairs → 0 < id → EndsWith (of id (unframed result.now)) (of id pairs) }
{
    let from = bytes.len().saturating_sub(n as usize * FRAME_BYTES);
    &bytes[from..]
}

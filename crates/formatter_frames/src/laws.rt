//! Laws of frames, each the contract of a function that does nothing.
ghost use Rattle.std.specs.Prelude.{◌≡◌, ℕ, ◌<◌, List, [], ◌++◌, length, replicate, None, All};
ghost use Rattle.formatter_frames.specs.Sizes.{frame_bytes, frame_symbols};
ghost use Rattle.formatter_frames.specs.Symbols.{pairs_of, id_after};
ghost use Rattle.formatter_frames.specs.Frame.{symbols_in};
ghost use Rattle.formatter_frames.specs.Unframed.{unframed, id_after_frames, begun_frame};
ghost use Rattle.formatter_frames.specs.Framed.{framed, IsPair, IsByte};

/// Pairs that were framed come back in order, and then fewer than fifteen zeros of the null ID. Nothing
/// is left over, and frames are bytes.
pub fn framed_pairs_come_back()
    ensures pairs { (pairs : List (ℕ × ℕ)) → (zeros : ℕ) × (zeros < frame_symbols)
        × (unframed (framed pairs) ≡ pairs ++ replicate zeros (0, 0)) }
    ensures nothing_left { (pairs : List (ℕ × ℕ)) → begun_frame (framed pairs) ≡ [] }
    ensures bytes { (pairs : List (ℕ × ℕ)) → All IsPair pairs → All IsByte (framed pairs) }
{}

/// Unframing begins with no ID. With the bytes that fill a frame it goes on with what that frame
/// carries, and bytes that do not fill it are left over. So more bytes only add pairs, fewer bytes than
/// a frame are left over at any time, and what bytes carry is in its ranges.
pub fn unframing_goes_on()
    ensures nothing { (unframed [] ≡ []) × (id_after_frames [] ≡ None) × (begun_frame [] ≡ []) }
    ensures frame { (bytes more : List ℕ) → length (begun_frame bytes ++ more) ≡ frame_bytes
        → unframed (bytes ++ more) ≡ unframed bytes ++ pairs_of (id_after_frames bytes) (symbols_in (begun_frame bytes ++ more)) }
    ensures current { (bytes more : List ℕ) → length (begun_frame bytes ++ more) ≡ frame_bytes
        → id_after_frames (bytes ++ more) ≡ id_after (id_after_frames bytes) (symbols_in (begun_frame bytes ++ more)) }
    ensures none_left { (bytes more : List ℕ) → length (begun_frame bytes ++ more) ≡ frame_bytes → begun_frame (bytes ++ more) ≡ [] }
    ensures begun { (bytes more : List ℕ) → length (begun_frame bytes ++ more) < frame_bytes
        → (unframed (bytes ++ more) ≡ unframed bytes) × (id_after_frames (bytes ++ more) ≡ id_after_frames bytes) }
    ensures left { (bytes more : List ℕ) → length (begun_frame bytes ++ more) < frame_bytes
        → begun_frame (bytes ++ more) ≡ begun_frame bytes ++ more }
    ensures grows { (bytes more : List ℕ) → (gained : List (ℕ × ℕ)) × (unframed (bytes ++ more) ≡ unframed bytes ++ gained) }
    ensures few { (bytes : List ℕ) → length (begun_frame bytes) < frame_bytes }
    ensures ranges { (bytes : List ℕ) → All IsByte bytes → All IsPair (unframed bytes) }
{}

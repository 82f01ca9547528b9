//! Laws of synchronisation packets, as contracts of functions that do nothing.
ghost use Rattle.std.specs.Prelude.{◌≡◌, ◌≢◌, ℕ, ◌+◌, ◌*◌, ◌%◌, ◌<◌, ◌≤◌, List, [], ◌∷◌, ◌++◌, drop, length, All};
ghost use Rattle.capture_streams.specs.Laid.{IsLaid};
ghost use Rattle.formatter_frames.specs.Framed.{framed};
ghost use Rattle.formatter_frames.specs.Sizes.{frame_bytes};
ghost use Rattle.formatter_frames.specs.Unframed.{unframed};
ghost use Rattle.sync_frames.specs.Laid.{synced_laid};
ghost use Rattle.sync_frames.specs.Syncs.{full_sync, half_sync, kept_from, unsynced};
ghost use Rattle.sync_frames.specs.Synced.{IsSourcePair, NoFFAtEven, Synced, synced_every};
ghost use Rattle.sync_frames.specs.Unsyncing.{StandsAt, Unsyncing};

/// What is before the earliest full sync is passed over, and bytes without one hold no frame. Behind it a full sync is dropped at place 0 of a
/// frame, a half sync at each even place, and two bytes are kept that begin neither; a last byte that stands alone is kept.
pub fn syncs_are_dropped()
    ensures first { (junk behind : List ℕ)
        → ((before after : List ℕ) → junk ++ (full_sync ++ behind) ≡ before ++ (full_sync ++ after) → length junk ≤ length before)
        → unsynced (junk ++ (full_sync ++ behind)) ≡ kept_from 0 behind }
    ensures none { (bytes : List ℕ) → ((before after : List ℕ) → bytes ≡ before ++ (full_sync ++ after) → ⊥) → unsynced bytes ≡ [] }
    ensures full { (bytes : List ℕ) → kept_from 0 (full_sync ++ bytes) ≡ kept_from 0 bytes }
    ensures half { (place : ℕ) (bytes : List ℕ) → kept_from place (half_sync ++ bytes) ≡ kept_from place bytes }
    ensures others { (place first second : ℕ) (bytes : List ℕ)
        → ((more : List ℕ) → first ∷ second ∷ bytes ≡ half_sync ++ more → ⊥)
        → (place ≡ 0 → (more : List ℕ) → first ∷ second ∷ bytes ≡ full_sync ++ more → ⊥)
        → kept_from place (first ∷ second ∷ bytes) ≡ first ∷ second ∷ kept_from ((place + 2) % frame_bytes) bytes }
    ensures last { (place byte : ℕ) → (kept_from place (byte ∷ []) ≡ byte ∷ []) × (kept_from place [] ≡ []) }
{}

/// The frames of bytes of trace sources have no byte FF at an even place, so no sync begins among them.
pub fn framed_bytes_hold_no_sync()
    ensures { (pairs : List (ℕ × ℕ)) → All IsSourcePair pairs → NoFFAtEven (framed pairs) }
{}

/// Frames in which no sync begins come back, whatever bytes stand before the first full sync and whatever syncs stand among them; so do the
/// frames of bytes of trace sources. Frames that are written with full syncs among them are such.
pub fn synced_frames_come_back()
    ensures back { (frames bytes : List ℕ) → NoFFAtEven frames → Synced frames bytes → unsynced bytes ≡ frames }
    ensures framed { (pairs : List (ℕ × ℕ)) (bytes : List ℕ) → All IsSourcePair pairs → Synced (framed pairs) bytes → unsynced bytes ≡ framed pairs }
    ensures written { (every : ℕ) (frames : List ℕ) → 0 < every → length frames % frame_bytes ≡ 0 → frames ≢ [] → Synced frames (synced_every every frames) }
{}

/// The frames of bytes of trace sources, all of them or those from frame k on, come back from what is written of them with full syncs among
/// them; where there are none, nothing is written.
pub fn what_is_synced_is_unsynced()
    ensures { (every k : ℕ) (pairs : List (ℕ × ℕ)) → 0 < every → All IsSourcePair pairs
        → unsynced (synced_every every (drop (frame_bytes * k) (framed pairs))) ≡ drop (frame_bytes * k) (framed pairs) }
{}

/// What more bytes carry comes behind what was carried, so a capture of a trace port has a layout; and bytes that are held back fill no frame.
pub fn frames_go_on()
    ensures laid { IsLaid synced_laid }
    ensures grows { (bytes more : List ℕ) → (pairs : List (ℕ × ℕ)) × (unframed (unsynced (bytes ++ more)) ≡ unframed (unsynced bytes) ++ pairs) }
    ensures held { (u : Unsyncing) (bytes given : List ℕ) → StandsAt u bytes given → unframed (unsynced bytes) ≡ unframed given }
{}

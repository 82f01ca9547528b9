//! What holds of what is traced.
ghost use Rattle.program_image.specs.Part.{IsImage};
ghost use Rattle.program_image.specs.declared.image.Image.{Image};
ghost use Rattle.run_file.specs.Parts.{BenchParts, IsBench};
ghost use Rattle.std.specs.Prelude.{◌≡◌, ◌<◌, ℕ, Option, Some};
ghost use Rattle.sync_frames.specs.Syncs.{unsynced};
ghost use Rattle.traced_runs.specs.Traced.{AreAccepted, NoEventNoLine, SomeTableSuits, TracesAreShown, kept_frames, trace_frames, with_syncs};

/// Where all events of a run file are accepted, the frames of its traces show each stream's retired path, which ends clean, and
/// nothing else, under every table that gives the streams their sizes. There is such a table. A stream without an event has no line.
/// What is written of these frames, or of the last ones of them, with synchronisation packets among them, has these frames again.
pub fn traced_streams_show_their_retired_paths()
    ensures no_event { NoEventNoLine }
    ensures some_table { SomeTableSuits }
    ensures shown { (image : Image) (b : BenchParts) → IsImage image → IsBench b → AreAccepted image b → TracesAreShown image b }
    ensures synced { (image : Image) (b : BenchParts) → IsImage image → IsBench b → AreAccepted image b → (last : Option ℕ) (every : ℕ) → 0 < every
        → unsynced (with_syncs (Some every) (kept_frames last (trace_frames image b))) ≡ kept_frames last (trace_frames image b) }
{}

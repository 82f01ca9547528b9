//! What is shown where the first bytes of a trace are missing: laws, as contracts of functions that do nothing.
ghost use Rattle.std.specs.Prelude.{◌≡◌, ℕ, ◌<◌, ◌≤◌, List, [], ◌∷◌, ◌++◌, Ok, drop, length};
ghost use Rattle.element_queue.specs.Resolved.{Resolved, resolve, resolve_all, unresolved};
ghost use Rattle.etm_types.specs.Settings.{AreSettings, Sizes};
ghost use Rattle.etm_types.specs.declared.element.Elem.TheVariants as elem;
ghost use Rattle.etm_types.specs.declared.element.Elem.{Elem};
ghost use Rattle.etm_types.specs.declared.item.Item.{Item};
ghost use Rattle.late_reader.specs.LastBytes.{LastBytesShow};
ghost use Rattle.late_reader.specs.Part.{AreCertain, ShowsPart};
ghost use Rattle.packet_grammar.specs.Parsed.{FirstSync, SyncAt};
ghost use Rattle.packet_grammar.specs.declared.end.End.TheVariants as end;
ghost use Rattle.path_elements.specs.Path.{IsPath};
ghost use Rattle.path_walker.specs.State.{State, first_state};
ghost use Rattle.path_walker.specs.Things.{Walks};
ghost use Rattle.program_image.specs.Part.{IsImage};
ghost use Rattle.program_image.specs.declared.image.Image.{Image};
ghost use Rattle.return_stack.specs.Stack.{most_addresses};
ghost use Rattle.spec_run.specs.RunAfter.{AreEvents, run_after};
ghost use Rattle.spec_run.specs.Runs.{Execution};
ghost use Rattle.spec_run.specs.declared.event.Event.{Event};
ghost use Rattle.trace_unit.specs.Taken.{Announces};
ghost use Rattle.trace_unit.specs.Written.{settled};

/// Where the whole of a trace has no fault and no unknown stretch, and a trace info in it announces as many P0 elements as are
/// held there, a reader that enters at that trace info has no fault either, and shows of the rest what the whole shows of it, or
/// that it is unknown.
pub fn a_late_reader_shows_its_part()
    ensures shows { (image : Image) (depth announced : ℕ) (early elements : List Elem) (before whole : Resolved) (items : List Item) (after : State)
        → resolve_all depth unresolved early ≡ Ok before → Announces depth announced before
        → resolve_all depth unresolved (early ++ elem.Info announced ∷ elements) ≡ Ok whole
        → Walks image first_state whole.done items (Ok after) → AreCertain items
        → (at : Resolved) × (resolve depth before (elem.Info announced) ≡ Ok at) × ShowsPart image depth announced at elements whole items }
{}

/// For each run, and however many leading bytes are missing of its trace: where an A-sync is left, it is a packet of the trace, the
/// trace info behind it announces what is held there, and the path of what is left ends clean and shows its part of the retired
/// path. Where none is left, nothing is shown.
pub fn the_last_bytes_show_their_part()
    ensures shown { (image : Image) (s : Sizes) (most : ℕ) (events : List Event) (x : Execution) (missing offset : ℕ) → IsImage image
        → AreSettings s → most ≤ most_addresses → AreEvents s events → 0 < length events → run_after image s.depth events ≡ Ok x
        → FirstSync offset (drop missing (settled image s most events)) → LastBytesShow image s most events x missing offset }
    ensures none { (image : Image) (s : Sizes) (most : ℕ) (events : List Event) (missing : ℕ)
        → ((at : ℕ) → SyncAt at (drop missing (settled image s most events)) → ⊥)
        → IsPath image s (drop missing (settled image s most events)) [] end.NoSync }
{}

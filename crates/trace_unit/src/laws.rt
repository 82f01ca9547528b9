//! What the definitions mean, as contracts of functions that do nothing.
ghost use Rattle.std.specs.Prelude.{◌≡◌, ℕ, ◌<◌, ◌≤◌, All, List, [], ◌∷◌, ◌++◌, length, None, Ok};
ghost use Rattle.element_queue.specs.Resolved.{Resolved, resolve_all, unresolved};
ghost use Rattle.etm_types.specs.Settings.{AreSettings, Sizes};
ghost use Rattle.packet_grammar.specs.declared.end.End.TheVariants as end;
ghost use Rattle.packet_writer.specs.Fitting.{HasSpelling};
ghost use Rattle.path_elements.specs.Elements.{untold};
ghost use Rattle.path_elements.specs.Path.{IsPath};
ghost use Rattle.path_walker.specs.State.{State, first_state};
ghost use Rattle.path_walker.specs.Things.{Walks};
ghost use Rattle.program_image.specs.Blocks.{HasGap};
ghost use Rattle.program_image.specs.Part.{IsImage};
ghost use Rattle.program_image.specs.declared.image.Image.{Image};
ghost use Rattle.return_stack.specs.Stack.{most_addresses};
ghost use Rattle.spec_run.specs.Checks.{check, effect_of};
ghost use Rattle.spec_run.specs.RetiredItems.{retired_of};
ghost use Rattle.spec_run.specs.RunAfter.{AreEvents, IsEvent, after_event, place_in, run_after};
ghost use Rattle.spec_run.specs.Runs.{Execution, at_first};
ghost use Rattle.spec_run.specs.declared.event.Event.{Event};
ghost use Rattle.trace_unit.specs.Effects.{orders, orders_on, places_after, places_from};
ghost use Rattle.trace_unit.specs.Fitting.{FitsOrder, FitsPlaces, FitsRun, IsCounted, IsShared};
ghost use Rattle.trace_unit.specs.Growing.{orders_of_one, places_behind, shared_behind, waiting_behind, written_for_one};
ghost use Rattle.trace_unit.specs.Orders.{Order, Sync, Tell};
ghost use Rattle.trace_unit.specs.Packets.{Shared, nothing_shared, packets_all, packets_of, settle_packets, shared_after};
ghost use Rattle.trace_unit.specs.Packets.{shared_all};
ghost use Rattle.trace_unit.specs.Places.{Places, no_places};
ghost use Rattle.trace_unit.specs.Small.{IsWithin, Small, unretired};
ghost use Rattle.trace_unit.specs.Taken.{Announces, CanTakeAll};
ghost use Rattle.trace_unit.specs.Telling.{AreTold, told_with};
ghost use Rattle.trace_unit.specs.Told.{all_told};
ghost use Rattle.trace_unit.specs.Whole.{PutOff, nothing_waits, out_elements, settle_elements, waits_all, whole, whole_all};
ghost use Rattle.trace_unit.specs.Whole.{whole_settled};
ghost use Rattle.trace_unit.specs.Written.{settled, written};

/// A reader of all that is told of a run, at once, has no fault, and what is committed of it shows exactly the retired path
/// of the run.
pub fn told_elements_show_the_retired_path()
    ensures { (image : Image) (s : Sizes) (most : ℕ) (events : List Event) (x : Execution) → HasGap image → most ≤ most_addresses
        → AreEvents s events → run_after image s.depth events ≡ Ok x
        → (r : Resolved) × (w : State) × (resolve_all s.depth unresolved (all_told (orders image s most events)) ≡ Ok r)
        × Walks image first_state r.done (retired_of x) (Ok w) }
{}

/// Where a reader that is told each order at once can take each of them, a reader of the whole form, settled, has no fault
/// either, and comes to the very same. The orders of a run can be taken so.
pub fn both_forms_are_resolved_alike()
    ensures alike { (depth : ℕ) (orders : List Order) → CanTakeAll depth unresolved orders
        → (r : Resolved) × (resolve_all depth unresolved (all_told orders) ≡ Ok r)
        × (resolve_all depth unresolved (whole_settled depth orders) ≡ Ok r) }
    ensures taken { (image : Image) (s : Sizes) (most : ℕ) (events : List Event) (x : Execution) → HasGap image
        → most ≤ most_addresses → AreEvents s events → run_after image s.depth events ≡ Ok x
        → CanTakeAll s.depth unresolved (orders image s most events) }
{}

/// A reader of the whole form of a run, settled, has no fault, and what is committed of it shows exactly the retired path of
/// the run.
pub fn whole_elements_show_the_retired_path()
    ensures { (image : Image) (s : Sizes) (most : ℕ) (events : List Event) (x : Execution) → HasGap image → most ≤ most_addresses
        → AreEvents s events → run_after image s.depth events ≡ Ok x
        → (r : Resolved) × (w : State)
        × (resolve_all s.depth unresolved (whole_settled s.depth (orders image s most events)) ≡ Ok r)
        × Walks image first_state r.done (retired_of x) (Ok w) }
{}

/// Where a trace info is told, it announces exactly what a reader of all before it holds, in both forms: nothing waits there,
/// and both readers stand alike. So a reader that begins there knows how many P0 elements it missed.
pub fn trace_info_announces_what_is_held()
    ensures { (image : Image) (s : Sizes) (most : ℕ) (events : List Event) (x : Execution) (front rest : List Order) (n : ℕ)
        → HasGap image → most ≤ most_addresses → AreEvents s events → run_after image s.depth events ≡ Ok x
        → orders image s most events ≡ front ++ Tell (Sync n) ∷ rest
        → (r : Resolved) × (resolve_all s.depth unresolved (all_told front) ≡ Ok r)
        × (resolve_all s.depth unresolved (whole_all s.depth nothing_waits front) ≡ Ok r)
        × (out_elements (waits_all s.depth nothing_waits front) ≡ []) × Announces s.depth n r }
{}

/// What is kept behind a run is little: of places one for each P0 step that is not retired, and of what waits no more than the
/// depth and a packet's atoms.
pub fn a_unit_keeps_little()
    ensures places { (image : Image) (s : Sizes) (most : ℕ) (events : List Event) (x : Execution) → HasGap image
        → most ≤ most_addresses → AreEvents s events → run_after image s.depth events ≡ Ok x
        → IsWithin most (unretired x.current) (places_from image s.depth most at_first no_places events) }
    ensures waiting { (image : Image) (s : Sizes) (most : ℕ) (events : List Event) (x : Execution) → HasGap image
        → most ≤ most_addresses → AreEvents s events → run_after image s.depth events ≡ Ok x
        → Small s.depth (unretired x.current) (waits_all s.depth nothing_waits (orders image s most events)) }
{}

/// The packets of an order tell a reader, wherever they stand in a stream, exactly the elements of its whole form, and leave to
/// both ends the same. So do those that settle what waits; and so do all packets of a run, of which a trace info is the first
/// that counts.
pub fn packets_tell_the_whole_form()
    ensures order { (s : Sizes) (depth : ℕ) (u : PutOff) (shared : Shared) (order : Order) → FitsOrder s order
        → AreTold (told_with shared) (packets_of depth u shared order) (whole depth u order)
        (told_with (shared_after shared order)) }
    ensures settles { (depth : ℕ) (u : PutOff) (shared : Shared)
        → AreTold (told_with shared) (settle_packets depth u) (settle_elements depth u) (told_with shared) }
    ensures first { (depth n : ℕ) → AreTold untold (packets_of depth nothing_waits nothing_shared (Tell (Sync n)))
        (whole depth nothing_waits (Tell (Sync n))) (told_with nothing_shared) }
    ensures run { (image : Image) (s : Sizes) (most : ℕ) (events : List Event) (x : Execution) → AreEvents s events
        → 0 < length events → run_after image s.depth events ≡ Ok x
        → AreTold untold (packets_all s.depth nothing_waits nothing_shared (orders image s most events)
        ++ settle_packets s.depth (waiting_behind image s most events))
        (whole_settled s.depth (orders image s most events)) (told_with (shared_behind image s most events)) }
{}

/// The orders of an accepted event have values that fit. Where those of an order fit, each of its packets has a spelling, and
/// so has each that settles what waits; and so each packet of a run.
pub fn each_packet_is_spelled()
    ensures event { (image : Image) (depth most : ℕ) (s : Sizes) (x : Execution) (p : Places) (e : Event) → IsEvent s e
        → check image depth (place_in x) e ≡ None → FitsRun s x.current → FitsPlaces p
        → All (FitsOrder s) (orders_on x.current p (effect_of image (place_in x) e))
        × FitsRun s (after_event image depth x e).current
        × FitsPlaces (places_after image depth most x p (effect_of image (place_in x) e)) }
    ensures order { (s : Sizes) (depth : ℕ) (u : PutOff) (shared : Shared) (order : Order) → FitsOrder s order
        → IsShared s shared → IsCounted u
        → All (HasSpelling s) (packets_of depth u shared order) × IsShared s (shared_after shared order) }
    ensures settles { (s : Sizes) (depth : ℕ) (u : PutOff) → IsCounted u → All (HasSpelling s) (settle_packets depth u) }
    ensures run { (image : Image) (s : Sizes) (most : ℕ) (events : List Event) (x : Execution) → HasGap image → AreSettings s
        → most ≤ most_addresses → AreEvents s events → run_after image s.depth events ≡ Ok x
        → All (HasSpelling s) (packets_all s.depth nothing_waits nothing_shared (orders image s most events))
        × All (HasSpelling s) (settle_packets s.depth (waiting_behind image s most events)) }
{}

/// A reader of what is written for a run, settled, comes to its end without a fault, and is shown exactly the retired path of
/// the run.
pub fn a_trace_shows_the_retired_path()
    ensures { (image : Image) (s : Sizes) (most : ℕ) (events : List Event) (x : Execution) → IsImage image → AreSettings s
        → most ≤ most_addresses → AreEvents s events → 0 < length events → run_after image s.depth events ≡ Ok x
        → IsPath image s (settled image s most events) (retired_of x) end.Clean }
{}

/// Without events nothing is written. An event adds to what was written for those before it the bytes of its own orders, by
/// what was kept behind them, and what is kept behind it comes of that and of the event.
pub fn a_trace_grows_event_by_event()
    ensures none { (image : Image) (s : Sizes) (most : ℕ) → (written image s most [] ≡ []) × (settled image s most [] ≡ []) }
    ensures grows { (image : Image) (s : Sizes) (most : ℕ) (events : List Event) (x : Execution) (e : Event)
        → run_after image s.depth events ≡ Ok x
        → written image s most (events ++ e ∷ []) ≡ written image s most events ++ written_for_one image s most events x e }
    ensures keeps { (image : Image) (s : Sizes) (most : ℕ) (events : List Event) (x : Execution) (e : Event)
        → run_after image s.depth events ≡ Ok x
        → (waiting_behind image s most (events ++ e ∷ [])
        ≡ waits_all s.depth (waiting_behind image s most events) (orders_of_one image s most events x e))
        × (shared_behind image s most (events ++ e ∷ [])
        ≡ shared_all (shared_behind image s most events) (orders_of_one image s most events x e))
        × (places_behind image s most (events ++ e ∷ [])
        ≡ places_after image s.depth most x (places_behind image s most events) (effect_of image (place_in x) e)) }
{}

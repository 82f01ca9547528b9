//! What the definitions mean, as contracts of functions that do nothing.
ghost use Rattle.std.specs.Prelude.{◌≡◌, ℕ, ◌<◌, ◌^◌, List, [], ◌∷◌, ◌++◌, length, Ok, Err};
ghost use Rattle.etm_types.specs.Settings.{Sizes};
ghost use Rattle.etm_types.specs.declared.context.Ctx.{Ctx};
ghost use Rattle.etm_types.specs.declared.item.Item.{Item};
ghost use Rattle.program_image.specs.Blocks.{HasGap};
ghost use Rattle.program_image.specs.declared.image.Image.{Image};
ghost use Rattle.spec_run.specs.Blocks.{BegunBlock, begun, blocks, fresh, items_of_blocks};
ghost use Rattle.spec_run.specs.Checks.{effect_of};
ghost use Rattle.spec_run.specs.Executed.{AreSteps, AreStretches, IsPlace, IsRunningBy};
ghost use Rattle.spec_run.specs.RetiredItems.{added_by, items_behind, path_of_steps, retired_of, stretch_items};
ghost use Rattle.spec_run.specs.RunAfter.{AreEvents, after_event, place_in, run_after, run_from};
ghost use Rattle.spec_run.specs.Runs.{Execution};
ghost use Rattle.spec_run.specs.Stands.{Follows, OpenBlock, PathStandsAt};
ghost use Rattle.spec_run.specs.declared.event.Event.{Event};
ghost use Rattle.spec_run.specs.declared.run_fault.RunFault.{RunFault};
ghost use Rattle.spec_run.specs.declared.step.RunStep.{RunStep};

/// The steps of accepted events are executed as the image allows, one behind the other, with one context a block.
pub fn steps_are_executed()
    ensures { (image : Image) (s : Sizes) (events : List Event) (x : Execution) → AreEvents s events
        → run_after image s.depth events ≡ Ok x → IsRunningBy image x.current × AreStretches image x.closed }
{}

/// The retired path goes block by block: it shows the items of the whole blocks, and of no step behind them.
pub fn paths_go_by_blocks()
    ensures items { (image : Image) (start : ℕ) (first : Ctx) (steps : List RunStep) → IsPlace start
        → AreSteps image (fresh start) first steps
        → path_of_steps steps ≡ items_of_blocks (blocks (fresh start) steps) }
    ensures joined { (o : BegunBlock) (steps more : List RunStep)
        → blocks o (steps ++ more) ≡ blocks o steps ++ blocks (begun o steps) more }
{}

/// What an accepted event adds to the retired path, so that it can be shown event by event. Steps that are retired add the
/// items of the blocks that they end, the end of tracing adds a gap or a stop, and all others add nothing.
///
/// A caller keeps a `RetiredPath` at the retired steps: it calls `begin` behind an On, and `close` at the end of tracing. It
/// gives the held steps that a retire takes, and at depth 0 each executed step, to `RetiredPath::retire`, one after the other,
/// and shows what that answers. What it shows is then `items_behind` of the steps that it gave: by `only`, and the clause
/// `shown` of `retire`, an answer is what its step adds, and by `joined` that goes behind what was shown before.
pub fn retired_path_grows()
    ensures event { (image : Image) (depth : ℕ) (x : Execution) (e : Event)
        → retired_of (after_event image depth x e) ≡ retired_of x ++ added_by depth x.current (effect_of image (place_in x) e) }
    ensures stretch { (steps more : List RunStep)
        → stretch_items (steps ++ more) ≡ stretch_items steps ++ items_behind steps more }
    ensures only { (steps more : List RunStep) (items : List Item) → stretch_items (steps ++ more) ≡ stretch_items steps ++ items
        → items_behind steps more ≡ items }
    ensures joined { (steps more others : List RunStep)
        → items_behind steps (more ++ others) ≡ items_behind steps more ++ items_behind (steps ++ more) others }
{}

/// A retired path that stands behind the first of executed steps can take the next one: it goes on the block that is begun.
/// Over an image, which has no word at some address, a block has never more plain steps than can be counted.
pub fn retired_path_takes_executed_steps()
    ensures follows { (image : Image) (start : ℕ) (first : Ctx) (steps more : List RunStep) (step : RunStep) (b : OpenBlock)
        → IsPlace start → AreSteps image (fresh start) first (steps ++ step ∷ more) → PathStandsAt b steps → Follows b step }
    ensures few { (image : Image) (start : ℕ) (first : Ctx) (steps more : List RunStep) (b : OpenBlock) → HasGap image
        → IsPlace start → AreSteps image (fresh start) first (steps ++ more) → PathStandsAt b steps → b.plain < 2 ^ 62 }
{}

/// Events go one by one: those behind others run on from what these came to, and a front of accepted events is accepted. An
/// event that is refused is refused whatever comes behind it.
pub fn events_go_one_by_one()
    ensures joined { (image : Image) (depth : ℕ) (events more : List Event) (x : Execution) → run_after image depth events ≡ Ok x
        → run_after image depth (events ++ more) ≡ run_from image depth x (length events) more }
    ensures front { (image : Image) (depth : ℕ) (events more : List Event) (x : Execution)
        → run_after image depth (events ++ more) ≡ Ok x
        → (y : Execution) × (run_after image depth events ≡ Ok y) }
    ensures refused { (image : Image) (depth : ℕ) (events more : List Event) (k : ℕ) (fault : RunFault)
        → run_after image depth events ≡ Err (k, fault)
        → run_after image depth (events ++ more) ≡ Err (k, fault) }
    ensures within { (image : Image) (depth : ℕ) (events : List Event) (k : ℕ) (fault : RunFault)
        → run_after image depth events ≡ Err (k, fault)
        → k < length events }
{}

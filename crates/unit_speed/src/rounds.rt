//! The events of the loop.
ghost use Rattle.std.specs.Prelude.{◌≡◌, ◌++◌, ◌∷◌, [], List, IfOk, IsOk, if◌then◌else◌, replicate};
ghost use Rattle.etm_types.specs.Context.{initial_context};
ghost use Rattle.spec_run.specs.declared.event.Event.{Event as Events};
ghost use Rattle.spec_run.specs.declared.event.Event.TheVariants.{On, Retire, Sync};
ghost use Rattle.trace_unit.specs.Kept.{StandsAt};
ghost use Rattle.spec_run.specs.RunAfter.{IsEvent};

use etm_types::Ctx;
use program_image::Image;
use spec_run::Event;
use trace_unit::{Unit, UnitFault};

/// The instructions of a round.
pub const ROUND: u32 = 15;

/// The P0 steps of a round: its call, its return, the branch that may be predicted wrongly, and the branch back.
pub const P0_STEPS: u32 = 4;

/// Where the loop begins, and where its call returns to.
const LOOP: u64 = 0x1000;

const BEHIND_CALL: u64 = 0x1010;

/// Tracing begins at the loop.
pub fn begin(unit: &mut Unit, image: &Image, bytes: &mut Vec<u8>) -> Result<(), UnitFault>
    ensures stands { (events : List Events) → StandsAt image.now unit.old events → IsOk result
        → StandsAt image.now unit.new (events ++ On 4096 initial_context ∷ []) }
{
    let on = Event::On {
        addr: LOOP,
        ctx: Ctx::initial(),
    };
    unit.accept(image, &on, bytes)
}

/// A round, and how many events it has. A branch that is first taken wrongly is taken back with what came behind it.
pub fn run_round(
    unit: &mut Unit,
    image: &Image,
    wrong: bool,
    bytes: &mut Vec<u8>,
) -> Result<u64, UnitFault>
    ensures events { IfOk result (λ events. events ≡ (if wrong then 18 else 15)) }
{
    repeat(unit, image, &Event::Step, 3, bytes)?;
    repeat(unit, image, &Event::Taken, 1, bytes)?;
    repeat(unit, image, &Event::Step, 5, bytes)?;
    repeat(unit, image, &Event::To { addr: BEHIND_CALL }, 1, bytes)?;
    repeat(unit, image, &Event::Step, 2, bytes)?;
    if wrong {
        repeat(unit, image, &Event::Taken, 2, bytes)?;
        repeat(unit, image, &Event::Cancel(1), 1, bytes)?;
        repeat(unit, image, &Event::Flip, 1, bytes)?;
    } else {
        repeat(unit, image, &Event::NotTaken, 1, bytes)?;
    }
    repeat(unit, image, &Event::Step, 1, bytes)?;
    repeat(unit, image, &Event::Taken, 1, bytes)?;
    Ok(if wrong { 18 } else { 15 })
}

/// The instructions of the oldest round are retired.
pub fn retire_round(unit: &mut Unit, image: &Image, bytes: &mut Vec<u8>) -> Result<(), UnitFault>
    ensures stands { (events : List Events) → StandsAt image.now unit.old events → IsOk result
        → StandsAt image.now unit.new (events ++ Retire 15 ∷ []) }
{
    repeat(unit, image, &Event::Retire(ROUND), 1, bytes)
}

/// So many synchronisations.
pub fn synchronise(
    unit: &mut Unit,
    image: &Image,
    times: u32,
    bytes: &mut Vec<u8>,
) -> Result<(), UnitFault>
    ensures stands { (events : List Events) → StandsAt image.now unit.old events → IsOk result
        → StandsAt image.now unit.new (events ++ replicate times Sync) }
{
    repeat(unit, image, &Event::Sync, times, bytes)
}

/// The same event, so many times.
fn repeat(
    unit: &mut Unit,
    image: &Image,
    event: &Event,
    times: u32,
    bytes: &mut Vec<u8>,
) -> Result<(), UnitFault>
    requires { IsEvent unit.old.settings event.now }
    ensures settings { unit.new.settings ≡ unit.old.settings }
    ensures stands { (events : List Events) → StandsAt image.now unit.old events → IsOk result
        → StandsAt image.now unit.new (events ++ replicate times event.now) }
{
    for _done in 0..times {
        unit.accept(image, event, bytes)?;
    }
    Ok(())
}

//! The lines of a round.
ghost use Rattle.std.specs.Prelude.{◌≡◌, ◌++◌, OnOk};
ghost use Rattle.bench_gen.specs.Round.{decided, decision, exception, next, round, side, sync};
ghost use Rattle.bench_gen.specs.Texts.{text};

use crate::lines::push_line;
use std::alloc::AllocError;

/// The state of the next round.
pub fn next(x: u64) -> u64
    ensures { result ≡ next x }
{
    x.wrapping_mul(6_364_136_223_846_793_005)
        .wrapping_add(1_442_695_040_888_963_407)
}

/// Adds the lines of round `j`, by its state.
#[tactic(auto, unfolding(crate::specs::Round::round))]
pub fn push_round(out: &mut Vec<u8>, j: u32, x: u64) -> Result<(), AllocError>
    ensures { OnOk result (out.new.items ≡ out.old.items ++ text (round j x)) }
{
    let taken = (x >> 63) % 2 == 1;
    let mispredicted = (x >> 62) % 2 == 1;
    push_line(out, b"step")?;
    push_decided(out, taken, mispredicted)?;
    push_line(out, side(taken))?;
    push_line(out, b"taken")?;
    push_line(out, b"retire 4")?;
    push_exception(out, j)?;
    push_sync(out, j)
}

/// Adds the right decision; where it is mispredicted, the wrong one and what takes it back.
fn push_decided(out: &mut Vec<u8>, taken: bool, mispredicted: bool) -> Result<(), AllocError>
    ensures { OnOk result (out.new.items ≡ out.old.items ++ text (decided taken mispredicted)) }
{
    if !mispredicted {
        return push_line(out, decision(taken));
    }
    push_line(out, decision(!taken))?;
    push_line(out, side(!taken))?;
    push_line(out, b"cancel 1")?;
    push_line(out, b"flip")
}

/// The line that decides the branch.
fn decision(taken: bool) -> &'static [u8]
    ensures { result.now ≡ decision taken }
{
    if taken { b"taken" } else { b"not" }
}

/// The line of the instruction behind the branch.
fn side(taken: bool) -> &'static [u8]
    ensures { result.now ≡ side taken }
{
    if taken { b"step" } else { b"taken" }
}

/// Adds an exception and the return from it, where one stands behind round `j`.
fn push_exception(out: &mut Vec<u8>, j: u32) -> Result<(), AllocError>
    ensures { OnOk result (out.new.items ≡ out.old.items ++ text (exception j)) }
{
    if j % 16 != 15 {
        return Ok(());
    }
    push_line(out, b"exc 14 20000 el1 ns 0 0")?;
    push_line(out, b"eret 10000 el0 ns 0 0")?;
    push_line(out, b"retire 2")
}

/// Adds a synchronisation, where one stands behind round `j`.
fn push_sync(out: &mut Vec<u8>, j: u32) -> Result<(), AllocError>
    ensures { OnOk result (out.new.items ≡ out.old.items ++ text (sync j)) }
{
    if j % 64 != 63 {
        return Ok(());
    }
    push_line(out, b"sync")
}

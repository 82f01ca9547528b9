//! Traces a loop with a call and a branch that is now and then predicted wrongly, to be timed by `bench/unit`.
//!
//! Standard input has a maximum speculation depth of at least 16, a number of rounds, and one of synchronisations behind them, in
//! decimal. A round is 15 instructions, and in each twentieth of them the branch is first taken wrongly. A synchronisation finds half
//! the depth held. Printed are the numbers of events, of retired instructions and of bytes of trace.
#![tactic(auto)]

mod rounds;

use etm_types::Settings;
use line_words::{decimal, next_word};
use program_image::Image;
use rounds::{P0_STEPS, ROUND, begin, retire_round, run_round, synchronise};
use std::alloc::Global;
use trace_io::{SafeSource, StdSource, read_all};
use trace_unit::{Unit, UnitFault};

/// Plain words, a call of 1030, plain words, CBZ to 1020, a plain word, and B to 1000; at 1030 plain words and RET.
const PROGRAM: &[u8] = b"@1000
1f2003d5 1f2003d5 1f2003d5 09000094 1f2003d5 1f2003d5 400000b4 1f2003d5 f8ffff17
@1030
1f2003d5 1f2003d5 1f2003d5 1f2003d5 1f2003d5 c0035fd6
";

/// The longest input.
const LIMIT: usize = 64;

/// The most addresses on the return stack.
const STACK: usize = 15;

fn main(rt: HostRuntime) -> Result<(), anyhow::Error> {
    let alloc = rt.alloc();
    let input = read_all(alloc, &mut StdSource::new(rt.stdin()), LIMIT)?;
    let line = match input.as_slice() {
        [line @ .., b'\n'] => line,
        line => line,
    };
    let (depth, rest) = number_at(line);
    let (rounds, rest) = number_at(rest);
    let (syncs, _) = number_at(rest);
    let image = Image::read(alloc, &mut SafeSource::new(PROGRAM.to_vec(alloc)?, 4096))?;
    let settings = Settings::new(u32::try_from(depth)?, 0, 0)?;
    let (events, bytes) = traced(alloc, &image, &settings, rounds, u32::try_from(syncs)?)?;
    println!(rt;
        "{events} {} {bytes}",
        rounds.wrapping_mul(u64::from(ROUND))
    )?;
    Ok(())
}

/// The number that a text begins with, 0 where there is none, and what stands behind it.
fn number_at(text: &[u8]) -> (u64, &[u8]) {
    match next_word(text) {
        Some((word, rest)) => (decimal(word).unwrap_or(0), rest),
        None => (0, text),
    }
}

/// How many events so many rounds and synchronisations are, and how many bytes their trace has.
fn traced(
    alloc: Global,
    image: &Image,
    settings: &Settings,
    rounds: u64,
    syncs: u32,
) -> Result<(u64, usize), UnitFault> {
    let mut bytes = Vec::new(alloc);
    let Ok(mut unit) = Unit::new(alloc, settings, STACK) else {
        return Err(UnitFault::Memory);
    };
    let ran = run_events(
        &mut unit,
        image,
        settings.depth(),
        rounds,
        syncs,
        &mut bytes,
    );
    match ran {
        Ok(events) => match unit.end(&mut bytes) {
            Ok(_) => Ok((events, bytes.len())),
            Err(_) => Err(UnitFault::Memory),
        },
        Err(fault) => {
            unit.abandon();
            Err(fault)
        }
    }
}

/// Runs the rounds, and behind them the synchronisations, and tells how many events these are.
fn run_events(
    unit: &mut Unit,
    image: &Image,
    depth: u32,
    rounds: u64,
    syncs: u32,
    bytes: &mut Vec<u8>,
) -> Result<u64, UnitFault> {
    let events = run_rounds(unit, image, depth, rounds, bytes)?;
    synchronise(unit, image, syncs, bytes)?;
    Ok(events.wrapping_add(u64::from(syncs)))
}

/// Runs the rounds, and tells how many events they had. Half the depth is held: a round has four P0 steps.
fn run_rounds(
    unit: &mut Unit,
    image: &Image,
    depth: u32,
    rounds: u64,
    bytes: &mut Vec<u8>,
) -> Result<u64, UnitFault> {
    let held = u64::from(depth / (2 * P0_STEPS));
    begin(unit, image, bytes)?;
    let mut events: u64 = 1;
    for round in 0..rounds {
        let wrong = round % 20 == 19;
        events = events.wrapping_add(run_round(unit, image, wrong, bytes)?);
        if round >= held {
            retire_round(unit, image, bytes)?;
            events = events.wrapping_add(1);
        }
    }
    Ok(events)
}

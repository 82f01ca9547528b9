//! The weave lines.
ghost use Rattle.std.specs.Prelude.{◌≡◌, [], ◌∷◌, ◌++◌, OnOk, replicate};
ghost use Rattle.std.specs.List.{flat_map};
ghost use Rattle.bench_gen.specs.Bench.{ids, rounds, weave_line, weave_word};
ghost use Rattle.bench_gen.specs.Texts.{text};

use crate::lines::{id, push_line};
use crate::sizes::{round_count, stream_count};
use std::alloc::AllocError;

/// Adds a weave line for each round.
#[tactic(auto, unfolding(crate::specs::Bench::weave_line))]
pub fn push_weaves(out: &mut Vec<u8>, n: u32) -> Result<(), AllocError>
    ensures { OnOk result (out.new.items ≡ out.old.items ++ text (replicate (rounds n) (weave_line n))) }
{
    for _ in 0..round_count(n) {
        out.extend_from_slice(b"weave")?;
        push_words(out, n)?;
        push_line(out, b"")?;
    }
    Ok(())
}

/// Adds the words of a weave line, by ID.
fn push_words(out: &mut Vec<u8>, n: u32) -> Result<(), AllocError>
    ensures { OnOk result (out.new.items ≡ out.old.items ++ flat_map weave_word (ids n)) }
{
    for i in 1..=stream_count(n) {
        push_word(out, i)?;
    }
    Ok(())
}

/// Adds a space and a word.
fn push_word(out: &mut Vec<u8>, i: u8) -> Result<(), AllocError>
    ensures { OnOk result (out.new.items ≡ out.old.items ++ weave_word i) }
{
    out.extend_from_slice(b" ")?;
    out.extend_from_slice(&id(i))?;
    out.extend_from_slice(b":7")
}

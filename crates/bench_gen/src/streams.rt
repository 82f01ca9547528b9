//! The lines of the streams.
ghost use Rattle.std.specs.Prelude.{◌≡◌, ◌++◌, OnOk};
ghost use Rattle.std.specs.List.{flat_map};
ghost use Rattle.bench_gen.specs.Bench.{ids, round_lines, stream_lines};
ghost use Rattle.bench_gen.specs.Texts.{text};

use crate::lines::{id, push_line};
use crate::round::{next, push_round};
use crate::sizes::{MOST_STREAMS, round_count, stream_count};
use std::alloc::AllocError;

/// Adds the lines of the streams, by ID.
pub fn push_streams(out: &mut Vec<u8>, n: u32) -> Result<(), AllocError>
    ensures { OnOk result (out.new.items ≡ out.old.items ++ text (flat_map (stream_lines n) (ids n))) }
{
    for i in 1..=stream_count(n) {
        push_stream(out, n, i)?;
    }
    Ok(())
}

/// Adds the lines of stream `i`.
fn push_stream(out: &mut Vec<u8>, n: u32, i: u8) -> Result<(), AllocError>
    ensures { OnOk result (out.new.items ≡ out.old.items ++ text (stream_lines n i)) }
{
    out.extend_from_slice(b"stream ")?;
    push_line(out, &id(i))?;
    push_line(out, b"on 10000 el0 ns 0 0")?;
    push_rounds(out, n, i)
}

/// Adds the lines of the rounds of stream `i`.
fn push_rounds(out: &mut Vec<u8>, n: u32, i: u8) -> Result<(), AllocError>
    ensures { OnOk result (out.new.items ≡ out.old.items ++ text (round_lines n i)) }
{
    let mut x = u64::from(n) * u64::from(MOST_STREAMS) + u64::from(i);
    for j in 0..round_count(n) {
        x = next(x);
        push_round(out, j, x)?;
    }
    Ok(())
}

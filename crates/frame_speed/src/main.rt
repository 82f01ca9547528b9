//! Takes frames apart and puts frames together, to be timed by `bench/frames`.
//!
//! The words are `unframe N` or `frame N`. It makes N mebibytes of frames, or of data bytes, from a
//! fixed sequence of bytes, and prints how many data bytes, or bytes of frames, came of them, and a
//! digest.
#![tactic(auto)]

mod numbers;
mod total;

use etm_types::Id;
use formatter_frames::{FRAME_BYTES, FrameWriter, unpack};
use numbers::Numbers;
use std::env;
use total::Total;
use trace_io::Failed;

const MEBI: u64 = 1 << 20;

/// Data bytes of one ID, before another ID comes.
const RUN: u64 = 8;

fn main(rt: HostRuntime) -> Result<(), anyhow::Error> {
    let mut words = env::args(&rt)?.skip(1);
    let puts_together = match words.next() {
        Some(command) => command.as_str() == "frame",
        None => false,
    };
    let mebibytes = match words.next() {
        Some(number) => number.parse::<u32>()?,
        None => 1,
    };
    let bytes = u64::from(mebibytes) * MEBI;
    let total = if puts_together {
        frame(bytes)?
    } else {
        unframe(bytes / FRAME_BYTES as u64)
    };
    println!(rt; "{} {:016x}", total.count(), total.digest())?;
    Ok(())
}

fn unframe(frames: u64) -> Total {
    let mut numbers = Numbers::new();
    let mut total = Total::new();
    let mut current = None;
    for _ in 0..frames {
        let frame = numbers.frame();
        total.add_pairs(&unpack(&frame, &mut current));
    }
    total
}

fn frame(bytes: u64) -> Result<Total, Failed> {
    let mut numbers = Numbers::new();
    let mut total = Total::new();
    let mut writer = FrameWriter::new();
    let mut id = numbers.id();
    for number in 0..bytes {
        if number % RUN == 0 {
            id = numbers.id();
        }
        writer.push(id, numbers.byte(), &mut total)?;
    }
    writer.finish(&mut total)?;
    Ok(total)
}

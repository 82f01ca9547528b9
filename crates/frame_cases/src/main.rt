//! Prints what `unpack` makes of the frames on standard input. `tests/frame_cases.py` makes the input,
//! and the output that is wanted from the rules of the formatter protocol alone.
//!
//! The input is records of 17 bytes, a frame after one byte that says how it is read:
//! - 00 to 7f, or 80: this ID, or none, holds before it. It is read with each of the 256 auxiliary
//!   bytes in place of its own, and the line has the count of data bytes and a digest.
//! - 81: the ID that held after the last frame read so holds, at first none. The line has each data
//!   byte behind its ID, and the ID that holds then.
#![tactic(auto)]

mod lines;

use formatter_frames::FRAME_BYTES;
use lines::{all_auxiliary_bytes, data_bytes};
use trace_io::{StdSource, read_all};

/// The bytes of a record.
const RECORD: usize = 1 + FRAME_BYTES;

/// The first byte of a record before which no ID holds.
const NO_ID: u8 = 0x80;

/// The most bytes of input.
const LIMIT: usize = 0x100_0000;

fn main(rt: HostRuntime) -> Result<(), anyhow::Error> {
    let alloc = rt.alloc();
    let input = read_all(alloc, &mut StdSource::new(rt.stdin()), LIMIT)?;
    let mut current = None;
    let mut rest = input.as_slice();
    while rest.len() >= RECORD {
        let (record, after) = rest.split_at(RECORD);
        let mut frame = [0; FRAME_BYTES];
        frame.copy_from_slice(&record[1..]);
        let line = if record[0] < NO_ID {
            all_auxiliary_bytes(alloc, &mut frame, Some(record[0]))?
        } else if record[0] == NO_ID {
            all_auxiliary_bytes(alloc, &mut frame, None)?
        } else {
            data_bytes(alloc, &frame, &mut current)?
        };
        println!(rt; "{line}")?;
        rest = after;
    }
    Ok(())
}

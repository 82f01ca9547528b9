//! The words `--wrap K` and `--last N`: a buffer that was written round, and the frames that are left in one.
use crate::tests::{Case, compare, compare_all, joined};
use std::alloc::Global;
use std::process::Abort;
use std::test::Fail;
use trace_cmd::Status;
use trace_io::{MemSource, NoSource};

/// NOP at 1000; B.EQ to 100c; NOP; B to 1000.
const IMAGE: &[u8] = b"@1000\n1f2003d5 40000054 1f2003d5 fdffff17\n";

/// The first frame of a stream, which tells its ID: an A-sync and a trace info.
const OLDER: &[u8] = b"\x03\0\0\0\0\0\0\0\0\0\0\0\x80\x01\0\x80";

/// The frame behind it: an address, and two branches.
const NEWER: &[u8] = b"\0\x04\x84\0\x08\0\0\0\0\0\0\x31\xda\x2d\x02\x02";

const PATH: &[u8] = b"01 on\n01 ctx el1 ns 0 0\n01 1000\n01 1004\n01 1008\n01 100c\n01 end\n";

/// One block of a stream.
const RUN: &[u8] =
    b"etm 1\ndepth 4\nvmid 0\ncid 0\nstream 01\non 1000 el0 s 0 0\nstep\ntaken\nretire 2\n";

/// The second frame of its trace. The first one is that above.
const LAST: &[u8] = b"\0\x04\x84\0\x08\0\0\0\0\0\0\x10\xf6\x2d\0\xc2";

/// The second frame is the oldest.
const WRAPPED: Case = Case {
    words: &[
        "path", "--wrap", "1", "--depth", "4", "--vmid", "0", "--cid", "0", "image",
    ],
    image: IMAGE,
    input: &[NEWER, OLDER],
    output: &[PATH],
    status: Status::Done,
};

const OLDEST_FIRST: [Case; 3] = [
    WRAPPED,
    // a frame that is cut stays last
    Case {
        input: &[NEWER, OLDER, b"\xff\xff\xff"],
        output: &[PATH, b"frame cut 3\n"],
        status: Status::Faulted,
        ..WRAPPED
    },
    // in the order of a buffer that was not written round the address stands before the A-sync
    Case {
        words: &[
            "path", "--wrap=0", "--depth", "4", "--vmid", "0", "--cid", "0", "image",
        ],
        output: &[b"01 cut 2\n"],
        ..WRAPPED
    },
];

#[test]
fn the_oldest_frame_comes_first(rt: HostRuntime) -> Result<(), Fail> {
    compare_all(&rt, rt.alloc(), &OLDEST_FIRST)
}

const BEYOND: Case = Case {
    words: &[
        "path", "--wrap", "65536", "--depth", "4", "--vmid", "0", "--cid", "0", "image",
    ],
    input: &[OLDER, NEWER],
    ..WRAPPED
};

const AS_IT_STANDS: [Case; 2] = [
    BEYOND,
    Case {
        input: &[],
        output: &[],
        ..BEYOND
    },
];

#[test]
fn a_buffer_without_such_a_frame_is_read_as_it_stands(rt: HostRuntime) -> Result<(), Fail> {
    compare_all(&rt, rt.alloc(), &AS_IT_STANDS)
}

/// A read fails behind those of a frame that is not the last.
const NOT_READ: Case = Case {
    words: &["packets", "--wrap", "1", "--vmid", "0", "--cid", "0"],
    image: &[],
    input: &[NEWER, OLDER],
    output: &[],
    status: Status::ReadFault,
};

/// Reads a buffer byte by byte, where the read behind so many fails.
fn read_until(rt: &impl Abort, alloc: Global, reads: usize, case: &Case) -> Result<(), Fail> {
    let mut script = Vec::new(alloc);
    script.resize(reads, false)?;
    script.push(true)?;
    let mut input = MemSource::new(joined(alloc, case.input)?, 1, script);
    compare(rt, alloc, case, &mut NoSource::new(), &mut input)
}

#[test]
fn kept_frames_are_not_printed_behind_a_read_that_fails(rt: HostRuntime) -> Result<(), Fail> {
    let oldest_alone = Case {
        output: &[b"01 0 async\n"],
        ..NOT_READ
    };
    read_until(&rt, rt.alloc(), 31, &NOT_READ)?;
    read_until(&rt, rt.alloc(), 32, &oldest_alone)
}

const LAST_OF_A_TRACE: Case = Case {
    words: &["trace", "--last", "1", "image"],
    input: &[RUN],
    output: &[LAST],
    ..WRAPPED
};

const LAST_FRAMES: [Case; 3] = [
    LAST_OF_A_TRACE,
    Case {
        words: &["trace", "--last", "3", "image"],
        output: &[OLDER, LAST],
        ..LAST_OF_A_TRACE
    },
    Case {
        input: &[b"etm 1\nstream 01\n"],
        output: &[],
        ..LAST_OF_A_TRACE
    },
];

#[test]
fn the_last_frames_of_a_trace_are_written(rt: HostRuntime) -> Result<(), Fail> {
    compare_all(&rt, rt.alloc(), &LAST_FRAMES)
}

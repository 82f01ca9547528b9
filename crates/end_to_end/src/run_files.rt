//! The words `retired IMAGE` on worked run files: what is printed, and the answer.
use crate::tests::{Case, compare, compare_all};
use run_file::BenchWhy;
use spec_run::RunFault;
use std::test::Fail;
use trace_cmd::Status;
use trace_io::{MemSource, SafeSource};

/// NOP at 1000; B.EQ to 100c; NOP; B to 1000.
const IMAGE: &[u8] = b"@1000\n1f2003d5 40000054 1f2003d5 fdffff17\n";

/// The branch at 1004 is predicted to be taken, which is taken back.
const RUN: &[u8] =
    b"etm 1\ndepth 4\nstream 01\non 1000 el1 ns 0 0\nstep\ntaken\ntaken\nstep\nnot\ncancel 3\nflip\nstep\ntaken\nretire 4\n";

const PATH: &[u8] = b"01 on\n01 ctx el1 ns 0 0\n01 1000\n01 1004\n01 1008\n01 100c\n";

const RETIRED: Case = Case {
    words: &["retired", "image"],
    image: IMAGE,
    input: &[RUN],
    output: &[PATH],
    status: Status::Done,
};

const RUNS: [Case; 2] = [
    RETIRED,
    Case {
        input: &[b"etm 1\nstream 01\n"],
        output: &[],
        ..RETIRED
    },
];

#[test]
fn what_is_retired_is_printed(rt: HostRuntime) -> Result<(), Fail> {
    compare_all(&rt, rt.alloc(), &RUNS)
}

const BAD: [Case; 3] = [
    Case {
        input: &[b""],
        output: &[b"bench line 0: header\n"],
        status: Status::BenchBad {
            line: 0,
            why: BenchWhy::Header,
        },
        ..RETIRED
    },
    // the text is tested before its events
    Case {
        input: &[b"etm 1\nstream 01\nstep\ndepth 5\n"],
        output: &[b"bench line 4: syntax\n"],
        status: Status::BenchBad {
            line: 4,
            why: BenchWhy::Syntax,
        },
        ..RETIRED
    },
    Case {
        input: &[b"etm 1\nstream 01\non 1000 el0 s 0 0\nretire 1\n"],
        output: &[b"bench line 4: retire-too-many 1 0\n"],
        status: Status::BenchBad {
            line: 4,
            why: BenchWhy::Run(RunFault::RetireTooMany { asked: 1, held: 0 }),
        },
        ..RETIRED
    },
];

#[test]
fn a_bad_run_file_is_told_by_its_first_line(rt: HostRuntime) -> Result<(), Fail> {
    compare_all(&rt, rt.alloc(), &BAD)
}

const DEPTHS: [Case; 2] = [
    Case {
        input: &[
            b"etm 2\ndepth 4\nstream 01 depth 1\nstream 02\non 1000 el0 s 0 0\nstep\ntaken\ntaken\nstep\nnot\nretire 5\n",
        ],
        output: &[b"02 on\n02 ctx el0 s 0 0\n02 1000\n02 1004\n02 100c\n02 1000\n02 1004\n"],
        ..RETIRED
    },
    Case {
        input: &[
            b"etm 2\ndepth 4\nstream 01 depth 1\non 1000 el0 s 0 0\nstep\ntaken\ntaken\nstep\nnot\nretire 5\n",
        ],
        output: &[b"bench line 7: too-deep 2 1\n"],
        status: Status::BenchBad {
            line: 7,
            why: BenchWhy::Run(RunFault::TooDeep { p0: 2, depth: 1 }),
        },
        ..RETIRED
    },
];

#[test]
fn a_stream_runs_by_its_own_depth(rt: HostRuntime) -> Result<(), Fail> {
    compare_all(&rt, rt.alloc(), &DEPTHS)
}

const NOT_READ: Case = Case {
    output: &[],
    status: Status::ReadFault,
    ..RETIRED
};

#[test]
fn a_run_file_that_cannot_be_read_prints_nothing(rt: HostRuntime) -> Result<(), Fail> {
    let mut image = SafeSource::new(IMAGE.to_vec(rt.alloc())?, 4096);
    let script = vec![in rt.alloc(); false, true]?;
    let mut input = MemSource::new(RUN.to_vec(rt.alloc())?, 60, script);
    compare(&rt, rt.alloc(), &NOT_READ, &mut image, &mut input)
}

//! The words `selftest N [--cut K]`: what is printed, and the answer. Neither image nor input is read.
use crate::tests::{Case, compare};
use std::alloc::Global;
use std::process::Abort;
use std::test::Fail;
use trace_cmd::Status;
use trace_io::NoSource;

const SELFTEST: Case = Case {
    words: &["selftest", "0"],
    image: &[],
    input: &[],
    output: &[b"selftest 0: 1 streams, 1 rounds, 7 lines, same\n"],
    status: Status::Done,
};

fn compare_without_sources(rt: &impl Abort, alloc: Global, cases: &[Case]) -> Result<(), Fail> {
    for case in cases {
        compare(rt, alloc, case, &mut NoSource::new(), &mut NoSource::new())?;
    }
    Ok(())
}

const ROUNDS: [Case; 2] = [
    SELFTEST,
    Case {
        words: &["selftest", "3441"],
        output: &[b"selftest 3441: 1 streams, 32 rounds, 138 lines, same\n"],
        ..SELFTEST
    },
];

#[test]
fn the_lines_of_all_frames_are_counted(rt: HostRuntime) -> Result<(), Fail> {
    compare_without_sources(&rt, rt.alloc(), &ROUNDS)
}

/// All bytes of the frames but one, and all of them.
const CUTS: [Case; 2] = [
    Case {
        words: &["selftest", "0", "--cut", "31"],
        output: &[b"selftest 0: 1 streams, 1 rounds, 2 lines, cut\n"],
        ..SELFTEST
    },
    Case {
        words: &["selftest", "0", "--cut", "32"],
        output: &[b"selftest 0: 1 streams, 1 rounds, 7 lines, cut\n"],
        ..SELFTEST
    },
];

#[test]
fn the_lines_of_the_first_bytes_are_counted(rt: HostRuntime) -> Result<(), Fail> {
    compare_without_sources(&rt, rt.alloc(), &CUTS)
}

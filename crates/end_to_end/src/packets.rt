//! The words `packets --raw` on worked examples: what is printed, and the answer. No image is read.
use crate::tests::{Case, SYNC, compare, joined};
use std::alloc::Global;
use std::process::Abort;
use std::test::Fail;
use trace_cmd::Status;
use trace_io::{NoSource, SafeSource};

/// Nothing is printed of a stream without bytes.
const PACKETS: Case = Case {
    words: &["packets", "--raw"],
    image: &[],
    input: &[],
    output: &[],
    status: Status::Done,
};

/// A stream that ends with a fault.
const FAULTED: Case = Case {
    status: Status::Faulted,
    ..PACKETS
};

const ASYNC: &[u8] = b"01 0 async\n";

fn compare_packets(rt: &impl Abort, alloc: Global, cases: &[Case]) -> Result<(), Fail> {
    for case in cases {
        let mut input = SafeSource::new(joined(alloc, case.input)?, 7);
        compare(rt, alloc, case, &mut NoSource::new(), &mut input)?;
    }
    Ok(())
}

const TWO_SYNCS: [Case; 1] = [Case {
    input: &[
        SYNC,
        b"\x01\x01\x00\x04",
        b"\x85\x00\x08\x00\x00\x00\x00\x00\x00\x10\xf7",
        SYNC,
        b"\x01\x05\x00\x01",
        b"\x85\x03\x08\x00\x00\x00\x00\x00\x00\x10",
        b"\x30\xf7\x2d\x02",
    ],
    output: &[
        b"01 0 async\n01 12 info 0 - - -\n01 15 on\n",
        b"01 16 addr long64 1000 ctx el0 s - -\n01 26 atoms E\n",
        b"01 27 async\n01 39 info 0 - 1 -\n",
        b"01 43 addr long64 100c ctx el0 s - -\n01 53 mispredict -\n",
        b"01 54 atoms E\n01 55 commit 2\n01 end\n",
    ],
    ..PACKETS
}];

#[test]
fn a_sync_between_a_branch_and_its_mispredict(rt: HostRuntime) -> Result<(), Fail> {
    compare_packets(&rt, rt.alloc(), &TWO_SYNCS)
}

const REFUSED: [Case; 4] = [
    Case {
        input: &[SYNC, b"\xa0"],
        output: &[ASYNC, b"01 fault 12 refused q a0\n"],
        ..FAULTED
    },
    Case {
        input: &[SYNC, b"\x0e"],
        output: &[ASYNC, b"01 fault 12 refused cycle-count 0e\n"],
        ..FAULTED
    },
    Case {
        input: &[SYNC, b"\x43"],
        output: &[ASYNC, b"01 fault 12 refused conditional 43\n"],
        ..FAULTED
    },
    Case {
        input: &[SYNC, b"\xb0"],
        output: &[ASYNC, b"01 fault 12 reserved b0\n"],
        ..FAULTED
    },
];

#[test]
fn headers_that_are_refused(rt: HostRuntime) -> Result<(), Fail> {
    compare_packets(&rt, rt.alloc(), &REFUSED)
}

const LARGEST: [Case; 5] = [
    Case {
        input: &[SYNC, b"\x2d\xff\xff\xff\xff\x0f"],
        output: &[ASYNC, b"01 12 commit 4294967295\n01 end\n"],
        ..PACKETS
    },
    Case {
        input: &[SYNC, b"\x2d\xff\xff\xff\xff\x10"],
        output: &[ASYNC, b"01 fault 12 number-too-long\n"],
        ..FAULTED
    },
    Case {
        input: &[SYNC, b"\x02\x80\x80\x80\x80\x80\x80\x80\x80\xff"],
        output: &[ASYNC, b"01 12 time 64 18374686479671623680\n01 end\n"],
        ..PACKETS
    },
    Case {
        input: &[SYNC, b"\x9d\x00"],
        output: &[ASYNC, b"01 cut 2\n"],
        ..PACKETS
    },
    PACKETS,
];

#[test]
fn the_largest_numbers_and_a_packet_that_is_cut(rt: HostRuntime) -> Result<(), Fail> {
    compare_packets(&rt, rt.alloc(), &LARGEST)
}

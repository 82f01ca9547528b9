//! The words `path --raw --depth 0 IMAGE` on worked examples: what is printed, and the answer.
use program_image::ImageWhy;
use std::alloc::{AllocError, Global};
use std::process::Abort;
use std::test::Fail;
use trace_cmd::{Status, run};
use trace_io::{MemSink, MemSource, NoSource, SafeSource, Source};

/// NOP at 1000; B.EQ to 100c; NOP; B to 1000.
const LOOP_IMAGE: &[u8] = b"@1000\n1f2003d5 40000054 1f2003d5 fdffff17\n";

/// The same, and NOP and ERET at 8000.
const HANDLER_IMAGE: &[u8] =
    b"@1000\n1f2003d5 40000054 1f2003d5 fdffff17\n@8000\n1f2003d5 e0039fd6\n";

pub(crate) const SYNC: &[u8] = &[0, 0, 0, 0, 0, 0, 0, 0, 0, 0, 0, 0x80];

/// Trace info, trace on, and the address 1000 with EL1 in Non-secure state.
const HEAD: &[u8] = &[
    0x01, 0x01, 0x00, 0x04, 0x85, 0x00, 0x08, 0, 0, 0, 0, 0, 0, 0x31,
];

/// What is printed of `SYNC`, `HEAD` and the atom E.
const FIRST_LINES: &[u8] = b"01 on\n01 ctx el1 ns 0 0\n01 1000\n01 1004\n";

/// The parts, one behind the other.
pub(crate) fn joined(alloc: Global, parts: &[&[u8]]) -> Result<Vec<u8>, AllocError> {
    let mut all = Vec::new(alloc);
    for part in parts {
        all.extend_from_slice(part)?;
    }
    Ok(all)
}

/// The words of the command.
pub(crate) fn words(alloc: Global, texts: &[&str]) -> Result<Vec<String>, AllocError> {
    let mut words = Vec::new(alloc);
    for text in texts {
        words.push(String::from_str(alloc, text)?)?;
    }
    Ok(words)
}

/// The words of a call, the image, the parts of its input and of what it prints, and its answer.
#[derive(Clone, Copy)]
pub(crate) struct Case {
    pub words: &'static [&'static str],
    pub image: &'static [u8],
    pub input: &'static [&'static [u8]],
    pub output: &'static [&'static [u8]],
    pub status: Status,
}

/// Makes a call over these sources, and compares what is printed and the answer.
pub(crate) fn compare<I: Source, J: Source>(
    rt: &impl Abort,
    alloc: Global,
    case: &Case,
    image: &mut I,
    input: &mut J,
) -> Result<(), Fail> {
    let mut sink = MemSink::new(alloc, Vec::new(alloc));
    let status = run(alloc, &words(alloc, case.words)?, image, input, &mut sink);
    assert_eq!(rt; status, case.status);
    assert_eq!(rt; sink.written(), joined(alloc, case.output)?.as_slice());
    Ok(())
}

/// Makes calls on inputs that come by pieces of at most seven bytes.
pub(crate) fn compare_all(rt: &impl Abort, alloc: Global, cases: &[Case]) -> Result<(), Fail> {
    for case in cases {
        let mut image = SafeSource::new(case.image.to_vec(alloc)?, 4096);
        let mut input = SafeSource::new(joined(alloc, case.input)?, 7);
        compare(rt, alloc, case, &mut image, &mut input)?;
    }
    Ok(())
}

/// Nothing is printed of a stream without bytes.
const PATH: Case = Case {
    words: &["path", "--raw", "--depth", "0", "image"],
    image: LOOP_IMAGE,
    input: &[],
    output: &[],
    status: Status::Done,
};

/// A stream that ends with a fault.
const FAULTED: Case = Case {
    status: Status::Faulted,
    ..PATH
};

const PATHS: [Case; 2] = [
    Case {
        input: &[SYNC, HEAD, b"\xf7\xf7\xf6"],
        output: &[FIRST_LINES, b"01 100c\n01 1000\n01 1004\n01 end\n"],
        ..PATH
    },
    PATH,
];

#[test]
fn the_path_of_a_stream_is_printed(rt: HostRuntime) -> Result<(), Fail> {
    compare_all(&rt, rt.alloc(), &PATHS)
}

const CUTS: [Case; 2] = [
    Case {
        input: &[b"\x00\x00\x00"],
        output: &[b"01 nosync\n"],
        ..PATH
    },
    Case {
        input: &[SYNC, b"\x85\x00"],
        output: &[b"01 cut 2\n"],
        ..PATH
    },
];

#[test]
fn a_stream_that_is_cut_or_has_no_sync_is_no_fault(rt: HostRuntime) -> Result<(), Fail> {
    compare_all(&rt, rt.alloc(), &CUTS)
}

const HANDLED: [Case; 1] = [Case {
    image: HANDLER_IMAGE,
    input: &[
        SYNC,
        b"\x01\x01\x00\x04",
        b"\x85\x00\x08\x00\x00\x00\x00\x00\x00\x30",
        b"\x06\x1d\x95\x01",
        b"\x82\x00\x40\x00\x00\x31\xf7",
        b"\x82\x01\x08\x00\x00\x30\xf7",
    ],
    output: &[
        b"01 on\n01 ctx el0 ns 0 0\n01 1000\n01 exc irq 1004\n",
        b"01 ctx el1 ns 0 0\n01 8000\n01 8004\n",
        b"01 ctx el0 ns 0 0\n01 1004\n01 end\n",
    ],
    ..PATH
}];

#[test]
fn an_exception_and_its_return_are_printed(rt: HostRuntime) -> Result<(), Fail> {
    compare_all(&rt, rt.alloc(), &HANDLED)
}

const FAULTS: [Case; 5] = [
    Case {
        input: &[SYNC, HEAD, b"\xf7\xf6"],
        output: &[FIRST_LINES, b"01 fault 27 bad-atom 100c\n"],
        ..FAULTED
    },
    Case {
        input: &[SYNC, HEAD, b"\xf7\x95\x00\xf7"],
        output: &[FIRST_LINES, b"01 fault 29 address-mismatch 100c 1000\n"],
        ..FAULTED
    },
    Case {
        input: &[SYNC, HEAD, b"\x9a\x00\x48\x00\x00\xf7"],
        output: &[b"01 fault 31 no-code 9000\n"],
        ..FAULTED
    },
    Case {
        input: &[SYNC, HEAD, b"\x06\x1d\x95\x02"],
        output: &[b"01 fault 28 return-missed 1004 1008\n"],
        ..FAULTED
    },
    Case {
        input: &[SYNC, HEAD, b"\x06\x1d\xf7"],
        output: &[b"01 fault 28 address-awaited\n"],
        ..FAULTED
    },
];

#[test]
fn a_fault_of_the_path_is_told_at_its_packet(rt: HostRuntime) -> Result<(), Fail> {
    compare_all(&rt, rt.alloc(), &FAULTS)
}

/// A cancel, a mispredict and the two other cancels behind an exception.
const AWAITED: [Case; 4] = [
    Case {
        input: &[SYNC, HEAD, b"\x06\x1d\x2e\x01"],
        output: &[b"01 fault 28 address-awaited\n"],
        ..FAULTED
    },
    Case {
        input: &[SYNC, HEAD, b"\x06\x1d\x30"],
        output: &[b"01 fault 28 address-awaited\n"],
        ..FAULTED
    },
    Case {
        input: &[SYNC, HEAD, b"\x06\x1d\x34"],
        output: &[b"01 fault 28 address-awaited\n"],
        ..FAULTED
    },
    Case {
        input: &[SYNC, HEAD, b"\x06\x1d\x38"],
        output: &[b"01 fault 28 address-awaited\n"],
        ..FAULTED
    },
];

#[test]
fn nothing_is_corrected_before_the_address_of_an_exception(rt: HostRuntime) -> Result<(), Fail> {
    compare_all(&rt, rt.alloc(), &AWAITED)
}

const OVERRUNS: [Case; 4] = [
    Case {
        input: &[SYNC, HEAD, b"\xf7", b"\x2d\x01"],
        output: &[FIRST_LINES, b"01 fault 27 commit-overrun 1 0\n"],
        ..FAULTED
    },
    Case {
        input: &[SYNC, HEAD, b"\xf7", b"\x2e\x01"],
        output: &[FIRST_LINES, b"01 fault 27 cancel-overrun 1 0\n"],
        ..FAULTED
    },
    Case {
        input: &[SYNC, HEAD, b"\xf7", b"\x30"],
        output: &[FIRST_LINES, b"01 fault 27 no-atom 0\n"],
        ..FAULTED
    },
    Case {
        input: &[SYNC, b"\x01\x04\x01"],
        output: &[b"01 fault 12 spec-too-deep 1 0\n"],
        ..FAULTED
    },
];

#[test]
fn nothing_is_held_that_could_be_asked_for(rt: HostRuntime) -> Result<(), Fail> {
    compare_all(&rt, rt.alloc(), &OVERRUNS)
}

const BAD_IMAGES: [Case; 5] = [
    Case {
        image: b"@1000\n1f2003d5\n@1002\n",
        output: &[b"image line 3: unaligned\n"],
        status: Status::ImageBad {
            line: 3,
            why: ImageWhy::Unaligned,
        },
        ..PATH
    },
    Case {
        image: b"@1000\n1f2003d5 1f2003d5\n@1004\n1f2003d5\n",
        output: &[b"image line 4: overlap\n"],
        status: Status::ImageBad {
            line: 4,
            why: ImageWhy::Overlap,
        },
        ..PATH
    },
    Case {
        image: b"@fffffffffffffffc\n1f2003d5 1f2003d5\n",
        output: &[b"image line 2: wraps\n"],
        status: Status::ImageBad {
            line: 2,
            why: ImageWhy::Wraps,
        },
        ..PATH
    },
    Case {
        image: b"1f2003d5\n",
        output: &[b"image line 1: syntax\n"],
        status: Status::ImageBad {
            line: 1,
            why: ImageWhy::Syntax,
        },
        ..PATH
    },
    Case {
        image: b"@fffffffffffffffc\n1f2003d5\n",
        ..PATH
    },
];

#[test]
fn an_image_that_is_bad_is_told_by_its_first_line(rt: HostRuntime) -> Result<(), Fail> {
    compare_all(&rt, rt.alloc(), &BAD_IMAGES)
}

const TWO_REASONS: [Case; 3] = [
    Case {
        image: b"@1002 1f2003d5\n",
        output: &[b"image line 1: syntax\n"],
        status: Status::ImageBad {
            line: 1,
            why: ImageWhy::Syntax,
        },
        ..PATH
    },
    Case {
        image: b"@fffffffffffffffc\n1f2003d5 1f20\n",
        output: &[b"image line 2: unaligned\n"],
        status: Status::ImageBad {
            line: 2,
            why: ImageWhy::Unaligned,
        },
        ..PATH
    },
    Case {
        image: b"@fffffffffffffffc\n1f2003d5\n@fffffffffffffff8\n1f2003d5 1f2003d5 1f2003d5\n",
        output: &[b"image line 4: wraps\n"],
        status: Status::ImageBad {
            line: 4,
            why: ImageWhy::Wraps,
        },
        ..PATH
    },
];

#[test]
fn of_a_line_that_is_bad_for_two_reasons_the_earlier_is_told(rt: HostRuntime) -> Result<(), Fail> {
    compare_all(&rt, rt.alloc(), &TWO_REASONS)
}

const NO_MEANING: Case = Case {
    words: &["path", "--raw"],
    output: &[b"usage: etm path|packets|trace|retired|selftest|times\n"],
    status: Status::Usage,
    ..PATH
};

#[test]
fn words_without_a_meaning_print_the_usage(rt: HostRuntime) -> Result<(), Fail> {
    compare(
        &rt,
        rt.alloc(),
        &NO_MEANING,
        &mut NoSource::new(),
        &mut NoSource::new(),
    )
}

/// A stream of one branch.
const ONE_BRANCH: &[&[u8]] = &[SYNC, HEAD, b"\xf7"];

#[test]
fn a_write_that_fails_is_told(rt: HostRuntime) -> Result<(), Fail> {
    let mut sink = MemSink::new(rt.alloc(), vec![in rt.alloc(); false, true]?);
    let status = run(
        rt.alloc(),
        &words(rt.alloc(), PATH.words)?,
        &mut SafeSource::new(LOOP_IMAGE.to_vec(rt.alloc())?, 4096),
        &mut SafeSource::new(joined(rt.alloc(), ONE_BRANCH)?, 4096),
        &mut sink,
    );
    assert_eq!(rt;
        (status, sink.written()),
        (Status::WriteFault, b"01 on\n".as_slice())
    );
    Ok(())
}

const READ_FAULT: Case = Case {
    status: Status::ReadFault,
    ..PATH
};

#[test]
fn a_read_that_fails_is_told(rt: HostRuntime) -> Result<(), Fail> {
    let mut image = SafeSource::new(LOOP_IMAGE.to_vec(rt.alloc())?, 4096);
    let script = vec![in rt.alloc(); false, true]?;
    let mut input = MemSource::new(joined(rt.alloc(), ONE_BRANCH)?, 5, script);
    compare(&rt, rt.alloc(), &READ_FAULT, &mut image, &mut input)
}

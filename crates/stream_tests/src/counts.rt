//! The counts of one stream and of frames with two, call by call.
use capture_streams::{Demux, RawStream};
use count_streams::CountStream;
use etm_types::{Settings, SettingsTable};
use program_image::Image;
use std::alloc::{AllocError, Global};
use std::process::Abort;
use std::test::Fail;
use trace_io::{Failed, MemSink};

/// A NOP, a conditional branch to 100c, a NOP, and a branch to 1000; and a handler: a NOP and an ERET.
const IMAGE: &[u8] = b"@1000\n1f2003d5 40000054 1f2003d5 fdffff17\n@8000\n1f2003d5 e0039fd6\n";

/// Trace on at 1000, and the atoms E, E and N.
const ALONE: &[u8] = b"\0\0\0\0\0\0\0\0\0\0\0\x80\x01\x01\0\x04\
\x85\0\x08\0\0\0\0\0\0\x31\xf7\xf7\xf6";

const COUNTS: &[u8] = b"at 1000 2\nat 1004 2\ntaken 1004 1\nat 100c 1\non 1\n";

/// The frames of two units, of which one has an interrupt.
const TWO: &[u8] = b"\x21\0\0\0\0\0\0\0\0\0\0\0\x80\x01\0\x80\
\0\x02\x80\x02\x25\x04\0\0\0\0\0\0\0\0\0\x06\
\0\0\x80\x01\0\0\x21\x04\x84\0\x08\0\0\0\0\x1c\
\0\0\xb0\x2a\0\0\0\xf7\x25\xf7\x84\0\x08\0\0\x30\
\0\0\0\0\xb0\x2b\0\0\0\xf6\x21\x06\x1c\x95\0\xc0\
\x82\0\x40\0\0\x31\x25\xf7\x21\xf7\x02\x83\x02\x82\0\x80\
\x08\0\0\xb0\x2a\0\0\0\x25\xf6\xf6\xf7\x01\0\0\x30";

const COUNTS_OF_TWO: &[u8] =
    b"at 1000 4\nat 1004 4\ntaken 1004 2\nat 1008 1\nat 100c 3\nat 8000 1\nat 8004 1\non 2\nexc irq 1\n10 end\n12 end\n";

/// More bytes than any test takes.
const MOST_BYTES: u64 = 1000;

/// Units that do not speculate.
fn table() -> Result<SettingsTable, Fail> {
    let settings = Settings::new(0, 1, 4)?;
    Ok(SettingsTable::new(settings))
}

/// The parts, one behind the other.
fn joined(alloc: Global, parts: &[&[u8]]) -> Result<Vec<u8>, AllocError> {
    let mut all = Vec::new(alloc);
    for part in parts {
        all.extend_from_slice(part)?;
    }
    Ok(all)
}

/// A stream over an image that is not framed: its bytes, whether it ends with them or reading stops before, and what is printed.
struct Case {
    image: &'static [u8],
    bytes: &'static [&'static [u8]],
    ends: bool,
    lines: &'static [&'static [u8]],
}

/// Counts a stream, of which nothing is printed before its end.
fn compare(rt: &impl Abort, alloc: Global, case: &Case) -> Result<(), Fail> {
    let image = Image::of_text(alloc, case.image)?;
    let bytes = joined(alloc, case.bytes)?;
    let mut sink = MemSink::new(alloc, Vec::new(alloc));
    let mut raw: RawStream<CountStream> = RawStream::new(alloc, &image, &table()?)?;
    assert!(rt; bytes.len() < 100);
    assert_eq!(rt; raw.take_piece(&image, &bytes, &mut sink), Ok(()));
    assert_eq!(rt; sink.written().len(), 0);
    if case.ends {
        raw.finish(&image, &mut sink)?;
    } else {
        raw.close(&image, &mut sink)?;
    }
    assert_eq!(rt; sink.written(), joined(alloc, case.lines)?.as_slice());
    Ok(())
}

const STREAMS: [Case; 2] = [
    Case {
        image: IMAGE,
        bytes: &[ALONE],
        ends: false,
        lines: &[COUNTS],
    },
    Case {
        image: IMAGE,
        bytes: &[ALONE],
        ends: true,
        lines: &[COUNTS, b"01 end\n"],
    },
];

#[test]
fn one_stream(rt: HostRuntime) -> Result<(), Fail> {
    for case in &STREAMS {
        compare(&rt, rt.alloc(), case)?;
    }
    Ok(())
}

/// A NOP and a BLR; and a handler: a NOP and an ERET.
const CALLS: &[u8] = b"@1000\n1f2003d5 20003fd6\n@8000\n1f2003d5 e0039fd6\n";

/// Trace on at 1000, an E, the address 1000 and an E, and the address 8000 and an E.
const CALLED: &[u8] = b"\0\0\0\0\0\0\0\0\0\0\0\x80\x01\x01\0\x04\
\x85\0\x08\0\0\0\0\0\0\x31\xf7\x9a\0\x08\0\0\
\xf7\x9a\0\x40\0\0\xf7";

const BRANCHES: Case = Case {
    image: CALLS,
    bytes: &[CALLED],
    ends: true,
    lines: &[
        b"at 1000 2\nat 1004 2\nto 1004 1000 1\nto 1004 8000 1\nat 8000 1\nat 8004 1\non 1\n01 end\n",
    ],
};

#[test]
fn where_a_branch_went(rt: HostRuntime) -> Result<(), Fail> {
    compare(&rt, rt.alloc(), &BRANCHES)
}

const OVERFLOW: Case = Case {
    image: IMAGE,
    bytes: &[ALONE, b"\x00\x05\xf7\xf7"],
    ends: true,
    lines: &[COUNTS, b"? 2\ngap 1\n01 end\n"],
};

#[test]
fn what_an_overflow_leaves_unknown(rt: HostRuntime) -> Result<(), Fail> {
    compare(&rt, rt.alloc(), &OVERFLOW)
}

/// Trace on at 1000, an E, and an N at the branch that is no conditional one.
const FAULT: Case = Case {
    image: IMAGE,
    bytes: &[
        b"\0\0\0\0\0\0\0\0\0\0\0\x80\x01\x01\0\x04\x85\0\x08\0\0\0\0\0\0\x31\xf7",
        b"\xf6\xf7\xf7",
    ],
    ends: true,
    lines: &[b"at 1000 1\nat 1004 1\ntaken 1004 1\non 1\n01 fault 27 bad-atom 100c\n"],
};

#[test]
fn nothing_behind_a_fault(rt: HostRuntime) -> Result<(), Fail> {
    compare(&rt, rt.alloc(), &FAULT)
}

/// Counts the two units, of which nothing is written before their end, and says how they end.
fn count_two(
    rt: &impl Abort,
    alloc: Global,
    sink: &mut MemSink,
) -> Result<Result<bool, Failed>, Fail> {
    let image = Image::of_text(alloc, IMAGE)?;
    let mut demux: Demux<CountStream> = Demux::new(alloc, &image, &table()?)?;
    assert!(rt; !demux.broken() && demux.offset() < MOST_BYTES);
    assert_eq!(rt; demux.take_piece(&image, TWO, sink), Ok(()));
    assert_eq!(rt; sink.written().len(), 0);
    assert!(rt; !demux.broken());
    Ok(demux.finish(&image, sink))
}

#[test]
fn two_streams(rt: HostRuntime) -> Result<(), Fail> {
    let mut sink = MemSink::new(rt.alloc(), Vec::new(rt.alloc()));
    assert_eq!(rt; count_two(&rt, rt.alloc(), &mut sink)?, Ok(true));
    assert_eq!(rt; sink.written(), COUNTS_OF_TWO);
    Ok(())
}

#[test]
fn counts_that_can_not_be_written(rt: HostRuntime) -> Result<(), Fail> {
    let mut sink = MemSink::new(rt.alloc(), vec![in rt.alloc(); false, true]?);
    assert_eq!(rt; count_two(&rt, rt.alloc(), &mut sink)?, Err(Failed));
    assert_eq!(rt; sink.written(), b"at 1000 4\n".as_slice());
    Ok(())
}

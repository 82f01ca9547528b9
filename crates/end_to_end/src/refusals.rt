//! What stands where a read, a write or a flush is refused: tables over worked inputs, in which each call fails in turn.
use crate::tests::{joined, words};
use std::alloc::Global;
use std::io;
use std::io::{ErrorKind, Write};
use std::process::Abort;
use std::test::Fail;
use trace_cmd::{Status, run};
use trace_io::{BufferedSink, MemSink, MemSource, NoSource, SafeSource, Sink, Source, read_all};

/// NOP at 1000; B.EQ to 100c; NOP; B to 1000.
const IMAGE: &[u8] = b"@1000\n1f2003d5 40000054 1f2003d5 fdffff17\n";

const PATH: &[&str] = &["path", "--depth", "0", "image"];

/// Two streams: that of ID 01 ends in zeros that are no A-sync, and that of ID 02 has a path, all of which comes with the last frame.
const FRAMES: &[u8] = &[
    0x03, 0x00, 0x00, 0x00, 0x00, 0x00, 0x00, 0x00, 0x00, 0x00, 0x00, 0x00, 0x80, 0x01, 0x00, 0x80,
    0x00, 0x00, 0x00, 0x00, 0x00, 0x00, 0x00, 0x00, 0x00, 0x00, 0x00, 0x00, 0x05, 0x00, 0x00, 0x40,
    0x00, 0x00, 0x00, 0x00, 0x00, 0x00, 0x00, 0x00, 0x00, 0x00, 0x80, 0x01, 0x00, 0x00, 0x04, 0x40,
    0x84, 0x00, 0x08, 0x00, 0x00, 0x00, 0x00, 0x00, 0x00, 0x31, 0xf6, 0xf7, 0x01, 0xf6, 0x00, 0x61,
];

/// What is written of their paths, call by call: lines of instructions that come with a run of bytes are put together.
const WRITTEN: &[&[u8]] = &[
    b"02 on\n",
    b"02 ctx el1 ns 0 0\n",
    b"02 1000\n",
    b"02 1004\n",
    b"02 100c\n02 1000\n02 1004\n",
    b"01 fault 15 broken-sync\n",
    b"02 end\n",
];

/// Those that come with the bytes, before the ends.
const BODY: &[u8] = b"02 on\n02 ctx el1 ns 0 0\n02 1000\n02 1004\n02 100c\n02 1000\n02 1004\n";

/// The branch at 1004 is predicted to be taken, which is taken back.
const RUN: &[u8] =
    b"etm 1\ndepth 4\nstream 01\non 1000 el1 ns 0 0\nstep\ntaken\ntaken\nstep\nnot\ncancel 3\nflip\nstep\ntaken\nretire 4\n";

/// The lines of its retired path, one by one.
const RETIRED: &[&[u8]] = &[
    b"01 on\n",
    b"01 ctx el1 ns 0 0\n",
    b"01 1000\n",
    b"01 1004\n",
    b"01 1008\n",
    b"01 100c\n",
];

/// The frames of its trace, one by one.
const TRACED: &[&[u8]] = &[
    &[
        0x03, 0x00, 0x00, 0x00, 0x00, 0x00, 0x00, 0x00, 0x00, 0x00, 0x00, 0x00, 0x80, 0x01, 0x00,
        0x80,
    ],
    &[
        0x00, 0x04, 0x84, 0x00, 0x08, 0x00, 0x00, 0x00, 0x00, 0x00, 0x00, 0x31, 0xda, 0x2d, 0x02,
        0x02,
    ],
];

/// A writer that takes everything, and whose flush fails.
#[derive(Drop)]
struct Unflushed;

impl Write for Unflushed {
    fn write(&mut self, buf: &[u8]) -> io::Result<usize> {
        Ok(buf.len())
    }

    fn flush(&mut self) -> io::Result<()> {
        Err(io::Error::from(ErrorKind::Interrupted))
    }
}

/// The answer of a command over the image.
fn answer<J: Source, K: Sink>(
    alloc: Global,
    command: &[&str],
    input: &mut J,
    out: &mut K,
) -> Result<Status, Fail> {
    let mut image = SafeSource::new(IMAGE.to_vec(alloc)?, 4096);
    Ok(run(alloc, &words(alloc, command)?, &mut image, input, out))
}

/// A script by which so many calls go well, and then one fails.
fn failing_behind(alloc: Global, calls: usize) -> Result<Vec<bool>, Fail> {
    let mut script = Vec::new(alloc);
    script.resize(calls, false)?;
    script.push(true)?;
    Ok(script)
}

/// A command, its input, the pieces that it writes, and its answer.
#[derive(Clone, Copy)]
struct Written {
    command: &'static [&'static str],
    input: &'static [u8],
    pieces: &'static [&'static [u8]],
    status: Status,
}

/// What is answered and written where the write behind so many is refused.
fn write_refused(alloc: Global, case: &Written, writes: usize) -> Result<(Status, Vec<u8>), Fail> {
    let mut sink = MemSink::new(alloc, failing_behind(alloc, writes)?);
    let mut source = SafeSource::new(case.input.to_vec(alloc)?, 4096);
    let status = answer(alloc, case.command, &mut source, &mut sink)?;
    Ok((status, sink.written().to_vec(alloc)?))
}

/// Each write of a command fails in turn, and what was written before it stands. Behind the last of its pieces one more is to
/// fail, which is never made.
fn each_write_fails(rt: &impl Abort, alloc: Global, case: &Written) -> Result<(), Fail> {
    for writes in 0..=case.pieces.len() {
        let status = if writes < case.pieces.len() {
            Status::WriteFault
        } else {
            case.status
        };
        let written = joined(alloc, &case.pieces[..writes])?;
        assert_eq!(rt; write_refused(alloc, case, writes)?, (status, written));
    }
    Ok(())
}

#[test]
fn each_write_of_a_path_is_refused_in_turn(rt: HostRuntime) -> Result<(), Fail> {
    let path = Written {
        command: PATH,
        input: FRAMES,
        pieces: WRITTEN,
        status: Status::Faulted,
    };
    each_write_fails(&rt, rt.alloc(), &path)
}

#[test]
fn each_line_of_a_retired_path_is_refused_in_turn(rt: HostRuntime) -> Result<(), Fail> {
    let retired = Written {
        command: &["retired", "image"],
        input: RUN,
        pieces: RETIRED,
        status: Status::Done,
    };
    each_write_fails(&rt, rt.alloc(), &retired)
}

#[test]
fn each_frame_of_a_trace_is_refused_in_turn(rt: HostRuntime) -> Result<(), Fail> {
    let trace = Written {
        command: &["trace", "image"],
        input: RUN,
        pieces: TRACED,
        status: Status::Done,
    };
    each_write_fails(&rt, rt.alloc(), &trace)
}

/// What is answered and written where the bytes are read one by one, and the read behind so many is refused.
fn read_refused(alloc: Global, reads: usize) -> Result<(Status, Vec<u8>), Fail> {
    let mut sink = MemSink::new(alloc, Vec::new(alloc));
    let script = failing_behind(alloc, reads)?;
    let mut source = MemSource::new(FRAMES.to_vec(alloc)?, 1, script);
    let status = answer(alloc, PATH, &mut source, &mut sink)?;
    Ok((status, sink.written().to_vec(alloc)?))
}

#[test]
fn each_read_of_a_byte_is_refused_in_turn(rt: HostRuntime) -> Result<(), Fail> {
    for reads in 0..FRAMES.len() {
        let (status, written) = read_refused(rt.alloc(), reads)?;
        assert_eq!(rt; (status, written.len()), (Status::ReadFault, 0));
    }
    // all bytes were read, and the read fails that would find their end
    let (status, written) = read_refused(rt.alloc(), FRAMES.len())?;
    assert_eq!(rt; (status, written.as_slice()), (Status::ReadFault, BODY));
    Ok(())
}

#[test]
fn an_image_that_cannot_be_read_leaves_the_input(rt: HostRuntime) -> Result<(), Fail> {
    let alloc = rt.alloc();
    let mut source = SafeSource::new(FRAMES.to_vec(alloc)?, 4096);
    let mut sink = MemSink::new(alloc, Vec::new(alloc));
    let words = words(alloc, PATH)?;
    let status = run(alloc, &words, &mut NoSource::new(), &mut source, &mut sink);
    let left = read_all(alloc, &mut source, 64).ok().ok_or("it is read")?;
    assert_eq!(rt; (status, sink.written().len()), (Status::ReadFault, 0));
    assert_eq!(rt; left.as_slice(), FRAMES);
    Ok(())
}

/// Commands, and an input of each.
const COMMANDS: [(&[&str], &[u8]); 5] = [
    (PATH, FRAMES),
    (&["packets"], FRAMES),
    (&["retired", "image"], RUN),
    (&["trace", "image"], RUN),
    (&["walk"], FRAMES),
];

/// The answer of a command where each flush is refused.
fn flush_refused(alloc: Global, command: &[&str], input: &[u8]) -> Result<Status, Fail> {
    let mut source = SafeSource::new(input.to_vec(alloc)?, 4096);
    let mut sink = BufferedSink::new(alloc, Unflushed)?;
    answer(alloc, command, &mut source, &mut sink)
}

#[test]
fn a_flush_that_is_refused_is_told(rt: HostRuntime) -> Result<(), Fail> {
    for (command, input) in COMMANDS {
        assert_eq!(rt;
            flush_refused(rt.alloc(), command, input)?,
            Status::WriteFault
        );
    }
    Ok(())
}

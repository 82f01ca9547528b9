//! What is printed does not depend on how an input falls into pieces, and lines do not wait for the whole of it.
use crate::tests::{Case, compare, joined, words};
use std::alloc::Global;
use std::process::Abort;
use std::test::Fail;
use trace_cmd::{Status, run};
use trace_io::{MemSink, SafeSource, read_all};

/// NOP at 1000; B.EQ to 100c; NOP; B to 1000. NOP at 4000; ISB; NOP; B to 4000.
const IMAGE: &[u8] =
    b"@1000\n1f2003d5 40000054 1f2003d5 fdffff17\n@4000\n1f2003d5 df3f03d5 1f2003d5 fdffff17\n";

/// The frames of two streams, one behind the other. That of ID 10 has contexts, a timestamp, ignored bytes and a second A-sync while
/// elements are held; that of ID 11 is a loop.
const FRAMES: &[u8] = &[
    0x21, 0x00, 0x00, 0x00, 0x00, 0x00, 0x00, 0x00, 0x00, 0x00, 0x00, 0x00, 0x80, 0x01, 0x00, 0x80,
    0x00, 0x04, 0x70, 0x70, 0x02, 0x85, 0x00, 0x85, 0x00, 0x20, 0x00, 0x00, 0x00, 0x00, 0x00, 0x08,
    0x00, 0xb0, 0x00, 0x01, 0x00, 0x00, 0xf6, 0x81, 0xb0, 0x02, 0x00, 0x00, 0x00, 0x75, 0xf6, 0xaa,
    0x00, 0x00, 0x00, 0x00, 0x00, 0x00, 0x00, 0x00, 0x00, 0x00, 0x00, 0x80, 0x00, 0x05, 0x00, 0x40,
    0x02, 0x85, 0x00, 0x20, 0x00, 0x00, 0x00, 0x00, 0x00, 0x00, 0xb0, 0x02, 0x00, 0x00, 0x00, 0x40,
    0xf6, 0x2d, 0x23, 0x03, 0x00, 0x00, 0x00, 0x00, 0x00, 0x00, 0x00, 0x00, 0x00, 0x00, 0x00, 0x03,
    0x80, 0x01, 0x00, 0x00, 0x04, 0x85, 0x00, 0x08, 0x00, 0x00, 0x00, 0x00, 0x00, 0x00, 0x30, 0x82,
    0xf6, 0xf7, 0xf6, 0x2d, 0x01, 0x03, 0x00, 0x00, 0x00, 0x00, 0x00, 0x00, 0x00, 0x00, 0x00, 0x05,
];

const PATHS: &[&[u8]] = &[
    b"10 on\n10 ctx el0 ns 0 101\n10 4000\n10 4004\n10 ctx el0 ns 0 102\n10 4008\n10 400c\n10 4000\n10 4004\n",
    b"11 on\n11 ctx el1 ns 0 0\n11 1000\n11 1004\n11 100c\n11 1000\n11 1004\n10 end\n11 end\n",
];

/// A-sync, trace info, trace on, and the address 1000 with EL1 in Non-secure state.
const HEAD: &[u8] = &[
    0, 0, 0, 0, 0, 0, 0, 0, 0, 0, 0, 0x80, 0x01, 0x01, 0x00, 0x04, 0x85, 0x00, 0x08, 0, 0, 0, 0, 0,
    0, 0x31,
];

const PATH: Case = Case {
    words: &["path", "image"],
    image: IMAGE,
    input: &[FRAMES],
    output: PATHS,
    status: Status::Done,
};

/// Reads the frames by pieces of so many bytes, and compares what is printed.
fn read_by(rt: &impl Abort, alloc: Global, size: usize) -> Result<(), Fail> {
    assert!(rt; size > 0);
    let mut image = SafeSource::new(IMAGE.to_vec(alloc)?, 4096);
    let mut input = SafeSource::new(FRAMES.to_vec(alloc)?, size);
    compare(rt, alloc, &PATH, &mut image, &mut input)
}

#[test]
fn pieces_of_any_size_print_the_same(rt: HostRuntime) -> Result<(), Fail> {
    for size in [1, 2, 3, 15, 16, 17, 1000] {
        read_by(&rt, rt.alloc(), size)?;
    }
    Ok(())
}

/// The head, and 20000 atoms behind it.
fn head_and_atoms(alloc: Global) -> Result<Vec<u8>, Fail> {
    let mut atoms = Vec::new(alloc);
    atoms.resize(20_000, 0xf7)?;
    Ok(joined(alloc, &[HEAD, &atoms])?)
}

#[test]
fn no_more_is_read_behind_a_write_that_fails(rt: HostRuntime) -> Result<(), Fail> {
    let alloc = rt.alloc();
    let mut input = SafeSource::new(head_and_atoms(alloc)?, 20_026);
    let mut sink = MemSink::new(alloc, vec![in alloc; true]?);
    let status = run(
        alloc,
        &words(alloc, &["path", "--raw", "--depth", "0", "image"])?,
        &mut SafeSource::new(IMAGE.to_vec(alloc)?, 4096),
        &mut input,
        &mut sink,
    );
    assert_eq!(rt;
        (status, sink.written()),
        (Status::WriteFault, b"".as_slice())
    );
    let left = read_all(alloc, &mut input, 20_026)
        .ok()
        .ok_or("it is read")?;
    assert_eq!(rt; left.len(), 20_026 - 4096);
    Ok(())
}

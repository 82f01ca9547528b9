//! The decoder of a stream: each public call once, on streams whose lines and counts were worked out by the rules.
use element_queue::Counts;
use etm_types::{Id, Settings};
use path_text::LineBlock;
use program_image::Image;
use std::alloc::Global;
use std::process::Abort;
use std::test::Fail;
use stream_decoder::*;
use trace_io::{Failed, MemSink, SafeSource};

/// A NOP, a conditional branch to 100c, a NOP, and a branch to 1000.
const IMAGE: &[u8] = b"@1000\n1f2003d5 40000054 1f2003d5 fdffff17\n";

/// A-sync, trace info, trace on, and the address 1000 with a context.
const HEAD: &[u8] = &[
    0, 0, 0, 0, 0, 0, 0, 0, 0, 0, 0, 0x80, 0x01, 0x01, 0x00, 0x04, 0x85, 0x00, 0x08, 0, 0, 0, 0, 0,
    0, 0x10,
];

/// More bytes than any of these streams has.
const MOST_BYTES: u64 = 100;

/// What is printed of `HEAD` and two atoms E.
const LINES: &[u8] = b"01 on\n01 ctx el0 s 0 0\n01 1000\n01 1004\n";

/// Two atoms, each behind an address, and a commit of both.
const RUN: &[u8] = &[0x90, 0xf7, 0x95, 0x83, 0x08, 0xf7, 0x2d, 0x02];

fn code(alloc: Global) -> Result<Image, Fail> {
    let mut text = SafeSource::new(IMAGE.to_vec(alloc)?, 4096);
    Ok(Image::read(alloc, &mut text).ok().ok_or("it is an image")?)
}

/// A decoder takes a run of bytes more, and no write fails.
fn take(
    rt: &impl Abort,
    decoder: &mut StreamDecoder,
    image: &Image,
    lines: &mut LineBlock,
    id: Id,
    run: &[u8],
    sink: &mut MemSink,
) {
    assert!(rt; !decoder.broken() && decoder.offset() < MOST_BYTES && run.len() < 100);
    assert_eq!(rt; decoder.take_run(image, lines, id, run, sink), Ok(()));
}

/// A decoder of a depth that took these bytes behind `HEAD`, where no write failed.
fn decoder_at(
    rt: &impl Abort,
    alloc: Global,
    depth: u32,
    bytes: &[u8],
    sink: &mut MemSink,
) -> Result<StreamDecoder, Fail> {
    let settings = Settings::new(depth, 1, 4).ok().ok_or("they are settings")?;
    let image = code(alloc)?;
    let id = Id::new(1).ok_or("it is an ID")?;
    let mut decoder = StreamDecoder::new(alloc, &settings)?;
    let mut lines = LineBlock::new();
    for byte in HEAD.iter().chain(bytes) {
        take(rt, &mut decoder, &image, &mut lines, id, &[*byte], sink);
    }
    Ok(decoder)
}

/// The counts of a decoder, and those of the ledger with which it ends.
fn counts_of(decoder: StreamDecoder) -> (Counts, Counts) {
    let before = decoder.ledger();
    (before, decoder.abandon().counts())
}

#[test]
fn a_walk_fault_within_a_commit(rt: HostRuntime) -> Result<(), Fail> {
    let mut sink = MemSink::new(rt.alloc(), Vec::new(rt.alloc()));
    let decoder = decoder_at(
        &rt,
        rt.alloc(),
        4,
        &[0xf7, 0xf6, 0xf7, 0x2d, 0x03],
        &mut sink,
    )?;
    assert_eq!(rt; decoder.offset(), 31);
    assert_eq!(rt; sink.written(), LINES);
    let (before, after) = counts_of(decoder);
    assert_eq!(rt; before.made, 3);
    assert_eq!(rt; after.lost, 1);
    Ok(())
}

#[test]
fn a_stream_that_ends_with_a_fault(rt: HostRuntime) -> Result<(), Fail> {
    let mut sink = MemSink::new(rt.alloc(), Vec::new(rt.alloc()));
    let id = Id::new(1).ok_or("it is an ID")?;
    let decoder = decoder_at(&rt, rt.alloc(), 4, &[0xf7, 0xf7, 0x2d, 0x03], &mut sink)?;
    assert!(rt; !decoder.broken());
    assert_eq!(rt; decoder.finish(id, &mut sink), Ok(false));
    assert_eq!(rt;
        sink.written(),
        b"01 fault 28 commit-overrun 3 2\n".as_slice()
    );
    Ok(())
}

#[test]
fn atoms_that_are_cancelled_or_lost(rt: HostRuntime) -> Result<(), Fail> {
    let mut sink = MemSink::new(rt.alloc(), Vec::new(rt.alloc()));
    let cancelled = decoder_at(
        &rt,
        rt.alloc(),
        4,
        &[0xf7, 0xf7, 0xf7, 0x2e, 0x02, 0xf7],
        &mut sink,
    )?;
    let (counts, last) = counts_of(cancelled);
    assert_eq!(rt;
        (counts.made, counts.committed, counts.cancelled, counts.lost),
        (4, 0, 2, 0)
    );
    assert_eq!(rt; last.lost, 2);
    let lost = decoder_at(&rt, rt.alloc(), 4, &[0xf7, 0xf7, 0x00, 0x05], &mut sink)?;
    let (counts, _) = counts_of(lost);
    assert_eq!(rt;
        (counts.made, counts.committed, counts.cancelled, counts.lost),
        (2, 0, 0, 2)
    );
    assert_eq!(rt; sink.written(), b"01 gap\n".as_slice());
    Ok(())
}

#[test]
fn what_a_fault_leaves_is_counted(rt: HostRuntime) -> Result<(), Fail> {
    let mut sink = MemSink::new(rt.alloc(), Vec::new(rt.alloc()));
    let walk = decoder_at(&rt, rt.alloc(), 0, &[0xf9], &mut sink)?;
    assert_eq!(rt;
        sink.written(),
        b"01 on\n01 ctx el0 s 0 0\n01 1000\n01 1004\n".as_slice()
    );
    let (counts, last) = counts_of(walk);
    assert_eq!(rt;
        (counts.made, counts.committed, counts.cancelled, counts.lost),
        (2, 2, 0, 0)
    );
    assert_eq!(rt; (last.made, last.committed, last.lost), (2, 2, 0));
    for bytes in [[0xf7, 0xf7, 0xa0].as_slice(), &[0xf7, 0xf7, 0x2d, 0x03]] {
        let decoder = decoder_at(&rt, rt.alloc(), 4, bytes, &mut sink)?;
        let (counts, last) = counts_of(decoder);
        assert_eq!(rt;
            (counts.made, counts.committed, counts.cancelled, counts.lost),
            (2, 0, 0, 0)
        );
        assert_eq!(rt; (last.made, last.committed, last.lost), (2, 0, 2));
    }
    Ok(())
}

#[test]
fn a_write_that_fails(rt: HostRuntime) -> Result<(), Fail> {
    let mut fails = Vec::new(rt.alloc());
    fails.push(true)?;
    let mut sink = MemSink::new(rt.alloc(), fails);
    let image = code(rt.alloc())?;
    let id = Id::new(1).ok_or("it is an ID")?;
    let mut decoder = decoder_at(&rt, rt.alloc(), 0, &[], &mut sink)?;
    assert!(rt; !decoder.broken() && decoder.offset() < MOST_BYTES);
    let mut lines = LineBlock::new();
    assert_eq!(rt;
        decoder.take_run(&image, &mut lines, id, &[0xf7], &mut sink),
        Err(Failed)
    );
    assert!(rt; decoder.broken());
    let (_, last) = counts_of(decoder);
    assert_eq!(rt; (last.made, last.committed), (1, 1));
    assert!(rt; sink.written().is_empty());
    Ok(())
}

#[test]
fn a_run_that_is_cut_anywhere(rt: HostRuntime) -> Result<(), Fail> {
    let image = code(rt.alloc())?;
    let id = Id::new(1).ok_or("it is an ID")?;
    for cut in 0..=RUN.len() {
        let mut sink = MemSink::new(rt.alloc(), Vec::new(rt.alloc()));
        let mut decoder = decoder_at(&rt, rt.alloc(), 4, &[], &mut sink)?;
        let mut lines = LineBlock::new();
        let (first, second) = RUN.split_at(cut);
        for run in [first, second] {
            take(&rt, &mut decoder, &image, &mut lines, id, run, &mut sink);
        }
        assert_eq!(rt; decoder.offset(), 34);
        let (counts, _) = counts_of(decoder);
        assert_eq!(rt; (counts.made, counts.committed), (2, 2));
        assert_eq!(rt;
            sink.written(),
            b"01 on\n01 ctx el0 s 0 0\n01 1000\n01 1004\n01 100c\n".as_slice()
        );
    }
    Ok(())
}

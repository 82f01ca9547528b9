//! Frames with known bytes, written and taken apart.
use etm_types::Id;
use formatter_frames::{FRAME_BYTES, FrameReader, FrameWriter, unpack};
use std::alloc::Global;
use std::test::Fail;
use trace_io::{Failed, MemSink};

/// A byte, and the ID of its source.
type Pair = (u8, u8);

/// A trace stream: A-sync, trace info, and an address with a context.
const STREAM: &[u8] =
    b"\0\0\0\0\0\0\0\0\0\0\0\x80\x01\x01\x00\x04\x85\x00\x08\0\0\0\0\0\0\x31\xda\x2d\x02";

/// Its frames, with the ID 1.
const FRAMES: &[u8] = b"\x03\0\0\0\0\0\0\0\0\0\0\0\x80\x01\0\x80\
\0\x04\x84\0\x08\0\0\0\0\0\0\x31\xda\x2d\x02\x02";

/// Writes the frames of these bytes, each of which has its ID.
fn write_frames(pairs: &[Pair], sink: &mut MemSink) -> Result<(), Failed> {
    let mut writer = FrameWriter::new();
    for (id, byte) in pairs {
        writer.push(Id::new(*id).ok_or(Failed)?, *byte, sink)?;
    }
    writer.finish(sink)
}

/// The frames of these pairs of ID and byte.
fn frames_of(alloc: Global, pairs: &[Pair]) -> Result<Vec<u8>, Fail> {
    let mut sink = MemSink::new(alloc, Vec::new(alloc));
    write_frames(pairs, &mut sink)?;
    Ok(sink.written().to_vec(alloc)?)
}

/// `STREAM` as bytes of the ID 1.
fn stream_pairs(alloc: Global) -> Result<Vec<Pair>, Fail> {
    let mut pairs = Vec::new(alloc);
    for byte in STREAM {
        pairs.push((1, *byte))?;
    }
    Ok(pairs)
}

/// The pairs that these bytes of frames give a reader one by one.
fn pairs_one_by_one(alloc: Global, bytes: &[u8]) -> Result<Vec<Pair>, Fail> {
    let mut reader = FrameReader::new();
    let mut pairs = Vec::new(alloc);
    for byte in bytes.chunks(1) {
        if let (_, Some(gained)) = reader.take(byte) {
            for i in 0..gained.len() {
                pairs.push(gained.get(i).ok_or("it is in range")?)?;
            }
        }
    }
    Ok(pairs)
}

#[test]
fn an_id_byte_whose_auxiliary_bit_is_1_holds_one_byte_later(rt: HostRuntime) {
    let frame = b"\x03\x11\x22\x33\x44\x55\x66\x77\x88\x99\xaa\xbb\x05\xcc\x07\x42";
    let expected = b"\x11\x23\x33\x44\x55\x66\x77\x88\x99\xaa\xbb\xcc";
    let mut current = None;
    let bytes = unpack(frame, &mut current);
    assert_eq!(rt; bytes.run_at(0), Some((1, expected.as_slice())));
    assert_eq!(rt; (bytes.len(), current), (12, Some(3)));
}

/// A byte of each source, which is its ID.
fn one_of_each(alloc: Global) -> Result<Vec<Pair>, Fail> {
    let mut pairs = Vec::new(alloc);
    for id in 1..=111 {
        pairs.push((id, id))?;
    }
    Ok(pairs)
}

#[test]
fn each_byte_of_111_sources_has_its_id(rt: HostRuntime) -> Result<(), Fail> {
    let frames = frames_of(rt.alloc(), &one_of_each(rt.alloc())?)?;
    let first = b"\x03\x01\x05\x02\x07\x03\x09\x04\x0b\x05\x0d\x06\x0f\x07\x11\x00\
\x13\x08\x15\x09\x17\x0a\x19\x0b\x1b\x0c\x1d\x0d\x1f\x0e\x0e\xff";
    let last = b"\xd5\x6a\xd7\x6b\xd9\x6c\xdb\x6d\xdd\x6e\xdf\x6f\x01\0\0\0";
    assert_eq!(rt;
        (frames.get(..32), frames.get(224..)),
        (Some(first.as_slice()), Some(last.as_slice()))
    );
    Ok(())
}

#[test]
fn a_stream_is_framed(rt: HostRuntime) -> Result<(), Fail> {
    let frames = frames_of(rt.alloc(), &stream_pairs(rt.alloc())?)?;
    assert_eq!(rt; frames.as_slice(), FRAMES);
    Ok(())
}

#[test]
fn a_stream_comes_back_byte_by_byte(rt: HostRuntime) -> Result<(), Fail> {
    let pairs = pairs_one_by_one(rt.alloc(), FRAMES)?;
    assert_eq!(rt; pairs, stream_pairs(rt.alloc())?);
    Ok(())
}

/// How many bytes of a piece a reader takes, whether a frame is full with them, and how many bytes are left of the next one.
fn taken(reader: &mut FrameReader, piece: &[u8]) -> (usize, bool, u8) {
    let (count, frame) = reader.take(piece);
    (count, frame.is_some(), reader.left())
}

#[test]
fn a_piece_is_taken_up_to_the_end_of_the_frame(rt: HostRuntime) {
    let piece = [0x10; 2 * FRAME_BYTES];
    let mut reader = FrameReader::new();
    let begun = taken(&mut reader, &piece[..5]);
    let filled = taken(&mut reader, &piece);
    let next = taken(&mut reader, &piece[11..]);
    assert_eq!(rt;
        [begun, filled, next],
        [(5, false, 5), (11, true, 0), (FRAME_BYTES, true, 0)]
    );
}

#[test]
fn bytes_of_one_id_come_at_once(rt: HostRuntime) -> Result<(), Fail> {
    let frames = frames_of(rt.alloc(), &[(1, 0x10), (1, 0x21), (2, 0x30)])?;
    let (_, frame) = FrameReader::new().take(&frames);
    let bytes = frame.ok_or("a frame is full")?;
    assert_eq!(rt; bytes.run_at(0), Some((1, b"\x10\x21".as_slice())));
    assert_eq!(rt; bytes.run_at(1), Some((1, b"\x21".as_slice())));
    assert_eq!(rt; bytes.run_at(2), Some((2, b"\x30".as_slice())));
    Ok(())
}

#[test]
fn a_frame_is_one_write(rt: HostRuntime) -> Result<(), Fail> {
    let mut sink = MemSink::new(rt.alloc(), vec![in rt.alloc(); false, true]?);
    assert_eq!(rt; write_frames(&[(1, 0xaa); 15], &mut sink), Err(Failed));
    assert_eq!(rt; sink.written().len(), FRAME_BYTES);
    Ok(())
}

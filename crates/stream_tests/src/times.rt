//! A stream with timestamps, cancels and events, call by call.
use element_queue::Counts;
use etm_types::{Id, Settings, SettingsTable};
use std::alloc::Global;
use std::process::Abort;
use std::test::Fail;
use time_marks::{TimedDecoder, TimesDemux};
use trace_io::{Failed, MemSink};

/// An A-sync, a trace info, and a timestamp of 5.
const HEAD: &[u8] = b"\0\0\0\0\0\0\0\0\0\0\0\x80\x01\x01\0\x02\
\x05";

/// The frames of two units, each with its own times, told apart within frames and across them.
const TWO: &[u8] = b"\x21\0\0\0\0\0\0\0\0\0\0\0\x80\x01\0\x80\
\0\x02\x04\xf7\x23\0\0\0\0\0\0\0\0\0\0\x02\
\0\x80\0\x01\0\x02\x06\xf7\x21\x71\x02\x07\xf6\x2d\x02\x52\
\x23\x2d\x01\x01\0\0\0\0\0\0\0\0\0\0\0\x02";

/// More bytes than any test takes.
const MOST_BYTES: u64 = 1000;

/// A decoder of a unit that speculates on four P0 elements, behind the head and some bytes more.
fn decoder_at(
    rt: &impl Abort,
    alloc: Global,
    bytes: &[u8],
    sink: &mut MemSink,
) -> Result<TimedDecoder, Fail> {
    let settings = Settings::new(4, 1, 4)?;
    let id = Id::new(1).ok_or("it is an ID")?;
    let mut decoder = TimedDecoder::new(alloc, &settings)?;
    for byte in HEAD.iter().chain(bytes) {
        assert!(rt; !decoder.broken() && decoder.offset() < MOST_BYTES);
        assert_eq!(rt; decoder.take(id, *byte, sink), Ok(()));
    }
    Ok(decoder)
}

#[test]
fn the_time_of_a_cancelled_element_stays(rt: HostRuntime) -> Result<(), Fail> {
    let id = Id::new(1).ok_or("it is an ID")?;
    let mut sink = MemSink::new(rt.alloc(), Vec::new(rt.alloc()));
    let bytes = b"\xf7\x02\x06\xf7\x2e\x01\xf7\x2d\x02";
    let decoder = decoder_at(&rt, rt.alloc(), bytes, &mut sink)?;
    let counts = Counts {
        made: 3,
        committed: 2,
        cancelled: 1,
        lost: 0,
    };
    assert_eq!(rt; (decoder.offset(), decoder.ledger()), (26, counts));
    assert!(rt; !decoder.broken());
    assert_eq!(rt; decoder.finish(id, &mut sink), Ok(true));
    assert_eq!(rt;
        sink.written(),
        b"01 p0 0 5\n01 p0 1 6\n01 end\n".as_slice()
    );
    Ok(())
}

#[test]
fn what_is_held_is_lost(rt: HostRuntime) -> Result<(), Fail> {
    let mut sink = MemSink::new(rt.alloc(), Vec::new(rt.alloc()));
    let decoder = decoder_at(&rt, rt.alloc(), b"\xf7\x71\xf7\x2d\x01", &mut sink)?;
    let counts = Counts {
        made: 2,
        committed: 1,
        cancelled: 0,
        lost: 1,
    };
    assert_eq!(rt; decoder.abandon().counts(), counts);
    assert_eq!(rt; sink.written(), b"01 event 1 5\n01 p0 0 5\n".as_slice());
    Ok(())
}

/// Takes one byte more, whose line can not be written, and gives what was made and committed until then.
fn refused(
    rt: &impl Abort,
    mut decoder: TimedDecoder,
    id: Id,
    byte: u8,
    sink: &mut MemSink,
) -> (u64, u64) {
    assert!(rt; !decoder.broken() && decoder.offset() < MOST_BYTES);
    assert_eq!(rt; decoder.take(id, byte, sink), Err(Failed));
    assert!(rt; decoder.broken());
    let counts = decoder.abandon().counts();
    (counts.made, counts.committed)
}

#[test]
fn a_write_that_fails(rt: HostRuntime) -> Result<(), Fail> {
    let id = Id::new(1).ok_or("it is an ID")?;
    let mut sink = MemSink::new(rt.alloc(), vec![in rt.alloc(); true]?);
    let decoder = decoder_at(&rt, rt.alloc(), b"", &mut sink)?;
    assert_eq!(rt; refused(&rt, decoder, id, 0x71, &mut sink), (0, 0));
    Ok(())
}

#[test]
fn a_line_is_one_write(rt: HostRuntime) -> Result<(), Fail> {
    let id = Id::new(1).ok_or("it is an ID")?;
    let mut sink = MemSink::new(rt.alloc(), vec![in rt.alloc(); false, false, true]?);
    let decoder = decoder_at(&rt, rt.alloc(), b"\x71\xf7\x2d\x01", &mut sink)?;
    assert_eq!(rt; refused(&rt, decoder, id, 0x7f, &mut sink), (1, 1));
    assert_eq!(rt; sink.written(), b"01 event 1 5\n01 p0 0 5\n".as_slice());
    Ok(())
}

/// Prints the times of two units, and says whether they end well.
fn print_two(rt: &impl Abort, alloc: Global, sink: &mut MemSink) -> Result<bool, Fail> {
    let table = SettingsTable::new(Settings::new(4, 1, 4)?);
    let mut demux = TimesDemux::new(alloc, &(), &table)?;
    assert!(rt; !demux.broken() && demux.offset() < MOST_BYTES);
    assert_eq!(rt; demux.take_piece(&(), TWO, sink), Ok(()));
    assert!(rt; !demux.broken());
    Ok(demux.finish(&(), sink)?)
}

#[test]
fn the_times_of_two_units(rt: HostRuntime) -> Result<(), Fail> {
    let mut sink = MemSink::new(rt.alloc(), Vec::new(rt.alloc()));
    assert!(rt; print_two(&rt, rt.alloc(), &mut sink)?);
    let lines = b"11 event 1 6\n10 p0 0 5\n10 p0 1 7\n11 p0 0 6\n10 end\n11 end\n";
    assert_eq!(rt; sink.written(), lines.as_slice());
    Ok(())
}

//! Small captures of a trace port, and frames that are written for one.
use capture_streams::Printer;
use etm_types::{Settings, SettingsTable};
use program_image::Image;
use std::alloc::Global;
use std::test::Fail;
use stream_decoder::StreamDecoder;
use sync_frames::{SyncedDemux, Unsync, write_synced};
use trace_io::{Failed, MemSink};

const FULL_SYNC: &[u8] = b"\xff\xff\xff\x7f";

/// Two frames of one source: an A-sync, a trace info, trace on, an address with a context, and atoms.
const FRAMES: &[u8] = b"\x03\0\0\0\0\0\0\0\0\0\0\0\x80\x01\0\x80\
\0\x04\x84\0\x08\0\0\0\0\0\0\x31\xda\x2d\x02\x02";

/// These frames with a full sync before each.
const SYNCED: &[u8] = b"\xff\xff\xff\x7f\
\x03\0\0\0\0\0\0\0\0\0\0\0\x80\x01\0\x80\
\xff\xff\xff\x7f\
\0\x04\x84\0\x08\0\0\0\0\0\0\x31\xda\x2d\x02\x02";

/// The first of them as a port sends it, behind two other bytes, with a half sync within it and two full syncs behind it.
const FIRST_SENT: &[u8] = b"\0\x11\xff\xff\xff\x7f\x03\0\xff\x7f\0\0\0\0\0\0\
\0\0\0\0\x80\x01\0\x80\xff\xff\xff\x7f\xff\xff\xff\x7f";

/// The second one, and a part of a full sync.
const SECOND_SENT: &[u8] = b"\0\x04\x84\0\x08\0\0\0\0\0\0\x31\xda\x2d\x02\x02\
\xff\xff\xff";

/// A NOP, a conditional branch to 100c, a NOP, and a branch to 1000.
const IMAGE: &[u8] = b"@1000\n1f2003d5 40000054 1f2003d5 fdffff17\n";

/// What is printed of both frames, behind which three bytes are left over.
const PATH: &[u8] =
    b"01 on\n01 ctx el1 ns 0 0\n01 1000\n01 1004\n01 1008\n01 100c\n01 end\nframe cut 3\n";

fn printer(alloc: Global, image: &Image) -> Result<SyncedDemux<StreamDecoder>, Fail> {
    let settings = Settings::new(4, 0, 0)?;
    Ok(SyncedDemux::new(alloc, image, &SettingsTable::new(settings))?)
}

#[test]
fn bytes_of_frames_by_one(rt: HostRuntime) {
    let mut unsync = Unsync::new();
    for byte in FULL_SYNC {
        assert_eq!(rt; unsync.take(*byte).len(), 0);
    }
    assert_eq!(rt; unsync.take_run(&[1, 2, 3, 0xff, 0xff, 0x7f]), 4);
    assert_eq!(rt; unsync.take(5).len(), 0);
    assert_eq!(rt; unsync.take(6).as_slice(), &[5, 6][..]);
    assert_eq!(rt; unsync.take(0xff).len(), 0);
    assert_eq!(rt; unsync.finish().as_slice(), &[0xff][..]);
}

/// Where a full sync was found.
fn behind_a_sync() -> Unsync {
    let mut unsync = Unsync::new();
    for byte in FULL_SYNC {
        let _none = unsync.take(*byte);
    }
    unsync
}

#[test]
fn a_byte_of_a_pair_is_told_by_its_place(rt: HostRuntime) {
    let mut unsync = behind_a_sync();
    let _first = unsync.take(5);
    let pair = unsync.take(6);
    assert_eq!(rt;
        [pair.get(0), pair.get(1), pair.get(2)],
        [Some(5), Some(6), None]
    );
}

#[test]
fn frames_with_syncs(rt: HostRuntime) {
    let mut sink = MemSink::new(rt.alloc(), Vec::new(rt.alloc()));
    assert_eq!(rt; write_synced(FRAMES, 1, &mut sink), Ok(()));
    assert_eq!(rt; sink.written(), SYNCED);
}

#[test]
fn a_sync_is_one_write(rt: HostRuntime) -> Result<(), Fail> {
    let mut sink = MemSink::new(rt.alloc(), vec![in rt.alloc(); false, true]?);
    assert_eq!(rt; write_synced(FRAMES, 1, &mut sink), Err(Failed));
    assert_eq!(rt; sink.written(), FULL_SYNC);
    Ok(())
}

#[test]
fn the_path_of_a_port(rt: HostRuntime) -> Result<(), Fail> {
    let image = Image::of_text(rt.alloc(), IMAGE)?;
    let mut sink = MemSink::new(rt.alloc(), Vec::new(rt.alloc()));
    let mut synced = printer(rt.alloc(), &image)?;
    assert!(rt; !synced.broken() && synced.offset() == 0);
    assert_eq!(rt; synced.take_piece(&image, FIRST_SENT, &mut sink), Ok(()));
    assert_eq!(rt; synced.take_piece(&image, SECOND_SENT, &mut sink), Ok(()));
    assert_eq!(rt; synced.take_rest(&image, &mut sink), Ok(()));
    assert_eq!(rt; synced.finish(&image, &mut sink), Ok(false));
    assert_eq!(rt; sink.written(), PATH);
    Ok(())
}

#[test]
fn a_port_that_is_given_up(rt: HostRuntime) -> Result<(), Fail> {
    let image = Image::of_text(rt.alloc(), IMAGE)?;
    let mut sink = MemSink::new(rt.alloc(), Vec::new(rt.alloc()));
    let mut synced = printer(rt.alloc(), &image)?;
    assert!(rt; !synced.broken() && synced.offset() == 0);
    assert_eq!(rt; synced.take_piece(&image, FIRST_SENT, &mut sink), Ok(()));
    synced.abandon();
    assert_eq!(rt; sink.written().len(), 0);
    Ok(())
}

//! Small buffers that were written round, and the last frames of captures.
use ring_capture::{Unwrap, last_frames};
use std::test::Fail;

type Frame = [u8; 16];

/// The first frame of one source: an A-sync, and the header of a trace info.
const FIRST: Frame = *b"\x03\0\0\0\0\0\0\0\0\0\0\0\x80\x01\0\x80";

/// The second one: the trace info, trace on, an address with a context, and two atoms.
const SECOND: Frame = *b"\0\x04\x84\0\x08\0\0\0\0\0\0\x31\xda\x2d\x02\x02";

/// Both, one behind the other.
const FRAMES: &[u8] = b"\x03\0\0\0\0\0\0\0\0\0\0\0\x80\x01\0\x80\
\0\x04\x84\0\x08\0\0\0\0\0\0\x31\xda\x2d\x02\x02";

/// Gives bytes to a buffer one by one, and says what it gives with the last of them.
fn take_all(unwrap: &mut Unwrap, bytes: &[u8]) -> Option<Frame> {
    let mut given = None;
    for byte in bytes {
        given = unwrap.take(*byte);
    }
    given
}

#[test]
fn frames_of_an_unwrap(rt: HostRuntime) -> Result<(), Fail> {
    let mut unwrap = Unwrap::new(rt.alloc(), 1)?;
    let begun = [
        take_all(&mut unwrap, &SECOND),
        take_all(&mut unwrap, &FIRST[..15]),
    ];
    assert_eq!(rt; begun, [None, None]);
    assert_eq!(rt; unwrap.take(FIRST[15]), Some(FIRST));
    assert_eq!(rt; unwrap.take(7), None);
    assert_eq!(rt; [unwrap.kept(0), unwrap.kept(1)], [Some(SECOND), None]);
    assert_eq!(rt; unwrap.tail(), &[7][..]);
    Ok(())
}

#[test]
fn the_last_of_frames(rt: HostRuntime) {
    assert_eq!(rt; last_frames(FRAMES, 1), SECOND.as_slice());
    assert_eq!(rt; last_frames(FRAMES, 2), FRAMES);
    assert_eq!(rt; last_frames(FRAMES, 65_536), FRAMES);
}

#[test]
fn a_buffer_with_no_such_frame(rt: HostRuntime) -> Result<(), Fail> {
    let mut unwrap = Unwrap::new(rt.alloc(), 3)?;
    assert_eq!(rt; take_all(&mut unwrap, FRAMES), None);
    assert_eq!(rt;
        [unwrap.kept(0), unwrap.kept(1), unwrap.kept(2)],
        [Some(FIRST), Some(SECOND), None]
    );
    assert!(rt; unwrap.tail().is_empty());
    Ok(())
}

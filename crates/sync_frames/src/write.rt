//! Frames written with full syncs among them.
ghost use Rattle.std.specs.Prelude.{◌≡◌, ◌<◌, ◌%◌, length, OnOk, OnErr};
ghost use Rattle.formatter_frames.specs.Sizes.{frame_bytes};
ghost use Rattle.sync_frames.specs.Synced.{synced_every, synced_frame};
ghost use Rattle.trace_io.specs.Bytes.{AppendsAll, AppendsShorter};
ghost use Rattle.trace_io.specs.Calls.{Serves};

use formatter_frames::FRAME_BYTES;
use trace_io::{Failed, Sink, write_all};

/// A full sync.
const FULL_SYNC: [u8; 4] = [0xff, 0xff, 0xff, 0x7f];

/// Writes whole frames, with a full sync before the first and before each `every`-th one after it. Each frame and each sync is one `write_all`.
/// Nothing is written of no frames. The error means that a write failed.
pub fn write_synced<K: Sink>(frames: &[u8], every: u32, sink: &mut K) -> Result<(), Failed>
    requires whole { length frames.now % frame_bytes ≡ 0 }
    requires some { 0 < every }
    ensures ok { OnOk result (AppendsAll (K.state sink.old) (K.state sink.new) (synced_every every frames.now)) }
    ensures failed { OnErr result (AppendsShorter (K.state sink.old) (K.state sink.new) (synced_every every frames.now)) }
    ensures serves { Serves (K.state sink.old) (K.state sink.new) result }
{
    let count = frames.len() / FRAME_BYTES;
    let mut k = 0;
    while k < count {
        let frame = &frames[FRAME_BYTES * k..FRAME_BYTES * k + FRAME_BYTES];
        write_frame(frame, k % every as usize == 0, sink)?;
        k += 1;
    }
    Ok(())
}

/// Writes a frame, and a full sync before it where it is to have one.
fn write_frame<K: Sink>(frame: &[u8], is_synced: bool, sink: &mut K) -> Result<(), Failed>
    ensures ok { OnOk result (AppendsAll (K.state sink.old) (K.state sink.new) (synced_frame is_synced frame.now)) }
    ensures failed { OnErr result (AppendsShorter (K.state sink.old) (K.state sink.new) (synced_frame is_synced frame.now)) }
    ensures serves { Serves (K.state sink.old) (K.state sink.new) result }
{
    if is_synced {
        write_all(sink, &FULL_SYNC)?;
    }
    write_all(sink, frame)
}

//! Formatter frames as a trace port sends them, with synchronisation packets among them (Arm CoreSight architecture, IHI 0029, the trace
//! formatter, continuous mode).
//!
//! A reader of a trace port begins anywhere in the trace, so frames have to be found first. A full sync, FF FF FF 7F, stands between frames,
//! and a half sync, FF 7F, also within one, at an even place. No byte FF stands at an even place of a frame of trace sources, so no byte of one
//! is taken for a sync. The bytes behind the earliest full sync are frames, once the syncs among them are dropped.
//!
//! The layers above use these contracts:
//! - [`SyncedDemux`]: a printer, as a `Demux` is, of a capture of a trace port. It has the text of the frames in it.
//! - [`Unsync`], on which it stands: the bytes of frames, a byte a call, or together a run of them that holds no sync. At most three bytes are
//!   held back.
//! - [`write_synced`]: whole frames with full syncs among them.
//! - the laws: frames with syncs among them come back, wherever these stand ([`synced_frames_come_back`]), so what is written is read
//!   ([`what_is_synced_is_unsynced`]), since no frame of trace sources holds a sync ([`framed_bytes_hold_no_sync`]); which bytes are dropped
//!   ([`syncs_are_dropped`]); and that more bytes only add frames ([`frames_go_on`]).
//!
//! A run costs a test a pair and no copy, each other byte a step. All memory is taken by [`SyncedDemux::new`].
#![tactic(auto)]

mod few;
mod laws;
mod synced;
mod unsync;
mod write;

pub use few::Few;
pub use laws::{
    framed_bytes_hold_no_sync, frames_go_on, synced_frames_come_back, syncs_are_dropped,
    what_is_synced_is_unsynced,
};
pub use synced::SyncedDemux;
pub use unsync::Unsync;
pub use write::write_synced;

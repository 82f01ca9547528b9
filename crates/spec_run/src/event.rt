//! What a core does, one event after another, and what a run answers to each.

use crate::step::RunStep;
use etm_types::Ctx;

/// One event of a run.
#[derive(Clone, Copy, Debug, PartialEq, Eq)]
pub enum Event {
    /// Tracing is turned on at an address, in a context.
    On { addr: u64, ctx: Ctx },
    /// The instruction at the pc is executed: a plain one, or an ISB.
    Step,
    /// The branch at the pc is taken: one to a fixed target, or a conditional one.
    Taken,
    /// The conditional branch at the pc is not taken.
    NotTaken,
    /// The indirect branch at the pc goes to an address.
    To { addr: u64 },
    /// The ERET at the pc goes to an address, in a context.
    Eret { addr: u64, ctx: Ctx },
    /// An exception of this kind is taken: the pc is its return address, and its handler stands at an address, in a
    /// context.
    Exc { kind: u8, addr: u64, ctx: Ctx },
    /// The context changes behind an ISB.
    Context { ctx: Ctx },
    /// So many of the oldest steps that are not retired are retired.
    Retire(u32),
    /// So many of the newest steps that are not retired are taken back.
    Cancel(u32),
    /// The newest step, a conditional branch that is not retired, goes the other way.
    Flip,
    /// Synchronisation is asked for.
    Sync,
    /// The trace unit's buffer overflows, and tracing ends.
    Overflow,
    /// Tracing is turned off.
    Off,
}

/// What an event did.
#[derive(Clone, Copy, Debug, PartialEq, Eq)]
pub enum Done {
    /// Tracing is on.
    Began,
    /// This step was executed.
    Ran(RunStep),
    /// The context changed.
    Contexted,
    /// Steps were retired, so many P0 steps among them.
    Retired { p0: u32 },
    /// Steps were taken back, so many P0 steps among them.
    Cancelled { p0: u32 },
    /// The newest step goes the other way.
    Flipped,
    /// Synchronisation was asked for.
    Synced,
    /// Tracing ended by an overflow.
    Overflowed,
    /// Tracing was turned off.
    Stopped,
}

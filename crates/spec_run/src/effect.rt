//! What an accepted event does.

use crate::step::RunStep;
use etm_types::Ctx;

/// What an event does that passed its checks.
#[derive(Clone, Copy, Debug)]
pub enum Effect {
    /// Tracing begins at an address, in a context.
    Began { addr: u64, ctx: Ctx },
    /// A step is executed, and this is the context behind it.
    Ran { step: RunStep, ctx: Ctx },
    /// The context changes.
    Contexted(Ctx),
    /// So many of the oldest held steps are retired.
    Retired(u32),
    /// So many of the newest held steps are taken back.
    Cancelled(u32),
    /// The newest step goes the other way.
    Flipped,
    /// Nothing of the run changes.
    Synced,
    /// Tracing ends by an overflow.
    Overflowed,
    /// Tracing ends.
    Stopped,
}

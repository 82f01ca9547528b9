//! The items of a path, as it is shown.

use crate::Ctx;

/// One item of a path.
#[derive(Clone, Copy, Debug, PartialEq, Eq)]
pub enum Item {
    /// Tracing was turned on.
    On,
    /// Trace was lost by an overflow.
    Gap,
    /// Tracing stopped.
    Stop,
    /// Instructions were executed at addresses that are not known.
    Unknown,
    /// The instruction at this address was executed in this context. `took` says whether it is a
    /// conditional branch, and was taken; no line shows it.
    Instr { addr: u64, ctx: Ctx, took: bool },
    /// An exception of this kind was taken, with this return address.
    Exc { kind: u8, ret: u64 },
}

//! Why a run refuses an event.
ghost use Rattle.std.specs.Prelude.{◌≡◌};
ghost use Rattle.spec_run.specs.FaultNumbers.{fault_number};

use thiserror::Error;

/// Why a run refuses an event. Addresses are those of the pc, or what an event gave.
#[derive(Clone, Copy, Debug, PartialEq, Eq, Error)]
pub enum RunFault {
    /// Tracing is off.
    #[error("tracing is off")]
    NotOn,
    /// Tracing is on.
    #[error("tracing is on")]
    AlreadyOn,
    /// The instruction at the pc is of another kind than the event says.
    #[error("the instruction at {0:x} is of another kind")]
    WrongKind(u64),
    /// The image has no instruction at the pc.
    #[error("no instruction at {0:x}")]
    NoCode(u64),
    /// A branch that is not read stands at the pc.
    #[error("a branch that is not read at {0:x}")]
    Odd(u64),
    /// The address is no multiple of 4.
    #[error("the address {0:x} is no multiple of 4")]
    Unaligned(u64),
    /// So many P0 steps would not be retired, this one among them, which is more than the maximum speculation depth.
    #[error("{p0} P0 steps that are not retired, and the depth is {depth}")]
    TooDeep { p0: u32, depth: u32 },
    /// More steps than there are that are not retired.
    #[error("{asked} steps to retire of {held}")]
    RetireTooMany { asked: u32, held: u32 },
    /// The same.
    #[error("{asked} steps to cancel of {held}")]
    CancelTooMany { asked: u32, held: u32 },
    /// The newest step is retired, or no conditional branch, or there is none.
    #[error("no conditional branch to flip")]
    NoBranchToFlip,
    /// The newest step is no ISB, or there is none.
    #[error("the context changes behind an ISB alone")]
    ContextPlace,
    /// 65,535 steps are not retired.
    #[error("65535 steps are not retired")]
    WindowFull,
}

impl RunFault {
    /// The number of the fault, 1 to 12.
    pub fn number(&self) -> u8
        ensures { result ≡ fault_number self.now }
    {
        match self {
            RunFault::NotOn => 1,
            RunFault::AlreadyOn => 2,
            RunFault::WrongKind(_) => 3,
            RunFault::NoCode(_) => 4,
            RunFault::Odd(_) => 5,
            RunFault::Unaligned(_) => 6,
            RunFault::TooDeep { .. } => 7,
            RunFault::RetireTooMany { .. } => 8,
            RunFault::CancelTooMany { .. } => 9,
            RunFault::NoBranchToFlip => 10,
            RunFault::ContextPlace => 11,
            RunFault::WindowFull => 12,
        }
    }
}

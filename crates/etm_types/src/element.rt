//! Trace elements, and a P0 element with those that came before it (Arm IHI 0064, trace elements).

use crate::Ctx;

/// A P0 element: one atom, or one exception.
#[derive(Clone, Copy, Debug, PartialEq, Eq)]
pub enum P0 {
    /// An atom: `true` for E, a branch that was taken, and `false` for N.
    Atom(bool),
    /// An exception of a type 0 to 31, and its preferred return address.
    Exc { kind: u8, ret: u64 },
}

/// An element of a trace.
#[derive(Clone, Copy, Debug, PartialEq, Eq)]
pub enum Elem {
    /// Trace info: the trace begins anew here, with so many P0 elements that are not committed.
    Info { spec: u32 },
    /// Trace on: tracing begins, or goes on after a gap.
    On,
    /// The context of what follows.
    Ctx(Ctx),
    /// The address of the next instruction.
    Addr(u64),
    /// A P0 element.
    P0(P0),
    /// So many P0 elements, the oldest ones, are committed.
    Commit(u32),
    /// So many P0 elements, the newest ones, are cancelled.
    Cancel(u32),
    /// A mispredict: the newest atom is the other one, N for E and E for N.
    Flip,
    /// A buffer of the trace unit was full, and trace is missing.
    Overflow,
    /// The trace unit stopped tracing and discarded what it had not output yet.
    Discard,
}

/// What elements gave since the last P0 element.
#[derive(Clone, Copy, Debug, PartialEq, Eq)]
pub struct Pre {
    /// A trace info element came: return addresses from before it count no more.
    pub flush: bool,
    /// Tracing was turned on.
    pub on: bool,
    /// Trace is missing here, so the address is not known unless `addr` gives it.
    pub lost: bool,
    /// The context, where one was given.
    pub ctx: Option<Ctx>,
    /// The address of the next instruction, where one was given.
    pub addr: Option<u64>,
}

impl Pre {
    ghost use Rattle.std.specs.Prelude.{◌≡◌};
    ghost use Rattle.etm_types.specs.Pre.{nothing_told, trace_missing};

    /// Nothing was given.
    pub fn nothing_told() -> Pre
        ensures { result ≡ nothing_told }
    {
        Pre {
            flush: false,
            on: false,
            lost: false,
            ctx: None,
            addr: None,
        }
    }

    /// Nothing was given, and trace is missing: so a stream begins.
    pub fn trace_missing() -> Pre
        ensures { result ≡ trace_missing }
    {
        Pre {
            lost: true,
            ..Pre::nothing_told()
        }
    }
}

/// A P0 element with what was given before it.
#[derive(Clone, Copy, Debug, PartialEq, Eq)]
pub struct Entry {
    pub pre: Pre,
    pub p0: P0,
}

/// What stands in the list of things that a trace has shown, oldest first.
#[derive(Clone, Copy, Debug, PartialEq, Eq)]
pub enum Thing {
    /// A P0 element that was seen.
    Seen(Entry),
    /// A P0 element from before the trace that was found, of which nothing else is known.
    Unseen,
    /// Trace was lost by an overflow.
    Gap,
    /// Tracing stopped.
    Stop,
}

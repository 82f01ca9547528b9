//! The program counter, as far as it is known.

/// What is known of the address of the next instruction.
#[derive(Clone, Copy, Debug, PartialEq, Eq)]
pub enum Pc {
    /// It is this one, a multiple of 4.
    Known(u64),
    /// The branch or exception before does not give it: the trace does, by an address element. After BR
    /// and RET, where `pops`, the trace may leave it out, and it is the newest return address.
    Awaited { pops: bool },
    /// It is not known until the trace gives it: at first, after trace on, and where trace is missing.
    Lost,
}

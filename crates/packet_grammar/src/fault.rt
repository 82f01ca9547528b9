//! What bytes can show that are no packet of this reader's profile.

/// Why bytes are refused. Each fault is shown by the bytes from a packet's first one on, as soon as they
/// show it.
#[derive(Clone, Copy, Debug, PartialEq, Eq)]
pub enum PacketFault {
    /// A header that the architecture reserves.
    Reserved(u8),
    /// A header of packets that a trace of this profile does not have.
    Refused(RefusedKind, u8),
    /// 00 and then a byte that makes no packet with it.
    Extension(u8),
    /// An A-sync that breaks off: a byte other than 00 among its zeros, or other than 80 behind them.
    BrokenSync,
    /// A control byte of a trace info packet with a bit that is reserved.
    InfoControl(u8),
    /// A trace info packet that announces cycle counts, conditional instructions, or loads and stores.
    InfoMode(u32),
    /// A number that does not fit 32 bits.
    NumberTooLong,
    /// An exception packet that has a second byte of information.
    ExceptionTwoByte(u8),
    /// An exception packet whose E1 and E0 are the same.
    ExceptionForm(u8),
    /// An info byte of a context in AArch32 state.
    Aarch32Context(u8),
}

/// What the packets of a refused header are about.
#[derive(Clone, Copy, Debug, PartialEq, Eq)]
pub enum RefusedKind {
    /// Cycle counts.
    CycleCount,
    /// A timestamp with a cycle count.
    TimeCycle,
    /// Synchronization with a data trace.
    DataSync,
    /// Conditional instructions.
    Conditional,
    /// Executed instructions of which only the number is told.
    Q,
    /// Exceptions of M-profile processors.
    MProfile,
    /// Addresses in AArch32 state.
    Aarch32Address,
}

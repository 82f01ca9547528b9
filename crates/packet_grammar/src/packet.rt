//! The packets (Arm IHI 0064, "Descriptions of Trace Packets").

use etm_types::{AddrForm, AtomRun, CtxBits, FewAtoms};

/// A packet of a trace.
#[derive(Clone, Copy, Debug, PartialEq, Eq)]
pub enum Packet {
    /// Alignment Synchronization packet: by it a reader finds where packets begin.
    Async,
    /// Discard packet: the trace unit discards the elements that it has not traced yet.
    Discard,
    /// Overflow packet: a buffer of the trace unit overflowed, and trace is missing.
    Overflow,
    /// Trace Info packet: the trace unit's configuration. Each number is there where its section is.
    Info {
        /// INFO: what is traced besides the flow of the program. It is 0 where it is there.
        info: Option<u32>,
        /// KEY, of conditional instructions. It is passed over.
        key: Option<u32>,
        /// SPEC, the speculation depth: how many P0 elements before this packet are not committed.
        spec: Option<u32>,
        /// CYCT, the threshold of cycle counts. It is passed over.
        cyct: Option<u32>,
    },
    /// Trace On packet: there is a gap in the trace before it.
    On,
    /// Ignore packet: it is passed over.
    Ignore,
    /// Event packet: bit i is event i. The value is 1 to 15.
    Event(u8),
    /// Timestamp packet: the lowest bits of a timestamp.
    Time {
        /// How many bits: 7, 14 and so on to 56, or 64.
        bits: u8,
        /// Their value.
        low: u64,
    },
    /// Exception packet: an address packet follows, with the preferred return address.
    Exc {
        /// TYPE, the exception's type, 0 to 31.
        kind: u8,
        /// E1 and E0: whether that address is the target of the P0 element before it too.
        target: bool,
    },
    /// Commit packet: so many P0 elements, the oldest ones, are resolved as committed.
    Commit(u32),
    /// Cancel Format 1 packet: so many P0 elements, the newest ones, are cancelled, and then maybe a mispredict.
    Cancel {
        /// How many P0 elements.
        n: u32,
        /// M: whether the newest atom that is left was mispredicted.
        flip: bool,
    },
    /// Mispredict packet: these atoms, and then a mispredict of the newest atom.
    Mispredict(FewAtoms),
    /// Cancel Format 2 packet: these atoms, one P0 element cancelled, and then a mispredict.
    Cancel2(FewAtoms),
    /// Cancel Format 3 packet.
    Cancel3 {
        /// A: whether an atom E comes first.
        e: bool,
        /// CC and 2: how many P0 elements, 2 to 5, are cancelled before a mispredict.
        n: u8,
    },
    /// Context packet without an info byte: the context is the one before it.
    CtxSame,
    /// Context packet with an info section.
    CtxInfo(CtxBits),
    /// Exact Match Address, Short Address and Long Address packets, and Address with Context packets.
    Addr {
        /// The address.
        form: AddrForm,
        /// The context of an Address with Context packet. Only the two long forms have one.
        ctx: Option<CtxBits>,
    },
    /// Atom Format 1 to 6 packets.
    Atoms(AtomRun),
}

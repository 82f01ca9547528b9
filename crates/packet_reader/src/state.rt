//! How far the begun packet is read (Arm IHI 0064, "Descriptions of Trace Packets").

use etm_types::AddrForm;
use packet_grammar::{Packet, PacketFault};

/// What the bytes of the begun packet hold so far, and which byte comes next.
#[derive(Clone, Copy, Debug, PartialEq, Eq)]
pub enum State {
    /// After one 00.
    Extension,
    /// After two 00 or more: so many come before the last byte of an A-sync.
    Zeros {
        left: u8,
    },
    /// The control byte of a trace info packet comes.
    Control,
    /// Within a number: so many groups may come after the next one, and so many were read.
    Number {
        purpose: Purpose,
        left: u8,
        groups: u8,
        value: u64,
    },
    /// Within a timestamp, in the same way.
    Stamp {
        left: u8,
        groups: u8,
        low: u64,
    },
    /// The byte of information of an exception packet comes.
    Exception,
    /// The first byte of a short address comes.
    Short,
    /// Its second byte comes, after bits 8 to 2.
    ShortHigh {
        low: u64,
    },
    /// The first byte of a long address comes.
    LongFirst {
        long: Long,
    },
    /// Its second byte comes, after bits 8 to 2.
    LongSecond {
        long: Long,
        low: u64,
    },
    /// Within the bytes of a long address from bit 16 on.
    LongHigh {
        long: Long,
        low: u64,
        field: Field,
    },
    /// The info byte of a context comes, alone or after an address.
    Context {
        form: Option<AddrForm>,
    },
    /// Within a VMID.
    Vmid {
        form: Option<AddrForm>,
        info: u8,
        field: Field,
    },
    /// Within a context ID.
    Cid {
        form: Option<AddrForm>,
        info: u8,
        vmid: Option<u32>,
        field: Field,
    },
}

/// Whole bytes that come one after the other, the low one first.
#[derive(Clone, Copy, Debug, PartialEq, Eq)]
pub struct Field {
    /// How many are left.
    pub left: u8,
    /// How many were read.
    pub count: u8,
    /// The number that these are.
    pub value: u64,
}

/// What a number is for. The sections of a trace info packet carry the control byte, and the sections
/// that were read.
#[derive(Clone, Copy, Debug, PartialEq, Eq)]
pub enum Purpose {
    Commit,
    Cancel {
        flip: bool,
    },
    Mode {
        control: u8,
    },
    Key {
        control: u8,
        info: Option<u32>,
    },
    Spec {
        control: u8,
        info: Option<u32>,
        key: Option<u32>,
    },
    Cycles {
        info: Option<u32>,
        key: Option<u32>,
        spec: Option<u32>,
    },
}

/// Which long address comes.
#[derive(Clone, Copy, Debug, PartialEq, Eq)]
pub struct Long {
    /// Whether it has 64 bits.
    pub wide: bool,
    /// Whether a context follows it.
    pub with_context: bool,
}

/// What a byte made of a state.
#[derive(Clone, Copy, Debug, PartialEq, Eq)]
pub enum Progress {
    /// The packet has not ended.
    Next(State),
    /// It has, or a fault is shown.
    Done(Result<Packet, PacketFault>),
}

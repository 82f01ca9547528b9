//! The first bytes of packets, in the order of their numbers, by the names of the standard (Arm IHI 0064, "Descriptions of Trace
//! Packets"). Where the lowest bits of a header are fields, the packet has a row of headers, of which the first and the last stand
//! here. A header that is reserved or refused has no name: the fault that it shows tells its number.

/// Alignment Synchronization, Discard and Overflow packets: the bytes behind it say which.
pub const EXTENSION: u8 = 0x00;

/// Behind [`EXTENSION`]: Discard packet.
pub const DISCARD: u8 = 0x03;

/// Behind [`EXTENSION`]: Overflow packet.
pub const OVERFLOW: u8 = 0x05;

/// Behind the zeros of an Alignment Synchronization packet: its end.
pub const END_OF_SYNC: u8 = 0x80;

/// Trace Info packet.
pub const TRACE_INFO: u8 = 0x01;

/// Timestamp packet.
pub const TIMESTAMP: u8 = 0x02;

/// Trace On packet.
pub const TRACE_ON: u8 = 0x04;

/// Exception packet.
pub const EXCEPTION: u8 = 0x06;

/// Commit packet.
pub const COMMIT: u8 = 0x2d;

/// Cancel Format 1 packet without a mispredict: bit 0 (M) is 0.
pub const CANCEL_FORMAT_1: u8 = 0x2e;

/// Cancel Format 1 packet with a mispredict: bit 0 (M) is 1.
pub const CANCEL_FORMAT_1_MISPREDICT: u8 = 0x2f;

/// Mispredict packet. Bits 1 and 0 (A) are its atoms.
pub const MISPREDICT: u8 = 0x30;

pub const LAST_MISPREDICT: u8 = 0x33;

/// Cancel Format 2 packet. Bits 1 and 0 (A) are its atoms.
pub const CANCEL_FORMAT_2: u8 = 0x34;

pub const LAST_CANCEL_FORMAT_2: u8 = 0x37;

/// Cancel Format 3 packet. Bits 2 and 1 (CC) are the number of elements less 2, and bit 0 (A) is an atom E.
pub const CANCEL_FORMAT_3: u8 = 0x38;

pub const LAST_CANCEL_FORMAT_3: u8 = 0x3f;

/// Ignore packet: the header of an Event packet without an event.
pub const IGNORE: u8 = 0x70;

/// Event packet. Bits 3 to 0 (EVENT) are the events.
pub const EVENT: u8 = 0x71;

pub const LAST_EVENT: u8 = 0x7f;

/// Context packet without an info byte.
pub const CONTEXT: u8 = 0x80;

/// Context packet with an info byte.
pub const CONTEXT_INFO: u8 = 0x81;

/// Address with Context packet of a 32-bit address.
pub const ADDRESS_32_WITH_CONTEXT: u8 = 0x82;

/// Address with Context packet of a 64-bit address.
pub const ADDRESS_64_WITH_CONTEXT: u8 = 0x85;

/// Exact Match Address packet. Bits 1 and 0 are the index of an address in the history.
pub const EXACT_MATCH: u8 = 0x90;

pub const LAST_EXACT_MATCH: u8 = 0x92;

/// Short Address packet.
pub const SHORT_ADDRESS: u8 = 0x95;

/// Long Address packet of a 32-bit address.
pub const LONG_ADDRESS_32: u8 = 0x9a;

/// Long Address packet of a 64-bit address.
pub const LONG_ADDRESS_64: u8 = 0x9d;

/// Atom Format 1 to 6 packets. All headers from here on are such.
pub const ATOMS: u8 = 0xc0;

pub const LAST_ATOMS: u8 = 0xff;

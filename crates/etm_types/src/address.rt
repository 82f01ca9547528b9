//! The forms in which an address packet gives an address (Arm IHI 0064, address packets).

/// An address, given by the address history: the three addresses that were traced last, the newest
/// first. A value holds the bits of its form in their place, and all others 0. Bits 1 and 0 of an
/// address are 0, since A64 instructions stand at multiples of 4.
#[derive(Clone, Copy, Debug, PartialEq, Eq)]
pub enum AddrForm {
    /// Entry 0, 1 or 2 of the address history (exact match address packet).
    Match(u8),
    /// Bits 8 to 2; the upper ones are those of the newest address (short address packet).
    Short1(u64),
    /// Bits 16 to 2; the upper ones are those of the newest address (short address packet).
    Short2(u64),
    /// Bits 31 to 2; the upper ones are those of the newest address (32-bit long address packet).
    Long32(u64),
    /// Bits 63 to 2 (64-bit long address packet).
    Long64(u64),
}

//! Fields of a byte, as the figures of the standard show them (Arm IHI 0064, "Descriptions of Trace
//! Packets").
ghost use Rattle.std.specs.Prelude.{◌≡◌, ◌<◌, ◌≤◌};
ghost use Rattle.packet_grammar.specs.Fields.{bit, field, is_last, lowest};

/// The continuation bit, bit 7: where it is 1 another byte follows.
pub const CONTINUES: u8 = 0x80;

/// Whether the bit at a place of a byte is 1.
pub fn bit(byte: u8, place: u8) -> bool
    requires { place ≤ 7 }
    ensures { result ≡ bit place byte }
{
    (byte >> place) % 2 == 1
}

/// The number in bits high to low of a byte.
pub fn field(high: u8, low: u8, byte: u8) -> u8
    requires { (low ≤ high) × (high < 7) }
    ensures { result ≡ field high low byte }
{
    (byte >> low) % (1 << (high + 1 - low))
}

/// The number in the lowest so many bits of a byte.
pub fn lowest(count: u8, byte: u8) -> u8
    requires { count ≤ 7 }
    ensures { result ≡ lowest count byte }
{
    byte % (1 << count)
}

/// A byte whose continuation bit is 0.
pub fn is_last(byte: u8) -> bool
    ensures { result ≡ is_last byte }
{
    byte < CONTINUES
}

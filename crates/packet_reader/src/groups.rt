//! Numbers that are put together from groups of bits, the low ones first.
ghost use Rattle.std.specs.Prelude.{◌≡◌, ◌+◌, ◌*◌, ◌^◌, ◌<◌, ◌≤◌};

/// How many bits of a number a group has.
const GROUP: u32 = 7;

/// How many bits a byte has.
pub const BYTE: u32 = 8;

/// A value of so many groups of seven bits, with a group above them.
pub fn with_group(value: u64, group: u8, groups: u8) -> u64
    requires at_most_eight { groups ≤ 8 }
    requires fits { value < 128 ^ groups }
    ensures value { result ≡ value + group * 128 ^ groups }
    ensures small { groups ≤ 3 → result < 2 ^ 32 }
    ensures within { group < 128 → result < 128 ^ (groups + 1) }
{
    let group = u64::from(group);
    match groups {
        0 => value + group,
        1 => value + (group << GROUP),
        2 => value + (group << (2 * GROUP)),
        3 => value + (group << (3 * GROUP)),
        4 => value + (group << (4 * GROUP)),
        5 => value + (group << (5 * GROUP)),
        6 => value + (group << (6 * GROUP)),
        7 => value + (group << (7 * GROUP)),
        _ => value + (group << (8 * GROUP)),
    }
}

/// A value of so many bytes, with a byte above them.
pub fn with_byte(value: u64, byte: u8, count: u8) -> u64
    requires at_most_five { count ≤ 5 }
    requires fits { value < 256 ^ count }
    ensures value { result ≡ value + byte * 256 ^ count }
    ensures small { count ≤ 3 → result < 2 ^ 32 }
    ensures below_48_bits { result < 2 ^ 48 }
    ensures within { result < 256 ^ (count + 1) }
{
    let byte = u64::from(byte);
    match count {
        0 => value + byte,
        1 => value + (byte << BYTE),
        2 => value + (byte << (2 * BYTE)),
        3 => value + (byte << (3 * BYTE)),
        4 => value + (byte << (4 * BYTE)),
        _ => value + (byte << (5 * BYTE)),
    }
}

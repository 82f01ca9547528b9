//! The offsets of branches, and where they lead.
ghost use Rattle.std.specs.Prelude.{◌≡◌, ◌<◌, ◌*◌, ◌%◌, nat_lt, pos, ◌-ℤ◌, if◌then◌else◌};
ghost use Rattle.a64_branches.specs.Offsets.{IsWhole, imm14, imm19, imm26, target};

/// The size of an instruction of A64, in bytes.
pub const INSTRUCTION_BYTES: u64 = 4;

/// An immediate counts instructions.
const INSTRUCTION: i64 = INSTRUCTION_BYTES as i64;

/// The offset in imm26, bits 25 to 0 of a word.
pub fn imm26(word: u32) -> i32
    ensures { result ≡ imm26 word }
{
    (INSTRUCTION * signed(word & 0x3ff_ffff, 1 << 25)) as i32
}

/// The offset in imm19, bits 23 to 5 of a word.
pub fn imm19(word: u32) -> i32
    ensures { result ≡ imm19 word }
{
    (INSTRUCTION * signed(word >> 5 & 0x7_ffff, 1 << 18)) as i32
}

/// The offset in imm14, bits 18 to 5 of a word.
pub fn imm14(word: u32) -> i32
    ensures { result ≡ imm14 word }
{
    (INSTRUCTION * signed(word >> 5 & 0x3fff, 1 << 13)) as i32
}

/// A number in two's complement, whose top bit is worth `top`.
fn signed(number: u32, top: u32) -> i64
    requires fits { number < 2 * top }
    ensures { result ≡ (if nat_lt number top then pos number else pos number -ℤ pos (2 * top)) }
{
    if number < top {
        i64::from(number)
    } else {
        i64::from(number) - 2 * i64::from(top)
    }
}

/// The address `off` bytes from `addr`, modulo 2^64.
pub fn target(addr: u64, off: i32) -> u64
    ensures value { result ≡ target addr off }
    ensures aligned { addr % 4 ≡ 0 → IsWhole off → result % 4 ≡ 0 }
{
    addr.wrapping_add_signed(i64::from(off))
}

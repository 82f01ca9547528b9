//! The numbers that words spell.
ghost use Rattle.std.specs.Prelude.{◌≡◌};
ghost use Rattle.std.specs.Char.{is_ascii_digit};
ghost use Rattle.std.specs.List.{list_all};
ghost use Rattle.line_words.specs.Line.{decimal_of, number_of, short_number_of, two_digits_of};

use byteorder::{BigEndian, ByteOrder};

/// The most digits of a hex number.
const HEX_DIGITS: usize = 16;

/// The most digits of a hex number of 32 bits.
const SHORT_DIGITS: usize = 8;

/// The most digits of a decimal number.
const DECIMAL_DIGITS: usize = 10;

/// Whether all bytes are decimal digits.
fn are_decimal(bytes: &[u8]) -> bool
    ensures { result ≡ list_all is_ascii_digit bytes.now }
{
    bytes.iter().all(|byte| byte.is_ascii_digit())
}

/// The number that 1 to 16 hex digits of either case spell.
pub fn number(digits: &[u8]) -> Option<u64>
    ensures { result ≡ number_of digits.now }
{
    if digits.is_empty() || digits.len() > HEX_DIGITS {
        return None;
    }
    let mut padded = [b'0'; HEX_DIGITS];
    padded[HEX_DIGITS - digits.len()..].copy_from_slice(digits);
    let mut bytes = [0; size_of::<u64>()];
    hex::decode_to_slice(padded.as_slice(), &mut bytes).ok()?;
    Some(BigEndian::read_u64(&bytes))
}

/// The number that 1 to 10 decimal digits spell. Zeros may lead.
pub fn decimal(digits: &[u8]) -> Option<u64>
    ensures { result ≡ decimal_of digits.now }
{
    if digits.is_empty() || digits.len() > DECIMAL_DIGITS || !are_decimal(digits) {
        return None;
    }
    str::from_utf8(digits).ok()?.parse().ok()
}

/// The number that 1 to 8 hex digits spell.
pub fn short_number(word: &[u8]) -> Option<u32>
    ensures { result ≡ short_number_of word.now }
{
    if word.len() > SHORT_DIGITS {
        return None;
    }
    let number = number(word)?;
    Some(number as u32)
}

/// The number that two hex digits spell.
pub fn two_digits(word: &[u8]) -> Option<u8>
    ensures { result ≡ two_digits_of word.now }
{
    if word.len() != 2 {
        return None;
    }
    let number = number(word)?;
    Some(number as u8)
}

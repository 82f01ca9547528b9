//! The digits of numbers, put straight to their places in a text.
//!
//! How many digits a number has is found first, so that they need no place of their own. The last one is put first.
ghost use Rattle.std.specs.Prelude.{◌≡◌, ◌+◌, ◌-◌, ◌/◌, ◌%◌, ◌∷◌, ◌++◌, ◌<◌, ◌≤◌, [], length, take, drop};
ghost use Rattle.path_text.specs.Lines.{digit, hex, decimal, last_four_hex};

/// The digits of the bases up to 16.
static DIGITS: [u8; 16] = *b"0123456789abcdef";

/// The numbers below 100, two digits each.
static PAIRS: [u8; 200] = *b"0001020304050607080910111213141516171819\
2021222324252627282930313233343536373839\
4041424344454647484950515253545556575859\
6061626364656667686970717273747576777879\
8081828384858687888990919293949596979899";

/// The bytes, two hex digits each.
static HEX_PAIRS: [u8; 512] = *b"000102030405060708090a0b0c0d0e0f\
101112131415161718191a1b1c1d1e1f\
202122232425262728292a2b2c2d2e2f\
303132333435363738393a3b3c3d3e3f\
404142434445464748494a4b4c4d4e4f\
505152535455565758595a5b5c5d5e5f\
606162636465666768696a6b6c6d6e6f\
707172737475767778797a7b7c7d7e7f\
808182838485868788898a8b8c8d8e8f\
909192939495969798999a9b9c9d9e9f\
a0a1a2a3a4a5a6a7a8a9aaabacadaeaf\
b0b1b2b3b4b5b6b7b8b9babbbcbdbebf\
c0c1c2c3c4c5c6c7c8c9cacbcccdcecf\
d0d1d2d3d4d5d6d7d8d9dadbdcdddedf\
e0e1e2e3e4e5e6e7e8e9eaebecedeeef\
f0f1f2f3f4f5f6f7f8f9fafbfcfdfeff";

/// A digit of a base up to 16.
#[inline(always)]
pub fn digit(value: u8) -> u8
    requires { value < 16 }
    ensures { result ≡ digit value }
{
    DIGITS[value as usize]
}

/// How many hex digits a number has.
#[inline(always)]
#[tactic(auto, using(crate::proofs::DigitLemmas::hex_count, crate::proofs::DigitLemmas::hex_count_zero, std::proofs::lemmas::Nat::leading_le))]
pub fn hex_count(n: u64) -> usize
    ensures { result ≡ length (hex n) }
{
    if n == 0 {
        1
    } else {
        16 - n.leading_zeros() as usize / 4
    }
}

/// How many decimal digits a number of at most four has.
#[inline(always)]
#[tactic(auto, using(crate::proofs::DigitLemmas::short_counts))]
fn short_count(n: u64) -> usize
    requires { n < 10000 }
    ensures { result ≡ length (decimal n) }
{
    if n < 10 {
        1
    } else if n < 100 {
        2
    } else if n < 1000 {
        3
    } else {
        4
    }
}

/// How many decimal digits a number of at most eight has.
#[inline(always)]
#[tactic(auto, using(crate::proofs::DigitLemmas::middle_counts))]
fn middle_count(n: u64) -> usize
    requires { n < 100000000 }
    ensures { result ≡ length (decimal n) }
{
    if n < 10_000 {
        short_count(n)
    } else if n < 100_000 {
        5
    } else if n < 1_000_000 {
        6
    } else if n < 10_000_000 {
        7
    } else {
        8
    }
}

/// How many decimal digits a number has. It divides only where there are more than eight.
#[inline]
pub fn decimal_count(n: u64) -> usize
    ensures { result ≡ length (decimal n) }
{
    let mut count = 0;
    let mut rest = n;
    while rest >= 100_000_000 {
        rest /= 100_000_000;
        count += 8;
    }
    count + middle_count(rest)
}

/// The two digits of a number below 100.
#[inline(always)]
pub fn pair(n: u8) -> [u8; 2]
    requires { n < 100 }
    ensures { result ≡ digit (n / 10) ∷ digit (n % 10) ∷ [] }
{
    let at = 2 * n as usize;
    [PAIRS[at], PAIRS[at + 1]]
}

/// Puts a number below 100 as two digits.
#[inline(always)]
fn put_pair(n: u8, text: &mut [u8], at: usize)
    requires pair { n < 100 }
    requires within { at + 2 ≤ length text.old }
    ensures { text.new ≡ take at text.old ++ (digit (n / 10) ∷ digit (n % 10) ∷ drop (at + 2) text.old) }
{
    let [tens, ones] = pair(n);
    text[at] = tens;
    text[at + 1] = ones;
}

/// Puts the decimal digits of a number below 100 where they end at `end`.
#[inline(always)]
fn put_short(n: u8, text: &mut [u8], end: usize)
    requires short { n < 100 }
    requires room { length (decimal n) ≤ end }
    requires within { end ≤ length text.old }
    ensures { text.new ≡ take (end - length (decimal n)) text.old ++ (decimal n ++ drop end text.old) }
{
    if n < 10 {
        text[end - 1] = digit(n);
    } else {
        put_pair(n, text, end - 2);
    }
}

/// Puts the decimal digits of a number where they end at `end`, two at a time.
#[inline(always)]
pub fn put_decimal(n: u64, text: &mut [u8], end: usize)
    requires room { length (decimal n) ≤ end }
    requires within { end ≤ length text.old }
    ensures { text.new ≡ take (end - length (decimal n)) text.old ++ (decimal n ++ drop end text.old) }
{
    let mut at = end;
    let mut rest = n;
    while rest >= 100 {
        at -= 2;
        put_pair((rest % 100) as u8, text, at);
        rest /= 100;
    }
    put_short(rest as u8, text, at);
}

/// The two hex digits of a byte.
#[inline(always)]
fn hex_pair(n: u8) -> [u8; 2]
    ensures { result ≡ digit (n / 16) ∷ digit (n % 16) ∷ [] }
{
    let at = 2 * n as usize;
    [HEX_PAIRS[at], HEX_PAIRS[at + 1]]
}

/// Puts the two hex digits of a byte.
#[inline(always)]
fn put_byte(n: u8, text: &mut [u8], at: usize)
    requires { at + 2 ≤ length text.old }
    ensures { text.new ≡ take at text.old ++ (digit (n / 16) ∷ digit (n % 16) ∷ drop (at + 2) text.old) }
{
    let [tens, ones] = hex_pair(n);
    text[at] = tens;
    text[at + 1] = ones;
}

/// Puts the hex digits of a number below 256 where they end at `end`.
#[inline(always)]
fn put_short_hex(n: u8, text: &mut [u8], end: usize)
    requires room { length (hex n) ≤ end }
    requires within { end ≤ length text.old }
    ensures { text.new ≡ take (end - length (hex n)) text.old ++ (hex n ++ drop end text.old) }
{
    if n < 16 {
        text[end - 1] = digit(n);
    } else {
        put_byte(n, text, end - 2);
    }
}

/// Puts the hex digits of a number where they end at `end`, two at a time.
#[inline(always)]
pub fn put_hex(n: u64, text: &mut [u8], end: usize)
    requires room { length (hex n) ≤ end }
    requires within { end ≤ length text.old }
    ensures { text.new ≡ take (end - length (hex n)) text.old ++ (hex n ++ drop end text.old) }
{
    let mut at = end;
    let mut rest = n;
    while rest >= 256 {
        at -= 2;
        put_byte((rest % 256) as u8, text, at);
        rest /= 256;
    }
    put_short_hex(rest as u8, text, at);
}

/// Puts the last four hex digits of a number where they end at `end`.
#[inline(always)]
pub fn put_last_four_hex(n: u64, text: &mut [u8], end: usize)
    requires room { 4 ≤ end }
    requires within { end ≤ length text.old }
    ensures { text.new ≡ take (end - 4) text.old ++ (last_four_hex n ++ drop end text.old) }
{
    put_byte((n / 256 % 256) as u8, text, end - 4);
    put_byte((n % 256) as u8, text, end - 2);
}

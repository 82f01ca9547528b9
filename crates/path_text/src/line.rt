//! One line of the output, put together before it is written.
ghost use Rattle.std.specs.Prelude.{◌≡◌, ◌+◌, ◌/◌, ◌%◌, ◌∷◌, ◌++◌, ◌<◌, ◌≤◌, [], length, take};
ghost use Rattle.path_text.specs.Lines.{line_start, byte_text};

use crate::digits::{decimal_count, digit, hex_count, pair, put_decimal, put_hex};
use crate::letters::put_atoms;
use etm_types::{AtomRun, Id};
use std::marker::Model;
use trace_io::{Failed, Sink, write_all};

/// The longest line, in bytes.
const LONGEST: usize = 96;

/// The begun line. Contracts see it as its bytes.
#[derive(Drop)]
pub struct Line {
    bytes: [u8; LONGEST],
    len: usize,
}

impl Model for Line {
    ghost use Rattle.std.specs.Prelude.{ℕ, List, ◌≤◌, take};
    ghost use Rattle.path_text.specs.Lines.{longest_line};

    ghost Value = { List ℕ };

    ghost view = { λ line. take line.len line.bytes };

    ghost invariant = { λ line. line.len ≤ longest_line };
}

impl Line {
    ghost use Rattle.etm_types.specs.Atoms.{most_atoms};
    ghost use Rattle.path_text.specs.Lines.{HasRoom, AddsAtMost, digit, hex, decimal};
    ghost use Rattle.path_text.specs.PacketLines.{atoms_text};
    ghost use Rattle.path_text.specs.Writing.{Writes};

    /// A line without anything.
    pub fn new() -> Line
        ensures { result ≡ [] }
    {
        Line {
            bytes: [0; LONGEST],
            len: 0,
        }
    }

    /// A line begins with the ID of its stream in two hex digits, and a space.
    pub fn begin(id: Id) -> Line
        ensures { result ≡ line_start id }
    {
        let id = id.get();
        let mut line = Line::new();
        line.text(&[digit(id / 16), digit(id % 16), b' ']);
        line
    }

    /// How many bytes it has.
    #[inline(always)]
    pub(crate) fn len(&self) -> usize
        ensures { result ≡ length self.now }
    {
        self.len
    }

    /// Takes off all but so many bytes.
    #[inline(always)]
    pub(crate) fn cut(&mut self, len: usize)
        requires { len ≤ length self.old }
        ensures { self.new ≡ take len self.old }
    {
        self.len = len;
    }

    /// Adds a text.
    #[inline(always)]
    pub fn text(&mut self, text: &[u8])
        requires { HasRoom (length text.now) self.old }
        ensures { self.new ≡ self.old ++ text.now }
    {
        let end = self.len + text.len();
        self.bytes[self.len..end].copy_from_slice(text);
        self.len = end;
    }

    /// Adds the two hex digits of a byte.
    pub fn byte(&mut self, byte: u8)
        requires { HasRoom 2 self.old }
        ensures { self.new ≡ self.old ++ byte_text byte }
    {
        self.text(&[digit(byte / 16), digit(byte % 16)]);
    }

    /// Adds the hex digits of a number.
    #[inline(always)]
    fn hex_digits(&mut self, n: u64)
        requires { HasRoom (length (hex n)) self.old }
        ensures value { self.new ≡ self.old ++ hex n }
        ensures len { length self.new ≡ length self.old + length (hex n) }
    {
        let end = self.len + hex_count(n);
        put_hex(n, &mut self.bytes, end);
        self.len = end;
    }

    /// Adds the decimal digits of a number.
    #[inline(always)]
    fn decimal_digits(&mut self, n: u64)
        requires { HasRoom (length (decimal n)) self.old }
        ensures value { self.new ≡ self.old ++ decimal n }
        ensures len { length self.new ≡ length self.old + length (decimal n) }
    {
        let end = self.len + decimal_count(n);
        put_decimal(n, &mut self.bytes, end);
        self.len = end;
    }

    /// Adds a number of 64 bits in hex, at most 16 digits.
    #[tactic(auto, using(crate::proofs::DigitLemmas::few_hex_64))]
    pub fn hex(&mut self, n: u64)
        requires { HasRoom 16 self.old }
        ensures value { self.new ≡ self.old ++ hex n }
        ensures short { AddsAtMost 16 self.old self.new }
    {
        self.hex_digits(n);
    }

    /// Adds a number of 32 bits in hex, at most 8 digits.
    #[tactic(auto, using(crate::proofs::DigitLemmas::few_hex_32))]
    pub fn hex_u32(&mut self, n: u32)
        requires { HasRoom 8 self.old }
        ensures value { self.new ≡ self.old ++ hex n }
        ensures short { AddsAtMost 8 self.old self.new }
    {
        self.hex_digits(u64::from(n));
    }

    /// Adds a number of 64 bits in decimal, at most 20 digits.
    #[tactic(auto, using(crate::proofs::DigitLemmas::few_decimal_64))]
    pub fn decimal(&mut self, n: u64)
        requires { HasRoom 20 self.old }
        ensures value { self.new ≡ self.old ++ decimal n }
        ensures short { AddsAtMost 20 self.old self.new }
    {
        self.decimal_digits(n);
    }

    /// Adds a number of 32 bits in decimal, at most 10 digits.
    #[tactic(auto, using(crate::proofs::DigitLemmas::few_decimal_32))]
    pub fn decimal_u32(&mut self, n: u32)
        requires { HasRoom 10 self.old }
        ensures value { self.new ≡ self.old ++ decimal n }
        ensures short { AddsAtMost 10 self.old self.new }
    {
        self.decimal_digits(u64::from(n));
    }

    /// Adds a number of 8 bits in decimal, at most 3 digits.
    #[tactic(auto, using(crate::proofs::DigitLemmas::few_decimal_8))]
    pub fn decimal_u8(&mut self, n: u8)
        requires { HasRoom 3 self.old }
        ensures value { self.new ≡ self.old ++ decimal n }
        ensures short { AddsAtMost 3 self.old self.new }
    {
        self.decimal_digits(u64::from(n));
    }

    /// Adds a number below 100 as two decimal digits.
    #[inline(always)]
    pub(crate) fn pair(&mut self, n: u8)
        requires pair { n < 100 }
        requires room { HasRoom 2 self.old }
        ensures { self.new ≡ self.old ++ (digit (n / 10) ∷ digit (n % 10) ∷ []) }
    {
        self.text(&pair(n));
    }

    /// Adds the letters of a run of atoms, the oldest first.
    #[inline(always)]
    #[tactic(auto, using(crate::proofs::AtomLemmas::count_letters))]
    pub(crate) fn atoms(&mut self, run: &AtomRun)
        requires room { HasRoom most_atoms self.old }
        requires most { run.now.count ≤ most_atoms }
        ensures value { self.new ≡ self.old ++ atoms_text run.now }
        ensures len { length self.new ≡ length self.old + run.now.count }
    {
        put_atoms(run, &mut self.bytes, self.len);
        self.len += run.count as usize;
    }

    /// Ends the line with LF, and writes it by one call. It is not moved, since that would copy its bytes.
    #[inline(always)]
    pub fn write<K: Sink>(&mut self, sink: &mut K) -> Result<(), Failed>
        requires { HasRoom 1 self.old }
        ensures written { Writes (K.state sink.old) (K.state sink.new) result (self.old ++ 10 ∷ []) }
        ensures ended { self.new ≡ self.old ++ 10 ∷ [] }
    {
        self.text(b"\n");
        write_all(sink, &self.bytes[..self.len])
    }
}

//! The lines of a text.
ghost use Rattle.std.specs.Prelude.{◌≡◌, ◌<◌, ◌+◌, ◌∷◌, ◌==◌, [], MatchOption, length, position};
ghost use Rattle.std.specs.Str.{is_utf8};
ghost use Rattle.std.specs.Str.Lines.{lines, strip_carriage_return};

use std::marker::Model;

/// The lines of a text, each with its number: the first is line 1. Contracts see those that are still to come, and the
/// number of the next.
#[derive(Drop)]
pub struct NumberedLines<'a> {
    number: u64,
    rest: &'a [u8],
}

impl<'a> Model for NumberedLines<'a> {
    ghost use Rattle.std.specs.Prelude.{◌+◌, ◌<◌, ◌^◌, length};
    ghost use Rattle.std.specs.Str.Lines.{lines};
    ghost use Rattle.line_words.specs.Lines.{Numbered};

    ghost Value = { Numbered };

    ghost view = { λ l. record { number = l.number; lines = lines l.rest.now } };

    ghost invariant = { λ l. l.number + length l.rest.now < 2 ^ 64 };
}

impl<'a> NumberedLines<'a> {
    /// All lines of a text.
    pub fn new(text: &'a [u8]) -> NumberedLines<'a>
        ensures { result ≡ record { number = 1; lines = lines text.now } }
    {
        NumberedLines {
            number: 1,
            rest: text,
        }
    }

    /// The next line, with its number.
    pub fn next(&mut self) -> Option<(u64, &'a [u8])>
        ensures { MatchOption result (self.old.lines ≡ []) (λ found. (found.0 ≡ self.old.number)
            × (self.old.lines ≡ found.1.now ∷ self.new.lines) × (self.new.number ≡ self.old.number + 1)) }
    {
        if self.rest.is_empty() {
            return None;
        }
        let number = self.number;
        let (line, rest) = next_line(self.rest);
        self.number += 1;
        self.rest = rest;
        Some((number, line))
    }
}

/// The line without a CR at its end.
fn without_return(line: &[u8]) -> &[u8]
    ensures { result.now ≡ strip_carriage_return line.now }
{
    match line {
        [front @ .., b'\r'] => front,
        _ => line,
    }
}

/// Where the first line ends.
fn line_end(text: &[u8]) -> Option<usize>
    ensures { result ≡ position (λ byte. byte == 10) text.now }
{
    text.iter().position(|byte| *byte == b'\n')
}

/// The first line of a text that is not empty, without its end, and the text after that.
fn next_line(text: &[u8]) -> (&[u8], &[u8])
    requires { 0 < length text.now }
    ensures lines { lines text.now ≡ result.0.now ∷ lines result.1.now }
    ensures shorter { length result.1.now < length text.now }
{
    match line_end(text) {
        Some(end) => (without_return(&text[..end]), &text[end + 1..]),
        None => (text, &[]),
    }
}

/// Whether the line is UTF-8.
pub fn is_utf8(line: &[u8]) -> bool
    ensures { result ≡ is_utf8 line.now }
{
    str::from_utf8(line).is_ok()
}

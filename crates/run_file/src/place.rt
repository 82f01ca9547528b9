//! The lines of a text by the places where they begin.
ghost use Rattle.std.specs.Prelude.{◌≡◌, ◌<◌, ◌≤◌, ◌+◌, ◌∷◌, ◌==◌, [], IfSome, MatchOption, drop, length, position};
ghost use Rattle.std.specs.Str.Lines.{lines, strip_carriage_return};

use std::marker::Model;

/// Where a line begins in its text, and its number.
#[derive(Clone, Copy)]
pub struct LineStart {
    pub start: u32,
    /// From 1 on.
    pub number: u32,
}

/// The lines of a text from one of them on, each with its place.
#[derive(Drop)]
pub struct PlacedLines<'a> {
    text: &'a [u8],
    next: LineStart,
}

impl<'a> Model for PlacedLines<'a> {
    ghost use Rattle.run_file.specs.Places.{PlacesLeft, places_in};

    ghost Value = { PlacesLeft };

    ghost view = { places_in };

    ghost use Rattle.run_file.specs.Places.{ArePlaces};

    ghost invariant = { λ l. ArePlaces (places_in l) };
}

impl<'a> PlacedLines<'a> {
    /// All lines of a text. None where it has 2^32 - 1 bytes or more, which are too many for places.
    pub fn new(text: &'a [u8]) -> Option<PlacedLines<'a>>
        ensures { IfSome result (λ l. l ≡ record { text = text.now; next = record { start = 0; number = 1 } }) }
    {
        if text.len() >= u32::MAX as usize {
            return None;
        }
        let next = LineStart {
            start: 0,
            number: 1,
        };
        Some(PlacedLines { text, next })
    }

    /// The next line, with its place.
    pub fn next(&mut self) -> Option<(LineStart, &'a [u8])>
        ensures line { MatchOption result (lines (drop self.old.next.start self.old.text) ≡ []) (λ found.
            (lines (drop self.old.next.start self.old.text) ≡ found.1.now ∷ lines (drop self.new.next.start self.old.text))
            × (found.0 ≡ self.old.next) × (self.new.next.number ≡ self.old.next.number + 1)) }
        ensures text { self.new.text ≡ self.old.text }
    {
        let place = self.next;
        if place.start as usize >= self.text.len() {
            return None;
        }
        let (line, end) = line_from(self.text, place.start as usize);
        self.next = LineStart {
            start: end as u32,
            number: place.number + 1,
        };
        Some((place, line))
    }
}

/// The line that begins at a place in a text, without its end, and where the next one begins.
pub fn line_from(text: &[u8], start: usize) -> (&[u8], usize)
    requires { start < length text.now }
    ensures line { lines (drop start text.now) ≡ result.0.now ∷ lines (drop result.1 text.now) }
    ensures behind { start < result.1 }
    ensures within { result.1 ≤ length text.now }
{
    let rest = &text[start..];
    match line_end(rest) {
        Some(end) => (without_return(&rest[..end]), start + end + 1),
        None => (rest, text.len()),
    }
}

/// Where the first line ends.
fn line_end(text: &[u8]) -> Option<usize>
    ensures value { result ≡ position (λ byte. byte == 10) text.now }
    ensures within { IfSome result (λ end. end < length text.now) }
{
    text.iter().position(|byte| *byte == b'\n')
}

/// The line without a CR at its end.
fn without_return(line: &[u8]) -> &[u8]
    ensures { result.now ≡ strip_carriage_return line.now }
{
    match line {
        [front @ .., b'\r'] => front,
        _ => line,
    }
}

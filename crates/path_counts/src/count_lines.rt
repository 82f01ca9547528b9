//! The lines of counts.
ghost use Rattle.std.specs.Prelude.{◌≡◌, ◌+◌, ◌++◌, ◌<◌, ◌≤◌, ◌∷◌, [], All, IfOk, IsFalse, IsTrue, get_or, length, map, take};
ghost use Rattle.path_text.specs.Lines.{AddsAtMost, HasRoom, hex};
ghost use Rattle.path_text.specs.Writing.{Writes};
ghost use Rattle.program_image.specs.Places.{word_addresses, word_count};
ghost use Rattle.path_counts.specs.Counts.{mark_count};
ghost use Rattle.path_counts.specs.CountLines.{from_entries, mark_key, marks_text, more_line, number_line, to_key, to_line, to_lines};
ghost use Rattle.path_counts.specs.CountLines.{word_lines, words_text};
ghost use Rattle.path_counts.specs.Targets.{Rises, pair_of};

use crate::numbers::Numbers;
use crate::targets::{Target, Targets};
use path_text::{Line, add_exception_name};
use program_image::Image;
use trace_io::{Failed, Sink};

/// Writes the lines of words, that of the pairs that are not kept, and those of marks.
pub fn write_counts<K: Sink>(
    image: &Image,
    visits: &Numbers,
    taken: &Numbers,
    targets: &Targets,
    marks: &Numbers,
    sink: &mut K,
) -> Result<(), Failed>
    requires visits { length visits.now ≡ word_count image.now }
    requires taken { length taken.now ≡ word_count image.now }
    requires marks { length marks.now ≡ mark_count }
    ensures { Writes (K.state sink.old) (K.state sink.new) result (words_text (word_addresses image.now) visits.now taken.now targets.now.entries
        ++ (more_line targets.now.more ++ marks_text 0 marks.now)) }
{
    write_words(image, visits, taken, targets.entries(), sink)?;
    write_more(targets.more(), sink)?;
    write_marks(marks, sink)
}

/// Writes the lines of words, by their addresses: one pass over the words, and one over the entries.
fn write_words<K: Sink>(
    image: &Image,
    visits: &Numbers,
    taken: &Numbers,
    entries: &[Target],
    sink: &mut K,
) -> Result<(), Failed>
    requires visits { length visits.now ≡ word_count image.now }
    requires taken { length taken.now ≡ word_count image.now }
    requires order { Rises (map pair_of entries.now) }
    ensures { Writes (K.state sink.old) (K.state sink.new) result
        (words_text (word_addresses image.now) visits.now taken.now entries.now) }
{
    let mut place = 0;
    let mut next = 0;
    while let Some(addr) = image.address_of(place) {
        next = write_word(addr, visits.at(place), taken.at(place), entries, next, sink)?;
        place += 1;
    }
    Ok(())
}

/// Writes the lines of a word. The entries before one are from lower addresses, and the answer is the one that follows those of the
/// word.
fn write_word<K: Sink>(
    addr: u64,
    visits: u64,
    taken: u64,
    entries: &[Target],
    next: usize,
    sink: &mut K,
) -> Result<usize, Failed>
    requires next { next ≤ length entries.now }
    requires before { All (λ e. e.from < addr) (take next entries.now) }
    requires order { Rises (map pair_of entries.now) }
    ensures text { Writes (K.state sink.old) (K.state sink.new) result (word_lines addr visits taken entries.now) }
    ensures within { IfOk result (λ n. n ≤ length entries.now) }
    ensures before { IfOk result (λ n. All (λ e. e.from ≤ addr) (take n entries.now)) }
{
    write_address(b"at ", addr, visits, sink)?;
    write_address(b"taken ", addr, taken, sink)?;
    write_targets(entries, next, addr, sink)
}

/// Writes the lines of the entries that are from an address.
fn write_targets<K: Sink>(
    entries: &[Target],
    next: usize,
    addr: u64,
    sink: &mut K,
) -> Result<usize, Failed>
    requires next { next ≤ length entries.now }
    requires before { All (λ e. e.from < addr) (take next entries.now) }
    requires order { Rises (map pair_of entries.now) }
    ensures text { Writes (K.state sink.old) (K.state sink.new) result (to_lines (from_entries addr entries.now)) }
    ensures within { IfOk result (λ n. n ≤ length entries.now) }
    ensures before { IfOk result (λ n. All (λ e. e.from ≤ addr) (take n entries.now)) }
{
    let mut at = next;
    while is_upto(entries, at, addr) {
        write_if_from(&entries[at], addr, sink)?;
        at += 1;
    }
    Ok(at)
}

/// Whether the entry at a place is from an address or a lower one.
#[inline(always)]
fn is_upto(entries: &[Target], place: usize, addr: u64) -> bool
    ensures there { IsTrue result → (place < length entries.now) × ((d : Target) → (get_or entries.now place d).from ≤ addr) }
    ensures past { IsFalse result → place < length entries.now → (d : Target) → addr < (get_or entries.now place d).from }
{
    match entries.get(place) {
        Some(e) => e.from <= addr,
        None => false,
    }
}

/// Writes the line of an entry, if it is from this address.
fn write_if_from<K: Sink>(entry: &Target, addr: u64, sink: &mut K) -> Result<(), Failed>
    ensures { Writes (K.state sink.old) (K.state sink.new) result (to_lines (from_entries addr (entry.now ∷ []))) }
{
    if entry.from != addr {
        return Ok(());
    }
    write_target(entry, sink)
}

/// Writes the line of an entry, unless its number is 0.
fn write_target<K: Sink>(entry: &Target, sink: &mut K) -> Result<(), Failed>
    ensures { Writes (K.state sink.old) (K.state sink.new) result (to_line entry.now) }
{
    if entry.times == 0 {
        return Ok(());
    }
    let mut line = Line::new();
    add_to_key(&mut line, entry.from, entry.to);
    write_number(&mut line, entry.times, sink)
}

/// Adds what the line of an entry begins with.
fn add_to_key(line: &mut Line, from: u64, to: u64)
    requires { line.old ≡ [] }
    ensures value { line.new ≡ to_key from to }
    ensures short { AddsAtMost 36 line.old line.new }
{
    line.text(b"to ");
    line.hex(from);
    line.text(b" ");
    line.hex(to);
}

/// Writes the line of the pairs that are not kept, unless their number is 0.
fn write_more<K: Sink>(n: u64, sink: &mut K) -> Result<(), Failed>
    ensures { Writes (K.state sink.old) (K.state sink.new) result (more_line n) }
{
    if n == 0 {
        return Ok(());
    }
    let mut line = Line::new();
    line.text(b"to more");
    write_number(&mut line, n, sink)
}

/// Writes the line of an address, unless its number is 0.
fn write_address<K: Sink>(name: &[u8], addr: u64, n: u64, sink: &mut K) -> Result<(), Failed>
    requires { length name.now ≤ 6 }
    ensures { Writes (K.state sink.old) (K.state sink.new) result (number_line (name.now ++ hex addr) n) }
{
    if n == 0 {
        return Ok(());
    }
    let mut line = Line::new();
    line.text(name);
    line.hex(addr);
    write_number(&mut line, n, sink)
}

/// Writes the lines of marks, by their numbers.
fn write_marks<K: Sink>(marks: &Numbers, sink: &mut K) -> Result<(), Failed>
    requires { length marks.now ≡ mark_count }
    ensures { Writes (K.state sink.old) (K.state sink.new) result (marks_text 0 marks.now) }
{
    let mut number = 0;
    while number < marks.len() {
        write_mark(number, marks.at(number), sink)?;
        number += 1;
    }
    Ok(())
}

/// Writes the line of a mark, unless its number is 0.
fn write_mark<K: Sink>(number: usize, n: u64, sink: &mut K) -> Result<(), Failed>
    requires { number < mark_count }
    ensures { Writes (K.state sink.old) (K.state sink.new) result (number_line (mark_key number) n) }
{
    if n == 0 {
        return Ok(());
    }
    let mut line = Line::new();
    add_mark(&mut line, number);
    write_number(&mut line, n, sink)
}

/// Adds what the line of a mark begins with.
fn add_mark(line: &mut Line, number: usize)
    requires number { number < mark_count }
    requires room { HasRoom 16 line.old }
    ensures value { line.new ≡ line.old ++ mark_key number }
    ensures short { AddsAtMost 16 line.old line.new }
{
    if number == 0 {
        line.text(b"on");
    } else if number == 1 {
        line.text(b"?");
    } else if number == 2 {
        line.text(b"gap");
    } else if number == 3 {
        line.text(b"stop");
    } else {
        line.text(b"exc ");
        add_exception_name(line, (number - 4) as u8);
    }
}

/// Ends a line with a number that is not 0, and writes it.
fn write_number<K: Sink>(line: &mut Line, n: u64, sink: &mut K) -> Result<(), Failed>
    requires room { HasRoom 22 line.old }
    requires some { 0 < n }
    ensures { Writes (K.state sink.old) (K.state sink.new) result (number_line line.old n) }
{
    line.text(b" ");
    line.decimal(n);
    line.write(sink)
}

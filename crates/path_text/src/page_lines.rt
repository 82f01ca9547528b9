//! The lines of the instructions of a page of 64 KiB, put by stores alone.
//!
//! Their addresses differ in no digit but the last four. All that stands before these, the head, is put as it is, by one store of 16 bytes; the
//! fourth digit from behind is the same within 4 KiB; and the last three come with LF from a table. So a line costs three stores, whatever its
//! length.
ghost use Rattle.std.specs.Prelude.{◌≡◌, ◌∷◌, ◌++◌, ◌+◌, ◌*◌, ◌/◌, ◌%◌, ◌<◌, ◌≤◌, ℕ, length, take, drop};
ghost use Rattle.path_text.specs.Lines.{line_start};
ghost use Rattle.path_text.specs.PageLines.{HoldsEnds, line_end, line_head, upper_digits};
ghost use Rattle.path_text.specs.PathLines.{instruction_lines};

use crate::digits::{digit, hex_count, put_hex};
use etm_types::Id;

/// How many instructions have the same digits but for the last three.
pub(crate) const PLACES: u64 = 1024;

/// The first address of the page of an instruction; of another address one that no page has.
#[inline(always)]
pub(crate) fn page_of(address: u64) -> u64
    ensures { result ≡ address / 65536 * 65536 + address % 4 }
{
    address / 65536 * 65536 + address % 4
}

/// The line of an ID up to its digits, and what does not count.
pub(crate) fn head_of(id: Id) -> [u8; 16]
    ensures { take 3 result ≡ line_start id }
{
    let number = id.get();
    let mut head = [0; 16];
    head[0] = digit(number / 16);
    head[1] = digit(number % 16);
    head[2] = b' ';
    head
}

/// Moves a head to the page of an address, and says how many bytes of it count.
pub(crate) fn move_head(head: &mut [u8; 16], address: u64) -> usize
    ensures start { take 3 head.new ≡ take 3 head.old }
    ensures whole { take result head.new ≡ take 3 head.old ++ upper_digits address }
    ensures few { result ≤ 15 }
{
    let upper = address / 65536;
    if upper == 0 {
        return 3;
    }
    let end = 3 + hex_count(upper);
    put_hex(upper, head, end);
    end
}

/// The table of the last three digits of 1,024 instructions, and LF.
pub(crate) fn table_of_ends() -> [u8; 4096]
    ensures { HoldsEnds result 1024 }
{
    let mut ends = [0; 4096];
    fill_ends(&mut ends);
    ends
}

/// Fills it.
fn fill_ends(ends: &mut [u8])
    requires { length ends.old ≡ 4096 }
    ensures { HoldsEnds ends.new 1024 }
{
    for place in 0..1024 {
        put_end(ends, place);
    }
}

/// Puts one end to its place.
fn put_end(ends: &mut [u8], place: usize)
    requires few { place < 1024 }
    requires within { 4 * place + 4 ≤ length ends.old }
    ensures { ends.new ≡ take (4 * place) ends.old ++ (line_end place ++ drop (4 * place + 4) ends.old) }
{
    let at = 4 * place;
    ends[at] = digit((place / 64) as u8);
    ends[at + 1] = digit((place / 4 % 16) as u8);
    ends[at + 2] = digit((place % 4 * 4) as u8);
    ends[at + 3] = b'\n';
}

/// The end of the instruction of a place.
#[inline(always)]
fn end_of(ends: &[u8; 4096], place: usize) -> [u8; 4]
    requires few { place < 1024 }
    requires ends { HoldsEnds ends.now 1024 }
    ensures { result ≡ line_end place }
{
    let at = 4 * place;
    [ends[at], ends[at + 1], ends[at + 2], ends[at + 3]]
}

/// Puts four bytes at a place.
#[inline(always)]
fn put_four(block: &mut [u8], at: usize, bytes: [u8; 4])
    requires { at + 4 ≤ length block.old }
    ensures { take (at + 4) block.new ≡ take at block.old ++ bytes }
{
    let [a, b, c, d] = bytes;
    block[at] = a;
    block[at + 1] = b;
    block[at + 2] = c;
    block[at + 3] = d;
}

/// Puts a head at a place.
///
/// The compiler makes one store of the sixteen bytes. Of `copy_from_slice` it makes a test first, whether they are bytes of the block.
#[inline(always)]
fn put_head(block: &mut [u8], at: usize, head: &[u8; 16])
    requires { at + 16 ≤ length block.old }
    ensures { take (at + 16) block.new ≡ take at block.old ++ head.now }
{
    let [a, b, c, d, e, f, g, h, i, j, k, l, m, n, o, p] = *head;
    put_four(block, at, [a, b, c, d]);
    put_four(block, at + 4, [e, f, g, h]);
    put_four(block, at + 8, [i, j, k, l]);
    put_four(block, at + 12, [m, n, o, p]);
}

/// Puts the last four digits of a line and LF.
#[inline(always)]
fn put_last(block: &mut [u8], at: usize, fourth: u8, end: [u8; 4])
    requires { at + 5 ≤ length block.old }
    ensures { take (at + 5) block.new ≡ take at block.old ++ (fourth ∷ end) }
{
    block[at] = fourth;
    put_four(block, at + 1, end);
}

/// Puts a line at a place. So many bytes of its head count.
#[inline(always)]
fn put_line(block: &mut [u8], at: usize, head: &[u8; 16], len: usize, fourth: u8, end: [u8; 4])
    requires len { len ≤ 15 }
    requires within { at + 20 ≤ length block.old }
    ensures { take (at + len + 5) block.new ≡ take at block.old ++ (take len head.now ++ (fourth ∷ end)) }
{
    put_head(block, at, head);
    put_last(block, at + len, fourth, end);
}

/// Puts the lines of so many instructions of 4 KiB from a place on, and says where they end.
#[inline(always)]
pub(crate) fn put_lines(
    block: &mut [u8],
    at: usize,
    head: &[u8; 16],
    len: usize,
    ends: &[u8; 4096],
    start: u64,
    count: u64,
) -> usize
    requires len { len ≤ 15 }
    requires ends { HoldsEnds ends.now 1024 }
    requires start { (4096 ≤ start) × (start % 4 ≡ 0) }
    requires near { start % 4096 + 4 * count ≤ 4096 }
    requires within { at + 20 * count ≤ length block.old }
    ensures lines { (id : ℕ) → take len head.now ≡ line_head id start
        → take result block.new ≡ take at block.old ++ instruction_lines id start count }
    ensures short { result ≤ at + 20 * count }
{
    let first = start / 4 % PLACES;
    let fourth = digit((start / 4096 % 16) as u8);
    let head = *head;
    let mut end = at;
    for place in first..first + count {
        put_line(block, end, &head, len, fourth, end_of(ends, place as usize));
        end += len + 5;
    }
    end
}

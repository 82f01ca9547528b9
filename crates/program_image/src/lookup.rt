//! The word at an address, among parts that stand by their addresses.
ghost use Rattle.std.specs.Prelude.{◌≡◌, ◌≤◌, ◌<◌, ◌+◌, length, nat_le, true, false, get_or, MatchOption, IfSome, IsTrue};
ghost use Rattle.std.specs.List.Sorted.{IsPartitionPoint, IsPartitionedBy};
ghost use Rattle.program_image.specs.Part.{IsImage, Part, word_in, word_of};
ghost use Rattle.program_image.specs.Blocks.{class_at};

use crate::part::Part;
use a64_branches::{Class, class_of};

/// How many parts begin at an address or before it, of parts that stand by their addresses.
fn begun_at(parts: &[Part], addr: u64) -> usize
    requires { IsPartitionedBy (λ part. nat_le part.start addr) parts.now }
    ensures value { IsPartitionPoint (λ part. nat_le part.start addr ≡ true) (λ part. nat_le part.start addr ≡ false) parts.now result }
    ensures within { result ≤ length parts.now }
{
    parts.partition_point(|part| part.start() <= addr)
}

/// Whether the part at a place is the last one that begins at an address or before it.
#[inline(always)]
fn is_last_begun(parts: &[Part], place: usize, addr: u64) -> bool
    ensures begun { IsTrue result → (place < length parts.now) × ((d : Part) → (get_or parts.now place d).start ≤ addr) }
    ensures next { IsTrue result → place + 1 < length parts.now → (d : Part) → addr < (get_or parts.now (place + 1) d).start }
{
    if place >= parts.len() {
        return false;
    }
    if addr < parts[place].start() {
        return false;
    }
    match parts.get(place + 1) {
        Some(next) => addr < next.start(),
        None => true,
    }
}

/// How many parts begin at an address or before it, where the part at the place `near` is looked at first: mostly it is the last of them, and
/// then no search is waited for.
#[inline(always)]
fn begun_near(parts: &[Part], near: usize, addr: u64) -> usize
    requires { IsPartitionedBy (λ part. nat_le part.start addr) parts.now }
    ensures value { IsPartitionPoint (λ part. nat_le part.start addr ≡ true) (λ part. nat_le part.start addr ≡ false) parts.now result }
    ensures within { result ≤ length parts.now }
{
    if is_last_begun(parts, near, addr) {
        return near + 1;
    }
    begun_at(parts, addr)
}

/// Which part the word at an address can be of, where the part at the place `near` is looked at first.
#[inline(always)]
pub fn part_near(parts: &[Part], near: usize, addr: u64) -> Option<usize>
    requires { IsImage parts.now }
    ensures word { MatchOption result (word_of parts.now addr ≡ None)
        (λ place. (part : Part) → word_of parts.now addr ≡ word_in (get_or parts.now place part) addr) }
    ensures begun { IfSome result (λ place. (part : Part) → (get_or parts.now place part).start ≤ addr) }
    ensures within { IfSome result (λ place. place < length parts.now) }
{
    begun_near(parts, near, addr).checked_sub(1)
}

/// Which part the word at an address can be of: the last one that begins there or before it.
#[inline(always)]
pub fn part_at(parts: &[Part], addr: u64) -> Option<usize>
    requires { IsImage parts.now }
    ensures word { MatchOption result (word_of parts.now addr ≡ None)
        (λ place. (part : Part) → word_of parts.now addr ≡ word_in (get_or parts.now place part) addr) }
    ensures begun { IfSome result (λ place. (part : Part) → (get_or parts.now place part).start ≤ addr) }
    ensures within { IfSome result (λ place. place < length parts.now) }
{
    begun_at(parts, addr).checked_sub(1)
}

/// The instruction word at an address: none where no word begins there.
pub fn word_at(parts: &[Part], addr: u64) -> Option<u32>
    requires { IsImage parts.now }
    ensures { result ≡ word_of parts.now addr }
{
    parts[part_at(parts, addr)?].word_at(addr)
}

/// The class of the word at an address, where one begins there.
pub fn class_at(parts: &[Part], addr: u64) -> Option<Class>
    requires { IsImage parts.now }
    ensures { result ≡ class_at parts.now addr }
{
    word_at(parts, addr).map(|word| class_of(word))
}

//! `SpendRing`, a list over the cells of one block. A clause sees a ring as its `items`, the oldest first, and its `capacity`.
//!
//! The items lie side by side from the place `start` on, and go on at place 0 where they reach the end of the block.
ghost use Rattle.std.specs.Prelude.{◌≡◌, ◌+◌, ◌-◌, ◌^◌, ◌<◌, ◌≤◌, [], ◌∷◌, ◌++◌, ◌↔◌, length, take, drop};
ghost use Rattle.std.specs.Prelude.{slice_get, option_copied, option_to_list, IfOk, IsSome};
ghost use Rattle.std.specs.Option.{option_copied_mut};
ghost use Rattle.std.specs.Borrow.{sem};
ghost use Rattle.spend_ring.specs.Cells.{IsPlace};
ghost use Rattle.spend_ring.specs.Ring.{ring, newest};

use crate::cells::{Cells, First, Lease};
use std::alloc::{AllocError, Global};
use std::marker::Model;
use std_alloc::room::may_hold;

/// The place that lies `offset` after `start`, round the end of the `places`.
#[inline(always)]
fn place_after(start: usize, offset: usize, places: usize) -> usize
    requires { (start < places) × (offset ≤ places) × (places < 2 ^ 63) }
    ensures { IsPlace start offset places result }
{
    let sum = start + offset;
    if sum < places { sum } else { sum - places }
}

/// A list of at most `capacity` values. It has no drop: `close` ends it, once it is empty.
pub struct SpendRing<T> {
    first: First<T>,
    capacity: usize,
    /// The place of the oldest value.
    start: usize,
    /// The number of values.
    count: usize,
    cells: Cells<T>,
    lease: Lease<T, Global>,
    alloc: Global,
}

impl<T> Model for SpendRing<T> {
    ghost use Rattle.spend_ring.specs.Block.{IsBlock};
    ghost use Rattle.spend_ring.specs.Cells.{items_from, IsLaid};
    ghost use Rattle.spend_ring.specs.Ring.{Ring, ring, ring_code};

    ghost Value = { Ring T };

    ghost coded = { ring_code T.code };

    ghost view = { λ r. ring (items_from r.start r.cells.held) r.capacity };

    ghost invariant = { λ r. IsBlock r.first r.cells r.lease r.capacity r.alloc × IsLaid r.start r.count r.capacity r.cells.held };
}

impl<T> SpendRing<T> {
    ghost use Rattle.spend_ring.specs.RingLends.{lends_item};

    /// Makes an empty ring that holds at most `capacity` values. The error means want of memory.
    pub fn with_capacity(alloc: Global, capacity: usize) -> Result<SpendRing<T>, AllocError>
        ensures empty { IfOk result (λ r. r.items ≡ []) }
        ensures capacity { IfOk result (λ r. r.capacity ≡ capacity) }
    {
        if !may_hold::<T>(capacity) {
            return Err(AllocError);
        }
        let (first, cells, lease) = Lease::reserve(&alloc, capacity)?;
        Ok(SpendRing {
            first,
            capacity,
            start: 0,
            count: 0,
            cells,
            lease,
            alloc,
        })
    }

    /// The number of values.
    #[inline(always)]
    pub fn len(&self) -> usize
        ensures len { result ≡ length self.now.items }
        ensures bounded { result ≤ self.now.capacity }
        ensures small { result < 2 ^ 63 }
    {
        self.count
    }

    /// The most values that the ring can hold.
    pub fn capacity(&self) -> usize
        ensures capacity { result ≡ self.now.capacity }
        ensures bounded { length self.now.items ≤ result }
        ensures small { result < 2 ^ 63 }
    {
        self.capacity
    }

    /// Appends a value. A full ring first hands out its oldest, and a ring of capacity 0 hands the value back.
    #[inline(always)]
    pub fn push_back(&mut self, item: T) -> Option<T>
        ensures order { option_to_list result ++ self.new.items ≡ self.old.items ++ item ∷ [] }
        ensures full { IsSome result ↔ (length self.old.items ≡ self.old.capacity) }
        ensures newest { self.new.items ≡ newest self.old.capacity (self.old.items ++ item ∷ []) }
        ensures bounded { length self.new.items ≤ self.new.capacity }
        ensures capacity { self.new.capacity ≡ self.old.capacity }
    {
        if self.count < self.capacity {
            self.append(item);
            return None;
        }
        match self.pop_front() {
            Some(oldest) => {
                self.append(item);
                Some(oldest)
            }
            // A full ring that holds nothing has no room for anything.
            None => Some(item),
        }
    }

    #[inline(always)]
    fn append(&mut self, item: T)
        requires room { length self.old.items < self.old.capacity }
        ensures { self.new ≡ ring (self.old.items ++ item ∷ []) self.old.capacity }
    {
        let place = place_after(self.start, self.count, self.capacity);
        self.cells.put(self.first, place, item);
        self.count += 1;
    }

    /// Takes the oldest value out.
    #[inline(always)]
    pub fn pop_front(&mut self) -> Option<T>
        ensures order { self.old.items ≡ option_to_list result ++ self.new.items }
        ensures empty { IsSome result ↔ (0 < length self.old.items) }
        ensures rest { self.new.items ≡ drop 1 self.old.items }
        ensures bounded { length self.new.items ≤ self.new.capacity }
        ensures capacity { self.new.capacity ≡ self.old.capacity }
    {
        if self.count == 0 {
            return None;
        }
        let oldest = self.start;
        self.start = place_after(oldest, 1, self.capacity);
        self.count -= 1;
        Some(self.cells.take(self.first, oldest))
    }

    /// Takes the newest value out.
    pub fn pop_back(&mut self) -> Option<T>
        ensures order { self.old.items ≡ self.new.items ++ option_to_list result }
        ensures empty { IsSome result ↔ (0 < length self.old.items) }
        ensures rest { self.new.items ≡ take (length self.old.items - 1) self.old.items }
        ensures bounded { length self.new.items ≤ self.new.capacity }
        ensures capacity { self.new.capacity ≡ self.old.capacity }
    {
        if self.count == 0 {
            return None;
        }
        let last = self.count - 1;
        let place = place_after(self.start, last, self.capacity);
        self.count = last;
        Some(self.cells.take(self.first, place))
    }

    /// Shows the value at `index`, counted from the oldest.
    #[inline(always)]
    pub fn get(&self, index: usize) -> Option<&T>
        ensures value { option_copied result ≡ slice_get self.now.items index }
        ensures in_range { IsSome result ↔ (index < length self.now.items) }
    {
        if self.count <= index {
            return None;
        }
        let place = place_after(self.start, index, self.capacity);
        Some(self.cells.get(self.first, place))
    }

    /// Lends the value at `index`, counted from the oldest, to be written.
    pub fn get_mut(&mut self, index: usize) -> Option<&mut T>
        ensures* writes_back { sem 𝓛 (lends_item T.row self.entry index result) }
        ensures value { option_copied_mut result ≡ slice_get self.old.items index }
        ensures in_range { IsSome result ↔ (index < length self.old.items) }
    {
        if self.count <= index {
            return None;
        }
        let place = place_after(self.start, index, self.capacity);
        Some(self.cells.get_mut(self.first, place))
    }

    /// Ends an empty ring, and gives its memory back.
    pub fn close(self)
        requires empty { self.items ≡ [] }
    {
        let SpendRing {
            first,
            capacity,
            start: _,
            count: _,
            cells,
            lease,
            alloc,
        } = self;
        lease.give_back(&alloc, first, capacity, cells);
    }
}

//! A bounded stack of addresses, over a buffer whose front is the newest.
ghost use Rattle.std.specs.Prelude.{◌≡◌, ◌≤◌, ◌↔◌, ◌++◌, [], length, slice_get, option_to_list, IfOk, IsNone};

use crate::saved::SavedStack;
use circular_buffer::HeapCircularBuffer;
use std::alloc::{AllocError, Global};
use std::marker::Model;

/// The most return addresses that a stack keeps.
pub const MOST_ADDRESSES: usize = 15;

/// At most `depth` return addresses. Contracts see it as the list of its `addresses`, the newest
/// first, and its `depth`.
#[derive(Drop, Debug)]
pub struct ReturnStack {
    addresses: HeapCircularBuffer<u64>,
}

impl Model for ReturnStack {
    ghost use Rattle.return_stack.specs.Stack.{Stack, stack, stack_code, IsStack};

    ghost Value = { Stack };

    ghost coded = { stack_code };

    ghost view = { λ s. stack s.addresses.items s.addresses.capacity };

    ghost invariant = { λ s. IsStack (stack s.addresses.items s.addresses.capacity) };
}

impl ReturnStack {
    ghost use Rattle.return_stack.specs.Stack.{IsStack, most_addresses, pushed};

    /// An empty stack of a depth up to [`MOST_ADDRESSES`]. This is the one call that takes memory, and
    /// the error means want of it.
    pub fn new(alloc: Global, depth: usize) -> Result<ReturnStack, AllocError>
        requires { depth ≤ most_addresses }
        ensures empty { IfOk result (λ stack. stack.addresses ≡ []) }
        ensures depth { IfOk result (λ stack. stack.depth ≡ depth) }
        ensures within { IfOk result IsStack }
    {
        let addresses = HeapCircularBuffer::with_capacity(alloc, depth)?;
        Ok(ReturnStack { addresses })
    }

    /// Puts an address first. The oldest falls out of a full stack, and one of depth 0 keeps nothing.
    pub fn push(&mut self, addr: u64)
        ensures addresses { self.new.addresses ≡ pushed self.old.depth addr self.old.addresses }
        ensures depth { self.new.depth ≡ self.old.depth }
        ensures within { IsStack self.new }
    {
        self.addresses.push_front(addr);
    }

    /// Takes the newest address off.
    pub fn pop(&mut self) -> Option<u64>
        ensures empty { IsNone result ↔ (self.old.addresses ≡ []) }
        ensures order { self.old.addresses ≡ option_to_list result ++ self.new.addresses }
        ensures depth { self.new.depth ≡ self.old.depth }
        ensures within { IsStack self.new }
    {
        self.addresses.pop_front()
    }

    /// The newest address, which stays.
    pub fn top(&self) -> Option<u64>
        ensures empty { IsNone result ↔ (self.now.addresses ≡ []) }
        ensures newest { result ≡ slice_get self.now.addresses 0 }
        ensures within { IsStack self.now }
    {
        self.addresses.front().copied()
    }

    /// Drops every address.
    pub fn clear(&mut self)
        ensures empty { self.new.addresses ≡ [] }
        ensures depth { self.new.depth ≡ self.old.depth }
        ensures within { IsStack self.new }
    {
        self.addresses.clear();
    }

    /// The addresses as they are now.
    pub fn save(&self) -> SavedStack
        ensures addresses { result ≡ self.now.addresses }
        ensures few { length result ≤ self.now.depth }
        ensures within { IsStack self.now }
    {
        let (newer, older) = self.addresses.as_slices();
        SavedStack::joined(newer, older)
    }

    /// Takes saved addresses, no more than the depth, in place of its own.
    pub fn restore(&mut self, saved: &SavedStack)
        requires { length saved.now ≤ self.old.depth }
        ensures addresses { self.new.addresses ≡ saved.now }
        ensures depth { self.new.depth ≡ self.old.depth }
        ensures within { IsStack self.new }
    {
        self.clear();
        self.addresses.extend_from_slice(saved.as_slice());
    }
}

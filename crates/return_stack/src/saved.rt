//! The addresses of a stack as they were at one time, in a copy that takes no memory.
ghost use Rattle.std.specs.Prelude.{◌≡◌, ◌≤◌, ◌<◌, ◌+◌, ◌^◌, ◌++◌, [], All, length};
ghost use Rattle.return_stack.specs.Stack.{most_addresses};

use crate::stack::MOST_ADDRESSES;
use std::marker::Model;

/// The return addresses of a stack as they were at one time, the newest first. Contracts see it as
/// their list.
#[derive(Clone, Copy, Debug, PartialEq, Eq)]
pub struct SavedStack {
    addresses: [u64; MOST_ADDRESSES],
    count: usize,
}

impl Model for SavedStack {
    ghost use Rattle.std.specs.Prelude.{ℕ, List, length, take};
    ghost use Rattle.return_stack.specs.Saved.{Keeps, places};

    ghost Value = { List ℕ };

    ghost view = { λ s. take s.count s.addresses };

    ghost invariant = { λ s. Keeps s.addresses s.count (take s.count s.addresses) };

    ghost inverse = { λ list. record { addresses = places list; count = length list } };

    ghost inverse_ok = { λ s is i. record { addresses = is.placed i; count = is.counted i } };
}

impl SavedStack {
    /// What a stack without addresses saves.
    pub fn empty() -> SavedStack
        ensures addresses { result ≡ [] }
        ensures within { length result ≤ most_addresses }
    {
        SavedStack {
            addresses: [0; MOST_ADDRESSES],
            count: 0,
        }
    }

    /// The addresses of two slices, one after the other.
    pub(crate) fn joined(newer: &[u64], older: &[u64]) -> SavedStack
        requires { length newer.now + length older.now ≤ most_addresses }
        ensures { result ≡ newer.now ++ older.now }
    {
        let mut addresses = [0; MOST_ADDRESSES];
        let count = newer.len() + older.len();
        addresses[..newer.len()].copy_from_slice(newer);
        addresses[newer.len()..count].copy_from_slice(older);
        SavedStack { addresses, count }
    }

    /// The addresses in a slice.
    pub(crate) fn as_slice(&self) -> &[u64]
        ensures value { result.now ≡ self.now }
        ensures within { All (λ a. a < 2 ^ 64) result.now }
    {
        &self.addresses[..self.count]
    }
}

//! The few bytes of frames that one byte of a trace port gives.
ghost use Rattle.std.specs.Prelude.{◌≡◌, ◌≤◌, length, slice_get};

use std::marker::Model;

/// The most bytes that one byte gives: three that were held back, and itself.
const MOST: usize = 4;

/// At most four bytes. Contracts see their list.
#[derive(Drop)]
pub struct Few {
    bytes: [u8; MOST],
    count: usize,
}

impl Model for Few {
    ghost use Rattle.std.specs.Prelude.{◌≡◌, ◌≤◌, ℕ, List, length, take};

    ghost Value = { List ℕ };

    ghost view = { λ f. take f.count f.bytes };

    ghost invariant = { λ f. (f.count ≤ 4) × (length f.bytes ≡ 4) };
}

impl Few {
    /// These bytes.
    pub(crate) fn of(bytes: &[u8]) -> Few
        requires { length bytes.now ≤ 4 }
        ensures { result ≡ bytes.now }
    {
        let mut all = [0; MOST];
        all[..bytes.len()].copy_from_slice(bytes);
        Few {
            bytes: all,
            count: bytes.len(),
        }
    }

    /// How many there are, at most four.
    pub fn len(&self) -> usize
        ensures count { result ≡ length self.now }
        ensures most { result ≤ 4 }
    {
        self.count
    }

    /// The byte at `i`, counted from 0. Nothing where there are no more.
    pub fn get(&self, i: usize) -> Option<u8>
        ensures { result ≡ slice_get self.now i }
    {
        if i < self.count {
            Some(self.bytes[i])
        } else {
            None
        }
    }

    /// All of them.
    pub fn as_slice(&self) -> &[u8]
        ensures { result.now ≡ self.now }
    {
        &self.bytes[..self.count]
    }
}

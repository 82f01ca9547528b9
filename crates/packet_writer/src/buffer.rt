//! The bytes of a packet, as they are put one after the other.
ghost use Rattle.std.specs.Prelude.{◌≡◌, ◌+◌, ◌<◌, ◌≤◌, ◌∷◌, ◌++◌, [], length, take};

use std::marker::Model;

/// How many bytes there is room for; no packet has more.
pub const PACKET_ROOM: usize = 24;

/// Bytes that were put, of which contracts see the list.
#[derive(Drop)]
pub struct Buffer {
    bytes: [u8; PACKET_ROOM],
    count: usize,
}

impl Model for Buffer {
    ghost use Rattle.std.specs.Prelude.{ℕ, ◌≤◌, List, take};

    ghost Value = { List ℕ };

    ghost view = { λ b. take b.count b.bytes };

    ghost invariant = { λ b. b.count ≤ 24 };
}

impl Buffer {
    /// No bytes.
    pub fn new() -> Buffer
        ensures { result ≡ [] }
    {
        let bytes = [0; PACKET_ROOM];
        Buffer { bytes, count: 0 }
    }

    /// Puts a byte.
    pub fn put(&mut self, byte: u8)
        requires { length self.old < 24 }
        ensures { self.new ≡ self.old ++ byte ∷ [] }
    {
        self.bytes[self.count] = byte;
        self.count += 1;
    }

    /// Puts some bytes.
    pub fn put_all(&mut self, bytes: &[u8])
        requires { length self.old + length bytes.now ≤ 24 }
        ensures { self.new ≡ self.old ++ bytes.now }
    {
        for byte in bytes {
            self.put(*byte);
        }
    }

    /// Writes the bytes to the front of `out`, and tells how many they are.
    pub fn write(&self, out: &mut [u8; PACKET_ROOM]) -> usize
        ensures count { result ≡ length self.now }
        ensures bytes { take result out.new ≡ self.now }
    {
        *out = self.bytes;
        self.count
    }
}

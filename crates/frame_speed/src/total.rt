//! A count and a digest of what came, and the sink that adds up what is written to it.
ghost use Rattle.std.specs.Prelude.{◌≡◌, ◌+◌, ◌%◌, ◌^◌, length, true};
ghost use Rattle.frame_speed.specs.Sum.{digest_of_pairs, digest_with, nothing};
ghost use Rattle.trace_io.specs.Memory.{hidden_state};

use formatter_frames::FrameBytes;
use std::marker::Model;
use trace_io::{Failed, Sink};

/// How many data bytes came, or bytes of frames, and the digest of all that came. Contracts see both numbers.
#[derive(Drop)]
pub struct Total {
    count: u64,
    digest: u64,
}

impl Model for Total {
    ghost use Rattle.frame_speed.specs.Sum.{Sum};

    ghost Value = { Sum };

    ghost view = { λ total. record { count = total.count; digest = total.digest } };
}

impl Total {
    /// Nothing came yet.
    pub fn new() -> Self
        ensures { result ≡ nothing }
    {
        Total {
            count: 0,
            digest: 0,
        }
    }

    /// How many came.
    pub fn count(&self) -> u64
        ensures { result ≡ self.now.count }
    {
        self.count
    }

    /// Their digest.
    pub fn digest(&self) -> u64
        ensures { result ≡ self.now.digest }
    {
        self.digest
    }

    /// One byte more in the digest.
    fn add(&mut self, byte: u8)
        ensures { self.new ≡ record (self.old) { digest = digest_with self.old.digest byte } }
    {
        self.digest = self.digest.wrapping_mul(31).wrapping_add(u64::from(byte));
    }

    /// The data bytes of a frame, each behind its ID.
    pub fn add_pairs(&mut self, bytes: &FrameBytes)
        ensures { self.new ≡ record {
          count = (self.old.count + length bytes.now) % 2 ^ 64;
          digest = digest_of_pairs self.old.digest bytes.now;
        } }
    {
        for i in 0..bytes.len() {
            if let Some((id, byte)) = bytes.get(i) {
                self.add(id);
                self.add(byte);
            }
        }
        self.count = self.count.wrapping_add(bytes.len() as u64);
    }
}

impl Sink for Total {
    ghost state = { λ s. hidden_state 0 };

    ghost flushed = { λ s. true };

    fn write(&mut self, bytes: &[u8]) -> Result<usize, Failed> {
        for byte in bytes {
            self.add(*byte);
        }
        self.count = self.count.wrapping_add(bytes.len() as u64);
        Ok(bytes.len())
    }

    fn flush(&mut self) -> Result<(), Failed> {
        Ok(())
    }
}

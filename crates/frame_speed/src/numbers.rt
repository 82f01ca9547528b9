//! A fixed sequence of bytes that look random.
ghost use Rattle.std.specs.Prelude.{◌≡◌, ◌+◌, ◌%◌};
ghost use Rattle.frame_speed.specs.Numbers.{byte_of, next_number};

use etm_types::Id;
use formatter_frames::FRAME_BYTES;
use std::marker::Model;

/// A linear congruential sequence of 64 bits (Knuth's MMIX), of which the highest byte is given.
#[derive(Drop)]
pub struct Numbers {
    state: u64,
}

impl Model for Numbers {
    ghost use Rattle.std.specs.Prelude.{ℕ};

    ghost Value = { ℕ };

    ghost view = { λ numbers. numbers.state };
}

impl Numbers {
    /// The sequence, before its first byte.
    pub fn new() -> Self
        ensures { result ≡ 1 }
    {
        Numbers { state: 1 }
    }

    /// The next byte.
    pub fn byte(&mut self) -> u8
        ensures next { self.new ≡ next_number self.old }
        ensures highest { result ≡ byte_of self.new }
    {
        self.state = self
            .state
            .wrapping_mul(6_364_136_223_846_793_005)
            .wrapping_add(1_442_695_040_888_963_407);
        (self.state >> 56) as u8
    }

    /// The ID of a source, by the next byte.
    pub fn id(&mut self) -> Id
        ensures next { self.new ≡ next_number self.old }
        ensures value { result ≡ 1 + byte_of self.new % 111 }
    {
        Id::new(1 + self.byte() % 111).unwrap()
    }

    /// A frame of the next bytes.
    pub fn frame(&mut self) -> [u8; FRAME_BYTES] {
        let mut frame = [0; FRAME_BYTES];
        for place in 0..FRAME_BYTES {
            frame[place] = self.byte();
        }
        frame
    }
}

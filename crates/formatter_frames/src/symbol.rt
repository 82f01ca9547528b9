//! What the places of a frame carry.
ghost use Rattle.std.specs.Prelude.{◌≡◌, ◌<◌};

use std::marker::Model;

/// An ID as a frame carries it, in seven bits. Contracts see it as its number.
#[derive(Clone, Copy)]
pub struct FrameId(u8);

impl Model for FrameId {
    ghost use Rattle.std.specs.Prelude.{ℕ, ◌<◌};

    ghost Value = { ℕ };

    ghost view = { λ id. id.0 };

    ghost invariant = { λ id. id.0 < 128 };

    ghost inverse = { λ n. record { 0 = n } };
}

impl FrameId {
    /// The ID of this number, which has seven bits.
    pub fn new(n: u8) -> Self
        requires { n < 128 }
        ensures { result ≡ n }
    {
        FrameId(n)
    }

    /// The number of the ID.
    pub fn get(self) -> u8
        ensures value { result ≡ self }
        ensures within { result < 128 }
    {
        self.0
    }
}

/// What one place of a frame carries.
#[derive(Clone, Copy)]
pub enum Symbol {
    /// This ID holds from here on.
    NewId(FrameId),
    /// A byte of the ID that holds.
    Data(u8),
}

//! Trace source IDs (Arm CoreSight architecture, ATB trace IDs).
ghost use Rattle.std.specs.Prelude.{◌≡◌, ◌↔◌, ◌<◌, ◌≤◌, IsSome, IfSome};

use std::marker::Model;

/// The ID of a stream, 1 to 111 (hexadecimal 01 to 6f). Contracts see it as its number.
#[derive(Clone, Copy, Debug, PartialEq, Eq)]
pub struct Id(u8);

impl Model for Id {
    ghost use Rattle.std.specs.Prelude.{ℕ};
    ghost use Rattle.etm_types.specs.Id.{IsId};

    ghost Value = { ℕ };

    ghost view = { λ id. id.0 };

    ghost invariant = { λ id. IsId id.0 };

    ghost inverse = { λ n. record { 0 = n } };
}

impl Id {
    ghost use Rattle.etm_types.specs.Id.{IsId};

    /// The ID of this number, where it is one.
    pub fn new(n: u8) -> Option<Id>
        ensures some { IsSome result ↔ IsId n }
        ensures value { IfSome result (λ id. id ≡ n) }
    {
        if n == 0 || n > 111 {
            return None;
        }
        Some(Id(n))
    }

    /// The number of the ID.
    pub fn get(self) -> u8
        ensures value { result ≡ self }
        ensures within { IsId result }
    {
        self.0
    }
}

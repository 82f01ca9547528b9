//! What most atoms show.
ghost use Rattle.std.specs.Prelude.{◌≡◌};
ghost use Rattle.path_walker.specs.Walk.{walked_in};

use etm_types::{Ctx, Walked};

/// The instructions of an atom that shows nothing else. Their context is that of the walk.
#[derive(Clone, Copy, Debug, PartialEq, Eq)]
pub struct Stretch {
    /// The address of the first instruction.
    pub start: u64,
    /// The place of the first among all words of the image.
    pub place: usize,
    /// How many instructions there are, each 4 bytes after the one before, modulo 2^64.
    pub count: u64,
    /// Whether the last one is a conditional branch, and was taken.
    pub took: bool,
    /// Whether the last one is a branch to a register, a return among them.
    pub to_register: bool,
}

impl Stretch {
    /// The same, as what a walk shows in a context.
    #[inline(always)]
    pub fn in_context(self, ctx: Ctx) -> Walked
        ensures { result ≡ walked_in ctx self }
    {
        Walked {
            on: false,
            unknown: false,
            ctx,
            start: self.start,
            count: self.count,
            took: self.took,
            exc: None,
        }
    }
}

//! Blocks of an image: the plain words from an address on, up to the next word that is traced.
ghost use Rattle.std.specs.Prelude.{◌≡◌, ◌≢◌, Some};
ghost use Rattle.a64_branches.specs.declared.class.Class.TheVariants.{Plain};
ghost use Rattle.program_image.specs.Blocks.{EndsAs};
ghost use Rattle.program_image.specs.declared.block.BlockEnd.TheVariants.{NoCode};

use a64_branches::Class;

/// The plain words from an address on, and what stands after them.
#[derive(Clone, Copy, Debug, PartialEq, Eq)]
pub struct Block {
    /// How many plain words there are.
    pub plain: u64,
    pub end: BlockEnd,
}

/// What stands after plain words, with its address.
#[derive(Clone, Copy, Debug, PartialEq, Eq)]
pub enum BlockEnd {
    /// A branch, an ISB or an ERET.
    P0 { addr: u64, class: Class },
    /// No word begins here.
    NoCode(u64),
    /// A branch that is not read.
    Odd(u64),
}

/// The end of a block at an address, by the class of the word there.
#[inline(always)]
pub fn end_at(class: Option<Class>, addr: u64) -> BlockEnd
    requires not_plain { class ≢ Some Plain }
    ensures { EndsAs class addr result }
{
    match class {
        Some(Class::Odd) => BlockEnd::Odd(addr),
        Some(class) => BlockEnd::P0 { addr, class },
        None => BlockEnd::NoCode(addr),
    }
}

//! The class of an instruction word.
ghost use Rattle.std.specs.Prelude.{◌≡◌};
ghost use Rattle.a64_branches.specs.Classes.{HasWholeOffset, class_by, class_of, rows_as_tested};

use crate::encoding::{
    ANY_BRANCH_TO_REGISTER, BRANCH, BRANCH_CONDITIONALLY, BRANCH_CONSISTENT, BRANCH_TO_REGISTER,
    BRANCH_WITH_KEY, BRANCH_WITH_KEY_AND_MODIFIER, BRANCH_WITH_LINK, BRANCH_WITH_LINK_TO_REGISTER,
    BRANCH_WITH_LINK_WITH_KEY, BRANCH_WITH_LINK_WITH_KEY_AND_MODIFIER, BRANCHES_AND_SYSTEM,
    COMPARE_AND_BRANCH, EXCEPTION_RETURN, EXCEPTION_RETURN_WITH_KEY, RETURN, RETURN_WITH_KEY,
    SYNCHRONIZATION_BARRIER, TEST_BIT_AND_BRANCH,
};
use crate::offset::{imm14, imm19, imm26};

/// What an instruction is to a trace. Offsets are in bytes, from the address of the instruction.
#[derive(Clone, Copy, Debug, PartialEq, Eq)]
pub enum Class {
    /// An instruction that is not traced: the next word is executed after it.
    Plain,
    /// B, or BL where it links.
    Jump { off: i32, link: bool },
    /// B.cond, CBZ, CBNZ, TBZ or TBNZ.
    Cond { off: i32 },
    /// ISB.
    Isb,
    /// BR or RET, or BLR where it links; those of pointer authentication too.
    Ind { link: bool },
    /// ERET, ERETAA or ERETAB.
    Eret,
    /// A branch that is not read: BC.cond, DRPS, or one to a register that is not allocated.
    Odd,
}

/// The class of an instruction word: that of the first encoding which it has, or `Plain` without one.
#[inline(always)]
pub fn class_of(word: u32) -> Class
    ensures value { result ≡ class_of word }
    ensures whole { HasWholeOffset result }
{
    if BRANCHES_AND_SYSTEM.fits(word) {
        class_in_group(word)
    } else {
        Class::Plain
    }
}

/// The class of a word of that group: the encodings that are met most often are tested first.
#[inline(always)]
fn class_in_group(word: u32) -> Class
    ensures { result ≡ class_by rows_as_tested word }
{
    if BRANCH_CONDITIONALLY.fits(word) {
        Class::Cond { off: imm19(word) }
    } else if BRANCH_CONSISTENT.fits(word) {
        Class::Odd
    } else if BRANCH.fits(word) {
        Class::Jump {
            off: imm26(word),
            link: false,
        }
    } else if BRANCH_WITH_LINK.fits(word) {
        Class::Jump {
            off: imm26(word),
            link: true,
        }
    } else if COMPARE_AND_BRANCH.fits(word) {
        Class::Cond { off: imm19(word) }
    } else if TEST_BIT_AND_BRANCH.fits(word) {
        Class::Cond { off: imm14(word) }
    } else if SYNCHRONIZATION_BARRIER.fits(word) {
        Class::Isb
    } else if BRANCH_TO_REGISTER.fits(word) {
        Class::Ind { link: false }
    } else if BRANCH_WITH_LINK_TO_REGISTER.fits(word) {
        Class::Ind { link: true }
    } else if RETURN.fits(word) {
        Class::Ind { link: false }
    } else if EXCEPTION_RETURN.fits(word) {
        Class::Eret
    } else if BRANCH_WITH_KEY.fits(word) {
        Class::Ind { link: false }
    } else if BRANCH_WITH_LINK_WITH_KEY.fits(word) {
        Class::Ind { link: true }
    } else if RETURN_WITH_KEY.fits(word) {
        Class::Ind { link: false }
    } else if EXCEPTION_RETURN_WITH_KEY.fits(word) {
        Class::Eret
    } else if BRANCH_WITH_KEY_AND_MODIFIER.fits(word) {
        Class::Ind { link: false }
    } else if BRANCH_WITH_LINK_WITH_KEY_AND_MODIFIER.fits(word) {
        Class::Ind { link: true }
    } else if ANY_BRANCH_TO_REGISTER.fits(word) {
        Class::Odd
    } else {
        Class::Plain
    }
}

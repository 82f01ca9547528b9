//! What the walk of one P0 element shows.

use crate::Ctx;

/// The block of instructions of a P0 element, and the exception after it where there is one.
/// It stands for these items, in this order: trace on, where `on` is true; one unknown stretch, where
/// `unknown` is true, else the instructions; the exception, where there is one.
#[derive(Clone, Copy, Debug, PartialEq, Eq)]
pub struct Walked {
    /// Whether trace on is shown first.
    pub on: bool,
    /// Whether the instructions stand at addresses that are not known. `start` and `count` are 0 then,
    /// and `took` is false.
    pub unknown: bool,
    /// The context of the instructions.
    pub ctx: Ctx,
    /// The address of the first instruction.
    pub start: u64,
    /// How many instructions there are, each 4 bytes after the one before, modulo 2^64.
    pub count: u64,
    /// Whether the last instruction is a conditional branch, and was taken.
    pub took: bool,
    /// The exception that was taken after them, where one was.
    pub exc: Option<ExcMark>,
}

/// An exception that was taken.
#[derive(Clone, Copy, Debug, PartialEq, Eq)]
pub struct ExcMark {
    /// The type of the exception, 0 to 31.
    pub kind: u8,
    /// Its preferred return address.
    pub ret: u64,
}

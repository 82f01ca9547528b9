//! The walk of one entry after the other.
//!
//! This is the long way, and enough for every entry ([`walk`](Walker::walk)). Most entries are atoms: [`atoms`] is a fast way for runs of them, and
//! [`one_atom`] walks each.
ghost use Rattle.std.specs.Prelude.{◌≡◌, IfOk, IsOk, IsErr, Some, None};
ghost use Rattle.etm_types.specs.declared.walk_fault.WalkFault.{WalkFault};

mod atoms;
mod one_atom;

use crate::leg::{Leg, leg_of};
use crate::pc::Pc;
use crate::start::{StackUse, Start, at_given, at_known};
use etm_types::{Ctx, Entry, ExcMark, P0, Pre, WalkFault, Walked};
use program_image::Image;
use return_stack::{MOST_ADDRESSES, ReturnStack};
use std::alloc::{AllocError, Global};
use std::marker::Model;

/// The walk over an image, between two entries. Contracts see it as what is known of the next
/// instruction's address, the return addresses, and the context.
#[derive(Drop, Debug)]
pub struct Walker {
    pc: Pc,
    stack: ReturnStack,
    ctx: Ctx,
    /// The place of the part of the last atom's instructions among those of the image. It is looked at first, and may be any.
    part: usize,
}

impl Model for Walker {
    ghost use Rattle.std.specs.Prelude.{◌≡◌};
    ghost use Rattle.return_stack.specs.Stack.{most_addresses};
    ghost use Rattle.path_walker.specs.State.{State, IsState};

    ghost Value = { State };

    ghost view = { λ w. record { pc = w.pc; stack = w.stack.addresses; ctx = w.ctx } };

    ghost invariant = { λ w. IsState (record { pc = w.pc; stack = w.stack.addresses; ctx = w.ctx }) × (w.stack.depth ≡ most_addresses) };
}

impl Walker {
    ghost use Rattle.path_walker.specs.State.{IsState, IsPc, first_state};
    ghost use Rattle.path_walker.specs.Start.{StartsAs, mismatch_of, pc_before, start_of, used};
    ghost use Rattle.path_walker.specs.Steps.{linked};
    ghost use Rattle.path_walker.specs.Walk.{HasAlignedAddresses, Shows, Stops, ToldIsAligned};

    /// A walk that begins at no known address. This is the one call that takes memory, and the error
    /// means want of it.
    pub fn new(alloc: Global) -> Result<Walker, AllocError>
        ensures first { IfOk result (λ walker. walker ≡ first_state) }
        ensures state { IfOk result IsState }
    {
        let stack = ReturnStack::new(alloc, MOST_ADDRESSES)?;
        Ok(Walker {
            pc: Pc::Lost,
            stack,
            ctx: Ctx::initial(),
            part: 0,
        })
    }

    /// Walks one entry: what it shows, or why it cannot be walked. A fault leaves the walk as it was.
    ///
    /// The addresses in the entry are multiples of 4.
    pub fn walk(&mut self, image: &Image, entry: &Entry) -> Result<Walked, WalkFault>
        requires { HasAlignedAddresses entry.now }
        ensures shows { IfOk result (λ walked. Shows image.now self.old entry.now walked self.new) }
        ensures stops { (fault : WalkFault) → result ≡ Err fault → Stops image.now self.old entry.now fault }
        ensures unchanged { IsErr result → self.new ≡ self.old }
        ensures state { IsState self.new }
    {
        let start = self.start(&entry.pre)?;
        let leg = leg_of(image, start.at, entry.p0)?;
        let ctx = entry.pre.ctx.unwrap_or(self.ctx);
        self.go_on(start.stack, &leg);
        self.ctx = ctx;
        Ok(Walked {
            on: entry.pre.on,
            unknown: start.at.is_none(),
            ctx,
            start: start.at.unwrap_or(0),
            count: leg.count,
            took: leg.took,
            exc: mark_of(entry.p0),
        })
    }

    /// The context of the instructions that are walked next, where none is given.
    #[inline(always)]
    pub fn context(&self) -> Ctx
        ensures { result ≡ self.now.ctx }
    {
        self.ctx
    }

    /// Where an entry begins.
    fn start(&self, pre: &Pre) -> Result<Start, WalkFault>
        requires { ToldIsAligned pre.now.addr }
        ensures begins { IfOk result (λ start. StartsAs start self.now.stack (start_of self.now pre.now)) }
        ensures agrees { IsOk result → mismatch_of (pc_before self.now pre.now) pre.now.addr ≡ None }
        ensures differs { (fault : WalkFault) → result ≡ Err fault → mismatch_of (pc_before self.now pre.now) pre.now.addr ≡ Some fault }
        ensures aligned { IfOk result (λ start. ToldIsAligned start.at) }
    {
        let pc = if pre.on || pre.lost {
            Pc::Lost
        } else {
            self.pc
        };
        match pre.addr {
            Some(given) => at_given(pc, given, pre.flush),
            None => Ok(at_known(pc, &self.stack, pre.flush)),
        }
    }

    /// Goes on after a leg, in the same context.
    #[inline(always)]
    fn go_on(&mut self, stack: StackUse, leg: &Leg)
        requires next { IsPc leg.now.next }
        requires link { ToldIsAligned leg.now.link }
        ensures value { self.new ≡ record (self.old) { pc = leg.now.next; stack = linked leg.now.link (used stack self.old.stack) } }
        ensures state { IsState self.new }
    {
        self.leave(stack, leg);
        self.pc = leg.next;
    }

    /// What becomes of the return addresses by a leg.
    #[inline(always)]
    fn leave(&mut self, stack: StackUse, leg: &Leg)
        requires link { ToldIsAligned leg.now.link }
        ensures value { self.new ≡ record (self.old) { stack = linked leg.now.link (used stack self.old.stack) } }
        ensures state { IsState self.new }
    {
        stack.apply(&mut self.stack);
        leg.push_link(&mut self.stack);
    }
}

ghost use Rattle.path_walker.specs.Walk.{mark_of};

/// The exception of a P0 element, where it is one.
fn mark_of(p0: P0) -> Option<ExcMark>
    ensures { result ≡ mark_of p0 }
{
    match p0 {
        P0::Atom(_) => None,
        P0::Exc { kind, ret } => Some(ExcMark { kind, ret }),
    }
}

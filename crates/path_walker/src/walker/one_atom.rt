//! The walk of one atom before which nothing but an address may have been given: what it shows is a [`Stretch`], for which no entry is made. It is
//! walked from what is known of the address, or along words that were looked up already; where that can't be, nothing changes.
ghost use Rattle.std.specs.Prelude.{◌≡◌, IfSome, IsSome, Some, None};
ghost use Rattle.etm_types.specs.declared.walk_fault.WalkFault.{WalkFault};
ghost use Rattle.path_walker.specs.Leg.{IsRunAt};
ghost use Rattle.path_walker.specs.OneAtom.{ChangesReturns, WalksOneAtom};
ghost use Rattle.path_walker.specs.Start.{mismatch_of, told_pc};
ghost use Rattle.path_walker.specs.State.{IsPc, IsState, standing};
ghost use Rattle.path_walker.specs.Walk.{HasNoStretch, ToldIsAligned, atom_at};
ghost use Rattle.path_walker.specs.declared.pc.Pc.TheVariants.{Known};
ghost use Rattle.program_image.specs.Near.{IsNear};

use crate::leg::{Leg, conditional_leg_along, leg_along, leg_of_atom, run_near};
use crate::pc::Pc;
use crate::start::{StackUse, Start, at_given, at_known};
use crate::stretch::Stretch;
use crate::walker::Walker;
use program_image::{Image, NearPart, PlacedRun};

/// What an atom shows, and what is known of the address behind it.
#[derive(Clone, Copy)]
pub(super) struct AtomWalk {
    pub(super) stretch: Stretch,
    pub(super) next: Pc,
    /// The place of its part among the parts of the image.
    part: usize,
}

impl AtomWalk {
    /// That along a leg from an address.
    #[inline(always)]
    fn along(start: u64, leg: Leg) -> AtomWalk
        ensures { result ≡ record {
          stretch = record { start = start; place = leg.place; count = leg.count; took = leg.took; to_register = leg.to_register };
          next = leg.next;
          part = leg.part;
        } }
    {
        AtomWalk {
            stretch: Stretch {
                start,
                place: leg.place,
                count: leg.count,
                took: leg.took,
                to_register: leg.to_register,
            },
            next: leg.next,
            part: leg.part,
        }
    }
}

impl Walker {
    /// Walks an atom before which nothing was given but, where there is one, an address. It does so where its own address is
    /// known and there is no fault. Else it answers `None` and nothing changes: [`walk`](Walker::walk) walks it, or says why
    /// that can't be.
    ///
    /// Most entries are such. An [`Entry`](etm_types::Entry) has room for every one, and a [`Walked`](etm_types::Walked) for all that one can show.
    /// The address is a multiple of 4.
    #[inline(always)]
    pub(super) fn walk_atom(
        &mut self,
        image: &Image,
        addr: Option<u64>,
        taken: bool,
    ) -> Option<Stretch>
        requires { ToldIsAligned addr }
        ensures walks { IfSome result (λ stretch. WalksOneAtom image.now self.old addr taken stretch self.new) }
        ensures none { result ≡ None → HasNoStretch image.now self.old (atom_at addr taken) }
        ensures unchanged { result ≡ None → self.new ≡ self.old }
        ensures state { IsState self.new }
    {
        let pc = self.pc_given(addr)?;
        let AtomWalk {
            stretch,
            next,
            part,
        } = self.walk_from(image, pc, self.part, taken)?;
        self.pc = next;
        self.part = part;
        Some(stretch)
    }

    /// What is known of the address where this one is given, if one is; or `None` where another one is known.
    #[inline(always)]
    fn pc_given(&self, given: Option<u64>) -> Option<Pc>
        requires { ToldIsAligned given }
        ensures told { IfSome result (λ pc. (pc ≡ told_pc given self.now.pc) × IsPc pc) }
        ensures agrees { IsSome result → mismatch_of self.now.pc given ≡ None }
        ensures differs { result ≡ None → (fault : WalkFault) × (mismatch_of self.now.pc given ≡ Some fault) }
        ensures state { IsState self.now }
    {
        let Some(addr) = given else {
            return Some(self.pc);
        };
        match at_given(self.pc, addr, false) {
            Ok(_) => Some(Pc::Known(addr)),
            Err(_) => None,
        }
    }

    /// Walks an atom before which nothing was given, from what is told here of the address, and tells what is known then: the walk's own is not
    /// looked at, and stays. The part at the place `near` is looked at first.
    #[inline(always)]
    fn walk_from(&mut self, image: &Image, pc: Pc, near: usize, taken: bool) -> Option<AtomWalk>
        requires { IsPc pc }
        ensures walks { IfSome result (λ walk. WalksOneAtom image.now (standing pc self.old) None taken walk.stretch (standing walk.next self.new)) }
        ensures none { result ≡ None → HasNoStretch image.now (standing pc self.old) (atom_at None taken) }
        ensures unchanged { result ≡ None → self.new ≡ self.old }
        ensures others { ChangesReturns self.old self.new }
    {
        let Start { at, stack } = at_known(pc, &self.stack, false);
        let start = at?;
        let Ok(leg) = leg_of_atom(image, start, near, taken) else {
            return None;
        };
        self.leave(stack, &leg);
        Some(AtomWalk::along(start, leg))
    }

    /// Walks an atom before which nothing was given along the run of words from an address. It does so where there is no fault.
    #[inline(always)]
    pub(super) fn atom_along(
        &mut self,
        image: &Image,
        start: u64,
        placed: PlacedRun,
        taken: bool,
    ) -> Option<AtomWalk>
        requires { IsRunAt image.now start placed }
        ensures walks { IfSome result (λ walk. WalksOneAtom image.now (standing (Known start) self.old) None taken walk.stretch
            (standing walk.next self.new)) }
        ensures unchanged { result ≡ None → self.new ≡ self.old }
        ensures others { ChangesReturns self.old self.new }
    {
        // For the proof: what holds of a stack is known where it is looked at.
        let _ = &self.stack;
        let leg = leg_along(image, start, placed, taken).ok()?;
        self.leave(StackUse::Keep, &leg);
        Some(AtomWalk::along(start, leg))
    }

    /// The same of an atom of a conditional branch alone: what it shows, and the address behind it.
    #[inline(always)]
    pub(super) fn conditional_along(
        &mut self,
        image: &Image,
        start: u64,
        placed: PlacedRun,
        taken: bool,
    ) -> Option<(Stretch, u64)>
        requires { IsRunAt image.now start placed }
        ensures walks { IfSome result (λ walk. WalksOneAtom image.now (standing (Known start) self.old) None taken walk.0
            (standing (Known walk.1) self.new)) }
        ensures unchanged { result ≡ None → self.new ≡ self.old }
        ensures others { ChangesReturns self.old self.new }
    {
        // For the proof: what holds of a stack is known where it is looked at.
        let _ = &self.stack;
        let branch = conditional_leg_along(image, start, placed, taken)?;
        let Pc::Known(next) = branch.next else {
            return None;
        };
        self.leave(StackUse::Keep, &branch);
        Some((AtomWalk::along(start, branch).stretch, next))
    }

    /// The same from the newest return address, where that is awaited.
    #[inline(always)]
    pub(super) fn return_near(
        &mut self,
        image: &Image,
        near: &NearPart,
        taken: bool,
    ) -> Option<AtomWalk>
        requires near { IsNear image.now near.now }
        ensures walks { IfSome result (λ walk. WalksOneAtom image.now self.old None taken walk.stretch (standing walk.next self.new)) }
        ensures unchanged { result ≡ None → self.new ≡ self.old }
        ensures others { ChangesReturns self.old self.new }
    {
        let Pc::Awaited { pops: true } = self.pc else {
            return None;
        };
        let Start { at, stack } = at_known(self.pc, &self.stack, false);
        let start = at?;
        let placed = run_near(image, near, start)?;
        let leg = leg_along(image, start, placed, taken).ok()?;
        self.leave(stack, &leg);
        Some(AtomWalk::along(start, leg))
    }
}

//! A fast way: the atoms of a run are walked in one loop, and no entry is made of any.
//!
//! *Together* are walked: as many atoms as the run has and the taker has room for, one after the other, their stretches given to the taker.
//!
//! *Condition:* before the first at most an address was given, and before the others nothing; where each begins is known or is a return address, and
//! there is no fault.
//!
//! *Left to [`walk`](Walker::walk):* all else, from the first atom on that is not walked; it shows of that one what would be shown here. No atom is
//! left without need (`stops`). The loops within a part (`walk_near`, `walk_known`) owe no such thing: where they end early, the loop around them
//! goes on.
//!
//! *Cost:* a call and a look at the part for all of a run, and another call for the first atom where an address was given before it; for each atom a
//! look at the words there, and another test where that is no conditional branch. A step to another part is a call, a search, and a look at that
//! part.
ghost use Rattle.std.specs.Prelude.{◌≡◌, ◌≤◌, ◌<◌, ◌+◌, ◌/◌, ◌%◌, ◌^◌, ◌==◌, ◌∷◌, [], false, IfSome, Some, None};
ghost use Rattle.etm_types.specs.Atoms.{atoms_in, low_bits, most_atoms};
ghost use Rattle.path_walker.specs.Leg.{IsRunAt};
ghost use Rattle.path_walker.specs.State.{IsState, standing};
ghost use Rattle.path_walker.specs.Together.{WalksInto, WalksOneInto};
ghost use Rattle.path_walker.specs.Walk.{HasNoStretch, ToldIsAligned, WalksNoMore, WalksRun, atom_at, given_before};
ghost use Rattle.path_walker.specs.declared.pc.Pc.TheVariants.{Known};
ghost use Rattle.program_image.specs.Near.{IsNear};

use crate::leg::run_near;
use crate::pc::Pc;
use crate::taker::StretchTaker;
use crate::walker::Walker;
use etm_types::{AtomRun, Id};
use program_image::{Image, NearPart, PlacedRun};

impl Walker {
    /// Walks atoms one after the other, before the first of which this address was given, where one was, and nothing before the others: as
    /// many as [`walk_atom`](Walker::walk_atom) walks and a run has room for. It gives how many.
    ///
    /// As long as they stay in one part of the image, nothing of it is searched, and the address stays in registers, since the next look-up
    /// waits for it. The address that is given is a multiple of 4.
    #[inline(always)]
    pub fn walk_atoms<T: StretchTaker>(
        &mut self,
        image: &Image,
        id: Id,
        given: Option<u64>,
        atoms: &AtomRun,
        taker: &mut T,
    ) -> usize
        requires { ToldIsAligned given }
        ensures walks { WalksRun (T.adds image.now id self.old.ctx) image.now self.old given (atoms_in atoms.now) taker.old result self.new taker.new }
        ensures stops { WalksNoMore image.now self.new given (atoms_in atoms.now) result (T.space taker.old) }
        ensures most { result ≤ atoms.now.count }
        ensures context { self.new.ctx ≡ self.old.ctx }
        ensures state { IsState self.new }
    {
        taker.begin(&self.ctx);
        let most = usize::from(atoms.count).min(taker.room());
        let Some(first) = self.walk_given(image, id, given, atoms.bits, most, taker) else {
            return 0;
        };
        if first == most {
            return first;
        }
        first + self.walk_on(image, id, atoms.bits >> first, most - first, taker)
    }

    /// Walks the first of some atoms, where an address was given before it. It gives how many were walked, or `None` where an address was given
    /// and no atom is walked there.
    #[inline(always)]
    fn walk_given<T: StretchTaker>(
        &mut self,
        image: &Image,
        id: Id,
        given: Option<u64>,
        bits: u32,
        most: usize,
        taker: &mut T,
    ) -> Option<usize>
        requires told { ToldIsAligned given }
        requires room { most ≤ T.space taker.old }
        requires begun { T.begun self.old.ctx taker.old }
        ensures walks { IfSome result (λ n. WalksInto (T.adds image.now id) T.space T.begun image.now self.old given (low_bits most bits) taker.old n
            self.new taker.new) }
        ensures behind { IfSome result (λ n. (given_before n given ≡ None) × (n ≤ most)) }
        ensures none { result ≡ None → 0 < most → HasNoStretch image.now self.old (atom_at given (bits % 2 == 1)) }
        ensures unchanged { result ≡ None → (self.new ≡ self.old) × (taker.new ≡ taker.old) }
        ensures state { IsState self.new }
    {
        // For the proof: what holds of a stack is known where it is looked at.
        let _ = &self.stack;
        if given.is_none() {
            return Some(0);
        }
        if most == 0 || !self.walk_other(image, id, given, bits % 2 == 1, taker) {
            return None;
        }
        Some(1)
    }

    /// Walks atoms before which nothing was given, one after the other, as many as can be and at most so many. It gives how many.
    ///
    /// It is a function of its own, so that its loops have the registers to themselves whoever calls it.
    #[inline(never)]
    fn walk_on<T: StretchTaker>(
        &mut self,
        image: &Image,
        id: Id,
        bits: u32,
        most: usize,
        taker: &mut T,
    ) -> usize
        requires few { most ≤ most_atoms }
        requires room { most ≤ T.space taker.old }
        requires begun { T.begun self.old.ctx taker.old }
        ensures walks { WalksInto (T.adds image.now id) T.space T.begun image.now self.old None (low_bits most bits) taker.old result self.new taker.new }
        ensures stops { result < most → HasNoStretch image.now self.new (atom_at None (bits / 2 ^ result % 2 == 1)) }
        ensures most { result ≤ most }
    {
        // For the proof: what holds of a stack is known where it is looked at.
        let _ = &self.stack;
        let mut n = 0;
        while n < most {
            n += self.walk_near(image, id, bits >> n, most - n, taker);
            if n == most {
                break;
            }
            if !self.walk_other(image, id, None, (bits >> n) % 2 == 1, taker) {
                break;
            }
            n += 1;
        }
        n
    }

    /// The same, as long as they are of the part of the last atom, and begin at an address that is known or at a return address.
    #[inline(always)]
    fn walk_near<T: StretchTaker>(
        &mut self,
        image: &Image,
        id: Id,
        bits: u32,
        most: usize,
        taker: &mut T,
    ) -> usize
        requires few { most ≤ most_atoms }
        requires room { most ≤ T.space taker.old }
        requires begun { T.begun self.old.ctx taker.old }
        ensures walks { WalksInto (T.adds image.now id) T.space T.begun image.now self.old None (low_bits most bits) taker.old result self.new taker.new }
        ensures most { result ≤ most }
    {
        let near = image.near_part(self.part);
        let mut n = 0;
        while n < most {
            n += self.walk_known(image, id, &near, bits >> n, most - n, taker);
            if n == most {
                break;
            }
            if !self.walk_return(image, id, &near, (bits >> n) % 2 == 1, taker) {
                break;
            }
            n += 1;
        }
        n
    }

    /// The same, as long as the address is known. It stays in a register, since the next look-up waits for it. Most atoms are of a conditional
    /// branch, so that is tried first.
    #[inline(always)]
    fn walk_known<T: StretchTaker>(
        &mut self,
        image: &Image,
        id: Id,
        near: &NearPart,
        bits: u32,
        most: usize,
        taker: &mut T,
    ) -> usize
        requires near { IsNear image.now near.now }
        requires room { most ≤ T.space taker.old }
        requires begun { T.begun self.old.ctx taker.old }
        ensures walks { WalksInto (T.adds image.now id) T.space T.begun image.now self.old None (low_bits most bits) taker.old result self.new taker.new }
        ensures most { result ≤ most }
    {
        let Pc::Known(mut pc) = self.pc else {
            return 0;
        };
        let mut left = bits;
        let mut n = 0;
        while n < most {
            let Some(placed) = run_near(image, near, pc) else {
                break;
            };
            let taken = left % 2 == 1;
            left /= 2;
            if let Some(next) = self.walk_conditional(image, id, pc, placed, taken, taker) {
                pc = next;
                n += 1;
                continue;
            }
            if !self.walk_along(image, id, pc, placed, taken, taker) {
                return n;
            }
            n += 1;
            let Pc::Known(next) = self.pc else {
                return n;
            };
            pc = next;
        }
        self.pc = Pc::Known(pc);
        n
    }

    /// Walks the atom of a conditional branch along the run of words from an address, and gives where it goes on. Where that is no such branch,
    /// nothing changes. What is known of the address is not looked at, and stays.
    #[inline(always)]
    fn walk_conditional<T: StretchTaker>(
        &mut self,
        image: &Image,
        id: Id,
        pc: u64,
        placed: PlacedRun,
        taken: bool,
        taker: &mut T,
    ) -> Option<u64>
        requires run { IsRunAt image.now pc placed }
        requires room { 0 < T.space taker.old }
        requires begun { T.begun self.old.ctx taker.old }
        ensures walks { IfSome result (λ next. WalksInto (T.adds image.now id) T.space T.begun image.now (standing (Known pc) self.old) None
            (taken ∷ []) taker.old 1 (standing (Known next) self.new) taker.new) }
        ensures unchanged { result ≡ None → (self.new ≡ self.old) × (taker.new ≡ taker.old) }
        ensures state { IsState self.new }
    {
        // For the proof: what holds of a stack is known where it is looked at.
        let _ = &self.stack;
        let (stretch, next) = self.conditional_along(image, pc, placed, taken)?;
        taker.take_stretch(image, id, &self.ctx, stretch);
        Some(next)
    }

    /// Walks an atom of any kind along the run of words from an address, and says whether it was walked. If not, the walk stands there.
    #[inline(always)]
    fn walk_along<T: StretchTaker>(
        &mut self,
        image: &Image,
        id: Id,
        start: u64,
        placed: PlacedRun,
        taken: bool,
        taker: &mut T,
    ) -> bool
        requires run { IsRunAt image.now start placed }
        requires room { 0 < T.space taker.old }
        requires begun { T.begun self.old.ctx taker.old }
        ensures { WalksOneInto (T.adds image.now id) T.space T.begun image.now (standing (Known start) self.old) None taken taker.old result
            self.new taker.new }
    {
        self.pc = Pc::Known(start);
        let Some(walk) = self.atom_along(image, start, placed, taken) else {
            return false;
        };
        self.pc = walk.next;
        taker.take_stretch(image, id, &self.ctx, walk.stretch);
        true
    }

    /// The same from the newest return address, where that is awaited.
    #[inline(always)]
    fn walk_return<T: StretchTaker>(
        &mut self,
        image: &Image,
        id: Id,
        near: &NearPart,
        taken: bool,
        taker: &mut T,
    ) -> bool
        requires near { IsNear image.now near.now }
        requires room { 0 < T.space taker.old }
        requires begun { T.begun self.old.ctx taker.old }
        ensures { WalksOneInto (T.adds image.now id) T.space T.begun image.now self.old None taken taker.old result self.new taker.new }
    {
        // For the proof: what holds of a stack is known where it is looked at.
        let _ = &self.stack;
        let Some(walk) = self.return_near(image, near, taken) else {
            return false;
        };
        self.pc = walk.next;
        taker.take_stretch(image, id, &self.ctx, walk.stretch);
        true
    }

    /// Walks one atom of any kind, and says whether it was walked.
    #[inline(never)]
    fn walk_other<T: StretchTaker>(
        &mut self,
        image: &Image,
        id: Id,
        given: Option<u64>,
        taken: bool,
        taker: &mut T,
    ) -> bool
        requires told { ToldIsAligned given }
        requires room { 0 < T.space taker.old }
        requires begun { T.begun self.old.ctx taker.old }
        ensures walks { WalksOneInto (T.adds image.now id) T.space T.begun image.now self.old given taken taker.old result self.new taker.new }
        ensures none { result ≡ false → HasNoStretch image.now self.old (atom_at given taken) }
    {
        match self.walk_atom(image, given, taken) {
            Some(stretch) => {
                taker.take_stretch(image, id, &self.ctx, stretch);
                true
            }
            None => false,
        }
    }
}

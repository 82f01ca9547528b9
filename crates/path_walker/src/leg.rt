//! What is executed for a P0 element from an address on, and where it leads.
ghost use Rattle.std.specs.Prelude.{◌≡◌, ◌≢◌, ◌+◌, ◌%◌, true, false, IfOk, IfSome, Some, None, Err};
ghost use Rattle.a64_branches.specs.Classes.{HasWholeOffset};
ghost use Rattle.a64_branches.specs.declared.class.Class.TheVariants.{Plain};
ghost use Rattle.program_image.specs.Runs.{class_behind};
ghost use Rattle.program_image.specs.Near.{IsNear};
ghost use Rattle.etm_types.specs.declared.element.P0.TheVariants as p0;
ghost use Rattle.etm_types.specs.declared.walk_fault.WalkFault.{WalkFault};
ghost use Rattle.path_walker.specs.declared.pc.Pc.TheVariants.{Awaited, Known};
ghost use Rattle.return_stack.specs.Stack.{most_addresses};
ghost use Rattle.path_walker.specs.Steps.{linked};
ghost use Rattle.path_walker.specs.Leg.{IsAlignedLeg, IsLeg, IsLegBehind, IsLegOfAtom, IsRunAt};
ghost use Rattle.path_walker.specs.Walk.{Halts, Refuses, takes, ToldIsAligned, ReturnIsAligned};

use crate::pc::Pc;
use a64_branches::{INSTRUCTION_BYTES, target};
use etm_types::{P0, WalkFault};
use program_image::{BlockEnd, Image, NearPart, PlacedRun, WordBehind};
use return_stack::ReturnStack;

/// What is executed for a P0 element, and where it leads.
#[derive(Clone, Copy, Debug, PartialEq, Eq)]
pub struct Leg {
    /// How many instructions are shown.
    pub count: u64,
    /// The place of the first among all words of the image, where it is an atom's.
    pub place: usize,
    /// The place of its part among the parts of the image, where it is an atom's.
    pub part: usize,
    /// Whether the last of them is a conditional branch, and is taken.
    pub took: bool,
    /// Whether the last of them is a branch to a register.
    pub to_register: bool,
    pub next: Pc,
    /// The address that is put on the return stack, where one is.
    pub link: Option<u64>,
}

impl Leg {
    /// So many plain words, and an exception after them.
    fn to_exception(count: u64) -> Leg
        ensures { result ≡ record { count = count; place = 0; part = 0; took = false; to_register = false; next = Awaited false; link = None } }
    {
        Leg {
            count,
            place: 0,
            part: 0,
            took: false,
            to_register: false,
            next: Pc::Awaited { pops: false },
            link: None,
        }
    }

    /// Plain words and the word behind them, and after them the next word.
    #[inline(always)]
    fn of_words(placed: PlacedRun, behind: u64) -> Leg
        ensures { result ≡ record {
          count = placed.run.plain + 1;
          place = placed.place;
          part = placed.part;
          took = false;
          to_register = false;
          next = Known behind;
          link = None;
        } }
    {
        Leg {
            count: u64::from(placed.run.plain) + 1,
            place: placed.place,
            part: placed.part,
            took: false,
            to_register: false,
            next: Pc::Known(behind),
            link: None,
        }
    }

    /// The same instructions, after which it goes on there.
    #[inline(always)]
    fn to(self, next: Pc) -> Leg
        ensures { result ≡ record self { next = next } }
    {
        Leg { next, ..self }
    }

    /// The same, where the last one is a conditional branch, taken or not, after which it goes on at an address.
    #[inline(always)]
    fn conditionally(self, taken: bool, addr: u64) -> Leg
        ensures { result ≡ record self { took = taken; next = Known addr } }
    {
        Leg {
            took: taken,
            next: Pc::Known(addr),
            ..self
        }
    }

    /// The same, where the last one is a branch to a register, which may be a return.
    #[inline(always)]
    fn to_a_register(self, pops: bool) -> Leg
        ensures { result ≡ record self { to_register = true; next = Awaited pops } }
    {
        Leg {
            to_register: true,
            next: Pc::Awaited { pops },
            ..self
        }
    }

    /// The same, where the last one puts this return address on the stack.
    #[inline(always)]
    fn linking(self, link: u64) -> Leg
        ensures { result ≡ record self { link = Some link } }
    {
        Leg {
            link: Some(link),
            ..self
        }
    }

    /// Puts the return address on a stack, where there is one.
    #[inline(always)]
    pub fn push_link(&self, stack: &mut ReturnStack)
        requires { stack.old.depth ≡ most_addresses }
        ensures addresses { stack.new.addresses ≡ linked self.now.link stack.old.addresses }
        ensures depth { stack.new.depth ≡ stack.old.depth }
    {
        if let Some(addr) = self.link {
            stack.push(addr);
        }
    }
}

/// What an atom executes of plain words and the word behind them, and where it leads; or why it can't be an atom of that word.
///
/// Each atom goes this way. Most are of a conditional branch, and which one an atom is can't be foreseen: so both addresses are made, and one
/// of them is chosen without a jump. One match says the rest.
#[inline(always)]
fn leg_behind(placed: PlacedRun, addr: u64, taken: bool) -> Result<Leg, WalkFault>
    requires address { addr % 4 ≡ 0 }
    requires whole { IfSome (class_behind placed.run.behind) HasWholeOffset }
    requires last { class_behind placed.run.behind ≢ Some Plain }
    ensures leads { IfOk result (IsLegBehind placed addr taken) }
    ensures halts { (fault : WalkFault) → result ≡ Err fault → Refuses (class_behind placed.run.behind) addr taken fault }
{
    let behind = addr.wrapping_add(INSTRUCTION_BYTES);
    let leg = Leg::of_words(placed, behind);
    if let WordBehind::BranchConditionally { off } = placed.run.behind {
        let next = if taken { target(addr, off) } else { behind };
        return Ok(leg.conditionally(taken, next));
    }
    match (placed.run.behind, taken) {
        (WordBehind::Barrier, true) => Ok(leg),
        (WordBehind::Branch { off }, true) => Ok(leg.to(Pc::Known(target(addr, off)))),
        (WordBehind::BranchWithLink { off }, true) => {
            Ok(leg.to(Pc::Known(target(addr, off))).linking(behind))
        }
        (WordBehind::BranchToRegister, true) => Ok(leg.to_a_register(true)),
        (WordBehind::BranchWithLinkToRegister, true) => {
            Ok(leg.to_a_register(false).linking(behind))
        }
        (WordBehind::ExceptionReturn, true) => Ok(leg.to(Pc::Awaited { pops: false })),
        (WordBehind::NoWord, _) => Err(WalkFault::NoCode(addr)),
        (WordBehind::NotRead, _) => Err(WalkFault::Odd(addr)),
        _ => Err(WalkFault::BadAtom(addr)),
    }
}

/// A run of plain words from an address on, and after it the P0 instruction of an atom.
#[inline(always)]
pub fn leg_along(image: &Image, pc: u64, placed: PlacedRun, taken: bool) -> Result<Leg, WalkFault>
    requires { IsRunAt image.now pc placed }
    ensures leads { IfOk result (IsLegOfAtom image.now pc taken) }
    ensures halts { (fault : WalkFault) → result ≡ Err fault → Halts image.now (Some pc) (p0.Atom taken) fault }
{
    let words = u64::from(placed.run.plain) * INSTRUCTION_BYTES;
    leg_behind(placed, pc.wrapping_add(words), taken)
}

/// The plain words from an address on, and after them the P0 instruction of an atom. The part at the place `near` among those of the image is
/// looked at first.
#[inline(always)]
pub fn leg_of_atom(image: &Image, pc: u64, near: usize, taken: bool) -> Result<Leg, WalkFault>
    requires { pc % 4 ≡ 0 }
    ensures leads { IfOk result (IsLegOfAtom image.now pc taken) }
    ensures halts { (fault : WalkFault) → result ≡ Err fault → Halts image.now (Some pc) (p0.Atom taken) fault }
{
    let Some(placed) = image.placed_run(pc, near) else {
        return Err(WalkFault::NoCode(pc));
    };
    leg_along(image, pc, placed, taken)
}

/// The run of the words from an address on, where they begin in the part that is at hand.
#[inline(always)]
pub fn run_near(image: &Image, near: &NearPart, pc: u64) -> Option<PlacedRun>
    requires start { pc % 4 ≡ 0 }
    requires near { IsNear image.now near.now }
    ensures { IfSome result (IsRunAt image.now pc) }
{
    let _ = image;
    let placed = near.run_at(pc)?;
    Some(placed)
}

/// A run of plain words from an address on, and after it the P0 instruction of an atom, where that is a conditional branch.
#[inline(always)]
pub fn conditional_leg_along(image: &Image, pc: u64, placed: PlacedRun, taken: bool) -> Option<Leg>
    requires { IsRunAt image.now pc placed }
    ensures { IfSome result (IsLegOfAtom image.now pc taken) }
{
    match placed.run.behind {
        WordBehind::BranchConditionally { .. } => leg_along(image, pc, placed, taken).ok(),
        _ => None,
    }
}

/// The plain words from an address on, up to the preferred return address of an exception.
fn leg_of_exception(image: &Image, pc: u64, kind: u8, ret: u64) -> Result<Leg, WalkFault>
    requires start { pc % 4 ≡ 0 }
    requires ret { ret % 4 ≡ 0 }
    ensures leads { IfOk result (IsLeg image.now (Some pc) (p0.Exc kind ret)) }
    ensures took { IfOk result (λ leg. leg.took ≡ false) }
    ensures halts { (fault : WalkFault) → result ≡ Err fault → Halts image.now (Some pc) (p0.Exc kind ret) fault }
    ensures aligned { IfOk result IsAlignedLeg }
{
    let words = ret.wrapping_sub(pc) / INSTRUCTION_BYTES;
    let block = image.block(pc);
    if words <= block.plain {
        return Ok(Leg::to_exception(words));
    }
    Err(match block.end {
        BlockEnd::NoCode(addr) => WalkFault::NoCode(addr),
        BlockEnd::Odd(addr) => WalkFault::Odd(addr),
        BlockEnd::P0 { addr, .. } => WalkFault::ReturnMissed { addr, ret },
    })
}

/// What is executed for a P0 element, from an address on that is known or not, and where it leads.
pub fn leg_of(image: &Image, at: Option<u64>, p0: P0) -> Result<Leg, WalkFault>
    requires start { ToldIsAligned at }
    requires ret { ReturnIsAligned p0 }
    ensures leads { IfOk result (IsLeg image.now at p0) }
    ensures took { IfOk result (λ leg. leg.took ≡ takes image.now at p0 leg.count) }
    ensures halts { (fault : WalkFault) → result ≡ Err fault → Halts image.now at p0 fault }
    ensures aligned { IfOk result IsAlignedLeg }
{
    match (at, p0) {
        (Some(pc), P0::Atom(taken)) => leg_of_atom(image, pc, 0, taken),
        (Some(pc), P0::Exc { kind, ret }) => leg_of_exception(image, pc, kind, ret),
        (None, P0::Atom(_)) => Ok(Leg {
            count: 0,
            place: 0,
            part: 0,
            took: false,
            to_register: false,
            next: Pc::Lost,
            link: None,
        }),
        (None, P0::Exc { .. }) => Ok(Leg::to_exception(0)),
    }
}

//! Where an entry begins, by what elements gave before it and by the walk so far.
ghost use Rattle.std.specs.Prelude.{◌≡◌, IfOk, IsOk, Some, None, true};
ghost use Rattle.etm_types.specs.declared.walk_fault.WalkFault.{WalkFault};
ghost use Rattle.path_walker.specs.declared.pc.Pc.TheVariants.{Awaited};
ghost use Rattle.path_walker.specs.Start.{Leaves, StartsAs, emptied, mismatch_of, untold, used};

use crate::pc::Pc;
use etm_types::WalkFault;
use return_stack::ReturnStack;

/// Where an entry begins.
#[derive(Clone, Copy, Debug, PartialEq, Eq)]
pub struct Start {
    /// The address of its first instruction, where it is known.
    pub at: Option<u64>,
    pub stack: StackUse,
}

/// What becomes of the return addresses where an entry begins.
#[derive(Clone, Copy, Debug, PartialEq, Eq)]
pub enum StackUse {
    /// All of them stay.
    Keep,
    /// The newest is taken off.
    Pop,
    /// None of them stays.
    Clear,
}

impl StackUse {
    /// Where nothing is taken off: after a trace info none stays, else all do.
    fn unpopped(flush: bool) -> StackUse
        ensures { Leaves result (emptied flush) }
    {
        if flush {
            StackUse::Clear
        } else {
            StackUse::Keep
        }
    }

    /// Does that with a stack.
    #[inline(always)]
    pub fn apply(self, stack: &mut ReturnStack)
        ensures addresses { stack.new.addresses ≡ used self stack.old.addresses }
        ensures depth { stack.new.depth ≡ stack.old.depth }
    {
        match self {
            StackUse::Keep => (),
            StackUse::Pop => {
                stack.pop();
            }
            StackUse::Clear => stack.clear(),
        }
    }
}

/// Where an entry begins for which an address was given.
#[inline(always)]
pub fn at_given(pc: Pc, given: u64, flush: bool) -> Result<Start, WalkFault>
    ensures at { IfOk result (λ start. start.at ≡ Some given) }
    ensures stack { IfOk result (λ start. Leaves start.stack (emptied flush)) }
    ensures agrees { IsOk result → mismatch_of pc (Some given) ≡ None }
    ensures differs { (fault : WalkFault) → result ≡ Err fault → mismatch_of pc (Some given) ≡ Some fault }
{
    match pc {
        Pc::Known(known) if known != given => Err(WalkFault::AddressMismatch { known, given }),
        _ => Ok(Start {
            at: Some(given),
            stack: StackUse::unpopped(flush),
        }),
    }
}

/// Where an entry begins for which no address was given.
#[inline(always)]
pub fn at_known(pc: Pc, stack: &ReturnStack, flush: bool) -> Start
    ensures { StartsAs result stack.now.addresses (untold pc (emptied flush stack.now.addresses)) }
{
    match pc {
        Pc::Known(addr) => Start {
            at: Some(addr),
            stack: StackUse::unpopped(flush),
        },
        Pc::Awaited { pops: true } if !flush => at_newest(stack),
        _ => Start {
            at: None,
            stack: StackUse::Clear,
        },
    }
}

/// Where an entry begins whose address may be the newest return address.
#[inline(always)]
fn at_newest(stack: &ReturnStack) -> Start
    ensures { StartsAs result stack.now.addresses (untold (Awaited true) stack.now.addresses) }
{
    match stack.top() {
        Some(addr) => Start {
            at: Some(addr),
            stack: StackUse::Pop,
        },
        None => Start {
            at: None,
            stack: StackUse::Clear,
        },
    }
}

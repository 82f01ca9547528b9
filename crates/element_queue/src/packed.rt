//! A P0 element and what was given before it, in few bytes.
ghost use Rattle.std.specs.Prelude.{◌≡◌, ◌↔◌, not, true, Bool, ℕ, Option, None, IfSome, IsSome, IsTrue};
ghost use Rattle.etm_types.specs.Pre.{nothing_told, trace_missing};
ghost use Rattle.etm_types.specs.declared.element.P0.TheVariants.{Atom};
ghost use Rattle.element_queue.specs.Packed.{ctx_of, p0_of, pre_of_packed, unpacked};
ghost use Rattle.element_queue.specs.Queued.{entry_of, noted, plain_entry};
ghost use Rattle.element_queue.specs.declared.queue.AtomEntry.{AtomEntry};

use crate::queue::{AtomEntry, PreElem};
use etm_types::{Ctx, Entry, P0, Pre};
use std::mem::size_of;

/// Which P0 element it is.
#[derive(Clone, Copy)]
pub(crate) enum Element {
    NotTaken,
    Taken,
    Exception,
}

/// Whether a context was given, and its security state.
#[derive(Clone, Copy)]
pub(crate) enum Context {
    NotGiven,
    Secure,
    NonSecure,
}

/// A P0 element and what was given before it, in 32 bytes: an [`Entry`] takes 56. A number that tells nothing, as the
/// address where none was given, may be any.
#[derive(Clone, Copy)]
pub(crate) struct Packed {
    /// The address of the next instruction.
    addr: u64,
    /// The preferred return address of an exception.
    ret: u64,
    /// The VMID of the context.
    vmid: u32,
    /// The context ID.
    cid: u32,
    /// The exception level of the context.
    el: u8,
    context: Context,
    /// Whether an address was given.
    has_addr: bool,
    flush: bool,
    on: bool,
    lost: bool,
    /// The type of an exception.
    kind: u8,
    element: Element,
}

const _: () = prove!(size_of::<Packed>() == 32);

impl Packed {
    /// Nothing was given.
    #[inline(always)]
    pub(crate) fn nothing_told() -> Packed
        ensures { pre_of_packed result ≡ nothing_told }
    {
        Packed {
            addr: 0,
            ret: 0,
            vmid: 0,
            cid: 0,
            el: 0,
            context: Context::NotGiven,
            has_addr: false,
            flush: false,
            on: false,
            lost: false,
            kind: 0,
            element: Element::NotTaken,
        }
    }

    /// Nothing was given, and trace is missing: so a stream begins.
    #[inline(always)]
    pub(crate) fn trace_missing() -> Packed
        ensures { pre_of_packed result ≡ trace_missing }
    {
        Packed {
            lost: true,
            ..Packed::nothing_told()
        }
    }

    /// What an element gives.
    #[inline(always)]
    pub(crate) fn note(&mut self, elem: PreElem)
        ensures { pre_of_packed self.new ≡ noted (pre_of_packed self.old) elem }
    {
        match elem {
            PreElem::Info => self.flush = true,
            PreElem::On => {
                self.on = true;
                self.has_addr = false;
            }
            PreElem::Ctx(Ctx { el, ns, vmid, cid }) => {
                self.context = if ns {
                    Context::NonSecure
                } else {
                    Context::Secure
                };
                self.el = el;
                self.vmid = vmid;
                self.cid = cid;
            }
            PreElem::Addr(addr) => {
                self.addr = addr;
                self.has_addr = true;
            }
        }
    }

    /// No address is given any more.
    #[inline(always)]
    pub(crate) fn forget_addr(&mut self)
        ensures { pre_of_packed self.new ≡ record (pre_of_packed self.old) { addr = None } }
    {
        self.has_addr = false;
    }

    /// Trace is missing here, and no address is given any more.
    #[inline(always)]
    pub(crate) fn lose(&mut self)
        ensures { pre_of_packed self.new ≡ record (pre_of_packed self.old) { addr = None; lost = true } }
    {
        self.has_addr = false;
        self.lost = true;
    }

    /// This P0 element, and what was given before.
    #[inline(always)]
    pub(crate) fn with(self, p0: P0) -> Packed
        ensures { unpacked result ≡ record { pre = pre_of_packed self; p0 = p0 } }
    {
        let (element, kind, ret) = match p0 {
            P0::Atom(false) => (Element::NotTaken, 0, 0),
            P0::Atom(true) => (Element::Taken, 0, 0),
            P0::Exc { kind, ret } => (Element::Exception, kind, ret),
        };
        Packed {
            element,
            kind,
            ret,
            ..self
        }
    }

    /// The entry.
    #[inline(always)]
    pub(crate) fn entry(&self) -> Entry
        ensures { result ≡ unpacked self.now }
    {
        Entry {
            pre: self.pre(),
            p0: p0_of(self.element, self.kind, self.ret),
        }
    }

    /// What was given before the P0 element.
    #[inline(always)]
    pub(crate) fn pre(&self) -> Pre
        ensures { result ≡ pre_of_packed self.now }
    {
        Pre {
            flush: self.flush,
            on: self.on,
            lost: self.lost,
            ctx: ctx_of(self.context, self.el, self.vmid, self.cid),
            addr: self.has_addr.then_some(self.addr),
        }
    }

    /// The address that was given, where one was, if nothing else was given.
    #[inline(always)]
    pub(crate) fn only_addr(&self) -> Option<Option<u64>>
        ensures value { IfSome result (λ addr. pre_of_packed self.now ≡ record nothing_told { addr = addr }) }
        ensures some { (addr : Option ℕ) → pre_of_packed self.now ≡ record nothing_told { addr = addr } → IsSome result }
    {
        if self.flush | self.on | self.lost || !matches!(self.context, Context::NotGiven) {
            return None;
        }
        Some(self.has_addr.then_some(self.addr))
    }

    /// The entry as an atom before which nothing but an address was given, where it is one. No jump rests on which atom it is: such a jump
    /// would often go the other way than the processor expects.
    #[inline(always)]
    pub(crate) fn atom(&self) -> Option<AtomEntry>
        ensures value { IfSome result (λ atom. unpacked self.now ≡ entry_of atom) }
        ensures some { (atom : AtomEntry) → unpacked self.now ≡ entry_of atom → IsSome result }
    {
        let addr = self.only_addr()?;
        if matches!(self.element, Element::Exception) {
            return None;
        }
        let taken = matches!(self.element, Element::Taken);
        Some(AtomEntry { addr, taken })
    }

    /// Which atom it is, where it is one before which nothing was given.
    #[inline(always)]
    pub(crate) fn plain_atom(&self) -> Option<bool>
        ensures value { IfSome result (λ taken. unpacked self.now ≡ plain_entry taken) }
        ensures some { (taken : Bool) → unpacked self.now ≡ plain_entry taken → IsSome result }
    {
        match self.atom() {
            Some(AtomEntry { addr: None, taken }) => Some(taken),
            _ => None,
        }
    }

    /// Whether nothing was given.
    #[inline(always)]
    pub(crate) fn is_nothing_told(&self) -> bool
        ensures { IsTrue result ↔ (pre_of_packed self.now ≡ nothing_told) }
    {
        match self.only_addr() {
            None => false,
            Some(addr) => addr.is_none(),
        }
    }

    /// Whether it is an atom.
    #[inline(always)]
    pub(crate) fn is_atom(&self) -> bool
        ensures { IsTrue result ↔ ((taken : Bool) × ((unpacked self.now).p0 ≡ Atom taken)) }
    {
        !matches!(self.element, Element::Exception)
    }

    /// A mispredict: the atom is the other one.
    #[inline(always)]
    pub(crate) fn flip(&mut self)
        requires { (taken : Bool) × ((unpacked self.old).p0 ≡ Atom taken) }
        ensures { (taken : Bool) → (unpacked self.old).p0 ≡ Atom taken
            → unpacked self.new ≡ record (unpacked self.old) { p0 = Atom (not taken) } }
    {
        self.element = match self.element {
            Element::NotTaken => Element::Taken,
            Element::Taken => Element::NotTaken,
            Element::Exception => unreachable!(),
        };
    }
}

/// The context of these parts.
#[inline(always)]
fn ctx_of(context: Context, el: u8, vmid: u32, cid: u32) -> Option<Ctx>
    ensures { result ≡ ctx_of context el vmid cid }
{
    let ns = match context {
        Context::NotGiven => return None,
        Context::Secure => false,
        Context::NonSecure => true,
    };
    Some(Ctx { el, ns, vmid, cid })
}

/// The P0 element of these parts.
#[inline(always)]
fn p0_of(element: Element, kind: u8, ret: u64) -> P0
    ensures { result ≡ p0_of element kind ret }
{
    match element {
        Element::NotTaken => P0::Atom(false),
        Element::Taken => P0::Atom(true),
        Element::Exception => P0::Exc { kind, ret },
    }
}

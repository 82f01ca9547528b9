//! From packets to elements, one packet after the other.
ghost use Rattle.std.specs.Prelude.{◌≡◌, ◌≤◌, ◌<◌, ◌%◌, ◌∷◌, ◌++◌, ◌↔◌, [], false, true, Some, None, IfOk, IfSome, IsSome, IsTrue, OnErr, if◌then◌else◌};
ghost use Rattle.path_elements.specs.Elements.{untold, elements_of, told_after, is_misplaced, may_follow_exception, tells, with_address};
ghost use Rattle.path_elements.specs.Held.{AreElems, CanBeTaken, CanStand, IsTold, elem_of, numbered};
ghost use Rattle.etm_types.specs.Atoms.{most_atoms};
ghost use Rattle.etm_types.specs.declared.element.Elem.TheVariants as elem;

use crate::elems::{Elems, Kind, Values};
use address_history::History;
use etm_types::{AddrForm, AtomRun, Ctx, CtxBits, FewAtoms};
use packet_grammar::Packet;
use std::marker::Model;

/// A packet that may not come between an exception packet and its address packet.
#[derive(Clone, Copy, Debug, PartialEq, Eq)]
pub struct Awaited;

/// An exception whose address is still to come.
#[derive(Clone, Copy, Debug, PartialEq, Eq)]
pub(crate) struct Interrupt {
    /// Its type.
    pub kind: u8,
    /// Whether that address is the target of the P0 element before it too.
    pub target: bool,
}

/// Makes elements of packets. Contracts see the record of what the packets so far gave.
#[derive(Clone, Copy, Debug, PartialEq, Eq)]
pub struct ElemMaker {
    history: History,
    context: Ctx,
    informed: bool,
    awaiting: Option<Interrupt>,
}

impl Model for ElemMaker {
    ghost use Rattle.path_elements.specs.Elements.{Told};
    ghost use Rattle.path_elements.specs.Held.{IsTold};

    ghost Value = { Told };

    ghost view = { λ m. record { history = m.history; context = m.context; informed = m.informed; awaiting = m.awaiting } };

    ghost invariant = { λ m. IsTold (record { history = m.history; context = m.context; informed = m.informed; awaiting = m.awaiting }) };

    ghost inverse = { λ told. record { history = told.history; context = told.context; informed = told.informed; awaiting = told.awaiting } };
}

impl ElemMaker {
    ghost use Rattle.etm_types.specs.CtxBits.{context_told};
    ghost use Rattle.address_history.specs.Forms.{HasEntry, address_told};
    ghost use Rattle.path_elements.specs.Elements.{after_address, elements_in, told_by};
    ghost use Rattle.packet_grammar.specs.declared.packet.Packet.TheVariants as packet;
    ghost use Rattle.path_elements.specs.Held.{IsElem};

    /// A maker that has taken no packet.
    pub fn new() -> ElemMaker
        ensures { result ≡ untold }
    {
        ElemMaker {
            history: History::reset(),
            context: Ctx::initial(),
            informed: false,
            awaiting: None,
        }
    }

    /// Takes the next packet, and gives its elements. Where the packet may not come there, nothing
    /// changes.
    #[inline]
    pub fn take(&mut self, packet: &Packet) -> Result<Elems, Awaited>
        requires { CanBeTaken packet.now }
        ensures ok { IfOk result (λ elems. (is_misplaced self.old packet.now ≡ false)
            × (elems ≡ elements_of self.old packet.now) × (self.new ≡ told_after self.old packet.now)) }
        ensures awaited { OnErr result ((is_misplaced self.old packet.now ≡ true) × (self.new ≡ self.old)) }
        ensures within { IfOk result (λ elems. AreElems elems) }
    {
        match *packet {
            Packet::Atoms(ref run) if self.informed && self.awaiting.is_none() => {
                Ok(Elems::of_run(run))
            }
            _ => self.take_any(packet),
        }
    }

    /// The elements of a packet of atoms, where it counts and may come: taking it changes nothing. Else it answers `None`, and
    /// [`take`](ElemMaker::take) takes it.
    #[inline(always)]
    pub fn atoms_of(&self, run: &AtomRun) -> Option<Elems>
        requires { run.now.count ≤ most_atoms }
        ensures some { IfSome result (λ elems. (is_misplaced self.now (packet.Atoms run.now) ≡ false)
            × (elems ≡ elements_of self.now (packet.Atoms run.now)) × (told_after self.now (packet.Atoms run.now) ≡ self.now)) }
        ensures counts { IsSome result ↔ ((self.now.informed ≡ true) × (self.now.awaiting ≡ None)) }
        ensures within { IfSome result (λ elems. AreElems elems) }
    {
        if self.informed && self.awaiting.is_none() {
            Some(Elems::of_run(run))
        } else {
            None
        }
    }

    /// The address that an address packet of this form gives. Taking it changes which form gives which address; this changes nothing.
    #[inline(always)]
    pub fn address_of(&self, form: &AddrForm) -> u64
        requires { HasEntry form.now }
        ensures value { result ≡ address_told self.now.history form.now }
        ensures aligned { result % 4 ≡ 0 }
    {
        self.history.apply(form)
    }

    /// Takes the address packet without a context that gives this address by its form, where it counts and may come.
    #[inline(always)]
    pub fn tell_address(&mut self, form: &AddrForm, address: u64)
        requires form { HasEntry form.now }
        requires address { address ≡ address_told self.old.history form.now }
        requires ready { (self.old.informed ≡ true) × (self.old.awaiting ≡ None) }
        ensures { self.new ≡ told_after self.old (packet.Addr form.now None) }
    {
        self.history.push(address);
    }

    /// Whether packets of atoms, commits and cancels count, and may come: taking one changes nothing.
    #[inline(always)]
    pub fn is_ready(&self) -> bool
        ensures { IsTrue result ↔ ((self.now.informed ≡ true) × (self.now.awaiting ≡ None)) }
    {
        self.informed && self.awaiting.is_none()
    }

    /// Takes a packet of any kind. It is long; most packets are atoms, and [`ElemMaker::take`] answers
    /// those without it.
    #[inline(never)]
    fn take_any(&mut self, packet: &Packet) -> Result<Elems, Awaited>
        requires { CanBeTaken packet.now }
        ensures ok { IfOk result (λ elems. (is_misplaced self.old packet.now ≡ false)
            × (elems ≡ elements_of self.old packet.now) × (self.new ≡ told_after self.old packet.now)) }
        ensures awaited { OnErr result ((is_misplaced self.old packet.now ≡ true) × (self.new ≡ self.old)) }
    {
        if !self.tells(packet) {
            return Ok(Elems::none());
        }
        if self.awaiting.is_some() && !may_follow_exception(packet) {
            return Err(Awaited);
        }
        Ok(self.take_counted(packet))
    }

    /// Whether a packet counts: before the first trace info no other one does.
    fn tells(&self, packet: &Packet) -> bool
        ensures { result ≡ tells self.now packet.now }
    {
        self.informed || matches!(packet, Packet::Info { .. })
    }

    /// Takes a packet that counts, and gives its elements.
    fn take_counted(&mut self, packet: &Packet) -> Elems
        requires { CanBeTaken packet.now }
        ensures elements { result ≡ elements_in self.old packet.now }
        ensures told { self.new ≡ told_by self.old packet.now }
    {
        match *packet {
            Packet::Atoms(ref run) => Elems::of_run(run),
            Packet::Async | Packet::Ignore | Packet::Event(_) | Packet::Time { .. } => {
                Elems::none()
            }
            Packet::Info { spec, .. } => self.begin(spec.unwrap_or(0)),
            Packet::On => Elems::one(Kind::On, Values::number(0)),
            Packet::Exc { kind, target } => self.await_address(Interrupt { kind, target }),
            Packet::Overflow => self.lose(Kind::Overflow),
            Packet::Discard => self.lose(Kind::Discard),
            Packet::Commit(n) => Elems::one(Kind::Commit, Values::number(n)),
            Packet::Cancel { n, flip: false } => Elems::one(Kind::Cancel, Values::number(n)),
            Packet::Cancel { n, flip: true } => {
                Elems::two(Kind::Cancel, Kind::Flip, Values::number(n))
            }
            Packet::Mispredict(ref few) => Elems::flipped(few),
            Packet::Cancel2(ref few) => Elems::cancelled(few, 1),
            Packet::Cancel3 { e, n } => Elems::cancelled(&one_if(e), u32::from(n)),
            Packet::CtxSame => self.context_alone(),
            Packet::CtxInfo(ref bits) => {
                self.take_context(bits);
                self.context_alone()
            }
            Packet::Addr { ref form, ref ctx } => self.take_place(form, ctx),
        }
    }

    /// The trace begins anew, with so many elements that are not committed.
    fn begin(&mut self, spec: u32) -> Elems
        ensures told { self.new ≡ record untold { informed = true; awaiting = self.old.awaiting } }
        ensures element { result ≡ elem.Info spec ∷ [] }
    {
        self.history = History::reset();
        self.context = Ctx::initial();
        self.informed = true;
        Elems::one(Kind::Info, Values::number(spec))
    }

    /// An exception was taken. Its address is still to come.
    fn await_address(&mut self, exception: Interrupt) -> Elems
        requires { exception.kind < 32 }
        ensures told { self.new ≡ record (self.old) { awaiting = Some exception } }
        ensures none { result ≡ [] }
    {
        self.awaiting = Some(exception);
        Elems::none()
    }

    /// Trace is missing, as an element says: the address of an exception does not come.
    fn lose(&mut self, gap: Kind) -> Elems
        requires { IsElem (elem_of (numbered 0) gap) }
        ensures told { self.new ≡ record (self.old) { awaiting = None } }
        ensures element { result ≡ elem_of (numbered 0) gap ∷ [] }
    {
        self.awaiting = None;
        Elems::one(gap, Values::number(0))
    }

    /// Takes an address, and before it the context that comes with it.
    fn take_place(&mut self, form: &AddrForm, ctx: &Option<CtxBits>) -> Elems
        requires form { HasEntry form.now }
        requires ctx { IfSome ctx.now (λ bits. bits.el ≤ 3) }
        ensures told { self.new ≡ told_by self.old (packet.Addr form.now ctx.now) }
        ensures elements { result ≡ elements_in self.old (packet.Addr form.now ctx.now) }
    {
        match *ctx {
            None => {
                let (exception, values) = self.take_address(form);
                place_alone(exception, values)
            }
            Some(ref bits) => {
                self.take_context(bits);
                let (exception, values) = self.take_address(form);
                place_in_context(exception, values)
            }
        }
    }

    /// Takes a context.
    fn take_context(&mut self, bits: &CtxBits)
        requires { bits.now.el ≤ 3 }
        ensures { self.new ≡ record (self.old) { context = context_told bits.now self.old.context } }
    {
        self.context = bits.apply(&self.context);
    }

    /// The context as an element.
    fn context_alone(&self) -> Elems
        ensures { result ≡ elem.Ctx self.now.context ∷ [] }
    {
        let values = Values {
            ctx: self.context,
            ..Values::number(0)
        };
        Elems::one(Kind::Ctx, values)
    }

    /// Takes an address, and gives the exception that awaited it, where one did, and the address with the context.
    fn take_address(&mut self, form: &AddrForm) -> (Option<Interrupt>, Values)
        requires { HasEntry form.now }
        ensures told { self.new ≡ after_address self.old form.now }
        ensures exception { result.0 ≡ self.old.awaiting }
        ensures address { result.1.addr ≡ address_told self.old.history form.now }
        ensures context { result.1.ctx ≡ self.old.context }
        ensures within { CanStand result.0 result.1 }
    {
        let addr = self.history.apply(form);
        self.history.push(addr);
        let values = Values {
            addr,
            ctx: self.context,
            ..Values::number(0)
        };
        (self.awaiting.take(), values)
    }
}

/// The elements of an address, where no context comes with it.
fn place_alone(exception: Option<Interrupt>, values: Values) -> Elems
    requires { CanStand exception values }
    ensures { result ≡ with_address exception values.addr }
{
    let Some(Interrupt { kind, target }) = exception else {
        return Elems::one(Kind::Addr, values);
    };
    let values = Values {
        exception: kind,
        ..values
    };
    if target {
        Elems::two(Kind::Addr, Kind::Exc, values)
    } else {
        Elems::one(Kind::Exc, values)
    }
}

/// The elements of an address, and before them the context that comes with it.
fn place_in_context(exception: Option<Interrupt>, values: Values) -> Elems
    requires { CanStand exception values }
    ensures { result ≡ elem.Ctx values.ctx ∷ with_address exception values.addr }
{
    let Some(Interrupt { kind, target }) = exception else {
        return Elems::two(Kind::Ctx, Kind::Addr, values);
    };
    let values = Values {
        exception: kind,
        ..values
    };
    if target {
        Elems::three(Kind::Ctx, Kind::Addr, Kind::Exc, values)
    } else {
        Elems::two(Kind::Ctx, Kind::Exc, values)
    }
}

/// One atom E, or none.
fn one_if(e: bool) -> FewAtoms
    ensures { result ≡ record { count = (if e then 1 else 0); first = e } }
{
    FewAtoms {
        count: u8::from(e),
        first: e,
    }
}

/// Whether a packet may come between an exception packet and its address packet, or is the latter.
fn may_follow_exception(packet: &Packet) -> bool
    ensures { result ≡ may_follow_exception packet.now }
{
    matches!(
        packet,
        Packet::Async
            | Packet::Discard
            | Packet::Overflow
            | Packet::Ignore
            | Packet::Event(_)
            | Packet::Time { .. }
            | Packet::CtxSame
            | Packet::CtxInfo(_)
            | Packet::Addr { .. }
    )
}

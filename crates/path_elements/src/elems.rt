//! The elements of one packet.
ghost use Rattle.std.specs.Prelude.{◌≡◌, ◌≢◌, ◌≤◌, ◌<◌, ◌+◌, ◌∷◌, ◌++◌, ◌↔◌, [], ℕ, Bool, List, drop, length, replicate, slice_get};
ghost use Rattle.std.specs.Prelude.{IfSome, IsSome, None, Some};
ghost use Rattle.etm_types.specs.declared.element.Elem.{Elem};
ghost use Rattle.etm_types.specs.declared.element.Elem.TheVariants as elem;
ghost use Rattle.etm_types.specs.declared.element.P0.TheVariants.{Atom};
ghost use Rattle.etm_types.specs.Atoms.{atoms_in, most_atoms};
ghost use Rattle.path_elements.specs.Elements.{atoms};
ghost use Rattle.path_elements.specs.Held.{IsElem, elem_of, numbered, rest_in};
ghost use Rattle.path_elements.specs.declared.elems.Values.{Values};

use etm_types::{AtomRun, Ctx, Elem, FewAtoms, P0};
use std::marker::Model;

/// No atoms.
const NO_ATOMS: AtomRun = AtomRun { count: 0, bits: 0 };

/// Two atoms E.
const TWO_TAKEN: u32 = 0b11;

/// The elements of one packet, in order, at most 24. Contracts see their list.
///
/// Each packet gives one, so it is kept small: of the elements after the atoms it has the kinds, and in
/// [`Values`] what they say.
#[derive(Debug, Drop)]
pub struct Elems {
    atoms: AtomRun,
    rest: Rest,
    values: Values,
}

/// What stands after the atoms.
#[derive(Clone, Copy, Debug)]
enum Rest {
    Nothing,
    One(Kind),
    Two(Kind, Kind),
    Three(Kind, Kind, Kind),
}

/// The kind of an element that is no atom.
#[derive(Clone, Copy, Debug)]
pub(crate) enum Kind {
    Info,
    On,
    Ctx,
    Addr,
    Exc,
    Commit,
    Cancel,
    Flip,
    Overflow,
    Discard,
}

/// What the elements of one packet say. No packet gives two that say different numbers, addresses or
/// contexts, so they share these.
#[derive(Clone, Copy, Debug)]
pub(crate) struct Values {
    /// So many P0 elements.
    pub number: u32,
    /// The type of an exception.
    pub exception: u8,
    /// An address, or the preferred return address of the exception.
    pub addr: u64,
    pub ctx: Ctx,
}

impl Model for Elems {
    ghost use Rattle.std.specs.Prelude.{List};
    ghost use Rattle.etm_types.specs.declared.element.Elem.{Elem};
    ghost use Rattle.path_elements.specs.Held.{AreElems, held};

    ghost Value = { List Elem };

    ghost view = { λ e. held e.atoms e.rest e.values };

    ghost invariant = { λ e. AreElems (held e.atoms e.rest e.values) };
}

impl Elems {
    /// How many there are, at most 24.
    pub fn len(&self) -> usize
        ensures value { result ≡ length self.now }
        ensures most { result ≤ most_atoms }
    {
        usize::from(self.atoms.count) + self.rest.len()
    }

    /// How many atoms there are. They stand before all else.
    #[inline(always)]
    pub fn atom_count(&self) -> usize
        ensures value { (i : ℕ) → (i < result) ↔ ((taken : Bool) × (slice_get self.now i ≡ Some (elem.P0 (Atom taken)))) }
    {
        usize::from(self.atoms.count)
    }

    /// The atom at `i`, counted from 0, where one stands there.
    #[inline(always)]
    pub fn atom(&self, i: usize) -> Option<bool>
        ensures value { IfSome result (λ taken. slice_get self.now i ≡ Some (elem.P0 (Atom taken))) }
        ensures some { IsSome result ↔ ((taken : Bool) × (slice_get self.now i ≡ Some (elem.P0 (Atom taken)))) }
    {
        if i < usize::from(self.atoms.count) {
            Some((self.atoms.bits >> i) % 2 == 1)
        } else {
            None
        }
    }

    /// The atoms from the one at `i` on, counted from 0, as one run: so many, or all that stand there where those are fewer.
    #[inline(always)]
    pub fn atoms_from(&self, i: usize, most: usize) -> AtomRun
        ensures rest { (others : List Elem) × (drop i self.now ≡ atoms (atoms_in result) ++ others) }
        ensures most { result.count ≤ most }
        ensures all { result.count < most → (taken : Bool) → slice_get self.now (i + result.count) ≢ Some (elem.P0 (Atom taken)) }
        ensures few { result.count ≤ most_atoms }
    {
        let count = usize::from(self.atoms.count);
        if i >= count {
            return NO_ATOMS;
        }
        AtomRun {
            count: (count - i).min(most) as u8,
            bits: self.atoms.bits >> i,
        }
    }

    /// So many atoms from the one at `i` on, counted from 0, as one run. They must be atoms.
    #[inline(always)]
    pub fn atoms_at(&self, i: usize, n: usize) -> AtomRun
        requires some { 0 < n }
        requires atoms { (k : ℕ) → k < n → (taken : Bool) × (slice_get self.now (i + k) ≡ Some (elem.P0 (Atom taken))) }
        ensures rest { (others : List Elem) × (drop i self.now ≡ atoms (atoms_in result) ++ others) }
        ensures count { result.count ≡ n }
        ensures few { result.count ≤ most_atoms }
    {
        let bits = self.atoms.bits >> i;
        AtomRun {
            count: n as u8,
            bits,
        }
    }

    /// The element at `i`, counted from 0.
    pub fn get(&self, i: usize) -> Option<Elem>
        ensures value { result ≡ slice_get self.now i }
    {
        let count = usize::from(self.atoms.count);
        if i < count {
            return Some(Elem::P0(P0::Atom((self.atoms.bits >> i) % 2 == 1)));
        }
        self.rest.get(&self.values, i - count)
    }
}

impl Rest {
    fn len(self) -> usize
        ensures value { (values : Values) → result ≡ length (rest_in self values) }
        ensures most { result ≤ 3 }
    {
        match self {
            Rest::Nothing => 0,
            Rest::One(_) => 1,
            Rest::Two(_, _) => 2,
            Rest::Three(_, _, _) => 3,
        }
    }

    fn get(self, values: &Values, i: usize) -> Option<Elem>
        ensures { result ≡ slice_get (rest_in self values.now) i }
    {
        let kind = self.kind(i)?;
        Some(values.elem(kind))
    }

    /// The kind of the element at `i`, counted from 0.
    #[inline(always)]
    fn kind(self, i: usize) -> Option<Kind>
        ensures some { IfSome result (λ kind. (values : Values) → slice_get (rest_in self values) i ≡ Some (elem_of values kind)) }
        ensures none { result ≡ None → (values : Values) → slice_get (rest_in self values) i ≡ None }
    {
        match self {
            Rest::One(only) if i == 0 => Some(only),
            Rest::Two(first, _) if i == 0 => Some(first),
            Rest::Two(_, second) if i == 1 => Some(second),
            Rest::Three(first, _, _) if i == 0 => Some(first),
            Rest::Three(_, second, _) if i == 1 => Some(second),
            Rest::Three(_, _, third) if i == 2 => Some(third),
            _ => None,
        }
    }
}

impl Values {
    /// For elements that say nothing, or a number alone.
    pub(crate) fn number(number: u32) -> Values
        ensures { result ≡ numbered number }
    {
        Values {
            number,
            exception: 0,
            addr: 0,
            ctx: Ctx::initial(),
        }
    }

    /// The element of a kind.
    fn elem(&self, kind: Kind) -> Elem
        ensures { result ≡ elem_of self.now kind }
    {
        match kind {
            Kind::Info => Elem::Info { spec: self.number },
            Kind::On => Elem::On,
            Kind::Ctx => Elem::Ctx(self.ctx),
            Kind::Addr => Elem::Addr(self.addr),
            Kind::Exc => Elem::P0(P0::Exc {
                kind: self.exception,
                ret: self.addr,
            }),
            Kind::Commit => Elem::Commit(self.number),
            Kind::Cancel => Elem::Cancel(self.number),
            Kind::Flip => Elem::Flip,
            Kind::Overflow => Elem::Overflow,
            Kind::Discard => Elem::Discard,
        }
    }
}

impl Elems {
    ghost use Rattle.etm_types.specs.declared.element.Elem.TheVariants as elem;

    /// No element.
    pub fn none() -> Elems
        ensures { result ≡ [] }
    {
        Elems {
            atoms: NO_ATOMS,
            rest: Rest::Nothing,
            values: Values::number(0),
        }
    }

    #[inline(always)]
    pub(crate) fn one(only: Kind, values: Values) -> Elems
        requires { IsElem (elem_of values only) }
        ensures { result ≡ elem_of values only ∷ [] }
    {
        Elems {
            atoms: NO_ATOMS,
            rest: Rest::One(only),
            values,
        }
    }

    pub(crate) fn two(first: Kind, second: Kind, values: Values) -> Elems
        requires { IsElem (elem_of values first) × IsElem (elem_of values second) }
        ensures { result ≡ elem_of values first ∷ elem_of values second ∷ [] }
    {
        Elems {
            atoms: NO_ATOMS,
            rest: Rest::Two(first, second),
            values,
        }
    }

    pub(crate) fn three(first: Kind, second: Kind, third: Kind, values: Values) -> Elems
        requires { IsElem (elem_of values first) × IsElem (elem_of values second) × IsElem (elem_of values third) }
        ensures { result ≡ elem_of values first ∷ elem_of values second ∷ elem_of values third ∷ [] }
    {
        Elems {
            atoms: NO_ATOMS,
            rest: Rest::Three(first, second, third),
            values,
        }
    }

    /// The atoms of a run, oldest first.
    #[inline(always)]
    pub(crate) fn of_run(run: &AtomRun) -> Elems
        requires { run.now.count ≤ most_atoms }
        ensures { result ≡ atoms (atoms_in run.now) }
    {
        Elems {
            atoms: AtomRun {
                count: run.count,
                bits: run.bits,
            },
            rest: Rest::Nothing,
            values: Values::number(0),
        }
    }

    /// Atoms, and a mispredict of the newest.
    pub(crate) fn flipped(few: &FewAtoms) -> Elems
        requires { few.now.count ≤ 2 }
        ensures { result ≡ atoms (replicate few.now.count few.now.first) ++ elem.Flip ∷ [] }
    {
        Elems {
            atoms: run_of(few),
            rest: Rest::One(Kind::Flip),
            values: Values::number(0),
        }
    }

    /// Atoms, a cancel of so many elements, and a mispredict of the newest atom that is left.
    pub(crate) fn cancelled(few: &FewAtoms, n: u32) -> Elems
        requires { few.now.count ≤ 2 }
        ensures { result ≡ atoms (replicate few.now.count few.now.first) ++ elem.Cancel n ∷ elem.Flip ∷ [] }
    {
        Elems {
            atoms: run_of(few),
            rest: Rest::Two(Kind::Cancel, Kind::Flip),
            values: Values::number(n),
        }
    }
}

/// A few atoms as a run.
fn run_of(few: &FewAtoms) -> AtomRun
    requires { few.now.count ≤ 2 }
    ensures atoms { atoms_in result ≡ replicate few.now.count few.now.first }
    ensures count { result.count ≡ few.now.count }
{
    AtomRun {
        count: few.count,
        bits: if few.first { TWO_TAKEN } else { 0 },
    }
}

//! The elements of a packet that are still to be taken.
ghost use Rattle.std.specs.Prelude.{◌≡◌, ◌≢◌, ◌≤◌, ◌<◌, ◌∷◌, ◌++◌, [], ◌↔◌, ℕ, drop, length, slice_get, Bool, IfSome, IsSome, IsTrue, List, Some, None};
ghost use Rattle.etm_types.specs.Atoms.{atoms_in, most_atoms};
ghost use Rattle.etm_types.specs.declared.element.Elem.TheVariants as elem;
ghost use Rattle.etm_types.specs.declared.element.P0.TheVariants.{Atom};
ghost use Rattle.path_elements.specs.Elements.{atoms};

use etm_types::{AtomRun, Elem};
use path_elements::Elems;
use std::marker::Model;

/// The elements of one packet that are still to be taken, and its offset. Contracts see the offset and the
/// list.
#[derive(Drop)]
pub struct Todo {
    at: u64,
    elems: Elems,
    /// How many were taken.
    next: usize,
}

impl Model for Todo {
    ghost use Rattle.std.specs.Prelude.{◌≤◌, drop, length};
    ghost use Rattle.stream_decoder.specs.Left.{Left};

    ghost Value = { Left };

    ghost view = { λ t. record { at = t.at; elements = drop t.next t.elems } };

    ghost invariant = { λ t. t.next ≤ length t.elems };
}

impl Todo {
    ghost use Rattle.stream_decoder.specs.Left.{nothing_left};
    ghost use Rattle.etm_types.specs.declared.element.Elem.{Elem};

    /// Nothing, before the first packet.
    pub fn nothing() -> Todo
        ensures { result ≡ nothing_left 0 }
    {
        Todo::of(0, Elems::none())
    }

    /// All elements of the packet at an offset.
    #[inline(always)]
    pub fn of(at: u64, elems: Elems) -> Todo
        ensures { result ≡ record { at = at; elements = elems } }
    {
        Todo { at, elems, next: 0 }
    }

    /// All of the packet at another offset were taken, where none is left to be taken.
    #[inline(always)]
    pub fn move_to(&mut self, at: u64)
        requires { self.old.elements ≡ [] }
        ensures { self.new ≡ nothing_left at }
    {
        self.at = at;
    }

    /// The offset of the packet.
    pub fn at(&self) -> u64
        ensures { result ≡ self.now.at }
    {
        self.at
    }

    /// Whether all were taken.
    #[inline(always)]
    pub fn is_empty(&self) -> bool
        ensures { IsTrue result ↔ (self.now.elements ≡ []) }
    {
        self.next == self.elems.len()
    }

    /// The next one.
    pub fn first(&self) -> Option<Elem>
        ensures some { (elem : Elem) → result ≡ Some elem → (others : List Elem) × (self.now.elements ≡ elem ∷ others) }
        ensures none { result ≡ None → self.now.elements ≡ [] }
    {
        self.elems.get(self.next)
    }

    /// The next one, where it is an atom of a run of atoms.
    #[inline(always)]
    pub fn first_atom(&self) -> Option<bool>
        ensures value { IfSome result (λ taken. (others : List Elem) × (self.now.elements ≡ elem.P0 (Atom taken) ∷ others)) }
        ensures some { IsSome result ↔ ((taken : Bool) × (others : List Elem) × (self.now.elements ≡ elem.P0 (Atom taken) ∷ others)) }
    {
        self.elems.atom(self.next)
    }

    /// How many atoms are next.
    #[inline(always)]
    pub fn atom_count(&self) -> usize
        ensures value { (k : ℕ) → (k < result) ↔ ((taken : Bool) × (slice_get self.now.elements k ≡ Some (elem.P0 (Atom taken)))) }
    {
        self.elems.atom_count().saturating_sub(self.next)
    }

    /// The atoms that are next, as one run of at most so many: none where the next element is no atom.
    #[inline(always)]
    pub fn atoms(&self, most: usize) -> AtomRun
        ensures next { (others : List Elem) × (self.now.elements ≡ atoms (atoms_in result) ++ others) }
        ensures most { result.count ≤ most }
        ensures few { result.count ≤ most_atoms }
        ensures all { result.count < most → (taken : Bool) → slice_get self.now.elements result.count ≢ Some (elem.P0 (Atom taken)) }
    {
        self.elems.atoms_from(self.next, most)
    }

    /// So many atoms that are next, as one run. They must be atoms.
    #[inline(always)]
    pub fn first_atoms(&self, n: usize) -> AtomRun
        requires some { 0 < n }
        requires atoms { (k : ℕ) → k < n → (taken : Bool) × (slice_get self.now.elements k ≡ Some (elem.P0 (Atom taken))) }
        ensures next { (others : List Elem) × (self.now.elements ≡ atoms (atoms_in result) ++ others) }
        ensures count { result.count ≡ n }
        ensures few { result.count ≤ most_atoms }
    {
        self.elems.atoms_at(self.next, n)
    }

    /// So many are taken.
    #[inline(always)]
    pub fn advance_by(&mut self, n: usize)
        requires { n ≤ length self.old.elements }
        ensures { self.new ≡ record (self.old) { elements = drop n self.old.elements } }
    {
        // nothing of this is left in the machine's code: it tells the proof that the sum fits
        let _ = self.elems.len();
        self.next += n;
    }

    /// The next one is taken.
    #[inline(always)]
    pub fn advance(&mut self)
        ensures { (elem : Elem) (others : List Elem) → self.old.elements ≡ elem ∷ others → self.new ≡ record (self.old) { elements = others } }
    {
        if self.next < self.elems.len() {
            self.next += 1;
        }
    }

    /// The others are not taken any more.
    pub fn clear(&mut self)
        ensures { self.new ≡ nothing_left self.old.at }
    {
        self.elems = Elems::none();
        self.next = 0;
    }
}

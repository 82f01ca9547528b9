//! A fast way: the oldest of what waits are walked in one loop, as many of them as can be, and are then let go.
//!
//! *Together* are walked: the oldest that are due; or, where nothing is due and no more may be held, those that the atoms that are next commit; or,
//! where each is committed as it is made, the atoms that are next themselves: at most 24 in one loop.
//!
//! *Condition:* each is an atom that shows a stretch, there is room for it, and nothing was given before it; before the first of a loop an address
//! may have been.
//!
//! *Left to the long way:* all else. Nothing has to be done: where none is walked, the answer is 0 or `false`, and nothing changes but that the taker
//! was told the context.
//!
//! *Cost:* a call and some tests for all of a loop. An atom before which an address was given begins a loop, with those behind it.
ghost use Rattle.etm_types.specs.declared.element.Elem.TheVariants as elem;
ghost use Rattle.std.specs.Prelude.{◌≡◌, ◌<◌, ◌≤◌, [], List, length, IsTrue, All, Bool, ℕ, None, Some, false, slice_get};
ghost use Rattle.etm_types.specs.Atoms.{most_atoms, atoms_in};
ghost use Rattle.etm_types.specs.Pre.{nothing_told};
ghost use Rattle.path_walker.specs.Walk.{ToldIsAligned, WalksRun};
ghost use Rattle.path_walker.specs.declared.stretch.Stretch.{Stretch};
ghost use Rattle.stream_decoder.specs.Decoding.{IsDecoding, depth_of};
ghost use Rattle.stream_decoder.specs.Yields.{WalksNext, WalksOn, left, WalksSome};
ghost use Rattle.etm_types.specs.declared.element.P0.TheVariants.{Atom};
ghost use Rattle.path_walker.specs.Things.{IsAlignedThing};
ghost use Rattle.stream_decoder.specs.Waiting.{DropsDue, IsWaiting, TakesAtoms, all_of};

use crate::machine::Decoding;
use crate::todo::Todo;
use crate::waiting::Waiting;
use etm_types::{AtomRun, Id};
use path_walker::{StretchTaker, Walker};
use program_image::Image;

impl Decoding {
    /// Walks what is due, and then the next elements, as long as these are atoms before which nothing but an address was given. Where each is
    /// committed as it is made, those of a packet are walked in one loop. Where there is none, and where the first is not walked, nothing
    /// changes but that the taker was told the context: [`next`](Decoding::next) goes on from there.
    #[inline(always)]
    pub fn next_run<T: StretchTaker>(&mut self, image: &Image, id: Id, taker: &mut T)
        ensures walks { WalksOn (T.adds image.now id self.old.walk.ctx) image.now self.old taker.old self.new taker.new }
        ensures holds { IsDecoding self.new }
    {
        match self.waiting.passing() {
            Some(given) => self.walk_passing(image, id, given, taker),
            None => self.walk_held(image, id, taker),
        }
    }

    /// The same, where this address was given before the first atom, or none.
    #[inline(always)]
    fn walk_passing<T: StretchTaker>(
        &mut self,
        image: &Image,
        id: Id,
        given: Option<u64>,
        taker: &mut T,
    )
        requires due { self.old.due ≡ [] }
        requires depth { self.old.reader.settings.depth ≡ 0 }
        requires given { self.old.pending.pre ≡ record nothing_told { addr = given } }
        ensures walks { WalksOn (T.adds image.now id self.old.walk.ctx) image.now self.old taker.old self.new taker.new }
        ensures holds { IsDecoding self.new }
    {
        let n = walk_run(&mut self.walker, image, id, &self.todo, given, taker);
        if n > 0 {
            self.waiting.pass_many(n as u32);
            self.todo.advance_by(n);
        }
    }

    /// The same, of what is held. It is a function of its own: the loop with all that it does is one piece of code then.
    #[inline(never)]
    fn walk_held<T: StretchTaker>(&mut self, image: &Image, id: Id, taker: &mut T)
        requires holds { IsDecoding self.old }
        ensures walks { WalksOn (T.adds image.now id self.old.walk.ctx) image.now self.old taker.old self.new taker.new }
        ensures holds { IsDecoding self.new }
    {
        while self.walk_some(image, id, taker) {}
    }

    /// Walks the oldest that are due; or, where nothing is due, takes the next elements where they are atoms, and walks what they commit. It
    /// does so as far as these are atoms before which nothing but an address was given, and the address of each is known. Says whether there
    /// may be more. Where there is none, and where the walk has a fault, [`next`](Decoding::next) goes on from there.
    ///
    /// Most elements are such, and what they show is small.
    #[inline(always)]
    fn walk_some<T: StretchTaker>(&mut self, image: &Image, id: Id, taker: &mut T) -> bool
        ensures walks { WalksOn (T.adds image.now id self.old.walk.ctx) image.now self.old taker.old self.new taker.new }
        ensures fewer { IsTrue result → left self.new < left self.old }
        ensures holds { IsDecoding self.new }
    {
        if self.waiting.is_due() {
            return self.walk_due(image, id, taker);
        }
        if self.waiting.is_full() {
            return self.walk_committed(image, id, taker);
        }
        false
    }

    /// Walks the oldest that are due. Says whether there was one, behind which there may be more.
    #[inline(always)]
    fn walk_due<T: StretchTaker>(&mut self, image: &Image, id: Id, taker: &mut T) -> bool
        requires holds { IsDecoding self.old }
        ensures walks { WalksOn (T.adds image.now id self.old.walk.ctx) image.now self.old taker.old self.new taker.new }
        ensures fewer { IsTrue result → left self.new < left self.old }
        ensures holds { IsDecoding self.new }
    {
        let most = self.waiting.due_count();
        let n = walk_oldest(&mut self.walker, image, id, &self.waiting, most, taker);
        if n == 0 {
            return false;
        }
        drop_due(&mut self.waiting, n);
        true
    }

    /// Takes the next elements where they are atoms, and walks the oldest, which they commit. No more may be held. Says whether there may be
    /// more: not where all the atoms that are next were walked.
    #[inline(always)]
    fn walk_committed<T: StretchTaker>(&mut self, image: &Image, id: Id, taker: &mut T) -> bool
        requires due { self.old.due ≡ [] }
        requires full { depth_of self.old ≤ length self.old.pending.held }
        requires holds { IsDecoding self.old }
        ensures walks { WalksOn (T.adds image.now id self.old.walk.ctx) image.now self.old taker.old self.new taker.new }
        ensures fewer { IsTrue result → left self.new < left self.old }
        ensures holds { IsDecoding self.new }
    {
        let most = self.todo.atom_count();
        if most == 0 {
            return false;
        }
        let n = walk_oldest(&mut self.walker, image, id, &self.waiting, most, taker);
        if n == 0 {
            return false;
        }
        take_atoms(&mut self.waiting, &mut self.todo, n);
        n < most
    }
}

/// Walks the atoms that are next, one after the other, as far as each shows a stretch: before the first this address was given, where
/// one was, and nothing before the others.
#[inline(always)]
fn walk_run<T: StretchTaker>(
    walker: &mut Walker,
    image: &Image,
    id: Id,
    todo: &Todo,
    given: Option<u64>,
    taker: &mut T,
) -> usize
    requires aligned { ToldIsAligned given }
    ensures walks { (run : List Stretch) × T.adds image.now id walker.old.ctx taker.old run taker.new × (length run ≡ result)
        × WalksNext image.now walker.old given todo.now.elements run walker.new }
    ensures few { result ≤ most_atoms }
    ensures context { walker.new.ctx ≡ walker.old.ctx }
{
    let atoms = todo.atoms(taker.room());
    walker.walk_atoms(image, id, given, &atoms, taker)
}

/// Walks the oldest of what waits, at most so many, as far as each is an atom before which nothing but an address was given and shows a
/// stretch, and as there is room for it. It gives how many.
///
/// Where nothing at all was given before them, as is so of most, they are walked as a run.
#[inline(always)]
pub fn walk_oldest<T: StretchTaker>(
    walker: &mut Walker,
    image: &Image,
    id: Id,
    waiting: &Waiting,
    most: usize,
    taker: &mut T,
) -> usize
    requires { All IsAlignedThing (all_of waiting.now) }
    ensures { WalksSome (T.adds image.now id walker.old.ctx) image.now walker.old (all_of waiting.now) most taker.old result walker.new taker.new }
{
    let atoms = waiting.oldest_plain(most);
    if atoms.count > 0 {
        walk_plain(walker, image, id, atoms, taker)
    } else {
        walk_first(walker, image, id, waiting, most, taker)
    }
}

/// The same of atoms before which nothing was given.
#[inline(always)]
pub fn walk_plain<T: StretchTaker>(
    walker: &mut Walker,
    image: &Image,
    id: Id,
    atoms: AtomRun,
    taker: &mut T,
) -> usize
    ensures walks { WalksRun (T.adds image.now id walker.old.ctx) image.now walker.old None (atoms_in atoms) taker.old result walker.new taker.new }
    ensures most { result ≤ atoms.count }
    ensures context { walker.new.ctx ≡ walker.old.ctx }
{
    walker.walk_atoms(image, id, None, &atoms, taker)
}

/// The same, whatever address was given before the first.
#[inline(never)]
fn walk_first<T: StretchTaker>(
    walker: &mut Walker,
    image: &Image,
    id: Id,
    waiting: &Waiting,
    most: usize,
    taker: &mut T,
) -> usize
    requires { All IsAlignedThing (all_of waiting.now) }
    ensures { WalksSome (T.adds image.now id walker.old.ctx) image.now walker.old (all_of waiting.now) most taker.old result walker.new taker.new }
{
    let Some(given) = waiting.oldest_given(most) else {
        return 0;
    };
    walker.walk_atoms(image, id, given.addr, &given.atoms, taker)
}

/// Takes so many of the atoms that are next, where no more may be held and at least as many are: each commits the oldest, which was walked.
///
/// Where nothing was given before any of these, as is so of most, they are taken as a run. Something may have been given before the first
/// alone, so behind that one a run is tried again.
#[inline(always)]
pub fn take_atoms(waiting: &mut Waiting, todo: &mut Todo, n: usize)
    requires some { 0 < n }
    requires due { waiting.old.due ≡ [] }
    requires full { waiting.old.depth ≤ length waiting.old.pending.held }
    requires held { n ≤ length waiting.old.pending.held }
    requires atoms { (k : ℕ) → k < n → (taken : Bool) × (slice_get todo.old.elements k ≡ Some (elem.P0 (Atom taken))) }
    requires holds { IsWaiting waiting.old }
    ensures takes { TakesAtoms waiting.old todo.old.elements n waiting.new todo.new.elements }
    ensures at { todo.new.at ≡ todo.old.at }
    ensures holds { IsWaiting waiting.new }
{
    if take_run(waiting, todo, n) {
        return;
    }
    take_first(waiting, todo);
    if n > 1 && !take_run(waiting, todo, n - 1) {
        take_each(waiting, todo, n - 1);
    }
}

/// Takes the atom that is next, where no more may be held: it commits the oldest, which was walked.
#[inline(never)]
fn take_first(waiting: &mut Waiting, todo: &mut Todo)
    requires due { waiting.old.due ≡ [] }
    requires atom { (taken : Bool) × (slice_get todo.old.elements 0 ≡ Some (elem.P0 (Atom taken))) }
    ensures takes { TakesAtoms waiting.old todo.old.elements 1 waiting.new todo.new.elements }
    ensures at { todo.new.at ≡ todo.old.at }
    ensures holds { IsWaiting waiting.new }
{
    let Some(taken) = todo.first_atom() else {
        unreachable!()
    };
    waiting.take_atom(taken);
    todo.advance();
}

/// The same as a run, where nothing was given before any of them nor before the oldest. Else nothing changes.
#[inline(always)]
fn take_run(waiting: &mut Waiting, todo: &mut Todo, n: usize) -> bool
    requires some { 0 < n }
    requires due { waiting.old.due ≡ [] }
    requires atoms { (k : ℕ) → k < n → (taken : Bool) × (slice_get todo.old.elements k ≡ Some (elem.P0 (Atom taken))) }
    requires holds { IsWaiting waiting.old }
    ensures takes { IsTrue result → TakesAtoms waiting.old todo.old.elements n waiting.new todo.new.elements }
    ensures unchanged { result ≡ false → (waiting.new ≡ waiting.old) × (todo.new ≡ todo.old) }
    ensures at { todo.new.at ≡ todo.old.at }
    ensures holds { IsWaiting waiting.new }
{
    let atoms = todo.first_atoms(n);
    if !waiting.rotate(&atoms) {
        return false;
    }
    todo.advance_by(n);
    true
}

/// The same, one by one.
#[inline(never)]
fn take_each(waiting: &mut Waiting, todo: &mut Todo, n: usize)
    requires due { waiting.old.due ≡ [] }
    requires full { waiting.old.depth ≤ length waiting.old.pending.held }
    requires held { n ≤ length waiting.old.pending.held }
    requires atoms { (k : ℕ) → k < n → (taken : Bool) × (slice_get todo.old.elements k ≡ Some (elem.P0 (Atom taken))) }
    requires holds { IsWaiting waiting.old }
    ensures takes { TakesAtoms waiting.old todo.old.elements n waiting.new todo.new.elements }
    ensures at { todo.new.at ≡ todo.old.at }
    ensures holds { IsWaiting waiting.new }
{
    let mut k = 0;
    while k < n {
        let Some(taken) = todo.first_atom() else {
            unreachable!()
        };
        if k == 0 {
            waiting.take_atom(taken);
        } else {
            waiting.take_plain_atom(taken);
        }
        todo.advance();
        k += 1;
    }
}

/// So many of the oldest that are due, at most 24, were walked, and are given out: as a run where nothing was given before any of them.
#[inline(always)]
pub fn drop_due(waiting: &mut Waiting, n: usize)
    requires few { n ≤ most_atoms }
    requires due { n ≤ length waiting.old.due }
    requires holds { IsWaiting waiting.old }
    ensures drops { DropsDue waiting.old n waiting.new }
    ensures holds { IsWaiting waiting.new }
{
    if !waiting.drop_plain(n) {
        drop_each(waiting, n);
    }
}

/// The same, one by one.
#[inline(never)]
fn drop_each(waiting: &mut Waiting, n: usize)
    requires due { n ≤ length waiting.old.due }
    requires holds { IsWaiting waiting.old }
    ensures drops { DropsDue waiting.old n waiting.new }
    ensures holds { IsWaiting waiting.new }
{
    let mut k = 0;
    while k < n {
        waiting.drop_due();
        k += 1;
    }
}

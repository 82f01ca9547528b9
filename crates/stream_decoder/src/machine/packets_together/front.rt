//! The packets of atoms at the front of some bytes, as one run: their atoms are taken first, and then the reader takes the packets in which these
//! stand. Most packets are atoms, and most of them have few: what a call costs is shared by the atoms of several then.
//!
//! *Together* are taken: the packets of atoms that stand side by side, of at most 24 atoms in all.
//!
//! *Condition:* their atoms are committed as they are made, or each commits the oldest that is held, and what they commit is walked; or there is room
//! for them, and nothing is committed.
//!
//! *Left to the long way:* the atoms from the first on that can't be taken so. Those of the packet in which the last of them stands are left to do.
//!
//! *Cost:* a look at each byte. Where not all atoms are taken, the reader goes over the packets one by one once more.
ghost use Rattle.std.specs.Prelude.{◌≡◌, ◌≤◌, ◌<◌, ◌+◌, ◌^◌, ◌++◌, ℕ, [], true, None, Some, All, Bool, List, drop, length, slice_get, take};
ghost use Rattle.etm_types.specs.Atoms.{atoms_in, most_atoms};
ghost use Rattle.etm_types.specs.Pre.{nothing_told};
ghost use Rattle.etm_types.specs.declared.element.Elem.TheVariants as elem;
ghost use Rattle.etm_types.specs.declared.element.P0.TheVariants.{Atom};
ghost use Rattle.packet_reader.specs.declared.phase.Phase.{Phase};
ghost use Rattle.packet_reader.specs.declared.phase.Phase.TheVariants.{Between};
ghost use Rattle.path_elements.specs.Elements.{atoms};
ghost use Rattle.path_walker.specs.State.{IsState, State};
ghost use Rattle.path_walker.specs.Things.{IsAlignedThing};
ghost use Rattle.path_walker.specs.Walk.{ToldIsAligned};
ghost use Rattle.program_image.specs.declared.image.Image.{Image as ImageWords};
ghost use Rattle.stream_decoder.specs.AtomPackets.{BeginWithAtoms, ReachesAtom, ReadsUntil, StepsByAtoms, TakesSome, TellAtoms};
ghost use Rattle.stream_decoder.specs.Waiting.{IsWaiting, all_of};

use crate::machine::oldest::{take_atoms, walk_oldest};
use crate::todo::Todo;
use crate::waiting::Waiting;
use atom_formats::atoms_of;
use etm_types::{AtomRun, Id, MOST_ATOMS};
use packet_reader::PacketReader;
use path_elements::ElemMaker;
use path_walker::{StretchTaker, Walker};
use program_image::Image;

/// Where a reader stands that took packets of atoms up to a certain atom.
#[derive(Drop)]
struct Reached<'a> {
    /// The offset of the last packet.
    at: u64,
    /// Its atoms.
    atoms: AtomRun,
    /// How many of them are not behind that atom.
    within: usize,
    /// The bytes behind it.
    behind: &'a [u8],
}

/// The packets of atoms at the front of some bytes: their atoms as one run, of as many packets as there are and as there is room for, and the
/// bytes behind them.
#[inline(always)]
pub fn atoms_at(bytes: &[u8]) -> (AtomRun, &[u8])
    ensures front { (text : List ℕ) × (bytes.now ≡ text ++ result.1.now) × TellAtoms text (atoms_in result.0) }
    ensures few { result.0.count ≤ most_atoms }
{
    let mut run = AtomRun { count: 0, bits: 0 };
    let mut rest = bytes;
    while let Some((byte, behind)) = rest.split_first() {
        let Some(atoms) = atoms_of(*byte) else {
            break;
        };
        let count = run.count + atoms.count;
        if usize::from(count) > MOST_ATOMS {
            break;
        }
        run.bits += atoms.bits << run.count;
        run.count = count;
        rest = behind;
    }
    (run, rest)
}

/// Takes packets of atoms, up to the one in which the last of the next n atoms stands. The atoms of that one that are behind it are left to do.
/// Where these are all that some packets have, these packets are skipped. It gives the bytes behind the last.
#[inline(always)]
pub fn take_up_to<'a>(
    reader: &mut PacketReader,
    todo: &mut Todo,
    maker: &ElemMaker,
    bytes: &'a [u8],
    atoms: &AtomRun,
    behind: &'a [u8],
    n: usize,
) -> &'a [u8]
    requires between { reader.old.phase ≡ Between }
    requires small { reader.old.offset + length bytes.now ≤ 2 ^ 62 }
    requires ready { (maker.now.informed ≡ true) × (maker.now.awaiting ≡ None) }
    requires rest { todo.old.elements ≡ [] }
    requires some { 0 < n }
    requires few { n ≤ atoms.now.count }
    requires front { (text : List ℕ) × (bytes.now ≡ text ++ behind.now) × TellAtoms text (atoms_in atoms.now) }
    ensures reaches { ReachesAtom reader.old bytes.now n todo.new result.now reader.new }
    ensures between { reader.new.phase ≡ Between }
{
    if n == usize::from(atoms.count) {
        todo.move_to(reader.skip((bytes.len() - behind.len()) as u64, 1));
        return behind;
    }
    take_among(reader, todo, maker, bytes, n)
}

/// The same where more atoms follow: the packets are taken one by one.
#[inline(never)]
fn take_among<'a>(
    reader: &mut PacketReader,
    todo: &mut Todo,
    maker: &ElemMaker,
    bytes: &'a [u8],
    n: usize,
) -> &'a [u8]
    requires between { reader.old.phase ≡ Between }
    requires small { reader.old.offset + length bytes.now ≤ 2 ^ 62 }
    requires ready { (maker.now.informed ≡ true) × (maker.now.awaiting ≡ None) }
    requires some { 0 < n }
    requires atoms { (all : List Bool) × BeginWithAtoms bytes.now all × (n ≤ length all) }
    ensures reaches { ReachesAtom reader.old bytes.now n todo.new result.now reader.new }
    ensures between { reader.new.phase ≡ Between }
{
    let Reached {
        at,
        atoms,
        within,
        behind,
    } = read_until(reader, bytes, n);
    let Some(elems) = maker.atoms_of(&atoms) else {
        unreachable!()
    };
    *todo = Todo::of(at, elems);
    todo.advance_by(within);
    behind
}

/// Takes packets of atoms, up to the one in which the last of the next n atoms stands. So many must be there.
#[inline(always)]
fn read_until<'a>(reader: &mut PacketReader, bytes: &'a [u8], n: usize) -> Reached<'a>
    requires between { reader.old.phase ≡ Between }
    requires small { reader.old.offset + length bytes.now ≤ 2 ^ 62 }
    requires some { 0 < n }
    requires atoms { (all : List Bool) × BeginWithAtoms bytes.now all × (n ≤ length all) }
    ensures reads { ReadsUntil reader.old bytes.now n result.at result.atoms result.within result.behind.now reader.new }
    ensures between { reader.new.phase ≡ Between }
{
    let mut left = n;
    let mut rest = bytes;
    loop {
        let Some((byte, behind)) = rest.split_first() else {
            unreachable!()
        };
        let Some((at, atoms)) = reader.take_atoms(*byte) else {
            unreachable!()
        };
        let count = usize::from(atoms.count);
        if left <= count {
            return Reached {
                at,
                atoms,
                within: left,
                behind,
            };
        }
        left -= count;
        rest = behind;
    }
}

/// Takes the first of the atoms that are next, as many as can be taken in one of three ways: where each is committed as it is made, where
/// each commits the oldest that is held, and where there is room for them. What this commits is walked, as far as it is atoms before which
/// nothing but an address was given and each shows a stretch. It gives how many.
#[inline(always)]
pub fn take_some<T: StretchTaker>(
    waiting: &mut Waiting,
    walker: &mut Walker,
    image: &Image,
    id: Id,
    front: Todo,
    taker: &mut T,
) -> usize
    requires due { waiting.old.due ≡ [] }
    requires things { All IsAlignedThing (all_of waiting.old) }
    requires given { ToldIsAligned waiting.old.pending.pre.addr }
    requires state { IsState walker.old }
    requires holds { IsWaiting waiting.old }
    ensures steps { (told : List Bool) → front.elements ≡ atoms told
        → TakesSome (T.adds image.now id walker.old.ctx) image.now waiting.old walker.old told taker.old result waiting.new walker.new taker.new }
{
    if let Some(given) = waiting.passing() {
        return pass_some(waiting, walker, image, id, given, &front, taker);
    }
    if waiting.is_full() {
        return turn_some(waiting, walker, image, id, front, taker);
    }
    hold_some(waiting, &front)
}

/// The same where each is committed as it is made, and this address was given before the first, or none.
#[inline(always)]
fn pass_some<T: StretchTaker>(
    waiting: &mut Waiting,
    walker: &mut Walker,
    image: &Image,
    id: Id,
    given: Option<u64>,
    front: &Todo,
    taker: &mut T,
) -> usize
    requires due { waiting.old.due ≡ [] }
    requires depth { waiting.old.depth ≡ 0 }
    requires pre { waiting.old.pending.pre ≡ record nothing_told { addr = given } }
    requires given { ToldIsAligned given }
    requires holds { IsWaiting waiting.old }
    ensures steps { (told : List Bool) → front.now.elements ≡ atoms told
        → TakesSome (T.adds image.now id walker.old.ctx) image.now waiting.old walker.old told taker.old result waiting.new walker.new taker.new }
{
    let atoms = front.atoms(taker.room());
    let n = walker.walk_atoms(image, id, given, &atoms, taker);
    if n > 0 {
        waiting.pass_many(n as u32);
    }
    n
}

/// The same where no more may be held: each commits the oldest. An address before one of these ends no more than what is walked by one call.
#[inline(always)]
fn turn_some<T: StretchTaker>(
    waiting: &mut Waiting,
    walker: &mut Walker,
    image: &Image,
    id: Id,
    front: Todo,
    taker: &mut T,
) -> usize
    requires due { waiting.old.due ≡ [] }
    requires full { waiting.old.depth ≤ length waiting.old.pending.held }
    requires things { All IsAlignedThing (all_of waiting.old) }
    requires given { ToldIsAligned waiting.old.pending.pre.addr }
    requires holds { IsWaiting waiting.old }
    ensures steps { (told : List Bool) → front.elements ≡ atoms told
        → TakesSome (T.adds image.now id walker.old.ctx) image.now waiting.old walker.old told taker.old result waiting.new walker.new taker.new }
{
    let mut front = front;
    let most = front.atom_count();
    let mut n = 0;
    while n < most {
        let more = turn_run(waiting, walker, image, id, &mut front, most - n, taker);
        n += more;
        if more == 0 {
            break;
        }
    }
    n
}

/// The same of at most so many, as far as one call walks the oldest.
#[inline(always)]
fn turn_run<T: StretchTaker>(
    waiting: &mut Waiting,
    walker: &mut Walker,
    image: &Image,
    id: Id,
    front: &mut Todo,
    most: usize,
    taker: &mut T,
) -> usize
    requires due { waiting.old.due ≡ [] }
    requires full { waiting.old.depth ≤ length waiting.old.pending.held }
    requires things { All IsAlignedThing (all_of waiting.old) }
    requires given { ToldIsAligned waiting.old.pending.pre.addr }
    requires holds { IsWaiting waiting.old }
    requires atoms { (k : ℕ) → k < most → (taken : Bool) × (slice_get front.old.elements k ≡ Some (elem.P0 (Atom taken))) }
    ensures steps { (told : List Bool) → front.old.elements ≡ atoms told
        → TakesSome (T.adds image.now id walker.old.ctx) image.now waiting.old walker.old told taker.old result waiting.new walker.new taker.new }
    ensures left { front.new.elements ≡ drop result front.old.elements }
    ensures most { result ≤ most }
    ensures due { waiting.new.due ≡ [] }
    ensures full { waiting.new.depth ≤ length waiting.new.pending.held }
    ensures things { All IsAlignedThing (all_of waiting.new) }
    ensures given { ToldIsAligned waiting.new.pending.pre.addr }
    ensures holds { IsWaiting waiting.new }
    ensures context { walker.new.ctx ≡ walker.old.ctx }
{
    let n = walk_oldest(walker, image, id, waiting, most, taker);
    if n > 0 {
        take_atoms(waiting, front, n);
    }
    n
}

/// The same where there is room for some of them: nothing is committed.
#[inline(always)]
fn hold_some(waiting: &mut Waiting, front: &Todo) -> usize
    requires due { waiting.old.due ≡ [] }
    requires holds { IsWaiting waiting.old }
    ensures steps { (image : ImageWords) (s : State) (told : List Bool) → IsState s → front.now.elements ≡ atoms told
        → (result ≤ length told) × StepsByAtoms image waiting.old s (take result told) [] waiting.new s }
{
    let atoms = front.atoms(waiting.room());
    if atoms.count == 0 || !waiting.hold(&atoms) {
        return 0;
    }
    usize::from(atoms.count)
}

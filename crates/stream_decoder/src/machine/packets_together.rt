//! A fast way: several packets at the front of some bytes are taken together, and the atoms that they commit are walked in loops.
//!
//! *Together* are taken: packets of atoms, whose atoms are walked or held as one run; or addresses, each with the packets of atoms behind it; or,
//! from a commit, a cancel or a mispredict on, packets of atoms and such packets. An address may also be taken alone: then it is only noted, and
//! stays with the next P0 element.
//!
//! *Condition:* no fault was met, a packet begins at these bytes, nothing is left to do, and atoms count and may come. Besides: packets of atoms are
//! taken as far as their atoms can be walked by [`oldest`](super::oldest), or where none is committed, as many as there is room for; addresses with
//! their atoms, where each atom is committed as it is made, and an address alone, where that is not so; and from a commit, a cancel or a
//! mispredict on, where all that is held is atoms before which nothing was given, nothing was given since, and each number has one byte.
//!
//! *Left to the long way:* all else. Nothing has to be done: the answer is `None` then, and nothing changes but that the taker may have been told the
//! context. What the last packet commits or has besides what was walked is left to do.
//!
//! *Cost:* a test of the first byte where that begins no such packet; else one look at each byte, and a walk for each run of atoms ([`front`]), for
//! each address, or for all that was foretold ([`ahead`]); an address that is only noted costs none. Where the walk ends earlier, the bytes are
//! looked at a second time, and where nothing is walked, the look was in vain.
ghost use Rattle.std.specs.Prelude.{◌≡◌, ◌≢◌, ◌<◌, ◌≤◌, ◌+◌, ◌^◌, ◌++◌, ℕ, List, [], true};
ghost use Rattle.std.specs.Prelude.{length, None, IfSome};
ghost use Rattle.packet_reader.specs.declared.phase.Phase.TheVariants.{Between};
ghost use Rattle.program_image.specs.declared.image.Image.{Image};
ghost use Rattle.stream_decoder.specs.AtomPackets.{PassesAtoms, RunsFront, RunsPacket};
ghost use Rattle.stream_decoder.specs.Decoding.{AtRest, IsDecoding};

mod ahead;
mod front;

use self::ahead::{Foretelling, foretell, no_further};
use self::front::{atoms_at, take_some, take_up_to};
use crate::machine::Decoding;
use crate::machine::oldest::walk_plain;
use crate::todo::Todo;
use etm_types::Id;
use packet_grammar::headers::{
    ATOMS, CANCEL_FORMAT_1, COMMIT, EXACT_MATCH, MISPREDICT, SHORT_ADDRESS,
};
use packet_reader::near_address_at;
use path_walker::StretchTaker;
use program_image::Image;

impl Decoding {
    /// Takes several packets at the front of the bytes that come next together, and walks what they commit: packets of atoms as one run; addresses
    /// as [`run_addressed`](Decoding::run_addressed) does; or from a commit, cancel or mispredict on as [`run_ahead`](Decoding::run_ahead) does. It
    /// gives the bytes behind the last packet. What that one leaves is left to do. Where nothing can be taken so, nothing changes.
    #[inline(always)]
    pub fn run_packets<'a, T: StretchTaker>(
        &mut self,
        image: &Image,
        id: Id,
        bytes: &'a [u8],
        taker: &mut T,
    ) -> Option<&'a [u8]>
        requires few { self.old.reader.offset + length bytes.now ≤ 2 ^ 62 }
        requires rest { AtRest self.old }
        requires holds { IsDecoding self.old }
        ensures runs { IfSome result (λ behind. RunsFront (T.adds image.now id self.old.walk.ctx) image.now self.old taker.old bytes.now behind.now
            self.new taker.new) }
        ensures none { result ≡ None → (self.new ≡ self.old) × T.adds image.now id self.old.walk.ctx taker.old [] taker.new }
        ensures stopped { self.old.fault ≢ None → (result ≡ None) × (taker.new ≡ taker.old) }
        ensures holds { IsDecoding self.new }
    {
        if self.fault.is_some() || !self.reader.is_between() {
            return None;
        }
        let header = *bytes.first()?;
        if header >= ATOMS {
            self.run_front(image, id, bytes, taker)
        } else if header == COMMIT || header == CANCEL_FORMAT_1 || header == MISPREDICT {
            self.run_ahead(image, id, bytes, taker)
        } else if header >= EXACT_MATCH && header <= SHORT_ADDRESS {
            self.run_addressed(image, id, bytes, taker)
        } else {
            None
        }
    }

    /// Takes the packets of atoms at the front of the bytes that come next, as one run: up to the packet in which the last of the atoms stands
    /// that can be taken so. It gives the bytes behind that packet; the atoms of it that are left are left to do. Where no atom can be
    /// taken so, nothing changes.
    #[inline(always)]
    fn run_front<'a, T: StretchTaker>(
        &mut self,
        image: &Image,
        id: Id,
        bytes: &'a [u8],
        taker: &mut T,
    ) -> Option<&'a [u8]>
        requires few { self.old.reader.offset + length bytes.now ≤ 2 ^ 62 }
        requires whole { self.old.fault ≡ None }
        requires between { self.old.reader.phase ≡ Between }
        requires rest { AtRest self.old }
        requires holds { IsDecoding self.old }
        ensures runs { IfSome result (λ behind. RunsFront (T.adds image.now id self.old.walk.ctx) image.now self.old taker.old bytes.now behind.now
            self.new taker.new) }
        ensures none { result ≡ None → (self.new ≡ self.old) × T.adds image.now id self.old.walk.ctx taker.old [] taker.new }
        ensures holds { IsDecoding self.new }
    {
        let (atoms, behind) = atoms_at(bytes);
        if atoms.count == 0 {
            return None;
        }
        let front = Todo::of(0, self.maker.atoms_of(&atoms)?);
        let n = take_some(&mut self.waiting, &mut self.walker, image, id, front, taker);
        if n == 0 {
            return None;
        }
        Some(take_up_to(
            &mut self.reader,
            &mut self.todo,
            &self.maker,
            bytes,
            &atoms,
            behind,
            n,
        ))
    }

    /// Takes the address packets at the front of the bytes that come next, each with the packets of atoms behind it, where each atom is committed as
    /// it is made: as long as [`run_address`](Decoding::run_address) takes one. Where atoms are not committed so, or more than an address was
    /// given before the next one, the first address is noted alone ([`note_addressed`](Decoding::note_addressed)). It gives the bytes behind the
    /// last packet. Where none is taken so, nothing changes.
    #[inline(always)]
    fn run_addressed<'a, T: StretchTaker>(
        &mut self,
        image: &Image,
        id: Id,
        bytes: &'a [u8],
        taker: &mut T,
    ) -> Option<&'a [u8]>
        requires few { self.old.reader.offset + length bytes.now ≤ 2 ^ 62 }
        requires whole { self.old.fault ≡ None }
        requires between { self.old.reader.phase ≡ Between }
        requires rest { AtRest self.old }
        requires holds { IsDecoding self.old }
        ensures runs { IfSome result (λ behind. RunsFront (T.adds image.now id self.old.walk.ctx) image.now self.old taker.old bytes.now behind.now
            self.new taker.new) }
        ensures none { result ≡ None → (self.new ≡ self.old) × T.adds image.now id self.old.walk.ctx taker.old [] taker.new }
        ensures holds { IsDecoding self.new }
    {
        if !self.maker.is_ready() {
            return None;
        }
        if self.waiting.passing().is_none() {
            return self.note_addressed(bytes);
        }
        let mut rest = bytes;
        while let Some(behind) = self.run_address(image, id, rest, taker) {
            rest = behind;
        }
        if rest.len() == bytes.len() {
            return None;
        }
        Some(rest)
    }

    /// Takes the address packet at the front of the bytes that come next, and only notes the address: it stays with the next P0 element. The packet
    /// must be of few bytes and without a context. It gives the bytes behind it. Where there is no such packet, nothing changes.
    #[inline(always)]
    fn note_addressed<'a>(&mut self, bytes: &'a [u8]) -> Option<&'a [u8]>
        requires few { self.old.reader.offset + length bytes.now ≤ 2 ^ 62 }
        requires whole { self.old.fault ≡ None }
        requires between { self.old.reader.phase ≡ Between }
        requires rest { AtRest self.old }
        requires ready { (self.old.told.informed ≡ true) × (self.old.told.awaiting ≡ None) }
        requires holds { IsDecoding self.old }
        ensures runs { IfSome result (λ behind. (text : List ℕ) × (bytes.now ≡ text ++ behind.now) × (0 < length text)
            × (self.new.reader.offset ≡ self.old.reader.offset + length text) × ((image : Image) → RunsPacket image self.old text [] self.new)) }
        ensures settings { self.new.reader.settings ≡ self.old.reader.settings }
        ensures none { result ≡ None → self.new ≡ self.old }
        ensures holds { IsDecoding self.new }
    {
        let (form, rest) = near_address_at(bytes)?;
        let addr = self.maker.address_of(&form);
        self.waiting.take_address(addr);
        self.maker.tell_address(&form, addr);
        let text = (bytes.len() - rest.len()) as u64;
        self.todo.move_to(self.reader.skip(text, text));
        Some(rest)
    }

    /// Takes the address packet at the front of the bytes that come next, and the packets of atoms behind it as one run, where each atom is committed
    /// as it is made: an address of few bytes and without a context, and up to the packet in which the last of the atoms stands that can be
    /// walked. It gives the bytes behind that packet; the atoms of it that are left are left to do. Where no atom can be walked so, and where
    /// something is left to do of the packet before, nothing changes.
    #[inline(always)]
    fn run_address<'a, T: StretchTaker>(
        &mut self,
        image: &Image,
        id: Id,
        bytes: &'a [u8],
        taker: &mut T,
    ) -> Option<&'a [u8]>
        requires few { self.old.reader.offset + length bytes.now ≤ 2 ^ 62 }
        requires passes { PassesAtoms self.old }
        requires holds { IsDecoding self.old }
        ensures rest { IfSome result (λ behind. AtRest self.old) }
        ensures runs { IfSome result (λ behind. RunsFront (T.adds image.now id self.old.walk.ctx) image.now self.old taker.old bytes.now behind.now
            self.new taker.new) }
        ensures none { result ≡ None → (self.new ≡ self.old) × T.adds image.now id self.old.walk.ctx taker.old [] taker.new }
        ensures passes { PassesAtoms self.new }
        ensures context { self.new.walk.ctx ≡ self.old.walk.ctx }
        ensures holds { IsDecoding self.new }
    {
        if !self.todo.is_empty() {
            return None;
        }
        let (form, rest) = near_address_at(bytes)?;
        let (atoms, behind) = atoms_at(rest);
        if atoms.count == 0 {
            return None;
        }
        let addr = self.maker.address_of(&form);
        let n = self.walker.walk_atoms(image, id, Some(addr), &atoms, taker);
        if n == 0 {
            return None;
        }
        self.maker.tell_address(&form, addr);
        self.waiting.pass_many(n as u32);
        let text = (bytes.len() - rest.len()) as u64;
        let _at = self.reader.skip(text, text);
        Some(take_up_to(
            &mut self.reader,
            &mut self.todo,
            &self.maker,
            rest,
            &atoms,
            behind,
            n,
        ))
    }

    /// Takes the packets of atoms, commits, cancels and mispredicts at the front of the bytes that come next, where all that is held is atoms before
    /// which nothing was given: what they commit is walked as one run, and the packets are taken up to that in which the last of it stands, or all
    /// where they commit nothing. It gives the bytes behind the last packet; what it commits besides is due. Where there is no such packet, and
    /// where the first atom that they commit is not walked, nothing changes.
    #[inline(always)]
    fn run_ahead<'a, T: StretchTaker>(
        &mut self,
        image: &Image,
        id: Id,
        bytes: &'a [u8],
        taker: &mut T,
    ) -> Option<&'a [u8]>
        requires few { self.old.reader.offset + length bytes.now ≤ 2 ^ 62 }
        requires whole { self.old.fault ≡ None }
        requires between { self.old.reader.phase ≡ Between }
        requires rest { AtRest self.old }
        requires holds { IsDecoding self.old }
        ensures runs { IfSome result (λ behind. RunsFront (T.adds image.now id self.old.walk.ctx) image.now self.old taker.old bytes.now behind.now
            self.new taker.new) }
        ensures none { result ≡ None → (self.new ≡ self.old) × T.adds image.now id self.old.walk.ctx taker.old [] taker.new }
        ensures holds { IsDecoding self.new }
    {
        if !self.maker.is_ready() {
            return None;
        }
        let outlook = self.waiting.outlook()?;
        let ahead = foretell(outlook.again(), bytes, taker.room() as u32);
        if ahead.last == 0 {
            return None;
        }
        let atoms = ahead.outlook.oldest();
        let n = walk_plain(&mut self.walker, image, id, atoms, taker) as u32;
        if n == 0 && atoms.count > 0 {
            return None;
        }
        let Foretelling {
            outlook,
            last,
            behind,
        } = no_further(ahead, outlook, bytes, n);
        let length = (bytes.len() - behind.len()) as u64;
        self.todo.move_to(self.reader.skip(length, last as u64));
        self.waiting.settle(&outlook, n);
        Some(behind)
    }
}

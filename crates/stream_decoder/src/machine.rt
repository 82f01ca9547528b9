//! One stream, from its bytes to what they show: a machine that knows no sink.
//!
//! This is the long way: each byte is taken by itself ([`begin`](Decoding::begin)), and so is each element of the packet that it ends, and each
//! thing that an element commits is walked by itself ([`next`](Decoding::next)). It is enough, whatever comes.
//!
//! Most of what comes is atoms. Two fast ways take many of them together, each in a room of its own: [`oldest`] walks what an element commits, and
//! [`packets_together`] takes whole packets, and stands on `oldest`. Either may do nothing at any time; what it would have done goes the long way
//! then, and shows the same. So `packets_together` can be deleted, and behind it `oldest`.
ghost use Rattle.std.specs.Prelude.{◌≡◌, ◌<◌, ◌≤◌, ◌+◌, ◌^◌, ◌++◌, ◌∷◌, [], List, ℕ, Ok};
ghost use Rattle.std.specs.Prelude.{length, Err, Some, None, IfOk, IfSome, IsErr, IsTrue, false, All, ◌↔◌, option_to_list};
ghost use Rattle.element_queue.specs.Counting.{Balances, counts_after};
ghost use Rattle.element_queue.specs.Pending.{losing};
ghost use Rattle.etm_types.specs.declared.queue_fault.QueueFault.{QueueFault};
ghost use Rattle.etm_types.specs.declared.walk_fault.WalkFault.{WalkFault};
ghost use Rattle.packet_grammar.specs.Parsed.{Ending, IsStream};
ghost use Rattle.packet_grammar.specs.declared.packet.Packet.{Packet};
ghost use Rattle.packet_grammar.specs.declared.stream_fault.Fault.{Fault};
ghost use Rattle.packet_reader.specs.Answered.{fault_of};
ghost use Rattle.packet_reader.specs.Stands as stands;
ghost use Rattle.path_elements.specs.Held.{CanBeTaken};
ghost use Rattle.path_walker.specs.Things.{IsAlignedThing, Walks};
ghost use Rattle.stream_decoder.specs.Decoding.{AtRest, Begins, IsDecoding};
ghost use Rattle.stream_decoder.specs.Follows.{FindsWords};
ghost use Rattle.stream_decoder.specs.Stands.{end_at};
ghost use Rattle.stream_decoder.specs.Yields.{BegunFront, Ends, Goes, Leaves, OpensPacket, Refuses, Stops, TakesByte};
ghost use Rattle.stream_decoder.specs.Yields.{items_of_found, items_found, left};

mod oldest;
mod packets_together;

use crate::found::Found;
use crate::todo::Todo;
use crate::waiting::Waiting;
use element_queue::{Counts, Ledger};
use etm_types::{AtomRun, Ctx, QueueFault, Settings, Thing};
use packet_grammar::{End, Fault, Packet};
use packet_reader::{PacketReader, Step};
use path_elements::{Awaited, ElemMaker};
use path_walker::Walker;
use program_image::Image;
use std::alloc::{AllocError, Global};
use std::marker::Model;

/// One stream, between its bytes and within one. It has no drop: `close` ends it.
#[must_use]
pub struct Decoding {
    reader: PacketReader,
    maker: ElemMaker,
    todo: Todo,
    waiting: Waiting,
    walker: Walker,
    /// The first fault, with the offset of its packet.
    fault: Option<(u64, Fault)>,
}

impl Model for Decoding {
    ghost use Rattle.std.specs.Prelude.{◌≡◌};
    ghost use Rattle.stream_decoder.specs.Decoding.{Decoding, IsDecoding, decoding_of};

    ghost Value = { Decoding };

    ghost view = { λ d. decoding_of d.reader d.maker d.todo d.waiting d.walker d.fault };

    ghost invariant = { λ d. (d.waiting.depth ≡ d.reader.settings.depth) × IsDecoding (decoding_of d.reader d.maker d.todo d.waiting d.walker d.fault) };
}

impl Decoding {
    /// A stream of which nothing was taken. This is the one call that takes memory, and the error means want
    /// of it.
    pub fn new(alloc: Global, settings: &Settings) -> Result<Decoding, AllocError>
        ensures { IfOk result (λ d. Begins settings.now d) }
    {
        let walker = Walker::new(alloc)?;
        let waiting = Waiting::new(alloc, settings.depth())?;
        Ok(Decoding {
            reader: PacketReader::new(settings),
            maker: ElemMaker::new(),
            todo: Todo::nothing(),
            waiting,
            walker,
            fault: None,
        })
    }

    /// Takes the next byte. The elements of the packet that it ends are left to do. Behind a fault nothing is
    /// taken but the byte.
    ///
    /// Most packets are atoms: these make their elements without a look at what else a packet may be.
    #[inline(always)]
    pub fn begin(&mut self, byte: u8)
        requires few { self.old.reader.offset < 2 ^ 62 }
        requires rest { AtRest self.old }
        ensures takes { TakesByte self.old byte self.new }
        ensures holds { IsDecoding self.new }
    {
        if self.fault.is_some() {
            return self.begin_any(byte);
        }
        match self.reader.take_atoms(byte) {
            Some((at, run)) => self.open_atoms(at, run),
            None => self.begin_any(byte),
        }
    }

    /// Takes the first of the bytes that come next, and gives those behind it. Nothing means that there is no byte.
    #[inline(always)]
    pub fn begin_front<'a>(&mut self, bytes: &'a [u8]) -> Option<&'a [u8]>
        requires few { self.old.reader.offset + length bytes.now ≤ 2 ^ 62 }
        requires rest { AtRest self.old }
        requires holds { IsDecoding self.old }
        ensures begun { IfSome result (λ behind. BegunFront self.old self.new bytes.now behind.now) }
        ensures none { result ≡ None → (bytes.now ≡ []) × (self.new ≡ self.old) }
        ensures holds { IsDecoding self.new }
    {
        let (byte, later) = bytes.split_first()?;
        self.begin(*byte);
        Some(later)
    }

    /// Takes the next byte, whatever it is.
    #[inline(never)]
    fn begin_any(&mut self, byte: u8)
        requires few { self.old.reader.offset < 2 ^ 62 }
        requires rest { AtRest self.old }
        ensures takes { TakesByte self.old byte self.new }
        ensures holds { IsDecoding self.new }
    {
        let step = self.reader.take(byte);
        if self.fault.is_some() {
            return;
        }
        match step {
            Step::Whole { at, packet } => self.open(at, &packet),
            Step::Bad { at, fault } => self.fault = Some((at, Fault::Packet(fault))),
            Step::Skipped | Step::More | Step::Stopped => {}
        }
    }

    /// Leaves the elements of a packet of atoms to do, or sets its fault where it may not come.
    #[inline(always)]
    fn open_atoms(&mut self, at: u64, run: AtomRun)
        requires packet { CanBeTaken (Packet.Atoms run) }
        requires rest { AtRest self.old }
        requires whole { self.old.fault ≡ None }
        ensures opens { OpensPacket self.old at (Packet.Atoms run) self.new }
        ensures reader { self.new.reader ≡ self.old.reader }
        ensures holds { IsDecoding self.new }
    {
        match self.maker.atoms_of(&run) {
            Some(elems) => self.todo = Todo::of(at, elems),
            None => self.open(at, &Packet::Atoms(run)),
        }
    }

    /// Leaves the elements of a packet to do, or sets its fault where it may not come.
    #[inline(never)]
    fn open(&mut self, at: u64, packet: &Packet)
        requires packet { CanBeTaken packet.now }
        requires rest { AtRest self.old }
        requires whole { self.old.fault ≡ None }
        ensures opens { OpensPacket self.old at packet.now self.new }
        ensures reader { self.new.reader ≡ self.old.reader }
        ensures holds { IsDecoding self.new }
    {
        match self.maker.take(packet) {
            Ok(elems) => self.todo = Todo::of(at, elems),
            Err(Awaited) => self.fault = Some((at, Fault::AddressAwaited)),
        }
    }

    /// What is shown next of what is left to do. Nothing means that all of it is done, up to the first fault.
    #[inline(never)]
    pub fn next(&mut self, image: &Image) -> Option<Found>
        ensures found { (found : Found) → result ≡ Some found → Goes image.now self.old (items_of_found found) self.new }
        ensures words { IfSome result (FindsWords image.now) }
        ensures fewer { (found : Found) → result ≡ Some found → left self.new < left self.old }
        ensures ends { result ≡ None → self.old.fault ≡ None → Ends image.now self.old [] self.new }
        ensures stopped { AtRest self.old → (result ≡ None) × (self.new ≡ self.old) }
        ensures rest { result ≡ None → AtRest self.new }
        ensures reader { self.new.reader ≡ self.old.reader }
        ensures holds { IsDecoding self.new }
    {
        while !self.is_at_rest() {
            match self.step(image) {
                Ok(None) => {}
                Ok(found) => return found,
                Err(fault) => {
                    self.stop(fault);
                    return None;
                }
            }
        }
        None
    }

    /// Whether nothing is left to do.
    #[inline(always)]
    pub fn is_at_rest(&self) -> bool
        ensures rest { IsTrue result ↔ AtRest self.now }
        ensures left { result ≡ false → 0 < left self.now }
        ensures whole { result ≡ false → self.now.fault ≡ None }
        ensures holds { IsDecoding self.now }
    {
        !self.waiting.is_due() && self.todo.is_empty()
    }

    /// One thing or one element more.
    fn step(&mut self, image: &Image) -> Result<Option<Found>, Fault>
        requires some { 0 < left self.old }
        requires whole { self.old.fault ≡ None }
        ensures goes { IfOk result (λ found. Goes image.now self.old (items_found found) self.new) }
        ensures words { IfOk result (λ found. IfSome found (FindsWords image.now)) }
        ensures fewer { IfOk result (λ found. left self.new < left self.old) }
        ensures stops { (fault : Fault) → result ≡ Err fault → Stops image.now self.old fault self.new }
        ensures holds { IsDecoding self.new }
    {
        match self.take_next() {
            Ok(None) => Ok(None),
            Ok(Some(thing)) => self.walk(image, &thing),
            Err(fault) => Err(Fault::Queue(fault)),
        }
    }

    /// Takes the oldest that is due, or the next element, and gives what is to be walked.
    fn take_next(&mut self) -> Result<Option<Thing>, QueueFault>
        requires some { 0 < left self.old }
        requires whole { self.old.fault ≡ None }
        ensures ok { IfOk result (λ thing. Leaves self.old self.new thing) }
        ensures fewer { IfOk result (λ thing. left self.new < left self.old) }
        ensures aligned { IfOk result (λ thing. All IsAlignedThing (option_to_list thing)) }
        ensures fault { (fault : QueueFault) → result ≡ Err fault → Refuses self.old fault }
        ensures unchanged { IsErr result → self.new ≡ self.old }
        ensures holds { IsDecoding self.new }
    {
        if let Some(thing) = self.waiting.next_due() {
            return Ok(Some(thing));
        }
        let Some(elem) = self.todo.first() else {
            unreachable!()
        };
        let thing = self.waiting.take(&elem)?;
        self.todo.advance();
        Ok(thing)
    }

    /// Walks a thing that was committed, and gives what the walk shows.
    fn walk(&mut self, image: &Image, thing: &Thing) -> Result<Option<Found>, Fault>
        requires aligned { IsAlignedThing thing.now }
        requires holds { IsDecoding self.old }
        ensures walks { IfOk result (λ found. Walks image.now self.old.walk (thing.now ∷ []) (items_found found) (Ok self.new.walk)) }
        ensures words { IfOk result (λ found. IfSome found (FindsWords image.now)) }
        ensures fault { (fault : Fault) → result ≡ Err fault
            → (f : WalkFault) × (fault ≡ Fault.Walk f) × Walks image.now self.old.walk (thing.now ∷ []) [] (Err f) }
        ensures others { self.new ≡ record (self.old) { walk = self.new.walk } }
        ensures unchanged { IsErr result → self.new ≡ self.old }
        ensures holds { IsDecoding self.new }
    {
        let entry = match thing {
            Thing::Seen(entry) => entry,
            Thing::Unseen => return Ok(None),
            Thing::Gap => return Ok(Some(Found::Gap)),
            Thing::Stop => return Ok(Some(Found::Stop)),
        };
        let walked = match self.walker.walk(image, entry) {
            Ok(walked) => walked,
            Err(fault) => return Err(Fault::Walk(fault)),
        };
        Ok(Some(Found::Walked(walked)))
    }

    /// A fault was met in the packet: what is left to do is not done any more.
    fn stop(&mut self, fault: Fault)
        ensures value { self.new ≡ record (self.old) {
          pending = record (self.old.pending) { held = self.old.due ++ self.old.pending.held };
          due = [];
          todo = [];
          fault = Some (self.old.at, fault);
        } }
        ensures holds { IsDecoding self.new }
    {
        self.fault = Some((self.todo.at(), fault));
        self.todo.clear();
        self.waiting.keep_due();
    }

    /// The context of the walk: that of the stretch or stretches that were given last.
    #[inline(always)]
    pub fn context(&self) -> Ctx
        ensures { result ≡ self.now.walk.ctx }
    {
        self.walker.context()
    }

    /// How the stream ends, if no byte more comes.
    pub fn end(&self) -> End
        ensures { (bytes : List ℕ) (packets : List (ℕ × Packet)) (ending : Ending) → stands.StandsAt self.now.reader bytes
            → IsStream self.now.reader.settings bytes packets ending → (self.now.fault ≡ None → fault_of ending ≡ None)
            → result ≡ end_at self.now.fault ending }
    {
        match self.fault {
            Some((at, fault)) => End::Fault { at, fault },
            None => self.reader.end_without_fault(),
        }
    }

    /// How many bytes were taken.
    pub fn offset(&self) -> u64
        ensures { result ≡ self.now.reader.offset }
    {
        self.reader.offset()
    }

    /// What became of the P0 elements.
    pub fn ledger(&self) -> Counts
        ensures value { result ≡ self.now.counts }
        ensures holds { IsDecoding self.now }
    {
        self.waiting.counts()
    }

    /// Ends it. What is held is lost.
    pub fn close(self) -> Ledger
        ensures value { result ≡ counts_after self.counts 0 (losing (self.due ++ self.pending.held)) }
        ensures balanced { Balances result 0 }
    {
        let Decoding {
            reader: _,
            maker: _,
            todo: _,
            waiting,
            walker: _,
            fault: _,
        } = self;
        waiting.close()
    }
}

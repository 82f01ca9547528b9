//! What the packets of a stream come to: the lines of its events and of its P0 elements.
ghost use Rattle.std.specs.Prelude.{◌≡◌, ◌↔◌, ◌∷◌, None, IfOk, IsTrue, []};
ghost use Rattle.std.specs.List.{concat};
ghost use Rattle.element_queue.specs.Counting.{Balances, counts_after};
ghost use Rattle.element_queue.specs.Pending.{losing};
ghost use Rattle.packet_reader.specs.Answered.{fault_after, told};
ghost use Rattle.path_elements.specs.Elements.{untold};
ghost use Rattle.path_elements.specs.Held.{CanBeTaken};
ghost use Rattle.path_text.specs.Writing.{Writes};
ghost use Rattle.time_marks.specs.Frequent.{IsReady, packet_of};
ghost use Rattle.time_marks.specs.Marked.{IsMarked, nothing_marked};
ghost use Rattle.time_marks.specs.Stamps.{HasStamp};
ghost use Rattle.time_marks.specs.Taking.{TakesPackets};
ghost use Rattle.time_marks.specs.Timed.{IsInformed};
ghost use Rattle.time_marks.specs.TimeLines.{shown_of, time_lines};
ghost use Rattle.time_marks.specs.Times.{event_lines};

use crate::frequent::Frequent;
use crate::stamp::stamp_after;
use crate::time_line::{Stamp, TimeLine, write_time_line};
use crate::timeline::{PacketOrigin, Timeline};
use element_queue::Ledger;
use etm_types::Id;
use packet_grammar::{Fault, Packet};
use packet_reader::Step;
use path_elements::ElemMaker;
use std::alloc::{AllocError, Global};
use trace_io::{Failed, Sink};

/// What packets come to. It has no drop, since the queue of P0 elements has none.
#[must_use]
pub struct Timing {
    pub maker: ElemMaker,
    /// The timestamp behind the packets so far.
    pub stamp: Stamp,
    pub line: Timeline,
}

impl Timing {
    ghost use Rattle.std.specs.Prelude.{ℕ};
    ghost use Rattle.packet_grammar.specs.declared.packet.Packet.{Packet};
    ghost use Rattle.packet_reader.specs.declared.step.Step.TheVariants.{Whole};

    /// Before the first packet. This is the one call that takes memory, and the error means want of it.
    pub fn new(alloc: Global, depth: u32) -> Result<Timing, AllocError>
        ensures first { IfOk result (λ p. (p.maker ≡ untold) × (p.stamp ≡ None)) }
        ensures none { IfOk result (λ p. (p.line.queue ≡ nothing_marked depth) × (p.line.shown ≡ shown_of []) × (p.line.fault ≡ None)) }
        ensures holds { IfOk result (λ p. IsMarked p.line.queue) }
    {
        Ok(Timing {
            maker: ElemMaker::new(),
            stamp: None,
            line: Timeline::new(alloc, depth)?,
        })
    }

    /// Takes what a byte shows: the packet that it ends, or a fault.
    pub fn take_step<K: Sink>(&mut self, id: Id, step: &Step, sink: &mut K) -> Result<(), Failed>
        requires packet { (at : ℕ) (packet : Packet) → step.now ≡ Whole at packet → CanBeTaken packet × HasStamp packet }
        requires whole { self.old.line.fault ≡ None }
        requires informed { IsInformed self.old }
        ensures { TakesPackets id (told step.now) (fault_after None step.now) self.old (K.state sink.old) self.new (K.state sink.new) result }
    {
        match step {
            Step::Whole { at, packet } => self.take_packet(id, *at, packet, sink),
            Step::Bad { at, fault } => {
                self.line.fault = Some((*at, Fault::Packet(*fault)));
                Ok(())
            }
            Step::Skipped | Step::More | Step::Stopped => Ok(()),
        }
    }

    /// Whether no fault was met, and frequent packets count and may come.
    #[inline(always)]
    pub fn is_ready(&self) -> bool
        ensures { IsTrue result ↔ IsReady self.now }
    {
        self.line.fault.is_none() && self.maker.is_ready()
    }

    /// Takes a frequent packet, and writes its lines. It has no timestamp and is no event.
    #[inline(always)]
    pub fn take_frequent<K: Sink>(
        &mut self,
        id: Id,
        at: u64,
        packet: Frequent,
        sink: &mut K,
    ) -> Result<(), Failed>
        requires packet { CanBeTaken (packet_of packet) }
        requires ready { IsReady self.old }
        requires informed { IsInformed self.old }
        ensures { TakesPackets id ((at, packet_of packet) ∷ []) None self.old (K.state sink.old) self.new (K.state sink.new) result }
    {
        let place = PacketOrigin {
            id,
            at,
            stamp: self.stamp,
        };
        match packet {
            Frequent::Atoms(run) => self.line.take_atoms(&place, &run, sink),
            Frequent::Commit(n) => self.line.commit(&place, n, sink),
        }
    }

    /// Takes a packet, and writes its lines.
    fn take_packet<K: Sink>(
        &mut self,
        id: Id,
        at: u64,
        packet: &Packet,
        sink: &mut K,
    ) -> Result<(), Failed>
        requires packet { CanBeTaken packet.now }
        requires stamp { HasStamp packet.now }
        requires whole { self.old.line.fault ≡ None }
        requires informed { IsInformed self.old }
        ensures { TakesPackets id ((at, packet.now) ∷ []) None self.old (K.state sink.old) self.new (K.state sink.new) result }
    {
        let informed = self.line.queue.informed();
        let Ok(elems) = self.maker.take(packet) else {
            self.line.fault = Some((at, Fault::AddressAwaited));
            return Ok(());
        };
        write_event(id, informed, packet, self.stamp, sink)?;
        self.stamp = stamp_after(informed, self.stamp, packet);
        let place = PacketOrigin {
            id,
            at,
            stamp: self.stamp,
        };
        self.line.take_elements(&place, &elems, sink)
    }

    /// Ends it. What is held is lost.
    pub fn close(self) -> Ledger
        ensures value { result ≡ counts_after self.line.queue.counts 0 (losing self.line.queue.pending.held) }
        ensures balanced { Balances result 0 }
    {
        let Timing {
            maker: _,
            stamp: _,
            line,
        } = self;
        let Timeline {
            queue,
            shown: _,
            fault: _,
        } = line;
        queue.close()
    }
}

/// Writes the line of an event packet behind a trace info packet, and nothing of others.
fn write_event<K: Sink>(
    id: Id,
    informed: bool,
    packet: &Packet,
    stamp: Stamp,
    sink: &mut K,
) -> Result<(), Failed>
    ensures { Writes (K.state sink.old) (K.state sink.new) result (concat (time_lines id (event_lines informed stamp packet.now))) }
{
    match *packet {
        Packet::Event(events) if informed => {
            write_time_line(id, &TimeLine::Event { events, stamp }, sink)
        }
        _ => Ok(()),
    }
}

//! One stream, from its bytes to the lines of its events and of its P0 elements.
ghost use Rattle.std.specs.Prelude.{◌≡◌, ◌≤◌, ◌<◌, ◌+◌, ◌^◌, ◌++◌, ◌∷◌, ◌↔◌, ◌==◌, [], ℕ, List, true, false, None, Some, Ok, IfOk, IfSome, IsErr};
ghost use Rattle.std.specs.Prelude.{IsOk, IsTrue, length, not};
ghost use Rattle.std.specs.Prelude.{if◌then◌else◌};
ghost use Rattle.std.specs.List.{concat};
ghost use Rattle.element_queue.specs.Counting.{Balances, counts_after, entries, no_counts};
ghost use Rattle.element_queue.specs.Pending.{losing};
ghost use Rattle.packet_grammar.specs.Ends.{is_fault};
ghost use Rattle.packet_grammar.specs.declared.end.End.{End};
ghost use Rattle.packet_grammar.specs.declared.stream_fault.Fault.{Fault};
ghost use Rattle.packet_reader.specs.Stands.{TakesPacket};
ghost use Rattle.path_text.specs.EndLines.{end_line};
ghost use Rattle.path_text.specs.Writing.{Writes};
ghost use Rattle.time_marks.specs.Frequent.{IsReady, packet_of};
ghost use Rattle.time_marks.specs.Taking.{TakesByte};
ghost use Rattle.time_marks.specs.Timed.{StandsAt};
ghost use Rattle.time_marks.specs.TimeList.{IsTimes, TimesGains, TimesTallies};
ghost use Rattle.time_marks.specs.Times.{Times};
ghost use Rattle.trace_io.specs.Calls.{Serves};

use crate::frequent::{Frequent, take_frequent};
use crate::timing::Timing;
use element_queue::{Counts, Ledger};
use etm_types::{Id, Settings};
use packet_grammar::End;
use packet_reader::PacketReader;
use path_text::write_end;
use std::alloc::{AllocError, Global};
use std::marker::Model;
use trace_io::{Failed, Sink};

/// Takes the bytes of one stream, and writes a line for each event, and for each P0 element that is committed and whose timestamp is not
/// that of the one before it. It has no drop: it ends by `finish` or `abandon`.
///
/// It stands at the bytes that it took. The ID is that of the lines of a call.
#[must_use]
pub struct TimedDecoder {
    reader: PacketReader,
    timing: Timing,
    /// Whether a write failed.
    broken: bool,
}

impl Model for TimedDecoder {
    ghost use Rattle.time_marks.specs.Timed.{IsTimed, Timed};

    ghost Value = { Timed };

    ghost view = { λ d. record { reader = d.reader; timing = d.timing; broken = d.broken } };

    ghost invariant = { λ d. IsTimed (record { reader = d.reader; timing = d.timing; broken = d.broken }) };
}

impl TimedDecoder {
    /// A decoder that has taken nothing, with room for as many P0 elements as the maximum speculation depth. This is the one call that
    /// takes memory, and the error means want of it.
    pub fn new(alloc: Global, settings: &Settings) -> Result<TimedDecoder, AllocError>
        ensures stands { IfOk result (λ d. StandsAt d []) }
        ensures settings { IfOk result (λ d. d.reader.settings ≡ settings.now) }
        ensures none { IfOk result (λ d. (d.reader.offset ≡ 0) × (d.timing.line.queue.counts ≡ no_counts) × (d.timing.line.queue.pending.held ≡ [])) }
    {
        Ok(TimedDecoder {
            reader: PacketReader::new(settings),
            timing: Timing::new(alloc, settings.depth())?,
            broken: false,
        })
    }

    /// Takes the next byte, and writes the lines that it adds. Behind a fault of the stream no line comes any more. The error means that
    /// a write failed; then the decoder is broken.
    ///
    /// Most packets are atoms or short commits: these go a short way.
    #[inline(always)]
    pub fn take<K: Sink>(&mut self, id: Id, byte: u8, sink: &mut K) -> Result<(), Failed>
        requires whole { self.old.broken ≡ false }
        requires few { self.old.reader.offset < 2 ^ 62 }
        ensures stands { IsOk result → (bytes : List ℕ) → StandsAt self.old bytes → StandsAt self.new (bytes ++ byte ∷ []) }
        ensures gains { (bytes : List ℕ) → StandsAt self.old bytes
            → (lines : List (List ℕ)) × TimesGains self.old.reader.settings id bytes byte lines
            × Writes (K.state sink.old) (K.state sink.new) result (concat lines) }
        ensures stopped { (stop : ℕ × Fault) → self.old.timing.line.fault ≡ Some stop
            → (result ≡ Ok tt) × (sink.new ≡ sink.old) × (self.new ≡ record (self.old) { reader = self.new.reader }) }
        ensures serves { Serves (K.state sink.old) (K.state sink.new) result }
        ensures broken { IsTrue self.new.broken ↔ IsErr result }
        ensures offset { self.new.reader.offset ≡ self.old.reader.offset + 1 }
        ensures settings { self.new.reader.settings ≡ self.old.reader.settings }
        ensures marks { length self.new.timing.line.queue.marks ≡ entries self.new.timing.line.queue.pending.held }
        ensures balanced { Balances self.new.timing.line.queue.counts (entries self.new.timing.line.queue.pending.held) }
        ensures most { length self.new.timing.line.queue.pending.held ≤ self.new.reader.settings.depth }
    {
        let Some((at, packet)) = next_frequent(&self.timing, &mut self.reader, byte) else {
            return self.take_any(id, byte, sink);
        };
        match self.timing.take_frequent(id, at, packet, sink) {
            Ok(()) => Ok(()),
            Err(failed) => {
                self.broken = true;
                Err(failed)
            }
        }
    }

    /// The same, of any byte.
    fn take_any<K: Sink>(&mut self, id: Id, byte: u8, sink: &mut K) -> Result<(), Failed>
        requires whole { self.old.broken ≡ false }
        requires few { self.old.reader.offset < 2 ^ 62 }
        ensures { TakesByte K.state id byte self.old sink.old self.new sink.new result }
    {
        let step = self.reader.take(byte);
        if self.timing.line.fault.is_some() {
            return Ok(());
        }
        match self.timing.take_step(id, &step, sink) {
            Ok(()) => Ok(()),
            Err(failed) => {
                self.broken = true;
                Err(failed)
            }
        }
    }

    /// Whether a write failed. Then it takes no more bytes, and is abandoned.
    pub fn broken(&self) -> bool
        ensures { result ≡ self.now.broken }
    {
        self.broken
    }

    /// How many bytes were taken.
    pub fn offset(&self) -> u64
        ensures value { result ≡ self.now.reader.offset }
        ensures all { (bytes : List ℕ) → StandsAt self.now bytes → result ≡ length bytes }
    {
        self.reader.offset()
    }

    /// What became of the P0 elements: what the elements say, up to the first that has a fault. Never more are held than the maximum
    /// speculation depth, whatever the bytes.
    pub fn ledger(&self) -> Counts
        ensures value { result ≡ self.now.timing.line.queue.counts }
        ensures tallied { (bytes : List ℕ) → StandsAt self.now bytes → TimesTallies self.now.reader.settings bytes result }
        ensures balanced { Balances result (entries self.now.timing.line.queue.pending.held) }
        ensures most { length self.now.timing.line.queue.pending.held ≤ self.now.reader.settings.depth }
    {
        self.timing.line.queue.ledger()
    }

    /// Writes the line of how the stream ends, and says whether it ends without a fault. Nothing is written of a stream without bytes.
    /// What is still held is lost, whether the write fails or not.
    pub fn finish<K: Sink>(self, id: Id, sink: &mut K) -> Result<bool, Failed>
        requires { self.broken ≡ false }
        ensures line { (bytes : List ℕ) (t : Times) (last : End) → StandsAt self bytes → IsTimes self.reader.settings bytes t last
            → Writes (K.state sink.old) (K.state sink.new) result (if length bytes == 0 then [] else end_line id last)
            × IfOk result (λ whole. whole ≡ not (is_fault last)) }
        ensures serves { Serves (K.state sink.old) (K.state sink.new) result }
    {
        let taken = self.reader.offset();
        let end = self.end();
        self.abandon();
        if taken == 0 {
            return Ok(true);
        }
        write_end(id, &end, sink)?;
        Ok(!is_fault(&end))
    }

    /// Ends it without a line. What is still held is lost; the ledger has what became of all.
    pub fn abandon(self) -> Ledger
        ensures value { result ≡ counts_after self.timing.line.queue.counts 0 (losing self.timing.line.queue.pending.held) }
        ensures balanced { Balances result 0 }
    {
        let TimedDecoder {
            reader: _,
            timing,
            broken: _,
        } = self;
        timing.close()
    }

    /// How the stream ends if no byte more comes.
    fn end(&self) -> End
        ensures { (bytes : List ℕ) (t : Times) (last : End) → StandsAt self.now bytes → IsTimes self.now.reader.settings bytes t last → result ≡ last }
    {
        match self.timing.line.fault {
            Some((at, fault)) => End::Fault { at, fault },
            None => self.reader.end_without_fault(),
        }
    }
}

/// Takes the next byte where it ends a packet that goes the short way, and gives the packet with its offset. Else nothing changes.
#[inline(always)]
fn next_frequent(timing: &Timing, reader: &mut PacketReader, byte: u8) -> Option<(u64, Frequent)>
    requires { reader.old.offset < 2 ^ 62 }
    ensures none { result ≡ None → reader.new ≡ reader.old }
    ensures ready { IfSome result (λ found. IsReady timing.now) }
    ensures takes { IfSome result (λ found. TakesPacket reader.old reader.new (byte ∷ []) found.0 (packet_of found.1)) }
{
    if timing.is_ready() {
        take_frequent(reader, byte)
    } else {
        None
    }
}

/// Whether a stream ends with a fault.
fn is_fault(end: &End) -> bool
    ensures { result ≡ is_fault end.now }
{
    matches!(end, End::Fault { .. })
}

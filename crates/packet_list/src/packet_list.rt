//! The packets of a stream: a line each, and then the line of how it ends.
ghost use Rattle.std.specs.Prelude.{◌≡◌, ◌⊎◌, ◌<◌, ◌≤◌, ◌+◌, ◌^◌, ◌++◌, ◌∷◌, ℕ, List, [], length, None, Ok, IsOk, IfOk, IfSome};
ghost use Rattle.std.specs.List.{concat};
ghost use Rattle.packet_grammar.specs.declared.packet.Packet.{Packet};
ghost use Rattle.capture_streams.specs.Streams.{RunAdds};
ghost use Rattle.packet_grammar.specs.Ends.{end_of};
ghost use Rattle.packet_reader.specs.Answered.{told, fault_after};
ghost use Rattle.path_text.specs.PacketLines.{HasText, packet_line};
ghost use Rattle.path_text.specs.Writing.{Writes};
ghost use Rattle.packet_list.specs.PacketList.{HasRead, IsReading, PacketGains, TakesFront, packet_lines, packet_lists};
ghost use Rattle.trace_io.specs.Calls.{Serves};

use capture_streams::Stream;
use element_queue::{Counts, Ledger};
use etm_types::{Id, Settings};
use packet_grammar::{End, Fault, Packet, PacketFault};
use packet_reader::{PacketReader, Step};
use path_text::{PacketLine, write_end};
use std::alloc::{AllocError, Global};
use std::marker::Model;
use trace_io::{Failed, Sink};

/// One stream whose packets are listed. What it keeps of a line is made anew where the ID of a call is another one.
#[must_use]
#[derive(Drop)]
pub struct PacketStream {
    reader: PacketReader,
    /// The fault that the bytes showed, with its offset.
    fault: Option<(u64, PacketFault)>,
    /// The ID of the line.
    id: Id,
    line: PacketLine,
    /// Whether a write failed.
    broken: bool,
}

impl Model for PacketStream {
    ghost use Rattle.std.specs.Prelude.{◌≡◌};
    ghost use Rattle.packet_list.specs.PacketList.{IsReading, Listed};

    ghost Value = { Listed };

    ghost view = { λ p. record { reader = p.reader; fault = p.fault; broken = p.broken } };

    ghost invariant = { λ p. IsReading p.reader p.fault × (p.line ≡ p.id) };
}

impl PacketStream {
    ghost use Rattle.packet_list.specs.PacketList.{ListedAt};

    /// A stream of which nothing was taken.
    fn begin(settings: &Settings) -> PacketStream
        ensures settings { result.reader.settings ≡ settings.now }
        ensures stands { ListedAt result [] }
    {
        let id = first_id();
        PacketStream {
            reader: PacketReader::new(settings),
            fault: None,
            id,
            line: PacketLine::new(id),
            broken: false,
        }
    }
}

/// Streams share nothing.
impl Stream for PacketStream {
    ghost use Rattle.element_queue.specs.Counting.{no_counts};
    ghost use Rattle.packet_list.specs.PacketList.{ListedAt, packet_lists};

    type Shared = ();

    type Sum = ();

    ghost sizes = { λ p. p.reader.settings };

    ghost broken = { λ p. p.broken };

    ghost offset = { λ p. p.reader.offset };

    ghost held = { λ p. 0 };

    ghost counts = { λ p. no_counts };

    ghost counts_left = { λ p. no_counts };

    ghost stands = { λ shared. ListedAt };

    ghost tallies = { λ shared s bytes counts. counts ≡ no_counts };

    ghost listing = { λ shared. packet_lists };

    ghost sums = { λ shared sum items. Unit {0} };

    fn new_sum(_alloc: Global, _shared: &()) -> Result<(), AllocError> {
        Ok(())
    }

    fn new(_alloc: Global, settings: &Settings) -> Result<PacketStream, AllocError> {
        Ok(PacketStream::begin(settings))
    }

    fn take_run<K: Sink>(
        &mut self,
        _shared: &(),
        _sum: &mut (),
        id: Id,
        run: &[u8],
        sink: &mut K,
    ) -> Result<(), Failed> {
        turn_to(&mut self.line, self.id, id);
        self.id = id;
        match take_bytes(&mut self.reader, &mut self.fault, &mut self.line, run, sink) {
            Ok(()) => Ok(()),
            Err(failed) => {
                self.broken = true;
                Err(failed)
            }
        }
    }

    fn ledger(&self) -> Counts {
        Ledger::new().counts()
    }

    fn finish<K: Sink>(self, id: Id, sink: &mut K) -> Result<bool, Failed> {
        if self.reader.offset() == 0 {
            return Ok(true);
        }
        write_end(id, &end_at(&self.reader, self.fault), sink)?;
        Ok(self.fault.is_none())
    }

    fn write_sum<K: Sink>(_sum: (), _shared: &(), _sink: &mut K) -> Result<(), Failed> {
        Ok(())
    }

    fn abandon(self) -> Ledger {
        Ledger::new()
    }
}

/// The ID of a line that is not used yet.
fn first_id() -> Id {
    Id::new(1).unwrap()
}

/// Makes a line anew where its ID is another one.
fn turn_to(line: &mut PacketLine, old: Id, id: Id)
    requires { line.old ≡ old }
    ensures { line.new ≡ id }
{
    if old != id {
        *line = PacketLine::new(id);
    }
}

/// Takes the next bytes, and writes the lines of the packets that they end.
fn take_bytes<K: Sink>(
    reader: &mut PacketReader,
    fault: &mut Option<(u64, PacketFault)>,
    line: &mut PacketLine,
    run: &[u8],
    sink: &mut K,
) -> Result<(), Failed>
    requires reads { IsReading reader.old fault.old }
    requires few { reader.old.offset + length run.now ≤ 2 ^ 62 }
    ensures reads { IsReading reader.new fault.new }
    ensures settings { reader.new.settings ≡ reader.old.settings }
    ensures offset { IsOk result → reader.new.offset ≡ reader.old.offset + length run.now }
    ensures between { (reader.old.offset ≤ reader.new.offset) × (reader.new.offset ≤ reader.old.offset + length run.now) }
    ensures line { line.new ≡ line.old }
    ensures read { IsOk result → (bytes : List ℕ) → HasRead reader.old fault.old bytes → HasRead reader.new fault.new (bytes ++ run.now) }
    ensures gains { (bytes : List ℕ) → HasRead reader.old fault.old bytes
        → RunAdds (packet_lists reader.old.settings) line.old bytes run.now (K.state sink.old) (K.state sink.new) result }
    ensures serves { Serves (K.state sink.old) (K.state sink.new) result }
{
    let mut rest = run;
    while let Some((byte, later)) = rest.split_first() {
        if let Some(behind) = take_front(reader, line, rest, sink)? {
            rest = behind;
        } else {
            write_step(line, fault, &reader.take(*byte), sink)?;
            rest = later;
        }
    }
    Ok(())
}

/// Takes the packet at the front of the bytes that come next, where it is one of atoms, or an address or a short commit that is
/// all there, writes its line, and gives the bytes behind it. Else nothing is taken or written. A trace is mostly such packets.
#[inline(always)]
fn take_front<'a, K: Sink>(
    reader: &mut PacketReader,
    line: &mut PacketLine,
    bytes: &'a [u8],
    sink: &mut K,
) -> Result<Option<&'a [u8]>, Failed>
    requires { reader.old.offset + length bytes.now ≤ 2 ^ 62 }
    ensures line { line.new ≡ line.old }
    ensures none { result ≡ Ok None → (reader.new ≡ reader.old) × (sink.new ≡ sink.old) }
    ensures front { (result ≡ Ok None) ⊎ ((behind : List ℕ) × (at : ℕ) × (packet : Packet)
        × TakesFront reader.old reader.new bytes.now behind at packet
        × Writes (K.state sink.old) (K.state sink.new) result (packet_line line.old at packet)
        × IfOk result (λ rest. IfSome rest (λ rest. rest.now ≡ behind))) }
{
    let Some((byte, later)) = bytes.split_first() else {
        return Ok(None);
    };
    if let Some((at, run)) = reader.take_atoms(*byte) {
        line.write_atoms(at, &run, sink)?;
        return Ok(Some(later));
    }
    if let Some((at, address, behind)) = reader.take_address(bytes) {
        line.write_address(at, &address.form, &address.ctx, sink)?;
        return Ok(Some(behind));
    }
    if let Some((at, n, behind)) = reader.take_commit(bytes) {
        line.write(at, &Packet::Commit(n), sink)?;
        return Ok(Some(behind));
    }
    Ok(None)
}

/// Writes the line of the packet that a byte ends, and keeps the fault that it shows.
fn write_step<K: Sink>(
    line: &mut PacketLine,
    fault: &mut Option<(u64, PacketFault)>,
    step: &Step,
    sink: &mut K,
) -> Result<(), Failed>
    requires { (at : ℕ) (packet : Packet) → step.now ≡ Step.Whole at packet → HasText packet }
    ensures line { line.new ≡ line.old }
    ensures fault { fault.new ≡ fault_after fault.old step.now }
    ensures writes { Writes (K.state sink.old) (K.state sink.new) result (concat (packet_lines line.old (told step.now))) }
{
    match step {
        Step::Whole { at, packet } => line.write(*at, packet, sink),
        Step::Bad { at, fault: found } => {
            *fault = Some((*at, *found));
            Ok(())
        }
        Step::Skipped | Step::More | Step::Stopped => Ok(()),
    }
}

/// How the stream ends that has this fault, or of which the reader took all bytes and met none.
fn end_at(reader: &PacketReader, fault: Option<(u64, PacketFault)>) -> End
    requires { IsReading reader.now fault }
    ensures { (bytes : List ℕ) (read : HasRead reader.now fault bytes) → result ≡ end_of read.ending }
{
    match fault {
        Some((at, fault)) => End::Fault {
            at,
            fault: Fault::Packet(fault),
        },
        None => reader.end_without_fault(),
    }
}

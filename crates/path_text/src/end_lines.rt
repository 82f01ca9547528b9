//! The lines of how a stream ends.
ghost use Rattle.std.specs.Prelude.{◌≡◌, ◌+◌, ◌++◌, ◌≤◌, length, codes};
ghost use Rattle.path_text.specs.Lines.{HasRoom, AddsAtMost, hex, decimal, byte_text};
ghost use Rattle.path_text.specs.EndLines.{refused_text, packet_fault_text, queue_fault_text, walk_fault_text, fault_text, end_text, end_line, frame_cut_line};
ghost use Rattle.path_text.specs.Writing.{Writes};

use crate::End;
use crate::line::Line;
use etm_types::{Id, QueueFault, WalkFault};
use packet_grammar::{Fault, PacketFault, RefusedKind};
use trace_io::{Failed, Sink};

/// Adds a name and a byte.
fn add_byte(line: &mut Line, name: &[u8], byte: u8)
    requires room { HasRoom 22 line.old }
    requires name { length name.now ≤ 20 }
    ensures value { line.new ≡ line.old ++ (name.now ++ byte_text byte) }
    ensures short { AddsAtMost 22 line.old line.new }
{
    line.text(name);
    line.byte(byte);
}

/// What the packets of a refused header are about.
fn refused_name(kind: RefusedKind) -> &'static [u8]
    ensures value { result.now ≡ refused_text kind }
    ensures short { length result.now ≤ 15 }
{
    match kind {
        RefusedKind::CycleCount => b"cycle-count",
        RefusedKind::TimeCycle => b"time-cycle",
        RefusedKind::DataSync => b"data-sync",
        RefusedKind::Conditional => b"conditional",
        RefusedKind::Q => b"q",
        RefusedKind::MProfile => b"m-profile",
        RefusedKind::Aarch32Address => b"aarch32-address",
    }
}

/// Adds why a header is refused.
fn add_refused(line: &mut Line, kind: RefusedKind, byte: u8)
    requires { HasRoom 26 line.old }
    ensures value { line.new ≡ line.old ++ packet_fault_text (PacketFault.Refused kind byte) }
    ensures short { AddsAtMost 26 line.old line.new }
{
    line.text(b"refused ");
    line.text(refused_name(kind));
    line.text(b" ");
    line.byte(byte);
}

/// Adds why a trace info packet is refused.
fn add_info_mode(line: &mut Line, value: u32)
    requires { HasRoom 20 line.old }
    ensures value { line.new ≡ line.old ++ packet_fault_text (PacketFault.InfoMode value) }
    ensures short { AddsAtMost 20 line.old line.new }
{
    line.text(b"info-mode ");
    line.decimal_u32(value);
}

/// Adds why bytes are no packet.
fn add_packet_fault(line: &mut Line, fault: &PacketFault)
    requires { HasRoom 26 line.old }
    ensures value { line.new ≡ line.old ++ packet_fault_text fault.now }
    ensures short { AddsAtMost 26 line.old line.new }
{
    match *fault {
        PacketFault::Reserved(byte) => add_byte(line, b"reserved ", byte),
        PacketFault::Refused(kind, byte) => add_refused(line, kind, byte),
        PacketFault::Extension(byte) => add_byte(line, b"extension ", byte),
        PacketFault::BrokenSync => line.text(b"broken-sync"),
        PacketFault::InfoControl(byte) => add_byte(line, b"info-control ", byte),
        PacketFault::InfoMode(value) => add_info_mode(line, value),
        PacketFault::NumberTooLong => line.text(b"number-too-long"),
        PacketFault::ExceptionTwoByte(byte) => add_byte(line, b"exception-two-byte ", byte),
        PacketFault::ExceptionForm(byte) => add_byte(line, b"exception-form ", byte),
        PacketFault::Aarch32Context(byte) => add_byte(line, b"aarch32-context ", byte),
    }
}

/// Adds a name and two numbers in decimal.
fn add_two_counts(line: &mut Line, name: &[u8], first: u32, second: u32)
    requires room { HasRoom 36 line.old }
    requires name { length name.now ≤ 15 }
    ensures value { line.new ≡ line.old ++ (name.now ++ decimal first ++ codes " " ++ decimal second) }
    ensures short { AddsAtMost 36 line.old line.new }
{
    line.text(name);
    line.decimal_u32(first);
    line.text(b" ");
    line.decimal_u32(second);
}

/// Adds why an element does not fit those that are held.
fn add_queue_fault(line: &mut Line, fault: &QueueFault)
    requires { HasRoom 36 line.old }
    ensures value { line.new ≡ line.old ++ queue_fault_text fault.now }
    ensures short { AddsAtMost 36 line.old line.new }
{
    match *fault {
        QueueFault::CommitOverrun { asked, held } => {
            add_two_counts(line, b"commit-overrun ", asked, held);
        }
        QueueFault::CancelOverrun { asked, held } => {
            add_two_counts(line, b"cancel-overrun ", asked, held);
        }
        QueueFault::NoAtomToFlip { held } => {
            line.text(b"no-atom ");
            line.decimal_u32(held);
        }
        QueueFault::SpecTooDeep { spec, depth } => {
            add_two_counts(line, b"spec-too-deep ", spec, depth);
        }
    }
}

/// Adds a name and an address.
fn add_address(line: &mut Line, name: &[u8], address: u64)
    requires room { HasRoom 33 line.old }
    requires name { length name.now ≤ 17 }
    ensures value { line.new ≡ line.old ++ (name.now ++ hex address) }
    ensures short { AddsAtMost 33 line.old line.new }
{
    line.text(name);
    line.hex(address);
}

/// Adds a name and two addresses.
fn add_two_addresses(line: &mut Line, name: &[u8], first: u64, second: u64)
    requires room { HasRoom 50 line.old }
    requires name { length name.now ≤ 17 }
    ensures value { line.new ≡ line.old ++ (name.now ++ hex first ++ codes " " ++ hex second) }
    ensures short { AddsAtMost 50 line.old line.new }
{
    add_address(line, name, first);
    line.text(b" ");
    line.hex(second);
}

/// Adds why a walk does not go on.
fn add_walk_fault(line: &mut Line, fault: &WalkFault)
    requires { HasRoom 50 line.old }
    ensures value { line.new ≡ line.old ++ walk_fault_text fault.now }
    ensures short { AddsAtMost 50 line.old line.new }
{
    match *fault {
        WalkFault::AddressMismatch { known, given } => {
            add_two_addresses(line, b"address-mismatch ", known, given);
        }
        WalkFault::NoCode(address) => add_address(line, b"no-code ", address),
        WalkFault::Odd(address) => add_address(line, b"odd ", address),
        WalkFault::BadAtom(address) => add_address(line, b"bad-atom ", address),
        WalkFault::ReturnMissed { addr, ret } => {
            add_two_addresses(line, b"return-missed ", addr, ret);
        }
    }
}

/// Adds the reason of a fault.
fn add_fault(line: &mut Line, fault: &Fault)
    requires { HasRoom 50 line.old }
    ensures value { line.new ≡ line.old ++ fault_text fault.now }
    ensures short { AddsAtMost 50 line.old line.new }
{
    match fault {
        Fault::Packet(fault) => add_packet_fault(line, fault),
        Fault::AddressAwaited => line.text(b"address-awaited"),
        Fault::Queue(fault) => add_queue_fault(line, fault),
        Fault::Walk(fault) => add_walk_fault(line, fault),
    }
}

/// Adds how a stream ends.
fn add_end(line: &mut Line, end: &End)
    requires { HasRoom 77 line.old }
    ensures value { line.new ≡ line.old ++ end_text end.now }
    ensures short { AddsAtMost 77 line.old line.new }
{
    match end {
        End::Clean => line.text(b"end"),
        End::Cut(count) => {
            line.text(b"cut ");
            line.decimal(*count);
        }
        End::NoSync => line.text(b"nosync"),
        End::Fault { at, fault } => {
            line.text(b"fault ");
            line.decimal(*at);
            line.text(b" ");
            add_fault(line, fault);
        }
    }
}

/// Writes the line of how a stream ends.
pub fn write_end<K: Sink>(id: Id, end: &End, sink: &mut K) -> Result<(), Failed>
    ensures { Writes (K.state sink.old) (K.state sink.new) result (end_line id end.now) }
{
    let mut line = Line::begin(id);
    add_end(&mut line, end);
    line.write(sink)
}

/// Writes the line of a frame that was begun and is not full, of which `left` bytes are there. It is of no stream.
pub fn write_frame_cut<K: Sink>(left: u8, sink: &mut K) -> Result<(), Failed>
    ensures { Writes (K.state sink.old) (K.state sink.new) result (frame_cut_line left) }
{
    let mut line = Line::new();
    line.text(b"frame cut ");
    line.decimal_u8(left);
    line.write(sink)
}

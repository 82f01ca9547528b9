//! The line of a packet, which goes on from packet to packet.
//!
//! The offset of a packet is mostly a little more than that of the packet before it. So the front of the line is kept,
//! and of the offset only its last two digits are put, where the others stay.
ghost use Rattle.std.specs.Prelude.{◌≡◌, ◌/◌, ◌^◌, ◌∷◌, ◌++◌, ◌<◌, ◌≤◌, [], ℕ, length, take};
ghost use Rattle.etm_types.specs.Atoms.{most_atoms};
ghost use Rattle.path_text.specs.Lines.{HasRoom};
ghost use Rattle.path_text.specs.PacketLines.{HasText, packet_head, packet_line};
ghost use Rattle.path_text.specs.Writing.{Writes};

use crate::line::Line;
use crate::packet_lines::{add_address, add_atoms, add_packet};
use etm_types::{AddrForm, AtomRun, CtxBits, Id};
use packet_grammar::Packet;
use std::marker::Model;
use trace_io::{Failed, Sink};

/// How many bytes a line has before the offset: two digits of the ID and a space.
const BEFORE_OFFSET: usize = 3;

/// How many bytes are put anew where only the last two digits of the offset change: these and a space.
const LAST_OF_OFFSET: usize = 3;

/// The line of a packet. Contracts see the ID of its stream.
#[derive(Drop)]
pub struct PacketLine {
    id: Id,
    hundreds: u64,
    line: Line,
}

impl Model for PacketLine {
    ghost use Rattle.std.specs.Prelude.{◌≡◌, ◌/◌, ◌^◌, ◌<◌, ℕ};
    ghost use Rattle.path_text.specs.PacketLines.{packet_head};

    ghost Value = { ℕ };

    ghost view = { λ line. line.id };

    ghost invariant = { λ line. (at : ℕ) × (at < 2 ^ 64) × (line.hundreds ≡ at / 100) × (line.line ≡ packet_head line.id at) };
}

impl PacketLine {
    /// A line of a stream.
    pub fn new(id: Id) -> PacketLine
        ensures { result ≡ id }
    {
        let mut line = Line::begin(id);
        line.decimal(0);
        line.text(b" ");
        PacketLine {
            id,
            hundreds: 0,
            line,
        }
    }

    /// Writes the line of a packet that begins at an offset of the stream.
    pub fn write<K: Sink>(&mut self, at: u64, packet: &Packet, sink: &mut K) -> Result<(), Failed>
        requires { HasText packet.now }
        ensures id { self.new ≡ self.old }
        ensures line { Writes (K.state sink.old) (K.state sink.new) result (packet_line self.old at packet.now) }
    {
        move_to(&mut self.line, self.id, &mut self.hundreds, at);
        let head = self.line.len();
        add_packet(&mut self.line, packet);
        end(&mut self.line, head, sink)
    }

    /// Writes the line of an atom packet. It is the same as [`write`](PacketLine::write), without a [`Packet`], which has
    /// room for every packet: most lines are such.
    #[inline(always)]
    pub fn write_atoms<K: Sink>(
        &mut self,
        at: u64,
        run: &AtomRun,
        sink: &mut K,
    ) -> Result<(), Failed>
        requires { run.now.count ≤ most_atoms }
        ensures id { self.new ≡ self.old }
        ensures line { Writes (K.state sink.old) (K.state sink.new) result (packet_line self.old at (Packet.Atoms run.now)) }
    {
        move_to(&mut self.line, self.id, &mut self.hundreds, at);
        let head = self.line.len();
        add_atoms(&mut self.line, run);
        end(&mut self.line, head, sink)
    }

    /// Writes the line of an address packet, in the same way.
    #[inline(always)]
    pub fn write_address<K: Sink>(
        &mut self,
        at: u64,
        form: &AddrForm,
        ctx: &Option<CtxBits>,
        sink: &mut K,
    ) -> Result<(), Failed>
        ensures id { self.new ≡ self.old }
        ensures line { Writes (K.state sink.old) (K.state sink.new) result (packet_line self.old at (Packet.Addr form.now ctx.now)) }
    {
        move_to(&mut self.line, self.id, &mut self.hundreds, at);
        let head = self.line.len();
        add_address(&mut self.line, form, ctx);
        end(&mut self.line, head, sink)
    }
}

/// Moves the front of a line to an offset. `hundreds` is the offset without its last two digits.
#[inline(always)]
fn move_to(line: &mut Line, id: Id, hundreds: &mut u64, at: u64)
    requires { (old : ℕ) × (old < 2 ^ 64) × (hundreds.old ≡ old / 100) × (line.old ≡ packet_head id old) }
    ensures head { line.new ≡ packet_head id at }
    ensures hundreds { hundreds.new ≡ at / 100 }
{
    let above = at / 100;
    if above == *hundreds && above != 0 {
        put_last_digits(line, at);
    } else {
        put_offset(line, at);
        *hundreds = above;
    }
}

/// Puts the last two digits of an offset in place of those of another one, which has the same digits before them.
#[inline(always)]
fn put_last_digits(line: &mut Line, at: u64)
    requires { (3 ≤ length line.old) × (length line.old ≤ 24) }
    ensures { (id old : ℕ) → 100 ≤ at → old / 100 ≡ at / 100 → line.old ≡ packet_head id old → line.new ≡ packet_head id at }
{
    line.cut(line.len() - LAST_OF_OFFSET);
    line.pair((at % 100) as u8);
    line.text(b" ");
}

/// Puts an offset in place of another one.
fn put_offset(line: &mut Line, at: u64)
    requires { 3 ≤ length line.old }
    ensures { (id old : ℕ) → line.old ≡ packet_head id old → line.new ≡ packet_head id at }
{
    line.cut(BEFORE_OFFSET);
    line.decimal(at);
    line.text(b" ");
}

/// Ends a line and writes it, and leaves its first `head` bytes.
#[inline(always)]
fn end<K: Sink>(line: &mut Line, head: usize, sink: &mut K) -> Result<(), Failed>
    requires head { head ≤ length line.old }
    requires room { HasRoom 1 line.old }
    ensures written { Writes (K.state sink.old) (K.state sink.new) result (line.old ++ 10 ∷ []) }
    ensures cut { line.new ≡ take head line.old }
{
    let result = line.write(sink);
    line.cut(head);
    result
}

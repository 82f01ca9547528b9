//! Sources over bytes in memory.
ghost use Rattle.std.specs.Prelude.{◌≡◌, ◌↔◌, ◌-◌, ◌^◌, ◌<◌, ◌≤◌, [], length, take, drop, Some, IsOk, IsErr, IfOk, OnErr};
ghost use Rattle.std.specs.Io.{ReadsAtMost};
ghost use Rattle.std.specs.Io.KnownBytes.{ReadConsumes};
ghost use Rattle.trace_io.specs.Causes.{Counts};
ghost use Rattle.trace_io.specs.Memory.{NextFails, count_given, pieces_state, reading_state};
ghost use Rattle.trace_io.specs.Calls.{Serves};

use crate::faults::counted;
use crate::script::Script;
use crate::{Failed, Source};
use std::marker::Model;

/// A source over bytes that never fails. A read gives at most `piece` bytes.
#[derive(Drop)]
pub struct SafeSource {
    bytes: Vec<u8>,
    at: usize,
    piece: usize,
}

impl Model for SafeSource {
    ghost use Rattle.std.specs.Prelude.{◌≤◌, ◌<◌, length, drop};
    ghost use Rattle.trace_io.specs.Memory.{Pieces};

    ghost Value = { Pieces };

    ghost view = { λ s. record { left = drop s.at s.bytes.items; piece = s.piece } };

    ghost invariant = { λ s. (s.at ≤ length s.bytes.items) × (0 < s.piece) };
}

impl SafeSource {
    /// A source that gives `bytes`.
    pub fn new(bytes: Vec<u8>, piece: usize) -> Self
        requires { 0 < piece }
        ensures { result ≡ record { left = bytes.items; piece = piece } }
    {
        SafeSource {
            bytes,
            at: 0,
            piece,
        }
    }
}

impl Source for SafeSource {
    ghost state = { pieces_state };

    fn read(&mut self, buf: &mut [u8]) -> Result<usize, Failed>
        ensures bound { ReadsAtMost result buf.new }
        ensures bytes { ReadConsumes (Some self.old.left) (Some self.new.left) result buf.new }
        ensures serves { Serves (pieces_state self.old) (pieces_state self.new) result }
        ensures most { 0 ≤ 2 ^ 64 - 1 }
        ensures safe { IsOk result }
        ensures gives { IfOk result
            (λ n. n ≡ count_given self.old.piece (length buf.old) self.old.left) }
        ensures past { IfOk result (λ n. drop n buf.new ≡ drop n buf.old) }
        ensures piece { self.new.piece ≡ self.old.piece }
    {
        let count = copy_piece(&self.bytes[self.at..], self.piece, buf);
        self.at += count;
        Ok(count)
    }
}

/// Copies the front of `rest` to the front of `buf`: at most `piece` bytes.
fn copy_piece(rest: &[u8], piece: usize, buf: &mut [u8]) -> usize
    requires { 0 < piece }
    ensures count { result ≡ count_given piece (length buf.old) rest.now }
    ensures fits { result ≤ length rest.now }
    ensures room { result ≤ length buf.new }
    ensures front { take result buf.new ≡ take result rest.now }
    ensures past { drop result buf.new ≡ drop result buf.old }
    ensures none { result ≡ 0 → 0 < length buf.new → rest.now ≡ [] }
{
    let count = piece.min(buf.len()).min(rest.len());
    buf[..count].copy_from_slice(&rest[..count]);
    count
}

/// A source over bytes, whose reads fail as a script says.
#[derive(Drop)]
pub struct MemSource {
    bytes: SafeSource,
    script: Script,
    faults: u64,
}

impl Model for MemSource {
    ghost use Rattle.std.specs.Prelude.{◌<◌, ◌^◌};
    ghost use Rattle.trace_io.specs.Memory.{Reading};

    ghost Value = { Reading };

    ghost view = { λ s. record {
      left = s.bytes.left;
      piece = s.bytes.piece;
      script = s.script;
      faults = s.faults;
    } };

    ghost invariant = { λ s. s.faults < 2 ^ 64 };
}

impl MemSource {
    /// A source that gives `bytes`, at most `piece` a read. Each read takes one value off `script`,
    /// and `true` fails it.
    pub fn new(bytes: Vec<u8>, piece: usize, script: Vec<bool>) -> Self
        requires { 0 < piece }
        ensures { result ≡ record {
          left = bytes.items;
          piece = piece;
          script = script.items;
          faults = 0;
        } }
    {
        MemSource {
            bytes: SafeSource::new(bytes, piece),
            script: Script::new(script),
            faults: 0,
        }
    }
}

impl Source for MemSource {
    ghost state = { reading_state };

    fn read(&mut self, buf: &mut [u8]) -> Result<usize, Failed>
        ensures bound { ReadsAtMost result buf.new }
        ensures bytes { ReadConsumes (Some self.old.left) (Some self.new.left) result buf.new }
        ensures serves { Serves (reading_state self.old) (reading_state self.new) result }
        ensures most { self.new.faults ≤ 2 ^ 64 - 1 }
        ensures fails { IsErr result ↔ NextFails self.old.script }
        ensures gives { IfOk result
            (λ n. n ≡ count_given self.old.piece (length buf.old) self.old.left) }
        ensures past { IfOk result (λ n. drop n buf.new ≡ drop n buf.old) }
        ensures untouched { OnErr result (buf.new ≡ buf.old) }
        ensures counts { Counts (reading_state self.old) (reading_state self.new) result }
        ensures script { self.new.script ≡ drop 1 self.old.script }
        ensures piece { self.new.piece ≡ self.old.piece }
    {
        if self.script.next_fails() {
            return Err(counted(&mut self.faults));
        }
        self.bytes.read(buf)
    }
}

//! A sink with a buffer of its own before a writer of std.
//!
//! A write copies its bytes into the buffer and does no more. What is rare, as passing on a full buffer, stands in functions apart that
//! are not given the bytes. So where a caller knows how many bytes it writes, they stay in registers until they are in the buffer.
ghost use Rattle.std.specs.Prelude.{◌≡◌, ◌+◌, ◌-◌, ◌^◌, ◌<◌, ◌≤◌, ◌++◌, true, false, [], length, take, drop, None, IsTrue, IfOk, OnOk, OnErr};
ghost use Rattle.std.specs.Io.{WritesAtMost};
ghost use Rattle.std.specs.Io.KnownBytes.{WriteAppends, Appends, Keeps};
ghost use Rattle.trace_io.specs.Causes.{Counts, HasCause};
ghost use Rattle.trace_io.specs.Bytes.{KeepsBytes};
ghost use Rattle.trace_io.specs.Memory.{hidden_state};
ghost use Rattle.trace_io.specs.OverStd.{buffer_size, bytes_of, is_flushed};
ghost use Rattle.trace_io.specs.Calls.{Serves};

use crate::faults::counted;
use crate::{Failed, Sink};
use std::alloc::{AllocError, Global};
use std::io::{ErrorKind, Write};
use std::marker::Model;

/// The size of the buffer in bytes.
const BUFFER_SIZE: usize = 64 << 10;

/// A sink that holds back up to 64 KiB before a writer of std. Every error of the writer is a fault, and so is a write of which it takes
/// nothing; only an interrupted write is tried again. What a failed call left unwritten is still held back, and the next call
/// goes on with it. A sink that is dropped writes nothing more: flush it before. It tells no content, but the bytes of the writer and those
/// held back go as the writer says.
#[derive(Drop)]
pub struct BufferedSink<W: Write> {
    inner: W,
    buffer: Vec<u8>,
    // The bytes that are held back stand from `start` to `end`. `end` is 0 again only where the writer was flushed or more is about to be put.
    start: usize,
    end: usize,
    faults: u64,
}

impl<W: Write> Model for BufferedSink<W> {
    ghost use Rattle.std.specs.Prelude.{◌≡◌, ◌<◌, ◌≤◌, ◌^◌, length, take, drop};
    ghost use Rattle.trace_io.specs.OverStd.{OverBufferedWriter, buffered_writer_code, buffer_size};

    ghost Value = { OverBufferedWriter W };

    ghost coded = { buffered_writer_code W.code };

    ghost view = { λ s. record {
      inner = s.inner;
      held = drop s.start (take s.end s.buffer.items);
      used = s.end;
      faults = s.faults;
    } };

    ghost invariant = { λ s. (s.faults < 2 ^ 64) × (s.start ≤ s.end) × (s.end ≤ buffer_size) × (length s.buffer.items ≡ buffer_size) };
}

impl<W: Write + Drop> BufferedSink<W> {
    /// A sink that passes what it takes to `inner`. All memory is taken here.
    pub fn new(alloc: Global, inner: W) -> Result<Self, AllocError>
        ensures inner { IfOk result (λ s. s.inner ≡ inner) }
        ensures faults { IfOk result (λ s. s.faults ≡ 0) }
        ensures held { IfOk result (λ s. s.held ≡ []) }
        ensures used { IfOk result (λ s. s.used ≡ 0) }
    {
        let buffer = vec![in alloc; 0; BUFFER_SIZE]?;
        Ok(BufferedSink {
            inner,
            buffer,
            start: 0,
            end: 0,
            faults: 0,
        })
    }
}

impl<W: Write> BufferedSink<W> {
    /// Passes on all that is held back.
    fn pass_on(&mut self) -> Result<(), Failed>
        ensures bytes { Keeps (bytes_of W.contents self.old) (bytes_of W.contents self.new) }
        ensures cause { HasCause (hidden_state self.old.faults) (hidden_state self.new.faults) result }
        ensures most { self.new.faults ≤ 2 ^ 64 - 1 }
        ensures counts { Counts (hidden_state self.old.faults) (hidden_state self.new.faults) result }
        ensures used { self.new.used ≡ self.old.used }
        ensures held { OnOk result (self.new.held ≡ []) }
        ensures rest { OnErr result (0 < self.new.used) }
    {
        self.start += write_out(&self.buffer[self.start..self.end], &mut self.inner);
        if self.start < self.end {
            return Err(counted(&mut self.faults));
        }
        Ok(())
    }

    /// Makes the whole buffer free. It is not given what is written next.
    #[cold]
    #[inline(never)]
    fn make_room(&mut self) -> Result<(), Failed>
        ensures bytes { Keeps (bytes_of W.contents self.old) (bytes_of W.contents self.new) }
        ensures cause { HasCause (hidden_state self.old.faults) (hidden_state self.new.faults) result }
        ensures most { self.new.faults ≤ 2 ^ 64 - 1 }
        ensures counts { Counts (hidden_state self.old.faults) (hidden_state self.new.faults) result }
        ensures used { OnOk result (self.new.used ≡ 0) }
        ensures rest { OnErr result (0 < self.new.used) }
    {
        self.pass_on()?;
        self.start = 0;
        self.end = 0;
        Ok(())
    }

    /// Takes bytes for which there is room.
    #[inline(always)]
    fn put(&mut self, bytes: &[u8])
        requires { self.old.used + length bytes.now ≤ buffer_size }
        ensures inner { self.new.inner ≡ self.old.inner }
        ensures held { self.new.held ≡ self.old.held ++ bytes.now }
        ensures used { self.new.used ≡ self.old.used + length bytes.now }
        ensures faults { self.new.faults ≡ self.old.faults }
    {
        put_at(&mut self.buffer, self.end, bytes);
        self.end += bytes.len();
    }

    /// Makes room for so many bytes.
    #[inline(always)]
    fn make_room_for(&mut self, count: usize) -> Result<(), Failed>
        requires { count ≤ buffer_size }
        ensures bytes { Keeps (bytes_of W.contents self.old) (bytes_of W.contents self.new) }
        ensures cause { HasCause (hidden_state self.old.faults) (hidden_state self.new.faults) result }
        ensures most { self.new.faults ≤ 2 ^ 64 - 1 }
        ensures counts { Counts (hidden_state self.old.faults) (hidden_state self.new.faults) result }
        ensures room { OnOk result (self.new.used + count ≤ buffer_size) }
        ensures rest { OnErr result (0 < self.new.used) }
    {
        if count > BUFFER_SIZE - self.end {
            return self.make_room();
        }
        Ok(())
    }

    /// Takes a front that fills the buffer.
    #[cold]
    #[inline(never)]
    fn write_front(&mut self, bytes: &[u8]) -> Result<usize, Failed>
        requires { buffer_size < length bytes.now }
        ensures bound { WritesAtMost result bytes.now }
        ensures progress { IfOk result (λ n. 0 < n) }
        ensures cause { HasCause (hidden_state self.old.faults) (hidden_state self.new.faults) result }
        ensures most { self.new.faults ≤ 2 ^ 64 - 1 }
        ensures counts { Counts (hidden_state self.old.faults) (hidden_state self.new.faults) result }
        ensures held { is_flushed self.new ≡ false }
        ensures inner { WriteAppends (bytes_of W.contents self.old) (bytes_of W.contents self.new)
            result bytes.now }
    {
        self.make_room()?;
        let room = BUFFER_SIZE - self.end;
        self.put(&bytes[..room]);
        Ok(room)
    }
}

impl<W: Write> Sink for BufferedSink<W> {
    ghost state = { λ s. hidden_state s.faults };

    ghost flushed = { is_flushed };

    #[inline(always)]
    fn write(&mut self, bytes: &[u8]) -> Result<usize, Failed>
        ensures bound { WritesAtMost result bytes.now }
        ensures progress { 0 < length bytes.now → IfOk result (λ n. 0 < n) }
        ensures bytes { WriteAppends None None result bytes.now }
        ensures serves { Serves (hidden_state self.old.faults) (hidden_state self.new.faults) result }
        ensures most { self.new.faults ≤ 2 ^ 64 - 1 }
        ensures counts { Counts (hidden_state self.old.faults) (hidden_state self.new.faults) result }
        ensures held { 0 < length bytes.now → is_flushed self.new ≡ false }
        ensures inner { WriteAppends (bytes_of W.contents self.old) (bytes_of W.contents self.new)
            result bytes.now }
    {
        if bytes.len() > BUFFER_SIZE {
            return self.write_front(bytes);
        }
        self.make_room_for(bytes.len())?;
        self.put(bytes);
        Ok(bytes.len())
    }

    fn flush(&mut self) -> Result<(), Failed>
        ensures done { OnOk result (IsTrue (is_flushed self.new)) }
        ensures bytes { KeepsBytes (hidden_state self.old.faults) (hidden_state self.new.faults) }
        ensures serves { Serves (hidden_state self.old.faults) (hidden_state self.new.faults) result }
        ensures most { self.new.faults ≤ 2 ^ 64 - 1 }
        ensures counts { Counts (hidden_state self.old.faults) (hidden_state self.new.faults) result }
        ensures not_done { OnErr result (is_flushed self.new ≡ is_flushed self.old) }
        ensures inner { Keeps (bytes_of W.contents self.old) (bytes_of W.contents self.new) }
        ensures passed { OnOk result (self.new.held ≡ []) }
    {
        self.pass_on()?;
        match self.inner.flush() {
            Ok(()) => {
                self.start = 0;
                self.end = 0;
                Ok(())
            }
            Err(_) => Err(counted(&mut self.faults)),
        }
    }
}

/// Puts bytes at a place.
#[inline(always)]
fn put_at(buf: &mut [u8], at: usize, bytes: &[u8])
    requires { at + length bytes.now ≤ length buf.old }
    ensures { buf.new ≡ take at buf.old ++ (bytes.now ++ drop (at + length bytes.now) buf.old) }
{
    buf[at..at + bytes.len()].copy_from_slice(bytes);
}

/// Writes the bytes in as many writes as the writer wants, and says how many it took: all, unless a write failed or took nothing.
fn write_out<W: Write>(bytes: &[u8], to: &mut W) -> usize
    ensures bound { result ≤ length bytes.now }
    ensures bytes { Appends (W.contents to.old) (W.contents to.new) (take result bytes.now) }
{
    let mut done = 0;
    for _ in 0..u64::MAX {
        if done == bytes.len() {
            return done;
        }
        match to.write(&bytes[done..]) {
            Ok(count) if count > 0 => done += count,
            Err(error) if error.kind() == ErrorKind::Interrupted => {}
            _ => return done,
        }
    }
    done
}

//! The edge to std: a source over any reader.
ghost use Rattle.std.specs.Prelude.{◌≡◌, ◌-◌, ◌^◌, ◌<◌, ◌≤◌, true, false, length, None, IsTrue, IfOk, OnOk, OnErr};
ghost use Rattle.std.specs.Io.{ReadsAtMost, WritesAtMost};
ghost use Rattle.std.specs.Io.KnownBytes.{ReadConsumes, WriteAppends, Keeps};
ghost use Rattle.trace_io.specs.Causes.{Counts};
ghost use Rattle.trace_io.specs.Memory.{hidden_state};
ghost use Rattle.trace_io.specs.Calls.{Serves};

use crate::faults::counted;
use crate::{Failed, Sink, Source};
use std::io::{Read, Write};
use std::marker::Model;

/// A source over a reader of std. Every error of the reader, whatever its kind, is a fault, and no
/// read is tried again. It tells no content, but the reader's own bytes go as the reader says.
#[derive(Drop)]
pub struct StdSource<R: Read> {
    inner: R,
    faults: u64,
}

impl<R: Read> Model for StdSource<R> {
    ghost use Rattle.std.specs.Prelude.{◌<◌, ◌^◌};
    ghost use Rattle.trace_io.specs.OverStd.{OverReader, reader_code};

    ghost Value = { OverReader R };

    ghost coded = { reader_code R.code };

    ghost view = { λ s. record { inner = s.inner; faults = s.faults } };

    ghost invariant = { λ s. s.faults < 2 ^ 64 };
}

impl<R: Read> StdSource<R> {
    /// A source that gives what `inner` gives.
    pub fn new(inner: R) -> Self
        ensures inner { result.inner ≡ inner }
        ensures faults { result.faults ≡ 0 }
    {
        StdSource { inner, faults: 0 }
    }
}

impl<R: Read> Source for StdSource<R> {
    ghost state = { λ s. hidden_state s.faults };

    fn read(&mut self, buf: &mut [u8]) -> Result<usize, Failed>
        ensures bound { ReadsAtMost result buf.new }
        ensures bytes { ReadConsumes None None result buf.new }
        ensures serves { Serves (hidden_state self.old.faults) (hidden_state self.new.faults) result }
        ensures most { self.new.faults ≤ 2 ^ 64 - 1 }
        ensures counts { Counts (hidden_state self.old.faults) (hidden_state self.new.faults) result }
        ensures inner { ReadConsumes (R.remaining self.old.inner) (R.remaining self.new.inner)
            result buf.new }
    {
        match self.inner.read(buf) {
            Ok(count) => Ok(count),
            Err(_) => Err(counted(&mut self.faults)),
        }
    }
}

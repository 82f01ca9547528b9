//! A source that always fails, and a sink that keeps nothing.
ghost use Rattle.std.specs.Prelude.{◌≡◌, ◌-◌, ◌^◌, ◌<◌, ◌≤◌, true, length, None, Ok, IsTrue, IsErr, IsOk, IfOk, OnOk};
ghost use Rattle.std.specs.Io.{ReadsAtMost, WritesAtMost};
ghost use Rattle.std.specs.Io.KnownBytes.{ReadConsumes, WriteAppends};
ghost use Rattle.trace_io.specs.Causes.{one_more};
ghost use Rattle.trace_io.specs.Bytes.{KeepsBytes};
ghost use Rattle.trace_io.specs.Memory.{hidden_state};
ghost use Rattle.trace_io.specs.Calls.{Serves};

use crate::faults::counted;
use crate::{Failed, Sink, Source};
use std::marker::Model;

/// A source that fails every read, as one that could not be opened. Contracts see it as its count
/// of faults.
#[derive(Drop)]
pub struct NoSource {
    faults: u64,
}

impl Model for NoSource {
    ghost use Rattle.std.specs.Prelude.{ℕ, ◌<◌, ◌^◌};

    ghost Value = { ℕ };

    ghost view = { λ s. s.faults };

    ghost invariant = { λ s. s.faults < 2 ^ 64 };
}

impl NoSource {
    /// A source that has not failed yet.
    pub fn new() -> Self
        ensures { result ≡ 0 }
    {
        NoSource { faults: 0 }
    }
}

impl Source for NoSource {
    ghost state = { hidden_state };

    fn read(&mut self, buf: &mut [u8]) -> Result<usize, Failed>
        ensures bound { ReadsAtMost result buf.new }
        ensures bytes { ReadConsumes None None result buf.new }
        ensures serves { Serves (hidden_state self.old) (hidden_state self.new) result }
        ensures most { self.new ≤ 2 ^ 64 - 1 }
        ensures fails { IsErr result }
        ensures counts { self.new ≡ one_more self.old }
        ensures untouched { buf.new ≡ buf.old }
    {
        Err(counted(&mut self.faults))
    }
}

/// A sink that takes every piece whole and keeps nothing.
#[derive(Drop)]
pub struct NullSink;

impl NullSink {
    /// A sink with nothing to keep.
    pub fn new() -> Self {
        NullSink
    }
}

impl Sink for NullSink {
    ghost state = { λ s. hidden_state 0 };

    // Nothing is held back.
    ghost flushed = { λ s. true };

    fn write(&mut self, bytes: &[u8]) -> Result<usize, Failed>
        ensures bound { WritesAtMost result bytes.now }
        ensures progress { 0 < length bytes.now → IfOk result (λ n. 0 < n) }
        ensures bytes { WriteAppends None None result bytes.now }
        ensures serves { Serves (hidden_state 0) (hidden_state 0) result }
        ensures most { 0 ≤ 2 ^ 64 - 1 }
        ensures whole { result ≡ Ok (length bytes.now) }
    {
        Ok(bytes.len())
    }

    fn flush(&mut self) -> Result<(), Failed>
        ensures done { OnOk result (IsTrue true) }
        ensures bytes { KeepsBytes (hidden_state 0) (hidden_state 0) }
        ensures serves { Serves (hidden_state 0) (hidden_state 0) result }
        ensures most { 0 ≤ 2 ^ 64 - 1 }
        ensures safe { IsOk result }
    {
        Ok(())
    }
}

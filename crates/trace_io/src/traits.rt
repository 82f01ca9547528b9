//! A source gives bytes and a sink takes them. Each counts its faults.
ghost use Rattle.std.specs.Prelude.{◌-◌, ◌^◌, ◌<◌, ◌≤◌, Bool, length, IsTrue, IfOk, OnOk};
ghost use Rattle.std.specs.Io.{ReadsAtMost, WritesAtMost};
ghost use Rattle.std.specs.Io.KnownBytes.{ReadConsumes, WriteAppends};
ghost use Rattle.trace_io.specs.State.{IoState};
ghost use Rattle.trace_io.specs.Bytes.{KeepsBytes};
ghost use Rattle.trace_io.specs.Calls.{Serves};

use thiserror::Error;

/// A read, a write or a flush failed, and the object that it was called on has counted that.
#[derive(Clone, Copy, Debug, PartialEq, Eq, Error)]
#[error("a read, a write or a flush failed")]
pub struct Failed;

/// What gives bytes, in order.
pub trait Source {
    /// The bytes that are left, where the source shows them, and how many reads have failed.
    ghost state: { Self → IoState };

    /// Puts the next bytes at the front of `buf` and says how many: 0, for a `buf` with room, only
    /// at the end. A read that fails takes nothing off what is left and is counted; one that succeeds
    /// is not.
    fn read(&mut self, buf: &mut [u8]) -> Result<usize, Failed>
        ensures bound { ReadsAtMost result buf.new }
        ensures bytes { ReadConsumes ((state self.old).bytes) ((state self.new).bytes) result buf.new }
        ensures serves { Serves (state self.old) (state self.new) result }
        ensures most { (state self.new).faults ≤ 2 ^ 64 - 1 };
}

/// What takes bytes, in order.
pub trait Sink {
    /// The bytes that were taken, where the sink shows them, and how many calls have failed.
    ghost state: { Self → IoState };

    /// Whether all that the sink took was flushed.
    ghost flushed: { Self → Bool };

    /// Takes a front of `bytes` and says how many: at least one, unless `bytes` is empty. A write
    /// that fails takes nothing and is counted; one that succeeds is not.
    fn write(&mut self, bytes: &[u8]) -> Result<usize, Failed>
        ensures bound { WritesAtMost result bytes.now }
        ensures progress { 0 < length bytes.now → IfOk result (λ n. 0 < n) }
        ensures bytes { WriteAppends ((state self.old).bytes) ((state self.new).bytes) result bytes.now }
        ensures serves { Serves (state self.old) (state self.new) result }
        ensures most { (state self.new).faults ≤ 2 ^ 64 - 1 };

    /// Passes on what the sink holds back. It takes nothing.
    fn flush(&mut self) -> Result<(), Failed>
        ensures done { OnOk result (IsTrue (flushed self.new)) }
        ensures bytes { KeepsBytes (state self.old) (state self.new) }
        ensures serves { Serves (state self.old) (state self.new) result }
        ensures most { (state self.new).faults ≤ 2 ^ 64 - 1 };
}

//! A sink over memory.
ghost use Rattle.std.specs.Prelude.{◌≡◌, ◌⊎◌, ◌↔◌, ◌-◌, ◌^◌, ◌<◌, ◌≤◌, true, false, [], length, drop, Some, IsTrue, IsOk, IsErr, IfOk, OnOk};
ghost use Rattle.std.specs.Io.{WritesAtMost};
ghost use Rattle.std.specs.Io.KnownBytes.{WriteAppends};
ghost use Rattle.trace_io.specs.Causes.{Counts};
ghost use Rattle.trace_io.specs.Bytes.{KeepsBytes};
ghost use Rattle.trace_io.specs.Memory.{NextFails, writing_state};
ghost use Rattle.trace_io.specs.Calls.{Serves};

use crate::faults::counted;
use crate::script::Script;
use crate::{Failed, Sink};
use std::alloc::Global;
use std::marker::Model;

/// A sink that keeps what it took. A write fails where its script says so, or where memory runs
/// out, which it remembers.
#[derive(Drop)]
pub struct MemSink {
    taken: Vec<u8>,
    script: Script,
    faults: u64,
    out_of_memory: bool,
}

impl Model for MemSink {
    ghost use Rattle.std.specs.Prelude.{◌<◌, ◌^◌};
    ghost use Rattle.trace_io.specs.Memory.{Writing};

    ghost Value = { Writing };

    ghost view = { λ s. record {
      taken = s.taken.items;
      script = s.script;
      faults = s.faults;
      out_of_memory = s.out_of_memory;
    } };

    ghost invariant = { λ s. s.faults < 2 ^ 64 };
}

impl MemSink {
    /// An empty sink. Each write takes one value off `script`, and `true` fails it. No memory is
    /// taken before the first write.
    pub fn new(alloc: Global, script: Vec<bool>) -> Self
        ensures { result ≡ record {
          taken = [];
          script = script.items;
          faults = 0;
          out_of_memory = false;
        } }
    {
        MemSink {
            taken: Vec::new(alloc),
            script: Script::new(script),
            faults: 0,
            out_of_memory: false,
        }
    }

    /// What the sink took.
    pub fn written(&self) -> &[u8]
        ensures { result.now ≡ self.now.taken }
    {
        &self.taken
    }

    /// Whether a write has failed for want of memory.
    pub fn out_of_memory(&self) -> bool
        ensures { result ≡ self.now.out_of_memory }
    {
        self.out_of_memory
    }
}

impl Sink for MemSink {
    ghost state = { writing_state };

    // Nothing is held back.
    ghost flushed = { λ s. true };

    fn write(&mut self, bytes: &[u8]) -> Result<usize, Failed>
        ensures bound { WritesAtMost result bytes.now }
        ensures progress { 0 < length bytes.now → IfOk result (λ n. 0 < n) }
        ensures bytes { WriteAppends (Some self.old.taken) (Some self.new.taken) result bytes.now }
        ensures serves { Serves (writing_state self.old) (writing_state self.new) result }
        ensures most { self.new.faults ≤ 2 ^ 64 - 1 }
        ensures whole { IfOk result (λ n. n ≡ length bytes.now) }
        ensures scripted { NextFails self.old.script → IsErr result }
        ensures unscripted { IsErr result
            → NextFails self.old.script ⊎ IsTrue self.new.out_of_memory }
        // It becomes true exactly in a write that fails and was not scripted to, and stays true.
        ensures out_of_memory { IsTrue self.new.out_of_memory
            ↔ (IsTrue self.old.out_of_memory ⊎ (IsErr result × (¬ NextFails self.old.script))) }
        ensures counts { Counts (writing_state self.old) (writing_state self.new) result }
        ensures script { self.new.script ≡ drop 1 self.old.script }
    {
        if self.script.next_fails() {
            return Err(counted(&mut self.faults));
        }
        if self.taken.extend_from_slice(bytes).is_err() {
            self.out_of_memory = true;
            return Err(counted(&mut self.faults));
        }
        Ok(bytes.len())
    }

    fn flush(&mut self) -> Result<(), Failed>
        ensures done { OnOk result (IsTrue true) }
        ensures bytes { KeepsBytes (writing_state self.old) (writing_state self.new) }
        ensures serves { Serves (writing_state self.old) (writing_state self.new) result }
        ensures most { self.new.faults ≤ 2 ^ 64 - 1 }
        ensures safe { IsOk result }
        ensures unchanged { self.new ≡ self.old }
    {
        // No effect at run time. The proof reads the bound of the count from this use.
        let _ = &self.faults;
        Ok(())
    }
}

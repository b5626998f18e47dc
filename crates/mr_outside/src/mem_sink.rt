//! An output in memory.

ghost use Rattle.std.specs.Prelude.{◌≡◌, ◌<◌, ◌≤◌, ◌++◌, ◌↔◌, [], IsTrue, IfOk, OnErr, IsErrOf, length, take};
ghost use Rattle.mr_outside.specs.Causes.{SinkCauses};
ghost use Rattle.mr_outside.specs.Memory.{no_calls, next_fails, called, sunk};

use crate::calls::Calls;
use crate::{Sink, SinkErr};
use std::alloc::Global;
use std::marker::Model;

/// A sink in memory, which tells what it took. Its calls are numbered from 1; those whose number is
/// in a list fail and take nothing, and every other takes the whole piece.
#[derive(Drop)]
pub struct MemSink {
    bytes: Vec<u8>,
    calls: Calls,
}

impl Model for MemSink {
    ghost use Rattle.mr_outside.specs.Memory.{MemorySink, sink_code};

    ghost Value = { MemorySink };

    ghost coded = { sink_code };

    ghost view = { λ s. record { bytes = s.bytes.items; calls = s.calls } };
}

impl MemSink {
    /// `fail` has the numbers of the calls that fail.
    pub fn new(alloc: Global, fail: Vec<u64>) -> MemSink
        ensures { result ≡ record { bytes = []; calls = no_calls fail.items } }
    {
        MemSink {
            bytes: Vec::new(alloc),
            calls: Calls::new(fail),
        }
    }

    /// All bytes taken so far.
    pub fn bytes(&self) -> &[u8]
        ensures { result.now ≡ self.now.bytes }
    {
        self.bytes.as_slice()
    }
}

impl Sink for MemSink {
    ghost use Rattle.mr_outside.specs.Memory.{sunk};

    ghost state = { sunk };

    fn write(&mut self, bytes: &[u8]) -> Result<usize, SinkErr>
        ensures whole { IfOk result (λ n. n ≡ length bytes.now) }
        ensures numbered { self.new.calls ≡ called self.old.calls }
        ensures fails { IsErrOf result SinkErr.Fault ↔ IsTrue (next_fails self.old.calls) }
        ensures within { IfOk result (λ n. n ≤ length bytes.now) }
        ensures progress { IfOk result (λ n. 0 < length bytes.now → 0 < n) }
        ensures front { IfOk result (λ n. self.new.bytes ≡ self.old.bytes ++ take n bytes.now) }
        ensures refused { OnErr result (self.new.bytes ≡ self.old.bytes) }
        ensures causes { SinkCauses (sunk self.old) (sunk self.new) result }
    {
        if self.calls.next_fails() {
            return Err(SinkErr::Fault);
        }
        self.bytes.extend_from_slice(bytes)?;
        Ok(bytes.len())
    }
}

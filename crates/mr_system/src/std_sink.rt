//! The real standard output.

ghost use Rattle.std.specs.Prelude.{◌≡◌, ◌<◌, ◌≤◌, IfOk, OnErr, length, take};
ghost use Rattle.mr_outside.specs.Faults.{next_count};
ghost use Rattle.mr_outside.specs.Told.{TakesBytes};
ghost use Rattle.mr_outside.specs.Causes.{SinkCauses};
ghost use Rattle.mr_outside.specs.Edge.{untold_sink};

use mr_outside::{Sink, SinkErr};

/// The real standard output, written without a buffer. It tells nothing, and counts a fault at each
/// refusal; one is also a write that takes nothing of some bytes.
#[derive(Drop)]
pub struct StdSink<'a, R> {
    rt: &'a R,
    faults: u64,
}

impl<'a, R: Print> StdSink<'a, R> {
    /// No fault is counted yet.
    pub fn new(rt: &'a R) -> StdSink<'a, R>
        ensures { result.faults ≡ 0 }
    {
        StdSink { rt, faults: 0 }
    }
}

impl<R: Print> Sink for StdSink<'_, R> {
    ghost use Rattle.mr_outside.specs.Edge.{untold_sink};

    ghost state = { λ s. untold_sink s.faults };

    // A fault is counted just where the write is refused.
    fn write(&mut self, bytes: &[u8]) -> Result<usize, SinkErr>
        ensures counted { OnErr result (self.new.faults ≡ next_count self.old.faults) }
        ensures within { IfOk result (λ n. n ≤ length bytes.now) }
        ensures progress { IfOk result (λ n. 0 < length bytes.now → 0 < n) }
        ensures front { let before = untold_sink self.old.faults in
            let after = untold_sink self.new.faults in
            IfOk result (λ n. TakesBytes before after (take n bytes.now)) }
        ensures refused { let before = untold_sink self.old.faults in
            let after = untold_sink self.new.faults in OnErr result (after.taken ≡ before.taken) }
        ensures causes { let before = untold_sink self.old.faults in
            let after = untold_sink self.new.faults in SinkCauses before after result }
    {
        if bytes.is_empty() {
            return Ok(0);
        }
        match self.rt.write_some(bytes) {
            Ok(count) if count > 0 => Ok(count),
            _ => {
                self.faults = self.faults.saturating_add(1);
                Err(SinkErr::Fault)
            }
        }
    }
}

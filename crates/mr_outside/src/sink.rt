//! What takes bytes, and why it refuses.

ghost use Rattle.std.specs.Prelude.{◌≡◌, ◌<◌, ◌≤◌, length, take, IfOk, OnOk, OnErr};
ghost use Rattle.mr_outside.specs.State.{Sunk};
ghost use Rattle.mr_outside.specs.Told.{TakesBytes, TakesFront};
ghost use Rattle.mr_outside.specs.Causes.{SinkCauses};

use std::alloc::AllocError;
use thiserror::Error;

/// Why a sink refuses.
#[derive(Clone, Copy, Debug, Error)]
pub enum SinkErr {
    /// The sink failed; its count of faults says so.
    #[error("the output failed")]
    Fault,
    #[error("out of memory")]
    NoMemory,
}

impl From<AllocError> for SinkErr {
    ghost use Rattle.mr_outside.specs.declared.sink.SinkErr.TheVariants.{NoMemory};

    ghost from_gives = { λ _ e. e ≡ NoMemory };

    fn from(_error: AllocError) -> SinkErr {
        SinkErr::NoMemory
    }
}

/// What takes the bytes that the program gives out, in their order.
pub trait Sink {
    /// All bytes taken so far where they are told, and the count of faults.
    ghost state: { Self → Sunk };

    /// Takes a front of the bytes and answers its length, which is 0 only where there are none.
    fn write(&mut self, bytes: &[u8]) -> Result<usize, SinkErr>
        ensures within { IfOk result (λ n. n ≤ length bytes.now) }
        ensures progress { IfOk result (λ n. 0 < length bytes.now → 0 < n) }
        ensures front { IfOk result (λ n.
            TakesBytes (state self.old) (state self.new) (take n bytes.now)) }
        ensures refused { OnErr result ((state self.new).taken ≡ (state self.old).taken) }
        ensures causes { SinkCauses (state self.old) (state self.new) result };
}

/// Gives all the bytes to the sink. After a refusal some front of them was taken.
pub fn write_all<W: Sink>(out: &mut W, bytes: &[u8]) -> Result<(), SinkErr>
    ensures whole { OnOk result (TakesBytes (W.state out.old) (W.state out.new) bytes.now) }
    ensures front { TakesFront (W.state out.old) (W.state out.new) bytes.now }
    ensures causes { SinkCauses (W.state out.old) (W.state out.new) result }
{
    let mut done = 0;
    while done < bytes.len() {
        let (_taken, rest) = bytes.split_at(done);
        done += out.write(rest)?;
    }
    Ok(())
}

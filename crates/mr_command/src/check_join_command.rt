//! The command `check-join`.

ghost use Rattle.mr_command.specs.Ending.{IsEndingOrHalt, RunsPlan};
ghost use Rattle.mr_plan.specs.Joins.{join_refused_line as line_of};
ghost use Rattle.mr_plan.specs.Say.{ends, say_check_join, say_check_join_of};

use crate::ending::{Ending, Halt};
use crate::input::needed;
use mr_join::{JoinErr, JoinFault, check_join};
use mr_outside::Shelf;
use mr_plan::{Status, join_refused_line, pairs_text};
use mr_tree::Hash32;
use std::alloc::Global;

// The ending over a join's proof that is refused.
pub(crate) fn join_refused(alloc: Global, fault: &JoinFault) -> Result<Ending, Halt>
    ensures { IsEndingOrHalt (ends Status.Refused (line_of fault.now)) result }
{
    let line = join_refused_line(alloc, fault)?;
    Ok(Ending::line(alloc, Status::Refused, line))
}

// What the bytes of a join's proof prove, against two root digests.
fn check_bytes<H: Hash32>(
    alloc: Global,
    first: &[u8; 32],
    second: &[u8; 32],
    bytes: &[u8],
) -> Result<Ending, Halt>
    ensures { IsEndingOrHalt (say_check_join_of H.of first.now second.now bytes.now) result }
{
    match check_join::<H>(alloc, first, second, bytes) {
        Ok(pairs) => {
            let text = pairs_text(alloc, pairs.as_slice())?;
            Ok(Ending::text(alloc, Status::Done, text.into_bytes()))
        }
        Err(JoinErr::Fault(fault)) => join_refused(alloc, &fault),
        Err(JoinErr::NoMemory) => Err(Halt::NoMemory),
    }
}

/// All pairs of records, one of each of two maps, whose rectangles meet, as the proof in a file
/// proves them, against the root digests of the maps. The proof is read whole.
pub fn check_join_proof<H: Hash32, S: Shelf>(
    alloc: Global,
    first: &[u8; 32],
    second: &[u8; 32],
    name: &str,
    shelf: &mut S,
) -> Result<Ending, Halt>
    ensures { RunsPlan (say_check_join H.of first.now second.now name.now) (S.state shelf.old)
        (S.state shelf.new) result }
{
    match needed(alloc, name, shelf) {
        Ok(bytes) => check_bytes::<H>(alloc, first, second, &bytes),
        Err(came) => came,
    }
}

//! The command `check-count`.

ghost use Rattle.mr_command.specs.Ending.{IsEndingOrHalt, RunsPlan};
ghost use Rattle.mr_command.specs.private.Windows.{ways_inside};
ghost use Rattle.mr_plan.specs.Counts.{count_ways};
ghost use Rattle.mr_plan.specs.Say.{say_check_count, say_check_count_of};
ghost use Rattle.mr_plan.specs.Words.{IsWindow};

use crate::check_command::refused;
use crate::counted::{COUNT_LETTER, inside_of};
use crate::ending::{Ending, Halt};
use crate::input::needed;
use mr_count::{ChoiceErr, Inside, check_choice, count_of};
use mr_outside::Shelf;
use mr_plan::{Status, counted_line};
use mr_query::Query;
use mr_tree::Hash32;
use std::alloc::Global;

// What the bytes of the proof of a count prove, against a root digest.
fn check_bytes<H: Hash32>(
    alloc: Global,
    root: &[u8; 32],
    inside: &Inside,
    bytes: &[u8],
) -> Result<Ending, Halt>
    ensures { IsEndingOrHalt (say_check_count_of H.of root.now (ways_inside inside.now) bytes.now)
        result }
{
    match check_choice::<H, Inside>(alloc, root, inside, COUNT_LETTER, bytes) {
        Ok(taken) => {
            let line = counted_line(alloc, count_of(&taken, inside))?;
            Ok(Ending::line(alloc, Status::Done, line))
        }
        Err(ChoiceErr::Fault(fault)) => refused(alloc, &fault),
        Err(ChoiceErr::NoMemory) => Err(Halt::NoMemory),
    }
}

// The same of the proof in a file.
fn check_file<H: Hash32, S: Shelf>(
    alloc: Global,
    root: &[u8; 32],
    inside: &Inside,
    name: &str,
    shelf: &mut S,
) -> Result<Ending, Halt>
    ensures { RunsPlan (say_check_count H.of root.now (ways_inside inside.now) name.now)
        (S.state shelf.old) (S.state shelf.new) result }
{
    match needed(alloc, name, shelf) {
        Ok(bytes) => check_bytes::<H>(alloc, root, inside, &bytes),
        Err(came) => came,
    }
}

/// How many records lie inside the window of a query and are on one of the layers that it asks for,
/// as the proof in a file proves it, against a root digest. The proof is read whole.
pub fn check_count<H: Hash32, S: Shelf>(
    alloc: Global,
    root: &[u8; 32],
    query: &Query,
    name: &str,
    shelf: &mut S,
) -> Result<Ending, Halt>
    requires { IsWindow query.now.shape }
    ensures { RunsPlan (say_check_count H.of root.now (count_ways query.now) name.now)
        (S.state shelf.old) (S.state shelf.new) result }
{
    check_file::<H, S>(alloc, root, &inside_of(query), name, shelf)
}

//! The command `check`.

ghost use Rattle.mr_query.specs.Word.{IsAskable};
ghost use Rattle.mr_command.specs.Ending.{IsEndingOrHalt, IsCarriedOut};
ghost use Rattle.mr_plan.specs.Refusal.{refused_line as line_of};
ghost use Rattle.mr_plan.specs.Say.{ends};
ghost use Rattle.mr_plan.specs.declared.words.Command.TheVariants as commands;

use crate::ending::{Ending, Halt};
use crate::input::missing;
use crate::pieces::{Stop, judge_file};
use mr_outside::Shelf;
use mr_plan::{Status, refused_line};
use mr_proof::Fault;
use mr_query::Query;
use mr_tree::Hash32;
use std::alloc::Global;

// The ending over a proof that is refused.
pub(crate) fn refused(alloc: Global, fault: &Fault) -> Result<Ending, Halt>
    ensures { IsEndingOrHalt (ends Status.Refused (line_of fault.now)) result }
{
    let line = refused_line(alloc, fault)?;
    Ok(Ending::line(alloc, Status::Refused, line))
}

/// The answer that the proof in a file proves, against a root digest and for a query, in lines of
/// the proof's version.
pub fn check_proof<H: Hash32, S: Shelf>(
    alloc: Global,
    root: &[u8; 32],
    query: &Query,
    name: &str,
    shelf: &mut S,
) -> Result<Ending, Halt>
    requires { IsAskable query.now }
    ensures { IsCarriedOut H.of (commands.Check root.now query.now name.entry) (S.state shelf.old)
        (S.state shelf.new) result }
{
    match judge_file::<H, S>(alloc, root, query, name, shelf) {
        Ok((version, records)) => Ok(Ending::records(alloc, Status::Done, version, records)),
        Err(Stop::Refused(fault)) => refused(alloc, &fault),
        Err(Stop::Missing) => missing(alloc, name),
        Err(Stop::Halted(halt)) => Err(halt),
    }
}

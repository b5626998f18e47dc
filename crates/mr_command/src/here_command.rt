//! The command `apply-here`.

ghost use Rattle.std.specs.Prelude.{◌≡◌, All, IfOk};
ghost use Rattle.mr_batch.specs.BatchText.{batch_of_text};
ghost use Rattle.mr_batch.specs.Changes.{IsLayered};
ghost use Rattle.mr_command.specs.Ending.{IsCarriedOut, IsEndingOrHalt};
ghost use Rattle.mr_command.specs.private.Inputs.{ReadsValue};
ghost use Rattle.mr_command.specs.private.Here.{SaysApplied, UpdatesByText, UpdatesThere};
ghost use Rattle.mr_plan.specs.Lines.{needs_version_2_line as line_of_need};
ghost use Rattle.mr_plan.specs.Say.{ends};
ghost use Rattle.mr_plan.specs.Saying.{journal_of};
ghost use Rattle.mr_plan.specs.declared.words.Command.TheVariants as commands;

use crate::apply_command::bad_batch;
use crate::ending::{Ending, Halt, Step};
use crate::input::{bad_text, missing, needed};
use crate::opening::unopened;
use crate::recover_command::{halted, journal_name};
use crate::saving::say_root;
use mr_batch::{Batch, read_batch_of};
use mr_here::{HereErr, apply_files, version_of_files};
use mr_outside::{Shelf, ShelfErr};
use mr_pages::MapErr;
use mr_plan::{Status, needs_version_2_line};
use mr_record::Version;
use mr_tree::Hash32;
use std::alloc::Global;

// The ending over a map without layers, and a batch with some.
fn no_layers(alloc: Global) -> Result<Ending, Halt>
    ensures { IsEndingOrHalt (ends Status.NeedsVersion2 line_of_need) result }
{
    let line = needs_version_2_line(alloc)?;
    Ok(Ending::line(alloc, Status::NeedsVersion2, line))
}

// What the command comes to, by the root digest of the map after a batch, or by why it was not
// applied.
fn say_applied(
    alloc: Global,
    map: &str,
    applied: &Result<[u8; 32], HereErr>,
) -> Result<Ending, Halt>
    ensures { SaysApplied applied.now result }
{
    match applied {
        Ok(digest) => say_root(alloc, digest),
        Err(HereErr::Map(fault)) => unopened(alloc, map, &MapErr::Map(*fault)),
        Err(HereErr::Layer) => no_layers(alloc),
        Err(HereErr::Batch(fault)) => bad_batch(alloc, fault),
        Err(HereErr::Fault) => Err(Halt::Shelf),
        Err(HereErr::NoMemory) => Err(Halt::NoMemory),
    }
}

// The batch in a file, whose lines are of this version. Its text is given up for it.
fn batch_from<S: Shelf>(alloc: Global, version: Version, name: &str, shelf: &mut S) -> Step<Batch>
    ensures reads { ReadsValue (batch_of_text version) name.now (S.state shelf.old)
        (S.state shelf.new) result }
    ensures layered { IfOk result (λ b. All IsLayered b.list) }
{
    let text = needed(alloc, name, shelf)?;
    match read_batch_of(alloc, version, &text) {
        Ok(batch) => Ok(batch),
        Err(error) => Err(bad_text(alloc, &error)),
    }
}

// The batch in a file applied to the map in another one, whose lines are of this version.
fn apply_text<H: Hash32, S: Shelf>(
    alloc: Global,
    map: &str,
    journal: &str,
    batch: &str,
    version: Version,
    shelf: S,
) -> (Result<Ending, Halt>, S)
    requires { journal.now ≡ journal_of map.now }
    ensures { UpdatesByText H.of map.now batch.now version (S.state shelf) (S.state result.1)
        result.0 }
{
    let mut shelf = shelf;
    match batch_from(alloc, version, batch, &mut shelf) {
        Ok(changes) => {
            let (applied, shelf) = apply_files::<H, S>(alloc, shelf, map, journal, &changes);
            (say_applied(alloc, map, &applied), shelf)
        }
        Err(came) => (came, shelf),
    }
}

// The same of a map that is there, in the version that recovery would leave it in.
fn apply_there<H: Hash32, S: Shelf>(
    alloc: Global,
    map: &str,
    batch: &str,
    shelf: S,
) -> (Result<Ending, Halt>, S)
    ensures { UpdatesThere H.of map.now batch.now (S.state shelf) (S.state result.1) result.0 }
{
    match journal_name(alloc, map) {
        Err(_) => (Err(Halt::NoMemory), shelf),
        Ok(journal) => {
            let (held, shelf) = version_of_files(alloc, shelf, map, journal.as_str());
            match held {
                Err(error) => (Err(halted(error)), shelf),
                Ok(version) => {
                    apply_text::<H, S>(alloc, map, journal.as_str(), batch, version, shelf)
                }
            }
        }
    }
}

/// Applies the batch in a file to the map in another one, in its own file, by the journal beside
/// it. So a crash at any moment leaves the map as it was or after the batch. The lines of the batch
/// are of the map's version, and it is read before anything is written. The shelf is handed back.
pub fn apply_in_place<H: Hash32, S: Shelf>(
    alloc: Global,
    map: &str,
    batch: &str,
    shelf: S,
) -> (Result<Ending, Halt>, S)
    ensures { IsCarriedOut H.of (commands.ApplyHere map.entry batch.entry) (S.state shelf)
        (S.state result.1) result.0 }
{
    let mut shelf = shelf;
    match shelf.size(map) {
        Err(ShelfErr::Missing) => (missing(alloc, map), shelf),
        Err(ShelfErr::Fault) => (Err(Halt::Shelf), shelf),
        Err(ShelfErr::NoMemory) => (Err(Halt::NoMemory), shelf),
        Ok(_) => apply_there::<H, S>(alloc, map, batch, shelf),
    }
}

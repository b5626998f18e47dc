//! The command `recover`.

ghost use Rattle.std.specs.Prelude.{◌≡◌, List, ℕ, IfOk};
ghost use Rattle.std.specs.String.{string_bytes};
ghost use Rattle.mr_command.specs.Ending.{IsCarriedOut};
ghost use Rattle.mr_command.specs.private.InPlace.{halt_of_disk, RecoversFile, SaysRecovered};
ghost use Rattle.mr_plan.specs.Saying.{journal_of};
ghost use Rattle.mr_plan.specs.declared.words.Command.TheVariants as commands;

use crate::ending::{Ending, Halt};
use crate::input::missing;
use mr_journal::{DiskErr, RecoverErr, recover_files};
use mr_outside::{Shelf, ShelfErr};
use mr_plan::{Status, recovered_line};
use std::alloc::{AllocError, Global};

// The name of the journal beside a map's file.
pub(crate) fn journal_name(alloc: Global, map: &str) -> Result<String, AllocError>
    ensures { IfOk result (λ name. string_bytes name ≡ journal_of map.now) }
{
    let mut name = String::from_str(alloc, map)?;
    name.push_str(".journal")?;
    Ok(name)
}

// The halt over a refusal of the disk.
pub(crate) fn halted(error: DiskErr) -> Halt
    ensures { result ≡ halt_of_disk error }
{
    match error {
        DiskErr::Fault => Halt::Shelf,
        DiskErr::NoMemory => Halt::NoMemory,
    }
}

// What the command comes to, by whether the journal was open.
fn say_recovered(alloc: Global, recovered: &Result<bool, RecoverErr>) -> Result<Ending, Halt>
    ensures { SaysRecovered recovered.now result }
{
    match recovered {
        Ok(was_open) => {
            let line = recovered_line(alloc, *was_open)?;
            Ok(Ending::line(alloc, Status::Done, line))
        }
        Err(error) => Err(halted(*error)),
    }
}

// The map in a file that is there, recovered.
fn recover_there<S: Shelf>(alloc: Global, map: &str, shelf: S) -> (Result<Ending, Halt>, S)
    ensures { RecoversFile map.now (S.state shelf) (S.state result.1) result.0 }
{
    match journal_name(alloc, map) {
        Err(_) => (Err(Halt::NoMemory), shelf),
        Ok(journal) => {
            let (recovered, shelf) = recover_files(alloc, shelf, map, journal.as_str());
            (say_recovered(alloc, &recovered), shelf)
        }
    }
}

/// Finishes a change of the map in a file that a crash cut short, by the journal beside it. The
/// map has to be there. The shelf is handed back.
pub fn recover_map<S: Shelf>(alloc: Global, map: &str, shelf: S) -> (Result<Ending, Halt>, S)
    ensures { (hash : List ℕ → List ℕ) → IsCarriedOut hash (commands.Recover map.entry)
        (S.state shelf) (S.state result.1) result.0 }
{
    let mut shelf = shelf;
    match shelf.size(map) {
        Err(ShelfErr::Missing) => (missing(alloc, map), shelf),
        Err(ShelfErr::Fault) => (Err(Halt::Shelf), shelf),
        Err(ShelfErr::NoMemory) => (Err(Halt::NoMemory), shelf),
        Ok(_) => recover_there(alloc, map, shelf),
    }
}

//! A map and its journal in two files of a shelf.

ghost use Rattle.std.specs.Prelude.{◌≡◌, ◌≢◌, ◌≤◌, false, IsSome, IfOk, OnOk, IsErrOf};
ghost use Rattle.mr_outside.specs.Faults.{Rose};
ghost use Rattle.mr_journal.specs.Shelves.{KeepsBeside};
ghost use Rattle.mr_journal.specs.Recovered.{RecoversMap};

use crate::{DiskErr, RecoverErr, ShelfDisk, recover};
use mr_outside::Shelf;
use std::alloc::Global;

/// Finishes a change of the map in one file that a crash cut short, by the journal in another file,
/// and answers whether the journal was open. An absent file has no bytes. Each other file is as
/// before, and the shelf is handed back.
pub fn recover_files<S: Shelf>(
    alloc: Global,
    shelf: S,
    map: &str,
    journal: &str,
) -> (Result<bool, RecoverErr>, S)
    requires { map.now ≢ journal.now }
    ensures recovers { RecoversMap map.now journal.now (S.state shelf).files
        (S.state result.1).files
        result.0 }
    ensures clean { IfOk result.0 (λ was. was ≡ false
        → (S.state result.1).files ≡ (S.state shelf).files) }
    ensures beside { KeepsBeside map.now journal.now (S.state shelf).files
        (S.state result.1).files }
    ensures fault { IsErrOf result.0 DiskErr.Fault
        → Rose (S.state shelf).faults (S.state result.1).faults }
    ensures faults { (S.state shelf).faults ≤ (S.state result.1).faults }
    // Over files that are told a call that is answered counts no fault.
    ensures quiet { IsSome (S.state shelf).files
        → OnOk result.0 ((S.state result.1).faults ≡ (S.state shelf).faults) }
    ensures reads { (S.state shelf).reads ≤ (S.state result.1).reads }
{
    match ShelfDisk::new(alloc, shelf, map, journal) {
        Err((shelf, _)) => (Err(DiskErr::NoMemory), shelf),
        Ok(disk) => {
            let mut disk = disk;
            let answer = recover(alloc, &mut disk);
            (answer, disk.close())
        }
    }
}

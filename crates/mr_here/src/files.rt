//! A batch that is applied in place to the map in a file.

ghost use Rattle.std.specs.Prelude.{◌≡◌, ◌≢◌, ◌≤◌, All, IsSome, OnOk, IsErrOf};
ghost use Rattle.mr_outside.specs.Faults.{Rose};
ghost use Rattle.mr_batch.specs.Changes.{IsLayered};
ghost use Rattle.mr_journal.specs.Shelves.{KeepsBeside};
ghost use Rattle.mr_journal.specs.declared.disk.DiskErr.TheVariants as disks;
ghost use Rattle.mr_here.specs.OnFiles.{AppliesTo, TellsVersion};
ghost use Rattle.mr_here.specs.Updated.{AnswersSome, WhereJudged};

use crate::error::HereErr;
use crate::here::apply_here;
use crate::version::version_held;
use mr_batch::Batch;
use mr_journal::{DiskErr, RecoverErr, ShelfDisk};
use mr_outside::Shelf;
use mr_record::Version;
use mr_tree::Hash32;
use std::alloc::Global;

/// The version of the map in a file of a shelf, beside which another file is its journal, as
/// recovery would leave it. An absent file has no bytes. The files are as before, and the shelf is
/// handed back.
pub fn version_of_files<S: Shelf>(
    alloc: Global,
    shelf: S,
    map: &str,
    journal: &str,
) -> (Result<Version, RecoverErr>, S)
    requires { map.now ≢ journal.now }
    ensures version { TellsVersion map.now journal.now (S.state shelf).files result.0 }
    ensures files { (S.state result.1).files ≡ (S.state shelf).files }
    ensures fault { IsErrOf result.0 disks.Fault
        → Rose (S.state shelf).faults (S.state result.1).faults }
    ensures faults { (S.state shelf).faults ≤ (S.state result.1).faults }
    // Over files that are told a call that is answered counts no fault.
    ensures quiet { IsSome (S.state shelf).files
        → OnOk result.0 ((S.state result.1).faults ≡ (S.state shelf).faults) }
    ensures reads { (S.state shelf).reads ≤ (S.state result.1).reads }
{
    match ShelfDisk::new(alloc, shelf, map, journal) {
        Err((shelf, _)) => (Err(DiskErr::NoMemory), shelf),
        Ok(disk) => {
            let mut disk = disk;
            let answer = version_held(alloc, &mut disk);
            (answer, disk.close())
        }
    }
}

/// Applies a batch to the map in a file of a shelf, beside which another file is its journal, and
/// answers the root digest. An absent file has no bytes. Each other file is as before, and the
/// shelf is handed back.
pub fn apply_files<H: Hash32, S: Shelf>(
    alloc: Global,
    shelf: S,
    map: &str,
    journal: &str,
    batch: &Batch,
) -> (Result<[u8; 32], HereErr>, S)
    requires names { map.now ≢ journal.now }
    requires layered { All IsLayered batch.now.list }
    ensures applies { AppliesTo H.of map.now journal.now batch.now (S.state shelf).files
        (S.state result.1).files result.0 }
    // Told or not, the answer is that of the bytes of some map.
    ensures some { AnswersSome H.of batch.now result.0 }
    ensures beside { KeepsBeside map.now journal.now (S.state shelf).files
        (S.state result.1).files }
    ensures fault { IsErrOf result.0 HereErr.Fault
        → Rose (S.state shelf).faults (S.state result.1).faults }
    ensures faults { (S.state shelf).faults ≤ (S.state result.1).faults }
    // Over files that are told no fault is counted where map and batch are judged.
    ensures quiet { IsSome (S.state shelf).files
        → WhereJudged result.0 ((S.state result.1).faults ≡ (S.state shelf).faults) }
    ensures reads { (S.state shelf).reads ≤ (S.state result.1).reads }
{
    match ShelfDisk::new(alloc, shelf, map, journal) {
        Err((shelf, _)) => (Err(HereErr::NoMemory), shelf),
        Ok(disk) => {
            let mut disk = disk;
            let answer = apply_here::<H, ShelfDisk<S>>(alloc, &mut disk, batch);
            (answer, disk.close())
        }
    }
}

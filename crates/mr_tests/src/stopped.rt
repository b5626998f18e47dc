//! Batches that are applied in place and stop after each call on the disk, or of which each call
//! fails, on maps of three levels in both versions. What a crash leaves is recovered as the map
//! before the batch, or as the one after it, which `apply` makes.

ghost use Rattle.std.specs.Prelude.{All, IfOk, IfSome};
ghost use Rattle.mr_batch.specs.Changes.{IsLayered};

use crate::assertions::all_hold;
use mr_batch::{Batch, read_batch_of};
use mr_fixtures::parts::File;
use mr_fixtures::runs::{file_of, ran_on, shelf_of};
use mr_here::{HereErr, apply_here};
use mr_journal::{Area, Disk, DiskErr, MemDisk, read_map, recover};
use mr_record::Version;
use mr_tree::XorHash;
use std::alloc::{AllocError, Global};
use std::thread::Threads;

// A map, the same in the other version, and a batch for each, which splits a leaf and empties one.
const FILES: &[File<'static>] = &[
    (
        "b",
        "| batch 1\n| - 7\n| - 900\n| + 2001 3 3 3 3 -\n| + 2002 4 4 4 4 -",
    ),
    (
        "c",
        "| batch 1\n| - 7\n| - 900\n| + 2001 3 3 3 3 5 -\n| + 2002 4 4 4 4 6 -",
    ),
];

const LINES: &[&str] = &[
    "make 1100 3 r",
    "build m r",
    "apply m b n",
    "upgrade m o",
    "apply o c p",
];

// What a crash leaves of either file: what was synced, what was written, that with other bytes; or,
// from three on, a front of one and the rest of the other, which tears a page in its middle.
const PICKS: &[u64] = &[0, 1, 2, 3, 4, 7, 104];

// Up to which byte it is the one.
fn tear_of(pick: u64) -> usize {
    (pick / 2).saturating_mul(4_096).saturating_sub(2_000) as usize
}

// The bytes of a map before and after a batch.
#[derive(Drop)]
struct Maps {
    old: Vec<u8>,
    batch: Batch,
    new: Vec<u8>,
}

// The batch of a text, in which each layer is one of a map's.
fn batch_of(alloc: Global, version: Version, text: &[u8]) -> Option<Batch>
    ensures { IfSome result (λ b. All IsLayered b.list) }
{
    match read_batch_of(alloc, version, text) {
        Ok(batch) => Some(batch),
        Err(_) => None,
    }
}

// The maps in this version.
fn maps_of<R: Threads + Sync>(
    rt: &R,
    alloc: Global,
    version: Version,
) -> Result<Option<Maps>, AllocError>
    ensures { IfOk result (λ some. IfSome some (λ m. All IsLayered m.batch.list)) }
{
    let mut shelf = shelf_of(alloc, FILES, &[])?;
    for line in LINES {
        let (_, left) = ran_on::<XorHash, R>(rt, alloc, line, shelf, &mut Vec::new(alloc))?;
        shelf = left;
    }
    let (old, text, new) = match version {
        Version::One => ("m", "b", "n"),
        Version::Two => ("o", "c", "p"),
    };
    match batch_of(alloc, version, &file_of(alloc, &shelf, text)?) {
        Some(batch) => Ok(Some(Maps {
            old: file_of(alloc, &shelf, old)?,
            batch,
            new: file_of(alloc, &shelf, new)?,
        })),
        None => Ok(None),
    }
}

// What is left of a map.
#[derive(Clone, Copy, PartialEq, Eq)]
enum Left {
    Old,
    New,
    Other,
}

fn left_of(maps: &Maps, bytes: &[u8]) -> Left {
    if bytes == maps.old.as_slice() {
        Left::Old
    } else if bytes == maps.new.as_slice() {
        Left::New
    } else {
        Left::Other
    }
}

// A front of some bytes, and the rest of others.
fn torn(alloc: Global, front: &[u8], behind: &[u8], at: usize) -> Result<Vec<u8>, AllocError> {
    let at = at.min(front.len());
    let mut bytes = front[..at].to_vec(alloc)?;
    if at < behind.len() {
        bytes.extend_from_slice(&behind[at..])?;
    }
    Ok(bytes)
}

// The bytes of a journal.
fn read_journal(alloc: Global, disk: &mut MemDisk) -> Result<Vec<u8>, DiskErr> {
    let length = disk.size(Area::Journal)?;
    let mut bytes = vec![in alloc; 0u8; length as usize]?;
    let count = disk.read_at(Area::Journal, 0, bytes.as_mut_slice())?;
    bytes.truncate(count);
    Ok(bytes)
}

// What such a crash leaves.
fn crashed(alloc: Global, disk: &MemDisk, step: u64, pick: u64) -> Result<MemDisk, DiskErr> {
    if pick < 3 {
        return Ok(disk.crash(step, pick)?);
    }
    let (mut front, mut behind) = (disk.crash(step, pick % 2)?, disk.crash(step, 1 - pick % 2)?);
    let at = tear_of(pick);
    let (one, other) = (read_map(alloc, &mut front)?, read_map(alloc, &mut behind)?);
    let map = torn(alloc, &one, &other, at)?;
    let (one, other) = (
        read_journal(alloc, &mut front)?,
        read_journal(alloc, &mut behind)?,
    );
    let journal = torn(alloc, &one, &other, at)?;
    Ok(MemDisk::new(alloc, &map, &journal, Vec::new(alloc))?)
}

// What recovery leaves of a crash.
fn recovered(
    alloc: Global,
    maps: &Maps,
    disk: &MemDisk,
    step: u64,
    pick: u64,
) -> Result<Left, DiskErr> {
    let mut left = crashed(alloc, disk, step, pick)?;
    recover(alloc, &mut left)?;
    let is_open = recover(alloc, &mut left)?;
    let map = read_map(alloc, &mut left)?;
    Ok(if is_open {
        Left::Other
    } else {
        left_of(maps, &map)
    })
}

// Whether each crash of all calls so far leaves one of the two maps, and one behind the last call
// the new one.
fn leaves_one_of_two(alloc: Global, maps: &Maps, disk: &MemDisk) -> Result<bool, DiskErr> {
    let (mut old, mut new) = (0u64, 0u64);
    for step in 0..=disk.calls_made() {
        for pick in PICKS {
            match recovered(alloc, maps, disk, step, *pick)? {
                Left::Old if step < disk.calls_made() => old = old.saturating_add(1),
                Left::New => new = new.saturating_add(1),
                _ => return Ok(false),
            }
        }
    }
    Ok(old > 20 && new > 20)
}

// Of these the ones that are taken behind each call of a recovery.
const FEW: &[u64] = &[0, 1, 2, 7];

// Whether each crash behind this call leaves the new map.
fn leaves_new(
    alloc: Global,
    maps: &Maps,
    disk: &MemDisk,
    step: u64,
    picks: &[u64],
) -> Result<bool, DiskErr> {
    for pick in picks {
        if recovered(alloc, maps, disk, step, *pick)? != Left::New {
            return Ok(false);
        }
    }
    Ok(true)
}

// Whether a recovery of these files, of which this call fails, is refused, and leaves the new map.
fn is_refused(
    alloc: Global,
    maps: &Maps,
    (map, journal): (&[u8], &[u8]),
    failing: u64,
) -> Result<bool, DiskErr> {
    let mut disk = MemDisk::new(alloc, map, journal, vec![in alloc; failing]?)?;
    let is_fault = recover(alloc, &mut disk) == Err(DiskErr::Fault);
    Ok(is_fault && leaves_new(alloc, maps, &disk, u64::MAX, &[1])?)
}

// Whether each crash of a recovery leaves the new map, and each call of one that fails, on what
// this crash of the update left; or there is nothing to recover.
fn is_recovered(
    alloc: Global,
    maps: &Maps,
    disk: &MemDisk,
    (step, pick): (u64, u64),
) -> Result<bool, DiskErr> {
    let mut left = disk.crash(step, pick)?;
    let map = read_map(alloc, &mut left)?;
    let journal = read_journal(alloc, &mut left)?;
    let mut left = MemDisk::new(alloc, &map, &journal, Vec::new(alloc))?;
    if !recover(alloc, &mut left)? {
        return Ok(true);
    }
    for step in 0..=left.calls_made() {
        if !leaves_new(alloc, maps, &left, step, FEW)? {
            return Ok(false);
        }
        if step > 0 && !is_refused(alloc, maps, (&map, &journal), step)? {
            return Ok(false);
        }
    }
    Ok(true)
}

// Whether each crash of each recovery does, on what was synced, on what was written, and on that
// with other bytes.
fn are_recovered(alloc: Global, maps: &Maps, disk: &MemDisk) -> Result<bool, DiskErr> {
    for step in 0..=disk.calls_made() {
        for pick in 0..3u64 {
            if !is_recovered(alloc, maps, disk, (step, pick))? {
                return Ok(false);
            }
        }
    }
    Ok(true)
}

// How an update ends.
#[derive(Clone, Copy, PartialEq, Eq)]
enum Ended {
    Done,
    Fault,
    Other,
}

// A disk on which the batch was applied, as far as this call, which fails; and how that ended.
fn applied_on(alloc: Global, maps: &Maps, failing: u64) -> Result<(Ended, MemDisk), AllocError>
    requires { All IsLayered maps.now.batch.list }
{
    let mut disk = MemDisk::new(alloc, &maps.old, &[], vec![in alloc; failing]?)?;
    let ended = match apply_here::<XorHash, MemDisk>(alloc, &mut disk, &maps.batch) {
        Ok(_) => Ended::Done,
        Err(HereErr::Fault) => Ended::Fault,
        Err(_) => Ended::Other,
    };
    Ok((ended, disk))
}

// Whether each call that fails is told as a fault of the disk, and leaves one of the two maps.
fn are_faults(alloc: Global, maps: &Maps, calls: u64) -> Result<bool, AllocError>
    requires { All IsLayered maps.now.batch.list }
{
    for failing in 1..=calls {
        let (ended, disk) = applied_on(alloc, maps, failing)?;
        for pick in PICKS {
            let left = recovered(alloc, maps, &disk, u64::MAX, *pick);
            if ended != Ended::Fault || !matches!(left, Ok(Left::Old | Left::New)) {
                return Ok(false);
            }
        }
    }
    Ok(true)
}

// The first thing that is otherwise.
fn first_other(alloc: Global, maps: &Maps) -> Result<Option<&'static str>, AllocError>
    requires { All IsLayered maps.now.batch.list }
{
    let (ended, disk) = applied_on(alloc, maps, 0)?;
    if ended != Ended::Done {
        return Ok(Some("the batch is applied"));
    }
    if !matches!(leaves_one_of_two(alloc, maps, &disk), Ok(true)) {
        return Ok(Some("a crash leaves one of two maps"));
    }
    if !matches!(are_recovered(alloc, maps, &disk), Ok(true)) {
        return Ok(Some("a crash of a recovery leaves the new map"));
    }
    if !are_faults(alloc, maps, disk.calls_made())? {
        return Ok(Some("a call that fails leaves one of two maps"));
    }
    Ok(None)
}

fn first_torn<R: Threads + Sync>(
    rt: &R,
    alloc: Global,
    version: Version,
) -> Result<Option<&'static str>, AllocError> {
    match maps_of(rt, alloc, version)? {
        Some(maps) => first_other(alloc, &maps),
        None => Ok(Some("a batch")),
    }
}

#[test]
fn a_map_of_version_one_outlives_crashes(rt: HostRuntime) {
    all_hold(&rt, first_torn(&rt, rt.alloc(), Version::One));
}

#[test]
fn a_map_of_version_two_outlives_crashes(rt: HostRuntime) {
    all_hold(&rt, first_torn(&rt, rt.alloc(), Version::Two));
}

//! A map's file that is changed in place by its journal. Asked are the calls on the files in their
//! order, a journal that is found open, and a batch that is stopped after each call on the disk, or
//! of which each call fails. Roots are under the exclusive or of all bytes.

ghost use Rattle.std.specs.Prelude.{◌≡◌, true, All, IfSome, OnOk, OnErr};
ghost use Rattle.mr_record.specs.declared.version.Version.TheVariants.{One};
ghost use Rattle.mr_tree.specs.WellFormed.{WellFormed, HasLayers};
ghost use Rattle.mr_outside.specs.Faults.{next_count};
ghost use Rattle.mr_batch.specs.Changes.{IsLayered};

use crate::assertions::{all_hold, all_hold_in_memory, holds};
use crate::made::{is_first, records_of, tree_of};
use mr_batch::{Batch, read_batch_of};
use mr_here::{HereErr, apply_here};
use mr_journal::{DiskErr, MemDisk, ShelfDisk, read_map, recover};
use mr_outside::{MemShelf, Shelf, ShelfErr};
use mr_pages::{open_plain, save_plain};
use mr_record::Version;
use mr_tree::{Tree, XorHash, root_of};
use std::alloc::{AllocError, Global};

const SEVEN: &str = "7 0 0 0 0 -\n";

const SIXTEEN: &str = "1 1 0 1 0 -\n2 2 0 2 0 -\n3 3 0 3 0 -\n4 4 0 4 0 -\n5 5 0 5 0 -\n\
    6 6 0 6 0 -\n7 7 0 7 0 -\n8 8 0 8 0 -\n9 9 0 9 0 -\n10 10 0 10 0 -\n11 11 0 11 0 -\n\
    12 12 0 12 0 -\n13 13 0 13 0 -\n14 14 0 14 0 -\n15 15 0 15 0 -\n16 16 0 16 0 -\n";

// The bytes of a map's file.
fn file_of(alloc: Global, tree: &Tree, batch: u64) -> Option<Vec<u8>>
    requires well_formed { WellFormed tree.now }
    requires layers { HasLayers One tree.now }
{
    let mut shelf = MemShelf::new(alloc, Vec::new(alloc));
    if save_plain::<XorHash, MemShelf>(alloc, &mut shelf, "m", tree, batch).is_err() {
        return None;
    }
    match shelf.file("m")?.to_vec(alloc) {
        Ok(bytes) => Some(bytes),
        Err(_) => None,
    }
}

// The batch of a map and the last byte of its root digest, this many batches on; 255 twice where
// the bytes are no map.
fn root_at(alloc: Global, bytes: &[u8], later: u64) -> Result<(u64, u8), AllocError> {
    let mut shelf = MemShelf::new(alloc, Vec::new(alloc));
    shelf.put("m", bytes)?;
    match open_plain::<XorHash, MemShelf>(alloc, &mut shelf, "m") {
        Ok(map) if is_first(alloc, &map.tree) => {
            let batch = map.batch.saturating_add(later);
            Ok((map.batch, root_of::<XorHash>(&map.tree, batch)[31]))
        }
        _ => Ok((255, 255)),
    }
}

// The bytes of a map's file, and a batch.
#[derive(Drop)]
struct Change {
    old: Vec<u8>,
    batch: Batch,
}

// The map of these records at batch 0, and the batch of this text.
fn change_of(alloc: Global, records: &str, batch: &str) -> Option<Change>
    ensures { IfSome result (λ c. All IsLayered c.batch.list) }
{
    let tree = tree_of(alloc, records_of(alloc, records)?)?;
    if !is_first(alloc, &tree) {
        return None;
    }
    let old = file_of(alloc, &tree, 0)?;
    match read_batch_of(alloc, Version::One, batch.as_bytes()) {
        Ok(batch) => Some(Change { old, batch }),
        Err(_) => None,
    }
}

// A leaf of sixteen records, which a seventeenth one splits.
fn split_leaf(alloc: Global) -> Option<Change>
    ensures { IfSome result (λ c. All IsLayered c.batch.list) }
{
    change_of(alloc, SIXTEEN, "batch 1\n+ 17 100 100 100 100 -\n")
}

// A leaf of one record, which goes, so that its page is free.
fn emptied_leaf(alloc: Global) -> Option<Change>
    ensures { IfSome result (λ c. All IsLayered c.batch.list) }
{
    change_of(alloc, SEVEN, "batch 1\n- 7\n")
}

// A journal with this gate, version 1 and one entry: page 0 of the map, at this batch.
fn journal_of(alloc: Global, gate: u8, batch: u8, map: &[u8]) -> Result<Vec<u8>, AllocError> {
    let mut journal = Vec::from_slice(alloc, &[gate, 1, 0, 0, 0, 1, 0, 0, 0, 0])?;
    let (page, _) = map.split_at(map.len().min(4096));
    journal.extend_from_slice(page)?;
    if journal.len() > 23 {
        journal[23] = batch;
    }
    Ok(journal)
}

// The journals that a change begins with: none, and ones that would be open but for their gate, or
// for their length, of which the entry would give another root; with the calls that prepare the
// gate and write the body, of two pages of the map. A journal that is empty, or whose gate is that
// of an open one, gets its gate, 00. Of one with any other byte there the version is spoiled first,
// so that it stays closed whatever becomes of the gate. Where the gate is 00, nothing is written
// before the body. A shelf takes bytes up to a file's end and behind it apart.
const GATES: &[(&str, Option<u8>, &str)] = &[
    (
        "no journal",
        None,
        "write A.journal 0 1\nsync A.journal\nwrite A.journal 1 8205\n",
    ),
    (
        "a journal with another gate",
        Some(0x17),
        "write A.journal 1 1\nsync A.journal\nwrite A.journal 0 1\nsync A.journal\n\
            write A.journal 1 4105\nwrite A.journal 4106 4100\n",
    ),
    (
        "a journal that is cut",
        Some(0x4f),
        "write A.journal 0 1\nsync A.journal\nwrite A.journal 1 4104\nwrite A.journal 4105 4101\n",
    ),
    (
        "a journal that is closed",
        Some(0),
        "write A.journal 1 4105\nwrite A.journal 4106 4100\n",
    ),
];

// The journal with such a gate; of one that would be open the last byte is cut off.
fn journal_with(alloc: Global, gate: Option<u8>, map: &[u8]) -> Result<Vec<u8>, AllocError> {
    let Some(gate) = gate else {
        return Ok(Vec::new(alloc));
    };
    let mut journal = journal_of(alloc, gate, 9, map)?;
    if gate == 0x4f {
        journal.pop();
    }
    Ok(journal)
}

// ---- the calls on files

// Files of which nothing is told, with a line for each write and each sync: `write NAME PLACE
// COUNT` and `sync NAME`.
#[derive(Drop)]
struct Listing {
    alloc: Global,
    shelf: MemShelf,
    lines: String,
    faults: u64,
    reads: u64,
}

// Counts a fault just where a call is refused.
fn count_refusal<T>(faults: &mut u64, answer: &Result<T, ShelfErr>)
    ensures refused { OnErr answer.now (faults.new ≡ next_count faults.old) }
    ensures quiet { OnOk answer.now (faults.new ≡ faults.old) }
{
    if answer.is_err() {
        *faults = faults.saturating_add(1);
    }
}

// The bytes of a file with others from a place on.
fn overwritten(alloc: Global, old: &[u8], at: u64, bytes: &[u8]) -> Result<Vec<u8>, AllocError> {
    let (front, behind) = old.split_at((old.len() as u64).min(at) as usize);
    let (_, rest) = behind.split_at(bytes.len().min(behind.len()));
    let mut all = front.to_vec(alloc)?;
    all.extend_from_slice(bytes)?;
    all.extend_from_slice(rest)?;
    Ok(all)
}

// Writes and lists.
fn written(
    alloc: Global,
    shelf: &mut MemShelf,
    lines: &mut String,
    name: &str,
    at: u64,
    bytes: &[u8],
) -> Result<(), ShelfErr> {
    let count = bytes.len();
    lines.push_str(format!(in alloc; "write {name} {at} {count}\n")?.as_str())?;
    let Some(old) = shelf.file(name) else {
        return Err(ShelfErr::Missing);
    };
    let all = overwritten(alloc, old, at, bytes)?;
    shelf.put(name, &all)?;
    Ok(())
}

impl Shelf for Listing {
    ghost use Rattle.mr_outside.specs.Edge.{untold_shelf};

    ghost state = { λ s. untold_shelf s.faults s.reads };

    fn size(&mut self, name: &str) -> Result<u64, ShelfErr> {
        match self.shelf.file(name) {
            Some(bytes) => Ok(bytes.len() as u64),
            None => {
                self.faults = self.faults.saturating_add(1);
                Err(ShelfErr::Missing)
            }
        }
    }

    fn read_at(&mut self, name: &str, at: u64, into: &mut [u8]) -> Result<usize, ShelfErr> {
        self.reads = self.reads.saturating_add(1);
        let bytes = self.shelf.file(name).unwrap_or(&[]);
        let (_, rest) = bytes.split_at((bytes.len() as u64).min(at) as usize);
        let count = into.len().min(rest.len());
        into[..count].copy_from_slice(&rest[..count]);
        Ok(count)
    }

    fn create(&mut self, name: &str) -> Result<(), ShelfErr> {
        let answer = self.shelf.create(name);
        count_refusal(&mut self.faults, &answer);
        answer
    }

    fn append(&mut self, name: &str, bytes: &[u8]) -> Result<(), ShelfErr> {
        let at = self.shelf.file(name).unwrap_or(&[]).len() as u64;
        let answer = written(
            self.alloc,
            &mut self.shelf,
            &mut self.lines,
            name,
            at,
            bytes,
        );
        count_refusal(&mut self.faults, &answer);
        answer
    }

    fn write_at(&mut self, name: &str, at: u64, bytes: &[u8]) -> Result<(), ShelfErr> {
        let answer = written(
            self.alloc,
            &mut self.shelf,
            &mut self.lines,
            name,
            at,
            bytes,
        );
        count_refusal(&mut self.faults, &answer);
        answer
    }

    fn sync(&mut self, name: &str) -> Result<(), ShelfErr> {
        let _ = self.lines.push_str("sync ");
        let _ = self.lines.push_str(name);
        let _ = self.lines.push_str("\n");
        let answer = self.shelf.sync(name);
        count_refusal(&mut self.faults, &answer);
        answer
    }
}

// How a change begins: both files are synced, in either order.
const BEGINNINGS: &[&str] = &["sync A\nsync A.journal\n", "sync A.journal\nsync A\n"];

// How it goes on behind the body: the gate is opened, the pages are put into the map, and the gate
// is closed. What is written is synced before the next is.
const CALLS: &str = "sync A.journal\nwrite A.journal 0 1\nsync A.journal\nwrite A 0 4096\n\
    write A 4096 4096\nsync A\nwrite A.journal 0 1\nsync A.journal\n";

// Whether these are the calls of a change that prepares the gate and writes the body so.
fn are_calls(alloc: Global, lines: &str, prepared: &str) -> Result<bool, AllocError> {
    let changes = CALLS;
    for begins in BEGINNINGS {
        if lines == format!(in alloc; "{begins}{prepared}{changes}")?.as_str() {
            return Ok(true);
        }
    }
    Ok(false)
}

// A shelf with the map, and with this journal where it has bytes.
fn listing_of(alloc: Global, map: &[u8], journal: &[u8]) -> Result<Listing, AllocError> {
    let mut shelf = MemShelf::new(alloc, Vec::new(alloc));
    shelf.put("A", map)?;
    if !journal.is_empty() {
        shelf.put("A.journal", journal)?;
    }
    Ok(Listing {
        alloc,
        shelf,
        lines: String::new(alloc),
        faults: 0,
        reads: 0,
    })
}

// Whether the file becomes the new map, by these calls.
fn is_changed_in_place(
    alloc: Global,
    change: &Change,
    gate: Option<u8>,
    prepared: &str,
) -> Result<bool, AllocError>
    requires { All IsLayered change.now.batch.list }
{
    let journal = journal_with(alloc, gate, &change.old)?;
    let shelf = listing_of(alloc, &change.old, &journal)?;
    let mut disk = match ShelfDisk::new(alloc, shelf, "A", "A.journal") {
        Ok(disk) => disk,
        Err((_, error)) => return Err(error),
    };
    let root = apply_here::<XorHash, ShelfDisk<Listing>>(alloc, &mut disk, &change.batch);
    let left = disk.close();
    let bytes = left.shelf.file("A").unwrap_or(&[]);
    Ok(
        matches!(root, Ok(root) if root[31] == 0x45)
            && root_at(alloc, bytes, 0)? == (1, 0x45)
            && are_calls(alloc, &left.lines, prepared)?,
    )
}

fn first_unlisted(alloc: Global) -> Result<Option<&'static str>, AllocError> {
    let Some(change) = emptied_leaf(alloc) else {
        return Ok(Some("a change"));
    };
    for (name, gate, prepared) in GATES {
        if !is_changed_in_place(alloc, &change, *gate, prepared)? {
            return Ok(Some(name));
        }
    }
    Ok(None)
}

#[test]
fn files_are_written_and_synced_in_their_order(rt: HostRuntime) {
    all_hold_in_memory(&rt, first_unlisted(rt.alloc()));
}

// ---- a disk that tells what a crash may leave

// Whether an open journal is carried out once: the map is at batch 1 then, and its root at batch 2
// is this one.
fn is_recovered_once(alloc: Global) -> Result<bool, DiskErr> {
    let Some(change) = emptied_leaf(alloc) else {
        return Ok(false);
    };
    let journal = journal_of(alloc, 0x4f, 1, &change.old)?;
    let mut disk = MemDisk::new(alloc, &change.old, &journal, Vec::new(alloc))?;
    let was_open = recover(alloc, &mut disk)?;
    let is_open = recover(alloc, &mut disk)?;
    let map = read_map(alloc, &mut disk)?;
    Ok(was_open && !is_open && root_at(alloc, &map, 1)? == (1, 0x1a))
}

#[test]
fn an_open_journal_is_carried_out_once(rt: HostRuntime) {
    let is_done = is_recovered_once(rt.alloc());
    holds(&rt, "recovered, then clean", matches!(is_done, Ok(true)));
}

// The last byte of the root of the map that recovery leaves of a crash.
fn root_left(alloc: Global, disk: &MemDisk, step: u64, pick: u64) -> Result<u8, DiskErr> {
    let mut left = disk.crash(step, pick)?;
    recover(alloc, &mut left)?;
    let map = read_map(alloc, &mut left)?;
    Ok(root_at(alloc, &map, 0)?.1)
}

// Whether each crash behind so many calls leaves one of these roots.
fn leaves_one_of(alloc: Global, disk: &MemDisk, step: u64, roots: &[u8]) -> Result<bool, DiskErr> {
    for pick in 0..3u64 {
        if !roots.contains(&root_left(alloc, disk, step, pick)?) {
            return Ok(false);
        }
    }
    Ok(true)
}

// Whether each crash leaves the map as it was or as it is to be, and one behind the last call the
// latter.
fn leaves_one_of_two(alloc: Global, disk: &MemDisk) -> Result<bool, DiskErr> {
    for step in 0..disk.calls_made() {
        if !leaves_one_of(alloc, disk, step, &[0x1e, 0x04])? {
            return Ok(false);
        }
    }
    leaves_one_of(alloc, disk, disk.calls_made(), &[0x04])
}

// How a change ends on a disk with this journal, of which this call fails, and the disk then.
fn changed_on(
    alloc: Global,
    change: &Change,
    journal: &[u8],
    failing: u64,
) -> Result<(Result<[u8; 32], HereErr>, MemDisk), AllocError>
    requires { All IsLayered change.now.batch.list }
{
    let mut disk = MemDisk::new(alloc, &change.old, journal, vec![in alloc; failing]?)?;
    let answer = apply_here::<XorHash, MemDisk>(alloc, &mut disk, &change.batch);
    Ok((answer, disk))
}

// Whether a crash at each call leaves one of two maps, and each call that fails is a fault, and
// leaves them too: what stands then is recovered, and what a crash makes of it. There are more than
// fifteen calls.
fn is_safe(alloc: Global, change: &Change, gate: Option<u8>) -> Result<bool, DiskErr>
    requires { All IsLayered change.now.batch.list }
{
    let journal = journal_with(alloc, gate, &change.old)?;
    let (answer, whole) = changed_on(alloc, change, &journal, 0)?;
    if !matches!(answer, Ok(root) if root[31] == 0x04) || !leaves_one_of_two(alloc, &whole)? {
        return Ok(false);
    }
    for failing in 1..=whole.calls_made() {
        let (answer, disk) = changed_on(alloc, change, &journal, failing)?;
        if !matches!(answer, Err(HereErr::Fault))
            || !leaves_one_of(alloc, &disk, u64::MAX, &[0x1e, 0x04])?
        {
            return Ok(false);
        }
    }
    Ok(whole.calls_made() > 15)
}

fn first_torn(alloc: Global) -> Option<&'static str> {
    let Some(change) = split_leaf(alloc) else {
        return Some("a change");
    };
    for (name, gate, _) in GATES {
        if !matches!(is_safe(alloc, &change, *gate), Ok(true)) {
            return Some(name);
        }
    }
    None
}

#[test]
fn a_stop_leaves_one_of_two_maps(rt: HostRuntime) {
    all_hold(&rt, first_torn(rt.alloc()));
}

//! Updates in place of which one call of the shelf fails, each in its turn. Each is told as a shelf
//! fault, and never as want of memory.

use crate::assertions::all_hold;
use mr_fixtures::parts::File;
use mr_fixtures::runs::{file_of, ran, ran_on, shelf_of};
use mr_outside::{MemShelf, NoGate};
use mr_tool::Status::{Done, Outside};
use mr_tree::XorHash;
use std::alloc::{AllocError, Global};
use std::thread::Threads;

// A batch for maps of version 1, and the same for those of version 2.
const FILES: &[File<'static>] = &[
    (
        "b",
        "| batch 1\n| - 7\n| + 2001 3 3 3 3 -\n| + 2002 4 4 4 4 -",
    ),
    (
        "c",
        "| batch 1\n| - 7\n| + 2001 3 3 3 3 5 -\n| + 2002 4 4 4 4 6 -",
    ),
];

// They make a map of each version.
const LINES: &[&str] = &["make 40 3 r", "build m r", "upgrade m o"];

// What stands on a shelf before a run.
#[derive(Drop)]
struct Before {
    map: Vec<u8>,
    batch: Vec<u8>,
    journal: Option<Vec<u8>>,
}

// The shelf, of which this call fails, or none where it is call 0.
fn laid(alloc: Global, before: &Before, failing: u64) -> Result<MemShelf, AllocError> {
    let mut shelf = MemShelf::new(alloc, vec![in alloc; failing]?);
    shelf.put("m", &before.map)?;
    shelf.put("b", &before.batch)?;
    if let Some(journal) = &before.journal {
        shelf.put("m.journal", journal)?;
    }
    Ok(shelf)
}

// A map and a batch for it, by their names in `FILES` and `LINES`, and no journal.
fn without_journal<R: Threads + Sync>(
    rt: &R,
    alloc: Global,
    map: &str,
    batch: &str,
) -> Result<Before, AllocError> {
    let mut shelf = shelf_of(alloc, FILES, &[])?;
    for line in LINES {
        let (_, left) = ran_on::<XorHash, R>(rt, alloc, line, shelf, &mut Vec::new(alloc))?;
        shelf = left;
    }
    Ok(Before {
        map: file_of(alloc, &shelf, map)?,
        batch: file_of(alloc, &shelf, batch)?,
        journal: None,
    })
}

// A journal with its gate open.
fn opened(alloc: Global, journal: &[u8]) -> Result<Vec<u8>, AllocError> {
    let mut bytes = Vec::new(alloc);
    bytes.push(b'O')?;
    if let Some((_, rest)) = journal.split_first() {
        bytes.extend_from_slice(rest)?;
    }
    Ok(bytes)
}

// The same with the journal of this update; it is open, or as the update left it.
fn with_journal<R: Threads + Sync>(
    rt: &R,
    alloc: Global,
    before: Before,
    is_open: bool,
) -> Result<Before, AllocError> {
    let shelf = laid(alloc, &before, 0)?;
    let (_, _, left) = ran::<XorHash, _, _, R>(rt, alloc, "apply-here m b", shelf, &[], &NoGate)?;
    let journal = file_of(alloc, &left, "m.journal")?;
    let journal = if is_open {
        opened(alloc, &journal)?
    } else {
        journal
    };
    let mut before = before;
    before.journal = Some(journal);
    Ok(before)
}

// More calls than a run makes.
const MANY: u64 = 1_000;

// The first call that may fail, since the run is done without it; none where another one that fails
// is told otherwise.
fn first_needless<R: Threads + Sync>(
    rt: &R,
    alloc: Global,
    before: &Before,
    line: &str,
) -> Result<Option<u64>, AllocError> {
    for failing in 1..MANY {
        let shelf = laid(alloc, before, failing)?;
        let (status, said, _left) = ran::<XorHash, _, _, R>(rt, alloc, line, shelf, &[], &NoGate)?;
        if status == Done {
            return Ok(Some(failing));
        }
        if status != Outside || said.as_slice() != b"shelf fault\n".as_slice() {
            return Ok(None);
        }
    }
    Ok(None)
}

// Whether so many calls of a run are needed at least, and each that fails is told.
fn are_told<R: Threads + Sync>(
    rt: &R,
    alloc: Global,
    before: &Before,
    line: &str,
    least: u64,
) -> Result<bool, AllocError> {
    Ok(match first_needless(rt, alloc, before, line)? {
        Some(call) => call > least,
        None => false,
    })
}

// The first of these updates of which a call that fails is told otherwise.
fn first_untold<R: Threads + Sync>(
    rt: &R,
    alloc: Global,
    map: &str,
    batch: &str,
) -> Result<Option<&'static str>, AllocError> {
    let before = without_journal(rt, alloc, map, batch)?;
    if !are_told(rt, alloc, &before, "apply-here m b", 20)? {
        return Ok(Some("apply-here without a journal"));
    }
    let before = with_journal(rt, alloc, before, false)?;
    if !are_told(rt, alloc, &before, "apply-here m b", 20)? {
        return Ok(Some("apply-here beside a closed journal"));
    }
    let before = with_journal(rt, alloc, before, true)?;
    if !are_told(rt, alloc, &before, "recover m", 10)? {
        return Ok(Some("recover of an open journal"));
    }
    Ok(None)
}

#[test]
fn a_call_that_fails_is_told_in_version_one(rt: HostRuntime) {
    all_hold(&rt, first_untold(&rt, rt.alloc(), "m", "b"));
}

#[test]
fn a_call_that_fails_is_told_in_version_two(rt: HostRuntime) {
    all_hold(&rt, first_untold(&rt, rt.alloc(), "o", "c"));
}

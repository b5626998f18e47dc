//! Leaves of a map that are others when they are read again.

ghost use Rattle.std.specs.Prelude.{◌≡◌, OnOk, OnErr};
ghost use Rattle.mr_outside.specs.Faults.{next_count};

use crate::assertions::holds;
use hex::FromHex;
use mr_fixtures::parts::File;
use mr_fixtures::runs::{digest, file_of, ran, ran_on, shelf_of};
use mr_outside::{MemShelf, NoGate, Shelf, ShelfErr};
use mr_tool::Status::BadMap;
use mr_tree::XorHash;
use std::alloc::{AllocError, Global};
use std::thread::Threads;

// Files of which nothing is told. Of one of them each leaf page has another number in its first
// record: at each read of it, or at each one after its first.
#[derive(Drop)]
struct Fickle {
    alloc: Global,
    shelf: MemShelf,
    fickle: &'static str,
    at_once: bool,
    seen: Vec<u64>,
    faults: u64,
    reads: u64,
}

// Counts a fault just where a call is refused.
fn count_refusal<T>(faults: &mut u64, answer: &Result<T, ShelfErr>)
    ensures refused { OnErr answer.now (faults.new ≡ next_count faults.old) }
    ensures quiet { OnOk answer.now (faults.new ≡ faults.old) }
{
    if answer.is_err() {
        *faults = faults.saturating_add(1);
    }
}

// At most so many bytes of a file from this place on.
fn bytes_at(
    alloc: Global,
    shelf: &MemShelf,
    name: &str,
    at: u64,
    most: usize,
) -> Result<Vec<u8>, AllocError> {
    let bytes = shelf.file(name).unwrap_or(&[]);
    let at = (at as usize).min(bytes.len());
    let count = most.min(bytes.len() - at);
    bytes[at..at + count].to_vec(alloc)
}

// The bytes of a file with these in the place of its own.
fn overwritten(
    alloc: Global,
    shelf: &MemShelf,
    name: &str,
    at: u64,
    bytes: &[u8],
) -> Result<Vec<u8>, AllocError> {
    let old = shelf.file(name).unwrap_or(&[]);
    let (front, behind) = old.split_at((at as usize).min(old.len()));
    let (_, rest) = behind.split_at(bytes.len().min(behind.len()));
    let mut all = front.to_vec(alloc)?;
    all.extend_from_slice(bytes)?;
    all.extend_from_slice(rest)?;
    Ok(all)
}

fn write(
    alloc: Global,
    shelf: &mut MemShelf,
    name: &str,
    at: u64,
    bytes: &[u8],
) -> Result<(), ShelfErr> {
    let all = overwritten(alloc, shelf, name, at, bytes)?;
    shelf.put(name, &all)?;
    Ok(())
}

// Whether these are the bytes of a leaf page.
fn is_leaf(page: &[u8]) -> bool {
    page.len() == 4096 && page.first() == Some(&b'L')
}

// Whether the page at this place is read for the first time; then that is noted.
fn is_new(seen: &mut Vec<u64>, at: u64) -> bool {
    if seen.iter().any(|other| *other == at) {
        return false;
    }
    let _ = seen.push(at);
    true
}

// Changes the lowest bit of the number of the first record on a leaf page.
fn renumber(page: &mut Vec<u8>) {
    if page.len() > 9 {
        page[9] ^= 1;
    }
}

// Whether a page has another number at this read of it.
fn is_turned(seen: &mut Vec<u64>, at_once: bool, page: &[u8], at: u64) -> bool {
    if !is_leaf(page) {
        return false;
    }
    let first = is_new(seen, at);
    at_once || !first
}

// What is read at this place.
fn given(
    alloc: Global,
    shelf: &MemShelf,
    seen: &mut Vec<u64>,
    turns: bool,
    at_once: bool,
    name: &str,
    at: u64,
    most: usize,
) -> Result<Vec<u8>, AllocError> {
    let mut bytes = bytes_at(alloc, shelf, name, at, most)?;
    if turns {
        if is_turned(seen, at_once, &bytes, at) {
            renumber(&mut bytes);
        }
    }
    Ok(bytes)
}

impl Shelf for Fickle {
    ghost use Rattle.mr_outside.specs.Edge.{untold_shelf};

    ghost state = { λ s. untold_shelf s.faults s.reads };

    fn size(&mut self, name: &str) -> Result<u64, ShelfErr> {
        Ok(self.shelf.file(name).unwrap_or(&[]).len() as u64)
    }

    fn read_at(&mut self, name: &str, at: u64, into: &mut [u8]) -> Result<usize, ShelfErr> {
        let turns = name == self.fickle;
        let (seen, shelf) = (&mut self.seen, &self.shelf);
        match given(
            self.alloc,
            shelf,
            seen,
            turns,
            self.at_once,
            name,
            at,
            into.len(),
        ) {
            Ok(bytes) => {
                self.reads = self.reads.saturating_add(1);
                let count = into.len().min(bytes.len());
                into[..count].copy_from_slice(&bytes[..count]);
                Ok(count)
            }
            Err(_) => {
                self.faults = self.faults.saturating_add(1);
                Err(ShelfErr::NoMemory)
            }
        }
    }

    fn create(&mut self, name: &str) -> Result<(), ShelfErr> {
        let answer = self.shelf.create(name);
        count_refusal(&mut self.faults, &answer);
        answer
    }

    fn append(&mut self, name: &str, bytes: &[u8]) -> Result<(), ShelfErr> {
        let answer = self.shelf.append(name, bytes);
        count_refusal(&mut self.faults, &answer);
        answer
    }

    fn write_at(&mut self, name: &str, at: u64, bytes: &[u8]) -> Result<(), ShelfErr> {
        let answer = write(self.alloc, &mut self.shelf, name, at, bytes);
        count_refusal(&mut self.faults, &answer);
        answer
    }

    fn sync(&mut self, name: &str) -> Result<(), ShelfErr> {
        let answer = self.shelf.sync(name);
        count_refusal(&mut self.faults, &answer);
        answer
    }
}

// A map of 313 leaves below five inner nodes, and these files.
fn built<R: Threads + Sync>(
    rt: &R,
    alloc: Global,
    files: &[File<'_>],
) -> Result<MemShelf, AllocError> {
    let mut printed = Vec::new(alloc);
    let shelf = shelf_of(alloc, files, &[])?;
    let (_, shelf) = ran_on::<XorHash, R>(rt, alloc, "make 5000 3 r", shelf, &mut printed)?;
    let (_, shelf) = ran_on::<XorHash, R>(rt, alloc, "build m r", shelf, &mut printed)?;
    Ok(shelf)
}

// Whether two digests differ in their lowest bit alone.
fn are_neighbours(held: &str, found: &str) -> bool {
    let Ok(held) = <[u8; 32] as FromHex>::from_hex(held) else {
        return false;
    };
    let Ok(found) = <[u8; 32] as FromHex>::from_hex(found) else {
        return false;
    };
    let mut other = held;
    other[31] ^= 1;
    other.as_slice() == found.as_slice()
}

// Whether a line says of some page that its digest is another in the lowest bit.
fn tells_of_a_change(alloc: Global, said: &[u8]) -> Result<bool, AllocError> {
    let Ok(text) = str::from_utf8(said) else {
        return Ok(false);
    };
    let words: Vec<&str> = text.trim_end().split(' ').collect(alloc)?;
    Ok(match words.as_slice() {
        [
            "bad",
            "map",
            "page",
            _,
            "Changed",
            "held",
            held,
            "found",
            found,
        ] => are_neighbours(held, found),
        _ => false,
    })
}

// Whether page 0 of a file has the seal of a map.
fn is_sealed(bytes: &[u8]) -> bool {
    let (_, behind) = bytes.split_at(bytes.len().min(4092));
    behind.starts_with(b"SEAL")
}

// Whether no proof was made, and no map is whole that was begun.
fn is_unfinished(shelf: &MemShelf) -> bool {
    match shelf.file("n") {
        Some(bytes) => shelf.file("p").is_none() && !is_sealed(bytes),
        None => shelf.file("p").is_none(),
    }
}

// The digest of the map that is read.
fn digest_of_map(alloc: Global, shelf: &MemShelf) -> Result<String, AllocError> {
    digest(alloc, &file_of(alloc, shelf, "m")?)
}

// Whether a command line is refused where the leaves of a file are so, and leaves what it may.
fn is_refused<R: Threads + Sync>(
    rt: &R,
    alloc: Global,
    files: &[File<'_>],
    words: &str,
    fickle: &'static str,
    at_once: bool,
) -> Result<bool, AllocError> {
    let map = built(rt, alloc, files)?;
    let before = digest_of_map(alloc, &map)?;
    let shelf = Fickle {
        alloc,
        shelf: map,
        fickle,
        at_once,
        seen: Vec::new(alloc),
        faults: 0,
        reads: 0,
    };
    let (status, said, left) = ran::<XorHash, _, _, R>(rt, alloc, words, shelf, &[], &NoGate)?;
    let after = digest_of_map(alloc, &left.shelf)?;
    let keeps = before.as_str() == after.as_str() && is_unfinished(&left.shelf);
    Ok(status == BadMap && keeps && tells_of_a_change(alloc, &said)?)
}

const PROVE: &str = "prove m window:-1000000,-1000000,1000063,1000063 p";

// Leaves that are others after their first read, which the proof opens.
#[test]
fn a_leaf_that_is_another_when_it_is_read_again(rt: HostRuntime) {
    holds(
        &rt,
        "prove",
        is_refused(&rt, rt.alloc(), &[], PROVE, "m", false),
    );
}

// Batch 1, which takes out the records 1 to 2,000: more than 256 leaves change.
const BATCH: &[File<'static>] = &[("b", "| batch 1\nremoved 0 2000 step 1 of 2000")];

// Leaves of the map that is made, which the batch changes and later reads again.
#[test]
fn a_leaf_that_was_written_is_another_when_it_is_read(rt: HostRuntime) {
    holds(
        &rt,
        "apply",
        is_refused(&rt, rt.alloc(), BATCH, "apply m b n", "n", true),
    );
}

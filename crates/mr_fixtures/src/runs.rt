//! Runs of the program over a shelf and a sink in memory.

use crate::parts::{File, bytes_of, expanded};
use mr_outside::{Gate, MemShelf, MemSink, NoGate, Shelf};
use mr_tool::{Status, run};
use mr_tree::Hash32;
use sha2::{Digest, Sha256};
use std::alloc::{AllocError, Global};
use std::thread::Threads;

/// The words of a command line: one space apart, and `..` stands for 62 zeros.
pub fn words(alloc: Global, line: &str) -> Result<Vec<String>, AllocError> {
    let mut all = Vec::new(alloc);
    for word in line.split(' ') {
        all.push(expanded(alloc, word)?)?;
    }
    Ok(all)
}

// The program, of which nothing is known but that it ends.
fn carried_out<H: Hash32, S: Shelf + Drop, G: Gate, R: Threads + Sync>(
    rt: &R,
    alloc: Global,
    words: &[String],
    shelf: S,
    out: &mut MemSink,
    gate: &G,
) -> (Status, S) {
    run::<H, _, _, _, _>(rt, alloc, words, shelf, out, gate)
}

/// Runs one command line over a shelf: its status, what it prints where these calls of the sink
/// fail, and the shelf that it leaves.
pub fn ran<H: Hash32, S: Shelf + Drop, G: Gate, R: Threads + Sync>(
    rt: &R,
    alloc: Global,
    line: &str,
    shelf: S,
    fail: &[u64],
    gate: &G,
) -> Result<(Status, Vec<u8>, S), AllocError> {
    let words = words(alloc, line)?;
    let mut out = MemSink::new(alloc, fail.to_vec(alloc)?);
    let (status, shelf) = carried_out::<H, S, G, R>(rt, alloc, &words, shelf, &mut out, gate);
    Ok((status, out.bytes().to_vec(alloc)?, shelf))
}

/// The same of one more command line, behind what was printed before.
pub fn ran_on<H: Hash32, R: Threads + Sync>(
    rt: &R,
    alloc: Global,
    line: &str,
    shelf: MemShelf,
    printed: &mut Vec<u8>,
) -> Result<(Status, MemShelf), AllocError> {
    let (status, said, left) = ran::<H, _, _, _>(rt, alloc, line, shelf, &[], &NoGate)?;
    printed.extend_from_slice(&said)?;
    Ok((status, left))
}

/// The bytes of a file, none where it is not there.
pub fn file_of(alloc: Global, shelf: &MemShelf, name: &str) -> Result<Vec<u8>, AllocError> {
    match shelf.file(name) {
        Some(bytes) => bytes.to_vec(alloc),
        None => Ok(Vec::new(alloc)),
    }
}

/// The shelf that holds these files, and of which these calls fail.
pub fn shelf_of(alloc: Global, files: &[File<'_>], fail: &[u64]) -> Result<MemShelf, AllocError> {
    let mut shelf = MemShelf::new(alloc, fail.to_vec(alloc)?);
    for (name, parts) in files {
        shelf.put(name, &bytes_of(alloc, parts)?)?;
    }
    Ok(shelf)
}

/// The shelf that holds one file of these bytes.
pub fn shelf_with(alloc: Global, name: &str, bytes: &[u8]) -> Result<MemShelf, AllocError> {
    let mut shelf = MemShelf::new(alloc, Vec::new(alloc));
    shelf.put(name, bytes)?;
    Ok(shelf)
}

/// The SHA-256 digest of these bytes, in hexadecimal digits.
pub fn digest(alloc: Global, bytes: &[u8]) -> Result<String, AllocError> {
    hex::encode(alloc, &Sha256::digest(bytes))
}

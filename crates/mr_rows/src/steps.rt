//! What an item of a row or of a story says, and whether it is so.

ghost use Rattle.std.specs.Prelude.{◌≤◌};

use mr_fixtures::cuts::agrees;
use mr_fixtures::listed::Listed;
use mr_fixtures::parts::{number, numbers, small};
use mr_fixtures::runs::{digest, file_of, ran};
use mr_outside::{MemShelf, NoGate};
use mr_pages::{PAGE_SIZE, SECOND_SIZE, open_plain, save_plain, save2_plain};
use mr_record::Version;
use mr_tree::{Hash32, Sha, XorHash};
use std::alloc::{AllocError, Global};
use std::thread::Threads;

// How the last command line ended, what it printed and how many reads it took; and whether the
// client, in small pieces, found the same, if it judged a proof.
#[derive(Drop)]
pub(crate) struct Said {
    pub(crate) status: u8,
    pub(crate) printed: Vec<u8>,
    pub(crate) reads: u64,
    pub(crate) agrees: bool,
    // Whether a line before it was a `run`, or it was one.
    pub(crate) has_run: bool,
}

fn ran_by<H: Hash32, R: Threads + Sync>(
    rt: &R,
    alloc: Global,
    words: &str,
    shelf: Listed,
    fail: &[u64],
) -> Result<(Said, Listed), AllocError> {
    let reads = shelf.shelf.reads();
    let (status, printed, left) = ran::<H, _, _, R>(rt, alloc, words, shelf, fail, &NoGate)?;
    let agrees = agrees::<H>(alloc, words, &left.shelf, status, &printed)?;
    let said = Said {
        status: status.code(),
        printed,
        reads: left.shelf.reads().saturating_sub(reads),
        agrees,
        has_run: true,
    };
    Ok((said, left))
}

// Runs a command line over a shelf, by SHA-256 or by the exclusive or of all bytes; these calls of
// the sink fail.
pub(crate) fn went<R: Threads + Sync>(
    rt: &R,
    alloc: Global,
    is_sha: bool,
    words: &str,
    shelf: Listed,
    fail: &[u64],
) -> Result<(Said, Listed), AllocError> {
    if is_sha {
        ran_by::<Sha, R>(rt, alloc, words, shelf, fail)
    } else {
        ran_by::<XorHash, R>(rt, alloc, words, shelf, fail)
    }
}

// Whether so many bytes are there, the first of these.
fn is_front(bytes: &[u8], held: &[u8], count: Option<i128>) -> bool {
    bytes.starts_with(held) && count == Some(held.len() as i128)
}

// What is said of the last command line.
fn is_said(key: &str, words: &str, bytes: &[u8], said: &Said) -> bool {
    match key {
        "status" => said.agrees && number(words) == Some(i128::from(said.status)),
        "prints" => said.printed.as_slice() == bytes,
        "prints front" => is_front(bytes, &said.printed, number(words)),
        _ => false,
    }
}

// How many reads the last command line took: so many, or from the least to the most.
fn are_reads(alloc: Global, words: &str, said: &Said) -> Result<bool, AllocError> {
    let reads = i128::from(said.reads);
    Ok(match numbers(alloc, words)?.as_slice() {
        [count] => reads == *count,
        [least, most] => *least <= reads && reads <= *most,
        _ => false,
    })
}

// What is said of a file that is left.
fn is_left(key: &str, words: &str, bytes: &[u8], shelf: &MemShelf) -> bool {
    let (name, count) = words.split_once(' ').unwrap_or((words, ""));
    match (key, shelf.file(name)) {
        ("leaves", Some(held)) => held == bytes,
        ("front", Some(held)) => is_front(bytes, held, number(count)),
        ("makes", Some(_)) => true,
        ("absent", None) => true,
        _ => false,
    }
}

// Puts a byte in the place of another, or turns its lowest bit. Whether there is such a place.
fn put_byte(bytes: &mut Vec<u8>, place: i128, value: Option<i128>) -> bool {
    let place = small(place) as usize;
    if place >= bytes.len() {
        return false;
    }
    bytes[place] = match value {
        Some(value) => (small(value) % 256) as u8,
        None => bytes[place] ^ 1,
    };
    true
}

fn put_bytes(bytes: &mut Vec<u8>, numbers: &[i128]) -> bool {
    for pair in numbers.chunks(2) {
        let is_put = match pair {
            [place, value] => put_byte(bytes, *place, Some(*value)),
            [place] => put_byte(bytes, *place, None),
            _ => false,
        };
        if !is_put {
            return false;
        }
    }
    !numbers.is_empty()
}

// Changes bytes of a file: places and values, or one place alone, of which the lowest bit turns.
fn changed(alloc: Global, words: &str, shelf: &mut MemShelf) -> Result<bool, AllocError> {
    let (name, changes) = words.split_once(' ').unwrap_or((words, ""));
    let mut bytes = file_of(alloc, shelf, name)?;
    let is_changed = put_bytes(&mut bytes, &numbers(alloc, changes)?);
    shelf.put(name, &bytes)?;
    Ok(is_changed)
}

// Whether a file has so many bytes, and this SHA-256 digest.
fn hashes(alloc: Global, words: &str, shelf: &MemShelf) -> Result<bool, AllocError> {
    let words: Vec<&str> = words.split(' ').collect(alloc)?;
    match words.as_slice() {
        [name, length, digits] => {
            let bytes = file_of(alloc, shelf, name)?;
            let same = digest(alloc, &bytes)?.as_str() == *digits;
            Ok(same && number(length) == Some(bytes.len() as i128))
        }
        _ => Ok(false),
    }
}

// The size of the pages of a map file.
fn page_size(bytes: &[u8]) -> usize
    ensures { 1 ≤ result }
{
    match bytes {
        [_, _, _, _, 2, ..] => SECOND_SIZE,
        _ => PAGE_SIZE,
    }
}

// How many pages begin as free ones do.
fn free_pages(bytes: &[u8]) -> usize {
    let mut met = 0usize;
    for page in bytes.chunks(page_size(bytes)) {
        if page.first() == Some(&b'F') {
            met = met.wrapping_add(1);
        }
    }
    met
}

// Whether a file has so many pages, of which so many begin as free ones do.
fn has_pages(alloc: Global, words: &str, shelf: &MemShelf) -> Result<bool, AllocError> {
    let (name, counts) = words.split_once(' ').unwrap_or((words, ""));
    let bytes = file_of(alloc, shelf, name)?;
    match numbers(alloc, counts)?.as_slice() {
        [pages, free] => {
            let as_long = bytes.len() as i128 == pages.wrapping_mul(page_size(&bytes) as i128);
            Ok(as_long && free_pages(&bytes) as i128 == *free)
        }
        _ => Ok(false),
    }
}

// Writes the map in a file to another one of its version, by the plain way.
fn lay_out<H: Hash32>(
    alloc: Global,
    from: &str,
    to: &str,
    shelf: &mut MemShelf,
) -> Result<bool, AllocError> {
    let Ok(map) = open_plain::<H, MemShelf>(alloc, shelf, from) else {
        return Ok(false);
    };
    let left = match map.version {
        Version::One => save_plain::<H, MemShelf>(alloc, shelf, to, &map.tree, map.batch),
        Version::Two => save2_plain::<H, MemShelf>(alloc, shelf, to, &map.tree, map.batch),
    };
    Ok(left.is_ok())
}

fn laid_out(
    alloc: Global,
    is_sha: bool,
    words: &str,
    shelf: &mut MemShelf,
) -> Result<bool, AllocError> {
    let (from, to) = words.split_once(' ').unwrap_or((words, ""));
    if is_sha {
        lay_out::<Sha>(alloc, from, to, shelf)
    } else {
        lay_out::<XorHash>(alloc, from, to, shelf)
    }
}

// Whether an item is so. What it does to a file is done.
pub(crate) fn is_so(
    alloc: Global,
    is_sha: bool,
    item: (&str, &str),
    bytes: &[u8],
    shelf: &mut MemShelf,
    said: &Said,
) -> Result<bool, AllocError> {
    let (key, words) = item;
    match key {
        "status" | "prints" | "prints front" => Ok(is_said(key, words, bytes, said)),
        "leaves" | "front" | "makes" | "absent" => Ok(is_left(key, words, bytes, shelf)),
        "reads" => are_reads(alloc, words, said),
        "change" => changed(alloc, words, shelf),
        "hashes" => hashes(alloc, words, shelf),
        "pages" => has_pages(alloc, words, shelf),
        "lay out" => laid_out(alloc, is_sha, words, shelf),
        _ => Ok(true),
    }
}

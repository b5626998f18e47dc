//! Bundles that are cut at every byte or grow, or of which every second proof is bent.

use crate::assertions::{holds, holds_at};
use crate::files::{BOTH, BUNDLE};
use mr_fixtures::parts::{bytes_of, edited, expanded};
use mr_fixtures::runs::{ran_on, shelf_with};
use mr_tool::Status::{self, Done, Refused};
use mr_tree::XorHash;
use std::alloc::{AllocError, Global};
use std::thread::Threads;

// Whether the check of a bundle of these bytes ends so, and prints this text.
fn is_judged<R: Threads + Sync>(
    rt: &R,
    alloc: Global,
    script: &[u8],
    bundle: &[u8],
    status: Status,
    text: &[u8],
) -> Result<bool, AllocError> {
    let mut shelf = shelf_with(alloc, "u", bundle)?;
    shelf.put("s", script)?;
    let mut said = Vec::new(alloc);
    let (ended, _) = ran_on::<XorHash, R>(rt, alloc, "check-all ..18 s u", shelf, &mut said)?;
    Ok(ended == status && said.as_slice() == text)
}

const NEITHER: &str = "query 1 missing\nquery 2 missing\naccepted 0 refused 0 missing 2\n\
    bundle broken at 0\n";

const FIRST: &str = "query 1 ok 1\n7 0 0 0 0 -\nquery 2 missing\n\
    accepted 1 refused 0 missing 1\nbundle broken at 54\n";

const VERDICTS: &str = "query 1 ok 1\n7 0 0 0 0 -\nquery 2 ok 0\naccepted 2 refused 0 missing 0\n";

const GROWN: &str = "query 1 ok 1\n7 0 0 0 0 -\nquery 2 ok 0\n\
    accepted 2 refused 0 missing 0\nbundle broken at 130\n";

// What is printed of so many bytes, the first of a bundle with zeros behind it: its first part ends
// at byte 54, its second one at byte 130.
fn text_of(size: usize) -> &'static str {
    if size < 54 {
        NEITHER
    } else if size < 130 {
        FIRST
    } else if size == 130 {
        VERDICTS
    } else {
        GROWN
    }
}

// Whether that is printed of the bundle where it is cut to this size, or grows to it.
fn is_cut<R: Threads + Sync>(rt: &R, alloc: Global, size: usize) -> Result<bool, AllocError> {
    let mut bytes = bytes_of(alloc, BUNDLE)?;
    for _ in 0..8u64 {
        bytes.push(0)?;
    }
    let status = if size == 130 { Done } else { Refused };
    let text = text_of(size).as_bytes();
    bytes.truncate(size);
    is_judged(rt, alloc, &bytes_of(alloc, BOTH)?, &bytes, status, text)
}

#[test]
fn a_bundle_that_is_cut_at_every_byte(rt: HostRuntime) {
    for size in 0..139u64 {
        holds_at(&rt, "bytes", size, is_cut(&rt, rt.alloc(), size as usize));
    }
}

// The proof of record 7 behind its length. The last byte of the record's number stands at 36.
const PART: &[u8] = b"\0\0\0\x32MRVO\x01W\0\0\0\0\0\0\0\0\0\0\0\0\0\0\0\x01\0L\x01\
    \0\0\0\0\0\0\0\x07\0\0\0\0\0\0\0\0\0\0\0\0\0\0\0\0\0";

// So many parts, the even ones with their own number in place of the record's.
fn bent(alloc: Global, parts: u8) -> Result<Vec<u8>, AllocError> {
    let mut bundle = Vec::new(alloc);
    for part in 1..=parts {
        let number = if part % 2 == 0 { part } else { 7 };
        bundle.extend_from_slice(&edited(alloc, PART, &[(36, number)])?)?;
    }
    Ok(bundle)
}

// The line on a part, and that of its record: the exclusive or of all bytes with another number is
// another root.
fn line_of(alloc: Global, part: u8) -> Result<String, AllocError> {
    let found = 0x18 ^ 7 ^ part;
    let line = if part % 2 == 0 {
        format!(in alloc; "query {part} refused WrongRoot at 50 found ..{found:02x}\n")?
    } else {
        format!(in alloc; "query {part} ok 1\n7 0 0 0 0 -\n")?
    };
    expanded(alloc, line.as_str())
}

fn text_of_bent(alloc: Global, parts: u8) -> Result<String, AllocError> {
    let mut text = String::new(alloc);
    for part in 1..=parts {
        text.push_str(line_of(alloc, part)?.as_str())?;
    }
    let half = parts / 2;
    text.push_str(format!(in alloc; "accepted {half} refused {half} missing 0\n")?.as_str())?;
    Ok(text)
}

fn script(alloc: Global, lines: u8) -> Result<String, AllocError> {
    let mut text = String::new(alloc);
    for _ in 0..lines {
        text.push_str("window:0,0,0,0\n")?;
    }
    Ok(text)
}

// Whether of so many parts every second one is refused, each by its own line.
fn are_judged<R: Threads + Sync>(rt: &R, alloc: Global, parts: u8) -> Result<bool, AllocError> {
    let script = script(alloc, parts)?;
    let text = text_of_bent(alloc, parts)?;
    let bundle = bent(alloc, parts)?;
    is_judged(
        rt,
        alloc,
        script.as_bytes(),
        &bundle,
        Refused,
        text.as_bytes(),
    )
}

#[test]
fn every_second_proof_is_bent(rt: HostRuntime) {
    holds(&rt, "two", are_judged(&rt, rt.alloc(), 2));
    holds(&rt, "a hundred", are_judged(&rt, rt.alloc(), 100));
}

//! The proof of one path in a map of three levels: with a byte changed, and cut off at each place.
//! Digests and lines come from a program of another language.

use crate::assertions::{holds, holds_at};
use mr_fixtures::cuts::agrees;
use mr_fixtures::runs::{digest, file_of, ran, shelf_of, shelf_with};
use mr_outside::NoGate;
use mr_tool::Status::Refused;
use mr_tree::{Hash32, Sha, XorHash};
use std::alloc::{AllocError, Global};
use std::test::Fail;
use std::thread::Threads;

// The proof of the path, on the map of the records I at (I,0).
fn path<R: Threads + Sync>(rt: &R, alloc: Global) -> Result<Vec<u8>, AllocError> {
    let shelf = shelf_of(alloc, &[("r", "points 1025")], &[])?;
    let (_, _, shelf) = ran::<Sha, _, _, R>(rt, alloc, "build m r", shelf, &[], &NoGate)?;
    let prove = "prove m window:700,0,702,0 p";
    let (_, _, shelf) = ran::<Sha, _, _, R>(rt, alloc, prove, shelf, &[], &NoGate)?;
    file_of(alloc, &shelf, "p")
}

const CHECK: &str = "check 0a1f58ba200fb9fbf1ec601962e66d4f61fca5ce3dd5b1fbc2a96141ab87d843 \
    window:700,0,702,0 p";

/// Whether these bytes are refused as the proof p of a command line, whole and alike in small
/// pieces, and what is said.
pub fn refused<H: Hash32, R: Threads + Sync>(
    rt: &R,
    alloc: Global,
    check: &str,
    proof: &[u8],
) -> Result<(bool, Vec<u8>), AllocError> {
    let shelf = shelf_with(alloc, "p", proof)?;
    let (status, said, left) = ran::<H, _, _, R>(rt, alloc, check, shelf, &[], &NoGate)?;
    let same = agrees::<H>(alloc, check, &left, status, &said)?;
    Ok((status == Refused && same, said))
}

/// The bytes with the lowest bit of this one changed.
pub fn flipped(alloc: Global, bytes: &[u8], place: usize) -> Result<Vec<u8>, AllocError> {
    let mut flipped = bytes.to_vec(alloc)?;
    if place < flipped.len() {
        flipped[place] ^= 1;
    }
    Ok(flipped)
}

// Whether the proof with the lowest bit of this byte changed is refused, under either hash
// function; what is said of it is put behind what was said before.
fn is_refused<R: Threads + Sync>(
    rt: &R,
    alloc: Global,
    proof: &[u8],
    place: usize,
    said: &mut Vec<u8>,
) -> Result<bool, AllocError> {
    let flipped = flipped(alloc, proof, place)?;
    let (by_sha, line) = refused::<Sha, R>(rt, alloc, CHECK, &flipped)?;
    let (by_xor, _) = refused::<XorHash, R>(rt, alloc, CHECK, &flipped)?;
    said.extend_from_slice(&line)?;
    Ok(by_sha && by_xor)
}

// Of all that is said.
const SAID: &str = "1f91763e5bb7b0af3208f9be7ea3462b85f13d64ee8eca795d41849c91039c8a";

fn is_all_said(alloc: Global, said: &[u8]) -> Result<bool, AllocError> {
    Ok(digest(alloc, said)?.as_str() == SAID)
}

#[test]
fn each_byte_of_a_path_counts(rt: HostRuntime) -> Result<(), Fail> {
    let alloc = rt.alloc();
    let proof = path(&rt, alloc)?;
    let mut said = Vec::new(alloc);
    for place in 0..proof.len() {
        let refused = is_refused(&rt, alloc, &proof, place, &mut said);
        holds_at(&rt, "byte", place as u64, refused);
    }
    holds(&rt, "what is said", is_all_said(alloc, &said));
    Ok(())
}

// The fields of the proof: how often these widths stand behind one another.
const FIELDS: &[(usize, &[usize])] = &[
    // Magic, version, kind, batch, count and level.
    (1, &[4, 1, 1, 8, 8, 1]),
    // The root is opened: tag and entries. Of its children the first is pruned: tag, rectangle and
    // digest. The second is opened.
    (1, &[1, 1]),
    (1, &[1, 16, 32]),
    (1, &[1, 1]),
    // Twelve leaves are pruned.
    (12, &[1, 16, 32]),
    // One is opened, of 16 records: number, rectangle and length.
    (1, &[1, 1]),
    (16, &[8, 16, 1]),
    // Twenty are pruned.
    (20, &[1, 16, 32]),
];

// Adds a field of this width: for each of its bytes the place of the first one.
fn add_field(places: &mut Vec<usize>, width: usize) -> Result<(), AllocError> {
    let place = places.len();
    for _ in 0..width {
        places.push(place)?;
    }
    Ok(())
}

fn add_fields(places: &mut Vec<usize>, widths: &[usize]) -> Result<(), AllocError> {
    for width in widths {
        add_field(places, *width)?;
    }
    Ok(())
}

/// For each byte of a proof the place of its field.
pub fn places(alloc: Global, fields: &[(usize, &[usize])]) -> Result<Vec<usize>, AllocError> {
    let mut places = Vec::new(alloc);
    for (times, widths) in fields {
        for _ in 0..*times {
            add_fields(&mut places, widths)?;
        }
    }
    Ok(places)
}

// Whether bytes are refused as cut off in the field at this place, under one hash function.
fn is_cut<H: Hash32, R: Threads + Sync>(
    rt: &R,
    alloc: Global,
    check: &str,
    cut: &[u8],
    place: usize,
) -> Result<bool, AllocError> {
    let (refused, said) = refused::<H, R>(rt, alloc, check, cut)?;
    let line = format!(in alloc; "refused Short at {place}\n")?;
    Ok(refused && said.as_slice() == line.as_bytes())
}

/// Whether the proof of a command line with this many bytes is cut off in the field at this place,
/// under either hash function.
pub fn is_short<R: Threads + Sync>(
    rt: &R,
    alloc: Global,
    check: &str,
    proof: &[u8],
    length: usize,
    place: usize,
) -> Result<bool, AllocError> {
    let (cut, _) = proof.split_at(length.min(proof.len()));
    let by_sha = is_cut::<Sha, R>(rt, alloc, check, cut, place)?;
    Ok(by_sha && is_cut::<XorHash, R>(rt, alloc, check, cut, place)?)
}

#[test]
fn each_cut_of_a_path_is_short(rt: HostRuntime) -> Result<(), Fail> {
    let alloc = rt.alloc();
    let (proof, places) = (path(&rt, alloc)?, places(alloc, FIELDS)?);
    holds(
        &rt,
        "a place for each byte",
        Ok(places.len() == proof.len()),
    );
    for (length, place) in places.iter().enumerate() {
        let short = is_short(&rt, alloc, CHECK, &proof, length, *place);
        holds_at(&rt, "length", length as u64, short);
    }
    Ok(())
}

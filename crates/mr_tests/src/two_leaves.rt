//! The proof of two records on a map of two leaves: cut off at each place, and with each byte
//! changed.

use crate::assertions::{holds, holds_at};
use crate::files::PROOF_OF_TWO;
use crate::levels::{flipped, is_short, places, refused};
use mr_fixtures::parts::bytes_of;
use mr_fixtures::runs::{file_of, ran, shelf_of};
use mr_outside::NoGate;
use mr_tree::Sha;
use std::alloc::{AllocError, Global};
use std::test::Fail;
use std::thread::Threads;

const CHECK: &str = "check ..0f window:2,0,3,0 p";

// The fields of the proof: how often these widths stand behind one another.
const FIELDS: &[(usize, &[usize])] = &[
    // Magic, version, kind, batch, count and level.
    (1, &[4, 1, 1, 8, 8, 1]),
    // The root is opened, and so is its first child: tag and entries of each.
    (2, &[1, 1]),
    // Of its eight records number, rectangle and length.
    (8, &[8, 16, 1]),
    // The second child is pruned: tag, rectangle and digest.
    (1, &[1, 16, 32]),
];

// Some lengths, and where the field begins that is cut.
const CUTS: &[(usize, usize)] = &[(23, 23), (24, 24), (100, 85), (243, 228), (244, 244)];

fn are_so(alloc: Global) -> Result<bool, AllocError> {
    let places = places(alloc, FIELDS)?;
    Ok(
        places.len() == 276
            && CUTS
                .iter()
                .all(|(length, place)| places.get(*length) == Some(place)),
    )
}

#[test]
fn each_cut_of_two_leaves_is_short(rt: HostRuntime) -> Result<(), Fail> {
    let alloc = rt.alloc();
    holds(&rt, "a place for each byte", are_so(alloc));
    let proof = bytes_of(alloc, PROOF_OF_TWO)?;
    for (length, place) in places(alloc, FIELDS)?.iter().enumerate() {
        let short = is_short(&rt, alloc, CHECK, &proof, length, *place);
        holds_at(&rt, "length", length as u64, short);
    }
    Ok(())
}

// The proof under SHA-256.
fn by_sha<R: Threads + Sync>(rt: &R, alloc: Global) -> Result<Vec<u8>, AllocError> {
    let shelf = shelf_of(alloc, &[("r", "points 17")], &[])?;
    let (_, _, shelf) = ran::<Sha, _, _, R>(rt, alloc, "build m r", shelf, &[], &NoGate)?;
    let prove = "prove m window:2,0,3,0 p";
    let (_, _, shelf) = ran::<Sha, _, _, R>(rt, alloc, prove, shelf, &[], &NoGate)?;
    file_of(alloc, &shelf, "p")
}

const CHECK_BY_SHA: &str = "check fca9bc9b6913b889be0ca77137347077fd3728352e16c0e58283d2175d1eb0bf \
    window:2,0,3,0 p";

// Whether the proof is refused with the lowest bit of this byte changed.
fn counts<R: Threads + Sync>(
    rt: &R,
    alloc: Global,
    proof: &[u8],
    place: usize,
) -> Result<bool, AllocError> {
    let (refused, _) = refused::<Sha, R>(rt, alloc, CHECK_BY_SHA, &flipped(alloc, proof, place)?)?;
    Ok(refused)
}

#[test]
fn each_byte_of_two_leaves_counts(rt: HostRuntime) -> Result<(), Fail> {
    let alloc = rt.alloc();
    let proof = by_sha(&rt, alloc)?;
    holds(&rt, "276 bytes", Ok(proof.len() == 276));
    for place in 0..proof.len() {
        holds_at(&rt, "byte", place as u64, counts(&rt, alloc, &proof, place));
    }
    Ok(())
}

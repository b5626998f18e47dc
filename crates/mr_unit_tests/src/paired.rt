//! Joins beside a double loop, of maps that are drawn: of points, of rectangles that crowd, that
//! lie on one another, that touch in sides and corners, that stand in clusters, and that are wide.

use crate::assertions::holds;
use crate::joins::{honest, kept, root_of};
use crate::made::record_at;
use mr_geom::Rect;
use mr_join::{Pair, check_join};
use mr_record::Record;
use mr_tree::Sha;
use std::alloc::{AllocError, Global};

// How often maps are drawn in each way.
const TIMES: u64 = 50;

// A side begins at one of so many steps of this width, and less than so many units behind it; its
// length is one of so many steps of another width.
type Drawing = (u64, u64, u64, u64, u64);

const DRAWINGS: &[Drawing] = &[
    (40, 1, 1, 1, 0),
    (60, 1, 1, 9, 1),
    (2, 1, 1, 2, 1),
    (12, 10, 1, 2, 10),
    (4, 1_000, 20, 6, 1),
    (300, 1, 1, 300, 1),
];

// The next number of a stream, below 2^31.
fn next(seed: &mut u64) -> u64 {
    *seed = seed
        .wrapping_mul(6_364_136_223_846_793_005)
        .wrapping_add(1_442_695_040_888_963_407);
    *seed >> 33
}

fn below(limit: u64, seed: &mut u64) -> u64 {
    next(seed).wrapping_mul(limit) >> 31
}

// Where a side begins and ends, about the middle of the plane.
fn side(drawing: &Drawing, seed: &mut u64) -> (i32, i32) {
    let (steps, step, behind, lengths, length) = *drawing;
    let front = below(steps, seed).wrapping_mul(step);
    let from = front.wrapping_add(below(behind, seed)) % 10_000;
    let long = below(lengths, seed).wrapping_mul(length) % 10_000;
    let from = from as i32 - 30;
    (from, from + long as i32)
}

// The records of a map, with rising numbers.
fn drawn(alloc: Global, drawing: &Drawing, seed: &mut u64) -> Result<Vec<Record>, AllocError> {
    let most = below(250, seed);
    let count = below(most.wrapping_add(1), seed);
    let mut list = Vec::new(alloc);
    for number in 0..count {
        let ((x0, x1), (y0, y1)) = (side(drawing, seed), side(drawing, seed));
        if let Some(record) = record_at(number, (x0, y0, x1, y1)) {
            list.push(record)?;
        }
    }
    Ok(list)
}

fn meet(one: &Rect, other: &Rect) -> bool {
    let (left, low, right, high) = one.corners();
    let (x0, y0, x1, y1) = other.corners();
    left <= x1 && x0 <= right && low <= y1 && y0 <= high
}

fn put_pairs(one: &Record, others: &[Record], pairs: &mut Vec<Pair>) -> Result<(), AllocError> {
    for other in others {
        if meet(&one.rect, &other.rect) {
            pairs.push(Pair {
                first: one.number,
                second: other.number,
            })?;
        }
    }
    Ok(())
}

// Those that meet, by a double loop over records with rising numbers.
fn looped(alloc: Global, ones: &[Record], others: &[Record]) -> Result<Vec<Pair>, AllocError> {
    let mut pairs = Vec::new(alloc);
    for one in ones {
        put_pairs(one, others, &mut pairs)?;
    }
    Ok(pairs)
}

// Whether the client finds these pairs in the proof of the maps' join.
fn finds(alloc: Global, ones: Vec<Record>, others: Vec<Record>, pairs: &[Pair]) -> Option<bool> {
    let (one, other) = (kept::<Sha>(alloc, ones)?, kept::<Sha>(alloc, others)?);
    let proof = honest(alloc, &one, &other)?;
    match check_join::<Sha>(alloc, &root_of(&one), &root_of(&other), &proof) {
        Ok(found) => Some(found.as_slice() == pairs),
        Err(_) => None,
    }
}

fn agrees(alloc: Global, drawing: &Drawing, seed: &mut u64) -> Result<bool, AllocError> {
    let (ones, others) = (drawn(alloc, drawing, seed)?, drawn(alloc, drawing, seed)?);
    let pairs = looped(alloc, &ones, &others)?;
    Ok(finds(alloc, ones, others, &pairs) == Some(true))
}

fn agree(alloc: Global, drawing: &Drawing, seed: &mut u64) -> bool {
    for _ in 0..TIMES {
        if !matches!(agrees(alloc, drawing, seed), Ok(true)) {
            return false;
        }
    }
    true
}

fn all_agree(alloc: Global) -> bool {
    let mut seed = 19;
    for drawing in DRAWINGS {
        if !agree(alloc, drawing, &mut seed) {
            return false;
        }
    }
    true
}

#[test]
fn pairs_are_those_of_a_double_loop(rt: HostRuntime) {
    holds(&rt, "three hundred pairs of maps", all_agree(rt.alloc()));
}

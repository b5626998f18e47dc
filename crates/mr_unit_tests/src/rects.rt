//! Rectangles and distances, by their calls.

use crate::assertions::all_hold_in_memory;
use crate::calls::{Kind, first_untrue, numbers, rect_in, sides_of};
use mr_geom::{Point, Rect};
use std::alloc::{AllocError, Global};

// Sides that are out of order make no rectangle. Two rectangles meet where they touch, and lie
// inside one another where they share sides. What is round two of them is told beside the growth of
// the first one's area, and distances from a point are squared.
const CALLS: &str = "corners 1 0 0 0 = none\n\
    corners 0 1 0 0 = none\n\
    corners 2147483647 0 -2147483648 0 = none\n\
    corners 0 0 0 0 = 0 0 0 0\n\
    corners -3 4 5 6 = -3 4 5 6\n\
    beside 0 0 2 2 2 2 3 3 = meets\n\
    beside 2 2 3 3 0 0 2 2 = meets\n\
    beside 0 0 2 2 3 0 4 2 = apart\n\
    beside 0 0 2 2 0 3 2 4 = apart\n\
    beside 0 0 4 4 0 0 4 4 = inside\n\
    beside 0 1 2 4 0 0 4 4 = inside\n\
    beside 0 0 4 4 0 1 2 4 = meets\n\
    beside 1 1 5 2 0 0 4 4 = meets\n\
    round 0 0 1 1 5 -3 6 0 = 0 -3 6 1 growth 23\n\
    round 5 -3 6 0 0 0 1 1 = 0 -3 6 1 growth 21\n\
    round -2147483648 -2147483648 -2147483648 -2147483648 2147483647 2147483647 2147483647 \
    2147483647 = -2147483648 -2147483648 2147483647 2147483647 growth 18446744065119617025\n\
    round -2147483648 -2147483648 2147483647 2147483647 -2147483648 -2147483648 -2147483648 \
    -2147483648 = -2147483648 -2147483648 2147483647 2147483647 growth 0\n\
    area -2147483648 -2147483648 2147483647 2147483647 = 18446744065119617025\n\
    area -2147483648 -2147483648 -2147483648 -2147483648 = 0\n\
    distance 0 0 2 2 from 5 6 = 25\n\
    distance 0 0 2 2 from -1 1 = 1\n\
    distance 0 0 2 2 from 2 0 = 0\n\
    distance -2147483648 -2147483648 -2147483648 -2147483648 from 2147483647 2147483647 \
    = 36893488130239234050";

fn beside(one: &Rect, other: &Rect) -> &'static str {
    match (one.meets(other), one.inside(other)) {
        (false, false) => "apart",
        (true, false) => "meets",
        (true, true) => "inside",
        (false, true) => "inside and apart",
    }
}

fn round(alloc: Global, one: &Rect, other: &Rect) -> Result<String, AllocError> {
    let sides = sides_of(alloc, &one.union(other))?;
    let growth = one.growth(other);
    format!(in alloc; "{sides} growth {growth}")
}

fn answer_of(alloc: Global, call: &str, one: &Rect, rest: &[i32]) -> Result<String, AllocError> {
    match (call, rect_in(rest), rest) {
        ("corners", _, _) => sides_of(alloc, one),
        ("area", _, _) => format!(in alloc; "{}", one.area()),
        ("distance", _, [x, y]) => format!(in alloc; "{}", one.dist2(&Point { x: *x, y: *y })),
        ("beside", Some(other), _) => String::from_str(alloc, beside(one, &other)),
        ("round", Some(other), _) => round(alloc, one, &other),
        _ => String::from_str(alloc, "no call"),
    }
}

/// What a call on the rectangle of the first four numbers answers.
pub fn answer(alloc: Global, call: &str, words: &str) -> Result<String, AllocError> {
    let all = numbers(alloc, words)?;
    let (sides, rest) = all.split_at(all.len().min(4));
    match rect_in(sides) {
        Some(one) => answer_of(alloc, call, &one, rest),
        None => String::from_str(alloc, "none"),
    }
}

#[test]
fn rectangles(rt: HostRuntime) {
    all_hold_in_memory(&rt, first_untrue(rt.alloc(), Kind::Rects, CALLS));
}

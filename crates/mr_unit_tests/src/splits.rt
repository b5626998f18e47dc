//! Choice and split on small lists of rectangles. What is chosen and how lists are split comes from
//! a plain program of another language, which follows the definitions.

use crate::assertions::all_hold_in_memory;
use crate::calls::{Kind, first_untrue, numbers, rect_in};
use mr_geom::Rect;
use mr_split::{choose, split};
use std::alloc::{AllocError, Global};

// A rectangle, and those behind it of which the chosen one takes it: three points at one place; the
// lesser of two that hold it, the first of two alike; two that grow alike; the one that grows less,
// which is not the nearer one; the ends of the plane; the whole plane; the first of two points as
// near.
const CHOICES: &str = "choose 5 5 5 5, 0 0 0 0, 0 0 0 0, 0 0 0 0 = 0\n\
    choose 1 1 1 1, 0 0 4 4, 0 0 2 2, 0 0 2 2 = 1\n\
    choose 6 6 6 6, 0 0 2 2, 10 10 12 12 = 0\n\
    choose 9 0 9 0, 0 0 2 8, 10 0 18 2 = 1\n\
    choose 2147483647 2147483647 2147483647 2147483647, -2147483648 -2147483648 -2147483648 \
    -2147483648, 2147483647 2147483647 2147483647 2147483647 = 1\n\
    choose -2147483648 -2147483648 2147483647 2147483647, -2147483648 -2147483648 2147483647 \
    2147483647, 0 0 0 0 = 0\n\
    choose 0 7 0 7, 0 0 0 0, 0 10 0 10 = 0";

// How many a group has at least, and the rectangles that are split: two points at one place, and
// five; six points on a line; the corners of a square and its middle; four squares that touch; the
// whole plane, its ends and a point; points about one corner; three squares that are one, and a
// point in them; many that lie across one another.
const SPLITS: &str = "split 1, 0 0 0 0, 0 0 0 0 = 0 and 1 \n\
    split 2, 0 0 0 0, 0 0 0 0, 0 0 0 0, 0 0 0 0, 0 0 0 0 = 0 2 4 and 1 3 \n\
    split 2, 0 0 0 0, 1 0 1 0, 2 0 2 0, 3 0 3 0, 4 0 4 0, 5 0 5 0 = 0 2 4 and 1 3 5 \n\
    split 2, 0 0 0 0, 10 10 10 10, 0 10 0 10, 10 0 10 0, 5 5 5 5 = 0 2 4 and 1 3 \n\
    split 1, 0 0 4 4, 4 4 8 8, 0 4 4 8, 4 0 8 4 = 0 2 and 1 3 \n\
    split 2, -2147483648 -2147483648 -2147483648 -2147483648, 2147483647 2147483647 2147483647 \
    2147483647, -2147483648 -2147483648 2147483647 2147483647, 0 0 0 0 = 0 2 and 1 3 \n\
    split 3, 0 0 0 0, 9 9 9 9, 1 1 1 1, 1 0 1 0, 0 1 0 1, 2 2 2 2, 1 2 1 2 \
    = 0 2 3 4 and 1 5 6 \n\
    split 1, 0 0 10 10, 0 0 10 10, 0 0 10 10, 3 3 3 3 = 0 1 2 and 3 \n\
    split 6, 4 2 4 2, 2 4 2 4, 0 3 1 4, 1 0 1 2, 1 0 3 2, 2 3 2 3, 1 3 3 3, 4 0 5 1, 4 1 4 2, \
    0 1 1 1, 3 2 3 3, 1 3 1 4, 1 0 2 2, 1 4 3 4, 4 3 6 5, 1 1 3 2, 0 0 0 1 \
    = 0 1 5 7 8 14 and 2 3 4 6 9 10 11 12 13 15 16 ";

// The rectangles between commas.
fn rects(alloc: Global, words: &str) -> Result<Vec<Rect>, AllocError> {
    let mut list = Vec::new(alloc);
    for sides in words.split(", ") {
        if let Some(rect) = rect_in(&numbers(alloc, sides)?) {
            list.push(rect)?;
        }
    }
    Ok(list)
}

fn chosen(alloc: Global, list: &[Rect]) -> Result<String, AllocError> {
    match list {
        [new, others @ ..] if !others.is_empty() => {
            let place = choose(others, new);
            format!(in alloc; "{place}")
        }
        _ => String::from_str(alloc, "none"),
    }
}

// The places of the one group, and of the other.
fn divided(alloc: Global, list: &[Rect], least: usize) -> Result<String, AllocError> {
    if least < 1 || least > 32 || list.len() < 2 * least || list.len() > 65 {
        return String::from_str(alloc, "none");
    }
    let (first, second) = split(alloc, list, least)?;
    let mut text = String::new(alloc);
    for place in &first {
        text.push_str(format!(in alloc; "{place} ")?.as_str())?;
    }
    text.push_str("and ")?;
    for place in &second {
        text.push_str(format!(in alloc; "{place} ")?.as_str())?;
    }
    Ok(text)
}

/// What a call on a list of rectangles answers.
pub fn answer(alloc: Global, call: &str, words: &str) -> Result<String, AllocError> {
    let list = rects(alloc, words)?;
    if call == "choose" {
        return chosen(alloc, &list);
    }
    let (least, _) = words.split_once(", ").unwrap_or((words, ""));
    divided(alloc, &list, least.parse::<usize>().unwrap_or(0))
}

#[test]
fn choices_and_splits(rt: HostRuntime) {
    all_hold_in_memory(&rt, first_untrue(rt.alloc(), Kind::Splits, CHOICES));
    all_hold_in_memory(&rt, first_untrue(rt.alloc(), Kind::Splits, SPLITS));
}

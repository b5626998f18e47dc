//! Tables of calls as text: on each line a call, its words and, behind ` = `, what it answers.

use crate::{batches, fields, joins, queries, rects, splits, texts, trees};
use mr_geom::Rect;
use mr_record::read_i32;
use std::alloc::{AllocError, Global};

/// Whose calls a table has.
#[derive(Clone, Copy)]
pub enum Kind {
    Batches,
    Fields,
    Joins,
    Queries,
    Rects,
    Splits,
    Texts,
    Trees,
}

fn answer(alloc: Global, kind: Kind, call: &str, words: &str) -> Result<String, AllocError> {
    match kind {
        Kind::Batches => batches::answer(alloc, call, words),
        Kind::Fields => fields::answer(alloc, call, words),
        Kind::Joins => joins::answer(alloc, call, words),
        Kind::Queries => queries::answer(alloc, call, words),
        Kind::Rects => rects::answer(alloc, call, words),
        Kind::Splits => splits::answer(alloc, call, words),
        Kind::Texts => texts::answer(alloc, call, words),
        Kind::Trees => trees::answer(alloc, call, words),
    }
}

fn holds(alloc: Global, kind: Kind, line: &str) -> Result<bool, AllocError> {
    let (asked, told) = line.split_once(" = ").unwrap_or((line, ""));
    let (call, words) = asked.split_once(' ').unwrap_or((asked, ""));
    Ok(answer(alloc, kind, call, words)?.as_str() == told)
}

/// The first line of a table that does not hold, if there is one.
pub fn first_untrue(
    alloc: Global,
    kind: Kind,
    table: &'static str,
) -> Result<Option<&'static str>, AllocError> {
    for line in table.lines() {
        if !holds(alloc, kind, line)? {
            return Ok(Some(line));
        }
    }
    Ok(None)
}

/// The numbers among some words.
pub fn numbers(alloc: Global, words: &str) -> Result<Vec<i32>, AllocError> {
    let mut all = Vec::new(alloc);
    for word in words.split(' ') {
        if let Some(number) = read_i32(word.as_bytes()) {
            all.push(number)?;
        }
    }
    Ok(all)
}

/// The rectangle with these sides: left, bottom, right, top.
pub fn rect_in(sides: &[i32]) -> Option<Rect> {
    match sides {
        [x0, y0, x1, y1] => Rect::new(*x0, *y0, *x1, *y1),
        _ => None,
    }
}

/// The sides of a rectangle.
pub fn sides_of(alloc: Global, rect: &Rect) -> Result<String, AllocError> {
    let (x0, y0, x1, y1) = rect.corners();
    format!(in alloc; "{x0} {y0} {x1} {y1}")
}

/// A text that stands for several lines, each of which ends with a stroke.
pub fn text_in(alloc: Global, words: &str) -> Result<String, AllocError> {
    let mut text = String::new(alloc);
    for (i, line) in words.split('|').enumerate() {
        if i > 0 {
            text.push('\n')?;
        }
        text.push_str(line)?;
    }
    Ok(text)
}

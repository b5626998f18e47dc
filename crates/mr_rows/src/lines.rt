//! A table as its lines. An item is a line `KEY: WORDS`, and the lines of its parts stand below it,
//! two spaces in. A group is a line of one of the keys that begin one, with the items up to the
//! next such line. Empty lines and those that begin with `#` tell nothing. A line that ends with
//! `\` goes on with the next one, behind the two spaces that this begins with.

use mr_fixtures::parts::{put_line, put_part};
use std::alloc::{AllocError, Global};

// The text, with lines that go on put together.
pub(crate) fn whole_lines(alloc: Global, text: &str) -> Result<String, AllocError> {
    let mut all = String::new(alloc);
    let mut goes_on = false;
    for line in text.lines() {
        let rest = if goes_on {
            line.strip_prefix("  ").unwrap_or(line)
        } else {
            line
        };
        match rest.strip_suffix('\\') {
            Some(front) => {
                all.push_str(front)?;
                goes_on = true;
            }
            None => {
                all.push_str(rest)?;
                all.push('\n')?;
                goes_on = false;
            }
        }
    }
    Ok(all)
}

// The key and the words of an item; the key is empty where a line is none.
pub(crate) fn item(line: &str) -> (&str, &str) {
    if line.is_empty() || line.starts_with(' ') || line.starts_with('#') {
        return ("", "");
    }
    match line.split_once(": ") {
        Some((key, words)) => (key, words),
        None => (line.strip_suffix(':').unwrap_or(line), ""),
    }
}

// The key of the item on this line.
pub(crate) fn key_at<'a>(lines: &[&'a str], at: usize) -> &'a str {
    match lines.get(at) {
        Some(line) => item(line).0,
        None => "",
    }
}

// Whether an item of this key begins a group.
pub(crate) fn begins(key: &str) -> bool {
    matches!(
        key,
        "hash" | "let" | "row" | "false row" | "story" | "bad words"
    )
}

// The lines behind this one.
fn behind<'a, 'b>(lines: &'b [&'a str], at: usize) -> &'b [&'a str] {
    let (_, rest) = lines.split_at(at.min(lines.len()));
    match rest {
        [_, behind @ ..] => behind,
        [] => rest,
    }
}

// The group that begins on this line.
pub(crate) fn group_at<'a, 'b>(lines: &'b [&'a str], at: usize) -> &'b [&'a str] {
    let mut count = 0usize;
    for line in behind(lines, at) {
        if begins(item(line).0) {
            break;
        }
        count = count.wrapping_add(1);
    }
    let (_, rest) = lines.split_at(at.min(lines.len()));
    let (group, _) = rest.split_at(count.wrapping_add(1).min(rest.len()));
    group
}

// The parts below the item on this line.
fn parts_at<'a, 'b>(lines: &'b [&'a str], at: usize) -> &'b [&'a str] {
    let behind = behind(lines, at);
    let mut count = 0usize;
    for line in behind {
        if !line.starts_with("  ") {
            break;
        }
        count = count.wrapping_add(1);
    }
    let (parts, _) = behind.split_at(count.min(behind.len()));
    parts
}

// Puts these parts at the end of some bytes. Whether each of them is one.
fn put_parts(bytes: &mut Vec<u8>, alloc: Global, parts: &[&str]) -> Result<bool, AllocError> {
    for part in parts {
        if !put_part(bytes, alloc, part.strip_prefix("  ").unwrap_or(part))? {
            return Ok(false);
        }
    }
    Ok(true)
}

// The parts that go under this name in a table.
fn parts_of<'a, 'b>(table: &'b [&'a str], name: &str) -> &'b [&'a str] {
    for (at, line) in table.iter().enumerate() {
        if item(line) == ("let", name) {
            return parts_at(table, at);
        }
    }
    &[]
}

// Puts a part; `use NAME` stands for all that go under a name.
fn put(bytes: &mut Vec<u8>, alloc: Global, table: &[&str], part: &str) -> Result<bool, AllocError> {
    match part.strip_prefix("  use ") {
        Some(name) => {
            let parts = parts_of(table, name);
            Ok(put_parts(bytes, alloc, parts)? && !parts.is_empty())
        }
        None => put_parts(bytes, alloc, &[part]),
    }
}

// The bytes of the parts below the item on this line, or the words of one that tells what is
// printed, as a line of a text; none where a part spells nothing.
pub(crate) fn bytes_at(
    alloc: Global,
    table: &[&str],
    lines: &[&str],
    at: usize,
    item: (&str, &str),
) -> Result<Option<Vec<u8>>, AllocError> {
    let (key, words) = item;
    let mut bytes = Vec::new(alloc);
    if key.is_empty() {
        return Ok(Some(bytes));
    }
    if key == "prints" && !words.is_empty() {
        put_line(&mut bytes, alloc, words)?;
    }
    for part in parts_at(lines, at) {
        if !put(&mut bytes, alloc, table, part)? {
            return Ok(None);
        }
    }
    Ok(Some(bytes))
}

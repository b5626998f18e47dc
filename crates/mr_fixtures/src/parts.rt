//! Files of tests, put together from parts, a line of words each: the lines of texts, the heads,
//! leaves and pruned nodes of proofs, the pages of maps. The bytes are spelled here anew, by none
//! of the program's writers.
//!
//! - `| TEXT` is a line of a text with its line feed, `text TEXT` the same without one, and in both
//!   `..` stands for 62 zeros. `hex DIGITS` are bytes, `zeros N` so many zeros.
//! - `points N` are the lines of the records I at (I,0) for I from 1 to N. `places FIRST N` are
//!   those of N records from this number on, scattered over the plane, with a byte of payload each.
//!   `overlapping FIRST N` are those of as many, the odd ones all at (10000,10000), and the even
//!   ones scattered, 15,000 wide and high. `places2` are the lines of version 2 of `places`, each
//!   on a layer by its column. `times N TEXT` is N times the line `| TEXT`.
//! - `added FIRST N` are changes of a batch that add those. `removed FIRST N STEP OF` remove N
//!   records: of the numbers from 1 to OF in steps, those from the place FIRST on. By `renewed I N`
//!   record I goes and comes N times. By `mixed FIRST` 250 times a record of 3,000 goes and another
//!   comes.
//! - `window` and `nearest` are the head of a proof (batch, count; a flag and the radius that
//!   follows a flag of 1; level). `leaf` begins an opened leaf or the page of one (count), and each
//!   `record LINE` is one in it. `node` begins an opened inner node (count), `pruned` is a pruned
//!   one (rectangle, digest).
//! - `map` is the head of a map file (level, batch, count, pages, root page, rectangle, digest).
//!   `inner` begins an inner node's page (level, count), `child` is a child on it (page, rectangle,
//!   digest). `seal` fills the first page with zeros up to its seal, `fill` any page to its end.
//! - `map2` is that head in version 2, with a mask in front of the digest. `child2` is such a
//!   child, with a mask and a count there, and `pruned2` such a pruned node, with both there too.
//!   `window2`, `nearest2`, `record2`, `seal2` and `fill2` are those of version 2. `count2` is the
//!   head of a count proof, which there is in version 2 alone, and `join2` that of one of the two
//!   proofs in a join's proof. `joined` begins that, where it has a rectangle (rectangle, length of
//!   the first of the two).
//!
//! Numbers are decimal, or hexadecimal behind `0x`; words between them are for the reader. A digest
//! is given by its value as a number: zeros come before it.

use mr_record::Version::{self, One, Two};
use mr_record::read_line_of;
use std::alloc::{AllocError, Global};

/// A file by its name, and its parts line by line.
pub type File<'a> = (&'a str, &'a str);

const PAGE: usize = 4096;

const SECOND_PAGE: usize = 8192;

fn put_zeros(bytes: &mut Vec<u8>, count: usize) -> Result<(), AllocError> {
    for _ in 0..count {
        bytes.push(0)?;
    }
    Ok(())
}

// The value of a digit, 16 where there is none.
fn digit(byte: u8) -> i128 {
    match byte {
        b'0'..=b'9' => i128::from(byte - b'0'),
        b'a'..=b'f' => i128::from(byte - b'a' + 10),
        _ => 16,
    }
}

// The number that these digits spell, of which there is at least one.
fn spelled(digits: &[u8], base: i128) -> Option<i128> {
    let mut number = 0i128;
    for byte in digits {
        let digit = digit(*byte);
        if digit >= base {
            return None;
        }
        number = number.wrapping_mul(base).wrapping_add(digit);
    }
    if digits.is_empty() {
        None
    } else {
        Some(number)
    }
}

/// The number that a word spells: decimal, or hexadecimal behind `0x`.
pub fn number(word: &str) -> Option<i128> {
    let digits = word.as_bytes();
    if let Some(digits) = digits.strip_prefix(b"0x") {
        return spelled(digits, 16);
    }
    match digits.strip_prefix(b"-") {
        Some(digits) => Some(spelled(digits, 10)?.wrapping_neg()),
        None => spelled(digits, 10),
    }
}

/// The numbers among these words.
pub fn numbers(alloc: Global, words: &str) -> Result<Vec<i128>, AllocError> {
    let mut all = Vec::new(alloc);
    for word in words.split(' ') {
        if let Some(number) = number(word) {
            all.push(number)?;
        }
    }
    Ok(all)
}

/// A number as one of 64 bits; 0 where it is none.
pub fn small(number: i128) -> u64 {
    u64::try_from(number).unwrap_or(0)
}

// Puts a number in so many bytes, the highest first.
fn put_number(bytes: &mut Vec<u8>, number: i128, width: usize) -> Result<(), AllocError> {
    put_zeros(bytes, width.saturating_sub(16))?;
    let all = number.to_be_bytes();
    let (_, last) = all.split_at(16usize.saturating_sub(width));
    bytes.extend_from_slice(last)
}

// Puts these bytes, and the numbers in so many bytes each. Whether there are as many numbers.
fn put_fields(
    bytes: &mut Vec<u8>,
    front: &[u8],
    widths: &[usize],
    numbers: &[i128],
) -> Result<bool, AllocError> {
    bytes.extend_from_slice(front)?;
    for (width, number) in widths.iter().zip(numbers) {
        put_number(bytes, *number, *width)?;
    }
    Ok(widths.len() == numbers.len())
}

// The record that a line of a text spells. Whether it spells one.
fn put_record(bytes: &mut Vec<u8>, version: Version, line: &str) -> Result<bool, AllocError> {
    let Ok(record) = read_line_of(version, line.as_bytes()) else {
        return Ok(false);
    };
    let (x0, y0, x1, y1) = record.rect.corners();
    let payload = record.payload.bytes();
    bytes.extend_from_slice(&record.number.to_be_bytes())?;
    for side in [x0, y0, x1, y1] {
        bytes.extend_from_slice(&side.to_be_bytes())?;
    }
    if version == Two {
        bytes.push(record.layer)?;
    }
    bytes.push((payload.len() % 256) as u8)?;
    bytes.extend_from_slice(payload)?;
    Ok(true)
}

fn put_seal(bytes: &mut Vec<u8>, page: usize) -> Result<bool, AllocError> {
    let room = page.saturating_sub(4).saturating_sub(bytes.len());
    put_zeros(bytes, room)?;
    bytes.extend_from_slice(b"SEAL")?;
    Ok(true)
}

// Puts zeros up to the end of a page, of which there are few.
fn put_fill(bytes: &mut Vec<u8>, page: usize) -> Result<bool, AllocError> {
    let count = bytes.len().div_ceil(page.max(1));
    let room = count.saturating_mul(page).saturating_sub(bytes.len());
    put_zeros(bytes, room)?;
    Ok(true)
}

// Puts numbers, each with a space behind it.
fn put_words(bytes: &mut Vec<u8>, alloc: Global, numbers: &[u64]) -> Result<(), AllocError> {
    for number in numbers {
        bytes.extend_from_slice(format!(in alloc; "{number} ")?.as_bytes())?;
    }
    Ok(())
}

fn put_points(bytes: &mut Vec<u8>, alloc: Global, count: u64) -> Result<bool, AllocError> {
    for i in 1..=count {
        put_words(bytes, alloc, &[i, i, 0, i, 0])?;
        bytes.extend_from_slice(b"-\n")?;
    }
    Ok(true)
}

fn put_place(bytes: &mut Vec<u8>, alloc: Global, i: u64) -> Result<(), AllocError> {
    let x = i.wrapping_mul(7_919) % 20_011;
    let y = i.wrapping_mul(104_729) % 19_997;
    put_words(bytes, alloc, &[i, x, y, x + i % 3, y + i % 5])?;
    let byte = i % 256;
    bytes.extend_from_slice(format!(in alloc; "{byte:02x}\n")?.as_bytes())
}

// The lines of places, each behind this front.
fn put_places(
    bytes: &mut Vec<u8>,
    alloc: Global,
    front: &[u8],
    first: u64,
    count: u64,
) -> Result<bool, AllocError> {
    for i in 0..count {
        bytes.extend_from_slice(front)?;
        put_place(bytes, alloc, first.wrapping_add(i))?;
    }
    Ok(true)
}

fn put_places2(
    bytes: &mut Vec<u8>,
    alloc: Global,
    first: u64,
    count: u64,
) -> Result<bool, AllocError> {
    for k in 0..count {
        let i = first.wrapping_add(k);
        let x = i.wrapping_mul(7_919) % 20_011;
        let y = i.wrapping_mul(104_729) % 19_997;
        put_words(bytes, alloc, &[i, x, y, x + i % 3, y + i % 5, x / 320])?;
        let byte = i % 256;
        bytes.extend_from_slice(format!(in alloc; "{byte:02x}\n")?.as_bytes())?;
    }
    Ok(true)
}

fn put_wide(bytes: &mut Vec<u8>, alloc: Global, i: u64) -> Result<(), AllocError> {
    if i % 2 == 1 {
        put_words(bytes, alloc, &[i, 10_000, 10_000, 10_000, 10_000])?;
    } else {
        let x = i.wrapping_mul(7_919) % 20_011;
        let y = i.wrapping_mul(104_729) % 19_997;
        put_words(bytes, alloc, &[i, x, y, x + 15_000, y + 15_000])?;
    }
    bytes.extend_from_slice(b"-\n")
}

fn put_overlapping(
    bytes: &mut Vec<u8>,
    alloc: Global,
    first: u64,
    count: u64,
) -> Result<bool, AllocError> {
    for i in 0..count {
        put_wide(bytes, alloc, first.wrapping_add(i))?;
    }
    Ok(true)
}

// Of the numbers from 1 to the modulus, taken in steps, the one at this place.
fn stepped(place: u64, step: u64, modulus: u64) -> u64 {
    match place.wrapping_mul(step).checked_rem(modulus) {
        Some(rest) => rest.wrapping_add(1),
        None => 1,
    }
}

fn put_removal(bytes: &mut Vec<u8>, alloc: Global, number: u64) -> Result<(), AllocError> {
    bytes.extend_from_slice(format!(in alloc; "- {number}\n")?.as_bytes())
}

fn put_removals(
    bytes: &mut Vec<u8>,
    alloc: Global,
    first: u64,
    count: u64,
    step: u64,
    of: u64,
) -> Result<bool, AllocError> {
    for k in 0..count {
        put_removal(bytes, alloc, stepped(first.wrapping_add(k), step, of))?;
    }
    Ok(true)
}

fn put_renewed(
    bytes: &mut Vec<u8>,
    alloc: Global,
    number: u64,
    times: u64,
) -> Result<bool, AllocError> {
    for _ in 0..times {
        put_removal(bytes, alloc, number)?;
        put_places(bytes, alloc, b"+ ", number, 1)?;
    }
    Ok(true)
}

fn put_mixed(bytes: &mut Vec<u8>, alloc: Global, first: u64) -> Result<bool, AllocError> {
    for k in 0..250u64 {
        let at = first.wrapping_add(k);
        put_removal(bytes, alloc, stepped(at, 7, 3000))?;
        put_places(bytes, alloc, b"+ ", at.wrapping_add(3001), 1)?;
    }
    Ok(true)
}

// A part that is made up, by its kind and two numbers.
fn put_made(
    bytes: &mut Vec<u8>,
    alloc: Global,
    kind: &str,
    first: u64,
    count: u64,
) -> Result<bool, AllocError> {
    match kind {
        "points" => put_points(bytes, alloc, first),
        "places" => put_places(bytes, alloc, b"", first, count),
        "places2" => put_places2(bytes, alloc, first, count),
        "overlapping" => put_overlapping(bytes, alloc, first, count),
        "added" => put_places(bytes, alloc, b"+ ", first, count),
        "renewed" => put_renewed(bytes, alloc, first, count),
        "mixed" => put_mixed(bytes, alloc, first),
        _ => Ok(false),
    }
}

// A part that is made up, by its kind and its numbers.
fn put_many(
    bytes: &mut Vec<u8>,
    alloc: Global,
    kind: &str,
    numbers: &[i128],
) -> Result<bool, AllocError> {
    match numbers {
        [first] => put_made(bytes, alloc, kind, small(*first), 0),
        [first, count] => put_made(bytes, alloc, kind, small(*first), small(*count)),
        [first, count, step, of] => put_removals(
            bytes,
            alloc,
            small(*first),
            small(*count),
            small(*step),
            small(*of),
        ),
        _ => Ok(false),
    }
}

// The head of a proof for nearest records, with a radius or without one.
fn put_nearest(bytes: &mut Vec<u8>, front: &[u8], numbers: &[i128]) -> Result<bool, AllocError> {
    match numbers {
        [_, _, 1, _, _] => put_fields(bytes, front, &[8, 8, 1, 16, 1], numbers),
        _ => put_fields(bytes, front, &[8, 8, 1, 1], numbers),
    }
}

// A part of a proof, or of a page, by its kind and its numbers.
fn put_shown(bytes: &mut Vec<u8>, kind: &str, numbers: &[i128]) -> Result<bool, AllocError> {
    match kind {
        "window" => put_fields(bytes, b"MRVO\x01W", &[8, 8, 1], numbers),
        "window2" => put_fields(bytes, b"MRVO\x02W", &[8, 8, 1], numbers),
        "count2" => put_fields(bytes, b"MRVO\x02C", &[8, 8, 1], numbers),
        "join2" => put_fields(bytes, b"MRVO\x02J", &[8, 8, 1], numbers),
        "joined" => put_fields(bytes, b"MRJN\x01", &[4, 4, 4, 4, 4], numbers),
        "nearest" => put_nearest(bytes, b"MRVO\x01K", numbers),
        "nearest2" => put_nearest(bytes, b"MRVO\x02K", numbers),
        "leaf" => put_fields(bytes, b"L", &[1], numbers),
        "node" => put_fields(bytes, b"N", &[1], numbers),
        "pruned" => put_fields(bytes, b"P", &[4, 4, 4, 4, 32], numbers),
        "pruned2" => put_fields(bytes, b"P", &[4, 4, 4, 4, 8, 8, 32], numbers),
        _ => put_on_page(bytes, kind, numbers),
    }
}

fn put_on_page(bytes: &mut Vec<u8>, kind: &str, numbers: &[i128]) -> Result<bool, AllocError> {
    match kind {
        "map" => {
            let widths: &[usize] = &[1, 8, 8, 4, 4, 4, 4, 4, 4, 32];
            put_fields(bytes, b"MRMP\x01", widths, numbers)
        }
        "map2" => {
            let widths: &[usize] = &[1, 8, 8, 4, 4, 4, 4, 4, 4, 8, 32];
            put_fields(bytes, b"MRMP\x02", widths, numbers)
        }
        "inner" => put_fields(bytes, b"N", &[1, 1], numbers),
        "child" => put_fields(bytes, b"", &[4, 4, 4, 4, 4, 32], numbers),
        "child2" => put_fields(bytes, b"", &[4, 4, 4, 4, 4, 8, 8, 32], numbers),
        "seal" => put_seal(bytes, PAGE),
        "seal2" => put_seal(bytes, SECOND_PAGE),
        "fill" => put_fill(bytes, PAGE),
        "fill2" => put_fill(bytes, SECOND_PAGE),
        _ => Ok(false),
    }
}

fn is_made(kind: &str) -> bool {
    matches!(
        kind,
        "points" | "places" | "places2" | "overlapping" | "added" | "removed" | "renewed" | "mixed"
    )
}

// A part by its kind and its numbers.
fn put_counted(
    bytes: &mut Vec<u8>,
    alloc: Global,
    kind: &str,
    words: &str,
) -> Result<bool, AllocError> {
    let numbers = numbers(alloc, words)?;
    match numbers.as_slice() {
        [count] if kind == "zeros" => {
            put_zeros(bytes, small(*count) as usize)?;
            Ok(true)
        }
        _ if is_made(kind) => put_many(bytes, alloc, kind, &numbers),
        _ => put_shown(bytes, kind, &numbers),
    }
}

// The text with 62 zeros in place of each `..`.
fn put_text(bytes: &mut Vec<u8>, alloc: Global, text: &str) -> Result<bool, AllocError> {
    bytes.extend_from_slice(expanded(alloc, text)?.as_bytes())?;
    Ok(true)
}

/// Puts a line of a text, with its line feed.
pub fn put_line(bytes: &mut Vec<u8>, alloc: Global, text: &str) -> Result<bool, AllocError> {
    put_text(bytes, alloc, text)?;
    bytes.push(b'\n')?;
    Ok(true)
}

// Puts a line of a text as often as the first word says. Whether that is a number.
fn put_times(bytes: &mut Vec<u8>, alloc: Global, words: &str) -> Result<bool, AllocError> {
    let (times, text) = words.split_once(' ').unwrap_or((words, ""));
    let Some(times) = number(times) else {
        return Ok(false);
    };
    for _ in 0..small(times) {
        put_line(bytes, alloc, text)?;
    }
    Ok(true)
}

fn put_hex(bytes: &mut Vec<u8>, alloc: Global, digits: &str) -> Result<bool, AllocError> {
    match hex::decode(alloc, digits.as_bytes()) {
        Ok(decoded) => {
            bytes.extend_from_slice(&decoded)?;
            Ok(true)
        }
        Err(_) => Ok(false),
    }
}

/// Puts the part that a line spells at the end of some bytes. Whether it spells one.
pub fn put_part(bytes: &mut Vec<u8>, alloc: Global, line: &str) -> Result<bool, AllocError> {
    let (kind, words) = line.split_once(' ').unwrap_or((line, ""));
    match kind {
        "|" => put_line(bytes, alloc, words),
        "text" => put_text(bytes, alloc, words),
        "times" => put_times(bytes, alloc, words),
        "hex" => put_hex(bytes, alloc, words),
        "record" => put_record(bytes, One, words),
        "record2" => put_record(bytes, Two, words),
        _ => put_counted(bytes, alloc, kind, words),
    }
}

/// The bytes of a file of these parts. A line that spells none stands there itself.
pub fn bytes_of(alloc: Global, parts: &str) -> Result<Vec<u8>, AllocError> {
    let mut bytes = Vec::new(alloc);
    for line in parts.lines() {
        if !put_part(&mut bytes, alloc, line)? {
            bytes.extend_from_slice(line.as_bytes())?;
        }
    }
    Ok(bytes)
}

/// The bytes with each of these in place of others, by place and value.
pub fn edited(alloc: Global, bytes: &[u8], edits: &[(usize, u8)]) -> Result<Vec<u8>, AllocError> {
    let mut edited = bytes.to_vec(alloc)?;
    for (place, byte) in edits {
        if *place < edited.len() {
            edited[*place] = *byte;
        }
    }
    Ok(edited)
}

// The digits in front of the last two of a digest that is zero but for its last byte.
const ZEROS: &str = "00000000000000000000000000000000000000000000000000000000000000";

/// The text with 62 zeros in place of each `..`.
pub fn expanded(alloc: Global, text: &str) -> Result<String, AllocError> {
    let mut all = String::new(alloc);
    let mut is_first = true;
    for piece in text.split("..") {
        if !is_first {
            all.push_str(ZEROS)?;
        }
        is_first = false;
        all.push_str(piece)?;
    }
    Ok(all)
}

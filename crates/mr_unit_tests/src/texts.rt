//! Numbers, records and their texts, read and written, by their calls.

use crate::assertions::{all_hold_in_memory, holds_in_memory};
use crate::calls::{Kind, first_untrue, sides_of};
use crate::made::{record_of, records_of};
use mr_outside::MemSink;
use mr_record::{
    Payload, Record, TextErr, TextFault, TextRule, read_i32, read_lines, read_u64, write_line,
};
use std::alloc::{AllocError, Global};
use std::fmt::Display;

// What is written is told with a stroke in the place of each line feed: after one call, after a
// second one, which fails, and after a third one.
const CALLS: &str = "natural 0 = 0\n\
    natural 18446744073709551615 = 18446744073709551615\n\
    natural 18446744073709551616 = none\n\
    natural 05 = none\n\
    natural +5 = none\n\
    natural -0 = none\n\
    natural  = none\n\
    integer -2147483648 = -2147483648\n\
    integer 2147483647 = 2147483647\n\
    integer -2147483649 = none\n\
    integer 2147483648 = none\n\
    integer -0 = none\n\
    integer +5 = none\n\
    record 1 791033 550767 791090 550814 e220a8397b1dcdaf \
    = 1 at 791033 550767 791090 550814 with 226 32 168 57 123 29 205 175 \n\
    record 18446744073709551615 -2147483648 -2147483648 2147483647 2147483647 - \
    = 18446744073709551615 at -2147483648 -2147483648 2147483647 2147483647 with \n\
    payload 8 = kept\n\
    payload 200 = kept\n\
    payload 201 = none\n\
    written 0 0 0 0 0 - = 0 0 0 0 0 -|, 0 0 0 0 0 -|, 0 0 0 0 0 -|0 0 0 0 0 -|\n\
    written 7 0 -1 0 1 - = 7 0 -1 0 1 -|, 7 0 -1 0 1 -|, 7 0 -1 0 1 -|7 0 -1 0 1 -|\n\
    written 10 -9 -10 9 10 00 = 10 -9 -10 9 10 00|, 10 -9 -10 9 10 00|, \
    10 -9 -10 9 10 00|10 -9 -10 9 10 00|";

const LONGEST: &str = "18446744073709551615 -2147483648 -2147483648 2147483647 2147483647 \
    000102030405060708090a0b0c0d0e0f101112131415161718191a1b1c1d1e1f2021222324252627\
    28292a2b2c2d2e2f303132333435363738393a3b3c3d3e3f404142434445464748494a4b4c4d4e4f\
    505152535455565758595a5b5c5d5e5f606162636465666768696a6b6c6d6e6f7071727374757677\
    78797a7b7c7d7e7f808182838485868788898a8b8c8d8e8f909192939495969798999a9b9c9d9e9f\
    a0a1a2a3a4a5a6a7a8a9aaabacadaeafb0b1b2b3b4b5b6b7b8b9babbbcbdbebfc0c1c2c3c4c5c6c7";

fn number<T: Display + Drop>(alloc: Global, read: Option<T>) -> Result<String, AllocError> {
    match read {
        Some(number) => format!(in alloc; "{number}"),
        None => String::from_str(alloc, "none"),
    }
}

// The number of a record, its sides, and each byte of its payload as a number.
fn shown(alloc: Global, one: &Record) -> Result<String, AllocError> {
    let (number, sides) = (one.number, sides_of(alloc, &one.rect)?);
    let mut text = format!(in alloc; "{number} at {sides} with ")?;
    for byte in one.payload.bytes() {
        text.push_str(format!(in alloc; "{byte} ")?.as_str())?;
    }
    Ok(text)
}

// What stands in an output after each of three calls, of which the second one fails.
fn written(alloc: Global, one: &Record) -> Result<String, AllocError> {
    let mut out = MemSink::new(alloc, vec![in alloc; 2]?);
    let mut text = String::new(alloc);
    for time in 0..3u8 {
        if one.layer == 0 {
            let _ = write_line(&mut out, one);
        }
        text.push_str(if time == 0 { "" } else { ", " })?;
        for byte in out.bytes() {
            text.push(if *byte == b'\n' {
                '|'
            } else {
                char::from(*byte)
            })?;
        }
    }
    Ok(text)
}

fn payload(words: &str) -> &'static str {
    let bytes = [7; 201];
    let (front, _) = bytes.split_at(words.parse::<usize>().unwrap_or(0).min(201));
    match Payload::new(front) {
        Some(payload) if payload.bytes() == front => "kept",
        Some(_) => "another",
        None => "none",
    }
}

/// What a call on the text of a number or of a record answers.
pub fn answer(alloc: Global, call: &str, words: &str) -> Result<String, AllocError> {
    match (call, record_of(words)) {
        ("natural", _) => number(alloc, read_u64(words.as_bytes())),
        ("integer", _) => number(alloc, read_i32(words.as_bytes())),
        ("payload", _) => String::from_str(alloc, payload(words)),
        ("record", Some(one)) => shown(alloc, &one),
        ("written", Some(one)) => written(alloc, &one),
        _ => String::from_str(alloc, "none"),
    }
}

// Whether the longest line is written as it is read.
fn longest_is_written(alloc: Global) -> Result<bool, AllocError> {
    let mut out = MemSink::new(alloc, Vec::new(alloc));
    if let Some(one) = record_of(LONGEST) {
        let _ = write_line(&mut out, &one);
    }
    let line = out.bytes().strip_suffix(b"\n").unwrap_or(b"");
    Ok(line == LONGEST.as_bytes())
}

#[test]
fn numbers_and_lines(rt: HostRuntime) {
    all_hold_in_memory(&rt, first_untrue(rt.alloc(), Kind::Texts, CALLS));
    holds_in_memory(&rt, "the longest line", longest_is_written(rt.alloc()));
}

fn text_of_a_million(alloc: Global) -> Result<String, AllocError> {
    let mut text = String::new(alloc);
    for i in 0..(1 << 20) {
        text.push_str(format!(in alloc; "{i} 0 0 0 0 -\n")?.as_str())?;
    }
    Ok(text)
}

fn is_past_the_limit(alloc: Global, text: &str) -> bool {
    match read_lines(alloc, text.as_bytes()) {
        Err(TextErr::Text(TextFault { line, rule })) => {
            line == (1 << 20) + 1 && rule == TextRule::TooMany
        }
        _ => false,
    }
}

fn one_line_more_is_too_many(alloc: Global) -> Result<bool, AllocError> {
    let mut text = text_of_a_million(alloc)?;
    let read = match records_of(alloc, text.as_str()) {
        Some(records) => records.len() == 1 << 20,
        None => false,
    };
    text.push_str("7")?;
    Ok(read && is_past_the_limit(alloc, text.as_str()))
}

// A line past the limit has the rule before all others, and a million lines are read at once.
#[test]
fn a_line_past_the_limit(rt: HostRuntime) {
    holds_in_memory(&rt, "2^20 lines", one_line_more_is_too_many(rt.alloc()));
}

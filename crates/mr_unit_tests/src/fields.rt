//! The fields of a proof, each by its reader.

use crate::assertions::all_hold_in_memory;
use crate::calls::{Kind, first_untrue};
use mr_proof::{Field, Rule, Want, read_field};
use std::alloc::{AllocError, Global};

// A field that is wanted and its bytes, and the value that they have or the rule that they break:
// first the size that each field has.
const CALLS: &str = "Flag = 1 bytes\n\
    Radius = 16 bytes\n\
    Flag 1 = 1\n\
    Flag 2 = BadFlag\n\
    Radius 0 0 0 0 0 0 0 1 255 255 255 252 0 0 0 2 = 36893488130239234050\n\
    Radius 0 0 0 0 0 0 0 1 255 255 255 252 0 0 0 3 = BadRadius\n\
    InnerCount 0 = BadEntries\n\
    InnerCount 64 = 64\n\
    InnerCount 65 = BadEntries\n\
    LeafTag 78 = BadTag\n\
    InnerTag 78 = tag 78\n\
    InnerTag 76 = BadTag\n\
    Length 200 = 200\n\
    Length 201 = BadLength\n\
    Version 0 = BadVersion\n\
    Version 1 = 1\n\
    Version 2 = 2\n\
    Version 3 = BadVersion\n\
    Second 1 = BadVersion\n\
    Second 2 = 2\n\
    Layer 63 = 63\n\
    Layer 64 = BadLayer\n\
    Mask = 8 bytes\n\
    Mask 0 0 0 0 0 0 0 0 = 0\n\
    Mask 255 255 255 255 255 255 255 255 = 18446744073709551615\n\
    Tally 0 0 0 0 0 0 0 0 = BadCount\n\
    Tally 0 0 0 0 0 0 0 1 = 1\n\
    Tally 0 0 0 0 0 16 0 0 = 1048576\n\
    Tally 0 0 0 0 0 16 0 1 = BadCount";

fn want_of(name: &str) -> Want {
    match name {
        "Flag" => Want::Flag,
        "Radius" => Want::Radius,
        "InnerCount" => Want::InnerCount,
        "LeafTag" => Want::Tag(0),
        "InnerTag" => Want::Tag(1),
        "Version" => Want::Version(false),
        "Second" => Want::Version(true),
        "Layer" => Want::Layer,
        "Mask" => Want::Mask,
        "Tally" => Want::Tally,
        _ => Want::Length,
    }
}

fn shown(alloc: Global, read: Result<Field, Rule>) -> Result<String, AllocError> {
    match read {
        Ok(Field::Num(number)) => format!(in alloc; "{number}"),
        Ok(Field::Wide(number)) => format!(in alloc; "{number}"),
        Ok(Field::Tag(byte)) => format!(in alloc; "tag {byte}"),
        Ok(_) => String::from_str(alloc, "another field"),
        Err(rule) => String::from_str(alloc, rule.name()),
    }
}

// What is read of as many bytes as the field has, or else how many that are.
fn read(alloc: Global, want: &Want, bytes: &[u8]) -> Result<String, AllocError> {
    let size = want.size();
    match want {
        Want::Payload(_) => String::from_str(alloc, "a payload"),
        _ if bytes.len() == size => shown(alloc, read_field(want, bytes)),
        _ => format!(in alloc; "{size} bytes"),
    }
}

/// What the reader of a field answers.
pub fn answer(alloc: Global, call: &str, words: &str) -> Result<String, AllocError> {
    let mut bytes = Vec::new(alloc);
    for word in words.split(' ') {
        if let Ok(byte) = word.parse::<u8>() {
            bytes.push(byte)?;
        }
    }
    read(alloc, &want_of(call), &bytes)
}

#[test]
fn each_field_has_its_value_or_its_rule(rt: HostRuntime) {
    all_hold_in_memory(&rt, first_untrue(rt.alloc(), Kind::Fields, CALLS));
}

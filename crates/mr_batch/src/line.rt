//! The lines of a batch text.

ghost use Rattle.std.specs.Prelude.{◌≡◌, ◌≤◌, ◌∷◌, [], length, MatchBool};
ghost use Rattle.mr_record.specs.Lines.{fields_of};
ghost use Rattle.mr_batch.specs.BatchText.{head_of_fields, head_of_line, addition_of_fields, removal_of_fields, change_of_fields, change_of_line};

use crate::Change;
use mr_record::{TextRule, Version, cut, read_line_of, read_u64};

// Whether no space stands in the text.
#[tactic(auto, using(crate::proofs::Cuttings::two_or_more, mr_record::proofs::Fields::fields_one))]
fn is_one_field(text: &[u8]) -> bool
    ensures { MatchBool result (fields_of text.now ≡ text.now ∷ [])
        (2 ≤ length (fields_of text.now)) }
{
    match cut(text, b' ') {
        Some(_) => false,
        None => true,
    }
}

// The number of a batch, from the parts of its first line.
#[tactic(auto, using(crate::proofs::Cuttings::head_steps))]
fn read_head_parts(word: &[u8], number: &[u8]) -> Option<u64>
    ensures { result ≡ head_of_fields (word.now ∷ fields_of number.now) }
{
    if word != b"batch".as_slice() {
        return None;
    }
    if !is_one_field(number) {
        return None;
    }
    read_u64(number)
}

// The number of a batch, from `batch N`.
#[tactic(auto, using(crate::proofs::Cuttings::head_one, mr_record::proofs::Fields::fields_cut))]
pub(crate) fn read_head(line: &[u8]) -> Option<u64>
    ensures { result ≡ head_of_line line.now }
{
    match cut(line, b' ') {
        Some((word, number)) => read_head_parts(word, number),
        None => None,
    }
}

// An addition, from the line behind `+ `.
fn read_addition(version: Version, rest: &[u8]) -> Result<Change, TextRule>
    ensures { result ≡ addition_of_fields version (fields_of rest.now) }
{
    let one = read_line_of(version, rest)?;
    Ok(Change::Add(one))
}

#[tactic(auto, unfolding(crate::specs::BatchText::removal_of_fields))]
fn read_number(field: &[u8]) -> Result<Change, TextRule>
    ensures { result ≡ removal_of_fields (field.now ∷ []) }
{
    let number = read_u64(field).ok_or(TextRule::Number)?;
    Ok(Change::Remove(number))
}

// A removal, from the line behind `- `.
#[tactic(auto, using(crate::proofs::Cuttings::removal_more))]
fn read_removal(rest: &[u8]) -> Result<Change, TextRule>
    ensures { result ≡ removal_of_fields (fields_of rest.now) }
{
    if !is_one_field(rest) {
        return Err(TextRule::Form);
    }
    read_number(rest)
}

// A change, from the parts of its line.
#[tactic(auto, unfolding(crate::specs::BatchText::change_of_fields))]
fn read_signed(version: Version, sign: &[u8], rest: &[u8]) -> Result<Change, TextRule>
    ensures { result ≡ change_of_fields version (sign.now ∷ fields_of rest.now) }
{
    if sign == b"+".as_slice() {
        return read_addition(version, rest);
    }
    if sign == b"-".as_slice() {
        return read_removal(rest);
    }
    Err(TextRule::Form)
}

// Reads one line without its line feed: `+ ` and a record line, or `- ` and a number.
#[tactic(auto, using(crate::proofs::Cuttings::change_one, mr_record::proofs::Fields::fields_cut))]
pub(crate) fn read_change(version: Version, line: &[u8]) -> Result<Change, TextRule>
    ensures { result ≡ change_of_line version line.now }
{
    match cut(line, b' ') {
        Some((sign, rest)) => read_signed(version, sign, rest),
        None => Err(TextRule::Form),
    }
}

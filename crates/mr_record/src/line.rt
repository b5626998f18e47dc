//! One record as a line of text.

ghost use Rattle.std.specs.Prelude.{◌≡◌, ◌∷◌, [], IfOk, IfSome, MatchResult, MatchOption, None, Some, Ok};
ghost use Rattle.std.specs.List.{list_all};
ghost use Rattle.mr_record.specs.Record.{IsRecord, HasLayer};
ghost use Rattle.mr_record.specs.declared.version.Version.TheVariants.{One, Two};
ghost use Rattle.mr_record.specs.RecordText.{is_lower_digit, hex_bytes, payload_of, layer_of, last_of, rectangle_of_fields, record_from, record_of_fields, layered, record_of_line, line_of};
ghost use Rattle.mr_record.specs.Lines.{fields_of};
ghost use Rattle.mr_record.specs.private.Fronts.{HasPointInFront, HasLayerInFront};
ghost use Rattle.mr_record.specs.declared.record.Record as types;
ghost use Rattle.mr_record.specs.declared.text_fault.TextRule.TheVariants as rules;

use crate::cutting::cut;
use crate::front::{front_coordinate, front_layer, front_number};
use crate::{LAYER_LIMIT, Payload, Record, TextRule, Version, read_i32, read_u64};
use mr_geom::Rect;

fn are_lower_digits(field: &[u8]) -> bool
    ensures { result ≡ list_all is_lower_digit field.now }
{
    field
        .iter()
        .all(|b| matches!(*b, b'0'..=b'9' | b'a'..=b'f'))
}

// Lower-case hexadecimal of 1 to 200 bytes.
fn read_hex(field: &[u8]) -> Option<Payload>
    ensures { result ≡ hex_bytes field.now }
{
    if field.len() < 2 || field.len() > 400 || !are_lower_digits(field) {
        return None;
    }
    if field.len() % 2 != 0 {
        return None;
    }
    Some(Payload::of_pairs(field))
}

// `-` for no bytes, or lower-case hexadecimal.
#[tactic(auto, unfolding(crate::specs::RecordText::payload_of))]
fn read_payload(field: &[u8]) -> Option<Payload>
    ensures { result ≡ payload_of field.now }
{
    if field == b"-".as_slice() {
        return Payload::new(&[]);
    }
    read_hex(field)
}

#[tactic(auto, unfolding(crate::specs::RecordText::rectangle_of_fields))]
fn read_rect(x0: &[u8], y0: &[u8], x1: &[u8], y1: &[u8]) -> Result<Rect, TextRule>
    ensures { result ≡ rectangle_of_fields x0.now y0.now x1.now y1.now }
{
    let x0 = read_i32(x0).ok_or(TextRule::Coordinate)?;
    let y0 = read_i32(y0).ok_or(TextRule::Coordinate)?;
    let x1 = read_i32(x1).ok_or(TextRule::Coordinate)?;
    let y1 = read_i32(y1).ok_or(TextRule::Coordinate)?;
    Rect::new(x0, y0, x1, y1).ok_or(TextRule::Order)
}

/// A decimal from 0 to 63.
#[tactic(auto, unfolding(crate::specs::RecordText::layer_of))]
fn read_layer(field: &[u8]) -> Option<u8>
    ensures { result ≡ layer_of field.now }
{
    let layer = read_u64(field)?;
    if layer > u64::from(LAYER_LIMIT) {
        return None;
    }
    Some(layer as u8)
}

// The first field of a line with more than one, and the line behind it.
#[tactic(auto, using(crate::proofs::Fields::fields_cut, crate::proofs::Fields::fields_one))]
fn split_field(line: &[u8]) -> Result<(&[u8], &[u8]), TextRule>
    ensures { MatchResult result (λ parts. fields_of line.now ≡ parts.0.now ∷ fields_of parts.1.now)
        (λ e. (e ≡ rules.Form) × (fields_of line.now ≡ line.now ∷ [])) }
{
    match cut(line, b' ') {
        Some(parts) => Ok(parts),
        None => Err(TextRule::Form),
    }
}

fn only_field(rest: &[u8]) -> Option<(Option<u8>, &[u8])>
    ensures { MatchOption result (last_of (fields_of rest.now) One ≡ None)
        (λ p. last_of (fields_of rest.now) One
        ≡ Some (record { layer = p.0; payload = p.1.now })) }
{
    match split_field(rest) {
        Ok(_) => None,
        Err(_) => Some((Some(0), rest)),
    }
}

fn two_fields(rest: &[u8]) -> Option<(Option<u8>, &[u8])>
    ensures { MatchOption result (last_of (fields_of rest.now) Two ≡ None)
        (λ p. last_of (fields_of rest.now) Two
        ≡ Some (record { layer = p.0; payload = p.1.now })) }
{
    match split_field(rest) {
        Err(_) => None,
        Ok((layer, payload)) => match split_field(payload) {
            Ok(_) => None,
            Err(_) => Some((read_layer(layer), payload)),
        },
    }
}

/// What stands behind the coordinates: the layer, if it is one, and the payload.
#[tactic(auto, unfolding(crate::specs::RecordText::last_of))]
fn split_last(version: Version, rest: &[u8]) -> Option<(Option<u8>, &[u8])>
    ensures { MatchOption result (last_of (fields_of rest.now) version ≡ None)
        (λ p. last_of (fields_of rest.now) version
        ≡ Some (record { layer = p.0; payload = p.1.now })) }
{
    match version {
        Version::One => only_field(rest),
        Version::Two => two_fields(rest),
    }
}

#[tactic(auto, unfolding(crate::specs::RecordText::record_from))]
fn read_parts(
    number: &[u8],
    x0: &[u8],
    y0: &[u8],
    x1: &[u8],
    y1: &[u8],
    layer: Option<u8>,
    payload: &[u8],
) -> Result<(Record, Option<u8>), TextRule>
    ensures { result ≡ record_from number.now x0.now y0.now x1.now y1.now
        (Some (record { layer = layer; payload = payload.now })) }
{
    let number = read_u64(number).ok_or(TextRule::Number)?;
    let rect = read_rect(x0, y0, x1, y1)?;
    let payload = read_payload(payload).ok_or(TextRule::Payload)?;
    let record = Record {
        number,
        rect,
        layer: 0,
        payload,
    };
    Ok((record, layer))
}

// The record of a line, or the first rule that it breaks, field by field.
#[tactic(auto, unfolding(crate::specs::RecordText::record_from, crate::specs::RecordText::last_of))]
fn read_each(version: Version, line: &[u8]) -> Result<(Record, Option<u8>), TextRule>
    ensures { result ≡ record_of_fields version (fields_of line.now) }
{
    let (number, rest) = split_field(line)?;
    let (x0, rest) = split_field(rest)?;
    let (y0, rest) = split_field(rest)?;
    let (x1, rest) = split_field(rest)?;
    let (y1, rest) = split_field(rest)?;
    match split_last(version, rest) {
        None => Err(TextRule::Form),
        Some((layer, payload)) => read_parts(number, x0, y0, x1, y1, layer, payload),
    }
}

// The two coordinates in front, and what stands behind them.
fn front_point(line: &[u8]) -> Option<(i32, i32, &[u8])>
    ensures { IfSome result (λ p. HasPointInFront p.0 p.1 line.now p.2.now) }
{
    let (x, rest) = front_coordinate(line)?;
    let (y, rest) = front_coordinate(rest)?;
    Some((x, y, rest))
}

// The layer in front, where the version has one, and what stands behind it.
fn front_last(version: Version, line: &[u8]) -> Option<(u8, &[u8])>
    ensures { IfSome result (λ p. HasLayerInFront version p.0 line.now p.1.now) }
{
    match version {
        Version::One => Some((0, line)),
        Version::Two => front_layer(line),
    }
}

// The record of a line that breaks no rule, read in one pass. `None` says nothing of the line:
// which rule it breaks, if any, is left to `read_each`.
fn read_at_once(version: Version, line: &[u8]) -> Option<(Record, Option<u8>)>
    ensures { IfSome result (λ p. record_of_fields version (fields_of line.now) ≡ Ok p) }
{
    let (number, rest) = front_number(line)?;
    let (x0, y0, rest) = front_point(rest)?;
    let (x1, y1, rest) = front_point(rest)?;
    let (layer, last) = front_last(version, rest)?;
    let rect = Rect::new(x0, y0, x1, y1)?;
    let payload = read_payload(last)?;
    let record = Record {
        number,
        rect,
        layer: 0,
        payload,
    };
    Some((record, Some(layer)))
}

pub(crate) fn read_fields(version: Version, line: &[u8]) -> Result<(Record, Option<u8>), TextRule>
    ensures { result ≡ record_of_fields version (fields_of line.now) }
{
    match read_at_once(version, line) {
        Some(found) => Ok(found),
        None => read_each(version, line),
    }
}

pub(crate) fn with_layer(found: (Record, Option<u8>)) -> Result<Record, TextRule>
    ensures { result ≡ layered found }
{
    let (one, layer) = found;
    match layer {
        None => Err(TextRule::Layer),
        Some(layer) => Ok(Record { layer, ..one }),
    }
}

/// Reads one line of this version without its line feed: `number x0 y0 x1 y1 payload`, in version 2
/// `number x0 y0 x1 y1 layer payload`, with single spaces between.
pub fn read_line_of(version: Version, line: &[u8]) -> Result<Record, TextRule>
    ensures exact { result ≡ record_of_line version line.now }
    ensures written { IfOk result
        (λ r. IsRecord r × HasLayer version r × (line.now ≡ line_of version r)) }
    ensures read { (r : types.Record) → IsRecord r → HasLayer version r
        → line.now ≡ line_of version r → result ≡ Ok r }
{
    let found = read_fields(version, line)?;
    with_layer(found)
}

/// `read_line_of` version 1.
pub fn read_line(line: &[u8]) -> Result<Record, TextRule>
    ensures exact { result ≡ record_of_line One line.now }
    ensures written { IfOk result (λ r. IsRecord r × HasLayer One r × (line.now ≡ line_of One r)) }
    ensures read { (r : types.Record) → IsRecord r → HasLayer One r → line.now ≡ line_of One r
        → result ≡ Ok r }
{
    read_line_of(Version::One, line)
}

/// `read_line_of` version 2.
pub fn read_line2(line: &[u8]) -> Result<Record, TextRule>
    ensures exact { result ≡ record_of_line Two line.now }
    ensures written { IfOk result (λ r. IsRecord r × HasLayer Two r × (line.now ≡ line_of Two r)) }
    ensures read { (r : types.Record) → IsRecord r → HasLayer Two r → line.now ≡ line_of Two r
        → result ≡ Ok r }
{
    read_line_of(Version::Two, line)
}

//! The fields of a proof, and their values.

ghost use Rattle.std.specs.Prelude.{◌≡◌, ◌≤◌, IfOk, length, Ok};
ghost use Rattle.mr_record.specs.Record.{sides_of, payload_limit};
ghost use Rattle.mr_proof.specs.declared.field.Field as types;
ghost use Rattle.mr_proof.specs.Fields.{size_of, field_of, field_bytes, IsField, FitsPayload, HasForm, only_if, tag_of, entries_of, version_field, tally_field, rectangle_field, kind_byte};
ghost use Rattle.mr_proof.specs.declared.field.Field.TheVariants as field;

use crate::limits::RADIUS_LIMIT;
use crate::{Kind, Rule, Want};
use mr_geom::Rect as Rectangle;
use mr_record::{
    LAYER_LIMIT, PAYLOAD_LIMIT, Payload as Bytes, Version, rect_of_bytes, u64_of_bytes,
    u128_of_bytes,
};
use mr_tree::{COUNT_LIMIT, INNER_LIMIT, LEAF_LIMIT, LEVEL_LIMIT};

/// The value of a field that breaks no rule.
#[derive(Clone, Copy)]
pub enum Field {
    /// Of a magic and a kind: nothing more than that they are the right ones.
    Plain,
    /// Of a version (1 or 2), a batch, a count, a flag, a level, a number of entries, a record's
    /// number, a layer, a length, a mask and the number of records of a part.
    Num(u64),
    /// Of a squared radius.
    Wide(u128),
    /// The tag's byte.
    Tag(u8),
    Rect(Rectangle),
    Payload(Bytes),
    Digest([u8; 32]),
}

fn rect_of(bytes: &[u8]) -> Result<Field, Rule>
    requires { length bytes.now ≡ 16 }
    ensures { result ≡ rectangle_field (sides_of bytes.now) }
{
    match rect_of_bytes(bytes) {
        Some(rect) => Ok(Field::Rect(rect)),
        None => Err(Rule::BadRect),
    }
}

fn payload_of(bytes: &[u8]) -> Result<Field, Rule>
    requires { length bytes.now ≤ payload_limit }
    ensures { result ≡ Ok (field.Payload bytes.now) }
{
    match Bytes::new(bytes) {
        Some(payload) => Ok(Field::Payload(payload)),
        None => Err(Rule::BadLength),
    }
}

fn digest_of(bytes: &[u8]) -> Result<Field, Rule>
    requires { length bytes.now ≡ 32 }
    ensures { result ≡ Ok (field.Digest bytes.now) }
{
    let mut digest = [0; 32];
    digest.copy_from_slice(bytes);
    Ok(Field::Digest(digest))
}

// The field, unless it breaks its rule.
fn only_if(good: bool, found: Field, rule: Rule) -> Result<Field, Rule>
    ensures { result ≡ only_if good found rule }
{
    if good { Ok(found) } else { Err(rule) }
}

fn tag_of(level: u8, tag: u8) -> Result<Field, Rule>
    ensures { result ≡ tag_of level tag }
{
    let opened = if level == 0 { b'L' } else { b'N' };
    only_if(tag == b'P' || tag == opened, Field::Tag(tag), Rule::BadTag)
}

fn entries_of(most: u8, entries: u8) -> Result<Field, Rule>
    ensures { result ≡ entries_of most entries }
{
    only_if(
        1 <= entries && entries <= most,
        Field::Num(u64::from(entries)),
        Rule::BadEntries,
    )
}

// What kind byte stands for a kind.
pub(crate) fn kind_byte(kind: Kind) -> u8
    ensures { result ≡ kind_byte kind }
{
    match kind {
        Kind::W => b'W',
        Kind::K => b'K',
        Kind::Choice(letter) => letter,
    }
}

fn version_of(two_only: bool, byte: u8) -> Result<Field, Rule>
    ensures { result ≡ version_field two_only byte }
{
    let one = !two_only && byte == Version::One.byte();
    only_if(
        byte == Version::Two.byte() || one,
        Field::Num(u64::from(byte)),
        Rule::BadVersion,
    )
}

fn tally_of(count: u64) -> Result<Field, Rule>
    ensures { result ≡ tally_field count }
{
    only_if(
        1 <= count && count <= COUNT_LIMIT,
        Field::Num(count),
        Rule::BadCount,
    )
}

#[tactic(auto, unfolding(crate::specs::Fields::field_of))]
fn value_of(want: &Want, bytes: &[u8]) -> Result<Field, Rule>
    requires size { length bytes.now ≡ size_of want.now }
    requires payload { FitsPayload want.now }
    ensures { result ≡ field_of want.now bytes.now }
{
    match want {
        Want::Magic => only_if(bytes == b"MRVO".as_slice(), Field::Plain, Rule::BadMagic),
        Want::Version(two_only) => version_of(*two_only, bytes[0]),
        Want::Kind(kind) => only_if(bytes[0] == kind_byte(*kind), Field::Plain, Rule::WrongKind),
        Want::Batch | Want::Number | Want::Mask => Ok(Field::Num(u64_of_bytes(bytes))),
        Want::Count => {
            let count = u64_of_bytes(bytes);
            only_if(count <= COUNT_LIMIT, Field::Num(count), Rule::BadCount)
        }
        Want::Flag => only_if(
            bytes[0] <= 1,
            Field::Num(u64::from(bytes[0])),
            Rule::BadFlag,
        ),
        Want::Radius => {
            let radius = u128_of_bytes(bytes);
            only_if(radius <= RADIUS_LIMIT, Field::Wide(radius), Rule::BadRadius)
        }
        Want::Level => only_if(
            bytes[0] <= LEVEL_LIMIT,
            Field::Num(u64::from(bytes[0])),
            Rule::BadLevel,
        ),
        Want::Tag(level) => tag_of(*level, bytes[0]),
        Want::LeafCount => entries_of(LEAF_LIMIT, bytes[0]),
        Want::InnerCount => entries_of(INNER_LIMIT, bytes[0]),
        Want::Rect => rect_of(bytes),
        Want::Layer => only_if(
            bytes[0] <= LAYER_LIMIT,
            Field::Num(u64::from(bytes[0])),
            Rule::BadLayer,
        ),
        Want::Length => only_if(
            usize::from(bytes[0]) <= PAYLOAD_LIMIT,
            Field::Num(u64::from(bytes[0])),
            Rule::BadLength,
        ),
        Want::Payload(_) => payload_of(bytes),
        Want::Tally => tally_of(u64_of_bytes(bytes)),
        Want::Digest => digest_of(bytes),
    }
}

/// The value of a field's bytes, or the rule that they break. It is a value that the field may have
/// and of which these are the bytes; and from the bytes of any such value that value is read.
pub fn read_field(want: &Want, bytes: &[u8]) -> Result<Field, Rule>
    requires size { length bytes.now ≡ size_of want.now }
    requires payload { FitsPayload want.now }
    ensures exact { result ≡ field_of want.now bytes.now }
    ensures form { IfOk result (HasForm want.now) }
    ensures written { IfOk result (λ f. bytes.now ≡ field_bytes want.now f) }
    ensures read { (f : types.Field) → IsField f → HasForm want.now f →
        bytes.now ≡ field_bytes want.now f → result ≡ Ok f }
{
    value_of(want, bytes)
}

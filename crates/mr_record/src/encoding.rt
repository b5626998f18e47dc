//! One record as bytes: number (8), rectangle (16), in version 2 the layer (1), payload length (1),
//! payload.

ghost use Rattle.std.specs.Prelude.{◌≡◌, ℕ, ◌+◌, ◌<◌, ◌≤◌, ◌++◌, ◌∷◌, [], List, length, drop, OnOk, IfOk, MatchResult};
ghost use Rattle.mr_outside.specs.Causes.{SinkCauses};
ghost use Rattle.mr_outside.specs.Told.{TakesBytes, TakesFront};
ghost use Rattle.mr_record.specs.Record.{IsRecord, HasLayer, layer_bytes, record_bytes, payload_limit};
ghost use Rattle.mr_record.specs.RecordField.{field_at, rectangle_at, layer_at, length_place, payload_behind, payload_at, record_in};
ghost use Rattle.mr_record.specs.declared.version.Version.TheVariants.{One, Two};
ghost use Rattle.mr_record.specs.declared.record.Record as types;

use crate::{
    LAYER_LIMIT, PAYLOAD_LIMIT, Payload, Record, RecordFault, RecordRule, Version, is_record,
    rect_bytes, rect_of_bytes, u64_of_bytes,
};
use mr_geom::Rect;
use mr_outside::{Buffer, Sink, SinkErr, write_all};

/// The most bytes of a record.
pub const RECORD_LIMIT: usize = 226;

// The bytes of a field.
fn field(bytes: &[u8], at: usize, len: usize) -> Result<&[u8], RecordFault>
    requires { at + len ≤ 226 }
    ensures exact { MatchResult result (λ raw. field_at bytes.now at len ≡ Ok raw.now)
        (λ e. field_at bytes.now at len ≡ Err e) }
    ensures sized { IfOk result (λ raw. length raw.now ≡ len) }
{
    if at + len <= bytes.len() {
        Ok(&bytes[at..at + len])
    } else {
        Err(RecordFault {
            rule: RecordRule::Short,
            at,
        })
    }
}

#[tactic(auto, unfolding(crate::specs::RecordField::rectangle_at))]
fn read_rect(bytes: &[u8]) -> Result<Rect, RecordFault>
    ensures { result ≡ rectangle_at bytes.now }
{
    let raw = field(bytes, 8, 16)?;
    rect_of_bytes(raw).ok_or(RecordFault {
        rule: RecordRule::BadRect,
        at: 8,
    })
}

// Where the payload's length stands.
fn length_at(version: Version) -> usize
    ensures { result ≡ length_place version }
{
    match version {
        Version::One => 24,
        Version::Two => 25,
    }
}

#[tactic(auto, unfolding(crate::specs::RecordField::layer_at))]
fn read_layer(version: Version, bytes: &[u8]) -> Result<u8, RecordFault>
    ensures { result ≡ layer_at version bytes.now }
{
    match version {
        Version::One => Ok(0),
        Version::Two => {
            let raw = field(bytes, 24, 1)?;
            if raw[0] > LAYER_LIMIT {
                return Err(RecordFault {
                    rule: RecordRule::BadLayer,
                    at: 24,
                });
            }
            Ok(raw[0])
        }
    }
}

fn read_payload_behind(version: Version, bytes: &[u8], len: u8) -> Result<&[u8], RecordFault>
    ensures exact { MatchResult result (λ raw. payload_behind version bytes.now len ≡ Ok raw.now)
        (λ e. payload_behind version bytes.now len ≡ Err e) }
    ensures within { IfOk result (λ raw. length raw.now ≤ payload_limit) }
{
    let at = length_at(version);
    if usize::from(len) > PAYLOAD_LIMIT {
        return Err(RecordFault {
            rule: RecordRule::BadLength,
            at,
        });
    }
    field(bytes, at + 1, usize::from(len))
}

// The bytes of the payload, which are taken into a record once.
#[tactic(auto, unfolding(crate::specs::RecordField::payload_at))]
fn read_payload(version: Version, bytes: &[u8]) -> Result<&[u8], RecordFault>
    ensures exact { MatchResult result (λ raw. payload_at version bytes.now ≡ Ok raw.now)
        (λ e. payload_at version bytes.now ≡ Err e) }
    ensures within { IfOk result (λ raw. length raw.now ≤ payload_limit) }
{
    let raw = field(bytes, length_at(version), 1)?;
    read_payload_behind(version, bytes, raw[0])
}

#[tactic(auto, unfolding(crate::specs::RecordField::record_in))]
fn read_fields(version: Version, bytes: &[u8]) -> Result<(Record, usize), RecordFault>
    ensures { result ≡ record_in version bytes.now }
{
    let number = field(bytes, 0, 8)?;
    let rect = read_rect(bytes)?;
    let layer = read_layer(version, bytes)?;
    let raw = read_payload(version, bytes)?;
    match Payload::new(raw) {
        Some(payload) => {
            let record = Record {
                number: u64_of_bytes(number),
                rect,
                layer,
                payload,
            };
            Ok((record, length_at(version) + 1 + raw.len()))
        }
        None => unreachable!(),
    }
}

/// Reads the record of this version at the front of the bytes, and answers it and how many bytes it
/// takes, 25 to 226. A refusal names the first field, in reading order, that is cut off or breaks a
/// rule.
pub fn read_record_of(version: Version, bytes: &[u8]) -> Result<(Record, usize), RecordFault>
    ensures exact { result ≡ record_in version bytes.now }
    ensures written { IfOk result (λ p. IsRecord p.0 × HasLayer version p.0
        × (bytes.now ≡ record_bytes version p.0 ++ drop p.1 bytes.now)) }
    ensures sized { IfOk result (λ p. p.1 ≡ length (record_bytes version p.0)) }
    ensures read { (r : types.Record) (rest : List ℕ) → IsRecord r → HasLayer version r →
        bytes.now ≡ record_bytes version r ++ rest
        → result ≡ Ok (r, length (record_bytes version r)) }
{
    read_fields(version, bytes)
}

/// `read_record_of` version 1: each record has layer 0.
pub fn read_record(bytes: &[u8]) -> Result<(Record, usize), RecordFault>
    ensures exact { result ≡ record_in One bytes.now }
    ensures written { IfOk result (λ p. IsRecord p.0 × HasLayer One p.0
        × (bytes.now ≡ record_bytes One p.0 ++ drop p.1 bytes.now)) }
    ensures sized { IfOk result (λ p. p.1 ≡ length (record_bytes One p.0)) }
    ensures read { (r : types.Record) (rest : List ℕ) → IsRecord r → HasLayer One r →
        bytes.now ≡ record_bytes One r ++ rest → result ≡ Ok (r, length (record_bytes One r)) }
{
    read_record_of(Version::One, bytes)
}

/// `read_record_of` version 2.
pub fn read_record2(bytes: &[u8]) -> Result<(Record, usize), RecordFault>
    ensures exact { result ≡ record_in Two bytes.now }
    ensures written { IfOk result (λ p. IsRecord p.0 × HasLayer Two p.0
        × (bytes.now ≡ record_bytes Two p.0 ++ drop p.1 bytes.now)) }
    ensures sized { IfOk result (λ p. p.1 ≡ length (record_bytes Two p.0)) }
    ensures read { (r : types.Record) (rest : List ℕ) → IsRecord r → HasLayer Two r →
        bytes.now ≡ record_bytes Two r ++ rest → result ≡ Ok (r, length (record_bytes Two r)) }
{
    read_record_of(Version::Two, bytes)
}

// Puts a layer; in version 1 nothing.
fn put_layer(bytes: &mut Buffer<RECORD_LIMIT>, version: Version, layer: u8)
    requires { length bytes.old < 100 }
    ensures put { bytes.new ≡ bytes.old ++ layer_bytes version layer }
    ensures within { length bytes.new ≤ length bytes.old + 1 }
{
    match version {
        Version::One => {}
        Version::Two => bytes.put(&[layer]),
    }
}

/// The bytes of the record in this version, as `read_record_of` reads them. Whatever takes records
/// takes these.
pub fn encoded(version: Version, one: &Record) -> Buffer<RECORD_LIMIT>
    requires { HasLayer Two one.now }
    ensures record { IsRecord one.now }
    ensures bytes { result ≡ record_bytes version one.now }
{
    is_record(one);
    let payload = one.payload.bytes();
    let mut bytes = Buffer::new();
    bytes.put(&one.number.to_be_bytes());
    bytes.put(&rect_bytes(&one.rect));
    put_layer(&mut bytes, version, one.layer);
    bytes.put(&[payload.len() as u8]);
    bytes.put(payload);
    bytes
}

/// Writes the bytes of the record in this version, as `read_record_of` reads them. After a refusal
/// some front of them was taken.
pub fn write_record_of<W: Sink>(out: &mut W, version: Version, one: &Record) -> Result<(), SinkErr>
    requires { HasLayer version one.now }
    ensures record { IsRecord one.now }
    ensures whole { OnOk result
        (TakesBytes (W.state out.old) (W.state out.new) (record_bytes version one.now)) }
    ensures front { TakesFront (W.state out.old) (W.state out.new) (record_bytes version one.now) }
    ensures causes { SinkCauses (W.state out.old) (W.state out.new) result }
{
    let bytes = encoded(version, one);
    write_all(out, bytes.as_slice())
}

/// `write_record_of` version 1.
pub fn write_record<W: Sink>(out: &mut W, one: &Record) -> Result<(), SinkErr>
    requires { HasLayer One one.now }
    ensures record { IsRecord one.now }
    ensures whole { OnOk result
        (TakesBytes (W.state out.old) (W.state out.new) (record_bytes One one.now)) }
    ensures front { TakesFront (W.state out.old) (W.state out.new) (record_bytes One one.now) }
    ensures causes { SinkCauses (W.state out.old) (W.state out.new) result }
{
    write_record_of(out, Version::One, one)
}

/// `write_record_of` version 2.
pub fn write_record2<W: Sink>(out: &mut W, one: &Record) -> Result<(), SinkErr>
    requires { HasLayer Two one.now }
    ensures record { IsRecord one.now }
    ensures whole { OnOk result
        (TakesBytes (W.state out.old) (W.state out.new) (record_bytes Two one.now)) }
    ensures front { TakesFront (W.state out.old) (W.state out.new) (record_bytes Two one.now) }
    ensures causes { SinkCauses (W.state out.old) (W.state out.new) result }
{
    write_record_of(out, Version::Two, one)
}

//! The leaves of a proof: what is said of their records.

ghost use Rattle.std.specs.Prelude.{◌≡◌, ◌≤◌, ◌^◌, ◌++◌, ℕ, List, All, length};
ghost use Rattle.std.specs.List.{flat_map};
ghost use Rattle.mr_record.specs.Record.{IsRecord, HasLayer, record_bytes, layer_bytes};
ghost use Rattle.mr_record.specs.Version.{highest_layer, told};
ghost use Rattle.mr_record.specs.declared.record.Record as types;
ghost use Rattle.mr_proof.specs.Cut.{Leaf};
ghost use Rattle.mr_proof.specs.Spelling.{FitsCut, cut_bytes};
ghost use Rattle.mr_clash.specs.private.Steps.{left, record_summary, leaf_summary};

use crate::rest::{Rest, byte, rect, take};
use crate::summary::Summary;
use mr_geom::joined;
use mr_record::Version;
use mr_tree::as_told;

// The bit of a layer; none where a record has no such layer.
fn layer_bit(layer: u8) -> u64
    ensures { layer ≤ 63 → result ≡ 2 ^ layer }
{
    if layer > 63 {
        return 0;
    }
    1 << layer
}

// Passes over the layer that stands next, and gives its bit. Version 1 spells none.
fn pass_layer(version: Version, from: &mut Rest<'_>) -> u64
    ensures { (layer : ℕ) (rest : List ℕ) → layer ≤ highest_layer version
        → left from.old ≡ layer_bytes version layer ++ rest
        → (result ≡ told version (2 ^ layer)) × (left from.new ≡ rest) }
{
    match version {
        Version::One => 0,
        Version::Two => layer_bit(byte(from)),
    }
}

// Passes over the record that stands next, and gives what is said of it.
fn pass_record(version: Version, from: &mut Rest<'_>) -> Summary
    ensures { (r : types.Record) (rest : List ℕ) → IsRecord r → HasLayer version r
        → left from.old ≡ record_bytes version r ++ rest
        → (result ≡ record_summary version r) × (left from.new ≡ rest) }
{
    let _number = take(from, 8);
    let rect = rect(from);
    let mask = pass_layer(version, from);
    let size = byte(from);
    let _payload = take(from, usize::from(size));
    Summary {
        rect,
        mask,
        count: as_told(version, 1),
    }
}

// Passes over so many records, and gives what a leaf says of them.
fn pass_records(version: Version, count: u8, from: &mut Rest<'_>) -> Summary
    ensures { (rs : List types.Record) (rest : List ℕ) → length rs ≡ count → All IsRecord rs
        → All (HasLayer version) rs → left from.old ≡ flat_map (record_bytes version) rs ++ rest
        → (result ≡ leaf_summary version rs) × (left from.new ≡ rest) }
{
    let mut rect = None;
    let mut mask = 0;
    for _ in 0..count {
        let one = pass_record(version, from);
        rect = joined(rect, one.rect);
        mask |= one.mask;
    }
    Summary {
        rect,
        mask,
        count: as_told(version, u64::from(count)),
    }
}

// Passes over the leaf that stands next, and gives what it says of its records.
pub(crate) fn leaf_summary(version: Version, from: &mut Rest<'_>) -> Summary
    ensures { (rs : List types.Record) (rest : List ℕ) → FitsCut version 0 (Leaf rs)
        → left from.old ≡ cut_bytes version (Leaf rs) ++ rest
        → (result ≡ leaf_summary version rs) × (left from.new ≡ rest) }
{
    let _tag = byte(from);
    let count = byte(from);
    pass_records(version, count, from)
}

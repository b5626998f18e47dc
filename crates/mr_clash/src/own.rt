//! What a proof shows as the map holds it.

ghost use Rattle.std.specs.Prelude.{◌≡◌, ◌≤◌, ◌++◌, true, false, length, map, All, Some};
ghost use Rattle.std.specs.List.{flat_map};
ghost use Rattle.mr_record.specs.Record.{HasLayer, record_bytes};
ghost use Rattle.mr_record.specs.declared.version.Version.TheVariants.{Two};
ghost use Rattle.mr_tree.specs.View.{child_entry};
ghost use Rattle.mr_proof.specs.Cut.{Leaf};
ghost use Rattle.mr_proof.specs.Spelling.{cut_bytes};
ghost use Rattle.mr_clash.specs.private.Steps.{left};
ghost use Rattle.mr_tree.specs.Limits.{leaf_limit};

use crate::finding::are_same;
use crate::rest::Rest;
use mr_geom::Rect;
use mr_record::{Record, Version, encoded};
use mr_tree::{Child, Entry};

// Passes over these bytes, and tells whether they stood there.
fn pass_bytes(bytes: &[u8], from: &mut Rest<'_>) -> bool
    ensures { result ≡ true → left from.old ≡ bytes.now ++ left from.new }
{
    if from.bytes.len() < bytes.len() {
        return false;
    }
    let (front, rest) = from.bytes.split_at(bytes.len());
    from.bytes = rest;
    are_same(front, bytes)
}

// Passes over this record, and tells whether it stood there.
fn pass_own_record(version: Version, one: &Record, from: &mut Rest<'_>) -> bool
    requires { HasLayer Two one.now }
    ensures { result ≡ true → left from.old ≡ record_bytes version one.now ++ left from.new }
{
    pass_bytes(encoded(version, one).as_slice(), from)
}

// Passes over these records, and tells whether they stood there.
fn pass_own_records(version: Version, records: &[Record], from: &mut Rest<'_>) -> bool
    requires { All (HasLayer Two) records.now }
    ensures { result ≡ true
        → left from.old ≡ flat_map (record_bytes version) records.now ++ left from.new }
{
    for one in records {
        if !pass_own_record(version, one, from) {
            return false;
        }
    }
    true
}

// Passes over the leaf with these records where it stands next, and else over nothing.
pub(crate) fn pass_own_leaf(version: Version, records: &[Record], from: &mut Rest<'_>) -> bool
    requires few { length records.now ≤ leaf_limit }
    requires layers { All (HasLayer Two) records.now }
    ensures own { result ≡ true
        → left from.old ≡ cut_bytes version (Leaf records.now) ++ left from.new }
    ensures other { result ≡ false → left from.new ≡ left from.old }
{
    let mut ahead = *from;
    if !pass_bytes(&[b'L', records.len() as u8], &mut ahead) {
        return false;
    }
    if !pass_own_records(version, records, &mut ahead) {
        return false;
    }
    *from = ahead;
    true
}

fn is_rect(rect: &Rect, shown: Option<Rect>) -> bool
    ensures { result ≡ true → shown ≡ Some rect.now }
{
    match shown {
        Some(shown) => shown == *rect,
        None => false,
    }
}

// Whether this is what the map holds of the child.
fn is_own(child: &Child, shown: &Entry) -> bool
    ensures { result ≡ true → shown.now ≡ child_entry child.now }
{
    if shown.level != child.level {
        return false;
    }
    if !is_rect(&child.rect, shown.rect) {
        return false;
    }
    if shown.mask != child.mask {
        return false;
    }
    if shown.count != child.count {
        return false;
    }
    are_same(&shown.digest, &child.digest)
}

// Whether this is what the map holds of the children.
pub(crate) fn are_own(children: &[Child], shown: &[Entry]) -> bool
    ensures { result ≡ true → shown.now ≡ map child_entry children.now }
{
    let mut rest = shown;
    for child in children {
        match rest.split_first() {
            None => return false,
            Some((first, others)) => {
                if !is_own(child, first) {
                    return false;
                }
                rest = others;
            }
        }
    }
    rest.is_empty()
}

//! Rectangles, records, directories and trees that tests begin with.

ghost use Rattle.std.specs.Prelude.{◌≡◌, ◌≢◌, ◌≤◌, ◌^◌, true, length, All, IfSome, AllPairs};
ghost use Rattle.mr_record.specs.Record.{HasLayer};
ghost use Rattle.mr_record.specs.declared.record.Record as types;
ghost use Rattle.mr_record.specs.declared.version.Version.TheVariants.{One, Two};
ghost use Rattle.mr_tree.specs.WellFormed.{WellFormed, HasLayers};

use mr_batch::Directory;
use mr_geom::Rect;
use mr_pack::pack;
use mr_record::{LAYER_LIMIT, Payload, Record, Version, read_line, read_lines};
use mr_tree::{Tree, records_of as list_of};
use std::alloc::Global;

/// The sides of a rectangle: left, bottom, right, top.
pub type Corners = (i32, i32, i32, i32);

/// The rectangle with these sides, none where they are out of order.
pub fn rect((x0, y0, x1, y1): Corners) -> Option<Rect> {
    Rect::new(x0, y0, x1, y1)
}

/// A digest of 31 zero bytes and this last one.
pub fn digest(last: u8) -> [u8; 32] {
    let mut digest = [0; 32];
    digest[31] = last;
    digest
}

/// A record without a payload, of layer 0.
pub fn record_at(number: u64, corners: Corners) -> Option<Record> {
    Some(Record {
        number,
        rect: rect(corners)?,
        layer: 0,
        payload: Payload::new(&[])?,
    })
}

/// Whether each of these records is of layer 0, as those of version 1 are.
pub fn are_first(list: &[Record]) -> bool
    ensures first { result ≡ true → All (HasLayer One) list.now }
    ensures second { result ≡ true → All (HasLayer Two) list.now }
{
    list.iter().all(|one| one.layer == 0)
}

/// Whether each of these records has a layer that there is in version 2.
pub fn are_second(list: &[Record]) -> bool
    ensures { result ≡ true → All (HasLayer Two) list.now }
{
    list.iter().all(|one| one.layer <= LAYER_LIMIT)
}

/// Whether each of these records has a layer of this version.
pub fn are_of(version: Version, list: &[Record]) -> bool
    ensures { result ≡ true → All (HasLayer version) list.now }
{
    match version {
        Version::One => are_first(list),
        Version::Two => are_second(list),
    }
}

/// Whether a tree is known to be one of version 1.
pub fn is_first(alloc: Global, tree: &Tree) -> bool
    ensures { result ≡ true → HasLayers One tree.now }
{
    match list_of(alloc, tree) {
        Ok(list) => are_first(&list),
        Err(_) => false,
    }
}

/// The record that a line spells, none where it breaks a rule.
pub fn record_of(line: &str) -> Option<Record>
    ensures first { IfSome result (HasLayer One) }
    ensures second { IfSome result (HasLayer Two) }
{
    match read_line(line.as_bytes()) {
        Ok(record) => Some(record),
        Err(_) => None,
    }
}

/// The records that a text spells, none where it breaks a rule or there is no memory.
pub fn records_of(alloc: Global, text: &str) -> Option<Vec<Record>>
    ensures apart { IfSome result (λ v.
        AllPairs (λ (a b : types.Record). a.number ≢ b.number) v.items) }
{
    match read_lines(alloc, text.as_bytes()) {
        Ok(records) => Some(records),
        Err(_) => None,
    }
}

/// The directory of some records, none where there is no memory.
pub fn directory_of(alloc: Global, list: &[Record]) -> Option<Directory>
    requires { AllPairs (λ (a b : types.Record). a.number ≢ b.number) list.now }
{
    match Directory::of(alloc, list) {
        Ok(directory) => Some(directory),
        Err(_) => None,
    }
}

// The tree of some records of layer 0.
fn packed(alloc: Global, list: Vec<Record>) -> Option<Tree>
    requires few { length list.items ≤ 2 ^ 20 }
    requires first { All (HasLayer One) list.items }
    requires second { All (HasLayer Two) list.items }
    ensures well_formed { IfSome result WellFormed }
    ensures first { IfSome result (HasLayers One) }
    ensures second { IfSome result (HasLayers Two) }
{
    match pack(alloc, list) {
        Ok(tree) => Some(tree),
        Err(_) => None,
    }
}

/// The tree of some records of layer 0, none where there are too many, a number stands twice or
/// there is no memory.
pub fn tree_of(alloc: Global, list: Vec<Record>) -> Option<Tree>
    ensures well_formed { IfSome result WellFormed }
    ensures first { IfSome result (HasLayers One) }
    ensures second { IfSome result (HasLayers Two) }
{
    if list.len() > 1 << 20 {
        return None;
    }
    if !are_first(&list) {
        return None;
    }
    packed(alloc, list)
}

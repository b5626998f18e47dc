//! The strings that digests are of.

ghost use Rattle.std.specs.Prelude.{◌≡◌, ◌≤◌, ◌<◌, ◌^◌, ◌∷◌, ◌++◌, length, map, All, IfOk, OnOk};
ghost use Rattle.std.specs.List.{flat_map};
ghost use Rattle.mr_record.specs.Record.{HasLayer, record_bytes};
ghost use Rattle.mr_record.specs.declared.version.Version.TheVariants.{Two};
ghost use Rattle.mr_tree.specs.Digest.{leaf_tag, entry_bytes};
ghost use Rattle.mr_tree.specs.View.{child_entry, preimage_of};
ghost use Rattle.mr_clash.specs.private.Steps.{string_over};
ghost use Rattle.mr_tree.specs.Limits.{leaf_limit};

use mr_record::{RECORD_LIMIT, Record, Version, encoded};
use mr_tree::{Child, ENTRY_LIMIT, Entry, NodeView};
use std::alloc::{AllocError, Global};

// What a node holds of its children.
fn entries_of(alloc: Global, children: &[Child]) -> Result<Vec<Entry>, AllocError>
    ensures { IfOk result (λ v. v.items ≡ map child_entry children.now) }
{
    children.iter().map(|child| child.entry()).collect(alloc)
}

// Puts what a node holds of a child.
fn put_entry(string: &mut Vec<u8>, version: Version, child: &Entry) -> Result<(), AllocError>
    ensures { OnOk result (string.new.items ≡ string.old.items ++ entry_bytes version child.now) }
{
    let bytes = child.encoded(version);
    string.extend_from_slice(bytes.as_slice())
}

// The string of the inner node of this level with these children.
pub(crate) fn inner_string(
    alloc: Global,
    version: Version,
    level: u8,
    children: &[Entry],
) -> Result<Vec<u8>, AllocError>
    requires { length children.now < 2 ^ 8 }
    ensures { IfOk result (λ v. v.items ≡ string_over version level children.now) }
{
    let mut string = Vec::with_capacity(alloc, 3 + children.len() * ENTRY_LIMIT)?;
    string.extend_from_slice(&[b'N', level, children.len() as u8])?;
    for child in children {
        put_entry(&mut string, version, child)?;
    }
    Ok(string)
}

// Puts the bytes of a record.
fn put_record(string: &mut Vec<u8>, version: Version, one: &Record) -> Result<(), AllocError>
    requires { HasLayer Two one.now }
    ensures { OnOk result (string.new.items ≡ string.old.items ++ record_bytes version one.now) }
{
    let bytes = encoded(version, one);
    string.extend_from_slice(bytes.as_slice())
}

// The string of the leaf with these records.
fn leaf_string(alloc: Global, version: Version, records: &[Record]) -> Result<Vec<u8>, AllocError>
    requires few { length records.now ≤ leaf_limit }
    requires layers { All (HasLayer Two) records.now }
    ensures { IfOk result (λ v. v.items ≡ leaf_tag ∷ length records.now
        ∷ flat_map (record_bytes version) records.now) }
{
    let mut string = Vec::with_capacity(alloc, 2 + records.len() * RECORD_LIMIT)?;
    string.extend_from_slice(&[b'L', records.len() as u8])?;
    for one in records {
        put_record(&mut string, version, one)?;
    }
    Ok(string)
}

// The string of a node of a map of this version.
pub(crate) fn owned_string(
    alloc: Global,
    version: Version,
    view: &NodeView,
) -> Result<Vec<u8>, AllocError>
    ensures { IfOk result (λ v. v.items ≡ preimage_of version view.now) }
{
    if view.level() == 0 {
        leaf_string(alloc, version, view.records())
    } else {
        let children = entries_of(alloc, view.children())?;
        inner_string(alloc, version, view.level(), &children)
    }
}

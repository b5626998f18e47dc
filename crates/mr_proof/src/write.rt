//! The writers of a proof's pieces, each with one write to the sink.

ghost use Rattle.std.specs.Prelude.{◌≡◌, ◌+◌, ◌*◌, ◌<◌, ◌≤◌, ◌++◌, length, All, OnOk};
ghost use Rattle.std.specs.List.{flat_map};
ghost use Rattle.mr_outside.specs.Causes.{SinkCauses};
ghost use Rattle.mr_outside.specs.Told.{TakesBytes, TakesFront};
ghost use Rattle.mr_record.specs.Record.{HasLayer, record_bytes};
ghost use Rattle.mr_record.specs.declared.version.Version.TheVariants.{Two};
ghost use Rattle.mr_tree.specs.View.{child_entry};
ghost use Rattle.mr_proof.specs.Limits.{count_limit, level_limit};
ghost use Rattle.mr_proof.specs.Cut.{Leaf, pruned_cut};
ghost use Rattle.mr_proof.specs.Spelling.{cut_bytes, radius_bytes, level_bytes, head_bytes, FitsVersion, FitsRadius};
ghost use Rattle.mr_proof.specs.Items.{item_bytes, FitsItem};
ghost use Rattle.mr_tree.specs.Limits.{leaf_limit};

use crate::field::kind_byte;
use crate::{Head, Item, Kind};
use mr_outside::{Buffer, Sink, SinkErr, write_all};
use mr_record::{RECORD_LIMIT, Record, Version, encoded};
use mr_tree::{Child, ENTRY_LIMIT};

// ---- the head

// The most bytes of a head: the magic, version, kind, batch, count, flag, squared radius and level.
const HEAD_LIMIT: usize = 40;

fn put_radius(bytes: &mut Buffer<HEAD_LIMIT>, kind: Kind, radius: Option<u128>)
    requires room { length bytes.old ≤ 22 }
    requires radius { FitsRadius kind radius }
    ensures value { bytes.new ≡ bytes.old ++ radius_bytes kind radius }
    ensures short { length bytes.new ≤ 39 }
{
    match kind {
        Kind::W | Kind::Choice(_) => {}
        Kind::K => match radius {
            None => bytes.put(&[0]),
            Some(radius) => {
                bytes.put(&[1]);
                bytes.put(&radius.to_be_bytes());
            }
        },
    }
}

fn put_level(bytes: &mut Buffer<HEAD_LIMIT>, count: u64, level: u8)
    requires { length bytes.old ≤ 39 }
    ensures { bytes.new ≡ bytes.old ++ level_bytes count level }
{
    if count > 0 {
        bytes.put(&[level]);
    }
}

fn head_of(head: &Head) -> Buffer<HEAD_LIMIT>
    requires { FitsRadius head.now.kind head.now.radius }
    ensures { result ≡ head_bytes head.now }
{
    let mut bytes = Buffer::new();
    bytes.put(b"MRVO");
    bytes.put(&[head.version.byte(), kind_byte(head.kind)]);
    bytes.put(&head.batch.to_be_bytes());
    bytes.put(&head.count.to_be_bytes());
    put_radius(&mut bytes, head.kind, head.radius);
    put_level(&mut bytes, head.count, head.level);
    bytes
}

/// Writes what a proof says before its items. A window's proof has no radius, and a choice's is of
/// version 2. After a refusal some
/// front of the bytes was taken.
pub fn write_head<W: Sink>(out: &mut W, head: &Head) -> Result<(), SinkErr>
    requires version { FitsVersion head.now.kind head.now.version }
    requires radius { FitsRadius head.now.kind head.now.radius }
    requires count { head.now.count ≤ count_limit }
    requires level { head.now.level ≤ level_limit }
    ensures whole { OnOk result (TakesBytes (W.state out.old) (W.state out.new)
        (head_bytes head.now)) }
    ensures front { TakesFront (W.state out.old) (W.state out.new) (head_bytes head.now) }
    ensures causes { SinkCauses (W.state out.old) (W.state out.new) result }
{
    let bytes = head_of(head);
    write_all(out, bytes.as_slice())
}

// ---- items

// The bytes of a pruned part: a tag and the entry.
const PRUNED_LIMIT: usize = 1 + ENTRY_LIMIT;

// The most bytes of a leaf: a tag, a count and 16 records.
const LEAF_BYTES: usize = 2 + 16 * RECORD_LIMIT;

fn pruned(version: Version, child: &Child) -> Buffer<PRUNED_LIMIT>
    ensures { result ≡ cut_bytes version (pruned_cut (child_entry child.now)) }
{
    let mut bytes = Buffer::new();
    bytes.put(b"P");
    let entry = child.entry().encoded(version);
    bytes.put(entry.as_slice());
    bytes
}

fn put_records(version: Version, bytes: &mut Buffer<LEAF_BYTES>, records: &[Record])
    requires room { length bytes.old + 226 * length records.now ≤ 3618 }
    requires layers { All (HasLayer Two) records.now }
    ensures { bytes.new ≡ bytes.old ++ flat_map (record_bytes version) records.now }
{
    for one in records {
        let record = encoded(version, one);
        bytes.put(record.as_slice());
    }
}

fn leaf(version: Version, records: &[Record]) -> Buffer<LEAF_BYTES>
    requires few { length records.now ≤ leaf_limit }
    requires layers { All (HasLayer Two) records.now }
    ensures { result ≡ cut_bytes version (Leaf records.now) }
{
    let mut bytes = Buffer::new();
    bytes.put(&[b'L', records.len() as u8]);
    put_records(version, &mut bytes, records);
    bytes
}

/// Writes one item of a proof of this version. A pruned part or a leaf is written whole, and of an
/// inner node the tag and the number of its children, from 1 to 64, whose items are to be written
/// next. A leaf has at least one record, whose layers are not written in version 1; in version 2 a
/// pruned part has 1 to 2^20 records. After a refusal some front of the bytes was taken.
pub fn write_item<W: Sink>(out: &mut W, version: Version, item: &Item) -> Result<(), SinkErr>
    requires { FitsItem version item.now }
    ensures whole { OnOk result (TakesBytes (W.state out.old) (W.state out.new)
        (item_bytes version item.now)) }
    ensures front { TakesFront (W.state out.old) (W.state out.new) (item_bytes version item.now) }
    ensures causes { SinkCauses (W.state out.old) (W.state out.new) result }
{
    match item {
        Item::Pruned(child) => write_all(out, pruned(version, child).as_slice()),
        Item::Leaf(view) => write_all(out, leaf(version, view.records()).as_slice()),
        Item::Inner(count) => write_all(out, &[b'N', *count]),
    }
}

//! The command `list`.

ghost use Rattle.std.specs.Prelude.{◌≡◌, ◌++◌, map, All, IfOk, OnOk};
ghost use Rattle.mr_record.specs.Record.{HasLayer};
ghost use Rattle.mr_record.specs.Sorting.{sorted_by_key};
ghost use Rattle.mr_outside.specs.Causes.{SinkCauses};
ghost use Rattle.mr_outside.specs.Told.{TakesBytes, TakesFront};
ghost use Rattle.mr_record.specs.RecordText.{text_of};
ghost use Rattle.mr_query.specs.Scan.{by_number};
ghost use Rattle.mr_tree.specs.Tree.{records};
ghost use Rattle.mr_tree.specs.WellFormed.{HasLayers};
ghost use Rattle.mr_command.specs.Ending.{RunsPlan};
ghost use Rattle.mr_command.specs.private.Listing.{items_of, numbered_values, numbered as numbered_record};
ghost use Rattle.mr_plan.specs.Say.{say_list};

use crate::ending::{Ending, Halt};
use crate::opening::open_map;
use mr_outside::{Shelf, Sink, SinkErr};
use mr_plan::Status;
use mr_record::{Record, Version, write_lines};
use mr_tree::{Hash32, Tree};
use std::alloc::{AllocError, Global};

// A record with its number beside it: a sort moves this, and not the record.
#[derive(Clone, Copy)]
pub(crate) struct Numbered<'a> {
    number: u64,
    item: &'a Record,
}

// Adds some records, each with its number.
fn add_records<'a>(list: &'a [Record], entries: &mut Vec<Numbered<'a>>) -> Result<(), AllocError>
    ensures { OnOk result (map numbered_values entries.new.items
        ≡ map numbered_values entries.old.items ++ map numbered_record list.now) }
{
    for record in list {
        entries.push(Numbered {
            number: record.number,
            item: record,
        })?;
    }
    Ok(())
}

// Adds the records of a tree, left to right.
fn add_tree<'a>(tree: &'a Tree, entries: &mut Vec<Numbered<'a>>) -> Result<(), AllocError>
    ensures { OnOk result (map numbered_values entries.new.items
        ≡ map numbered_values entries.old.items ++ map numbered_record (records tree.now)) }
{
    match tree {
        Tree::Empty => Ok(()),
        Tree::Leaf(records) => add_records(records.as_slice(), entries),
        Tree::Inner(children) => {
            for child in children.as_slice() {
                add_tree(child, entries)?;
            }
            Ok(())
        }
    }
}

// The records of a tree, each with its number.
fn entries_of(alloc: Global, tree: &Tree) -> Result<Vec<Numbered<'_>>, AllocError>
    ensures { IfOk result (λ v. map numbered_values v.items ≡ map numbered_record
        (records tree.now)) }
{
    let mut entries = Vec::new(alloc);
    add_tree(tree, &mut entries)?;
    Ok(entries)
}

// In rising number; equal ones keep their order.
fn sort(entries: &mut Vec<Numbered<'_>>) -> Result<(), AllocError>
    ensures { OnOk result (entries.new.items ≡ sorted_by_key (λ e. e.number) entries.old.items) }
{
    entries.sort_by_key(|entry| entry.number)?;
    Ok(())
}

// Copies of the records.
fn copies(alloc: Global, entries: &[Numbered<'_>]) -> Result<Vec<Record>, AllocError>
    ensures { IfOk result (λ v. v.items ≡ items_of entries.now) }
{
    entries.iter().map(|entry| *entry.item).collect(alloc)
}

// Writes a line of this version for each of these records, which are copied at once.
fn write_some<W: Sink>(
    alloc: Global,
    out: &mut W,
    version: Version,
    entries: &[Numbered<'_>],
) -> Result<(), SinkErr>
    requires { All (HasLayer version) (items_of entries.now) }
    ensures whole { OnOk result
        (TakesBytes (W.state out.old) (W.state out.new) (text_of version (items_of entries.now))) }
    ensures front { TakesFront (W.state out.old) (W.state out.new)
        (text_of version (items_of entries.now)) }
    ensures causes { SinkCauses (W.state out.old) (W.state out.new) result }
{
    let list = copies(alloc, entries)?;
    write_lines(out, version, &list)
}

// How many records are copied at once.
const COPIED: usize = 32_768;

// Writes a line of this version for each of these records.
fn write_entries<W: Sink>(
    alloc: Global,
    out: &mut W,
    version: Version,
    entries: &[Numbered<'_>],
) -> Result<(), SinkErr>
    requires { All (HasLayer version) (items_of entries.now) }
    ensures whole { OnOk result
        (TakesBytes (W.state out.old) (W.state out.new) (text_of version (items_of entries.now))) }
    ensures front { TakesFront (W.state out.old) (W.state out.new)
        (text_of version (items_of entries.now)) }
    ensures causes { SinkCauses (W.state out.old) (W.state out.new) result }
{
    if entries.len() <= COPIED {
        return write_some(alloc, out, version, entries);
    }
    let (some, others) = entries.split_at(COPIED);
    write_some(alloc, out, version, some)?;
    write_entries(alloc, out, version, others)
}

/// Writes a line of this version for each record of a tree, in rising number. Numbers are sorted
/// with references; records are copied 32,768 at a time.
pub fn write_tree<W: Sink>(
    alloc: Global,
    out: &mut W,
    version: Version,
    tree: &Tree,
) -> Result<(), SinkErr>
    requires { HasLayers version tree.now }
    ensures whole { OnOk result (TakesBytes (W.state out.old) (W.state out.new)
        (text_of version (by_number (records tree.now)))) }
    ensures front { TakesFront (W.state out.old) (W.state out.new)
        (text_of version (by_number (records tree.now))) }
    ensures causes { SinkCauses (W.state out.old) (W.state out.new) result }
{
    let mut entries = entries_of(alloc, tree)?;
    sort(&mut entries)?;
    write_entries(alloc, out, version, &entries)
}

/// The records of the map in a file of either version, in rising number, in lines of that version.
pub fn list<H: Hash32, S: Shelf>(alloc: Global, name: &str, shelf: &mut S) -> Result<Ending, Halt>
    ensures { RunsPlan (say_list H.of name.now) (S.state shelf.old) (S.state shelf.new) result }
{
    match open_map::<H, S>(alloc, name, shelf) {
        Ok(map) => Ok(Ending::tree(alloc, Status::Done, map.version, map.tree)),
        Err(came) => came,
    }
}

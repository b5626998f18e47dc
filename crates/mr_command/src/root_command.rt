//! The command `root`, in either version.

ghost use Rattle.mr_record.specs.RecordText.{IsRecordList};
ghost use Rattle.mr_tree.specs.Digest.{by, root as root_digest};
ghost use Rattle.mr_pack.specs.Pack.{pack as tree_of};
ghost use Rattle.mr_command.specs.Ending.{RunsPlan, IsEndingOrHalt};
ghost use Rattle.mr_plan.specs.Lines.{digest_line as line_of};
ghost use Rattle.mr_plan.specs.Say.{prints, say_root};

use crate::ending::{Ending, Halt};
use crate::input::records_from;
use crate::packing::packed;
use mr_outside::{Gate, Shelf};
use mr_plan::{Status, digest_line};
use mr_record::{Record, Version};
use mr_tree::Hash32;
use std::alloc::Global;
use std::thread::Threads;

// The root of some records.
fn root_of_records<H: Hash32, G: Gate, R: Threads + Sync>(
    rt: &R,
    alloc: Global,
    version: Version,
    records: Vec<Record>,
    gate: &G,
) -> Result<Ending, Halt>
    requires { IsRecordList version records.items }
    ensures { let digest = root_digest (by version H.of) (tree_of records.items) 0 in
        IsEndingOrHalt (prints (line_of digest)) result }
{
    let made = packed::<H, G, R>(rt, alloc, version, records, gate)?;
    let line = digest_line(alloc, &made.1)?;
    Ok(Ending::line(alloc, Status::Done, line))
}

/// The root digest of the records of a file, whose lines and map are of this version.
pub fn root<H: Hash32, S: Shelf, G: Gate, R: Threads + Sync>(
    rt: &R,
    alloc: Global,
    version: Version,
    name: &str,
    shelf: &mut S,
    gate: &G,
) -> Result<Ending, Halt>
    ensures { RunsPlan (say_root version H.of name.now) (S.state shelf.old) (S.state shelf.new)
        result }
{
    match records_from(alloc, version, name, shelf) {
        Ok(records) => root_of_records::<H, G, R>(rt, alloc, version, records, gate),
        Err(came) => came,
    }
}

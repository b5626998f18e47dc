//! The command `build`, in either version.

ghost use Rattle.std.specs.Prelude.{Ok};
ghost use Rattle.mr_record.specs.RecordText.{IsRecordList};
ghost use Rattle.mr_command.specs.Ending.{RunsPlan};
ghost use Rattle.mr_plan.specs.Plan.{comes};
ghost use Rattle.mr_plan.specs.Say.{say_build, say_build_of};

use crate::ending::{Ending, Halt};
use crate::input::records_from;
use crate::packing::packed_leaves;
use crate::saving::save_map;
use mr_outside::{Gate, Shelf};
use mr_record::{Record, Version};
use mr_tree::Hash32;
use std::alloc::Global;
use std::thread::Threads;

// The map of some records, in a file, and its root.
fn build_records<H: Hash32, S: Shelf, G: Gate, R: Threads + Sync>(
    rt: &R,
    alloc: Global,
    version: Version,
    map: &str,
    records: Vec<Record>,
    shelf: &mut S,
    gate: &G,
) -> Result<Ending, Halt>
    requires { IsRecordList version records.items }
    ensures { RunsPlan (comes (say_build_of version H.of map.now (Ok records.items)))
        (S.state shelf.old) (S.state shelf.new) result }
{
    let made = packed_leaves::<H, G, R>(rt, alloc, version, records, gate)?;
    save_map::<H, S>(alloc, version, map, &made.0, 0, &made.1, shelf)
}

/// The map of the records of a file, written to another one, both of this version: its nodes stand
/// in preorder from page 1 on, and no page is free.
pub fn build<H: Hash32, S: Shelf, G: Gate, R: Threads + Sync>(
    rt: &R,
    alloc: Global,
    version: Version,
    map: &str,
    records: &str,
    shelf: &mut S,
    gate: &G,
) -> Result<Ending, Halt>
    ensures { RunsPlan (say_build version H.of map.now records.now) (S.state shelf.old)
        (S.state shelf.new) result }
{
    match records_from(alloc, version, records, shelf) {
        Ok(list) => build_records::<H, S, G, R>(rt, alloc, version, map, list, shelf, gate),
        Err(came) => came,
    }
}

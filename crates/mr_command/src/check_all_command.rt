//! The command `check-all`.

ghost use Rattle.std.specs.Prelude.{◌≤◌, length, All};
ghost use Rattle.mr_query.specs.Script.{script_limit};
ghost use Rattle.mr_query.specs.Word.{IsAskable};
ghost use Rattle.mr_command.specs.Ending.{RunsPlan, IsEndingOrHalt};
ghost use Rattle.mr_plan.specs.Say.{say_check_all, say_parts, say_parts_of};

use crate::ending::{Ending, Halt};
use crate::input::{are_bytes, needed, queries_from};
use mr_bundle::{check_all, read_bundle};
use mr_outside::{Gate, Shelf};
use mr_plan::{count_accepted, judged_status, judged_text};
use mr_query::Query;
use mr_tree::Hash32;
use std::alloc::Global;
use std::thread::Threads;

// The verdicts on the parts of a bundle, whose bytes are given up before their text is made.
fn check_bytes<H: Hash32, G: Gate, R: Threads + Sync>(
    rt: &R,
    alloc: Global,
    root: &[u8; 32],
    queries: &[Query],
    bytes: Vec<u8>,
    gate: &G,
) -> Result<Ending, Halt>
    requires askable { All IsAskable queries.now }
    requires few { length queries.now ≤ script_limit }
    ensures { IsEndingOrHalt (say_parts_of H.of root.now queries.now bytes.items) result }
{
    are_bytes(&bytes);
    let parts = read_bundle(alloc, &bytes, queries.len())?;
    let list = check_all::<H, G, R>(
        rt,
        alloc,
        root,
        queries,
        &bytes,
        parts.list.as_slice(),
        gate,
    )?;
    drop(bytes);
    let accepted = count_accepted(&list);
    let text = judged_text(alloc, queries.len(), &list, accepted, parts.broken)?;
    let status = judged_status(&list, accepted, parts.broken);
    Ok(Ending::text(alloc, status, text.into_bytes()))
}

// The verdicts on the parts of the bundle in a file.
fn check_file<H: Hash32, S: Shelf, G: Gate, R: Threads + Sync>(
    rt: &R,
    alloc: Global,
    root: &[u8; 32],
    queries: &[Query],
    bundle: &str,
    shelf: &mut S,
    gate: &G,
) -> Result<Ending, Halt>
    requires askable { All IsAskable queries.now }
    requires few { length queries.now ≤ script_limit }
    ensures { RunsPlan (say_parts H.of root.now bundle.now queries.now) (S.state shelf.old)
        (S.state shelf.new) result }
{
    match needed(alloc, bundle, shelf) {
        Ok(bytes) => check_bytes::<H, G, R>(rt, alloc, root, queries, bytes, gate),
        Err(came) => came,
    }
}

/// The verdicts on the parts of the bundle in a file, against a root digest and for the queries of
/// the script in another file.
pub fn check_bundle<H: Hash32, S: Shelf, G: Gate, R: Threads + Sync>(
    rt: &R,
    alloc: Global,
    root: &[u8; 32],
    script: &str,
    bundle: &str,
    shelf: &mut S,
    gate: &G,
) -> Result<Ending, Halt>
    ensures { RunsPlan (say_check_all H.of root.now script.now bundle.now) (S.state shelf.old)
        (S.state shelf.new) result }
{
    match queries_from(alloc, script, shelf) {
        Ok(queries) => check_file::<H, S, G, R>(rt, alloc, root, &queries, bundle, shelf, gate),
        Err(came) => came,
    }
}

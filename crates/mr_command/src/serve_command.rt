//! The command `serve`.

ghost use Rattle.std.specs.Prelude.{◌≡◌, ◌≤◌, length, All, Ok};
ghost use Rattle.std.specs.List.{list_any};
ghost use Rattle.mr_query.specs.Script.{script_limit};
ghost use Rattle.mr_query.specs.Word.{IsAskable};
ghost use Rattle.mr_command.specs.Ending.{RunsPlan};
ghost use Rattle.mr_plan.specs.Plan.{comes};
ghost use Rattle.mr_plan.specs.Say.{lacks_proof as lacks, opened_in, say_script, say_serve, say_serve_of};

use crate::bundling::{bundle_size, save_proofs};
use crate::ending::{Ending, Halt};
use crate::input::queries_from;
use crate::opening::{lacks_proof, without_proof};
use crate::snapshots::take_map;
use mr_bundle::prove_all;
use mr_outside::{Gate, Shelf};
use mr_plan::served_line;
use mr_query::Query;
use mr_record::Version;
use mr_tree::{Hash32, Nodes, Snapshot};
use std::alloc::Global;
use std::thread::Threads;

// The version of a map in memory.
pub(crate) fn map_version<H: Hash32>(nodes: &Snapshot<H>) -> Version
    ensures { result ≡ nodes.now.top.version }
{
    nodes.reader().top().version
}

// Whether a map of this version has no proof for one of the queries.
fn lacks_one(version: Version, queries: &[Query]) -> bool
    ensures { result ≡ list_any (lacks version) queries.now }
{
    queries.iter().any(|query| lacks_proof(version, query))
}

// The bundle for some queries on a map in memory, in a file, and the line on it; or what the
// command comes to where the map has no proof for one of them.
fn serve_queries<H: Hash32, S: Shelf, G: Gate, R: Threads + Sync>(
    rt: &R,
    alloc: Global,
    nodes: &Snapshot<H>,
    queries: &[Query],
    bundle: &str,
    shelf: &mut S,
    gate: &G,
) -> Result<Ending, Halt>
    requires askable { All IsAskable queries.now }
    requires few { length queries.now ≤ script_limit }
    ensures { let map = opened_in nodes.now.nodes.items nodes.now.top in
        RunsPlan (comes (say_serve_of H.of bundle.now map (Ok queries.now))) (S.state shelf.old)
        (S.state shelf.new) result }
{
    if lacks_one(map_version(nodes), queries) {
        return without_proof(alloc);
    }
    let list = prove_all::<H, G, R>(rt, alloc, nodes, queries, gate)?;
    let line = served_line(alloc, queries.len(), bundle_size(&list))?;
    save_proofs(alloc, line, bundle, &list, shelf)
}

// The same for the script in a file.
fn serve_script<H: Hash32, S: Shelf, G: Gate, R: Threads + Sync>(
    rt: &R,
    alloc: Global,
    nodes: &Snapshot<H>,
    script: &str,
    bundle: &str,
    shelf: &mut S,
    gate: &G,
) -> Result<Ending, Halt>
    ensures { let map = opened_in nodes.now.nodes.items nodes.now.top in
        RunsPlan (say_script H.of script.now bundle.now map) (S.state shelf.old)
        (S.state shelf.new) result }
{
    match queries_from(alloc, script, shelf) {
        Ok(queries) => {
            serve_queries::<H, S, G, R>(rt, alloc, nodes, &queries, bundle, shelf, gate)
        }
        Err(came) => came,
    }
}

/// The proofs for the queries of a script on the map in a file, written to another one, where the
/// map has one for each. The map is taken into memory as it is opened, and the script is read
/// behind it.
pub fn serve<H: Hash32, S: Shelf, G: Gate, R: Threads + Sync>(
    rt: &R,
    alloc: Global,
    map: &str,
    script: &str,
    bundle: &str,
    shelf: &mut S,
    gate: &G,
) -> Result<Ending, Halt>
    ensures { RunsPlan (say_serve H.of map.now script.now bundle.now) (S.state shelf.old)
        (S.state shelf.new) result }
{
    match take_map::<H, S>(alloc, map, shelf) {
        Ok(nodes) => serve_script::<H, S, G, R>(rt, alloc, &nodes, script, bundle, shelf, gate),
        Err(came) => came,
    }
}

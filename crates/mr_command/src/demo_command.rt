//! The command `demo`.

ghost use Rattle.std.specs.Prelude.{◌≡◌, ◌<◌, ◌≤◌, ◌^◌, length, All, IfOk};
ghost use Rattle.std.specs.String.{string_bytes};
ghost use Rattle.mr_record.specs.declared.version.Version.TheVariants.{One};
ghost use Rattle.mr_tree.specs.Digest.{root as root_digest};
ghost use Rattle.mr_tree.specs.Snapshot.{tree_model};
ghost use Rattle.mr_tree.specs.Tree.{records};
ghost use Rattle.mr_tree.specs.WellFormed.{WellFormed, HasLayers};
ghost use Rattle.mr_query.specs.Scan.{scan};
ghost use Rattle.mr_query.specs.Word.{IsAskable};
ghost use Rattle.mr_proof.specs.Honest.{proof};
ghost use Rattle.mr_proof.specs.Tight.{MayCome, question};
ghost use Rattle.mr_bundle.specs.Proofs.{HasProofs};
ghost use Rattle.mr_plan.specs.Demo.{all_answers, all_bytes, tried_lines, demo_lines as lines_of};
ghost use Rattle.mr_command.specs.Ending.{IsEndingOrHalt};
ghost use Rattle.mr_plan.specs.First.{first};
ghost use Rattle.mr_plan.specs.Say.{prints};

use crate::ending::{Ending, Halt};
use crate::packing::packed;
use mr_batch::{generate, generate_queries};
use mr_bundle::proof_of_nodes;
use mr_check::{CheckErr, check};
use mr_outside::Gate;
use mr_plan::{Status, map_lines, push_queries, push_totals};
use mr_query::Query;
use mr_record::Version;
use mr_tree::{Hash32, Hashes, Nodes, Snapshot, Tree, level_of};
use std::alloc::{AllocError, Global};
use std::thread::Threads;

// How many queries a demonstration proves and checks.
const DEMO_QUERIES: u32 = 64;

// How many records the answers to some queries have, and how many bytes their proofs.
#[derive(Clone, Copy)]
pub(crate) struct Totals {
    answers: u128,
    bytes: u128,
}

// How many records a proof proves to be the answer to a query.
fn answer_size<H: Hashes>(
    alloc: Global,
    tree: &Tree,
    root: &[u8; 32],
    query: &Query,
    bytes: &[u8],
) -> Result<usize, AllocError>
    requires well_formed { WellFormed tree.now }
    requires layers { HasLayers One tree.now }
    requires root { root.now ≡ root_digest (first H.of) tree.now 0 }
    requires askable { IsAskable query.now }
    requires may_come { MayCome (question query.now) One }
    requires own { bytes.now ≡ proof (first H.of) tree.now 0 query.now }
    ensures { IfOk result (λ n. n ≡ length (scan (records tree.now) query.now)) }
{
    match check::<H>(alloc, root, query, bytes) {
        Ok(answer) => Ok(answer.as_slice().len()),
        Err(CheckErr::Fault(_)) => unreachable!(),
        Err(CheckErr::NoMemory) => Err(AllocError),
    }
}

// What one query gives: its proof is made from the nodes of a map, and checked against the map's
// root digest.
fn try_query<N: Nodes>(
    alloc: Global,
    nodes: &mut N,
    tree: &Tree,
    root: &[u8; 32],
    query: &Query,
) -> Result<Totals, AllocError>
    requires stands { N.stands nodes.old ≡ tree_model One 0 tree.now }
    requires well_formed { WellFormed tree.now }
    requires layers { HasLayers One tree.now }
    requires root { root.now ≡ root_digest (first N.Hash.of) tree.now 0 }
    requires askable { IsAskable query.now }
    requires may_come { MayCome (question query.now) One }
    ensures stands { N.stands nodes.new ≡ tree_model One 0 tree.now }
    ensures answers { IfOk result
        (λ all. all.answers ≡ length (scan (records tree.now) query.now)) }
    ensures bytes { IfOk result
        (λ all. all.bytes ≡ length (proof (first N.Hash.of) tree.now 0 query.now)) }
    ensures few_answers { IfOk result (λ all. all.answers < 2 ^ 64) }
    ensures few_bytes { IfOk result (λ all. all.bytes < 2 ^ 64) }
{
    // nodes in memory refuse for want of memory alone
    let Ok(out) = proof_of_nodes(alloc, nodes, query) else {
        return Err(AllocError);
    };
    let size = answer_size::<N::Hash>(alloc, tree, root, query, out.bytes())?;
    Ok(Totals {
        answers: size as u128,
        bytes: out.bytes().len() as u128,
    })
}

// What some queries give together.
fn try_queries<N: Nodes>(
    alloc: Global,
    nodes: &mut N,
    tree: &Tree,
    root: &[u8; 32],
    queries: &[Query],
) -> Result<Totals, AllocError>
    requires stands { N.stands nodes.old ≡ tree_model One 0 tree.now }
    requires well_formed { WellFormed tree.now }
    requires layers { HasLayers One tree.now }
    requires root { root.now ≡ root_digest (first N.Hash.of) tree.now 0 }
    requires askable { All IsAskable queries.now }
    requires may_come { HasProofs One queries.now }
    requires few { length queries.now ≤ 2 ^ 16 }
    ensures answers { IfOk result (λ all. all.answers ≡ all_answers tree.now queries.now) }
    ensures bytes { IfOk result (λ all. all.bytes ≡ all_bytes N.Hash.of tree.now queries.now) }
{
    let mut answers: u128 = 0;
    let mut bytes: u128 = 0;
    for query in queries {
        let tried = try_query(alloc, nodes, tree, root, query)?;
        answers += tried.answers;
        bytes += tried.bytes;
    }
    Ok(Totals { answers, bytes })
}

// The same on a map at batch 0, of which a snapshot is made once.
fn totals_of<H: Hash32>(
    alloc: Global,
    tree: &Tree,
    root: &[u8; 32],
    queries: &[Query],
) -> Result<Totals, AllocError>
    requires well_formed { WellFormed tree.now }
    requires layers { HasLayers One tree.now }
    requires root { root.now ≡ root_digest (first H.of) tree.now 0 }
    requires askable { All IsAskable queries.now }
    requires may_come { HasProofs One queries.now }
    requires few { length queries.now ≤ 2 ^ 16 }
    ensures answers { IfOk result (λ all. all.answers ≡ all_answers tree.now queries.now) }
    ensures bytes { IfOk result (λ all. all.bytes ≡ all_bytes H.of tree.now queries.now) }
{
    let snapshot = Snapshot::<H>::of(alloc, tree, 0)?;
    try_queries(alloc, &mut snapshot.reader(), tree, root, queries)
}

// What some queries give on a map of so many records, as lines.
#[tactic(auto, unfolding(mr_plan::specs::Demo::tried_lines))]
fn tried<H: Hash32>(
    alloc: Global,
    count: u32,
    tree: &Tree,
    root: &[u8; 32],
    queries: &[Query],
) -> Result<String, AllocError>
    requires well_formed { WellFormed tree.now }
    requires layers { HasLayers One tree.now }
    requires root { root.now ≡ root_digest (first H.of) tree.now 0 }
    requires askable { All IsAskable queries.now }
    requires may_come { HasProofs One queries.now }
    requires few { length queries.now ≤ 2 ^ 16 }
    ensures { IfOk result
        (λ lines. string_bytes lines ≡ tried_lines H.of count tree.now queries.now) }
{
    let totals = totals_of::<H>(alloc, tree, root, queries)?;
    let mut lines = map_lines(alloc, count, level_of(tree), root)?;
    push_queries(alloc, &mut lines, queries.len())?;
    push_totals(alloc, &mut lines, totals.answers, totals.bytes)?;
    Ok(lines)
}

// What generated queries give on the map of so many generated records, as lines.
#[tactic(auto, unfolding(mr_plan::specs::Demo::demo_lines))]
fn demo_lines<H: Hash32, G: Gate, R: Threads + Sync>(
    rt: &R,
    alloc: Global,
    count: u32,
    seed: u64,
    gate: &G,
) -> Result<String, AllocError>
    requires { count ≤ 2 ^ 16 }
    ensures { IfOk result (λ lines. string_bytes lines ≡ lines_of H.of count seed) }
{
    let records = generate(alloc, count, seed)?;
    let made = packed::<H, G, R>(rt, alloc, Version::One, records, gate)?;
    let queries = generate_queries(alloc, DEMO_QUERIES, seed)?;
    tried::<H>(alloc, count, &made.0, &made.1, &queries)
}

/// What 64 generated queries give on the map of so many generated records, 2^16 at most, all in
/// memory.
pub fn demo<H: Hash32, G: Gate, R: Threads + Sync>(
    rt: &R,
    alloc: Global,
    count: u32,
    seed: u64,
    gate: &G,
) -> Result<Ending, Halt>
    requires { count ≤ 2 ^ 16 }
    ensures { IsEndingOrHalt (prints (lines_of H.of count seed)) result }
{
    let lines = demo_lines::<H, G, R>(rt, alloc, count, seed, gate)?;
    Ok(Ending::line(alloc, Status::Done, lines))
}

//! Many proofs on one map.

ghost use Rattle.std.specs.Prelude.{◌≡◌, ◌≤◌, ◌<◌, ◌^◌, ◌+◌, ◌*◌, ℕ, List, length, map, All, IfOk, IfErr, IfSome, OnOk};
ghost use Rattle.mr_tree.specs.Digest.{by};
ghost use Rattle.mr_tree.specs.Nodes.{HasSomeCause, TellsRefusal};
ghost use Rattle.mr_query.specs.Word.{IsAskable};
ghost use Rattle.mr_proof.specs.Tight.{MayCome, question};
ghost use Rattle.mr_proof.specs.Honest.{proof as honest_proof, opened};
ghost use Rattle.mr_prove.specs.Causes.{rounds};
ghost use Rattle.mr_bundle.specs.Bundle.{IsShort};
ghost use Rattle.mr_bundle.specs.Proofs.{HasProofs, proof_in, as_given, IsLastRefusal};

use crate::Text;
use mr_fork_join::{Work, in_halves};
use mr_outside::{Gate, Items};
use mr_proof::honest_is_accepted;
use mr_prove::{ProveErr, prove};
use mr_query::Query;
use mr_tree::{Hash32, Hashes, Nodes, NodesErr, Snapshot};
use std::alloc::{AllocError, Global};
use std::thread::Threads;

/// The bytes of a proof.
pub type Proof = Items<u8>;

/// The proof for a query on the map of these nodes, or why one of them was not fetched. A query
/// with a mask needs a map of version 2.
pub fn proof_of_nodes<N: Nodes>(
    alloc: Global,
    nodes: &mut N,
    query: &Query,
) -> Result<Text, NodesErr>
    requires askable { IsAskable query.now }
    requires may_come { MayCome (question query.now) (N.stands nodes.old).version }
    ensures kept { N.kept nodes.old nodes.new }
    ensures written { IfSome (N.stands nodes.old).tree (λ t. IfOk result (λ text. text.bytes.items
        ≡ honest_proof (by (N.stands nodes.old).version N.Hash.of) t (N.stands nodes.old).batch
        query.now)) }
    ensures fetched { IfSome (N.stands nodes.old).tree (λ t. N.fetches nodes.new ≤
        N.fetches nodes.old + rounds query.now * opened (by (N.stands nodes.old).version N.Hash.of)
        t query.now) }
    ensures cause { IfErr result (HasSomeCause (N.stands nodes.old) (N.faults nodes.old)
        (N.faults nodes.new)) }
    ensures quiet { OnOk result (N.faults nodes.new ≡ N.faults nodes.old) }
    // Told or not, what a fetch refused is what is answered, unless memory ran out.
    ensures refused { IfErr result (IsLastRefusal (N.refusal nodes.new)) }
    ensures answered { TellsRefusal as_given (N.refusal nodes.old) (N.refusal nodes.new) result }
{
    let mut out = Text::new(alloc);
    match prove(alloc, nodes, query, &mut out) {
        Ok(()) => Ok(out),
        Err(ProveErr::NoMemory) => Err(NodesErr::NoMemory),
        Err(ProveErr::Nodes(error)) => Err(error),
        Err(ProveErr::Sink) => unreachable!(),
    }
}

// The proof for a query on a map in memory, whose nodes refuse for want of memory alone.
fn proof_on<H: Hashes>(
    alloc: Global,
    nodes: &Snapshot<H>,
    query: &Query,
) -> Result<Proof, AllocError>
    requires askable { IsAskable query.now }
    requires may_come { MayCome (question query.now) nodes.now.top.version }
    ensures { IfOk result (λ p. p ≡ proof_in H.of nodes.now.nodes.items nodes.now.top query.now) }
{
    match proof_of_nodes(alloc, &mut nodes.reader(), query) {
        // in no more room than it has bytes, since all proofs are held at once
        Ok(text) => Ok(Items::of(text.bytes().to_vec(alloc)?)),
        Err(_) => Err(AllocError),
    }
}

// Does nothing: it is there for proofs, which learn that four bytes say the length of the proof.
fn is_short<H: Hashes>(_nodes: &Snapshot<H>, query: &Query)
    requires { IsAskable query.now }
    ensures { IsShort (proof_in H.of _nodes.now.nodes.items _nodes.now.top query.now) }
{
    honest_is_accepted::<H>(query);
}

// As `is_short`, for each query of a list.
fn are_short<H: Hashes>(nodes: &Snapshot<H>, queries: &[Query])
    requires { All IsAskable queries.now }
    ensures { All IsShort (map (proof_in H.of nodes.now.nodes.items nodes.now.top) queries.now) }
{
    for query in queries {
        is_short::<H>(nodes, query);
    }
}

// What is done for each query: it is proved on the map that all share.
#[derive(Drop)]
struct Proving<'a, H: Hash32> {
    alloc: Global,
    nodes: &'a Snapshot<H>,
}

impl<'a, H: Hash32> Work for Proving<'a, H> {
    type Piece = Query;

    type Found = Proof;

    ghost may = { λ w q. IsAskable q × MayCome (question q) w.nodes.now.top.version };

    ghost gives = { λ w q. proof_in H.of w.nodes.now.nodes.items w.nodes.now.top q };

    ghost number_of = { λ found. length found };

    fn carry_out(&self, piece: &Query) -> Result<Proof, AllocError> {
        proof_on::<H>(self.alloc, self.nodes, piece)
    }

    fn number(found: &Proof) -> u64
        ensures { result ≡ length found.now }
    {
        found.as_slice().len() as u64
    }
}

/// The honest proofs for some queries on one map, in the order of the queries. Where one of them
/// has a mask the map has to be of version 2. The queries are proved in joined halves, as
/// `in_halves` says; whoever proves query `i` passes `gate.enter(i)` before it, and
/// `gate.leave(i, length)` behind it, with the length of the proof. It refuses for want of memory
/// alone.
pub fn prove_all<H: Hash32, G: Gate, R: Threads + Sync>(
    rt: &R,
    alloc: Global,
    nodes: &Snapshot<H>,
    queries: &[Query],
    gate: &G,
) -> Result<Vec<Proof>, AllocError>
    requires askable { All IsAskable queries.now }
    requires may_come { HasProofs nodes.now.top.version queries.now }
    ensures exact { IfOk result (λ v. v.items
        ≡ map (proof_in H.of nodes.now.nodes.items nodes.now.top) queries.now) }
    // Four bytes say the length of each.
    ensures short { IfOk result (λ v. All IsShort v.items) }
{
    are_short::<H>(nodes, queries);
    let work = Proving { alloc, nodes };
    in_halves(rt, alloc, &work, queries, gate)
}

//! The whole proof.

ghost use Rattle.std.specs.Prelude.{◌≡◌, ◌+◌, ◌*◌, ◌≤◌, Some, None, OnOk, OnErr, IfErr, IfSome, IsSome};
ghost use Rattle.mr_outside.specs.Told.{TakesBytes, TakesFront};
ghost use Rattle.mr_record.specs.declared.version.Version.{Version};
ghost use Rattle.mr_tree.specs.Digest.{by};
ghost use Rattle.mr_tree.specs.Nodes.{TellsRefusal};
ghost use Rattle.mr_query.specs.Word.{IsAskable, asks};
ghost use Rattle.mr_query.specs.declared.query.Shape.TheVariants as shapes;
ghost use Rattle.mr_proof.specs.Spelling.{FitsRadius, FitsVersion};
ghost use Rattle.mr_proof.specs.Tight.{MayCome, around_of, question};
ghost use Rattle.mr_proof.specs.Honest.{proof_for, opened_for, proof, opened};
ghost use Rattle.mr_proof.specs.Halves.{AcceptsHonest};
ghost use Rattle.mr_prove.specs.Causes.{ProveCauses, IsHandedOn, rounds, of_nodes};
ghost use Rattle.mr_prove.specs.private.Parts.{head_by, proof_of, opened_by, IsRight};

use crate::ProveErr;
use crate::part::write_part;
use crate::search::kth_distance;
use mr_geom::Rect;
use mr_outside::Sink;
use mr_proof::{Around, AsQuestion, Head, honest_is_accepted, write_head};
use mr_query::{Query, Shape};
use mr_tree::{Nodes, Top};
use std::alloc::Global;

fn head_of<A: AsQuestion>(top: &Top, q: &A, radius: Option<u128>) -> Head
    ensures { result ≡ head_by top.now (A.question q.now) radius }
{
    Head {
        version: top.version,
        kind: q.kind(),
        batch: top.batch,
        count: top.count,
        radius,
        level: top.root_entry().level,
    }
}

// Writes the proof with this squared radius.
fn write_proof<N: Nodes, A: AsQuestion, W: Sink>(
    nodes: &mut N,
    q: &A,
    radius: Option<u128>,
    out: &mut W,
) -> Result<(), ProveErr>
    requires version { FitsVersion (A.question q.now).kind (N.stands nodes.old).version }
    requires right { IsRight (A.question q.now) (N.stands nodes.old) radius }
    requires fits { FitsRadius (A.question q.now).kind radius }
    ensures kept { N.kept nodes.old nodes.new }
    ensures whole { OnOk result (IsSome (N.stands nodes.old).tree →
        TakesBytes (W.state out.old) (W.state out.new)
        (proof_of N.Hash.of (A.question q.now) (N.stands nodes.old))) }
    ensures front { OnErr result (IsSome (N.stands nodes.old).tree →
        TakesFront (W.state out.old) (W.state out.new)
        (proof_of N.Hash.of (A.question q.now) (N.stands nodes.old))) }
    ensures fetched { IsSome (N.stands nodes.old).tree → N.fetches nodes.new ≤ N.fetches nodes.old +
        opened_by N.Hash.of (A.question q.now) (N.stands nodes.old) }
    ensures causes { ProveCauses (N.stands nodes.old) (N.faults nodes.old) (N.faults nodes.new)
        (W.state out.old) (W.state out.new) result }
    ensures refused { IfErr result (IsHandedOn (N.refusal nodes.new)) }
    ensures answered { TellsRefusal of_nodes (N.refusal nodes.old) (N.refusal nodes.new) result }
{
    let top = nodes.top();
    let head = head_of(&top, q, radius);
    write_head(out, &head)?;
    match top.root {
        None => Ok(()),
        Some(root) => write_part(nodes, q, &head, &root, out),
    }
}

// Writes the proof for a query for the nearest records: their radius is searched for, and then the
// nodes are walked.
fn prove_nearest<N: Nodes, W: Sink>(
    alloc: Global,
    nodes: &mut N,
    q: &Query,
    around: &Around,
    out: &mut W,
) -> Result<(), ProveErr>
    requires around { around_of q.now ≡ Some around.now }
    requires some { 1 ≤ around.now.k }
    ensures kept { N.kept nodes.old nodes.new }
    ensures written { IfSome (N.stands nodes.old).tree (λ t. OnOk result
        (TakesBytes (W.state out.old) (W.state out.new)
        (proof (by (N.stands nodes.old).version N.Hash.of) t (N.stands nodes.old).batch q.now))) }
    ensures front { IfSome (N.stands nodes.old).tree (λ t. OnErr result
        (TakesFront (W.state out.old) (W.state out.new)
        (proof (by (N.stands nodes.old).version N.Hash.of) t (N.stands nodes.old).batch q.now))) }
    ensures fetched { IfSome (N.stands nodes.old).tree (λ t. N.fetches nodes.new ≤
        N.fetches nodes.old + 2 * opened (by (N.stands nodes.old).version N.Hash.of) t q.now) }
    ensures causes { ProveCauses (N.stands nodes.old) (N.faults nodes.old) (N.faults nodes.new)
        (W.state out.old) (W.state out.new) result }
    ensures refused { IfErr result (IsHandedOn (N.refusal nodes.new)) }
    ensures answered { TellsRefusal of_nodes (N.refusal nodes.old) (N.refusal nodes.new) result }
{
    let radius = kth_distance(alloc, nodes, around)?;
    write_proof(nodes, q, radius, out)
}

/// Writes the honest proof for a question whose heads have no squared radius: of the cut that opens
/// just the parts whose way is `Open`. (One for nearest records is written by `prove`.) A question
/// of which only proofs of version 2 may come needs a map of version 2, as one with a mask. The
/// nodes are walked depth first and what is known is written at once: the walk keeps the nodes on
/// the path, at most eight, inline, and is given no allocator. So it takes no memory beyond what
/// the nodes and the sink take.
pub fn prove_question<N: Nodes, A: AsQuestion, W: Sink>(
    nodes: &mut N,
    q: &A,
    out: &mut W,
) -> Result<(), ProveErr>
    requires around { (A.question q.now).around ≡ None }
    requires may_come { MayCome (A.question q.now) (N.stands nodes.old).version }
    requires version { FitsVersion (A.question q.now).kind (N.stands nodes.old).version }
    ensures kept { N.kept nodes.old nodes.new }
    ensures written { IfSome (N.stands nodes.old).tree (λ t. OnOk result
        (TakesBytes (W.state out.old) (W.state out.new)
        (proof_for (by (N.stands nodes.old).version N.Hash.of) (A.question q.now) t
        (N.stands nodes.old).batch))) }
    ensures front { IfSome (N.stands nodes.old).tree (λ t. OnErr result
        (TakesFront (W.state out.old) (W.state out.new)
        (proof_for (by (N.stands nodes.old).version N.Hash.of) (A.question q.now) t
        (N.stands nodes.old).batch))) }
    ensures fetched { IfSome (N.stands nodes.old).tree (λ t. N.fetches nodes.new ≤
        N.fetches nodes.old + opened_for (by (N.stands nodes.old).version N.Hash.of)
        (A.question q.now) t) }
    ensures causes { ProveCauses (N.stands nodes.old) (N.faults nodes.old) (N.faults nodes.new)
        (W.state out.old) (W.state out.new) result }
    ensures refused { IfErr result (IsHandedOn (N.refusal nodes.new)) }
    ensures answered { TellsRefusal of_nodes (N.refusal nodes.old) (N.refusal nodes.new) result }
{
    write_proof(nodes, q, None, out)
}

/// Writes the proof of the answer to a query for a window, of the layers that a mask names or of
/// all, as `prove` does. The nodes are walked depth first and what is known is written at once: the
/// walk keeps the nodes on the path, at most eight, inline, and is given no allocator. So the proof
/// for a window takes no memory beyond what the nodes and the sink take.
pub fn prove_window<N: Nodes, W: Sink>(
    nodes: &mut N,
    window: &Rect,
    mask: Option<u64>,
    out: &mut W,
) -> Result<(), ProveErr>
    requires { MayCome (question (asks (shapes.Window window.now) mask))
        (N.stands nodes.old).version }
    ensures kept { N.kept nodes.old nodes.new }
    ensures written { IfSome (N.stands nodes.old).tree (λ t. OnOk result
        (TakesBytes (W.state out.old) (W.state out.new)
        (proof (by (N.stands nodes.old).version N.Hash.of) t (N.stands nodes.old).batch
        (asks (shapes.Window window.now) mask)))) }
    ensures front { IfSome (N.stands nodes.old).tree (λ t. OnErr result
        (TakesFront (W.state out.old) (W.state out.new)
        (proof (by (N.stands nodes.old).version N.Hash.of) t (N.stands nodes.old).batch
        (asks (shapes.Window window.now) mask)))) }
    ensures fetched { IfSome (N.stands nodes.old).tree (λ t. N.fetches nodes.new ≤
        N.fetches nodes.old + opened (by (N.stands nodes.old).version N.Hash.of) t
        (asks (shapes.Window window.now) mask)) }
    ensures causes { ProveCauses (N.stands nodes.old) (N.faults nodes.old) (N.faults nodes.new)
        (W.state out.old) (W.state out.new) result }
    ensures refused { IfErr result (IsHandedOn (N.refusal nodes.new)) }
    ensures answered { TellsRefusal of_nodes (N.refusal nodes.old) (N.refusal nodes.new) result }
{
    let q = Query {
        shape: Shape::Window(*window),
        mask,
    };
    prove_question(nodes, &q, out)
}

/// Writes the proof of the answer to the query: that of the cut which opens just the nodes that are
/// in reach of it. A query with a mask needs a map of version 2. Where the tree is told, the bytes
/// are `proof` of it, which a client accepts with the answer of a scan. No more nodes are fetched
/// then than the cut opens, or twice as many for nearest records.
///
/// The radius of nearest records is found first, by a search that keeps the nodes it has met and as
/// many distances as records are asked for. Then the nodes are walked depth first, as
/// `prove_window` does from the beginning. After a refusal some front of the proof was taken.
pub fn prove<N: Nodes, W: Sink>(
    alloc: Global,
    nodes: &mut N,
    q: &Query,
    out: &mut W,
) -> Result<(), ProveErr>
    requires askable { IsAskable q.now }
    requires may_come { MayCome (question q.now) (N.stands nodes.old).version }
    ensures kept { N.kept nodes.old nodes.new }
    ensures written { IfSome (N.stands nodes.old).tree (λ t. OnOk result
        (TakesBytes (W.state out.old) (W.state out.new)
        (proof (by (N.stands nodes.old).version N.Hash.of) t (N.stands nodes.old).batch q.now))) }
    ensures front { IfSome (N.stands nodes.old).tree (λ t. OnErr result
        (TakesFront (W.state out.old) (W.state out.new)
        (proof (by (N.stands nodes.old).version N.Hash.of) t (N.stands nodes.old).batch q.now))) }
    ensures fetched { IfSome (N.stands nodes.old).tree (λ t. N.fetches nodes.new ≤
        N.fetches nodes.old + rounds q.now * opened (by (N.stands nodes.old).version N.Hash.of) t
        q.now) }
    ensures causes { ProveCauses (N.stands nodes.old) (N.faults nodes.old) (N.faults nodes.new)
        (W.state out.old) (W.state out.new) result }
    ensures refused { IfErr result (IsHandedOn (N.refusal nodes.new)) }
    ensures answered { TellsRefusal of_nodes (N.refusal nodes.old) (N.refusal nodes.new) result }
    // Of a map of either version that has one.
    ensures accepted { (v : Version) → AcceptsHonest (by v N.Hash.of) q.now }
{
    honest_is_accepted::<N::Hash>(q);
    match &q.shape {
        Shape::Window(window) => prove_window(nodes, window, q.mask, out),
        Shape::Nearest { center, k } => {
            let around = Around {
                center: *center,
                k: *k,
                layers: q.layers(),
            };
            prove_nearest(alloc, nodes, q, &around, out)
        }
    }
}

//! The audit of a whole proof.

ghost use Rattle.std.specs.Prelude.{◌≡◌, ◌+◌, ◌≤◌, ◌<◌, ◌^◌, ℕ, List, Option, None, Some, true, false, IfOk, IfErr, IfSome, option_map};
ghost use Rattle.mr_geom.specs.Rectangle.{IsOrdered, FitsMap};
ghost use Rattle.mr_tree.specs.Digest.{by};
ghost use Rattle.mr_tree.specs.Nodes.{IsTop, TellsRefusal};
ghost use Rattle.mr_tree.specs.declared.nodes.Top as tops;
ghost use Rattle.mr_tree.specs.declared.tree.Tree as trees;
ghost use Rattle.mr_query.specs.Word.{IsAskable};
ghost use Rattle.mr_clash.specs.Causes.{AuditCauses, IsHandedOn, of_nodes};
ghost use Rattle.mr_clash.specs.Finding.{found, opened_accepted, root_at, ShowsCollision, FindsFor, FindsHonest, FetchesFew};
ghost use Rattle.mr_clash.specs.QuestionFindings.{FindsOf};
ghost use Rattle.mr_clash.specs.private.Steps.{left, pair_of, ComparesMap, ComparesRoots, FetchesMap, FetchesRoot, PassesRoot, WalksRoot};

use crate::finding::{Clash, clash_of, first_of};
use crate::items::pass_item;
use crate::question_finding::{QuestionFinding, audit_question};
use crate::rest::Rest;
use crate::root::{HeadSays, read_head, root_string};
use crate::walked::Walked;
use crate::walking::{digests_are_sized, walk};
use crate::{AuditErr, Finding};
use mr_check::answer_of;
use mr_geom::Rect;
use mr_outside::Items;
use mr_proof::{Kind, accepted_is_honest, honest_is_accepted, query_is_lawful};
use mr_query::{Query, is_query};
use mr_record::Version;
use mr_tree::{Child, Entry, Hashes, NodeView, Nodes, Top, root_digest};
use std::alloc::{AllocError, Global};

// The root digest of the map.
pub(crate) fn root_of<H: Hashes>(top: &Top) -> [u8; 32]
    ensures { result ≡ H.of (root_at top.now) }
{
    root_digest::<H>(top.version, top.batch, top.count, &top.root_entry())
}

// The strings of the two roots, where they differ, by what is said of the root node of a proof.
fn compare_roots(
    alloc: Global,
    top: &Top,
    said: &HeadSays,
    node: &Entry,
) -> Result<Option<Clash>, AllocError>
    ensures { (hash : List ℕ → List ℕ) → ComparesRoots hash top.now said.now node.now result }
{
    let root = top.root_entry();
    let owned = root_string(alloc, top.version, top.batch, top.count, &root)?;
    let shown = root_string(alloc, said.version, said.batch, said.count, node)?;
    clash_of(alloc, owned, &shown)
}

// What the types tell of their values.
pub(crate) fn are_words(_batch: u64, _count: u64)
    ensures batch { _batch < 2 ^ 64 }
    ensures count { _count < 2 ^ 64 }
{}

fn is_rect(one: &Rect)
    ensures ordered { IsOrdered one.now }
    ensures fits { FitsMap one.now }
{
    let _corners = one.corners();
}

// The root item behind the head, beside no node of the map.
fn pass_root<H: Hashes>(
    alloc: Global,
    version: Version,
    level: u8,
    from: &mut Rest<'_>,
) -> Result<Walked, AllocError>
    ensures { PassesRoot (by version H.of) level (left from.old) result }
{
    let entry = pass_item::<H>(alloc, version, level, from)?;
    Ok(Walked { entry, clash: None })
}

fn is_same(one: Version, other: Version) -> bool
    ensures alike { result ≡ true → one ≡ other }
    ensures other { result ≡ false → one ≡ other → ⊥ }
{
    one == other
}

// Whether the map, with this root node, and the head are of one version and one level.
fn is_alike(top: &Top, root: &Child, said: &HeadSays) -> bool
    ensures alike { result ≡ true
        → (top.now.version ≡ said.now.version) × (root.now.level ≡ said.now.level) }
    ensures other { result ≡ false
        → top.now.version ≡ said.now.version → root.now.level ≡ said.now.level → ⊥ }
{
    if is_same(top.version, said.version) {
        root.level == said.level
    } else {
        false
    }
}

// The root item behind the head, if there is one, beside the root node of the map. Where the map
// is of another version than the proof, or the two have not one level, the strings of the roots
// differ, and so do they where only one is there.
fn walk_root<N: Nodes>(
    alloc: Global,
    nodes: &mut N,
    top: &Top,
    said: &HeadSays,
    from: &mut Rest<'_>,
) -> Result<Walked, AuditErr>
    requires { IsTop N.Hash.of (N.stands nodes.old) top.now }
    ensures kept { N.kept nodes.old nodes.new }
    ensures causes { AuditCauses (N.stands nodes.old) (N.faults nodes.old) (N.faults nodes.new)
        result }
    ensures refused { IfErr result (IsHandedOn (N.refusal nodes.new)) }
    ensures answered { TellsRefusal of_nodes (N.refusal nodes.old) (N.refusal nodes.new) result }
    ensures walked { WalksRoot N.Hash.of (N.stands nodes.old) top.now said.now (left from.old)
        result }
    ensures fetched { FetchesRoot said.now (left from.old) (N.fetches nodes.old)
        (N.fetches nodes.new) }
{
    if said.count == 0 {
        let entry = Entry::none();
        return Ok(Walked { entry, clash: None });
    }
    match top.root {
        None => {
            let alone = pass_root::<N::Hash>(alloc, said.version, said.level, from)?;
            Ok(alone)
        }
        Some(root) => {
            are_words(top.batch, top.count);
            digests_are_sized::<N::Hash>();
            is_rect(&root.rect);
            if is_alike(top, &root, said) {
                let mut view = NodeView::new();
                return walk(alloc, nodes, top.version, &root, &mut view, from);
            }
            let alone = pass_root::<N::Hash>(alloc, said.version, said.level, from)?;
            Ok(alone)
        }
    }
}

// The first pair of the map and the head and cut of this kind that these bytes spell.
pub(crate) fn compare_map<N: Nodes>(
    alloc: Global,
    nodes: &mut N,
    top: &Top,
    kind: Kind,
    proof: &[u8],
) -> Result<Option<Clash>, AuditErr>
    requires { IsTop N.Hash.of (N.stands nodes.old) top.now }
    ensures kept { N.kept nodes.old nodes.new }
    ensures causes { AuditCauses (N.stands nodes.old) (N.faults nodes.old) (N.faults nodes.new)
        result }
    ensures refused { IfErr result (IsHandedOn (N.refusal nodes.new)) }
    ensures answered { TellsRefusal of_nodes (N.refusal nodes.old) (N.refusal nodes.new) result }
    ensures compared { ComparesMap N.Hash.of (N.stands nodes.old) top.now kind proof.now result }
    ensures fetched { FetchesMap kind proof.now (N.fetches nodes.old) (N.fetches nodes.new) }
{
    let mut from = Rest { bytes: proof };
    let said = read_head(kind, &mut from);
    let node = walk_root(alloc, nodes, top, &said, &mut from)?;
    let roots = compare_roots(alloc, top, &said, &node.entry)?;
    Ok(first_of(roots, node.clash))
}

// The finding of bytes for a query, by what they are worth.
fn finding_of(question_finding: QuestionFinding, q: &Query) -> Result<Finding, AllocError>
    ensures { IfOk result (FindsOf q.now question_finding) }
{
    match question_finding {
        QuestionFinding::Refused(fault) => Ok(Finding::Refused(fault)),
        QuestionFinding::Sound(collected) => {
            let answer = answer_of(collected, q)?;
            Ok(Finding::Sound(Items::of(answer)))
        }
        QuestionFinding::Collision(owned, shown) => Ok(Finding::Collision(owned, shown)),
    }
}

/// What the bytes of a proof are worth against the map itself: whether they are refused, are the
/// honest proof of the answer to the query, or show a collision.
///
/// The proof is checked as a client checks it, against the root digest of the map. Bytes that are
/// accepted are then compared with the map. Of the strings that stand at one place and differ the
/// first two have one hash: a node's come before its children's, and children's from left to right.
/// Those of the map are in its version and those of the proof in the proof's, so that a map and a
/// proof of two versions differ at their roots.
///
/// The walk goes over the map and the bytes once, side by side. It fetches what the proof opens,
/// and hashes only strings that differ from the map's or have none beside them. It keeps the nodes
/// on the path, at most eight, what is known of their children, and a pair for each of them.
pub fn audit<N: Nodes>(
    alloc: Global,
    nodes: &mut N,
    q: &Query,
    proof: &[u8],
) -> Result<Finding, AuditErr>
    requires { IsAskable q.now }
    ensures kept { N.kept nodes.old nodes.new }
    ensures causes { AuditCauses (N.stands nodes.old) (N.faults nodes.old) (N.faults nodes.new)
        result }
    ensures refused { IfErr result (IsHandedOn (N.refusal nodes.new)) }
    ensures answered { TellsRefusal of_nodes (N.refusal nodes.old) (N.refusal nodes.new) result }
    ensures told { IfSome (N.stands nodes.old).tree (λ t. IfOk result (λ v. v
        ≡ found (by (N.stands nodes.old).version N.Hash.of) t (N.stands nodes.old).batch
        q.now proof.now)) }
    // Just the honest proof is found to be sound, and of a map of version 1 none where a mask is
    // named.
    ensures honest { IfSome (N.stands nodes.old).tree (λ t. IfOk result (λ v.
        FindsHonest (by (N.stands nodes.old).version N.Hash.of) t (N.stands nodes.old).batch
        q.now proof.now v)) }
    // Told or not, what is found goes by the verdict against the root digest of what the map says
    // of itself.
    ensures judged { IfOk result (λ v. FindsFor N.Hash.of (N.stands nodes.old) (N.says nodes.old)
        q.now proof.now v) }
    ensures collides { IfOk result (λ v. ShowsCollision N.Hash.of v) }
    // No more nodes are fetched than accepted bytes open, and none for bytes that are refused: by
    // that verdict, and where the tree is told, by the verdict against the root digest of that.
    ensures fetches { FetchesFew N.Hash.of (N.stands nodes.old) (N.says nodes.old) q.now proof.now
        (N.fetches nodes.old) (N.fetches nodes.new) }
    ensures fetched { IfSome (N.stands nodes.old).tree (λ t. N.fetches nodes.new ≤
        N.fetches nodes.old + opened_accepted (by (N.stands nodes.old).version N.Hash.of) t
        (N.stands nodes.old).batch q.now proof.now) }
{
    is_query(q);
    query_is_lawful(q);
    honest_is_accepted::<N::Hash>(q);
    accepted_is_honest::<N::Hash>(q, proof);
    let top = nodes.top();
    are_words(top.batch, top.count);
    let question_finding = audit_question(alloc, nodes, q, proof)?;
    Ok(finding_of(question_finding, q)?)
}

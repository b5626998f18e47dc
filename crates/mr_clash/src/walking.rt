//! The nodes of a map and the items of a proof of its version, side by side.

ghost use Rattle.std.specs.Prelude.{◌≡◌, ◌+◌, ◌^◌, ◌<◌, ◌≤◌, ℕ, List, length, All, OnOk, IfOk, IfErr};
ghost use Rattle.mr_tree.specs.Nodes.{MayFetch, ShowsNode, TellsRefusal};
ghost use Rattle.mr_tree.specs.declared.child.Child as types;
ghost use Rattle.mr_tree.specs.Digest.{by};
ghost use Rattle.mr_clash.specs.Causes.{AuditCauses, IsHandedOn, of_nodes};
ghost use Rattle.mr_clash.specs.private.Steps.{left, FetchesChildren, FetchesItem, FetchesItems, WalksCut, WalksAll, WalksChildren};
ghost use Rattle.mr_tree.specs.Limits.{inner_limit, level_limit};

use crate::AuditErr;
use crate::finding::first_of;
use crate::items::{pass_items, pass_pruned};
use crate::rest::{Rest, byte, is_pruned};
use crate::walked::{Row, Walked, close_inner, walk_leaf};
use mr_record::Version;
use mr_tree::{Child, Hashes, NodeView, Nodes, is_view};
use std::alloc::{AllocError, Global};

// What the hash function's laws tell.
pub(crate) fn digests_are_sized<H: Hashes>()
    ensures { (bytes : List ℕ) → length (H.of bytes) ≡ 32 }
{}

// Fetches a node, and hands a refusal on as it came.
fn fetch<N: Nodes>(nodes: &mut N, child: &Child, view: &mut NodeView) -> Result<(), AuditErr>
    requires { MayFetch N.Hash.of (N.stands nodes.old) child.now }
    ensures kept { N.kept nodes.old nodes.new }
    ensures causes { AuditCauses (N.stands nodes.old) (N.faults nodes.old) (N.faults nodes.new)
        result }
    ensures refused { IfErr result (IsHandedOn (N.refusal nodes.new)) }
    ensures answered { TellsRefusal of_nodes (N.refusal nodes.old) (N.refusal nodes.new) result }
    ensures shows { OnOk result (ShowsNode N.Hash.of (N.stands nodes.old) child.now view.new) }
    ensures counted { N.fetches nodes.new ≤ N.fetches nodes.old + 1 }
{
    nodes.fetch(child, view)?;
    Ok(())
}

// The items behind the tag and the count of the inner node of this level that stands next, beside
// the children of a node of the map. Where they are not as many, the two strings differ, so that
// nothing below matters but what is said of the items.
#[cycle(walk)]
fn walk_children<N: Nodes>(
    alloc: Global,
    nodes: &mut N,
    version: Version,
    level: u8,
    children: &[Child],
    from: &mut Rest<'_>,
) -> Result<Row, AuditErr>
    requires above { 0 < level }
    requires low { level ≤ level_limit }
    requires few { length children.now ≤ inner_limit }
    requires may { All (MayFetch N.Hash.of (N.stands nodes.old)) children.now }
    requires version { (N.stands nodes.old).version ≡ version }
    requires alike { All (λ (c : types.Child). c.level + 1 ≡ level) children.now }
    ensures kept { N.kept nodes.old nodes.new }
    ensures causes { AuditCauses (N.stands nodes.old) (N.faults nodes.old) (N.faults nodes.new)
        result }
    ensures refused { IfErr result (IsHandedOn (N.refusal nodes.new)) }
    ensures answered { TellsRefusal of_nodes (N.refusal nodes.old) (N.refusal nodes.new) result }
    ensures walked { WalksChildren (by version N.Hash.of) (N.stands nodes.old) level
        children.now (left from.old) (left from.new) result }
    ensures fetched { FetchesChildren version level (left from.old) (N.fetches nodes.old)
        (N.fetches nodes.new) }
    ensures length_at_most { IfOk result (λ row. length row.entries.items < 2 ^ 8) }
{
    let _tag = byte(from);
    let count = byte(from);
    if usize::from(count) == children.len() {
        return walk_all(alloc, nodes, version, level - 1, children, from);
    }
    let entries = pass_items::<N::Hash>(alloc, version, level - 1, count, from)?;
    Ok(Row {
        entries,
        clash: None,
    })
}

// The items of this level that stand next, beside as many nodes of the map.
#[cycle(walk)]
fn walk_all<N: Nodes>(
    alloc: Global,
    nodes: &mut N,
    version: Version,
    level: u8,
    children: &[Child],
    from: &mut Rest<'_>,
) -> Result<Row, AuditErr>
    requires few { length children.now ≤ inner_limit }
    requires may { All (MayFetch N.Hash.of (N.stands nodes.old)) children.now }
    requires version { (N.stands nodes.old).version ≡ version }
    requires alike { All (λ (c : types.Child). c.level ≡ level) children.now }
    ensures kept { N.kept nodes.old nodes.new }
    ensures causes { AuditCauses (N.stands nodes.old) (N.faults nodes.old) (N.faults nodes.new)
        result }
    ensures refused { IfErr result (IsHandedOn (N.refusal nodes.new)) }
    ensures answered { TellsRefusal of_nodes (N.refusal nodes.old) (N.refusal nodes.new) result }
    ensures walked { WalksAll (by version N.Hash.of) (N.stands nodes.old) level
        children.now (left from.old) (left from.new) result }
    ensures fetched { FetchesItems version level (length children.now) (left from.old)
        (N.fetches nodes.old) (N.fetches nodes.new) }
    ensures length_at_most { IfOk result (λ row. length row.entries.items ≡ length children.now) }
{
    let mut view = NodeView::new();
    let mut entries = Vec::new(alloc);
    let mut clash = None;
    for child in children {
        let one = walk(alloc, nodes, version, child, &mut view, from)?;
        match entries.push(one.entry) {
            Ok(()) => {}
            Err(error) => return Err(AllocError::from(error).into()),
        }
        clash = first_of(clash, one.clash);
    }
    Ok(Row { entries, clash })
}

// The item that stands next, beside the node of the map of which the child is the entry. Nothing
// is fetched for what is pruned, and any other node goes into the view.
#[cycle(walk)]
pub(crate) fn walk<N: Nodes>(
    alloc: Global,
    nodes: &mut N,
    version: Version,
    child: &Child,
    view: &mut NodeView,
    from: &mut Rest<'_>,
) -> Result<Walked, AuditErr>
    requires may { MayFetch N.Hash.of (N.stands nodes.old) child.now }
    requires version { (N.stands nodes.old).version ≡ version }
    ensures kept { N.kept nodes.old nodes.new }
    ensures causes { AuditCauses (N.stands nodes.old) (N.faults nodes.old) (N.faults nodes.new)
        result }
    ensures refused { IfErr result (IsHandedOn (N.refusal nodes.new)) }
    ensures answered { TellsRefusal of_nodes (N.refusal nodes.old) (N.refusal nodes.new) result }
    ensures walked { WalksCut (by version N.Hash.of) (N.stands nodes.old) child.now
        (left from.old) (left from.new) result }
    ensures fetched { FetchesItem version child.now.level (left from.old)
        (N.fetches nodes.old) (N.fetches nodes.new) }
{
    if is_pruned(from) {
        let entry = pass_pruned(version, child.level, from);
        return Ok(Walked { entry, clash: None });
    }
    fetch(nodes, child, view)?;
    if child.level == 0 {
        let leaf = walk_leaf::<N::Hash>(alloc, version, child, view, from)?;
        return Ok(leaf);
    }
    is_view(view);
    digests_are_sized::<N::Hash>();
    let row = walk_children(alloc, nodes, version, child.level, view.children(), from)?;
    let inner = close_inner::<N::Hash>(alloc, version, child, view, row)?;
    Ok(inner)
}

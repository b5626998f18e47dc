//! The nodes of a level: leaves over records, and inner nodes over the level below.

ghost use Rattle.std.specs.Prelude.{◌≡◌, ◌≤◌, ◌<◌, ◌^◌, ℕ, length, map, slice_index_or, OnOk, IfOk, Some};
ghost use Rattle.std.specs.Global.{Vec as list};
ghost use Rattle.std.specs.List.{flat_map, range_with_len};
ghost use Rattle.std.specs.List.Sorted.{IsPermutation};
ghost use Rattle.mr_record.specs.declared.record.Record as types;
ghost use Rattle.mr_geom.specs.Rectangle.{union_of};
ghost use Rattle.mr_tree.specs.Tree.{rect};
ghost use Rattle.mr_tree.specs.declared.tree.Tree.TheVariants as variants;
ghost use Rattle.mr_pack.specs.Pack.{leaves_of, level_above, placed_record, placed_nodes};
ghost use Rattle.mr_pack.specs.declared.node.Node.{Node as node};
ghost use Rattle.mr_pack.specs.private.Remains.{picked};
ghost use Rattle.mr_pack.specs.private.Views.{with_item, with_tree};

use crate::gathering::{take, whole};
use crate::grouping::group;
use crate::node::Node;
use crate::placed::{Placed, place};
use mr_geom::{Rect, joined};
use mr_outside::Items;
use mr_record::Record;
use mr_tree::{INNER_LIMIT, LEAF_LIMIT, Tree, bounds_of};
use std::alloc::{AllocError, Global};

// A leaf with some records.
fn leaf(records: Vec<Record>) -> Node
    ensures { result.tree ≡ variants.Leaf records.items }
{
    let bounds = bounds_of(&records);
    Node {
        bounds,
        tree: Tree::Leaf(Items::of(records)),
    }
}

// The rectangle round some nodes.
fn bounds_of_nodes(nodes: &[Node]) -> Option<Rect>
    ensures { result ≡ union_of (map rect (map (λ (n : node). n.tree) nodes.now)) }
{
    let mut all = None;
    for node in nodes {
        all = joined(all, node.bounds);
    }
    all
}

// The trees of some nodes.
fn trees_of(alloc: Global, nodes: Vec<Node>) -> Result<Vec<Tree>, AllocError>
    ensures { IfOk result (λ v. v.items ≡ map (λ (n : node). n.tree) nodes.items) }
{
    nodes.into_iter().map(|node| node.tree).collect(alloc)
}

// An inner node over some nodes.
fn inner(alloc: Global, nodes: Vec<Node>) -> Result<Node, AllocError>
    ensures { IfOk result (λ (n : node). n.tree
        ≡ variants.Inner (map (λ (n : node). n.tree) nodes.items)) }
{
    let bounds = bounds_of_nodes(&nodes);
    let trees = trees_of(alloc, nodes)?;
    Ok(Node {
        bounds,
        tree: Tree::Inner(Items::of(trees)),
    })
}

// The entries of some records, where the item of each is its place among them.
fn record_entries(alloc: Global, records: &[Record]) -> Result<Vec<Placed<usize>>, AllocError>
    ensures numbers { IfOk result (λ v. map (λ e. e.item) v.items
        ≡ range_with_len 0 (length records.now)) }
    ensures placed { IfOk result (λ v. (d : types.Record)
        → map (with_item (λ i. slice_index_or records.now i d)) v.items
        ≡ map placed_record records.now) }
{
    let mut entries = Vec::with_capacity(alloc, records.len())?;
    for record in records {
        let number = entries.len();
        entries.push(place(Some(record.rect), record.number, number))?;
    }
    Ok(entries)
}

// A leaf of each group. Its records are taken out of the list, which gives back its memory
// meanwhile.
fn leaves_of_groups(
    alloc: Global,
    records: Vec<Record>,
    groups: &[Vec<usize>],
) -> Result<Vec<Node>, AllocError>
    requires { IsPermutation (range_with_len 0 (length records.items))
        (flat_map (λ (g : list ℕ). g.items) groups.now) }
    ensures len { IfOk result (λ v. length v.items ≡ length groups.now) }
    ensures leaves { IfOk result (λ v. (d : types.Record) → map (λ (n : node). n.tree) v.items
        ≡ map (λ (g : list ℕ). variants.Leaf (picked records.items d g.items)) groups.now) }
{
    let mut leaves = Vec::with_capacity(alloc, groups.len())?;
    let mut remains = whole(alloc, records)?;
    for group in groups {
        let taken = take(alloc, &mut remains, group)?;
        leaves.push(leaf(taken))?;
    }
    Ok(leaves)
}

// The leaves over some records.
pub(crate) fn leaves(alloc: Global, records: Vec<Record>) -> Result<Vec<Node>, AllocError>
    requires { length records.items ≤ 2 ^ 20 }
    ensures { IfOk result (λ v. map (λ (n : node). n.tree) v.items ≡ leaves_of records.items) }
{
    let entries = record_entries(alloc, &records)?;
    let groups = group(alloc, entries, LEAF_LIMIT as usize)?;
    leaves_of_groups(alloc, records, &groups)
}

// The entries of some nodes.
fn entries_of_nodes(alloc: Global, nodes: Vec<Node>) -> Result<Vec<Placed<Node>>, AllocError>
    ensures value { IfOk result (λ v. map with_tree v.items
        ≡ placed_nodes 0 (map (λ (n : node). n.tree) nodes.items)) }
    ensures len { IfOk result (λ v. length v.items ≡ length nodes.items) }
{
    let mut entries = Vec::with_capacity(alloc, nodes.len())?;
    for node in nodes {
        let position = entries.len() as u64;
        entries.push(place(node.bounds, position, node))?;
    }
    Ok(entries)
}

// An inner node over each group.
fn inner_nodes(alloc: Global, groups: Vec<Vec<Node>>) -> Result<Vec<Node>, AllocError>
    ensures { IfOk result (λ v. map (λ (n : node). n.tree) v.items
        ≡ map (λ (g : list node). variants.Inner (map (λ (n : node). n.tree) g.items))
        groups.items) }
{
    let mut level = Vec::with_capacity(alloc, groups.len())?;
    for group in groups {
        level.push(inner(alloc, group)?)?;
    }
    Ok(level)
}

// The level above some nodes.
pub(crate) fn above(alloc: Global, nodes: Vec<Node>) -> Result<Vec<Node>, AllocError>
    requires { length nodes.items ≤ 2 ^ 20 }
    ensures { IfOk result (λ v. map (λ (n : node). n.tree) v.items
        ≡ level_above (map (λ (n : node). n.tree) nodes.items)) }
{
    let entries = entries_of_nodes(alloc, nodes)?;
    let groups = group(alloc, entries, INNER_LIMIT as usize)?;
    inner_nodes(alloc, groups)
}

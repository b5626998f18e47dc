//! How the nodes of a tree are put into a list.

ghost use Rattle.std.specs.Prelude.{◌≡◌, ◌≢◌, ◌+◌, ◌^◌, ◌<◌, ◌≤◌, ◌∷◌, ◌++◌, [], length, All, OnOk, IfOk, IsSome};
ghost use Rattle.mr_record.specs.Record.{HasLayer};
ghost use Rattle.mr_tree.specs.WellFormed.{HasLayers};
ghost use Rattle.mr_tree.specs.Limits.{count_limit};
ghost use Rattle.mr_tree.specs.Tree.{records};
ghost use Rattle.mr_tree.specs.Digest.{by};
ghost use Rattle.mr_tree.specs.View.{AreTold, level_of, child_entry};
ghost use Rattle.mr_tree.specs.Nodes.{subtrees};
ghost use Rattle.mr_tree.specs.Snapshot.{trees, tree_over, HasShape, IsLinked, AreLinked, IsPlaced, IsRooted};
ghost use Rattle.mr_tree.specs.private.Sound.{IsSound, IsSoundNode};
ghost use Rattle.mr_tree.specs.declared.stored.Stored.TheVariants.{Children};
ghost use Rattle.mr_tree.specs.declared.tree.Tree.TheVariants as variants;
ghost use Rattle.mr_tree.specs.declared.tree.Tree.TheOpen.{Leaf, Inner};

use crate::digest::leaf_entry;
use crate::stored::Stored;
use crate::view::inner_entry;
use crate::{Child, Entry, Hashes, Tree};
use mr_outside::Items;
use mr_record::{Record, Version};
use std::alloc::{AllocError, Global};

// Puts one node behind the others, and answers its id.
fn put(nodes: &mut Vec<Stored>, node: Stored) -> Result<u32, AllocError>
    requires { length nodes.old.items + 1 < 2 ^ 32 }
    ensures nodes { OnOk result (nodes.new.items ≡ nodes.old.items ++ node ∷ []) }
    ensures id { IfOk result (λ id. id ≡ length nodes.old.items + 1) }
{
    nodes.push(node)?;
    Ok(nodes.len() as u32)
}

// The child with this id of which this is said.
fn child_with(id: u32, entry: &Entry) -> Child
    requires { IsSome entry.now.rect }
    ensures id { result.id ≡ id }
    ensures entry { child_entry result ≡ entry.now }
{
    let Some(rect) = entry.rect else {
        unreachable!()
    };
    Child {
        id,
        level: entry.level,
        rect,
        mask: entry.mask,
        count: entry.count,
        digest: entry.digest,
    }
}

fn place_leaf<H: Hashes>(
    alloc: Global,
    version: Version,
    records: &[Record],
    nodes: &mut Vec<Stored>,
) -> Result<Child, AllocError>
    requires sound { IsSoundNode (Leaf records.now) }
    requires layers { All (HasLayer version) records.now }
    requires room { length nodes.old.items + 1 < 2 ^ 32 }
    requires linked { AreLinked (by version H.of) nodes.old.items }
    ensures { IfOk result (λ c. IsPlaced (by version H.of) nodes.old.items nodes.new.items c
        (variants.Leaf records.now) (variants.Leaf records.now ∷ [])) }
{
    let entry = leaf_entry::<H>(version, records);
    let list = Vec::from_slice(alloc, records)?;
    let id = put(nodes, Stored::Records(Items::of(list)))?;
    Ok(child_with(id, &entry))
}

// The level of an inner node.
pub(crate) fn level_over(children: &[Child]) -> u8
    requires { level_of (Inner children.now) ≤ 7 }
    ensures { result ≡ level_of (Inner children.now) }
{
    match children.first() {
        None => 1,
        Some(child) => child.level + 1,
    }
}

// Puts an inner node over children that stand before it.
fn place_inner<H: Hashes>(
    version: Version,
    children: Vec<Child>,
    nodes: &mut Vec<Stored>,
) -> Result<Child, AllocError>
    requires shape { HasShape (Inner children.items) }
    requires told { AreTold version (Inner children.items) }
    requires room { length nodes.old.items + 1 < 2 ^ 32 }
    requires links { All (IsLinked (by version H.of) (trees nodes.old.items)) children.items }
    requires linked { AreLinked (by version H.of) nodes.old.items }
    ensures { IfOk result (λ c. IsPlaced (by version H.of) nodes.old.items nodes.new.items c
        (tree_over (trees nodes.old.items) (Children children.items))
        (tree_over (trees nodes.old.items) (Children children.items) ∷ [])) }
{
    let level = level_over(children.as_slice());
    let entry = inner_entry::<H>(version, level, children.as_slice());
    let id = put(nodes, Stored::Children(Items::of(children)))?;
    Ok(child_with(id, &entry))
}

// Puts the nodes of a tree behind the others, children before their parent, and answers the entry
// of the uppermost.
fn place<H: Hashes>(
    alloc: Global,
    version: Version,
    tree: &Tree,
    nodes: &mut Vec<Stored>,
) -> Result<Child, AllocError>
    requires sound { IsSound tree.now }
    requires layers { HasLayers version tree.now }
    requires filled { tree.now ≢ variants.Empty }
    requires few { length (records tree.now) ≤ count_limit }
    requires room { length nodes.old.items + length (subtrees tree.now) < 2 ^ 32 }
    requires linked { AreLinked (by version H.of) nodes.old.items }
    ensures { IfOk result (λ c. IsPlaced (by version H.of) nodes.old.items nodes.new.items c
        tree.now (subtrees tree.now)) }
{
    match tree {
        Tree::Empty => unreachable!(),
        Tree::Leaf(records) => place_leaf::<H>(alloc, version, records.as_slice(), nodes),
        Tree::Inner(children) => {
            let mut entries = Vec::with_capacity(alloc, children.as_slice().len())?;
            for child in children.as_slice() {
                entries.push(place::<H>(alloc, version, child, nodes)?)?;
            }
            place_inner::<H>(version, entries, nodes)
        }
    }
}

// Puts the nodes of a tree into a list, and answers the root entry.
pub(crate) fn rooted<H: Hashes>(
    alloc: Global,
    version: Version,
    tree: &Tree,
    nodes: &mut Vec<Stored>,
) -> Result<Option<Child>, AllocError>
    requires sound { IsSound tree.now }
    requires layers { HasLayers version tree.now }
    requires few { length (records tree.now) ≤ count_limit }
    requires room { length (subtrees tree.now) < 2 ^ 32 }
    requires empty { nodes.old.items ≡ [] }
    ensures { IfOk result (λ o. IsRooted (by version H.of) nodes.new.items o tree.now) }
{
    if let Tree::Empty = tree {
        return Ok(None);
    }
    let root = place::<H>(alloc, version, tree, nodes)?;
    Ok(Some(root))
}

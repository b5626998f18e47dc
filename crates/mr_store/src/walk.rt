//! A walk over the nodes of a map, each of which is fetched once.

ghost use Rattle.std.specs.Prelude.{◌≡◌, ◌≤◌, ◌⊎◌, ◌+◌, ℕ, Bool, true, List, [], map, length, Some, IfOk, IfErr, IsSome, OnOk};
ghost use Rattle.mr_outside.specs.Faults.{next_count};
ghost use Rattle.mr_tree.specs.Digest.{Scheme, by};
ghost use Rattle.mr_tree.specs.Nodes.{MayFetch, ShowsNode, TellsRefusal};
ghost use Rattle.mr_tree.specs.View.{IsView, count_over, child_entry};
ghost use Rattle.mr_tree.specs.declared.child.Child as types;
ghost use Rattle.mr_tree.specs.declared.nodes.NodesErr.TheVariants as errors;
ghost use Rattle.mr_tree.specs.declared.tree.Tree as trees;
ghost use Rattle.mr_tree.specs.declared.tree.Tree.TheVariants as tree;
ghost use Rattle.mr_tree.specs.declared.tree.Tree.TheOpen.{Leaf, Inner};
ghost use Rattle.mr_pages.specs.Walking.{Saw};
ghost use Rattle.mr_pages.specs.private.Judging.{fits_entry};
ghost use Rattle.mr_store.specs.Blamed.{StopsAs, IsBlamed};
ghost use Rattle.mr_store.specs.private.Walk.{SuitsEntry, IsCounted, IsFull, CanWalk, AddsNumbers, moved, nodes_at, GathersAll, Walked, StopsWalk, IsUnfit, IsTwice};

use mr_pages::{Visited, is_fit, moved_to};
use mr_record::{Record, Version};
use mr_tree::{Child, NodeView, Nodes, NodesErr, is_view};
use std::alloc::Global;

/// What is made of the nodes of a map, of each one behind those below it.
pub(crate) trait Gather {
    // from what was there before to what is there now: the node with this tree was added, and is
    // found by this entry
    ghost gathers: { Scheme → Self → Self → types.Child → trees.Tree → Type 0 };

    /// Adds a leaf with these records, and answers where it is found.
    fn leaf(&mut self, child: &Child, records: &[Record]) -> Result<u32, NodesErr>
        ensures gathers { IfOk result (λ id. (x : Scheme) (root : Bool) →
            SuitsEntry x root child.now (Leaf records.now) →
            gathers x self.old self.new (moved id child.now) (tree.Leaf records.now)) }
        ensures memory { IfErr result (λ e. e ≡ errors.NoMemory) };

    /// Adds an inner node, whose children were added and are found by these entries, and answers
    /// where it is found.
    fn inner(&mut self, child: &Child, children: Vec<Child>) -> Result<u32, NodesErr>
        ensures gathers { IfOk result (λ id. (x : Scheme) (before : Self) (root : Bool)
            (cs : List types.Child) (ts : List trees.Tree) → SuitsEntry x root child.now
            (Inner cs) →
            map child_entry children.items ≡ map child_entry cs →
            GathersAll (gathers x) before self.old children.items ts →
            gathers x before self.new (moved id child.now) (tree.Inner ts)) }
        ensures memory { IfErr result (λ e. e ≡ errors.NoMemory) };
}

// Fetches a node that breaks no rule by itself.
fn look<N: Nodes>(
    version: Version,
    nodes: &mut N,
    child: &Child,
    root: bool,
    view: &mut NodeView,
) -> Result<(), NodesErr>
    requires version { (N.stands nodes.old).version ≡ version }
    requires may { MayFetch N.Hash.of (N.stands nodes.old) child.now }
    ensures kept { N.kept nodes.old nodes.new }
    ensures counted { N.fetches nodes.new ≡ next_count (N.fetches nodes.old) }
    ensures shows { OnOk result (ShowsNode N.Hash.of (N.stands nodes.old) child.now view.new) }
    ensures views { OnOk result (IsView view.new) }
    ensures suits { OnOk result (IsCounted root child.now (count_over version view.new) →
        SuitsEntry (by version N.Hash.of) root child.now view.new) }
    ensures quiet { OnOk result (N.faults nodes.new ≡ N.faults nodes.old) }
    ensures answered { TellsRefusal (λ e. e) (N.refusal nodes.old) (N.refusal nodes.new) result }
    ensures cause { IfErr result (StopsWalk (N.stands nodes.old) (N.faults nodes.old)
        (N.faults nodes.new) (IsFull (N.stands nodes.old) root child.now)) }
    ensures fits { OnOk result (fits_entry version root child.now view.new ≡ true) }
    ensures asks { N.asked nodes.new child.now }
    // The child's page is blamed for what was shown, or else this is what the fetch refused.
    ensures blames { IfErr result (λ e. IsUnfit N.Hash.of (N.stands nodes.old) root child.now
        view.new e ⊎ (N.refusal nodes.new ≡ Some e)) }
{
    nodes.fetch(child, view)?;
    is_view(view);
    if !is_fit(version, view, child, root) {
        return Err(NodesErr::Page { page: child.id });
    }
    Ok(())
}

// Meets the records of a leaf on this page, none of whose numbers was met before.
fn meet(page: u32, records: &[Record], seen: &mut Visited) -> Result<(), NodesErr>
    ensures adds { OnOk result (AddsNumbers seen.old seen.new records.now) }
    ensures twice { IfErr result (IsTwice page seen.old records.now) }
{
    match seen.meet(records) {
        Err(_) => Err(NodesErr::NoMemory),
        Ok(true) => Err(NodesErr::Page { page }),
        Ok(false) => Ok(()),
    }
}

// Walks over a leaf that a view shows.
fn walk_leaf<G: Gather>(
    child: &Child,
    records: &[Record],
    seen: &mut Visited,
    into: &mut G,
) -> Result<Child, NodesErr>
    ensures gathers { IfOk result (λ c. (x : Scheme) (root : Bool) →
        SuitsEntry x root child.now (Leaf records.now) →
        G.gathers x into.old into.new c (tree.Leaf records.now)) }
    ensures same { IfOk result (λ c. child_entry c ≡ child_entry child.now) }
    ensures adds { OnOk result (AddsNumbers seen.old seen.new records.now) }
    ensures twice { IfErr result (IsTwice child.now.id seen.old records.now) }
{
    meet(child.id, records, seen)?;
    let id = into.leaf(child, records)?;
    Ok(moved_to(id, child))
}

/// Walks over the node of the child and all below it, and answers the entry by which it is found in
/// what was made. The view is only worked with.
pub(crate) fn walk<N: Nodes, G: Gather>(
    alloc: Global,
    version: Version,
    nodes: &mut N,
    child: &Child,
    root: bool,
    view: &mut NodeView,
    seen: &mut Visited,
    into: &mut G,
) -> Result<Child, NodesErr>
    requires version { (N.stands nodes.old).version ≡ version }
    requires may { MayFetch N.Hash.of (N.stands nodes.old) child.now }
    ensures kept { N.kept nodes.old nodes.new }
    ensures walked { IfOk result (λ c. Walked (by version N.Hash.of) (N.stands nodes.old) root
        child.now seen.old seen.new (N.fetches nodes.old) (N.fetches nodes.new)
        (G.gathers (by version N.Hash.of) into.old into.new c)) }
    ensures same { IfOk result (λ c. child_entry c ≡ child_entry child.now) }
    ensures fetched { IsSome (N.stands nodes.old).tree → N.fetches nodes.new ≤
        N.fetches nodes.old + nodes_at ((N.stands nodes.old).node child.now.id) }
    ensures quiet { OnOk result (N.faults nodes.new ≡ N.faults nodes.old) }
    ensures answered { TellsRefusal (λ e. e) (N.refusal nodes.old) (N.refusal nodes.new) result }
    ensures cause { IfErr result (StopsWalk (N.stands nodes.old) (N.faults nodes.old)
        (N.faults nodes.new) (CanWalk (N.stands nodes.old) root seen.old child.now)) }
    ensures blames { IfErr result (λ e. (pages : ℕ) (ns : List ℕ) → Saw pages seen.old [] ns →
        StopsAs (IsBlamed N.Hash.of (N.stands nodes.old) (N.asked nodes.new) root ns child.now)
        (N.refusal nodes.new) e) }
{
    look(version, nodes, child, root, view)?;
    if view.level() == 0 {
        walk_leaf(child, view.records(), seen, into)
    } else {
        let children = Vec::from_slice(alloc, view.children())?;
        let mut below = Vec::with_capacity(alloc, children.len())?;
        for one in &children {
            let made = walk(alloc, version, nodes, one, false, view, seen, into)?;
            below.push(made)?;
        }
        let id = into.inner(child, below)?;
        Ok(moved_to(id, child))
    }
}

//! A map that is copied into memory, node by node, as its nodes are fetched.

ghost use Rattle.std.specs.Prelude.{◌≡◌, ◌≤◌, ◌+◌, length, IfOk, IfErr, IfSome, OnOk, Some};
ghost use Rattle.mr_tree.specs.Nodes.{HasSomeCause, IsTop, TellsRefusal, subtrees};
ghost use Rattle.mr_tree.specs.Snapshot.{AreLinked, IsPlaced, snapshot_model, tree_of};
ghost use Rattle.mr_tree.specs.declared.nodes.NodesErr.TheVariants as errors;
ghost use Rattle.mr_pages.specs.private.Copying.{IsPut};
ghost use Rattle.mr_store.specs.Blamed.{StopsAt};
ghost use Rattle.mr_store.specs.Stored.{IsSaid, IsSnapshotOf};

use crate::listing::fits;
use crate::walk::{Gather, walk};
use mr_outside::Items;
use mr_pages::{Visited, put_stored};
use mr_record::Record;
use mr_tree::{Child, NodeView, Nodes, NodesErr, Snapshot, Stored, Top};
use std::alloc::Global;

// Nodes in a list, children before their parent.
#[derive(Drop)]
struct Copies {
    alloc: Global,
    nodes: Vec<Stored>,
}

// Puts a node behind the others, and answers its id there.
fn put(list: &mut Vec<Stored>, node: Stored) -> Result<u32, NodesErr>
    ensures put { IfOk result (IsPut list.old.items list.new.items node) }
    ensures memory { IfErr result (λ e. e ≡ errors.NoMemory) }
{
    Ok(put_stored(list, node)?)
}

impl Gather for Copies {
    ghost gathers = { λ x s t c u. AreLinked x s.nodes.items →
        IsPlaced x s.nodes.items t.nodes.items c u (subtrees u) };

    fn leaf(&mut self, _child: &Child, records: &[Record]) -> Result<u32, NodesErr> {
        let records = Vec::from_slice(self.alloc, records)?;
        put(&mut self.nodes, Stored::Records(Items::of(records)))
    }

    fn inner(&mut self, _child: &Child, children: Vec<Child>) -> Result<u32, NodesErr> {
        put(&mut self.nodes, Stored::Children(Items::of(children)))
    }
}

// The map whose root this is.
fn copied_from<N: Nodes>(
    alloc: Global,
    nodes: &mut N,
    top: &Top,
    root: &Child,
    pages: u32,
) -> Result<Snapshot<N::Hash>, NodesErr>
    requires top { IsTop N.Hash.of (N.stands nodes.old) top.now }
    requires root { top.now.root ≡ Some root.now }
    ensures kept { N.kept nodes.old nodes.new }
    ensures stands { IfOk result (λ p. IsSnapshotOf (N.stands nodes.old) p.nodes.items p.top) }
    ensures says { IfOk result (λ p. IsSaid N.Hash.of top.now
        (snapshot_model p.nodes.items p.top)) }
    ensures fetched { IfSome (N.stands nodes.old).tree (λ t. N.fetches nodes.new ≤
        N.fetches nodes.old + length (subtrees t)) }
    ensures fetches_at_most { IfOk result (λ p. N.fetches nodes.new
        ≤ N.fetches nodes.old + length (subtrees (tree_of p.nodes.items p.top))) }
    ensures quiet { OnOk result (N.faults nodes.new ≡ N.faults nodes.old) }
    ensures answered { TellsRefusal (λ e. e) (N.refusal nodes.old) (N.refusal nodes.new) result }
    ensures cause { IfErr result (HasSomeCause (N.stands nodes.old)
        (N.faults nodes.old) (N.faults nodes.new)) }
    ensures blames { IfErr result (StopsAt N.Hash.of (N.stands nodes.old) top.now.root
        top.now.count (N.asked nodes.new) (N.refusal nodes.new)) }
{
    let mut seen = Visited::new(alloc, pages)?;
    let mut into = Copies {
        alloc,
        nodes: Vec::new(alloc),
    };
    let copied = walk(
        alloc,
        top.version,
        nodes,
        root,
        true,
        &mut NodeView::new(),
        &mut seen,
        &mut into,
    )?;
    fits(root, seen.numbers.count(), top.count)?;
    Ok(Snapshot::over(
        into.nodes,
        Top {
            version: top.version,
            batch: top.batch,
            count: top.count,
            root: Some(copied),
        },
    ))
}

// A copy of the whole map, which says this of itself, of a store of so many pages, made as its
// nodes are fetched.
pub(crate) fn copied<N: Nodes>(
    alloc: Global,
    nodes: &mut N,
    top: &Top,
    pages: u32,
) -> Result<Snapshot<N::Hash>, NodesErr>
    requires top { IsTop N.Hash.of (N.stands nodes.old) top.now }
    ensures kept { N.kept nodes.old nodes.new }
    ensures stands { IfOk result (λ p. IsSnapshotOf (N.stands nodes.old) p.nodes.items p.top) }
    ensures says { IfOk result (λ p. IsSaid N.Hash.of top.now
        (snapshot_model p.nodes.items p.top)) }
    ensures fetched { IfSome (N.stands nodes.old).tree (λ t. N.fetches nodes.new ≤
        N.fetches nodes.old + length (subtrees t)) }
    ensures fetches_at_most { IfOk result (λ p. N.fetches nodes.new
        ≤ N.fetches nodes.old + length (subtrees (tree_of p.nodes.items p.top))) }
    ensures quiet { OnOk result (N.faults nodes.new ≡ N.faults nodes.old) }
    ensures answered { TellsRefusal (λ e. e) (N.refusal nodes.old) (N.refusal nodes.new) result }
    ensures cause { IfErr result (HasSomeCause (N.stands nodes.old)
        (N.faults nodes.old) (N.faults nodes.new)) }
    ensures blames { IfErr result (StopsAt N.Hash.of (N.stands nodes.old) top.now.root
        top.now.count (N.asked nodes.new) (N.refusal nodes.new)) }
{
    match &top.root {
        None => Ok(Snapshot::over(
            Vec::new(alloc),
            Top {
                version: top.version,
                batch: top.batch,
                count: top.count,
                root: None,
            },
        )),
        Some(root) => copied_from(alloc, nodes, top, root, pages),
    }
}

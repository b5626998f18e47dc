//! The directory of a map whose nodes are fetched one by one.

ghost use Rattle.std.specs.Prelude.{◌≡◌, ◌≢◌, OnErr, ◌+◌, ◌≤◌, ◌++◌, [], map, Some, IfOk, IfErr, OnOk, IfSome, IsSome, length};
ghost use Rattle.std.specs.BTreeMap.{IsFromIterResult};
ghost use Rattle.std.specs.Ordering.{nat_cmp};
ghost use Rattle.mr_record.specs.Version.{told};
ghost use Rattle.mr_tree.specs.Digest.{by};
ghost use Rattle.mr_tree.specs.Tree.{records as records_in};
ghost use Rattle.mr_tree.specs.declared.nodes.NodesErr.TheVariants as errors;
ghost use Rattle.mr_tree.specs.Nodes.{IsTop, MayFetch, HasSomeCause, TellsRefusal, subtrees};
ghost use Rattle.mr_batch.specs.Directory.{IsDirectoryOf};
ghost use Rattle.mr_store.specs.Blamed.{StopsAt};
ghost use Rattle.mr_store.specs.private.Walk.{HasSeenNone, StopsWalk, nodes_at};
ghost use Rattle.mr_store.specs.private.Listing.{directory_entry, ListsAt, ListsMore, ListsNode, GathersDirectory, HasAt, ListsTree, CanListAll};
ghost use Rattle.mr_store.specs.Stored.{IsListedAs};

use crate::record_list::RecordList;
use crate::walk::{Gather, walk};
use mr_batch::Directory;
use mr_geom::Rect;
use mr_pages::{Node, Visited};
use mr_record::{Record, Version};
use mr_tree::{COUNT_LIMIT, Child, LEAF_LIMIT, NodeView, Nodes, NodesErr, Top};
use std::alloc::{AllocError, Global};
use std::collections::BTreeMap;

// The number and the rectangle of each record, in the order of a walk.
#[derive(Drop)]
struct Entries {
    all: Vec<(u64, Rect)>,
}

// Lists the number and the rectangle of each of these records.
fn list_records(all: &mut Vec<(u64, Rect)>, records: &[Record]) -> Result<(), AllocError>
    ensures { OnOk result (all.new.items ≡ all.old.items ++ map directory_entry records.now) }
{
    for one in records {
        all.push((one.number, one.rect))?;
    }
    Ok(())
}

// Lists these records, where they are wanted.
fn list_wanted(list: &mut RecordList, records: &[Record]) -> Result<(), AllocError>
    ensures { OnOk result (ListsMore list.old list.new records.now) }
{
    if !list.wanted {
        return Ok(());
    }
    list_records(&mut list.entries, records)
}

// Lists the records of a node, where they are wanted.
pub(crate) fn list_node(list: &mut RecordList, node: &Node) -> Result<(), AllocError>
    ensures { OnOk result (ListsNode list.old list.new node.now) }
{
    match node {
        Node::Leaf(records) => list_wanted(list, records.as_slice()),
        Node::Inner(_) => Ok(()),
    }
}

impl Gather for Entries {
    ghost gathers = { λ x s t c u. t.all.items ≡ s.all.items ++ map directory_entry
        (records_in u) };

    fn leaf(&mut self, _child: &Child, records: &[Record]) -> Result<u32, NodesErr> {
        list_records(&mut self.all, records)?;
        Ok(0)
    }

    // What is listed of a node is found by no entry.
    fn inner(&mut self, _child: &Child, _children: Vec<Child>) -> Result<u32, NodesErr> {
        Ok(0)
    }
}

// What a walk over a map of so many records has seen before it begins.
fn unseen(alloc: Global, count: u64) -> Result<Visited, NodesErr>
    ensures none { IfOk result HasSeenNone }
    ensures memory { IfErr result (λ e. e ≡ errors.NoMemory) }
{
    let leaves = count.min(COUNT_LIMIT) / LEAF_LIMIT as u64 + 1;
    Ok(Visited::new(alloc, leaves as u32)?)
}

// Room for so many records.
fn room(alloc: Global, count: u64) -> Result<Vec<(u64, Rect)>, NodesErr>
    ensures none { IfOk result (λ all. all.items ≡ []) }
    ensures memory { IfErr result (λ e. e ≡ errors.NoMemory) }
{
    Ok(Vec::with_capacity(alloc, count.min(COUNT_LIMIT) as usize)?)
}

// Refuses the root, where other than so many records were met.
pub(crate) fn fits(root: &Child, met: u64, count: u64) -> Result<(), NodesErr>
    ensures fits { OnOk result (met ≡ count) }
    ensures other { OnErr result (met ≢ count) }
    ensures blames { IfErr result (λ e. e ≡ errors.Page root.now.id) }
{
    if met != count {
        return Err(NodesErr::Page { page: root.id });
    }
    Ok(())
}

// The number and the rectangle of each record below the root, of which there are to be so many, in
// the order of a walk.
fn listed<N: Nodes>(
    alloc: Global,
    version: Version,
    nodes: &mut N,
    root: &Child,
    count: u64,
) -> Result<Vec<(u64, Rect)>, NodesErr>
    requires version { (N.stands nodes.old).version ≡ version }
    requires may { MayFetch N.Hash.of (N.stands nodes.old) root.now }
    requires counted { root.now.count ≡ told version count }
    ensures kept { N.kept nodes.old nodes.new }
    ensures lists { IfOk result (λ all. ListsAt (N.stands nodes.old) root.now all.items) }
    ensures says { IfOk result (λ all. ListsTree (by version N.Hash.of) root.now count
        (N.fetches nodes.old) (N.fetches nodes.new) (λ rs. all.items ≡ map directory_entry rs)) }
    ensures fetched { IsSome (N.stands nodes.old).tree → N.fetches nodes.new
        ≤ N.fetches nodes.old + nodes_at ((N.stands nodes.old).node root.now.id) }
    ensures quiet { OnOk result (N.faults nodes.new ≡ N.faults nodes.old) }
    ensures answered { TellsRefusal (λ e. e) (N.refusal nodes.old) (N.refusal nodes.new) result }
    ensures cause { IfErr result (StopsWalk (N.stands nodes.old) (N.faults nodes.old)
        (N.faults nodes.new) (CanListAll (N.stands nodes.old) root.now count)) }
    ensures blames { IfErr result (StopsAt N.Hash.of (N.stands nodes.old) (Some root.now)
        count (N.asked nodes.new) (N.refusal nodes.new)) }
{
    let mut seen = unseen(alloc, count)?;
    let mut into = Entries {
        all: room(alloc, count)?,
    };
    let mut view = NodeView::new();
    let _root = walk(
        alloc, version, nodes, root, true, &mut view, &mut seen, &mut into,
    )?;
    fits(root, seen.numbers.count(), count)?;
    Ok(into.all)
}

// What was listed, by number.
fn collected(alloc: Global, all: Vec<(u64, Rect)>) -> Result<BTreeMap<u64, Rect>, AllocError>
    ensures { IfOk result (IsFromIterResult nat_cmp all.items) }
{
    all.into_iter().collect(alloc)
}

// The same as a directory.
pub(crate) fn gathered(alloc: Global, all: Vec<(u64, Rect)>) -> Result<Directory, NodesErr>
    ensures lists { IfOk result (GathersDirectory all.items) }
    ensures memory { IfErr result (λ e. e ≡ errors.NoMemory) }
{
    Ok(Directory::over(collected(alloc, all)?))
}

// The directory of a map with this root, of which there are to be so many records.
fn list_all<N: Nodes>(
    alloc: Global,
    version: Version,
    nodes: &mut N,
    root: &Child,
    count: u64,
) -> Result<Directory, NodesErr>
    requires version { (N.stands nodes.old).version ≡ version }
    requires may { MayFetch N.Hash.of (N.stands nodes.old) root.now }
    requires counted { root.now.count ≡ told version count }
    ensures kept { N.kept nodes.old nodes.new }
    ensures lists { IfOk result (HasAt (N.stands nodes.old) root.now) }
    ensures says { IfOk result (λ d. ListsTree (by version N.Hash.of) root.now count
        (N.fetches nodes.old) (N.fetches nodes.new) (IsDirectoryOf d)) }
    ensures fetched { IsSome (N.stands nodes.old).tree → N.fetches nodes.new
        ≤ N.fetches nodes.old + nodes_at ((N.stands nodes.old).node root.now.id) }
    ensures quiet { OnOk result (N.faults nodes.new ≡ N.faults nodes.old) }
    ensures answered { TellsRefusal (λ e. e) (N.refusal nodes.old) (N.refusal nodes.new) result }
    ensures cause { IfErr result (StopsWalk (N.stands nodes.old) (N.faults nodes.old)
        (N.faults nodes.new) (CanListAll (N.stands nodes.old) root.now count)) }
    ensures blames { IfErr result (StopsAt N.Hash.of (N.stands nodes.old) (Some root.now)
        count (N.asked nodes.new) (N.refusal nodes.new)) }
{
    let all = listed(alloc, version, nodes, root, count)?;
    gathered(alloc, all)
}

// The directory of no records.
fn empty(alloc: Global) -> Result<Directory, NodesErr>
    ensures none { IfOk result (λ d. IsDirectoryOf d []) }
    ensures memory { IfErr result (λ e. e ≡ errors.NoMemory) }
{
    Ok(Directory::of(alloc, &[])?)
}

// The directory of a map that says this of itself.
fn directory_as<N: Nodes>(alloc: Global, nodes: &mut N, top: &Top) -> Result<Directory, NodesErr>
    requires { IsTop N.Hash.of (N.stands nodes.old) top.now }
    ensures kept { N.kept nodes.old nodes.new }
    ensures lists { IfOk result (λ d. IfSome (N.stands nodes.old).tree
        (λ t. IsDirectoryOf d (records_in t))) }
    ensures says { IfOk result (IsListedAs N.Hash.of top.now
        (N.fetches nodes.old) (N.fetches nodes.new)) }
    ensures fetched { IfSome (N.stands nodes.old).tree (λ t. N.fetches nodes.new
        ≤ N.fetches nodes.old + length (subtrees t)) }
    ensures quiet { OnOk result (N.faults nodes.new ≡ N.faults nodes.old) }
    ensures answered { TellsRefusal (λ e. e) (N.refusal nodes.old) (N.refusal nodes.new) result }
    ensures cause { IfErr result (HasSomeCause (N.stands nodes.old)
        (N.faults nodes.old) (N.faults nodes.new)) }
    ensures blames { IfErr result (StopsAt N.Hash.of (N.stands nodes.old) top.now.root
        top.now.count (N.asked nodes.new) (N.refusal nodes.new)) }
{
    match &top.root {
        None => empty(alloc),
        Some(root) => list_all(alloc, top.version, nodes, root, top.count),
    }
}

/// The directory of a map: the number and the rectangle of each of its records, found by a walk
/// over all its nodes.
///
/// Where the tree is not told, `Page` names besides a node with too few entries, or one whose
/// rectangle, mask or count is not the one that its parent tells of. Or it names a node with a
/// record's number that was met before. It names the root, where the map has another number of
/// records than it tells.
pub fn directory<N: Nodes>(alloc: Global, nodes: &mut N) -> Result<Directory, NodesErr>
    ensures kept { N.kept nodes.old nodes.new }
    ensures lists { IfOk result (λ d. IfSome (N.stands nodes.old).tree
        (λ t. IsDirectoryOf d (records_in t))) }
    // Told or not, it is of a map that says of itself what this one says, and there were no more
    // fetches than nodes of that one.
    ensures says { IfOk result (IsListedAs N.Hash.of (N.says nodes.old)
        (N.fetches nodes.old) (N.fetches nodes.new)) }
    // There are no more fetches than nodes.
    ensures fetched { IfSome (N.stands nodes.old).tree (λ t. N.fetches nodes.new
        ≤ N.fetches nodes.old + length (subtrees t)) }
    ensures quiet { OnOk result (N.faults nodes.new ≡ N.faults nodes.old) }
    // What a fetch refused is what is answered.
    ensures answered { TellsRefusal (λ e. e) (N.refusal nodes.old) (N.refusal nodes.new) result }
    ensures cause { IfErr result (HasSomeCause (N.stands nodes.old)
        (N.faults nodes.old) (N.faults nodes.new)) }
    // Told or not, it stops with what a fetch refused, or blames a node that breaks a rule, or the
    // root for its count; or memory ran out.
    ensures blames { IfErr result (StopsAt N.Hash.of (N.stands nodes.old)
        (N.says nodes.old).root (N.says nodes.old).count
        (N.asked nodes.new) (N.refusal nodes.new)) }
{
    let top = nodes.top();
    directory_as(alloc, nodes, &top)
}

//! A whole tree that is kept in memory, and readers of it.

ghost use Rattle.std.specs.Prelude.{⊤, ℕ, ◌≡◌, ◌+◌, ◌<◌, ◌≤◌, length, map, slice_get, All, IsOk, IfOk, IfErr, OnOk, Option, Some, None};
ghost use Rattle.std.proofs.Props.{props};
ghost use Rattle.std.specs.Coded.{Coded-set as set};
ghost use Rattle.mr_outside.specs.Faults.{next_count};
ghost use Rattle.mr_tree.specs.Tree.{nodes};
ghost use Rattle.mr_tree.specs.WellFormed.{WellFormed, HasLayers};
ghost use Rattle.mr_record.specs.declared.version.Version.TheVariants.{One, Two};
ghost use Rattle.mr_tree.specs.Nodes.{MayFetch, ShowsNode, HasFetchCause};
ghost use Rattle.mr_tree.specs.declared.nodes.NodesErr as error;
ghost use Rattle.mr_tree.specs.Snapshot.{snapshot_model, tree_model, tree_of, node_of, HasShape, IsSnapshot};
ghost use Rattle.mr_tree.specs.contracts.tree.Tree.{the_row as row};
ghost use Rattle.std.proofs.Common.{rules};
ghost use Rattle.mr_tree.specs.private.SnapshotLaws.{has_ids};

use crate::digest::count;
use crate::placing::{level_over, rooted};
use crate::stored::Stored;
use crate::{Child, Hashes, NodeView, Nodes, NodesErr, Top, Tree};
use mr_record::Version;
use std::alloc::{AllocError, Global};
use std::marker::PhantomData;

/// A whole tree, kept as a list of its nodes. Threads may share it, each with a reader of its own.
#[derive(Drop)]
pub struct Snapshot<H: Hashes> {
    nodes: Vec<Stored>,
    top: Top,
    hash: PhantomData<H>,
    ghost whole: { IsSnapshot H.of nodes.items top } by { Prim.hlevel (props, set row.coded) },
    ghost well_formed: { ∥ WellFormed (tree_of nodes.items top) ∥₁ },
    ghost layered: { HasLayers top.version (tree_of nodes.items top) },
}

/// Fetches nodes of a snapshot. It needs no memory, and no fetch fails.
#[derive(Drop)]
pub struct Reader<'a, H: Hashes> {
    snapshot: &'a Snapshot<H>,
    fetches: u64,
}

impl<H: Hashes> Snapshot<H> {
    /// `of` and `of2` by version.
    pub fn by(
        alloc: Global,
        version: Version,
        tree: &Tree,
        batch: u64,
    ) -> Result<Snapshot<H>, AllocError>
        requires well_formed { WellFormed tree.now }
        requires layers { HasLayers version tree.now }
        ensures stands { IfOk result
            (λ s. snapshot_model s.nodes.items s.top ≡ tree_model version batch tree.now) }
        ensures span { IfOk result
            (λ s. (snapshot_model s.nodes.items s.top).span ≡ nodes tree.now + 1) }
    {
        let mut nodes = Vec::new(alloc);
        let root = rooted::<H>(alloc, version, tree, &mut nodes)?;
        let count = count(tree);
        Ok(Snapshot {
            nodes,
            top: Top {
                version,
                batch,
                count,
                root,
            },
            hash: PhantomData,
        })
    }

    /// Keeps a copy of the tree of a map that stands at this batch.
    pub fn of(alloc: Global, tree: &Tree, batch: u64) -> Result<Snapshot<H>, AllocError>
        requires well_formed { WellFormed tree.now }
        requires layers { HasLayers One tree.now }
        ensures stands { IfOk result
            (λ s. snapshot_model s.nodes.items s.top ≡ tree_model One batch tree.now) }
        ensures span { IfOk result
            (λ s. (snapshot_model s.nodes.items s.top).span ≡ nodes tree.now + 1) }
    {
        Self::by(alloc, Version::One, tree, batch)
    }

    /// The same in version 2.
    pub fn of2(alloc: Global, tree: &Tree, batch: u64) -> Result<Snapshot<H>, AllocError>
        requires well_formed { WellFormed tree.now }
        requires layers { HasLayers Two tree.now }
        ensures stands { IfOk result
            (λ s. snapshot_model s.nodes.items s.top ≡ tree_model Two batch tree.now) }
        ensures span { IfOk result
            (λ s. (snapshot_model s.nodes.items s.top).span ≡ nodes tree.now + 1) }
    {
        Self::by(alloc, Version::Two, tree, batch)
    }

    /// The map of which these are the nodes, children before their parent, and this is the head.
    pub fn over(nodes: Vec<Stored>, top: Top) -> Snapshot<H>
        requires whole { IsSnapshot H.of nodes.items top }
        requires well_formed { WellFormed (tree_of nodes.items top) }
        ensures { snapshot_model result.nodes.items result.top ≡ snapshot_model nodes.items top }
    {
        Snapshot {
            nodes,
            top,
            hash: PhantomData,
        }
    }

    /// A reader that has fetched nothing yet.
    pub fn reader(&self) -> Reader<'_, H>
        ensures snapshot { result.snapshot.now ≡ self.now }
        ensures fetches { result.fetches ≡ 0 }
    {
        Reader {
            snapshot: self,
            fetches: 0,
        }
    }
}

// Copies a node into the view.
fn show(node: &Stored, into: &mut NodeView)
    requires { HasShape (node_of node.now) }
    ensures { into.new ≡ node_of node.now }
{
    match node {
        Stored::Records(list) => into.set_leaf(list.as_slice()),
        Stored::Children(list) => {
            let children = list.as_slice();
            into.set_inner(level_over(children), children);
        }
    }
}

// Copies the node at a place of the list.
fn show_at(nodes: &[Stored], place: usize, into: &mut NodeView)
    requires within { place < length nodes.now }
    requires shape { All HasShape (map node_of nodes.now) }
    ensures { Some into.new ≡ slice_get (map node_of nodes.now) place }
{
    show(&nodes[place], into);
}

impl<'a, H: Hashes> Nodes for Reader<'a, H> {
    type Hash = H;

    ghost stands = { λ r. snapshot_model r.snapshot.now.nodes.items r.snapshot.now.top };

    ghost says = { λ r. r.snapshot.now.top };

    ghost fetches = { λ r. r.fetches };

    ghost faults = { λ r. 0 };

    ghost refusal = { λ r. None };

    // No node is blamed, so that none is remembered.
    ghost asked = { λ r c. ⊤ };

    ghost kept = { λ s t. (t.snapshot ≡ s.snapshot) × (s.fetches ≤ t.fetches) };

    fn top(&self) -> Top {
        self.snapshot.top
    }

    fn fetch(&mut self, child: &Child, into: &mut NodeView) -> Result<(), NodesErr>
        requires { MayFetch H.of
            (snapshot_model self.old.snapshot.now.nodes.items self.old.snapshot.now.top) child.now }
        ensures kept { (self.new.snapshot ≡ self.old.snapshot)
            × (self.old.fetches ≤ self.new.fetches) }
        ensures counted { self.new.fetches ≡ next_count self.old.fetches }
        ensures shows { OnOk result (ShowsNode H.of
            (snapshot_model self.old.snapshot.now.nodes.items self.old.snapshot.now.top)
            child.now into.new) }
        ensures cause { IfErr result (HasFetchCause
            (snapshot_model self.old.snapshot.now.nodes.items self.old.snapshot.now.top) child.now
            0 0) }
        ensures quiet { let none : ℕ = 0 in OnOk result (none ≡ none) }
        ensures refused { IfErr result (λ e. None ≡ Some e) }
        ensures unrefused { let none : Option error.NodesErr = None in OnOk result (none ≡ none) }
        ensures asks { ⊤ }
        ensures always { IsOk result }
    {
        self.fetches = self.fetches.saturating_add(1);
        show_at(self.snapshot.nodes.as_slice(), child.id as usize - 1, into);
        Ok(())
    }

    ghost kept_self = { Prim.search rules };

    ghost kept_on = { Prim.search rules };

    ghost kept_stands = { Prim.search rules };

    ghost kept_says = { Prim.search rules };

    ghost kept_fetches = { Prim.search rules };

    ghost kept_faults = { Prim.search rules };

    ghost well_formed = { λ r. r.snapshot.now.well_formed };

    ghost layered = { λ r. r.snapshot.now.layered };

    ghost numbered = { λ r. has_ids r.snapshot.now.nodes.items r.snapshot.now.top };
}

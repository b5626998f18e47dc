//! A file of pages on a shelf, of which it is not known yet whether it stands for a map.

ghost use Rattle.std.specs.Prelude.{◌≡◌, ℕ, Bool, true, false, List, length, IfOk, OnOk};
ghost use Rattle.std.proofs.Props.{props};
ghost use Rattle.mr_tree.specs.Tree.{records};
ghost use Rattle.mr_tree.specs.declared.tree.Tree.{Tree};
ghost use Rattle.mr_pages.specs.Source.{MayKeep, Stay};
ghost use Rattle.mr_pages.specs.Gathering.{AreMade, SuitsChild, tree_over};
ghost use Rattle.mr_pages.specs.Walking.{owned};
ghost use Rattle.mr_tree.specs.Digest.{Scheme};
ghost use Rattle.mr_tree.specs.View.{children_in};
ghost use Rattle.mr_store.specs.CachedFile.{entries_of};
ghost use Rattle.mr_store.specs.declared.record_list.RecordList.{RecordList};
ghost use Rattle.mr_store.specs.private.Listing.{ListsMore};
ghost use Rattle.mr_store.specs.private.Paging.{sourced, HoldsPage, IsUnchecked};
ghost use Rattle.mr_store.specs.Kept.{node_of, keeps_opened, PutsNode};

use crate::cache::ROOM;
use crate::cached_file::CachedFile;
use crate::listing::list_node;
use crate::record_list::RecordList;
use mr_outside::{Shelf, ShelfErr};
use mr_pages::{Layout, MapHead, MapRule, Node, Source, head_on, node_on};
use mr_tree::{Child, Hashes, NodeView};
use std::alloc::AllocError;
use std::marker::PhantomData;

/// A file of whole pages, of which page 0 was read and the others are read one by one. With it come
/// the nodes of it that are kept, 256 at most: inner ones, and leaves while there is room. The
/// records that were met come too, where they are wanted.
pub(crate) struct Paging<'a, S: Shelf, H: Hashes> {
    pub(crate) file: CachedFile<S>,
    pub(crate) first: &'a [u8],
    pub(crate) list: RecordList,
    pub(crate) hash: PhantomData<H>,
    ghost paging: { IsUnchecked H.of file first.now } by { Prim.hlevel props },
}

// Whether a node is kept as the pages of a file are judged, where so many are kept already: an
// inner node always, and a leaf where there is room.
fn is_kept(count: usize, node: &Node) -> bool
    ensures { result ≡ keeps_opened count node.now }
{
    match node {
        Node::Inner(_) => true,
        Node::Leaf(_) => count < ROOM,
    }
}

impl<S: Shelf, H: Hashes> Source for Paging<'_, S, H> {
    type Hash = H;

    type Made = ();

    type Held = RecordList;

    ghost state = { λ s. sourced s.file };

    ghost keeps = { λ s page. HoldsPage s.file.pages (entries_of s.file) page };

    ghost held = { λ s. s.list };

    ghost makes = { λ x root before after child made t. ListsMore before after (records t) };

    fn count(&self) -> u32 {
        self.file.pages
    }

    fn layout(&self) -> Layout {
        self.file.layout
    }

    fn head(&self) -> Result<MapHead, MapRule> {
        head_on(self.file.layout, self.first, self.file.pages)
    }

    fn node(
        &mut self,
        page: u32,
        level: u8,
        bytes: &mut [u8],
        into: &mut NodeView,
    ) -> Result<bool, ShelfErr> {
        let layout = self.file.layout;
        self.file.read_page(page, bytes)?;
        Ok(node_on(layout, bytes, level, into))
    }

    fn free(&mut self, page: u32) -> Result<Option<u32>, ShelfErr> {
        self.file.read_free(page)
    }

    fn make(&mut self, child: &Child, node: Node, _below: Vec<()>) -> Result<(), AllocError>
        requires { MayKeep H.of (sourced self.old.file) child.now node }
        ensures same { sourced self.new.file ≡ sourced self.old.file }
        ensures made { IfOk result (λ m. (x : Scheme) (root : Bool) (before : RecordList)
            (ts : List Tree) → SuitsChild x root child.now node →
            AreMade (λ s u c one t. ListsMore s u (records t)) before self.old.list
            (children_in (owned node)) _below.items ts →
            ListsMore before self.new.list (records (tree_over node ts))) }
        ensures kept { OnOk result
            (HoldsPage self.new.file.pages (entries_of self.new.file) child.now.id) }
        ensures puts { keeps_opened (length (entries_of self.old.file)) node ≡ true →
            OnOk result (PutsNode self.old.file.cache.cap (entries_of self.old.file)
            (entries_of self.new.file) child.now (node_of node)) }
        // A leaf is not kept where there is no room.
        ensures passes { keeps_opened (length (entries_of self.old.file)) node ≡ false →
            entries_of self.new.file ≡ entries_of self.old.file }
        ensures stay { Stay (HoldsPage self.old.file.pages (entries_of self.old.file))
            (HoldsPage self.new.file.pages (entries_of self.new.file)) }
    {
        let count = self.file.cache.len();
        list_node(&mut self.list, &node)?;
        if !is_kept(count, &node) {
            return Ok(());
        }
        self.file.keep(child, node)
    }
}

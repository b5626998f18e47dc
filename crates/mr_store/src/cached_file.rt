//! A file of pages on a shelf, and the nodes of it that are kept.

ghost use Rattle.std.specs.Prelude.{◌≡◌, [], length, true, false, IfOk, IfErr, OnOk, OnErr};
ghost use Rattle.std.specs.String.{string_bytes};
ghost use Rattle.mr_outside.specs.Causes.{ShelfCauses, CountsRead};
ghost use Rattle.mr_pages.specs.PageBytes.{layout_by, IsLayout};
ghost use Rattle.mr_pages.specs.Source.{IsPage, TellsPage};

use crate::cache::{empty_cache, find, forget, put, touch};
use crate::cached_node::CachedNode;
use crate::reading::check_page;
use lru::LruCache;
use mr_outside::{Shelf, ShelfErr};
use mr_pages::{Layout, Node, SECOND_SIZE, free_on, page_into};
use mr_tree::{Child, Hashes, NodeView, NodesErr};
use std::alloc::{AllocError, AllocFailed, Global};

/// So many pages of a file on a shelf, how they are laid out, and up to 256 nodes of it that are
/// kept. Each is kept by its page with the level and the digest under which it was read or written.
pub struct CachedFile<S: Shelf> {
    pub shelf: S,
    pub name: String,
    pub layout: Layout,
    /// How many pages there are, page 0 included.
    pub pages: u32,
    pub cache: LruCache<u32, CachedNode>,
    ghost fits: { IsLayout layout },
    ghost sized: { layout.size ≡ (layout_by layout.version).size },
}

impl<S: Shelf> CachedFile<S> {
    ghost use Rattle.mr_store.specs.Again.{ReadsOne};
    ghost use Rattle.mr_store.specs.Kept.{node_of, room, FindsNode, Forgets, GainsNode, PutsNode, KeepsEntries, used};
    ghost use Rattle.mr_store.specs.CachedFile.{state_of, name_of, page_form, entries_of, OfBytes, AreShown, IsHeld, OnlyReads, OnlyKeeps, GivesFree, IsRead, TellsNode, HasNode, IsGiven, IsRefused};

    /// A file of which no node is kept yet. Where there is no memory, the shelf is handed back.
    pub fn new(
        alloc: Global,
        shelf: S,
        name: &str,
        layout: Layout,
        pages: u32,
    ) -> Result<CachedFile<S>, AllocFailed<S>>
        requires fits { IsLayout layout }
        requires sized { layout.size ≡ (layout_by layout.version).size }
        ensures shelf { IfOk result (λ f. f.shelf ≡ shelf) }
        ensures name { IfOk result (λ f. string_bytes f.name ≡ name.now) }
        ensures layout { IfOk result (λ f. f.layout ≡ layout) }
        ensures pages { IfOk result (λ f. f.pages ≡ pages) }
        ensures entries { IfOk result (λ f. f.cache.entries ≡ []) }
        ensures cap { IfOk result (λ f. f.cache.cap ≡ room) }
        ensures back { IfErr result (λ e. e.value ≡ shelf) }
    {
        let (Ok(cache), Ok(name)) = (empty_cache(alloc), String::from_str(alloc, name)) else {
            return Err(AllocFailed { value: shelf });
        };
        Ok(CachedFile {
            shelf,
            name,
            layout,
            pages,
            cache,
        })
    }

    /// The shelf, as it stands.
    pub fn close(self) -> S
        ensures { result ≡ self.shelf }
    {
        let CachedFile {
            shelf,
            name: _,
            layout: _,
            pages: _,
            cache: _,
        } = self;
        shelf
    }

    /// Reads the bytes of a page. What the read gives short counts as zeros.
    pub fn read_page(&mut self, page: u32, into: &mut [u8]) -> Result<(), ShelfErr>
        requires size { length into.old ≡ self.old.layout.size }
        ensures told { OnOk result (OfBytes self.old ⊥
            (TellsPage (page_form self.old) page into.new)) }
        ensures page { OnOk result (IsPage (page_form self.old) into.new) }
        ensures causes { ShelfCauses (name_of self.old) (state_of self.old) (state_of self.new)
            result }
        ensures reads { CountsRead (state_of self.old) (state_of self.new) result }
        ensures only { OnlyReads self.old self.new }
    {
        page_into(&mut self.shelf, self.name.as_str(), self.layout, page, into)
    }

    /// The page that a free page names, 0 for none; `None` where this is no such page.
    pub fn read_free(&mut self, page: u32) -> Result<Option<u32>, ShelfErr>
        ensures free { IfOk result (λ next. GivesFree self.old page next) }
        ensures causes { ShelfCauses (name_of self.old) (state_of self.old) (state_of self.new)
            result }
        ensures reads { CountsRead (state_of self.old) (state_of self.new) result }
        ensures only { OnlyReads self.old self.new }
    {
        let layout = self.layout;
        let mut room = [0; SECOND_SIZE];
        let (bytes, _) = room.split_at_mut(layout.size);
        self.read_page(page, bytes)?;
        Ok(free_on(layout, bytes))
    }

    /// Reads the page of the child, and shows its node if it is what is said of the child. A
    /// refusal is `Page` where the page spells no node of the child's level, else `Changed` where
    /// that has another digest, else `Outside` where it names a page that is not in the file.
    pub fn read_node<H: Hashes>(
        &mut self,
        child: &Child,
        into: &mut NodeView,
    ) -> Result<(), NodesErr>
        ensures read { OnOk result (IsRead H.of self.old child.now into.new) }
        ensures told { TellsNode H.of self.old child.now result into.new }
        ensures has { OnOk result (HasNode self.old child.now.id into.new) }
        ensures given { IfErr result (IsGiven H.of self.old child.now) }
        ensures refused { IfErr result (IsRefused child.now self.old self.new) }
        ensures quiet { OnOk result ((state_of self.new).faults ≡ (state_of self.old).faults) }
        ensures one { ReadsOne (state_of self.old) (state_of self.new) }
        ensures only { OnlyReads self.old self.new }
    {
        let layout = self.layout;
        let pages = self.pages;
        let mut room = [0; SECOND_SIZE];
        let (bytes, _) = room.split_at_mut(layout.size);
        match self.read_page(child.id, bytes) {
            Ok(()) => check_page::<H>(layout, bytes, pages, child, into),
            Err(error) => Err(NodesErr::from(error)),
        }
    }

    /// Shows the node of the child, if its page is kept with its level and its digest.
    pub fn find(&self, child: &Child, into: &mut NodeView) -> bool
        requires { AreShown self.now }
        ensures { FindsNode (entries_of self.now) child.now result into.new }
    {
        find(&self.cache, child, into)
    }

    /// What is kept of a page becomes the last that would be dropped.
    pub fn touch(&mut self, page: u32)
        ensures uses { entries_of self.new ≡ used page (entries_of self.old) }
        ensures stays { KeepsEntries (entries_of self.old) (entries_of self.new) }
        ensures only { OnlyKeeps self.old self.new }
    {
        touch(&mut self.cache, page);
    }

    /// Does both.
    pub fn recall(&mut self, child: &Child, into: &mut NodeView) -> bool
        requires { AreShown self.old }
        ensures finds { FindsNode (entries_of self.old) child.now result into.new }
        ensures stays { KeepsEntries (entries_of self.old) (entries_of self.new) }
        ensures same { result ≡ false → self.new.cache ≡ self.old.cache }
        ensures caches { result ≡ true → IsHeld self.new child.now }
        ensures uses { result ≡ true →
            entries_of self.new ≡ used child.now.id (entries_of self.old) }
        ensures only { OnlyKeeps self.old self.new }
    {
        if !self.find(child, into) {
            return false;
        }
        self.touch(child.id);
        true
    }

    /// Keeps a node as that of the child. Where the cache is full, what was not used for the
    /// longest time is dropped, and nothing else.
    pub fn keep(&mut self, child: &Child, node: Node) -> Result<(), AllocError>
        ensures gains { OnOk result (GainsNode self.old.cache.cap (entries_of self.old)
            (entries_of self.new) child.now (node_of node)) }
        ensures puts { OnOk result (PutsNode self.old.cache.cap (entries_of self.old)
            (entries_of self.new) child.now (node_of node)) }
        ensures same { OnErr result (self.new.cache ≡ self.old.cache) }
        ensures only { OnlyKeeps self.old self.new }
    {
        put(&mut self.cache, child, node)
    }

    /// The same of what a view shows.
    pub fn remember(
        &mut self,
        alloc: Global,
        child: &Child,
        view: &NodeView,
    ) -> Result<(), AllocError>
        ensures gains { OnOk result (GainsNode self.old.cache.cap (entries_of self.old)
            (entries_of self.new) child.now view.now) }
        ensures puts { OnOk result (PutsNode self.old.cache.cap (entries_of self.old)
            (entries_of self.new) child.now view.now) }
        ensures same { OnErr result (self.new.cache ≡ self.old.cache) }
        ensures only { OnlyKeeps self.old self.new }
    {
        let node = Node::of(alloc, view)?;
        self.keep(child, node)
    }

    /// Keeps nothing of a page any more.
    pub fn forget(&mut self, page: u32)
        ensures forgets { Forgets page (entries_of self.old) (entries_of self.new) }
        ensures only { OnlyKeeps self.old self.new }
    {
        forget(&mut self.cache, page);
    }
}

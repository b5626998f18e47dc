//! A file of pages under edit on a shelf, with a cache of node pages.

ghost use Rattle.std.specs.Prelude.{◌≡◌, ◌+◌, ◌<◌, ◌≤◌, option_map, IsOk, IfOk, IfErr, OnOk, IfSome, IsSomeAnd, ℕ, All};
ghost use Rattle.std.proofs.Props.{props};
ghost use Rattle.mr_tree.specs.Digest.{by};
ghost use Rattle.mr_tree.specs.View.{AreTold, HasCount, children_in, size, level_of};
ghost use Rattle.mr_pages.specs.Page.{page_limit, node_entry};
ghost use Rattle.mr_pages.specs.Walking.{child_link, page_node};
ghost use Rattle.mr_store.specs.CachedFile.{state_of, page_form, scheme_of, IsHeld};
ghost use Rattle.mr_edit.specs.PageMap.{HasFree, HasNode, free_content, longer, node_content, with_content};
ghost use Rattle.mr_edit.specs.Causes.{HasEditCause, CanRead};
ghost use Rattle.mr_edit.specs.Held.{IsEntryOf};
ghost use Rattle.mr_edit.specs.Outcome.{NeverMap, CanWrite};
ghost use Rattle.mr_draft.specs.Sheets.{page_map_of, IsSheets, KeepsSheets, RefusesRead};

use crate::keeping::{free_page, show_node, write_node};
use crate::pages::{add_page, next_free};
use mr_edit::EditErr;
use mr_outside::Shelf;
use mr_pages::child_on;
use mr_store::CachedFile;
use mr_tree::{Child, Hashes, NodeView};
use std::alloc::Global;
use std::marker::PhantomData;

/// A file of a shelf whose pages are read and written one by one, but for page 0, which is zeros.
/// It keeps up to 256 nodes, and checks each that it reads against what its parent says of it.
pub struct Sheets<S: Shelf, H: Hashes> {
    pub(crate) alloc: Global,
    pub(crate) file: CachedFile<S>,
    pub(crate) hash: PhantomData<H>,
    ghost sheets: { IsSheets H.of file } by { Prim.hlevel props },
}

impl<S: Shelf, H: Hashes> Sheets<S, H> {
    /// What is said of the node that a view shows, where it stands on this page.
    pub fn entry(&self, view: &NodeView, page: u32) -> Child
        requires some { 1 ≤ size view.now }
        requires counts { All HasCount (children_in view.now) }
        ensures { child_link result ≡ record {
          page = page;
          entry = node_entry (scheme_of H.of self.now.file) (page_node view.now);
        } }
    {
        child_on::<H>(self.file.layout, view, page)
    }

    /// Reads the node of which the child is the entry, and checks it against that.
    pub fn read(&mut self, child: &Child, into: &mut NodeView) -> Result<(), EditErr>
        ensures same { page_map_of self.new.file ≡ page_map_of self.old.file }
        ensures page { OnOk result (1 ≤ child.now.id) }
        ensures level { OnOk result (level_of into.new ≡ child.now.level) }
        ensures not_empty { OnOk result (1 ≤ size into.new) }
        ensures shown { OnOk result (AreTold self.old.file.layout.version into.new) }
        ensures node { OnOk result (IfSome (page_map_of self.old.file)
            (λ b. HasNode b child.now.id (page_node into.new))) }
        ensures kept { KeepsSheets self.old.file self.new.file }
        ensures reads { (state_of self.new.file).reads ≤ (state_of self.old.file).reads + 1 }
        ensures quiet { OnOk result
            ((state_of self.new.file).faults ≡ (state_of self.old.file).faults) }
        ensures cause { IfErr result (HasEditCause (state_of self.old.file).faults
            (state_of self.new.file).faults) }
        ensures blames_none_told { IfErr result
            (λ e. NeverMap e (CanRead (scheme_of H.of self.old.file)
            (page_map_of self.old.file) child.now)) }
        ensures given { IfErr result
            (RefusesRead (page_form self.old.file) H.of self.old.file.pages child.now) }
        // The node is kept. One that is kept is not read, and is shown where it is in the file.
        ensures caches { OnOk result (IsHeld self.new.file child.now) }
        ensures held { IsHeld self.old.file child.now →
            (state_of self.new.file).reads ≡ (state_of self.old.file).reads }
        ensures found { IsHeld self.old.file child.now → 1 ≤ child.now.id →
            child.now.id < self.old.file.pages → IsOk result }
    {
        show_node::<H, S>(self.alloc, &mut self.file, child, into)
    }

    /// The page that a free page names.
    pub fn read_free(&mut self, page: u32) -> Result<u32, EditErr>
        requires { 1 ≤ page }
        ensures same { page_map_of self.new.file ≡ page_map_of self.old.file }
        ensures free { IfOk result (λ next. IfSome (page_map_of self.old.file)
            (λ b. HasFree b page next)) }
        ensures blames_none_told { IfErr result
            (λ e. NeverMap e (IsSomeAnd (page_map_of self.old.file)
            (λ b. (next : ℕ) × HasFree b page next))) }
        ensures kept { KeepsSheets self.old.file self.new.file }
        ensures reads { (state_of self.new.file).reads ≤ (state_of self.old.file).reads + 1 }
        ensures quiet { OnOk result
            ((state_of self.new.file).faults ≡ (state_of self.old.file).faults) }
        ensures cause { IfErr result (HasEditCause (state_of self.old.file).faults
            (state_of self.new.file).faults) }
    {
        next_free::<S>(&mut self.file, page)
    }

    /// Writes a node on the page of its entry.
    pub fn write(&mut self, child: &Child, view: &NodeView) -> Result<(), EditErr>
        requires page { 1 ≤ child.now.id }
        requires some { 1 ≤ size view.now }
        requires said { IsEntryOf (scheme_of H.of self.old.file) child.now view.now }
        requires shown { AreTold self.old.file.layout.version view.now }
        ensures blames_none_told { IfErr result (λ e. NeverMap e
            (CanWrite (page_map_of self.old.file) child.now.id)) }
        ensures put { OnOk result (page_map_of self.new.file
            ≡ option_map (with_content child.now.id (node_content (page_node view.now)))
            (page_map_of self.old.file)) }
        ensures kept { KeepsSheets self.old.file self.new.file }
        ensures reads { (state_of self.new.file).reads ≡ (state_of self.old.file).reads }
        ensures quiet { OnOk result
            ((state_of self.new.file).faults ≡ (state_of self.old.file).faults) }
        ensures cause { IfErr result (HasEditCause (state_of self.old.file).faults
            (state_of self.new.file).faults) }
        // The node is kept.
        ensures caches { OnOk result (IsHeld self.new.file child.now) }
    {
        write_node::<H, S>(self.alloc, &mut self.file, child, view)
    }

    /// Makes a page a free one.
    pub fn write_free(&mut self, page: u32, next: u32) -> Result<(), EditErr>
        requires { 1 ≤ page }
        ensures put { OnOk result (page_map_of self.new.file
            ≡ option_map (with_content page (free_content next)) (page_map_of self.old.file)) }
        ensures blames_none_told { IfErr result
            (λ e. NeverMap e (CanWrite (page_map_of self.old.file) page)) }
        ensures kept { KeepsSheets self.old.file self.new.file }
        ensures reads { (state_of self.new.file).reads ≡ (state_of self.old.file).reads }
        ensures quiet { OnOk result
            ((state_of self.new.file).faults ≡ (state_of self.old.file).faults) }
        ensures cause { IfErr result (HasEditCause (state_of self.old.file).faults
            (state_of self.new.file).faults) }
    {
        free_page::<H, S>(&mut self.file, page, next)
    }

    /// Adds a page at the end, and answers its number.
    pub fn grow(&mut self) -> Result<u32, EditErr>
        ensures told { OnOk result
            (page_map_of self.new.file ≡ option_map longer (page_map_of self.old.file)) }
        ensures positive { IfOk result (λ page. 1 ≤ page) }
        ensures last { IfOk result (λ page. IfSome (page_map_of self.old.file)
            (λ b. page ≡ b.size)) }
        ensures blames_none_told { IfErr result (λ e. NeverMap e
            (IsSomeAnd (page_map_of self.old.file) (λ b. b.size < page_limit))) }
        ensures kept { KeepsSheets self.old.file self.new.file }
        ensures reads { (state_of self.new.file).reads ≡ (state_of self.old.file).reads }
        ensures quiet { OnOk result
            ((state_of self.new.file).faults ≡ (state_of self.old.file).faults) }
        ensures cause { IfErr result (HasEditCause (state_of self.old.file).faults
            (state_of self.new.file).faults) }
    {
        add_page::<S>(&mut self.file)
    }

    // The file, with what is known of it.
    pub(crate) fn into_file(self) -> CachedFile<S>
        ensures file { result ≡ self.file }
        ensures sheets { IsSheets H.of self.file }
    {
        let Sheets {
            alloc: _,
            file,
            hash: _,
        } = self;
        file
    }
}

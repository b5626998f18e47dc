//! The pages of a tree's nodes, one behind the other.

ghost use Rattle.std.specs.Prelude.{◌≡◌, ℕ, ◌+◌, ◌*◌, ◌≤◌, [], ◌∷◌, ◌++◌, length, take, drop, replicate, All, IsSome, IfOk, OnOk};
ghost use Rattle.mr_tree.specs.Digest.{by};
ghost use Rattle.mr_tree.specs.Leaves.{leaf_entries};
ghost use Rattle.mr_tree.specs.Limits.{count_limit};
ghost use Rattle.mr_tree.specs.Tree.{records};
ghost use Rattle.mr_tree.specs.WellFormed.{HasLayers};
ghost use Rattle.mr_tree.specs.View.{HasCount, AreTold, children_in, size};
ghost use Rattle.mr_tree.specs.declared.tree.Tree.TheOpen.{Inner};
ghost use Rattle.mr_pages.specs.Page.{page_limit, node_entry};
ghost use Rattle.mr_pages.specs.PageBytes.{node_page, form_of, IsLayout};
ghost use Rattle.mr_pages.specs.Stands.{pages_of};
ghost use Rattle.mr_pages.specs.Walking.{child_link, page_node};
ghost use Rattle.mr_pages.specs.Saved.{numbered};
ghost use Rattle.mr_pages.specs.Leaves.{KnowsFirst};
ghost use Rattle.mr_pages.specs.private.Putting.{AreSiblings, CanBePut, IsPut, left};

use crate::judging::entry_on;
use crate::layout::Layout;
use crate::page::put_node;
use mr_record::Version;
use mr_tree::{Child, Entry, Hashes, NodeView, Tree};
use std::alloc::{AllocError, Global};

// What is said of a node with this entry, where it stands on this page.
fn child_with(entry: &Entry, page: u32) -> Child
    requires { IsSome entry.now.rect }
    ensures { child_link result ≡ record { page = page; entry = entry.now } }
{
    match entry.rect {
        Some(rect) => Child {
            id: page,
            level: entry.level,
            rect,
            mask: entry.mask,
            count: entry.count,
            digest: entry.digest,
        },
        None => unreachable!(),
    }
}

/// What is said of the node that a view shows, where it stands on this page.
pub fn child_on<H: Hashes>(layout: Layout, view: &NodeView, page: u32) -> Child
    requires some { 1 ≤ size view.now }
    requires counts { All HasCount (children_in view.now) }
    ensures { child_link result ≡ record {
      page = page;
      entry = node_entry (by layout.version H.of) (page_node view.now);
    } }
{
    let entry = entry_on::<H>(layout.version, view);
    child_with(&entry, page)
}

// The entries of leaves that are still to come, left to right; none where they are not known.
#[derive(Clone, Copy)]
pub(crate) struct LeavesLeft<'a> {
    pub(crate) entries: &'a [Entry],
}

// What is said of the leaf that a view shows. Where its entry is known, it is not hashed.
fn leaf_on<H: Hashes>(
    layout: Layout,
    view: &NodeView,
    page: u32,
    leaves: &mut LeavesLeft<'_>,
) -> Child
    requires some { 1 ≤ size view.now }
    requires counts { All HasCount (children_in view.now) }
    requires known { KnowsFirst (node_entry (by layout.version H.of) (page_node view.now) ∷ [])
        (left leaves.old) }
    ensures said { child_link result ≡ record {
      page = page;
      entry = node_entry (by layout.version H.of) (page_node view.now);
    } }
    ensures left { left leaves.new ≡ drop 1 (left leaves.old) }
{
    match leaves.entries.split_first() {
        Some((entry, rest)) => {
            leaves.entries = rest;
            child_with(entry, page)
        }
        None => child_on::<H>(layout, view, page),
    }
}

// Shows an inner node with these children.
pub(crate) fn show_children(_version: Version, view: &mut NodeView, links: &[Child])
    requires { AreSiblings _version links.now }
    ensures shown { view.new ≡ Inner links.now }
    ensures not_empty { 1 ≤ size view.new }
    ensures told { AreTold _version view.new }
    ensures counts { All HasCount (children_in view.new) }
{
    view.set_inner(links[0].level + 1, links);
}

// Adds a page of zeros, in which a node's page is put later.
fn add_page(layout: Layout, pages: &mut Vec<u8>) -> Result<(), AllocError>
    requires { IsLayout layout }
    ensures page { OnOk result (pages.new.items ≡ pages.old.items ++ replicate layout.size 0) }
    ensures size { OnOk result (length pages.new.items ≡ length pages.old.items + layout.size) }
{
    pages.resize(pages.len() + layout.size, 0)
}

// The page behind those that stand from the place `at` on, the first of which is `page`.
pub(crate) fn page_behind(layout: Layout, page: u32, at: usize, pages: &[u8]) -> u32
    requires layout { IsLayout layout }
    requires room { (count : ℕ) × ((length pages.now ≡ at + count * layout.size)
        × (page + count ≤ page_limit)) }
    ensures { (count : ℕ) → length pages.now ≡ at + count * layout.size
        → result ≡ page + count }
{
    page + ((pages.len() - at) / layout.size) as u32
}

// Puts the page of a node where it was left out.
fn put_page(layout: Layout, view: &NodeView, at: usize, pages: &mut [u8])
    requires layout { IsLayout layout }
    requires some { 1 ≤ size view.now }
    requires told { AreTold layout.version view.now }
    requires room { at + layout.size ≤ length pages.old }
    ensures { pages.new ≡ (take at pages.old ++ node_page layout (page_node view.now))
        ++ drop (at + layout.size) pages.old }
{
    put_node(layout, view, &mut pages[at..at + layout.size]);
}

/// Adds the pages of the tree's nodes, from this one on, and answers what is to be said of the
/// tree. The entries of its leaves are taken from those that are left, if they are known. The view
/// is only worked with.
pub fn put_tree<H: Hashes>(
    alloc: Global,
    layout: Layout,
    tree: &Tree,
    page: u32,
    leaves: &mut LeavesLeft<'_>,
    view: &mut NodeView,
    pages: &mut Vec<u8>,
) -> Result<Child, AllocError>
    requires layout { IsLayout layout }
    requires can { CanBePut tree.now }
    requires layers { HasLayers layout.version tree.now }
    requires few { length (records tree.now) ≤ count_limit }
    requires room { page + length (pages_of (numbered tree.now page)) ≤ page_limit }
    requires known { KnowsFirst (leaf_entries (by layout.version H.of) tree.now) (left leaves.old) }
    ensures put { IfOk result (λ child.
        IsPut (form_of layout) H.of tree.now page pages.old.items pages.new.items child) }
    ensures left { OnOk result (left leaves.new
        ≡ drop (length (leaf_entries (by layout.version H.of) tree.now)) (left leaves.old)) }
{
    let at = pages.len();
    add_page(layout, pages)?;
    match tree {
        Tree::Empty => unreachable!(),
        Tree::Leaf(records) => {
            view.set_leaf(records.as_slice());
            put_page(layout, view, at, pages.as_mut_slice());
            Ok(leaf_on::<H>(layout, view, page, leaves))
        }
        Tree::Inner(children) => {
            let mut links = Vec::new(alloc);
            for child in children.as_slice() {
                let next = page_behind(layout, page, at, pages);
                let link = put_tree::<H>(alloc, layout, child, next, leaves, view, pages)?;
                links.push(link)?;
            }
            show_children(layout.version, view, &links);
            put_page(layout, view, at, pages.as_mut_slice());
            Ok(child_on::<H>(layout, view, page))
        }
    }
}

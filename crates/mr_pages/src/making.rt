//! Making the file of a map, up to its page 0.

ghost use Rattle.std.specs.Prelude.{◌≡◌, ◌+◌, ◌≤◌, ◌++◌, ℕ, List, [], ◌∷◌, length, drop, replicate, IfOk, OnOk, MatchResult};
ghost use Rattle.mr_outside.specs.State.{Shelved};
ghost use Rattle.mr_tree.specs.Digest.{by};
ghost use Rattle.mr_tree.specs.Leaves.{leaf_entries};
ghost use Rattle.mr_tree.specs.Limits.{count_limit};
ghost use Rattle.mr_tree.specs.Tree.{records};
ghost use Rattle.mr_tree.specs.View.{AreTold, size};
ghost use Rattle.mr_tree.specs.WellFormed.{WellFormed, HasLayers};
ghost use Rattle.mr_tree.specs.declared.tree.Tree.TheVariants.{Inner};
ghost use Rattle.mr_pages.specs.Leaves.{KnowsFirst};
ghost use Rattle.mr_pages.specs.Making.{HasMade, GivesUpFile, RowMade, HasMadePages};
ghost use Rattle.mr_pages.specs.Page.{page_limit};
ghost use Rattle.mr_pages.specs.PageBytes.{form_of, node_page, IsLayout};
ghost use Rattle.mr_pages.specs.private.Putting.{CanBePut, IsImage, IsPut, left};
ghost use Rattle.mr_pages.specs.Saved.{numbered};
ghost use Rattle.mr_pages.specs.Stands.{pages_of};
ghost use Rattle.mr_pages.specs.Walking.{page_node};

use crate::layout::Layout;
use crate::page::put_node;
use crate::putting::{LeavesLeft, child_on, page_behind, put_tree, show_children};
use mr_outside::{Shelf, ShelfErr};
use mr_tree::{Child, Entry, Hashes, NodeView, Tree};
use std::alloc::{AllocError, Global};

/// So many bytes, all of them 0.
pub fn zeros(alloc: Global, size: usize) -> Result<Vec<u8>, AllocError>
    ensures { IfOk result (λ v. v.items ≡ replicate size 0) }
{
    vec![in alloc; 0u8; size]
}

// The pages of a map, the first one left out as zeros, and what page 0 is to say of the root. The
// entries of the leaves may be known.
fn image<H: Hashes>(
    alloc: Global,
    layout: Layout,
    tree: &Tree,
    leaves: &[Entry],
) -> Result<(Vec<u8>, Option<Child>), AllocError>
    requires layout { IsLayout layout }
    requires well { WellFormed tree.now }
    requires layers { HasLayers layout.version tree.now }
    requires known { KnowsFirst (leaf_entries (by layout.version H.of) tree.now) leaves.now }
    ensures { IfOk result (λ r. IsImage (form_of layout) H.of tree.now r.0.items r.1) }
{
    let mut pages = zeros(alloc, layout.size)?;
    match tree {
        Tree::Empty => Ok((pages, None)),
        _ => {
            let mut left = LeavesLeft { entries: leaves };
            let mut view = NodeView::new();
            let root = put_tree::<H>(alloc, layout, tree, 1, &mut left, &mut view, &mut pages)?;
            Ok((pages, Some(root)))
        }
    }
}

// The page of a node.
fn page_of_view(alloc: Global, layout: Layout, view: &NodeView) -> Result<Vec<u8>, AllocError>
    requires layout { IsLayout layout }
    requires some { 1 ≤ size view.now }
    requires told { AreTold layout.version view.now }
    ensures page { IfOk result (λ v. v.items ≡ node_page layout (page_node view.now)) }
    ensures size { IfOk result (λ v. length v.items ≡ layout.size) }
{
    let mut page = zeros(alloc, layout.size)?;
    put_node(layout, view, page.as_mut_slice());
    Ok(page)
}

// Makes a file of these bytes, which begin with the zeros of page 0.
fn begin<S: Shelf>(shelf: &mut S, name: &str, bytes: &[u8]) -> Result<(), ShelfErr>
    ensures { (size : ℕ) (behind : List ℕ) → bytes.now ≡ replicate size 0 ++ behind
        → MatchResult result
        (λ done. HasMade name.now bytes.now (S.state shelf.old) (S.state shelf.new))
        (GivesUpFile size name.now (S.state shelf.old) (S.state shelf.new)) }
{
    shelf.create(name)?;
    shelf.append(name, bytes)
}

// Adds the pages of the tree's nodes to the file, and answers what is to be said of the tree. The
// entries of its leaves are taken from those that are left, if they are known. The pages are left
// in the vector, and the view is only worked with.
fn add_tree<H: Hashes, S: Shelf>(
    alloc: Global,
    layout: Layout,
    shelf: &mut S,
    name: &str,
    tree: &Tree,
    page: u32,
    leaves: &mut LeavesLeft<'_>,
    view: &mut NodeView,
    pages: &mut Vec<u8>,
) -> Result<Child, ShelfErr>
    requires layout { IsLayout layout }
    requires can { CanBePut tree.now }
    requires layers { HasLayers layout.version tree.now }
    requires few { length (records tree.now) ≤ count_limit }
    requires room { page + length (pages_of (numbered tree.now page)) ≤ page_limit }
    requires known { KnowsFirst (leaf_entries (by layout.version H.of) tree.now) (left leaves.old) }
    ensures put { IfOk result (λ child.
        IsPut (form_of layout) H.of tree.now page [] pages.new.items child) }
    ensures left { OnOk result (left leaves.new
        ≡ drop (length (leaf_entries (by layout.version H.of) tree.now)) (left leaves.old)) }
    ensures made { (before : Shelved) (held behind : List ℕ)
        → HasMade name.now held before (S.state shelf.old)
        → held ≡ replicate layout.size 0 ++ behind
        → MatchResult result
        (λ child. HasMade name.now (held ++ pages.new.items) before (S.state shelf.new))
        (GivesUpFile layout.size name.now before (S.state shelf.new)) }
{
    pages.clear();
    let child = put_tree::<H>(alloc, layout, tree, page, leaves, view, pages)?;
    shelf.append(name, pages)?;
    Ok(child)
}

// Adds what is said of one more child.
fn add_link(links: &mut Vec<Child>, link: Child) -> Result<(), AllocError>
    ensures { OnOk result (links.new.items ≡ links.old.items ++ link ∷ []) }
{
    links.push(link)?;
    Ok(())
}

// Makes a file of zeros for page 0 and the root's page, and adds the pages below each child of the
// root, of which no more than one child's are held at once. Answers what the root's page is to say
// of the children, and how many pages there are.
fn make_row<H: Hashes, S: Shelf>(
    alloc: Global,
    layout: Layout,
    shelf: &mut S,
    name: &str,
    children: &[Tree],
    leaves: &[Entry],
    view: &mut NodeView,
) -> Result<(Vec<Child>, u32), ShelfErr>
    requires layout { IsLayout layout }
    requires well { WellFormed (Inner children.now) }
    requires layers { HasLayers layout.version (Inner children.now) }
    requires known { KnowsFirst (leaf_entries (by layout.version H.of) (Inner children.now))
        leaves.now }
    ensures { MatchResult result
        (λ r. RowMade (form_of layout) H.of children.now (length children.now) name.now
        (S.state shelf.old) (S.state shelf.new) r.0.items r.1)
        (GivesUpFile layout.size name.now (S.state shelf.old) (S.state shelf.new)) }
{
    let front = zeros(alloc, 2 * layout.size)?;
    begin(shelf, name, &front)?;
    let mut pages = Vec::new(alloc);
    let mut links = Vec::new(alloc);
    let mut left = LeavesLeft { entries: leaves };
    let mut next = 2;
    for child in children {
        let link = add_tree::<H, S>(
            alloc, layout, shelf, name, child, next, &mut left, view, &mut pages,
        )?;
        add_link(&mut links, link)?;
        next = page_behind(layout, next, 0, &pages);
    }
    Ok((links, next))
}

// Makes the file of a map whose root is an inner node. The entries of its leaves may be known.
fn make_inner<H: Hashes, S: Shelf>(
    alloc: Global,
    layout: Layout,
    shelf: &mut S,
    name: &str,
    children: &[Tree],
    leaves: &[Entry],
) -> Result<(Option<Child>, u32), ShelfErr>
    requires layout { IsLayout layout }
    requires well { WellFormed (Inner children.now) }
    requires layers { HasLayers layout.version (Inner children.now) }
    requires known { KnowsFirst (leaf_entries (by layout.version H.of) (Inner children.now))
        leaves.now }
    ensures { MatchResult result
        (λ r. HasMadePages (form_of layout) H.of (Inner children.now) name.now (S.state shelf.old)
        (S.state shelf.new) r.0 r.1)
        (GivesUpFile layout.size name.now (S.state shelf.old) (S.state shelf.new)) }
{
    let mut view = NodeView::new();
    let (links, pages) = make_row::<H, S>(alloc, layout, shelf, name, children, leaves, &mut view)?;
    show_children(layout.version, &mut view, &links);
    let page = page_of_view(alloc, layout, &view)?;
    shelf.write_at(name, layout.size as u64, &page)?;
    Ok((Some(child_on::<H>(layout, &view, 1)), pages))
}

// Makes the file of a map, all of whose pages are held at once. The entries of its leaves may be
// known.
fn make_at_once<H: Hashes, S: Shelf>(
    alloc: Global,
    layout: Layout,
    shelf: &mut S,
    name: &str,
    tree: &Tree,
    leaves: &[Entry],
) -> Result<(Option<Child>, u32), ShelfErr>
    requires layout { IsLayout layout }
    requires well { WellFormed tree.now }
    requires layers { HasLayers layout.version tree.now }
    requires known { KnowsFirst (leaf_entries (by layout.version H.of) tree.now) leaves.now }
    ensures { MatchResult result
        (λ r. HasMadePages (form_of layout) H.of tree.now name.now (S.state shelf.old)
        (S.state shelf.new) r.0 r.1)
        (GivesUpFile layout.size name.now (S.state shelf.old) (S.state shelf.new)) }
{
    let (pages, root) = image::<H>(alloc, layout, tree, leaves)?;
    begin(shelf, name, &pages)?;
    Ok((root, (pages.len() / layout.size) as u32))
}

/// Makes the file of a map, with zeros in place of page 0. Answers what page 0 is to say of the
/// root, and how many pages there are. The pages of one child of the root and of all below it are
/// made and added before those of the next, so that no others are held at once. A map without an
/// inner node has two pages at most, which are added at once. A leaf whose entry is known is not
/// hashed.
pub fn make_nodes<H: Hashes, S: Shelf>(
    alloc: Global,
    layout: Layout,
    shelf: &mut S,
    name: &str,
    tree: &Tree,
    leaves: &[Entry],
) -> Result<(Option<Child>, u32), ShelfErr>
    requires layout { IsLayout layout }
    requires well { WellFormed tree.now }
    requires layers { HasLayers layout.version tree.now }
    requires known { KnowsFirst (leaf_entries (by layout.version H.of) tree.now) leaves.now }
    ensures { MatchResult result
        (λ r. HasMadePages (form_of layout) H.of tree.now name.now (S.state shelf.old)
        (S.state shelf.new) r.0 r.1)
        (GivesUpFile layout.size name.now (S.state shelf.old) (S.state shelf.new)) }
{
    match tree {
        Tree::Inner(children) => {
            make_inner::<H, S>(alloc, layout, shelf, name, children.as_slice(), leaves)
        }
        _ => make_at_once::<H, S>(alloc, layout, shelf, name, tree, leaves),
    }
}

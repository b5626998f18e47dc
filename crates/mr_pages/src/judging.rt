//! The judge of one node.

ghost use Rattle.std.specs.Prelude.{◌≡◌, Some, IfSome, All};
ghost use Rattle.mr_tree.specs.View.{HasCount, children_in};
ghost use Rattle.mr_tree.specs.Digest.{by};
ghost use Rattle.mr_pages.specs.Page.{node_entry};
ghost use Rattle.mr_pages.specs.PageBytes.{form_of};
ghost use Rattle.mr_pages.specs.Faults.{same_rect, same_sums, least_fill as fewest};
ghost use Rattle.mr_pages.specs.Walking.{child_link, page_node};
ghost use Rattle.mr_pages.specs.private.Judging.{fills_node, JudgesNode, fits_entry};
ghost use Rattle.mr_pages.specs.Source.{IsOfOneRead};

use crate::MapRule;
use crate::layout::Layout;
use crate::page::digest_on;
use mr_geom::Rect;
use mr_record::Version;
use mr_tree::{
    Child, Entry, Hashes, INNER_FILL, LEAF_FILL, NodeView, ROOT_FILL, as_told, layers_of,
};

/// What is to be said of the node that a view shows.
pub fn entry_on<H: Hashes>(version: Version, view: &NodeView) -> Entry
    requires { All HasCount (children_in view.now) }
    ensures { result ≡ node_entry (by version H.of) (page_node view.now) }
{
    view.entry::<H>(version)
}

// The same of a node that stands on a page of this layout.
fn entry_from<H: Hashes>(layout: Layout, page: &[u8], view: &NodeView) -> Entry
    requires page { page.now ≡ (form_of layout).node_page (page_node view.now) }
    requires counts { All HasCount (children_in view.now) }
    ensures { result ≡ node_entry (by layout.version H.of) (page_node view.now) }
{
    if view.level() == 0 {
        let records = view.records();
        Entry {
            level: 0,
            rect: view.rect(),
            mask: layers_of(layout.version, records),
            count: as_told(layout.version, records.len() as u64),
            digest: digest_on::<H>(layout, page, view),
        }
    } else {
        entry_on::<H>(layout.version, view)
    }
}

/// Whether the mask is the one that is said and, of a node that is not the root, the count.
pub fn has_sums(found: &Entry, said: &Child, root: bool) -> bool
    ensures { result ≡ same_sums root found.now (child_link said.now).entry }
{
    found.mask == said.mask && (root || found.count == said.count)
}

/// Whether a rectangle is the one that is said.
pub fn has_rect(found: Option<Rect>, said: Rect) -> bool
    ensures { result ≡ same_rect found (Some said) }
{
    match found {
        None => false,
        Some(found) => found == said,
    }
}

// How few entries a node may have.
fn least_fill(view: &NodeView, root: bool) -> usize
    ensures { result ≡ fewest root (page_node view.now) }
{
    if view.level() == 0 {
        if root { 1 } else { LEAF_FILL as usize }
    } else {
        if root {
            ROOT_FILL as usize
        } else {
            INNER_FILL as usize
        }
    }
}

/// Whether a node has as many entries as it has to, as a root or below it.
pub fn has_fill(view: &NodeView, root: bool) -> bool
    ensures { result ≡ fills_node root view.now }
{
    view.len() >= least_fill(view, root)
}

/// Whether a node that was fetched has the rectangle, the mask and, unless it is the root, the
/// count that are said of it. Besides, whether it has as many entries as it has to, as a root or
/// below it. Its digest is not looked at.
pub fn is_fit(version: Version, view: &NodeView, said: &Child, root: bool) -> bool
    requires { All HasCount (children_in view.now) }
    ensures { result ≡ fits_entry version root said.now view.now }
{
    has_rect(view.rect(), said.rect)
        && (view.mask(version) == said.mask && (root || view.count(version) == said.count))
        && has_fill(view, root)
}

/// The first rule that the node on a page breaks against what is said of it.
pub fn check_node<H: Hashes>(
    layout: Layout,
    page: &[u8],
    view: &NodeView,
    child: &Child,
    root: bool,
) -> Option<MapRule>
    requires page { page.now ≡ (form_of layout).node_page (page_node view.now) }
    requires counts { All HasCount (children_in view.now) }
    ensures told { JudgesNode (by layout.version H.of) root (child_link child.now)
        (page_node view.now) result }
    ensures of_one_read { IfSome result IsOfOneRead }
{
    let found = entry_from::<H>(layout, page, view);
    if found.digest.as_slice() != child.digest.as_slice() {
        return Some(MapRule::Digest {
            held: child.digest,
            found: found.digest,
        });
    }
    if !has_rect(found.rect, child.rect) {
        return Some(MapRule::Rect);
    }
    if !has_sums(&found, child, root) {
        return Some(MapRule::Sum);
    }
    if !has_fill(view, root) {
        return Some(MapRule::Fill);
    }
    None
}

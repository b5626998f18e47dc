//! Pages that are read again.

ghost use Rattle.std.specs.Prelude.{◌≡◌, OnOk, IfErr, MatchOption, Some, bytes_eq};
ghost use Rattle.mr_tree.specs.Digest.{by};
ghost use Rattle.mr_pages.specs.Page as pages_spec;
ghost use Rattle.mr_pages.specs.PageBytes.{form_of, IsLayout};
ghost use Rattle.mr_pages.specs.Walking.{page_node};
ghost use Rattle.mr_store.specs.Kept.{AreInside};
ghost use Rattle.mr_store.specs.Again.{outside_of, judged, ShowsJudged, Outside, IsChildInFile, IsSaid, TellsNode, IsBlamed};

use mr_pages::{Layout, digest_on, node_on};
use mr_tree::{Child, Hashes, NodeView, NodesErr, is_view};

// Whether two digests are the same.
pub(crate) fn are_same(a: &[u8; 32], b: &[u8; 32]) -> bool
    ensures { result ≡ bytes_eq a.now b.now }
{
    a.as_slice() == b.as_slice()
}

// The first child's page that is page 0, or not in a file of so many pages.
fn outside(view: &NodeView, pages: u32) -> Option<u32>
    ensures far { MatchOption result (AreInside pages view.now) (Outside pages view.now) }
    ensures first { result ≡ outside_of pages (page_node view.now) }
{
    let children = view.children();
    for child in children {
        if child.id == 0 || child.id >= pages {
            return Some(child.id);
        }
    }
    None
}

// The node that a page of a file of so many pages spells, if it is what is said of the child.
pub(crate) fn check_page<H: Hashes>(
    layout: Layout,
    page: &[u8],
    pages: u32,
    child: &Child,
    into: &mut NodeView,
) -> Result<(), NodesErr>
    requires { IsLayout layout }
    ensures exact { ShowsJudged result into.new
        (judged (form_of layout) H.of pages child.now page.now) }
    ensures read { OnOk result (IsChildInFile (by layout.version H.of) pages child.now into.new) }
    ensures told { (m : pages_spec.Node) → (form_of layout).node_in page.now ≡ Some m →
        IsSaid (by layout.version H.of) pages child.now m → TellsNode m result into.new }
    ensures spelled { OnOk result
        ((form_of layout).node_in page.now ≡ Some (page_node into.new)) }
    ensures blamed { IfErr result (IsBlamed pages child.now) }
{
    if !node_on(layout, page, child.level, into) {
        return Err(NodesErr::Page { page: child.id });
    }
    is_view(into);
    let found = digest_on::<H>(layout, page, into);
    if !are_same(&child.digest, &found) {
        return Err(NodesErr::Changed {
            page: child.id,
            held: child.digest,
            found,
        });
    }
    match outside(into, pages) {
        Some(page) => Err(NodesErr::Outside { page }),
        None => Ok(()),
    }
}

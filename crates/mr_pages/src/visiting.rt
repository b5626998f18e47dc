//! The walk over the nodes of a file, page by page.

ghost use Rattle.std.specs.Prelude.{◌≡◌, ◌≤◌, ◌<◌, length, OnOk, IfOk, IfErr};
ghost use Rattle.mr_tree.specs.Digest.{by};
ghost use Rattle.mr_pages.specs.Gathering.{SuitsChild};
ghost use Rattle.mr_pages.specs.Source.{ReadsWithinRoom, Stay, GivesPage, MatchesChild, IfNotFailed, SaysOnce, left};
ghost use Rattle.mr_pages.specs.private.Walks.{AreKept, GivesPages, ReadsChecked, Walked};
ghost use Rattle.mr_pages.specs.Walking.{child_link};

use crate::judging::check_node;
use crate::layout::SECOND_SIZE;
use crate::node::Node;
use crate::source::Source;
use crate::visited::Visited;
use crate::{MapErr, MapFault, MapRule};
use mr_tree::{Child, NodeView, is_view};
use std::alloc::Global;

// The node that is said to stand on a page, or the first rule that it breaks against what is said
// of it. The view is only worked with.
fn read_checked<P: Source>(
    alloc: Global,
    pages: &mut P,
    child: &Child,
    root: bool,
    view: &mut NodeView,
) -> Result<Node, MapErr>
    requires { child.now.id < (P.state pages.old).pages }
    ensures told { IfNotFailed result (GivesPage (P.state pages.old) child.now.id
        (λ f. ReadsChecked (by (P.state pages.old).origin.form.version P.Hash.of) f.node root
        (child_link child.now) result)) }
    ensures known { IfOk result
        (MatchesChild (by (P.state pages.old).origin.form.version P.Hash.of) child.now) }
    ensures suits { IfOk result
        (SuitsChild (by (P.state pages.old).origin.form.version P.Hash.of) root child.now) }
    ensures of_one_read { IfErr result SaysOnce }
    ensures goes { ReadsWithinRoom (P.state pages.old) (P.state pages.new) 1 0 result }
    ensures holds { P.held pages.new ≡ P.held pages.old }
    ensures stay { Stay (P.keeps pages.old) (P.keeps pages.new) }
{
    let layout = pages.layout();
    let mut room = [0; SECOND_SIZE];
    let (bytes, _) = room.split_at_mut(layout.size);
    if !pages.node(child.id, child.level, bytes, view)? {
        return Err(MapErr::Map(MapFault {
            page: child.id,
            rule: MapRule::Page,
        }));
    }
    if let Some(rule) = check_node::<P::Hash>(layout, bytes, view, child, root) {
        return Err(MapErr::Map(MapFault {
            page: child.id,
            rule,
        }));
    }
    is_view(view);
    Ok(Node::of(alloc, view)?)
}

/// Walks over the nodes below a link, up to the first fault there. What is made of them is made of
/// each after those below it.
pub fn visit<P: Source>(
    alloc: Global,
    pages: &mut P,
    child: &Child,
    root: bool,
    view: &mut NodeView,
    seen: &mut Visited,
) -> Result<P::Made, MapErr>
    requires { length seen.old.reached.items ≡ (P.state pages.old).pages }
    ensures told { IfNotFailed result (GivesPages (P.state pages.old) seen.old seen.new
        (Walked (by (P.state pages.old).origin.form.version P.Hash.of)
        (P.makes (by (P.state pages.old).origin.form.version P.Hash.of) root (P.held pages.old)
        (P.held pages.new) child.now)
        (P.state pages.old).pages seen.old root child.now result seen.new)) }
    ensures of_one_read { IfErr result SaysOnce }
    ensures inside { OnOk result
        ((1 ≤ child.now.id) × (child.now.id < (P.state pages.old).pages)) }
    ensures room { length seen.new.reached.items ≡ length seen.old.reached.items }
    ensures goes { ReadsWithinRoom (P.state pages.old) (P.state pages.new) (left seen.old)
        (left seen.new)
        result }
    ensures kept { OnOk result (AreKept seen.old seen.new (P.keeps pages.new)) }
    ensures stay { Stay (P.keeps pages.old) (P.keeps pages.new) }
{
    if let Some(rule) = seen.enter(child.id) {
        return Err(MapErr::Map(MapFault {
            page: child.id,
            rule,
        }));
    }
    match read_checked::<P>(alloc, pages, child, root, view)? {
        Node::Leaf(records) => {
            if seen.meet(&records)? {
                return Err(MapErr::Map(MapFault {
                    page: child.id,
                    rule: MapRule::Number,
                }));
            }
            Ok(pages.make(child, Node::Leaf(records), Vec::new(alloc))?)
        }
        Node::Inner(children) => {
            let mut below = Vec::new(alloc);
            for one in &children {
                let made = visit::<P>(alloc, pages, one, false, view, seen)?;
                below.push(made)?;
            }
            Ok(pages.make(child, Node::Inner(children), below)?)
        }
    }
}

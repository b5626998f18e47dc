//! A list of entries that is searched for those which meet one of another list.

ghost use Rattle.std.specs.Prelude.{◌≡◌, [], ◌++◌, ◌∷◌, OnOk, ℤ};
ghost use Rattle.mr_join.specs.declared.searching.Node.{Node};
ghost use Rattle.mr_join.specs.private.Sweeping.{IsTree, AllWithin, Searched, found_by, LeastLeft, IsFresh};

use crate::Pair;
use crate::bounds::Bounds;
use crate::entry::Entry;
use crate::query::Query;
use mr_geom::Rect;
use std::alloc::AllocError;

/// An entry, and bounds round all of the part of a list that has it in the middle.
#[derive(Clone, Copy)]
pub(crate) struct Node {
    pub(crate) entry: Entry,
    bounds: Bounds,
}

// It begins nowhere before the least coordinate.
fn begins_in_map(rect: &Rect)
    ensures { LeastLeft rect.now }
{
    let _ = rect.corners();
}

impl Node {
    /// Of which nothing is known but its entry. As something may be due, the first search comes to
    /// it.
    pub(crate) fn of(entry: &Entry) -> Node
        ensures entry { result.entry ≡ entry.now }
        ensures fresh { IsFresh result }
    {
        begins_in_map(&entry.rect);
        Node {
            entry: *entry,
            bounds: Bounds {
                due: i64::MIN,
                low: i64::MAX,
                high: i64::MIN,
            },
        }
    }
}

// Round all of them.
fn bounds_of(nodes: &[Node]) -> Bounds
    ensures { (x : ℤ) → IsTree x nodes.now → AllWithin x result nodes.now }
{
    if nodes.is_empty() {
        return Bounds::none();
    }
    nodes[nodes.len() / 2].bounds
}

// Round all, from where the query's rectangle begins: those in front, the entry and those behind.
fn bounds_round(query: &Query, front: &[Node], entry: &Entry, back: &[Node]) -> Bounds
    requires front { IsTree query.now.rect.x0 front.now }
    requires back { IsTree query.now.rect.x0 back.now }
    ensures { (n : Node) → n.entry ≡ entry.now
        → AllWithin query.now.rect.x0 result (front.now ++ n ∷ back.now) }
{
    let sides = bounds_of(front).join(&bounds_of(back));
    query.bounds_for(entry).join(&sides)
}

// Puts the pair of both behind the others, where the entry meets.
fn put_met(query: &Query, entry: &Entry, pairs: &mut Vec<Pair>) -> Result<(), AllocError>
    ensures { OnOk result (pairs.new.items
        ≡ pairs.old.items ++ found_by (entry.now ∷ []) query.now) }
{
    if query.meets(entry) {
        pairs.push(query.pair(entry))?;
    }
    Ok(())
}

/// Puts the pair of the query and of each entry which meets behind the others.
///
/// The list is a tree: the node in the middle is the root, and on either side is a tree. Parts that
/// the query does not reach are passed over. Where the nodes rise by their lower sides, a search
/// comes to about log n nodes for itself and for each entry that it finds, whatever the entries. It
/// comes to as many for each that it finds to have begun or ended since the last one. For if it
/// reaches a part that begins wholly below its upper side, then one such entry is there. No clause
/// says so.
pub(crate) fn search(
    nodes: &mut [Node],
    query: &Query,
    pairs: &mut Vec<Pair>,
) -> Result<(), AllocError>
    requires { IsTree query.now.rect.x0 nodes.old }
    ensures { OnOk result
        (Searched query.now nodes.old nodes.new pairs.old.items pairs.new.items) }
{
    if !query.reaches(&bounds_of(nodes)) {
        return Ok(());
    }
    let middle = nodes.len() / 2;
    let (front, rest) = nodes.split_at_mut(middle);
    let Some((node, back)) = rest.split_first_mut() else {
        return Ok(());
    };
    search(front, query, pairs)?;
    put_met(query, &node.entry, pairs)?;
    search(back, query, pairs)?;
    node.bounds = bounds_round(query, front, &node.entry, back);
    Ok(())
}

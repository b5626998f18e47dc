//! Sweeps from left to right over two lists of rectangles.

ghost use Rattle.std.specs.Prelude.{◌≡◌, ◌++◌, ℤ, map, IfOk, OnOk};
ghost use Rattle.std.specs.List.{flat_map, AllByRecursion};
ghost use Rattle.std.specs.List.Sorted.{IsPermutation};
ghost use Rattle.mr_join.specs.private.Pairing.{all_pairs};
ghost use Rattle.mr_join.specs.private.Sweeping.{IsTree, IsFresh, Rises, FindsHalf, own_entry, found_for};

use crate::Pair;
use crate::entry::Entry;
use crate::query::Query;
use crate::searching::{Node, search};
use std::alloc::{AllocError, Global};

// The left side.
fn left(entry: &Entry) -> i32
    ensures { result ≡ entry.now.rect.x0 }
{
    let (x0, _, _, _) = entry.rect.corners();
    x0
}

// The lower side of its entry.
fn lower(node: &Node) -> i32
    ensures { result ≡ node.now.entry.rect.y0 }
{
    let (_, y0, _, _) = node.entry.rect.corners();
    y0
}

// Nodes of the entries.
fn fresh_nodes(alloc: Global, entries: &[Entry]) -> Result<Vec<Node>, AllocError>
    ensures entries { IfOk result (λ v. map own_entry v.items ≡ entries.now) }
    ensures fresh { IfOk result (λ v. AllByRecursion IsFresh v.items) }
{
    let mut nodes = Vec::with_capacity(alloc, entries.len())?;
    for entry in entries {
        nodes.push(Node::of(entry))?;
    }
    Ok(nodes)
}

// Puts them in rising order of their lower sides.
fn sort_nodes(nodes: &mut Vec<Node>) -> Result<(), AllocError>
    ensures { IsPermutation nodes.old.items nodes.new.items }
{
    nodes.sort_by_key(|node| lower(node))?;
    Ok(())
}

// Puts them in rising order of their left sides.
fn sort_entries(entries: &mut Vec<Entry>) -> Result<(), AllocError>
    ensures moved { IsPermutation entries.old.items entries.new.items }
    ensures rises { OnOk result (Rises entries.new.items) }
{
    entries.sort_by_key(|entry| left(entry))?;
    Ok(())
}

// A tree of the entries, in rising order of their lower sides.
fn tree_of(alloc: Global, entries: &[Entry]) -> Result<Vec<Node>, AllocError>
    ensures entries { IfOk result (λ v. IsPermutation entries.now (map own_entry v.items)) }
    ensures tree { IfOk result (λ v. (x : ℤ) → IsTree x v.items) }
{
    let mut nodes = fresh_nodes(alloc, entries)?;
    sort_nodes(&mut nodes)?;
    Ok(nodes)
}

// Puts the pairs of each of the entries, in their order, behind the others.
fn search_all(
    nodes: &mut [Node],
    entries: &[Entry],
    turned: bool,
    pairs: &mut Vec<Pair>,
) -> Result<(), AllocError>
    requires tree { (x : ℤ) → IsTree x nodes.old }
    requires rises { Rises entries.now }
    ensures { OnOk result (pairs.new.items ≡ pairs.old.items
        ++ flat_map (found_for turned (map own_entry nodes.old)) entries.now) }
{
    for entry in entries {
        search(nodes, &Query::of(entry, turned), pairs)?;
    }
    Ok(())
}

// Puts the pairs of one that asks and one that is held, and begins before it.
fn sweep(
    alloc: Global,
    held: &[Entry],
    asking: &[Entry],
    turned: bool,
    pairs: &mut Vec<Pair>,
) -> Result<(), AllocError>
    ensures { OnOk result
        (FindsHalf turned held.now asking.now pairs.old.items pairs.new.items) }
{
    let mut nodes = tree_of(alloc, held)?;
    let mut entries = asking.to_vec(alloc)?;
    sort_entries(&mut entries)?;
    search_all(&mut nodes, &entries, turned, pairs)
}

/// All pairs of an entry of the first list and one of the second that meet, in some order.
///
/// A line sweeps over the plane from left to right (Bentley and Wood 1980). When it comes to an
/// entry of one list, those of the other that it has come to and not yet passed are searched. So
/// each pair is found once, by the later of the two. Whatever the lists, it takes at most in
/// proportion to (n + m + k) log (n + m) steps, for n and m entries and k pairs. No clause says so.
pub(crate) fn pairs(
    alloc: Global,
    first: &[Entry],
    second: &[Entry],
) -> Result<Vec<Pair>, AllocError>
    ensures { IfOk result (λ v. IsPermutation (all_pairs first.now second.now) v.items) }
{
    let mut pairs = Vec::new(alloc);
    sweep(alloc, first, second, false, &mut pairs)?;
    sweep(alloc, second, first, true, &mut pairs)?;
    Ok(pairs)
}

//! The kth least distance of a map's records to a point, by a search from node to node, the nearest
//! first (Hjaltason and Samet 1999). Records that are on none of the layers asked for do not count,
//! and nodes without such records are passed over.

ghost use Rattle.std.specs.Prelude.{◌≡◌, ◌+◌, ◌-◌, ◌*◌, ◌^◌, ◌≤◌, [], ◌∷◌, ◌++◌, Some, OnOk, IfOk, IfErr, IfSome};
ghost use Rattle.std.specs.BinaryHeap.{IsHeap, heap_items};
ghost use Rattle.std.specs.List.Sorted.{IsPermutation};
ghost use Rattle.mr_outside.specs.Faults.{next_count};
ghost use Rattle.mr_tree.specs.Tree.{records};
ghost use Rattle.mr_tree.specs.Digest.{by};
ghost use Rattle.mr_tree.specs.Nodes.{MayFetch, TellsRefusal};
ghost use Rattle.mr_tree.specs.declared.tree.Tree.{Tree};
ghost use Rattle.mr_query.specs.private.Radius.{IsRadius};
ghost use Rattle.mr_prove.specs.Causes.{IsHandedOn, of_nodes};
ghost use Rattle.mr_prove.specs.private.Search.{aim, distances_on, kth_in, near_opened, IsNear, nearest_first, waiting_of, farthest, Best, Searching, Bounded, IsStart, Visited, SearchCauses};

use crate::ProveErr;
use crate::best::{is_reached, offer_all, radius_of};
use crate::fetching::fetched;
use crate::sought::Sought;
use crate::waiting::Waiting;
use mr_proof::Around;
use mr_tree::{Child, NodeView, Nodes};
use std::alloc::{AllocError, Global};
use std::collections::BinaryHeap;

// Puts a node into the queue, if it may have records on one of the layers.
fn wait_for(
    queue: &mut BinaryHeap<Waiting>,
    sought: &Sought,
    child: &Child,
) -> Result<(), AllocError>
    requires { IsHeap nearest_first (heap_items queue.old) }
    ensures heap { OnOk result (IsHeap nearest_first (heap_items queue.new)) }
    ensures joined { OnOk result (IsPermutation
        (waiting_of (aim sought.now) sought.now.version (child.now ∷ []) ++ heap_items queue.old)
        (heap_items queue.new)) }
{
    if !sought.has_layer(child) {
        return Ok(());
    }
    let one = Waiting {
        far: child.rect.dist2(&sought.center),
        child: *child,
    };
    queue.push(one)?;
    Ok(())
}

// Puts those of some nodes into the queue that may have records on one of the layers.
fn wait_for_all(
    queue: &mut BinaryHeap<Waiting>,
    sought: &Sought,
    children: &[Child],
) -> Result<(), AllocError>
    requires { IsHeap nearest_first (heap_items queue.old) }
    ensures heap { OnOk result (IsHeap nearest_first (heap_items queue.new)) }
    ensures joined { OnOk result (IsPermutation (heap_items queue.old ++
        waiting_of (aim sought.now) sought.now.version children.now) (heap_items queue.new)) }
{
    for child in children {
        wait_for(queue, sought, child)?;
    }
    Ok(())
}

// Fetches one node, which the honest cut for the kth least distance opens, and takes in what it
// shows.
fn visit<N: Nodes>(
    nodes: &mut N,
    sought: &Sought,
    child: &Child,
    queue: &mut BinaryHeap<Waiting>,
    best: &mut BinaryHeap<u128>,
) -> Result<(), ProveErr>
    requires version { sought.now.version ≡ (N.stands nodes.old).version }
    requires may { MayFetch N.Hash.of (N.stands nodes.old) child.now }
    requires near { IfSome (N.stands nodes.old).tree
        (IsNear (aim sought.now) (N.stands nodes.old) child.now) }
    requires heap { IsHeap nearest_first (heap_items queue.old) }
    requires best { Best sought.now.k (heap_items best.old) }
    ensures kept { N.kept nodes.old nodes.new }
    ensures counted { N.fetches nodes.new ≡ next_count (N.fetches nodes.old) }
    ensures heap { OnOk result (IsHeap nearest_first (heap_items queue.new)) }
    ensures best { OnOk result (Best sought.now.k (heap_items best.new)) }
    ensures visited { OnOk result (Visited N.Hash.of (aim sought.now) (N.stands nodes.old)
        child.now (heap_items queue.old) (heap_items queue.new)
        (heap_items best.old) (heap_items best.new)) }
    ensures causes { SearchCauses (N.stands nodes.old) (N.faults nodes.old) (N.faults nodes.new)
        result }
    ensures refused { IfErr result (IsHandedOn (N.refusal nodes.new)) }
    ensures answered { TellsRefusal of_nodes (N.refusal nodes.old) (N.refusal nodes.new) result }
{
    let mut view = NodeView::new();
    fetched(nodes, child, &mut view)?;
    offer_all(best, sought, view.records())?;
    wait_for_all(queue, sought, view.children())?;
    Ok(())
}

// Fetches the nearest node that waits, as long as something nearer than the radius can lie in it.
fn best_first<N: Nodes>(
    nodes: &mut N,
    sought: &Sought,
    queue: &mut BinaryHeap<Waiting>,
    best: &mut BinaryHeap<u128>,
) -> Result<Option<u128>, ProveErr>
    requires some { 1 ≤ sought.now.k }
    requires version { sought.now.version ≡ (N.stands nodes.old).version }
    requires heap { IsHeap nearest_first (heap_items queue.old) }
    requires best { Best sought.now.k (heap_items best.old) }
    requires searching { Searching N.Hash.of (aim sought.now) (N.stands nodes.old)
        (heap_items queue.old) (heap_items best.old) }
    requires bounded { Bounded N.Hash.of (aim sought.now) (N.stands nodes.old)
        (heap_items queue.old) (N.fetches nodes.old) (N.fetches nodes.old) }
    ensures kept { N.kept nodes.old nodes.new }
    ensures radius { IfOk result (λ r. (t : Tree) → (N.stands nodes.old).tree ≡ Some t →
        IsRadius sought.now.k (distances_on (aim sought.now) (records t)) r) }
    ensures low { IfOk result (λ r. IfSome r (λ n. n ≤ farthest)) }
    ensures fetched { IfSome (N.stands nodes.old).tree (λ t. N.fetches nodes.new ≤
        N.fetches nodes.old + near_opened (by (N.stands nodes.old).version N.Hash.of)
        (aim sought.now) t) }
    ensures causes { SearchCauses (N.stands nodes.old) (N.faults nodes.old) (N.faults nodes.new)
        result }
    ensures refused { IfErr result (IsHandedOn (N.refusal nodes.new)) }
    ensures answered { TellsRefusal of_nodes (N.refusal nodes.old) (N.refusal nodes.new) result }
{
    while let Some(next) = queue.pop() {
        let radius = radius_of(best, sought.k);
        if is_reached(radius, next.far) {
            return Ok(radius);
        }
        visit(nodes, sought, &next.child, queue, best)?;
    }
    Ok(radius_of(best, sought.k))
}

// The queue with which a search begins: the root alone, if it may have records on one of the
// layers.
fn start<N: Nodes>(
    alloc: Global,
    nodes: &N,
    sought: &Sought,
) -> Result<BinaryHeap<Waiting>, AllocError>
    requires { sought.now.version ≡ (N.stands nodes.now).version }
    ensures heap { IfOk result (λ queue. IsHeap nearest_first (heap_items queue)) }
    ensures root { IfOk result (λ queue.
        IsStart N.Hash.of (aim sought.now) (N.stands nodes.now) (heap_items queue)) }
{
    let mut queue = BinaryHeap::new(alloc);
    match nodes.top().root {
        None => Ok(queue),
        Some(root) => {
            wait_for(&mut queue, sought, &root)?;
            Ok(queue)
        }
    }
}

// The kth least squared distance to the point of a record on one of the layers, in squared map
// units, or none where there are fewer than k such records.
//
// Only nodes that lie within that distance and may have such records are fetched, each once at
// most: no more than the honest cut for it opens. The queue and the k least distances are kept in
// heaps.
pub(crate) fn kth_distance<N: Nodes>(
    alloc: Global,
    nodes: &mut N,
    around: &Around,
) -> Result<Option<u128>, ProveErr>
    requires { 1 ≤ around.now.k }
    ensures kept { N.kept nodes.old nodes.new }
    ensures radius { IfOk result (λ r. IfSome (N.stands nodes.old).tree (λ t.
        r ≡ kth_in around.now t)) }
    ensures low { IfOk result (λ r. IfSome r (λ n. n ≤ 2 * ((2 ^ 32 - 1) * (2 ^ 32 - 1)))) }
    ensures fetched { IfSome (N.stands nodes.old).tree (λ t. N.fetches nodes.new ≤
        N.fetches nodes.old + near_opened (by (N.stands nodes.old).version N.Hash.of)
        around.now t) }
    ensures causes { SearchCauses (N.stands nodes.old) (N.faults nodes.old) (N.faults nodes.new)
        result }
    ensures refused { IfErr result (IsHandedOn (N.refusal nodes.new)) }
    ensures answered { TellsRefusal of_nodes (N.refusal nodes.old) (N.refusal nodes.new) result }
{
    let sought = Sought::of(around, nodes.top().version);
    let mut queue = start(alloc, nodes, &sought)?;
    let mut best = BinaryHeap::new(alloc);
    best_first(nodes, &sought, &mut queue, &mut best)
}

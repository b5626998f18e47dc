//! The least of the distances that a search has met.

ghost use Rattle.std.specs.Prelude.{◌≡◌, ℕ, ◌+◌, ◌≤◌, [], ◌∷◌, min, All, IfSome, OnOk, IsTrue, ◌↔◌};
ghost use Rattle.std.specs.BinaryHeap.{heap_items};
ghost use Rattle.mr_record.specs.Record.{HasLayer};
ghost use Rattle.mr_record.specs.declared.version.Version.TheVariants.{Two};
ghost use Rattle.mr_query.specs.private.Radius.{below, IsRadius};
ghost use Rattle.mr_prove.specs.private.Search.{distances_on, farthest, aim, Best, IsReached};

use crate::sought::Sought;
use mr_record::Record;
use std::alloc::AllocError;
use std::collections::BinaryHeap;

// Takes in one more distance, and keeps the k least.
pub(crate) fn offer(best: &mut BinaryHeap<u128>, k: usize, far: u128) -> Result<(), AllocError>
    requires best { Best k (heap_items best.old) }
    requires low { far ≤ farthest }
    ensures best { OnOk result (Best k (heap_items best.new)) }
    ensures least { OnOk result ((x : ℕ) → min k (below x (heap_items best.new)) ≡
        min k (below x (far ∷ heap_items best.old))) }
{
    best.push(far)?;
    if best.as_slice().len() > k {
        let _greatest = best.pop();
    }
    Ok(())
}

// Takes in the distance of a record, if it is on one of the layers.
fn offer_one(best: &mut BinaryHeap<u128>, sought: &Sought, one: &Record) -> Result<(), AllocError>
    requires best { Best sought.now.k (heap_items best.old) }
    requires layer { HasLayer Two one.now }
    ensures best { OnOk result (Best sought.now.k (heap_items best.new)) }
    ensures least { OnOk result ((x : ℕ) → min sought.now.k (below x (heap_items best.new)) ≡
        min sought.now.k (below x (heap_items best.old)
        + below x (distances_on (aim sought.now) (one.now ∷ [])))) }
{
    if !sought.is_on(one) {
        return Ok(());
    }
    offer(best, sought.k, one.rect.dist2(&sought.center))
}

// Takes in the distances of those of some records that are on one of the layers.
pub(crate) fn offer_all(
    best: &mut BinaryHeap<u128>,
    sought: &Sought,
    records: &[Record],
) -> Result<(), AllocError>
    requires best { Best sought.now.k (heap_items best.old) }
    requires layers { All (HasLayer Two) records.now }
    ensures best { OnOk result (Best sought.now.k (heap_items best.new)) }
    ensures least { OnOk result ((x : ℕ) → min sought.now.k (below x (heap_items best.new)) ≡
        min sought.now.k (below x (heap_items best.old)
        + below x (distances_on (aim sought.now) records.now))) }
{
    for record in records {
        offer_one(best, sought, record)?;
    }
    Ok(())
}

// The kth least of those that were kept, where there are as many.
pub(crate) fn radius_of(best: &BinaryHeap<u128>, k: usize) -> Option<u128>
    requires best { Best k (heap_items best.now) }
    requires some { 1 ≤ k }
    ensures radius { IsRadius k (heap_items best.now) result }
    ensures low { IfSome result (λ r. r ≤ farthest) }
{
    if best.as_slice().len() < k {
        return None;
    }
    best.peek().copied()
}

// Whether nothing nearer than the radius can lie this far away.
pub(crate) fn is_reached(radius: Option<u128>, far: u128) -> bool
    ensures { IsTrue result ↔ IsReached radius far }
{
    match radius {
        Some(radius) => radius <= far,
        None => false,
    }
}

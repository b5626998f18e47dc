//! What is counted of a proof as it is read.

ghost use Rattle.std.specs.Prelude.{◌≡◌, ◌+◌, ℕ};
ghost use Rattle.mr_proof.specs.Cut.{Pruned};
ghost use Rattle.mr_check.specs.Whole.{whole_of};
ghost use Rattle.mr_check.specs.private.Counting.{capped};
ghost use Rattle.mr_check.specs.private.Machine.{ways_at};

use crate::radius_counts::RadiusCounts;
use mr_proof::{AsQuestion, Head, PrunedEntry, Way, mask_seen};
use mr_query::Key;

// The counts of the records that were handed out; and the counts of the pruned parts that are asked
// for whole, added up to a number that stands still at the type's end.
#[derive(Clone, Copy)]
pub(crate) struct Counts {
    pub(crate) radius: RadiusCounts,
    pub(crate) whole: u64,
}

// Adds the count of a pruned part, if all in it is asked for.
pub(crate) fn add_pruned<A: AsQuestion>(q: &A, head: &Head, whole: &mut u64, part: &PrunedEntry)
    ensures { (n : ℕ) → whole.old ≡ capped n → whole.new ≡ capped (n
        + whole_of head.now.version (ways_at (A.question q.now) head.now) (Pruned part.now)) }
{
    let seen = Key {
        rect: part.rect,
        mask: mask_seen(head.version, part.mask),
    };
    match q.way(head.radius, &seen) {
        Way::Skip => {}
        Way::Whole => *whole = whole.saturating_add(part.count),
        Way::Open => {}
    }
}

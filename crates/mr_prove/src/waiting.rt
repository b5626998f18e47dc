//! What a search has not fetched yet.

ghost use Rattle.std.specs.Prelude.{◌==◌};
ghost use Rattle.std.proofs.Common.{rules};
ghost use Rattle.std.specs.Cmp.{partial_order_from_own_ties};
ghost use Rattle.std.specs.Cmp.Rules.{comparing};
ghost use Rattle.std.specs.Ordering.{nat_cmp, on, flip_args, as_partial_cmp};

use mr_tree::Child;
use std::cmp::Ordering;

// A node that waits to be fetched, with its squared distance in squared map units. Of two the
// nearer one is the greater, so that a heap gives the nearest first.
#[derive(Clone, Copy)]
pub(crate) struct Waiting {
    pub(crate) far: u128,
    pub(crate) child: Child,
}

impl PartialEq for Waiting {
    ghost eq = { on (λ w. w.far) ◌==◌ };

    ghost laws = { Prim.search (comparing, rules) };

    fn eq(&self, other: &Waiting) -> bool {
        self.far == other.far
    }
}

impl Eq for Waiting {
    ghost laws = { Prim.search (comparing, rules) };
}

impl Ord for Waiting {
    ghost cmp = { flip_args (on (λ w. w.far) nat_cmp) };

    ghost total = { Prim.search (comparing, rules) };

    ghost matches_partial_cmp = { Prim.search (comparing, rules) };

    ghost matches_eq = { Prim.search (comparing, rules) };

    fn cmp(&self, other: &Waiting) -> Ordering {
        other.far.cmp(&self.far)
    }
}

impl PartialOrd for Waiting {
    ghost partial_cmp = { as_partial_cmp (flip_args (on (λ w. w.far) nat_cmp)) };

    ghost laws = { partial_order_from_own_ties (Prim.search (comparing, rules))
        (Prim.search (comparing, rules)) };

    fn partial_cmp(&self, other: &Waiting) -> Option<Ordering> {
        Some(self.cmp(other))
    }
}

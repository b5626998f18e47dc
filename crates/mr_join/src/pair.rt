//! Pairs of records.

use mr_outside::Items;

/// The numbers of two records, one of each of two maps.
#[derive(Clone, Copy, Debug, PartialEq, Eq)]
pub struct Pair {
    pub first: u64,
    pub second: u64,
}

/// The pairs of a join, in rising order of their first numbers and then of their second ones.
pub type Pairs = Items<Pair>;

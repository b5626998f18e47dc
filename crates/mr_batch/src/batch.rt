//! A batch of changes.

ghost use Rattle.std.specs.Prelude.{◌≡◌, ◌^◌, ◌<◌, ◌≤◌, length, slice_index, slice_index_or, None};
ghost use Rattle.mr_batch.specs.Changes.{Changes, numbers};
ghost use Rattle.mr_batch.specs.Earlier.{IsLastBelow, IsLinked};

use crate::Change;
use std::marker::Model;

/// A batch: its number, and changes in the order in which they are made. It knows of each change
/// the last earlier one of the same record number.
#[derive(Drop)]
pub struct Batch {
    number: u64,
    changes: Vec<Change>,
    links: Vec<Option<usize>>,
}

impl Model for Batch {
    ghost use Rattle.mr_batch.specs.Changes.{Changes};
    ghost use Rattle.mr_batch.specs.Earlier.{IsLinked};

    ghost Value = { Changes };

    ghost view = { λ b. record { number = b.number; list = b.changes.items } };

    ghost invariant = { λ b. IsLinked b.changes.items b.links.items };
}

impl Batch {
    // The batch of these changes, where `links` has at each place the last earlier change of the
    // same record number.
    pub(crate) fn new(number: u64, changes: Vec<Change>, links: Vec<Option<usize>>) -> Batch
        requires { IsLinked changes.items links.items }
        ensures { let batch : Changes = record { number = number; list = changes.items } in
            result ≡ batch }
    {
        Batch {
            number,
            changes,
            links,
        }
    }

    /// The number of the batch: a map at batch b takes batch b + 1 next.
    pub fn number(&self) -> u64
        ensures { result ≡ self.now.number }
    {
        self.number
    }

    /// How many changes there are.
    pub fn len(&self) -> usize
        ensures exact { result ≡ length self.now.list }
        ensures small { result < 2 ^ 63 }
    {
        self.changes.len()
    }

    /// The change at the place `i`, counted from 0.
    pub fn change(&self, i: usize) -> &Change
        requires { i < length self.now.list }
        ensures { result.now ≡ slice_index_or self.now.list i result.now }
    {
        &self.changes[i]
    }

    /// The place of the last change before the place `i` that has the same record number, where
    /// there is one. Behind the last change there is none.
    pub fn earlier(&self, i: usize) -> Option<usize>
        ensures last { i < length self.now.list
            → IsLastBelow i (slice_index (numbers self.now.list) i) (numbers self.now.list) result }
        ensures behind { length self.now.list ≤ i → result ≡ None }
    {
        match self.links.get(i) {
            Some(link) => *link,
            None => None,
        }
    }
}

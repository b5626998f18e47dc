//! Numbers that were met.

ghost use Rattle.std.specs.Prelude.{◌≡◌, ◌≢◌, ◌≤◌, ◌^◌, min, [], length, IfOk};
ghost use Rattle.mr_pages.specs.private.Places.{number_in_place};
ghost use Rattle.mr_pages.specs.private.Numbers.{count_kept, Met, MeetsNumber};

use crate::flags::Flags;
use crate::table::Table;
use std::alloc::{AllocError, Global};
use std::collections::BTreeSet;

// The most places of the table, and the most flags beside it.
const PLACES: usize = 1 << 20;

/// Numbers that were met.
///
/// Each of the least numbers has a flag. A greater one goes to its place in the table where that is
/// empty, and else to the others. What the flags and the table have room for is met without a
/// search.
#[derive(Drop)]
pub struct Numbers {
    flags: Flags,
    table: Table,
    others: BTreeSet<u64>,
}

impl Numbers {
    /// No numbers, with this many flags and a table of as many places, or with 2^20 of each where
    /// that is fewer.
    pub fn new(alloc: Global, places: usize) -> Result<Numbers, AllocError>
        requires { 1 ≤ places }
        ensures none { IfOk result (λ s. Met s []) }
        ensures flags { IfOk result (λ s. length s.flags.flags.items ≡ min places (2 ^ 20)) }
        ensures table { IfOk result (λ s. length s.table.places.items ≡ min places (2 ^ 20)) }
    {
        let places = places.min(PLACES);
        Ok(Numbers {
            flags: Flags::new(alloc, places)?,
            table: Table::new(alloc, places)?,
            others: BTreeSet::new(alloc),
        })
    }

    /// Meets a number; whether it was met before.
    pub fn meet(&mut self, n: u64) -> Result<bool, AllocError>
        ensures { IfOk result (λ old. MeetsNumber self.old n old self.new) }
    {
        if n < self.flags.len() as u64 {
            return Ok(self.flags.set(n as usize));
        }
        let found = self.table.at(n);
        if found == n {
            return Ok(true);
        }
        if found == 0 {
            self.table.put(n);
            return Ok(false);
        }
        self.meet_other(n)
    }

    // Meets a number that has no flag and does not go into the table.
    fn meet_other(&mut self, n: u64) -> Result<bool, AllocError>
        requires high { length self.old.flags.flags.items ≤ n }
        requires apart { n ≢ 0 → number_in_place self.old.table.places.items n ≢ n }
        requires taken { n ≢ 0 → number_in_place self.old.table.places.items n ≢ 0 }
        ensures { IfOk result (λ old. MeetsNumber self.old n old self.new) }
    {
        Ok(!self.others.insert(n)?)
    }

    /// How many numbers were met.
    pub fn count(&self) -> u64
        ensures { result ≡ count_kept self.now }
    {
        self.flags.count() as u64 + self.table.taken() as u64 + self.others.len() as u64
    }
}

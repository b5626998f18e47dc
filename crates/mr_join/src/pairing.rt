//! The pairs of records that meet.

ghost use Rattle.std.specs.Prelude.{◌≡◌, map, IfOk, OnOk};
ghost use Rattle.mr_record.specs.Sorting.{sorted_by};
ghost use Rattle.mr_join.specs.Pairs.{is_before, pairs_of};
ghost use Rattle.mr_join.specs.private.Pairing.{entry_of};

use crate::Pair;
use crate::entry::Entry;
use crate::sweeping::pairs;
use mr_record::Record;
use std::alloc::{AllocError, Global};

// Their rectangles and numbers.
fn entries_of(alloc: Global, records: &[Record]) -> Result<Vec<Entry>, AllocError>
    ensures { IfOk result (λ v. v.items ≡ map entry_of records.now) }
{
    let mut entries = Vec::with_capacity(alloc, records.len())?;
    for record in records {
        entries.push(Entry {
            rect: record.rect,
            number: record.number,
        })?;
    }
    Ok(entries)
}

// Puts them in rising order.
fn sort(pairs: &mut Vec<Pair>) -> Result<(), AllocError>
    ensures { OnOk result (pairs.new.items ≡ sorted_by is_before pairs.old.items) }
{
    pairs.sort_by_key(|pair| (pair.first, pair.second))?;
    Ok(())
}

/// All pairs of a record of the first list and one of the second that meet, in rising order. For n
/// and m records and k pairs it takes at most in proportion to (n + m + k) log (n + m) steps,
/// whatever the lists. No clause says so.
pub(crate) fn pairs_of(
    alloc: Global,
    first: &[Record],
    second: &[Record],
) -> Result<Vec<Pair>, AllocError>
    ensures { IfOk result (λ v. v.items ≡ pairs_of first.now second.now) }
{
    let first = entries_of(alloc, first)?;
    let second = entries_of(alloc, second)?;
    let mut found = pairs(alloc, &first, &second)?;
    sort(&mut found)?;
    Ok(found)
}

//! Whether a batch may be applied to a map.

ghost use Rattle.std.specs.Prelude.{◌≡◌, ◌<◌, ◌↔◌, List, length, take, slice_index, MatchResult, IsOk, Some, None};
ghost use Rattle.mr_record.specs.declared.record.Record as types;
ghost use Rattle.mr_batch.specs.Changes.{numbers};
ghost use Rattle.mr_batch.specs.Applied.{IsAdmissible};
ghost use Rattle.mr_batch.specs.Admissible.{batch_fault};
ghost use Rattle.mr_batch.specs.Directory.{HaveNumbers};
ghost use Rattle.mr_batch.specs.private.Presence.{after_all, count_after, hindered, first_hindered, fault_by, knows};

use crate::{Batch, Change, Directory};
use mr_tree::COUNT_LIMIT;

/// Why a batch may not be applied. Lines are those of the batch text: the head is line 1, and the
/// change at the place `i` stands on line `i + 2`.
#[derive(Clone, Copy, Debug, PartialEq, Eq)]
pub enum BatchFault {
    /// The number of the batch is not one more than the held one.
    OutOfOrder { held: u64, given: u64 },
    /// The number of a record that comes in is there already.
    Present { line: u64 },
    /// The number of a record that goes out is not there.
    Absent { line: u64 },
    /// There is no room for a record more.
    Full { line: u64 },
}

// Whether the record number of the change at the place `i` is there before that change.
fn is_present(dir: &Directory, batch: &Batch, i: usize) -> bool
    requires { i < length batch.now.list }
    ensures { result ≡ after_all (knows dir.now) (take i batch.now.list)
        (slice_index (numbers batch.now.list) i) }
{
    match batch.earlier(i) {
        Some(j) => batch.change(j).is_addition(),
        None => dir.rect(batch.change(i).number()).is_some(),
    }
}

// The count of records after a change, or why it may not be made.
fn step(present: bool, count: usize, line: u64, change: &Change) -> Result<usize, BatchFault>
    ensures { MatchResult result
        (λ n. (n ≡ count_after count change.now) × (hindered present count line change.now ≡ None))
        (λ fault. hindered present count line change.now ≡ Some fault) }
{
    match change {
        Change::Add(_) if present => Err(BatchFault::Present { line }),
        Change::Add(_) if count as u64 >= COUNT_LIMIT => Err(BatchFault::Full { line }),
        Change::Add(_) => Ok(count + 1),
        Change::Remove(_) if !present => Err(BatchFault::Absent { line }),
        Change::Remove(_) => Ok(count.saturating_sub(1)),
    }
}

// The changes one by one, beginning with so many records.
fn check_changes(dir: &Directory, mut count: usize, batch: &Batch) -> Result<(), BatchFault>
    ensures { MatchResult result
        (λ _. first_hindered (knows dir.now) count 2 batch.now.list ≡ None)
        (λ fault. first_hindered (knows dir.now) count 2 batch.now.list ≡ Some fault) }
{
    for i in 0..batch.len() {
        let present = is_present(dir, batch, i);
        count = step(present, count, i as u64 + 2, batch.change(i))?;
    }
    Ok(())
}

// The number of the batch, then its changes.
fn check_all(dir: &Directory, count: usize, held: u64, batch: &Batch) -> Result<(), BatchFault>
    ensures { MatchResult result (λ _. fault_by (knows dir.now) count held batch.now ≡ None)
        (λ fault. fault_by (knows dir.now) count held batch.now ≡ Some fault) }
{
    let given = batch.number();
    if held.checked_add(1) != Some(given) {
        return Err(BatchFault::OutOfOrder { held, given });
    }
    check_changes(dir, count, batch)
}

/// Whether the batch may be applied to a map with the directory's records at the held batch, and
/// else the first cause why not. The first is that its number is not one more than the held one,
/// and each later one a change that may not be made in its turn. Takes no memory.
pub fn admit(dir: &Directory, held: u64, batch: &Batch) -> Result<(), BatchFault>
    ensures exact { (rs : List types.Record) → HaveNumbers dir.now rs
        → MatchResult result (λ _. batch_fault rs held batch.now ≡ None)
        (λ fault. batch_fault rs held batch.now ≡ Some fault) }
    ensures admissible { (rs : List types.Record) → HaveNumbers dir.now rs
        → (IsOk result ↔ IsAdmissible rs held batch.now) }
    ensures some_records { (rs : List types.Record) × HaveNumbers dir.now rs }
{
    let count = dir.len();
    check_all(dir, count, held, batch)
}

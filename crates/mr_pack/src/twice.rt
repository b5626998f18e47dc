//! The least number that two records have.

ghost use Rattle.std.specs.Prelude.{◌≡◌, ◌≤◌, ℕ, IfOk, MatchOption};
ghost use Rattle.std.specs.List.Sorted.{IsPermutation, IsNonDecreasing};
ghost use Rattle.mr_pack.specs.Repeats.{occurrences, repeat_after, IsLeastTwice};
ghost use Rattle.mr_pack.specs.Twice.{numbers_of};

use mr_record::Record;
use std::alloc::{AllocError, Global};

// The numbers of some records, in rising order.
fn sorted_numbers(alloc: Global, records: &[Record]) -> Result<Vec<u64>, AllocError>
    ensures permutation { IfOk result (λ v. IsPermutation (numbers_of records.now) v.items) }
    ensures sorted { IfOk result (λ v. IsNonDecreasing v.items) }
{
    let mut numbers: Vec<u64> = records.iter().map(|record| record.number).collect(alloc)?;
    numbers.sort_unstable();
    Ok(numbers)
}

// The first number that is the one before it, where `last` stands before the others.
fn first_repeat(mut last: u64, numbers: &[u64]) -> Option<u64>
    ensures { result ≡ repeat_after last numbers.now }
{
    for number in numbers {
        if *number == last {
            return Some(last);
        }
        last = *number;
    }
    None
}

// The least number that stands twice in a rising list.
fn repeated(numbers: &[u64]) -> Option<u64>
    requires { IsNonDecreasing numbers.now }
    ensures { MatchOption result ((n : ℕ) → occurrences n numbers.now ≤ 1)
        (λ n. IsLeastTwice n numbers.now) }
{
    let (first, others) = numbers.split_first()?;
    first_repeat(*first, others)
}

// The least number that two records have.
pub(crate) fn least_twice(alloc: Global, records: &[Record]) -> Result<Option<u64>, AllocError>
    ensures { IfOk result (λ r. MatchOption r ((n : ℕ) → occurrences n (numbers_of records.now) ≤ 1)
        (λ n. IsLeastTwice n (numbers_of records.now))) }
{
    let numbers = sorted_numbers(alloc, records)?;
    Ok(repeated(&numbers))
}

//! Marks in a row, kept so that those before a place are counted at once.

ghost use Rattle.std.specs.Prelude.{◌≡◌, ℕ, ◌+◌, ◌*◌, ◌^◌, ◌≤◌, ◌<◌, count_ones, IfOk, length};
ghost use Rattle.mr_reach.specs.private.Marks.{mask, rank, IsRank};

use std::alloc::{AllocError, Global};

/// Up to 64 marks as bits, the first as the lowest, and how many are set before them.
#[derive(Clone, Copy)]
pub(crate) struct Run {
    before: usize,
    bits: u64,
}

// The marks as bits, the first as the lowest.
fn mask(marks: &[bool]) -> u64
    requires { length marks.now ≤ 64 }
    ensures { result ≡ mask marks.now }
{
    let mut bits = 0;
    let mut at = marks.len();
    while at > 0 {
        at -= 1;
        bits = 2 * bits + u64::from(marks[at]);
    }
    bits
}

// How many bits are set.
fn ones(bits: u64) -> usize
    ensures { result ≡ count_ones bits }
{
    bits.count_ones() as usize
}

/// The marks in runs, with an empty one behind full ones.
pub(crate) fn runs_of(alloc: Global, marks: &[bool]) -> Result<Vec<Run>, AllocError>
    ensures { IfOk result (λ runs. IsRank marks.now runs.items) }
{
    let mut runs = Vec::with_capacity(alloc, marks.len() / 64 + 1)?;
    let mut before = 0;
    let mut rest = marks;
    while rest.len() >= 64 {
        let (row, behind) = rest.split_at(64);
        let bits = mask(row);
        runs.push(Run { before, bits })?;
        before += ones(bits);
        rest = behind;
    }
    let bits = mask(rest);
    runs.push(Run { before, bits })?;
    Ok(runs)
}

/// How many marks are set before this place.
pub(crate) fn rank(runs: &[Run], at: usize) -> usize
    requires within { at < 64 * length runs.now }
    requires fits { rank runs.now at < 2 ^ 64 }
    ensures { result ≡ rank runs.now at }
{
    let run = &runs[at / 64];
    run.before + ones(run.bits & ((1 << (at % 64)) - 1))
}

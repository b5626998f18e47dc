//! The two groups that a node is split into.

ghost use Rattle.std.specs.Prelude.{◌≡◌, ◌*◌, ◌<◌, ◌≤◌, ◌++◌, length, map, IfOk, AllPairs};
ghost use Rattle.std.specs.List.Sorted.{IsPermutation};
ghost use Rattle.mr_split.specs.Best.{positions};
ghost use Rattle.mr_split.specs.Split.{sides as sides_of, is_on as is_on_side, group, first_group, second_group, seeded, is as is_same};
ghost use Rattle.mr_split.specs.declared.mark.Mark.TheVariants as marked;

use crate::mark::{Mark, is};
use crate::seeds::seeds;
use crate::sharing::share;
use mr_geom::Rect;
use std::alloc::{AllocError, Global};

// The marks of entries of which the seeds are in their groups.
fn seeded_marks(alloc: Global, list: &[Rect]) -> Result<Vec<Mark>, AllocError>
    requires { 2 ≤ length list.now }
    ensures { IfOk result (λ v. v.items ≡ seeded list.now) }
{
    let seeds = seeds(list);
    let mut marks = vec![in alloc; Mark::Open; list.len()]?;
    marks[seeds.first] = Mark::First;
    marks[seeds.second] = Mark::Second;
    Ok(marks)
}

// Of each mark whether it is that of the second group.
fn are_second(alloc: Global, marks: &[Mark]) -> Result<Vec<bool>, AllocError>
    ensures { IfOk result (λ v. v.items ≡ map (is_same marked.Second) marks.now) }
{
    marks
        .iter()
        .map(|mark| is(Mark::Second, *mark))
        .collect(alloc)
}

/// Of each rectangle of a node that is too full whether it goes to the second of two groups, where
/// each group gets at least `least`, by the quadratic method (Guttman 1984).
pub fn sides(alloc: Global, list: &[Rect], least: usize) -> Result<Vec<bool>, AllocError>
    requires some { 1 ≤ least }
    requires enough { 2 * least ≤ length list.now }
    requires few { length list.now ≤ 65 }
    ensures exact { IfOk result (λ v. v.items ≡ sides_of list.now least) }
    ensures all { IfOk result (λ v. length v.items ≡ length list.now) }
{
    let mut seeded = seeded_marks(alloc, list)?;
    let marks = seeded.as_mut_slice();
    share(list.len() - 2, least, list, marks);
    are_second(alloc, marks)
}

// Whether an entry is on a side.
fn is_on(side: bool, in_second: bool) -> bool
    ensures { result ≡ is_on_side side in_second }
{
    if side { in_second } else { !in_second }
}

// The positions on one side, rising.
fn positions_on(alloc: Global, sides: &[bool], side: bool) -> Result<Vec<usize>, AllocError>
    ensures { IfOk result (λ v. v.items ≡ group sides.now side) }
{
    let mut group = Vec::new(alloc);
    for at in 0..sides.len() {
        if is_on(side, sides[at]) {
            group.push(at)?;
        }
    }
    Ok(group)
}

/// The positions of the rectangles of a node that is too full, put into two groups of at least `m`
/// each, by the quadratic method (Guttman 1984). Both groups rise.
pub fn split(alloc: Global, list: &[Rect], m: usize) -> Result<(Vec<usize>, Vec<usize>), AllocError>
    requires some { 1 ≤ m }
    requires enough { 2 * m ≤ length list.now }
    requires few { length list.now ≤ 65 }
    ensures first { IfOk result (λ p. p.0.items ≡ first_group list.now m) }
    ensures second { IfOk result (λ p. p.1.items ≡ second_group list.now m) }
    ensures enough_first { IfOk result (λ p. m ≤ length p.0.items) }
    ensures enough_second { IfOk result (λ p. m ≤ length p.1.items) }
    ensures all { IfOk result (λ p.
        IsPermutation (positions (length list.now)) (p.0.items ++ p.1.items)) }
    ensures rising_first { IfOk result (λ p. AllPairs (λ i j. i < j) p.0.items) }
    ensures rising_second { IfOk result (λ p. AllPairs (λ i j. i < j) p.1.items) }
{
    let sides = sides(alloc, list, m)?;
    let first = positions_on(alloc, &sides, false)?;
    let second = positions_on(alloc, &sides, true)?;
    Ok((first, second))
}

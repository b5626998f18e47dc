//! Points, of which those that lie low and to the left are counted in few steps.

ghost use Rattle.std.specs.Prelude.{◌≡◌, ◌≤◌, IfOk, OnOk, length, take};
ghost use Rattle.std.specs.List.Sorted.{IsPermutation};
ghost use Rattle.mr_reach.specs.private.Ranks.{at_most, Rises};
ghost use Rattle.mr_reach.specs.private.Corners.{xs_in, ys_in, axes_count, CountsCorners};

use crate::levels::{Level, count_up_to, levels_of};
use crate::marks::rank;
use mr_geom::Point;
use std::alloc::{AllocError, Global};
use std::marker::Model;

/// Points by their numbers, from left to right.
///
/// To count those that lie low and to the left takes about 3 log n steps, whatever they are
/// (Chazelle 1988); no clause says so. The second numbers stand in blocks of each power of two, and
/// of those that are low in a block it is known how many are of its first half.
#[derive(Drop)]
pub(crate) struct Corners {
    xs: Vec<i32>,
    ys: Vec<i32>,
    heights: Vec<i32>,
    levels: Vec<Level>,
}

impl Model for Corners {
    ghost use Rattle.mr_reach.specs.private.Corners.{Axes, HasAxes};

    ghost Value = { Axes };

    ghost view = { λ c. record { xs = c.xs.items; ys = c.ys.items } };

    ghost invariant = { λ c. HasAxes c.xs.items c.ys.items c.heights.items c.levels.items };
}

// From left to right.
fn sort(points: &mut Vec<Point>) -> Result<(), AllocError>
    ensures kept { OnOk result (IsPermutation points.old.items points.new.items) }
    ensures order { OnOk result (Rises (xs_in points.new.items)) }
{
    points.sort_by_key(|point| point.x)?;
    Ok(())
}

fn xs_of(alloc: Global, points: &[Point]) -> Result<Vec<i32>, AllocError>
    ensures { IfOk result (λ xs. xs.items ≡ xs_in points.now) }
{
    let mut xs = Vec::with_capacity(alloc, points.len())?;
    for point in points {
        xs.push(point.x)?;
    }
    Ok(xs)
}

fn ys_of(alloc: Global, points: &[Point]) -> Result<Vec<i32>, AllocError>
    ensures { IfOk result (λ ys. ys.items ≡ ys_in points.now) }
{
    let mut ys = Vec::with_capacity(alloc, points.len())?;
    for point in points {
        ys.push(point.y)?;
    }
    Ok(ys)
}

impl Corners {
    /// Of these points. It takes n log n steps.
    pub(crate) fn of(mut points: Vec<Point>) -> Result<Corners, AllocError>
        ensures { IfOk result (CountsCorners points.items) }
    {
        let alloc = *points.allocator();
        sort(&mut points)?;
        let xs = xs_of(alloc, &points)?;
        let ys = ys_of(alloc, &points)?;
        let (heights, levels) = levels_of(ys_of(alloc, &points)?)?;
        Ok(Corners {
            xs,
            ys,
            heights,
            levels,
        })
    }

    // How many of the first points lie at most so high.
    fn count_before(&self, at: usize, y: i64) -> usize
        requires { at ≤ length self.now.xs }
        ensures { result ≡ at_most y (take at self.now.ys) }
    {
        let mut low = count_up_to(&self.heights, y);
        if at == self.heights.len() {
            return low;
        }
        let mut start = 0;
        let mut sum = 0;
        let mut left = self.levels.len();
        while left > 0 {
            left -= 1;
            let level = &self.levels[left];
            let front = rank(&level.runs, start + low) - start / 2;
            if at < start + level.half {
                low = front;
            } else {
                sum += front;
                low -= front;
                start += level.half;
            }
        }
        sum
    }

    /// How many lie at most so far to the right and so high.
    pub(crate) fn count(&self, x: i64, y: i64) -> usize
        ensures { result ≡ axes_count x y self.now }
    {
        let at = count_up_to(&self.xs, x);
        self.count_before(at, y)
    }
}

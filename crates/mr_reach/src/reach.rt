//! Whether a rectangle meets one of many.

ghost use Rattle.std.specs.Prelude.{◌≡◌, IfOk, All, map};
ghost use Rattle.std.specs.List.{list_any};
ghost use Rattle.mr_geom.specs.Rectangle.{Rectangle, IsOrdered};
ghost use Rattle.mr_geom.specs.Plane.{touches};
ghost use Rattle.mr_reach.specs.private.Corners.{CountsCorners};
ghost use Rattle.mr_reach.specs.private.Meeting.{corner_of};

use crate::corners::Corners;
use mr_geom::{Point, Rect};
use std::alloc::{AllocError, Global};
use std::marker::Model;

/// Rectangles, kept so that whether one of them meets a rectangle is told in few steps. Contracts
/// see their list.
///
/// A rectangle meets as many of them along one axis as begin at its end or before, less those that
/// end before it begins. So it meets as many of them along both as four counts of corners say. A
/// question takes about 12 log n steps whatever the rectangles are, and a rectangle some 90 bytes.
/// No clause says so.
#[derive(Drop)]
pub struct Reach {
    list: Vec<Rect>,
    lower_left: Corners,
    upper_left: Corners,
    lower_right: Corners,
    upper_right: Corners,
}

impl Model for Reach {
    ghost use Rattle.std.specs.Prelude.{List};
    ghost use Rattle.mr_geom.specs.Rectangle.{Rectangle};
    ghost use Rattle.mr_reach.specs.private.Meeting.{HasCorners};

    ghost Value = { List Rectangle };

    ghost view = { λ r. r.list.items };

    ghost invariant = { λ r. HasCorners r.list.items r.lower_left r.upper_left r.lower_right
        r.upper_right };
}

// The right or the left corner, of the upper or of the lower ones.
fn corner(rect: &Rect, right: bool, upper: bool) -> Point
    ensures is { result ≡ corner_of right upper rect.now }
    ensures ordered { IsOrdered rect.now }
{
    let (x0, y0, x1, y1) = rect.corners();
    Point {
        x: if right { x1 } else { x0 },
        y: if upper { y1 } else { y0 },
    }
}

// This corner of each.
fn points_of(
    alloc: Global,
    list: &[Rect],
    right: bool,
    upper: bool,
) -> Result<Vec<Point>, AllocError>
    ensures are { IfOk result (λ points. points.items ≡ map (corner_of right upper) list.now) }
    ensures ordered { IfOk result (λ _. All IsOrdered list.now) }
{
    let mut points = Vec::with_capacity(alloc, list.len())?;
    for rect in list {
        points.push(corner(rect, right, upper))?;
    }
    Ok(points)
}

fn corners_of(alloc: Global, list: &[Rect], right: bool, upper: bool) -> Result<Corners, AllocError>
    ensures are { IfOk result (CountsCorners (map (corner_of right upper) list.now)) }
    ensures ordered { IfOk result (λ _. All IsOrdered list.now) }
{
    Corners::of(points_of(alloc, list, right, upper)?)
}

impl Reach {
    /// Of these rectangles, in map units. It takes n log n steps.
    pub fn of(alloc: Global, list: &[Rect]) -> Result<Reach, AllocError>
        ensures { IfOk result (λ r. r ≡ list.now) }
    {
        Ok(Reach {
            list: Vec::from_slice(alloc, list)?,
            lower_left: corners_of(alloc, list, false, false)?,
            upper_left: corners_of(alloc, list, false, true)?,
            lower_right: corners_of(alloc, list, true, false)?,
            upper_right: corners_of(alloc, list, true, true)?,
        })
    }

    /// Whether one of them meets the rectangle.
    pub fn meets(&self, rect: &Rect) -> bool
        ensures { result ≡ list_any (λ (w : Rectangle). touches rect.now w) self.now }
    {
        let (x0, y0, x1, y1) = rect.corners();
        let (right, above) = (i64::from(x1), i64::from(y1));
        let (left, below) = (i64::from(x0) - 1, i64::from(y0) - 1);
        let begun = self.lower_left.count(right, above) + self.upper_right.count(left, below);
        let ended = self.upper_left.count(right, below) + self.lower_right.count(left, above);
        ended < begun
    }
}

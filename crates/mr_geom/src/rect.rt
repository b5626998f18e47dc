//! Rectangles.

ghost use Rattle.std.specs.Prelude.{◌≡◌, ℕ, ◌+◌, ◌-◌, ◌*◌, ◌^◌, ◌<◌, ◌≤◌, ℤ, pos, ◌-ℤ◌, ◌≤ℤ◌, ◌↔◌, IsTrue, IsSome, IfSome, SomeIff, unsigned_abs};
ghost use Rattle.std.specs.Int.{int_min, int_max};
ghost use Rattle.mr_geom.specs.Rectangle.{Rectangle, IsOrdered, FitsMap, rectangle_of, union, join, area};
ghost use Rattle.mr_geom.specs.Plane.{HoldsPoint, SharesPoint, touches, Inside, IsLeastRound};
ghost use Rattle.mr_geom.specs.Distance.{square, IsLeastDistance, least_squared_distance};

use crate::Point;
use std::marker::Model;

/// A rectangle with sides along the axes, in map units. All sides are closed: a rectangle holds the
/// points on its border, and may be a single line or a single point.
#[derive(Clone, Copy, Debug, PartialEq, Eq)]
pub struct Rect {
    x0: i32,
    y0: i32,
    x1: i32,
    y1: i32,
}

impl Model for Rect {
    ghost use Rattle.mr_geom.specs.Rectangle.{Rectangle, IsOrdered};

    ghost Value = { Rectangle };

    ghost view = { λ r. record { x0 = r.x0; y0 = r.y0; x1 = r.x1; y1 = r.y1 } };

    ghost invariant = { λ r. IsOrdered (record { x0 = r.x0; y0 = r.y0; x1 = r.x1; y1 = r.y1 }) };

    ghost inverse = { λ r. record { x0 = r.x0; y0 = r.y0; x1 = r.x1; y1 = r.y1 } };
}

impl Rect {
    /// The rectangle from (`x0`, `y0`) to (`x1`, `y1`); `None` where `x0` is above `x1` or `y0`
    /// above `y1`.
    pub fn new(x0: i32, y0: i32, x1: i32, y1: i32) -> Option<Rect>
        ensures ordered { let r : Rectangle = record { x0 = x0; y0 = y0; x1 = x1; y1 = y1 } in
            SomeIff result (IsOrdered r) r }
        ensures exact { result ≡ rectangle_of x0 y0 x1 y1 }
    {
        if x0 > x1 || y0 > y1 {
            return None;
        }
        Some(Rect { x0, y0, x1, y1 })
    }

    /// (x0, y0, x1, y1): the least coordinates first, then the greatest.
    pub fn corners(&self) -> (i32, i32, i32, i32)
        ensures value { result ≡ (self.now.x0, self.now.y0, self.now.x1, self.now.y1) }
        ensures ordered { IsOrdered self.now }
        ensures fits { FitsMap self.now }
    {
        (self.x0, self.y0, self.x1, self.y1)
    }

    /// Whether the two share a point, be it on the border of both.
    pub fn meets(&self, other: &Rect) -> bool
        ensures shared { IsTrue result ↔ SharesPoint self.now other.now }
        ensures test { result ≡ touches self.now other.now }
    {
        ranges_meet(self.x0, self.x1, other.x0, other.x1)
            && ranges_meet(self.y0, self.y1, other.y0, other.y1)
    }

    /// Whether this rectangle lies in the other, which may share sides with it or be the same.
    pub fn inside(&self, other: &Rect) -> bool
        ensures { IsTrue result ↔ Inside self.now other.now }
    {
        range_inside(self.x0, self.x1, other.x0, other.x1)
            && range_inside(self.y0, self.y1, other.y0, other.y1)
    }

    /// The least rectangle round both.
    pub fn union(&self, other: &Rect) -> Rect
        ensures value { result ≡ union self.now other.now }
        ensures least { IsLeastRound self.now other.now result }
    {
        Rect {
            x0: self.x0.min(other.x0),
            y0: self.y0.min(other.y0),
            x1: self.x1.max(other.x1),
            y1: self.y1.max(other.y1),
        }
    }

    /// In squared map units. The area of a line or a point is 0.
    pub fn area(&self) -> u64
        ensures value { pos result ≡ area self.now }
        ensures ordered { IsOrdered self.now }
        ensures bound { result ≤ (2 ^ 32 - 1) * (2 ^ 32 - 1) }
    {
        span(self.x0, self.x1) * span(self.y0, self.y1)
    }

    /// By how much the area grows where the rectangle is enlarged to hold the other one too, in
    /// squared map units.
    pub fn growth(&self, other: &Rect) -> u64
        ensures value { pos result ≡ area (union self.now other.now) -ℤ area self.now }
        ensures bound { result ≤ (2 ^ 32 - 1) * (2 ^ 32 - 1) }
    {
        self.union(other).area() - self.area()
    }

    /// The squared distance of the point to the nearest point of the rectangle, in squared map
    /// units: 0 where the rectangle holds the point.
    pub fn dist2(&self, p: &Point) -> u128
        ensures value { result ≡ least_squared_distance self.now p.now }
        ensures least { IsLeastDistance self.now p.now result }
        ensures within { (result ≡ 0) ↔ HoldsPoint self.now p.now }
        ensures bound { result ≤ 2 * ((2 ^ 32 - 1) * (2 ^ 32 - 1)) }
    {
        squared(gap(self.x0, self.x1, p.x)) + squared(gap(self.y0, self.y1, p.y))
    }
}

/// The least rectangle round two of which one or both may be missing: the one that is there, or
/// none.
pub fn joined(first: Option<Rect>, second: Option<Rect>) -> Option<Rect>
    ensures { result ≡ join first second }
{
    match (first, second) {
        (None, second) => second,
        (Some(first), None) => Some(first),
        (Some(first), Some(second)) => Some(first.union(&second)),
    }
}

// Whether two closed ranges, each given by its least and its greatest number, have one in common.
fn ranges_meet(low: i32, high: i32, other_low: i32, other_high: i32) -> bool
    ensures { IsTrue result ↔ ((low ≤ℤ other_high) × (other_low ≤ℤ high)) }
{
    low <= other_high && other_low <= high
}

// Whether the first range lies between the ends of the second.
fn range_inside(low: i32, high: i32, outer_low: i32, outer_high: i32) -> bool
    ensures { IsTrue result ↔ ((outer_low ≤ℤ low) × (high ≤ℤ outer_high)) }
{
    outer_low <= low && high <= outer_high
}

// How long a side is.
fn span(low: i32, high: i32) -> u64
    requires { low ≤ℤ high }
    ensures value { pos result ≡ high -ℤ low }
    ensures bound { result < 2 ^ 32 }
{
    u64::from(high.abs_diff(low))
}

// How far a number is from the nearest one of a range.
fn gap(low: i32, high: i32, at: i32) -> u32
    requires { low ≤ℤ high }
    ensures { result ≡ unsigned_abs (at -ℤ int_max low (int_min at high)) }
{
    at.abs_diff(at.clamp(low, high))
}

fn squared(n: u32) -> u128
    ensures value { result ≡ square n }
    ensures bound { result ≤ (2 ^ 32 - 1) * (2 ^ 32 - 1) }
{
    u128::from(n) * u128::from(n)
}

//! A circle round a point.

ghost use Rattle.std.specs.Prelude.{◌≡◌, ◌≤◌, ◌↔◌, IsTrue, Some, None};
ghost use Rattle.mr_geom.specs.Distance.{least_squared_distance};
ghost use Rattle.mr_query.specs.Nearest.{is_within};
ghost use Rattle.mr_query.specs.private.Circles.{circle_widens};

use mr_geom::{Point, Rect, Region};

/// The points within a distance of one point, those at the distance included.
#[derive(Clone, Copy)]
pub struct Circle {
    pub center: Point,
    /// The squared radius, in squared map units.
    pub r2: u128,
}

impl Region for Circle {
    ghost reached = { λ s r. least_squared_distance r s.center ≤ s.r2 };

    fn meets(&self, r: &Rect) -> bool
        ensures reached { IsTrue result
            ↔ (least_squared_distance r.now self.now.center ≤ self.now.r2) }
        ensures test { result ≡ is_within self.now.center (Some self.now.r2) r.now }
    {
        r.dist2(&self.center) <= self.r2
    }

    ghost monotone = { λ s a b ordered inside met.
        circle_widens s.center s.r2 a b ordered inside met };
}

/// All points of the plane.
#[derive(Clone, Copy)]
pub struct Everywhere;

impl Region for Everywhere {
    ghost reached = { λ s r. Unit {0} };

    fn meets(&self, _r: &Rect) -> bool
        ensures reached { IsTrue result ↔ Unit {0} }
        ensures test { IsTrue result }
    {
        true
    }

    ghost monotone = { λ s a b ordered inside met. met };
}

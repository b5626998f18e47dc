//! The part of the map that a query asks for.

ghost use Rattle.std.specs.Prelude.{◌≡◌};
ghost use Rattle.mr_query.specs.Region.{meets_region, reaches};

use crate::{Circle, Everywhere, Key, Query, Shape, Window, share_layer};
use mr_geom::{Rect, Region};

/// The part of a map that a query asks for, once its squared radius is known, in squared map units.
/// For a window the radius does not matter; for nearest records without one the region is
/// everything.
#[derive(Clone, Copy)]
pub struct Area {
    pub query: Query,
    pub radius: Option<u128>,
}

impl Area {
    // Whether the region meets the rectangle.
    #[tactic(auto, unfolding(crate::specs::Region::meets_region))]
    fn meets_rect(&self, rect: &Rect) -> bool
        ensures { result ≡ meets_region self.now.query.shape self.now.radius rect.now }
    {
        match &self.query.shape {
            Shape::Window(window) => Window { rect: *window }.meets(rect),
            Shape::Nearest { center, k: _ } => match self.radius {
                Some(r2) => Circle {
                    center: *center,
                    r2,
                }
                .meets(rect),
                None => Everywhere.meets(rect),
            },
        }
    }

    /// Whether a part is in reach: the region meets its rectangle, and it has a layer that is asked
    /// for.
    pub fn reaches(&self, part: &Key) -> bool
        ensures { result ≡ reaches self.now.query self.now.radius part.now }
    {
        self.meets_rect(&part.rect) && share_layer(part.mask, self.query.layers())
    }
}

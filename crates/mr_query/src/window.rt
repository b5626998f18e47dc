//! Whether a rectangle meets a window.

ghost use Rattle.std.specs.Prelude.{◌≡◌, ◌↔◌, IsTrue};
ghost use Rattle.mr_geom.specs.Plane.{SharesPoint, touches};

use mr_geom::{Rect, Region};

/// The points of a rectangle, sides included.
#[derive(Clone, Copy)]
pub struct Window {
    pub rect: Rect,
}

impl Region for Window {
    ghost reached = { λ s r. SharesPoint s.rect r };

    fn meets(&self, r: &Rect) -> bool
        ensures reached { IsTrue result ↔ SharesPoint self.now.rect r.now }
        ensures test { result ≡ touches self.now.rect r.now }
    {
        self.rect.meets(r)
    }

    ghost monotone = { λ s a b ordered inside met. (met.0, met.1, inside met.0 met.2) };
}

//! Parts of the plane.

ghost use Rattle.std.specs.Prelude.{◌↔◌, IsTrue};
ghost use Rattle.mr_geom.specs.Rectangle.{Rectangle, IsOrdered};
ghost use Rattle.mr_geom.specs.Plane.{Inside};

use crate::Rect;

/// A part of the plane, as far as it tells which rectangles it meets.
///
/// A rectangle that it does not meet has none in it that it meets, so a search may leave out all
/// that lies there.
pub trait Region {
    // The rectangles that the region meets.
    ghost reached: { Self → Rectangle → Type 0 };

    /// Whether the region meets the rectangle.
    fn meets(&self, r: &Rect) -> bool
        ensures { IsTrue result ↔ reached self.now r.now };

    // A region that meets a rectangle meets each rectangle that contains it.
    ghost monotone: { (s : Self) (a b : Rectangle) → IsOrdered a → Inside a b
        → reached s a → reached s b };
}

//! An entry with what decides where it goes.

ghost use Rattle.std.specs.Prelude.{◌≡◌, ◌+ℤ◌};
ghost use Rattle.mr_pack.specs.Entries.{placed_item};

use mr_geom::Rect;

// An item with twice the middle of its rectangle, which does not fit an `i32`, and the number that
// decides between items with equal middles.
#[derive(Drop)]
pub struct Placed<T> {
    pub x: i64,
    pub y: i64,
    pub tie: u64,
    pub item: T,
}

// Twice the middle of a side.
fn twice_middle(low: i32, high: i32) -> i64
    ensures { result ≡ low +ℤ high }
{
    i64::from(low) + i64::from(high)
}

// The item, placed by its rectangle.
pub(crate) fn place<T>(rect: Option<Rect>, tie: u64, item: T) -> Placed<T>
    ensures { result ≡ placed_item rect tie item }
{
    match rect {
        None => Placed {
            x: 0,
            y: 0,
            tie,
            item,
        },
        Some(rect) => {
            let (x0, y0, x1, y1) = rect.corners();
            Placed {
                x: twice_middle(x0, x1),
                y: twice_middle(y0, y1),
                tie,
                item,
            }
        }
    }
}

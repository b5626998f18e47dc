//! Rectangles, points and regions over whole numbers.
//!
//! Coordinates are in map units, and areas and squared distances in squared map units. All
//! arithmetic is exact up to the ends of `i32`, and no call takes memory.
#![tactic(auto)]

mod point;
mod rect;
mod region;

pub use point::Point;
pub use rect::{Rect, joined};
pub use region::Region;

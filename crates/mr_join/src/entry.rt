//! A rectangle with a number.

use mr_geom::Rect;

/// A rectangle in map units, and a number that goes with it.
#[derive(Clone, Copy)]
pub(crate) struct Entry {
    pub(crate) rect: Rect,
    pub(crate) number: u64,
}

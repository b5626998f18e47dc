//! The records that a walk over a map meets.

use mr_geom::Rect;

/// The number and the rectangle of each record that was met, where they are wanted.
#[derive(Drop)]
pub(crate) struct RecordList {
    pub(crate) wanted: bool,
    pub(crate) entries: Vec<(u64, Rect)>,
}

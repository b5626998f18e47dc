//! What an accepted proof says of its map.

use mr_geom::Rect;
use mr_proof::Head;
use mr_record::Record;

/// What an accepted proof says of its map as a whole.
#[derive(Clone, Copy)]
pub struct Outline {
    pub head: Head,
    /// The rectangle round all records of the map, where there are any.
    pub rect: Option<Rect>,
    /// How many records the pruned parts have that are asked for whole, by their counts. Opened
    /// records are not among them. Of a query it is 0, since no part is asked for so.
    pub whole: u64,
}

/// What an accepted proof shows: the outline, and the records that are opened and not left out, in
/// reading order.
#[derive(Drop)]
pub struct Collected {
    pub outline: Outline,
    pub records: Vec<Record>,
}

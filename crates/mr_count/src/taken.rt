//! What an accepted proof for a choice gives.

use mr_geom::Rect;
use mr_outside::Items;
use mr_record::Record;

/// What an accepted proof for a choice gives of its map.
#[derive(Drop)]
pub struct Taken {
    /// How many records the map has.
    pub count: u64,
    /// The least rectangle round all of them, in map units; none where the map is empty.
    pub rect: Option<Rect>,
    /// How many records lie below the parts that the proof prunes since all in them is asked for.
    pub whole: u64,
    /// The records that the proof opens and that are not left out, in reading order.
    pub records: Items<Record>,
}

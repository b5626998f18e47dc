//! What is seen of a part of a map.

ghost use Rattle.std.specs.Prelude.{◌≡◌};
ghost use Rattle.mr_record.specs.Record.{HasLayer};
ghost use Rattle.mr_record.specs.declared.version.Version.TheVariants.{Two};
ghost use Rattle.mr_query.specs.Region.{record_key};

use mr_geom::Rect;
use mr_record::Record;

/// What is seen of a part of a map, by which a query tells whether the part is in reach.
#[derive(Clone, Copy, Debug, PartialEq, Eq)]
pub struct Key {
    /// The least rectangle round its records, in map units.
    pub rect: Rect,
    /// The layers of its records, a bit each, that of layer 0 the lowest; all of them where nothing
    /// is said of layers, as in version 1.
    pub mask: u64,
}

impl Key {
    /// Of a record, a part with the one bit of its layer.
    pub fn of_record(one: &Record) -> Key
        requires { HasLayer Two one.now }
        ensures { result ≡ record_key one.now }
    {
        Key {
            rect: one.rect,
            mask: 1 << one.layer,
        }
    }
}

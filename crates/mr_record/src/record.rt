//! One record of a map.

ghost use Rattle.std.specs.Prelude.{◌^◌, ◌<◌, All};
ghost use Rattle.mr_outside.specs.Bytes.{AreBytes};
ghost use Rattle.mr_record.specs.Record.{IsRecord, HasLayer};
ghost use Rattle.mr_record.specs.declared.version.Version.TheVariants.{Two};

use crate::Payload;
use mr_geom::Rect;

/// The highest layer.
pub const LAYER_LIMIT: u8 = 63;

/// One record of a map: a number, a rectangle in map units, a layer and a payload.
#[derive(Clone, Copy)]
pub struct Record {
    pub number: u64,
    pub rect: Rect,
    /// From 0 to 63, and 0 in version 1.
    pub layer: u8,
    pub payload: Payload,
}

// The layer stands in what the alignment of the number leaves free.
const _: () = prove!(size_of::<Record>() == 232);

impl Record {
    /// Record 0 at the point (0, 0) without a payload: it fills a place until another is put there.
    pub fn blank() -> Record {
        match (Rect::new(0, 0, 0, 0), Payload::new(&[])) {
            (Some(rect), Some(payload)) => Record {
                number: 0,
                rect,
                layer: 0,
                payload,
            },
            _ => unreachable!(),
        }
    }
}

// What the types of the fields tell of their values.

fn is_number(_number: u64)
    ensures { _number < 2 ^ 64 }
{}

fn are_bytes(_bytes: &[u8])
    ensures { AreBytes _bytes.now }
{}

/// Does nothing: it is there for proofs, which learn that each value of the type with a layer that
/// there is is a record.
pub fn is_record(one: &Record)
    requires { HasLayer Two one.now }
    ensures { IsRecord one.now }
{
    is_number(one.number);
    let _corners = one.rect.corners();
    are_bytes(one.payload.bytes());
}

/// As `is_record`, for each record of a list.
pub fn are_records(list: &[Record])
    requires { All (HasLayer Two) list.now }
    ensures { All IsRecord list.now }
{
    for one in list {
        is_record(one);
    }
}

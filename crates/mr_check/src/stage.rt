//! The field that is under way.

ghost use Rattle.std.specs.Prelude.{◌≡◌};
ghost use Rattle.mr_check.specs.private.Stages.{head_want, want_at};

use mr_geom::Rect;
use mr_proof::{Kind, Want};
use mr_tree::Entry;

// A field of a head. The first two have whether the second version alone may come.
#[derive(Clone, Copy)]
pub(crate) enum HeadField {
    Magic(bool),
    Version(bool),
    Kind,
    Batch,
    Count,
    Flag,
    Radius,
    Level,
}

// Which field is under way, with what was read of its item.
#[derive(Clone, Copy)]
pub(crate) enum Stage {
    Head(HeadField),
    // the tag of an item of this level
    Tag(u8),
    // the rectangle of a pruned part of this level, in version 2 its mask and its count, and then
    // its digest
    Shown(u8),
    Mask(u8, Rect),
    Tally(u8, Rect, u64),
    Digest(u8, Rect, u64, u64),
    // the number of children of a node, which are of this level
    Entries(u8),
    // the number of records of a leaf
    Records,
    // a record: its number, its rectangle, in version 2 its layer, and its payload
    Number,
    Sides(u64),
    Layer(u64, Rect),
    Length(u64, Rect, u8),
    Payload(u64, Rect, u8, u8),
    // behind the last field, with what is said of the root node
    End(Entry),
}

pub(crate) fn head_want(kind: Kind, field: HeadField) -> Want
    ensures { result ≡ head_want kind field }
{
    match field {
        HeadField::Magic(_) => Want::Magic,
        HeadField::Version(two_only) => Want::Version(two_only),
        HeadField::Kind => Want::Kind(kind),
        HeadField::Batch => Want::Batch,
        HeadField::Count => Want::Count,
        HeadField::Flag => Want::Flag,
        HeadField::Radius => Want::Radius,
        HeadField::Level => Want::Level,
    }
}

// The field that is under way, if any is.
pub(crate) fn want_at(kind: Kind, stage: &Stage) -> Option<Want>
    ensures { result ≡ want_at kind stage.now }
{
    match *stage {
        Stage::Head(field) => Some(head_want(kind, field)),
        Stage::Tag(level) => Some(Want::Tag(level)),
        Stage::Shown(_) => Some(Want::Rect),
        Stage::Mask(_, _) => Some(Want::Mask),
        Stage::Tally(_, _, _) => Some(Want::Tally),
        Stage::Digest(_, _, _, _) => Some(Want::Digest),
        Stage::Entries(_) => Some(Want::InnerCount),
        Stage::Records => Some(Want::LeafCount),
        Stage::Number => Some(Want::Number),
        Stage::Sides(_) => Some(Want::Rect),
        Stage::Layer(_, _) => Some(Want::Layer),
        Stage::Length(_, _, _) => Some(Want::Length),
        Stage::Payload(_, _, _, length) => Some(Want::Payload(length)),
        Stage::End(_) => None,
    }
}

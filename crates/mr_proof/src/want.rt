//! The fields of a proof, as they are wanted.

ghost use Rattle.std.specs.Prelude.{◌≡◌, ◌<◌};
ghost use Rattle.mr_proof.specs.Fields.{size_of};

use crate::Kind;

/// A field of a proof, as it is wanted next.
#[derive(Clone, Copy, Debug, PartialEq, Eq)]
pub enum Want {
    /// The four bytes that each proof begins with.
    Magic,
    /// The version of the format: either, or by `true` the second one alone, as where a mask is
    /// named, and of a choice.
    Version(bool),
    /// The letter of the kind.
    Kind(Kind),
    /// The batch of the map.
    Batch,
    /// The count of records of the map.
    Count,
    /// Whether a squared radius follows.
    Flag,
    /// The squared radius round the query's point.
    Radius,
    /// The level of the root node.
    Level,
    /// The tag of an item of this level.
    Tag(u8),
    /// The number of records of a leaf.
    LeafCount,
    /// The number of children of an inner node.
    InnerCount,
    /// The number of a record.
    Number,
    /// A rectangle.
    Rect,
    /// The layer of a record.
    Layer,
    /// The length of a payload.
    Length,
    /// A payload of this length.
    Payload(u8),
    /// The mask of the layers of a pruned part.
    Mask,
    /// The number of records of a pruned part.
    Tally,
    /// The digest of a pruned part.
    Digest,
}

impl Want {
    /// How many bytes the field has.
    pub fn size(&self) -> usize
        ensures value { result ≡ size_of self.now }
        ensures bound { result < 256 }
    {
        match self {
            Want::Magic => 4,
            Want::Version(_) | Want::Kind(_) | Want::Flag | Want::Level | Want::Tag(_) => 1,
            Want::LeafCount | Want::InnerCount | Want::Layer | Want::Length => 1,
            Want::Batch | Want::Count | Want::Number | Want::Mask | Want::Tally => 8,
            Want::Radius | Want::Rect => 16,
            Want::Payload(length) => usize::from(*length),
            Want::Digest => 32,
        }
    }
}

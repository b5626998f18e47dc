//! What a proof says before its items.

ghost use Rattle.std.specs.Prelude.{◌≡◌};
ghost use Rattle.mr_proof.specs.Tight.{kind_of};

use mr_query::{Query, Shape};
use mr_record::Version;

/// The kind of a proof.
#[derive(Clone, Copy, Debug, PartialEq, Eq)]
pub enum Kind {
    /// A window.
    W,
    /// The nearest records.
    K,
    /// A choice of parts, by the letter of its kind. Its proofs have no squared radius.
    Choice(u8),
}

/// What a proof says before its items.
#[derive(Clone, Copy, Debug, PartialEq, Eq)]
pub struct Head {
    /// The version of the proof, which is that of the map.
    pub version: Version,
    pub kind: Kind,
    /// The batch of the map.
    pub batch: u64,
    /// How many records the map has.
    pub count: u64,
    /// The squared radius round the query's point, in squared map units, where the map has records
    /// enough on the layers asked for.
    pub radius: Option<u128>,
    /// The level of the root node, 0 for the empty map.
    pub level: u8,
}

/// The kind of the proofs for a query.
pub fn kind_of(q: &Query) -> Kind
    ensures { result ≡ kind_of q.now }
{
    match q.shape {
        Shape::Window(_) => Kind::W,
        Shape::Nearest { center: _, k: _ } => Kind::K,
    }
}

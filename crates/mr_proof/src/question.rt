//! What a proof is for.

ghost use Rattle.std.specs.Prelude.{◌≡◌};
ghost use Rattle.mr_proof.specs.Tight.{Question, mask_seen, around_of, question};

use crate::head::kind_of;
use crate::{Kind, Way};
use mr_geom::Point;
use mr_query::{ALL_LAYERS, Area, Key, Query, Shape};
use mr_record::Version;

/// What a head's squared radius is: the squared distance of the kth nearest record to a point, in
/// squared map units.
#[derive(Clone, Copy, Debug, PartialEq, Eq)]
pub struct Around {
    /// The point, in map units.
    pub center: Point,
    /// Which of the records: 1 is the nearest.
    pub k: u16,
    /// The layers of the records, a bit each.
    pub layers: u64,
}

/// The mask of a part as it is seen: the first version tells of no layers, so there a part may have
/// any.
pub fn mask_seen(version: Version, mask: u64) -> u64
    ensures { result ≡ mask_seen version mask }
{
    match version {
        Version::One => ALL_LAYERS,
        Version::Two => mask,
    }
}

/// Whatever a proof can be for: it has a question, that is, what a proof has to show of a map.
/// There is no law: calls that say what a proof is worth require that the question is lawful.
pub trait AsQuestion {
    // what a proof has to show
    ghost question: { Self → Question };

    /// The kind of the proofs.
    fn kind(&self) -> Kind
        ensures { result ≡ (question self.now).kind };

    /// Whether only proofs of version 2 may come: where a mask is named, and of a choice.
    fn two_only(&self) -> bool
        ensures { result ≡ (question self.now).two_only };

    /// What the squared radius of a head is of, if heads have one.
    fn around(&self) -> Option<Around>
        ensures { result ≡ (question self.now).around };

    /// What a part of which this is seen is to be, under a head with this squared radius.
    fn way(&self, radius: Option<u128>, part: &Key) -> Way
        ensures { result ≡ (question self.now).way radius part.now };
}

fn around_of(q: &Query) -> Option<Around>
    ensures { result ≡ around_of q.now }
{
    match q.shape {
        Shape::Window(_) => None,
        Shape::Nearest { center, k } => Some(Around {
            center,
            k,
            layers: q.layers(),
        }),
    }
}

impl AsQuestion for Query {
    ghost question = { λ q. question q };

    fn kind(&self) -> Kind {
        kind_of(self)
    }

    fn two_only(&self) -> bool {
        self.mask.is_some()
    }

    fn around(&self) -> Option<Around> {
        around_of(self)
    }

    fn way(&self, radius: Option<u128>, part: &Key) -> Way {
        let area = Area {
            query: *self,
            radius,
        };
        Way::of(area.reaches(part))
    }
}

//! Between which bounds the entries of a part of a list lie, at some moment of a sweep.

ghost use Rattle.mr_join.specs.private.Sweeping.{Wider};

/// The entries that begin before `due` have begun, and lie between `low` and `high`, but for those
/// that have ended.
#[derive(Clone, Copy)]
pub(crate) struct Bounds {
    pub(crate) due: i64,
    pub(crate) low: i64,
    pub(crate) high: i64,
}

impl Bounds {
    /// Nothing is due, and nothing lies between them.
    pub(crate) fn none() -> Bounds {
        Bounds {
            due: i64::MAX,
            low: i64::MAX,
            high: i64::MIN,
        }
    }

    /// Round both.
    pub(crate) fn join(&self, other: &Bounds) -> Bounds
        ensures first { Wider self.now result }
        ensures second { Wider other.now result }
    {
        Bounds {
            due: self.due.min(other.due),
            low: self.low.min(other.low),
            high: self.high.max(other.high),
        }
    }
}

//! What is asked of the entries of one list for one of the other.

ghost use Rattle.std.specs.Prelude.{◌≡◌};
ghost use Rattle.mr_join.specs.private.Sweeping.{query_of, is_met, pair_by, reaches, Within};

use crate::Pair;
use crate::bounds::Bounds;
use crate::entry::Entry;
use mr_geom::Rect;

/// Which entries begin before `until`, and meet the rectangle. They are of the first list; or of
/// the second, where the query is turned.
#[derive(Clone, Copy)]
pub(crate) struct Query {
    rect: Rect,
    number: u64,
    until: i64,
    turned: bool,
}

impl Query {
    /// For this entry, those of the other list that begin before it. Of two that begin together the
    /// one of the first list counts as before.
    pub(crate) fn of(entry: &Entry, turned: bool) -> Query
        ensures { result ≡ query_of turned entry.now }
    {
        let (x0, _, _, _) = entry.rect.corners();
        let start = i64::from(x0);
        Query {
            rect: entry.rect,
            number: entry.number,
            until: if turned { start } else { start + 1 },
            turned,
        }
    }

    /// Whether the entry is one of them.
    pub(crate) fn meets(&self, entry: &Entry) -> bool
        ensures { result ≡ is_met self.now entry.now }
    {
        let (x0, _, _, _) = entry.rect.corners();
        i64::from(x0) < self.until && self.rect.meets(&entry.rect)
    }

    /// The pair of both.
    pub(crate) fn pair(&self, entry: &Entry) -> Pair
        ensures { result ≡ pair_by self.now entry.now }
    {
        if self.turned {
            return Pair {
                first: self.number,
                second: entry.number,
            };
        }
        Pair {
            first: entry.number,
            second: self.number,
        }
    }

    /// Whether there may be one of them within these bounds, or one that begins now.
    pub(crate) fn reaches(&self, bounds: &Bounds) -> bool
        ensures { result ≡ reaches self.now bounds.now }
    {
        let (_, y0, _, y1) = self.rect.corners();
        bounds.due < self.until || (bounds.low <= i64::from(y1) && i64::from(y0) <= bounds.high)
    }

    /// Those of the entry alone, from now on: where the rectangle begins.
    pub(crate) fn bounds_for(&self, entry: &Entry) -> Bounds
        ensures { Within self.now.rect.x0 result entry.now }
    {
        let (start, _, _, _) = self.rect.corners();
        let (x0, y0, x1, y1) = entry.rect.corners();
        let mut bounds = Bounds::none();
        if x1 < start {
            return bounds;
        }
        if i64::from(x0) < self.until {
            bounds.low = i64::from(y0);
            bounds.high = i64::from(y1);
        } else {
            bounds.due = i64::from(x0);
        }
        bounds
    }
}

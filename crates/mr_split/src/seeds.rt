//! The two entries that the groups begin with.

ghost use Rattle.std.specs.Prelude.{◌≡◌, ◌+◌, ◌-◌, ◌<◌, ◌≤◌, length};
ghost use Rattle.std.specs.List.{fold, range_with_len};
ghost use Rattle.mr_split.specs.Seeds.{waste as waste_of, seeds as seeds_of, wastes_more, pairs_of};
ghost use Rattle.mr_split.specs.Best.{better};

use mr_geom::Rect;

// Two positions, the first below the second.
#[derive(Clone, Copy)]
pub struct Pair {
    pub first: usize,
    pub second: usize,
}

// How much of the union of two rectangles is neither's, less what they share.
fn waste(list: &[Rect], pair: Pair) -> i128
    requires first { pair.first < length list.now }
    requires second { pair.second < length list.now }
    ensures { result ≡ waste_of list.now pair }
{
    let one = list[pair.first];
    let other = list[pair.second];
    i128::from(one.union(&other).area()) - i128::from(one.area()) - i128::from(other.area())
}

// The pair of the greatest waste among one and those of a position with a later one.
fn best_partner(list: &[Rect], mut best: Pair, first: usize) -> Pair
    requires within { first < length list.now }
    requires ordered { best.first < best.second }
    requires inside { best.second < length list.now }
    ensures value { result ≡ fold (better (wastes_more list.now)) best
        (pairs_of first (range_with_len (first + 1) (length list.now - (first + 1)))) }
    ensures ordered { result.first < result.second }
    ensures inside { result.second < length list.now }
{
    let mut most = waste(list, best);
    for second in first + 1..list.len() {
        let pair = Pair { first, second };
        let more = waste(list, pair);
        if more > most {
            best = pair;
            most = more;
        }
    }
    best
}

// The two entries that would waste the most area in one group.
pub(crate) fn seeds(list: &[Rect]) -> Pair
    requires { 2 ≤ length list.now }
    ensures value { result ≡ seeds_of list.now }
    ensures ordered { result.first < result.second }
    ensures inside { result.second < length list.now }
{
    let mut best = Pair {
        first: 0,
        second: 1,
    };
    for first in 0..list.len() {
        best = best_partner(list, best, first);
    }
    best
}

//! Which of some rectangles takes a new one.

ghost use Rattle.std.specs.Prelude.{◌≡◌, ℕ, ◌<◌, ◌≤ℤ◌, length};
ghost use Rattle.mr_split.specs.Choice.{rect_at, growth, is_fitter as fitter, choose as chosen};

use mr_geom::Rect;

// Whether the one grows less for a new rectangle than the other, or as much and has the lesser
// area.
fn is_fitter(new: &Rect, one: &Rect, other: &Rect) -> bool
    ensures { result ≡ fitter new.now one.now other.now }
{
    one.growth(new)
        .cmp(&other.growth(new))
        .then(one.area().cmp(&other.area()))
        .is_lt()
}

/// The position of the rectangle that takes a new one: the one that grows least, of several the
/// one with the least area, and of those the one with the lowest position (Guttman 1984).
pub fn choose(list: &[Rect], new: &Rect) -> usize
    requires { 0 < length list.now }
    ensures exact { result ≡ chosen list.now new.now }
    ensures within { result < length list.now }
    ensures least { (i : ℕ) → i < length list.now
        → growth (rect_at list.now result) new.now ≤ℤ growth (rect_at list.now i) new.now }
{
    let mut at = 0;
    for i in 1..list.len() {
        if is_fitter(new, &list[i], &list[at]) {
            at = i;
        }
    }
    at
}

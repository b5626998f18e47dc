//! How the other entries are put into the two groups, one by one.

ghost use Rattle.std.specs.Prelude.{◌≡◌, ◌-◌, ◌*◌, ◌^◌, ◌<◌, ◌≤◌, pos, length};
ghost use Rattle.mr_split.specs.Split.{member as member_of, bounds as bounds_of, area_of as area_in, growth_of, urgency as urgency_of, most_urgent as most_urgent_of, is_second_fitter as second_fitter, with_next_placed, needs_all as needs, filled, shared};

use crate::mark::{Mark, count, is};
use mr_geom::{Rect, joined};

// The rectangle at a position, if the position is in the group.
fn member(list: &[Rect], marks: &[Mark], group: Mark, at: usize) -> Option<Rect>
    requires within { at < length list.now }
    requires same { length marks.now ≡ length list.now }
    ensures { result ≡ member_of list.now marks.now group at }
{
    if is(group, marks[at]) {
        Some(list[at])
    } else {
        None
    }
}

// The union of a group.
fn bounds(list: &[Rect], marks: &[Mark], group: Mark) -> Option<Rect>
    requires { length marks.now ≡ length list.now }
    ensures { result ≡ bounds_of list.now marks.now group }
{
    let mut all = None;
    for at in 0..list.len() {
        all = joined(all, member(list, marks, group, at));
    }
    all
}

// The area of a union, 0 where there is none.
fn area_of(group: &Option<Rect>) -> u64
    ensures { pos result ≡ area_in group.now }
{
    match group {
        None => 0,
        Some(rect) => rect.area(),
    }
}

// By how much a union grows where it is enlarged to hold a rectangle too.
fn growth(group: &Option<Rect>, rect: &Rect) -> u64
    ensures value { pos result ≡ growth_of group.now rect.now }
    ensures bound { result ≤ (2 ^ 32 - 1) * (2 ^ 32 - 1) }
{
    match group {
        None => rect.area(),
        Some(all) => all.growth(rect),
    }
}

// How much it matters where an entry goes.
fn urgency(first: &Option<Rect>, second: &Option<Rect>, mark: Mark, rect: &Rect) -> u64
    ensures { result ≡ urgency_of first.now second.now mark rect.now }
{
    if is(Mark::Open, mark) {
        growth(first, rect).abs_diff(growth(second, rect)) + 1
    } else {
        0
    }
}

// The position of the open entry of which it matters most.
fn most_urgent(list: &[Rect], marks: &[Mark], first: &Option<Rect>, second: &Option<Rect>) -> usize
    requires some { 0 < length list.now }
    requires same { length marks.now ≡ length list.now }
    ensures value { result ≡ most_urgent_of list.now marks.now first.now second.now }
    ensures within { result < length list.now }
{
    let mut at = 0;
    let mut most = urgency(first, second, marks[0], &list[0]);
    for i in 1..list.len() {
        let more = urgency(first, second, marks[i], &list[i]);
        if most < more {
            at = i;
            most = more;
        }
    }
    at
}

// Whether a rectangle goes to the second group.
fn is_second_fitter(
    first: &Option<Rect>,
    second: &Option<Rect>,
    in_first: usize,
    in_second: usize,
    rect: &Rect,
) -> bool
    ensures { result ≡ second_fitter first.now second.now in_first in_second rect.now }
{
    growth(second, rect)
        .cmp(&growth(first, rect))
        .then(area_of(second).cmp(&area_of(first)))
        .then(in_second.cmp(&in_first))
        .is_lt()
}

// Puts the next entry into its group.
fn place_next(list: &[Rect], marks: &mut [Mark])
    requires some { 0 < length list.now }
    requires same { length marks.old ≡ length list.now }
    ensures { marks.new ≡ with_next_placed list.now marks.old }
{
    let first = bounds(list, marks, Mark::First);
    let second = bounds(list, marks, Mark::Second);
    let at = most_urgent(list, marks, &first, &second);
    let in_first = count(Mark::First, marks);
    let in_second = count(Mark::Second, marks);
    marks[at] = if is_second_fitter(&first, &second, in_first, in_second, &list[at]) {
        Mark::Second
    } else {
        Mark::First
    };
}

// Whether a group and all that is open have together exactly so many entries.
fn needs_all(least: usize, group: Mark, marks: &[Mark]) -> bool
    requires { length marks.now ≤ 65 }
    ensures { result ≡ needs least group marks.now }
{
    count(group, marks) + count(Mark::Open, marks) == least
}

// Puts all that is open into a group.
fn fill(group: Mark, marks: &mut [Mark])
    ensures { marks.new ≡ filled group marks.old }
{
    for mark in marks.iter_mut() {
        if is(Mark::Open, *mark) {
            *mark = group;
        }
    }
}

// Puts all entries into groups, where so many are open, and each group gets at least so many.
pub(crate) fn share(left: usize, least: usize, list: &[Rect], marks: &mut [Mark])
    requires some { 0 < length list.now }
    requires few { length list.now ≤ 65 }
    requires same { length marks.old ≡ length list.now }
    ensures { marks.new ≡ shared left least list.now marks.old }
{
    for _placed in 0..left {
        if needs_all(least, Mark::First, marks) {
            fill(Mark::First, marks);
            return;
        }
        if needs_all(least, Mark::Second, marks) {
            fill(Mark::Second, marks);
            return;
        }
        place_next(list, marks);
    }
}

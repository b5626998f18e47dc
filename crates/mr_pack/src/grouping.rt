//! How the entries of a level are put into slices and even groups.

ghost use Rattle.std.specs.Prelude.{◌≡◌, ◌≤◌, ◌<◌, ◌^◌, length, map, OnOk, IfOk};
ghost use Rattle.std.specs.Global.{Vec as list};
ghost use Rattle.mr_pack.specs.Cuts.{group_count as count_of_groups, slice_count as count_of_slices, group_start as start_of_group, slice_start as start_of_slice, parts};
ghost use Rattle.mr_pack.specs.Entries.{is_left, is_below, arranged, in_groups, grouped};
ghost use Rattle.mr_record.specs.Sorting.{sorted_by};

use crate::placed::Placed;
use std::alloc::{AllocError, Global};

// How many groups `count` entries need, of at most `capacity` each.
fn group_count(count: usize, capacity: usize) -> usize
    requires { 0 < capacity }
    ensures value { result ≡ count_of_groups count capacity }
    ensures within { result ≤ count }
    ensures not_empty { 0 < count → 0 < result }
{
    count.div_ceil(capacity)
}

// How many slices the groups are cut into.
fn slice_count(groups: usize) -> usize
    requires { groups ≤ 2 ^ 20 }
    ensures value { result ≡ count_of_slices groups }
    ensures within { result ≤ groups }
    ensures not_empty { 0 < groups → 0 < result }
{
    let mut slices = 0;
    while slices * slices < groups {
        slices += 1;
    }
    slices
}

// Where a group begins.
fn group_start(count: usize, groups: usize, group: usize) -> usize
    requires count { count ≤ 2 ^ 20 }
    requires groups { groups ≤ 2 ^ 20 }
    requires some { 0 < groups }
    requires within { group ≤ groups }
    ensures { result ≡ start_of_group count groups group }
{
    group * count / groups
}

// Where a slice begins.
fn slice_start(count: usize, groups: usize, slices: usize, slice: usize) -> usize
    requires count { count ≤ 2 ^ 20 }
    requires groups { groups ≤ 2 ^ 20 }
    requires some { 0 < groups }
    requires slices { slices ≤ 2 ^ 20 }
    requires within { slice ≤ slices }
    requires some_slices { 0 < slices }
    ensures value { result ≡ start_of_slice count groups slices slice }
    ensures within { result ≤ count }
{
    group_start(count, groups, slice * groups / slices)
}

// Sorts entries from left to right.
fn sort_by_x<T>(alloc: Global, entries: &mut [Placed<T>]) -> Result<(), AllocError>
    ensures { OnOk result (entries.new ≡ sorted_by is_left entries.old) }
{
    entries.sort_by_key(alloc, |entry| (entry.x, entry.tie))
}

// Sorts entries from below to above.
fn sort_by_y<T>(alloc: Global, entries: &mut [Placed<T>]) -> Result<(), AllocError>
    ensures { OnOk result (entries.new ≡ sorted_by is_below entries.old) }
{
    entries.sort_by_key(alloc, |entry| (entry.y, entry.tie))
}

// Puts entries into slices from left to right, each from below to above.
fn arrange<T>(alloc: Global, entries: &mut [Placed<T>], groups: usize) -> Result<(), AllocError>
    requires few { length entries.old ≤ 2 ^ 20 }
    requires groups { groups ≤ length entries.old }
    requires some { 0 < length entries.old → 0 < groups }
    ensures { OnOk result (entries.new ≡ arranged groups entries.old) }
{
    sort_by_x(alloc, entries)?;
    let count = entries.len();
    let slices = slice_count(groups);
    for slice in 0..slices {
        let from = slice_start(count, groups, slices, slice);
        let to = slice_start(count, groups, slices, slice + 1);
        sort_by_y(alloc, &mut entries[from..to])?;
    }
    Ok(())
}

// Cuts a list into even groups.
fn cut<T: Drop>(alloc: Global, mut items: Vec<T>, groups: usize) -> Result<Vec<Vec<T>>, AllocError>
    requires few { length items.items ≤ 2 ^ 20 }
    requires groups { groups ≤ length items.items }
    requires some { 0 < length items.items → 0 < groups }
    ensures { IfOk result (λ v. map (λ (g : list T). g.items) v.items
        ≡ parts (start_of_group (length items.items) groups) groups items.items) }
{
    let count = items.len();
    let mut cut = Vec::with_capacity(alloc, groups)?;
    for group in (0..groups).rev() {
        let start = group_start(count, groups, group);
        cut.push(items.split_off(start)?)?;
    }
    cut.reverse();
    Ok(cut)
}

// The items of the entries.
fn items_of<T: Drop>(alloc: Global, entries: Vec<Placed<T>>) -> Result<Vec<T>, AllocError>
    ensures value { IfOk result (λ v. v.items ≡ map (λ e. e.item) entries.items) }
    ensures len { IfOk result (λ v. length v.items ≡ length entries.items) }
{
    entries.into_iter().map(|entry| entry.item).collect(alloc)
}

// The items of entries that are put into slices.
fn arranged_items<T: Drop>(
    alloc: Global,
    mut entries: Vec<Placed<T>>,
    groups: usize,
) -> Result<Vec<T>, AllocError>
    requires few { length entries.items ≤ 2 ^ 20 }
    requires groups { groups ≤ length entries.items }
    requires some { 0 < length entries.items → 0 < groups }
    ensures value { IfOk result (λ v. v.items ≡ map (λ e. e.item) (arranged groups entries.items)) }
    ensures len { IfOk result (λ v. length v.items ≡ length entries.items) }
{
    arrange(alloc, entries.as_mut_slice(), groups)?;
    items_of(alloc, entries)
}

// Puts entries into as few even groups as the capacity allows, each with entries whose middles are
// near each other.
pub(crate) fn group<T: Drop>(
    alloc: Global,
    entries: Vec<Placed<T>>,
    capacity: usize,
) -> Result<Vec<Vec<T>>, AllocError>
    requires few { length entries.items ≤ 2 ^ 20 }
    requires some { 0 < capacity }
    ensures { IfOk result (λ v. map (λ (g : list T). g.items) v.items
        ≡ grouped capacity entries.items) }
{
    let groups = group_count(entries.len(), capacity);
    let items = arranged_items(alloc, entries, groups)?;
    cut(alloc, items, groups)
}

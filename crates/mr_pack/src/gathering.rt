//! How groups are taken out of a list, which gives back its memory meanwhile.

ghost use Rattle.std.specs.Prelude.{◌≡◌, ◌+◌, ◌<◌, ◌≤◌, ◌^◌, ℕ, List, ◌∷◌, length, slice_index_or, OnOk, IfOk};
ghost use Rattle.std.specs.List.{range_with_len};
ghost use Rattle.mr_pack.specs.Repeats.{occurrences};
ghost use Rattle.mr_pack.specs.private.Remains.{IsIndexed, AreNumbered, picked};

use std::alloc::{AllocError, Global};

// For how many items that were taken out the room is given back at once.
const STEP: usize = 4096;

// What remains of a list that is taken apart, in any order. An item's number is its place in the
// whole list.
#[derive(Drop)]
pub(crate) struct Remains<T> {
    items: Vec<T>,
    // the number of the item at each place
    numbers: Vec<usize>,
    // the place of the item with each number that remains
    places: Vec<usize>,
}

// The numbers below a limit.
fn numbers_below(alloc: Global, limit: usize) -> Result<Vec<usize>, AllocError>
    ensures { IfOk result (λ v. v.items ≡ range_with_len 0 limit) }
{
    (0..limit).collect(alloc)
}

// A list of which all remains.
pub(crate) fn whole<T: Drop>(alloc: Global, items: Vec<T>) -> Result<Remains<T>, AllocError>
    ensures indexed { IfOk result (λ r.
        IsIndexed (length r.items.items) r.numbers.items r.places.items) }
    ensures numbers { IfOk result (λ r.
        r.numbers.items ≡ range_with_len 0 (length items.items)) }
    ensures numbered { IfOk result (λ r.
        AreNumbered items.items r.items.items r.numbers.items) }
{
    let numbers = numbers_below(alloc, items.len())?;
    let places = numbers_below(alloc, items.len())?;
    Ok(Remains {
        items,
        numbers,
        places,
    })
}

// Takes out the item with this number. The last one that remains is put in its place.
fn take_one<T: Drop>(remains: &mut Remains<T>, number: usize) -> T
    requires indexed { IsIndexed (length remains.old.items.items) remains.old.numbers.items
        remains.old.places.items }
    requires there { 0 < occurrences number remains.old.numbers.items }
    ensures indexed { IsIndexed (length remains.new.items.items) remains.new.numbers.items
        remains.new.places.items }
    ensures fewer { (n : ℕ) → occurrences n (number ∷ remains.new.numbers.items)
        ≡ occurrences n remains.old.numbers.items }
    ensures item { (all : List T) (d : T)
        → AreNumbered all remains.old.items.items remains.old.numbers.items
        → result ≡ slice_index_or all number d }
    ensures numbered { (all : List T)
        → AreNumbered all remains.old.items.items remains.old.numbers.items
        → AreNumbered all remains.new.items.items remains.new.numbers.items }
{
    let place = remains.places[number];
    let item = remains.items.swap_remove(place);
    remains.numbers.swap_remove(place);
    if place < remains.numbers.len() {
        let moved = remains.numbers[place];
        remains.places[moved] = place;
    }
    item
}

// Gives back the room of items that were taken out, once they are many.
fn give_back<T: Drop>(items: &mut Vec<T>)
    ensures { items.new.items ≡ items.old.items }
{
    if items.capacity() - items.len() >= STEP {
        items.shrink_to_fit();
    }
}

// Takes out the items with these numbers, in this order.
pub(crate) fn take<T: Drop>(
    alloc: Global,
    remains: &mut Remains<T>,
    numbers: &[usize],
) -> Result<Vec<T>, AllocError>
    requires indexed { IsIndexed (length remains.old.items.items) remains.old.numbers.items
        remains.old.places.items }
    requires there { (n : ℕ) → occurrences n numbers.now
        ≤ occurrences n remains.old.numbers.items }
    ensures indexed { OnOk result (IsIndexed (length remains.new.items.items)
        remains.new.numbers.items remains.new.places.items) }
    ensures fewer { OnOk result ((n : ℕ)
        → occurrences n numbers.now + occurrences n remains.new.numbers.items
        ≡ occurrences n remains.old.numbers.items) }
    ensures items { IfOk result (λ v. (all : List T) (d : T)
        → AreNumbered all remains.old.items.items remains.old.numbers.items
        → v.items ≡ picked all d numbers.now) }
    ensures numbered { OnOk result ((all : List T)
        → AreNumbered all remains.old.items.items remains.old.numbers.items
        → AreNumbered all remains.new.items.items remains.new.numbers.items) }
{
    let mut taken = Vec::with_capacity(alloc, numbers.len())?;
    for number in numbers {
        taken.push(take_one(remains, *number))?;
    }
    give_back(&mut remains.items);
    Ok(taken)
}

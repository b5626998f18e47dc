//! The records that were kept, put in rising number where they lie.

ghost use Rattle.std.specs.Prelude.{◌≡◌, ℕ, true, IfOk, OnOk};
ghost use Rattle.std.specs.List.Sorted.{IsPermutation, IsNonDecreasing};
ghost use Rattle.mr_geom.specs.Rectangle.{Rectangle};
ghost use Rattle.mr_query.specs.Scan.{on_layers, scan_shape, scan};
ghost use Rattle.mr_query.specs.declared.query.Shape.TheVariants as shapes;
ghost use Rattle.mr_check.specs.private.Differing.{rise, rise_after, numbers_of, EachOnce, AreInOrder};

use mr_geom::Rect;
use mr_query::{Query, Shape};
use mr_record::Record;
use std::alloc::{AllocError, Global};

// The numbers of these records, in rising order.
fn numbers(alloc: Global, records: &[Record]) -> Result<Vec<u64>, AllocError>
    ensures permutation { IfOk result (λ v. IsPermutation (numbers_of records.now) v.items) }
    ensures sorted { IfOk result (λ v. IsNonDecreasing v.items) }
{
    let mut numbers: Vec<u64> = records.iter().map(|record| record.number).collect(alloc)?;
    numbers.sort_unstable();
    Ok(numbers)
}

// Whether each number is above the one before it, where `last` stands before the others.
fn rise_after(mut last: u64, numbers: &[u64]) -> bool
    ensures { result ≡ rise_after last numbers.now }
{
    for number in numbers {
        if *number <= last {
            return false;
        }
        last = *number;
    }
    true
}

fn rise(numbers: &[u64]) -> bool
    ensures { result ≡ rise numbers.now }
{
    match numbers.split_first() {
        None => true,
        Some((first, others)) => rise_after(*first, others),
    }
}

// Whether no two records have one number.
fn differ(alloc: Global, records: &[Record]) -> Result<bool, AllocError>
    ensures each_once { IfOk result (λ b. b ≡ true → EachOnce records.now) }
    ensures all { IfOk result (λ b. EachOnce records.now → b ≡ true) }
{
    let numbers = numbers(alloc, records)?;
    Ok(rise(&numbers))
}

// Sorts with no room beside the records.
fn sort(records: &mut Vec<Record>)
    ensures permutation { IsPermutation records.old.items records.new.items }
    ensures sorted { AreInOrder records.new.items }
{
    records.sort_unstable_by_key(|record| record.number);
}

fn arrange_window(records: &mut Vec<Record>, window: &Rect) -> Result<(), AllocError>
    ensures same { OnOk result ((layers : ℕ)
        → scan_shape (on_layers layers records.new.items) (shapes.Window window.now)
        ≡ scan_shape (on_layers layers records.old.items) (shapes.Window window.now)) }
    ensures in_order { OnOk result (EachOnce records.old.items → AreInOrder records.new.items) }
{
    let alloc = *records.allocator();
    if differ(alloc, records)? {
        sort(records);
    }
    Ok(())
}

// Puts records among which a window's answer is sought in rising number, if no two have one number.
// A sort that keeps equal ones in their order takes room for as many records again, unless it finds
// them in order.
pub(crate) fn arrange(records: &mut Vec<Record>, q: &Query) -> Result<(), AllocError>
    ensures same { OnOk result (scan records.new.items q.now ≡ scan records.old.items q.now) }
    ensures in_order { (w : Rectangle) → q.now.shape ≡ shapes.Window w
        → OnOk result (EachOnce records.old.items → AreInOrder records.new.items) }
{
    match &q.shape {
        Shape::Window(window) => arrange_window(records, window),
        Shape::Nearest { center: _, k: _ } => Ok(()),
    }
}

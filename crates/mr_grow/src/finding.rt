//! Where the record with a number is.

ghost use Rattle.std.specs.Prelude.{◌≡◌};
ghost use Rattle.mr_tree.specs.Tree.{records as records_in};
ghost use Rattle.mr_grow.specs.Found.{has as has_number, is_numbered, place_of};

use mr_record::Record;
use mr_tree::Tree;

/// The position of the first record with a number, the length where there is none.
pub fn position_of(records: &[Record], number: u64) -> usize
    ensures { result ≡ place_of (is_numbered number) records.now }
{
    let mut at = 0;
    for record in records {
        if record.number == number {
            return at;
        }
        at += 1;
    }
    at
}

// Whether a tree has a record with a number.
pub(crate) fn has(tree: &Tree, number: u64) -> bool
    ensures { result ≡ has_number number (records_in tree.now) }
{
    match tree {
        Tree::Empty => false,
        Tree::Leaf(records) => {
            let records = records.as_slice();
            position_of(records, number) < records.len()
        }
        Tree::Inner(children) => {
            for child in children.as_slice() {
                if has(child, number) {
                    return true;
                }
            }
            false
        }
    }
}

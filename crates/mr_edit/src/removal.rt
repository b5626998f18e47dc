//! What a removal leaves of a subtree.

use mr_record::Record;
use mr_tree::Child;

/// What stands in a subtree's place after a record was taken out: its entry, or none where too few
/// were left, and the records that are set aside.
#[derive(Drop)]
pub struct Removal {
    pub entry: Option<Child>,
    pub aside: Vec<Record>,
}

//! What an insertion leaves of a subtree.

use mr_tree::Child;

/// What stands in a subtree's place: its first entry, and a second one where it was split.
#[derive(Clone, Copy)]
pub struct Inserted {
    pub first: Child,
    pub second: Option<Child>,
}

//! The items of a proof.

use mr_tree::{Child, NodeView};

/// An item of a proof, as it is written.
#[derive(Clone, Copy)]
pub enum Item<'a> {
    /// A part that is pruned, by the entry that its parent holds of it.
    Pruned(&'a Child),
    /// An opened leaf, with its records.
    Leaf(&'a NodeView),
    /// An opened inner node, by the number of its children, whose items follow.
    Inner(u8),
}

//! A node of one's own.

ghost use Rattle.std.specs.Prelude.{◌≡◌, IfOk};
ghost use Rattle.mr_pages.specs.Walking.{owned};

use mr_record::Record;
use mr_tree::{Child, NodeView};
use std::alloc::{AllocError, Global};

/// A node that was read from its page.
#[derive(Drop)]
pub enum Node {
    Leaf(Vec<Record>),
    Inner(Vec<Child>),
}

impl Node {
    /// What a view shows.
    pub fn of(alloc: Global, view: &NodeView) -> Result<Node, AllocError>
        ensures { IfOk result (λ node. owned node ≡ view.now) }
    {
        if view.level() == 0 {
            Ok(Node::Leaf(Vec::from_slice(alloc, view.records())?))
        } else {
            Ok(Node::Inner(Vec::from_slice(alloc, view.children())?))
        }
    }
}

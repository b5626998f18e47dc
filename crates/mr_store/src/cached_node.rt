//! Nodes as a cache keeps them.

ghost use Rattle.std.specs.Prelude.{◌≡◌};
ghost use Rattle.mr_tree.specs.View.{level_of};
ghost use Rattle.mr_tree.specs.Snapshot.{HasShape};
ghost use Rattle.mr_store.specs.Kept.{node_of};

use mr_pages::Node;
use mr_tree::NodeView;

/// A node page with the level and the digest under which it was read.
#[derive(Drop)]
pub struct CachedNode {
    pub level: u8,
    pub digest: [u8; 32],
    pub node: Node,
}

// Shows what is kept.
pub(crate) fn show(kept: &CachedNode, into: &mut NodeView)
    requires shape { HasShape (node_of kept.now.node) }
    requires level { level_of (node_of kept.now.node) ≡ kept.now.level }
    ensures { into.new ≡ node_of kept.now.node }
{
    match &kept.node {
        Node::Leaf(list) => into.set_leaf(list.as_slice()),
        Node::Inner(list) => into.set_inner(kept.level, list.as_slice()),
    }
}

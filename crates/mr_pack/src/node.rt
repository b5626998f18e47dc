//! A node of a level, while the tree is made.

ghost use Rattle.std.specs.Prelude.{◌≡◌};
ghost use Rattle.mr_tree.specs.Tree.{rect};

use mr_geom::Rect;
use mr_tree::Tree;

// A tree and the rectangle round it.
#[derive(Drop)]
pub struct Node {
    pub bounds: Option<Rect>,
    pub tree: Tree,
    ghost round: { rect tree ≡ bounds },
}

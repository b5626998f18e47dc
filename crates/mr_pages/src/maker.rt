//! What is made of the nodes of a file, as its pages are judged.

ghost use Rattle.std.specs.Prelude.{◌≡◌, ⊤, Bool, false, List, IfOk};
ghost use Rattle.mr_tree.specs.Digest.{Scheme};
ghost use Rattle.mr_tree.specs.View.{children_in};
ghost use Rattle.mr_tree.specs.declared.child.Child as types;
ghost use Rattle.mr_tree.specs.declared.tree.Tree as trees;
ghost use Rattle.mr_pages.specs.Gathering.{AreMade, SuitsChild, tree_over};
ghost use Rattle.mr_pages.specs.Walking.{owned};

use crate::node::Node;
use mr_outside::Items;
use mr_tree::{Child, Tree};
use std::alloc::AllocError;

/// What is made of nodes, of each one behind those below it.
pub trait Maker: Drop {
    type Made: Drop;

    // what was made so far and stands beside
    type Held;

    ghost held: { Self → Self.Held };

    // from what was held before to what is held now: this was made of the node of a child, which
    // may be the root, and of all below it, which are this tree
    ghost makes: { Scheme → (root : Bool) → Self.Held → Self.Held → types.Child → Self.Made →
        trees.Tree → Type 0 };

    /// What is made of the node of a child, and of what was made of its own children.
    fn make_of(
        &mut self,
        child: &Child,
        node: Node,
        below: Vec<Self::Made>,
    ) -> Result<Self::Made, AllocError>
        ensures { IfOk result (λ m. (x : Scheme) (root : Bool) (before : Self.Held)
            (ts : List trees.Tree) → SuitsChild x root child.now node →
            AreMade (makes x false) before (held self.old) (children_in (owned node))
            below.items ts →
            makes x root before (held self.new) child.now m (tree_over node ts)) };
}

/// Makes trees, of which each holds those below it.
#[derive(Drop)]
pub struct Trees;

impl Maker for Trees {
    type Made = Tree;

    type Held = ();

    ghost held = { λ s. tt };

    ghost makes = { λ x root before after child made t. made ≡ t };

    fn make_of(&mut self, _child: &Child, node: Node, below: Vec<Tree>) -> Result<Tree, AllocError>
        ensures { IfOk result (λ made. (x : Scheme) (root : Bool) (before : ⊤)
            (ts : List trees.Tree) → SuitsChild x root _child.now node →
            AreMade {S = ⊤} (λ s u c one t. one ≡ t) before tt (children_in (owned node))
            below.items ts →
            made ≡ tree_over node ts) }
    {
        match node {
            Node::Leaf(records) => Ok(Tree::Leaf(Items::of(records))),
            Node::Inner(_) => Ok(Tree::Inner(Items::of(below))),
        }
    }
}

//! The nodes of a file, put into a list as its pages are judged.

ghost use Rattle.std.specs.Prelude.{◌≡◌, Bool, false, List, IfOk};
ghost use Rattle.mr_tree.specs.Digest.{Scheme};
ghost use Rattle.mr_tree.specs.View.{children_in};
ghost use Rattle.mr_tree.specs.declared.tree.Tree as trees;
ghost use Rattle.mr_pages.specs.Gathering.{AreMade, CopiesNodes, SuitsChild, moved, tree_over};
ghost use Rattle.mr_pages.specs.Walking.{owned};
ghost use Rattle.mr_pages.specs.private.Copying.{IsPut};

use crate::maker::Maker;
use crate::node::Node;
use mr_outside::Items;
use mr_tree::{Child, Stored};
use std::alloc::AllocError;

/// Nodes in a list, children before their parent.
#[derive(Drop)]
pub struct Copies {
    pub nodes: Vec<Stored>,
}

/// Puts a node behind the others, and answers its id there.
pub fn put_stored(list: &mut Vec<Stored>, node: Stored) -> Result<u32, AllocError>
    ensures { IfOk result (IsPut list.old.items list.new.items node) }
{
    if list.len() >= u32::MAX as usize {
        return Err(AllocError);
    }
    list.push(node)?;
    Ok(list.len() as u32)
}

/// The entry of a node that is found in this place.
pub fn moved_to(id: u32, child: &Child) -> Child
    ensures { result ≡ moved id child.now }
{
    Child {
        id,
        level: child.level,
        rect: child.rect,
        mask: child.mask,
        count: child.count,
        digest: child.digest,
    }
}

// Puts the node of a child behind the others, and answers the entry by which it is found there.
fn put_moved(list: &mut Vec<Stored>, child: &Child, node: Stored) -> Result<Child, AllocError>
    ensures { IfOk result (λ made. IsPut list.old.items list.new.items node made.id
        × (made ≡ moved made.id child.now)) }
{
    let id = put_stored(list, node)?;
    Ok(moved_to(id, child))
}

impl Maker for Copies {
    type Made = Child;

    type Held = Vec<Stored>;

    ghost held = { λ s. s.nodes };

    ghost makes = { λ x root before after child made t.
        CopiesNodes x root before.items after.items child made t };

    fn make_of(&mut self, child: &Child, node: Node, below: Vec<Child>) -> Result<Child, AllocError>
        ensures { IfOk result (λ made. (x : Scheme) (root : Bool) (before : _)
            (ts : List trees.Tree) → SuitsChild x root child.now node →
            AreMade (λ s u c one t. CopiesNodes x false s.items u.items c one t)
            before self.old.nodes
            (children_in (owned node)) below.items ts →
            CopiesNodes x root before.items self.new.nodes.items child.now made
            (tree_over node ts)) }
    {
        match node {
            Node::Leaf(records) => {
                put_moved(&mut self.nodes, child, Stored::Records(Items::of(records)))
            }
            Node::Inner(_) => put_moved(&mut self.nodes, child, Stored::Children(Items::of(below))),
        }
    }
}

//! Nodes that have taken one entry more, and are split where that is too much.

ghost use Rattle.std.specs.Prelude.{◌≡◌, ◌≤◌, length, IfOk};
ghost use Rattle.mr_grow.specs.Grow.{leaves_over, nodes_over};
ghost use Rattle.mr_grow.specs.Views.{nodes_of};

use crate::entry::rects_of;
use crate::parts::part;
use mr_outside::Items;
use mr_record::Record;
use mr_split::sides;
use mr_tree::{INNER_FILL, INNER_LIMIT, LEAF_FILL, LEAF_LIMIT, Tree};
use std::alloc::{AllocError, Global};

// What stands in a subtree's place: its first node, and a second one where it was split.
#[derive(Drop)]
pub struct Inserted {
    pub first: Tree,
    pub second: Option<Tree>,
}

// A leaf of these records, or two where they are too many for one.
pub(crate) fn leaves(alloc: Global, records: Vec<Record>) -> Result<Inserted, AllocError>
    requires { length records.items ≤ 17 }
    ensures { IfOk result (λ s. nodes_of s ≡ leaves_over records.items) }
{
    if records.len() > LEAF_LIMIT as usize {
        let sides = sides(alloc, &rects_of(alloc, &records)?, LEAF_FILL as usize)?;
        let (first, second) = part(alloc, records, &sides)?;
        Ok(Inserted {
            first: Tree::Leaf(Items::of(first)),
            second: Some(Tree::Leaf(Items::of(second))),
        })
    } else {
        Ok(Inserted {
            first: Tree::Leaf(Items::of(records)),
            second: None,
        })
    }
}

// An inner node over these nodes, or two where they are too many for one.
pub(crate) fn inner_nodes(alloc: Global, children: Vec<Tree>) -> Result<Inserted, AllocError>
    requires { length children.items ≤ 65 }
    ensures { IfOk result (λ s. nodes_of s ≡ nodes_over children.items) }
{
    if children.len() > INNER_LIMIT as usize {
        let sides = sides(alloc, &rects_of(alloc, &children)?, INNER_FILL as usize)?;
        let (first, second) = part(alloc, children, &sides)?;
        Ok(Inserted {
            first: Tree::Inner(Items::of(first)),
            second: Some(Tree::Inner(Items::of(second))),
        })
    } else {
        Ok(Inserted {
            first: Tree::Inner(Items::of(children)),
            second: None,
        })
    }
}

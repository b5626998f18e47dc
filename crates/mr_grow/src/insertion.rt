//! Insertion, from the root down to a leaf.

ghost use Rattle.std.specs.Prelude.{◌≡◌, ◌+◌, ◌≤◌, ◌<◌, ◌++◌, ◌∷◌, length, take, drop, false, IfOk, IfErr, OnOk};
ghost use Rattle.std.specs.List.Sorted.{IsPermutation};
ghost use Rattle.mr_record.specs.Record.{HasLayer};
ghost use Rattle.mr_record.specs.declared.version.Version.TheVariants.{Two};
ghost use Rattle.mr_tree.specs.Limits.{count_limit};
ghost use Rattle.mr_tree.specs.Tree.{records};
ghost use Rattle.mr_tree.specs.WellFormed.{WellFormed};
ghost use Rattle.mr_tree.specs.declared.tree.Tree.TheFolds.{every-Tree};
ghost use Rattle.mr_grow.specs.Found.{has as has_number};
ghost use Rattle.mr_grow.specs.Grow.{grown, ins};
ghost use Rattle.mr_grow.specs.Refused.{IsGrowCause};
ghost use Rattle.mr_grow.specs.Views.{nodes_of, HasRoom};

use crate::entry::place_for;
use crate::finding::has;
use crate::nodes::{Inserted, inner_nodes, leaves};
use mr_outside::Items;
use mr_record::{Record, is_record};
use mr_tree::{COUNT_LIMIT, Tree, count_of};
use std::alloc::{AllocError, Global};

// Puts what stands in a child's place where the child was.
fn put_back(mut children: Vec<Tree>, at: usize, stand: Inserted) -> Result<Vec<Tree>, AllocError>
    requires { at ≤ length children.items }
    ensures value { IfOk result (λ v. v.items
        ≡ take at children.items ++ (nodes_of stand ++ drop at children.items)) }
    ensures length_at_most { IfOk result (λ v. length v.items ≤ length children.items + 2) }
{
    let Inserted { first, second } = stand;
    if let Some(second) = second {
        children.insert(at, second)?;
    }
    children.insert(at, first)?;
    Ok(children)
}

// Puts a record into a subtree.
fn put_into(alloc: Global, tree: Tree, one: Record) -> Result<Inserted, AllocError>
    requires { every-Tree HasRoom tree }
    ensures { IfOk result (λ s. nodes_of s ≡ grown one tree) }
{
    match tree {
        Tree::Empty => leaves(alloc, Vec::from_array(alloc, [one])?),
        Tree::Leaf(records) => {
            let mut records = records.into_vec();
            records.push(one)?;
            leaves(alloc, records)
        }
        Tree::Inner(children) => {
            let mut children = children.into_vec();
            let at = place_for(alloc, &children, &one)?;
            let child = children.remove(at);
            let stand = put_into(alloc, child, one)?;
            inner_nodes(alloc, put_back(children, at, stand)?)
        }
    }
}

// The tree after an insertion.
pub(crate) fn inserted(alloc: Global, tree: Tree, one: Record) -> Result<Tree, AllocError>
    requires { every-Tree HasRoom tree }
    ensures { IfOk result (λ t. t ≡ ins one tree) }
{
    let Inserted { first, second } = put_into(alloc, tree, one)?;
    match second {
        None => Ok(first),
        Some(second) => Ok(Tree::Inner(Items::of(Vec::from_array(alloc, [first, second])?))),
    }
}

/// As `insert`, where it is known that the number is not there and that there is room; it does not
/// look.
pub fn grow(alloc: Global, tree: Tree, one: Record) -> Result<Tree, AllocError>
    requires well_formed { WellFormed tree }
    requires layer { HasLayer Two one }
    requires absent { has_number one.number (records tree) ≡ false }
    requires room { length (records tree) < count_limit }
    ensures exact { IfOk result (λ t. t ≡ ins one tree) }
    ensures well_formed { IfOk result WellFormed }
    ensures records { IfOk result (λ t. IsPermutation (one ∷ records tree) (records t)) }
{
    is_record(&one);
    inserted(alloc, tree, one)
}

/// Why a record was not inserted. Only want of memory gives the tree up.
#[derive(Drop)]
pub enum GrowErr {
    /// A record has the number.
    Present(Tree, u64),
    /// There are 2^20 records, the most that there can be.
    Full(Tree),
    NoMemory,
}

impl From<AllocError> for GrowErr {
    ghost use Rattle.mr_grow.specs.declared.insertion.GrowErr.TheVariants.{NoMemory};

    ghost from_gives = { λ _ e. e ≡ NoMemory };

    fn from(_error: AllocError) -> GrowErr {
        GrowErr::NoMemory
    }
}

/// Inserts a record (Guttman 1984). From the root down, the child is taken whose rectangle grows
/// least, and the leaf takes the record behind its others. A node that is too full is split into
/// two that stand beside each other, and a root that is split gets a root above it. The rectangles
/// of the nodes beside its way are computed anew.
pub fn insert(alloc: Global, tree: Tree, one: Record) -> Result<Tree, GrowErr>
    requires well_formed { WellFormed tree }
    requires layer { HasLayer Two one }
    ensures exact { IfOk result (λ t. t ≡ ins one tree) }
    ensures well_formed { IfOk result WellFormed }
    ensures records { IfOk result (λ t. IsPermutation (one ∷ records tree) (records t)) }
    ensures admitted { OnOk result ((has_number one.number (records tree) ≡ false)
        × (length (records tree) < count_limit)) }
    ensures refused { IfErr result (λ e. IsGrowCause e tree one.number) }
{
    if has(&tree, one.number) {
        return Err(GrowErr::Present(tree, one.number));
    }
    if count_of(&tree) >= COUNT_LIMIT {
        return Err(GrowErr::Full(tree));
    }
    Ok(grow(alloc, tree, one)?)
}

//! Deletion, and how it sets aside what too small nodes hold.

ghost use Rattle.std.specs.Prelude.{◌≡◌, ◌≤◌, ℕ, true, length, IfOk, IfErr, OnOk};
ghost use Rattle.mr_record.specs.Sorting.{sorted_by_key};
ghost use Rattle.mr_record.specs.declared.record.Record as types;
ghost use Rattle.mr_tree.specs.Tree.{records as records_in};
ghost use Rattle.mr_tree.specs.WellFormed.{WellFormed};
ghost use Rattle.mr_tree.specs.declared.tree.Tree as trees;
ghost use Rattle.mr_grow.specs.Found.{has as has_number, place_of};
ghost use Rattle.mr_grow.specs.Shrink.{is_low as is_low_tree, shrunk, shortened, all_in, del, WithoutOne};
ghost use Rattle.mr_grow.specs.private.Kept.{removal_value, kept};
ghost use Rattle.mr_grow.specs.Dropped.{IsDropCause};
ghost use Rattle.mr_grow.specs.Views.{IsRooted};

use crate::finding::{has, position_of};
use crate::insertion::inserted;
use mr_outside::Items;
use mr_record::Record;
use mr_tree::{INNER_FILL, LEAF_FILL, Tree, records_of};
use std::alloc::{AllocError, Global};

// What is left of a subtree, and the records that are set aside.
#[derive(Drop)]
pub struct Removal {
    pub tree: Tree,
    pub aside: Vec<Record>,
}

// The position of the first child that has a record.
fn child_with(children: &[Tree], number: u64) -> usize
    ensures { result
        ≡ place_of (λ (t : trees.Tree). has_number number (records_in t)) children.now }
{
    let mut at = 0;
    for child in children {
        if has(child, number) {
            return at;
        }
        at += 1;
    }
    at
}

// Whether a node has too few entries to stay below another.
fn is_low(tree: &Tree) -> bool
    ensures { result ≡ is_low_tree tree.now }
{
    match tree {
        Tree::Empty => true,
        Tree::Leaf(records) => records.as_slice().len() < LEAF_FILL as usize,
        Tree::Inner(children) => children.as_slice().len() < INNER_FILL as usize,
    }
}

// Puts what is left of a child where it was, or sets its records aside.
fn settle(
    alloc: Global,
    mut children: Vec<Tree>,
    at: usize,
    left: Removal,
) -> Result<Removal, AllocError>
    requires { at ≤ length children.items }
    ensures { IfOk result (λ l. removal_value l ≡ kept children.items at (removal_value left)) }
{
    let Removal { tree, mut aside } = left;
    if is_low(&tree) {
        let mut records = records_of(alloc, &tree)?;
        records.append(&mut aside)?;
        Ok(Removal {
            tree: Tree::Inner(Items::of(children)),
            aside: records,
        })
    } else {
        children.insert(at, tree)?;
        Ok(Removal {
            tree: Tree::Inner(Items::of(children)),
            aside,
        })
    }
}

// Takes a record out of a subtree.
fn take_out(alloc: Global, tree: Tree, number: u64) -> Result<Removal, AllocError>
    requires { has_number number (records_in tree) ≡ true }
    ensures { IfOk result (λ l. removal_value l ≡ shrunk number tree) }
{
    match tree {
        Tree::Empty => Ok(Removal {
            tree: Tree::Empty,
            aside: Vec::new(alloc),
        }),
        Tree::Leaf(records) => {
            let mut records = records.into_vec();
            let at = position_of(&records, number);
            records.remove(at);
            Ok(Removal {
                tree: Tree::Leaf(Items::of(records)),
                aside: Vec::new(alloc),
            })
        }
        Tree::Inner(children) => {
            let mut children = children.into_vec();
            let at = child_with(&children, number);
            let child = children.remove(at);
            let left = take_out(alloc, child, number)?;
            settle(alloc, children, at, left)
        }
    }
}

// The tree without a leaf that has no records as its root, and without inner roots of one child.
fn shorten(tree: Tree) -> Tree
    ensures { result ≡ shortened tree }
{
    match tree {
        Tree::Empty => Tree::Empty,
        Tree::Leaf(records) => {
            if records.as_slice().is_empty() {
                Tree::Empty
            } else {
                Tree::Leaf(records)
            }
        }
        Tree::Inner(children) => {
            let mut children = children.into_vec();
            if children.len() == 1 {
                let child = children.remove(0);
                shorten(child)
            } else {
                Tree::Inner(Items::of(children))
            }
        }
    }
}

/// Sorts records by rising number.
pub fn sort_by_number(records: &mut Vec<Record>) -> Result<(), AllocError>
    ensures { OnOk result (records.new.items
        ≡ sorted_by_key (λ (r : types.Record). r.number) records.old.items) }
{
    records.sort_by_key(|record| record.number)?;
    Ok(())
}

// Inserts records one after the other.
fn put_all(alloc: Global, mut tree: Tree, records: &[Record]) -> Result<Tree, AllocError>
    requires { IsRooted tree }
    ensures { IfOk result (λ t. t ≡ all_in records.now tree) }
{
    for one in records {
        tree = inserted(alloc, tree, *one)?;
    }
    Ok(tree)
}

/// As `delete`, where it is known that the number is there.
pub fn shrink(alloc: Global, tree: Tree, number: u64) -> Result<Tree, AllocError>
    requires well_formed { WellFormed tree }
    requires present { has_number number (records_in tree) ≡ true }
    ensures exact { IfOk result (λ t. t ≡ del number tree) }
    ensures well_formed { IfOk result WellFormed }
    ensures records { IfOk result (λ t. WithoutOne number (records_in tree) (records_in t)) }
{
    let Removal { tree, mut aside } = take_out(alloc, tree, number)?;
    sort_by_number(&mut aside)?;
    put_all(alloc, shorten(tree), &aside)
}

/// Why a record was not deleted. Only want of memory gives the tree up.
#[derive(Drop)]
pub enum DropErr {
    /// No record has the number.
    Absent(Tree, u64),
    NoMemory,
}

impl From<AllocError> for DropErr {
    ghost use Rattle.mr_grow.specs.declared.deletion.DropErr.TheVariants.{NoMemory};

    ghost from_gives = { λ _ e. e ≡ NoMemory };

    fn from(_error: AllocError) -> DropErr {
        DropErr::NoMemory
    }
}

/// Deletes the record with a number (Guttman 1984). From its leaf up, a node that is left with too
/// few entries leaves its parent, and the records below it are set aside. Once the root is
/// shortened, they are inserted again by rising number, each as `insert` does it.
pub fn delete(alloc: Global, tree: Tree, number: u64) -> Result<Tree, DropErr>
    requires { WellFormed tree }
    ensures exact { IfOk result (λ t. t ≡ del number tree) }
    ensures well_formed { IfOk result WellFormed }
    ensures records { IfOk result (λ t. WithoutOne number (records_in tree) (records_in t)) }
    ensures present { OnOk result (has_number number (records_in tree) ≡ true) }
    ensures refused { IfErr result (λ e. IsDropCause e tree number) }
{
    if !has(&tree, number) {
        return Err(DropErr::Absent(tree, number));
    }
    Ok(shrink(alloc, tree, number)?)
}

//! Trees after batches.

ghost use Rattle.std.specs.Prelude.{◌≡◌, [], ◌∷◌, true, IfOk, IfErr, OnOk, All};
ghost use Rattle.std.specs.List.Sorted.{IsPermutation};
ghost use Rattle.mr_tree.specs.Tree.{records as records_in};
ghost use Rattle.mr_tree.specs.WellFormed.{WellFormed};
ghost use Rattle.mr_batch.specs.Changes.{IsLayered};
ghost use Rattle.mr_batch.specs.Applied.{may_make, made, IsAdmissible};
ghost use Rattle.mr_batch.specs.Admissible.{batch_fault};
ghost use Rattle.mr_batch.specs.Replay.{changed as tree_after, replayed as tree_after_all, replay, LeavesRecords};
ghost use Rattle.mr_batch.specs.Refusing.{IsApplyCause};

use crate::{Batch, BatchFault, Change, Directory, admit};
use mr_grow::{grow, shrink};
use mr_tree::{Tree, records_of};
use std::alloc::{AllocError, Global};

/// Why a batch was not applied. Only want of memory gives the tree up.
#[derive(Drop)]
pub enum ApplyErr {
    /// The batch may not be applied; the tree is the one that was given.
    Batch(Tree, BatchFault),
    NoMemory,
}

impl From<AllocError> for ApplyErr {
    ghost use Rattle.mr_batch.specs.declared.replay.ApplyErr.TheVariants.{NoMemory};

    ghost from_gives = { λ _ e. e ≡ NoMemory };

    fn from(_error: AllocError) -> ApplyErr {
        ApplyErr::NoMemory
    }
}

// Why the batch may not be applied to the tree's records, if it may not.
fn fault_of(
    alloc: Global,
    tree: &Tree,
    held: u64,
    batch: &Batch,
) -> Result<Option<BatchFault>, AllocError>
    requires { WellFormed tree.now }
    ensures { IfOk result (λ o. o ≡ batch_fault (records_in tree.now) held batch.now) }
{
    let records = records_of(alloc, tree)?;
    let directory = Directory::of(alloc, &records)?;
    match admit(&directory, held, batch) {
        Ok(()) => Ok(None),
        Err(fault) => Ok(Some(fault)),
    }
}

// The tree after a change that may be made.
fn changed(alloc: Global, tree: Tree, change: &Change) -> Result<Tree, AllocError>
    requires well_formed { WellFormed tree }
    requires layer { IsLayered change.now }
    requires may { may_make (records_in tree) change.now ≡ true }
    ensures exact { IfOk result (λ t. t ≡ tree_after tree change.now) }
    ensures well_formed { IfOk result WellFormed }
    ensures records { IfOk result
        (λ t. IsPermutation (made (records_in tree) change.now) (records_in t)) }
{
    match change {
        Change::Add(one) => grow(alloc, tree, *one),
        Change::Remove(number) => shrink(alloc, tree, *number),
    }
}

// The tree after the changes of a batch, each of which may be made in its turn.
fn replayed(alloc: Global, mut tree: Tree, held: u64, batch: &Batch) -> Result<Tree, AllocError>
    requires well_formed { WellFormed tree }
    requires layers { All IsLayered batch.now.list }
    requires admissible { IsAdmissible (records_in tree) held batch.now }
    ensures exact { IfOk result (λ t. t ≡ tree_after_all tree batch.now.list) }
    ensures well_formed { IfOk result WellFormed }
    ensures records { IfOk result
        (λ t. LeavesRecords (records_in tree) batch.now.list (records_in t)) }
{
    for i in 0..batch.len() {
        tree = changed(alloc, tree, batch.change(i))?;
    }
    Ok(tree)
}

/// The tree after a batch: its changes are made one by one, an addition as `insert` does it and a
/// removal as `delete` does it. A batch that may not be applied is refused with the first cause,
/// and the tree comes back. Whether numbers are there is asked of a directory, which is made once.
pub fn apply_plain(alloc: Global, tree: Tree, held: u64, batch: &Batch) -> Result<Tree, ApplyErr>
    requires well_formed { WellFormed tree }
    requires layers { All IsLayered batch.now.list }
    ensures exact { IfOk result (λ t. t ≡ replay tree (batch.now ∷ [])) }
    ensures well_formed { IfOk result WellFormed }
    ensures records { IfOk result
        (λ t. LeavesRecords (records_in tree) batch.now.list (records_in t)) }
    ensures admissible { OnOk result (IsAdmissible (records_in tree) held batch.now) }
    ensures refused { IfErr result (λ e. IsApplyCause e tree held batch.now) }
{
    match fault_of(alloc, &tree, held, batch)? {
        Some(fault) => Err(ApplyErr::Batch(tree, fault)),
        None => Ok(replayed(alloc, tree, held, batch)?),
    }
}

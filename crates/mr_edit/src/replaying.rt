//! The changes of a batch.

ghost use Rattle.std.specs.Prelude.{◌≡◌, ◌+◌, ◌≤◌, All, IfOk, IfErr, IfSome, OnOk, OnErr};
ghost use Rattle.mr_record.specs.Record.{HasLayer};
ghost use Rattle.mr_batch.specs.declared.change.Change.TheVariants as changes;
ghost use Rattle.mr_edit.specs.Causes.{HasEditCause};
ghost use Rattle.mr_edit.specs.Changing.{CanChange, CanReplay};
ghost use Rattle.mr_edit.specs.Counted.{ChangesWithin, ReplaysWithin};
ghost use Rattle.mr_edit.specs.Held.{IsTold};
ghost use Rattle.mr_edit.specs.Outcome.{NeverMap, IsLow, root_page, IsOfRoot};
ghost use Rattle.mr_edit.specs.Reads.{insertion_reads};
ghost use Rattle.mr_edit.specs.Replayed.{IsOfVersion, ChangesOne, ReplaysBatch, StopsReplay};

use crate::deleting::delete;
use crate::learning::learn_once;
use crate::root::at_root;
use crate::{EditErr, PageFile, Pager, insert};
use mr_batch::{Batch, Change, Directory};
use mr_pages::{MapFault, MapRule};
use mr_record::{Record, is_record};
use mr_tree::Child;
use std::alloc::Global;

// Puts a record in.
fn add<F: PageFile>(
    alloc: Global,
    pager: &mut Pager<F>,
    root: Option<Child>,
    dir: &mut Directory,
    one: &Record,
) -> Result<Option<Child>, EditErr>
    requires { HasLayer F.scheme.version one.now }
    ensures changes { IfOk result (λ r. ChangesOne F.scheme (F.told pager.old.file)
        pager.old.free root dir.old (F.told pager.new.file) pager.new.free r dir.new
        (changes.Add one.now)) }
    ensures unchanged { OnErr result (dir.new ≡ dir.old) }
    ensures kept { F.kept pager.old.file pager.new.file }
    ensures reads { F.reads pager.new.file ≤ F.reads pager.old.file + insertion_reads }
    ensures quiet { OnOk result (F.faults pager.new.file ≡ F.faults pager.old.file) }
    ensures low { IfOk result IsLow }
    ensures told { IfOk result (λ r. IfSome r (IsTold F.scheme.version)) }
    ensures cause { IfErr result (HasEditCause (F.faults pager.old.file)
        (F.faults pager.new.file)) }
    ensures blames_none_told { IfErr result
        (λ e. NeverMap e (CanChange F.scheme (F.told pager.old.file)
        pager.old.free root dir.old (changes.Add one.now))) }
{
    is_record(one);
    let child = insert::<F>(alloc, pager, root, one)?;
    dir.put(one.number, one.rect)?;
    Ok(Some(child))
}

// Takes out the record with a number. All nodes may be looked at before, unless they were.
fn remove<F: PageFile>(
    alloc: Global,
    pager: &mut Pager<F>,
    root: Option<Child>,
    dir: &mut Directory,
    learned: &mut bool,
    number: u64,
) -> Result<Option<Child>, EditErr>
    ensures changes { IfOk result (λ r. ChangesOne F.scheme (F.told pager.old.file)
        pager.old.free root dir.old (F.told pager.new.file) pager.new.free r dir.new
        (changes.Remove number)) }
    ensures unchanged { OnErr result (dir.new ≡ dir.old) }
    ensures kept { F.kept pager.old.file pager.new.file }
    ensures within { ChangesWithin F.scheme (F.told pager.old.file) pager.old.free root
        dir.old (changes.Remove number) learned.old learned.new (F.reads pager.old.file)
        (F.reads pager.new.file) }
    ensures quiet { OnOk result (F.faults pager.new.file ≡ F.faults pager.old.file) }
    ensures low { IfOk result IsLow }
    ensures told { IfOk result (λ r. IfSome r (IsTold F.scheme.version)) }
    ensures cause { IfErr result (HasEditCause (F.faults pager.old.file)
        (F.faults pager.new.file)) }
    ensures blames_none_told { IfErr result
        (λ e. NeverMap e (CanChange F.scheme (F.told pager.old.file)
        pager.old.free root dir.old (changes.Remove number))) }
{
    let Some(rect) = dir.rect(number) else {
        return Err(EditErr::Map(MapFault {
            page: 0,
            rule: MapRule::Page,
        }));
    };
    pager.hints.search();
    learn_once::<F>(pager, &root, learned)?;
    let way = pager.hints.way(number);
    let root = delete::<F>(alloc, pager, root, number, &rect, &way)?;
    dir.take(number);
    Ok(root)
}

// Puts a record in, or takes one out.
fn add_or_remove<F: PageFile>(
    alloc: Global,
    pager: &mut Pager<F>,
    root: Option<Child>,
    dir: &mut Directory,
    learned: &mut bool,
    change: &Change,
) -> Result<Option<Child>, EditErr>
    requires { IsOfVersion F.scheme.version change.now }
    ensures changes { IfOk result (λ r. ChangesOne F.scheme (F.told pager.old.file)
        pager.old.free root dir.old (F.told pager.new.file) pager.new.free r dir.new change.now) }
    ensures unchanged { OnErr result (dir.new ≡ dir.old) }
    ensures kept { F.kept pager.old.file pager.new.file }
    ensures within { ChangesWithin F.scheme (F.told pager.old.file) pager.old.free root
        dir.old change.now learned.old learned.new (F.reads pager.old.file)
        (F.reads pager.new.file) }
    ensures quiet { OnOk result (F.faults pager.new.file ≡ F.faults pager.old.file) }
    ensures low { IfOk result IsLow }
    ensures told { IfOk result (λ r. IfSome r (IsTold F.scheme.version)) }
    ensures cause { IfErr result (HasEditCause (F.faults pager.old.file)
        (F.faults pager.new.file)) }
    ensures blames_none_told { IfErr result
        (λ e. NeverMap e (CanChange F.scheme (F.told pager.old.file)
        pager.old.free root dir.old change.now)) }
{
    match change {
        Change::Add(one) => add::<F>(alloc, pager, root, dir, one),
        Change::Remove(number) => remove::<F>(alloc, pager, root, dir, learned, *number),
    }
}

// The page of a root node, 0 where there is none.
fn page_of(root: &Option<Child>) -> u32
    ensures { result ≡ root_page root.now }
{
    match root {
        None => 0,
        Some(child) => child.id,
    }
}

// Makes a change. The root is blamed where no page of a node is.
fn make_change<F: PageFile>(
    alloc: Global,
    pager: &mut Pager<F>,
    root: Option<Child>,
    dir: &mut Directory,
    learned: &mut bool,
    change: &Change,
) -> Result<Option<Child>, EditErr>
    requires { IsOfVersion F.scheme.version change.now }
    ensures changes { IfOk result (λ r. ChangesOne F.scheme (F.told pager.old.file)
        pager.old.free root dir.old (F.told pager.new.file) pager.new.free r dir.new change.now) }
    ensures page { IfErr result (IsOfRoot (root_page root)) }
    ensures unchanged { OnErr result (dir.new ≡ dir.old) }
    ensures kept { F.kept pager.old.file pager.new.file }
    ensures within { ChangesWithin F.scheme (F.told pager.old.file) pager.old.free root
        dir.old change.now learned.old learned.new (F.reads pager.old.file)
        (F.reads pager.new.file) }
    ensures quiet { OnOk result (F.faults pager.new.file ≡ F.faults pager.old.file) }
    ensures low { IfOk result IsLow }
    ensures told { IfOk result (λ r. IfSome r (IsTold F.scheme.version)) }
    ensures cause { IfErr result (HasEditCause (F.faults pager.old.file)
        (F.faults pager.new.file)) }
    ensures blames_none_told { IfErr result
        (λ e. NeverMap e (CanChange F.scheme (F.told pager.old.file)
        pager.old.free root dir.old change.now)) }
{
    let page = page_of(&root);
    match add_or_remove::<F>(alloc, pager, root, dir, learned, change) {
        Ok(changed) => Ok(changed),
        Err(error) => Err(at_root(error, page)),
    }
}

/// Makes the changes of a batch in their order. Root and directory follow them. The directory is
/// that of the map's records: a record that goes out is searched by the rectangle that it has
/// there. Where a change is refused, both are those of the map as the changes before it left it, if
/// the pages are told. Told or not, they are as before where it is the first change.
///
/// `Page` blames what insertions and deletions blame; and the root, or page 0 where there is none,
/// where the directory has no record with a number that is to go out.
pub fn replay<F: PageFile>(
    alloc: Global,
    pager: &mut Pager<F>,
    root: &mut Option<Child>,
    dir: &mut Directory,
    batch: &Batch,
) -> Result<(), EditErr>
    requires { All (IsOfVersion F.scheme.version) batch.now.list }
    ensures replays { OnOk result (ReplaysBatch F.scheme (F.told pager.old.file)
        pager.old.free root.old dir.old (F.told pager.new.file) pager.new.free root.new dir.new
        batch.now) }
    // Root and directory are those that the refused change met.
    ensures stops { IfErr result (StopsReplay F.scheme (F.told pager.old.file) pager.old.free
        root.old dir.old batch.now root.new dir.new) }
    // The page that is blamed is page 0 only where the change that is refused met no root.
    ensures page { IfErr result (IsOfRoot (root_page root.new)) }
    ensures kept { F.kept pager.old.file pager.new.file }
    ensures within { ReplaysWithin F.scheme (F.told pager.old.file) pager.old.free root.old
        dir.old batch.now (F.reads pager.old.file) (F.reads pager.new.file) }
    ensures quiet { OnOk result (F.faults pager.new.file ≡ F.faults pager.old.file) }
    // Told or not, and whatever is answered, the root is no higher than a map's may be.
    ensures low { IsLow root.old → IsLow root.new }
    // Nor does it tell more than its version may.
    ensures told { IfSome root.old (IsTold F.scheme.version) →
        IfSome root.new (IsTold F.scheme.version) }
    ensures cause { IfErr result (HasEditCause (F.faults pager.old.file)
        (F.faults pager.new.file)) }
    ensures blames_none_told { IfErr result
        (λ e. NeverMap e (CanReplay F.scheme (F.told pager.old.file)
        pager.old.free root.old dir.old batch.now)) }
{
    let mut learned = false;
    for i in 0..batch.len() {
        let then = make_change::<F>(alloc, pager, *root, dir, &mut learned, batch.change(i))?;
        *root = then;
    }
    Ok(())
}

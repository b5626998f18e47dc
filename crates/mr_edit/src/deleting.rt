//! Deletion from a map.

ghost use Rattle.std.specs.Prelude.{◌≡◌, ◌+◌, ◌*◌, ◌≤◌, true, length, All, IfOk, IfErr, IfSome, OnOk};
ghost use Rattle.mr_record.specs.Record.{HasLayer};
ghost use Rattle.mr_edit.specs.Causes.{HasEditCause};
ghost use Rattle.mr_edit.specs.Counted.{DeletesTwice, ReadsTwice};
ghost use Rattle.mr_edit.specs.Held.{IsTold};
ghost use Rattle.mr_edit.specs.Outcome.{NeverMap, IsLow, IsOfRoot};
ghost use Rattle.mr_edit.specs.Growing.{CanInsert};
ghost use Rattle.mr_edit.specs.Deleted.{InsertsAll, DeletesRecord};
ghost use Rattle.mr_edit.specs.Reads.{insertion_reads};
ghost use Rattle.mr_edit.specs.private.Removal.{SearchesSubtree};
ghost use Rattle.mr_edit.specs.private.Removable.{CanDelete, CanTakeOut};

use crate::hints::Way;
use crate::removing::take_out;
use crate::root::at_root;
use crate::{EditErr, PageFile, Pager, Removal, insert};
use mr_geom::Rect;
use mr_grow::sort_by_number;
use mr_pages::{MapFault, MapRule};
use mr_record::Record;
use mr_tree::Child;
use std::alloc::Global;

// Inserts records one after the other.
fn put_all<F: PageFile>(
    alloc: Global,
    pager: &mut Pager<F>,
    mut root: Option<Child>,
    records: &[Record],
) -> Result<Option<Child>, EditErr>
    requires { All (HasLayer F.scheme.version) records.now }
    ensures inserts { IfOk result (λ r. InsertsAll F.scheme (F.told pager.old.file)
        pager.old.free root (F.told pager.new.file) pager.new.free r records.now) }
    ensures blames_none_told { IfErr result (λ e. NeverMap e
        (CanInsert F.scheme (F.told pager.old.file) pager.old.free root (length records.now))) }
    ensures kept { F.kept pager.old.file pager.new.file }
    ensures reads { F.reads pager.new.file
        ≤ F.reads pager.old.file + length records.now * insertion_reads }
    ensures quiet { OnOk result (F.faults pager.new.file ≡ F.faults pager.old.file) }
    ensures low { IfOk result (λ r. IsLow root → IsLow r) }
    ensures told { IfOk result
        (λ r. IfSome root (IsTold F.scheme.version) → IfSome r (IsTold F.scheme.version)) }
    ensures cause { IfErr result (HasEditCause (F.faults pager.old.file)
        (F.faults pager.new.file)) }
{
    for one in records {
        let child = insert::<F>(alloc, pager, root, one)?;
        root = Some(child);
    }
    Ok(root)
}

// Takes a record out below the root, whose page is blamed where no page of a node is.
fn take_below<F: PageFile>(
    alloc: Global,
    pager: &mut Pager<F>,
    child: &Child,
    number: u64,
    rect: &Rect,
    way: &Way,
) -> Result<Option<Removal>, EditErr>
    ensures searches { IfOk result (λ found. SearchesSubtree F.scheme true (F.told pager.old.file)
        pager.old.free (F.told pager.new.file) pager.new.free child.now number rect.now found) }
    ensures kept { F.kept pager.old.file pager.new.file }
    ensures twice { ReadsTwice F.scheme (F.told pager.old.file) pager.old.free child.now
        number rect.now (F.reads pager.old.file) (F.reads pager.new.file) }
    ensures quiet { OnOk result (F.faults pager.new.file ≡ F.faults pager.old.file) }
    ensures low { IfOk result (λ found. IfSome found (λ l. IsLow l.entry)) }
    ensures told { IfOk result
        (λ found. IfSome found (λ l. IfSome l.entry (IsTold F.scheme.version))) }
    ensures layers { IfOk result
        (λ found. IfSome found (λ l. All (HasLayer F.scheme.version) l.aside.items)) }
    ensures page { IfErr result (IsOfRoot child.now.id) }
    ensures cause { IfErr result (HasEditCause (F.faults pager.old.file)
        (F.faults pager.new.file)) }
    ensures blames_none_told { IfErr result (λ e. NeverMap e (CanTakeOut F.scheme true
        (F.told pager.old.file) pager.old.free child.now number rect.now)) }
{
    match take_out::<F>(alloc, pager, child, number, rect, way, true) {
        Ok(found) => Ok(found),
        Err(error) => Err(at_root(error, child.id)),
    }
}

// Deletes the record with a number, which has this rectangle and is looked for on this way first,
// from a map with this root, and answers its root then.
//
// Where the pages are not told, `Page` blames besides what an insertion blames there; and the
// root, or page 0 where there is none, where the record is not found.
pub(crate) fn delete<F: PageFile>(
    alloc: Global,
    pager: &mut Pager<F>,
    root: Option<Child>,
    number: u64,
    rect: &Rect,
    way: &Way,
) -> Result<Option<Child>, EditErr>
    ensures deletes { IfOk result (λ r. DeletesRecord F.scheme (F.told pager.old.file)
        pager.old.free root (F.told pager.new.file) pager.new.free r number rect.now) }
    ensures blames_none_told { IfErr result (λ e. NeverMap e
        (CanDelete F.scheme (F.told pager.old.file) pager.old.free root number rect.now)) }
    ensures kept { F.kept pager.old.file pager.new.file }
    ensures twice { DeletesTwice F.scheme (F.told pager.old.file) pager.old.free root number
        rect.now (F.reads pager.old.file) (F.reads pager.new.file) }
    ensures quiet { OnOk result (F.faults pager.new.file ≡ F.faults pager.old.file) }
    ensures low { IfOk result IsLow }
    ensures told { IfOk result (λ r. IfSome r (IsTold F.scheme.version)) }
    ensures cause { IfErr result (HasEditCause (F.faults pager.old.file)
        (F.faults pager.new.file)) }
{
    let Some(child) = root else {
        return Err(EditErr::Map(MapFault {
            page: 0,
            rule: MapRule::Page,
        }));
    };
    let found = take_below::<F>(alloc, pager, &child, number, rect, way)?;
    let Some(left) = found else {
        return Err(EditErr::Map(MapFault {
            page: child.id,
            rule: MapRule::Page,
        }));
    };
    let Removal { entry, mut aside } = left;
    sort_by_number(&mut aside)?;
    put_all::<F>(alloc, pager, entry, &aside)
}

//! Insertion into a map.

ghost use Rattle.std.specs.Prelude.{◌≡◌, ◌+◌, ◌≤◌, ◌∷◌, [], IfOk, IfErr, OnOk, Some, None};
ghost use Rattle.mr_record.specs.Record.{HasLayer};
ghost use Rattle.mr_edit.specs.Causes.{HasEditCause};
ghost use Rattle.mr_edit.specs.Held.{IsTold, HaveFew};
ghost use Rattle.mr_edit.specs.Outcome.{RaisesRoot, NeverMap, IsAlike, IsLow, root_page, IsOfRoot};
ghost use Rattle.mr_edit.specs.Drafted.{InsertsRecord};
ghost use Rattle.mr_edit.specs.Reads.{insertion_reads};
ghost use Rattle.mr_edit.specs.Growing.{CanAdd, CanRaise, CanInsert};
ghost use Rattle.mr_edit.specs.private.Blaming.{page_on, blaming};

use crate::pager::{take_page, write_inner, write_leaf};
use crate::putting::put_into;
use crate::{EditErr, Inserted, PageFile, Pager};
use mr_pages::{MapFault, MapRule};
use mr_record::Record;
use mr_tree::{Child, LEVEL_LIMIT};
use std::alloc::Global;

// The root of a map of one record.
fn first_root<F: PageFile>(pager: &mut Pager<F>, one: &Record) -> Result<Child, EditErr>
    requires { HasLayer F.scheme.version one.now }
    ensures inserts { IfOk result (λ c. InsertsRecord F.scheme (F.told pager.old.file)
        pager.old.free None (F.told pager.new.file) pager.new.free c one.now) }
    ensures blames_none_told { IfErr result
        (λ e. NeverMap e (CanAdd (F.told pager.old.file) pager.old.free)) }
    ensures kept { F.kept pager.old.file pager.new.file }
    ensures reads { F.reads pager.new.file ≤ F.reads pager.old.file + 1 }
    ensures quiet { OnOk result (F.faults pager.new.file ≡ F.faults pager.old.file) }
    ensures low { IfOk result (λ c. IsLow (Some c)) }
    ensures told { IfOk result (IsTold F.scheme.version) }
    ensures cause { IfErr result (HasEditCause (F.faults pager.old.file)
        (F.faults pager.new.file)) }
{
    let page = take_page(pager)?;
    write_leaf::<F>(pager, page, &[*one])
}

// A root above two nodes.
fn raise<F: PageFile>(pager: &mut Pager<F>, first: Child, second: Child) -> Result<Child, EditErr>
    requires alike { second.level ≡ first.level }
    requires told { IsTold F.scheme.version first × IsTold F.scheme.version second }
    ensures raises { IfOk result (λ c. RaisesRoot F.scheme (F.told pager.old.file)
        pager.old.free (F.told pager.new.file) pager.new.free first second c) }
    ensures blames_none_told { IfErr result (λ e. NeverMap e
        (CanRaise (F.told pager.old.file) pager.old.free first.level
        × HaveFew (first ∷ second ∷ []))) }
    ensures kept { F.kept pager.old.file pager.new.file }
    ensures reads { F.reads pager.new.file ≤ F.reads pager.old.file + 1 }
    ensures quiet { OnOk result (F.faults pager.new.file ≡ F.faults pager.old.file) }
    ensures low { IfOk result (λ c. IsLow (Some c)) }
    ensures told { IfOk result (IsTold F.scheme.version) }
    ensures cause { IfErr result (HasEditCause (F.faults pager.old.file)
        (F.faults pager.new.file)) }
{
    if first.level >= LEVEL_LIMIT {
        return Err(EditErr::Map(MapFault {
            page: first.id,
            rule: MapRule::Page,
        }));
    }
    let page = take_page(pager)?;
    write_inner::<F>(pager, page, first.level + 1, &[first, second])
}

// A fault by `Page` is one of this page, where it is one of page 0: no node stands there.
fn on_root(fault: MapFault, page: u32) -> MapFault
    ensures rule { result.rule ≡ fault.rule }
    ensures page { result.page ≡ page_on page fault.page fault.rule }
{
    match fault.rule {
        MapRule::Page => MapFault {
            page: if fault.page == 0 { page } else { fault.page },
            rule: MapRule::Page,
        },
        _ => fault,
    }
}

// The same refusal. Where the file would grow past its last page, or a node count more records
// than a map has, this page of the root is blamed, since what writes a page knows no root.
pub(crate) fn at_root(error: EditErr, page: u32) -> EditErr
    ensures exact { result ≡ blaming page error }
    ensures same { IsAlike error result }
    ensures page { IsOfRoot page result }
{
    match error {
        EditErr::Map(fault) => EditErr::Map(on_root(fault, page)),
        EditErr::Missing => EditErr::Missing,
        EditErr::Fault => EditErr::Fault,
        EditErr::NoMemory => EditErr::NoMemory,
    }
}

// Puts a record into a map with a root.
fn put_below<F: PageFile>(
    alloc: Global,
    pager: &mut Pager<F>,
    root: &Child,
    one: &Record,
) -> Result<Child, EditErr>
    requires { HasLayer F.scheme.version one.now }
    ensures inserts { IfOk result (λ c. InsertsRecord F.scheme (F.told pager.old.file)
        pager.old.free (Some root.now) (F.told pager.new.file) pager.new.free c one.now) }
    ensures blames_none_told { IfErr result (λ e. NeverMap e
        (CanInsert F.scheme (F.told pager.old.file) pager.old.free (Some root.now) 1)) }
    ensures kept { F.kept pager.old.file pager.new.file }
    ensures reads { F.reads pager.new.file ≤ F.reads pager.old.file + insertion_reads }
    ensures quiet { OnOk result (F.faults pager.new.file ≡ F.faults pager.old.file) }
    ensures low { IfOk result (λ c. IsLow (Some c)) }
    ensures told { IfOk result (IsTold F.scheme.version) }
    ensures cause { IfErr result (HasEditCause (F.faults pager.old.file)
        (F.faults pager.new.file)) }
{
    let Inserted { first, second } = put_into::<F>(alloc, pager, root, true, one)?;
    match second {
        None => Ok(first),
        Some(second) => raise::<F>(pager, first, second),
    }
}

/// Puts a record into a map with this root, and answers its root then.
///
/// Where the pages are not told, `Page` blames besides a node whose rectangle, mask or count is not
/// the one that its entry tells of, or one with too few entries. It blames the root, or page 0
/// where there is none, in three cases. The root would rise too high; an entry would count more
/// records than a map has; or the file would grow past its last page.
pub fn insert<F: PageFile>(
    alloc: Global,
    pager: &mut Pager<F>,
    root: Option<Child>,
    one: &Record,
) -> Result<Child, EditErr>
    requires { HasLayer F.scheme.version one.now }
    ensures inserts { IfOk result (λ c. InsertsRecord F.scheme (F.told pager.old.file)
        pager.old.free root (F.told pager.new.file) pager.new.free c one.now) }
    ensures blames_none_told { IfErr result (λ e. NeverMap e
        (CanInsert F.scheme (F.told pager.old.file) pager.old.free root 1)) }
    ensures page { IfErr result (IsOfRoot (root_page root)) }
    ensures kept { F.kept pager.old.file pager.new.file }
    ensures reads { F.reads pager.new.file ≤ F.reads pager.old.file + insertion_reads }
    ensures quiet { OnOk result (F.faults pager.new.file ≡ F.faults pager.old.file) }
    // Told or not, the root is no higher than a map's may be.
    ensures low { IfOk result (λ c. IsLow (Some c)) }
    ensures told { IfOk result (IsTold F.scheme.version) }
    ensures cause { IfErr result (HasEditCause (F.faults pager.old.file)
        (F.faults pager.new.file)) }
{
    match root {
        None => first_root::<F>(pager, one),
        Some(child) => match put_below::<F>(alloc, pager, &child, one) {
            Ok(raised) => Ok(raised),
            Err(error) => Err(at_root(error, child.id)),
        },
    }
}

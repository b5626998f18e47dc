//! Deletion below an entry.

ghost use Rattle.std.specs.Prelude.{Some, ◌≡◌, ◌≢◌, ◌≤◌, ◌<◌, ◌+◌, ◌-◌, ◌==◌, ◌&&◌, not, if◌then◌else◌, ◌++◌, ◌∷◌, [], suc, length, map, take, drop, true, false, All, IfOk, IfSome, IfErr, OnOk};
ghost use Rattle.std.specs.List.{AllByRecursion};
ghost use Rattle.std.specs.Option.{option_to_list};
ghost use Rattle.mr_geom.specs.Rectangle.{union};
ghost use Rattle.mr_record.specs.Record.{HasLayer};
ghost use Rattle.mr_tree.specs.declared.child.Child as child_types;
ghost use Rattle.mr_edit.specs.Causes.{HasEditCause, KnowsBelow};
ghost use Rattle.mr_edit.specs.Counted.{FreesOnce, LeavesOnce, ReadsTwice, TakesTwice};
ghost use Rattle.mr_edit.specs.Held.{IsTold};
ghost use Rattle.mr_edit.specs.Outcome.{NeverMap, CanWrite, IsLow};
ghost use Rattle.mr_edit.specs.private.Removal.{LeavesLeaf, LeavesInner, ShortensRoot, SearchesSubtree};
ghost use Rattle.mr_edit.specs.private.Removable.{CanLeave, CanTakeOut};
ghost use Rattle.mr_tree.specs.Limits.{inner_limit, leaf_fill, leaf_limit};

use crate::freeing::{free_page, free_subtrees};
use crate::hints::Way;
use crate::pager::{read_checked, write_inner, write_leaf};
use crate::{EditErr, PageFile, Pager, Removal};
use mr_geom::Rect;
use mr_grow::position_of;
use mr_pages::{MapFault, MapRule};
use mr_record::Record;
use mr_tree::{Child, INNER_FILL, LEAF_FILL, NodeView};
use std::alloc::{AllocError, Global};

// Whether a rectangle lies in that of an entry.
fn may_hold(child: &Child, rect: &Rect) -> bool
    ensures outside { result ≡ false → union child.now.rect rect.now ≢ child.now.rect }
    ensures inside { result ≡ true → union child.now.rect rect.now ≡ child.now.rect }
{
    child.rect.union(rect) == child.rect
}

// With how many records a leaf keeps its page, as the root or below it.
fn least_records(root: bool) -> usize
    ensures { result ≡ (if root then 1 else leaf_fill) }
{
    if root { 1 } else { LEAF_FILL as usize }
}

// Writes what is left of an inner node below the root, or sets all records below it aside.
fn leave_inner<F: PageFile>(
    alloc: Global,
    pager: &mut Pager<F>,
    page: u32,
    level: u8,
    children: &[Child],
    mut aside: Vec<Record>,
) -> Result<Removal, EditErr>
    requires page { 1 ≤ page }
    requires level { (1 ≤ level) × (level ≤ 7) }
    requires few { length children.now ≤ inner_limit }
    requires below { AllByRecursion (λ (c : child_types.Child). c.level + 1 ≡ level)
        children.now }
    requires told { AllByRecursion (IsTold F.scheme.version) children.now }
    requires layers { All (HasLayer F.scheme.version) aside.items }
    ensures leaves { IfOk result (λ l. LeavesInner F.scheme false (F.told pager.old.file)
        pager.old.free (F.told pager.new.file) pager.new.free page children.now aside.items
        (option_to_list l.entry) l.aside.items) }
    ensures level { IfOk result (λ l. AllByRecursion (λ (c : child_types.Child). c.level ≡ level)
        (option_to_list l.entry)) }
    ensures kept { F.kept pager.old.file pager.new.file }
    ensures reads_at_most { LeavesOnce F.scheme (F.told pager.old.file) pager.old.free page
        children.now (F.reads pager.old.file) (F.reads pager.new.file) }
    ensures still { IfOk result (λ l. IfSome l.entry
        (λ c. F.reads pager.new.file ≡ F.reads pager.old.file)) }
    ensures quiet { OnOk result (F.faults pager.new.file ≡ F.faults pager.old.file) }
    ensures low { IfOk result (λ l. IsLow l.entry) }
    ensures told { IfOk result (λ l. IfSome l.entry (IsTold F.scheme.version)) }
    ensures layers { IfOk result (λ l. All (HasLayer F.scheme.version) l.aside.items) }
    ensures cause { IfErr result (HasEditCause (F.faults pager.old.file)
        (F.faults pager.new.file)) }
    ensures blames_none_told { IfErr result (λ e. NeverMap e
        (CanLeave F.scheme (F.told pager.old.file) pager.old.free page children.now)) }
{
    if children.len() < INNER_FILL as usize {
        let mut records = Vec::new(alloc);
        free_page(pager, page)?;
        free_subtrees::<F>(pager, children, &mut records)?;
        records.append(&mut aside)?;
        Ok(Removal {
            entry: None,
            aside: records,
        })
    } else {
        let entry = write_inner::<F>(pager, page, level, children)?;
        Ok(Removal {
            entry: Some(entry),
            aside,
        })
    }
}

// The root that a node gives way to: itself, unless it has one child.
fn shorten<F: PageFile>(pager: &mut Pager<F>, child: &Child) -> Result<Child, EditErr>
    requires { IsTold F.scheme.version child.now }
    ensures shortens { IfOk result (λ c. ShortensRoot F.scheme (F.told pager.old.file)
        pager.old.free (F.told pager.new.file) pager.new.free child.now c) }
    ensures kept { F.kept pager.old.file pager.new.file }
    ensures reads_at_most { FreesOnce F.scheme (F.told pager.old.file) pager.old.free
        (child.now ∷ [])
        (F.reads pager.old.file) (F.reads pager.new.file) }
    ensures quiet { OnOk result (F.faults pager.new.file ≡ F.faults pager.old.file) }
    ensures low { IfOk result (λ c. IsLow (Some c)) }
    ensures told { IfOk result (IsTold F.scheme.version) }
    ensures cause { IfErr result (HasEditCause (F.faults pager.old.file)
        (F.faults pager.new.file)) }
    ensures blames_none_told { IfErr result (λ e. NeverMap e
        (KnowsBelow F.scheme false (F.told pager.old.file) pager.old.free child.now)) }
{
    let mut view = NodeView::new();
    read_checked::<F>(&mut pager.file, child, false, &mut view)?;
    if view.level() == 0 {
        let _records = view.records();
        return Ok(*child);
    }
    let children = view.children();
    if children.len() != 1 {
        return Ok(*child);
    }
    free_page(pager, child.id)?;
    shorten::<F>(pager, &children[0])
}

// Writes what is left of an inner node that is the root, or frees it where one child is left.
fn leave_top_inner<F: PageFile>(
    pager: &mut Pager<F>,
    page: u32,
    level: u8,
    children: &[Child],
    aside: Vec<Record>,
) -> Result<Removal, EditErr>
    requires page { 1 ≤ page }
    requires level { (1 ≤ level) × (level ≤ 7) }
    requires few { length children.now ≤ inner_limit }
    requires below { AllByRecursion (λ (c : child_types.Child). c.level + 1 ≡ level)
        children.now }
    requires told { AllByRecursion (IsTold F.scheme.version) children.now }
    requires layers { All (HasLayer F.scheme.version) aside.items }
    ensures leaves { IfOk result (λ l. LeavesInner F.scheme true (F.told pager.old.file)
        pager.old.free (F.told pager.new.file) pager.new.free page children.now aside.items
        (option_to_list l.entry) l.aside.items) }
    ensures kept { F.kept pager.old.file pager.new.file }
    ensures reads_at_most { LeavesOnce F.scheme (F.told pager.old.file) pager.old.free page
        children.now (F.reads pager.old.file) (F.reads pager.new.file) }
    ensures quiet { OnOk result (F.faults pager.new.file ≡ F.faults pager.old.file) }
    ensures low { IfOk result (λ l. IsLow l.entry) }
    ensures told { IfOk result (λ l. IfSome l.entry (IsTold F.scheme.version)) }
    ensures layers { IfOk result (λ l. All (HasLayer F.scheme.version) l.aside.items) }
    ensures cause { IfErr result (HasEditCause (F.faults pager.old.file)
        (F.faults pager.new.file)) }
    ensures blames_none_told { IfErr result (λ e. NeverMap e
        (CanLeave F.scheme (F.told pager.old.file) pager.old.free page children.now)) }
{
    if children.is_empty() {
        return Err(EditErr::Map(MapFault {
            page,
            rule: MapRule::Page,
        }));
    }
    if children.len() == 1 {
        free_page(pager, page)?;
        let entry = shorten::<F>(pager, &children[0])?;
        Ok(Removal {
            entry: Some(entry),
            aside,
        })
    } else {
        let entry = write_inner::<F>(pager, page, level, children)?;
        Ok(Removal {
            entry: Some(entry),
            aside,
        })
    }
}

// Writes what is left of an inner node, as the root or below it.
fn leave<F: PageFile>(
    alloc: Global,
    pager: &mut Pager<F>,
    page: u32,
    level: u8,
    children: &[Child],
    aside: Vec<Record>,
    root: bool,
) -> Result<Removal, EditErr>
    requires page { 1 ≤ page }
    requires level { (1 ≤ level) × (level ≤ 7) }
    requires few { length children.now ≤ inner_limit }
    requires below { AllByRecursion (λ (c : child_types.Child). c.level + 1 ≡ level)
        children.now }
    requires told { AllByRecursion (IsTold F.scheme.version) children.now }
    requires layers { All (HasLayer F.scheme.version) aside.items }
    ensures leaves { IfOk result (λ l. LeavesInner F.scheme root (F.told pager.old.file)
        pager.old.free (F.told pager.new.file) pager.new.free page children.now aside.items
        (option_to_list l.entry) l.aside.items) }
    ensures level { IfOk result (λ l. root ≡ false → AllByRecursion
        (λ (c : child_types.Child). c.level ≡ level) (option_to_list l.entry)) }
    ensures kept { F.kept pager.old.file pager.new.file }
    ensures reads_at_most { LeavesOnce F.scheme (F.told pager.old.file) pager.old.free page
        children.now (F.reads pager.old.file) (F.reads pager.new.file) }
    ensures still { IfOk result (λ l. root ≡ false → IfSome l.entry
        (λ c. F.reads pager.new.file ≡ F.reads pager.old.file)) }
    ensures quiet { OnOk result (F.faults pager.new.file ≡ F.faults pager.old.file) }
    ensures low { IfOk result (λ l. IsLow l.entry) }
    ensures told { IfOk result (λ l. IfSome l.entry (IsTold F.scheme.version)) }
    ensures layers { IfOk result (λ l. All (HasLayer F.scheme.version) l.aside.items) }
    ensures cause { IfErr result (HasEditCause (F.faults pager.old.file)
        (F.faults pager.new.file)) }
    ensures blames_none_told { IfErr result (λ e. NeverMap e
        (CanLeave F.scheme (F.told pager.old.file) pager.old.free page children.now)) }
{
    if root {
        leave_top_inner::<F>(pager, page, level, children, aside)
    } else {
        leave_inner::<F>(alloc, pager, page, level, children, aside)
    }
}

// Writes what is left of a leaf, or sets it aside.
fn leave_records<F: PageFile>(
    alloc: Global,
    pager: &mut Pager<F>,
    page: u32,
    records: Vec<Record>,
    root: bool,
) -> Result<Removal, EditErr>
    requires page { 1 ≤ page }
    requires few { length records.items ≤ leaf_limit }
    requires layers { All (HasLayer F.scheme.version) records.items }
    ensures leaves { IfOk result (λ l. LeavesLeaf F.scheme root (F.told pager.old.file)
        pager.old.free (F.told pager.new.file) pager.new.free page records.items
        (option_to_list l.entry) l.aside.items) }
    ensures level { IfOk result (λ l. root ≡ false → AllByRecursion
        (λ (c : child_types.Child). c.level ≡ 0) (option_to_list l.entry)) }
    ensures kept { F.kept pager.old.file pager.new.file }
    ensures reads { F.reads pager.new.file ≡ F.reads pager.old.file }
    ensures quiet { OnOk result (F.faults pager.new.file ≡ F.faults pager.old.file) }
    ensures low { IfOk result (λ l. IsLow l.entry) }
    ensures told { IfOk result (λ l. IfSome l.entry (IsTold F.scheme.version)) }
    ensures layers { IfOk result (λ l. All (HasLayer F.scheme.version) l.aside.items) }
    ensures cause { IfErr result (HasEditCause (F.faults pager.old.file)
        (F.faults pager.new.file)) }
    ensures blames_none_told { IfErr result
        (λ e. NeverMap e (CanWrite (F.told pager.old.file) page)) }
{
    if records.len() < least_records(root) {
        free_page(pager, page)?;
        Ok(Removal {
            entry: None,
            aside: records,
        })
    } else {
        let entry = write_leaf::<F>(pager, page, &records)?;
        Ok(Removal {
            entry: Some(entry),
            aside: Vec::new(alloc),
        })
    }
}

// The entries with what stands in the place of one.
fn replaced(
    alloc: Global,
    children: &[Child],
    at: usize,
    entry: Option<Child>,
) -> Result<Vec<Child>, AllocError>
    requires { at < length children.now }
    ensures { IfOk result (λ v. v.items
        ≡ take at children.now ++ (option_to_list entry ++ drop (suc at) children.now)) }
{
    let mut list = Vec::from_slice(alloc, children)?;
    list.remove(at);
    if let Some(entry) = entry {
        list.insert(at, entry)?;
    }
    Ok(list)
}

// Which child is tried as the nth: that to which the way turns, and then each in its order.
fn tried(turn: usize, n: usize) -> usize
    ensures { result ≡ (if n == 0 then turn else n - 1) }
{
    if n == 0 { turn } else { n - 1 }
}

// Whether this one was tried first.
fn is_again(turn: usize, n: usize, at: usize) -> bool
    ensures { result ≡ (not (n == 0) && (at == turn)) }
{
    if n == 0 { false } else { at == turn }
}

// Takes a record out of the subtree below an entry, if it is there. Only nodes whose rectangle
// holds the record's are read, first that to which the way leads.
pub(crate) fn take_out<F: PageFile>(
    alloc: Global,
    pager: &mut Pager<F>,
    child: &Child,
    number: u64,
    rect: &Rect,
    way: &Way,
    root: bool,
) -> Result<Option<Removal>, EditErr>
    ensures searches { IfOk result (λ found. SearchesSubtree F.scheme root (F.told pager.old.file)
        pager.old.free (F.told pager.new.file) pager.new.free child.now number rect.now found) }
    ensures level { IfOk result (λ found. root ≡ false → IfSome found
        (λ l. AllByRecursion (λ (c : child_types.Child). c.level ≡ child.now.level)
        (option_to_list l.entry))) }
    ensures kept { F.kept pager.old.file pager.new.file }
    ensures twice { ReadsTwice F.scheme (F.told pager.old.file) pager.old.free child.now
        number rect.now (F.reads pager.old.file) (F.reads pager.new.file) }
    ensures takes { IfOk result (TakesTwice F.scheme root (F.told pager.old.file)
        pager.old.free child.now number rect.now (F.reads pager.old.file)
        (F.reads pager.new.file)) }
    ensures quiet { OnOk result (F.faults pager.new.file ≡ F.faults pager.old.file) }
    ensures low { IfOk result (λ found. IfSome found (λ l. IsLow l.entry)) }
    ensures told { IfOk result
        (λ found. IfSome found (λ l. IfSome l.entry (IsTold F.scheme.version))) }
    ensures layers { IfOk result
        (λ found. IfSome found (λ l. All (HasLayer F.scheme.version) l.aside.items)) }
    ensures cause { IfErr result (HasEditCause (F.faults pager.old.file)
        (F.faults pager.new.file)) }
    ensures blames_none_told { IfErr result (λ e. NeverMap e (CanTakeOut F.scheme root
        (F.told pager.old.file) pager.old.free child.now number rect.now)) }
{
    let mut view = NodeView::new();
    pager.hints.count();
    read_checked::<F>(&mut pager.file, child, root, &mut view)?;
    let level = view.level();
    if level == 0 {
        let mut records = Vec::from_slice(alloc, view.records())?;
        let at = position_of(&records, number);
        if at >= records.len() {
            return Ok(None);
        }
        records.remove(at);
        Ok(Some(leave_records::<F>(alloc, pager, child.id, records, root)?))
    } else {
        let children = view.children();
        let turn = way.turn(level, children);
        for n in 0..children.len() + 1 {
            let at = tried(turn, n);
            if at >= children.len() {
                continue;
            }
            if is_again(turn, n, at) {
                continue;
            }
            if !may_hold(&children[at], rect) {
                continue;
            }
            let found = take_out::<F>(alloc, pager, &children[at], number, rect, way, false)?;
            let Some(left) = found else {
                continue;
            };
            let Removal { entry, aside } = left;
            let rest = replaced(alloc, children, at, entry)?;
            let left = leave::<F>(alloc, pager, child.id, level, &rest, aside, root)?;
            return Ok(Some(left));
        }
        Ok(None)
    }
}

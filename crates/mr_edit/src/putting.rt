//! Insertion below an entry.

ghost use Rattle.std.specs.Prelude.{◌≡◌, ◌≤◌, ◌<◌, ◌+◌, ◌*◌, ◌++◌, ◌∷◌, [], suc, min, length, map, take, drop, All, IfOk, IfErr, OnOk};
ghost use Rattle.std.specs.List.{AllByRecursion};
ghost use Rattle.mr_record.specs.Record.{HasLayer};
ghost use Rattle.mr_tree.specs.Limits.{level_limit, inner_limit};
ghost use Rattle.mr_tree.specs.declared.child.Child as child_types;
ghost use Rattle.mr_edit.specs.Held.{entries, IsTold, HaveFew};
ghost use Rattle.mr_edit.specs.Causes.{HasEditCause};
ghost use Rattle.mr_edit.specs.Growing.{CanGrow};
ghost use Rattle.mr_edit.specs.Outcome.{GrowsSubtree, PutsLeaf, PutsInner, HalvesList, NeverMap, CanPut};

use crate::pager::{read_checked, take_page, write_inner, write_leaf};
use crate::{EditErr, Inserted, PageFile, Pager};
use mr_grow::{HasRect, part, place_for, rects_of};
use mr_record::Record;
use mr_split::sides;
use mr_tree::{Child, INNER_FILL, INNER_LIMIT, LEAF_FILL, LEAF_LIMIT, NodeView};
use std::alloc::{AllocError, Global};

// A list of records with one more.
fn with_record(alloc: Global, records: &[Record], one: &Record) -> Result<Vec<Record>, AllocError>
    ensures { IfOk result (λ v. v.items ≡ records.now ++ one.now ∷ []) }
{
    let mut list = Vec::from_slice(alloc, records)?;
    list.push(*one)?;
    Ok(list)
}

// Puts the entries that stand in an entry's place there.
fn replace(mut children: Vec<Child>, at: usize, stand: Inserted) -> Result<Vec<Child>, AllocError>
    requires { at < length children.items }
    ensures { IfOk result (λ v. v.items
        ≡ take at children.items ++ (entries stand ++ drop (suc at) children.items)) }
{
    let Inserted { first, second } = stand;
    children.remove(at);
    if let Some(second) = second {
        children.insert(at, second)?;
    }
    children.insert(at, first)?;
    Ok(children)
}

// The entries of a node that is split, dealt out to two: at least so many to each.
fn halve<T: HasRect + Drop>(
    alloc: Global,
    entries: Vec<T>,
    least: usize,
    _most: usize,
) -> Result<(Vec<T>, Vec<T>), AllocError>
    requires some { 1 ≤ least }
    requires enough { 2 * least ≤ _most }
    requires few { _most ≤ inner_limit }
    requires long { length entries.items ≡ _most + 1 }
    ensures { IfOk result (λ p. HalvesList least _most (map T.rect_of entries.items)
        entries.items p.0.items p.1.items) }
{
    let rects = rects_of(alloc, &entries)?;
    let sides = sides(alloc, &rects, least)?;
    part(alloc, entries, &sides)
}

// Writes the records of a leaf, and splits it where they are too many.
fn put_leaf<F: PageFile>(
    alloc: Global,
    pager: &mut Pager<F>,
    page: u32,
    records: Vec<Record>,
) -> Result<Inserted, EditErr>
    requires page { 1 ≤ page }
    requires some { 1 ≤ length records.items }
    requires few { length records.items ≤ 17 }
    requires layers { All (HasLayer F.scheme.version) records.items }
    ensures puts { IfOk result (λ s. PutsLeaf F.scheme (F.told pager.old.file)
        pager.old.free (F.told pager.new.file) pager.new.free page records.items (entries s)) }
    ensures level { IfOk result
        (λ s. AllByRecursion (λ (c : child_types.Child). c.level ≡ 0) (entries s)) }
    ensures told { IfOk result (λ s. AllByRecursion (IsTold F.scheme.version) (entries s)) }
    ensures blames_none_told { IfErr result (λ e. NeverMap e
        (CanPut (F.told pager.old.file) pager.old.free page)) }
    ensures kept { F.kept pager.old.file pager.new.file }
    ensures reads { F.reads pager.new.file ≤ F.reads pager.old.file + 1 }
    ensures quiet { OnOk result (F.faults pager.new.file ≡ F.faults pager.old.file) }
    ensures cause { IfErr result (HasEditCause (F.faults pager.old.file)
        (F.faults pager.new.file)) }
{
    if records.len() > LEAF_LIMIT as usize {
        let (front, back) = halve(alloc, records, LEAF_FILL as usize, LEAF_LIMIT as usize)?;
        let other = take_page(pager)?;
        let first = write_leaf::<F>(pager, page, &front)?;
        let second = write_leaf::<F>(pager, other, &back)?;
        Ok(Inserted {
            first,
            second: Some(second),
        })
    } else {
        let first = write_leaf::<F>(pager, page, &records)?;
        Ok(Inserted {
            first,
            second: None,
        })
    }
}

// Writes the entries of an inner node, and splits it where they are too many.
fn put_inner<F: PageFile>(
    alloc: Global,
    pager: &mut Pager<F>,
    page: u32,
    level: u8,
    children: Vec<Child>,
) -> Result<Inserted, EditErr>
    requires page { 1 ≤ page }
    requires level { (1 ≤ level) × (level ≤ 7) }
    requires some { 1 ≤ length children.items }
    requires few { length children.items ≤ 65 }
    requires below { AllByRecursion (λ (c : child_types.Child). c.level + 1 ≡ level)
        children.items }
    requires told { AllByRecursion (IsTold F.scheme.version) children.items }
    ensures puts { IfOk result (λ s. PutsInner F.scheme (F.told pager.old.file)
        pager.old.free (F.told pager.new.file) pager.new.free page children.items (entries s)) }
    ensures level { IfOk result
        (λ s. AllByRecursion (λ (c : child_types.Child). c.level ≡ level) (entries s)) }
    ensures told { IfOk result (λ s. AllByRecursion (IsTold F.scheme.version) (entries s)) }
    ensures blames_none_told { IfErr result (λ e. NeverMap e
        (CanPut (F.told pager.old.file) pager.old.free page × HaveFew children.items)) }
    ensures kept { F.kept pager.old.file pager.new.file }
    ensures reads { F.reads pager.new.file ≤ F.reads pager.old.file + 1 }
    ensures quiet { OnOk result (F.faults pager.new.file ≡ F.faults pager.old.file) }
    ensures cause { IfErr result (HasEditCause (F.faults pager.old.file)
        (F.faults pager.new.file)) }
{
    if children.len() > INNER_LIMIT as usize {
        let (front, back) = halve(alloc, children, INNER_FILL as usize, INNER_LIMIT as usize)?;
        let other = take_page(pager)?;
        let first = write_inner::<F>(pager, page, level, &front)?;
        let second = write_inner::<F>(pager, other, level, &back)?;
        Ok(Inserted {
            first,
            second: Some(second),
        })
    } else {
        let first = write_inner::<F>(pager, page, level, &children)?;
        Ok(Inserted {
            first,
            second: None,
        })
    }
}

// Puts a record into the subtree below an entry, which is the root's or that of a node below it.
pub(crate) fn put_into<F: PageFile>(
    alloc: Global,
    pager: &mut Pager<F>,
    child: &Child,
    root: bool,
    one: &Record,
) -> Result<Inserted, EditErr>
    requires layer { HasLayer F.scheme.version one.now }
    ensures grows { IfOk result (λ s. GrowsSubtree F.scheme (F.told pager.old.file) pager.old.free
        (F.told pager.new.file) pager.new.free child.now one.now (entries s)) }
    ensures level { IfOk result
        (λ s. AllByRecursion (λ (c : child_types.Child). c.level ≡ child.now.level) (entries s)) }
    ensures told { IfOk result (λ s. AllByRecursion (IsTold F.scheme.version) (entries s)) }
    ensures blames_none_told { IfErr result (λ e. NeverMap e
        (CanGrow F.scheme root (F.told pager.old.file) pager.old.free child.now one.now)) }
    ensures kept { F.kept pager.old.file pager.new.file }
    ensures reads { F.reads pager.new.file
        ≤ F.reads pager.old.file + 2 * (min child.now.level level_limit + 1) }
    ensures quiet { OnOk result (F.faults pager.new.file ≡ F.faults pager.old.file) }
    ensures low { OnOk result (child.now.level ≤ level_limit) }
    ensures cause { IfErr result (HasEditCause (F.faults pager.old.file)
        (F.faults pager.new.file)) }
{
    let mut view = NodeView::new();
    read_checked(&mut pager.file, child, root, &mut view)?;
    let level = view.level();
    if level == 0 {
        let records = with_record(alloc, view.records(), one)?;
        put_leaf::<F>(alloc, pager, child.id, records)
    } else {
        let children = Vec::from_slice(alloc, view.children())?;
        let at = place_for(alloc, &children, one)?;
        let stand = put_into::<F>(alloc, pager, &children[at], false, one)?;
        let children = replace(children, at, stand)?;
        put_inner::<F>(alloc, pager, child.id, level, children)
    }
}

//! A file under edit and its free pages.

ghost use Rattle.std.specs.Prelude.{◌≡◌, ◌≤◌, ◌+◌, true, Some, length, map, All, IfSome, IfOk, IfErr, OnOk};
ghost use Rattle.mr_tree.specs.declared.child.Child as child_types;
ghost use Rattle.mr_tree.specs.declared.tree.Tree.TheOpen.{Leaf, Inner};
ghost use Rattle.mr_record.specs.Record.{HasLayer};
ghost use Rattle.mr_tree.specs.View.{size, level_of, rect_of, entry_over, AreTold};
ghost use Rattle.mr_pages.specs.Faults.{same_rect, same_sums};
ghost use Rattle.mr_pages.specs.private.Judging.{fills_node};
ghost use Rattle.mr_pages.specs.Walking.{child_link, page_node};
ghost use Rattle.mr_edit.specs.PageMap.{HasNode};
ghost use Rattle.mr_edit.specs.Held.{IsTold, HaveFew};
ghost use Rattle.mr_edit.specs.Causes.{HasEditCause, CanLook};
ghost use Rattle.mr_edit.specs.Outcome.{TakesPage, WritesNode, NeverMap, CanTake, CanWrite};
ghost use Rattle.mr_tree.specs.Limits.{inner_limit, leaf_limit};

use crate::hints::Hints;
use crate::{EditErr, PageFile};
use mr_pages::{MapFault, MapRule, is_fit};
use mr_record::Record;
use mr_tree::{COUNT_LIMIT, Child, NodeView};
use std::alloc::Global;

/// A file and its first free page, 0 for none.
#[derive(Drop)]
pub struct Pager<F> {
    pub file: F,
    pub free: u32,
    pub(crate) hints: Hints,
}

impl<F> Pager<F> {
    /// A file with this first free page, of which nothing was seen.
    pub fn new(alloc: Global, file: F, free: u32) -> Pager<F>
        ensures file { result.file ≡ file }
        ensures free { result.free ≡ free }
    {
        Pager {
            file,
            free,
            hints: Hints::new(alloc),
        }
    }

    /// The file.
    pub fn into_file(self) -> F
        ensures { result ≡ self.file }
    {
        let Pager {
            file,
            free: _,
            hints: _,
        } = self;
        file
    }
}

// Reads the node of which the child is the entry, and judges it by itself, as a root or below it.
pub(crate) fn read_checked<F: PageFile>(
    file: &mut F,
    child: &Child,
    root: bool,
    into: &mut NodeView,
) -> Result<(), EditErr>
    ensures same { F.told file.new ≡ F.told file.old }
    ensures page { OnOk result (1 ≤ child.now.id) }
    ensures level { OnOk result (level_of into.new ≡ child.now.level) }
    ensures not_empty { OnOk result (1 ≤ size into.new) }
    ensures shown { OnOk result (AreTold F.scheme.version into.new) }
    ensures node { OnOk result (IfSome (F.told file.old)
        (λ b. HasNode b child.now.id (page_node into.new))) }
    ensures round { OnOk result (same_rect (rect_of into.new) (Some child.now.rect) ≡ true) }
    ensures sums { OnOk result (same_sums root (entry_over F.scheme into.new)
        (child_link child.now).entry ≡ true) }
    ensures full { OnOk result (fills_node root into.new ≡ true) }
    ensures kept { F.kept file.old file.new }
    ensures reads { F.reads file.new ≤ F.reads file.old + 1 }
    ensures quiet { OnOk result (F.faults file.new ≡ F.faults file.old) }
    ensures cause { IfErr result (HasEditCause (F.faults file.old) (F.faults file.new)) }
    ensures blames_none_told { IfErr result (λ e. NeverMap e
        (CanLook F.scheme root (F.told file.old) child.now)) }
{
    file.read(child, into)?;
    if !is_fit(file.version(), into, child, root) {
        return Err(EditErr::Map(MapFault {
            page: child.id,
            rule: MapRule::Page,
        }));
    }
    Ok(())
}

// Takes a page: the first free one, or the file grows.
pub(crate) fn take_page<F: PageFile>(pager: &mut Pager<F>) -> Result<u32, EditErr>
    ensures positive { IfOk result (λ page. 1 ≤ page) }
    ensures takes { IfOk result (λ page. TakesPage (F.told pager.old.file) pager.old.free
        (F.told pager.new.file) pager.new.free page) }
    ensures blames_none_told { IfErr result
        (λ e. NeverMap e (CanTake (F.told pager.old.file) pager.old.free)) }
    ensures kept { F.kept pager.old.file pager.new.file }
    ensures reads { F.reads pager.new.file ≤ F.reads pager.old.file + 1 }
    ensures quiet { OnOk result (F.faults pager.new.file ≡ F.faults pager.old.file) }
    ensures cause { IfErr result (HasEditCause (F.faults pager.old.file)
        (F.faults pager.new.file)) }
{
    if pager.free == 0 {
        pager.file.grow()
    } else {
        let page = pager.free;
        pager.free = pager.file.read_free(page)?;
        Ok(page)
    }
}

// Writes a leaf on a page.
pub(crate) fn write_leaf<F: PageFile>(
    pager: &mut Pager<F>,
    page: u32,
    records: &[Record],
) -> Result<Child, EditErr>
    requires page { 1 ≤ page }
    requires some { 1 ≤ length records.now }
    requires few { length records.now ≤ leaf_limit }
    requires layers { All (HasLayer F.scheme.version) records.now }
    ensures writes { IfOk result (λ c. WritesNode F.scheme (F.told pager.old.file)
        pager.old.free (F.told pager.new.file) pager.new.free page (Leaf records.now) c) }
    ensures level { IfOk result (λ c. c.level ≡ 0) }
    ensures told { IfOk result (IsTold F.scheme.version) }
    ensures blames_none_told { IfErr result
        (λ e. NeverMap e (CanWrite (F.told pager.old.file) page)) }
    ensures kept { F.kept pager.old.file pager.new.file }
    ensures reads { F.reads pager.new.file ≡ F.reads pager.old.file }
    ensures quiet { OnOk result (F.faults pager.new.file ≡ F.faults pager.old.file) }
    ensures cause { IfErr result (HasEditCause (F.faults pager.old.file)
        (F.faults pager.new.file)) }
{
    let mut view = NodeView::new();
    view.set_leaf(records);
    let child = pager.file.entry(&view, page);
    pager.hints.saw_leaf(page, records)?;
    pager.file.write(&child, &view)?;
    Ok(child)
}

// Writes an inner node of this level on a page. Where the file is not told, its entry may come to
// count more records than a map has: page 0 is blamed, since what writes a node knows no root.
pub(crate) fn write_inner<F: PageFile>(
    pager: &mut Pager<F>,
    page: u32,
    level: u8,
    children: &[Child],
) -> Result<Child, EditErr>
    requires page { 1 ≤ page }
    requires level { (1 ≤ level) × (level ≤ 7) }
    requires some { 1 ≤ length children.now }
    requires few { length children.now ≤ inner_limit }
    requires below { All (λ (c : child_types.Child). c.level + 1 ≡ level) children.now }
    requires told { All (IsTold F.scheme.version) children.now }
    ensures writes { IfOk result (λ c. WritesNode F.scheme (F.told pager.old.file)
        pager.old.free (F.told pager.new.file) pager.new.free page
        (Inner (map child_link children.now)) c) }
    ensures level { IfOk result (λ c. c.level ≡ level) }
    ensures told { IfOk result (IsTold F.scheme.version) }
    ensures blames_none_told { IfErr result (λ e. NeverMap e
        (CanWrite (F.told pager.old.file) page × HaveFew children.now)) }
    ensures kept { F.kept pager.old.file pager.new.file }
    ensures reads { F.reads pager.new.file ≡ F.reads pager.old.file }
    ensures quiet { OnOk result (F.faults pager.new.file ≡ F.faults pager.old.file) }
    ensures cause { IfErr result (HasEditCause (F.faults pager.old.file)
        (F.faults pager.new.file)) }
{
    let mut view = NodeView::new();
    view.set_inner(level, children);
    if view.count(pager.file.version()) > COUNT_LIMIT {
        return Err(EditErr::Map(MapFault {
            page: 0,
            rule: MapRule::Page,
        }));
    }
    let child = pager.file.entry(&view, page);
    pager.hints.saw_children(page, children)?;
    pager.file.write(&child, &view)?;
    Ok(child)
}

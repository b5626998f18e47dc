//! Pages that are free again.

ghost use Rattle.std.specs.Prelude.{◌≡◌, ◌≤◌, ◌∷◌, [], All, IfErr, OnOk};
ghost use Rattle.mr_record.specs.Record.{HasLayer};
ghost use Rattle.mr_edit.specs.Causes.{HasEditCause};
ghost use Rattle.mr_edit.specs.Counted.{FreesOnce};
ghost use Rattle.mr_edit.specs.Outcome.{NeverMap, CanWrite};
ghost use Rattle.mr_edit.specs.private.Removal.{FreesPage, FreesSubtrees};
ghost use Rattle.mr_edit.specs.private.Removable.{CanFree};

use crate::pager::read_checked;
use crate::{EditErr, PageFile, Pager};
use mr_record::Record;
use mr_tree::{Child, NodeView};

// Makes a page a free one.
pub(crate) fn free_page<F: PageFile>(pager: &mut Pager<F>, page: u32) -> Result<(), EditErr>
    requires { 1 ≤ page }
    ensures frees { OnOk result (FreesPage (F.told pager.old.file) pager.old.free
        (F.told pager.new.file) pager.new.free page) }
    ensures kept { F.kept pager.old.file pager.new.file }
    ensures reads { F.reads pager.new.file ≡ F.reads pager.old.file }
    ensures quiet { OnOk result (F.faults pager.new.file ≡ F.faults pager.old.file) }
    ensures cause { IfErr result (HasEditCause (F.faults pager.old.file)
        (F.faults pager.new.file)) }
    ensures blames_none_told { IfErr result
        (λ e. NeverMap e (CanWrite (F.told pager.old.file) page)) }
{
    pager.file.write_free(page, pager.free)?;
    pager.free = page;
    Ok(())
}

// Frees the pages of a subtree, and lists its records.
fn free_subtree<F: PageFile>(
    pager: &mut Pager<F>,
    child: &Child,
    list: &mut Vec<Record>,
) -> Result<(), EditErr>
    ensures frees { OnOk result (FreesSubtrees F.scheme (F.told pager.old.file) pager.old.free
        (F.told pager.new.file) pager.new.free (child.now ∷ []) list.old.items list.new.items) }
    ensures layers { OnOk result
        (All (HasLayer F.scheme.version) list.old.items
        → All (HasLayer F.scheme.version) list.new.items) }
    ensures kept { F.kept pager.old.file pager.new.file }
    ensures reads_at_most { FreesOnce F.scheme (F.told pager.old.file) pager.old.free
        (child.now ∷ [])
        (F.reads pager.old.file) (F.reads pager.new.file) }
    ensures quiet { OnOk result (F.faults pager.new.file ≡ F.faults pager.old.file) }
    ensures cause { IfErr result (HasEditCause (F.faults pager.old.file)
        (F.faults pager.new.file)) }
    ensures blames_none_told { IfErr result (λ e. NeverMap e
        (CanFree F.scheme (F.told pager.old.file) pager.old.free (child.now ∷ []))) }
{
    let mut view = NodeView::new();
    read_checked::<F>(&mut pager.file, child, false, &mut view)?;
    free_page(pager, child.id)?;
    if view.level() == 0 {
        list.extend_from_slice(view.records())?;
        Ok(())
    } else {
        for one in view.children() {
            free_subtree::<F>(pager, one, list)?;
        }
        Ok(())
    }
}

// Frees the pages of some subtrees, and lists their records.
pub(crate) fn free_subtrees<F: PageFile>(
    pager: &mut Pager<F>,
    children: &[Child],
    list: &mut Vec<Record>,
) -> Result<(), EditErr>
    ensures frees { OnOk result (FreesSubtrees F.scheme (F.told pager.old.file) pager.old.free
        (F.told pager.new.file) pager.new.free children.now list.old.items list.new.items) }
    ensures layers { OnOk result
        (All (HasLayer F.scheme.version) list.old.items
        → All (HasLayer F.scheme.version) list.new.items) }
    ensures kept { F.kept pager.old.file pager.new.file }
    ensures reads_at_most { FreesOnce F.scheme (F.told pager.old.file) pager.old.free children.now
        (F.reads pager.old.file) (F.reads pager.new.file) }
    ensures quiet { OnOk result (F.faults pager.new.file ≡ F.faults pager.old.file) }
    ensures cause { IfErr result (HasEditCause (F.faults pager.old.file)
        (F.faults pager.new.file)) }
    ensures blames_none_told { IfErr result (λ e. NeverMap e
        (CanFree F.scheme (F.told pager.old.file) pager.old.free children.now)) }
{
    for child in children {
        free_subtree::<F>(pager, child, list)?;
    }
    Ok(())
}

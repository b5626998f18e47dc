//! A look at all nodes of a map, to note where its records stand.

ghost use Rattle.std.specs.Prelude.{◌≡◌, true, IfErr, OnOk};
ghost use Rattle.mr_edit.specs.Causes.{HasEditCause, KnowsBelow, KnowsRoot};
ghost use Rattle.mr_edit.specs.Counted.{ReadsNodesOnce, LearnsOnce};
ghost use Rattle.mr_edit.specs.Outcome.{NeverMap};

use crate::pager::read_checked;
use crate::{EditErr, PageFile, Pager};
use mr_tree::{Child, NodeView};

// Notes where the records and the nodes below an entry stand.
fn learn<F: PageFile>(pager: &mut Pager<F>, child: &Child, root: bool) -> Result<(), EditErr>
    ensures same { F.told pager.new.file ≡ F.told pager.old.file }
    ensures free { pager.new.free ≡ pager.old.free }
    ensures kept { F.kept pager.old.file pager.new.file }
    ensures reads_at_most { ReadsNodesOnce F.scheme (F.told pager.old.file) child.now
        (F.reads pager.old.file) (F.reads pager.new.file) }
    ensures quiet { OnOk result (F.faults pager.new.file ≡ F.faults pager.old.file) }
    ensures cause { IfErr result (HasEditCause (F.faults pager.old.file)
        (F.faults pager.new.file)) }
    ensures blames_none_told { IfErr result (λ e. NeverMap e
        (KnowsBelow F.scheme root (F.told pager.old.file) pager.old.free child.now)) }
{
    let mut view = NodeView::new();
    read_checked::<F>(&mut pager.file, child, root, &mut view)?;
    if view.level() == 0 {
        pager.hints.saw_leaf(child.id, view.records())?;
        Ok(())
    } else {
        pager.hints.saw_children(child.id, view.children())?;
        for one in view.children() {
            learn::<F>(pager, one, false)?;
        }
        Ok(())
    }
}

// Notes where all records of a map with this root stand, once searches were long, unless that was
// done before.
pub(crate) fn learn_once<F: PageFile>(
    pager: &mut Pager<F>,
    root: &Option<Child>,
    learned: &mut bool,
) -> Result<(), EditErr>
    ensures same { F.told pager.new.file ≡ F.told pager.old.file }
    ensures free { pager.new.free ≡ pager.old.free }
    ensures kept { F.kept pager.old.file pager.new.file }
    ensures reads_at_most { LearnsOnce F.scheme (F.told pager.old.file) pager.old.free root.now
        learned.old learned.new (F.reads pager.old.file) (F.reads pager.new.file) }
    ensures quiet { OnOk result (F.faults pager.new.file ≡ F.faults pager.old.file) }
    ensures cause { IfErr result (HasEditCause (F.faults pager.old.file)
        (F.faults pager.new.file)) }
    ensures blames_none_told { IfErr result (λ e. NeverMap e
        (KnowsRoot F.scheme (F.told pager.old.file) pager.old.free root.now)) }
{
    if *learned {
        return Ok(());
    }
    if !pager.hints.are_wanted() {
        return Ok(());
    }
    *learned = true;
    pager.hints.keep();
    match root {
        None => Ok(()),
        Some(child) => learn::<F>(pager, child, true),
    }
}

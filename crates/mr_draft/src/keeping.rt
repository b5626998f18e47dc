//! The nodes of a file under edit: read, kept and written.

ghost use Rattle.std.specs.Prelude.{◌≡◌, ◌+◌, ◌<◌, ◌≤◌, option_map, IsOk, IfErr, OnOk, IfSome};
ghost use Rattle.mr_tree.specs.View.{AreTold, size, level_of};
ghost use Rattle.mr_pages.specs.Walking.{page_node};
ghost use Rattle.mr_store.specs.CachedFile.{state_of, page_form, scheme_of, IsHeld, IsRead, OnlyReads};
ghost use Rattle.mr_edit.specs.PageMap.{HasNode, node_content, free_content, with_content};
ghost use Rattle.mr_edit.specs.Causes.{HasEditCause, CanRead};
ghost use Rattle.mr_edit.specs.Held.{IsEntryOf};
ghost use Rattle.mr_edit.specs.Outcome.{NeverMap, CanWrite};
ghost use Rattle.mr_draft.specs.Sheets.{page_map_of, HasAllPages, IsSheets, KeepsSheets, RefusesRead};

use crate::pages::put_page;
use mr_edit::EditErr;
use mr_outside::Shelf;
use mr_pages::{MapFault, MapRule, SECOND_SIZE, put_free, put_node};
use mr_store::CachedFile;
use mr_tree::{Child, Hashes, NodeView, is_view};
use std::alloc::Global;

// Reads the page of the child, and shows its node if it is what is said of the child.
fn read_node<H: Hashes, S: Shelf>(
    file: &mut CachedFile<S>,
    child: &Child,
    into: &mut NodeView,
) -> Result<(), EditErr>
    requires within { child.now.id < file.old.pages }
    requires pages { HasAllPages file.old }
    ensures read { OnOk result (IsRead H.of file.old child.now into.new) }
    ensures node { OnOk result (IfSome (page_map_of file.old)
        (λ b. HasNode b child.now.id (page_node into.new))) }
    ensures only { OnlyReads file.old file.new }
    ensures reads { (state_of file.old).reads ≤ (state_of file.new).reads }
    ensures faults { (state_of file.old).faults ≤ (state_of file.new).faults }
    ensures one { (state_of file.new).reads ≤ (state_of file.old).reads + 1 }
    ensures quiet { OnOk result ((state_of file.new).faults ≡ (state_of file.old).faults) }
    ensures given { IfErr result
        (RefusesRead (page_form file.old) H.of file.old.pages child.now) }
    ensures cause { IfErr result (HasEditCause (state_of file.old).faults
        (state_of file.new).faults) }
    ensures blames_none_told { IfErr result (λ e. NeverMap e
        (CanRead (scheme_of H.of file.old) (page_map_of file.old) child.now)) }
{
    match file.read_node::<H>(child, into) {
        Ok(()) => Ok(()),
        Err(error) => Err(EditErr::from(error)),
    }
}

// Shows the node of the child, whose page is in the file: from the cache, where it is kept, or else
// by a read of its page, which is then kept.
fn show_inside<H: Hashes, S: Shelf>(
    alloc: Global,
    file: &mut CachedFile<S>,
    child: &Child,
    into: &mut NodeView,
) -> Result<(), EditErr>
    requires positive { 1 ≤ child.now.id }
    requires within { child.now.id < file.old.pages }
    requires sheets { IsSheets H.of file.old }
    ensures sheets { IsSheets H.of file.new }
    ensures page { OnOk result (1 ≤ child.now.id) }
    ensures level { OnOk result (level_of into.new ≡ child.now.level) }
    ensures not_empty { OnOk result (1 ≤ size into.new) }
    ensures shown { OnOk result (AreTold file.old.layout.version into.new) }
    ensures node { OnOk result (IfSome (page_map_of file.old)
        (λ b. HasNode b child.now.id (page_node into.new))) }
    ensures same { page_map_of file.new ≡ page_map_of file.old }
    ensures kept { KeepsSheets file.old file.new }
    ensures one { (state_of file.new).reads ≤ (state_of file.old).reads + 1 }
    ensures caches { OnOk result (IsHeld file.new child.now) }
    ensures held { IsHeld file.old child.now →
        (state_of file.new).reads ≡ (state_of file.old).reads }
    ensures found { IsHeld file.old child.now → IsOk result }
    ensures quiet { OnOk result ((state_of file.new).faults ≡ (state_of file.old).faults) }
    ensures given { IfErr result
        (RefusesRead (page_form file.old) H.of file.old.pages child.now) }
    ensures cause { IfErr result (HasEditCause (state_of file.old).faults
        (state_of file.new).faults) }
    ensures blames_none_told { IfErr result (λ e. NeverMap e
        (CanRead (scheme_of H.of file.old) (page_map_of file.old) child.now)) }
{
    if file.recall(child, into) {
        return Ok(());
    }
    read_node::<H, S>(file, child, into)?;
    file.remember(alloc, child, into)?;
    Ok(())
}

// Shows the node of the child: from the cache, where its page is kept, or else by a read of its
// page, which is then kept.
pub(crate) fn show_node<H: Hashes, S: Shelf>(
    alloc: Global,
    file: &mut CachedFile<S>,
    child: &Child,
    into: &mut NodeView,
) -> Result<(), EditErr>
    requires sheets { IsSheets H.of file.old }
    ensures sheets { IsSheets H.of file.new }
    ensures page { OnOk result (1 ≤ child.now.id) }
    ensures level { OnOk result (level_of into.new ≡ child.now.level) }
    ensures not_empty { OnOk result (1 ≤ size into.new) }
    ensures shown { OnOk result (AreTold file.old.layout.version into.new) }
    ensures node { OnOk result (IfSome (page_map_of file.old)
        (λ b. HasNode b child.now.id (page_node into.new))) }
    ensures same { page_map_of file.new ≡ page_map_of file.old }
    ensures kept { KeepsSheets file.old file.new }
    ensures one { (state_of file.new).reads ≤ (state_of file.old).reads + 1 }
    ensures caches { OnOk result (IsHeld file.new child.now) }
    ensures held { IsHeld file.old child.now →
        (state_of file.new).reads ≡ (state_of file.old).reads }
    ensures found { IsHeld file.old child.now → 1 ≤ child.now.id →
        child.now.id < file.old.pages → IsOk result }
    ensures quiet { OnOk result ((state_of file.new).faults ≡ (state_of file.old).faults) }
    ensures given { IfErr result
        (RefusesRead (page_form file.old) H.of file.old.pages child.now) }
    ensures cause { IfErr result (HasEditCause (state_of file.old).faults
        (state_of file.new).faults) }
    ensures blames_none_told { IfErr result (λ e. NeverMap e
        (CanRead (scheme_of H.of file.old) (page_map_of file.old) child.now)) }
{
    if child.id == 0 || child.id >= file.pages {
        return Err(EditErr::Map(MapFault {
            page: child.id,
            rule: MapRule::Outside,
        }));
    }
    show_inside::<H, S>(alloc, file, child, into)
}

// Writes a node on the page of its entry, and keeps it.
pub(crate) fn write_node<H: Hashes, S: Shelf>(
    alloc: Global,
    file: &mut CachedFile<S>,
    child: &Child,
    view: &NodeView,
) -> Result<(), EditErr>
    requires sheets { IsSheets H.of file.old }
    requires page { 1 ≤ child.now.id }
    requires some { 1 ≤ size view.now }
    requires said { IsEntryOf (scheme_of H.of file.old) child.now view.now }
    requires shown { AreTold file.old.layout.version view.now }
    ensures sheets { IsSheets H.of file.new }
    ensures put { OnOk result (page_map_of file.new
        ≡ option_map (with_content child.now.id (node_content (page_node view.now)))
        (page_map_of file.old)) }
    ensures caches { OnOk result (IsHeld file.new child.now) }
    ensures blames_none_told { IfErr result
        (λ e. NeverMap e (CanWrite (page_map_of file.old) child.now.id)) }
    ensures kept { KeepsSheets file.old file.new }
    ensures reads { (state_of file.new).reads ≡ (state_of file.old).reads }
    ensures quiet { OnOk result ((state_of file.new).faults ≡ (state_of file.old).faults) }
    ensures cause { IfErr result (HasEditCause (state_of file.old).faults
        (state_of file.new).faults) }
{
    is_view(view);
    let mut room = [0; SECOND_SIZE];
    let (page, _) = room.split_at_mut(file.layout.size);
    put_node(file.layout, view, page);
    let put = put_page(file, child.id, page);
    file.forget(child.id);
    put?;
    file.remember(alloc, child, view)?;
    Ok(())
}

// Makes a page a free one.
pub(crate) fn free_page<H: Hashes, S: Shelf>(
    file: &mut CachedFile<S>,
    page: u32,
    next: u32,
) -> Result<(), EditErr>
    requires sheets { IsSheets H.of file.old }
    requires page { 1 ≤ page }
    ensures sheets { IsSheets H.of file.new }
    ensures put { OnOk result (page_map_of file.new
        ≡ option_map (with_content page (free_content next)) (page_map_of file.old)) }
    ensures blames_none_told { IfErr result
        (λ e. NeverMap e (CanWrite (page_map_of file.old) page)) }
    ensures kept { KeepsSheets file.old file.new }
    ensures reads { (state_of file.new).reads ≡ (state_of file.old).reads }
    ensures quiet { OnOk result ((state_of file.new).faults ≡ (state_of file.old).faults) }
    ensures cause { IfErr result (HasEditCause (state_of file.old).faults
        (state_of file.new).faults) }
{
    let mut room = [0; SECOND_SIZE];
    let (bytes, _) = room.split_at_mut(file.layout.size);
    put_free(file.layout, next, bytes);
    let put = put_page(file, page, bytes);
    file.forget(page);
    put
}

//! The pages of a file under edit, each written by itself.

ghost use Rattle.std.specs.Prelude.{◌≡◌, ◌+◌, ◌<◌, ◌≤◌, length, replicate, option_map, IfOk, IfErr, OnOk, OnErr, IfSome, IsSomeAnd, ℕ};
ghost use Rattle.mr_outside.specs.Bytes.{AreBytes};
ghost use Rattle.mr_pages.specs.Page.{page_limit};
ghost use Rattle.mr_store.specs.CachedFile.{state_of, name_of, page_form, OnlyReads};
ghost use Rattle.mr_edit.specs.PageMap.{HasFree, with_content, longer};
ghost use Rattle.mr_edit.specs.Causes.{HasEditCause};
ghost use Rattle.mr_edit.specs.Outcome.{NeverMap, CanWrite};
ghost use Rattle.mr_edit.specs.Shelves.{HasShelfCause};
ghost use Rattle.mr_draft.specs.Sheets.{content_of, page_map_on, page_map_of, zeros, ArePages, HasAllPages, KeepsSheets, OnlyWrites, ChangesPage, LosesPages};

use mr_edit::EditErr;
use mr_outside::Shelf;
use mr_pages::{MapFault, MapRule, PAGE_LIMIT, SECOND_SIZE};
use mr_store::CachedFile;

// Makes all bytes zeros.
fn clear_all(bytes: &mut [u8])
    ensures { bytes.new ≡ replicate (length bytes.old) 0 }
{
    bytes.fill(0);
}

// Makes all bytes of a page zeros.
pub(crate) fn clear(page: &mut [u8])
    ensures { page.new ≡ zeros (length page.old) }
{
    clear_all(page);
}

// What the type tells of its values.
fn are_bytes(_bytes: &[u8])
    ensures { AreBytes _bytes.now }
{}

// Writes a page from its place on.
fn write_at<S: Shelf>(file: &mut CachedFile<S>, page: u32, bytes: &[u8]) -> Result<(), EditErr>
    requires size { length bytes.now ≡ file.old.layout.size }
    requires low { 1 ≤ page }
    requires within { page < file.old.pages }
    requires pages { HasAllPages file.old }
    ensures pages { HasAllPages file.new }
    ensures put { OnOk result (page_map_of file.new
        ≡ option_map (with_content page (content_of (page_form file.old) bytes.now))
        (page_map_of file.old)) }
    ensures others { ChangesPage page (page_map_of file.old) (page_map_of file.new) }
    ensures kept { KeepsSheets file.old file.new }
    ensures only { OnlyWrites file.old file.new }
    ensures reads { (state_of file.new).reads ≡ (state_of file.old).reads }
    ensures quiet { OnOk result ((state_of file.new).faults ≡ (state_of file.old).faults) }
    ensures cause { IfErr result (HasShelfCause (state_of file.old).faults
        (state_of file.new).faults) }
{
    are_bytes(bytes);
    let at = page as u64 * file.layout.size as u64;
    match file.shelf.write_at(file.name.as_str(), at, bytes) {
        Ok(()) => Ok(()),
        Err(error) => Err(EditErr::from(error)),
    }
}

// Writes a page but page 0.
pub(crate) fn put_page<S: Shelf>(
    file: &mut CachedFile<S>,
    page: u32,
    bytes: &[u8],
) -> Result<(), EditErr>
    requires size { length bytes.now ≡ file.old.layout.size }
    requires low { 1 ≤ page }
    requires pages { HasAllPages file.old }
    ensures pages { HasAllPages file.new }
    ensures put { OnOk result (page_map_of file.new
        ≡ option_map (with_content page (content_of (page_form file.old) bytes.now))
        (page_map_of file.old)) }
    ensures others { ChangesPage page (page_map_of file.old) (page_map_of file.new) }
    ensures kept { KeepsSheets file.old file.new }
    ensures only { OnlyWrites file.old file.new }
    ensures reads { (state_of file.new).reads ≡ (state_of file.old).reads }
    ensures quiet { OnOk result ((state_of file.new).faults ≡ (state_of file.old).faults) }
    ensures cause { IfErr result (HasEditCause (state_of file.old).faults
        (state_of file.new).faults) }
    ensures blames_none_told { IfErr result
        (λ e. NeverMap e (CanWrite (page_map_of file.old) page)) }
{
    if page >= file.pages {
        return Err(EditErr::Map(MapFault {
            page,
            rule: MapRule::Outside,
        }));
    }
    write_at::<S>(file, page, bytes)
}

// Appends a page of zeros, which is not counted yet.
fn append_page<S: Shelf>(file: &mut CachedFile<S>) -> Result<(), EditErr>
    requires pages { HasAllPages file.old }
    requires few { file.old.pages < page_limit }
    ensures more { OnOk result (ArePages (page_form file.old) (state_of file.new).files
        (name_of file.old) (file.old.pages + 1)) }
    ensures pages { HasAllPages file.new }
    ensures told { OnOk result (page_map_on (page_form file.old) (state_of file.new).files
        (name_of file.old) (file.old.pages + 1) ≡ option_map longer (page_map_of file.old)) }
    ensures loses { OnErr result (LosesPages (page_map_of file.old) (page_map_of file.new)) }
    ensures kept { KeepsSheets file.old file.new }
    ensures only { OnlyWrites file.old file.new }
    ensures reads { (state_of file.new).reads ≡ (state_of file.old).reads }
    ensures quiet { OnOk result ((state_of file.new).faults ≡ (state_of file.old).faults) }
    ensures cause { IfErr result (HasShelfCause (state_of file.old).faults
        (state_of file.new).faults) }
{
    let mut room = [1; SECOND_SIZE];
    let (page, _) = room.split_at_mut(file.layout.size);
    clear(page);
    match file.shelf.append(file.name.as_str(), page) {
        Ok(()) => Ok(()),
        Err(error) => Err(EditErr::from(error)),
    }
}

// Adds a page of zeros at the end, and answers its number.
pub(crate) fn add_page<S: Shelf>(file: &mut CachedFile<S>) -> Result<u32, EditErr>
    requires { HasAllPages file.old }
    ensures number { IfOk result (λ page. page ≡ file.old.pages) }
    ensures not_empty { OnOk result (1 ≤ file.old.pages) }
    ensures small { OnOk result (file.old.pages < page_limit) }
    ensures one { OnOk result (file.new.pages ≡ file.old.pages + 1) }
    ensures pages { HasAllPages file.new }
    ensures told { OnOk result (page_map_of file.new ≡ option_map longer (page_map_of file.old)) }
    ensures loses { OnErr result (LosesPages (page_map_of file.old) (page_map_of file.new)) }
    ensures same { OnErr result (file.new.pages ≡ file.old.pages) }
    ensures kept { KeepsSheets file.old file.new }
    ensures cache { file.new.cache ≡ file.old.cache }
    ensures reads { (state_of file.new).reads ≡ (state_of file.old).reads }
    ensures quiet { OnOk result ((state_of file.new).faults ≡ (state_of file.old).faults) }
    ensures cause { IfErr result (HasEditCause (state_of file.old).faults
        (state_of file.new).faults) }
    ensures blames_none_told { IfErr result (λ e. NeverMap e
        (IsSomeAnd (page_map_of file.old) (λ b. b.size < page_limit))) }
{
    let page = file.pages;
    if page == 0 {
        return Err(EditErr::Map(MapFault {
            page: 0,
            rule: MapRule::Page,
        }));
    }
    if page >= PAGE_LIMIT {
        return Err(EditErr::Map(MapFault {
            page: 0,
            rule: MapRule::Page,
        }));
    }
    append_page::<S>(file)?;
    file.pages = page + 1;
    Ok(page)
}

// The page that a free page names.
pub(crate) fn next_free<S: Shelf>(file: &mut CachedFile<S>, page: u32) -> Result<u32, EditErr>
    requires low { 1 ≤ page }
    requires pages { HasAllPages file.old }
    ensures free { IfOk result (λ next. IfSome (page_map_of file.old) (λ b. HasFree b page next)) }
    ensures blames_none_told { IfErr result (λ e. NeverMap e (IsSomeAnd (page_map_of file.old)
        (λ b. (next : ℕ) × HasFree b page next))) }
    ensures only { OnlyReads file.old file.new }
    ensures reads { (state_of file.old).reads ≤ (state_of file.new).reads }
    ensures faults { (state_of file.old).faults ≤ (state_of file.new).faults }
    ensures one { (state_of file.new).reads ≤ (state_of file.old).reads + 1 }
    ensures quiet { OnOk result ((state_of file.new).faults ≡ (state_of file.old).faults) }
    ensures cause { IfErr result (HasEditCause (state_of file.old).faults
        (state_of file.new).faults) }
{
    if page >= file.pages {
        return Err(EditErr::Map(MapFault {
            page,
            rule: MapRule::Page,
        }));
    }
    match file.read_free(page) {
        Ok(Some(next)) => Ok(next),
        Ok(None) => Err(EditErr::Map(MapFault {
            page,
            rule: MapRule::Page,
        })),
        Err(error) => Err(EditErr::from(error)),
    }
}

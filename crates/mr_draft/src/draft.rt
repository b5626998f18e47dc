//! A draft of a map.

ghost use Rattle.std.specs.Prelude.{◌≡◌, ◌≢◌, ◌+◌, ◌≤◌, ◌↔◌, All, IfOk, IfErr, OnOk, MatchResult, IsTrue};
ghost use Rattle.std.specs.String.{string_bytes};
ghost use Rattle.mr_tree.specs.Digest.{by};
ghost use Rattle.mr_tree.specs.declared.tree.Tree.{Tree};
ghost use Rattle.mr_pages.specs.Page.{page_limit};
ghost use Rattle.mr_store.specs.CachedFile.{state_of, scheme_of};
ghost use Rattle.mr_edit.specs.Causes.{HasEditCause};
ghost use Rattle.mr_edit.specs.Changing.{CanReplay};
ghost use Rattle.mr_edit.specs.Counted.{ReplaysWithin};
ghost use Rattle.mr_edit.specs.Outcome.{IsLow, IsOfRoot, NeverMap, root_page};
ghost use Rattle.mr_edit.specs.Reads.{reads_along};
ghost use Rattle.mr_edit.specs.Replayed.{IsOfVersion, ReplaysBatch, StopsReplay};
ghost use Rattle.mr_edit.specs.Shelves.{HasShelfCause};
ghost use Rattle.mr_draft.specs.Draft.{draft_state, draft_of, shelved, IsTop, IsOff, CopiesMap, CopyFails, CanApply, AppliesBatch, StopsBatch, KeepsDraft};
ghost use Rattle.mr_draft.specs.Sheets.{page_map_of, KeepsSheets};

use crate::copying::copy_file;
use crate::sheets::Sheets;
use crate::versioned::{First, Second, StaticVersion, Versioned};
use mr_batch::{Batch, Directory};
use mr_edit::{EditErr, Pager, replay};
use mr_outside::Shelf;
use mr_pages::{MapFault, MapHead, MapRule};
use mr_record::Version;
use mr_store::{CachedFile, Paged};
use mr_tree::{COUNT_LIMIT, Child, Hash32, Hashes};
use std::alloc::Global;
use std::marker::PhantomData;

/// A copy of a map's file on which changes are made, page by page, in the map's version. Its file
/// is no map until it is sealed. After a refusal it can only be closed.
pub struct Draft<S: Shelf, H: Hashes> {
    pub(crate) alloc: Global,
    pub(crate) sheets: Sheets<S, H>,
    pub(crate) free: u32,
    pub(crate) root: Option<Child>,
    pub(crate) count: u64,
    pub(crate) batch: u64,
}

// The draft of a map whose page 0 says this, over the copy of its pages.
fn over<S: Shelf, H: Hashes>(alloc: Global, sheets: Sheets<S, H>, head: &MapHead) -> Draft<S, H>
    ensures { draft_of result ≡ draft_state sheets.file head.now.free head.now.root head.now.count
        head.now.batch }
{
    Draft {
        alloc,
        sheets,
        free: head.free,
        root: head.root,
        count: head.count,
        batch: head.batch,
    }
}

/// Copies the pages of a map's file to a new file, all but page 0, which is left zeros. The shelf
/// is handed back beside a refusal.
pub fn copy_map<S: Shelf, H: Hash32>(
    alloc: Global,
    old: Paged<S, H>,
    new: &str,
) -> Result<Draft<S, H>, (S, EditErr)>
    requires { string_bytes old.file.name ≢ new.now }
    ensures { MatchResult result
        (λ d. CopiesMap H.of old.file old.head new.now (draft_of d))
        (λ r. CopyFails H.of old.head (state_of old.file) new.now (S.state r.0) r.1) }
{
    let (file, head) = old.into_parts();
    let CachedFile {
        shelf,
        name,
        layout,
        pages,
        cache: _,
    } = file;
    match CachedFile::new(alloc, shelf, new, layout, pages) {
        Err(failed) => Err((failed.value, EditErr::NoMemory)),
        Ok(made) => {
            let mut made = made;
            match copy_file(alloc, &mut made, name.as_str()) {
                Err(error) => Err((made.close(), error)),
                Ok(()) => {
                    let sheets = Sheets {
                        alloc,
                        file: made,
                        hash: PhantomData,
                    };
                    Ok(over::<S, H>(alloc, sheets, &head))
                }
            }
        }
    }
}

// Whether a map may have so many records and this root.
fn is_top(count: u64, root: &Option<Child>) -> bool
    ensures { IsTrue result ↔ IsTop count root.now }
{
    match root {
        None => count == 0,
        Some(_) => count != 0 && count <= COUNT_LIMIT,
    }
}

// The page of a root node, 0 where there is none.
fn page_of(root: &Option<Child>) -> u32
    ensures { result ≡ root_page root.now }
{
    match root {
        None => 0,
        Some(child) => child.id,
    }
}

// Refuses a count that does not fit the root.
fn judge_top(count: u64, root: &Option<Child>) -> Result<(), EditErr>
    ensures off { IfErr result (IsOff count root.now) }
    ensures top { OnOk result (IsTop count root.now) }
{
    if !is_top(count, root) {
        return Err(EditErr::Map(MapFault {
            page: page_of(root),
            rule: MapRule::Page,
        }));
    }
    Ok(())
}

// A file in this version, of which nothing was seen.
fn pager_of<'a, S: Shelf, H: Hashes, V: StaticVersion>(
    alloc: Global,
    sheets: &'a mut Sheets<S, H>,
    free: u32,
) -> Pager<Versioned<'a, S, H, V>>
    requires { sheets.old.file.layout.version ≡ V.version }
    ensures same_reference { result.file.sheets.ghost_name ≡ sheets.entry.ghost_name }
    ensures sheets { result.file.sheets.now ≡ sheets.old }
    ensures free { result.free ≡ free }
{
    let lent = Versioned::<'a, S, H, V> {
        sheets,
        version: PhantomData,
    };
    Pager::new(alloc, lent, free)
}

// The file again.
fn sheets_of<'a, S: Shelf, H: Hashes, V: StaticVersion>(
    pager: Pager<Versioned<'a, S, H, V>>,
) -> &'a mut Sheets<S, H>
    ensures same_reference { result.ghost_name ≡ pager.entry.file.sheets.ghost_name }
    ensures sheets { result.now ≡ pager.entry.file.sheets.now }
{
    let Versioned { sheets, version: _ } = pager.into_file();
    sheets
}

// Makes the changes of a batch on the pages of a file in this version, from a first free page and
// a root, and answers the first free page then. Root and directory follow, as far as the changes
// come.
fn replay_in<'a, S: Shelf, H: Hashes, V: StaticVersion>(
    alloc: Global,
    sheets: &'a mut Sheets<S, H>,
    free: u32,
    root: &mut Option<Child>,
    dir: &mut Directory,
    batch: &Batch,
) -> Result<u32, EditErr>
    requires version { sheets.old.file.layout.version ≡ V.version }
    requires batch { All (IsOfVersion sheets.old.file.layout.version) batch.now.list }
    ensures replays { IfOk result (λ f. ReplaysBatch (by V.version H.of)
        (page_map_of sheets.old.file) free root.old dir.old (page_map_of sheets.new.file) f
        root.new dir.new batch.now) }
    ensures stops { IfErr result (StopsReplay (by V.version H.of) (page_map_of sheets.old.file)
        free root.old dir.old batch.now root.new dir.new) }
    ensures page { IfErr result (IsOfRoot (root_page root.new)) }
    ensures kept { KeepsSheets sheets.old.file sheets.new.file }
    ensures within { ReplaysWithin (by V.version H.of) (page_map_of sheets.old.file)
        free root.old dir.old batch.now (state_of sheets.old.file).reads
        (state_of sheets.new.file).reads }
    ensures quiet { OnOk result
        ((state_of sheets.new.file).faults ≡ (state_of sheets.old.file).faults) }
    ensures low { IsLow root.old → IsLow root.new }
    ensures cause { IfErr result (HasEditCause (state_of sheets.old.file).faults
        (state_of sheets.new.file).faults) }
    ensures blames_none_told { IfErr result (λ e. NeverMap e (CanReplay (by V.version H.of)
        (page_map_of sheets.old.file) free root.old dir.old batch.now)) }
{
    let mut pager = pager_of::<S, H, V>(alloc, sheets, free);
    let replayed = replay::<Versioned<'a, S, H, V>>(alloc, &mut pager, root, dir, batch);
    let free = pager.free;
    let _sheets = sheets_of(pager);
    match replayed {
        Ok(()) => Ok(free),
        Err(error) => Err(error),
    }
}

// The same in the file's version.
fn replay_any<S: Shelf, H: Hashes>(
    alloc: Global,
    sheets: &mut Sheets<S, H>,
    free: u32,
    root: &mut Option<Child>,
    dir: &mut Directory,
    batch: &Batch,
) -> Result<u32, EditErr>
    requires { All (IsOfVersion sheets.old.file.layout.version) batch.now.list }
    ensures replays { IfOk result (λ f. ReplaysBatch (scheme_of H.of sheets.old.file)
        (page_map_of sheets.old.file) free root.old dir.old (page_map_of sheets.new.file) f
        root.new dir.new batch.now) }
    ensures stops { IfErr result (StopsReplay (scheme_of H.of sheets.old.file)
        (page_map_of sheets.old.file) free root.old dir.old batch.now root.new dir.new) }
    ensures page { IfErr result (IsOfRoot (root_page root.new)) }
    ensures kept { KeepsSheets sheets.old.file sheets.new.file }
    ensures within { ReplaysWithin (scheme_of H.of sheets.old.file) (page_map_of sheets.old.file)
        free root.old dir.old batch.now (state_of sheets.old.file).reads
        (state_of sheets.new.file).reads }
    ensures quiet { OnOk result
        ((state_of sheets.new.file).faults ≡ (state_of sheets.old.file).faults) }
    ensures low { IsLow root.old → IsLow root.new }
    ensures cause { IfErr result (HasEditCause (state_of sheets.old.file).faults
        (state_of sheets.new.file).faults) }
    ensures blames_none_told { IfErr result
        (λ e. NeverMap e (CanReplay (scheme_of H.of sheets.old.file)
        (page_map_of sheets.old.file) free root.old dir.old batch.now)) }
{
    match sheets.file.layout.version {
        Version::One => replay_in::<S, H, First>(alloc, sheets, free, root, dir, batch),
        Version::Two => replay_in::<S, H, Second>(alloc, sheets, free, root, dir, batch),
    }
}

impl<S: Shelf, H: Hashes> Draft<S, H> {
    /// Makes the changes of a batch on the pages. The directory, which is that of the map's
    /// records, follows them. Each record that comes has a layer of the map's version. Where a
    /// change is refused, root and directory are those of the map as the changes before it left
    /// it, if the files are told.
    ///
    /// Where the files are told, the batch is to be one that may be applied to the map. Where they
    /// are not, `Page` blames besides what the changes blame; and the root, or page 0 where there
    /// is none, where a map may not have so many records and this root.
    pub fn apply_batch(&mut self, dir: &mut Directory, batch: &Batch) -> Result<(), EditErr>
        requires { All (IsOfVersion self.old.sheets.file.layout.version) batch.now.list }
        ensures applies { OnOk result (AppliesBatch H.of (draft_of self.old) dir.old batch.now
            (draft_of self.new) dir.new) }
        ensures batch { OnOk result (self.new.batch ≡ batch.now.number) }
        // Whether or not the files are told, a map may have so many records and this root.
        ensures top { OnOk result (IsTop self.new.count self.new.root) }
        ensures low { OnOk result (IsLow self.old.root → IsLow self.new.root) }
        // Whether a change is refused or the count. At a change, root and directory are those that
        // it met, and `Page` blames page 0 only where the root's page is 0. At the count, it blames
        // the root's page.
        ensures stops { IfErr result (StopsBatch H.of (draft_of self.old) dir.old batch.now
            (draft_of self.new) dir.new) }
        ensures at_most { self.new.sheets.file.pages ≤ page_limit }
        ensures kept { KeepsDraft H.of (draft_of self.old) (draft_of self.new) }
        ensures quiet { OnOk result ((shelved self.new).faults ≡ (shelved self.old).faults) }
        ensures cause { IfErr result (HasEditCause (shelved self.old).faults
            (shelved self.new).faults) }
        // Where the files are told, the changes read no more pages than this.
        ensures within { (t : Tree) → CanApply H.of (draft_of self.old) dir.old batch.now t →
            (shelved self.new).reads ≤ (shelved self.old).reads + reads_along t batch.now.list }
        // Where the files are told, no page is blamed.
        ensures blames_none_told { (t : Tree) → CanApply H.of (draft_of self.old) dir.old
            batch.now t →
            IfErr result (HasShelfCause (shelved self.old).faults (shelved self.new).faults) }
    {
        let free = replay_any::<S, H>(
            self.alloc,
            &mut self.sheets,
            self.free,
            &mut self.root,
            dir,
            batch,
        )?;
        self.free = free;
        self.count = dir.len() as u64;
        self.batch = batch.number();
        judge_top(self.count, &self.root)
    }

    /// The shelf, as it stands.
    pub fn close(self) -> S
        ensures { result ≡ self.sheets.file.shelf }
    {
        let Draft {
            alloc: _,
            sheets,
            free: _,
            root: _,
            count: _,
            batch: _,
        } = self;
        sheets.into_file().close()
    }
}

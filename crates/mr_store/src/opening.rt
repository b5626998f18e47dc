//! Maps that are opened page by page.

ghost use Rattle.std.specs.Prelude.{◌≡◌, ◌≤◌, ◌+◌, ℕ, List, [], ⊤, length, true, IfOk, IfErr, IfSome, None, OnOk, OnErr, MatchResult};
ghost use Rattle.mr_outside.specs.Told.{OfFile};
ghost use Rattle.mr_outside.specs.Bytes.{AreBytes};
ghost use Rattle.mr_tree.specs.Tree.{records};
ghost use Rattle.mr_batch.specs.Directory.{IsDirectoryOf};
ghost use Rattle.mr_pages.specs.Page.{page_limit};
ghost use Rattle.mr_pages.specs.PageBytes.{page_size, layout_by, form_of, IsLayout};
ghost use Rattle.mr_pages.specs.File.{version_of};
ghost use Rattle.mr_pages.specs.Opening.{pages_in};
ghost use Rattle.mr_pages.specs.Source.{IsFrontOfFile};
ghost use Rattle.mr_pages.specs.private.Walks.{IsPaged};
ghost use Rattle.mr_store.specs.CachedFile.{name_of, page_form, OfBytes};
ghost use Rattle.mr_store.specs.Opening.{WasChecked, TellsMap, IsOpened, IsOpeningRefused, OpensFile, RefusesFile, OpensMap, RefusesFront, RefusesMap};
ghost use Rattle.mr_store.specs.Paged.{stands_for};
ghost use Rattle.mr_store.specs.Stored.{top_in, IsListedAs};
ghost use Rattle.mr_store.specs.private.Listing.{ListsRecords};

use crate::cached_file::CachedFile;
use crate::listing::gathered;
use crate::paged::Paged;
use crate::paging::Paging;
use crate::record_list::RecordList;
use mr_batch::Directory;
use mr_geom::Rect;
use mr_outside::Shelf;
use mr_pages::{
    Layout, MapErr, MapFault, MapHead, MapRule, PAGE_SIZE, SECOND_SIZE, check, page_count,
    read_front,
};
use mr_tree::{Hash32, Hashes};
use std::alloc::Global;
use std::marker::PhantomData;

// What is known of a file before its nodes are read.
#[derive(Clone, Copy)]
struct Front {
    layout: Layout,
    pages: u32,
}

// The file has no whole pages, or too many.
const SIZE_FAULT: MapErr = MapErr::Map(MapFault {
    page: 0,
    rule: MapRule::Size,
});

// What every hash function keeps to.
fn are_sized<H: Hashes>()
    ensures { (bytes : List ℕ) → length (H.of bytes) ≡ 32 }
{}

// How the pages of a file are laid out and how many there are. What stands in its front is left in
// the room.
fn read_first<H: Hashes, S: Shelf>(
    shelf: &mut S,
    name: &str,
    room: &mut [u8; SECOND_SIZE],
) -> Result<Front, MapErr>
    ensures are { OfFile (S.state shelf.old).files name.now ⊤ AreBytes }
    ensures version { IfOk result (λ f. f.layout ≡ layout_by (version_of room.new)) }
    ensures fits { IfOk result (λ f. IsLayout f.layout) }
    ensures sized { IfOk result
        (λ f. f.layout.size ≡ (layout_by f.layout.version).size) }
    ensures large { OnOk result (OfFile (S.state shelf.old).files name.now ⊥
        (λ bytes. page_size ≤ length bytes)) }
    ensures paged { IfOk result (λ f. IsPaged (form_of f.layout) f.pages (S.state shelf.old).files
        name.now) }
    ensures not_empty { IfOk result (λ f. 1 ≤ f.pages) }
    ensures at_most { IfOk result (λ f. f.pages ≤ page_limit) }
    ensures front { OnOk result (OfFile (S.state shelf.old).files name.now ⊥
        (λ bytes. IsFrontOfFile bytes room.new)) }
    ensures refused { IfErr result
        (RefusesFront H.of name.now (S.state shelf.old) (S.state shelf.new)) }
    ensures files { (S.state shelf.new).files ≡ (S.state shelf.old).files }
    ensures faults { (S.state shelf.old).faults ≤ (S.state shelf.new).faults }
    ensures more { (S.state shelf.old).reads ≤ (S.state shelf.new).reads }
    ensures one { (S.state shelf.new).reads ≤ (S.state shelf.old).reads + 1 }
    ensures reads { OnErr result (OfFile (S.state shelf.old).files name.now
        ((S.state shelf.new).reads ≡ (S.state shelf.old).reads)
        (λ bytes. (S.state shelf.new).reads ≤ (S.state shelf.old).reads + pages_in bytes)) }
    ensures quiet { OnOk result ((S.state shelf.new).faults ≡ (S.state shelf.old).faults) }
{
    let size = shelf.size(name)?;
    if size < PAGE_SIZE as u64 {
        return Err(SIZE_FAULT);
    }
    let version = read_front(shelf, name, size, room)?;
    let layout = Layout::by(version);
    match page_count(layout, size) {
        None => Err(SIZE_FAULT),
        Some(pages) => Ok(Front { layout, pages }),
    }
}

// The map whose pages were checked, and what was listed of it.
fn over<S: Shelf, H: Hash32>(
    alloc: Global,
    paging: Paging<'_, S, H>,
    head: MapHead,
) -> (Paged<S, H>, Vec<(u64, Rect)>)
    requires { WasChecked H.of paging.file head }
    ensures file { result.0.file ≡ paging.entry.file }
    ensures head { result.0.head ≡ head }
    ensures fetches { result.0.fetches ≡ 0 }
    ensures refusal { result.0.refusal ≡ None }
    ensures answers { OfBytes result.0.file ⊥
        (TellsMap (page_form paging.entry.file) H.of (stands_for result.0)) }
    ensures list { result.1 ≡ paging.entry.list.entries }
{
    let Paging {
        file,
        first: _,
        list,
        hash: _,
    } = paging;
    are_sized::<H>();
    (Paged::over(alloc, file, head), list.entries)
}

// The map whose pages are these, or its first fault; and the number and the rectangle of each of
// its records, where they are wanted.
fn checked<'a, S: Shelf, H: Hash32>(
    alloc: Global,
    paging: Paging<'a, S, H>,
) -> Result<(Paged<S, H>, Vec<(u64, Rect)>), (S, MapErr)>
    ensures opened { MatchResult result (λ r. OpensFile H.of paging.entry.file r.0)
        (λ r. RefusesFile H.of paging.entry.file (S.state r.0) r.1) }
    ensures unrefused { IfOk result (λ r. r.0.refusal ≡ None) }
    ensures listed { paging.entry.list.wanted ≡ true → paging.entry.list.entries.items ≡ [] →
        IfOk result (λ r. ListsRecords H.of r.0.file r.0.head r.1.items) }
{
    let mut paging = paging;
    match check::<Paging<'a, S, H>>(alloc, &mut paging) {
        Ok(checked) => Ok(over::<S, H>(alloc, paging, checked.head)),
        Err(error) => Err((given_up::<S, H>(paging), error)),
    }
}

fn given_up<S: Shelf, H: Hashes>(paging: Paging<'_, S, H>) -> S
    ensures { result ≡ paging.entry.file.shelf }
{
    let Paging {
        file,
        first: _,
        list: _,
        hash: _,
    } = paging;
    file.close()
}

// The map in a file of so many pages, whose front was read into the room; and what is listed of it,
// where that is wanted.
fn opened<S: Shelf, H: Hash32>(
    alloc: Global,
    shelf: S,
    name: &str,
    front: Front,
    room: &[u8; SECOND_SIZE],
    wanted: bool,
) -> Result<(Paged<S, H>, Vec<(u64, Rect)>), (S, MapErr)>
    requires fits { IsLayout front.layout }
    requires sized { front.layout.size ≡ (layout_by front.layout.version).size }
    requires are { OfFile (S.state shelf).files name.now ⊤ AreBytes }
    requires paged { IsPaged (form_of front.layout) front.pages (S.state shelf).files name.now }
    requires some { 1 ≤ front.pages }
    requires few { front.pages ≤ page_limit }
    requires front { OfFile (S.state shelf).files name.now ⊥
        (λ bytes. IsFrontOfFile bytes room.now) }
    ensures opened { MatchResult result
        (λ r. IsOpened H.of name.now front.layout front.pages (S.state shelf) r.0)
        (λ r. IsOpeningRefused H.of name.now front.layout front.pages (S.state shelf)
        (S.state r.0) r.1) }
    ensures unrefused { IfOk result (λ r. r.0.refusal ≡ None) }
    ensures listed { wanted ≡ true →
        IfOk result (λ r. ListsRecords H.of r.0.file r.0.head r.1.items) }
{
    match CachedFile::<S>::new(alloc, shelf, name, front.layout, front.pages) {
        Err(failed) => Err((failed.value, MapErr::NoMemory)),
        Ok(file) => {
            let (first, _) = room.split_at(front.layout.size);
            let list = RecordList {
                wanted,
                entries: Vec::new(alloc),
            };
            checked::<S, H>(
                alloc,
                Paging {
                    file,
                    first,
                    list,
                    hash: PhantomData,
                },
            )
        }
    }
}

// The map in a file of the shelf; and the number and the rectangle of each of its records, where
// they are wanted.
fn open_named<S: Shelf, H: Hash32>(
    alloc: Global,
    shelf: S,
    name: &str,
    wanted: bool,
) -> Result<(Paged<S, H>, Vec<(u64, Rect)>), (S, MapErr)>
    ensures opened { MatchResult result (λ r. OpensMap H.of name.now (S.state shelf) r.0)
        (λ r. RefusesMap H.of name.now (S.state shelf) (S.state r.0) r.1) }
    ensures unrefused { IfOk result (λ r. r.0.refusal ≡ None) }
    ensures listed { wanted ≡ true →
        IfOk result (λ r. ListsRecords H.of r.0.file r.0.head r.1.items) }
{
    are_sized::<H>();
    let mut shelf = shelf;
    let mut room = [0; SECOND_SIZE];
    match read_first::<H, S>(&mut shelf, name, &mut room) {
        Err(error) => Err((shelf, error)),
        Ok(front) => opened::<S, H>(alloc, shelf, name, front, &room, wanted),
    }
}

impl<S: Shelf, H: Hash32> Paged<S, H> {
    /// Opens the map in a file of the shelf, which is handed back beside a refusal.
    ///
    /// Each page is read at most once, and checked; up to 256 nodes are kept. Where 256 are kept as
    /// a map is opened, an inner node takes the place of the one that was kept first, and a leaf is
    /// not kept. Once it is fetched, each node is kept.
    /// The file's length is what `size` gives, and what a read gives short counts as zeros. It is
    /// read in version 2 where its byte 4 is 2, else in version 1; one that is smaller than any
    /// page is not read at all.
    pub fn open_map(alloc: Global, shelf: S, name: &str) -> Result<Paged<S, H>, (S, MapErr)>
        ensures opened { MatchResult result (OpensMap H.of name.now (S.state shelf))
            (λ r. RefusesMap H.of name.now (S.state shelf) (S.state r.0) r.1) }
        // No fetch was refused yet.
        ensures unrefused { IfOk result (λ p. p.refusal ≡ None) }
    {
        match open_named::<S, H>(alloc, shelf, name, false) {
            Ok((paged, _)) => Ok(paged),
            Err(refused) => Err(refused),
        }
    }

    /// The same with the directory of the map: the number and the rectangle of each of its records,
    /// which are taken from its pages as these are checked.
    pub fn open_listed(
        alloc: Global,
        shelf: S,
        name: &str,
    ) -> Result<(Paged<S, H>, Directory), (S, MapErr)>
        ensures opened { MatchResult result (λ r. OpensMap H.of name.now (S.state shelf) r.0)
            (λ r. RefusesMap H.of name.now (S.state shelf) (S.state r.0) r.1) }
        // No fetch was refused yet.
        ensures unrefused { IfOk result (λ r. r.0.refusal ≡ None) }
        ensures lists { IfOk result (λ r. IfSome (stands_for r.0).tree
            (λ t. IsDirectoryOf r.1 (records t))) }
        // Told or not, it is of a map that says of itself what page 0 says, without a fetch.
        ensures says { IfOk result (λ r.
            IsListedAs H.of (top_in r.0.file.layout.version r.0.head) 0 0 r.1) }
    {
        match open_named::<S, H>(alloc, shelf, name, true) {
            Err(refused) => Err(refused),
            Ok((paged, all)) => match gathered(alloc, all) {
                Ok(dir) => Ok((paged, dir)),
                Err(_) => Err((paged.close(), MapErr::NoMemory)),
            },
        }
    }
}

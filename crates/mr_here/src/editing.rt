//! A map that is changed in memory, on files that are told.

ghost use Rattle.std.specs.Prelude.{◌≡◌, ◌≢◌, All, List, ℕ, Some, IfSome, OnOk};
ghost use Rattle.mr_tree.specs.Tree.{records};
ghost use Rattle.mr_tree.specs.declared.tree.Tree.{Tree};
ghost use Rattle.mr_pages.specs.Law.{map_in};
ghost use Rattle.mr_pages.specs.Source.{told_bytes};
ghost use Rattle.mr_batch.specs.Applied.{IsAdmissible};
ghost use Rattle.mr_batch.specs.Changes.{IsLayered};
ghost use Rattle.mr_batch.specs.Directory.{IsDirectoryOf};
ghost use Rattle.mr_store.specs.CachedFile.{name_of};
ghost use Rattle.mr_store.specs.Paged.{shelved, stands_for};
ghost use Rattle.mr_edit.specs.Replayed.{IsOfVersion};
ghost use Rattle.mr_here.specs.private.Forming.{of_edit, of_map, of_sealed, KeepsOthers, MakesMap, AdmitsBatch, JudgesBatch, EditsFile};

use crate::error::HereErr;
use crate::layers::lacks;
use mr_batch::{Batch, Directory, admit};
use mr_draft::copy_map;
use mr_edit::EditErr;
use mr_outside::Shelf;
use mr_pages::MapErr;
use mr_store::Paged;
use mr_tree::{Hash32, Nodes};
use std::alloc::Global;

// Why a copy was not changed.
fn unchanged(error: &EditErr) -> HereErr
    ensures { result ≡ of_edit error.now }
{
    match error {
        EditErr::Map(fault) => HereErr::Map(*fault),
        EditErr::Missing => HereErr::NoMemory,
        EditErr::Fault => HereErr::NoMemory,
        EditErr::NoMemory => HereErr::NoMemory,
    }
}

// Why a file was not opened.
fn unopened(error: &MapErr) -> HereErr
    ensures { result ≡ of_map error.now }
{
    match error {
        MapErr::Map(fault) => HereErr::Map(*fault),
        MapErr::Missing => HereErr::NoMemory,
        MapErr::Fault => HereErr::NoMemory,
        MapErr::NoMemory => HereErr::NoMemory,
    }
}

// The root digest of a copy that was made a map, or why it was not.
fn digest_of(sealed: &Result<[u8; 32], EditErr>) -> Result<[u8; 32], HereErr>
    ensures { result ≡ of_sealed sealed.now }
{
    match sealed {
        Ok(digest) => Ok(*digest),
        Err(error) => Err(unchanged(error)),
    }
}

// The map after a batch that may be applied to it, made of a copy of its file, and its root. The
// directory is that of the map's records.
fn change<H: Hash32, S: Shelf>(
    alloc: Global,
    new: &str,
    paged: Paged<S, H>,
    dir: Directory,
    batch: &Batch,
) -> (Result<[u8; 32], HereErr>, S)
    requires names { name_of paged.file ≢ new.now }
    requires layers { All (IsOfVersion (stands_for paged).version) batch.now.list }
    ensures made { (t : Tree) → (stands_for paged).tree ≡ Some t → IsDirectoryOf dir (records t)
        → IsAdmissible (records t) paged.head.batch batch.now
        → MakesMap H.of new.now paged.head.pages
        (map_in (stands_for paged).version t paged.head.batch) batch.now (S.state result.1).files
        result.0 }
    ensures others { OnOk result.0 (KeepsOthers new.now (shelved paged).files
        (S.state result.1).files) }
{
    match copy_map::<S, H>(alloc, paged, new) {
        Err((shelf, error)) => (Err(unchanged(&error)), shelf),
        Ok(draft) => {
            let mut dir = dir;
            let mut draft = draft;
            match draft.apply_batch(&mut dir, batch) {
                Err(error) => (Err(unchanged(&error)), draft.close()),
                Ok(()) => {
                    let (shelf, sealed) = draft.seal();
                    (digest_of(&sealed), shelf)
                }
            }
        }
    }
}

// The map after a batch whose layers it may have, and its root; or why the batch may not be
// applied. The directory is that of the map's records.
fn apply<H: Hash32, S: Shelf>(
    alloc: Global,
    new: &str,
    paged: Paged<S, H>,
    dir: Directory,
    batch: &Batch,
) -> (Result<[u8; 32], HereErr>, S)
    requires names { name_of paged.file ≢ new.now }
    requires layers { All (IsOfVersion (stands_for paged).version) batch.now.list }
    requires lists { IfSome (stands_for paged).tree (λ t. IsDirectoryOf dir (records t)) }
    ensures made { (t : Tree) → (stands_for paged).tree ≡ Some t
        → AdmitsBatch H.of new.now paged.head.pages
        (map_in (stands_for paged).version t paged.head.batch) batch.now (S.state result.1).files
        result.0 }
    ensures others { OnOk result.0 (KeepsOthers new.now (shelved paged).files
        (S.state result.1).files) }
{
    paged.is_map();
    match admit(&dir, paged.top().batch, batch) {
        Err(fault) => (Err(HereErr::Batch(fault)), paged.close()),
        Ok(()) => change::<H, S>(alloc, new, paged, dir, batch),
    }
}

// The same of any batch.
fn judge<H: Hash32, S: Shelf>(
    alloc: Global,
    new: &str,
    paged: Paged<S, H>,
    dir: Directory,
    batch: &Batch,
) -> (Result<[u8; 32], HereErr>, S)
    requires names { name_of paged.file ≢ new.now }
    requires layered { All IsLayered batch.now.list }
    requires lists { IfSome (stands_for paged).tree (λ t. IsDirectoryOf dir (records t)) }
    ensures made { (t : Tree) → (stands_for paged).tree ≡ Some t
        → JudgesBatch H.of new.now paged.head.pages
        (map_in (stands_for paged).version t paged.head.batch) batch.now (S.state result.1).files
        result.0 }
    ensures others { OnOk result.0 (KeepsOthers new.now (shelved paged).files
        (S.state result.1).files) }
{
    if lacks(paged.version(), batch) {
        (Err(HereErr::Layer), paged.close())
    } else {
        apply::<H, S>(alloc, new, paged, dir, batch)
    }
}

// The map in a file after a batch, in another file, and its root; or why it is not changed. It is
// for files in memory, which are told and never fail.
pub(crate) fn edit<H: Hash32, S: Shelf>(
    alloc: Global,
    shelf: S,
    old: &str,
    new: &str,
    batch: &Batch,
) -> (Result<[u8; 32], HereErr>, S)
    requires names { old.now ≢ new.now }
    requires layered { All IsLayered batch.now.list }
    ensures edits { (bytes : List ℕ) → told_bytes (S.state shelf).files old.now ≡ Some bytes
        → EditsFile H.of new.now batch.now bytes (S.state result.1).files result.0 }
    ensures others { OnOk result.0 (KeepsOthers new.now (S.state shelf).files
        (S.state result.1).files) }
{
    match Paged::<S, H>::open_listed(alloc, shelf, old) {
        Err((shelf, error)) => (Err(unopened(&error)), shelf),
        Ok((paged, dir)) => judge::<H, S>(alloc, new, paged, dir, batch),
    }
}

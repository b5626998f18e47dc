//! The pages that a batch makes of a map.

ghost use Rattle.std.specs.Prelude.{◌≡◌, All, IfOk, IfErr, OnOk, Some, List, ℕ, codes};
ghost use Rattle.mr_outside.specs.Files.{file};
ghost use Rattle.mr_record.specs.Version.{version_byte};
ghost use Rattle.mr_outside.specs.Bytes.{AreBytes};
ghost use Rattle.mr_pages.specs.File.{version_of};
ghost use Rattle.mr_pages.specs.PageBytes.{form_by};
ghost use Rattle.mr_batch.specs.Changes.{IsLayered};
ghost use Rattle.mr_journal.specs.Changed.{IsChange, IsLonger};
ghost use Rattle.mr_journal.specs.Format.{page_size};
ghost use Rattle.mr_here.specs.Updated.{IsHindered};
ghost use Rattle.mr_here.specs.private.Forming.{EditsFile, IsFormed};

use crate::editing::edit;
use crate::error::HereErr;
use mr_batch::Batch;
use mr_journal::spell_changes;
use mr_outside::MemShelf;
use mr_pages::{PAGE_SIZE, SECOND_SIZE};
use mr_record::Version;
use mr_tree::Hash32;
use std::alloc::{AllocError, Global};

/// What a batch makes of a map.
#[derive(Drop)]
pub(crate) struct Formed {
    /// The changed pages, as the body of a journal.
    pub(crate) body: Vec<u8>,
    /// The root digest of the map after the batch.
    pub(crate) root: [u8; 32],
}

// What the type tells of its values.
fn are_bytes(_bytes: &[u8])
    ensures { AreBytes _bytes.now }
{}

// A shelf with a map in one file.
fn shelf_with(alloc: Global, map: &[u8]) -> Result<MemShelf, AllocError>
    ensures { IfOk result (λ s. file s.files (codes "map") ≡ Some map.now) }
{
    let mut shelf = MemShelf::new(alloc, Vec::new(alloc));
    shelf.put("map", map)?;
    Ok(shelf)
}

// The map after a batch, in another file beside the old one.
fn edit_file<H: Hash32>(
    alloc: Global,
    shelf: MemShelf,
    batch: &Batch,
) -> (Result<[u8; 32], HereErr>, MemShelf)
    requires { All IsLayered batch.now.list }
    ensures edits { (bytes : List ℕ) → file shelf.files (codes "map") ≡ Some bytes
        → EditsFile H.of (codes "new") batch.now bytes (Some result.1.files) result.0 }
    ensures stays { OnOk result.0
        (file result.1.files (codes "map") ≡ file shelf.files (codes "map")) }
{
    edit::<H, MemShelf>(alloc, shelf, "map", "new", batch)
}

// The version in which the file of these bytes is read.
fn version_in(bytes: &[u8]) -> Version
    ensures { result ≡ version_of bytes.now }
{
    if bytes.len() > 4 && bytes[4] == 2 {
        Version::Two
    } else {
        Version::One
    }
}

// How many bytes a page of a version has.
fn size_in(version: Version) -> usize
    ensures { result ≡ (form_by version).size }
{
    match version {
        Version::One => PAGE_SIZE,
        Version::Two => SECOND_SIZE,
    }
}

// The pages in which a map of whole pages differs from an earlier one.
fn body_of(alloc: Global, version: Version, old: &[u8], new: &[u8]) -> Result<Vec<u8>, AllocError>
    requires { (pages : ℕ) × IsLonger (page_size (version_byte version)) pages old.now new.now }
    ensures { IfOk result (λ b. IsChange (version_byte version) old.now new.now b.items) }
{
    let pages = (new.len() / size_in(version)) as u32;
    spell_changes(alloc, version.byte(), pages, old, new)
}

// The same of the maps in both files, in the version of the earlier one.
fn body_in(alloc: Global, shelf: &MemShelf) -> Result<Vec<u8>, AllocError>
    requires { (old new : List ℕ) × (file shelf.now.files (codes "map") ≡ Some old)
        × (file shelf.now.files (codes "new") ≡ Some new)
        × ((pages : ℕ) × IsLonger (page_size (version_byte (version_of old))) pages old new) }
    ensures { IfOk result (λ b. (old new : List ℕ)
        → file shelf.now.files (codes "map") ≡ Some old
        → file shelf.now.files (codes "new") ≡ Some new
        → IsChange (version_byte (version_of old)) old new b.items) }
{
    match (shelf.file("map"), shelf.file("new")) {
        (Some(old), Some(new)) => body_of(alloc, version_in(old), old, new),
        _ => Err(AllocError),
    }
}

/// The pages that a batch makes of a map, or why it may not be applied to it. The map is changed in
/// memory, as a file; its bytes are given up once that has them.
pub(crate) fn form<H: Hash32>(alloc: Global, map: Vec<u8>, batch: &Batch) -> Result<Formed, HereErr>
    requires { All IsLayered batch.now.list }
    ensures formed { IfOk result (λ f. IsFormed H.of batch.now map.items f.body.items f.root) }
    ensures refused { IfErr result (IsHindered H.of batch.now map.items) }
    ensures bytes { AreBytes map.items }
{
    are_bytes(map.as_slice());
    let shelf = shelf_with(alloc, map.as_slice())?;
    drop(map);
    let (edited, shelf) = edit_file::<H>(alloc, shelf, batch);
    match edited {
        Err(error) => Err(error),
        Ok(root) => {
            let body = body_in(alloc, &shelf)?;
            Ok(Formed { body, root })
        }
    }
}

//! A copy of a map's file whose page 0 is zeros.

ghost use Rattle.std.specs.Prelude.{◌≡◌, ◌≢◌, ◌+◌, ◌-◌, ◌*◌, ◌≤◌, ◌<◌, max, min, length, IfOk, MatchResult, ℕ, List};
ghost use Rattle.mr_outside.specs.State.{Shelved};
ghost use Rattle.mr_store.specs.CachedFile.{state_of, name_of, page_form};
ghost use Rattle.mr_edit.specs.Shelves.{of_made};
ghost use Rattle.mr_draft.specs.Sheets.{zeros, HasMadeEmpty, WasRead, HasCopied, CopyStops, IsFiled, OnlyWrites};

use crate::pages::clear;
use mr_edit::EditErr;
use mr_outside::{Shelf, ShelfErr};
use mr_pages::{SECOND_SIZE, read_filled};
use mr_store::CachedFile;
use std::alloc::{AllocError, Global};

// How many pages are copied at once.
const PIECE: u32 = 16;

// Room for so many bytes.
fn bytes_of(alloc: Global, size: usize) -> Result<Vec<u8>, AllocError>
    ensures { IfOk result (λ v. length v.items ≡ size) }
{
    vec![in alloc; 0u8; size]
}

// The refusal of a file that is made: that it is missing is a fault.
fn refusal_of_made(error: ShelfErr) -> EditErr
    ensures { result ≡ of_made error }
{
    match error {
        ShelfErr::Missing => EditErr::Fault,
        _ => EditErr::from(error),
    }
}

// Appends page 0 to a file that was made.
fn append_first<S: Shelf>(file: &mut CachedFile<S>, page: &[u8]) -> Result<(), EditErr>
    requires { page.now ≡ zeros file.old.layout.size }
    ensures copied { (s : Shelved) (old : List ℕ) →
        HasMadeEmpty (name_of file.old) s (state_of file.old) →
        MatchResult result
        (λ done. HasCopied (page_form file.old) old (name_of file.old) file.old.pages 1 s
        (state_of file.new))
        (CopyStops (page_form file.old) (name_of file.old) file.old.pages s
        (state_of file.new)) }
    ensures only { OnlyWrites file.old file.new }
{
    match file.shelf.append(file.name.as_str(), page) {
        Ok(()) => Ok(()),
        Err(error) => Err(refusal_of_made(error)),
    }
}

// Makes a file with a page of zeros.
fn begin<S: Shelf>(file: &mut CachedFile<S>) -> Result<(), EditErr>
    ensures copied { (old : List ℕ) → MatchResult result
        (λ done. HasCopied (page_form file.old) old (name_of file.old) file.old.pages 1
        (state_of file.old) (state_of file.new))
        (CopyStops (page_form file.old) (name_of file.old) file.old.pages (state_of file.old)
        (state_of file.new)) }
    ensures only { OnlyWrites file.old file.new }
{
    let mut room = [1; SECOND_SIZE];
    let (page, _) = room.split_at_mut(file.layout.size);
    clear(page);
    match file.shelf.create(file.name.as_str()) {
        Ok(()) => append_first(file, page),
        Err(error) => Err(refusal_of_made(error)),
    }
}

// Appends so many pages that were read.
fn append_piece<S: Shelf>(
    file: &mut CachedFile<S>,
    page: u32,
    count: u32,
    piece: &[u8],
) -> Result<(), EditErr>
    requires size { length piece.now ≡ count * file.old.layout.size }
    requires within { page + count ≤ file.old.pages }
    requires some { 1 ≤ count }
    ensures copied { (s : Shelved) (old : List ℕ) →
        WasRead (page_form file.old) old (name_of file.old) file.old.pages page piece.now s
        (state_of file.old) →
        MatchResult result
        (λ done. HasCopied (page_form file.old) old (name_of file.old) file.old.pages
        (page + count) s (state_of file.new))
        (CopyStops (page_form file.old) (name_of file.old) file.old.pages s
        (state_of file.new)) }
    ensures only { OnlyWrites file.old file.new }
{
    match file.shelf.append(file.name.as_str(), piece) {
        Ok(()) => Ok(()),
        Err(error) => Err(refusal_of_made(error)),
    }
}

// Copies so many pages from this one on.
fn copy_piece<S: Shelf>(
    file: &mut CachedFile<S>,
    old: &str,
    page: u32,
    count: u32,
    piece: &mut [u8],
) -> Result<(), EditErr>
    requires differ { old.now ≢ name_of file.old }
    requires size { length piece.old ≡ count * file.old.layout.size }
    requires within { page + count ≤ file.old.pages }
    requires some { 1 ≤ count }
    ensures copied { (s : Shelved) → IsFiled s.files old.now →
        HasCopied (page_form file.old) old.now (name_of file.old) file.old.pages page s
        (state_of file.old) →
        MatchResult result
        (λ done. HasCopied (page_form file.old) old.now (name_of file.old) file.old.pages
        (page + count) s (state_of file.new))
        (CopyStops (page_form file.old) (name_of file.old) file.old.pages s
        (state_of file.new)) }
    ensures only { OnlyWrites file.old file.new }
{
    let at = page as u64 * file.layout.size as u64;
    match read_filled(&mut file.shelf, old, at, piece) {
        Ok(_) => append_piece(file, page, count, piece),
        Err(error) => Err(EditErr::from(error)),
    }
}

// How many pages come next, where so many are left.
fn next_count(left: u32) -> u32
    requires { 1 ≤ left }
    ensures not_empty { 1 ≤ result }
    ensures at_most { result ≤ 16 }
    ensures within { result ≤ left }
{
    if left < PIECE { left } else { PIECE }
}

// Copies the pages from page 1 on.
fn copy_pages<S: Shelf>(file: &mut CachedFile<S>, old: &str, room: &mut [u8]) -> Result<(), EditErr>
    requires differ { old.now ≢ name_of file.old }
    requires size { length room.old ≡ 16 * file.old.layout.size }
    ensures copied { (s : Shelved) → IsFiled s.files old.now →
        HasCopied (page_form file.old) old.now (name_of file.old) file.old.pages 1 s
        (state_of file.old) →
        MatchResult result
        (λ done. HasCopied (page_form file.old) old.now (name_of file.old) file.old.pages
        (max 1 file.old.pages) s (state_of file.new))
        (CopyStops (page_form file.old) (name_of file.old) file.old.pages s
        (state_of file.new)) }
    ensures only { OnlyWrites file.old file.new }
{
    let mut page = 1;
    while page < file.pages {
        let count = next_count(file.pages - page);
        let (piece, _) = room.split_at_mut(count as usize * file.layout.size);
        copy_piece(file, old, page, count, piece)?;
        page += count;
    }
    Ok(())
}

// Makes the file of a copy of another one of as many pages, all but page 0, which is zeros in the
// copy.
pub(crate) fn copy_file<S: Shelf>(
    alloc: Global,
    file: &mut CachedFile<S>,
    old: &str,
) -> Result<(), EditErr>
    requires { old.now ≢ name_of file.old }
    ensures copied { IsFiled (state_of file.old).files old.now → MatchResult result
        (λ done. HasCopied (page_form file.old) old.now (name_of file.old) file.old.pages
        (max 1 file.old.pages) (state_of file.old) (state_of file.new))
        (CopyStops (page_form file.old) (name_of file.old) file.old.pages (state_of file.old)
        (state_of file.new)) }
    ensures only { OnlyWrites file.old file.new }
{
    let mut room = bytes_of(alloc, PIECE as usize * file.layout.size)?;
    begin(file)?;
    copy_pages(file, old, room.as_mut_slice())
}

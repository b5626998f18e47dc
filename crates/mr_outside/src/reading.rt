//! A file read whole, in pieces.

ghost use Rattle.std.specs.Prelude.{◌≡◌, ◌+◌, ◌-◌, ◌≤◌, ◌++◌, length, min, take, drop, vec_len, IfOk};
ghost use Rattle.mr_outside.specs.Told.{OfFile};
ghost use Rattle.mr_outside.specs.Causes.{ShelfCauses};
ghost use Rattle.mr_outside.specs.Reading.{piece_count};

use crate::{Shelf, ShelfErr};
use std::alloc::{AllocError, Global};

/// The most bytes of a file that are asked for at once.
pub const PIECE: usize = 65_536;

/// The bytes of a file, read in pieces up to the length that `size` answers.
///
/// A read that gives fewer bytes than were asked for ends it. Room is taken as bytes come, so a
/// great length that no bytes follow takes one piece.
pub fn read_all<S: Shelf>(alloc: Global, shelf: &mut S, name: &str) -> Result<Vec<u8>, ShelfErr>
    ensures bytes { IfOk result (λ v. OfFile (S.state shelf.old).files name.now ⊥
        (λ bytes. v.items ≡ bytes)) }
    ensures causes { ShelfCauses name.now (S.state shelf.old) (S.state shelf.new) result }
    ensures files { (S.state shelf.new).files ≡ (S.state shelf.old).files }
    ensures reads { (S.state shelf.old).reads ≤ (S.state shelf.new).reads }
    ensures pieces { let before = (S.state shelf.old).reads in
        let after = (S.state shelf.new).reads in
        OfFile (S.state shelf.old).files name.now (after ≡ before)
        (λ bytes. after ≤ before + piece_count (length bytes)) }
{
    let size = shelf.size(name)?;
    let mut piece = buffer(alloc, PIECE)?;
    read_up_to(alloc, shelf, name, size, piece.as_mut_slice())
}

pub(crate) fn buffer(alloc: Global, size: usize) -> Result<Vec<u8>, AllocError>
    ensures { IfOk result (λ v. vec_len v ≡ size) }
{
    vec![in alloc; 0u8; size]
}

// Reads up to this many bytes from the front of a file, through a buffer for each piece.
fn read_up_to<S: Shelf>(
    alloc: Global,
    shelf: &mut S,
    name: &str,
    size: u64,
    piece: &mut [u8],
) -> Result<Vec<u8>, ShelfErr>
    requires room { length piece.old ≡ 65536 }
    requires size { OfFile (S.state shelf.old).files name.now ⊥ (λ bytes. size ≡ length bytes) }
    ensures bytes { IfOk result (λ v. OfFile (S.state shelf.old).files name.now ⊥
        (λ bytes. v.items ≡ bytes)) }
    ensures causes { ShelfCauses name.now (S.state shelf.old) (S.state shelf.new) result }
    ensures files { (S.state shelf.new).files ≡ (S.state shelf.old).files }
    ensures reads { (S.state shelf.old).reads ≤ (S.state shelf.new).reads }
    ensures pieces { (S.state shelf.new).reads ≤ (S.state shelf.old).reads + piece_count size }
{
    let mut bytes = Vec::new(alloc);
    while (bytes.len() as u64) < size {
        let left = size - bytes.len() as u64;
        let wanted = left.min(piece.len() as u64) as usize;
        if read_piece(shelf, name, &mut piece[..wanted], &mut bytes)? < wanted {
            return Ok(bytes);
        }
    }
    Ok(bytes)
}

// Reads the piece of a file that follows the bytes that are there, and puts it to their end.
fn read_piece<S: Shelf>(
    shelf: &mut S,
    name: &str,
    piece: &mut [u8],
    bytes: &mut Vec<u8>,
) -> Result<usize, ShelfErr>
    ensures grown { IfOk result (λ n. vec_len bytes.new ≡ vec_len bytes.old + n) }
    ensures count { IfOk result (λ n. OfFile (S.state shelf.old).files name.now ⊥
        (λ file. n ≡ min (length piece.old) (length file - length bytes.old.items))) }
    ensures bytes { IfOk result (λ n. OfFile (S.state shelf.old).files name.now ⊥
        (λ file. let come = take n (drop (length bytes.old.items) file) in
        bytes.new.items ≡ bytes.old.items ++ come)) }
    ensures within { IfOk result (λ n. n ≤ length piece.old) }
    ensures causes { ShelfCauses name.now (S.state shelf.old) (S.state shelf.new) result }
    ensures files { (S.state shelf.new).files ≡ (S.state shelf.old).files }
    ensures reads { (S.state shelf.old).reads ≤ (S.state shelf.new).reads }
    ensures one { (S.state shelf.new).reads ≤ (S.state shelf.old).reads + 1 }
{
    let count = shelf.read_at(name, bytes.len() as u64, piece)?;
    bytes.extend_from_slice(&piece[..count])?;
    Ok(count)
}

//! Reading a page of a file.

ghost use Rattle.std.specs.Prelude.{◌≡◌, ◌+◌, ◌-◌, ◌≤◌, ◌++◌, min, length, take, drop, replicate, IfOk, OnOk};
ghost use Rattle.mr_outside.specs.Told.{OfFile};
ghost use Rattle.mr_outside.specs.Causes.{ShelfCauses, CountsRead};
ghost use Rattle.mr_pages.specs.PageBytes.{form_of, IsLayout};
ghost use Rattle.mr_pages.specs.File.{version_of};
ghost use Rattle.mr_pages.specs.Source.{IsPage, IsFrontOfFile, TellsPage};

use crate::layout::{Layout, SECOND_SIZE};
use crate::page::fill_up;
use mr_outside::{Shelf, ShelfErr};
use mr_record::Version;

/// Reads the bytes of a page to where they are wanted. What the read gives short counts as zeros.
pub fn page_into<S: Shelf>(
    shelf: &mut S,
    name: &str,
    layout: Layout,
    page: u32,
    into: &mut [u8],
) -> Result<(), ShelfErr>
    requires layout { IsLayout layout }
    requires size { length into.old ≡ layout.size }
    ensures told { OnOk result (OfFile (S.state shelf.old).files name.now ⊥
        (TellsPage (form_of layout) page into.new)) }
    ensures page { OnOk result (IsPage (form_of layout) into.new) }
    ensures causes { ShelfCauses name.now (S.state shelf.old) (S.state shelf.new) result }
    ensures files { (S.state shelf.new).files ≡ (S.state shelf.old).files }
    ensures reads { CountsRead (S.state shelf.old) (S.state shelf.new) result }
{
    read_filled(shelf, name, page as u64 * layout.size as u64, into)?;
    is_page(layout, into);
    Ok(())
}

// What the type tells of its values.
fn is_page(layout: Layout, _bytes: &[u8])
    requires { length _bytes.now ≡ layout.size }
    ensures { IsPage (form_of layout) _bytes.now }
{}

/// Which version a file of this size is of, by what stands in its front. That is read at once and
/// left in the room: as much of it as a page of either version takes.
pub fn read_front<S: Shelf>(
    shelf: &mut S,
    name: &str,
    size: u64,
    room: &mut [u8; SECOND_SIZE],
) -> Result<Version, ShelfErr>
    ensures version { IfOk result (λ v. v ≡ version_of room.new) }
    ensures told { OnOk result (OfFile (S.state shelf.old).files name.now ⊥
        (λ file. length file ≡ size → IsFrontOfFile file room.new)) }
    // Of a told file so much as the size says, and zeros behind.
    ensures exact { OnOk result (OfFile (S.state shelf.old).files name.now ⊥
        (λ file. room.new ≡ take 8192 (take size file ++ replicate 8192 0))) }
    ensures behind { OnOk result
        (drop (min size 8192) room.new ≡ replicate (8192 - min size 8192) 0) }
    ensures causes { ShelfCauses name.now (S.state shelf.old) (S.state shelf.new) result }
    ensures files { (S.state shelf.new).files ≡ (S.state shelf.old).files }
    ensures reads { CountsRead (S.state shelf.old) (S.state shelf.new) result }
{
    let (front, behind) = room.split_at_mut(size.min(SECOND_SIZE as u64) as usize);
    read_filled(shelf, name, 0, front)?;
    behind.fill(0);
    Ok(version_in(room))
}

// The version that byte 4 tells.
fn version_in(front: &[u8; SECOND_SIZE]) -> Version
    ensures { result ≡ version_of front.now }
{
    if front[4] == 2 {
        Version::Two
    } else {
        Version::One
    }
}

/// Reads from a place of the file on, and answers how many bytes came. What a read gives short
/// counts as zeros.
pub fn read_filled<S: Shelf>(
    shelf: &mut S,
    name: &str,
    at: u64,
    into: &mut [u8],
) -> Result<usize, ShelfErr>
    ensures bytes { IfOk result (λ n. OfFile (S.state shelf.old).files name.now ⊥
        (λ file. at + length into.old ≤ length file →
        into.new ≡ take (length into.old) (drop at file))) }
    ensures front { IfOk result (λ n. OfFile (S.state shelf.old).files name.now ⊥
        (λ file. take n into.new ≡ take n (drop at file))) }
    ensures count { IfOk result (λ n. OfFile (S.state shelf.old).files name.now ⊥
        (λ file. n ≡ min (length into.old) (length file - at))) }
    ensures rest { IfOk result (λ n. drop n into.new ≡ replicate (length into.old - n) 0) }
    ensures causes { ShelfCauses name.now (S.state shelf.old) (S.state shelf.new) result }
    ensures files { (S.state shelf.new).files ≡ (S.state shelf.old).files }
    ensures reads { CountsRead (S.state shelf.old) (S.state shelf.new) result }
{
    match shelf.read_at(name, at, into) {
        Ok(count) => {
            fill_up(into, count);
            Ok(count)
        }
        Err(error) => Err(error),
    }
}

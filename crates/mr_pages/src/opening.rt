//! Opening a map.

ghost use Rattle.std.specs.Prelude.{◌≡◌, ◌≤◌, ◌+◌, ◌/◌, ⊤, ℕ, List, length, max, Some, Err, IfOk};
ghost use Rattle.mr_outside.specs.Told.{OfFile, HoldBytes};
ghost use Rattle.mr_outside.specs.Bytes.{AreBytes};
ghost use Rattle.mr_record.specs.declared.version.Version as versions;
ghost use Rattle.mr_pages.specs.PageBytes.{form_by};
ghost use Rattle.mr_tree.specs.Snapshot.{tree_of};
ghost use Rattle.mr_tree.specs.WellFormed.{WellFormed, HasLayers};
ghost use Rattle.mr_tree.specs.declared.tree.Tree as trees;
ghost use Rattle.mr_pages.specs.declared.rule.MapFault.{MapFault};
ghost use Rattle.mr_pages.specs.File.{file_of, form_at, version_of};
ghost use Rattle.mr_pages.specs.Stands.{StandsForTree};
ghost use Rattle.mr_pages.specs.Faults.{mapfault};
ghost use Rattle.mr_pages.specs.Law.{IsOnlyMap, AgreesWithFault};
ghost use Rattle.mr_pages.specs.Opening.{opened_as, opened_of, pages_in, FailsWithoutFault, SomeBytes, SomeFile, TellsBytes, MapCauses};
ghost use Rattle.mr_pages.specs.Source.{IsFrontOfFile};

use crate::file_pages::page_count;
use crate::layout::{Layout, PAGE_SIZE, SECOND_SIZE};
use crate::reading::read_front;
use crate::whole::Whole;
use crate::{MapErr, MapFault, MapRule};
use mr_outside::Shelf;
use mr_record::Version;
use mr_tree::{Hash32, Hashes, Snapshot, Tree};
use std::alloc::Global;

/// A map that was opened.
#[derive(Drop)]
pub struct Opened {
    pub tree: Tree,
    pub version: Version,
    pub batch: u64,
}

// The file has no whole pages, or too many.
const SIZE_FAULT: MapErr = MapErr::Map(MapFault {
    page: 0,
    rule: MapRule::Size,
});

// The map in a file of this size, whose front was read into the room.
fn open_front<H: Hashes, S: Shelf, W: Whole<H>>(
    alloc: Global,
    version: Version,
    shelf: &mut S,
    name: &str,
    room: &[u8; SECOND_SIZE],
    size: u64,
) -> Result<W, MapErr>
    requires size { OfFile (S.state shelf.old).files name.now ⊥ (λ file. length file ≡ size) }
    requires told { OfFile (S.state shelf.old).files name.now ⊥
        (λ file. IsFrontOfFile file room.now) }
    requires are { OfFile (S.state shelf.old).files name.now ⊥ AreBytes }
    ensures told { OfFile (S.state shelf.old).files name.now
        (FailsWithoutFault (opened_as W.shows result))
        (λ bytes. TellsBytes (form_by version) H.of bytes (opened_as W.shows result)) }
    ensures of_some_bytes { SomeBytes (form_by version) H.of (opened_as W.shows result) }
    ensures causes { MapCauses name.now (S.state shelf.old) (S.state shelf.new)
        (opened_as W.shows result) }
    ensures files { (S.state shelf.new).files ≡ (S.state shelf.old).files }
    ensures reads { (S.state shelf.old).reads ≤ (S.state shelf.new).reads }
    ensures reads_at_most { OfFile (S.state shelf.old).files name.now
        ((S.state shelf.new).reads ≤ (S.state shelf.old).reads)
        (λ bytes. (S.state shelf.new).reads + 1
        ≤ (S.state shelf.old).reads + max 1 (length bytes / (form_by version).size)) }
{
    let layout = Layout::by(version);
    match page_count(layout, size) {
        None => Err(SIZE_FAULT),
        Some(pages) => {
            let (first, _) = room.split_at(layout.size);
            W::open_pages::<S>(alloc, layout, shelf, name, first, pages)
        }
    }
}

// What `open_plain` does.
fn open_named<H: Hashes, S: Shelf, W: Whole<H>>(
    alloc: Global,
    shelf: &mut S,
    name: &str,
) -> Result<W, MapErr>
    ensures told { OfFile (S.state shelf.old).files name.now
        (FailsWithoutFault (opened_as W.shows result))
        (λ bytes. TellsBytes (form_at bytes) H.of bytes (opened_as W.shows result)) }
    ensures of_some_bytes { SomeFile H.of (opened_as W.shows result) }
    ensures law { (v : versions.Version) (bytes : List ℕ) → AreBytes bytes →
        AgreesWithFault (form_by v) H.of bytes }
    ensures agrees { OfFile (S.state shelf.old).files name.now ⊤
        (λ bytes. AgreesWithFault (form_at bytes) H.of bytes) }
    ensures every { HoldBytes (S.state shelf.old).files }
    ensures causes { MapCauses name.now (S.state shelf.old) (S.state shelf.new)
        (opened_as W.shows result) }
    ensures files { (S.state shelf.new).files ≡ (S.state shelf.old).files }
    ensures reads { (S.state shelf.old).reads ≤ (S.state shelf.new).reads }
    ensures reads_at_most { let before = (S.state shelf.old).reads in
        let after = (S.state shelf.new).reads in
        OfFile (S.state shelf.old).files name.now (after ≡ before)
        (λ bytes. after ≤ before + pages_in bytes) }
{
    let size = shelf.size(name)?;
    if size < PAGE_SIZE as u64 {
        return Err(SIZE_FAULT);
    }
    let mut room = [0; SECOND_SIZE];
    let version = read_front(shelf, name, size, &mut room)?;
    open_front::<H, S, W>(alloc, version, shelf, name, &room, size)
}

/// The tree, the version and the batch of the map in a file.
///
/// Page 0 is read once, with as much behind it as a page of version 2 takes, and each other page at
/// most once more; nothing is kept of a page but its node. The file's length is what `size` gives,
/// and what a read gives short counts as zeros. A file is read in version 2 where its byte 4 is 2,
/// else in version 1; one that is smaller than any page is not read at all.
pub fn open_plain<H: Hash32, S: Shelf>(
    alloc: Global,
    shelf: &mut S,
    name: &str,
) -> Result<Opened, MapErr>
    // What is answered: the one map that the file stands for, or the first rule that it breaks.
    ensures stands { IfOk result (λ map. OfFile (S.state shelf.old).files name.now ⊥
        (λ bytes. (map.version ≡ version_of bytes)
        × StandsForTree (form_at bytes) H.of bytes map.tree map.batch)) }
    ensures only { IfOk result (λ map. OfFile (S.state shelf.old).files name.now ⊥
        (λ bytes. IsOnlyMap (form_at bytes) H.of bytes map.tree map.batch)) }
    ensures fault { (f : MapFault) → result ≡ Err (MapErr.Map f) →
        OfFile (S.state shelf.old).files name.now ⊥
        (λ bytes. mapfault H.of (file_of (form_at bytes) bytes) ≡ Some f) }
    ensures exact { OfFile (S.state shelf.old).files name.now (FailsWithoutFault result)
        (λ bytes. TellsBytes (form_at bytes) H.of bytes result) }

    // What that is worth: a well-formed tree, of some bytes where no file is told. Bytes have a map
    // or a fault, and one of them alone. A file that stands for a map in a version is read in that
    // one.
    ensures well_formed { IfOk result
        (λ map. WellFormed map.tree × HasLayers map.version map.tree) }
    ensures of_some_bytes { SomeFile H.of result }
    ensures law { (v : versions.Version) (bytes : List ℕ) → AreBytes bytes →
        AgreesWithFault (form_by v) H.of bytes }
    ensures agrees { OfFile (S.state shelf.old).files name.now ⊤
        (λ bytes. AgreesWithFault (form_at bytes) H.of bytes) }
    ensures every { HoldBytes (S.state shelf.old).files }
    ensures version { (v : versions.Version) (bytes : List ℕ) (t : trees.Tree) (b : ℕ) →
        StandsForTree (form_by v) H.of bytes t b → version_of bytes ≡ v }

    // Why it is refused, and what stands afterwards.
    ensures causes { MapCauses name.now (S.state shelf.old) (S.state shelf.new) result }
    ensures files { (S.state shelf.new).files ≡ (S.state shelf.old).files }
    ensures reads { (S.state shelf.old).reads ≤ (S.state shelf.new).reads }
    ensures reads_at_most { let before = (S.state shelf.old).reads in
        let after = (S.state shelf.new).reads in
        OfFile (S.state shelf.old).files name.now (after ≡ before)
        (λ bytes. after ≤ before + pages_in bytes) }
{
    open_named::<H, S, Opened>(alloc, shelf, name)
}

/// The same map with its nodes in memory, of which each is hashed once, as its page is judged.
///
/// It is read as `open_plain` reads it, and refused just so.
pub fn open_snapshot<H: Hash32, S: Shelf>(
    alloc: Global,
    shelf: &mut S,
    name: &str,
) -> Result<Snapshot<H>, MapErr>
    // What is answered: the one map that the file stands for, or the first rule that it breaks.
    ensures exact { let answer = opened_as opened_of result in
        OfFile (S.state shelf.old).files name.now (FailsWithoutFault answer)
        (λ bytes. TellsBytes (form_at bytes) H.of bytes answer) }

    // What that is worth: a well-formed tree, of some bytes where no file is told. Bytes have a map
    // or a fault, and one of them alone. A file that stands for a map in a version is read in that
    // one.
    ensures well_formed { IfOk result (λ s. WellFormed (tree_of s.nodes.items s.top)
        × HasLayers s.top.version (tree_of s.nodes.items s.top)) }
    ensures of_some_bytes { SomeFile H.of
        (opened_as opened_of result) }
    ensures law { (v : versions.Version) (bytes : List ℕ) → AreBytes bytes →
        AgreesWithFault (form_by v) H.of bytes }
    ensures agrees { OfFile (S.state shelf.old).files name.now ⊤
        (λ bytes. AgreesWithFault (form_at bytes) H.of bytes) }
    ensures every { HoldBytes (S.state shelf.old).files }
    ensures version { (v : versions.Version) (bytes : List ℕ) (t : trees.Tree) (b : ℕ) →
        StandsForTree (form_by v) H.of bytes t b → version_of bytes ≡ v }

    // Why it is refused, and what stands afterwards.
    ensures causes { MapCauses name.now (S.state shelf.old) (S.state shelf.new)
        (opened_as opened_of result) }
    ensures files { (S.state shelf.new).files ≡ (S.state shelf.old).files }
    ensures reads { (S.state shelf.old).reads ≤ (S.state shelf.new).reads }
    ensures reads_at_most { let before = (S.state shelf.old).reads in
        let after = (S.state shelf.new).reads in
        OfFile (S.state shelf.old).files name.now (after ≡ before)
        (λ bytes. after ≤ before + pages_in bytes) }
{
    open_named::<H, S, Snapshot<H>>(alloc, shelf, name)
}

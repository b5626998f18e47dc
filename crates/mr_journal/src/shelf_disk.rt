//! A disk over two files of a shelf.

ghost use Rattle.std.specs.Prelude.{◌≡◌, ◌≢◌, ◌+◌, ◌≤◌, ◌<◌, ◌++◌, length, None, IsSome, IfOk, OnOk, IsErrOf, MatchResult};
ghost use Rattle.std.specs.String.{string_bytes};
ghost use Rattle.std.proofs.Common.{refl, ◌∙◌};
ghost use Rattle.std.proofs.Props.{props};
ghost use Rattle.mr_outside.specs.Faults.{Rose};
ghost use Rattle.mr_outside.specs.Files.{file};
ghost use Rattle.mr_outside.specs.Told.{OfFiles};
ghost use Rattle.mr_outside.specs.Reading.{FillsFront, GivesFrom};
ghost use Rattle.mr_outside.specs.Writing.{IsThere};
ghost use Rattle.mr_journal.specs.Shelves.{bytes_or_none, disk_state, images_on, KeepsShelf};
ghost use Rattle.mr_journal.specs.private.FileChanges.{name_of, ChangesFile, AppendsFront, WritesBytes};
ghost use Rattle.mr_journal.specs.private.ShelfLaws.{counts_is, earlier_is, held_is, told_is, keeps_self, keeps_on};

use crate::{Area, Disk, DiskErr};
use mr_outside::{Shelf, ShelfErr};
use std::alloc::{AllocError, Global};

/// A disk over two files of a shelf, which it owns. It tells its contents where the shelf tells its
/// files, and never what a crash may leave. An absent file is empty, and the first write makes it.
pub struct ShelfDisk<S: Shelf> {
    shelf: S,
    map: String,
    journal: String,
    ghost differ: { string_bytes map ≢ string_bytes journal } by { Prim.hlevel props },
}

// The names of the two files.
#[derive(Drop)]
struct Names {
    map: String,
    journal: String,
}

fn copied(alloc: Global, map: &str, journal: &str) -> Result<Names, AllocError>
    ensures map { IfOk result (λ n. string_bytes n.map ≡ map.now) }
    ensures journal { IfOk result (λ n. string_bytes n.journal ≡ journal.now) }
{
    let map = String::from_str(alloc, map)?;
    let journal = String::from_str(alloc, journal)?;
    Ok(Names { map, journal })
}

impl<S: Shelf> ShelfDisk<S> {
    /// A disk over the files of these names. The shelf is handed back beside a refusal.
    pub fn new(
        alloc: Global,
        shelf: S,
        map: &str,
        journal: &str,
    ) -> Result<ShelfDisk<S>, (S, AllocError)>
        requires { map.now ≢ journal.now }
        ensures shelf { MatchResult result (λ d. d.shelf ≡ shelf) (λ r. r.0 ≡ shelf) }
        ensures map { IfOk result (λ d. string_bytes d.map ≡ map.now) }
        ensures journal { IfOk result (λ d. string_bytes d.journal ≡ journal.now) }
    {
        match copied(alloc, map, journal) {
            Ok(names) => {
                let Names { map, journal } = names;
                Ok(ShelfDisk {
                    shelf,
                    map,
                    journal,
                })
            }
            Err(error) => Err((shelf, error)),
        }
    }

    /// The shelf, as it stands.
    pub fn close(self) -> S
        ensures { result ≡ self.shelf }
    {
        let ShelfDisk {
            shelf,
            map: _,
            journal: _,
        } = self;
        shelf
    }
}

fn name_in<'a>(area: Area, map: &'a str, journal: &'a str) -> &'a str
    ensures { result.now ≡ name_of area map.now journal.now }
{
    match area {
        Area::Map => map,
        Area::Journal => journal,
    }
}

// How many bytes the file has.
fn length_of<S: Shelf>(shelf: &mut S, name: &str) -> Result<u64, DiskErr>
    ensures length { IfOk result (λ n. OfFiles (S.state shelf.old).files
        (λ files. n ≡ length (bytes_or_none files name.now))) }
    ensures files { (S.state shelf.new).files ≡ (S.state shelf.old).files }
    ensures reads { (S.state shelf.new).reads ≡ (S.state shelf.old).reads }
    ensures fault { IsErrOf result DiskErr.Fault
        → Rose (S.state shelf.old).faults (S.state shelf.new).faults }
    ensures faults { (S.state shelf.old).faults ≤ (S.state shelf.new).faults }
    ensures quiet { IsSome (S.state shelf.old).files
        → OnOk result ((S.state shelf.new).faults ≡ (S.state shelf.old).faults) }
{
    match shelf.size(name) {
        Ok(length) => Ok(length),
        Err(ShelfErr::Missing) => Ok(0),
        Err(ShelfErr::Fault) => Err(DiskErr::Fault),
        Err(ShelfErr::NoMemory) => Err(DiskErr::NoMemory),
    }
}

// Copies bytes of a file that is there to the front of `into`.
fn read_existing<S: Shelf>(
    shelf: &mut S,
    name: &str,
    at: u64,
    into: &mut [u8],
) -> Result<usize, DiskErr>
    requires { IsThere (S.state shelf.old).files name.now }
    ensures fills { IfOk result (λ n. FillsFront into.old into.new n) }
    ensures gives { IfOk result (λ n. OfFiles (S.state shelf.old).files
        (λ files. GivesFrom at into.old into.new n (bytes_or_none files name.now))) }
    ensures files { (S.state shelf.new).files ≡ (S.state shelf.old).files }
    ensures reads { (S.state shelf.old).reads ≤ (S.state shelf.new).reads }
    ensures fault { IsErrOf result DiskErr.Fault
        → Rose (S.state shelf.old).faults (S.state shelf.new).faults }
    ensures faults { (S.state shelf.old).faults ≤ (S.state shelf.new).faults }
    ensures quiet { IsSome (S.state shelf.old).files
        → OnOk result ((S.state shelf.new).faults ≡ (S.state shelf.old).faults) }
{
    match shelf.read_at(name, at, into) {
        Ok(count) => Ok(count),
        Err(ShelfErr::Missing) => Err(DiskErr::Fault),
        Err(ShelfErr::Fault) => Err(DiskErr::Fault),
        Err(ShelfErr::NoMemory) => Err(DiskErr::NoMemory),
    }
}

// Copies bytes of a file to the front of `into`, none where it is absent.
fn read_or_empty<S: Shelf>(
    shelf: &mut S,
    name: &str,
    at: u64,
    into: &mut [u8],
) -> Result<usize, DiskErr>
    ensures fills { IfOk result (λ n. FillsFront into.old into.new n) }
    ensures gives { IfOk result (λ n. OfFiles (S.state shelf.old).files
        (λ files. GivesFrom at into.old into.new n (bytes_or_none files name.now))) }
    ensures files { (S.state shelf.new).files ≡ (S.state shelf.old).files }
    ensures reads { (S.state shelf.old).reads ≤ (S.state shelf.new).reads }
    ensures fault { IsErrOf result DiskErr.Fault
        → Rose (S.state shelf.old).faults (S.state shelf.new).faults }
    ensures faults { (S.state shelf.old).faults ≤ (S.state shelf.new).faults }
    ensures quiet { IsSome (S.state shelf.old).files
        → OnOk result ((S.state shelf.new).faults ≡ (S.state shelf.old).faults) }
{
    if length_of(shelf, name)? == 0 {
        return Ok(0);
    }
    read_existing(shelf, name, at, into)
}

// Makes a file that is absent.
fn create_file<S: Shelf>(shelf: &mut S, name: &str) -> Result<(), DiskErr>
    requires { OfFiles (S.state shelf.old).files (λ files. file files name.now ≡ None) }
    ensures there { OnOk result (IsThere (S.state shelf.new).files name.now) }
    ensures turns { ChangesFile name.now (λ held. held) (S.state shelf.old).files
        (S.state shelf.new).files }
    ensures reads { (S.state shelf.new).reads ≡ (S.state shelf.old).reads }
    ensures fault { IsErrOf result DiskErr.Fault
        → Rose (S.state shelf.old).faults (S.state shelf.new).faults }
    ensures faults { (S.state shelf.old).faults ≤ (S.state shelf.new).faults }
    ensures quiet { IsSome (S.state shelf.old).files
        → OnOk result ((S.state shelf.new).faults ≡ (S.state shelf.old).faults) }
{
    match shelf.create(name) {
        Ok(()) => Ok(()),
        Err(ShelfErr::Missing) => Err(DiskErr::Fault),
        Err(ShelfErr::Fault) => Err(DiskErr::Fault),
        Err(ShelfErr::NoMemory) => Err(DiskErr::NoMemory),
    }
}

// How many bytes the file has, which is made where it is absent.
fn size_or_create<S: Shelf>(shelf: &mut S, name: &str) -> Result<u64, DiskErr>
    ensures there { OnOk result (IsThere (S.state shelf.new).files name.now) }
    ensures length { IfOk result (λ n. OfFiles (S.state shelf.old).files
        (λ files. n ≡ length (bytes_or_none files name.now))) }
    ensures turns { ChangesFile name.now (λ held. held) (S.state shelf.old).files
        (S.state shelf.new).files }
    ensures reads { (S.state shelf.new).reads ≡ (S.state shelf.old).reads }
    ensures fault { IsErrOf result DiskErr.Fault
        → Rose (S.state shelf.old).faults (S.state shelf.new).faults }
    ensures faults { (S.state shelf.old).faults ≤ (S.state shelf.new).faults }
    ensures quiet { IsSome (S.state shelf.old).files
        → OnOk result ((S.state shelf.new).faults ≡ (S.state shelf.old).faults) }
{
    match shelf.size(name) {
        Ok(length) => Ok(length),
        Err(ShelfErr::Missing) => {
            create_file(shelf, name)?;
            Ok(0)
        }
        Err(ShelfErr::Fault) => Err(DiskErr::Fault),
        Err(ShelfErr::NoMemory) => Err(DiskErr::NoMemory),
    }
}

// How many of so many bytes lie over a file of this length, from a place on.
fn overlap(length: u64, at: u64, count: usize) -> usize
    ensures within { result ≤ count }
    ensures room { at ≤ length → at + result ≤ length }
    ensures end { at ≤ length → result < count → at + result ≡ length }
{
    if length <= at {
        return 0;
    }
    (length - at).min(count as u64) as usize
}

// Replaces bytes of a file that is there.
fn overwrite<S: Shelf>(shelf: &mut S, name: &str, at: u64, bytes: &[u8]) -> Result<(), DiskErr>
    requires there { IsThere (S.state shelf.old).files name.now }
    requires room { OfFiles (S.state shelf.old).files
        (λ files. at + length bytes.now ≤ length (bytes_or_none files name.now)) }
    ensures there { OnOk result (IsThere (S.state shelf.new).files name.now) }
    ensures puts { WritesBytes name.now at bytes.now (S.state shelf.old).files
        (S.state shelf.new).files result }
    ensures reads { (S.state shelf.new).reads ≡ (S.state shelf.old).reads }
    ensures fault { IsErrOf result DiskErr.Fault
        → Rose (S.state shelf.old).faults (S.state shelf.new).faults }
    ensures faults { (S.state shelf.old).faults ≤ (S.state shelf.new).faults }
    ensures quiet { IsSome (S.state shelf.old).files
        → OnOk result ((S.state shelf.new).faults ≡ (S.state shelf.old).faults) }
{
    if bytes.is_empty() {
        return Ok(());
    }
    match shelf.write_at(name, at, bytes) {
        Ok(()) => Ok(()),
        Err(ShelfErr::Missing) => Err(DiskErr::Fault),
        Err(ShelfErr::Fault) => Err(DiskErr::Fault),
        Err(ShelfErr::NoMemory) => Err(DiskErr::NoMemory),
    }
}

// Puts bytes to the end of a file that is there.
fn append<S: Shelf>(shelf: &mut S, name: &str, bytes: &[u8]) -> Result<(), DiskErr>
    requires { IsThere (S.state shelf.old).files name.now }
    ensures done { OnOk result (ChangesFile name.now (λ held. held ++ bytes.now)
        (S.state shelf.old).files (S.state shelf.new).files) }
    ensures grows { AppendsFront name.now bytes.now (S.state shelf.old).files
        (S.state shelf.new).files }
    ensures reads { (S.state shelf.new).reads ≡ (S.state shelf.old).reads }
    ensures fault { IsErrOf result DiskErr.Fault
        → Rose (S.state shelf.old).faults (S.state shelf.new).faults }
    ensures faults { (S.state shelf.old).faults ≤ (S.state shelf.new).faults }
    ensures quiet { IsSome (S.state shelf.old).files
        → OnOk result ((S.state shelf.new).faults ≡ (S.state shelf.old).faults) }
{
    if bytes.is_empty() {
        return Ok(());
    }
    match shelf.append(name, bytes) {
        Ok(()) => Ok(()),
        Err(ShelfErr::Missing) => Err(DiskErr::Fault),
        Err(ShelfErr::Fault) => Err(DiskErr::Fault),
        Err(ShelfErr::NoMemory) => Err(DiskErr::NoMemory),
    }
}

// Replaces the bytes of a file from a place on, and lengthens it where they go past its end.
fn write_bytes<S: Shelf>(shelf: &mut S, name: &str, at: u64, bytes: &[u8]) -> Result<(), DiskErr>
    requires { OfFiles (S.state shelf.old).files
        (λ files. at ≤ length (bytes_or_none files name.now)) }
    ensures puts { WritesBytes name.now at bytes.now (S.state shelf.old).files
        (S.state shelf.new).files result }
    ensures reads { (S.state shelf.new).reads ≡ (S.state shelf.old).reads }
    ensures fault { IsErrOf result DiskErr.Fault
        → Rose (S.state shelf.old).faults (S.state shelf.new).faults }
    ensures faults { (S.state shelf.old).faults ≤ (S.state shelf.new).faults }
    ensures quiet { IsSome (S.state shelf.old).files
        → OnOk result ((S.state shelf.new).faults ≡ (S.state shelf.old).faults) }
{
    let length = size_or_create(shelf, name)?;
    let (front, rest) = bytes.split_at(overlap(length, at, bytes.len()));
    overwrite(shelf, name, at, front)?;
    append(shelf, name, rest)
}

// Waits until a file outlives a crash, where it is there.
fn sync_file<S: Shelf>(shelf: &mut S, name: &str) -> Result<(), DiskErr>
    ensures files { (S.state shelf.new).files ≡ (S.state shelf.old).files }
    ensures reads { (S.state shelf.new).reads ≡ (S.state shelf.old).reads }
    ensures fault { IsErrOf result DiskErr.Fault
        → Rose (S.state shelf.old).faults (S.state shelf.new).faults }
    ensures faults { (S.state shelf.old).faults ≤ (S.state shelf.new).faults }
    ensures quiet { IsSome (S.state shelf.old).files
        → OnOk result ((S.state shelf.new).faults ≡ (S.state shelf.old).faults) }
{
    match shelf.sync(name) {
        Ok(()) => Ok(()),
        Err(ShelfErr::Missing) => Ok(()),
        Err(ShelfErr::Fault) => Err(DiskErr::Fault),
        Err(ShelfErr::NoMemory) => Err(DiskErr::NoMemory),
    }
}

impl<S: Shelf> Disk for ShelfDisk<S> {
    ghost state = { λ d. disk_state (string_bytes d.map) (string_bytes d.journal)
        (S.state d.shelf) };

    ghost images = { λ d. images_on (string_bytes d.map) (string_bytes d.journal)
        (S.state d.shelf) };

    ghost kept = { λ d e. KeepsShelf (string_bytes d.map) (string_bytes e.map)
        (string_bytes d.journal)
        (string_bytes e.journal) (S.state d.shelf) (S.state e.shelf) };

    ghost still = { λ d e. (S.state e.shelf).files ≡ (S.state d.shelf).files };

    ghost earlier = { λ d. earlier_is (string_bytes d.map) (string_bytes d.journal)
        (S.state d.shelf) };

    ghost counts = { λ d. counts_is (string_bytes d.map) (string_bytes d.journal)
        (S.state d.shelf) };

    ghost held = { λ d. held_is (string_bytes d.map) (string_bytes d.journal) (S.state d.shelf) };

    ghost told = { λ d. told_is (string_bytes d.map) (string_bytes d.journal) (S.state d.shelf) };

    ghost kept_self = { λ d. keeps_self (string_bytes d.map) (string_bytes d.journal)
        (S.state d.shelf) };

    ghost kept_on = { λ d e f. keeps_on _ _ _ _ _ _ _ _ _ };

    ghost still_self = { λ d. refl };

    ghost still_on = { λ d e f a b. b ∙ a };

    fn size(&mut self, area: Area) -> Result<u64, DiskErr> {
        let name = name_in(area, self.map.as_str(), self.journal.as_str());
        length_of(&mut self.shelf, name)
    }

    fn read_at(&mut self, area: Area, at: u64, into: &mut [u8]) -> Result<usize, DiskErr> {
        let name = name_in(area, self.map.as_str(), self.journal.as_str());
        read_or_empty(&mut self.shelf, name, at, into)
    }

    fn write_at(&mut self, area: Area, at: u64, bytes: &[u8]) -> Result<(), DiskErr> {
        let name = name_in(area, self.map.as_str(), self.journal.as_str());
        write_bytes(&mut self.shelf, name, at, bytes)
    }

    fn sync(&mut self, area: Area) -> Result<(), DiskErr> {
        let name = name_in(area, self.map.as_str(), self.journal.as_str());
        sync_file(&mut self.shelf, name)
    }
}

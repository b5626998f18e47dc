//! The real file system.

ghost use Rattle.std.specs.Prelude.{◌≡◌, ◌<◌, ◌≤◌, vec_len, length, take, drop, None, [], IfOk, IfSome, OnOk, OnErr};
ghost use Rattle.mr_outside.specs.Faults.{next_count};
ghost use Rattle.mr_outside.specs.Told.{OfFile};
ghost use Rattle.mr_outside.specs.Causes.{ShelfCauses, CountsRead};
ghost use Rattle.mr_outside.specs.Reading.{FillsFront, GivesFrom};
ghost use Rattle.mr_outside.specs.Files.{with_file, grown, overwritten};
ghost use Rattle.mr_outside.specs.Writing.{IsThere, IsChanged, WritesOrFront};
ghost use Rattle.mr_outside.specs.Edge.{untold_shelf};
ghost use Rattle.std.specs.Io.KnownBytes.{Consumes, IsAtEnd};

use crate::opening::{Opened, Table, make, place_to_read, place_to_write, refusal, sync};
use crate::system_files::SystemFiles;
use mr_outside::{Shelf, ShelfErr};
use std::alloc::{AllocError, Global};
use std::fs::OpenFile;
use std::io::{self, Read, Seek, SeekFrom, Write};

// The most bytes that one call of the system is asked for.
const CHUNK: usize = 65_536;

/// The real file system. It tells nothing, and counts a fault at each refusal, also where there is
/// no such file. A folder and a name that the system cannot use are faults.
///
/// Each file that was opened is kept open: calls that read go to the file that had this name at the
/// first of them, or at the first call after it that wrote. One that is opened again to be written
/// has to be the same file.
///
/// To write to what is open already by another name is a fault, and so is to read what is open by
/// another name to be written; then no file is changed. Two names are of one file where the system
/// gives both the same device and number: other spellings of a path, symbolic and hard links, a
/// folder that is mounted twice. Not so where it gives one file two numbers, as some network file
/// systems do, nor where a file system tells no numbers.
///
/// The first sync of a file that this run made also waits until its name outlives a crash: its
/// folder is synced behind it.
///
/// A map that is changed in place is opened once, to be read and written, and so is its journal,
/// each at its first use. Each is locked before any of it is read, to the end of the run, where the
/// system has locks: it is a fault where another run has it. The first sync of the journal is one
/// of its name too. A journal that is made has the owner, the group and the rights of the map, as
/// far as this run may give them, and no more rights.
#[derive(Drop)]
pub struct StdShelf<'a, R: SystemFiles> {
    rt: &'a R,
    alloc: Global,
    table: Table<R::File>,
    chunk: Vec<u8>,
    faults: u64,
    reads: u64,
}

impl<'a, R: SystemFiles> StdShelf<'a, R> {
    /// No fault and no read are counted yet, and no file is open.
    pub fn new(rt: &'a R, alloc: Global) -> StdShelf<'a, R>
        ensures faults { result.faults ≡ 0 }
        ensures reads { result.reads ≡ 0 }
    {
        StdShelf {
            rt,
            alloc,
            table: Table::new(alloc),
            chunk: Vec::new(alloc),
            faults: 0,
            reads: 0,
        }
    }

    /// The same for a run that changes this map in place. A run that has to write is refused where
    /// the map or its journal may not be written; for one that need not they are then opened to be
    /// read.
    pub fn changing(
        rt: &'a R,
        alloc: Global,
        map: &str,
        must_write: bool,
    ) -> Result<StdShelf<'a, R>, AllocError>
        ensures faults { IfOk result (λ s. s.faults ≡ 0) }
        ensures reads { IfOk result (λ s. s.reads ≡ 0) }
    {
        Ok(StdShelf {
            rt,
            alloc,
            table: Table::changing(alloc, map, must_write)?,
            chunk: Vec::new(alloc),
            faults: 0,
            reads: 0,
        })
    }
}

impl<R: SystemFiles> Shelf for StdShelf<'_, R> {
    ghost use Rattle.mr_outside.specs.Edge.{untold_shelf};

    ghost state = { λ s. untold_shelf s.faults s.reads };

    // A fault is counted just where the call is refused.
    fn size(&mut self, name: &str) -> Result<u64, ShelfErr>
        ensures counted { OnErr result (self.new.faults ≡ next_count self.old.faults) }
        ensures length { IfOk result (λ n. OfFile None name.now ⊥ (λ bytes. n ≡ length bytes)) }
        ensures causes { let before = untold_shelf self.old.faults self.old.reads in
            let after = untold_shelf self.new.faults self.new.reads in
            ShelfCauses name.now before after result }
        ensures reads { self.new.reads ≡ self.old.reads }
    {
        let answer = length_by_name(self.rt, self.alloc, &mut self.table, name);
        count_refusal(&mut self.faults, &answer);
        answer
    }

    // A fault is counted just where the call is refused, and a read just where it is not.
    fn read_at(&mut self, name: &str, at: u64, into: &mut [u8]) -> Result<usize, ShelfErr>
        ensures counted { OnErr result (self.new.faults ≡ next_count self.old.faults) }
        ensures fills { IfOk result (λ n. FillsFront into.old into.new n) }
        ensures gives { IfOk result (λ n. OfFile None name.now ⊥
            (GivesFrom at into.old into.new n)) }
        ensures causes { let before = untold_shelf self.old.faults self.old.reads in
            let after = untold_shelf self.new.faults self.new.reads in
            ShelfCauses name.now before after result }
        ensures reads { let before = untold_shelf self.old.faults self.old.reads in
            let after = untold_shelf self.new.faults self.new.reads in
            CountsRead before after result }
    {
        let (table, chunk) = (&mut self.table, &mut self.chunk);
        let answer = read_by_name(self.rt, self.alloc, table, chunk, name, at, into);
        count_refusal(&mut self.faults, &answer);
        count_answer(&mut self.reads, &answer);
        answer
    }

    fn create(&mut self, name: &str) -> Result<(), ShelfErr>
        ensures counted { OnErr result (self.new.faults ≡ next_count self.old.faults) }
        ensures made { let before = untold_shelf self.old.faults self.old.reads in
            let after = untold_shelf self.new.faults self.new.reads in
            OnOk result (IsChanged (with_file name.now) [] before.files after.files) }
        ensures refused { let before = untold_shelf self.old.faults self.old.reads in
            let after = untold_shelf self.new.faults self.new.reads in
            OnErr result (after.files ≡ before.files) }
        ensures causes { let before = untold_shelf self.old.faults self.old.reads in
            let after = untold_shelf self.new.faults self.new.reads in
            ShelfCauses name.now before after result }
        ensures reads { self.new.reads ≡ self.old.reads }
    {
        let answer = make(self.rt, self.alloc, &mut self.table, name);
        count_refusal(&mut self.faults, &answer);
        answer
    }

    fn append(&mut self, name: &str, bytes: &[u8]) -> Result<(), ShelfErr>
        ensures counted { OnErr result (self.new.faults ≡ next_count self.old.faults) }
        ensures there { OnOk result (IsThere None name.now) }
        ensures writes { let before = untold_shelf self.old.faults self.old.reads in
            let after = untold_shelf self.new.faults self.new.reads in
            WritesOrFront (grown name.now) bytes.now before after result }
        ensures causes { let before = untold_shelf self.old.faults self.old.reads in
            let after = untold_shelf self.new.faults self.new.reads in
            ShelfCauses name.now before after result }
    {
        let answer = append_by_name(self.rt, self.alloc, &mut self.table, name, bytes);
        count_refusal(&mut self.faults, &answer);
        answer
    }

    fn write_at(&mut self, name: &str, at: u64, bytes: &[u8]) -> Result<(), ShelfErr>
        ensures counted { OnErr result (self.new.faults ≡ next_count self.old.faults) }
        ensures there { OnOk result (IsThere None name.now) }
        ensures writes { let before = untold_shelf self.old.faults self.old.reads in
            let after = untold_shelf self.new.faults self.new.reads in
            WritesOrFront (overwritten name.now at) bytes.now before after result }
        ensures causes { let before = untold_shelf self.old.faults self.old.reads in
            let after = untold_shelf self.new.faults self.new.reads in
            ShelfCauses name.now before after result }
    {
        let answer = write_by_name(self.rt, self.alloc, &mut self.table, name, at, bytes);
        count_refusal(&mut self.faults, &answer);
        answer
    }

    fn sync(&mut self, name: &str) -> Result<(), ShelfErr>
        ensures counted { OnErr result (self.new.faults ≡ next_count self.old.faults) }
        ensures there { OnOk result (IsThere None name.now) }
        ensures causes { let before = untold_shelf self.old.faults self.old.reads in
            let after = untold_shelf self.new.faults self.new.reads in
            ShelfCauses name.now before after result }
        ensures reads { self.new.reads ≡ self.old.reads }
    {
        let answer = sync(self.rt, self.alloc, &mut self.table, name);
        count_refusal(&mut self.faults, &answer);
        answer
    }
}

// Counts a fault just where the call is refused.
fn count_refusal<T>(faults: &mut u64, answer: &Result<T, ShelfErr>)
    ensures refused { OnErr answer.now (faults.new ≡ next_count faults.old) }
    ensures quiet { OnOk answer.now (faults.new ≡ faults.old) }
{
    if answer.is_err() {
        *faults = faults.saturating_add(1);
    }
}

// Counts a read just where the call is answered.
fn count_answer<T>(reads: &mut u64, answer: &Result<T, ShelfErr>)
    ensures answered { OnOk answer.now (reads.new ≡ next_count reads.old) }
    ensures quiet { OnErr answer.now (reads.new ≡ reads.old) }
{
    if answer.is_ok() {
        *reads = reads.saturating_add(1);
    }
}

fn length_by_name<R: SystemFiles>(
    rt: &R,
    alloc: Global,
    table: &mut Table<R::File>,
    name: &str,
) -> Result<u64, ShelfErr> {
    let place = place_to_read(rt, alloc, table, name)?;
    let about = table.opened[place].file.metadata().map_err(refusal)?;
    Ok(about.len())
}

fn read_by_name<R: SystemFiles>(
    rt: &R,
    alloc: Global,
    table: &mut Table<R::File>,
    chunk: &mut Vec<u8>,
    name: &str,
    at: u64,
    into: &mut [u8],
) -> Result<usize, ShelfErr>
    ensures { IfOk result (λ n. FillsFront into.old into.new n) }
{
    let place = place_to_read(rt, alloc, table, name)?;
    make_room(alloc, chunk, CHUNK)?;
    let one = &mut table.opened[place];
    let answer = read_from(&mut one.file, one.stands, chunk.as_mut_slice(), at, into);
    one.stands = place_behind(at, &answer);
    answer.map_err(refusal)
}

// Where the next byte comes from behind a read at this place: it is not known where that failed.
fn place_behind(at: u64, answer: &io::Result<usize>) -> Option<u64> {
    match answer {
        Ok(count) => at.checked_add(*count as u64),
        Err(_) => None,
    }
}

// Makes a buffer as long as this at its first use.
fn make_room(alloc: Global, chunk: &mut Vec<u8>, size: usize) -> Result<(), AllocError>
    requires { 0 < size }
    ensures { OnOk result (0 < vec_len chunk.new) }
{
    if chunk.is_empty() {
        *chunk = vec![in alloc; 0u8; size]?;
    }
    Ok(())
}

fn append_by_name<R: SystemFiles>(
    rt: &R,
    alloc: Global,
    table: &mut Table<R::File>,
    name: &str,
    bytes: &[u8],
) -> Result<(), ShelfErr> {
    let place = place_to_write(rt, alloc, table, name)?;
    write_to(&mut table.opened[place], SeekFrom::End(0), bytes).map_err(refusal)
}

fn write_by_name<R: SystemFiles>(
    rt: &R,
    alloc: Global,
    table: &mut Table<R::File>,
    name: &str,
    at: u64,
    bytes: &[u8],
) -> Result<(), ShelfErr> {
    let place = place_to_write(rt, alloc, table, name)?;
    write_to(&mut table.opened[place], SeekFrom::Start(at), bytes).map_err(refusal)
}

fn write_to<F: Write + Seek>(one: &mut Opened<F>, to: SeekFrom, bytes: &[u8]) -> io::Result<()> {
    one.stands = None;
    one.file.seek(to)?;
    one.file.write_all(bytes)
}

// The last place that the system can be asked for: no file is longer.
const LAST_PLACE: u64 = 0x7fff_ffff_ffff_ffff;

// Reads from a place on, which may be behind the end of the file. A place where the file stands is
// not sought: a page behind its neighbour takes one call of the system.
fn read_from<F: Read + Seek>(
    file: &mut F,
    stands: Option<u64>,
    chunk: &mut [u8],
    at: u64,
    into: &mut [u8],
) -> io::Result<usize>
    requires { 0 < length chunk.old }
    ensures { IfOk result (λ n. FillsFront into.old into.new n) }
{
    if at > LAST_PLACE {
        return Ok(0);
    }
    if !stands_at(stands, at) {
        file.seek(SeekFrom::Start(at))?;
    }
    fill(file, chunk, into)
}

fn stands_at(stands: Option<u64>, at: u64) -> bool {
    match stands {
        Some(place) => place == at,
        None => false,
    }
}

// Reads to the end of `into` or of the file, through a buffer.
fn fill<F: Read>(file: &mut F, chunk: &mut [u8], into: &mut [u8]) -> io::Result<usize>
    requires { 0 < length chunk.old }
    ensures within { IfOk result (λ n. n ≤ length into.old) }
    ensures bytes { IfOk result (λ n.
        Consumes (F.remaining file.old) (F.remaining file.new) (take n into.new)) }
    ensures whole { IfOk result (λ n. n < length into.old → IsAtEnd (F.remaining file.new)) }
    ensures rest { IfOk result (λ n. drop n into.new ≡ drop n into.old) }
{
    let mut count = 0;
    while count < into.len() {
        let more = read_chunk(file, chunk, &mut into[count..])?;
        if more == 0 {
            return Ok(count);
        }
        count += more;
    }
    Ok(count)
}

// Reads once, and copies what came to the front of `into`.
fn read_chunk<F: Read>(file: &mut F, chunk: &mut [u8], into: &mut [u8]) -> io::Result<usize>
    requires room { 0 < length chunk.old }
    requires wanted { 0 < length into.old }
    ensures within { IfOk result (λ n. n ≤ length into.old) }
    ensures bytes { IfOk result (λ n.
        Consumes (F.remaining file.old) (F.remaining file.new) (take n into.new)) }
    ensures end { IfOk result (λ n. n ≡ 0 → IsAtEnd (F.remaining file.new)) }
    ensures rest { IfOk result (λ n. drop n into.new ≡ drop n into.old) }
{
    let wanted = into.len().min(chunk.len());
    let count = file.read(&mut chunk[..wanted])?;
    into[..count].copy_from_slice(&chunk[..count]);
    Ok(count)
}

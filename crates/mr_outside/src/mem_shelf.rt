//! Files in memory.

ghost use Rattle.std.specs.Prelude.{◌≡◌, ◌+◌, ◌-◌, ◌≤◌, ◌++◌, ◌↔◌, ◌⊎◌, [], ⊤, Some, None, IsTrue, IfOk, OnOk, OnErr, IsErrOf, option_map, length, min, take, drop};
ghost use Rattle.mr_outside.specs.Bytes.{AreBytes};
ghost use Rattle.mr_outside.specs.Files.{file, with_file, grown, overwritten};
ghost use Rattle.mr_outside.specs.Told.{OfFile, HoldBytes};
ghost use Rattle.mr_outside.specs.Causes.{ShelfCauses, CountsRead};
ghost use Rattle.mr_outside.specs.Reading.{FillsFront, GivesFrom};
ghost use Rattle.mr_outside.specs.Writing.{IsThere, WritesOrFront};
ghost use Rattle.mr_outside.specs.Memory.{no_calls, next_fails, called, half_of, shelved, files_of};
ghost use Rattle.std.specs.FinMap as finite;

use crate::calls::Calls;
use crate::held::Held;
use crate::{Shelf, ShelfErr};
use std::alloc::{AllocError, Global};
use std::collections::BTreeMap;
use std::marker::Model;

/// Files in memory, which a shelf tells. Its calls are numbered from 1, and exactly those whose
/// number is in a list fail.
#[derive(Drop)]
pub struct MemShelf {
    alloc: Global,
    files: BTreeMap<String, Held>,
    calls: Calls,
    reads: u64,
}

impl Model for MemShelf {
    ghost use Rattle.mr_outside.specs.Memory.{MemoryShelf, shelf_code, files_of};

    ghost Value = { MemoryShelf };

    ghost coded = { shelf_code };

    ghost view = { λ s. record { files = files_of s.files; calls = s.calls; reads = s.reads } };
}

impl MemShelf {
    /// `fail` has the numbers of the calls that fail; with none, no call ever does.
    pub fn new(alloc: Global, fail: Vec<u64>) -> MemShelf
        ensures { result ≡ record { files = finite.empty; calls = no_calls fail.items; reads = 0 } }
    {
        MemShelf {
            alloc,
            files: BTreeMap::new(alloc),
            calls: Calls::new(fail),
            reads: 0,
        }
    }

    /// Sets a file, whether or not it was there. This is no call of the trait, and has no number.
    pub fn put(&mut self, name: &str, bytes: &[u8]) -> Result<(), AllocError>
        ensures ok { let files = finite.insert self.old.files name.now bytes.now in
            OnOk result (self.new ≡ record self.old { files = files }) }
        ensures err { OnErr result (self.new ≡ self.old) }
    {
        set_file(self.alloc, &mut self.files, name, bytes)
    }

    /// The bytes of the named file, where there is one.
    pub fn file(&self, name: &str) -> Option<&[u8]>
        ensures { option_map (λ bytes. bytes.now) result ≡ file self.now.files name.now }
    {
        bytes_of(&self.files, name)
    }

    /// How many reads were answered.
    pub fn reads(&self) -> u64
        ensures { result ≡ self.now.reads }
    {
        self.reads
    }
}

impl Shelf for MemShelf {
    ghost use Rattle.mr_outside.specs.Memory.{shelved};

    ghost state = { shelved };

    fn size(&mut self, name: &str) -> Result<u64, ShelfErr>
        ensures after { self.new ≡ record self.old { calls = called self.old.calls } }
        ensures fails { IsErrOf result ShelfErr.Fault ↔ IsTrue (next_fails self.old.calls) }
        ensures memory { ¬ IsErrOf result ShelfErr.NoMemory }
        ensures bytes { OfFile (Some self.old.files) name.now ⊤ AreBytes }
        ensures every { HoldBytes (Some self.old.files) }
        ensures length { IfOk result (λ n. OfFile (Some self.old.files) name.now ⊥
            (λ bytes. n ≡ length bytes)) }
        ensures causes { ShelfCauses name.now (shelved self.old) (shelved self.new) result }
    {
        let fails = self.calls.next_fails();
        match bytes_of(&self.files, name) {
            _ if fails => Err(ShelfErr::Fault),
            Some(bytes) => Ok(bytes.len() as u64),
            None => Err(ShelfErr::Missing),
        }
    }

    fn read_at(&mut self, name: &str, at: u64, into: &mut [u8]) -> Result<usize, ShelfErr>
        ensures numbered { self.new.calls ≡ called self.old.calls }
        ensures fails { IsErrOf result ShelfErr.Fault ↔ IsTrue (next_fails self.old.calls) }
        ensures memory { ¬ IsErrOf result ShelfErr.NoMemory }
        ensures fills { IfOk result (λ n. FillsFront into.old into.new n) }
        ensures gives { IfOk result (λ n. OfFile (Some self.old.files) name.now ⊥
            (GivesFrom at into.old into.new n)) }
        ensures causes { ShelfCauses name.now (shelved self.old) (shelved self.new) result }
        ensures files { self.new.files ≡ self.old.files }
        ensures reads { CountsRead (shelved self.old) (shelved self.new) result }
    {
        if self.calls.next_fails() {
            return Err(ShelfErr::Fault);
        }
        let Some(bytes) = bytes_of(&self.files, name) else {
            return Err(ShelfErr::Missing);
        };
        let count = copy_from(bytes, at, into);
        self.reads = self.reads.saturating_add(1);
        Ok(count)
    }

    fn create(&mut self, name: &str) -> Result<(), ShelfErr>
        ensures done { let files = with_file name.now [] self.old.files in
            let done = record self.old { files = files; calls = called self.old.calls } in
            OnOk result (self.new ≡ done) }
        ensures not { OnErr result (self.new ≡ record self.old { calls = called self.old.calls }) }
        ensures fails { IsErrOf result ShelfErr.Fault ↔ IsTrue (next_fails self.old.calls) }
        ensures never { ¬ IsErrOf result ShelfErr.Missing }
        ensures causes { ShelfCauses name.now (shelved self.old) (shelved self.new) result }
    {
        if self.calls.next_fails() {
            return Err(ShelfErr::Fault);
        }
        set_file(self.alloc, &mut self.files, name, b"")?;
        Ok(())
    }

    fn append(&mut self, name: &str, bytes: &[u8]) -> Result<(), ShelfErr>
        ensures numbered { self.new.calls ≡ called self.old.calls }
        ensures done { OnOk result (self.new.files ≡ grown name.now bytes.now self.old.files) }
        ensures half { IsErrOf result ShelfErr.Fault
            → self.new.files ≡ grown name.now (half_of bytes.now) self.old.files }
        ensures memory { IsErrOf result ShelfErr.NoMemory → self.new.files ≡ self.old.files }
        ensures fails { IsErrOf result ShelfErr.Fault → IsTrue (next_fails self.old.calls) }
        ensures failing { IsTrue (next_fails self.old.calls)
            → IsErrOf result ShelfErr.Fault ⊎ IsErrOf result ShelfErr.NoMemory }
        ensures there { OnOk result (IsThere (Some self.old.files) name.now) }
        ensures writes { WritesOrFront (grown name.now) bytes.now
            (shelved self.old) (shelved self.new) result }
        ensures causes { ShelfCauses name.now (shelved self.old) (shelved self.new) result }
    {
        if !self.calls.next_fails() {
            return grow(&mut self.files, name, bytes);
        }
        let (half, _) = bytes.split_at(bytes.len() / 2);
        if let Err(ShelfErr::NoMemory) = grow(&mut self.files, name, half) {
            return Err(ShelfErr::NoMemory);
        }
        Err(ShelfErr::Fault)
    }

    fn write_at(&mut self, name: &str, at: u64, bytes: &[u8]) -> Result<(), ShelfErr>
        requires { OfFile (Some self.old.files) name.now ⊤
            (λ held. at + length bytes.now ≤ length held) }
        ensures numbered { self.new.calls ≡ called self.old.calls }
        ensures done { OnOk result
            (self.new.files ≡ overwritten name.now at bytes.now self.old.files) }
        ensures half { IsErrOf result ShelfErr.Fault
            → self.new.files ≡ overwritten name.now at (half_of bytes.now) self.old.files }
        ensures fails { IsErrOf result ShelfErr.Fault ↔ IsTrue (next_fails self.old.calls) }
        ensures memory { ¬ IsErrOf result ShelfErr.NoMemory }
        ensures there { OnOk result (IsThere (Some self.old.files) name.now) }
        ensures writes { WritesOrFront (overwritten name.now at) bytes.now
            (shelved self.old) (shelved self.new) result }
        ensures causes { ShelfCauses name.now (shelved self.old) (shelved self.new) result }
    {
        if !self.calls.next_fails() {
            return overwrite(&mut self.files, name, at, bytes);
        }
        let (half, _) = bytes.split_at(bytes.len() / 2);
        let _ = overwrite(&mut self.files, name, at, half);
        Err(ShelfErr::Fault)
    }

    fn sync(&mut self, name: &str) -> Result<(), ShelfErr>
        ensures after { self.new ≡ record self.old { calls = called self.old.calls } }
        ensures fails { IsErrOf result ShelfErr.Fault ↔ IsTrue (next_fails self.old.calls) }
        ensures memory { ¬ IsErrOf result ShelfErr.NoMemory }
        ensures there { OnOk result (IsThere (Some self.old.files) name.now) }
        ensures causes { ShelfCauses name.now (shelved self.old) (shelved self.new) result }
    {
        if self.calls.next_fails() {
            return Err(ShelfErr::Fault);
        }
        match bytes_of(&self.files, name) {
            Some(_) => Ok(()),
            None => Err(ShelfErr::Missing),
        }
    }
}

fn bytes_of<'a>(files: &'a BTreeMap<String, Held>, name: &str) -> Option<&'a [u8]>
    ensures bytes { OfFile (Some (files_of files.now)) name.now ⊤ AreBytes }
    ensures every { HoldBytes (Some (files_of files.now)) }
    ensures found { option_map (λ bytes. bytes.now) result ≡ file (files_of files.now) name.now }
{
    match files.get(name) {
        Some(held) => Some(held.as_slice()),
        None => None,
    }
}

fn set_file(
    alloc: Global,
    files: &mut BTreeMap<String, Held>,
    name: &str,
    bytes: &[u8],
) -> Result<(), AllocError>
    ensures ok { let put = finite.insert (files_of files.old) name.now bytes.now in
        OnOk result (files_of files.new ≡ put) }
    ensures err { OnErr result (files_of files.new ≡ files_of files.old) }
{
    let name = String::from_str(alloc, name)?;
    let held = Held::new(alloc, bytes)?;
    files.insert(name, held)?;
    Ok(())
}

// Puts the bytes to the end of the named file.
fn grow(files: &mut BTreeMap<String, Held>, name: &str, bytes: &[u8]) -> Result<(), ShelfErr>
    ensures grown { OnOk result
        (files_of files.new ≡ grown name.now bytes.now (files_of files.old)) }
    ensures there { OnOk result (IsThere (Some (files_of files.old)) name.now) }
    ensures missing { IsErrOf result ShelfErr.Missing → file (files_of files.old) name.now ≡ None }
    ensures never { ¬ IsErrOf result ShelfErr.Fault }
    ensures refused { OnErr result (files_of files.new ≡ files_of files.old) }
{
    match files.get_mut(name) {
        Some(held) => {
            held.extend(bytes)?;
            Ok(())
        }
        None => Err(ShelfErr::Missing),
    }
}

// Replaces the bytes of the named file from a place on.
fn overwrite(
    files: &mut BTreeMap<String, Held>,
    name: &str,
    at: u64,
    bytes: &[u8],
) -> Result<(), ShelfErr>
    requires { OfFile (Some (files_of files.old)) name.now ⊤
        (λ held. at + length bytes.now ≤ length held) }
    ensures done { OnOk result
        (files_of files.new ≡ overwritten name.now at bytes.now (files_of files.old)) }
    ensures there { OnOk result (IsThere (Some (files_of files.old)) name.now) }
    ensures missing { OnErr result (file (files_of files.old) name.now ≡ None) }
    ensures error { OnErr result (IsErrOf result ShelfErr.Missing) }
    ensures refused { OnErr result (files_of files.new ≡ files_of files.old) }
{
    match files.get_mut(name) {
        Some(held) => {
            held.replace(at as usize, bytes);
            Ok(())
        }
        None => Err(ShelfErr::Missing),
    }
}

// Copies what stands from a place on to the front of `into`, as far as both go.
fn copy_from(bytes: &[u8], at: u64, into: &mut [u8]) -> usize
    ensures count { result ≡ min (length into.old) (length bytes.now - at) }
    ensures copied { into.new ≡ take result (drop at bytes.now) ++ drop result into.old }
{
    let start = (bytes.len() as u64).min(at) as usize;
    let (_before, rest) = bytes.split_at(start);
    let count = rest.len().min(into.len());
    into[..count].copy_from_slice(&rest[..count]);
    count
}

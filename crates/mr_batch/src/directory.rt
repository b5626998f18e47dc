//! The rectangles of a map by record number.

ghost use Rattle.std.specs.Prelude.{◌≡◌, ◌≢◌, ℕ, ◌==◌, ◌+◌, Some, None, is_some, length, IfOk, OnOk, OnErr, AllPairs, if◌then◌else◌};
ghost use Rattle.mr_record.specs.declared.record.Record as types;
ghost use Rattle.mr_batch.specs.Directory.{AreRising, rect_at, IsDirectoryOf};

use mr_geom::Rect;
use mr_record::Record;
use std::alloc::{AllocError, Global};
use std::collections::BTreeMap;
use std::marker::Model;

/// The rectangle of each record of a map, in map units, by record number. Contracts see its
/// entries, in rising number.
#[derive(Drop)]
pub struct Directory {
    rects: BTreeMap<u64, Rect>,
}

impl Model for Directory {
    ghost use Rattle.mr_batch.specs.Directory.{DirectoryEntries};

    ghost Value = { DirectoryEntries };

    ghost view = { λ d. d.rects.entries };
}

impl Directory {
    /// The directory of records with different numbers.
    pub fn of(alloc: Global, list: &[Record]) -> Result<Directory, AllocError>
        requires { AllPairs (λ (a b : types.Record). a.number ≢ b.number) list.now }
        ensures { IfOk result (λ d. IsDirectoryOf d list.now) }
    {
        let mut directory = Directory {
            rects: BTreeMap::new(alloc),
        };
        for one in list {
            directory.put(one.number, one.rect)?;
        }
        Ok(directory)
    }

    /// The directory that has these entries.
    pub fn over(rects: BTreeMap<u64, Rect>) -> Directory
        ensures { result ≡ rects.entries }
    {
        Directory { rects }
    }

    /// How many records there are.
    pub fn len(&self) -> usize
        ensures exact { result ≡ length self.now }
        ensures rising { AreRising self.now }
    {
        self.rects.len()
    }

    /// The rectangle of the record with this number, if there is one.
    pub fn rect(&self, number: u64) -> Option<Rect>
        ensures { result ≡ rect_at self.now number }
    {
        self.rects.get(&number).copied()
    }

    /// Gives the number this rectangle, in place of another that it may have. After a refusal all
    /// is as before.
    pub fn put(&mut self, number: u64, rect: Rect) -> Result<(), AllocError>
        ensures put { OnOk result ((n : ℕ) → rect_at self.new n
            ≡ (if number == n then Some rect else rect_at self.old n)) }
        ensures counted { OnOk result (length self.new
            ≡ length self.old + (if is_some (rect_at self.old number) then 0 else 1)) }
        ensures unchanged { OnErr result (self.new ≡ self.old) }
    {
        self.rects.insert(number, rect)?;
        Ok(())
    }

    /// Takes the number out, and gives its rectangle, if it had one.
    pub fn take(&mut self, number: u64) -> Option<Rect>
        ensures value { result ≡ rect_at self.old number }
        ensures taken { (n : ℕ) → rect_at self.new n
            ≡ (if number == n then None else rect_at self.old n) }
        ensures counted { length self.new + (if is_some result then 1 else 0) ≡ length self.old }
    {
        self.rects.remove(&number)
    }
}

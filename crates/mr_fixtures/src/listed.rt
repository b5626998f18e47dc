//! A shelf that lists the calls made on it.

use mr_outside::{MemShelf, Shelf, ShelfErr};
use std::alloc::{AllocError, Global};

/// A shelf in memory, with a line for each call made on it, `CALL NAME`, and the names of the files
/// that were made. No call is refused because its line could not be kept.
#[derive(Drop)]
pub struct Listed {
    alloc: Global,
    pub shelf: MemShelf,
    pub calls: String,
    pub made: Vec<String>,
}

impl Listed {
    /// No call was made yet.
    pub fn new(alloc: Global, shelf: MemShelf) -> Listed {
        Listed {
            alloc,
            shelf,
            calls: String::new(alloc),
            made: Vec::new(alloc),
        }
    }
}

// Adds the line of a call.
fn list(calls: &mut String, call: &str, name: &str) -> Result<(), AllocError> {
    calls.push_str(call)?;
    calls.push_str(" ")?;
    calls.push_str(name)?;
    calls.push_str("\n")?;
    Ok(())
}

// Adds a name.
fn add(alloc: Global, names: &mut Vec<String>, name: &str) -> Result<(), AllocError> {
    names.push(String::from_str(alloc, name)?)?;
    Ok(())
}

impl Shelf for Listed {
    ghost use Rattle.mr_outside.specs.Memory.{shelved};

    ghost state = { λ s. shelved s.shelf };

    fn size(&mut self, name: &str) -> Result<u64, ShelfErr> {
        let _ = list(&mut self.calls, "size", name);
        self.shelf.size(name)
    }

    fn read_at(&mut self, name: &str, at: u64, into: &mut [u8]) -> Result<usize, ShelfErr> {
        let _ = list(&mut self.calls, "read_at", name);
        self.shelf.read_at(name, at, into)
    }

    fn create(&mut self, name: &str) -> Result<(), ShelfErr> {
        let _ = list(&mut self.calls, "create", name);
        let _ = add(self.alloc, &mut self.made, name);
        self.shelf.create(name)
    }

    fn append(&mut self, name: &str, bytes: &[u8]) -> Result<(), ShelfErr> {
        let _ = list(&mut self.calls, "append", name);
        self.shelf.append(name, bytes)
    }

    fn write_at(&mut self, name: &str, at: u64, bytes: &[u8]) -> Result<(), ShelfErr> {
        let _ = list(&mut self.calls, "write_at", name);
        self.shelf.write_at(name, at, bytes)
    }

    fn sync(&mut self, name: &str) -> Result<(), ShelfErr> {
        let _ = list(&mut self.calls, "sync", name);
        self.shelf.sync(name)
    }
}

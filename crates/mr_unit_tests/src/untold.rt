//! A shelf of which nothing is told, and whose reads end before its file does.

use mr_outside::{Shelf, ShelfErr};

/// Says that its file has so many bytes, and gives no more than those that it holds, at the first
/// read no more than `first`. No file is written.
#[derive(Drop)]
pub struct Untold {
    size: u64,
    pub first: usize,
    bytes: Vec<u8>,
    pub reads: u64,
}

impl Untold {
    /// Says that there are `size` bytes, and gives these.
    pub fn new(size: u64, bytes: Vec<u8>) -> Untold {
        Untold {
            size,
            first: usize::MAX,
            bytes,
            reads: 0,
        }
    }
}

impl Shelf for Untold {
    ghost use Rattle.mr_outside.specs.Edge.{untold_shelf};

    ghost state = { λ s. untold_shelf 0 s.reads };

    fn size(&mut self, _name: &str) -> Result<u64, ShelfErr> {
        Ok(self.size)
    }

    fn read_at(&mut self, _name: &str, at: u64, into: &mut [u8]) -> Result<usize, ShelfErr> {
        let most = if self.reads == 0 {
            self.first
        } else {
            usize::MAX
        };
        self.reads = self.reads.saturating_add(1);
        let at = (at as usize).min(self.bytes.len());
        let count = into.len().min(self.bytes.len() - at).min(most);
        into[..count].copy_from_slice(&self.bytes[at..at + count]);
        Ok(count)
    }

    fn create(&mut self, _name: &str) -> Result<(), ShelfErr> {
        Err(ShelfErr::NoMemory)
    }

    fn append(&mut self, _name: &str, _bytes: &[u8]) -> Result<(), ShelfErr> {
        Err(ShelfErr::NoMemory)
    }

    fn write_at(&mut self, _name: &str, _at: u64, _bytes: &[u8]) -> Result<(), ShelfErr> {
        Err(ShelfErr::NoMemory)
    }

    fn sync(&mut self, _name: &str) -> Result<(), ShelfErr> {
        Err(ShelfErr::NoMemory)
    }
}

//! A text in memory.

ghost use Rattle.std.specs.Prelude.{◌≡◌, [], ◌++◌, Some, OnOk};
ghost use Rattle.mr_outside.specs.State.{Sunk};

use mr_outside::{Sink, SinkErr};
use std::alloc::{AllocError, Global};

/// A text in memory. It takes all that it is given, and refuses for want of memory alone.
#[derive(Drop)]
pub struct Text {
    bytes: Vec<u8>,
}

impl Text {
    /// An empty text.
    pub fn new(alloc: Global) -> Text
        ensures { result.bytes.items ≡ [] }
    {
        Text {
            bytes: Vec::new(alloc),
        }
    }

    /// What it took so far.
    pub fn bytes(&self) -> &[u8]
        ensures { result.now ≡ self.now.bytes.items }
    {
        self.bytes.as_slice()
    }

    /// The same, given up for it.
    pub fn into_bytes(self) -> Vec<u8>
        ensures { result ≡ self.bytes }
    {
        self.bytes
    }

    /// Gives up what it took so far, and keeps the room of it.
    pub fn clear(&mut self)
        ensures { self.new.bytes.items ≡ [] }
    {
        self.bytes.clear();
    }

    /// Puts some bytes behind the others.
    pub fn put(&mut self, bytes: &[u8]) -> Result<(), AllocError>
        ensures { OnOk result (self.new.bytes.items ≡ self.old.bytes.items ++ bytes.now) }
    {
        self.bytes.extend_from_slice(bytes)
    }
}

impl Sink for Text {
    ghost state = { λ t. record { taken = Some t.bytes.items; faults = 0 } };

    fn write(&mut self, bytes: &[u8]) -> Result<usize, SinkErr> {
        self.bytes.extend_from_slice(bytes)?;
        Ok(bytes.len())
    }
}

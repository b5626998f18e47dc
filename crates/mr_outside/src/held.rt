//! What a file in memory holds.

ghost use Rattle.std.specs.Prelude.{◌≡◌, ◌+◌, ◌≤◌, ◌++◌, length, IfOk, OnOk, OnErr};
ghost use Rattle.mr_outside.specs.Bytes.{AreBytes};
ghost use Rattle.mr_outside.specs.Files.{replaced};

use std::alloc::{AllocError, Global};

// A list of bytes, which says of itself that they are bytes.
#[derive(Drop)]
pub(crate) struct Held {
    cells: Vec<u8>,
    ghost are: { AreBytes cells.items },
}

impl Held {
    pub(crate) fn new(alloc: Global, bytes: &[u8]) -> Result<Held, AllocError>
        ensures { IfOk result (λ h. h.cells.items ≡ bytes.now) }
    {
        let cells = Vec::from_slice(alloc, bytes)?;
        Ok(Held { cells })
    }

    pub(crate) fn as_slice(&self) -> &[u8]
        ensures { result.now ≡ self.now.cells.items }
    {
        self.cells.as_slice()
    }

    // Puts the bytes to the end.
    pub(crate) fn extend(&mut self, bytes: &[u8]) -> Result<(), AllocError>
        ensures ok { OnOk result (self.new.cells.items ≡ self.old.cells.items ++ bytes.now) }
        ensures err { OnErr result (self.new.cells.items ≡ self.old.cells.items) }
    {
        self.cells.extend_from_slice(bytes)
    }

    // Replaces the bytes from a place on.
    pub(crate) fn replace(&mut self, at: usize, bytes: &[u8])
        requires { at + length bytes.now ≤ length self.old.cells.items }
        ensures { self.new.cells.items ≡ replaced at bytes.now self.old.cells.items }
    {
        replace(self.cells.as_mut_slice(), at, bytes);
    }
}

fn replace(held: &mut [u8], at: usize, bytes: &[u8])
    requires { at + length bytes.now ≤ length held.old }
    ensures { held.new ≡ replaced at bytes.now held.old }
{
    let (_, behind) = held.split_at_mut(at);
    let (place, _) = behind.split_at_mut(bytes.len());
    place.copy_from_slice(bytes);
}

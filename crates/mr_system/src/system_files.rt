//! What the real file system does besides what the kit asks of one.

use std::fs::File;
use std::os::unix::fs::fchown;
use std::{io, rt};

/// A file system whose open files can be locked, and given an owner.
pub trait SystemFiles: rt::Files {
    /// Takes a whole file for this opening of it alone, to its end. It does not wait: where another
    /// opening has the file, that is `WouldBlock`.
    fn try_lock(&self, file: &Self::File) -> io::Result<()>;

    /// Gives a file an owner or a group. `None` leaves the one that it has.
    fn set_owner(
        &self,
        file: &Self::File,
        owner: Option<u32>,
        group: Option<u32>,
    ) -> io::Result<()>;
}

impl SystemFiles for HostRuntime {
    fn try_lock(&self, file: &File) -> io::Result<()> {
        match File::try_lock(file) {
            Ok(()) => Ok(()),
            Err(error) => Err(io::Error::from(error)),
        }
    }

    fn set_owner(&self, file: &File, owner: Option<u32>, group: Option<u32>) -> io::Result<()> {
        fchown(file, owner, group)
    }
}

//! Files on the real file system and an output in memory, of which one call fails.

use mr_system::SystemFiles;
use std::alloc::Allocator;
use std::cell::{Cell, RefCell};
use std::fmt::Display;
use std::fs::{Metadata, OpenFile, OpenOptions, Permissions};
use std::io::{self, Read, Seek, SeekFrom, Write};
use std::rt;

// The most bytes that the output takes in a call.
const MOST: usize = 7;

// How much of its bytes a call that fails to write to a file has written.
#[derive(Clone, Copy)]
pub(crate) enum Written {
    Nothing,
    Half,
    All,
}

// Calls on files and on the output, numbered from 1.
#[derive(Drop)]
pub(crate) struct Calls {
    // The number of the one that fails.
    pub(crate) failing: u64,
    // What it has written, if it writes to a file.
    pub(crate) written: Written,
    pub(crate) made: Cell<u64>,
}

impl Calls {
    // Counts a call, and refuses the one that fails.
    fn count(&self) -> io::Result<()> {
        let number = self.made.get().wrapping_add(1);
        self.made.set(number);
        if number == self.failing {
            Err(io::Error::from(io::ErrorKind::Other))
        } else {
            Ok(())
        }
    }
}

// An open file.
#[derive(Drop)]
pub(crate) struct FailingFile<'a, F> {
    file: F,
    calls: &'a Calls,
}

impl<F: Read> Read for FailingFile<'_, F> {
    fn read(&mut self, into: &mut [u8]) -> io::Result<usize> {
        self.calls.count()?;
        self.file.read(into)
    }
}

impl<F: Write> Write for FailingFile<'_, F> {
    fn write(&mut self, bytes: &[u8]) -> io::Result<usize> {
        match self.calls.count() {
            Ok(()) => self.file.write(bytes),
            Err(error) => {
                let count = match self.calls.written {
                    Written::Nothing => 0,
                    Written::Half => bytes.len() / 2,
                    Written::All => bytes.len(),
                };
                let (front, _) = bytes.split_at(count);
                self.file.write_all(front)?;
                Err(error)
            }
        }
    }

    fn flush(&mut self) -> io::Result<()> {
        self.calls.count()?;
        self.file.flush()
    }
}

impl<F: Seek> Seek for FailingFile<'_, F> {
    fn seek(&mut self, to: SeekFrom) -> io::Result<u64> {
        self.calls.count()?;
        self.file.seek(to)
    }
}

impl<F: OpenFile> OpenFile for FailingFile<'_, F> {
    fn metadata(&self) -> io::Result<Metadata> {
        self.calls.count()?;
        self.file.metadata()
    }

    fn set_len(&self, size: u64) -> io::Result<()> {
        self.calls.count()?;
        self.file.set_len(size)
    }

    fn sync_all(&self) -> io::Result<()> {
        self.calls.count()?;
        self.file.sync_all()
    }

    fn sync_data(&self) -> io::Result<()> {
        self.calls.count()?;
        self.file.sync_data()
    }

    fn set_permissions(&self, rights: Permissions) -> io::Result<()> {
        self.calls.count()?;
        self.file.set_permissions(rights)
    }
}

// The file system and an output that takes few bytes a call. Calls that the program does not make
// are refused, and not counted.
#[derive(Drop)]
pub(crate) struct Failing<'a, R> {
    pub(crate) rt: &'a R,
    pub(crate) calls: &'a Calls,
    // What the output took.
    pub(crate) taken: RefCell<Vec<u8>>,
    pub(crate) output_failed: Cell<bool>,
}

fn unsupported() -> io::Error {
    io::Error::from(io::ErrorKind::Unsupported)
}

impl<'a, R: rt::Files> rt::Files for Failing<'a, R> {
    type File = FailingFile<'a, R::File>;

    type Dir = R::Dir;

    fn open_file(&self, how: &OpenOptions, path: &str) -> io::Result<FailingFile<'a, R::File>> {
        self.calls.count()?;
        let file = self.rt.open_file(how, path)?;
        Ok(FailingFile {
            file,
            calls: self.calls,
        })
    }

    fn open_dir(&self, _path: &str) -> io::Result<R::Dir> {
        Err(unsupported())
    }

    fn metadata(&self, path: &str) -> io::Result<Metadata> {
        self.calls.count()?;
        self.rt.metadata(path)
    }

    fn symlink_metadata(&self, path: &str) -> io::Result<Metadata> {
        self.calls.count()?;
        self.rt.symlink_metadata(path)
    }

    fn copy(&self, _from: &str, _to: &str) -> io::Result<u64> {
        Err(unsupported())
    }

    fn rename(&self, _from: &str, _to: &str) -> io::Result<()> {
        Err(unsupported())
    }

    fn remove_file(&self, _path: &str) -> io::Result<()> {
        Err(unsupported())
    }

    fn create_dir(&self, _path: &str) -> io::Result<()> {
        Err(unsupported())
    }

    fn remove_dir(&self, _path: &str) -> io::Result<()> {
        Err(unsupported())
    }

    fn remove_dir_all<B: Allocator>(&self, _alloc: B, _path: &str) -> io::Result<()> {
        Err(unsupported())
    }
}

impl<'a, R: SystemFiles> SystemFiles for Failing<'a, R> {
    fn try_lock(&self, file: &FailingFile<'a, R::File>) -> io::Result<()> {
        self.calls.count()?;
        self.rt.try_lock(&file.file)
    }

    fn set_owner(
        &self,
        file: &FailingFile<'a, R::File>,
        owner: Option<u32>,
        group: Option<u32>,
    ) -> io::Result<()> {
        self.calls.count()?;
        self.rt.set_owner(&file.file, owner, group)
    }
}

impl<R> Print for Failing<'_, R> {
    fn print<D: Display + Drop>(&self, _value: D) -> io::Result<()> {
        Err(unsupported())
    }

    fn println<D: Display + Drop>(&self, _value: D) -> io::Result<()> {
        Err(unsupported())
    }

    fn write_all(&self, _bytes: &[u8]) -> io::Result<()> {
        Err(unsupported())
    }

    fn write_some(&self, bytes: &[u8]) -> io::Result<usize> {
        if let Err(error) = self.calls.count() {
            self.output_failed.set(true);
            return Err(error);
        }
        let count = bytes.len().min(MOST);
        match self.taken.try_borrow_mut() {
            Ok(mut taken) => taken.extend_from_slice(&bytes[..count])?,
            Err(_) => return Err(io::Error::from(io::ErrorKind::ResourceBusy)),
        }
        Ok(count)
    }
}

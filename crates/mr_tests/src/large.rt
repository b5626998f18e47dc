//! Runs over the real file system, and a run without words.

use crate::assertions::{all_hold, holds};
use mr_fixtures::runs::{ran, shelf_of};
use mr_outside::{MemSink, NoGate};
use mr_system::{StdShelf, SystemFiles};
use mr_tool::Status::{BadWords, Outside};
use mr_tool::run;
use mr_tree::{Sha, XorHash};
use std::alloc::{AllocError, Global};
use std::thread::Threads;

// Names under which there is no file, and what is said of each.
const NAMES: &[(&str, &[u8])] = &[
    (".", b"shelf fault\n"),
    ("/", b"shelf fault\n"),
    ("no/such/file", b"missing no/such/file\n"),
    ("a\0b", b"shelf fault\n"),
];

// Whether a run over the real file system finds no file of that name, and says so.
fn is_missed<R: Threads + SystemFiles + Sync>(
    rt: &R,
    alloc: Global,
    name: &str,
    said: &[u8],
) -> Result<bool, AllocError> {
    let shelf = StdShelf::new(rt, alloc);
    let line = format!(in alloc; "root {name}")?;
    let (status, printed, _shelf) = ran::<Sha, _, _, R>(
        rt,
        alloc,
        line.as_str(),
        shelf,
        &[],
        &NoGate,
    )?;
    Ok(status == Outside && printed.as_slice() == said)
}

fn first_found<R: Threads + SystemFiles + Sync>(
    rt: &R,
    alloc: Global,
    names: &[(&'static str, &[u8])],
) -> Result<Option<&'static str>, AllocError> {
    for (name, said) in names {
        if !is_missed(rt, alloc, name, said)? {
            return Ok(Some(name));
        }
    }
    Ok(None)
}

#[test]
fn the_real_file_system_without_the_file(rt: HostRuntime) {
    all_hold(&rt, first_found(&rt, rt.alloc(), NAMES));
}

fn no_words_are_bad<R: Threads + Sync>(rt: &R, alloc: Global) -> Result<bool, AllocError> {
    let mut out = MemSink::new(alloc, Vec::new(alloc));
    let shelf = shelf_of(alloc, &[("r", "| 7 0 0 0 0 -")], &[])?;
    let (status, _) = run::<XorHash, _, _, _, R>(rt, alloc, &[], shelf, &mut out, &NoGate);
    Ok(status == BadWords && out.bytes() == b"bad words\n".as_slice())
}

#[test]
fn no_words(rt: HostRuntime) {
    holds(&rt, "no words", no_words_are_bad(&rt, rt.alloc()));
}

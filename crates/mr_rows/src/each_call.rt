//! Runs over real files, of which each call on files and on the output fails in turn: what they
//! say, and what they leave. The files of a row stand in the current folder meanwhile.

use crate::failing::{Calls, Failing, Written};
use crate::lines::{bytes_at, item};
use crate::steps::went;
use mr_fixtures::listed::Listed;
use mr_fixtures::parts::{number, numbers};
use mr_fixtures::runs::{shelf_with, words};
use mr_outside::{NoGate, Shelf, Sink};
use mr_system::{StdShelf, StdSink, SystemFiles};
use mr_tool::{Status, changed_in_place, run};
use mr_tree::{Hash32, Sha, XorHash};
use std::alloc::{AllocError, Global};
use std::cell::{Cell, RefCell};
use std::fs::{self, File};
use std::io::Read;
use std::rt::Files;
use std::thread::Threads;

// A row: its files and their names, its command line, and how that ends, what it prints and what
// it makes where no call fails.
#[derive(Drop)]
struct Case {
    is_sha: bool,
    files: Listed,
    names: Vec<String>,
    words: Vec<String>,
    status: i128,
    text: Vec<u8>,
    // The name of the file that is made, empty where none is; and whether it is a map.
    name: String,
    is_map: bool,
    made: Vec<u8>,
}

// How a run ended, what it printed, how many calls it made, and whether the output failed.
#[derive(Drop)]
struct Ended {
    status: u8,
    printed: Vec<u8>,
    calls: u64,
    output_failed: bool,
}

// The program, of which nothing is known but that it ends.
fn carried_out<H: Hash32, S: Shelf + Drop, W: Sink, R: Threads + Sync>(
    rt: &R,
    alloc: Global,
    words: &[String],
    shelf: S,
    out: &mut W,
) -> (Status, S) {
    run::<H, _, _, _, _>(rt, alloc, words, shelf, out, &NoGate)
}

// Runs a command line over files and an output of which a call fails: its status.
fn status_of<H: Hash32, R: Threads + SystemFiles + Sync>(
    rt: &R,
    alloc: Global,
    words: &[String],
    failing: &Failing<'_, R>,
) -> u8 {
    let made = match changed_in_place(words) {
        Some((map, must_write)) => StdShelf::changing(failing, alloc, map, must_write),
        None => Ok(StdShelf::new(failing, alloc)),
    };
    let Ok(shelf) = made else {
        return Status::NoMemory.code();
    };
    let mut out = StdSink::new(failing);
    let (status, _left) = carried_out::<H, _, _, R>(rt, alloc, words, shelf, &mut out);
    status.code()
}

fn ended_by<'a, H: Hash32, R: Threads + SystemFiles + Sync>(
    rt: &'a R,
    alloc: Global,
    words: &[String],
    calls: &'a Calls,
) -> Ended {
    let failing = Failing {
        rt,
        calls,
        taken: RefCell::new(Vec::new(alloc)),
        output_failed: Cell::new(false),
    };
    let status = status_of::<H, R>(rt, alloc, words, &failing);
    Ended {
        status,
        calls: calls.made.get(),
        output_failed: failing.output_failed.get(),
        printed: failing.taken.into_inner(),
    }
}

// Runs the command line of a row, of which this call fails.
fn run_of<R: Threads + SystemFiles + Sync>(
    rt: &R,
    alloc: Global,
    case: &Case,
    failing: u64,
    written: Written,
) -> Ended {
    let calls = Calls {
        failing,
        written,
        made: Cell::new(0),
    };
    if case.is_sha {
        ended_by::<Sha, R>(rt, alloc, &case.words, &calls)
    } else {
        ended_by::<XorHash, R>(rt, alloc, &case.words, &calls)
    }
}

// Takes the files of a row away.
fn clear<R: Files>(rt: &R, case: &Case) {
    for name in &case.names {
        let _ = fs::remove_file(rt, name.as_str());
    }
    let _ = fs::remove_file(rt, case.name.as_str());
}

// Lays out the files of a row. Whether all of them could be written.
fn are_laid<R: Files>(rt: &R, case: &Case) -> bool {
    clear(rt, case);
    for name in &case.names {
        let bytes = case.files.shelf.file(name.as_str()).unwrap_or(b"");
        if fs::write(rt, name.as_str(), bytes).is_err() {
            return false;
        }
    }
    true
}

// The bytes of a file, none where it cannot be read.
fn held<R: Files>(rt: &R, alloc: Global, name: &str) -> Option<Vec<u8>> {
    let Ok(mut file) = File::open(rt, name) else {
        return None;
    };
    let mut bytes = Vec::new(alloc);
    match file.read_to_end(&mut bytes) {
        Ok(_) => Some(bytes),
        Err(_) => None,
    }
}

// The names in the current folder, each ended by a byte 0.
fn names_in<R: Files>(rt: &R, alloc: Global) -> Result<String, AllocError> {
    let mut names = Vec::new(alloc);
    if let Ok(mut folder) = rt.open_dir("./") {
        let _ = folder.read_to_end(&mut names);
    }
    String::from_str(alloc, str::from_utf8(&names).unwrap_or(""))
}

// Whether this name is one of these.
fn is_listed(names: &str, name: &str) -> bool {
    for one in names.split('\0') {
        if one == name {
            return true;
        }
    }
    false
}

// Whether all of these names but one are among those.
fn are_listed(these: &str, those: &str, but: &str) -> bool {
    for name in these.split('\0') {
        if name != but && !is_listed(those, name) {
            return false;
        }
    }
    true
}

// Whether all files of a row are as before, but for the one that is made, and just those files are
// in the folder that were there before.
fn are_kept<R: Files>(
    rt: &R,
    alloc: Global,
    case: &Case,
    before: &str,
) -> Result<bool, AllocError> {
    for name in &case.names {
        let is_made = name.as_str() == case.name.as_str();
        let bytes = case.files.shelf.file(name.as_str());
        let now = held(rt, alloc, name.as_str());
        if !is_made && now.as_deref() != bytes {
            return Ok(false);
        }
    }
    let now = names_in(rt, alloc)?;
    let made = case.name.as_str();
    let are_old = are_listed(now.as_str(), before, made);
    Ok(are_old && are_listed(before, now.as_str(), made))
}

// Whether `list` says of a file that it is no whole map.
fn is_unfinished<R: Threads + Sync>(
    rt: &R,
    alloc: Global,
    is_sha: bool,
    bytes: &[u8],
) -> Result<bool, AllocError> {
    let shelf = Listed::new(alloc, shelf_with(alloc, "m", bytes)?);
    let (said, _left) = went(rt, alloc, is_sha, "list m", shelf, &[])?;
    let printed = said.printed.as_slice();
    let is_size = printed == b"bad map page 0 Size\n".as_slice();
    let is_unsealed = printed == b"bad map page 0 Unsealed\n".as_slice();
    Ok(said.status == 4 && (is_size || is_unsealed))
}

// Whether the file that is made is as before, or whole, or what may stand there for a part of it:
// of a map what `list` refuses, else a front.
fn is_left<R: Threads + SystemFiles + Sync>(
    rt: &R,
    alloc: Global,
    case: &Case,
) -> Result<bool, AllocError> {
    let before = case.files.shelf.file(case.name.as_str());
    let Some(bytes) = held(rt, alloc, case.name.as_str()) else {
        return Ok(before.is_none());
    };
    if before == Some(bytes.as_slice()) || bytes.as_slice() == case.made.as_slice() {
        return Ok(true);
    }
    if case.is_map {
        is_unfinished(rt, alloc, case.is_sha, &bytes)
    } else {
        Ok(case.made.as_slice().starts_with(&bytes))
    }
}

// Whether the file that is made is whole, if one is made.
fn is_made<R: Files>(rt: &R, alloc: Global, case: &Case) -> bool {
    match held(rt, alloc, case.name.as_str()) {
        Some(bytes) => bytes.as_slice() == case.made.as_slice(),
        None => case.name.as_str().is_empty(),
    }
}

// Whether status and text are those of a run that a call cut short.
fn is_told(case: &Case, ended: &Ended) -> bool {
    let printed = ended.printed.as_slice();
    let is_text = if ended.output_failed {
        case.text.as_slice().starts_with(printed)
    } else {
        printed == b"shelf fault\n".as_slice()
    };
    ended.status == 7 && is_text
}

// Whether a run is as it may be of which this call fails, or no call where it makes fewer.
fn is_right<R: Threads + SystemFiles + Sync>(
    rt: &R,
    alloc: Global,
    case: &Case,
    ended: &Ended,
    failing: u64,
) -> Result<bool, AllocError> {
    if ended.calls >= failing {
        Ok(is_told(case, ended) && is_left(rt, alloc, case)?)
    } else {
        let is_text = ended.printed.as_slice() == case.text.as_slice();
        let is_status = i128::from(ended.status) == case.status;
        Ok(is_status && is_text && is_made(rt, alloc, case))
    }
}

// More calls than a run makes.
const MANY: u64 = 10_000;

// Runs a row with each call failing in turn, and then once more: how many calls that run makes;
// none where a run is not as it may be.
fn count_calls<R: Threads + SystemFiles + Sync>(
    rt: &R,
    alloc: Global,
    case: &Case,
    written: Written,
) -> Result<Option<u64>, AllocError> {
    for failing in 1..MANY {
        let is_laid = are_laid(rt, case);
        let before = names_in(rt, alloc)?;
        let ended = run_of(rt, alloc, case, failing, written);
        let is_kept = is_laid && are_kept(rt, alloc, case, before.as_str())?;
        if !is_kept || !is_right(rt, alloc, case, &ended, failing)? {
            return Ok(None);
        }
        if ended.calls < failing {
            return Ok(Some(ended.calls));
        }
    }
    Ok(None)
}

// The words of the first item of this key.
fn words_of<'a>(group: &[&'a str], key: &str) -> &'a str {
    for line in group {
        if item(line).0 == key {
            return item(line).1;
        }
    }
    ""
}

// The bytes of the first item of this key.
fn bytes_of(
    alloc: Global,
    table: &[&str],
    group: &[&str],
    key: &str,
) -> Result<Vec<u8>, AllocError> {
    for (at, line) in group.iter().enumerate() {
        let this = item(line);
        if this.0 == key {
            if let Some(bytes) = bytes_at(alloc, table, group, at, this)? {
                return Ok(bytes);
            }
        }
    }
    Ok(Vec::new(alloc))
}

// The names of the files of a row.
fn names_of(alloc: Global, group: &[&str]) -> Result<Vec<String>, AllocError> {
    let mut names = Vec::new(alloc);
    for line in group {
        let (key, name) = item(line);
        if key == "file" {
            names.push(String::from_str(alloc, name)?)?;
        }
    }
    Ok(names)
}

// Whether a command line is one that makes a map.
fn makes_map(line: &str) -> bool {
    let (command, _) = line.split_once(' ').unwrap_or((line, ""));
    matches!(command, "build" | "build2" | "upgrade" | "apply")
}

// Whether there are so many calls at least.
fn are_enough(calls: Option<u64>, least: &[i128]) -> bool {
    match (calls, least) {
        (Some(calls), [least]) => i128::from(calls) >= *least,
        _ => false,
    }
}

// Whether no file of a row stands in the current folder yet.
fn are_free<R: Files>(rt: &R, alloc: Global, case: &Case) -> bool {
    for name in &case.names {
        if held(rt, alloc, name.as_str()).is_some() {
            return false;
        }
    }
    held(rt, alloc, case.name.as_str()).is_none()
}

// Whether a row over these files is so where each call of its run fails in turn, and the run makes
// so many calls at least.
pub(crate) fn holds<R: Threads + SystemFiles + Sync>(
    rt: &R,
    alloc: Global,
    is_sha: bool,
    table: &[&str],
    group: &[&str],
    files: Listed,
    least: &str,
) -> Result<bool, AllocError> {
    let line = words_of(group, "run");
    let words = words(alloc, line)?;
    let names = names_of(alloc, group)?;
    let name = String::from_str(alloc, words_of(group, "leaves"))?;
    let text = bytes_of(alloc, table, group, "prints")?;
    let made = bytes_of(alloc, table, group, "leaves")?;
    let case = Case {
        is_sha,
        files,
        names,
        words,
        status: number(words_of(group, "status")).unwrap_or(-1),
        text,
        name,
        is_map: makes_map(line),
        made,
    };
    let least = numbers(alloc, least)?;
    if !are_free(rt, alloc, &case) {
        return Ok(false);
    }
    for written in [Written::Nothing, Written::Half, Written::All] {
        let calls = count_calls(rt, alloc, &case, written)?;
        clear(rt, &case);
        if !are_enough(calls, &least) {
            return Ok(false);
        }
    }
    Ok(true)
}

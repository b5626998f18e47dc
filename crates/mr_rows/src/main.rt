//! Tests of whole runs that are written as tables: goes through the tables that it is given, prints
//! how many rows of each hold, and each one that does not.
#![tactic(auto)]

mod each_call;
mod failing;
mod groups;
mod lines;
mod steps;

use mr_outside::read_all;
use mr_system::{StdShelf, SystemFiles};
use std::alloc::{AllocError, Global};
use std::process::ExitCode;
use std::rt::Env;
use std::thread::Threads;
use std::{env, io};

// The text of a file, empty where it is not there or no text.
fn text_of<R: SystemFiles>(rt: &R, alloc: Global, name: &str) -> Result<String, AllocError> {
    let mut shelf = StdShelf::new(rt, alloc);
    match read_all(alloc, &mut shelf, name) {
        Ok(bytes) => String::from_str(alloc, str::from_utf8(&bytes).unwrap_or("")),
        Err(_) => Ok(String::new(alloc)),
    }
}

// Goes through a table: whether all of it holds, and what is printed of it.
fn went<R: Threads + SystemFiles + Sync>(
    rt: &R,
    alloc: Global,
    name: &str,
) -> Result<(bool, String), AllocError> {
    let text = lines::whole_lines(alloc, text_of(rt, alloc, name)?.as_str())?;
    let table: Vec<&str> = text.lines().collect(alloc)?;
    let tally = groups::tallied(rt, alloc, &table)?;
    let mut said = String::new(alloc);
    for line in tally.lines.as_str().lines() {
        said.push_str(format!(in alloc; "{name}: {line}\n")?.as_str())?;
    }
    let (passed, failed) = (tally.passed, tally.failed);
    said.push_str(format!(in alloc; "{name}: {passed} hold, {failed} do not\n")?.as_str())?;
    Ok((passed > 0 && failed == 0, said))
}

// The names after the program's own.
fn names<R: Env + AllocGlobal>(rt: &R) -> io::Result<Vec<String>> {
    let names: Vec<String> = env::args(rt)?.skip(1).collect(rt.alloc())?;
    Ok(names)
}

fn main(rt: HostRuntime) -> io::Result<ExitCode> {
    let mut all_hold = true;
    for name in &names(&rt)? {
        let (holds, said) = went(&rt, rt.alloc(), name.as_str())?;
        print!(rt; "{said}")?;
        if !holds {
            eprint!(rt; "{said}")?;
            all_hold = false;
        }
    }
    Ok(ExitCode::from(if all_hold { 0 } else { 1 }))
}

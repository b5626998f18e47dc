//! The program `mrtree`: its runs are `mr_tool`'s.
#![tactic(auto)]

mod given;
mod shelf;

use mr_system::{StdShelf, StdSink, SystemFiles};
use mr_tree::Sha;
use std::fs::File;
use std::process::ExitCode;
use std::rt::Env;
use std::thread::Threads;
use std::{env, io};

// The words after the program's name.
fn words<R: Env + AllocGlobal>(rt: &R) -> io::Result<Vec<String>> {
    let words: Vec<String> = env::args(rt)?.skip(1).collect(rt.alloc())?;
    Ok(words)
}

// These words, and the files of the system for a run on them.
fn words_and_shelf<R: Env + AllocGlobal + SystemFiles>(
    rt: &R,
) -> io::Result<(Vec<String>, StdShelf<'_, R>)> {
    let words = words(rt)?;
    let shelf = shelf::shelf_for(rt, rt.alloc(), &words)?;
    Ok((words, shelf))
}

// Runs the program on these words over these files, and answers its exit status.
fn ran<R: Threads + Sync + AllocGlobal + SystemFiles + Print>(
    rt: &R,
    words: io::Result<Vec<String>>,
    shelf: StdShelf<'_, R>,
) -> u8 {
    let mut out = StdSink::new(rt);
    let (code, _shelf) = given::run_given::<Sha, _, _, _>(rt, rt.alloc(), words, shelf, &mut out);
    code
}

// Runs it on the words that the system gives.
fn run_program<R: Env + Threads + Sync + AllocGlobal + SystemFiles + Print>(rt: &R) -> u8 {
    match words_and_shelf(rt) {
        Ok((words, shelf)) => ran(rt, Ok(words), shelf),
        Err(error) => ran(rt, Err(error), StdShelf::new(rt, rt.alloc())),
    }
}

fn main(rt: HostRuntime) -> ExitCode {
    // A file that is opened takes the lowest place that is free, and would take that of a standard
    // stream that the caller closed. So these places are taken first, for reading alone: what is
    // printed to a closed output then fails.
    let _places = (
        File::open(&rt, "/dev/null"),
        File::open(&rt, "/dev/null"),
        File::open(&rt, "/dev/null"),
    );
    ExitCode::from(run_program(&rt))
}

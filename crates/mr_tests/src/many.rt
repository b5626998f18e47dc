//! Three thousand queries that are made up, on a map that is made up, after a batch.

use crate::assertions::holds;
use crate::made::word;
use mr_batch::generate_queries;
use mr_fixtures::runs::{ran_on, shelf_of};
use mr_outside::MemShelf;
use mr_tool::Status::{self, Done};
use mr_tree::Sha;
use std::alloc::{AllocError, Global};
use std::thread::Threads;

// The batch that removes the first twenty of two thousand records and puts others on a diagonal.
fn batch(alloc: Global) -> Result<String, AllocError> {
    let mut text = String::from_str(alloc, "batch 1\n")?;
    for i in 1..=20u64 {
        text.push_str(format!(in alloc; "- {i}\n")?.as_str())?;
    }
    for i in 1..=20u64 {
        let (number, x) = (2000 + i, 1000 * i);
        text.push_str(format!(in alloc; "+ {number} {x} {x} {x} {x} -\n")?.as_str())?;
    }
    Ok(text)
}

fn script(alloc: Global) -> Result<String, AllocError> {
    let mut text = String::new(alloc);
    for query in &generate_queries(alloc, 3000, 2)? {
        text.push_str(word(alloc, query)?.as_str())?;
        text.push_str("\n")?;
    }
    Ok(text)
}

// The root of the map after the batch with its line feed, and the shelf with the map in file `n`,
// the script and its bundle.
fn served<R: Threads + Sync>(rt: &R, alloc: Global) -> Result<(Vec<u8>, MemShelf), AllocError> {
    let mut shelf = shelf_of(alloc, &[], &[])?;
    shelf.put("b", batch(alloc)?.as_bytes())?;
    shelf.put("s", script(alloc)?.as_bytes())?;
    let mut root = Vec::new(alloc);
    for line in ["make 2000 1 r", "build m r", "apply m b n", "serve n s u"] {
        let mut said = Vec::new(alloc);
        let (_, left) = ran_on::<Sha, R>(rt, alloc, line, shelf, &mut said)?;
        if line == "apply m b n" {
            root = said;
        }
        shelf = left;
    }
    Ok((root, shelf))
}

// How the check of that bundle ends, and what it prints.
fn checked<R: Threads + Sync>(rt: &R, alloc: Global) -> Result<(Status, Vec<u8>), AllocError> {
    let (root, shelf) = served(rt, alloc)?;
    let digits = str::from_utf8(&root).unwrap_or("");
    let line = format!(in alloc; "check-all {} s u", digits.trim_end())?;
    let mut said = Vec::new(alloc);
    let (status, _) = ran_on::<Sha, R>(rt, alloc, line.as_str(), shelf, &mut said)?;
    Ok((status, said))
}

const LAST_LINE: &[u8] = b"\naccepted 3000 refused 0 missing 0\n";

fn are_accepted<R: Threads + Sync>(rt: &R, alloc: Global) -> Result<bool, AllocError> {
    let (status, said) = checked(rt, alloc)?;
    Ok(status == Done && said.as_slice().ends_with(LAST_LINE))
}

#[test]
fn three_thousand_queries_after_a_batch(rt: HostRuntime) {
    holds(&rt, "the last line", are_accepted(&rt, rt.alloc()));
}

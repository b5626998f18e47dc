//! The figures that the command `demo` prints, added up.

ghost use Rattle.mr_query.specs.Word.{IsAskable};

use crate::assertions::holds;
use mr_batch::generate_queries;
use mr_fixtures::cuts::agrees;
use mr_fixtures::runs::{ran, shelf_of};
use mr_outside::{MemShelf, MemSink, NoGate};
use mr_query::{Query, write_query};
use mr_record::read_u64;
use mr_tool::Status::Done;
use mr_tree::Sha;
use std::alloc::{AllocError, Global};
use std::thread::Threads;

// The map in file `m` of the records that a demonstration makes, and its root.
fn mapped<R: Threads + Sync>(rt: &R, alloc: Global) -> Result<(String, MemShelf), AllocError> {
    let shelf = shelf_of(alloc, &[], &[])?;
    let (_, _, shelf) = ran::<Sha, _, _, R>(rt, alloc, "make 1000 1 r", shelf, &[], &NoGate)?;
    let (_, said, shelf) = ran::<Sha, _, _, R>(rt, alloc, "build m r", shelf, &[], &NoGate)?;
    let root = str::from_utf8(&said).unwrap_or("");
    Ok((String::from_str(alloc, root.trim_end())?, shelf))
}

/// The word of a query, or as much of it as there was memory for.
pub fn word(alloc: Global, query: &Query) -> Result<String, AllocError>
    requires { IsAskable query.now }
{
    let mut out = MemSink::new(alloc, Vec::new(alloc));
    let _ = write_query(&mut out, query);
    String::from_str(alloc, str::from_utf8(out.bytes()).unwrap_or(""))
}

// The number in the line on a proof.
fn proof_length(line: &[u8]) -> Option<u64> {
    read_u64(line.strip_prefix(b"proof ")?.strip_suffix(b"\n")?)
}

// How many lines a text has.
fn lines(text: &[u8]) -> u64 {
    let mut count = 0u64;
    for byte in text {
        if *byte == b'\n' {
            count = count.wrapping_add(1);
        }
    }
    count
}

// How many proofs were accepted, how many records their answers have, and how many bytes they have
// themselves.
#[derive(Clone, Copy)]
struct Figures {
    accepted: u64,
    answers: u64,
    bytes: u64,
}

// The shelf with the proof of this query on the map in file `m`, and the length of the proof.
fn proved<R: Threads + Sync>(
    rt: &R,
    alloc: Global,
    query: &str,
    shelf: MemShelf,
) -> Result<(u64, MemShelf), AllocError> {
    let line = format!(in alloc; "prove m {query} p")?;
    let (_, said, shelf) = ran::<Sha, _, _, R>(rt, alloc, line.as_str(), shelf, &[], &NoGate)?;
    Ok((proof_length(&said).unwrap_or(0), shelf))
}

// What these were with one query more, which is proved on the map in file `m` and checked.
fn tried<R: Threads + Sync>(
    rt: &R,
    alloc: Global,
    root: &str,
    query: &str,
    shelf: MemShelf,
    so_far: &Figures,
) -> Result<(Figures, MemShelf), AllocError> {
    let (length, shelf) = proved(rt, alloc, query, shelf)?;
    let line = format!(in alloc; "check {root} {query} p")?;
    let (status, answer, shelf) = ran::<Sha, _, _, R>(
        rt,
        alloc,
        line.as_str(),
        shelf,
        &[],
        &NoGate,
    )?;
    let same = agrees::<Sha>(alloc, line.as_str(), &shelf, status, &answer)?;
    let figures = Figures {
        accepted: so_far
            .accepted
            .wrapping_add(u64::from(status == Done && same)),
        answers: so_far.answers.wrapping_add(lines(&answer)),
        bytes: so_far.bytes.wrapping_add(length),
    };
    Ok((figures, shelf))
}

// What all queries of a demonstration come to, proved and checked one by one.
fn all_tried<R: Threads + Sync>(
    rt: &R,
    alloc: Global,
    root: &str,
    shelf: MemShelf,
) -> Result<Figures, AllocError> {
    let mut shelf = shelf;
    let mut figures = Figures {
        accepted: 0,
        answers: 0,
        bytes: 0,
    };
    for query in &generate_queries(alloc, 64, 1)? {
        let query = word(alloc, query)?;
        let (sum, left) = tried(rt, alloc, root, query.as_str(), shelf, &figures)?;
        figures = sum;
        shelf = left;
    }
    Ok(figures)
}

// What a demonstration prints of them.
fn printed(alloc: Global, root: &str, figures: &Figures) -> Result<String, AllocError> {
    let Figures {
        accepted,
        answers,
        bytes,
    } = *figures;
    format!(in alloc;
        "records 1000\nlevel 1\nroot {root}\nqueries 64\naccepted {accepted}\nanswers {answers}\n\
         bytes {bytes}\n"
    )
}

// Whether a demonstration prints this.
fn is_shown<R: Threads + Sync>(rt: &R, alloc: Global, text: &str) -> Result<bool, AllocError> {
    let shelf = shelf_of(alloc, &[], &[])?;
    let (status, said, _) = ran::<Sha, _, _, R>(rt, alloc, "demo 1000 1", shelf, &[], &NoGate)?;
    Ok(status == Done && said.as_slice() == text.as_bytes())
}

fn adds_up<R: Threads + Sync>(rt: &R, alloc: Global) -> Result<bool, AllocError> {
    let (root, shelf) = mapped(rt, alloc)?;
    let figures = all_tried(rt, alloc, root.as_str(), shelf)?;
    is_shown(rt, alloc, printed(alloc, root.as_str(), &figures)?.as_str())
}

#[test]
fn a_demonstration_adds_up(rt: HostRuntime) {
    holds(&rt, "64 queries", adds_up(&rt, rt.alloc()));
}

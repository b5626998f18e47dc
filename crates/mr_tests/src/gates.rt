//! The gate that a run is given: each piece of work passes it once, and two pieces are at work at
//! once, since either one may wait behind the gate until the other has left.

use crate::assertions::holds;
use crate::files::BOTH;
use crate::joined::{numbers, plain};
use mr_fixtures::parts::bytes_of;
use mr_fixtures::runs::{ran, shelf_of};
use mr_outside::{Gate, MemShelf, NoGate};
use mr_record::read_lines;
use mr_tool::Status;
use mr_tree::Sha;
use std::alloc::{AllocError, Global};
use std::hint::spin_loop;
use std::sync::atomic::{AtomicU64, Ordering};
use std::thread::Threads;

// How often a piece came, how often it went, and the number that it went with.
#[derive(Drop)]
struct Passage {
    entered: AtomicU64,
    left: AtomicU64,
    found: AtomicU64,
}

/// Counts for each of some pieces how often it passes.
#[derive(Drop)]
pub struct Passages {
    list: Vec<Passage>,
    // How often another piece came or went.
    others: AtomicU64,
}

impl Gate for Passages {
    fn enter(&self, piece: usize) {
        match self.list.get(piece) {
            Some(passage) => passage.entered.fetch_add(1, Ordering::SeqCst),
            None => self.others.fetch_add(1, Ordering::SeqCst),
        };
    }

    fn leave(&self, piece: usize, found: u64) {
        match self.list.get(piece) {
            Some(passage) => {
                passage.found.store(found, Ordering::SeqCst);
                passage.left.fetch_add(1, Ordering::SeqCst)
            }
            None => self.others.fetch_add(1, Ordering::SeqCst),
        };
    }
}

/// A gate for so many pieces.
pub fn fresh(alloc: Global, pieces: usize) -> Result<Passages, AllocError> {
    let mut list = Vec::new(alloc);
    for _ in 0..pieces {
        list.push(Passage {
            entered: AtomicU64::new(0),
            left: AtomicU64::new(0),
            found: AtomicU64::new(0),
        })?;
    }
    Ok(Passages {
        list,
        others: AtomicU64::new(0),
    })
}

/// Whether each piece came and went once, and no other did.
pub fn each_once(gate: &Passages) -> bool {
    for passage in &gate.list {
        if passage.entered.load(Ordering::SeqCst) != 1 || passage.left.load(Ordering::SeqCst) != 1 {
            return false;
        }
    }
    gate.others.load(Ordering::SeqCst) == 0
}

/// Whether so many pieces passed as there are numbers, each once and with its number.
pub fn is_passed(gate: &Passages, numbers: &[u64]) -> bool {
    for (passage, number) in gate.list.iter().zip(numbers) {
        if passage.found.load(Ordering::SeqCst) != *number {
            return false;
        }
    }
    gate.list.len() == numbers.len() && each_once(gate)
}

/// Whether a piece came and went.
pub fn has_left(gate: &Passages, piece: usize) -> bool {
    match gate.list.get(piece) {
        Some(passage) => passage.left.load(Ordering::SeqCst) > 0,
        None => false,
    }
}

// How many turns a piece is held at most.
const TURNS: u64 = 200_000_000;

// Holds a piece that enters until another one has left, and counts the holds that come to their
// last turn.
#[derive(Drop)]
struct Holding {
    passages: Passages,
    held: usize,
    awaited: usize,
    expired: AtomicU64,
}

// Whether a piece left within so many turns.
fn leaves_in_time(gate: &Passages, piece: usize) -> bool {
    for _ in 0..TURNS {
        if has_left(gate, piece) {
            return true;
        }
        spin_loop();
    }
    false
}

impl Gate for Holding {
    fn enter(&self, piece: usize) {
        self.passages.enter(piece);
        if piece == self.held && !leaves_in_time(&self.passages, self.awaited) {
            self.expired.fetch_add(1, Ordering::SeqCst);
        }
    }

    fn leave(&self, piece: usize, found: u64) {
        self.passages.leave(piece, found);
    }
}

// The root of the records I at (I,0) for I from 1 to 17, from a program of another language.
const ROOT: &[u8] = b"fca9bc9b6913b889be0ca77137347077fd3728352e16c0e58283d2175d1eb0bf\n";

// Whether the map of those records is built, through this gate.
fn builds<G: Gate, R: Threads + Sync>(rt: &R, alloc: Global, gate: &G) -> Result<bool, AllocError> {
    let shelf = shelf_of(alloc, &[("r", "points 17")], &[])?;
    let (status, printed, _) = ran::<Sha, _, G, R>(rt, alloc, "build m r", shelf, &[], gate)?;
    Ok(status == Status::Done && printed.as_slice() == ROOT)
}

// The numbers of the leaves of those records, by one thread.
fn expected(alloc: Global) -> Result<Vec<u64>, AllocError> {
    let mut list = Vec::new(alloc);
    if let Ok(records) = read_lines(alloc, &bytes_of(alloc, "points 17")?) {
        if let Some(tree) = plain(alloc, records) {
            numbers::<Sha>(&tree, &mut list)?;
        }
    }
    Ok(list)
}

fn gate_that_holds(alloc: Global, held: usize, awaited: usize) -> Result<Holding, AllocError> {
    Ok(Holding {
        passages: fresh(alloc, 2)?,
        held,
        awaited,
        expired: AtomicU64::new(0),
    })
}

// Whether the map is built, no piece was held to its last turn, and both passed with their numbers.
fn is_built<R: Threads + Sync>(rt: &R, alloc: Global, gate: &Holding) -> Result<bool, AllocError> {
    let built = builds(rt, alloc, gate)? && gate.expired.load(Ordering::SeqCst) == 0;
    let numbers = expected(alloc)?;
    Ok(built && numbers.len() == 2 && is_passed(&gate.passages, &numbers))
}

fn is_built_holding<R: Threads + Sync>(
    rt: &R,
    alloc: Global,
    held: usize,
    awaited: usize,
) -> Result<bool, AllocError> {
    is_built(rt, alloc, &gate_that_holds(alloc, held, awaited)?)
}

#[test]
fn gate_build(rt: HostRuntime) {
    holds(
        &rt,
        "the second is held",
        is_built_holding(&rt, rt.alloc(), 1, 0),
    );
    holds(
        &rt,
        "the first is held",
        is_built_holding(&rt, rt.alloc(), 0, 1),
    );
}

// Whether no piece was held to its last turn, and both passed with these numbers.
fn is_held(gate: &Holding, numbers: &[u64]) -> bool {
    gate.expired.load(Ordering::SeqCst) == 0 && is_passed(&gate.passages, numbers)
}

// A shelf with the map of one record, and a script of two queries.
fn with_map<R: Threads + Sync>(rt: &R, alloc: Global) -> Result<MemShelf, AllocError> {
    let shelf = shelf_of(alloc, &[("r", "| 7 0 0 0 0 -"), ("s", BOTH)], &[])?;
    let (_, _, left) = ran::<Sha, _, _, R>(rt, alloc, "build m r", shelf, &[], &NoGate)?;
    Ok(left)
}

const SERVED: &[u8] = b"served 2 130\n";

// Whether those queries are proved through a gate that holds one of them, each with the length of
// its proof.
fn is_served_holding<R: Threads + Sync>(
    rt: &R,
    alloc: Global,
    held: usize,
    awaited: usize,
) -> Result<bool, AllocError> {
    let gate = gate_that_holds(alloc, held, awaited)?;
    let shelf = with_map(rt, alloc)?;
    let (status, said, _) = ran::<Sha, _, _, R>(rt, alloc, "serve m s u", shelf, &[], &gate)?;
    Ok(status == Status::Done && said.as_slice() == SERVED && is_held(&gate, &[50, 72]))
}

#[test]
fn gate_serve(rt: HostRuntime) {
    holds(
        &rt,
        "the second is held",
        is_served_holding(&rt, rt.alloc(), 1, 0),
    );
    holds(
        &rt,
        "the first is held",
        is_served_holding(&rt, rt.alloc(), 0, 1),
    );
}

// Against the root of that map, from a program of another language.
const CHECK: &str =
    "check-all 716d2dec7b832d185f91843ff8c9a4cc84e0d747d8631967f03309e3076584b6 s u";

const VERDICTS: &[u8] =
    b"query 1 ok 1\n7 0 0 0 0 -\nquery 2 ok 0\naccepted 2 refused 0 missing 0\n";

// Whether their proofs are checked so, each with the number of records that it answers.
fn is_checked_holding<R: Threads + Sync>(
    rt: &R,
    alloc: Global,
    held: usize,
    awaited: usize,
) -> Result<bool, AllocError> {
    let gate = gate_that_holds(alloc, held, awaited)?;
    let shelf = with_map(rt, alloc)?;
    let (_, _, left) = ran::<Sha, _, _, R>(rt, alloc, "serve m s u", shelf, &[], &NoGate)?;
    let (status, said, _) = ran::<Sha, _, _, R>(rt, alloc, CHECK, left, &[], &gate)?;
    Ok(status == Status::Done && said.as_slice() == VERDICTS && is_held(&gate, &[1, 0]))
}

#[test]
fn gate_check(rt: HostRuntime) {
    holds(
        &rt,
        "the second is held",
        is_checked_holding(&rt, rt.alloc(), 1, 0),
    );
    holds(
        &rt,
        "the first is held",
        is_checked_holding(&rt, rt.alloc(), 0, 1),
    );
}

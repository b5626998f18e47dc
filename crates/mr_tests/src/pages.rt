//! What `prove`, `audit`, `serve`, `count` and `audit-count` say of a map that changes while it is
//! read.

ghost use Rattle.std.specs.Prelude.{◌≡◌};

use crate::assertions::all_hold;
use mr_fixtures::runs::{file_of, ran, ran_on, shelf_of};
use mr_outside::{MemShelf, NoGate, Shelf, ShelfErr};
use mr_tool::Status::{self, BadMap, BadText, Done, Outside};
use mr_tree::XorHash;
use std::alloc::{AllocError, Global};
use std::thread::Threads;

// Runs these command lines over one shelf.
fn left_by<R: Threads + Sync>(
    rt: &R,
    alloc: Global,
    lines: &[&str],
) -> Result<MemShelf, AllocError> {
    let mut shelf = shelf_of(alloc, &[], &[])?;
    for line in lines {
        let (_, left) = ran_on::<XorHash, R>(rt, alloc, line, shelf, &mut Vec::new(alloc))?;
        shelf = left;
    }
    Ok(shelf)
}

const WHOLE: &str = "prove m window:-1000000,-1000000,1000063,1000063 p";

const WHOLE_AUDIT: &str = "audit m window:-1000000,-1000000,1000063,1000063 p";

// The window cuts the leaf on page 3.
const COUNTED: &str = "count m window:-950000,-1000000,950000,1000063 p";

const COUNTED_AUDIT: &str = "audit-count m window:-950000,-1000000,950000,1000063 p";

// How the shelf of each table is made: the map m in this version, and a proof on it.
const FIRST: &[&str] = &["make 5000 3 r", "build m r", WHOLE];

const SECOND: &[&str] = &["make 5000 3 r", "build n r", "upgrade n m", COUNTED];

// What stands in the proof's file is no script, which is read behind the map.
const SERVED: &str = "serve m p b";

// Tells nothing, and gives the bytes of a map and of a proof. After so many reads one byte of the
// map is another, or nothing is left of it; or it is gone, after as many reads as its turn says.
#[derive(Drop)]
struct Turned {
    map: Vec<u8>,
    proof: Vec<u8>,
    faults: u64,
    reads: u64,
    after: u64,
    turn: Turn,
}

#[derive(Clone, Copy)]
enum Turn {
    No,
    Byte(usize, u8),
    Cut,
    Gone(u64),
}

impl Turned {
    fn turn(&mut self)
        ensures reads { self.new.reads ≡ self.old.reads }
        ensures faults { self.new.faults ≡ self.old.faults }
    {
        match self.turn {
            Turn::No | Turn::Gone(_) => {}
            Turn::Byte(at, byte) => {
                if at < self.map.len() {
                    self.map[at] = byte;
                }
            }
            Turn::Cut => self.map.truncate(0),
        }
    }

    // Whether there is no file of this name any more.
    fn is_gone(&self, name: &str) -> bool {
        match self.turn {
            Turn::Gone(after) => name == "m" && self.reads >= after,
            _ => false,
        }
    }

    fn bytes(&self, name: &str) -> &[u8] {
        if name == "m" {
            self.map.as_slice()
        } else {
            self.proof.as_slice()
        }
    }
}

impl Shelf for Turned {
    ghost use Rattle.mr_outside.specs.Edge.{untold_shelf};

    ghost state = { λ s. untold_shelf s.faults s.reads };

    fn size(&mut self, name: &str) -> Result<u64, ShelfErr> {
        Ok(self.bytes(name).len() as u64)
    }

    fn read_at(&mut self, name: &str, at: u64, into: &mut [u8]) -> Result<usize, ShelfErr> {
        if self.is_gone(name) {
            self.faults = self.faults.saturating_add(1);
            return Err(ShelfErr::Missing);
        }
        if self.reads >= self.after {
            self.turn();
        }
        self.reads = self.reads.saturating_add(1);
        let bytes = self.bytes(name);
        let at = (at as usize).min(bytes.len());
        let count = into.len().min(bytes.len() - at);
        into[..count].copy_from_slice(&bytes[at..at + count]);
        Ok(count)
    }

    fn create(&mut self, _name: &str) -> Result<(), ShelfErr> {
        Ok(())
    }

    fn append(&mut self, _name: &str, _bytes: &[u8]) -> Result<(), ShelfErr> {
        Ok(())
    }

    fn write_at(&mut self, _name: &str, _at: u64, _bytes: &[u8]) -> Result<(), ShelfErr> {
        Ok(())
    }

    fn sync(&mut self, _name: &str) -> Result<(), ShelfErr> {
        Ok(())
    }
}

// How many reads open the map, which has as many pages.
const OPENED: u64 = 320;

// What comes of a command line where a map of 320 pages turns, once it was opened or, where it is
// gone, before its first page is read: how it ends, and how what it prints begins.
struct Row {
    name: &'static str,
    words: &'static str,
    turn: Turn,
    status: Status,
    text: &'static str,
}

// Page 3 is the first leaf's, and page 257 the fifth inner node's below the root. Neither is kept
// when it is sought: page 3 gives way to page 257 as the map is opened, and page 257 to the last of
// the 251 leaves before it. The first child of that is page 258.
const ROWS: &[Row] = &[
    Row {
        name: "a proof of a map that stays",
        words: WHOLE,
        turn: Turn::No,
        status: Done,
        text: "proof ",
    },
    Row {
        name: "a proof of a map with another record",
        words: WHOLE,
        turn: Turn::Byte(12_297, 0xff),
        status: BadMap,
        text: "bad map page 3 Changed held ",
    },
    Row {
        name: "a proof of a map with a page that is no node",
        words: WHOLE,
        turn: Turn::Byte(12_288, 0xff),
        status: BadMap,
        text: "bad map page 3 Page\n",
    },
    Row {
        name: "a proof of a map that is cut off",
        words: WHOLE,
        turn: Turn::Cut,
        status: BadMap,
        text: "bad map page 3 Page\n",
    },
    Row {
        name: "a proof of a map that is gone",
        words: WHOLE,
        turn: Turn::Gone(OPENED),
        status: Outside,
        text: "missing m\n",
    },
    Row {
        name: "a proof of a map with a child behind its end",
        words: WHOLE,
        turn: Turn::Byte(1_052_675, 0xff),
        status: BadMap,
        text: "bad map page 4278190338 Outside\n",
    },
    Row {
        name: "an audit on a map that stays",
        words: WHOLE_AUDIT,
        turn: Turn::No,
        status: Done,
        text: "sound\n",
    },
    Row {
        name: "an audit on a map with another record",
        words: WHOLE_AUDIT,
        turn: Turn::Byte(12_297, 0xff),
        status: BadMap,
        text: "bad map page 3 Changed held ",
    },
    Row {
        name: "an audit on a map that is gone",
        words: WHOLE_AUDIT,
        turn: Turn::Gone(OPENED),
        status: Outside,
        text: "missing m\n",
    },
    Row {
        name: "an audit on a map with a child behind its end",
        words: WHOLE_AUDIT,
        turn: Turn::Byte(1_052_675, 0xff),
        status: BadMap,
        text: "bad map page 4278190338 Outside\n",
    },
    Row {
        name: "many proofs of a map that stays",
        words: SERVED,
        turn: Turn::No,
        status: BadText,
        text: "bad text line 1 ",
    },
    Row {
        name: "many proofs of a map with another record, which is not read again",
        words: SERVED,
        turn: Turn::Byte(12_297, 0xff),
        status: BadText,
        text: "bad text line 1 ",
    },
    Row {
        name: "many proofs of a map that is cut off, which is not read again",
        words: SERVED,
        turn: Turn::Cut,
        status: BadText,
        text: "bad text line 1 ",
    },
    Row {
        name: "many proofs of a map that is gone, which is not read again",
        words: SERVED,
        turn: Turn::Gone(OPENED),
        status: BadText,
        text: "bad text line 1 ",
    },
    Row {
        name: "a list of a map that is gone before its first page is read",
        words: "list m",
        turn: Turn::Gone(0),
        status: Outside,
        text: "missing m\n",
    },
    Row {
        name: "a proof of a map that is gone before its first page is read",
        words: WHOLE,
        turn: Turn::Gone(0),
        status: Outside,
        text: "missing m\n",
    },
    Row {
        name: "an audit on a map that is gone before its first page is read",
        words: WHOLE_AUDIT,
        turn: Turn::Gone(0),
        status: Outside,
        text: "missing m\n",
    },
    Row {
        name: "many proofs of a map that is gone before its first page is read",
        words: SERVED,
        turn: Turn::Gone(0),
        status: Outside,
        text: "missing m\n",
    },
    Row {
        name: "a batch on a map that is gone before its first page is read",
        words: "apply m p n",
        turn: Turn::Gone(0),
        status: Outside,
        text: "missing m\n",
    },
];

// The same of the map in version 2.
const COUNT_ROWS: &[Row] = &[
    Row {
        name: "a count on a map that stays",
        words: COUNTED,
        turn: Turn::No,
        status: Done,
        text: "proof ",
    },
    Row {
        name: "a count on a map with another record",
        words: COUNTED,
        turn: Turn::Byte(24_585, 0xff),
        status: BadMap,
        text: "bad map page 3 Changed held ",
    },
    Row {
        name: "a count on a map with a page that is no node",
        words: COUNTED,
        turn: Turn::Byte(24_576, 0xff),
        status: BadMap,
        text: "bad map page 3 Page\n",
    },
    Row {
        name: "a count on a map that is gone",
        words: COUNTED,
        turn: Turn::Gone(OPENED),
        status: Outside,
        text: "missing m\n",
    },
    Row {
        name: "a count on a map that is gone before its first page is read",
        words: COUNTED,
        turn: Turn::Gone(0),
        status: Outside,
        text: "missing m\n",
    },
    Row {
        name: "an audit of a count on a map that stays",
        words: COUNTED_AUDIT,
        turn: Turn::No,
        status: Done,
        text: "sound\ncount ",
    },
    Row {
        name: "an audit of a count on a map with another record",
        words: COUNTED_AUDIT,
        turn: Turn::Byte(24_585, 0xff),
        status: BadMap,
        text: "bad map page 3 Changed held ",
    },
    Row {
        name: "an audit of a count on a map that is gone",
        words: COUNTED_AUDIT,
        turn: Turn::Gone(OPENED),
        status: Outside,
        text: "missing m\n",
    },
];

// Whether the command line ends so over the map and the proof of a shelf.
fn is_so<R: Threads + Sync>(
    rt: &R,
    alloc: Global,
    row: &Row,
    shelf: &MemShelf,
) -> Result<bool, AllocError> {
    let turned = Turned {
        map: file_of(alloc, shelf, "m")?,
        proof: file_of(alloc, shelf, "p")?,
        faults: 0,
        reads: 0,
        after: OPENED,
        turn: row.turn,
    };
    let (status, text, _) = ran::<XorHash, _, _, R>(rt, alloc, row.words, turned, &[], &NoGate)?;
    Ok(status == row.status && text.starts_with(row.text.as_bytes()))
}

// The first row that is otherwise, over the shelf that these command lines leave.
fn first_other<'a, R: Threads + Sync>(
    rt: &R,
    alloc: Global,
    lines: &[&str],
    rows: &'a [Row],
) -> Result<Option<&'a str>, AllocError> {
    let shelf = left_by(rt, alloc, lines)?;
    for row in rows {
        if !is_so(rt, alloc, row, &shelf)? {
            return Ok(Some(row.name));
        }
    }
    Ok(None)
}

#[test]
fn a_map_that_changes_while_it_is_read_is_refused(rt: HostRuntime) {
    all_hold(&rt, first_other(&rt, rt.alloc(), FIRST, ROWS));
}

#[test]
fn a_counted_map_that_changes_while_it_is_read_is_refused(rt: HostRuntime) {
    all_hold(&rt, first_other(&rt, rt.alloc(), SECOND, COUNT_ROWS));
}

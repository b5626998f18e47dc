//! Maps whose file has other bytes when its pages are read again, or is gone then: what `apply`
//! says of it, while it changes the copy of a map. Under the exclusive or of all bytes, so that
//! nodes differ that have one digest.

ghost use Rattle.std.specs.Prelude.{◌≡◌, OnOk, OnErr};
ghost use Rattle.mr_outside.specs.Faults.{next_count};

use crate::assertions::all_hold;
use mr_fixtures::parts::{File, expanded};
use mr_fixtures::runs::{file_of, ran, ran_on, shelf_of};
use mr_outside::{MemShelf, NoGate, Shelf, ShelfErr};
use mr_tool::Status::{self, BadMap, Outside};
use mr_tree::XorHash;
use std::alloc::{AllocError, Global};
use std::thread::Threads;

// Files of which nothing is told. After so many reads one of them has other bytes, and one is gone.
#[derive(Drop)]
struct Turned {
    alloc: Global,
    shelf: MemShelf,
    name: &'static str,
    bytes: Vec<u8>,
    gone: &'static str,
    after: u64,
    faults: u64,
    reads: u64,
}

// Counts a fault just where a call is refused.
fn count_refusal<T>(faults: &mut u64, answer: &Result<T, ShelfErr>)
    ensures refused { OnErr answer.now (faults.new ≡ next_count faults.old) }
    ensures quiet { OnOk answer.now (faults.new ≡ faults.old) }
{
    if answer.is_err() {
        *faults = faults.saturating_add(1);
    }
}

// Counts a read just where it is answered.
fn count_read<T>(reads: &mut u64, answer: &Result<T, ShelfErr>)
    ensures answered { OnOk answer.now (reads.new ≡ next_count reads.old) }
    ensures refused { OnErr answer.now (reads.new ≡ reads.old) }
{
    if answer.is_ok() {
        *reads = reads.saturating_add(1);
    }
}

// The name under which a file is looked for: none has the empty one.
fn found_as<'a>(name: &'a str, gone: &str, is_gone: bool) -> &'a str {
    if is_gone && name == gone { "" } else { name }
}

// The bytes with these from a place on.
fn overwritten(alloc: Global, old: &[u8], at: usize, bytes: &[u8]) -> Result<Vec<u8>, AllocError> {
    let (front, behind) = old.split_at(at.min(old.len()));
    let (_, rest) = behind.split_at(bytes.len().min(behind.len()));
    let mut all = front.to_vec(alloc)?;
    all.extend_from_slice(bytes)?;
    all.extend_from_slice(rest)?;
    Ok(all)
}

fn write(
    alloc: Global,
    shelf: &mut MemShelf,
    name: &str,
    at: u64,
    bytes: &[u8],
) -> Result<(), ShelfErr> {
    let all = overwritten(alloc, shelf.file(name).unwrap_or(&[]), at as usize, bytes)?;
    shelf.put(name, &all)?;
    Ok(())
}

impl Shelf for Turned {
    ghost use Rattle.mr_outside.specs.Edge.{untold_shelf};

    ghost state = { λ s. untold_shelf s.faults s.reads };

    fn size(&mut self, name: &str) -> Result<u64, ShelfErr> {
        Ok(self.shelf.file(name).unwrap_or(&[]).len() as u64)
    }

    fn read_at(&mut self, name: &str, at: u64, into: &mut [u8]) -> Result<usize, ShelfErr> {
        if self.reads == self.after {
            let _ = self.shelf.put(self.name, &self.bytes);
        }
        let name = found_as(name, self.gone, self.reads >= self.after);
        let answer = self.shelf.read_at(name, at, into);
        count_refusal(&mut self.faults, &answer);
        count_read(&mut self.reads, &answer);
        answer
    }

    fn create(&mut self, name: &str) -> Result<(), ShelfErr> {
        let answer = self.shelf.create(name);
        count_refusal(&mut self.faults, &answer);
        answer
    }

    fn append(&mut self, name: &str, bytes: &[u8]) -> Result<(), ShelfErr> {
        let name = found_as(name, self.gone, self.reads >= self.after);
        let answer = self.shelf.append(name, bytes);
        count_refusal(&mut self.faults, &answer);
        answer
    }

    fn write_at(&mut self, name: &str, at: u64, bytes: &[u8]) -> Result<(), ShelfErr> {
        let answer = write(self.alloc, &mut self.shelf, name, at, bytes);
        count_refusal(&mut self.faults, &answer);
        answer
    }

    fn sync(&mut self, name: &str) -> Result<(), ShelfErr> {
        let answer = self.shelf.sync(name);
        count_refusal(&mut self.faults, &answer);
        answer
    }
}

// Bytes from a place on.
type Edit<'a> = (usize, &'a [u8]);

// Files, the command lines that make a map of them, and the one that is run then, which has made so
// many reads when it reads a page of the map again.
#[derive(Clone, Copy)]
struct Scene<'a> {
    files: &'a [File<'a>],
    made: &'a [&'a str],
    words: &'a str,
    map: &'static str,
    after: u64,
}

// What stands in the map's file from then on, and which file is gone; how the command ends, and
// what it says.
#[derive(Clone, Copy)]
struct Case<'a> {
    name: &'a str,
    edits: &'a [Edit<'a>],
    gone: &'static str,
    status: Status,
    says: &'a str,
}

// The map's file as it stands from then on.
fn bytes_then(
    alloc: Global,
    shelf: &MemShelf,
    name: &str,
    edits: &[Edit<'_>],
) -> Result<Vec<u8>, AllocError> {
    let mut bytes = file_of(alloc, shelf, name)?;
    for (at, new) in edits {
        bytes = overwritten(alloc, &bytes, *at, new)?;
    }
    Ok(bytes)
}

// The files of a scene with its map.
fn made<R: Threads + Sync>(
    rt: &R,
    alloc: Global,
    scene: &Scene<'_>,
) -> Result<MemShelf, AllocError> {
    let mut said = Vec::new(alloc);
    let mut shelf = shelf_of(alloc, scene.files, &[])?;
    for words in scene.made {
        let (_, left) = ran_on::<XorHash, R>(rt, alloc, words, shelf, &mut said)?;
        shelf = left;
    }
    Ok(shelf)
}

fn is_said<R: Threads + Sync>(
    rt: &R,
    alloc: Global,
    scene: &Scene<'_>,
    case: &Case<'_>,
) -> Result<bool, AllocError> {
    let shelf = made(rt, alloc, scene)?;
    let shelf = Turned {
        alloc,
        bytes: bytes_then(alloc, &shelf, scene.map, case.edits)?,
        shelf,
        name: scene.map,
        gone: case.gone,
        after: scene.after,
        faults: 0,
        reads: 0,
    };
    let (status, said, _) = ran::<XorHash, _, _, R>(rt, alloc, scene.words, shelf, &[], &NoGate)?;
    Ok(status == case.status && said.as_slice() == expanded(alloc, case.says)?.as_bytes())
}

fn first_unsaid<R: Threads + Sync>(
    rt: &R,
    alloc: Global,
    scene: &Scene<'_>,
    cases: &[Case<'static>],
) -> Result<Option<&'static str>, AllocError> {
    for case in cases {
        if !is_said(rt, alloc, scene, case)? {
            return Ok(Some(case.name));
        }
    }
    Ok(None)
}

// A map of 320 pages, of which page 1 is the root, and page 3 a leaf of the records 1 to 15 with
// the digest 43.
const LARGE: Scene<'static> = Scene {
    files: &[("r", "points 5000"), ("b", "| batch 1\n| - 7")],
    made: &["build m r"],
    words: "apply m b n",
    map: "m",
    after: 321,
};

// Record 15 at (15,0), as it stands in a leaf.
const FIFTEEN: &[u8] = b"\0\0\0\0\0\0\0\x0f\0\0\0\x0f\0\0\0\0\0\0\0\x0f\0\0\0\0\0";

const LARGE_COPIED: &[Case<'static>] = &[
    Case {
        name: "another digest",
        edits: &[(12_297, b"\x02")],
        gone: "none",
        status: BadMap,
        says: "bad map page 3 Changed held ..43 found ..40\n",
    },
    Case {
        name: "another rectangle",
        edits: &[(12_301, b"\0"), (12_309, b"\0")],
        gone: "none",
        status: BadMap,
        says: "bad map page 3 Page\n",
    },
    Case {
        name: "five records of fifteen",
        edits: &[
            (12_289, b"\x05\x01"),
            (12_390, FIFTEEN),
            (12_415, &[0; 250]),
        ],
        gone: "none",
        status: BadMap,
        says: "bad map page 3 Page\n",
    },
];

#[test]
fn a_large_map_that_turns_while_it_is_copied(rt: HostRuntime) {
    all_hold(&rt, first_unsaid(&rt, rt.alloc(), &LARGE, LARGE_COPIED));
}

// The same map in version 2, each record on layer 0: page 2 is an inner node, whose first entries
// are the leaves of the pages 3 and 4, of 15 and of 16 records.
const LARGE2: Scene<'static> = Scene {
    files: &[("r", "points 5000"), ("b", "| batch 1\n| - 7")],
    made: &["build l r", "upgrade l m"],
    words: "apply m b n",
    map: "m",
    after: 321,
};

const LARGE_COPIED2: &[Case<'static>] = &[
    Case {
        name: "an entry with another mask",
        edits: &[(16_414, b"\x03")],
        gone: "none",
        status: BadMap,
        says: "bad map page 2 Changed held ..0c found ..0e\n",
    },
    Case {
        name: "two entries with another mask, under one digest",
        edits: &[(16_414, b"\x03"), (16_482, b"\x03")],
        gone: "none",
        status: BadMap,
        says: "bad map page 2 Page\n",
    },
    Case {
        name: "an entry with another count",
        edits: &[(16_422, b"\x0e")],
        gone: "none",
        status: BadMap,
        says: "bad map page 2 Changed held ..0c found ..0d\n",
    },
    Case {
        name: "two entries with more records, under one digest",
        edits: &[(16_490, b"\x11"), (16_558, b"\x11")],
        gone: "none",
        status: BadMap,
        says: "bad map page 2 Page\n",
    },
    Case {
        name: "an entry of a record less, and one of a record more",
        edits: &[(16_422, b"\x0e"), (16_490, b"\x11")],
        gone: "none",
        status: BadMap,
        says: "bad map page 3 Page\n",
    },
    Case {
        name: "two records on another layer, under one digest",
        edits: &[(24_602, b"\x01"), (24_628, b"\x01")],
        gone: "none",
        status: BadMap,
        says: "bad map page 3 Page\n",
    },
];

#[test]
fn a_large_map_of_version_2_that_turns_while_it_is_copied(rt: HostRuntime) {
    all_hold(&rt, first_unsaid(&rt, rt.alloc(), &LARGE2, LARGE_COPIED2));
}

// A leaf of 16 records was split: page 1 has the records 1 to 11, page 2 the others, page 3 is the
// root.
const SPLIT: Scene<'static> = Scene {
    files: &[
        ("r", "points 16"),
        ("b", "| batch 1\n| + 17 100 100 100 100 -"),
        ("c", "| batch 2\n| - 17"),
    ],
    made: &["build m r", "apply m b n"],
    words: "apply n c o",
    map: "n",
    after: 5,
};

// Record 17 at (100,100), as it stands in a leaf.
const SEVENTEENTH: &[u8] = b"\0\0\0\0\0\0\0\x11\0\0\0d\0\0\0d\0\0\0d\0\0\0d\0";

const COPIED: &[Case<'static>] = &[
    Case {
        name: "another rectangle",
        edits: &[(8330, b"e"), (8338, b"e")],
        gone: "none",
        status: BadMap,
        says: "bad map page 2 Page\n",
    },
    Case {
        name: "five records of six",
        edits: &[(8193, b"\x05\x13"), (8294, SEVENTEENTH), (8319, &[0; 25])],
        gone: "none",
        status: BadMap,
        says: "bad map page 2 Page\n",
    },
    Case {
        name: "the record has another number",
        edits: &[(8294, b"\x01"), (8319, b"\x01")],
        gone: "none",
        status: BadMap,
        says: "bad map page 3 Page\n",
    },
    Case {
        name: "the map is gone",
        edits: &[],
        gone: "n",
        status: Outside,
        says: "missing n\n",
    },
    Case {
        name: "the copy is gone",
        edits: &[],
        gone: "o",
        status: Outside,
        says: "shelf fault\n",
    },
];

#[test]
fn a_map_that_turns_while_it_is_copied(rt: HostRuntime) {
    all_hold(&rt, first_unsaid(&rt, rt.alloc(), &SPLIT, COPIED));
}

// The same in version 2, each record on layer 0.
const SPLIT2: Scene<'static> = Scene {
    files: &[
        ("r", "points 16"),
        ("b", "| batch 1\n| + 17 100 100 100 100 0 -"),
        ("c", "| batch 2\n| - 17"),
    ],
    made: &["build l r", "upgrade l m", "apply m b n"],
    words: "apply n c o",
    map: "n",
    after: 5,
};

const COPIED2: &[Case<'static>] = &[
    Case {
        name: "two entries with another mask",
        edits: &[(24_606, b"\x03"), (24_674, b"\x03")],
        gone: "none",
        status: BadMap,
        says: "bad map page 3 Page\n",
    },
    Case {
        name: "an entry of a record less, and one of a record more",
        edits: &[(24_614, b"\x0a"), (24_682, b"\x07")],
        gone: "none",
        status: BadMap,
        says: "bad map page 2 Page\n",
    },
    Case {
        name: "two records on another layer",
        edits: &[(16_410, b"\x01"), (16_436, b"\x01")],
        gone: "none",
        status: BadMap,
        says: "bad map page 2 Page\n",
    },
    Case {
        name: "a mask of zero",
        edits: &[(24_606, b"\0"), (24_674, b"\0")],
        gone: "none",
        status: BadMap,
        says: "bad map page 3 Page\n",
    },
    Case {
        name: "a count of zero",
        edits: &[(24_614, b"\0"), (24_682, b"\x0d")],
        gone: "none",
        status: BadMap,
        says: "bad map page 3 Page\n",
    },
];

#[test]
fn a_map_of_version_2_that_turns_while_it_is_copied(rt: HostRuntime) {
    all_hold(&rt, first_unsaid(&rt, rt.alloc(), &SPLIT2, COPIED2));
}

// The same leaf was put together again: page 1 has all records, the pages 3 and 2 are free.
const FREED: Scene<'static> = Scene {
    files: &[
        ("r", "points 16"),
        ("b", "| batch 1\n| + 17 100 100 100 100 -"),
        ("c", "| batch 2\n| - 17"),
        ("d", "| batch 3\n| + 17 100 100 100 100 -"),
    ],
    made: &["build m r", "apply m b n", "apply n c o"],
    words: "apply o d p",
    map: "o",
    after: 5,
};

const UNFREED: &[Case<'static>] = &[
    Case {
        name: "a free page that is none",
        edits: &[(12_288, b"X")],
        gone: "none",
        status: BadMap,
        says: "bad map page 3 Page\n",
    },
    Case {
        name: "one that names a page behind the end",
        edits: &[(12_292, b"\x09")],
        gone: "none",
        status: BadMap,
        says: "bad map page 9 Page\n",
    },
];

#[test]
fn a_free_page_that_turns_while_it_is_copied(rt: HostRuntime) {
    all_hold(&rt, first_unsaid(&rt, rt.alloc(), &FREED, UNFREED));
}

// A map of record 7, of which page 1 is the root.
const ONE: Scene<'static> = Scene {
    files: &[("r", "| 7 0 0 0 0 -"), ("b", "| batch 1\n| - 7")],
    made: &["build m r"],
    words: "apply m b n",
    map: "m",
    after: 3,
};

const LEFT_OVER: &[Case<'static>] = &[Case {
    name: "a root without a record in the directory",
    edits: &[(4097, b"\x02"), (4130, b"\x03")],
    gone: "none",
    status: BadMap,
    says: "bad map page 1 Page\n",
}];

// A map of the records 3 and 7 at one place.
const TWO: Scene<'static> = Scene {
    files: &[
        ("r", "| 3 0 0 0 0 -\n| 7 0 0 0 0 -"),
        ("b", "| batch 1\n| - 7"),
    ],
    made: &["build m r"],
    words: "apply m b n",
    map: "m",
    after: 3,
};

const LOST: &[Case<'static>] = &[Case {
    name: "a record in the directory without a root",
    edits: &[(4097, b"\x01"), (4105, b"\x07"), (4130, b"\0")],
    gone: "none",
    status: BadMap,
    says: "bad map page 0 Page\n",
}];

#[test]
fn a_count_that_does_not_fit_the_root(rt: HostRuntime) {
    all_hold(&rt, first_unsaid(&rt, rt.alloc(), &ONE, LEFT_OVER));
    all_hold(&rt, first_unsaid(&rt, rt.alloc(), &TWO, LOST));
}

//! The calls that each command makes on the shelf, in their order, and the pieces of work that pass
//! its gate.

use crate::assertions::all_hold;
use crate::gates::{each_once, fresh};
use mr_fixtures::cuts::agrees;
use mr_fixtures::listed::Listed;
use mr_fixtures::parts::File;
use mr_fixtures::runs::{ran, shelf_of};
use mr_outside::MemShelf;
use mr_tool::Status;
use mr_tree::XorHash;
use std::alloc::{AllocError, Global};
use std::thread::Threads;

// A command over the shelf that the one before left, the lines of its calls, and how many pieces
// pass the gate: the leaves of a map that is made of a list of records.
#[derive(Clone, Copy)]
struct Made<'a> {
    words: &'a str,
    calls: &'a str,
    pieces: usize,
}

const SMALL: &[File<'static>] = &[
    ("r", "points 17"),
    ("b", "| batch 1\n| - 7"),
    ("s", "| window:2,0,3,0\n| nearest:0,0,1\n| window:2,0,3,0"),
    ("t", "times 100 window:2,0,3,0"),
    ("k", "| 7 0 0 0 0 5 -"),
    ("a", "| 7 0 0 0 0 -"),
];

// A map is written child by child of its root, behind zeros for page 0 and the root's page, and
// then the latter. One without an inner node is appended at once. All is synced before page 0 is
// written over its zeros, and again after. A batch is applied to a copy of the pages, which is made
// sixteen pages at a time. Where it is applied in place, the files are synced. The journal gets its
// gate, its body, and its gate anew, and is synced behind each of these. Then come the pages, a
// sync, and the gate once more.
const CALLS: &[Made<'static>] = &[
    Made {
        words: "root r",
        calls: "size r\nread_at r\n",
        pieces: 2,
    },
    Made {
        words: "build m r",
        calls: "size r\nread_at r\ncreate m\nappend m\nappend m\nappend m\nwrite_at m\nsync m\n\
            write_at m\nsync m\n",
        pieces: 2,
    },
    Made {
        words: "list m",
        calls: "size m\nread_at m\nread_at m\nread_at m\nread_at m\n",
        pieces: 0,
    },
    Made {
        words: "upgrade m o",
        calls: "size m\nread_at m\nread_at m\nread_at m\nread_at m\ncreate o\nappend o\nappend o\n\
            append o\nwrite_at o\nsync o\nwrite_at o\nsync o\n",
        pieces: 0,
    },
    Made {
        words: "list o",
        calls: "size o\nread_at o\nread_at o\nread_at o\nread_at o\n",
        pieces: 0,
    },
    Made {
        words: "count o window:2,0,3,0 q",
        calls: "size o\nread_at o\nread_at o\nread_at o\nread_at o\ncreate q\nappend q\n\
            sync q\n",
        pieces: 0,
    },
    Made {
        words: "check-count ..0c window:2,0,3,0 q",
        calls: "size q\nread_at q\n",
        pieces: 0,
    },
    Made {
        words: "audit-count o window:2,0,3,0 q",
        calls: "size o\nread_at o\nread_at o\nread_at o\nread_at o\nsize q\nread_at q\n",
        pieces: 0,
    },
    Made {
        words: "root2 k",
        calls: "size k\nread_at k\n",
        pieces: 0,
    },
    Made {
        words: "build2 o k",
        calls: "size k\nread_at k\ncreate o\nappend o\nsync o\nwrite_at o\nsync o\n",
        pieces: 0,
    },
    Made {
        words: "upgrade m w",
        calls: "size m\nread_at m\nread_at m\nread_at m\nread_at m\ncreate w\nappend w\nappend w\n\
            append w\nwrite_at w\nsync w\nwrite_at w\nsync w\n",
        pieces: 0,
    },
    Made {
        words: "join o w j",
        calls: "size o\nread_at o\nread_at o\nsize w\nread_at w\nread_at w\nread_at w\nread_at w\n\
            create j\nappend j\nsync j\n",
        pieces: 0,
    },
    Made {
        words: "check-join ..3e ..0c j",
        calls: "size j\nread_at j\n",
        pieces: 0,
    },
    Made {
        words: "audit-join o w j",
        calls: "size o\nread_at o\nread_at o\nsize w\nread_at w\nread_at w\nread_at w\nread_at w\n\
            size j\nread_at j\n",
        pieces: 0,
    },
    Made {
        words: "prove m window:2,0,3,0 p",
        calls: "size m\nread_at m\nread_at m\nread_at m\nread_at m\ncreate p\nappend p\n\
            sync p\n",
        pieces: 0,
    },
    Made {
        words: "check ..0f window:2,0,3,0 p",
        calls: "size p\nread_at p\n",
        pieces: 0,
    },
    Made {
        words: "audit m window:2,0,3,0 p",
        calls: "size m\nread_at m\nread_at m\nread_at m\nread_at m\nsize p\nread_at p\n",
        pieces: 0,
    },
    Made {
        words: "apply m b n",
        calls: "size m\nread_at m\nread_at m\nread_at m\nread_at m\nsize b\nread_at b\ncreate n\n\
            append n\nread_at m\nappend n\nread_at n\nread_at n\nwrite_at n\nwrite_at n\nsync n\n\
            write_at n\nsync n\n",
        pieces: 0,
    },
    Made {
        words: "serve m s u",
        calls: "size m\nread_at m\nread_at m\nread_at m\nread_at m\nsize s\nread_at s\n\
            create u\nappend u\nsync u\n",
        pieces: 3,
    },
    Made {
        words: "check-all ..0f s u",
        calls: "size s\nread_at s\nsize u\nread_at u\n",
        pieces: 3,
    },
    Made {
        words: "serve m t v",
        calls: "size m\nread_at m\nread_at m\nread_at m\nread_at m\nsize t\nread_at t\n\
            create v\nappend v\nsync v\n",
        pieces: 100,
    },
    Made {
        words: "check-all ..0f t v",
        calls: "size t\nread_at t\nsize v\nread_at v\n",
        pieces: 100,
    },
    Made {
        words: "make 33 1 s",
        calls: "create s\nappend s\nsync s\n",
        pieces: 0,
    },
    Made {
        words: "demo 33 1",
        calls: "",
        pieces: 3,
    },
    Made {
        words: "build A a",
        calls: "size a\nread_at a\ncreate A\nappend A\nsync A\nwrite_at A\nsync A\n",
        pieces: 1,
    },
    Made {
        words: "apply-here A b",
        calls: "size A\nsize A\nsize A.journal\nsize A\nread_at A\n\
            size b\nread_at b\nsync A\nsync A.journal\n\
            size A\nsize A.journal\nsize A\nsize A\nread_at A\n\
            size A.journal\nsize A.journal\ncreate A.journal\nappend A.journal\nsync A.journal\n\
            size A.journal\nappend A.journal\nsync A.journal\n\
            size A.journal\nwrite_at A.journal\nsync A.journal\n\
            size A\nwrite_at A\nsize A\nwrite_at A\nsync A\n\
            size A.journal\nwrite_at A.journal\nsync A.journal\n",
        pieces: 0,
    },
    Made {
        words: "recover A",
        calls: "size A\nsync A\nsync A.journal\nsize A\nsize A.journal\n\
            read_at A.journal\n",
        pieces: 0,
    },
];

// The text, the map, the proof and the made text have more than 65,536 bytes each.
const LARGE: &[File<'static>] = &[("r", "places 1 5000"), ("b", "| batch 1\n| - 7")];

// Of calls that are equal and stand behind one another the first one alone.
const LARGE_CALLS: &[Made<'static>] = &[
    Made {
        words: "root r",
        calls: "size r\nread_at r\n",
        pieces: 313,
    },
    Made {
        words: "build m r",
        calls: "size r\nread_at r\ncreate m\nappend m\nwrite_at m\nsync m\nwrite_at m\nsync m\n",
        pieces: 313,
    },
    Made {
        words: "prove m window:0,0,30000,30000 p",
        calls: "size m\nread_at m\ncreate p\nappend p\nsync p\n",
        pieces: 0,
    },
    Made {
        words: "apply m b n",
        calls: "size m\nread_at m\nsize b\nread_at b\ncreate n\nappend n\nread_at m\n\
            append n\nread_at m\nappend n\nread_at m\nappend n\nread_at m\nappend n\n\
            read_at m\nappend n\nread_at m\nappend n\nread_at m\nappend n\nread_at m\n\
            append n\nread_at m\nappend n\nread_at m\nappend n\nread_at m\nappend n\n\
            read_at m\nappend n\nread_at m\nappend n\nread_at m\nappend n\nread_at m\n\
            append n\nread_at m\nappend n\nread_at m\nappend n\nread_at m\nappend n\n\
            read_at m\nappend n\nread_at m\nappend n\nread_at n\nwrite_at n\nsync n\n\
            write_at n\nsync n\n",
        pieces: 0,
    },
    Made {
        words: "make 5000 1 s",
        calls: "create s\nappend s\nsync s\n",
        pieces: 0,
    },
];

// The lines, of equal ones behind one another the first alone.
fn folded(alloc: Global, lines: &str) -> Result<String, AllocError> {
    let mut all = String::new(alloc);
    let mut last: &[u8] = b"";
    for line in lines.lines() {
        if line.as_bytes() != last {
            all.push_str(line)?;
            all.push_str("\n")?;
        }
        last = line.as_bytes();
    }
    Ok(all)
}

// The shelf that a command leaves, where it is done with these calls, each piece once through the
// gate.
fn called<R: Threads + Sync>(
    rt: &R,
    alloc: Global,
    made: &Made<'_>,
    is_large: bool,
    shelf: MemShelf,
) -> Result<Option<MemShelf>, AllocError> {
    let gate = fresh(alloc, made.pieces)?;
    let shelf = Listed::new(alloc, shelf);
    let (status, said, left) = ran::<XorHash, _, _, R>(rt, alloc, made.words, shelf, &[], &gate)?;
    let lines = left.calls.as_str();
    let is_so = if is_large {
        folded(alloc, lines)?.as_str() == made.calls
    } else {
        lines == made.calls
    };
    let same = agrees::<XorHash>(alloc, made.words, &left.shelf, status, &said)?;
    if status == Status::Done && is_so && same && each_once(&gate) {
        Ok(Some(left.shelf))
    } else {
        Ok(None)
    }
}

// The first command that makes other calls, each over the shelf that the one before left.
fn first_miscalled<R: Threads + Sync>(
    rt: &R,
    alloc: Global,
    files: &[File<'_>],
    commands: &[Made<'static>],
    is_large: bool,
) -> Result<Option<&'static str>, AllocError> {
    let mut shelf = shelf_of(alloc, files, &[])?;
    for made in commands {
        match called(rt, alloc, made, is_large, shelf)? {
            Some(left) => shelf = left,
            None => return Ok(Some(made.words)),
        }
    }
    Ok(None)
}

#[test]
fn the_calls_of_each_command(rt: HostRuntime) {
    all_hold(&rt, first_miscalled(&rt, rt.alloc(), SMALL, CALLS, false));
    all_hold(
        &rt,
        first_miscalled(&rt, rt.alloc(), LARGE, LARGE_CALLS, true),
    );
}

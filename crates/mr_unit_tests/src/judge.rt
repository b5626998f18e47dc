//! Proofs that a judge is fed in pieces: each piece has its answer, and however a proof is cut, the
//! verdict and the records are those of the whole.

ghost use Rattle.mr_query.specs.Word.{IsAskable};

use crate::assertions::{all_hold, all_hold_in_memory};
use crate::made::{are_of, digest};
use mr_check::{CheckErr, Fed, Judge, check};
use mr_outside::MemSink;
use mr_proof::{Fault, Rule};
use mr_query::{Query, read_query};
use mr_record::{Record, Version, write_lines};
use mr_tree::{Hash32, Sha, XorHash};
use std::alloc::{AllocError, Global};

// A window's proof on the map of record 7 that opens its leaf.
const OPENED: &[u8] = b"MRVO\x01W\0\0\0\0\0\0\0\0\0\0\0\0\0\0\0\x01\0\
    L\x01\0\0\0\0\0\0\0\x07\0\0\0\0\0\0\0\0\0\0\0\0\0\0\0\0\0";

// A proof for a window on a map of level 1, which opens the root and its second child, that leaf,
// and prunes its first.
const INNER: &[u8] = b"MRVO\x01W\0\0\0\0\0\0\0\0\0\0\0\0\0\0\0\x02\x01N\x02\
    P\0\0\0\x05\0\0\0\x05\0\0\0\x06\0\0\0\x06\
    \0\0\0\0\0\0\0\0\0\0\0\0\0\0\0\0\0\0\0\0\0\0\0\0\0\0\0\0\0\0\0\x11\
    L\x01\0\0\0\0\0\0\0\x07\0\0\0\0\0\0\0\0\0\0\0\0\0\0\0\0\0";

// A window's proof on the map of record 7 that prunes its leaf.
const PRUNED: &[u8] = b"MRVO\x01W\0\0\0\0\0\0\0\0\0\0\0\0\0\0\0\x01\0\
    P\0\0\0\0\0\0\0\0\0\0\0\0\0\0\0\0\
    \0\0\0\0\0\0\0\0\0\0\0\0\0\0\0\0\0\0\0\0\0\0\0\0\0\0\0\0\0\0\0\x4a";

// Records 1 at (3, 0) and 2 at (0, 3), with a squared radius of 9.
const CIRCLE: &[u8] = b"MRVO\x01K\0\0\0\0\0\0\0\0\0\0\0\0\0\0\0\x02\
    \x01\0\0\0\0\0\0\0\0\0\0\0\0\0\0\0\x09\0L\x02\
    \0\0\0\0\0\0\0\x01\0\0\0\x03\0\0\0\0\0\0\0\x03\0\0\0\0\0\
    \0\0\0\0\0\0\0\x02\0\0\0\0\0\0\0\x03\0\0\0\0\0\0\0\x03\0";

// A leaf with record 2 at (0, 3), on the circle, and a pruned part at (3, 0), also on it.
const HIDDEN: &[u8] = b"MRVO\x01K\0\0\0\0\0\0\0\0\0\0\0\0\0\0\0\x02\
    \x01\0\0\0\0\0\0\0\0\0\0\0\0\0\0\0\x09\x01N\x02\
    L\x01\0\0\0\0\0\0\0\x02\0\0\0\0\0\0\0\x03\0\0\0\0\0\0\0\x03\0\
    P\0\0\0\x03\0\0\0\0\0\0\0\x03\0\0\0\0\
    \0\0\0\0\0\0\0\0\0\0\0\0\0\0\0\0\0\0\0\0\0\0\0\0\0\0\0\0\0\0\0\0";

// Records 1 at (1, 0), 3 at (3, 0) and 2 at (0, 2), without a squared radius.
const FEWER: &[u8] = b"MRVO\x01K\0\0\0\0\0\0\0\0\0\0\0\0\0\0\0\x03\0\0L\x03\
    \0\0\0\0\0\0\0\x01\0\0\0\x01\0\0\0\0\0\0\0\x01\0\0\0\0\0\
    \0\0\0\0\0\0\0\x03\0\0\0\x03\0\0\0\0\0\0\0\x03\0\0\0\0\0\
    \0\0\0\0\0\0\0\x02\0\0\0\0\0\0\0\x02\0\0\0\0\0\0\0\x02\0";

// The same with a squared radius of 9.
const TOO_MANY: &[u8] = b"MRVO\x01K\0\0\0\0\0\0\0\0\0\0\0\0\0\0\0\x03\
    \x01\0\0\0\0\0\0\0\0\0\0\0\0\0\0\0\x09\0L\x03\
    \0\0\0\0\0\0\0\x01\0\0\0\x01\0\0\0\0\0\0\0\x01\0\0\0\0\0\
    \0\0\0\0\0\0\0\x03\0\0\0\x03\0\0\0\0\0\0\0\x03\0\0\0\0\0\
    \0\0\0\0\0\0\0\x02\0\0\0\0\0\0\0\x02\0\0\0\0\0\0\0\x02\0";

// Record 1 at the greatest point, with the greatest squared radius.
const FARTHEST: &[u8] = b"MRVO\x01K\0\0\0\0\0\0\0\0\0\0\0\0\0\0\0\x01\
    \x01\0\0\0\0\0\0\0\x01\xff\xff\xff\xfc\0\0\0\x02\0L\x01\
    \0\0\0\0\0\0\0\x01\x7f\xff\xff\xff\x7f\xff\xff\xff\x7f\xff\xff\xff\x7f\xff\xff\xff\0";

// `OPENED` and one byte more.
const TRAILING: &[u8] = b"MRVO\x01W\0\0\0\0\0\0\0\0\0\0\0\0\0\0\0\x01\0\
    L\x01\0\0\0\0\0\0\0\x07\0\0\0\0\0\0\0\0\0\0\0\0\0\0\0\0\0\0";

// `INNER` below one more node.
const DEEPER: &[u8] = b"MRVO\x01W\0\0\0\0\0\0\0\0\0\0\0\0\0\0\0\x02\x02N\x01N\x02\
    P\0\0\0\x05\0\0\0\x05\0\0\0\x06\0\0\0\x06\
    \0\0\0\0\0\0\0\0\0\0\0\0\0\0\0\0\0\0\0\0\0\0\0\0\0\0\0\0\0\0\0\x11\
    L\x01\0\0\0\0\0\0\0\x07\0\0\0\0\0\0\0\0\0\0\0\0\0\0\0\0\0";

// Version 2: a window's proof on the map of record 7 at layer 5 that opens its leaf; the same with
// layer 64; one that prunes the leaf; and the same with another count.
const LAYERED: &[u8] = b"MRVO\x02W\0\0\0\0\0\0\0\0\0\0\0\0\0\0\0\x01\0\
    L\x01\0\0\0\0\0\0\0\x07\0\0\0\0\0\0\0\0\0\0\0\0\0\0\0\0\x05\0";

const LAYER_64: &[u8] = b"MRVO\x02W\0\0\0\0\0\0\0\0\0\0\0\0\0\0\0\x01\0\
    L\x01\0\0\0\0\0\0\0\x07\0\0\0\0\0\0\0\0\0\0\0\0\0\0\0\0\x40\0";

const MASKED: &[u8] = b"MRVO\x02W\0\0\0\0\0\0\0\0\0\0\0\0\0\0\0\x01\0\
    P\0\0\0\0\0\0\0\0\0\0\0\0\0\0\0\0\
    \0\0\0\0\0\0\0\x20\0\0\0\0\0\0\0\x01\
    \0\0\0\0\0\0\0\0\0\0\0\0\0\0\0\0\0\0\0\0\0\0\0\0\0\0\0\0\0\0\0\x4f";

const MISCOUNTED: &[u8] = b"MRVO\x02W\0\0\0\0\0\0\0\0\0\0\0\0\0\0\0\x01\0\
    P\0\0\0\0\0\0\0\0\0\0\0\0\0\0\0\0\
    \0\0\0\0\0\0\0\x20\0\0\0\0\0\0\0\x02\
    \0\0\0\0\0\0\0\0\0\0\0\0\0\0\0\0\0\0\0\0\0\0\0\0\0\0\0\0\0\0\0\x4f";

// Records 1 at (1, 0) on layer 0 and 2 at (2, 0) on layer 1, with a squared radius of 4.
const FARTHER_LAYER: &[u8] = b"MRVO\x02K\0\0\0\0\0\0\0\0\0\0\0\0\0\0\0\x02\
    \x01\0\0\0\0\0\0\0\0\0\0\0\0\0\0\0\x04\0L\x02\
    \0\0\0\0\0\0\0\x01\0\0\0\x01\0\0\0\0\0\0\0\x01\0\0\0\0\0\0\
    \0\0\0\0\0\0\0\x02\0\0\0\x02\0\0\0\0\0\0\0\x02\0\0\0\0\x01\0";

// On a map of level 1 two records on layers 0 and 1 that are pruned, and that leaf with record 7.
const INNER_LAYERS: &[u8] = b"MRVO\x02W\0\0\0\0\0\0\0\0\0\0\0\0\0\0\0\x03\x01N\x02\
    P\0\0\0\x05\0\0\0\x05\0\0\0\x06\0\0\0\x06\
    \0\0\0\0\0\0\0\x03\0\0\0\0\0\0\0\x02\
    \0\0\0\0\0\0\0\0\0\0\0\0\0\0\0\0\0\0\0\0\0\0\0\0\0\0\0\0\0\0\0\x11\
    L\x01\0\0\0\0\0\0\0\x07\0\0\0\0\0\0\0\0\0\0\0\0\0\0\0\0\x05\0";

// A proof for the query of a word, by its name; the last byte of a held root digest under the
// exclusive or; the records that are handed out, as lines of a text; and the rule that is broken
// and its place, if any is.
struct Row {
    name: &'static str,
    word: &'static str,
    proof: &'static [u8],
    root: u8,
    found: &'static str,
    broken: Option<(Rule, u64)>,
}

// The root digest of the map of record 7.
const HELD: [u8; 32] = [
    0, 0, 0, 0, 0, 0, 0, 0, 0, 0, 0, 0, 0, 0, 0, 0, 0, 0, 0, 0, 0, 0, 0, 0, 0, 0, 0, 0, 0, 0, 0,
    0x18,
];

const HERE: &str = "window:0,0,0,0";

const AWAY: &str = "window:1,1,2,2";

const NEAREST: &str = "nearest:0,0,1";

const ON_LAYER_0: &str = "window:0,0,0,0/0000000000000001";

const ON_LAYER_5: &str = "window:0,0,0,0/0000000000000020";

const SEVEN: &str = "7 0 0 0 0 -\n";

const SEVEN_ON_5: &str = "7 0 0 0 0 5 -\n";

const FIRST_THREE: &str = "1 1 0 1 0 -\n3 3 0 3 0 -\n2 0 2 0 2 -\n";

const ROWS: &[Row] = &[
    Row {
        name: "one record",
        word: HERE,
        proof: OPENED,
        root: 0x18,
        found: SEVEN,
        broken: None,
    },
    Row {
        name: "a pruned part",
        word: AWAY,
        proof: PRUNED,
        root: 0x18,
        found: "",
        broken: None,
    },
    Row {
        name: "a byte behind the end",
        word: HERE,
        proof: TRAILING,
        root: 0x18,
        found: SEVEN,
        broken: Some((Rule::Trailing, 50)),
    },
    Row {
        name: "an opened leaf outside the window",
        word: AWAY,
        proof: OPENED,
        root: 0x18,
        found: "",
        broken: Some((Rule::Needless, 49)),
    },
    Row {
        name: "a pruned part in the window",
        word: HERE,
        proof: PRUNED,
        root: 0x18,
        found: "",
        broken: Some((Rule::Hidden, 24)),
    },
    Row {
        name: "a proof of another kind",
        word: NEAREST,
        proof: OPENED,
        root: 0x18,
        found: "",
        broken: Some((Rule::WrongKind, 5)),
    },
    Row {
        name: "another root",
        word: HERE,
        proof: OPENED,
        root: 0x19,
        found: SEVEN,
        broken: Some((Rule::WrongRoot { found: HELD }, 50)),
    },
    Row {
        name: "the nearer of two",
        word: NEAREST,
        proof: CIRCLE,
        root: 0x1c,
        found: "1 3 0 3 0 -\n2 0 3 0 3 -\n",
        broken: None,
    },
    Row {
        name: "a pruned part on the circle",
        word: NEAREST,
        proof: HIDDEN,
        root: 0,
        found: "2 0 3 0 3 -\n",
        broken: Some((Rule::Hidden, 70)),
    },
    Row {
        name: "fewer than were asked for",
        word: "nearest:0,0,5",
        proof: FEWER,
        root: 0x1e,
        found: FIRST_THREE,
        broken: None,
    },
    Row {
        name: "a radius where there are fewer",
        word: "nearest:0,0,5",
        proof: TOO_MANY,
        root: 0x1e,
        found: FIRST_THREE,
        broken: Some((Rule::WrongRadius, 117)),
    },
    Row {
        name: "the farthest record",
        word: "nearest:-2147483648,-2147483648,1",
        proof: FARTHEST,
        root: 0x1e,
        found: "1 2147483647 2147483647 2147483647 2147483647 -\n",
        broken: None,
    },
    Row {
        name: "an inner node above a leaf",
        word: HERE,
        proof: INNER,
        root: 0x46,
        found: SEVEN,
        broken: None,
    },
    Row {
        name: "a child in the window is pruned",
        word: "window:6,6,7,7",
        proof: INNER,
        root: 0x46,
        found: "",
        broken: Some((Rule::Hidden, 26)),
    },
    Row {
        name: "a leaf beside the window is opened",
        word: "window:2,2,3,3",
        proof: INNER,
        root: 0x46,
        found: "",
        broken: Some((Rule::Needless, 100)),
    },
    Row {
        name: "two inner nodes above a leaf",
        word: HERE,
        proof: DEEPER,
        root: 0x08,
        found: SEVEN,
        broken: None,
    },
    Row {
        name: "a record on the layer",
        word: ON_LAYER_5,
        proof: LAYERED,
        root: 0x3e,
        found: SEVEN_ON_5,
        broken: None,
    },
    Row {
        name: "all layers",
        word: HERE,
        proof: LAYERED,
        root: 0x3e,
        found: SEVEN_ON_5,
        broken: None,
    },
    Row {
        name: "a part without the layer is pruned",
        word: ON_LAYER_0,
        proof: MASKED,
        root: 0x3e,
        found: "",
        broken: None,
    },
    Row {
        name: "a leaf without the layer is opened",
        word: ON_LAYER_0,
        proof: LAYERED,
        root: 0x3e,
        found: "",
        broken: Some((Rule::Needless, 50)),
    },
    Row {
        name: "a pruned part with the layer",
        word: ON_LAYER_5,
        proof: MASKED,
        root: 0x3e,
        found: "",
        broken: Some((Rule::Hidden, 40)),
    },
    Row {
        name: "another count than the head's",
        word: ON_LAYER_0,
        proof: MISCOUNTED,
        root: 0x3e,
        found: "",
        broken: Some((Rule::WrongTally, 88)),
    },
    Row {
        name: "a layer too high",
        word: ON_LAYER_5,
        proof: LAYER_64,
        root: 0x3e,
        found: "",
        broken: Some((Rule::BadLayer, 49)),
    },
    Row {
        name: "version 1 for a named mask",
        word: "window:0,0,0,0/ffffffffffffffff",
        proof: OPENED,
        root: 0x18,
        found: "",
        broken: Some((Rule::BadVersion, 4)),
    },
    Row {
        name: "the nearest on a layer",
        word: "nearest:0,0,1/0000000000000002",
        proof: FARTHER_LAYER,
        root: 0x1e,
        found: "2 2 0 2 0 1 -\n",
        broken: None,
    },
    Row {
        name: "that radius for all layers",
        word: NEAREST,
        proof: FARTHER_LAYER,
        root: 0x1e,
        found: "1 1 0 1 0 0 -\n2 2 0 2 0 1 -\n",
        broken: Some((Rule::WrongRadius, 94)),
    },
    Row {
        name: "an inner node of version 2",
        word: "window:0,0,9,9/0000000000000020",
        proof: INNER_LAYERS,
        root: 0x42,
        found: SEVEN_ON_5,
        broken: None,
    },
    Row {
        name: "a child on the layer is pruned",
        word: "window:0,0,9,9/0000000000000021",
        proof: INNER_LAYERS,
        root: 0x42,
        found: "",
        broken: Some((Rule::Hidden, 42)),
    },
];

// The root digest of the map of record 7 by SHA-256: that of its 67 bytes, which end in the digest
// of the leaf's 27 bytes.
fn sha_root() -> [u8; 32] {
    let (_, leaf) = OPENED.split_at(23);
    let mut bytes = [0; 67];
    bytes[0] = b'R';
    bytes[1] = 1;
    bytes[17] = 1;
    let (_, end) = bytes.split_at_mut(35);
    end.copy_from_slice(&sha(leaf));
    sha(&bytes)
}

fn sha(bytes: &[u8]) -> [u8; 32] {
    use mr_tree::Hashes;
    let mut hasher = Sha::start();
    hasher.update(bytes);
    hasher.finish()
}

// Feeds a piece, and keeps the records that it hands out.
fn feed<H: Hash32>(
    judge: &mut Judge<H>,
    piece: &[u8],
    found: &mut Vec<Record>,
) -> Result<(), AllocError> {
    let mut rest = piece;
    for _ in 0..=piece.len() {
        match judge.feed(rest) {
            Fed::Found { taken, item } => {
                found.push(item)?;
                let (_, behind) = rest.split_at(taken);
                rest = behind;
            }
            _ => return Ok(()),
        }
    }
    Ok(())
}

// These records as lines of a text of this version.
fn lines(alloc: Global, version: Version, records: &[Record]) -> Result<Vec<u8>, AllocError> {
    let mut out = MemSink::new(alloc, Vec::new(alloc));
    if are_of(version, records) {
        let _ = write_lines(&mut out, version, records);
    }
    out.bytes().to_vec(alloc)
}

// The version that a proof says.
fn version_in(proof: &[u8]) -> Version {
    match proof {
        [_, _, _, _, 2, ..] => Version::Two,
        _ => Version::One,
    }
}

// The lines of the records that are handed out, and the verdict, of a proof that is cut at this
// place, and behind it into pieces of this size.
fn judged<H: Hash32>(
    alloc: Global,
    root: &[u8; 32],
    q: &Query,
    proof: &[u8],
    cut: usize,
    size: usize,
) -> Result<(Vec<u8>, Option<Fault>), AllocError>
    requires { IsAskable q.now }
{
    let mut judge = Judge::<H>::new(alloc, root, q)?;
    let mut found = Vec::new(alloc);
    let (front, back) = proof.split_at(cut.min(proof.len()));
    feed(&mut judge, front, &mut found)?;
    for piece in back.chunks(size.max(1)) {
        feed(&mut judge, piece, &mut found)?;
    }
    Ok((lines(alloc, version_in(proof), &found)?, judge.end().err()))
}

// The fault of a whole proof.
fn checked<H: Hash32>(alloc: Global, root: &[u8; 32], q: &Query, proof: &[u8]) -> Option<Fault>
    requires { IsAskable q.now }
{
    match check::<H>(alloc, root, q, proof) {
        Err(CheckErr::Fault(fault)) => Some(fault),
        _ => None,
    }
}

// What a proof hands out, as lines of a text, and its fault.
#[derive(Clone, Copy)]
struct Found<'a> {
    lines: &'a str,
    broken: Option<Fault>,
}

// Whether that is found of a proof that is cut so.
fn comes_to<H: Hash32>(
    alloc: Global,
    root: &[u8; 32],
    q: &Query,
    proof: &[u8],
    cut: usize,
    size: usize,
    wanted: &Found<'_>,
) -> bool
    requires { IsAskable q.now }
{
    match judged::<H>(alloc, root, q, proof, cut, size) {
        Ok((lines, broken)) => lines.as_slice() == wanted.lines.as_bytes()
            && broken == wanted.broken,
        Err(_) => false,
    }
}

// Whether it is found at every cut into two, and in small pieces.
fn is_judged<H: Hash32>(
    alloc: Global,
    root: &[u8; 32],
    q: &Query,
    proof: &[u8],
    wanted: &Found<'_>,
) -> bool
    requires { IsAskable q.now }
{
    for cut in 0..=proof.len() {
        if !comes_to::<H>(alloc, root, q, proof, cut, 4096, wanted) {
            return false;
        }
    }
    for size in [1, 7, 4096] {
        if !comes_to::<H>(alloc, root, q, proof, 0, size, wanted) {
            return false;
        }
    }
    true
}

// Whether the row holds, and under SHA-256 the verdict in pieces is that of the whole.
fn is_so(alloc: Global, row: &Row) -> bool {
    let Ok(q) = read_query(row.word) else {
        return false;
    };
    let lines = row.found;
    let broken = row.broken.map(|(rule, at)| Fault { rule, at });
    let root = sha_root();
    let fault = checked::<Sha>(alloc, &root, &q, row.proof);
    let by_sha = Found {
        lines,
        broken: fault,
    };
    is_judged::<XorHash>(
        alloc,
        &digest(row.root),
        &q,
        row.proof,
        &Found { lines, broken },
    ) && is_judged::<Sha>(alloc, &root, &q, row.proof, &by_sha)
}

// The name of the first row that does not hold.
fn first_unjudged(alloc: Global) -> Option<&'static str> {
    for row in ROWS {
        if !is_so(alloc, row) {
            return Some(row.name);
        }
    }
    None
}

#[test]
fn proofs_are_judged_however_they_are_cut(rt: HostRuntime) {
    all_hold(&rt, first_unjudged(rt.alloc()));
}

// A proof, how long the pieces are in which it is fed, and what is told of each of them and at the
// end.
struct Pieces {
    word: &'static str,
    proof: &'static [u8],
    lengths: &'static [usize],
    told: &'static str,
}

// One record, and its proof ends; a byte behind it; a byte too few, a proof that is cut in the
// batch, and none; and a part that is pruned though it lies on the circle, as the record before it
// does, with whatever comes behind it.
const PIECES: &[Pieces] = &[
    Pieces {
        word: HERE,
        proof: OPENED,
        lengths: &[50],
        told: "7 behind 50, sound",
    },
    Pieces {
        word: HERE,
        proof: TRAILING,
        lengths: &[50, 1],
        told: "7 behind 50, Trailing at 50, Trailing at 50",
    },
    Pieces {
        word: HERE,
        proof: OPENED,
        lengths: &[49],
        told: "more, Short at 49",
    },
    Pieces {
        word: HERE,
        proof: OPENED,
        lengths: &[10],
        told: "more, Short at 6",
    },
    Pieces {
        word: HERE,
        proof: OPENED,
        lengths: &[0],
        told: "more, Short at 0",
    },
    Pieces {
        word: NEAREST,
        proof: HIDDEN,
        lengths: &[69, 16, 1, 32],
        told: "2 behind 69, more, Hidden at 70, Hidden at 70, Hidden at 70",
    },
];

fn told(alloc: Global, fed: Fed) -> Result<String, AllocError> {
    match fed {
        Fed::More => String::from_str(alloc, "more, "),
        Fed::Found { taken, item } => {
            let number = item.number;
            format!(in alloc; "{number} behind {taken}, ")
        }
        Fed::Fault(Fault { rule, at }) => {
            let rule = rule.name();
            format!(in alloc; "{rule} at {at}, ")
        }
    }
}

// What is told of the pieces of a proof.
fn told_of<H: Hash32>(alloc: Global, root: &[u8; 32], row: &Pieces) -> Result<String, AllocError> {
    let mut text = String::new(alloc);
    let Ok(q) = read_query(row.word) else {
        return Ok(text);
    };
    let mut judge = Judge::<H>::new(alloc, root, &q)?;
    let mut rest = row.proof;
    for length in row.lengths {
        let (piece, behind) = rest.split_at((*length).min(rest.len()));
        text.push_str(told(alloc, judge.feed(piece))?.as_str())?;
        rest = behind;
    }
    match judge.end() {
        Ok(()) => text.push_str("sound")?,
        Err(Fault { rule, at }) => {
            let rule = rule.name();
            text.push_str(format!(in alloc; "{rule} at {at}")?.as_str())?;
        }
    }
    Ok(text)
}

fn is_told<H: Hash32>(alloc: Global, root: &[u8; 32], row: &Pieces) -> Result<bool, AllocError> {
    Ok(told_of::<H>(alloc, root, row)?.as_str() == row.told)
}

// What is first told otherwise, under the exclusive or of all bytes or under SHA-256.
fn first_untold(alloc: Global) -> Result<Option<&'static str>, AllocError> {
    let root = sha_root();
    for row in PIECES {
        if !is_told::<XorHash>(alloc, &HELD, row)? {
            return Ok(Some(row.told));
        }
        if !is_told::<Sha>(alloc, &root, row)? {
            return Ok(Some(row.told));
        }
    }
    Ok(None)
}

#[test]
fn pieces_have_their_answers(rt: HostRuntime) {
    all_hold_in_memory(&rt, first_untold(rt.alloc()));
}

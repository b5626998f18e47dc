//! Joins by the calls that prove, check and audit them, over two hash functions. Maps are told by
//! letters, and proofs by pieces of honest ones. What is answered comes from a program of another
//! language.

ghost use Rattle.std.specs.Prelude.{◌≡◌, IfSome};
ghost use Rattle.mr_record.specs.declared.version.Version.TheVariants.{Two};

use crate::assertions::all_hold_in_memory;
use crate::calls::{Kind, first_untrue, numbers, rect_in};
use crate::made::{records_of, tree_of};
use crate::stopping::Stopping;
use mr_count::Choice;
use mr_join::{JoinErr, JoinFault, JoinFinding, Meets, Pair, audit_join, check_join, prove_join};
use mr_outside::{Items, MemSink};
use mr_proof::{Fault, Way};
use mr_prove::ProveErr;
use mr_record::{Record, read_u64};
use mr_tree::{Hashes, Nodes, Sha, Snapshot, XorHash, root_digest};
use std::alloc::{AllocError, Global};

// A map's lines: `x`, and `a` with its root under the exclusive or; `y`, and `w` and `z` with its
// root; `r` round most of them, and `f` beside it; `c` and `d` of several; all others of none.
fn lines_of(letter: &str) -> &'static str {
    match letter {
        "x" => "7 0 0 0 0 -\n",
        "y" => "9 0 0 1 1 -\n",
        "z" => "9 5 5 6 6 -\n",
        "w" => "9 8 8 9 9 -\n",
        "a" => "7 5 5 5 5 -\n",
        "r" => "9 0 0 6 6 -\n",
        "f" => "8 9 9 9 9 -\n",
        "c" => "30 0 0 2 2 -\n4 2 2 4 4 -\n5 5 5 6 6 -\n",
        "d" => "8 4 4 5 5 -\n20 2 0 3 2 -\n",
        _ => "",
    }
}

/// The map of version 2 of these records, none where they are not of layer 0, a number stands twice
/// or there is no memory.
pub fn kept<H: Hashes>(alloc: Global, records: Vec<Record>) -> Option<Snapshot<H>>
    ensures { IfSome result (λ map. map.top.version ≡ Two) }
{
    let tree = tree_of(alloc, records)?;
    match Snapshot::of2(alloc, &tree, 0) {
        Ok(map) => Some(map),
        Err(_) => None,
    }
}

fn map_of<H: Hashes>(alloc: Global, letter: &str) -> Option<Snapshot<H>>
    ensures { IfSome result (λ map. map.top.version ≡ Two) }
{
    kept(alloc, records_of(alloc, lines_of(letter))?)
}

/// The root digest of the map.
pub fn root_of<H: Hashes>(map: &Snapshot<H>) -> [u8; 32] {
    let top = map.reader().top();
    root_digest::<H>(top.version, top.batch, top.count, &top.root_entry())
}

/// The proof that an honest server gives of the join, none where there is no memory.
pub fn honest<H: Hashes>(alloc: Global, one: &Snapshot<H>, other: &Snapshot<H>) -> Option<Vec<u8>>
    requires first { one.now.top.version ≡ Two }
    requires second { other.now.top.version ≡ Two }
{
    let mut out = MemSink::new(alloc, Vec::new(alloc));
    match (
        prove_join(alloc, &mut one.reader(), &mut other.reader(), &mut out),
        out.bytes().to_vec(alloc),
    ) {
        (Ok(()), Ok(bytes)) => Some(bytes),
        _ => None,
    }
}

// ---- proofs in pieces

// The bytes between two places, which the text tells.
fn between<'a>(bytes: &'a [u8], text: &str) -> Option<&'a [u8]> {
    let (from, to) = text.split_once('-')?;
    let (from, to) = (read_u64(from.as_bytes())?, read_u64(to.as_bytes())?);
    if from > to || to > bytes.len() as u64 {
        return None;
    }
    Some(&bytes[from as usize..to as usize])
}

// A piece is `p` or `q`, which is the whole of a proof, one of these with two places behind it, or
// a byte as a number.
fn put_piece(piece: &str, p: &[u8], q: &[u8], bytes: &mut Vec<u8>) -> Option<()> {
    let all = match piece.split_once(':') {
        Some(("p", text)) => between(p, text)?,
        Some(("q", text)) => between(q, text)?,
        _ => {
            let byte = read_u64(piece.as_bytes())?;
            return bytes.push((byte % 256) as u8).ok();
        }
    };
    bytes.extend_from_slice(all).ok()
}

fn pieces_in(alloc: Global, pieces: &str, p: &[u8], q: &[u8]) -> Option<Vec<u8>> {
    let mut bytes = Vec::new(alloc);
    for piece in pieces.split(' ') {
        put_piece(piece, p, q, &mut bytes)?;
    }
    Some(bytes)
}

// ---- what is said

fn pairs_text(alloc: Global, pairs: &[Pair]) -> Result<String, AllocError> {
    let mut text = String::from_str(alloc, "pairs")?;
    for pair in pairs {
        let (first, second) = (pair.first, pair.second);
        text.push_str(format!(in alloc; " {first} {second}")?.as_str())?;
    }
    Ok(text)
}

fn part_text(alloc: Global, name: &str, fault: &Fault) -> Result<String, AllocError> {
    let (rule, at) = (fault.rule.name(), fault.at);
    format!(in alloc; "{name} {rule} at {at}")
}

fn fault_text(alloc: Global, fault: &JoinFault) -> Result<String, AllocError> {
    match fault {
        JoinFault::Frame { rule, at } => {
            let rule = rule.name();
            format!(in alloc; "frame {rule} at {at}")
        }
        JoinFault::First(fault) => part_text(alloc, "first", fault),
        JoinFault::Second(fault) => part_text(alloc, "second", fault),
    }
}

fn digest_of<H: Hashes>(bytes: &[u8]) -> [u8; 32] {
    let mut hasher = H::start();
    hasher.update(bytes);
    hasher.finish()
}

// Two strings that differ and have one digest are told by their lengths.
fn strings_text<H: Hashes>(
    alloc: Global,
    name: &str,
    owned: &Items<u8>,
    shown: &Items<u8>,
) -> Result<String, AllocError> {
    let (owned, shown) = (owned.as_slice(), shown.as_slice());
    if owned == shown || digest_of::<H>(owned) != digest_of::<H>(shown) {
        return String::from_str(alloc, "no collision");
    }
    let (long, wide) = (owned.len(), shown.len());
    format!(in alloc; "{name} {long} {wide}")
}

fn checked<H: Hashes>(
    alloc: Global,
    one: &Snapshot<H>,
    other: &Snapshot<H>,
    proof: &[u8],
) -> Result<String, AllocError> {
    match check_join::<H>(alloc, &root_of(one), &root_of(other), proof) {
        Ok(pairs) => pairs_text(alloc, pairs.as_slice()),
        Err(JoinErr::Fault(fault)) => fault_text(alloc, &fault),
        Err(JoinErr::NoMemory) => Err(AllocError),
    }
}

fn audited<H: Hashes>(
    alloc: Global,
    one: &Snapshot<H>,
    other: &Snapshot<H>,
    proof: &[u8],
) -> Result<String, AllocError> {
    match audit_join(alloc, &mut one.reader(), &mut other.reader(), proof) {
        Ok(JoinFinding::Refused(fault)) => fault_text(alloc, &fault),
        Ok(JoinFinding::Sound(pairs)) => pairs_text(alloc, pairs.as_slice()),
        Ok(JoinFinding::First(owned, shown)) => strings_text::<H>(alloc, "first", &owned, &shown),
        Ok(JoinFinding::Second(owned, shown)) => strings_text::<H>(alloc, "second", &owned, &shown),
        Err(_) => Err(AllocError),
    }
}

// ---- calls

// The words of a proof: the two maps that it is checked against, two more, and the pieces. `p` is
// the honest proof of the first map and the fourth, `q` of the third and the second.
fn proof_of<H: Hashes>(alloc: Global, words: &str) -> Option<Vec<u8>> {
    let (one, words) = words.split_once(' ')?;
    let (other, words) = words.split_once(' ')?;
    let (third, words) = words.split_once(' ')?;
    let (fourth, pieces) = words.split_once(' ')?;
    let (one, other) = (map_of::<H>(alloc, one)?, map_of::<H>(alloc, other)?);
    let (third, fourth) = (map_of::<H>(alloc, third)?, map_of::<H>(alloc, fourth)?);
    let p = honest(alloc, &one, &fourth)?;
    let q = honest(alloc, &third, &other)?;
    pieces_in(alloc, pieces, &p, &q)
}

// The two maps that come first.
fn maps_of<H: Hashes>(alloc: Global, words: &str) -> Option<(Snapshot<H>, Snapshot<H>)> {
    let (one, words) = words.split_once(' ')?;
    let (other, _) = words.split_once(' ')?;
    Some((map_of::<H>(alloc, one)?, map_of::<H>(alloc, other)?))
}

// How long the proof is, and what the client and the auditor say of it, the latter where it is
// something else.
fn judged<H: Hashes>(alloc: Global, words: &str) -> Result<String, AllocError> {
    let (Some(proof), Some(maps)) = (proof_of::<H>(alloc, words), maps_of::<H>(alloc, words)) else {
        return String::from_str(alloc, "none");
    };
    let long = proof.len();
    let said = checked(alloc, &maps.0, &maps.1, &proof)?;
    let found = audited(alloc, &maps.0, &maps.1, &proof)?;
    let (said, found) = (said.as_str(), found.as_str());
    if said == found {
        format!(in alloc; "{long} bytes: {said}")
    } else {
        format!(in alloc; "{long} bytes: {said}, {found}")
    }
}

// The last byte of a map's root under the exclusive or of all bytes.
fn last_byte(alloc: Global, letter: &str) -> Result<String, AllocError> {
    match map_of::<XorHash>(alloc, letter) {
        Some(map) => {
            let root = root_of(&map);
            let last = root[31];
            format!(in alloc; "{last}")
        }
        None => String::from_str(alloc, "none"),
    }
}

// Whether a record in the first rectangle is opened where those behind it are asked for.
fn way_text(list: &[i32], alloc: Global) -> Result<String, AllocError> {
    let mut rects = Vec::new(alloc);
    for sides in list.chunks(4) {
        if let Some(rect) = rect_in(sides) {
            rects.push(rect)?;
        }
    }
    let said = match rects.as_slice() {
        [asked, others @ ..] => {
            let meets = Meets::of(alloc, others)?;
            match (meets.way(asked, 0), meets.way(asked, u64::MAX)) {
                (Way::Open, Way::Open) => "open",
                (Way::Skip, Way::Skip) => "skip",
                _ => "other",
            }
        }
        [] => "none",
    };
    String::from_str(alloc, said)
}

// ---- what fails

// What was refused, and how many bytes of the honest proof were taken.
fn stopped_text(
    alloc: Global,
    refused: &Result<(), ProveErr>,
    taken: &[u8],
    whole: &[u8],
) -> Result<String, AllocError> {
    let what = match refused {
        Ok(()) => "nothing",
        Err(ProveErr::Nodes(_)) => "nodes",
        Err(ProveErr::Sink) => "sink",
        Err(ProveErr::NoMemory) => "memory",
    };
    if !whole.starts_with(taken) {
        return String::from_str(alloc, "no front");
    }
    let count = taken.len();
    format!(in alloc; "{what} after {count}")
}

fn stopping<H: Hashes>(map: &Snapshot<H>, left: u64) -> Stopping<'_, H>
    ensures { result.reader.snapshot.now ≡ map.now }
{
    Stopping {
        reader: map.reader(),
        left,
        fetches: 0,
        faults: 0,
        refusal: None,
        asked: None,
    }
}

// Of the maps `x` and `y`: so many nodes of each may be fetched, and the output's call with this
// number fails.
fn stopped(alloc: Global, first: u64, second: u64, call: u64) -> Result<String, AllocError> {
    let (Some(one), Some(other)) = (map_of::<Sha>(alloc, "x"), map_of::<Sha>(alloc, "y")) else {
        return String::from_str(alloc, "none");
    };
    let Some(whole) = honest(alloc, &one, &other) else {
        return String::from_str(alloc, "none");
    };
    let mut out = MemSink::new(alloc, vec![in alloc; call]?);
    let refused = prove_join(
        alloc,
        &mut stopping(&one, first),
        &mut stopping(&other, second),
        &mut out,
    );
    stopped_text(alloc, &refused, out.bytes(), &whole)
}

fn natural(number: i32) -> u64 {
    u64::try_from(number).unwrap_or(0)
}

/// What a call answers.
pub fn answer(alloc: Global, call: &str, words: &str) -> Result<String, AllocError> {
    let list = numbers(alloc, words)?;
    match (call, list.as_slice()) {
        ("root", _) => last_byte(alloc, words),
        ("way", _) => way_text(&list, alloc),
        ("xor", _) => judged::<XorHash>(alloc, words),
        ("sha", _) => judged::<Sha>(alloc, words),
        ("stop", [first, second, call]) => {
            stopped(alloc, natural(*first), natural(*second), natural(*call))
        }
        _ => String::from_str(alloc, "none"),
    }
}

const ROOTS: &str = "root x = 26\n\
    root y = 20\n\
    root z = 20";

// The rectangle that is asked for, and the others: a side that is shared, a corner, one to the left
// and one below; none; eight apart, and a ninth round them; a point in the last of ten.
const WAYS: &str = "way 0 0 1 1 1 0 2 1 = open\n\
    way 0 0 1 1 1 1 2 2 = open\n\
    way 0 0 1 1 2 0 3 1 0 2 1 3 = skip\n\
    way 0 0 1 1 = skip\n\
    way 5 5 5 5 0 0 1 1 2 0 3 1 0 2 1 3 2 2 3 3 8 8 9 9 8 0 9 1 0 8 1 9 7 7 7 7 = skip\n\
    way 5 5 5 5 0 0 1 1 2 0 3 1 0 2 1 3 2 2 3 3 8 8 9 9 8 0 9 1 0 8 1 9 7 7 7 7 0 0 9 9 = open\n\
    way 4 4 4 4 0 0 0 0 9 9 9 9 1 1 1 1 8 8 8 8 2 2 2 2 7 7 7 7 3 3 3 3 6 6 6 6 5 5 5 5 \
    3 4 4 5 = open";

// Honest proofs: two that meet, two that are apart, the second map empty, the first, both; that of
// another first map, which is of no matter then; the maps exchanged; three and two, which touch in
// sides and corners.
const HONEST: &str = "xor x y x y p:0-127 = 127 bytes: pairs 7 9\n\
    sha x y x y p:0-127 = 127 bytes: pairs 7 9\n\
    xor x z x z p:0-201 = 201 bytes: pairs\n\
    sha x z x z p:0-201 = 201 bytes: pairs\n\
    xor x e x e p:0-27 = 27 bytes: pairs\n\
    sha x e x e p:0-27 = 27 bytes: pairs\n\
    xor e x e x p:0-135 = 135 bytes: pairs\n\
    sha e e e e p:0-27 = 27 bytes: pairs\n\
    sha x e y e q:0-27 = 27 bytes: pairs\n\
    xor y x y x p:0-127 = 127 bytes: pairs 9 7\n\
    xor c d c d p:0-205 = 205 bytes: pairs 4 8 4 20 5 8 30 20\n\
    sha c d c d p:0-205 = 205 bytes: pairs 4 8 4 20 5 8 30 20";

// The frame: each field is cut short, and is another one; the rectangle goes before what is missing
// behind it.
const FRAMES: &str = "xor x y x y p:0-0 = 0 bytes: frame Short at 0\n\
    xor x y x y p:0-3 = 3 bytes: frame Short at 0\n\
    xor x y x y p:0-4 = 4 bytes: frame Short at 4\n\
    xor x y x y p:0-5 = 5 bytes: frame Short at 5\n\
    xor x y x y p:0-20 = 20 bytes: frame Short at 5\n\
    xor x y x y p:0-21 = 21 bytes: frame Short at 21\n\
    xor x y x y p:0-24 = 24 bytes: frame Short at 21\n\
    xor x y x y p:0-25 = 25 bytes: frame Short at 25\n\
    xor x y x y p:0-75 = 75 bytes: frame Short at 25\n\
    sha x y x y p:0-75 = 75 bytes: frame Short at 25\n\
    xor x y x y p:0-3 79 p:4-127 = 127 bytes: frame BadMagic at 0\n\
    xor x y x y p:0-4 2 p:5-127 = 127 bytes: frame BadFlag at 4\n\
    xor x y x y p:0-8 2 p:9-21 = 21 bytes: frame BadRect at 5\n\
    sha x y x y p:0-8 2 p:9-21 = 21 bytes: frame BadRect at 5";

// The parts: the second one is not there; the first one is one byte longer, or one shorter; a byte
// behind the second one; a fault of the first one, and one of the second, before those that follow;
// that of another map.
const PARTS: &str = "xor x y x y p:0-76 = 76 bytes: second Short at 0\n\
    xor x y x y p:0-24 52 p:25-76 0 p:76-127 = 128 bytes: first Trailing at 51\n\
    xor x y x y p:0-24 50 p:25-75 p:76-127 = 126 bytes: first Short at 50\n\
    xor x y x y p:0-127 0 = 128 bytes: second Trailing at 51\n\
    xor x y x y p:0-24 52 p:25-76 0 p:76-126 = 127 bytes: first Trailing at 51\n\
    xor x y x y p:0-20 0 p:21-127 0 = 128 bytes: second Trailing at 51\n\
    sha x y x z p:0-201 = 201 bytes: second WrongRoot at 88";

// What the frame says of the second map: another rectangle, behind which all is well; a lesser one,
// for which less of the first map is opened; one of an empty map; none of a map that is opened, and
// of one that is told by its entry.
const SAID: &str = "xor x y x y p:0-20 0 p:21-127 = 127 bytes: frame WrongRect at 127\n\
    sha x y x y p:0-20 0 p:21-127 = 127 bytes: frame WrongRect at 127\n\
    xor a r f y p:0-113 q:113-201 = 201 bytes: frame WrongRect at 201\n\
    sha a r f y p:0-113 q:113-201 = 201 bytes: frame WrongRect at 201\n\
    xor x e x y p:0-76 q:5-27 = 98 bytes: frame WrongRect at 98\n\
    sha x e x y p:0-76 q:5-27 = 98 bytes: frame WrongRect at 98\n\
    xor x y x y p:0-4 0 p:76-127 = 56 bytes: second Needless at 50\n\
    xor x z x z p:0-4 0 p:113-201 = 93 bytes: frame WrongFlag at 93\n\
    sha x z x z p:0-4 0 p:113-201 = 93 bytes: frame WrongFlag at 93";

// The proof of one map's join where another map has its root: two preimages of the root, in the
// second map, in the first one, and in both; and one record that is shown three times, so that its
// pair comes so often.
const COLLISIONS: &str = "xor x y x z p:0-201 = 201 bytes: pairs, second 75 75\n\
    xor x y a y q:0-201 = 201 bytes: pairs, first 75 75\n\
    xor x y a w p:0-25 q:25-113 p:113-201 = 201 bytes: pairs, first 75 75\n\
    xor x y x y p:0-24 103 p:25-46 3 p:47-49 3 p:50-76 p:50-76 p:50-76 p:76-127 \
    = 179 bytes: pairs 7 9 7 9 7 9, first 75 75";

// How many nodes of either map are fetched, and which call of the output fails: the first map's
// proof is made before anything is put out.
const STOPS: &str = "stop 1 1 0 = nothing after 127\n\
    stop 0 1 0 = nodes after 0\n\
    stop 1 0 0 = nodes after 99\n\
    stop 1 1 1 = sink after 0\n\
    stop 1 1 2 = sink after 76";

#[test]
fn joins_are_proved_checked_and_audited(rt: HostRuntime) {
    let alloc = rt.alloc();
    all_hold_in_memory(&rt, first_untrue(alloc, Kind::Joins, ROOTS));
    all_hold_in_memory(&rt, first_untrue(alloc, Kind::Joins, WAYS));
    all_hold_in_memory(&rt, first_untrue(alloc, Kind::Joins, HONEST));
    all_hold_in_memory(&rt, first_untrue(alloc, Kind::Joins, FRAMES));
    all_hold_in_memory(&rt, first_untrue(alloc, Kind::Joins, PARTS));
    all_hold_in_memory(&rt, first_untrue(alloc, Kind::Joins, SAID));
    all_hold_in_memory(&rt, first_untrue(alloc, Kind::Joins, COLLISIONS));
    all_hold_in_memory(&rt, first_untrue(alloc, Kind::Joins, STOPS));
}

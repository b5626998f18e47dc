//! Batches that are drawn, on a map of either version that is filled, emptied and filled again:
//! applied to its pages by the command, and to its tree in memory by the plain calls. The two maps
//! are one: after each batch `list` prints the same of both files. In version 1 `prove` writes the
//! same proofs, which `check` accepts. In version 2 each record is on the layer of its column. The
//! roots are from a program of another language.

ghost use Rattle.std.specs.Prelude.{◌≡◌, true, All, IfSome};
ghost use Rattle.mr_record.specs.Record.{HasLayer};
ghost use Rattle.mr_tree.specs.WellFormed.{WellFormed};

use crate::assertions::holds;
use mr_batch::{apply_plain, read_batch_of};
use mr_fixtures::runs::{file_of, ran_on, shelf_of};
use mr_outside::{MemShelf, MemSink};
use mr_pages::{open_plain, save_plain, save2_plain};
use mr_record::{LAYER_LIMIT, Record, Version, write_lines};
use mr_tool::Status::Done;
use mr_tree::{Sha, Tree, level_of, records_of};
use std::alloc::{AllocError, Global};
use std::thread::Threads;

// A batch: so many numbers are drawn, or taken from all in steps. A record that is not there comes
// and one that is there goes, where the batch has it so. The level of the map's root then, and the
// root digests in version 1 and in version 2.
#[derive(Clone, Copy)]
struct Draw {
    count: u64,
    stepped: bool,
    comes: bool,
    goes: bool,
    level: u8,
    root: &'static str,
    root2: &'static str,
}

// In the last of them each number is taken twice: the map grows by a level and shrinks again.
const DRAWS: &[Draw] = &[
    Draw {
        count: 900,
        stepped: true,
        comes: true,
        goes: false,
        level: 2,
        root: "32dd056e57e588664e83af6014047538cc078741bd2184a4bb838dc0c83e3080",
        root2: "36db9ebb4f03619d5866a58e967be8bf99319a54012f4ee5f486912bd96d3c60",
    },
    Draw {
        count: 300,
        stepped: false,
        comes: true,
        goes: true,
        level: 2,
        root: "b9f1f7ecb03a42e3835d455e2bd3a750342cc719fa69c0d686c1f2db192da2da",
        root2: "6ffec8343d74472731de7a7d75fc69677b78f36fa66fdde87abbccdcd40cfa5b",
    },
    Draw {
        count: 1200,
        stepped: true,
        comes: false,
        goes: true,
        level: 0,
        root: "23912edef75448391ad90c0bf5134c56195c3666328d28278c6d0dbd5dbbd950",
        root2: "b825dce5fc70eb50e8619a71a203063b042fbac5e4a1d42ddf17b632dcc1a7bf",
    },
    Draw {
        count: 200,
        stepped: false,
        comes: true,
        goes: true,
        level: 1,
        root: "bb346176add7229d7fa376307f6ab9772b38a70e667fe404b87b6fd80449b4b0",
        root2: "aa5961ee45d7f1acea44642fa931fbcaa349050c598a2d11e2b330761650af28",
    },
    Draw {
        count: 2400,
        stepped: true,
        comes: true,
        goes: true,
        level: 1,
        root: "9112846686efa984dfa7ac02cca03b989dff02dfbc22dc187c8cf4f2f0f0e22a",
        root2: "cdfabcb2fd21abe4f39b2c607641d15a73598c28c1b7d54d173625b26a7194e6",
    },
];

// What is asked of a map of version 1 after each batch: of everything, of a part, and of the
// nearest where there are so many, or are not.
const QUERIES: &[&str] = &[
    "window:0,0,20040,20010",
    "window:4000,9000,9000,12000",
    "nearest:10000,10000,10",
    "nearest:0,20000,1024",
];

// What is asked of a map. Of one of version 2, which has proofs too, none is asked for here.
fn asked(version: Version) -> &'static [&'static str] {
    match version {
        Version::One => QUERIES,
        Version::Two => &[],
    }
}

// The root digest of the map after a batch.
fn root_of(version: Version, draw: &Draw) -> &'static str {
    match version {
        Version::One => draw.root,
        Version::Two => draw.root2,
    }
}

// How many numbers there are.
const NUMBERS: u64 = 1200;

// The next number of a stream.
fn next(seed: &mut u64) -> u64 {
    *seed = seed
        .wrapping_mul(6_364_136_223_846_793_005)
        .wrapping_add(1_442_695_040_888_963_407);
    *seed >> 33
}

// The number that a batch takes at this place, from 0 on.
fn taken(draw: &Draw, place: u64, seed: &mut u64) -> u64 {
    if draw.stepped {
        place.wrapping_mul(487) % NUMBERS
    } else {
        next(seed) % NUMBERS
    }
}

// The layer in the line of a record, where a version has one: that of the record's column.
fn layer_in(alloc: Global, version: Version, x: u64) -> Result<String, AllocError> {
    let layer = x / 320;
    match version {
        Version::One => Ok(String::new(alloc)),
        Version::Two => format!(in alloc; "{layer} "),
    }
}

// The line of a record that comes, at a place that is drawn.
fn put_addition(
    alloc: Global,
    version: Version,
    text: &mut String,
    number: u64,
    seed: &mut u64,
) -> Result<(), AllocError> {
    let (x, y) = (next(seed) % 20_000, next(seed) % 20_000);
    let (right, top) = (x + number % 40, y + number % 7);
    let layer = layer_in(alloc, version, x)?;
    let layer = layer.as_str();
    text.push_str(format!(in alloc; "+ {number} {x} {y} {right} {top} {layer}-\n")?.as_str())
}

fn put_removal(alloc: Global, text: &mut String, number: u64) -> Result<(), AllocError> {
    text.push_str(format!(in alloc; "- {number}\n")?.as_str())
}

// Whether a record is there; if the batch has it come or go, it is then there no more, or is there.
fn turned(draw: &Draw, there: &mut [bool], number: u64) -> Option<bool> {
    let place = there.get_mut(number as usize)?;
    let was = *place;
    if was && draw.goes || !was && draw.comes {
        *place = !was;
        return Some(was);
    }
    None
}

// The text of a batch. What is there follows it.
fn text_of(
    alloc: Global,
    version: Version,
    batch: u64,
    draw: &Draw,
    there: &mut [bool],
    seed: &mut u64,
) -> Result<String, AllocError> {
    let mut text = format!(in alloc; "batch {batch}\n")?;
    for place in 0..draw.count {
        let number = taken(draw, place, seed);
        match turned(draw, there, number) {
            Some(true) => put_removal(alloc, &mut text, number)?,
            Some(false) => put_addition(alloc, version, &mut text, number, seed)?,
            None => {}
        }
    }
    Ok(text)
}

// The tree of the map in a file.
fn tree_in(alloc: Global, shelf: &mut MemShelf, name: &str) -> Option<Tree>
    ensures { IfSome result WellFormed }
{
    match open_plain::<Sha, MemShelf>(alloc, shelf, name) {
        Ok(map) => Some(map.tree),
        Err(_) => None,
    }
}

// Whether a version has the layers of these records.
fn are_layered(version: Version, list: &[Record]) -> bool
    ensures { result ≡ true → All (HasLayer version) list.now }
{
    match version {
        Version::One => list.iter().all(|one| one.layer == 0),
        Version::Two => list.iter().all(|one| one.layer <= LAYER_LIMIT),
    }
}

// The tree of the map in a file after a batch.
fn tree_after(
    alloc: Global,
    version: Version,
    shelf: &mut MemShelf,
    batch: u64,
    text: &str,
) -> Option<Tree>
    ensures { IfSome result WellFormed }
{
    let tree = tree_in(alloc, shelf, "m")?;
    let Ok(batch_in) = read_batch_of(alloc, version, text.as_bytes()) else {
        return None;
    };
    match apply_plain(alloc, tree, batch.wrapping_sub(1), &batch_in) {
        Ok(tree) => Some(tree),
        Err(_) => None,
    }
}

// The lines of a tree's records with their layers, in the order of its leaves.
fn lines_of(alloc: Global, tree: &Tree) -> Option<MemSink> {
    let Ok(records) = records_of(alloc, tree) else {
        return None;
    };
    let mut out = MemSink::new(alloc, Vec::new(alloc));
    if !are_layered(Version::Two, &records) {
        return None;
    }
    match write_lines(&mut out, Version::Two, &records) {
        Ok(()) => Some(out),
        Err(_) => None,
    }
}

// Whether two trees have the same records in the same leaves' order.
fn are_alike(alloc: Global, one: &Tree, other: &Tree) -> Option<bool> {
    Some(lines_of(alloc, one)?.bytes() == lines_of(alloc, other)?.bytes())
}

// Whether the map that the command left is of this tree.
fn is_of(alloc: Global, shelf: &mut MemShelf, tree: &Tree) -> bool {
    match tree_in(alloc, shelf, "n") {
        Some(found) => are_alike(alloc, &found, tree) == Some(true),
        None => false,
    }
}

// Writes a tree's map of version 1 to file `t`, if it has no layers.
fn is_laid_first(alloc: Global, shelf: &mut MemShelf, tree: &Tree, batch: u64) -> bool
    requires { WellFormed tree.now }
{
    let Ok(records) = records_of(alloc, tree) else {
        return false;
    };
    if !are_layered(Version::One, &records) {
        return false;
    }
    save_plain::<Sha, MemShelf>(alloc, shelf, "t", tree, batch).is_ok()
}

// Writes a tree's map to file `t`, which knows nothing of the pages of the other one.
fn is_laid_out(
    alloc: Global,
    version: Version,
    shelf: &mut MemShelf,
    tree: &Tree,
    batch: u64,
) -> bool
    requires { WellFormed tree.now }
{
    match version {
        Version::One => is_laid_first(alloc, shelf, tree, batch),
        Version::Two => save2_plain::<Sha, MemShelf>(alloc, shelf, "t", tree, batch).is_ok(),
    }
}

// Adds what a command line prints, where it was done.
fn told<R: Threads + Sync>(
    rt: &R,
    alloc: Global,
    line: &str,
    shelf: MemShelf,
    shown: &mut Vec<u8>,
) -> Result<(MemShelf, bool), AllocError> {
    let (status, left) = ran_on::<Sha, R>(rt, alloc, line, shelf, shown)?;
    Ok((left, status == Done))
}

// Adds what `prove` prints of a map and a query, the proof, and what `check` finds in it.
fn proved<R: Threads + Sync>(
    rt: &R,
    alloc: Global,
    map: &str,
    query: &str,
    root: &str,
    shelf: MemShelf,
    shown: &mut Vec<u8>,
) -> Result<(MemShelf, bool), AllocError> {
    let prove = format!(in alloc; "prove {map} {query} p")?;
    let (left, is_proved) = told(rt, alloc, prove.as_str(), shelf, shown)?;
    shown.extend_from_slice(&file_of(alloc, &left, "p")?)?;
    let check = format!(in alloc; "check {root} {query} p")?;
    let (left, is_accepted) = told(rt, alloc, check.as_str(), left, shown)?;
    Ok((left, is_proved && is_accepted))
}

// All that is shown of a map: its list, and what is asked of it. None where a run was not done.
fn shown_of<R: Threads + Sync>(
    rt: &R,
    alloc: Global,
    version: Version,
    map: &str,
    root: &str,
    shelf: MemShelf,
) -> Result<(MemShelf, Option<Vec<u8>>), AllocError> {
    let mut shown = Vec::new(alloc);
    let list = format!(in alloc; "list {map}")?;
    let (left, is_listed) = told(rt, alloc, list.as_str(), shelf, &mut shown)?;
    let mut shelf = left;
    let mut is_done = is_listed;
    for query in asked(version) {
        let (left, is_proved) = proved(rt, alloc, map, query, root, shelf, &mut shown)?;
        shelf = left;
        is_done = is_done && is_proved;
    }
    Ok((shelf, if is_done { Some(shown) } else { None }))
}

// Whether the same is shown of the map that the command left and of the one that was laid out.
fn are_shown_alike<R: Threads + Sync>(
    rt: &R,
    alloc: Global,
    version: Version,
    root: &str,
    shelf: MemShelf,
) -> Result<(MemShelf, bool), AllocError> {
    let (left, one) = shown_of(rt, alloc, version, "n", root, shelf)?;
    let (left, other) = shown_of(rt, alloc, version, "t", root, left)?;
    Ok((left, one.is_some() && one == other))
}

// Applies the batch in file `b` to the map in file `m` both ways, by the command into file `n`: the
// shelf then, and whether the two maps are one, with this root and a root node of this level.
fn applied<R: Threads + Sync>(
    rt: &R,
    alloc: Global,
    version: Version,
    shelf: MemShelf,
    batch: u64,
    text: &str,
    draw: &Draw,
) -> Result<(MemShelf, bool), AllocError> {
    let mut shelf = shelf;
    let Some(tree) = tree_after(alloc, version, &mut shelf, batch, text) else {
        return Ok((shelf, false));
    };
    let is_laid = is_laid_out(alloc, version, &mut shelf, &tree, batch);
    let mut said = Vec::new(alloc);
    let (left, is_done) = told(rt, alloc, "apply m b n", shelf, &mut said)?;
    let mut left = left;
    let same = is_of(alloc, &mut left, &tree) && level_of(&tree) == draw.level;
    let root = root_of(version, draw);
    let is_root = said.starts_with(root.as_bytes());
    let (left, are_alike) = are_shown_alike(rt, alloc, version, root, left)?;
    Ok((left, is_laid && is_done && is_root && same && are_alike))
}

// The same of a batch that is drawn; the map is in file `m` then.
fn drawn<R: Threads + Sync>(
    rt: &R,
    alloc: Global,
    version: Version,
    shelf: MemShelf,
    batch: u64,
    draw: &Draw,
    there: &mut [bool],
    seed: &mut u64,
) -> Result<(MemShelf, bool), AllocError> {
    let mut shelf = shelf;
    let text = text_of(alloc, version, batch, draw, there, seed)?;
    shelf.put("b", text.as_bytes())?;
    let (left, same) = applied(rt, alloc, version, shelf, batch, text.as_str(), draw)?;
    let mut left = left;
    let map = file_of(alloc, &left, "n")?;
    left.put("m", &map)?;
    Ok((left, same))
}

// No record is there.
fn none(alloc: Global, count: usize) -> Result<Vec<bool>, AllocError> {
    vec![in alloc; false; count]
}

// The number of the first batch behind which the two maps are not one, 0 where they always are.
fn first_apart<R: Threads + Sync>(
    rt: &R,
    alloc: Global,
    version: Version,
    seed: u64,
) -> Result<u64, AllocError> {
    let mut seed = seed;
    let mut there = none(alloc, NUMBERS as usize)?;
    let mut said = Vec::new(alloc);
    let shelf = shelf_of(alloc, &[("r", "")], &[])?;
    let line = match version {
        Version::One => "build m r",
        Version::Two => "build2 m r",
    };
    let (_, left) = ran_on::<Sha, R>(rt, alloc, line, shelf, &mut said)?;
    let mut shelf = left;
    let mut batch = 0u64;
    for draw in DRAWS {
        batch = batch.wrapping_add(1);
        let (left, same) = drawn(
            rt,
            alloc,
            version,
            shelf,
            batch,
            draw,
            there.as_mut_slice(),
            &mut seed,
        )?;
        if !same {
            return Ok(batch);
        }
        shelf = left;
    }
    Ok(0)
}

fn are_one<R: Threads + Sync>(
    rt: &R,
    alloc: Global,
    version: Version,
    seed: u64,
) -> Result<bool, AllocError> {
    Ok(first_apart(rt, alloc, version, seed)? == 0)
}

#[test]
fn batches_that_are_drawn(rt: HostRuntime) {
    holds(&rt, "one map", are_one(&rt, rt.alloc(), Version::One, 1));
}

#[test]
fn batches_that_are_drawn_in_version_2(rt: HostRuntime) {
    holds(&rt, "one map", are_one(&rt, rt.alloc(), Version::Two, 1));
}

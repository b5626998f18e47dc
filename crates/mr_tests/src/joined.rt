//! Bulk load in joined halves: the tree's root is that of one thread, and each leaf passes the gate
//! once, with the number of its digest.

ghost use Rattle.std.specs.Prelude.{◌≡◌, true, All, IfSome};
ghost use Rattle.mr_record.specs.Record.{HasLayer};
ghost use Rattle.mr_record.specs.declared.version.Version.TheVariants.{One, Two};
ghost use Rattle.mr_tree.specs.WellFormed.{WellFormed, HasLayers};

use crate::assertions::{all_hold, holds};
use crate::gates::{Passages, fresh, has_left, is_passed};
use mr_geom::Rect;
use mr_outside::{Gate, NoGate};
use mr_pack::{PackErr, pack, pack_joined};
use mr_record::{Payload, Record, Version, u64_of_bytes};
use mr_tree::{Hash32, Sha, Tree, XorHash, leaf_entry, records_of, root_of};
use std::alloc::{AllocError, Global};
use std::sync::atomic::{AtomicU64, Ordering};
use std::thread::Threads;

// Record `number` at a place that mixes the leaves.
fn scattered(number: u32) -> Option<Record> {
    let x = (number.wrapping_mul(7_919) % 1_009) as i32;
    let y = (number.wrapping_mul(4_729) % 997) as i32;
    let rect = Rect::new(x, y, x, y)?;
    let payload = Payload::new(&[])?;
    Some(Record {
        number: u64::from(number),
        rect,
        layer: 0,
        payload,
    })
}

// So many records.
fn records(alloc: Global, count: u32) -> Result<Vec<Record>, AllocError> {
    let mut list = Vec::new(alloc);
    for number in 1..=count {
        if let Some(record) = scattered(number) {
            list.push(record)?;
        }
    }
    Ok(list)
}

// Whether each of these records is on layer 0.
fn are_on_first(list: &[Record]) -> bool
    ensures first { result ≡ true → All (HasLayer One) list.now }
    ensures second { result ≡ true → All (HasLayer Two) list.now }
{
    list.iter().all(|one| one.layer == 0)
}

/// The tree by one thread, none where there are too many records, a number stands twice or there
/// is no memory.
pub fn plain(alloc: Global, list: Vec<Record>) -> Option<Tree>
    ensures { IfSome result WellFormed }
{
    if list.len() > 1 << 20 {
        return None;
    }
    if !are_on_first(&list) {
        return None;
    }
    match pack(alloc, list) {
        Ok(tree) => Some(tree),
        Err(_) => None,
    }
}

// The root by joined halves.
fn joined<H: Hash32, G: Gate, R: Threads + Sync>(
    rt: &R,
    alloc: Global,
    list: Vec<Record>,
    gate: &G,
) -> Result<[u8; 32], PackErr> {
    if list.len() > 1 << 20 {
        return Err(PackErr::NoMemory);
    }
    if !are_on_first(&list) {
        return Err(PackErr::NoMemory);
    }
    let (_tree, root) = pack_joined::<H, G, R>(rt, alloc, list, gate)?;
    Ok(root)
}

// The last 8 bytes of the digest of a leaf as a number.
fn number<H: Hash32>(leaf: &[Record]) -> u64 {
    if leaf.len() > 16 {
        return 0;
    }
    if !are_on_first(leaf) {
        return 0;
    }
    let digest = leaf_entry::<H>(Version::One, leaf).digest;
    let (_, last) = digest.split_at(24);
    u64_of_bytes(last)
}

/// The last 8 bytes of the digest of each leaf, as numbers, from left to right.
pub fn numbers<H: Hash32>(tree: &Tree, list: &mut Vec<u64>) -> Result<(), AllocError> {
    match tree {
        Tree::Empty => {}
        Tree::Leaf(records) => list.push(number::<H>(records.as_slice()))?,
        Tree::Inner(children) => {
            for child in children.as_slice() {
                numbers::<H>(child, list)?;
            }
        }
    }
    Ok(())
}

// So many records, and how many leaves they are packed into.
#[derive(Clone, Copy)]
struct Load<'a> {
    name: &'a str,
    count: u32,
    leaves: usize,
}

const LOADS: &[Load<'static>] = &[
    Load {
        name: "no record",
        count: 0,
        leaves: 0,
    },
    Load {
        name: "one record",
        count: 1,
        leaves: 1,
    },
    Load {
        name: "one more than a leaf holds",
        count: 17,
        leaves: 2,
    },
    Load {
        name: "three levels",
        count: 1_100,
        leaves: 69,
    },
];

const TWO_LEAVES: &[Load<'static>] = &[Load {
    name: "one more than a leaf holds",
    count: 17,
    leaves: 2,
}];

// Whether a tree is known to be one of version 1.
fn is_first(alloc: Global, tree: &Tree) -> bool
    ensures { result ≡ true → HasLayers One tree.now }
{
    match records_of(alloc, tree) {
        Ok(list) => are_on_first(&list),
        Err(_) => false,
    }
}

// Whether a root is that of the tree, each of whose leaves passed the gate.
fn is_its_root<H: Hash32>(
    alloc: Global,
    tree: &Tree,
    gate: &Passages,
    root: Result<[u8; 32], PackErr>,
) -> Result<bool, AllocError>
    requires { WellFormed tree.now }
{
    if !is_first(alloc, tree) {
        return Ok(false);
    }
    let mut list = Vec::new(alloc);
    numbers::<H>(tree, &mut list)?;
    match root {
        Ok(root) => Ok(root_of::<H>(tree, 0) == root && is_passed(gate, &list)),
        Err(_) => Ok(false),
    }
}

// So many records have one root either way, and so many leaves pass the gate.
fn agrees<H: Hash32, R: Threads + Sync>(
    rt: &R,
    alloc: Global,
    load: &Load<'_>,
) -> Result<bool, AllocError> {
    let gate = fresh(alloc, load.leaves)?;
    let root = joined::<H, _, R>(rt, alloc, records(alloc, load.count)?, &gate);
    match plain(alloc, records(alloc, load.count)?) {
        Some(tree) => is_its_root::<H>(alloc, &tree, &gate, root),
        None => Ok(false),
    }
}

fn first_disagreeing<H: Hash32, R: Threads + Sync>(
    rt: &R,
    alloc: Global,
    loads: &[Load<'static>],
) -> Result<Option<&'static str>, AllocError> {
    for load in loads {
        if !agrees::<H, R>(rt, alloc, load)? {
            return Ok(Some(load.name));
        }
    }
    Ok(None)
}

#[test]
fn joined_halves_give_the_root(rt: HostRuntime) {
    all_hold(&rt, first_disagreeing::<Sha, _>(&rt, rt.alloc(), LOADS));
    all_hold(
        &rt,
        first_disagreeing::<XorHash, _>(&rt, rt.alloc(), TWO_LEAVES),
    );
}

// Counts the pieces that come before the one in front of them has gone.
#[derive(Drop)]
struct Orderly {
    passages: Passages,
    hasty: AtomicU64,
}

impl Gate for Orderly {
    fn enter(&self, piece: usize) {
        if piece > 0 && !has_left(&self.passages, piece - 1) {
            self.hasty.fetch_add(1, Ordering::SeqCst);
        }
        self.passages.enter(piece);
    }

    fn leave(&self, piece: usize, found: u64) {
        self.passages.leave(piece, found);
    }
}

// The leaves of twenty thousand records pass the gate in at most 16 parts, and in a part each leaf
// goes before the next one comes: so no more than 15 come before the one in front has gone.
fn is_orderly<R: Threads + Sync>(
    rt: &R,
    alloc: Global,
    leaves: &[u64],
) -> Result<bool, AllocError> {
    let gate = Orderly {
        passages: fresh(alloc, leaves.len())?,
        hasty: AtomicU64::new(0),
    };
    let list = records(alloc, 20_000)?;
    let done = joined::<XorHash, _, R>(rt, alloc, list, &gate).is_ok();
    Ok(done && is_passed(&gate.passages, leaves) && gate.hasty.load(Ordering::SeqCst) <= 15)
}

// The numbers of the leaves of so many records, by one thread.
fn leaves(alloc: Global, count: u32) -> Result<Vec<u64>, AllocError> {
    let mut leaves = Vec::new(alloc);
    if let Some(tree) = plain(alloc, records(alloc, count)?) {
        numbers::<XorHash>(&tree, &mut leaves)?;
    }
    Ok(leaves)
}

fn twenty_thousand_are_orderly<R: Threads + Sync>(
    rt: &R,
    alloc: Global,
) -> Result<bool, AllocError> {
    let leaves = leaves(alloc, 20_000)?;
    Ok(leaves.len() == 1250 && is_orderly(rt, alloc, &leaves)?)
}

#[test]
fn a_leaf_goes_before_the_next_comes(rt: HostRuntime) {
    holds(
        &rt,
        "1250 leaves",
        twenty_thousand_are_orderly(&rt, rt.alloc()),
    );
}

// Twenty records, three of them twice.
fn three_twice(alloc: Global) -> Result<Vec<Record>, AllocError> {
    let mut list = records(alloc, 20)?;
    list.append(&mut records(alloc, 3)?)?;
    Ok(list)
}

fn names_the_least<R: Threads + Sync>(rt: &R, alloc: Global) -> Result<bool, AllocError> {
    let refused = joined::<XorHash, _, R>(rt, alloc, three_twice(alloc)?, &NoGate);
    Ok(matches!(refused, Err(PackErr::NumberTwice { number: 1 })))
}

#[test]
fn the_least_number_that_stands_twice_is_named(rt: HostRuntime) {
    holds(&rt, "1 of 1, 2 and 3", names_the_least(&rt, rt.alloc()));
}

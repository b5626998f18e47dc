//! The root of a packed map, where what is said of the leaves is computed in joined halves.

ghost use Rattle.std.specs.Prelude.{◌≡◌, List, ◌++◌, ◌<◌, ◌≤◌, ◌^◌, length, map, drop, All, OnOk, IfOk};
ghost use Rattle.std.specs.Int.{w64, from_be_bytes};
ghost use Rattle.std.specs.Borrow.{Bor};
ghost use Rattle.mr_record.specs.declared.record.Record as types;
ghost use Rattle.mr_record.specs.declared.version.Version.TheVariants.{One, Two};
ghost use Rattle.mr_record.specs.Record.{HasLayer};
ghost use Rattle.mr_tree.specs.Limits.{leaf_limit};
ghost use Rattle.mr_tree.specs.Tree.{level as level_in};
ghost use Rattle.mr_tree.specs.Digest.{by, entry, root};
ghost use Rattle.mr_tree.specs.private.Slim.{IsSlim};
ghost use Rattle.mr_tree.specs.WellFormed.{WellFormed, HasOneLevel};
ghost use Rattle.mr_tree.specs.declared.tree.Tree.TheFolds.{every-Tree};
ghost use Rattle.mr_tree.specs.Leaves.{leaves as leaves_in, leaf_entry as entry_of_leaf, leaf_entries};

use mr_fork_join::{Work, in_halves};
use mr_outside::Gate;
use mr_record::{Record, Version, u64_of_bytes};
use mr_tree::{
    Entry, Hash32, Hashes, NodeHasher, Tree, count_of, empty_entry, leaf_entry, level_of,
    root_digest,
};
use std::alloc::{AllocError, Global};
use std::marker::PhantomData;
use std::thread::Threads;

// Adds the leaves of a tree, left to right, each by its records.
fn gather_leaves<'a>(tree: &'a Tree, list: &mut Vec<&'a [Record]>) -> Result<(), AllocError>
    ensures { OnOk result (map (λ (rs : Bor (List types.Record)). rs.now) list.new.items
        ≡ map (λ (rs : Bor (List types.Record)). rs.now) list.old.items ++ leaves_in tree.now) }
{
    match tree {
        Tree::Empty => {}
        Tree::Leaf(records) => list.push(records.as_slice())?,
        Tree::Inner(children) => {
            for child in children.as_slice() {
                gather_leaves(child, list)?;
            }
        }
    }
    Ok(())
}

// The number of leaves of a tree.
fn leaf_count(tree: &Tree) -> usize
    requires { length (leaves_in tree.now) < 2 ^ 64 }
    ensures { result ≡ length (leaves_in tree.now) }
{
    match tree {
        Tree::Empty => 0,
        Tree::Leaf(_) => 1,
        Tree::Inner(children) => {
            let mut sum = 0;
            for child in children.as_slice() {
                sum += leaf_count(child);
            }
            sum
        }
    }
}

// What is done to each leaf: it is hashed, and what is to be said of it is found.
#[derive(Drop)]
struct LeafHashing<'a, H: Hash32> {
    hash: PhantomData<H>,
    leaf: PhantomData<&'a [Record]>,
}

// The last 8 bytes of a digest as a big-endian number.
fn last_number(digest: &[u8; 32]) -> u64
    ensures { result ≡ from_be_bytes w64 (drop 24 digest.now) }
{
    let (_, last) = digest.split_at(24);
    u64_of_bytes(last)
}

impl<'a, H: Hash32> Work for LeafHashing<'a, H> {
    type Piece = &'a [Record];

    type Found = Entry;

    ghost may = { λ w rs. (length rs.now ≤ leaf_limit) × All (HasLayer Two) rs.now };

    ghost gives = { λ w rs. entry_of_leaf (by One H.of) rs.now };

    ghost number_of = { λ found. from_be_bytes w64 (drop 24 found.digest) };

    fn carry_out(&self, piece: &&'a [Record]) -> Result<Entry, AllocError> {
        Ok(leaf_entry::<H>(Version::One, piece))
    }

    fn number(found: &Entry) -> u64
        ensures { result ≡ from_be_bytes w64 (drop 24 found.now.digest) }
    {
        last_number(&found.digest)
    }
}

// The entries of some leaves.
fn hashed<H: Hash32, G: Gate, R: Threads + Sync>(
    rt: &R,
    alloc: Global,
    list: &[&[Record]],
    gate: &G,
) -> Result<Vec<Entry>, AllocError>
    requires { All (λ (rs : Bor (List types.Record)). (length rs.now ≤ leaf_limit)
        × All (HasLayer Two) rs.now) list.now }
    ensures { IfOk result (λ v. v.items
        ≡ map (λ (rs : Bor (List types.Record)). entry_of_leaf (by One H.of) rs.now) list.now) }
{
    let work = LeafHashing::<H> {
        hash: PhantomData,
        leaf: PhantomData,
    };
    in_halves(rt, alloc, &work, list, gate)
}

// What is said of a node, over the entries of its leaves.
fn entry_over<H: Hashes>(tree: &Tree, level: u8, entries: &[Entry]) -> Entry
    requires slim { IsSlim tree.now }
    requires alike { every-Tree HasOneLevel tree.now }
    requires level { level ≡ level_in tree.now }
    requires entries { entries.now ≡ leaf_entries (by One H.of) tree.now }
    ensures { result ≡ entry (by One H.of) tree.now }
{
    match tree {
        Tree::Empty => empty_entry::<H>(),
        Tree::Leaf(_) => entries[0],
        Tree::Inner(children) => {
            let mut all = NodeHasher::<H>::inner(level, children.as_slice().len() as u8);
            let mut rest = entries;
            for child in children.as_slice() {
                let (front, back) = rest.split_at(leaf_count(child));
                let one = entry_over::<H>(child, level - 1, front);
                all.add_entry(Version::One, &one);
                rest = back;
            }
            all.close(level)
        }
    }
}

// What is said of the leaves of a tree in version 1, left to right.
pub(crate) fn first_leaves<H: Hash32, G: Gate, R: Threads + Sync>(
    rt: &R,
    alloc: Global,
    tree: &Tree,
    gate: &G,
) -> Result<Vec<Entry>, AllocError>
    requires { WellFormed tree.now }
    ensures { IfOk result (λ v. v.items ≡ leaf_entries (by One H.of) tree.now) }
{
    let mut list = Vec::new(alloc);
    gather_leaves(tree, &mut list)?;
    hashed::<H, G, R>(rt, alloc, &list, gate)
}

// The root digest of the map with this tree at batch 0.
pub(crate) fn first_root<H: Hash32, G: Gate, R: Threads + Sync>(
    rt: &R,
    alloc: Global,
    tree: &Tree,
    gate: &G,
) -> Result<[u8; 32], AllocError>
    requires { WellFormed tree.now }
    ensures { IfOk result (λ digest. digest ≡ root (by One H.of) tree.now 0) }
{
    let entries = first_leaves::<H, G, R>(rt, alloc, tree, gate)?;
    let entry = entry_over::<H>(tree, level_of(tree), &entries);
    Ok(root_digest::<H>(Version::One, 0, count_of(tree), &entry))
}

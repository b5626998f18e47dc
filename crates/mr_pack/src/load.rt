//! A whole tree, from its leaves up to its root.

ghost use Rattle.std.specs.Prelude.{◌≡◌, ◌≢◌, ◌≤◌, ◌^◌, ◌<◌, length, map, IfOk, IfErr, OnOk, All, AllPairs};
ghost use Rattle.std.specs.List.Sorted.{IsPermutation};
ghost use Rattle.mr_record.specs.declared.record.Record as types;
ghost use Rattle.mr_record.specs.declared.version.Version.TheVariants.{One, Two};
ghost use Rattle.mr_record.specs.Record.{HasLayer};
ghost use Rattle.mr_tree.specs.Digest.{by, root as root_in};
ghost use Rattle.mr_tree.specs.Tree.{records};
ghost use Rattle.mr_tree.specs.WellFormed.{WellFormed};
ghost use Rattle.mr_pack.specs.HalfFull.{IsHalfFullBelow};
ghost use Rattle.mr_tree.specs.Leaves.{leaf_entries};
ghost use Rattle.mr_pack.specs.Pack.{root_above, pack};
ghost use Rattle.mr_pack.specs.Twice.{IsPackCause};
ghost use Rattle.mr_pack.specs.declared.load.PackErr.TheVariants as errors;
ghost use Rattle.mr_pack.specs.declared.node.Node.{Node as node};

use crate::joined::{first_leaves, first_root};
use crate::level::{above, leaves};
use crate::node::Node;
use crate::twice::least_twice;
use mr_outside::Gate;
use mr_record::{Record, are_records};
use mr_tree::{Entry, Hash32, Tree};
use std::alloc::{AllocError, Global};
use std::thread::Threads;

/// Why records were not packed.
#[derive(Clone, Copy, Debug, PartialEq, Eq)]
pub enum PackErr {
    /// Two records have one number; this is the least such number.
    NumberTwice { number: u64 },
    NoMemory,
}

impl From<AllocError> for PackErr {
    ghost use Rattle.mr_pack.specs.declared.load.PackErr.TheVariants.{NoMemory};

    ghost from_gives = { λ _ e. e ≡ NoMemory };

    fn from(_error: AllocError) -> PackErr {
        PackErr::NoMemory
    }
}

// The last node that is left, if there is one.
fn only_tree(mut level: Vec<Node>) -> Tree
    requires { length level.items ≤ 1 }
    ensures { result ≡ root_above (length level.items) (map (λ (n : node). n.tree) level.items) }
{
    match level.pop() {
        Some(node) => node.tree,
        None => Tree::Empty,
    }
}

// The root above some nodes.
fn root(alloc: Global, mut level: Vec<Node>) -> Result<Tree, AllocError>
    requires { length level.items ≤ 2 ^ 20 }
    ensures { IfOk result (λ t. t
        ≡ root_above (length level.items) (map (λ (n : node). n.tree) level.items)) }
{
    while level.len() > 1 {
        level = above(alloc, level)?;
    }
    Ok(only_tree(level))
}

// The tree of some records.
fn packed(alloc: Global, list: Vec<Record>) -> Result<Tree, AllocError>
    requires { length list.items ≤ 2 ^ 20 }
    ensures { IfOk result (λ t. t ≡ pack list.items) }
{
    let level = leaves(alloc, list)?;
    root(alloc, level)
}

// Refuses records of which two have one number.
fn check_numbers(alloc: Global, list: &[Record]) -> Result<(), PackErr>
    ensures apart { OnOk result
        (AllPairs (λ (a b : types.Record). a.number ≢ b.number) list.now) }
    ensures refused { IfErr result (λ e. IsPackCause e list.now) }
    ensures only_memory { AllPairs (λ (a b : types.Record). a.number ≢ b.number) list.now
        → IfErr result (λ e. e ≡ errors.NoMemory) }
{
    match least_twice(alloc, list)? {
        Some(number) => Err(PackErr::NumberTwice { number }),
        None => Ok(()),
    }
}

/// As `pack`, where it is known that the numbers differ; it does not look.
pub fn pack_distinct(alloc: Global, list: Vec<Record>) -> Result<Tree, AllocError>
    requires few { length list.items ≤ 2 ^ 20 }
    requires layers { All (HasLayer Two) list.items }
    requires apart { AllPairs (λ (a b : types.Record). a.number ≢ b.number) list.items }
    ensures exact { IfOk result (λ t. t ≡ pack list.items) }
    ensures well_formed { IfOk result WellFormed }
    ensures half_full { IfOk result IsHalfFullBelow }
    ensures same_records { IfOk result (λ t. IsPermutation list.items (records t)) }
{
    are_records(&list);
    packed(alloc, list)
}

/// As `pack_distinct`, and gives what is said of the tree's leaves in version 1, left to right.
/// They are hashed in joined halves, as in `pack_joined`; no node above them is.
pub fn pack_leaves_distinct<H: Hash32, G: Gate, R: Threads + Sync>(
    rt: &R,
    alloc: Global,
    list: Vec<Record>,
    gate: &G,
) -> Result<(Tree, Vec<Entry>), AllocError>
    requires few { length list.items ≤ 2 ^ 20 }
    requires layers { All (HasLayer Two) list.items }
    requires apart { AllPairs (λ (a b : types.Record). a.number ≢ b.number) list.items }
    ensures exact { IfOk result (λ p. p.0 ≡ pack list.items) }
    ensures leaves { IfOk result (λ p. p.1.items ≡ leaf_entries (by One H.of) (pack list.items)) }
    ensures well_formed { IfOk result (λ p. WellFormed p.0) }
    ensures half_full { IfOk result (λ p. IsHalfFullBelow p.0) }
    ensures same_records { IfOk result (λ p. IsPermutation list.items (records p.0)) }
{
    let tree = pack_distinct(alloc, list)?;
    let entries = first_leaves::<H, G, R>(rt, alloc, &tree, gate)?;
    Ok((tree, entries))
}

/// As `pack_joined`, where it is known that the numbers differ; it does not look.
pub fn pack_joined_distinct<H: Hash32, G: Gate, R: Threads + Sync>(
    rt: &R,
    alloc: Global,
    list: Vec<Record>,
    gate: &G,
) -> Result<(Tree, [u8; 32]), AllocError>
    requires few { length list.items ≤ 2 ^ 20 }
    requires layers { All (HasLayer Two) list.items }
    requires apart { AllPairs (λ (a b : types.Record). a.number ≢ b.number) list.items }
    ensures exact { IfOk result (λ p. p.0 ≡ pack list.items) }
    ensures root { IfOk result (λ p. p.1 ≡ root_in (by One H.of) (pack list.items) 0) }
    ensures well_formed { IfOk result (λ p. WellFormed p.0) }
    ensures half_full { IfOk result (λ p. IsHalfFullBelow p.0) }
    ensures same_records { IfOk result (λ p. IsPermutation list.items (records p.0)) }
{
    let tree = pack_distinct(alloc, list)?;
    let digest = first_root::<H, G, R>(rt, alloc, &tree, gate)?;
    Ok((tree, digest))
}

/// Packs at most 2^20 records into a tree with as few nodes on each level as there can be, where a
/// leaf holds up to 16 records and an inner node up to 64 nodes. The entries of a level are put
/// into vertical slices by the middles of their rectangles, and each slice is sorted from below to
/// above. The whole is cut into even groups (sort-tile-recursive packing, Leutenegger, Lopez and
/// Edgington 1997). Equal middles are decided by the number of a record, and among nodes by their
/// position.
pub fn pack(alloc: Global, list: Vec<Record>) -> Result<Tree, PackErr>
    requires few { length list.items ≤ 2 ^ 20 }
    requires layers { All (HasLayer Two) list.items }
    ensures exact { IfOk result (λ t. t ≡ pack list.items) }
    ensures apart { OnOk result
        (AllPairs (λ (a b : types.Record). a.number ≢ b.number) list.items) }
    ensures well_formed { IfOk result WellFormed }
    ensures half_full { IfOk result IsHalfFullBelow }
    ensures same_records { IfOk result (λ t. IsPermutation list.items (records t)) }
    ensures refused { IfErr result (λ e. IsPackCause e list.items) }
    ensures only_memory { AllPairs (λ (a b : types.Record). a.number ≢ b.number) list.items
        → IfErr result (λ e. e ≡ errors.NoMemory) }
{
    check_numbers(alloc, &list)?;
    Ok(pack_distinct(alloc, list)?)
}

/// Packs at most 2^20 records as `pack` does, and gives the root digest of the map beside the tree,
/// at batch 0. The leaves are hashed in joined halves (`mr_fork_join`). Piece `i` is the leaf at
/// place `i` from the left, counted from 0, and the gate is told the last 8 bytes of its digest as
/// a big-endian number. No answer depends on the gate.
pub fn pack_joined<H: Hash32, G: Gate, R: Threads + Sync>(
    rt: &R,
    alloc: Global,
    list: Vec<Record>,
    gate: &G,
) -> Result<(Tree, [u8; 32]), PackErr>
    requires few { length list.items ≤ 2 ^ 20 }
    requires layers { All (HasLayer Two) list.items }
    ensures exact { IfOk result (λ p. p.0 ≡ pack list.items) }
    ensures root { IfOk result (λ p. p.1 ≡ root_in (by One H.of) (pack list.items) 0) }
    ensures apart { OnOk result
        (AllPairs (λ (a b : types.Record). a.number ≢ b.number) list.items) }
    ensures well_formed { IfOk result (λ p. WellFormed p.0) }
    ensures half_full { IfOk result (λ p. IsHalfFullBelow p.0) }
    ensures same_records { IfOk result (λ p. IsPermutation list.items (records p.0)) }
    ensures refused { IfErr result (λ e. IsPackCause e list.items) }
    ensures only_memory { AllPairs (λ (a b : types.Record). a.number ≢ b.number) list.items
        → IfErr result (λ e. e ≡ errors.NoMemory) }
{
    check_numbers(alloc, &list)?;
    Ok(pack_joined_distinct::<H, G, R>(rt, alloc, list, gate)?)
}

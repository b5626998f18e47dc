//! Records as a map of a version.

ghost use Rattle.std.specs.Prelude.{◌≡◌, IfOk};
ghost use Rattle.mr_record.specs.RecordText.{IsRecordList};
ghost use Rattle.mr_tree.specs.Digest.{by, root as root_digest};
ghost use Rattle.mr_tree.specs.Leaves.{leaf_entries};
ghost use Rattle.mr_tree.specs.WellFormed.{WellFormed, HasLayers};
ghost use Rattle.mr_pages.specs.Leaves.{KnowsFirst};
ghost use Rattle.mr_pack.specs.Pack.{pack as tree_of};

use mr_outside::Gate;
use mr_pack::{pack_distinct, pack_joined_distinct, pack_leaves_distinct};
use mr_record::{Record, Version};
use mr_tree::{Entry, Hash32, Tree, root2_of};
use std::alloc::{AllocError, Global};
use std::thread::Threads;

// The tree of some records, and the root digest of its map at batch 0, in this version. In version
// 1 the leaves are hashed in joined halves, and the gate is passed; in version 2 all is done one
// after the other, and no gate is passed.
pub(crate) fn packed<H: Hash32, G: Gate, R: Threads + Sync>(
    rt: &R,
    alloc: Global,
    version: Version,
    records: Vec<Record>,
    gate: &G,
) -> Result<(Tree, [u8; 32]), AllocError>
    requires { IsRecordList version records.items }
    ensures exact { IfOk result (λ p. p.0 ≡ tree_of records.items) }
    ensures root { IfOk result
        (λ p. p.1 ≡ root_digest (by version H.of) (tree_of records.items) 0) }
    ensures well_formed { IfOk result (λ p. WellFormed p.0) }
    ensures layers { IfOk result (λ p. HasLayers version p.0) }
{
    match version {
        Version::One => pack_joined_distinct::<H, G, R>(rt, alloc, records, gate),
        Version::Two => {
            let tree = pack_distinct(alloc, records)?;
            let digest = root2_of::<H>(&tree, 0);
            Ok((tree, digest))
        }
    }
}

// The tree of some records in this version, and what is known of its leaves. In version 1 they are
// hashed in joined halves, and the gate is passed; in version 2 nothing is known of them, and no
// gate is passed.
pub(crate) fn packed_leaves<H: Hash32, G: Gate, R: Threads + Sync>(
    rt: &R,
    alloc: Global,
    version: Version,
    records: Vec<Record>,
    gate: &G,
) -> Result<(Tree, Vec<Entry>), AllocError>
    requires { IsRecordList version records.items }
    ensures exact { IfOk result (λ p. p.0 ≡ tree_of records.items) }
    ensures known { IfOk result
        (λ p. KnowsFirst (leaf_entries (by version H.of) p.0) p.1.items) }
    ensures well_formed { IfOk result (λ p. WellFormed p.0) }
    ensures layers { IfOk result (λ p. HasLayers version p.0) }
{
    match version {
        Version::One => pack_leaves_distinct::<H, G, R>(rt, alloc, records, gate),
        Version::Two => {
            let tree = pack_distinct(alloc, records)?;
            Ok((tree, Vec::new(alloc)))
        }
    }
}

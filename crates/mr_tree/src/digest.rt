//! What is said of trees: their entries, digests and roots.

ghost use Rattle.std.specs.Prelude.{◌≡◌, ◌≢◌, ◌≤◌, ◌^◌, ◌<◌, length, All};
ghost use Rattle.mr_record.specs.Record.{HasLayer};
ghost use Rattle.mr_record.specs.declared.version.Version.TheVariants.{One, Two};
ghost use Rattle.mr_tree.specs.declared.tree.Tree.TheVariants as variants;
ghost use Rattle.mr_tree.specs.declared.tree.Tree.TheOpen.{Leaf, Empty};
ghost use Rattle.mr_tree.specs.Limits.{leaf_limit};
ghost use Rattle.mr_tree.specs.Tree.{records};
ghost use Rattle.mr_tree.specs.WellFormed.{WellFormed, HasLayers};
ghost use Rattle.mr_tree.specs.Digest.{by, entry, entry_step, digest, preimage, root_preimage_of, root};
ghost use Rattle.mr_tree.specs.private.Slim.{IsSlim};

use crate::feeding::root_digest;
use crate::node_hasher::NodeHasher;
use crate::tree::height;
use crate::{Entry, Hash32, Hashes, Tree};
use mr_record::{Record, Version};

/// What is said of a leaf with these records.
pub fn leaf_entry<H: Hashes>(version: Version, records: &[Record]) -> Entry
    requires few { length records.now ≤ leaf_limit }
    requires layers { All (HasLayer Two) records.now }
    ensures { result ≡ entry_step (by version H.of) (Leaf records.now) }
{
    let mut all = NodeHasher::<H>::leaf(records.len() as u8);
    for one in records {
        all.add_record(version, one);
    }
    all.close(0)
}

/// What is said of the empty tree.
pub fn empty_entry<H: Hashes>() -> Entry
    ensures { result ≡ entry_step (by One H.of) Empty }
{
    let digest = H::start().finish();
    Entry {
        level: 0,
        rect: None,
        mask: 0,
        count: 0,
        digest,
    }
}

// What is said of a tree.
fn tree_entry<H: Hashes>(version: Version, tree: &Tree) -> Entry
    requires slim { IsSlim tree.now }
    requires layers { HasLayers Two tree.now }
    requires few { length (records tree.now) < 2 ^ 64 }
    ensures { result ≡ entry (by version H.of) tree.now }
{
    match tree {
        Tree::Empty => empty_entry::<H>(),
        Tree::Leaf(records) => leaf_entry::<H>(version, records.as_slice()),
        Tree::Inner(children) => {
            let level = height(tree);
            let mut all = NodeHasher::<H>::inner(level, children.as_slice().len() as u8);
            for child in children.as_slice() {
                let one = tree_entry::<H>(version, child);
                all.add_entry(version, &one);
            }
            all.close(level)
        }
    }
}

/// The number of records of a tree.
pub fn count(tree: &Tree) -> u64
    requires { length (records tree.now) < 2 ^ 64 }
    ensures { result ≡ length (records tree.now) }
{
    match tree {
        Tree::Empty => 0,
        Tree::Leaf(records) => records.as_slice().len() as u64,
        Tree::Inner(children) => {
            let mut sum = 0;
            for child in children.as_slice() {
                sum += count(child);
            }
            sum
        }
    }
}

/// `digest_of` and `digest2_of` by version.
pub fn digest_by<H: Hash32>(version: Version, tree: &Tree) -> [u8; 32]
    requires well_formed { WellFormed tree.now }
    requires filled { tree.now ≢ variants.Empty }
    ensures value { result ≡ digest (by version H.of) tree.now }
    ensures hash { result ≡ H.of (preimage (by version H.of) tree.now) }
{
    tree_entry::<H>(version, tree).digest
}

/// The digest of a tree that is not empty: that of its root node, over the rectangles and digests
/// of the nodes below, as in the Merkle R-tree of Yang, Papadopoulos, Papadias and Kollios (2009).
pub fn digest_of<H: Hash32>(tree: &Tree) -> [u8; 32]
    requires well_formed { WellFormed tree.now }
    requires layers { HasLayers One tree.now }
    requires filled { tree.now ≢ variants.Empty }
    ensures value { result ≡ digest (by One H.of) tree.now }
    ensures hash { result ≡ H.of (preimage (by One H.of) tree.now) }
{
    digest_by::<H>(Version::One, tree)
}

/// The same in version 2, in which the masks and counts of the nodes below go into the digest too.
pub fn digest2_of<H: Hash32>(tree: &Tree) -> [u8; 32]
    requires well_formed { WellFormed tree.now }
    requires filled { tree.now ≢ variants.Empty }
    ensures value { result ≡ digest (by Two H.of) tree.now }
    ensures hash { result ≡ H.of (preimage (by Two H.of) tree.now) }
{
    digest_by::<H>(Version::Two, tree)
}

/// `root_of` and `root2_of` by version.
pub fn root_by<H: Hash32>(version: Version, tree: &Tree, batch: u64) -> [u8; 32]
    requires { WellFormed tree.now }
    ensures value { result ≡ root (by version H.of) tree.now batch }
    ensures hash { result ≡ H.of (root_preimage_of (by version H.of) tree.now batch) }
{
    let entry = tree_entry::<H>(version, tree);
    root_digest::<H>(version, batch, count(tree), &entry)
}

/// The root digest of the map with this tree at this batch.
pub fn root_of<H: Hash32>(tree: &Tree, batch: u64) -> [u8; 32]
    requires well_formed { WellFormed tree.now }
    requires layers { HasLayers One tree.now }
    ensures value { result ≡ root (by One H.of) tree.now batch }
    ensures hash { result ≡ H.of (root_preimage_of (by One H.of) tree.now batch) }
{
    root_by::<H>(Version::One, tree, batch)
}

/// The same in version 2.
pub fn root2_of<H: Hash32>(tree: &Tree, batch: u64) -> [u8; 32]
    requires { WellFormed tree.now }
    ensures value { result ≡ root (by Two H.of) tree.now batch }
    ensures hash { result ≡ H.of (root_preimage_of (by Two H.of) tree.now batch) }
{
    root_by::<H>(Version::Two, tree, batch)
}

//! A node, gathered from its records or its entries as they come from left to right.

ghost use Rattle.std.specs.Prelude.{◌≡◌, ◌+◌, ◌^◌, ◌<◌, ◌≤◌, ◌++◌, ◌∷◌, [], ℕ, List, All, map};
ghost use Rattle.mr_record.specs.Record.{HasLayer};
ghost use Rattle.mr_record.specs.declared.version.Version.TheVariants.{Two};
ghost use Rattle.mr_record.specs.Version.{told};
ghost use Rattle.mr_tree.specs.Tree.{mask_of, layer_bit};
ghost use Rattle.mr_tree.specs.Digest.{leaf_tag, inner_tag};
ghost use Rattle.mr_tree.specs.HasHashed.{HasHashed, Piece, of_record, of_entry};

use crate::feeding::{feed_entry, feed_record, open_inner, open_leaf};
use crate::{Entry, Hashes};
use mr_geom::{Rect, joined};
use mr_record::{Record, Version};

/// An open hasher of a node's preimage, with the rectangle, the mask and the count of what it was
/// fed. The owner's digests and those of views and snapshots are made with it.
#[derive(Drop)]
pub struct NodeHasher<H: Hashes> {
    hasher: H,
    rect: Option<Rect>,
    mask: u64,
    count: u64,
}

// The bit of a layer, of which the first version tells nothing.
fn layer_bit(version: Version, one: &Record) -> u64
    requires { HasLayer Two one.now }
    ensures { result ≡ layer_bit version one.now }
{
    match version {
        Version::One => 0,
        Version::Two => 1 << one.layer,
    }
}

/// What a version tells of a number: the second one the number, the first one 0.
pub fn as_told(version: Version, number: u64) -> u64
    ensures { result ≡ told version number }
{
    match version {
        Version::One => 0,
        Version::Two => number,
    }
}

/// The mask of the layers of some records, as a version tells it.
pub fn layers_of(version: Version, records: &[Record]) -> u64
    requires { All (HasLayer Two) records.now }
    ensures { result ≡ mask_of (map (layer_bit version) records.now) }
{
    let mut all = 0;
    for one in records {
        all |= layer_bit(version, one);
    }
    all
}

impl<H: Hashes> NodeHasher<H> {
    /// A leaf that is to have so many records.
    pub fn leaf(count: u8) -> NodeHasher<H>
        ensures { HasHashed (H.holds result.hasher) result.rect result.mask result.count
            (leaf_tag ∷ count ∷ []) [] }
    {
        NodeHasher {
            hasher: open_leaf::<H>(count),
            rect: None,
            mask: 0,
            count: 0,
        }
    }

    /// An inner node of this level that is to have so many children.
    pub fn inner(level: u8, count: u8) -> NodeHasher<H>
        ensures { HasHashed (H.holds result.hasher) result.rect result.mask result.count
            (inner_tag ∷ level ∷ count ∷ []) [] }
    {
        NodeHasher {
            hasher: open_inner::<H>(level, count),
            rect: None,
            mask: 0,
            count: 0,
        }
    }

    /// One record more.
    pub fn add_record(&mut self, version: Version, one: &Record)
        requires layer { HasLayer Two one.now }
        requires few { self.old.count + 1 < 2 ^ 64 }
        ensures gathers { (head : List ℕ) (pieces : List Piece) →
            HasHashed (H.holds self.old.hasher) self.old.rect self.old.mask self.old.count head
            pieces
            → HasHashed (H.holds self.new.hasher) self.new.rect self.new.mask self.new.count head
            (pieces ++ of_record version one.now ∷ []) }
        ensures counted { self.new.count ≡ self.old.count + told version 1 }
    {
        feed_record(&mut self.hasher, version, one);
        self.rect = joined(self.rect, Some(one.rect));
        self.mask |= layer_bit(version, one);
        self.count += as_told(version, 1);
    }

    /// One entry more.
    pub fn add_entry(&mut self, version: Version, one: &Entry)
        requires few { self.old.count + one.now.count < 2 ^ 64 }
        ensures gathers { (head : List ℕ) (pieces : List Piece) →
            HasHashed (H.holds self.old.hasher) self.old.rect self.old.mask self.old.count head
            pieces
            → HasHashed (H.holds self.new.hasher) self.new.rect self.new.mask self.new.count head
            (pieces ++ of_entry version one.now ∷ []) }
        ensures counted { self.new.count ≡ self.old.count + one.now.count }
    {
        feed_entry(&mut self.hasher, version, one);
        self.rect = joined(self.rect, one.rect);
        self.mask |= one.mask;
        self.count += one.count;
    }

    /// What is to be said of the node, once all was added.
    pub fn close(self, level: u8) -> Entry
        ensures level { result.level ≡ level }
        ensures rect { result.rect ≡ self.rect }
        ensures mask { result.mask ≡ self.mask }
        ensures count { result.count ≡ self.count }
        ensures digest { (fed : List ℕ) → H.holds self.hasher fed → result.digest ≡ H.of fed }
    {
        let digest = self.hasher.finish();
        Entry {
            level,
            rect: self.rect,
            mask: self.mask,
            count: self.count,
            digest,
        }
    }
}

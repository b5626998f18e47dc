//! One node, kept inline.

ghost use Rattle.std.specs.Prelude.{◌≡◌, ℕ, ◌+◌, ◌<◌, ◌^◌, ◌≤◌, [], map, length, take, slice_get, Some, All, sum};
ghost use Rattle.mr_geom.specs.Rectangle.{union_of};
ghost use Rattle.mr_outside.specs.Bytes.{AreBytes};
ghost use Rattle.mr_record.specs.Record.{HasLayer};
ghost use Rattle.mr_record.specs.declared.version.Version.TheVariants.{Two};
ghost use Rattle.mr_tree.specs.Digest.{by};
ghost use Rattle.mr_tree.specs.Tree.{mask_of};
ghost use Rattle.mr_tree.specs.View.{records_in, children_in, HasCount, IsChild, IsView, size, level_of, entry_over, rect_of, mask_over, count_over};
ghost use Rattle.mr_tree.specs.declared.child.Child as types;
ghost use Rattle.mr_tree.specs.declared.tree.Tree.TheOpen.{Leaf, Inner};
ghost use Rattle.mr_tree.specs.Limits.{inner_limit, leaf_limit};

use crate::digest::leaf_entry;
use crate::node_hasher::{NodeHasher, as_told, layers_of};
use crate::tree::bounds_of;
use crate::{Child, Entry, Hashes};
use mr_geom::{Rect, joined};
use mr_record::{Record, Version, are_records};
use std::marker::Model;

/// One node: up to 16 records, or up to 64 children. Contracts see the node over its children.
#[derive(Drop)]
pub struct NodeView {
    level: u8,
    len: usize,
    records: [Record; 16],
    children: [Child; 64],
}

const _: () = prove!(size_of::<NodeView>() == 8336);

impl Model for NodeView {
    ghost use Rattle.mr_tree.specs.View.{Node, shown, IsKept};

    ghost Value = { Node };

    ghost view = { λ v. shown v.level v.len v.records v.children };

    ghost invariant = { λ v. IsKept v.level v.len v.records v.children };
}

fn fill_records(places: &mut [Record], list: &[Record])
    requires { length list.now ≤ length places.old }
    ensures { take (length list.now) places.new ≡ list.now }
{
    let (front, _) = places.split_at_mut(list.len());
    front.copy_from_slice(list);
}

fn fill_children(places: &mut [Child], list: &[Child])
    requires { length list.now ≤ length places.old }
    ensures { take (length list.now) places.new ≡ list.now }
{
    let (front, _) = places.split_at_mut(list.len());
    front.copy_from_slice(list);
}

fn record_at(list: &[Record], i: usize) -> &Record
    requires { i < length list.now }
    ensures { Some result.now ≡ slice_get list.now i }
{
    &list[i]
}

fn child_at(list: &[Child], i: usize) -> &Child
    requires { i < length list.now }
    ensures { Some result.now ≡ slice_get list.now i }
{
    &list[i]
}

// What is to be said of an inner node.
pub(crate) fn inner_entry<H: Hashes>(version: Version, level: u8, children: &[Child]) -> Entry
    requires level { level ≡ level_of (Inner children.now) }
    requires few { length children.now ≤ inner_limit }
    requires counts { All HasCount children.now }
    ensures { result ≡ entry_over (by version H.of) (Inner children.now) }
{
    let mut all = NodeHasher::<H>::inner(level, children.len() as u8);
    for child in children {
        all.add_entry(version, &child.entry());
    }
    all.close(level)
}

// The least rectangle round some children.
pub(crate) fn bounds_of_children(children: &[Child]) -> Option<Rect>
    ensures { result ≡ union_of (map (λ (c : types.Child). Some c.rect) children.now) }
{
    let mut all = None;
    for child in children {
        all = joined(all, Some(child.rect));
    }
    all
}

// All layers that the masks of some children tell of.
fn masks_of(children: &[Child]) -> u64
    ensures { result ≡ mask_of (map (λ (c : types.Child). c.mask) children.now) }
{
    let mut all = 0;
    for child in children {
        all |= child.mask;
    }
    all
}

// How many records some children tell of.
fn counts_of(children: &[Child]) -> u64
    requires few { length children.now ≤ inner_limit }
    requires counts { All HasCount children.now }
    ensures { result ≡ sum (map (λ (c : types.Child). c.count) children.now) }
{
    let mut all = 0;
    for child in children {
        all += child.count;
    }
    all
}

impl NodeView {
    /// A leaf without records.
    pub fn new() -> NodeView
        ensures { result ≡ Leaf [] }
    {
        NodeView {
            level: 0,
            len: 0,
            records: [Record::blank(); 16],
            children: [Child::blank(); 64],
        }
    }

    /// 0 for a leaf, 1 to 7 for an inner node.
    pub fn level(&self) -> u8
        ensures value { result ≡ level_of self.now }
        ensures low { result ≤ 7 }
    {
        self.level
    }

    /// How many records or children it has.
    pub fn len(&self) -> usize
        ensures value { result ≡ size self.now }
        ensures at_most { result ≤ inner_limit }
    {
        self.len
    }

    /// A record of a leaf.
    pub fn item(&self, i: usize) -> &Record
        requires { i < length (records_in self.now) }
        ensures { Some result.now ≡ slice_get (records_in self.now) i }
    {
        record_at(self.records(), i)
    }

    /// A child of an inner node.
    pub fn child(&self, i: usize) -> &Child
        requires { i < length (children_in self.now) }
        ensures { Some result.now ≡ slice_get (children_in self.now) i }
    {
        child_at(self.children(), i)
    }

    /// The records, none of an inner node.
    pub fn records(&self) -> &[Record]
        ensures value { result.now ≡ records_in self.now }
        ensures length_at_most { length (records_in self.now) ≤ leaf_limit }
        ensures layers { All (HasLayer Two) (records_in self.now) }
        ensures leaf { level_of self.now ≡ 0 → self.now ≡ Leaf (records_in self.now) }
    {
        if self.level == 0 {
            &self.records[..self.len]
        } else {
            &[]
        }
    }

    /// The children, none of a leaf.
    pub fn children(&self) -> &[Child]
        ensures value { result.now ≡ children_in self.now }
        ensures length_at_most { length (children_in self.now) ≤ inner_limit }
        ensures inner { 0 < level_of self.now → self.now ≡ Inner (children_in self.now) }
        ensures not_empty { 0 < level_of self.now → 1 ≤ length (children_in self.now) }
        ensures alike { All (λ (c : types.Child). c.level + 1 ≡ level_of self.now)
            (children_in self.now) }
    {
        if self.level == 0 {
            &[]
        } else {
            &self.children[..self.len]
        }
    }

    /// What is to be said of the node: level, rectangle, mask, count and digest.
    pub fn entry<H: Hashes>(&self, version: Version) -> Entry
        requires { All HasCount (children_in self.now) }
        ensures { result ≡ entry_over (by version H.of) self.now }
    {
        if self.level() == 0 {
            leaf_entry::<H>(version, self.records())
        } else {
            inner_entry::<H>(version, self.level(), self.children())
        }
    }

    /// The least rectangle round its records or children, none round a leaf without records.
    pub fn rect(&self) -> Option<Rect>
        ensures { result ≡ rect_of self.now }
    {
        if self.level() == 0 {
            bounds_of(self.records())
        } else {
            bounds_of_children(self.children())
        }
    }

    /// The mask of the layers below it, as a version tells it.
    pub fn mask(&self, version: Version) -> u64
        ensures { result ≡ mask_over version self.now }
    {
        if self.level() == 0 {
            layers_of(version, self.records())
        } else {
            masks_of(self.children())
        }
    }

    /// The number of the records below it, as a version tells it.
    pub fn count(&self, version: Version) -> u64
        requires { All HasCount (children_in self.now) }
        ensures { result ≡ count_over version self.now }
    {
        if self.level() == 0 {
            as_told(version, self.records().len() as u64)
        } else {
            counts_of(self.children())
        }
    }

    /// Makes it a leaf with 1 to 16 records.
    pub fn set_leaf(&mut self, list: &[Record])
        requires some { 1 ≤ length list.now }
        requires few { length list.now ≤ leaf_limit }
        requires layers { All (HasLayer Two) list.now }
        ensures { self.new ≡ Leaf list.now }
    {
        self.level = 0;
        self.len = list.len();
        fill_records(&mut self.records, list);
    }

    /// Makes it an inner node of level 1 to 7 with 1 to 64 children of the level below.
    pub fn set_inner(&mut self, level: u8, list: &[Child])
        requires level { (1 ≤ level) × (level ≤ 7) }
        requires some { 1 ≤ length list.now }
        requires few { length list.now ≤ inner_limit }
        requires below { All (λ (c : types.Child). c.level + 1 ≡ level) list.now }
        ensures { self.new ≡ Inner list.now }
    {
        self.level = level;
        self.len = list.len();
        fill_children(&mut self.children, list);
    }
}

// What the types of the fields tell of their values.
fn is_id(_id: u32)
    ensures { _id < 2 ^ 32 }
{}

fn is_word(_word: u64)
    ensures { _word < 2 ^ 64 }
{}

fn are_bytes(_bytes: &[u8])
    ensures { AreBytes _bytes.now }
{}

fn is_child(one: &Child)
    ensures { IsChild one.now }
{
    is_id(one.id);
    is_word(one.mask);
    is_word(one.count);
    let _corners = one.rect.corners();
    let _digest = one.digest;
    are_bytes(&one.digest);
}

fn are_children(list: &[Child])
    ensures { All IsChild list.now }
{
    for one in list {
        is_child(one);
    }
}

/// Does nothing: it is there for proofs, which learn what every view shows.
pub fn is_view(view: &NodeView)
    ensures { IsView view.now }
{
    let _level = view.level();
    are_records(view.records());
    are_children(view.children());
}

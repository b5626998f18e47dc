//! What a node says of its records or children.

ghost use Rattle.std.specs.Prelude.{◌≡◌, sum, min, ◌-◌, ◌^◌};
ghost use Rattle.mr_tree.specs.Tree.{union_of, mask_of};
ghost use Rattle.mr_tree.specs.declared.entry.Entry as types;
ghost use Rattle.mr_clash.specs.private.Steps.{rects_of, masks_of, counts_of, entry_with, inner_summary, HaveSum};

use mr_geom::{Rect, joined};
use mr_tree::Entry;

// The least rectangle round some records, the mask of their layers and their number, of which
// version 1 tells neither: what is said of a node but for its level and its digest.
#[derive(Clone, Copy)]
pub(crate) struct Summary {
    pub(crate) rect: Option<Rect>,
    pub(crate) mask: u64,
    pub(crate) count: u64,
}

// What is said of the node of this level with this digest.
pub(crate) fn entry_with(level: u8, all: Summary, digest: [u8; 32]) -> Entry
    ensures { result ≡ entry_with level all digest }
{
    Entry {
        level,
        rect: all.rect,
        mask: all.mask,
        count: all.count,
        digest,
    }
}

// The least rectangle round some nodes.
fn bounds(children: &[Entry]) -> Option<Rect>
    ensures { result ≡ union_of (rects_of children.now) }
{
    let mut all = None;
    for child in children {
        all = joined(all, child.rect);
    }
    all
}

// All layers of some nodes.
fn masks(children: &[Entry]) -> u64
    ensures { result ≡ mask_of (masks_of children.now) }
{
    let mut all = 0;
    for child in children {
        all |= child.mask;
    }
    all
}

// How many records some nodes have, or the highest number where that is more.
fn tally(children: &[Entry]) -> u64
    ensures { result ≡ min (sum (counts_of children.now)) (2 ^ 64 - 1) }
{
    let mut all: u64 = 0;
    for child in children {
        all = all.saturating_add(child.count);
    }
    all
}

// What an inner node says of its children.
pub(crate) fn inner_summary(children: &[Entry]) -> Summary
    ensures { HaveSum children.now → result ≡ inner_summary children.now }
{
    Summary {
        rect: bounds(children),
        mask: masks(children),
        count: tally(children),
    }
}

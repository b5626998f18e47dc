//! The digest of a node, from the page that spells it.

ghost use Rattle.std.specs.Prelude.{◌≡◌, ◌*◌, ◌≤◌, length, All};
ghost use Rattle.std.specs.List.{flat_map};
ghost use Rattle.mr_record.specs.Record.{record_bytes};
ghost use Rattle.mr_tree.specs.View.{HasCount, children_in, level_of, preimage_of};
ghost use Rattle.mr_pages.specs.PageBytes.{form_of};
ghost use Rattle.mr_pages.specs.Walking.{page_node};
ghost use Rattle.mr_tree.specs.Limits.{leaf_limit};

use crate::layout::Layout;
use mr_record::{Record, Version};
use mr_tree::{Hashes, NodeView};

// How many bytes a record takes.
fn width(version: Version, one: &Record) -> usize
    ensures value { result ≡ length (record_bytes version one.now) }
    ensures bound { result ≤ 226 }
{
    match version {
        Version::One => 25 + one.payload.bytes().len(),
        Version::Two => 26 + one.payload.bytes().len(),
    }
}

// How many bytes some records take.
fn width_of(version: Version, records: &[Record]) -> usize
    requires { length records.now ≤ leaf_limit }
    ensures value { result ≡ length (flat_map (record_bytes version) records.now) }
    ensures bound { result ≤ 3616 }
{
    let mut all = 0;
    for one in records {
        all += width(version, one);
    }
    all
}

// The digest of some bytes.
fn digest_of<H: Hashes>(bytes: &[u8]) -> [u8; 32]
    ensures { result ≡ H.of bytes.now }
{
    let mut hasher = H::start();
    hasher.update(bytes);
    hasher.finish()
}

// The bytes that the digest of a leaf is of: they stand at the front of its page.
fn leaf_front<'a>(layout: Layout, page: &'a [u8], view: &NodeView) -> &'a [u8]
    requires page { page.now ≡ (form_of layout).node_page (page_node view.now) }
    requires leaf { level_of view.now ≡ 0 }
    ensures { result.now ≡ preimage_of layout.version view.now }
{
    let (front, _) = page.split_at(2 + width_of(layout.version, view.records()));
    front
}

/// The digest of the node that a page of this layout spells. That of a leaf is of the page's front
/// as it stands.
pub fn digest_on<H: Hashes>(layout: Layout, page: &[u8], view: &NodeView) -> [u8; 32]
    requires page { page.now ≡ (form_of layout).node_page (page_node view.now) }
    requires counts { All HasCount (children_in view.now) }
    ensures { result ≡ H.of (preimage_of layout.version view.now) }
{
    if view.level() == 0 {
        digest_of::<H>(leaf_front(layout, page, view))
    } else {
        view.entry::<H>(layout.version).digest
    }
}

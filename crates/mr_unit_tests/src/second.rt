//! The calls of version 2 that no command makes: of one record on layer 5, its line, its bytes, the
//! digests of its map, and the pages of its map file. Digests are under the exclusive or of all
//! bytes.

ghost use Rattle.std.specs.Prelude.{◌≡◌, IfSome};
ghost use Rattle.mr_record.specs.Record.{HasLayer};
ghost use Rattle.mr_record.specs.declared.version.Version.TheVariants.{Two};
ghost use Rattle.mr_tree.specs.WellFormed.{WellFormed, HasLayers};

use crate::assertions::holds;
use crate::made::digest;
use mr_outside::MemSink;
use mr_pack::pack;
use mr_pages::{MapHead, SECOND_SIZE, read_head2, read_page2, write_head2_page, write_page2};
use mr_record::{
    Record, Version, read_line2, read_lines2, read_record2, write_line2, write_record2,
};
use mr_tree::{Child, NodeView, Nodes, Snapshot, Top, Tree, XorHash, digest2_of, root2_of};
use std::alloc::Global;

const LINE: &[u8] = b"7 0 0 0 0 5 -\n";

// The number, four sides, the layer, no payload.
const BYTES: &[u8] = b"\0\0\0\0\0\0\0\x07\0\0\0\0\0\0\0\0\0\0\0\0\0\0\0\0\x05\0";

// Page 0 up to the root's digest: batch 9, one record, two pages, and the mask of layer 5.
const HEAD: &[u8] = b"MRMP\x02\0\0\0\0\0\0\0\0\x09\0\0\0\0\0\0\0\x01\0\0\0\x02\0\0\0\x01\
    \0\0\0\0\0\0\0\0\0\0\0\0\0\0\0\0\0\0\0\0\0\0\0\x20";

// Whether line and bytes of a record are these.
fn is_written(alloc: Global, one: &Record) -> bool
    requires { HasLayer Two one.now }
{
    let mut line = MemSink::new(alloc, Vec::new(alloc));
    let mut bytes = MemSink::new(alloc, Vec::new(alloc));
    let are_taken = write_line2(&mut line, one).is_ok();
    are_taken
        && write_record2(&mut bytes, one).is_ok()
        && line.bytes() == LINE
        && bytes.bytes() == BYTES
}

// Whether a leaf of one record goes to a page and back.
fn is_paged(one: &Record) -> bool
    requires { HasLayer Two one.now }
{
    let (mut page, mut view) = ([7; SECOND_SIZE], NodeView::new());
    view.set_leaf(&[*one]);
    write_page2(&view, &mut page);
    let (front, behind) = page.split_at(28);
    read_page2(&page, 0, &mut view)
        && view.len() == 1
        && front.starts_with(b"L\x01")
        && front.ends_with(BYTES)
        && behind.iter().all(|byte| *byte == 0)
}

fn is_spelled(alloc: Global) -> bool {
    let Ok(one) = read_line2(b"7 0 0 0 0 5 -") else {
        return false;
    };
    match read_record2(BYTES) {
        Ok((same, 26)) => {
            same.layer == 5 && is_written(alloc, &one) && is_written(alloc, &same) && is_paged(&one)
        }
        _ => false,
    }
}

fn tree_of_one(alloc: Global) -> Option<Tree>
    ensures well_formed { IfSome result WellFormed }
    ensures layers { IfSome result (HasLayers Two) }
{
    let Ok(list) = read_lines2(alloc, LINE) else {
        return None;
    };
    if list.len() > 1 {
        return None;
    }
    match pack(alloc, list) {
        Ok(tree) => Some(tree),
        Err(_) => None,
    }
}

// Whether these are the digests of the leaf, and of its map at batch 0.
fn has_digests(tree: &Tree) -> bool
    requires { WellFormed tree.now }
{
    match tree {
        Tree::Empty => false,
        _ => {
            digest2_of::<XorHash>(tree) == digest(0x4f)
                && root2_of::<XorHash>(tree, 0) == digest(0x3e)
        }
    }
}

// Whether a root goes to page 0 and back.
fn is_headed(root: Child) -> bool {
    let head = MapHead {
        level: root.level,
        batch: 9,
        count: 1,
        pages: 2,
        root: Some(Child { id: 1, ..root }),
        free: 0,
    };
    let mut page = [7; SECOND_SIZE];
    write_head2_page(&head, &mut page);
    match read_head2(&page, 2) {
        Ok(
            MapHead {
                root: Some(found),
                ..
            },
        ) => page.starts_with(HEAD) && found.count == 1 && found.digest == digest(0x4f),
        _ => false,
    }
}

fn told<N: Nodes>(nodes: &mut N) -> Top {
    nodes.top()
}

// Whether the map in memory says of its root what page 0 is to say.
fn is_said(map: &Snapshot<XorHash>) -> bool {
    let Top {
        version,
        batch,
        root,
        ..
    } = told(&mut map.reader());
    match root {
        Some(root) => {
            version == Version::Two && batch == 9 && root.mask == 0x20 && is_headed(root)
        }
        None => false,
    }
}

fn is_kept(alloc: Global, tree: &Tree) -> bool
    requires well_formed { WellFormed tree.now }
    requires layers { HasLayers Two tree.now }
{
    match Snapshot::<XorHash>::of2(alloc, tree, 9) {
        Ok(map) => is_said(&map),
        Err(_) => false,
    }
}

fn is_mapped(alloc: Global) -> bool {
    match tree_of_one(alloc) {
        Some(tree) => has_digests(&tree) && is_kept(alloc, &tree),
        None => false,
    }
}

#[test]
fn a_record_with_a_layer(rt: HostRuntime) {
    holds(&rt, "its line and bytes", is_spelled(rt.alloc()));
    holds(&rt, "its map", is_mapped(rt.alloc()));
}

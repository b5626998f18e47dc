//! A map file that is read short: what lies behind the bytes that come counts as zeros.

ghost use Rattle.mr_tree.specs.WellFormed.{WellFormed};

use crate::assertions::all_hold_in_memory;
use crate::made::is_first;
use crate::untold::Untold;
use mr_pages::{open_plain, open_snapshot};
use mr_store::{Paged, directory};
use mr_tree::{Nodes, Snapshot, Tree, XorHash, root_digest, root_of};
use std::alloc::{AllocError, Global};

// Page 0 of the map of record 7 at (0,0), up to its seal, under the exclusive or of all bytes.
const HEAD: &[u8] = b"MRMP\x01\0\0\0\0\0\0\0\0\0\0\0\0\0\0\0\0\x01\0\0\0\x02\0\0\0\x01\
    \0\0\0\0\0\0\0\0\0\0\0\0\0\0\0\0\
    \0\0\0\0\0\0\0\0\0\0\0\0\0\0\0\0\0\0\0\0\0\0\0\0\0\0\0\0\0\0\0\x4a";

const LEAF: &[u8] = b"L\x01\0\0\0\0\0\0\0\x07\0\0\0\0\0\0\0\0\0\0\0\0\0\0\0\0\0";

// The map's first page, and so many bytes of the second.
fn front(alloc: Global, more: usize) -> Result<Vec<u8>, AllocError> {
    let mut bytes = HEAD.to_vec(alloc)?;
    for _ in HEAD.len()..4092 {
        bytes.push(0)?;
    }
    bytes.extend_from_slice(b"SEAL")?;
    for byte in LEAF.iter().take(more) {
        bytes.push(*byte)?;
    }
    Ok(bytes)
}

// How much of the second page is read, and the last byte of the root digest of the map, none where
// it is refused.
#[derive(Clone, Copy)]
struct Cut<'a> {
    name: &'a str,
    more: usize,
    root: Option<u8>,
}

const CUTS: &[Cut<'static>] = &[
    Cut {
        name: "the number of the record is read, its rectangle and all that follows is zero",
        more: 10,
        root: Some(0x18),
    },
    Cut {
        name: "the whole record is read",
        more: 27,
        root: Some(0x18),
    },
    Cut {
        name: "the leaf is not read",
        more: 0,
        root: None,
    },
];

// The last byte of the root digest of a map of version 1.
fn last_byte(alloc: Global, tree: &Tree, batch: u64) -> Option<u8>
    requires { WellFormed tree.now }
{
    if is_first(alloc, tree) {
        Some(root_of::<XorHash>(tree, batch)[31])
    } else {
        None
    }
}

fn opened(alloc: Global, bytes: Vec<u8>) -> Option<u8> {
    let mut shelf = Untold::new(8192, bytes);
    match open_plain::<XorHash, _>(alloc, &mut shelf, "map") {
        Ok(map) => last_byte(alloc, &map.tree, map.batch),
        Err(_) => None,
    }
}

// The last byte of the root digest of a map in memory.
fn last_byte_of(map: &Snapshot<XorHash>) -> u8 {
    let top = map.reader().top();
    let root = top.root_entry();
    root_digest::<XorHash>(top.version, top.batch, top.count, &root)[31]
}

// The same map, whose nodes are copied as they are judged.
fn copied(alloc: Global, bytes: Vec<u8>) -> Option<u8> {
    let mut shelf = Untold::new(8192, bytes);
    match open_snapshot::<XorHash, _>(alloc, &mut shelf, "map") {
        Ok(map) => Some(last_byte_of(&map)),
        Err(_) => None,
    }
}

// The same map, opened page by page and then fetched whole.
fn fetched(alloc: Global, bytes: Vec<u8>) -> Option<u8> {
    let shelf = Untold::new(8192, bytes);
    let mut map = match Paged::<Untold, XorHash>::open_map(alloc, shelf, "map") {
        Ok(map) => map,
        Err(_) => return None,
    };
    let whole = map.snapshot();
    let _shelf = map.close();
    match whole {
        Ok(nodes) => Some(last_byte_of(&nodes)),
        Err(_) => None,
    }
}

// How many records the directory of the same map has, none where it is refused.
fn listed(alloc: Global, bytes: Vec<u8>) -> Option<usize> {
    let shelf = Untold::new(8192, bytes);
    let mut map = match Paged::<Untold, XorHash>::open_map(alloc, shelf, "map") {
        Ok(map) => map,
        Err(_) => return None,
    };
    let all = directory(alloc, &mut map);
    let _shelf = map.close();
    match all {
        Ok(records) => Some(records.len()),
        Err(_) => None,
    }
}

// The first cut that some way to open it has otherwise.
fn first_opened_otherwise(
    alloc: Global,
    rows: &[Cut<'static>],
) -> Result<Option<&'static str>, AllocError> {
    for row in rows {
        if copied(alloc, front(alloc, row.more)?) != row.root {
            return Ok(Some(row.name));
        }
        if fetched(alloc, front(alloc, row.more)?) != row.root {
            return Ok(Some(row.name));
        }
        if listed(alloc, front(alloc, row.more)?) != row.root.map(|_| 1) {
            return Ok(Some(row.name));
        }
    }
    Ok(None)
}

fn first_other_cut(
    alloc: Global,
    rows: &[Cut<'static>],
) -> Result<Option<&'static str>, AllocError> {
    for row in rows {
        if opened(alloc, front(alloc, row.more)?) != row.root {
            return Ok(Some(row.name));
        }
    }
    Ok(None)
}

#[test]
fn what_is_read_short_counts_as_zeros(rt: HostRuntime) {
    all_hold_in_memory(&rt, first_other_cut(rt.alloc(), CUTS));
}

#[test]
fn each_way_to_open_a_map_has_the_same_of_it(rt: HostRuntime) {
    all_hold_in_memory(&rt, first_opened_otherwise(rt.alloc(), CUTS));
}

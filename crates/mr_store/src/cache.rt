//! The cache of node pages.

ghost use Rattle.std.specs.Prelude.{◌≡◌, ℕ, true, false, [], nat_eq, IfOk, OnOk, OnErr, Contains};
ghost use Rattle.std.specs.Map.{remove_entry};
ghost use Rattle.mr_store.specs.declared.cached_node.CachedNode.{CachedNode};
ghost use Rattle.mr_store.specs.Kept.{node_of, room, IsShown, FindsNode, Forgets, KeepsEntries, GainsNode, used, PutsNode};

use crate::cached_node::{CachedNode, show};
use crate::reading::are_same;
use lru::LruCache;
use mr_pages::Node;
use mr_tree::{Child, NodeView};
use std::alloc::{AllocError, Global};
use std::num::NonZeroUsize;

// The node pages that are kept.
pub(crate) const ROOM: usize = 256;

// A cache of node pages in which none is kept yet.
pub(crate) fn empty_cache(alloc: Global) -> Result<LruCache<u32, CachedNode>, AllocError>
    ensures entries { IfOk result (λ c. c.entries ≡ []) }
    ensures cap { IfOk result (λ c. c.cap ≡ room) }
{
    match NonZeroUsize::new(ROOM) {
        Some(room) => LruCache::new(alloc, room),
        None => Err(AllocError),
    }
}

// Shows the node of the child, if its page is kept with its level and its digest.
pub(crate) fn find(cache: &LruCache<u32, CachedNode>, child: &Child, into: &mut NodeView) -> bool
    requires { (e : ℕ × CachedNode) → Contains cache.now.entries e → IsShown e.1 }
    ensures { FindsNode cache.now.entries child.now result into.new }
{
    match cache.peek(&child.id) {
        None => false,
        Some(kept) => {
            if kept.level != child.level {
                return false;
            }
            if !are_same(&kept.digest, &child.digest) {
                return false;
            }
            show(kept, into);
            true
        }
    }
}

// What is kept of a page becomes the last that would be dropped.
pub(crate) fn touch(cache: &mut LruCache<u32, CachedNode>, page: u32)
    ensures stays { KeepsEntries cache.old.entries cache.new.entries }
    ensures uses { cache.new.entries ≡ used page cache.old.entries }
    ensures cap { cache.new.cap ≡ cache.old.cap }
{
    cache.promote(&page);
}

// Keeps the node of the child. Where the cache is full, what was not used for the longest time is
// dropped.
pub(crate) fn put(
    cache: &mut LruCache<u32, CachedNode>,
    child: &Child,
    node: Node,
) -> Result<(), AllocError>
    ensures gains { OnOk result
        (GainsNode cache.old.cap cache.old.entries cache.new.entries child.now (node_of node)) }
    ensures puts { OnOk result
        (PutsNode cache.old.cap cache.old.entries cache.new.entries child.now (node_of node)) }
    ensures same { OnErr result (cache.new ≡ cache.old) }
    ensures cap { cache.new.cap ≡ cache.old.cap }
{
    let kept = CachedNode {
        level: child.level,
        digest: child.digest,
        node,
    };
    cache.put(child.id, kept)?;
    Ok(())
}

// Keeps nothing of a page any more.
pub(crate) fn forget(cache: &mut LruCache<u32, CachedNode>, page: u32)
    ensures exact { cache.new.entries ≡ remove_entry (nat_eq page) cache.old.entries }
    ensures forgets { Forgets page cache.old.entries cache.new.entries }
    ensures cap { cache.new.cap ≡ cache.old.cap }
{
    let _len = cache.len();
    cache.pop(&page);
}

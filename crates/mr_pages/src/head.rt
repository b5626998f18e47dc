//! What page 0 says.

ghost use Rattle.std.specs.Prelude.{◌≡◌};
ghost use Rattle.mr_tree.specs.Digest.{root_preimage};
ghost use Rattle.mr_tree.specs.Nodes.{root_entry};

use mr_record::Version;
use mr_tree::{Child, Hashes, Top, root_digest};

/// What page 0 says.
#[derive(Clone, Copy)]
pub struct MapHead {
    /// The level of the root node, 0 where there is none.
    pub level: u8,
    pub batch: u64,
    /// The number of records.
    pub count: u64,
    /// The number of pages of the file.
    pub pages: u32,
    pub root: Option<Child>,
    /// The first free page, 0 for none.
    pub free: u32,
}

/// The root digest of the map of this version whose page 0 says this.
pub fn head_root<H: Hashes>(version: Version, head: &MapHead) -> [u8; 32]
    ensures { result ≡ H.of (root_preimage version head.now.batch head.now.count
        (root_entry head.now.root)) }
{
    let top = Top {
        version,
        batch: head.batch,
        count: head.count,
        root: head.root,
    };
    root_digest::<H>(version, top.batch, top.count, &top.root_entry())
}

//! The Merkle R-tree: hashes, trees, their digests and roots.
#![tactic(auto)]

mod child;
mod digest;
mod entry;
mod feeding;
mod hash;
mod limits;
mod node_hasher;
mod nodes;
mod placing;
mod records;
mod snapshot;
mod stored;
mod tree;
mod view;

pub use child::Child;
pub use digest::{
    count as count_of, digest_by, digest_of, digest2_of, empty_entry, leaf_entry, root_by, root_of,
    root2_of,
};
pub use entry::{ENTRY_LIMIT, Entry};
pub use feeding::{ROOT_LIMIT, root_digest, root_encoded};
pub use hash::{Hash32, Hashes, Sha, XorHash};
pub use limits::{
    COUNT_LIMIT, INNER_FILL, INNER_LIMIT, LEAF_FILL, LEAF_LIMIT, LEVEL_LIMIT, ROOT_FILL,
};
pub use node_hasher::{NodeHasher, as_told, layers_of};
pub use nodes::{Nodes, NodesErr, Top};
pub use records::records_of;
pub use snapshot::{Reader, Snapshot};
pub use stored::Stored;
pub use tree::{Tree, bounds, bounds_of, level_of, rect_of};
pub use view::{NodeView, is_view};

//! What is shown of a pruned part.

ghost use Rattle.std.specs.Prelude.{◌≡◌};
ghost use Rattle.mr_proof.specs.Cut.{entry_shown};

use mr_geom::Rect;
use mr_tree::Entry;

/// What a proof shows of a part of the map that it prunes: what its parent's entry shows of it.
#[derive(Clone, Copy, Debug, PartialEq, Eq)]
pub struct PrunedEntry {
    /// The least rectangle round the records of the part.
    pub rect: Rect,
    /// The mask of their layers, 0 in version 1.
    pub mask: u64,
    /// How many they are, 0 in version 1.
    pub count: u64,
    pub digest: [u8; 32],
}

impl PrunedEntry {
    /// What is said of the part, which is of this level.
    pub fn entry(&self, level: u8) -> Entry
        ensures { result ≡ entry_shown level self.now }
    {
        Entry {
            level,
            rect: Some(self.rect),
            mask: self.mask,
            count: self.count,
            digest: self.digest,
        }
    }
}

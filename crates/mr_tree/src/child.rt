//! What an inner node holds of a child.

ghost use Rattle.std.specs.Prelude.{◌≡◌};
ghost use Rattle.mr_tree.specs.View.{child_entry};

use crate::Entry;
use mr_geom::Rect;
use mr_record::Record;

/// What an inner node holds of a child: where it is found (a page, or a place in a list), its
/// level, the least rectangle round its records, in map units, and its digest. Besides, the mask of
/// their layers and their number, both 0 in version 1.
#[derive(Clone, Copy, Debug)]
pub struct Child {
    pub id: u32,
    pub level: u8,
    pub rect: Rect,
    pub mask: u64,
    pub count: u64,
    pub digest: [u8; 32],
}

const _: () = prove!(size_of::<Child>() == 72);

impl Child {
    /// A leaf at the point (0, 0): it fills a place until another child is put there.
    pub fn blank() -> Child {
        Child {
            id: 0,
            level: 0,
            rect: Record::blank().rect,
            mask: 0,
            count: 0,
            digest: [0; 32],
        }
    }

    /// What is said of the child.
    pub fn entry(&self) -> Entry
        ensures { result ≡ child_entry self.now }
    {
        Entry {
            level: self.level,
            rect: Some(self.rect),
            mask: self.mask,
            count: self.count,
            digest: self.digest,
        }
    }
}

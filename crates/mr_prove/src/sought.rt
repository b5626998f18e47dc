//! What is searched for.

ghost use Rattle.std.specs.Prelude.{◌≡◌};
ghost use Rattle.mr_record.specs.Record.{HasLayer};
ghost use Rattle.mr_record.specs.declared.version.Version.TheVariants.{Two};
ghost use Rattle.mr_query.specs.Layers.{is_on};
ghost use Rattle.mr_prove.specs.private.Parts.{child_key};
ghost use Rattle.mr_prove.specs.private.Search.{aim, has_layer};

use mr_geom::Point;
use mr_proof::{Around, mask_seen};
use mr_query::{Key, share_layer};
use mr_record::{Record, Version};
use mr_tree::Child;

// What is seen of the node of which the child is the entry, in a map of this version.
pub(crate) fn key_of(version: Version, child: &Child) -> Key
    ensures { result ≡ child_key version child.now }
{
    Key {
        rect: child.rect,
        mask: mask_seen(version, child.mask),
    }
}

// What a search is for: the kth least of the squared distances to a point of the records on some
// layers, in a map of this version.
#[derive(Clone, Copy)]
pub(crate) struct Sought {
    pub(crate) center: Point,
    pub(crate) k: usize,
    pub(crate) layers: u64,
    pub(crate) version: Version,
}

impl Sought {
    pub(crate) fn of(around: &Around, version: Version) -> Sought
        ensures aim { aim result ≡ around.now }
        ensures version { result.version ≡ version }
    {
        Sought {
            center: around.center,
            k: usize::from(around.k),
            layers: around.layers,
            version,
        }
    }

    // Whether the record is on one of the layers.
    pub(crate) fn is_on(&self, one: &Record) -> bool
        requires { HasLayer Two one.now }
        ensures { result ≡ is_on self.now.layers one.now }
    {
        share_layer(Key::of_record(one).mask, self.layers)
    }

    // Whether the child's node may have records on one of the layers.
    pub(crate) fn has_layer(&self, child: &Child) -> bool
        ensures { result ≡ has_layer (aim self.now) self.now.version child.now }
    {
        share_layer(key_of(self.version, child).mask, self.layers)
    }
}

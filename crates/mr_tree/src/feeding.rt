//! What is hashed of nodes, piece by piece, and of maps.

ghost use Rattle.std.specs.Prelude.{◌≡◌, ◌++◌, ◌∷◌, [], ℕ, List, length};
ghost use Rattle.std.specs.Int.{w64, to_be_bytes};
ghost use Rattle.mr_record.specs.Record.{HasLayer, record_bytes};
ghost use Rattle.mr_record.specs.declared.version.Version.TheVariants.{Two};
ghost use Rattle.mr_record.specs.Version.{version_byte};
ghost use Rattle.mr_tree.specs.Digest.{leaf_tag, inner_tag, root_tag, root_preimage, root_entry_bytes, entry_bytes};

use crate::{ENTRY_LIMIT, Entry, Hashes};
use mr_outside::Buffer;
use mr_record::{Record, Version, encoded};

/// The most bytes that a root digest is of: a tag, a version, a batch, a count, a level and an
/// entry.
pub const ROOT_LIMIT: usize = 19 + ENTRY_LIMIT;

// Feeds the bytes of a record.
pub(crate) fn feed_record<H: Hashes>(hasher: &mut H, version: Version, one: &Record)
    requires { HasLayer Two one.now }
    ensures { (fed : List ℕ) → H.holds hasher.old fed
        → H.holds hasher.new (fed ++ record_bytes version one.now) }
{
    let bytes = encoded(version, one);
    hasher.update(bytes.as_slice());
}

// Feeds an entry, which is what an inner node holds of a child.
pub(crate) fn feed_entry<H: Hashes>(hasher: &mut H, version: Version, entry: &Entry)
    ensures { (fed : List ℕ) → H.holds hasher.old fed
        → H.holds hasher.new (fed ++ entry_bytes version entry.now) }
{
    let bytes = entry.encoded(version);
    hasher.update(bytes.as_slice());
}

// A hasher for a leaf with `count` records, which are to be fed in their order.
pub(crate) fn open_leaf<H: Hashes>(count: u8) -> H
    ensures { H.holds result (leaf_tag ∷ count ∷ []) }
{
    let mut hasher = H::start();
    hasher.update(&[b'L', count]);
    hasher
}

// A hasher for an inner node of this level with `count` entries, which are to be fed from left to
// right.
pub(crate) fn open_inner<H: Hashes>(level: u8, count: u8) -> H
    ensures { H.holds result (inner_tag ∷ level ∷ count ∷ []) }
{
    let mut hasher = H::start();
    hasher.update(&[b'N', level, count]);
    hasher
}

// The front of the bytes that a root digest is of, with this tag.
fn root_front(tag: u8, version: Version, batch: u64) -> Buffer<ROOT_LIMIT>
    ensures bytes { result ≡ tag ∷ version_byte version ∷ to_be_bytes w64 batch }
    ensures size { length result ≡ 10 }
{
    let mut bytes = Buffer::new();
    bytes.put(&[tag, version.byte()]);
    bytes.put(&batch.to_be_bytes());
    bytes
}

// Those of a map with records.
fn filled_root(version: Version, batch: u64, count: u64, root: &Entry) -> Buffer<ROOT_LIMIT>
    ensures { result ≡ root_tag ∷ version_byte version
        ∷ (to_be_bytes w64 batch ++ to_be_bytes w64 count
        ++ root.now.level ∷ root_entry_bytes version root.now) }
{
    let mut bytes = root_front(b'R', version, batch);
    bytes.put(&count.to_be_bytes());
    bytes.put(&[root.level]);
    let entry = root.encoded_as_root(version);
    bytes.put(entry.as_slice());
    bytes
}

/// The bytes that the root digest of a map is of, in this version, from its batch, the count of its
/// records and the entry of its root node. Where there are no records that entry does not matter.
pub fn root_encoded(version: Version, batch: u64, count: u64, root: &Entry) -> Buffer<ROOT_LIMIT>
    ensures { result ≡ root_preimage version batch count root.now }
{
    if count == 0 {
        root_front(b'E', version, batch)
    } else {
        filled_root(version, batch, count, root)
    }
}

// The digest of some bytes.
fn hash<H: Hashes>(bytes: &[u8]) -> [u8; 32]
    ensures { result ≡ H.of bytes.now }
{
    let mut hasher = H::start();
    hasher.update(bytes);
    hasher.finish()
}

/// The root digest of a map, from what its bytes are spelled of.
pub fn root_digest<H: Hashes>(version: Version, batch: u64, count: u64, root: &Entry) -> [u8; 32]
    ensures { result ≡ H.of (root_preimage version batch count root.now) }
{
    let bytes = root_encoded(version, batch, count, root);
    hash::<H>(bytes.as_slice())
}

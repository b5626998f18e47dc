//! What is said of a node.

ghost use Rattle.std.specs.Prelude.{◌≡◌, ◌+◌, ◌≤◌, ◌++◌, length};
ghost use Rattle.mr_tree.specs.Digest.{entry_bytes, root_entry_bytes, word_bytes, no_entry, rect_bytes as bytes_of_rect};

use mr_geom::Rect;
use mr_outside::Buffer;
use mr_record::{Version, rect_bytes};

/// The most bytes of an entry: those of a rectangle, a mask, a count and a digest.
pub const ENTRY_LIMIT: usize = 64;

/// What is said of a node: by its parent, or by the map of its root.
#[derive(Clone, Copy, Debug)]
pub struct Entry {
    /// 0 for a leaf, 1 to 7 for an inner node.
    pub level: u8,
    /// The least rectangle round its records, in map units, which only the empty tree has not.
    pub rect: Option<Rect>,
    /// The bit of each layer of its records: bit l, worth 2^l, stands for layer l. 0 in version 1.
    pub mask: u64,
    /// The number of its records, 0 in version 1.
    pub count: u64,
    pub digest: [u8; 32],
}

// Puts the bytes of a rectangle that is there.
fn put_rect(bytes: &mut Buffer<ENTRY_LIMIT>, rect: Option<Rect>)
    requires { length bytes.old + 16 ≤ 64 }
    ensures bytes { bytes.new ≡ bytes.old ++ bytes_of_rect rect }
    ensures room { length bytes.new ≤ length bytes.old + 16 }
{
    if let Some(rect) = rect {
        bytes.put(&rect_bytes(&rect));
    }
}

// Puts a word; in version 1 nothing.
fn put_word(bytes: &mut Buffer<ENTRY_LIMIT>, version: Version, word: u64)
    requires { length bytes.old + 8 ≤ 64 }
    ensures bytes { bytes.new ≡ bytes.old ++ word_bytes version word }
    ensures room { length bytes.new ≤ length bytes.old + 8 }
{
    match version {
        Version::One => {}
        Version::Two => bytes.put(&word.to_be_bytes()),
    }
}

impl Entry {
    /// What is said of no node: it does not matter, since nobody reads it.
    pub fn none() -> Entry
        ensures { result ≡ no_entry }
    {
        Entry {
            level: 0,
            rect: None,
            mask: 0,
            count: 0,
            digest: [0; 32],
        }
    }

    /// Its bytes in the preimage of the node above it, in proofs and, behind the page, on pages:
    /// the rectangle, in version 2 the mask and the count, and the digest.
    pub fn encoded(&self, version: Version) -> Buffer<ENTRY_LIMIT>
        ensures bytes { result ≡ entry_bytes version self.now }
    {
        let mut bytes = Buffer::new();
        put_rect(&mut bytes, self.rect);
        put_word(&mut bytes, version, self.mask);
        put_word(&mut bytes, version, self.count);
        bytes.put(&self.digest);
        bytes
    }

    /// Its bytes in a root preimage, behind the level, and on page 0: those in a node's but for the
    /// count, which stands in front of the level there.
    pub fn encoded_as_root(&self, version: Version) -> Buffer<ENTRY_LIMIT>
        ensures bytes { result ≡ root_entry_bytes version self.now }
    {
        let mut bytes = Buffer::new();
        put_rect(&mut bytes, self.rect);
        put_word(&mut bytes, version, self.mask);
        bytes.put(&self.digest);
        bytes
    }
}

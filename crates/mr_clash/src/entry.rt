//! What is said of nodes, by their strings.

ghost use Rattle.std.specs.Prelude.{◌≡◌, ◌<◌, ◌^◌, ◌++◌, ℕ, List, length};
ghost use Rattle.mr_tree.specs.Digest.{entry_bytes};
ghost use Rattle.mr_clash.specs.private.Steps.{string_over, entry_with, inner_summary, HaveSum};

use crate::summary::{entry_with, inner_summary};
use mr_record::Version;
use mr_tree::{Entry, Hashes};

// The digest of a string.
pub(crate) fn digest_of<H: Hashes>(string: &[u8]) -> [u8; 32]
    ensures { result ≡ H.of string.now }
{
    let mut hasher = H::start();
    hasher.update(string);
    hasher.finish()
}

// Feeds what is said of a child.
fn feed_entry<H: Hashes>(hasher: &mut H, version: Version, child: &Entry)
    ensures { (fed : List ℕ) → H.holds hasher.old fed
        → H.holds hasher.new (fed ++ entry_bytes version child.now) }
{
    let bytes = child.encoded(version);
    hasher.update(bytes.as_slice());
}

// The digest of the inner node of this level with these children. No string is made of it: the
// hasher is fed with one child after the other.
fn inner_digest<H: Hashes>(version: Version, level: u8, children: &[Entry]) -> [u8; 32]
    requires { length children.now < 2 ^ 8 }
    ensures { result ≡ H.of (string_over version level children.now) }
{
    let mut hasher = H::start();
    hasher.update(&[b'N', level, children.len() as u8]);
    for child in children {
        feed_entry(&mut hasher, version, child);
    }
    hasher.finish()
}

// What is said of the inner node of this level with these children.
pub(crate) fn inner_entry<H: Hashes>(version: Version, level: u8, children: &[Entry]) -> Entry
    requires { length children.now < 2 ^ 8 }
    ensures { HaveSum children.now → result ≡ entry_with level (inner_summary children.now)
        (H.of (string_over version level children.now)) }
{
    let digest = inner_digest::<H>(version, level, children);
    entry_with(level, inner_summary(children), digest)
}

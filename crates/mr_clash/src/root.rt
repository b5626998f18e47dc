//! What a head says, and the string that a root digest is of.

ghost use Rattle.std.specs.Prelude.{◌≡◌, ◌∷◌, ◌++◌, ℕ, List, Option, IfOk};
ghost use Rattle.std.specs.Int.{w64, to_be_bytes};
ghost use Rattle.mr_record.specs.Version.{version_byte};
ghost use Rattle.mr_record.specs.declared.version.Version as versions;
ghost use Rattle.mr_tree.specs.Digest.{root_preimage};
ghost use Rattle.mr_proof.specs.Spelling.{head_bytes, radius_bytes, level_bytes, FitsProofHead};
ghost use Rattle.mr_proof.specs.declared.head.Head as heads;
ghost use Rattle.mr_clash.specs.private.Steps.{left, SaysOf};

use crate::rest::{Rest, byte, number, take};
use mr_proof::Kind;
use mr_record::Version;
use mr_tree::{Entry, root_encoded};
use std::alloc::{AllocError, Global};

// What the head of a proof says of its map.
#[derive(Clone, Copy)]
pub(crate) struct HeadSays {
    pub(crate) version: Version,
    pub(crate) batch: u64,
    pub(crate) count: u64,
    pub(crate) level: u8,
}

// Takes the byte of a version; the first one where it is none.
fn read_version(from: &mut Rest<'_>) -> Version
    ensures { (v : versions.Version) (rest : List ℕ) → left from.old ≡ version_byte v ∷ rest
        → (result ≡ v) × (left from.new ≡ rest) }
{
    if byte(from) == 2 {
        Version::Two
    } else {
        Version::One
    }
}

// Passes over the flag and the squared radius of a proof of this kind.
fn pass_radius(kind: Kind, from: &mut Rest<'_>)
    ensures { (r : Option ℕ) (rest : List ℕ) → left from.old ≡ radius_bytes kind r ++ rest
        → left from.new ≡ rest }
{
    match kind {
        Kind::W | Kind::Choice(_) => {}
        Kind::K => {
            if byte(from) == 1 {
                let _radius = take(from, 16);
            }
        }
    }
}

// The level that a head with this count says.
fn read_level(count: u64, from: &mut Rest<'_>) -> u8
    ensures { (l : ℕ) (rest : List ℕ) → (count ≡ 0 → l ≡ 0)
        → left from.old ≡ level_bytes count l ++ rest → (result ≡ l) × (left from.new ≡ rest) }
{
    if count == 0 {
        return 0;
    }
    byte(from)
}

// The head of a proof of this kind that stands next.
pub(crate) fn read_head(kind: Kind, from: &mut Rest<'_>) -> HeadSays
    ensures { (h : heads.Head) (rest : List ℕ) → h.kind ≡ kind → FitsProofHead h
        → left from.old ≡ head_bytes h ++ rest → SaysOf h rest result (left from.new) }
{
    let _magic = take(from, 4);
    let version = read_version(from);
    let _kind = byte(from);
    let batch = number(from);
    let count = number(from);
    pass_radius(kind, from);
    let level = read_level(count, from);
    HeadSays {
        version,
        batch,
        count,
        level,
    }
}

// The string that the root digest of a map is of, by what is said of its root node, which does
// not matter where there are no records.
pub(crate) fn root_string(
    alloc: Global,
    version: Version,
    batch: u64,
    count: u64,
    root: &Entry,
) -> Result<Vec<u8>, AllocError>
    ensures { IfOk result (λ v. v.items ≡ root_preimage version batch count root.now) }
{
    let bytes = root_encoded(version, batch, count, root);
    Vec::from_slice(alloc, bytes.as_slice())
}

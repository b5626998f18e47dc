//! A pruned part of which all bytes are there.

ghost use Rattle.std.specs.Prelude.{◌≡◌, ◌≤◌, length, IfSome};
ghost use Rattle.mr_proof.specs.Limits.{count_limit};
ghost use Rattle.mr_check.specs.private.Reads.{digest_place, part_size, TellsPart, BeginsWithPart};

use mr_proof::PrunedEntry;
use mr_record::{Version, rect_of_bytes, u64_of_bytes};
use mr_tree::COUNT_LIMIT;

// Where the digest of a pruned part stands in it.
pub(crate) fn digest_place(version: Version) -> usize
    ensures value { result ≡ digest_place version }
    ensures bound { result ≤ 33 }
{
    match version {
        Version::One => 17,
        Version::Two => 33,
    }
}

// How many bytes a pruned part has.
pub(crate) fn part_size(version: Version) -> usize
    ensures value { result ≡ part_size version }
    ensures bound { result ≤ 65 }
{
    digest_place(version) + 32
}

// The mask and the count of a pruned part, if it may have that count.
#[tactic(auto, unfolding(mr_proof::specs::Fields::field_of))]
fn mask_and_count(version: Version, bytes: &[u8]) -> Option<(u64, u64)>
    requires { part_size version ≤ length bytes.now }
    ensures tells { IfSome result (λ p. TellsPart version bytes.now p.0 p.1) }
    ensures few { IfSome result (λ p. p.1 ≤ count_limit) }
{
    match version {
        Version::One => Some((0, 0)),
        Version::Two => {
            let count = u64_of_bytes(&bytes[25..33]);
            if 1 <= count && count <= COUNT_LIMIT {
                Some((u64_of_bytes(&bytes[17..25]), count))
            } else {
                None
            }
        }
    }
}

// The digest of 32 bytes.
fn digest_in(bytes: &[u8]) -> [u8; 32]
    requires { length bytes.now ≡ 32 }
    ensures { result ≡ bytes.now }
{
    let mut digest = [0; 32];
    digest.copy_from_slice(bytes);
    digest
}

// The pruned part with whose bytes these begin, if there is one and no field of it breaks its rule.
#[tactic(auto, unfolding(mr_proof::specs::Fields::field_of))]
pub(crate) fn part_in(version: Version, bytes: &[u8]) -> Option<PrunedEntry>
    ensures { IfSome result (BeginsWithPart version bytes.now) }
{
    let size = part_size(version);
    if bytes.len() < size || bytes[0] != b'P' {
        return None;
    }
    let rect = rect_of_bytes(&bytes[1..17])?;
    let (mask, count) = mask_and_count(version, bytes)?;
    let digest = digest_in(&bytes[digest_place(version)..size]);
    Some(PrunedEntry {
        rect,
        mask,
        count,
        digest,
    })
}

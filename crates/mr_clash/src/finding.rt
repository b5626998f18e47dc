//! What an audit finds.

ghost use Rattle.std.specs.Prelude.{◌≡◌, IfOk, option_map, Some, bytes_eq};
ghost use Rattle.mr_proof.specs.Clash.{differ, or_else};
ghost use Rattle.mr_clash.specs.private.Steps.{pair_of};

use mr_outside::Items;
use mr_proof::Fault;
use mr_record::Record;
use std::alloc::{AllocError, Global};

/// What the audit of a proof finds.
#[derive(Drop)]
pub enum Finding {
    /// The proof is refused, as `check` refuses it.
    Refused(Fault),
    /// It is the proof that an honest server gives, and this is the answer.
    Sound(Items<Record>),
    /// Two byte strings that differ and have one hash: the owner's, and the one that the proof
    /// shows in its place.
    Collision(Items<u8>, Items<u8>),
}

// Two byte strings that differ and stand at one place: the owner's, and the one that a proof shows.
#[derive(Drop)]
pub(crate) struct Clash {
    pub(crate) owned: Vec<u8>,
    pub(crate) shown: Vec<u8>,
}

pub(crate) fn are_same(one: &[u8], other: &[u8]) -> bool
    ensures { result ≡ bytes_eq one.now other.now }
{
    one == other
}

// The two strings at one place, where they differ.
pub(crate) fn clash_of(
    alloc: Global,
    owned: Vec<u8>,
    shown: &[u8],
) -> Result<Option<Clash>, AllocError>
    ensures { IfOk result (λ o. option_map pair_of o ≡ differ owned.items (Some shown.now)) }
{
    if are_same(&owned, shown) {
        return Ok(None);
    }
    let shown = Vec::from_slice(alloc, shown)?;
    Ok(Some(Clash { owned, shown }))
}

// The first, where there is one, and else the second.
pub(crate) fn first_of(first: Option<Clash>, second: Option<Clash>) -> Option<Clash>
    ensures { option_map pair_of result
        ≡ or_else (option_map pair_of first) (option_map pair_of second) }
{
    match first {
        Some(clash) => Some(clash),
        None => second,
    }
}

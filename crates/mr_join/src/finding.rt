//! What the audit of a join's proof finds.

ghost use Rattle.std.specs.Prelude.{◌≡◌};
ghost use Rattle.mr_join.specs.private.Worths.{behind, worth_of as part_worth};

use crate::{JoinFault, Pairs};
use mr_count::ChoiceFinding;
use mr_outside::Items;
use mr_proof::Fault;

/// What the audit of a join's proof finds.
#[derive(Drop)]
pub enum JoinFinding {
    /// The proof is refused, as `check_join` refuses it.
    Refused(JoinFault),
    /// It is the proof that an honest server gives, with these pairs.
    Sound(Pairs),
    /// Two byte strings that differ and have one hash: that of the first map's owner, and the one
    /// that the proof shows in its place.
    First(Items<u8>, Items<u8>),
    /// The same of the second map.
    Second(Items<u8>, Items<u8>),
}

/// What one part of a join's proof is worth against its map.
#[derive(Drop)]
pub(crate) enum Worth {
    Refused(Fault),
    Sound,
    Collision(Items<u8>, Items<u8>),
}

/// The worth by what its audit finds.
pub(crate) fn worth_of(finding: ChoiceFinding) -> Worth
    ensures { result ≡ part_worth finding }
{
    match finding {
        ChoiceFinding::Refused(fault) => Worth::Refused(fault),
        ChoiceFinding::Sound(_) => Worth::Sound,
        ChoiceFinding::Collision(owned, shown) => Worth::Collision(owned, shown),
    }
}

/// The finding by the worth of the second part, where the first part is sound.
pub(crate) fn finding_behind(second: Worth, pairs: Pairs) -> JoinFinding
    ensures { result ≡ behind second pairs }
{
    match second {
        Worth::Refused(fault) => JoinFinding::Refused(JoinFault::Second(fault)),
        Worth::Sound => JoinFinding::Sound(pairs),
        Worth::Collision(owned, shown) => JoinFinding::Second(owned, shown),
    }
}

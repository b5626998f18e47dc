//! What the audit of a proof for a choice finds.

ghost use Rattle.mr_count.specs.private.Steps.{FindsOf};

use crate::Taken;
use crate::checking::taken_of;
use mr_clash::QuestionFinding;
use mr_outside::Items;
use mr_proof::Fault;

/// What the audit of a proof for a choice finds.
#[derive(Drop)]
pub enum ChoiceFinding {
    /// The proof is refused, as `check_choice` refuses it.
    Refused(Fault),
    /// It is the proof that an honest server gives, and this is what it gives.
    Sound(Taken),
    /// Two byte strings that differ and have one hash: the owner's, and the one that the proof
    /// shows in its place.
    Collision(Items<u8>, Items<u8>),
}

// The finding for a choice, by that for its question.
pub(crate) fn finding_of(finding: QuestionFinding) -> ChoiceFinding
    ensures { FindsOf finding result }
{
    match finding {
        QuestionFinding::Refused(fault) => ChoiceFinding::Refused(fault),
        QuestionFinding::Sound(collected) => ChoiceFinding::Sound(taken_of(collected)),
        QuestionFinding::Collision(owned, shown) => ChoiceFinding::Collision(owned, shown),
    }
}

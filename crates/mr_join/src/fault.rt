//! What can be wrong with the proof of a join.

ghost use Rattle.std.specs.Prelude.{◌≡◌};
ghost use Rattle.mr_join.specs.FrameRules.{rule_text};

use mr_proof::Fault;
use std::alloc::AllocError;

/// What can be wrong with the frame of a join's proof, in which the proofs of both maps stand.
#[derive(Clone, Copy, Debug, PartialEq, Eq)]
pub enum FrameRule {
    /// A field or the first map's proof would end past the end.
    Short,
    /// It does not begin with `MRJN`.
    BadMagic,
    /// The flag is neither 0 nor 1.
    BadFlag,
    /// The rectangle's left side is right of its right side, or its lower side above its upper.
    BadRect,
    /// The flag says that the second map is empty, and its proof that it is not.
    WrongFlag,
    /// The rectangle is not that of the second map, or the second map is empty.
    WrongRect,
}

impl FrameRule {
    /// The name of the rule.
    pub fn name(&self) -> &'static str
        ensures { result.now ≡ rule_text self.now }
    {
        match self {
            FrameRule::Short => "Short",
            FrameRule::BadMagic => "BadMagic",
            FrameRule::BadFlag => "BadFlag",
            FrameRule::BadRect => "BadRect",
            FrameRule::WrongFlag => "WrongFlag",
            FrameRule::WrongRect => "WrongRect",
        }
    }
}

/// The first rule that a join's proof breaks.
#[derive(Clone, Copy, Debug, PartialEq, Eq)]
pub enum JoinFault {
    /// Of the frame, at this place in bytes from its front.
    Frame { rule: FrameRule, at: u64 },
    /// Of the first map's proof, at a place from that proof's own front.
    First(Fault),
    /// Of the second map's proof, at a place from that proof's own front.
    Second(Fault),
}

/// Why the proof of a join gives no pairs.
#[derive(Clone, Copy, Debug, PartialEq, Eq)]
pub enum JoinErr {
    /// The proof is refused.
    Fault(JoinFault),
    /// Memory ran out.
    NoMemory,
}

impl From<JoinFault> for JoinErr {
    ghost use Rattle.std.specs.Prelude.{◌≡◌};
    ghost use Rattle.mr_join.specs.declared.fault.JoinErr.TheVariants.{Fault};

    ghost from_gives = { λ f e. e ≡ Fault f };

    fn from(fault: JoinFault) -> JoinErr {
        JoinErr::Fault(fault)
    }
}

impl From<AllocError> for JoinErr {
    ghost use Rattle.std.specs.Prelude.{◌≡◌};
    ghost use Rattle.mr_join.specs.declared.fault.JoinErr.TheVariants.{NoMemory};

    ghost from_gives = { λ _ e. e ≡ NoMemory };

    fn from(_error: AllocError) -> JoinErr {
        JoinErr::NoMemory
    }
}

//! What the proof for a choice has to show.

ghost use Rattle.std.specs.Prelude.{◌≡◌};
ghost use Rattle.mr_proof.specs.Tight.{IsLawful};
ghost use Rattle.mr_count.specs.Chosen.{chosen};

use crate::Choice;
use mr_proof::{Around, AsQuestion, Kind, Way};
use mr_query::Key;

// A choice, in proofs with this letter.
#[derive(Drop)]
pub(crate) struct Chosen<'a, C> {
    pub(crate) choice: &'a C,
    pub(crate) letter: u8,
}

impl<'a, C: Choice> AsQuestion for Chosen<'a, C> {
    ghost question = { λ s. chosen s.letter (C.ways s.choice.now) };

    fn kind(&self) -> Kind {
        Kind::Choice(self.letter)
    }

    fn two_only(&self) -> bool {
        true
    }

    fn around(&self) -> Option<Around> {
        None
    }

    fn way(&self, _radius: Option<u128>, part: &Key) -> Way {
        self.choice.way(&part.rect, part.mask)
    }
}

// Does nothing: it is there for proofs, which learn that what a choice asks is lawful.
pub(crate) fn choice_is_lawful<C: Choice>(_choice: &C, _letter: u8)
    ensures { IsLawful (chosen _letter (C.ways _choice.now)) }
{}

//! Where an entry is, while its node is split.

ghost use Rattle.std.specs.Prelude.{◌≡◌};
ghost use Rattle.mr_split.specs.Split.{is as is_same, count as count_of};

// Where an entry of a node that is being split is: in one of the two groups, or in none yet.
#[derive(Clone, Copy)]
pub enum Mark {
    Open,
    First,
    Second,
}

// Whether two marks are the same.
pub(crate) fn is(mark: Mark, other: Mark) -> bool
    ensures { result ≡ is_same mark other }
{
    match mark {
        Mark::Open => matches!(other, Mark::Open),
        Mark::First => matches!(other, Mark::First),
        Mark::Second => matches!(other, Mark::Second),
    }
}

// How many entries have a mark.
pub(crate) fn count(mark: Mark, marks: &[Mark]) -> usize
    ensures { result ≡ count_of mark marks.now }
{
    marks.iter().filter(|other| is(mark, **other)).count()
}

//! How a run ended.

ghost use Rattle.std.specs.Prelude.{◌≡◌};
ghost use Rattle.mr_plan.specs.Status.{code_of};

/// How a run ended.
#[derive(Clone, Copy, Debug, PartialEq, Eq)]
pub enum Status {
    /// All was done.
    Done,
    /// The words spell no command.
    BadWords,
    /// A proof was refused.
    Refused,
    /// A text breaks a rule of its grammar.
    BadText,
    /// A map file breaks a rule of its format.
    BadMap,
    /// A batch may not be applied.
    BadBatch,
    /// Two different byte strings with one digest were found.
    Collision,
    /// Something outside failed, or an input is missing.
    Outside,
    /// There was no memory.
    NoMemory,
    /// A map is of version 1, and what is asked for has proofs of version 2 alone.
    NeedsVersion2,
}

impl Status {
    /// The exit status of the program: 0 to 8 in the order of the variants, and 10 for a map that
    /// would have to be of version 2.
    pub fn code(self) -> u8
        ensures { result ≡ code_of self }
    {
        match self {
            Status::Done => 0,
            Status::BadWords => 1,
            Status::Refused => 2,
            Status::BadText => 3,
            Status::BadMap => 4,
            Status::BadBatch => 5,
            Status::Collision => 6,
            Status::Outside => 7,
            Status::NoMemory => 8,
            Status::NeedsVersion2 => 10,
        }
    }
}

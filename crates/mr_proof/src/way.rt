//! What a part of a map is to be in a proof.

ghost use Rattle.std.specs.Prelude.{◌≡◌};
ghost use Rattle.mr_proof.specs.Tight.{way_if, is_open, is_kept};

/// What a part of a map is to be in a proof.
#[derive(Clone, Copy, Debug, PartialEq, Eq)]
pub enum Way {
    /// Pruned: nothing in it is asked for.
    Skip,
    /// Pruned: all in it is asked for, by its entry alone.
    Whole,
    /// Opened.
    Open,
}

impl Way {
    /// Opened where it is met, and else left out.
    pub fn of(met: bool) -> Way
        ensures { result ≡ way_if met }
    {
        if met { Way::Open } else { Way::Skip }
    }

    /// Whether the part is to be opened.
    pub fn is_open(&self) -> bool
        ensures { result ≡ is_open self.now }
    {
        match self {
            Way::Skip | Way::Whole => false,
            Way::Open => true,
        }
    }

    /// Whether the part is not to be left out.
    pub fn is_kept(&self) -> bool
        ensures { result ≡ is_kept self.now }
    {
        match self {
            Way::Skip => false,
            Way::Whole | Way::Open => true,
        }
    }
}

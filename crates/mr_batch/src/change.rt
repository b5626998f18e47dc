//! One change of a map.

ghost use Rattle.std.specs.Prelude.{◌≡◌};
ghost use Rattle.mr_batch.specs.Changes.{named};
ghost use Rattle.mr_batch.specs.private.Presence.{adds};

use mr_record::Record;

/// One change of a map.
#[derive(Clone, Copy)]
pub enum Change {
    /// The record comes in.
    Add(Record),
    /// The record with this number goes out.
    Remove(u64),
}

impl Change {
    /// The number of the record that comes or goes.
    pub fn number(&self) -> u64
        ensures { result ≡ named self.now }
    {
        match self {
            Change::Add(one) => one.number,
            Change::Remove(number) => *number,
        }
    }

    // Whether a record comes in.
    pub(crate) fn is_addition(&self) -> bool
        ensures { result ≡ adds self.now }
    {
        match self {
            Change::Add(_) => true,
            Change::Remove(_) => false,
        }
    }
}

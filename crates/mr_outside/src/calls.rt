//! Calls that fail by their number.

ghost use Rattle.std.specs.Prelude.{◌≡◌};
ghost use Rattle.mr_outside.specs.Memory.{no_calls, next_fails, called};

use std::marker::Model;

// Calls that are numbered from 1, of which those whose number is in a list fail. The number stands
// once it is 2^64 - 1. A call takes time in the length of that list, which is for tests.
#[derive(Drop)]
pub(crate) struct Calls {
    fail: Vec<u64>,
    made: u64,
    faults: u64,
}

impl Model for Calls {
    ghost use Rattle.mr_outside.specs.Memory.{NumberedCalls, numbered_code};

    ghost Value = { NumberedCalls };

    ghost coded = { numbered_code };

    ghost view = { λ c. record { fail = c.fail.items; made = c.made; faults = c.faults } };
}

impl Calls {
    pub(crate) fn new(fail: Vec<u64>) -> Calls
        ensures { result ≡ no_calls fail.items }
    {
        Calls {
            fail,
            made: 0,
            faults: 0,
        }
    }

    // Makes the next call, and answers whether it fails.
    pub(crate) fn next_fails(&mut self) -> bool
        ensures answer { result ≡ next_fails self.old }
        ensures after { self.new ≡ called self.old }
    {
        self.made = self.made.saturating_add(1);
        let fails = self.fail.contains(&self.made);
        if fails {
            self.faults = self.faults.saturating_add(1);
        }
        fails
    }
}

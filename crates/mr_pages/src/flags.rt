//! Flags of numbers.

ghost use Rattle.std.specs.Prelude.{◌≡◌, ◌≤◌, ◌<◌, ◌^◌, true, false, length, replicate, slice_index_or, slice_set, vec_len, IfOk};
ghost use Rattle.mr_pages.specs.private.Places.{flagged_of};

use std::alloc::{AllocError, Global};

/// A flag for each of the least numbers, from 0 on.
#[derive(Drop)]
pub struct Flags {
    flags: Vec<bool>,
    ghost some: { 1 ≤ vec_len flags },
    ghost few: { vec_len flags ≤ 2 ^ 20 },
}

impl Flags {
    /// This many flags, none of them set.
    pub fn new(alloc: Global, count: usize) -> Result<Flags, AllocError>
        requires some { 1 ≤ count }
        requires few { count ≤ 2 ^ 20 }
        ensures { IfOk result (λ f. f.flags.items ≡ replicate count false) }
    {
        Ok(Flags {
            flags: vec![in alloc; false; count]?,
        })
    }

    /// How many there are.
    pub fn len(&self) -> usize
        ensures { result ≡ length self.now.flags.items }
    {
        self.flags.len()
    }

    /// Sets the flag of a number; whether it was set before.
    pub fn set(&mut self, n: usize) -> bool
        requires { n < length self.old.flags.items }
        ensures was { result ≡ slice_index_or self.old.flags.items n false }
        ensures sets { self.new.flags.items ≡ slice_set self.old.flags.items n true }
    {
        let was = self.flags[n];
        self.flags[n] = true;
        was
    }

    /// How many are set.
    pub fn count(&self) -> usize
        ensures count { result ≡ flagged_of self.now.flags.items }
        ensures few { result ≤ 2 ^ 20 }
    {
        count(&self.flags)
    }
}

// How many of these flags are set.
fn count(flags: &[bool]) -> usize
    ensures { result ≡ flagged_of flags.now }
{
    flags.iter().filter(|set| **set).count()
}

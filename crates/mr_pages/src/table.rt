//! A table of numbers.

ghost use Rattle.std.specs.Prelude.{◌≡◌, ◌≤◌, ◌<◌, ◌^◌, ◌%◌, replicate, vec_len, IfOk};
ghost use Rattle.mr_pages.specs.private.Places.{number_in_place, put_at_place, taken_of};

use std::alloc::{AllocError, Global};

/// A table in which each number but 0 has one place. At an empty place stands 0.
#[derive(Drop)]
pub struct Table {
    places: Vec<u64>,
    ghost some: { 1 ≤ vec_len places },
    ghost few: { vec_len places ≤ 2 ^ 20 },
}

impl Table {
    /// A table of this many places, all empty.
    pub fn new(alloc: Global, places: usize) -> Result<Table, AllocError>
        requires some { 1 ≤ places }
        requires few { places ≤ 2 ^ 20 }
        ensures { IfOk result (λ t. t.places.items ≡ replicate places 0) }
    {
        Ok(Table {
            places: vec![in alloc; 0u64; places]?,
        })
    }

    // The index of a number's place.
    fn place(&self, n: u64) -> usize
        ensures index { result ≡ n % vec_len self.now.places }
        ensures within { result < vec_len self.now.places }
    {
        (n % self.places.len() as u64) as usize
    }

    /// What stands at a number's place.
    pub fn at(&self, n: u64) -> u64
        ensures { result ≡ number_in_place self.now.places.items n }
    {
        self.places[self.place(n)]
    }

    /// Puts a number at its place.
    pub fn put(&mut self, n: u64)
        ensures { self.new.places.items ≡ put_at_place self.old.places.items n }
    {
        let at = self.place(n);
        self.places[at] = n;
    }

    /// How many places are taken.
    pub fn taken(&self) -> usize
        ensures count { result ≡ taken_of self.now.places.items }
        ensures small { result ≤ 2 ^ 20 }
    {
        taken(&self.places)
    }
}

// How many of these places are taken.
fn taken(places: &[u64]) -> usize
    ensures { result ≡ taken_of places.now }
{
    places.iter().filter(|n| **n != 0).count()
}

//! Room for a few bytes that go on whole.

ghost use Rattle.std.specs.Prelude.{◌≡◌, ◌+◌, ◌≤◌, [], ◌++◌, length, take};

use std::marker::Model;

/// Up to `N` bytes, kept inline until they go on whole. Contracts see the list of the bytes put so
/// far.
#[derive(Drop)]
pub struct Buffer<const N: usize> {
    len: usize,
    places: [u8; N],
}

impl<const N: usize> Model for Buffer<N> {
    ghost use Rattle.std.specs.Prelude.{◌≡◌, ◌≤◌, List, ℕ, length, take};

    ghost Value = { List ℕ };

    ghost view = { λ b. take b.len b.places };

    ghost invariant = { λ b. b.len ≤ N };
}

fn write_at(places: &mut [u8], at: usize, bytes: &[u8])
    requires { at + length bytes.now ≤ length places.old }
    ensures { take (at + length bytes.now) places.new ≡ take at places.old ++ bytes.now }
{
    let (_, behind) = places.split_at_mut(at);
    let (front, _) = behind.split_at_mut(bytes.len());
    front.copy_from_slice(bytes);
}

impl<const N: usize> Buffer<N> {
    /// A buffer without bytes.
    pub fn new() -> Buffer<N>
        ensures { result ≡ [] }
    {
        Buffer {
            len: 0,
            places: [0; N],
        }
    }

    /// Puts the bytes behind those so far.
    pub fn put(&mut self, bytes: &[u8])
        requires { length self.old + length bytes.now ≤ N }
        ensures { self.new ≡ self.old ++ bytes.now }
    {
        write_at(&mut self.places, self.len, bytes);
        self.len += bytes.len();
    }

    /// Forgets the bytes so far.
    pub fn clear(&mut self)
        ensures { self.new ≡ [] }
    {
        self.len = 0;
    }

    /// The bytes so far.
    pub fn as_slice(&self) -> &[u8]
        ensures bytes { result.now ≡ self.now }
        ensures room { length self.now ≤ N }
    {
        &self.places[..self.len]
    }
}

//! Where workers pass.

/// Where workers pass before and after each piece of their work. A test's gate can hold a piece; no
/// answer depends on a gate.
pub trait Gate: Sync {
    /// A worker is about to begin this piece.
    fn enter(&self, piece: usize);

    /// The worker has the result of this piece; `found` is a number taken from it.
    fn leave(&self, piece: usize, found: u64);
}

/// A gate that does nothing.
#[derive(Clone, Copy, Debug)]
pub struct NoGate;

impl Gate for NoGate {
    fn enter(&self, _piece: usize) {}

    fn leave(&self, _piece: usize, _found: u64) {}
}

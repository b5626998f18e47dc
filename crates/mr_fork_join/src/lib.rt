//! Work on the pieces of a list, in halves that threads may do at once. This is the only crate of
//! the program that starts threads, and it does so by `join` alone. There is no lock, no channel
//! and no atomic, so no half can see a step of the other.
//!
//! What is promised: the answer is that of one thread, piece by piece, in the order of the pieces,
//! for every order in which the halves run. What is not: that two halves run at once.
#![tactic(auto)]

mod halves;

pub use halves::{DEPTH_LIMIT, Work, in_halves};

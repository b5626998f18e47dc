//! Rectangles, kept so that whether a rectangle meets one of them takes few steps, whatever they
//! are. No clause says how many.
#![tactic(auto)]

mod corners;
mod levels;
mod marks;
mod merging;
mod reach;

pub use reach::Reach;

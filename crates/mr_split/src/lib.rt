//! Where a new rectangle goes and how the entries of a node that is too full are split in two, by
//! the quadratic method (Guttman 1984).
//!
//! Areas and growths are in squared map units. Positions count from 0.
#![tactic(auto)]

mod choice;
mod groups;
mod mark;
mod seeds;
mod sharing;

pub use choice::choose;
pub use groups::{sides, split};

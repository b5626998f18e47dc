//! Changes of a tree, record by record (Guttman 1984): insertion with the quadratic split, and
//! deletion, which inserts again what too small nodes held.
//!
//! A tree keeps no rectangles, so a call computes those of the whole tree, in one pass for each
//! record that it puts in. No record moves but those of the nodes on the way to its leaf, and of
//! those that are split or set aside.
#![tactic(auto)]

mod deletion;
mod entry;
mod finding;
mod insertion;
mod nodes;
mod parts;

pub use deletion::{DropErr, delete, shrink, sort_by_number};
pub use entry::{HasRect, place_for, rects_of};
pub use finding::position_of;
pub use insertion::{GrowErr, grow, insert};
pub use parts::part;

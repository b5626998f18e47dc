//! A map that is changed on a copy of its file: the copy, the pages of the draft on a shelf, and
//! its seal, before which the file is no map.
#![tactic(auto)]

mod copying;
mod draft;
mod keeping;
mod pages;
mod sealing;
mod sheets;
mod versioned;

pub use draft::{Draft, copy_map};
pub use sheets::Sheets;

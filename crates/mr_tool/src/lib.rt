//! A run of the program: its words are read, a command is carried out, and what that came to is
//! printed.
#![tactic(auto)]

mod finish;
mod in_place;
mod program;

pub use in_place::changed_in_place;
pub use mr_plan::Status;
pub use program::run;

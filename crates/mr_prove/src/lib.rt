//! The server's side: the proof of the answer to a query.
#![tactic(auto)]

mod best;
mod error;
mod fetching;
mod part;
mod proving;
mod search;
mod sought;
mod waiting;

pub use error::ProveErr;
pub use proving::{prove, prove_question, prove_window};

//! The client: whether a proof answers a query against a held root digest, and with which records,
//! judged as its bytes come or as one piece.
#![tactic(auto)]

mod arranging;
mod client;
mod closing;
mod collector;
mod counts;
mod ending;
mod error;
mod fed;
mod feeding;
mod frame;
mod headed;
mod inner;
mod judge;
mod leaf;
mod machine;
mod outline;
mod parts;
mod piece_check;
mod radius_counts;
mod reader;
mod stage;
mod step;
mod values;
mod verifier;

pub use client::check;
pub use collector::{Collector, check_question};
pub use error::CheckErr;
pub use fed::Fed;
pub use judge::Judge;
pub use outline::{Collected, Outline};
pub use piece_check::{PieceCheck, answer_of, proof_version};
pub use verifier::Verifier;

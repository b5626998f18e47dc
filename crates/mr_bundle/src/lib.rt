//! Bundles: the proofs for many queries on one map as one string, made and checked in joined
//! halves.
#![tactic(auto)]

mod checking;
mod proving;
mod reading;
mod text;
mod verdict;
mod writing;

pub use checking::check_all;
pub use proving::{Proof, proof_of_nodes, prove_all};
pub use reading::{Part, Parts, read_bundle};
pub use text::Text;
pub use verdict::{Answer, Verdict};
pub use writing::put_part;

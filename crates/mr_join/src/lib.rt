//! Joins of two maps that prove themselves: all pairs of records, one of each, that meet.
#![tactic(auto)]

mod auditing;
mod bounds;
mod checking;
mod entry;
mod fault;
mod finding;
mod frame;
mod honest;
mod joining;
mod meets;
mod pair;
mod pairing;
mod proving;
mod query;
mod searching;
mod sweeping;

pub use auditing::audit_join;
pub use fault::{FrameRule, JoinErr, JoinFault};
pub use finding::JoinFinding;
pub use honest::{accepted_join_is_honest, honest_join_is_accepted};
pub use joining::check_join;
pub use meets::Meets;
pub use pair::{Pair, Pairs};
pub use proving::prove_join;

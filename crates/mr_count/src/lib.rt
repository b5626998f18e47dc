//! Choices of the parts of a map, the proofs of what they choose, and how many records are chosen.
#![tactic(auto)]

mod auditing;
mod checking;
mod choice;
mod chosen;
mod counting;
mod error;
mod finding;
mod inside;
mod proving;
mod taken;

pub use auditing::audit_choice;
pub use checking::check_choice;
pub use choice::Choice;
pub use counting::count_of;
pub use error::ChoiceErr;
pub use finding::ChoiceFinding;
pub use inside::{Inside, inside_is_counted};
pub use mr_clash::AuditErr as FindErr;
pub use mr_proof::Way;
pub use mr_prove::ProveErr as WriteErr;
pub use proving::prove_choice;
pub use taken::Taken;

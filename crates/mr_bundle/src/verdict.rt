//! What is found of a part of a bundle.

use mr_outside::Items;
use mr_proof::Fault;
use mr_record::{Record, Version};

/// The records that a proof proves to be the answer to a query, as `check` orders them.
pub type Answer = Items<Record>;

/// The verdict on a part of a bundle.
#[derive(Drop)]
pub enum Verdict {
    /// The proof, of this version, is accepted, with this answer.
    Accepted(Version, Answer),
    /// It breaks this rule first.
    Refused(Fault),
}

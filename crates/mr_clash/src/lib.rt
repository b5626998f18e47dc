//! The auditor's side: what the bytes of a proof show against the map itself.
#![tactic(auto)]

mod auditing;
mod entry;
mod error;
mod finding;
mod items;
mod leaf;
mod own;
mod question_finding;
mod rest;
mod root;
mod strings;
mod summary;
mod walked;
mod walking;

pub use auditing::audit;
pub use error::AuditErr;
pub use finding::Finding;
pub use question_finding::{QuestionFinding, audit_question};

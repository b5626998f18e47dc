//! Why a proof for a choice gives nothing.

use mr_proof::Fault;

/// Why a proof for a choice gives nothing.
#[derive(Clone, Copy, Debug, PartialEq, Eq)]
pub enum ChoiceErr {
    /// The proof is refused.
    Fault(Fault),
    /// Memory ran out.
    NoMemory,
}

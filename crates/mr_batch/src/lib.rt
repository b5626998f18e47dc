//! Batches of changes to a map: their texts, what they make of some records, whether they may be
//! applied, and the tree after one.
#![tactic(auto)]

mod admission;
mod batch;
mod change;
mod directory;
mod line;
mod links;
mod replay;
mod text;
mod workload;

pub use admission::{BatchFault, admit};
pub use batch::Batch;
pub use change::Change;
pub use directory::Directory;
pub use replay::{ApplyErr, apply_plain};
pub use text::{read_batch, read_batch_of, read_batch2};
pub use workload::{generate, generate_queries};

//! What a proof is: its fields, what a whole string of them spells, and when it proves an answer or
//! what it breaks.
#![tactic(auto)]

mod field;
mod head;
mod honest;
mod item;
mod limits;
mod pruned_entry;
mod question;
mod rule;
mod want;
mod way;
mod write;

pub use field::{Field, read_field};
pub use head::{Head, Kind, kind_of};
pub use honest::{
    accepted_is_honest, accepted_matches_honest, honest_is_accepted, honest_proof_is_accepted,
    query_is_lawful,
};
pub use item::Item;
pub use limits::{PLACE_LIMIT, RADIUS_LIMIT};
pub use pruned_entry::PrunedEntry;
pub use question::{Around, AsQuestion, mask_seen};
pub use rule::{Fault, Rule};
pub use want::Want;
pub use way::Way;
pub use write::{write_head, write_item};

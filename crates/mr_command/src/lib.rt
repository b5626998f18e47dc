//! The commands, each from its names to what it comes to.
//!
//! A command answers an ending and prints nothing. An input that is missing is an ending too; a
//! halt says that the shelf failed or memory ran out. What takes the shelf by value hands it back.
#![tactic(auto)]

mod apply_command;
mod audit_command;
mod audit_count_command;
mod audit_join_command;
mod build_command;
mod bundling;
mod check_all_command;
mod check_command;
mod check_count_command;
mod check_join_command;
mod count_command;
mod counted;
mod demo_command;
mod ending;
mod fetching;
mod here_command;
mod input;
mod join_command;
mod list_command;
mod make_command;
mod opening;
mod packing;
mod pieces;
mod prove_command;
mod recover_command;
mod root_command;
mod saving;
mod serve_command;
mod snapshots;
mod upgrade_command;

pub use apply_command::apply;
pub use audit_command::audit_query;
pub use audit_count_command::audit_count;
pub use audit_join_command::audit_join_proof;
pub use build_command::build;
pub use check_all_command::check_bundle;
pub use check_command::check_proof;
pub use check_count_command::check_count;
pub use check_join_command::check_join_proof;
pub use count_command::count;
pub use demo_command::demo;
pub use ending::{Ending, Halt, RecordsOut};
pub use here_command::apply_in_place;
pub use join_command::join;
pub use list_command::{list, write_tree};
pub use make_command::make;
pub use prove_command::prove_query;
pub use recover_command::recover_map;
pub use root_command::root;
pub use serve_command::serve;
pub use upgrade_command::upgrade;

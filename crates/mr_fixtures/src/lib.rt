//! What tests of whole runs stand on: files put together from parts, and command lines over them.
#![tactic(auto)]

pub mod cuts;
pub mod listed;
pub mod parts;
pub mod runs;

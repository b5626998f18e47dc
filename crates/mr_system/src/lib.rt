//! The real file system and the real output.
#![tactic(auto)]

mod opening;
mod std_shelf;
mod std_sink;
mod system_files;

pub use std_shelf::StdShelf;
pub use std_sink::StdSink;
pub use system_files::SystemFiles;

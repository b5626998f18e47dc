//! A batch that is applied to a map in its own file, so that a crash at any moment leaves the map
//! as it was or after the batch.
#![tactic(auto)]

mod editing;
mod error;
mod files;
mod forming;
mod here;
mod layers;
mod version;

pub use error::HereErr;
pub use files::{apply_files, version_of_files};
pub use here::apply_here;
pub use version::version_held;

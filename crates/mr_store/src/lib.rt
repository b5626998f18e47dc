//! Maps on disk whose nodes are fetched page by page, with a cache of node pages; a whole map in
//! memory, and the directory of its records, as its nodes are fetched.
#![tactic(auto)]

mod cache;
mod cached_file;
mod cached_node;
mod copying;
mod fetching;
mod listing;
mod memory;
mod opening;
mod paged;
mod paging;
mod reading;
mod record_list;
mod walk;

pub use cached_file::CachedFile;
pub use cached_node::CachedNode;
pub use listing::directory;
pub use paged::Paged;

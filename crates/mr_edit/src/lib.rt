//! Changes of a map on the pages of its file (Guttman 1984): insertion and deletion as
//! recursions on the level below an entry, and the changes of a batch in their order.
//!
//! A change writes the nodes of one path, of what it splits and of what it sets aside, and reads
//! these, a removal also what its search looks at. A page that becomes free is used again before
//! the file grows. What a file of pages is, is a trait.
#![tactic(auto)]

mod deleting;
mod error;
mod file;
mod freeing;
mod hints;
mod inserted;
mod learning;
mod pager;
mod putting;
mod removal;
mod removing;
mod replaying;
mod root;

pub use error::EditErr;
pub use file::PageFile;
pub use inserted::Inserted;
pub use pager::Pager;
pub use removal::Removal;
pub use replaying::replay;
pub use root::insert;

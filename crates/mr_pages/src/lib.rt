//! Maps on disk: what a file stands for, its first fault, and the walk that opens it.
#![tactic(auto)]

mod chaining;
mod checking;
mod copying;
mod error;
mod file_pages;
mod flags;
mod head;
mod judging;
mod layout;
mod maker;
mod making;
mod node;
mod numbers;
mod opening;
mod page;
mod putting;
mod reading;
mod rule;
mod saving;
mod source;
mod table;
mod visited;
mod visiting;
mod whole;

pub use checking::{Checked, check};
pub use copying::{moved_to, put_stored};
pub use error::MapErr;
pub use file_pages::page_count;
pub use head::{MapHead, head_root};
pub use judging::{has_fill, has_rect, has_sums, is_fit};
pub use layout::{FIRST, Layout, PAGE_LIMIT, PAGE_SIZE, SECOND, SECOND_SIZE};
pub use node::Node;
pub use numbers::Numbers;
pub use opening::{Opened, open_plain, open_snapshot};
pub use page::{
    digest_on, free_on, head_on, level_of_root, node_on, put_free, put_head, put_node,
    read_free_page, read_head, read_head2, read_page, read_page2, write_free_page, write_head_page,
    write_head2_page, write_page, write_page2,
};
pub use putting::child_on;
pub use reading::{page_into, read_filled, read_front};
pub use rule::{MapFault, MapRule};
pub use saving::{save_plain, save_rooted, save2_plain};
pub use source::Source;
pub use visited::Visited;

//! The pages of a map file: what they spell, and how they are written.

mod free;
mod hashed;
mod head;
mod node;
mod put;

pub use free::{free_on, put_free, read_free_page, write_free_page};
pub use hashed::digest_on;
pub use head::{
    head_on, level_of_root, put_head, read_head, read_head2, write_head_page, write_head2_page,
};
pub use node::{node_on, put_node, read_page, read_page2, write_page, write_page2};
pub use put::fill_up;

//! Changes of a map's file in place that outlive a crash at any moment, by a journal of whole pages
//! in a second file.
#![tactic(auto)]

mod applying;
mod body;
mod carrying;
mod changing;
mod crash;
mod disk;
mod files;
mod gate;
mod mem_disk;
mod recovery;
mod shelf_disk;
mod spelling;
mod steps;
mod version;

pub use applying::write_pages;
pub use changing::spell_changes;
pub use disk::{Area, Disk, DiskErr};
pub use files::recover_files;
pub use mem_disk::MemDisk;
pub use recovery::{RecoverErr, recover};
pub use shelf_disk::ShelfDisk;
pub use spelling::{spell_head, spell_page};
pub use steps::read_map;
pub use version::is_version_two;

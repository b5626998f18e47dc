//! The files of a run.

use mr_system::{StdShelf, SystemFiles};
use mr_tool::changed_in_place;
use std::alloc::{AllocError, Global};

/// The files of the system, for a run on these words.
pub(crate) fn shelf_for<'a, R: SystemFiles>(
    rt: &'a R,
    alloc: Global,
    words: &[String],
) -> Result<StdShelf<'a, R>, AllocError> {
    match changed_in_place(words) {
        Some((map, must_write)) => StdShelf::changing(rt, alloc, map, must_write),
        None => Ok(StdShelf::new(rt, alloc)),
    }
}

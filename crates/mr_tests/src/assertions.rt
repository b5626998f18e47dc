//! How a test fails: by the name of the row, or of the case, that does not hold.

use std::alloc::AllocError;
use std::process::Abort;

/// Fails by this name unless there was memory and it holds.
pub fn holds(rt: &impl Abort, name: &str, it: Result<bool, AllocError>) {
    assert!(rt; matches!(it, Ok(true)), "{name}");
}

/// As `holds`, of the case with this number.
pub fn holds_at(rt: &impl Abort, name: &str, number: u64, it: Result<bool, AllocError>) {
    assert!(rt; matches!(it, Ok(true)), "{name} {number}");
}

/// Fails by the name of the first row that does not hold, if there is one, and where there was no
/// memory.
pub fn all_hold(rt: &impl Abort, first_other: Result<Option<&str>, AllocError>) {
    match first_other {
        Ok(None) => {}
        Ok(Some(name)) => assert!(rt; false, "{name}"),
        Err(_) => assert!(rt; false, "no memory"),
    }
}

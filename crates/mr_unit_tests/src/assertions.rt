//! How a test fails: by the name of the row, or of the case, that does not hold.

use std::alloc::AllocError;
use std::process::Abort;

/// Fails by this name unless it holds.
pub fn holds(rt: &impl Abort, name: &str, it: bool) {
    assert!(rt; it, "{name}");
}

/// Fails by this name unless there was memory and it holds.
pub fn holds_in_memory(rt: &impl Abort, name: &str, it: Result<bool, AllocError>) {
    assert!(rt; matches!(it, Ok(true)), "{name}");
}

/// Fails by the name of the first row that does not hold, if there is one.
pub fn all_hold(rt: &impl Abort, first_other: Option<&str>) {
    if let Some(name) = first_other {
        assert!(rt; false, "{name}");
    }
}

/// As `all_hold`, and fails where there was no memory.
pub fn all_hold_in_memory(rt: &impl Abort, first_other: Result<Option<&str>, AllocError>) {
    match first_other {
        Ok(first_other) => all_hold(rt, first_other),
        Err(_) => all_hold(rt, Some("no memory")),
    }
}

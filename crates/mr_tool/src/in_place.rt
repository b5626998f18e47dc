//! The map that a run changes in its own file.

use mr_plan::{Command, read_words};

/// The name of the map that a run on these words changes in its own file, where it does, and
/// whether it has to write to it: not so to recover a map, where there may be nothing to do.
pub fn changed_in_place(words: &[String]) -> Option<(&str, bool)> {
    match read_words(words) {
        Some(Command::ApplyHere(map, _)) => Some((map, true)),
        Some(Command::Recover(map)) => Some((map, false)),
        _ => None,
    }
}

//! The command `upgrade`.

ghost use Rattle.mr_command.specs.Ending.{RunsPlan};
ghost use Rattle.mr_plan.specs.Say.{say_upgrade};

use crate::ending::{Ending, Halt};
use crate::opening::open_map;
use crate::saving::save_map;
use mr_outside::Shelf;
use mr_record::Version;
use mr_tree::Hash32;
use std::alloc::Global;

/// The map in a file of either version, written to another one in version 2, and its root there.
/// The tree and the batch stay as they are; the nodes stand in preorder from page 1 on, and no page
/// is free.
pub fn upgrade<H: Hash32, S: Shelf>(
    alloc: Global,
    old: &str,
    new: &str,
    shelf: &mut S,
) -> Result<Ending, Halt>
    ensures { RunsPlan (say_upgrade H.of old.now new.now) (S.state shelf.old) (S.state shelf.new)
        result }
{
    match open_map::<H, S>(alloc, old, shelf) {
        Ok(map) => { save_map::<H, S>(alloc, Version::Two, new, &map.tree, map.batch, &[], shelf) }
        Err(came) => came,
    }
}

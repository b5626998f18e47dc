//! Outputs: a text, or a map file.

ghost use Rattle.std.specs.Prelude.{◌≡◌, length, IfOk};
ghost use Rattle.std.specs.String.{string_bytes};
ghost use Rattle.mr_tree.specs.Digest.{by, root as root_digest};
ghost use Rattle.mr_tree.specs.Leaves.{leaf_entries};
ghost use Rattle.mr_tree.specs.WellFormed.{WellFormed, HasLayers};
ghost use Rattle.mr_pages.specs.Leaves.{KnowsFirst};
ghost use Rattle.mr_command.specs.Ending.{IsEndingOrHalt, RunsPlan};
ghost use Rattle.mr_command.specs.private.Steps.{SavesFile, done_of};
ghost use Rattle.mr_plan.specs.Lines.{digest_line as line_on};
ghost use Rattle.mr_plan.specs.Outcome.{map_of, text};
ghost use Rattle.mr_plan.specs.Plan.{comes};
ghost use Rattle.mr_plan.specs.Say.{prints, say_map, say_text};

use crate::ending::{Ending, Halt};
use mr_outside::Shelf;
use mr_pages::save_rooted;
use mr_plan::{Status, digest_line};
use mr_record::Version;
use mr_tree::{Entry, Hash32, Tree};
use std::alloc::Global;

// Makes a file of these bytes.
fn save_bytes<S: Shelf>(name: &str, bytes: &[u8], shelf: &mut S) -> Result<(), Halt>
    ensures { SavesFile name.now (text bytes.now) (S.state shelf.old) (S.state shelf.new) result }
{
    shelf.create(name)?;
    shelf.append(name, bytes)?;
    shelf.sync(name)?;
    Ok(())
}

// These bytes in a file, and the line on them.
pub(crate) fn save_text<S: Shelf>(
    alloc: Global,
    line: String,
    name: &str,
    bytes: &[u8],
    shelf: &mut S,
) -> Result<Ending, Halt>
    ensures { RunsPlan (comes (say_text (string_bytes line) name.now bytes.now)) (S.state shelf.old)
        (S.state shelf.new) result }
{
    save_bytes(name, bytes, shelf)?;
    Ok(Ending::line(alloc, Status::Done, line))
}

// The ending over the root digest of a map that was written.
pub(crate) fn say_root(alloc: Global, digest: &[u8; 32]) -> Result<Ending, Halt>
    ensures size { length digest.now ≡ 32 }
    ensures gives { IsEndingOrHalt (prints (line_on digest.now)) result }
{
    let line = digest_line(alloc, digest)?;
    Ok(Ending::line(alloc, Status::Done, line))
}

// Writes a map to a file of this version, and answers its root digest. What is said of its leaves
// may be known.
fn save<H: Hash32, S: Shelf>(
    alloc: Global,
    version: Version,
    name: &str,
    tree: &Tree,
    batch: u64,
    leaves: &[Entry],
    shelf: &mut S,
) -> Result<[u8; 32], Halt>
    requires well_formed { WellFormed tree.now }
    requires layers { HasLayers version tree.now }
    requires known { KnowsFirst (leaf_entries (by version H.of) tree.now) leaves.now }
    ensures saved { SavesFile name.now (map_of version H.of tree.now batch) (S.state shelf.old)
        (S.state shelf.new) (done_of result) }
    ensures root { IfOk result
        (λ digest. digest ≡ root_digest (by version H.of) tree.now batch) }
{
    Ok(save_rooted::<H, S>(alloc, version, shelf, name, tree, batch, leaves)?)
}

// The map of a tree at a batch, written to a file of this version, and its root. What is said of
// its leaves may be known, left to right.
pub(crate) fn save_map<H: Hash32, S: Shelf>(
    alloc: Global,
    version: Version,
    name: &str,
    tree: &Tree,
    batch: u64,
    leaves: &[Entry],
    shelf: &mut S,
) -> Result<Ending, Halt>
    requires well_formed { WellFormed tree.now }
    requires layers { HasLayers version tree.now }
    requires known { KnowsFirst (leaf_entries (by version H.of) tree.now) leaves.now }
    ensures { RunsPlan (comes (say_map version H.of name.now tree.now batch)) (S.state shelf.old)
        (S.state shelf.new) result }
{
    let root = save::<H, S>(alloc, version, name, tree, batch, leaves, shelf)?;
    say_root(alloc, &root)
}

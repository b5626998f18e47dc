//! Maps that are taken into memory.

ghost use Rattle.std.specs.Prelude.{◌≡◌, ℕ, List, MatchResult, ⊤};
ghost use Rattle.mr_outside.specs.Told.{OfFile};
ghost use Rattle.mr_outside.specs.Bytes.{AreBytes};
ghost use Rattle.mr_command.specs.private.Joining.{EndsWithoutMap, TakesMap};
ghost use Rattle.mr_plan.specs.Joins.{is_first as of_first, lacks_join};
ghost use Rattle.mr_plan.specs.Say.{opened_in};

use crate::ending::Step;
use crate::opening::{is_word, unopened};
use crate::serve_command::map_version;
use mr_outside::Shelf;
use mr_pages::open_snapshot;
use mr_record::Version;
use mr_tree::{Hash32, Nodes, Snapshot};
use std::alloc::Global;

// The batch of a map in memory.
fn map_batch<H: Hash32>(nodes: &Snapshot<H>) -> u64
    ensures { result ≡ nodes.now.top.batch }
{
    nodes.reader().top().batch
}

// The map in a file of either version with its nodes in memory, or what the command comes to
// without it. Each page is read once, and each node is hashed once.
pub(crate) fn take_map<H: Hash32, S: Shelf>(
    alloc: Global,
    name: &str,
    shelf: &mut S,
) -> Step<Snapshot<H>>
    ensures takes { MatchResult result
        (λ s. TakesMap H.of name.now (S.state shelf.old) (S.state shelf.new) s.nodes.items s.top)
        (EndsWithoutMap H.of name.now (S.state shelf.old) (S.state shelf.new)) }
    // What is told of any file are bytes.
    ensures every { (q : List ℕ) → OfFile (S.state shelf.old).files q ⊤ AreBytes }
{
    match open_snapshot::<H, S>(alloc, shelf, name) {
        Ok(nodes) => {
            is_word(map_batch(&nodes));
            Ok(nodes)
        }
        Err(error) => Err(unopened(alloc, name, &error)),
    }
}

// Whether this is the version of maps that have no join.
fn is_first(version: Version) -> bool
    ensures { result ≡ of_first version }
{
    match version {
        Version::One => true,
        Version::Two => false,
    }
}

// Whether one of two maps in memory is of that version.
pub(crate) fn lack_join<H: Hash32>(first: &Snapshot<H>, second: &Snapshot<H>) -> bool
    ensures { result ≡ lacks_join (opened_in first.now.nodes.items first.now.top)
        (opened_in second.now.nodes.items second.now.top) }
{
    is_first(map_version(first)) || is_first(map_version(second))
}

//! The command `join`.

ghost use Rattle.std.specs.Prelude.{◌≡◌, IfOk};
ghost use Rattle.mr_record.specs.declared.version.Version.TheVariants.{Two};
ghost use Rattle.mr_command.specs.Ending.{RunsPlan};
ghost use Rattle.mr_plan.specs.Joins.{join_of};
ghost use Rattle.mr_plan.specs.Plan.{comes};
ghost use Rattle.mr_plan.specs.Say.{needs_map, opened_in, say_join, say_join_of};

use crate::ending::{Ending, Halt};
use crate::opening::without_proof;
use crate::prove_command::write_proof;
use crate::snapshots::{lack_join, take_map};
use mr_bundle::Text;
use mr_join::prove_join;
use mr_outside::Shelf;
use mr_tree::{Hash32, Snapshot};
use std::alloc::{AllocError, Global};

// The proof of the join of two maps in memory, whose nodes refuse for want of memory alone.
fn join_proof<H: Hash32>(
    alloc: Global,
    first: &Snapshot<H>,
    second: &Snapshot<H>,
) -> Result<Text, AllocError>
    requires first { first.now.top.version ≡ Two }
    requires second { second.now.top.version ≡ Two }
    ensures { IfOk result (λ text. text.bytes.items
        ≡ join_of H.of (opened_in first.now.nodes.items first.now.top)
        (opened_in second.now.nodes.items second.now.top)) }
{
    let mut out = Text::new(alloc);
    match prove_join(alloc, &mut first.reader(), &mut second.reader(), &mut out) {
        Ok(()) => Ok(out),
        Err(_) => Err(AllocError),
    }
}

// The proof of the join of two maps in memory, in a file, or what the command comes to where one of
// them is of version 1.
fn join_maps<H: Hash32, S: Shelf>(
    alloc: Global,
    first: &Snapshot<H>,
    second: &Snapshot<H>,
    proof: &str,
    shelf: &mut S,
) -> Result<Ending, Halt>
    ensures { let one = opened_in first.now.nodes.items first.now.top in
        let other = opened_in second.now.nodes.items second.now.top in
        RunsPlan (comes (say_join_of H.of proof.now one other)) (S.state shelf.old)
        (S.state shelf.new) result }
{
    if lack_join(first, second) {
        return without_proof(alloc);
    }
    let made = join_proof::<H>(alloc, first, second)?;
    write_proof(alloc, proof, made.bytes(), shelf)
}

// The same of a map in memory and of one in a file.
fn join_file<H: Hash32, S: Shelf>(
    alloc: Global,
    first: &Snapshot<H>,
    second: &str,
    proof: &str,
    shelf: &mut S,
) -> Result<Ending, Halt>
    ensures { let one = opened_in first.now.nodes.items first.now.top in
        RunsPlan (needs_map H.of second.now (λ other. comes (say_join_of H.of proof.now one other)))
        (S.state shelf.old) (S.state shelf.new) result }
{
    match take_map::<H, S>(alloc, second, shelf) {
        Ok(nodes) => join_maps::<H, S>(alloc, first, &nodes, proof, shelf),
        Err(came) => came,
    }
}

/// The proof of all pairs of records, one of each of two maps in files, whose rectangles meet,
/// written to a third file, where both maps are of version 2. Each map is taken into memory, the
/// first one first.
pub fn join<H: Hash32, S: Shelf>(
    alloc: Global,
    first: &str,
    second: &str,
    proof: &str,
    shelf: &mut S,
) -> Result<Ending, Halt>
    ensures { RunsPlan (say_join H.of first.now second.now proof.now) (S.state shelf.old)
        (S.state shelf.new) result }
{
    match take_map::<H, S>(alloc, first, shelf) {
        Ok(nodes) => join_file::<H, S>(alloc, &nodes, second, proof, shelf),
        Err(came) => came,
    }
}

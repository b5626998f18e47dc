//! The command `audit-join`.

ghost use Rattle.std.specs.Prelude.{◌≡◌, IfOk};
ghost use Rattle.mr_command.specs.Ending.{IsEndingOrHalt, RunsPlan};
ghost use Rattle.mr_plan.specs.Joins.{joined_found};
ghost use Rattle.mr_plan.specs.Say.{needs_map, opened_in, say_audit_join, say_audit_join_of, say_beside_maps, say_join_finding};

use crate::check_join_command::join_refused;
use crate::ending::{Ending, Halt};
use crate::input::needed;
use crate::opening::without_proof;
use crate::snapshots::{lack_join, take_map};
use mr_join::{JoinFinding, audit_join};
use mr_outside::Shelf;
use mr_plan::{Status, first_collision_lines, second_collision_lines, sound_pairs_text};
use mr_tree::{Hash32, Snapshot};
use std::alloc::{AllocError, Global};

// What is found of the bytes of a join's proof, by two maps in memory, whose nodes refuse for want
// of memory alone.
fn join_finding<H: Hash32>(
    alloc: Global,
    first: &Snapshot<H>,
    second: &Snapshot<H>,
    bytes: &[u8],
) -> Result<JoinFinding, AllocError>
    ensures { IfOk result (λ f.
        f ≡ joined_found H.of (opened_in first.now.nodes.items first.now.top)
        (opened_in second.now.nodes.items second.now.top) bytes.now) }
{
    match audit_join(alloc, &mut first.reader(), &mut second.reader(), bytes) {
        Ok(finding) => Ok(finding),
        Err(_) => Err(AllocError),
    }
}

// The ending over what was found of a join's proof.
fn say_joined(alloc: Global, finding: JoinFinding) -> Result<Ending, Halt>
    ensures { IsEndingOrHalt (say_join_finding finding) result }
{
    match finding {
        JoinFinding::Refused(fault) => join_refused(alloc, &fault),
        JoinFinding::Sound(pairs) => {
            let text = sound_pairs_text(alloc, pairs.as_slice())?;
            Ok(Ending::text(alloc, Status::Done, text.into_bytes()))
        }
        JoinFinding::First(owned, shown) => Ok(Ending::line(
            alloc,
            Status::Collision,
            first_collision_lines(alloc, owned.as_slice(), shown.as_slice())?,
        )),
        JoinFinding::Second(owned, shown) => Ok(Ending::line(
            alloc,
            Status::Collision,
            second_collision_lines(alloc, owned.as_slice(), shown.as_slice())?,
        )),
    }
}

// What the bytes of a join's proof are worth, by two maps in memory.
fn audit_bytes<H: Hash32>(
    alloc: Global,
    first: &Snapshot<H>,
    second: &Snapshot<H>,
    bytes: &[u8],
) -> Result<Ending, Halt>
    ensures { let one = opened_in first.now.nodes.items first.now.top in
        let other = opened_in second.now.nodes.items second.now.top in
        IsEndingOrHalt (say_audit_join_of H.of one other bytes.now) result }
{
    let finding = join_finding::<H>(alloc, first, second, bytes)?;
    say_joined(alloc, finding)
}

// The same of the proof in a file, or what the command comes to where one of the maps is of version
// 1.
fn audit_maps<H: Hash32, S: Shelf>(
    alloc: Global,
    first: &Snapshot<H>,
    second: &Snapshot<H>,
    proof: &str,
    shelf: &mut S,
) -> Result<Ending, Halt>
    ensures { let one = opened_in first.now.nodes.items first.now.top in
        let other = opened_in second.now.nodes.items second.now.top in
        RunsPlan (say_beside_maps H.of proof.now one other) (S.state shelf.old) (S.state shelf.new)
        result }
{
    if lack_join(first, second) {
        return without_proof(alloc);
    }
    match needed(alloc, proof, shelf) {
        Ok(bytes) => audit_bytes::<H>(alloc, first, second, &bytes),
        Err(came) => came,
    }
}

// The same of a map in memory and of one in a file.
fn audit_file<H: Hash32, S: Shelf>(
    alloc: Global,
    first: &Snapshot<H>,
    second: &str,
    proof: &str,
    shelf: &mut S,
) -> Result<Ending, Halt>
    ensures { let one = opened_in first.now.nodes.items first.now.top in
        RunsPlan (needs_map H.of second.now (say_beside_maps H.of proof.now one))
        (S.state shelf.old) (S.state shelf.new) result }
{
    match take_map::<H, S>(alloc, second, shelf) {
        Ok(nodes) => audit_maps::<H, S>(alloc, first, &nodes, proof, shelf),
        Err(came) => came,
    }
}

/// What the proof of a join in a file is worth against the two maps in others, where both are of
/// version 2. Each map is taken into memory, the first one first, and the proof is read behind
/// them.
pub fn audit_join_proof<H: Hash32, S: Shelf>(
    alloc: Global,
    first: &str,
    second: &str,
    proof: &str,
    shelf: &mut S,
) -> Result<Ending, Halt>
    ensures { RunsPlan (say_audit_join H.of first.now second.now proof.now) (S.state shelf.old)
        (S.state shelf.new) result }
{
    match take_map::<H, S>(alloc, first, shelf) {
        Ok(nodes) => audit_file::<H, S>(alloc, &nodes, second, proof, shelf),
        Err(came) => came,
    }
}

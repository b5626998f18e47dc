//! The bundle of some proofs, which goes to its file piece by piece.

ghost use Rattle.std.specs.Prelude.{◌≡◌, ◌≤◌, ◌++◌, ℕ, List, length, All, MatchResult};
ghost use Rattle.std.specs.String.{string_bytes};
ghost use Rattle.mr_outside.specs.State.{Shelved};
ghost use Rattle.mr_query.specs.Script.{script_limit};
ghost use Rattle.mr_bundle.specs.Bundle.{IsShort, bundle_of, part_bytes};
ghost use Rattle.mr_command.specs.private.Bundled.{IsGivenUp, HasMadeText};
ghost use Rattle.mr_command.specs.Ending.{RunsPlan};
ghost use Rattle.mr_command.specs.private.Steps.{SavesFile};
ghost use Rattle.mr_plan.specs.Outcome.{text};
ghost use Rattle.mr_plan.specs.Plan.{comes};
ghost use Rattle.mr_plan.specs.Say.{say_text};

use crate::ending::{Ending, Halt};
use mr_bundle::{Proof, Text, put_part};
use mr_outside::{PIECE, Shelf};
use mr_plan::Status;
use std::alloc::Global;

// How many bytes the bundle of some proofs has.
pub(crate) fn bundle_size(list: &[Proof]) -> usize
    requires short { All IsShort list.now }
    requires few { length list.now ≤ script_limit }
    ensures { result ≡ length (bundle_of list.now) }
{
    let mut size = 0;
    for proof in list {
        size += 4 + proof.as_slice().len();
    }
    size
}

// Puts a proof behind its length, and all that waits to the file once it is a piece.
fn put_on<S: Shelf>(name: &str, proof: &[u8], waits: &mut Text, shelf: &mut S) -> Result<(), Halt>
    requires { IsShort proof.now }
    ensures { (before : Shelved) (made : List ℕ)
        → HasMadeText name.now made waits.old.bytes.items before (S.state shelf.old)
        → let more = made ++ part_bytes proof.now in MatchResult result
        (λ done. HasMadeText name.now more waits.new.bytes.items before (S.state shelf.new))
        (IsGivenUp name.now more before (S.state shelf.new)) }
{
    put_part(waits, proof)?;
    if waits.bytes().len() < PIECE {
        return Ok(());
    }
    shelf.append(name, waits.bytes())?;
    waits.clear();
    Ok(())
}

// Makes a file of the bundle of some proofs, which is at no time held whole.
fn save_bundle<S: Shelf>(
    alloc: Global,
    name: &str,
    list: &[Proof],
    shelf: &mut S,
) -> Result<(), Halt>
    requires { All IsShort list.now }
    ensures { SavesFile name.now (text (bundle_of list.now)) (S.state shelf.old) (S.state shelf.new)
        result }
{
    shelf.create(name)?;
    let mut waits = Text::new(alloc);
    for proof in list {
        put_on(name, proof.as_slice(), &mut waits, shelf)?;
    }
    shelf.append(name, waits.bytes())?;
    shelf.sync(name)?;
    Ok(())
}

// The bundle of some proofs in a file, and the line on it.
pub(crate) fn save_proofs<S: Shelf>(
    alloc: Global,
    line: String,
    name: &str,
    list: &[Proof],
    shelf: &mut S,
) -> Result<Ending, Halt>
    requires { All IsShort list.now }
    ensures { RunsPlan (comes (say_text (string_bytes line) name.now (bundle_of list.now)))
        (S.state shelf.old) (S.state shelf.new) result }
{
    save_bundle(alloc, name, list, shelf)?;
    Ok(Ending::line(alloc, Status::Done, line))
}

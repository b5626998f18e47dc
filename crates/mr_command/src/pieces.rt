//! A proof in a file, read in pieces and judged as they come.

ghost use Rattle.std.specs.Prelude.{◌≡◌, ◌+◌, ◌≤◌, ⊤, ℕ, List, length, [], IfOk};
ghost use Rattle.mr_outside.specs.Bytes.{AreBytes};
ghost use Rattle.mr_outside.specs.Told.{OfFile};
ghost use Rattle.mr_query.specs.Word.{IsAskable};
ghost use Rattle.mr_query.specs.declared.query.Query as queries;
ghost use Rattle.mr_check.specs.Judged.{IsTaken};
ghost use Rattle.mr_command.specs.private.Taking.{HasCauses, TakesNext, TakesFile, JudgesFile, ReadsToFault};

use crate::ending::Halt;
use crate::input::are_bytes;
use mr_check::{CheckErr, PieceCheck};
use mr_outside::{PIECE, Shelf, ShelfErr};
use mr_proof::Fault;
use mr_query::Query;
use mr_record::{Record, Version};
use mr_tree::Hash32;
use std::alloc::{AllocError, Global};

// Why the proof in a file has no answer.
pub(crate) enum Stop {
    // It is refused.
    Refused(Fault),
    // There is no such file.
    Missing,
    Halted(Halt),
}

impl From<ShelfErr> for Stop {
    ghost use Rattle.mr_command.specs.private.Taking.{stop_of_shelf};

    ghost from_gives = { λ e s. s ≡ stop_of_shelf e };

    fn from(error: ShelfErr) -> Stop {
        match error {
            ShelfErr::Missing => Stop::Missing,
            ShelfErr::Fault => Stop::Halted(Halt::Shelf),
            ShelfErr::NoMemory => Stop::Halted(Halt::NoMemory),
        }
    }
}

impl From<CheckErr> for Stop {
    ghost use Rattle.mr_command.specs.private.Taking.{stop_of_check};

    ghost from_gives = { λ e s. s ≡ stop_of_check e };

    fn from(error: CheckErr) -> Stop {
        match error {
            CheckErr::Fault(fault) => Stop::Refused(fault),
            CheckErr::NoMemory => Stop::Halted(Halt::NoMemory),
        }
    }
}

impl From<AllocError> for Stop {
    ghost use Rattle.mr_command.specs.declared.ending.Halt.TheVariants as halts;
    ghost use Rattle.mr_command.specs.declared.pieces.Stop.TheVariants as stops;

    ghost from_gives = { λ _ s. s ≡ stops.Halted halts.NoMemory };

    fn from(_error: AllocError) -> Stop {
        Stop::Halted(Halt::NoMemory)
    }
}

// Reads so many bytes of a file, from this place on, and takes them in: the check that took them,
// and how many came.
fn take_next<H: Hash32, S: Shelf>(
    intake: PieceCheck<H>,
    name: &str,
    at: u64,
    wanted: usize,
    buffer: &mut [u8],
    shelf: &mut S,
) -> Result<(PieceCheck<H>, usize), Stop>
    requires { wanted ≤ length buffer.old }
    ensures within { IfOk result (λ next. next.1 ≤ wanted) }
    ensures one { (S.state shelf.new).reads ≤ (S.state shelf.old).reads + 1 }
    ensures causes { HasCauses name.now (S.state shelf.old) (S.state shelf.new) result }
    ensures takes { (root : List ℕ) (q : queries.Query) (front : List ℕ)
        → IsTaken H.of H.holds root q intake front
        → TakesNext H.of H.holds root q (S.state shelf.old).files name.now at wanted front
        result }
{
    let count = shelf.read_at(name, at, &mut buffer[..wanted])?;
    let piece = &buffer[..count];
    are_bytes(piece);
    let next = intake.take(piece)?;
    Ok((next, count))
}

// Takes in a file of this length, in pieces of as many bytes as the buffer has room for. It stops
// at the first fault, and at the first read that gives fewer bytes than were asked for.
fn take_file<H: Hash32, S: Shelf>(
    intake: PieceCheck<H>,
    name: &str,
    size: u64,
    buffer: &mut [u8],
    shelf: &mut S,
) -> Result<PieceCheck<H>, Stop>
    requires size { OfFile (S.state shelf.old).files name.now ⊥ (λ bytes. size ≡ length bytes) }
    requires bytes { OfFile (S.state shelf.old).files name.now ⊤ AreBytes }
    requires room { length buffer.old ≡ 65536 }
    ensures causes { HasCauses name.now (S.state shelf.old) (S.state shelf.new) result }
    ensures takes { (root : List ℕ) (q : queries.Query)
        → IsTaken H.of H.holds root q intake []
        → TakesFile H.of H.holds root q (S.state shelf.old).files name.now result }
    ensures stops { (root : List ℕ) (q : queries.Query)
        → IsTaken H.of H.holds root q intake []
        → ReadsToFault H.of root q (S.state shelf.old).files name.now
        (S.state shelf.old).reads (S.state shelf.new).reads }
{
    let mut taken = intake;
    let mut at = 0;
    while at < size {
        let wanted = (size - at).min(buffer.len() as u64) as usize;
        let (next, count) = take_next::<H, S>(taken, name, at, wanted, buffer, shelf)?;
        taken = next;
        if count < wanted {
            return Ok(taken);
        }
        at += count as u64;
    }
    Ok(taken)
}

fn zeros(alloc: Global, size: usize) -> Result<Vec<u8>, AllocError>
    ensures { IfOk result (λ v. length v.items ≡ size) }
{
    vec![in alloc; 0u8; size]
}

// What the proof in a file proves, against a root digest and for a query, and its version.
pub(crate) fn judge_file<H: Hash32, S: Shelf>(
    alloc: Global,
    root: &[u8; 32],
    query: &Query,
    name: &str,
    shelf: &mut S,
) -> Result<(Version, Vec<Record>), Stop>
    requires { IsAskable query.now }
    ensures stops { ReadsToFault H.of root.now query.now (S.state shelf.old).files name.now
        (S.state shelf.old).reads (S.state shelf.new).reads }
    ensures causes { HasCauses name.now (S.state shelf.old) (S.state shelf.new) result }
    ensures judges { JudgesFile H.of root.now query.now (S.state shelf.old).files name.now result }
{
    let size = shelf.size(name)?;
    let mut buffer = zeros(alloc, PIECE)?;
    let intake = PieceCheck::<H>::new(alloc, root, query)?;
    let taken = take_file::<H, S>(intake, name, size, buffer.as_mut_slice(), shelf)?;
    Ok(taken.end()?)
}

//! A map file as an input.

ghost use Rattle.std.specs.Prelude.{◌≡◌, ◌<◌, ◌^◌, ℕ, List, MatchResult, ⊤};
ghost use Rattle.mr_outside.specs.Told.{OfFile};
ghost use Rattle.mr_outside.specs.Bytes.{AreBytes};
ghost use Rattle.mr_store.specs.Opening.{OpensMap};
ghost use Rattle.mr_command.specs.Ending.{IsEndingOrHalt};
ghost use Rattle.mr_command.specs.private.Steps.{OpensMapOrEnds, SaysRefusal};
ghost use Rattle.mr_command.specs.private.Inputs.{IsUnopened};
ghost use Rattle.mr_plan.specs.Lines.{needs_version_2_line as line_of_need};
ghost use Rattle.mr_plan.specs.Saying.{ends, lacks_proof as proof_is_lacking};
ghost use Rattle.mr_plan.specs.declared.status.Status.TheVariants.{NeedsVersion2};

use crate::ending::{Ending, Halt, Step};
use crate::input::missing;
use mr_outside::Shelf;
use mr_pages::{MapErr, Opened, open_plain};
use mr_plan::{Status, bad_map_line, needs_version_2_line};
use mr_query::Query;
use mr_record::Version;
use mr_store::Paged;
use mr_tree::Hash32;
use std::alloc::Global;

// What the type tells of its values.
pub(crate) fn is_word(_number: u64)
    ensures { _number < 2 ^ 64 }
{}

// What a command comes to without the map in a file, by why that was not opened.
pub(crate) fn unopened(alloc: Global, name: &str, error: &MapErr) -> Result<Ending, Halt>
    ensures { SaysRefusal name.now error.now result }
{
    match error {
        MapErr::Map(fault) => {
            let line = bad_map_line(alloc, fault)?;
            Ok(Ending::line(alloc, Status::BadMap, line))
        }
        MapErr::Missing => missing(alloc, name),
        MapErr::Fault => Err(Halt::Shelf),
        MapErr::NoMemory => Err(Halt::NoMemory),
    }
}

// The map in a file of either version, or what the command comes to without it.
pub(crate) fn open_map<H: Hash32, S: Shelf>(
    alloc: Global,
    name: &str,
    shelf: &mut S,
) -> Step<Opened>
    ensures opens { OpensMapOrEnds H.of name.now (S.state shelf.old) (S.state shelf.new) result }
    // What is told of any file are bytes.
    ensures every { (q : List ℕ) → OfFile (S.state shelf.old).files q ⊤ AreBytes }
{
    match open_plain::<H, S>(alloc, shelf, name) {
        Ok(map) => {
            is_word(map.batch);
            Ok(map)
        }
        Err(error) => Err(unopened(alloc, name, &error)),
    }
}

// The map in a file of either version, whose pages are read one by one, or what the command comes
// to without it and the shelf.
pub(crate) fn open_paged<H: Hash32, S: Shelf>(
    alloc: Global,
    name: &str,
    shelf: S,
) -> Result<Paged<S, H>, (Result<Ending, Halt>, S)>
    ensures { MatchResult result (OpensMap H.of name.now (S.state shelf))
        (λ r. IsUnopened H.of name.now (S.state shelf) (S.state r.1) r.0) }
{
    match Paged::<S, H>::open_map(alloc, shelf, name) {
        Ok(paged) => Ok(paged),
        Err((shelf, error)) => Err((unopened(alloc, name, &error), shelf)),
    }
}

// Whether a map of this version has no proof for the query: one of version 1 for a query that names
// a mask.
pub(crate) fn lacks_proof(version: Version, query: &Query) -> bool
    ensures { result ≡ proof_is_lacking version query.now }
{
    match version {
        Version::One => query.mask.is_some(),
        Version::Two => false,
    }
}

// What a command comes to that asks a map of version 1 for a proof which it lacks.
pub(crate) fn without_proof(alloc: Global) -> Result<Ending, Halt>
    ensures { IsEndingOrHalt (ends NeedsVersion2 line_of_need) result }
{
    let line = needs_version_2_line(alloc)?;
    Ok(Ending::line(alloc, Status::NeedsVersion2, line))
}

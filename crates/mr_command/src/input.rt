//! Inputs, and what is said of one that is missing or is no text of its kind.

ghost use Rattle.std.specs.Prelude.{◌≤◌, length, All, IfOk};
ghost use Rattle.mr_outside.specs.Bytes.{AreBytes};
ghost use Rattle.mr_record.specs.RecordText.{IsRecordList, records_of_text};
ghost use Rattle.mr_query.specs.Script.{queries_of_text, script_limit};
ghost use Rattle.mr_query.specs.Word.{IsAskable};
ghost use Rattle.mr_command.specs.private.Steps.{IsAsRead, SaysMissing, ReadsInput};
ghost use Rattle.mr_command.specs.private.Inputs.{ReadsText, SaysText};

use crate::ending::{Ending, Halt, Step};
use mr_outside::{Shelf, ShelfErr, read_all};
use mr_plan::{Status, bad_text_line, missing_line};
use mr_query::{Query, read_script};
use mr_record::{Record, TextErr, Version, read_lines_of};
use std::alloc::Global;

// What the type tells of its values.
pub(crate) fn are_bytes(_bytes: &[u8])
    ensures { AreBytes _bytes.now }
{}

// The bytes of an input that has to be there, by the answer of a read.
pub(crate) fn as_needed(alloc: Global, name: &str, read: Result<Vec<u8>, ShelfErr>) -> Step<Vec<u8>>
    ensures { IsAsRead name.now read result }
{
    match read {
        Ok(bytes) => {
            are_bytes(&bytes);
            Ok(bytes)
        }
        Err(ShelfErr::Missing) => Err(missing(alloc, name)),
        Err(ShelfErr::Fault) => Err(Err(Halt::Shelf)),
        Err(ShelfErr::NoMemory) => Err(Err(Halt::NoMemory)),
    }
}

// The bytes of an input that has to be there.
pub(crate) fn needed<S: Shelf>(alloc: Global, name: &str, shelf: &mut S) -> Step<Vec<u8>>
    ensures { ReadsInput name.now (S.state shelf.old) (S.state shelf.new) result }
{
    as_needed(alloc, name, read_all(alloc, shelf, name))
}

// The records of a file, whose lines are of this version. Its text is given up for them: both would
// be held while a tree is built.
pub(crate) fn records_from<S: Shelf>(
    alloc: Global,
    version: Version,
    name: &str,
    shelf: &mut S,
) -> Step<Vec<Record>>
    ensures reads { ReadsText (records_of_text version) name.now (S.state shelf.old)
        (S.state shelf.new) result }
    ensures list { IfOk result (λ v. IsRecordList version v.items) }
{
    let text = needed(alloc, name, shelf)?;
    match read_lines_of(alloc, version, &text) {
        Ok(records) => Ok(records),
        Err(error) => Err(bad_text(alloc, &error)),
    }
}

// The queries of the script in a file, whose text is given up for them.
pub(crate) fn queries_from<S: Shelf>(alloc: Global, name: &str, shelf: &mut S) -> Step<Vec<Query>>
    ensures reads { ReadsText queries_of_text name.now (S.state shelf.old) (S.state shelf.new)
        result }
    ensures askable { IfOk result (λ v. All IsAskable v.items) }
    ensures length_at_most { IfOk result (λ v. length v.items ≤ script_limit) }
{
    let text = needed(alloc, name, shelf)?;
    match read_script(alloc, &text) {
        Ok(queries) => Ok(queries),
        Err(error) => Err(bad_text(alloc, &error)),
    }
}

// The ending over a file that is missing.
pub(crate) fn missing(alloc: Global, name: &str) -> Result<Ending, Halt>
    ensures { SaysMissing name.now result }
{
    let line = missing_line(alloc, name)?;
    Ok(Ending::line(alloc, Status::Outside, line))
}

// What a command comes to without the values of a text, by why they could not be had.
pub(crate) fn bad_text(alloc: Global, error: &TextErr) -> Result<Ending, Halt>
    ensures { SaysText error.now result }
{
    match error {
        TextErr::Text(fault) => {
            let line = bad_text_line(alloc, fault)?;
            Ok(Ending::line(alloc, Status::BadText, line))
        }
        TextErr::NoMemory => Err(Halt::NoMemory),
    }
}

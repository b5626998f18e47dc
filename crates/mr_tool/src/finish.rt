//! The end of a run: what a command came to is printed.

ghost use Rattle.std.specs.Prelude.{◌≡◌, ◌++◌, ◌≤◌, OnOk};
ghost use Rattle.std.specs.String.{string_bytes};
ghost use Rattle.mr_outside.specs.Causes.{SinkCauses};
ghost use Rattle.mr_outside.specs.Told.{TakesBytes, TakesFront};
ghost use Rattle.mr_record.specs.RecordText.{text_of};
ghost use Rattle.mr_command.specs.Ending.{printed_of, records_out};
ghost use Rattle.mr_command.specs.private.Steps.{PrintsEnding, HasLines, PrintsText};

use mr_command::{Ending, Halt, RecordsOut, write_tree};
use mr_outside::{Sink, SinkErr, write_all};
use mr_plan::Status;
use mr_record::{Version, write_lines};

// Writes the text of an ending, its records one by one.
fn write_ending<W: Sink>(out: &mut W, ending: &Ending) -> Result<(), SinkErr>
    ensures whole { OnOk result
        (TakesBytes (W.state out.old) (W.state out.new) (printed_of ending.now)) }
    ensures front { TakesFront (W.state out.old) (W.state out.new) (printed_of ending.now) }
    ensures causes { SinkCauses (W.state out.old) (W.state out.new) result }
{
    write_all(out, ending.text.as_slice())?;
    write_shown(out, ending.version, &ending.records)
}

// Writes a line of this version for each record that is shown.
fn write_shown<W: Sink>(out: &mut W, version: Version, records: &RecordsOut) -> Result<(), SinkErr>
    requires { HasLines version records.now }
    ensures whole { OnOk result
        (TakesBytes (W.state out.old) (W.state out.new)
        (text_of version (records_out records.now))) }
    ensures front { TakesFront (W.state out.old) (W.state out.new)
        (text_of version (records_out records.now)) }
    ensures causes { SinkCauses (W.state out.old) (W.state out.new) result }
{
    match records {
        RecordsOut::Records(list) => write_lines(out, version, list),
        RecordsOut::OfTree(alloc, tree) => write_tree(*alloc, out, version, tree),
    }
}

// Prints a line, the last thing that a run does.
fn print<W: Sink>(out: &mut W, line: &[u8], meant: Status) -> Status
    ensures printed { PrintsText meant line.now (W.state out.old) (W.state out.new) result }
    ensures faults { (W.state out.old).faults ≤ (W.state out.new).faults }
{
    match write_all(out, line) {
        Ok(()) => meant,
        Err(SinkErr::Fault) => Status::Outside,
        Err(SinkErr::NoMemory) => Status::NoMemory,
    }
}

// Prints an ending, the last thing that a run does.
fn print_ending<W: Sink>(out: &mut W, ending: &Ending) -> Status
    ensures printed { PrintsText ending.now.status (printed_of ending.now) (W.state out.old)
        (W.state out.new) result }
    ensures faults { (W.state out.old).faults ≤ (W.state out.new).faults }
{
    match write_ending(out, ending) {
        Ok(()) => ending.status,
        Err(SinkErr::Fault) => Status::Outside,
        Err(SinkErr::NoMemory) => Status::NoMemory,
    }
}

// Prints what a command came to, the last thing that a run does.
pub(crate) fn finish<W: Sink>(out: &mut W, came: Result<Ending, Halt>) -> Status
    ensures { PrintsEnding came (W.state out.old) (W.state out.new) result }
{
    match came {
        Ok(ending) => print_ending(out, &ending),
        Err(Halt::Words) => print(out, b"bad words\n", Status::BadWords),
        Err(Halt::Shelf) => print(out, b"shelf fault\n", Status::Outside),
        Err(Halt::NoMemory) => Status::NoMemory,
    }
}

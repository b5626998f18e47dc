//! The command `make`.

ghost use Rattle.std.specs.Prelude.{◌≡◌, ◌≤◌, ◌^◌, IfOk};
ghost use Rattle.mr_record.specs.RecordText.{text_of};
ghost use Rattle.mr_record.specs.declared.version.Version.TheVariants.{One};
ghost use Rattle.mr_batch.specs.Workload.{generated};
ghost use Rattle.mr_command.specs.Ending.{RunsPlan};
ghost use Rattle.mr_plan.specs.Say.{say_make};

use crate::ending::{Ending, Halt};
use crate::saving::save_text;
use mr_batch::generate;
use mr_bundle::Text;
use mr_outside::Shelf;
use mr_plan::{made_line, text_of_records};
use std::alloc::{AllocError, Global};

// The text of so many generated records.
fn made_text(alloc: Global, count: u32, seed: u64) -> Result<Text, AllocError>
    requires { count ≤ 2 ^ 20 }
    ensures { IfOk result (λ t. t.bytes.items ≡ text_of One (generated count seed)) }
{
    let list = generate(alloc, count, seed)?;
    text_of_records(alloc, &list)
}

/// So many generated records, 2^20 at most, written to a file, and how many they are.
pub fn make<S: Shelf>(
    alloc: Global,
    count: u32,
    seed: u64,
    records: &str,
    shelf: &mut S,
) -> Result<Ending, Halt>
    requires { count ≤ 2 ^ 20 }
    ensures { RunsPlan (say_make count seed records.now) (S.state shelf.old) (S.state shelf.new)
        result }
{
    let text = made_text(alloc, count, seed)?;
    let line = made_line(alloc, count)?;
    save_text(alloc, line, records, text.bytes(), shelf)
}

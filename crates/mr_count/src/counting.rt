//! How many records are taken whole.

ghost use Rattle.std.specs.Prelude.{◌≡◌, ◌≤◌, length, All};
ghost use Rattle.mr_record.specs.Record.{HasLayer};
ghost use Rattle.mr_record.specs.declared.version.Version.TheVariants.{Two};
ghost use Rattle.mr_check.specs.Whole.{is_whole};
ghost use Rattle.mr_count.specs.Chosen.{takes_whole, number_whole, total_whole, FitsTaken};

use crate::{Choice, Taken};
use mr_proof::Way;
use mr_query::Key;
use mr_record::Record;

fn is_whole(way: Way) -> bool
    ensures { result ≡ is_whole way }
{
    match way {
        Way::Skip | Way::Open => false,
        Way::Whole => true,
    }
}

// Whether a record is taken whole.
fn takes_whole<C: Choice>(choice: &C, one: &Record) -> bool
    requires { HasLayer Two one.now }
    ensures { result ≡ takes_whole (C.ways choice.now) one.now }
{
    let key = Key::of_record(one);
    is_whole(choice.way(&key.rect, key.mask))
}

// How many of the records are.
fn number_whole<C: Choice>(choice: &C, records: &[Record]) -> u64
    requires { All (HasLayer Two) records.now }
    ensures number { result ≡ number_whole (C.ways choice.now) records.now }
    ensures few { result ≤ length records.now }
{
    let mut number = 0;
    for one in records {
        if takes_whole(choice, one) {
            number += 1;
        }
    }
    number
}

/// How many records of its map a proof for this choice takes whole: those below the parts that it
/// prunes for that, and those of them among the records that it gives. What `check_choice` and
/// `audit_choice` give fits.
pub fn count_of<C: Choice>(taken: &Taken, choice: &C) -> u64
    requires { FitsTaken taken.now }
    ensures { result ≡ total_whole (C.ways choice.now) taken.now }
{
    taken.whole + number_whole(choice, taken.records.as_slice())
}

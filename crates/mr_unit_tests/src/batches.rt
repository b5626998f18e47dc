//! Batch texts, batches and admission, by their calls.

use crate::assertions::all_hold_in_memory;
use crate::calls::{Kind, first_untrue, text_in};
use crate::made::{directory_of, records_of};
use mr_batch::{Batch, BatchFault, admit, read_batch, read_batch2};
use mr_record::{TextErr, TextFault};
use std::alloc::{AllocError, Global};

// Of a text with a fault the line and the rule are told, and else the batch's number and that of
// its changes. A stroke stands for a line feed.
const TEXTS: &str = "first  = 1 Head\n\
    first b = 1 NoEnd\n\
    first batch 1 = 1 NoEnd\n\
    first b| = 1 Head\n\
    first batch| = 1 Head\n\
    first batch | = 1 Head\n\
    first batch 01| = 1 Head\n\
    first batch 1 | = 1 Head\n\
    first batch 18446744073709551616| = 1 Head\n\
    first batch 1|- | = 2 Number\n\
    first batch 1|-| = 2 Form\n\
    first batch 1|- 5 6| = 2 Form\n\
    first batch 1|| = 2 Form\n\
    first batch 1|* 5| = 2 Form\n\
    first batch 1|- 5|+ 7 1 0 0 0 -| = 3 Order\n\
    first batch 1|- 5|+ 7  0 0 0 -| = 3 Coordinate\n\
    first batch 1|- 5|+  7 0 0 0 0 -| = 3 Form\n\
    first batch 1|- 5|+ 7 0 0 0 0 0| = 3 Payload\n\
    first batch 1|- 5|+ 7 0 0 0 0 - = 3 NoEnd\n\
    first batch 1|- 05|+ 7 = 2 Number\n\
    first batch 1|+ 07 0 0 0 0 -| = 2 Number\n\
    first batch 1|+ 7 +0 0 0 0 -| = 2 Coordinate\n\
    first batch 1|+ 7 0 -0 0 0 -| = 2 Coordinate\n\
    first batch 1|+ 7 0 0 00 0 -| = 2 Coordinate\n\
    first batch 1|+ 7 0 0 0 2147483648 -| = 2 Coordinate\n\
    first batch 1|+ 7 0 1 0 0 -| = 2 Order\n\
    first batch 18446744073709551615| = batch 18446744073709551615 changes 0\n\
    first batch 0| = batch 0 changes 0\n\
    first batch 1|- 5|+ 7 0 0 0 0 -| = batch 1 changes 2";

// In version 2 a record has a layer, whose rule comes behind all others of its line.
const SECOND_TEXTS: &str = "second batch 1|- 5|+ 7 0 0 0 0 64 -| = 3 Layer\n\
    second batch 1|+ 7 0 0 0 0 05 -| = 2 Layer\n\
    second batch 1|+ 7 0 0 0 0  -| = 2 Layer\n\
    second batch 1|+ 7 0 0 0 0 64 x| = 2 Payload\n\
    second batch 1|+ 7 1 0 0 0 64 -| = 2 Order\n\
    second batch 1|+ 07 0 0 0 0 64 -| = 2 Number\n\
    second batch 1|+ 7 0 0 0 0 -| = 2 Form\n\
    second batch 1|+ 7 0 0 0 0 5 - -| = 2 Form\n\
    second batch 1|- 7 5| = 2 Form\n\
    second batch 1|+ 7 0 0 0 0 64 - = 2 NoEnd\n\
    second batch x|+ 7 0 0 0 0 64 -| = 1 Head\n\
    second batch 1| = batch 1 changes 0\n\
    second batch 1|+ 7 0 0 0 0 0 -|- 7|+ 7 0 0 0 0 63 00| = batch 1 changes 3";

// Whether a batch may be applied to the record 7 at the held batch in front of it. And for each
// change of a batch, and one place more, the place of the one before it of the same number.
const BATCHES: &str = "admit 0 batch 2| = OutOfOrder held 0 given 2\n\
    admit 18446744073709551615 batch 0| = OutOfOrder held 18446744073709551615 given 0\n\
    admit 18446744073709551614 batch 18446744073709551615| = admitted\n\
    admit 1 batch 1|- 7| = OutOfOrder held 1 given 1\n\
    admit 0 batch 1| = admitted\n\
    admit 0 batch 1|+ 7 0 0 0 0 -| = Present 2\n\
    admit 0 batch 1|- 8| = Absent 2\n\
    admit 0 batch 1|- 7|+ 7 0 0 0 0 -| = admitted\n\
    admit 0 batch 1|- 7|+ 7 0 0 0 0 -|- 8| = Absent 4\n\
    admit 0 batch 1|- 7|- 7| = Absent 3\n\
    admit 0 batch 1|+ 8 0 0 0 0 -|+ 8 0 0 0 0 -| = Present 3\n\
    earlier batch 3|- 7|+ 8 0 0 0 0 -|- 7|- 8| = 3: none, none, 0, 1, none, ";

fn told(alloc: Global, read: Result<Batch, TextErr>) -> Result<String, AllocError> {
    match read {
        Ok(batch) => {
            let (number, changes) = (batch.number(), batch.len());
            format!(in alloc; "batch {number} changes {changes}")
        }
        Err(TextErr::Text(TextFault { line, rule })) => {
            let rule = rule.name();
            format!(in alloc; "{line} {rule}")
        }
        Err(TextErr::NoMemory) => Err(AllocError),
    }
}

fn fault_of(alloc: Global, answer: Result<(), BatchFault>) -> Result<String, AllocError> {
    match answer {
        Ok(()) => String::from_str(alloc, "admitted"),
        Err(BatchFault::OutOfOrder { held, given }) => {
            format!(in alloc; "OutOfOrder held {held} given {given}")
        }
        Err(BatchFault::Present { line }) => format!(in alloc; "Present {line}"),
        Err(BatchFault::Absent { line }) => format!(in alloc; "Absent {line}"),
        Err(BatchFault::Full { line }) => format!(in alloc; "Full {line}"),
    }
}

fn admitted(alloc: Global, held: u64, text: &str) -> Result<String, AllocError> {
    let seven = match records_of(alloc, "7 0 0 0 0 -\n") {
        Some(records) => directory_of(alloc, &records),
        None => None,
    };
    match (seven, read_batch(alloc, text.as_bytes())) {
        (Some(seven), Ok(batch)) => fault_of(alloc, admit(&seven, held, &batch)),
        _ => String::from_str(alloc, "none"),
    }
}

fn earlier(alloc: Global, text: &str) -> Result<String, AllocError> {
    let Ok(batch) = read_batch(alloc, text.as_bytes()) else {
        return String::from_str(alloc, "none");
    };
    let number = batch.number();
    let mut told = format!(in alloc; "{number}: ")?;
    for i in 0..=batch.len() {
        match batch.earlier(i) {
            Some(place) => told.push_str(format!(in alloc; "{place}, ")?.as_str())?,
            None => told.push_str("none, ")?,
        }
    }
    Ok(told)
}

/// What a call on a batch text answers.
pub fn answer(alloc: Global, call: &str, words: &str) -> Result<String, AllocError> {
    let text = text_in(alloc, words)?;
    match call {
        "first" => told(alloc, read_batch(alloc, text.as_bytes())),
        "second" => told(alloc, read_batch2(alloc, text.as_bytes())),
        "earlier" => earlier(alloc, text.as_str()),
        _ => {
            let (held, text) = text.as_str().split_once(' ').unwrap_or(("", ""));
            admitted(alloc, held.parse::<u64>().unwrap_or(0), text)
        }
    }
}

#[test]
fn texts_of_batches(rt: HostRuntime) {
    all_hold_in_memory(&rt, first_untrue(rt.alloc(), Kind::Batches, TEXTS));
    all_hold_in_memory(&rt, first_untrue(rt.alloc(), Kind::Batches, SECOND_TEXTS));
}

#[test]
fn batches_and_admissions(rt: HostRuntime) {
    all_hold_in_memory(&rt, first_untrue(rt.alloc(), Kind::Batches, BATCHES));
}

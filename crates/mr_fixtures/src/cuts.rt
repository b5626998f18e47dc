//! What the command `check` finds of a proof is found of it in small pieces too.

ghost use Rattle.mr_query.specs.Word.{IsAskable};

use crate::runs::words;
use hex::FromHex;
use mr_check::{CheckErr, PieceCheck};
use mr_outside::{MemShelf, MemSink};
use mr_proof::{Fault, Rule};
use mr_query::{Query, read_query};
use mr_record::{Record, Version, write_line, write_line2};
use mr_tool::Status::{self, Done, Refused};
use mr_tree::Hash32;
use std::alloc::{AllocError, Global};

// What a proof proves that comes in pieces of this size, and its version.
fn judged<H: Hash32>(
    alloc: Global,
    root: &[u8; 32],
    q: &Query,
    proof: &[u8],
    size: usize,
) -> Result<(Version, Vec<Record>), CheckErr>
    requires { IsAskable q.now }
{
    let mut intake = PieceCheck::<H>::new(alloc, root, q)?;
    for piece in proof.chunks(size.max(1)) {
        intake = intake.take(piece)?;
    }
    intake.end()
}

// A line of this version for each record; one with a layer is left out of those of version 1.
fn answer(alloc: Global, version: Version, records: &[Record]) -> Result<Vec<u8>, AllocError> {
    let mut out = MemSink::new(alloc, Vec::new(alloc));
    for record in records {
        let _ = match version {
            Version::One if record.layer == 0 => write_line(&mut out, record),
            Version::Two if record.layer < 64 => write_line2(&mut out, record),
            _ => Ok(()),
        };
    }
    out.bytes().to_vec(alloc)
}

fn refusal(alloc: Global, fault: &Fault) -> Result<String, AllocError> {
    let rule = fault.rule.name();
    let mut line = format!(in alloc; "refused {rule} at {}", fault.at)?;
    if let Rule::WrongRoot { found } = &fault.rule {
        line.push_str(" found ")?;
        line.push_str(hex::encode(alloc, found)?.as_str())?;
    }
    line.push('\n')?;
    Ok(line)
}

// What is to be printed of it.
fn printed(
    alloc: Global,
    found: Result<(Version, Vec<Record>), CheckErr>,
) -> Result<Vec<u8>, AllocError> {
    match found {
        Ok((version, records)) => answer(alloc, version, &records),
        Err(CheckErr::Fault(fault)) => refusal(alloc, &fault)?.as_bytes().to_vec(alloc),
        Err(CheckErr::NoMemory) => Err(AllocError),
    }
}

// Whether this is to be printed of a proof in pieces of 1, 7 and 4,096 bytes.
fn is_printed<H: Hash32>(
    alloc: Global,
    root: &[u8; 32],
    q: &Query,
    proof: &[u8],
    text: &[u8],
) -> Result<bool, AllocError>
    requires { IsAskable q.now }
{
    for size in [1, 7, 4096] {
        let found = judged::<H>(alloc, root, q, proof, size);
        if printed(alloc, found)?.as_slice() != text {
            return Ok(false);
        }
    }
    Ok(true)
}

// The same, for the words of a root digest and of a query.
fn is_printed_for<H: Hash32>(
    alloc: Global,
    root: &str,
    query: &str,
    proof: Option<&[u8]>,
    text: &[u8],
) -> Result<bool, AllocError> {
    let Ok(root) = <[u8; 32] as FromHex>::from_hex(root) else {
        return Ok(false);
    };
    let Ok(q) = read_query(query) else {
        return Ok(false);
    };
    match proof {
        Some(proof) => is_printed::<H>(alloc, &root, &q, proof, text),
        None => Ok(false),
    }
}

/// Whether a command line, if it judged a proof of these files, printed what is to be printed of it
/// in pieces of 1, 7 and 4,096 bytes.
pub fn agrees<H: Hash32>(
    alloc: Global,
    line: &str,
    shelf: &MemShelf,
    ended: Status,
    text: &[u8],
) -> Result<bool, AllocError> {
    if ended != Done && ended != Refused {
        return Ok(true);
    }
    let words = words(alloc, line)?;
    match words.as_slice() {
        [name, root, query, proof] => match name.as_str() {
            "check" => {
                let proof = shelf.file(proof.as_str());
                is_printed_for::<H>(alloc, root.as_str(), query.as_str(), proof, text)
            }
            _ => Ok(true),
        },
        _ => Ok(true),
    }
}

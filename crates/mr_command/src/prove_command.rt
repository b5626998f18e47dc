//! The command `prove`.

ghost use Rattle.mr_query.specs.Word.{IsAskable};
ghost use Rattle.mr_command.specs.Ending.{RunsPlan, IsCarriedOut};
ghost use Rattle.mr_command.specs.private.Steps.{KeepsProof};
ghost use Rattle.mr_plan.specs.Plan.{comes};
ghost use Rattle.mr_plan.specs.Say.{say_written};
ghost use Rattle.mr_plan.specs.declared.words.Command.TheVariants as commands;

use crate::ending::{Ending, Halt};
use crate::fetching::unfetched;
use crate::opening::{lacks_proof, open_paged, without_proof};
use crate::saving::save_text;
use mr_bundle::{Text, proof_of_nodes};
use mr_outside::Shelf;
use mr_plan::proof_line;
use mr_query::Query;
use mr_tree::{Hash32, NodesErr};
use std::alloc::Global;

// A proof in a file, and the line on it.
pub(crate) fn write_proof<S: Shelf>(
    alloc: Global,
    name: &str,
    bytes: &[u8],
    shelf: &mut S,
) -> Result<Ending, Halt>
    ensures { RunsPlan (comes (say_written name.now bytes.now)) (S.state shelf.old)
        (S.state shelf.new) result }
{
    let line = proof_line(alloc, bytes.len())?;
    save_text(alloc, line, name, bytes, shelf)
}

// A proof in a file, or what the command comes to without a node of the map.
pub(crate) fn keep_proof<S: Shelf>(
    alloc: Global,
    map: &str,
    name: &str,
    made: &Result<Text, NodesErr>,
    shelf: &mut S,
) -> Result<Ending, Halt>
    ensures { KeepsProof map.now name.now made.now (S.state shelf.old) (S.state shelf.new)
        result }
{
    match made {
        Ok(text) => write_proof(alloc, name, text.bytes(), shelf),
        Err(error) => unfetched(alloc, map, error),
    }
}

/// The proof for a query on the map in a file, written to another one, where the map has one. The
/// shelf is handed back.
pub fn prove_query<H: Hash32, S: Shelf>(
    alloc: Global,
    map: &str,
    query: &Query,
    proof: &str,
    shelf: S,
) -> (Result<Ending, Halt>, S)
    requires { IsAskable query.now }
    ensures { IsCarriedOut H.of (commands.Prove map.entry query.now proof.entry) (S.state shelf)
        (S.state result.1) result.0 }
{
    match open_paged::<H, S>(alloc, map, shelf) {
        Err(ended) => ended,
        Ok(paged) => {
            if lacks_proof(paged.version(), query) {
                return (without_proof(alloc), paged.close());
            }
            let mut paged = paged;
            let made = proof_of_nodes(alloc, &mut paged, query);
            let mut shelf = paged.close();
            let came = keep_proof(alloc, map, proof, &made, &mut shelf);
            (came, shelf)
        }
    }
}

//! The command `count`.

ghost use Rattle.std.specs.Prelude.{◌≡◌, true, ◌+◌, ◌≤◌, IfOk, IfErr, IfSome, OnOk};
ghost use Rattle.mr_record.specs.declared.version.Version.TheVariants.{Two};
ghost use Rattle.mr_tree.specs.Digest.{by};
ghost use Rattle.mr_tree.specs.Nodes.{HasSomeCause, TellsRefusal};
ghost use Rattle.mr_bundle.specs.Proofs.{as_given, IsLastRefusal};
ghost use Rattle.mr_proof.specs.Honest.{proof_for, opened_for};
ghost use Rattle.mr_proof.specs.Tight.{Question};
ghost use Rattle.mr_command.specs.Ending.{IsCarriedOut};
ghost use Rattle.mr_command.specs.private.Windows.{ways_inside};
ghost use Rattle.mr_plan.specs.Counts.{count_question};
ghost use Rattle.mr_plan.specs.Say.{lacks_proof_for};
ghost use Rattle.mr_plan.specs.Words.{IsWindow};
ghost use Rattle.mr_plan.specs.declared.words.Command.TheVariants as commands;

use crate::counted::{COUNT_LETTER, inside_of};
use crate::ending::{Ending, Halt};
use crate::opening::{open_paged, without_proof};
use crate::prove_command::keep_proof;
use mr_bundle::Text;
use mr_count::{Inside, WriteErr, prove_choice};
use mr_outside::Shelf;
use mr_query::Query;
use mr_record::Version;
use mr_tree::{Hash32, Nodes, NodesErr};
use std::alloc::Global;

// Whether a map of this version has no proof of what has proofs of version 2 alone.
fn needs_two(version: Version) -> bool
    ensures { (asked : Question) → asked.two_only ≡ true → result ≡ lacks_proof_for version asked }
{
    match version {
        Version::One => true,
        Version::Two => false,
    }
}

// The proof of a count on the map of these nodes, which is of version 2, or why one of them was not
// fetched.
fn count_proof<N: Nodes>(alloc: Global, nodes: &mut N, inside: &Inside) -> Result<Text, NodesErr>
    requires { (N.stands nodes.old).version ≡ Two }
    ensures kept { N.kept nodes.old nodes.new }
    ensures written { IfSome (N.stands nodes.old).tree (λ t. IfOk result (λ text. text.bytes.items
        ≡ proof_for (by Two N.Hash.of) (count_question (ways_inside inside.now)) t
        (N.stands nodes.old).batch)) }
    ensures fetched { IfSome (N.stands nodes.old).tree (λ t. N.fetches nodes.new ≤
        N.fetches nodes.old + opened_for (by Two N.Hash.of)
        (count_question (ways_inside inside.now)) t) }
    ensures cause { IfErr result (HasSomeCause (N.stands nodes.old) (N.faults nodes.old)
        (N.faults nodes.new)) }
    ensures quiet { OnOk result (N.faults nodes.new ≡ N.faults nodes.old) }
    // Told or not, what a fetch refused is what is answered, unless memory ran out.
    ensures refused { IfErr result (IsLastRefusal (N.refusal nodes.new)) }
    ensures answered { TellsRefusal as_given (N.refusal nodes.old) (N.refusal nodes.new) result }
{
    let mut out = Text::new(alloc);
    match prove_choice(nodes, inside, COUNT_LETTER, &mut out) {
        Ok(()) => Ok(out),
        Err(WriteErr::NoMemory) => Err(NodesErr::NoMemory),
        Err(WriteErr::Nodes(error)) => Err(error),
        Err(WriteErr::Sink) => unreachable!(),
    }
}

/// Writes a proof of how many records of the map in a file lie inside the window of a query and are
/// on one of the layers that it asks for. It goes to another file, where the map is of version 2.
/// The shelf is handed back.
pub fn count<H: Hash32, S: Shelf>(
    alloc: Global,
    map: &str,
    query: &Query,
    proof: &str,
    shelf: S,
) -> (Result<Ending, Halt>, S)
    requires { IsWindow query.now.shape }
    ensures { IsCarriedOut H.of (commands.Count map.entry query.now proof.entry) (S.state shelf)
        (S.state result.1) result.0 }
{
    match open_paged::<H, S>(alloc, map, shelf) {
        Err(ended) => ended,
        Ok(paged) => {
            if needs_two(paged.version()) {
                return (without_proof(alloc), paged.close());
            }
            let inside = inside_of(query);
            let mut paged = paged;
            let made = count_proof(alloc, &mut paged, &inside);
            let mut shelf = paged.close();
            let came = keep_proof(alloc, map, proof, &made, &mut shelf);
            (came, shelf)
        }
    }
}

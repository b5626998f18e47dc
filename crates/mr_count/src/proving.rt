//! The proof for a choice.

ghost use Rattle.std.specs.Prelude.{◌≡◌, ◌+◌, ◌≤◌, OnOk, OnErr, IfErr, IfSome};
ghost use Rattle.mr_outside.specs.Told.{TakesBytes, TakesFront};
ghost use Rattle.mr_record.specs.declared.version.Version.TheVariants.{Two};
ghost use Rattle.mr_tree.specs.Digest.{by};
ghost use Rattle.mr_tree.specs.Nodes.{TellsRefusal};
ghost use Rattle.mr_proof.specs.Honest.{proof_for, opened_for};
ghost use Rattle.mr_prove.specs.Causes.{ProveCauses, IsHandedOn, of_nodes};
ghost use Rattle.mr_count.specs.Chosen.{chosen};
ghost use Rattle.mr_count.specs.Accepted.{AcceptsHonestChoice};

use crate::Choice;
use crate::chosen::{Chosen, choice_is_lawful};
use mr_outside::Sink;
use mr_proof::honest_proof_is_accepted;
use mr_prove::{ProveErr, prove_question};
use mr_tree::Nodes;

/// Writes the proof for a choice, of a map of version 2, with this letter as its kind: that of the
/// cut which opens just the nodes whose way is `Open`, from the root down. Where the tree is told,
/// the bytes are `proof_for` of it, which a client accepts, and no more nodes are fetched than the
/// cut opens. It takes no memory beyond what the nodes and the sink take. After a refusal some
/// front of the proof was taken.
pub fn prove_choice<N: Nodes, C: Choice, W: Sink>(
    nodes: &mut N,
    choice: &C,
    kind: u8,
    out: &mut W,
) -> Result<(), ProveErr>
    requires { (N.stands nodes.old).version ≡ Two }
    ensures kept { N.kept nodes.old nodes.new }
    ensures written { IfSome (N.stands nodes.old).tree (λ t. OnOk result
        (TakesBytes (W.state out.old) (W.state out.new)
        (proof_for (by (N.stands nodes.old).version N.Hash.of) (chosen kind (C.ways choice.now)) t
        (N.stands nodes.old).batch))) }
    ensures front { IfSome (N.stands nodes.old).tree (λ t. OnErr result
        (TakesFront (W.state out.old) (W.state out.new)
        (proof_for (by (N.stands nodes.old).version N.Hash.of) (chosen kind (C.ways choice.now)) t
        (N.stands nodes.old).batch))) }
    ensures fetched { IfSome (N.stands nodes.old).tree (λ t. N.fetches nodes.new ≤
        N.fetches nodes.old + opened_for (by (N.stands nodes.old).version N.Hash.of)
        (chosen kind (C.ways choice.now)) t) }
    ensures causes { ProveCauses (N.stands nodes.old) (N.faults nodes.old) (N.faults nodes.new)
        (W.state out.old) (W.state out.new) result }
    ensures refused { IfErr result (IsHandedOn (N.refusal nodes.new)) }
    ensures answered { TellsRefusal of_nodes (N.refusal nodes.old) (N.refusal nodes.new) result }
    ensures accepted { AcceptsHonestChoice N.Hash.of kind (C.ways choice.now) }
{
    choice_is_lawful(choice, kind);
    honest_proof_is_accepted::<N::Hash>();
    let chosen = Chosen {
        choice,
        letter: kind,
    };
    prove_question(nodes, &chosen, out)
}

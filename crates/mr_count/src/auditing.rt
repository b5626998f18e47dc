//! The audit of a proof for a choice.

ghost use Rattle.std.specs.Prelude.{◌≡◌, ◌+◌, ◌≤◌, ◌<◌, ◌^◌, IfOk, IfErr, IfSome};
ghost use Rattle.mr_tree.specs.Digest.{by};
ghost use Rattle.mr_tree.specs.Nodes.{TellsRefusal};
ghost use Rattle.mr_clash.specs.Causes.{AuditCauses, IsHandedOn, of_nodes};
ghost use Rattle.mr_clash.specs.QuestionFindings.{IsQuestionFinding, QuestionFindingFor, QuestionFindingCollides, FindsHonestProof, FetchesFor, opened_checked_by};
ghost use Rattle.mr_proof.specs.Honest.{opened_for, IsProofFor};
ghost use Rattle.mr_count.specs.Chosen.{chosen};
ghost use Rattle.mr_count.specs.Finding.{found_for, FindsHonestChoice, GivesChosen, FindsForChoice, BreaksNoFlag, GivesFitting, ShowsCollision};

use crate::chosen::{Chosen, choice_is_lawful};
use crate::finding::finding_of;
use crate::{Choice, ChoiceFinding};
use mr_clash::{AuditErr, QuestionFinding, audit_question};
use mr_proof::{accepted_matches_honest, honest_proof_is_accepted};
use mr_tree::Nodes;
use std::alloc::Global;

// What the type tells of its value.
fn is_word(_batch: u64)
    ensures { _batch < 2 ^ 64 }
{}

// What the bytes are worth for the choice's question.
fn question_finding<N: Nodes, C: Choice>(
    alloc: Global,
    nodes: &mut N,
    choice: &C,
    kind: u8,
    proof: &[u8],
) -> Result<QuestionFinding, AuditErr>
    ensures kept { N.kept nodes.old nodes.new }
    ensures causes { AuditCauses (N.stands nodes.old) (N.faults nodes.old) (N.faults nodes.new)
        result }
    ensures refused { IfErr result (IsHandedOn (N.refusal nodes.new)) }
    ensures answered { TellsRefusal of_nodes (N.refusal nodes.old) (N.refusal nodes.new) result }
    ensures told { IfSome (N.stands nodes.old).tree (λ t. IfOk result
        (IsQuestionFinding (by (N.stands nodes.old).version N.Hash.of) t (N.stands nodes.old).batch
        (chosen kind (C.ways choice.now)) proof.now)) }
    ensures honest { IfSome (N.stands nodes.old).tree (λ t. IfOk result
        (FindsHonestProof (by (N.stands nodes.old).version N.Hash.of) t (N.stands nodes.old).batch
        (chosen kind (C.ways choice.now)) proof.now)) }
    ensures judged { IfOk result (QuestionFindingFor N.Hash.of (N.stands nodes.old)
        (N.says nodes.old) (chosen kind (C.ways choice.now)) proof.now) }
    ensures collides { IfOk result (QuestionFindingCollides N.Hash.of) }
    ensures fetches { FetchesFor N.Hash.of (N.stands nodes.old) (N.says nodes.old)
        (chosen kind (C.ways choice.now)) proof.now (N.fetches nodes.old) (N.fetches nodes.new) }
    ensures fetched { IfSome (N.stands nodes.old).tree (λ t. N.fetches nodes.new ≤
        N.fetches nodes.old + opened_checked_by (by (N.stands nodes.old).version N.Hash.of) t
        (N.stands nodes.old).batch (chosen kind (C.ways choice.now)) proof.now) }
{
    choice_is_lawful(choice, kind);
    let chosen = Chosen {
        choice,
        letter: kind,
    };
    audit_question(alloc, nodes, &chosen, proof)
}

/// What the bytes of a proof for a choice are worth against the map itself, in proofs with this
/// letter: whether they are refused, are the honest proof, or show a collision.
///
/// The proof is checked as a client checks it, against the root digest of the map. Bytes that are
/// accepted are then compared with the map, as `mr_clash::audit` does. A map of version 1 has no
/// honest proof, so that accepted bytes show a collision there.
pub fn audit_choice<N: Nodes, C: Choice>(
    alloc: Global,
    nodes: &mut N,
    choice: &C,
    kind: u8,
    proof: &[u8],
) -> Result<ChoiceFinding, AuditErr>
    ensures kept { N.kept nodes.old nodes.new }
    ensures causes { AuditCauses (N.stands nodes.old) (N.faults nodes.old) (N.faults nodes.new)
        result }
    ensures refused { IfErr result (IsHandedOn (N.refusal nodes.new)) }
    ensures answered { TellsRefusal of_nodes (N.refusal nodes.old) (N.refusal nodes.new) result }
    ensures told { IfSome (N.stands nodes.old).tree (λ t. IfOk result (λ v. v
        ≡ found_for (by (N.stands nodes.old).version N.Hash.of) t (N.stands nodes.old).batch
        kind (C.ways choice.now) proof.now)) }
    // Just the honest proof is found to be sound, and of a map of version 1 none; and what it gives
    // is of the map.
    ensures honest { IfSome (N.stands nodes.old).tree (λ t. IfOk result
        (FindsHonestChoice (by (N.stands nodes.old).version N.Hash.of) t (N.stands nodes.old).batch
        kind (C.ways choice.now) proof.now)) }
    ensures given { IfSome (N.stands nodes.old).tree (λ t. IfOk result
        (GivesChosen t (C.ways choice.now))) }
    // Told or not, what is found goes by the verdict against the root digest of what the map says
    // of itself.
    ensures judged { IfOk result (FindsForChoice N.Hash.of (N.stands nodes.old) (N.says nodes.old)
        kind (C.ways choice.now) proof.now) }
    ensures fits { IfOk result GivesFitting }
    ensures collides { IfOk result (ShowsCollision N.Hash.of) }
    // No rule on a flag or a squared radius is broken, since there is none.
    ensures rules { IfOk result BreaksNoFlag }
    // No more nodes are fetched than accepted bytes open, and none for bytes that are refused: by
    // that verdict, and where the tree is told, by the verdict against the root digest of that.
    ensures fetches { FetchesFor N.Hash.of (N.stands nodes.old) (N.says nodes.old)
        (chosen kind (C.ways choice.now)) proof.now (N.fetches nodes.old) (N.fetches nodes.new) }
    ensures fetched { IfSome (N.stands nodes.old).tree (λ t. N.fetches nodes.new ≤
        N.fetches nodes.old + opened_checked_by (by (N.stands nodes.old).version N.Hash.of) t
        (N.stands nodes.old).batch (chosen kind (C.ways choice.now)) proof.now) }
    // For the honest proof these are the nodes that its cut opens.
    ensures fetched_honest { IfSome (N.stands nodes.old).tree (λ t.
        IsProofFor (by (N.stands nodes.old).version N.Hash.of) (chosen kind (C.ways choice.now)) t
        (N.stands nodes.old).batch proof.now → N.fetches nodes.new ≤ N.fetches nodes.old
        + opened_for (by (N.stands nodes.old).version N.Hash.of)
        (chosen kind (C.ways choice.now)) t) }
{
    choice_is_lawful(choice, kind);
    accepted_matches_honest::<N::Hash>(proof);
    honest_proof_is_accepted::<N::Hash>();
    let top = nodes.top();
    is_word(top.batch);
    let finding = question_finding(alloc, nodes, choice, kind, proof)?;
    Ok(finding_of(finding))
}

//! The audit of a proof, whatever it has to show.

ghost use Rattle.std.specs.Prelude.{◌≡◌, ◌+◌, ◌≤◌, IfOk, IfErr, IfSome, option_map};
ghost use Rattle.mr_outside.specs.Bytes.{AreBytes};
ghost use Rattle.mr_tree.specs.Digest.{by};
ghost use Rattle.mr_tree.specs.Nodes.{TellsRefusal};
ghost use Rattle.mr_proof.specs.Tight.{IsLawful};
ghost use Rattle.mr_clash.specs.Causes.{AuditCauses, IsHandedOn, of_nodes};
ghost use Rattle.mr_clash.specs.QuestionFindings.{IsQuestionFinding, QuestionFindingFor, QuestionFindingCollides, QuestionFindingOf, opened_checked_by, FetchesFor, FindsHonestProof, DeclinesCheck};
ghost use Rattle.mr_clash.specs.private.Steps.{pair_of, AreByteStrings};

use crate::AuditErr;
use crate::auditing::{are_words, compare_map, root_of};
use crate::finding::Clash;
use mr_check::{CheckErr, Collected, check_question};
use mr_outside::Items;
use mr_proof::{AsQuestion, Fault, accepted_matches_honest, honest_proof_is_accepted};
use mr_tree::Nodes;
use std::alloc::Global;

/// What the audit of a proof finds, whatever the proof has to show.
#[derive(Drop)]
pub enum QuestionFinding {
    /// The proof is refused.
    Refused(Fault),
    /// It is the proof that an honest server gives, and this is what it shows.
    Sound(Collected),
    /// Two byte strings that differ and have one hash: the owner's, and the one that the proof
    /// shows in its place.
    Collision(Items<u8>, Items<u8>),
}

// What is found of bytes that are not accepted.
fn declined(error: CheckErr) -> Result<QuestionFinding, AuditErr>
    ensures { DeclinesCheck error result }
{
    match error {
        CheckErr::Fault(fault) => Ok(QuestionFinding::Refused(fault)),
        CheckErr::NoMemory => Err(AuditErr::NoMemory),
    }
}

// What the types tell of their values.
fn are_bytes(_bytes: &[u8])
    ensures { AreBytes _bytes.now }
{}

fn are_strings(pair: &Option<Clash>)
    ensures { IfSome (option_map pair_of pair.now) AreByteStrings }
{
    if let Some(clash) = pair {
        are_bytes(&clash.owned);
        are_bytes(&clash.shown);
    }
}

// What is found of bytes that are accepted and show this.
fn question_finding_of(collected: Collected, pair: Option<Clash>) -> QuestionFinding
    ensures { QuestionFindingOf collected (option_map pair_of pair) result }
{
    match pair {
        None => QuestionFinding::Sound(collected),
        Some(clash) => QuestionFinding::Collision(Items::of(clash.owned), Items::of(clash.shown)),
    }
}

// What is found of the bytes of a proof.
fn audited_by<N: Nodes, A: AsQuestion>(
    alloc: Global,
    nodes: &mut N,
    q: &A,
    proof: &[u8],
) -> Result<QuestionFinding, AuditErr>
    requires { IsLawful (A.question q.now) }
    ensures kept { N.kept nodes.old nodes.new }
    ensures causes { AuditCauses (N.stands nodes.old) (N.faults nodes.old) (N.faults nodes.new)
        result }
    ensures refused { IfErr result (IsHandedOn (N.refusal nodes.new)) }
    ensures answered { TellsRefusal of_nodes (N.refusal nodes.old) (N.refusal nodes.new) result }
    ensures told { IfSome (N.stands nodes.old).tree (λ t. IfOk result
        (IsQuestionFinding (by (N.stands nodes.old).version N.Hash.of) t (N.stands nodes.old).batch
        (A.question q.now) proof.now)) }
    ensures judged { IfOk result (QuestionFindingFor N.Hash.of (N.stands nodes.old)
        (N.says nodes.old) (A.question q.now) proof.now) }
    ensures collides { IfOk result (QuestionFindingCollides N.Hash.of) }
    ensures fetches { FetchesFor N.Hash.of (N.stands nodes.old) (N.says nodes.old)
        (A.question q.now) proof.now (N.fetches nodes.old) (N.fetches nodes.new) }
    ensures fetched { IfSome (N.stands nodes.old).tree (λ t. N.fetches nodes.new ≤
        N.fetches nodes.old + opened_checked_by (by (N.stands nodes.old).version N.Hash.of) t
        (N.stands nodes.old).batch (A.question q.now) proof.now) }
{
    let top = nodes.top();
    are_words(top.batch, top.count);
    match check_question::<N::Hash, A>(alloc, &root_of::<N::Hash>(&top), q, proof) {
        Err(error) => declined(error),
        Ok(collected) => {
            let pair = compare_map(alloc, nodes, &top, q.kind(), proof)?;
            are_strings(&pair);
            Ok(question_finding_of(collected, pair))
        }
    }
}

/// What the bytes of a proof are worth against the map itself, whatever the proof has to show.
///
/// The proof is checked as a client checks it, against the root digest of the map. Bytes that are
/// accepted are then compared with the map, as `audit` does.
pub fn audit_question<N: Nodes, A: AsQuestion>(
    alloc: Global,
    nodes: &mut N,
    q: &A,
    proof: &[u8],
) -> Result<QuestionFinding, AuditErr>
    requires { IsLawful (A.question q.now) }
    ensures kept { N.kept nodes.old nodes.new }
    ensures causes { AuditCauses (N.stands nodes.old) (N.faults nodes.old) (N.faults nodes.new)
        result }
    ensures refused { IfErr result (IsHandedOn (N.refusal nodes.new)) }
    ensures answered { TellsRefusal of_nodes (N.refusal nodes.old) (N.refusal nodes.new) result }
    ensures told { IfSome (N.stands nodes.old).tree (λ t. IfOk result
        (IsQuestionFinding (by (N.stands nodes.old).version N.Hash.of) t (N.stands nodes.old).batch
        (A.question q.now) proof.now)) }
    // Just the honest proof is found to be sound, and of a map of version 1 none where only proofs
    // of version 2 may come.
    ensures honest { IfSome (N.stands nodes.old).tree (λ t. IfOk result
        (FindsHonestProof (by (N.stands nodes.old).version N.Hash.of) t (N.stands nodes.old).batch
        (A.question q.now) proof.now)) }
    // Told or not, what is found goes by the verdict against the root digest of what the map says
    // of itself, and so does how many nodes are fetched. That is no more than accepted bytes open,
    // and none for others.
    ensures judged { IfOk result (QuestionFindingFor N.Hash.of (N.stands nodes.old)
        (N.says nodes.old) (A.question q.now) proof.now) }
    ensures collides { IfOk result (QuestionFindingCollides N.Hash.of) }
    ensures fetches { FetchesFor N.Hash.of (N.stands nodes.old) (N.says nodes.old)
        (A.question q.now) proof.now (N.fetches nodes.old) (N.fetches nodes.new) }
    ensures fetched { IfSome (N.stands nodes.old).tree (λ t. N.fetches nodes.new ≤
        N.fetches nodes.old + opened_checked_by (by (N.stands nodes.old).version N.Hash.of) t
        (N.stands nodes.old).batch (A.question q.now) proof.now) }
{
    honest_proof_is_accepted::<N::Hash>();
    accepted_matches_honest::<N::Hash>(proof);
    let top = nodes.top();
    are_words(top.batch, top.count);
    audited_by(alloc, nodes, q, proof)
}

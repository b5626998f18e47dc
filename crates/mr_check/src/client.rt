//! The check of a whole proof.

ghost use Rattle.std.specs.Prelude.{◌≡◌, IfOk, Err};
ghost use Rattle.mr_record.specs.declared.version.Version.{Version};
ghost use Rattle.mr_tree.specs.Digest.{by};
ghost use Rattle.mr_proof.specs.declared.rule.Fault.{Fault};
ghost use Rattle.mr_query.specs.Word.{IsAskable};
ghost use Rattle.mr_proof.specs.Tight.{question};
ghost use Rattle.mr_proof.specs.Accepted.{ProvesAnswer};
ghost use Rattle.mr_proof.specs.Feeding.{HandsOpened};
ghost use Rattle.mr_proof.specs.Refused.{IsRefused};
ghost use Rattle.mr_proof.specs.Reading.{verdict};
ghost use Rattle.mr_proof.specs.Halves.{AcceptsJust, RefusesJust, OneHalf, SpellsOne, FindsPair, StaysRefused, AcceptsHonest};
ghost use Rattle.mr_proof.specs.Headline.{Headline, AcceptedIsHonest, OthersFail};
ghost use Rattle.mr_check.specs.declared.error.CheckErr.TheVariants as errors;
ghost use Rattle.mr_check.specs.Answers.{AnswersVerdict};

use crate::{CheckErr, answer_of, check_question};
use mr_proof::{accepted_is_honest, honest_is_accepted, query_is_lawful};
use mr_query::{Query, is_query};
use mr_record::Record;
use mr_tree::Hashes;
use std::alloc::Global;

// What is answered for a proof.
fn answered_by<H: Hashes>(
    alloc: Global,
    root: &[u8; 32],
    q: &Query,
    proof: &[u8],
) -> Result<Vec<Record>, CheckErr>
    requires { IsAskable q.now }
    ensures { AnswersVerdict result (verdict H.of root.now q.now proof.now) }
{
    is_query(q);
    query_is_lawful(q);
    let collected = check_question::<H, Query>(alloc, root, q, proof)?;
    Ok(answer_of(collected, q)?)
}

/// The records that the proof proves to be the answer to the query on the map with this root
/// digest. Those of a window stand in rising number, the nearest by rising distance, and of one
/// distance by rising number.
///
/// A proof that proves nothing is refused with the first rule that it breaks. The proof is read
/// once, from the front; kept are the records in reach of the query, and a hasher, a rectangle, a
/// mask and a count for each of at most eight levels. The work is in proportion to the proof's
/// length, and that of a sort of the records that were kept. A `Judge` takes the proof in pieces.
pub fn check<H: Hashes>(
    alloc: Global,
    root: &[u8; 32],
    q: &Query,
    proof: &[u8],
) -> Result<Vec<Record>, CheckErr>
    requires { IsAskable q.now }
    // What is answered: the verdict, which is an answer or a fault, for each string just one.
    ensures exact { AnswersVerdict result (verdict H.of root.now q.now proof.now) }
    ensures accepts { AcceptsJust H.of root.now q.now proof.now }
    ensures refuses { RefusesJust H.of root.now q.now proof.now }
    ensures one_half { OneHalf H.of root.now q.now proof.now }
    // What an answer is worth: the bytes prove it; they are the honest proof of the map with this
    // root, and it is the answer of a scan, or the hash function has a collision. The honest proof
    // of a map, where there is one, is accepted, and any other string is refused or shows a
    // collision.
    ensures proved { IfOk result (λ v. ProvesAnswer H.of root.now q.now proof.now v.items) }
    ensures complete { (v : Version) → AcceptsHonest (by v H.of) q.now }
    ensures headline { (v : Version) → Headline (by v H.of) q.now proof.now }
    ensures accepted { (v : Version) → AcceptedIsHonest (by v H.of) q.now proof.now }
    ensures other_strings { (v : Version) → OthersFail (by v H.of) q.now proof.now }
    // Why a proof is refused: the fault is the first rule that it breaks, and stays so behind
    // whatever follows.
    ensures broken { (f : Fault) → result ≡ Err (errors.Fault f)
        → IsRefused H.of root.now (question q.now) proof.now f }
    ensures longer { StaysRefused H.of root.now (question q.now) proof.now }
    // What the bytes spell: one head and cut at most, which reading finds, and of which the opened
    // records are handed out.
    ensures one_pair { SpellsOne proof.now }
    ensures pair { FindsPair proof.now }
    ensures handed { HandsOpened (question q.now) proof.now }
{
    is_query(q);
    honest_is_accepted::<H>(q);
    accepted_is_honest::<H>(q, proof);
    answered_by::<H>(alloc, root, q, proof)
}

//! The records of a proof that comes in pieces, whatever it has to show.

ghost use Rattle.std.specs.Prelude.{◌++◌, [], List, ℕ, IfOk, IfErr};
ghost use Rattle.mr_record.specs.declared.version.Version.{Version};
ghost use Rattle.mr_tree.specs.Digest.{by};
ghost use Rattle.mr_proof.specs.Tight.{IsLawful};
ghost use Rattle.mr_proof.specs.Halves.{ShowsJust, FaultsJust, SpellsOneOf, FindsPairOf, StaysRefused, AcceptsHonestProof};
ghost use Rattle.mr_proof.specs.Headline.{AcceptedMatchesHonest};
ghost use Rattle.mr_proof.specs.Feeding.{IsUnsettled, HandsOpened};
ghost use Rattle.mr_check.specs.Judged.{Took, IsStopped, AnswersCollected};
ghost use Rattle.mr_check.specs.private.Pieces.{TakesNextPiece};

use crate::outline::Collected;
use crate::{CheckErr, Fed, Verifier};
use mr_proof::{AsQuestion, accepted_matches_honest, honest_proof_is_accepted};
use mr_record::Record;
use mr_tree::Hashes;
use std::alloc::{AllocError, Global};

/// A proof that is checked as it comes, against one root digest: its verifier, and the records that
/// were handed out so far. The bytes are not kept.
#[derive(Drop)]
pub struct Collector<H: Hashes> {
    verifier: Verifier<H>,
    kept: Vec<Record>,
}

// Feeds a piece, and keeps the records that it hands out.
fn gather<H: Hashes, A: AsQuestion>(
    q: &A,
    verifier: &mut Verifier<H>,
    piece: &[u8],
    kept: &mut Vec<Record>,
) -> Result<(), CheckErr>
    ensures { TakesNextPiece H.of H.holds (A.question q.now) verifier.old verifier.new piece.now
        kept.old.items
        kept.new.items result }
{
    let mut at = 0;
    loop {
        let (_, rest) = piece.split_at(at);
        match verifier.feed(q, rest) {
            Fed::More => return Ok(()),
            Fed::Found { taken, item } => {
                kept.push(item)?;
                at += taken;
            }
            Fed::Fault(fault) => return Err(CheckErr::Fault(fault)),
        }
    }
}

impl<H: Hashes> Collector<H> {
    ghost use Rattle.mr_check.specs.Judged.{HasCollected};

    /// A proof of which nothing has come yet. Room is made for all that reading needs, and later
    /// for the records alone.
    pub fn new<A: AsQuestion>(
        alloc: Global,
        root: &[u8; 32],
        q: &A,
    ) -> Result<Collector<H>, AllocError>
        requires { IsLawful (A.question q.now) }
        ensures { IfOk result (λ h. HasCollected H.of H.holds root.now (A.question q.now) h []) }
    {
        let verifier = Verifier::<H>::new(alloc, root, q)?;
        Ok(Collector {
            verifier,
            kept: Vec::new(alloc),
        })
    }

    /// Takes the next piece of the proof. A fault is answered just where it is that of every proof
    /// that begins with the bytes so far, so that no more need be read. A collector that refused a
    /// piece is gone.
    pub fn take<A: AsQuestion>(self, q: &A, piece: &[u8]) -> Result<Collector<H>, CheckErr>
        ensures taken { IfOk result (λ h. (root : List ℕ) (bytes : List ℕ)
            → HasCollected H.of H.holds root (A.question q.now) self bytes
            → HasCollected H.of H.holds root (A.question q.now) h (bytes ++ piece.now)
            × IsUnsettled H.of root (A.question q.now) (bytes ++ piece.now)) }
        ensures refused { IfErr result (λ e. (root : List ℕ) (bytes : List ℕ)
            → HasCollected H.of H.holds root (A.question q.now) self bytes
            → IsStopped H.of root (A.question q.now) (bytes ++ piece.now) e) }
    {
        let mut collector = self;
        gather(q, &mut collector.verifier, piece, &mut collector.kept)?;
        Ok(collector)
    }

    /// The verdict of the bytes that were taken, and what they show.
    pub fn end<A: AsQuestion>(self, q: &A) -> Result<Collected, CheckErr>
        ensures exact { (root : List ℕ) (bytes : List ℕ)
            → HasCollected H.of H.holds root (A.question q.now) self bytes
            → AnswersCollected H.of root (A.question q.now) bytes result }
        // What accepted bytes are worth: they are the honest proof, or show a collision.
        ensures accepted { (v : Version) (root : List ℕ) (bytes : List ℕ)
            → HasCollected H.of H.holds root (A.question q.now) self bytes
            → AcceptedMatchesHonest (by v H.of) (A.question q.now) bytes }
    {
        let outline = self.verifier.end(q)?;
        Ok(Collected {
            outline,
            records: self.kept,
        })
    }
}

// What is answered for a proof.
fn collected_by<H: Hashes, A: AsQuestion>(
    alloc: Global,
    root: &[u8; 32],
    q: &A,
    proof: &[u8],
) -> Result<Collected, CheckErr>
    requires { IsLawful (A.question q.now) }
    ensures { AnswersCollected H.of root.now (A.question q.now) proof.now result }
{
    let collector = Collector::<H>::new(alloc, root, q)?;
    let taken = collector.take(q, proof)?;
    taken.end(q)
}

/// What a whole proof shows of the map with this root digest, or why it is refused.
pub fn check_question<H: Hashes, A: AsQuestion>(
    alloc: Global,
    root: &[u8; 32],
    q: &A,
    proof: &[u8],
) -> Result<Collected, CheckErr>
    requires { IsLawful (A.question q.now) }
    // What is answered: the verdict, which is the head and cut that the bytes show, or their fault.
    ensures exact { AnswersCollected H.of root.now (A.question q.now) proof.now result }
    ensures shows { ShowsJust H.of root.now (A.question q.now) proof.now }
    ensures faults { FaultsJust H.of root.now (A.question q.now) proof.now }
    // What accepted bytes are worth: they are the honest proof of the map with this root, and show
    // its head and cut, or the hash function has a collision. The honest proof of a map, where
    // there is one, is accepted.
    ensures accepted { (v : Version) → AcceptedMatchesHonest (by v H.of) (A.question q.now)
        proof.now }
    ensures complete { (v : Version) → AcceptsHonestProof (by v H.of) (A.question q.now) }
    // A fault stays so behind whatever follows.
    ensures longer { StaysRefused H.of root.now (A.question q.now) proof.now }
    // What the bytes spell: one head and cut at most, which reading finds, and of which the opened
    // records are handed out.
    ensures one_pair { SpellsOneOf (A.question q.now).kind proof.now }
    ensures pair { FindsPairOf (A.question q.now).kind proof.now }
    ensures handed { HandsOpened (A.question q.now) proof.now }
{
    honest_proof_is_accepted::<H>();
    accepted_matches_honest::<H>(proof);
    collected_by::<H, A>(alloc, root, q, proof)
}

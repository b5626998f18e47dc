//! The check of a proof that comes in pieces.

ghost use Rattle.std.specs.Prelude.{◌≡◌, ◌++◌, [], List, ℕ, IfOk, IfErr};
ghost use Rattle.mr_query.specs.Word.{IsAskable};
ghost use Rattle.mr_query.specs.Scan.{scan};
ghost use Rattle.mr_query.specs.declared.query.Query as queries;
ghost use Rattle.mr_proof.specs.Tight.{question};
ghost use Rattle.mr_proof.specs.Feeding.{IsUnsettled};
ghost use Rattle.mr_proof.specs.Reading.{verdict};
ghost use Rattle.mr_check.specs.Versions.{AnswersBeside, proof_version as version_of};
ghost use Rattle.mr_check.specs.Judged.{IsStopped};

use crate::arranging::arrange;
use crate::{CheckErr, Collected, Collector};
use mr_proof::query_is_lawful;
use mr_query::{Query, answer, is_query};
use mr_record::{Record, Version};
use mr_tree::Hashes;
use std::alloc::{AllocError, Global};

/// A proof that is checked as it comes, for one query against one root digest, with the records
/// that were handed out so far. The bytes are not kept.
#[derive(Drop)]
pub struct PieceCheck<H: Hashes> {
    query: Query,
    collector: Collector<H>,
}

/// The version of the proof that some bytes are, where they are one: byte 4 tells it.
pub fn proof_version(bytes: &[u8]) -> Version
    ensures { result ≡ version_of bytes.now }
{
    if bytes.len() > 4 && bytes[4] == 2 {
        Version::Two
    } else {
        Version::One
    }
}

/// The scan of the records that were collected: the answer to the query, where they were collected
/// for its question.
pub fn answer_of(collected: Collected, q: &Query) -> Result<Vec<Record>, AllocError>
    ensures { IfOk result (λ v. v.items ≡ scan collected.records.items q.now) }
{
    let mut kept = collected.records;
    arrange(&mut kept, q)?;
    answer(kept, q)
}

impl<H: Hashes> PieceCheck<H> {
    ghost use Rattle.mr_check.specs.Judged.{IsTaken};

    /// A proof of which nothing has come yet. Room is made for all that judging needs, and later
    /// for the records alone.
    pub fn new(alloc: Global, root: &[u8; 32], q: &Query) -> Result<PieceCheck<H>, AllocError>
        requires { IsAskable q.now }
        ensures { IfOk result (λ i. IsTaken H.of H.holds root.now q.now i []) }
    {
        is_query(q);
        query_is_lawful(q);
        let collector = Collector::<H>::new(alloc, root, q)?;
        Ok(PieceCheck {
            query: *q,
            collector,
        })
    }

    /// Takes the next piece of the proof. A fault is answered just where it is that of every proof
    /// that begins with the bytes so far, so that no more need be read. A check that refused a
    /// piece is gone.
    pub fn take(self, piece: &[u8]) -> Result<PieceCheck<H>, CheckErr>
        ensures taken { IfOk result (λ i. (root : List ℕ) (q : queries.Query) (bytes : List ℕ)
            → IsTaken H.of H.holds root q self bytes
            → IsTaken H.of H.holds root q i (bytes ++ piece.now)
            × IsUnsettled H.of root (question q) (bytes ++ piece.now)) }
        ensures refused { IfErr result (λ e. (root : List ℕ) (q : queries.Query) (bytes : List ℕ)
            → IsTaken H.of H.holds root q self bytes
            → IsStopped H.of root (question q) (bytes ++ piece.now) e) }
    {
        let query = self.query;
        let collector = self.collector.take(&query, piece)?;
        Ok(PieceCheck { query, collector })
    }

    /// What `check` answers for the bytes that were taken, and beside an answer the version of the
    /// proof.
    pub fn end(self) -> Result<(Version, Vec<Record>), CheckErr>
        ensures { (root : List ℕ) (q : queries.Query) (bytes : List ℕ)
            → IsTaken H.of H.holds root q self bytes
            → AnswersBeside bytes result (verdict H.of root q bytes) }
    {
        let query = self.query;
        let collected = self.collector.end(&query)?;
        let version = collected.outline.head.version;
        Ok((version, answer_of(collected, &query)?))
    }
}

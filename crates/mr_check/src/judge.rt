//! The client as it is fed a proof in pieces.

ghost use Rattle.std.specs.Prelude.{◌≡◌, ◌++◌, [], ℕ, List, length, IfOk};
ghost use Rattle.mr_record.specs.declared.version.Version.{Version};
ghost use Rattle.mr_tree.specs.Digest.{by};
ghost use Rattle.mr_query.specs.Word.{IsAskable};
ghost use Rattle.mr_query.specs.declared.query.Query as queries;
ghost use Rattle.mr_proof.specs.Tight.{question};
ghost use Rattle.mr_proof.specs.Feeding.{EndsFeeding, HandsOpened};
ghost use Rattle.mr_proof.specs.Headline.{AcceptedIsHonest, OthersFail};
ghost use Rattle.mr_check.specs.Answers.{TakesFrom, taken_of, FeedsPiece};

use crate::ending::accepted_are_honest;
use crate::fed::Fed;
use crate::verifier::Verifier;
use mr_proof::{Fault, query_is_lawful};
use mr_query::{Query, is_query};
use mr_tree::Hashes;
use std::alloc::{AllocError, Global};

/// Judges a proof for one query against one root digest, as its bytes come in pieces of any size.
/// It is a `Verifier` for the query's question, which says what is kept and how contracts speak of
/// it.
#[derive(Drop)]
pub struct Judge<H: Hashes> {
    query: Query,
    verifier: Verifier<H>,
}

impl<H: Hashes> Judge<H> {
    ghost use Rattle.mr_check.specs.Judged.{WasFedForQuery};

    /// A judge that was fed nothing. It makes room for all that it will need.
    pub fn new(alloc: Global, root: &[u8; 32], q: &Query) -> Result<Judge<H>, AllocError>
        requires { IsAskable q.now }
        ensures { IfOk result (λ j. WasFedForQuery H.of H.holds root.now q.now j []) }
    {
        is_query(q);
        query_is_lawful(q);
        let verifier = Verifier::<H>::new(alloc, root, q)?;
        Ok(Judge {
            query: *q,
            verifier,
        })
    }

    /// Takes the next piece of the proof, up to the first record in reach of the query that it
    /// completes, or to the first fault that no further byte changes. Each later call answers that
    /// fault again. It takes no memory. The records that are found are proved to be nothing yet:
    /// what they are worth is said by `end`.
    pub fn feed(&mut self, piece: &[u8]) -> Fed
        ensures taken { TakesFrom (length piece.now) result }
        ensures stands { (root : List ℕ) (q : queries.Query) (bytes : List ℕ)
            → WasFedForQuery H.of H.holds root q self.old bytes
            → WasFedForQuery H.of H.holds root q self.new (bytes ++ taken_of result piece.now) }
        ensures fed { (root : List ℕ) (q : queries.Query) (bytes : List ℕ)
            → WasFedForQuery H.of H.holds root q self.old bytes
            → FeedsPiece H.of root (question q) bytes piece.now result }
    {
        self.verifier.feed(&self.query, piece)
    }

    /// The verdict of the bytes that were fed, which is that of `check`. It takes no memory.
    pub fn end(self) -> Result<(), Fault>
        ensures verdict { (root : List ℕ) (q : queries.Query) (bytes : List ℕ)
            → WasFedForQuery H.of H.holds root q self bytes → EndsFeeding H.of root q bytes result }
        ensures accepted { (v : Version) (root : List ℕ) (q : queries.Query) (bytes : List ℕ)
            → WasFedForQuery H.of H.holds root q self bytes → AcceptedIsHonest (by v H.of) q bytes }
        ensures other_strings { (v : Version) (root : List ℕ) (q : queries.Query) (bytes : List ℕ)
            → WasFedForQuery H.of H.holds root q self bytes → OthersFail (by v H.of) q bytes }
        ensures handed { (root : List ℕ) (q : queries.Query) (bytes : List ℕ)
            → WasFedForQuery H.of H.holds root q self bytes → HandsOpened (question q) bytes }
    {
        accepted_are_honest::<H>();
        self.verifier.end(&self.query)?;
        Ok(())
    }
}

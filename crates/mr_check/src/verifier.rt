//! A proof as it is read in pieces, whatever it has to show.

ghost use Rattle.std.specs.Prelude.{◌≡◌, ◌++◌, [], ℕ, List, None, length, IfOk};
ghost use Rattle.mr_record.specs.declared.version.Version as versions;
ghost use Rattle.mr_tree.specs.Digest.{by};
ghost use Rattle.mr_proof.specs.Tight.{Question, IsLawful};
ghost use Rattle.mr_proof.specs.Headline.{AcceptedMatchesHonest};
ghost use Rattle.mr_proof.specs.Feeding.{HandsOpened};
ghost use Rattle.mr_check.specs.Answers.{TakesFrom, taken_of, FeedsPiece};
ghost use Rattle.mr_check.specs.private.Reads.{FitsReader, StandsAt, StandsBy};

use crate::counts::Counts;
use crate::ending::verdict_of;
use crate::fed::Fed;
use crate::feeding::read_piece;
use crate::frame::{Frame, no_frames};
use crate::machine::Machine;
use crate::outline::Outline;
use crate::radius_counts::no_counts;
use crate::reader::Reader;
use crate::stage::{HeadField, Stage};
use mr_outside::Buffer;
use mr_proof::{AsQuestion, Fault, Head};
use mr_record::{Record, Version};
use mr_tree::{Hashes, NodeHasher};
use std::alloc::{AllocError, Global};

/// Reads a proof against one root digest, as its bytes come in pieces of any size. What the proof
/// has to show is given with each call, the same each time: of a call with another nothing is said.
/// It keeps a hasher, a rectangle, a mask and a count for each open node, of which there are at
/// most eight. Besides it keeps four numbers that count what was read, the record that was read
/// last, and at most the 200 bytes of the field that is under way.
///
/// It does not keep the bytes. Contracts go by a relation: a verifier stands for the bytes that it
/// was fed, and what they say of the bytes so far holds for each string that it stands for.
#[derive(Drop)]
pub struct Verifier<H: Hashes> {
    root: [u8; 32],
    reader: Reader<H>,
    ghost fits: { FitsReader reader },
}

// A reader that was fed nothing.
fn fresh<H: Hashes, A: AsQuestion>(alloc: Global, q: &A) -> Result<Reader<H>, AllocError>
    ensures fits { IfOk result FitsReader }
    ensures stands { IfOk result
        (λ r. (r.fault ≡ None) × StandsAt H.of H.holds (A.question q.now) r []) }
{
    let frames = no_frames(alloc)?;
    Ok(Reader {
        machine: Machine {
            head: Head {
                version: Version::One,
                kind: q.kind(),
                batch: 0,
                count: 0,
                radius: None,
                level: 0,
            },
            stage: Stage::Head(HeadField::Magic(q.two_only())),
            frames,
            leaf: Frame {
                node: NodeHasher::<H>::leaf(0),
                left: 0,
            },
            tally: Counts {
                radius: no_counts(),
                whole: 0,
            },
            latest: Record::blank(),
        },
        held: Buffer::new(),
        at: 0,
        fault: None,
    })
}

// A piece, or the fault that was met before it.
fn feed<H: Hashes, A: AsQuestion>(q: &A, r: &mut Reader<H>, piece: &[u8]) -> Fed
    requires { FitsReader r.old }
    ensures fits { FitsReader r.new }
    ensures taken { TakesFrom (length piece.now) result }
    ensures stands { (s : List ℕ)
        → StandsBy H.of H.holds (A.question q.now) r.old r.old.fault s
        → StandsBy H.of H.holds (A.question q.now) r.new r.new.fault
        (s ++ taken_of result piece.now) }
    ensures fed { (root s : List ℕ) → StandsBy H.of H.holds (A.question q.now) r.old r.old.fault s
        → FeedsPiece H.of root (A.question q.now) s piece.now result }
{
    match r.fault {
        Some(fault) => Fed::Fault(fault),
        None => read_piece(q, r, piece),
    }
}

impl<H: Hashes> Verifier<H> {
    ghost use Rattle.mr_check.specs.Judged.{WasFed, EndsAs};

    /// A verifier that was fed nothing. It makes room for all that it will need.
    pub fn new<A: AsQuestion>(
        alloc: Global,
        root: &[u8; 32],
        q: &A,
    ) -> Result<Verifier<H>, AllocError>
        requires { IsLawful (A.question q.now) }
        ensures { IfOk result (λ w. WasFed H.of H.holds root.now (A.question q.now) w []) }
    {
        let reader = fresh::<H, A>(alloc, q)?;
        Ok(Verifier {
            root: *root,
            reader,
        })
    }

    /// Takes the next piece of the proof, up to the first record that is not left out and that it
    /// completes, or to the first fault that no further byte changes. Each later call answers that
    /// fault again. It takes no memory. The records that are found are proved to be nothing yet:
    /// what they are worth is said by `end`.
    pub fn feed<A: AsQuestion>(&mut self, q: &A, piece: &[u8]) -> Fed
        ensures taken { TakesFrom (length piece.now) result }
        ensures stands { (root : List ℕ) (bytes : List ℕ)
            → WasFed H.of H.holds root (A.question q.now) self.old bytes
            → WasFed H.of H.holds root (A.question q.now) self.new
            (bytes ++ taken_of result piece.now) }
        ensures fed { (root : List ℕ) (bytes : List ℕ)
            → WasFed H.of H.holds root (A.question q.now) self.old bytes
            → FeedsPiece H.of root (A.question q.now) bytes piece.now result }
    {
        feed(q, &mut self.reader, piece)
    }

    /// The verdict of the bytes that were fed. It takes no memory.
    pub fn end<A: AsQuestion>(self, q: &A) -> Result<Outline, Fault>
        ensures closing { (root : List ℕ) (bytes : List ℕ)
            → WasFed H.of H.holds root (A.question q.now) self bytes
            → EndsAs H.of root (A.question q.now) bytes result }
        ensures handed { (root : List ℕ) (bytes : List ℕ)
            → WasFed H.of H.holds root (A.question q.now) self bytes
            → HandsOpened (A.question q.now) bytes }
        // What accepted bytes are worth: they are the honest proof, or show a collision.
        ensures accepted { (v : versions.Version) (root : List ℕ) (bytes : List ℕ)
            → WasFed H.of H.holds root (A.question q.now) self bytes
            → AcceptedMatchesHonest (by v H.of) (A.question q.now) bytes }
    {
        verdict_of::<H, A>(&self.root, q, &self.reader)
    }
}

//! The pairs of a join, by its frame.

ghost use Rattle.std.specs.Prelude.{◌≡◌, Err};
ghost use Rattle.mr_count.specs.Inside.{lies_in};
ghost use Rattle.mr_outside.specs.Bytes.{AreBytes};
ghost use Rattle.mr_join.specs.Frame.{ReadsJust};
ghost use Rattle.mr_join.specs.Parts.{ReadsParts};
ghost use Rattle.mr_join.specs.Verdict.{is_rect, pairs_behind, frame_verdict, join_verdict, AnswersJoin, MayBreakJoin};
ghost use Rattle.mr_join.specs.declared.fault.JoinFault as faults;
ghost use Rattle.mr_join.specs.Accepted.{AcceptedJoinIsHonest, AcceptsHonestJoin};
ghost use Rattle.mr_join.specs.private.Answers.{Answers, GivesJoined};
ghost use Rattle.mr_join.specs.private.Frames.{frame_value};

use crate::checking::{first_records, second_taken};
use crate::frame::{Frame, frame_of};
use crate::honest::{accepted_join_is_honest, honest_join_is_accepted};
use crate::pairing::pairs_of;
use crate::{FrameRule, JoinErr, JoinFault, Pairs};
use mr_count::Taken;
use mr_geom::Rect;
use mr_outside::Items;
use mr_record::Record;
use mr_tree::Hashes;
use std::alloc::Global;

// What the type tells of its value.
pub(crate) fn are_bytes(_bytes: &[u8])
    ensures { AreBytes _bytes.now }
{}

// Whether the first lies in the second.
fn lies_in(one: &Rect, other: &Rect) -> bool
    ensures { result ≡ lies_in one.now other.now }
{
    let _corners = one.corners();
    one.inside(other)
}

// Whether the rectangle is this one.
fn is_rect(rect: &Rect, found: &Option<Rect>) -> bool
    ensures { result ≡ is_rect rect.now found.now }
{
    match found {
        None => false,
        Some(found) => lies_in(rect, found) && lies_in(found, rect),
    }
}

// The pairs, where the frame says of the second map what its proof does.
fn pairs_behind(
    alloc: Global,
    rect: &Option<Rect>,
    at: u64,
    records: &[Record],
    taken: &Taken,
) -> Result<Pairs, JoinErr>
    ensures { Answers result (pairs_behind rect.now at records.now taken.now) }
{
    match rect {
        None => {
            if taken.count != 0 {
                let rule = FrameRule::WrongFlag;
                return Err(JoinErr::Fault(JoinFault::Frame { rule, at }));
            }
        }
        Some(rect) => {
            if !is_rect(rect, &taken.rect) {
                let rule = FrameRule::WrongRect;
                return Err(JoinErr::Fault(JoinFault::Frame { rule, at }));
            }
        }
    }
    let pairs = pairs_of(alloc, records, taken.records.as_slice())?;
    Ok(Items::of(pairs))
}

/// The pairs of a join, and the records of the first map that meet the second one's rectangle.
#[derive(Drop)]
pub(crate) struct Joined {
    pub(crate) records: Items<Record>,
    pub(crate) pairs: Pairs,
}

/// What the parts of the frame give, of two maps with these root digests; the place is the length
/// of the whole proof.
pub(crate) fn join_parts<F: Hashes, G: Hashes>(
    alloc: Global,
    first: &[u8; 32],
    second: &[u8; 32],
    at: u64,
    frame: &Frame<'_>,
) -> Result<Joined, JoinErr>
    ensures { GivesJoined (record { of = F.of; root = first.now })
        (record { of = G.of; root = second.now }) at (frame_value frame.now) result }
{
    let records = first_records::<F>(alloc, first, frame)?;
    let taken = second_taken::<G>(alloc, second, records.as_slice(), frame.second)?;
    let pairs = pairs_behind(alloc, &frame.rect, at, records.as_slice(), &taken)?;
    Ok(Joined { records, pairs })
}

// The pairs alone.
fn pairs_in<H: Hashes>(
    alloc: Global,
    first: &[u8; 32],
    second: &[u8; 32],
    at: u64,
    frame: &Frame<'_>,
) -> Result<Pairs, JoinErr>
    ensures { Answers result (frame_verdict (record { of = H.of; root = first.now })
        (record { of = H.of; root = second.now }) at (frame_value frame.now)) }
{
    let joined = join_parts::<H, H>(alloc, first, second, at, frame)?;
    Ok(joined.pairs)
}

/// The pairs of records, one of each of the maps with these root digests, whose rectangles meet; or
/// the first rule that the proof breaks. The maps are of version 2.
///
/// Rules are tried in this order: of the frame's fields, of the first map's proof, of the second
/// map's proof, and whether the frame says of the second map what its proof does. Both proofs are
/// read once, from the front. A question is a search among the rectangles, and the pairs are found
/// so too.
#[tactic(auto, unfolding(crate::specs::Verdict::join_verdict))]
pub fn check_join<H: Hashes>(
    alloc: Global,
    first: &[u8; 32],
    second: &[u8; 32],
    proof: &[u8],
) -> Result<Pairs, JoinErr>
    ensures exact { AnswersJoin result (join_verdict (record { of = H.of; root = first.now })
        (record { of = H.of; root = second.now }) proof.now) }
    // What the bytes hold: one frame at most, which reading finds, and what that of its parts
    // finds.
    ensures frame { ReadsJust proof.now }
    ensures parts { ReadsParts (record { of = H.of; root = first.now })
        (record { of = H.of; root = second.now }) proof.now }
    // No rule on a flag or a squared radius is broken in a part, since there is none.
    ensures rules { (f : faults.JoinFault) → join_verdict (record { of = H.of; root = first.now })
        (record { of = H.of; root = second.now }) proof.now ≡ Err f → MayBreakJoin f }
    // What accepted bytes are worth: they are the honest proof of the two maps with these roots,
    // and give all their pairs, or the hash function has a collision. The honest proof of any two
    // maps of version 2 is accepted, and shows no collision.
    ensures accepted { AcceptedJoinIsHonest H.of H.of proof.now }
    ensures complete { AcceptsHonestJoin H.of H.of }
{
    accepted_join_is_honest::<H, H>(proof);
    honest_join_is_accepted::<H, H>();
    match frame_of(proof) {
        Err(fault) => Err(JoinErr::Fault(fault)),
        Ok(frame) => {
            are_bytes(frame.first);
            are_bytes(frame.second);
            pairs_in::<H>(alloc, first, second, proof.len() as u64, &frame)
        }
    }
}

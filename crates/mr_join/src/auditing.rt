//! The audit of a join's proof.

ghost use Rattle.std.specs.Prelude.{◌≡◌, ℕ, ◌+◌, ◌≤◌, List, IfOk, IfErr, IfSome};
ghost use Rattle.mr_record.specs.declared.version.Version.TheVariants.{Two};
ghost use Rattle.mr_tree.specs.Tree.{rect};
ghost use Rattle.mr_tree.specs.Digest.{by};
ghost use Rattle.mr_tree.specs.Nodes.{TellsRefusal};
ghost use Rattle.mr_clash.specs.Causes.{AuditCauses, IsHandedOn, of_nodes};
ghost use Rattle.mr_join.specs.Accepted.{owned, held, join_proof};
ghost use Rattle.mr_join.specs.Causes.{watched, JoinAuditCauses, IsAuditHandedByOne};
ghost use Rattle.mr_join.specs.Fetches.{first_opens, second_opens, join_first_opened, join_second_opened, FetchesForJoin};
ghost use Rattle.mr_join.specs.Finding.{join_found, ShowsCollision, FindsHonestJoin, FindsForJoin, BreaksNoFlag};
ghost use Rattle.mr_join.specs.Meets.{rects_of};
ghost use Rattle.mr_join.specs.private.Frames.{frame_value};
ghost use Rattle.mr_join.specs.private.Judging.{WorthFor, FirstWorthFor, FindsBehind, FindsParts, FindsFrameFor, FirstFetches, MayFetchPart, FrameFetches};
ghost use Rattle.mr_join.specs.private.Worths.{part_worth, first_worth, behind, finding_of_worths, Collides, Declines, FindsFrame};

use crate::checking::{LETTER, rects_of};
use crate::finding::{Worth, finding_behind, worth_of};
use crate::frame::{Frame, frame_of};
use crate::honest::{accepted_join_is_honest, honest_join_is_accepted};
use crate::joining::{Joined, join_parts};
use crate::proving::{is_word, root_of};
use crate::{JoinErr, JoinFault, JoinFinding, Meets};
use mr_count::{FindErr, audit_choice};
use mr_geom::Rect;
use mr_proof::honest_proof_is_accepted;
use mr_record::Record;
use mr_tree::Nodes;
use std::alloc::Global;

// What the proof of a map for some rectangles is worth.
fn audit_part<N: Nodes>(
    alloc: Global,
    nodes: &mut N,
    list: &[Rect],
    proof: &[u8],
) -> Result<Worth, FindErr>
    ensures kept { N.kept nodes.old nodes.new }
    ensures causes { AuditCauses (N.stands nodes.old) (N.faults nodes.old) (N.faults nodes.new)
        result }
    ensures refused { IfErr result (IsHandedOn (N.refusal nodes.new)) }
    ensures answered { TellsRefusal of_nodes (N.refusal nodes.old) (N.refusal nodes.new) result }
    ensures told { IfSome (N.stands nodes.old).tree (λ t. IfOk result (λ w. w
        ≡ part_worth (by (N.stands nodes.old).version N.Hash.of) (owned (N.stands nodes.old) t)
        list.now proof.now)) }
    ensures judged { IfOk result (WorthFor N.Hash.of (N.says nodes.old) list.now proof.now) }
    ensures collides { IfOk result (Collides N.Hash.of) }
    ensures fetches { MayFetchPart N.Hash.of (watched (N.stands nodes.old) (N.fetches nodes.old)
        (N.fetches nodes.new)) (N.says nodes.old) list.now proof.now }
{
    let meets = Meets::of(alloc, list)?;
    let finding = audit_choice(alloc, nodes, &meets, LETTER, proof)?;
    Ok(worth_of(finding))
}

// That of the first part, which is sound where it is not there.
fn audit_first<N: Nodes>(alloc: Global, nodes: &mut N, frame: &Frame<'_>) -> Result<Worth, FindErr>
    ensures kept { N.kept nodes.old nodes.new }
    ensures causes { AuditCauses (N.stands nodes.old) (N.faults nodes.old) (N.faults nodes.new)
        result }
    ensures refused { IfErr result (IsHandedOn (N.refusal nodes.new)) }
    ensures answered { TellsRefusal of_nodes (N.refusal nodes.old) (N.refusal nodes.new) result }
    ensures told { IfSome (N.stands nodes.old).tree (λ t. IfOk result (λ w. w
        ≡ first_worth (by (N.stands nodes.old).version N.Hash.of) (owned (N.stands nodes.old) t)
        frame.now.rect frame.now.first.now)) }
    ensures judged { IfOk result (FirstWorthFor N.Hash.of (N.says nodes.old) frame.now.rect
        frame.now.first.now) }
    ensures collides { IfOk result (Collides N.Hash.of) }
    ensures fetches { FirstFetches N.Hash.of (watched (N.stands nodes.old) (N.fetches nodes.old)
        (N.fetches nodes.new)) (N.says nodes.old) frame.now.rect frame.now.first.now }
{
    match &frame.rect {
        None => Ok(Worth::Sound),
        Some(rect) => {
            let list = [*rect];
            audit_part(alloc, nodes, &list, frame.first)
        }
    }
}

// That of the second part, for the records that the first one gives.
fn audit_second<N: Nodes>(
    alloc: Global,
    nodes: &mut N,
    records: &[Record],
    proof: &[u8],
) -> Result<Worth, FindErr>
    ensures kept { N.kept nodes.old nodes.new }
    ensures causes { AuditCauses (N.stands nodes.old) (N.faults nodes.old) (N.faults nodes.new)
        result }
    ensures refused { IfErr result (IsHandedOn (N.refusal nodes.new)) }
    ensures answered { TellsRefusal of_nodes (N.refusal nodes.old) (N.refusal nodes.new) result }
    ensures told { IfSome (N.stands nodes.old).tree (λ t. IfOk result (λ w. w
        ≡ part_worth (by (N.stands nodes.old).version N.Hash.of) (owned (N.stands nodes.old) t)
        (rects_of records.now) proof.now)) }
    ensures judged { IfOk result (WorthFor N.Hash.of (N.says nodes.old) (rects_of records.now)
        proof.now) }
    ensures collides { IfOk result (Collides N.Hash.of) }
    ensures fetches { MayFetchPart N.Hash.of (watched (N.stands nodes.old) (N.fetches nodes.old)
        (N.fetches nodes.new)) (N.says nodes.old) (rects_of records.now) proof.now }
{
    let list = rects_of(alloc, records)?;
    audit_part(alloc, nodes, &list, proof)
}

// The finding behind a first part that is sound.
fn audit_behind<N: Nodes>(
    alloc: Global,
    nodes: &mut N,
    proof: &[u8],
    joined: Joined,
) -> Result<JoinFinding, FindErr>
    ensures kept { N.kept nodes.old nodes.new }
    ensures causes { AuditCauses (N.stands nodes.old) (N.faults nodes.old) (N.faults nodes.new)
        result }
    ensures refused { IfErr result (IsHandedOn (N.refusal nodes.new)) }
    ensures answered { TellsRefusal of_nodes (N.refusal nodes.old) (N.refusal nodes.new) result }
    ensures told { IfSome (N.stands nodes.old).tree (λ t. IfOk result (λ v. v
        ≡ behind (part_worth (by (N.stands nodes.old).version N.Hash.of)
        (owned (N.stands nodes.old) t) (rects_of joined.records) proof.now) joined.pairs)) }
    ensures judged { IfOk result (FindsBehind N.Hash.of (N.says nodes.old)
        (rects_of joined.records) proof.now joined.pairs) }
    ensures collides { (f : List ℕ → List ℕ) → IfOk result (ShowsCollision f N.Hash.of) }
    ensures fetches { MayFetchPart N.Hash.of (watched (N.stands nodes.old) (N.fetches nodes.old)
        (N.fetches nodes.new)) (N.says nodes.old) (rects_of joined.records) proof.now }
{
    let Joined { records, pairs } = joined;
    let worth = audit_second(alloc, nodes, records.as_slice(), proof)?;
    Ok(finding_behind(worth, pairs))
}

// The finding of a proof whose parts give these pairs.
fn audit_parts<A: Nodes, B: Nodes>(
    alloc: Global,
    first: &mut A,
    second: &mut B,
    frame: &Frame<'_>,
    joined: Joined,
) -> Result<JoinFinding, FindErr>
    ensures kept_first { A.kept first.old first.new }
    ensures kept_second { B.kept second.old second.new }
    ensures causes { JoinAuditCauses (watched (A.stands first.old) (A.faults first.old)
        (A.faults first.new)) (watched (B.stands second.old) (B.faults second.old)
        (B.faults second.new)) result }
    ensures refused { IfErr result
        (IsAuditHandedByOne (A.refusal first.new) (B.refusal second.new)) }
    ensures answered_first { TellsRefusal of_nodes (A.refusal first.old) (A.refusal first.new)
        result }
    ensures answered_second { TellsRefusal of_nodes (B.refusal second.old) (B.refusal second.new)
        result }
    ensures told { IfSome (A.stands first.old).tree (λ t. IfSome (B.stands second.old).tree
        (λ u. IfOk result (λ v. v ≡ finding_of_worths
        (first_worth (by (A.stands first.old).version A.Hash.of) (owned (A.stands first.old) t)
        frame.now.rect frame.now.first.now)
        (part_worth (by (B.stands second.old).version B.Hash.of) (owned (B.stands second.old) u)
        (rects_of joined.records) frame.now.second.now) joined.pairs))) }
    ensures judged { IfOk result (FindsParts A.Hash.of B.Hash.of (A.says first.old)
        (B.says second.old) (frame_value frame.now) (rects_of joined.records) joined.pairs) }
    ensures collides { IfOk result (ShowsCollision A.Hash.of B.Hash.of) }
    ensures fetches_first { FirstFetches A.Hash.of (watched (A.stands first.old)
        (A.fetches first.old) (A.fetches first.new)) (A.says first.old) frame.now.rect
        frame.now.first.now }
    ensures fetches_second { MayFetchPart B.Hash.of (watched (B.stands second.old)
        (B.fetches second.old) (B.fetches second.new)) (B.says second.old)
        (rects_of joined.records) frame.now.second.now }
{
    match audit_first(alloc, first, frame)? {
        Worth::Refused(fault) => Ok(JoinFinding::Refused(JoinFault::First(fault))),
        Worth::Collision(owned, shown) => Ok(JoinFinding::First(owned, shown)),
        Worth::Sound => audit_behind(alloc, second, frame.second, joined),
    }
}

// What is answered where the parts give no pairs.
fn declined(error: JoinErr) -> Result<JoinFinding, FindErr>
    ensures { Declines error result }
{
    match error {
        JoinErr::Fault(fault) => Ok(JoinFinding::Refused(fault)),
        JoinErr::NoMemory => Err(FindErr::NoMemory),
    }
}

// The finding of the frame's parts; the place is the length of the whole proof.
fn audit_frame<A: Nodes, B: Nodes>(
    alloc: Global,
    first: &mut A,
    second: &mut B,
    at: u64,
    frame: &Frame<'_>,
) -> Result<JoinFinding, FindErr>
    ensures kept_first { A.kept first.old first.new }
    ensures kept_second { B.kept second.old second.new }
    ensures causes { JoinAuditCauses (watched (A.stands first.old) (A.faults first.old)
        (A.faults first.new)) (watched (B.stands second.old) (B.faults second.old)
        (B.faults second.new)) result }
    ensures refused { IfErr result
        (IsAuditHandedByOne (A.refusal first.new) (B.refusal second.new)) }
    ensures answered_first { TellsRefusal of_nodes (A.refusal first.old) (A.refusal first.new)
        result }
    ensures answered_second { TellsRefusal of_nodes (B.refusal second.old) (B.refusal second.new)
        result }
    ensures told { IfSome (A.stands first.old).tree (λ t. IfSome (B.stands second.old).tree
        (λ u. IfOk result (FindsFrame (by (A.stands first.old).version A.Hash.of)
        (by (B.stands second.old).version B.Hash.of) (owned (A.stands first.old) t)
        (owned (B.stands second.old) u) at (frame_value frame.now)))) }
    ensures judged { IfOk result (FindsFrameFor A.Hash.of B.Hash.of (A.says first.old)
        (B.says second.old) at (frame_value frame.now)) }
    ensures collides { IfOk result (ShowsCollision A.Hash.of B.Hash.of) }
    ensures fetches { FrameFetches A.Hash.of B.Hash.of
        (watched (A.stands first.old) (A.fetches first.old) (A.fetches first.new))
        (watched (B.stands second.old) (B.fetches second.old) (B.fetches second.new))
        (A.says first.old) (B.says second.old) at (frame_value frame.now) }
{
    let one = first.top();
    let other = second.top();
    let one = root_of::<A::Hash>(&one);
    let other = root_of::<B::Hash>(&other);
    match join_parts::<A::Hash, B::Hash>(alloc, &one, &other, at, frame) {
        Err(error) => declined(error),
        Ok(joined) => audit_parts(alloc, first, second, frame, joined),
    }
}

/// What the bytes of a join's proof are worth against the two maps themselves: whether they are
/// refused, are the honest proof, or show a collision in the first or in the second map.
///
/// The proof is checked as a client checks it, against the root digests of the maps. Of bytes that
/// are accepted first the one part and then the other is compared with its map, as
/// `mr_count::audit_choice` does.
pub fn audit_join<A: Nodes, B: Nodes>(
    alloc: Global,
    first: &mut A,
    second: &mut B,
    proof: &[u8],
) -> Result<JoinFinding, FindErr>
    ensures kept_first { A.kept first.old first.new }
    ensures kept_second { B.kept second.old second.new }
    ensures causes { JoinAuditCauses (watched (A.stands first.old) (A.faults first.old)
        (A.faults first.new)) (watched (B.stands second.old) (B.faults second.old)
        (B.faults second.new)) result }
    ensures refused { IfErr result
        (IsAuditHandedByOne (A.refusal first.new) (B.refusal second.new)) }
    ensures answered_first { TellsRefusal of_nodes (A.refusal first.old) (A.refusal first.new)
        result }
    ensures answered_second { TellsRefusal of_nodes (B.refusal second.old) (B.refusal second.new)
        result }
    ensures told { IfSome (A.stands first.old).tree (λ t. IfSome (B.stands second.old).tree
        (λ u. IfOk result (λ v. v ≡ join_found (by (A.stands first.old).version A.Hash.of)
        (by (B.stands second.old).version B.Hash.of) (owned (A.stands first.old) t)
        (owned (B.stands second.old) u) proof.now))) }
    // Of maps of version 2 just the honest proof is found to be sound, with all their pairs.
    ensures honest { IfSome (A.stands first.old).tree (λ t. IfSome (B.stands second.old).tree
        (λ u. (A.stands first.old).version ≡ Two → (B.stands second.old).version ≡ Two
        → IfOk result (FindsHonestJoin A.Hash.of B.Hash.of (owned (A.stands first.old) t)
        (owned (B.stands second.old) u) proof.now))) }
    // Told or not, what is found goes by the verdict against the root digests of what the maps say
    // of themselves.
    ensures judged { IfOk result (FindsForJoin A.Hash.of B.Hash.of (A.stands first.old)
        (B.stands second.old) (A.says first.old) (B.says second.old) proof.now) }
    // Told or not, two strings that are shown differ and have one hash.
    ensures collides { IfOk result (ShowsCollision A.Hash.of B.Hash.of) }
    // No rule on a flag or a squared radius is broken in a part, since there is none.
    ensures rules { IfOk result BreaksNoFlag }
    // No more nodes of either map are fetched than accepted bytes open, and none for bytes that are
    // refused. That is by the same verdict, and where the trees are told, by the verdict against
    // the root digests of those.
    ensures fetches { FetchesForJoin A.Hash.of B.Hash.of
        (watched (A.stands first.old) (A.fetches first.old) (A.fetches first.new))
        (watched (B.stands second.old) (B.fetches second.old) (B.fetches second.new))
        (A.says first.old) (B.says second.old) proof.now }
    ensures fetched_first { IfSome (A.stands first.old).tree (λ t.
        IfSome (B.stands second.old).tree (λ u. A.fetches first.new ≤ A.fetches first.old
        + join_first_opened (held (by (A.stands first.old).version A.Hash.of)
        (owned (A.stands first.old) t)) (held (by (B.stands second.old).version B.Hash.of)
        (owned (B.stands second.old) u)) proof.now)) }
    ensures fetched_second { IfSome (A.stands first.old).tree (λ t.
        IfSome (B.stands second.old).tree (λ u. B.fetches second.new ≤ B.fetches second.old
        + join_second_opened (held (by (A.stands first.old).version A.Hash.of)
        (owned (A.stands first.old) t)) (held (by (B.stands second.old).version B.Hash.of)
        (owned (B.stands second.old) u)) proof.now)) }
    // For the honest proof of maps of version 2 these are the nodes that its two cuts open.
    ensures fetched_honest_first { IfSome (A.stands first.old).tree (λ t.
        IfSome (B.stands second.old).tree (λ u. (A.stands first.old).version ≡ Two
        → (B.stands second.old).version ≡ Two → proof.now ≡ join_proof A.Hash.of B.Hash.of
        (owned (A.stands first.old) t) (owned (B.stands second.old) u)
        → A.fetches first.new ≤ A.fetches first.old
        + first_opens A.Hash.of (owned (A.stands first.old) t) (rect u))) }
    ensures fetched_honest_second { IfSome (A.stands first.old).tree (λ t.
        IfSome (B.stands second.old).tree (λ u. (A.stands first.old).version ≡ Two
        → (B.stands second.old).version ≡ Two → proof.now ≡ join_proof A.Hash.of B.Hash.of
        (owned (A.stands first.old) t) (owned (B.stands second.old) u)
        → B.fetches second.new ≤ B.fetches second.old
        + second_opens A.Hash.of B.Hash.of (owned (A.stands first.old) t)
        (owned (B.stands second.old) u) (rect u))) }
{
    honest_proof_is_accepted::<A::Hash>();
    honest_proof_is_accepted::<B::Hash>();
    accepted_join_is_honest::<A::Hash, B::Hash>(proof);
    honest_join_is_accepted::<A::Hash, B::Hash>();
    is_word(first.top().batch);
    is_word(second.top().batch);
    match frame_of(proof) {
        Err(fault) => Ok(JoinFinding::Refused(fault)),
        Ok(frame) => audit_frame(alloc, first, second, proof.len() as u64, &frame),
    }
}

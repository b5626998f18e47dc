//! The proof of a join.

ghost use Rattle.std.specs.Prelude.{◌≡◌, ◌+◌, ◌≤◌, ◌<◌, ◌^◌, [], ◌∷◌, ◌++◌, length, IfOk, IfErr, IfSome, OnOk, OnErr, Some, None, Ok, nat_lt, if◌then◌else◌};
ghost use Rattle.std.specs.Int.{w32, to_be_bytes};
ghost use Rattle.mr_outside.specs.Told.{TakesBytes, TakesFront};
ghost use Rattle.mr_record.specs.Record.{rectangle_bytes};
ghost use Rattle.mr_record.specs.declared.version.Version.TheVariants.{Two};
ghost use Rattle.mr_tree.specs.Tree.{rect};
ghost use Rattle.mr_tree.specs.Digest.{by};
ghost use Rattle.mr_tree.specs.Nodes.{TellsRefusal};
ghost use Rattle.mr_tree.specs.WellFormed.{WellFormed};
ghost use Rattle.mr_clash.specs.Finding.{root_at};
ghost use Rattle.mr_proof.specs.Honest.{proof_for, opened_for};
ghost use Rattle.mr_prove.specs.Causes.{ProveCauses, IsHandedOn, of_nodes};
ghost use Rattle.mr_count.specs.Chosen.{chosen, verdict_for};
ghost use Rattle.mr_join.specs.Meets.{meets_way};
ghost use Rattle.mr_join.specs.Frame.{magic, frame_bytes};
ghost use Rattle.mr_join.specs.Verdict.{letter};
ghost use Rattle.mr_join.specs.Accepted.{owned, frame_for, join_proof, AcceptsHonestJoin};
ghost use Rattle.mr_join.specs.Causes.{watched, JoinCauses, IsHandedByOne};
ghost use Rattle.mr_join.specs.Fetches.{part_opens, first_opens, second_opens};
ghost use Rattle.mr_join.specs.private.Parts.{nothing, IsFirstPart, alone_bytes, rect_in};

use crate::Meets;
use crate::checking::{LETTER, rects_of};
use crate::honest::honest_join_is_accepted;
use mr_count::{ChoiceErr, Taken, WriteErr, check_choice, prove_choice};
use mr_geom::Rect;
use mr_outside::{Items, Sink, SinkErr, write_all};
use mr_proof::honest_proof_is_accepted;
use mr_record::{Record, rect_bytes};
use mr_tree::{Hashes, Nodes, Top, root_digest};
use std::alloc::{AllocError, Global};

// What the type tells of its value.
pub(crate) fn is_word(_batch: u64)
    ensures { _batch < 2 ^ 64 }
{}

// The bytes of one part, which takes all that it is given.
#[derive(Drop)]
struct Part {
    bytes: Vec<u8>,
}

impl Sink for Part {
    ghost state = { λ p. record { taken = Some p.bytes.items; faults = 0 } };

    fn write(&mut self, bytes: &[u8]) -> Result<usize, SinkErr> {
        self.bytes.extend_from_slice(bytes)?;
        Ok(bytes.len())
    }
}

// The proof of a map for some rectangles.
fn part_of<N: Nodes>(alloc: Global, nodes: &mut N, meets: &Meets) -> Result<Part, WriteErr>
    requires { (N.stands nodes.old).version ≡ Two }
    ensures kept { N.kept nodes.old nodes.new }
    ensures written { IfSome (N.stands nodes.old).tree (λ t. IfOk result (λ p. p.bytes.items
        ≡ proof_for (by (N.stands nodes.old).version N.Hash.of)
        (chosen letter (meets_way meets.now)) t (N.stands nodes.old).batch)) }
    ensures fetched { IfSome (N.stands nodes.old).tree (λ t. N.fetches nodes.new ≤
        N.fetches nodes.old + opened_for (by (N.stands nodes.old).version N.Hash.of)
        (chosen letter (meets_way meets.now)) t) }
    ensures causes { ProveCauses (N.stands nodes.old) (N.faults nodes.old) (N.faults nodes.new)
        nothing nothing result }
    ensures refused { IfErr result (IsHandedOn (N.refusal nodes.new)) }
    ensures answered { TellsRefusal of_nodes (N.refusal nodes.old) (N.refusal nodes.new) result }
{
    let mut part = Part {
        bytes: Vec::new(alloc),
    };
    prove_choice(nodes, meets, LETTER, &mut part)?;
    Ok(part)
}

// The root digest of the map.
pub(crate) fn root_of<H: Hashes>(top: &Top) -> [u8; 32]
    ensures { result ≡ H.of (root_at top.now) }
{
    root_digest::<H>(top.version, top.batch, top.count, &top.root_entry())
}

// What the bytes of a map's own proof give. Where the tree is told a client accepts them. Nodes
// that are not told may give others, which is answered as want of memory.
fn given_by<H: Hashes>(
    alloc: Global,
    top: &Top,
    meets: &Meets,
    proof: &[u8],
) -> Result<Taken, AllocError>
    ensures { IfOk result (λ x. verdict_for H.of (H.of (root_at top.now)) letter
        (meets_way meets.now) proof.now ≡ Ok x) }
{
    match check_choice::<H, Meets>(alloc, &root_of::<H>(top), meets, LETTER, proof) {
        Ok(taken) => Ok(taken),
        Err(ChoiceErr::Fault(_)) => Err(AllocError),
        Err(ChoiceErr::NoMemory) => Err(AllocError),
    }
}

// The proof of the first map, and the records that it gives.
#[derive(Drop)]
struct FirstPart {
    bytes: Vec<u8>,
    records: Items<Record>,
}

// That for the rectangle.
fn first_part<N: Nodes>(alloc: Global, nodes: &mut N, rect: &Rect) -> Result<FirstPart, WriteErr>
    requires { (N.stands nodes.old).version ≡ Two }
    ensures kept { N.kept nodes.old nodes.new }
    ensures given { IfSome (N.stands nodes.old).tree (λ t. WellFormed t → IfOk result (λ p.
        IsFirstPart N.Hash.of (record { tree = t; batch = (N.stands nodes.old).batch }) rect.now
        p.bytes.items p.records)) }
    ensures fetched { IfSome (N.stands nodes.old).tree (λ t. N.fetches nodes.new ≤
        N.fetches nodes.old
        + part_opens N.Hash.of (owned (N.stands nodes.old) t) (rect.now ∷ [])) }
    ensures causes { ProveCauses (N.stands nodes.old) (N.faults nodes.old) (N.faults nodes.new)
        nothing nothing result }
    ensures refused { IfErr result (IsHandedOn (N.refusal nodes.new)) }
    ensures answered { TellsRefusal of_nodes (N.refusal nodes.old) (N.refusal nodes.new) result }
{
    honest_proof_is_accepted::<N::Hash>();
    let top = nodes.top();
    is_word(top.batch);
    let list = [*rect];
    let meets = Meets::of(alloc, &list)?;
    let part = part_of(alloc, nodes, &meets)?;
    let taken = given_by::<N::Hash>(alloc, &top, &meets, &part.bytes)?;
    Ok(FirstPart {
        bytes: part.bytes,
        records: taken.records,
    })
}

// The length of a part, where the frame has room for it.
fn size_of(part: &[u8]) -> Option<u32>
    ensures { result
        ≡ (if nat_lt (length part.now) (2 ^ 32) then Some (length part.now) else None) }
{
    u32::try_from(part.len()).ok()
}

// The frame's fields in front of the second part, with the first one.
fn framed(alloc: Global, rect: &Rect, part: &[u8]) -> Result<Vec<u8>, AllocError>
    ensures { IfOk result (λ v. v.items ≡ magic ++ (1 ∷ (rectangle_bytes rect.now
        ++ (to_be_bytes w32 (length part.now) ++ part.now)))) }
{
    let Some(size) = size_of(part) else {
        return Err(AllocError);
    };
    let mut bytes = Vec::new(alloc);
    bytes.extend_from_slice(b"MRJN\x01")?;
    bytes.extend_from_slice(&rect_bytes(rect))?;
    bytes.extend_from_slice(&size.to_be_bytes())?;
    bytes.extend_from_slice(part)?;
    Ok(bytes)
}

// Writes the bytes and, behind them, the proof of the second map.
fn write_behind<N: Nodes, W: Sink>(
    nodes: &mut N,
    meets: &Meets,
    front: &[u8],
    out: &mut W,
) -> Result<(), WriteErr>
    requires { (N.stands nodes.old).version ≡ Two }
    ensures kept { N.kept nodes.old nodes.new }
    ensures written { IfSome (N.stands nodes.old).tree (λ t. OnOk result
        (TakesBytes (W.state out.old) (W.state out.new) (front.now
        ++ proof_for (by (N.stands nodes.old).version N.Hash.of)
        (chosen letter (meets_way meets.now)) t (N.stands nodes.old).batch))) }
    ensures front { IfSome (N.stands nodes.old).tree (λ t. OnErr result
        (TakesFront (W.state out.old) (W.state out.new) (front.now
        ++ proof_for (by (N.stands nodes.old).version N.Hash.of)
        (chosen letter (meets_way meets.now)) t (N.stands nodes.old).batch))) }
    ensures fetched { IfSome (N.stands nodes.old).tree (λ t. N.fetches nodes.new ≤
        N.fetches nodes.old + opened_for (by (N.stands nodes.old).version N.Hash.of)
        (chosen letter (meets_way meets.now)) t) }
    ensures causes { ProveCauses (N.stands nodes.old) (N.faults nodes.old) (N.faults nodes.new)
        (W.state out.old) (W.state out.new) result }
    ensures refused { IfErr result (IsHandedOn (N.refusal nodes.new)) }
    ensures answered { TellsRefusal of_nodes (N.refusal nodes.old) (N.refusal nodes.new) result }
{
    write_all(out, front)?;
    prove_choice(nodes, meets, LETTER, out)
}

// Writes the proof of a join of which the second map has this rectangle.
fn write_both<A: Nodes, B: Nodes, W: Sink>(
    alloc: Global,
    first: &mut A,
    second: &mut B,
    rect: &Rect,
    out: &mut W,
) -> Result<(), WriteErr>
    requires first { (A.stands first.old).version ≡ Two }
    requires second { (B.stands second.old).version ≡ Two }
    ensures kept_first { A.kept first.old first.new }
    ensures kept_second { B.kept second.old second.new }
    ensures written { IfSome (A.stands first.old).tree (λ t. WellFormed t
        → IfSome (B.stands second.old).tree (λ u. OnOk result
        (TakesBytes (W.state out.old) (W.state out.new)
        (frame_bytes (frame_for A.Hash.of B.Hash.of (owned (A.stands first.old) t)
        (owned (B.stands second.old) u) (Some rect.now)))))) }
    ensures front { IfSome (A.stands first.old).tree (λ t. WellFormed t
        → IfSome (B.stands second.old).tree (λ u. OnErr result
        (TakesFront (W.state out.old) (W.state out.new)
        (frame_bytes (frame_for A.Hash.of B.Hash.of (owned (A.stands first.old) t)
        (owned (B.stands second.old) u) (Some rect.now)))))) }
    ensures fetched_first { IfSome (A.stands first.old).tree (λ t.
        A.fetches first.new ≤ A.fetches first.old
        + first_opens A.Hash.of (owned (A.stands first.old) t) (Some rect.now)) }
    ensures fetched_second { IfSome (A.stands first.old).tree (λ t. WellFormed t
        → IfSome (B.stands second.old).tree (λ u. B.fetches second.new ≤ B.fetches second.old
        + second_opens A.Hash.of B.Hash.of (owned (A.stands first.old) t)
        (owned (B.stands second.old) u) (Some rect.now))) }
    ensures causes { JoinCauses (watched (A.stands first.old) (A.faults first.old)
        (A.faults first.new)) (watched (B.stands second.old) (B.faults second.old)
        (B.faults second.new)) (W.state out.old) (W.state out.new) result }
    ensures refused { IfErr result (IsHandedByOne (A.refusal first.new) (B.refusal second.new)) }
    ensures answered_first { TellsRefusal of_nodes (A.refusal first.old) (A.refusal first.new)
        result }
    ensures answered_second { TellsRefusal of_nodes (B.refusal second.old) (B.refusal second.new)
        result }
{
    let part = first_part(alloc, first, rect)?;
    let front = framed(alloc, rect, &part.bytes)?;
    let list = rects_of(alloc, part.records.as_slice())?;
    let meets = Meets::of(alloc, &list)?;
    write_behind(second, &meets, &front, out)
}

// Writes the proof of a join of which the second map is empty.
fn write_alone<N: Nodes, W: Sink>(alloc: Global, nodes: &mut N, out: &mut W) -> Result<(), WriteErr>
    requires { (N.stands nodes.old).version ≡ Two }
    ensures kept { N.kept nodes.old nodes.new }
    ensures written { IfSome (N.stands nodes.old).tree (λ u. OnOk result
        (TakesBytes (W.state out.old) (W.state out.new)
        (alone_bytes N.Hash.of (owned (N.stands nodes.old) u)))) }
    ensures front { IfSome (N.stands nodes.old).tree (λ u. OnErr result
        (TakesFront (W.state out.old) (W.state out.new)
        (alone_bytes N.Hash.of (owned (N.stands nodes.old) u)))) }
    ensures fetched { IfSome (N.stands nodes.old).tree (λ u. N.fetches nodes.new ≤
        N.fetches nodes.old + part_opens N.Hash.of (owned (N.stands nodes.old) u) []) }
    ensures causes { ProveCauses (N.stands nodes.old) (N.faults nodes.old) (N.faults nodes.new)
        (W.state out.old) (W.state out.new) result }
    ensures refused { IfErr result (IsHandedOn (N.refusal nodes.new)) }
    ensures answered { TellsRefusal of_nodes (N.refusal nodes.old) (N.refusal nodes.new) result }
{
    let list: [Rect; 0] = [];
    let meets = Meets::of(alloc, &list)?;
    write_behind(nodes, &meets, b"MRJN\x00", out)
}

// The rectangle of the map, where it has records.
fn rect_of(top: &Top) -> Option<Rect>
    ensures { result ≡ rect_in top.now.root }
{
    match &top.root {
        None => None,
        Some(root) => Some(root.rect),
    }
}

/// Writes the proof of the join of two maps of version 2. Where both trees are told, the bytes are
/// `join_proof` of them, which a client accepts, and no more nodes are fetched of either map than
/// its part opens.
///
/// The first map's proof is made first, and kept with the records that it gives. The second map is
/// asked for those that meet one of them, and its proof goes out as it is made. After a refusal
/// some front of the proof was taken. It is answered as want of memory too where a tree is not told
/// and its own proof is refused. So it is where the first map's proof has 2^32 bytes or more, which
/// is of no tree that is told.
pub fn prove_join<A: Nodes, B: Nodes, W: Sink>(
    alloc: Global,
    first: &mut A,
    second: &mut B,
    out: &mut W,
) -> Result<(), WriteErr>
    requires first { (A.stands first.old).version ≡ Two }
    requires second { (B.stands second.old).version ≡ Two }
    ensures kept_first { A.kept first.old first.new }
    ensures kept_second { B.kept second.old second.new }
    ensures written { IfSome (A.stands first.old).tree (λ t. IfSome (B.stands second.old).tree
        (λ u. OnOk result (TakesBytes (W.state out.old) (W.state out.new)
        (join_proof A.Hash.of B.Hash.of (owned (A.stands first.old) t)
        (owned (B.stands second.old) u))))) }
    ensures front { IfSome (A.stands first.old).tree (λ t. IfSome (B.stands second.old).tree
        (λ u. OnErr result (TakesFront (W.state out.old) (W.state out.new)
        (join_proof A.Hash.of B.Hash.of (owned (A.stands first.old) t)
        (owned (B.stands second.old) u))))) }
    ensures fetched_first { IfSome (A.stands first.old).tree (λ t.
        IfSome (B.stands second.old).tree (λ u. A.fetches first.new ≤ A.fetches first.old
        + first_opens A.Hash.of (owned (A.stands first.old) t) (rect u))) }
    ensures fetched_second { IfSome (A.stands first.old).tree (λ t.
        IfSome (B.stands second.old).tree (λ u. B.fetches second.new ≤ B.fetches second.old
        + second_opens A.Hash.of B.Hash.of (owned (A.stands first.old) t)
        (owned (B.stands second.old) u) (rect u))) }
    ensures causes { JoinCauses (watched (A.stands first.old) (A.faults first.old)
        (A.faults first.new)) (watched (B.stands second.old) (B.faults second.old)
        (B.faults second.new)) (W.state out.old) (W.state out.new) result }
    ensures refused { IfErr result (IsHandedByOne (A.refusal first.new) (B.refusal second.new)) }
    ensures answered_first { TellsRefusal of_nodes (A.refusal first.old) (A.refusal first.new)
        result }
    ensures answered_second { TellsRefusal of_nodes (B.refusal second.old) (B.refusal second.new)
        result }
    ensures complete { AcceptsHonestJoin A.Hash.of B.Hash.of }
{
    honest_join_is_accepted::<A::Hash, B::Hash>();
    let top = second.top();
    match rect_of(&top) {
        None => write_alone(alloc, second, out),
        Some(rect) => write_both(alloc, first, second, &rect, out),
    }
}

//! The records of a leaf.

ghost use Rattle.std.specs.Prelude.{◌≡◌, ◌+◌, ◌^◌, ◌<◌, ◌≤◌, [], List, vec_len};
ghost use Rattle.mr_record.specs.declared.record.Record as types;
ghost use Rattle.mr_check.specs.private.Counting.{CountsRecords};
ghost use Rattle.mr_check.specs.private.Machine.{frames_of, counted_so_far, Above, InTree, IsLeaf, LeafRead, StepsPastField, StepFits, after_record, is_handed_out, ways_at, found_by, plus, behind_length};
ghost use Rattle.mr_record.specs.Record.{payload_limit, HasLayer};
ghost use Rattle.mr_record.specs.Version.{highest_layer};
ghost use Rattle.mr_record.specs.declared.version.Version.TheVariants.{Two};

use crate::closing::{close, is_to_be_opened};
use crate::frame::Frame;
use crate::machine::{Machine, StepResult};
use crate::radius_counts::{RadiusCounts, count};
use crate::stage::Stage;
use mr_geom::Rect;
use mr_proof::{AsQuestion, Head, Rule};
use mr_query::Key;
use mr_record::{Payload, Record};
use mr_tree::{Hashes, NodeHasher};
use std::mem;

// Whether the record is handed out; if so, it is counted.
fn counted<A: AsQuestion>(q: &A, head: &Head, tally: &mut RadiusCounts, one: &Record) -> bool
    requires { HasLayer Two one.now }
    ensures handed_on { result ≡ is_handed_out (A.question q.now) head.now one.now }
    ensures tally { (given : List types.Record) → CountsRecords (A.question q.now).around
        head.now.radius
        given tally.old
        → CountsRecords (A.question q.now).around head.now.radius (plus result given one.now)
        tally.new }
{
    if q.way(head.radius, &Key::of_record(one)).is_kept() {
        count(tally, q.around(), head.radius, one);
        true
    } else {
        false
    }
}

// The open leaf, with another one in its place.
fn taken<H: Hashes>(leaf: &mut Frame<H>) -> Frame<H>
    ensures taken { result ≡ leaf.old }
    ensures empty { leaf.new.node.count ≡ 0 }
{
    let blank = Frame {
        node: NodeHasher::<H>::leaf(0),
        left: 0,
    };
    mem::replace(leaf, blank)
}

fn found(broken: Option<Rule>, handed_on: bool) -> StepResult
    ensures { result ≡ found_by broken handed_on }
{
    match broken {
        Some(rule) => StepResult::Broken(rule),
        None => {
            if handed_on {
                StepResult::Found
            } else {
                StepResult::On
            }
        }
    }
}

// The last record of the open leaf was read.
fn last<H: Hashes, A: AsQuestion>(q: &A, m: &mut Machine<H>, handed_on: bool) -> StepResult
    requires deep { vec_len m.old.frames.list ≤ 7 }
    requires few { counted_so_far m.old < 2 ^ 64 }
    ensures few { counted_so_far m.new ≤ counted_so_far m.old }
    ensures fits { StepFits m.new.head.kind m.new.stage (vec_len m.new.frames.list) result }
    ensures steps { (given : List types.Record) (a : Above)
        → handed_on ≡ is_handed_out (A.question q.now) m.old.head m.old.latest
        → LeafRead H.of H.holds (A.question q.now) m.old.head (frames_of m.old) m.old.tally
        m.old.leaf
        (plus handed_on given m.old.latest) a m.old.latest
        → StepsPastField H.of H.holds (A.question q.now) m.new given (after_record
        (ways_at (A.question q.now) m.old.head) m.old.head
        0 a.nodes a.records m.old.latest) result }
{
    let leaf = taken(&mut m.leaf);
    let node = leaf.node.close(0);
    if !is_to_be_opened(q, &m.head, &node) {
        return StepResult::Broken(Rule::Needless);
    }
    found(close(q, m, &node), handed_on)
}

// One more record of the open leaf was read.
pub(crate) fn record<H: Hashes, A: AsQuestion>(q: &A, m: &mut Machine<H>) -> StepResult
    requires deep { vec_len m.old.frames.list ≤ 7 }
    requires layer { HasLayer Two m.old.latest }
    requires few { counted_so_far m.old + 1 < 2 ^ 64 }
    ensures few { counted_so_far m.new ≤ counted_so_far m.old + 1 }
    ensures fits { StepFits m.new.head.kind m.new.stage (vec_len m.new.frames.list) result }
    ensures steps { (given : List types.Record) (a : Above)
        → IsLeaf m.old.head.version H.holds m.old.leaf a.records
        → InTree H.of H.holds (A.question q.now) m.old.head (frames_of m.old) m.old.tally 0 given a
        → StepsPastField H.of H.holds (A.question q.now) m.new given (after_record
        (ways_at (A.question q.now) m.old.head) m.old.head
        m.old.leaf.left a.nodes a.records m.old.latest) result }
{
    let handed_on = counted(q, &m.head, &mut m.tally.radius, &m.latest);
    m.leaf.node.add_record(m.head.version, &m.latest);
    if m.leaf.left == 0 {
        return last(q, m, handed_on);
    }
    m.leaf.left -= 1;
    m.stage = Stage::Number;
    found(None, handed_on)
}

// The length of a payload.
pub(crate) fn sized<H: Hashes, A: AsQuestion>(
    q: &A,
    m: &mut Machine<H>,
    number: u64,
    rect: &Rect,
    layer: u8,
    length: u8,
) -> StepResult
    requires deep { vec_len m.old.frames.list ≤ 7 }
    requires short { length ≤ payload_limit }
    requires layer { layer ≤ highest_layer Two }
    requires few { counted_so_far m.old + 1 < 2 ^ 64 }
    ensures few { counted_so_far m.new ≤ counted_so_far m.old + 1 }
    ensures fits { StepFits m.new.head.kind m.new.stage (vec_len m.new.frames.list) result }
    ensures steps { (given : List types.Record) (a : Above)
        → IsLeaf m.old.head.version H.holds m.old.leaf a.records
        → InTree H.of H.holds (A.question q.now) m.old.head (frames_of m.old) m.old.tally 0 given a
        → StepsPastField H.of H.holds (A.question q.now) m.new given (behind_length (after_record
        (ways_at (A.question q.now) m.old.head) m.old.head m.old.leaf.left a.nodes a.records)
        number
        rect.now layer length) result }
{
    if length > 0 {
        m.stage = Stage::Payload(number, *rect, layer, length);
        return StepResult::On;
    }
    let payload = no_payload();
    m.latest = Record {
        number,
        rect: *rect,
        layer,
        payload,
    };
    record(q, m)
}

fn no_payload() -> Payload
    ensures { result ≡ [] }
{
    match Payload::new(&[]) {
        Some(none) => none,
        None => unreachable!(),
    }
}

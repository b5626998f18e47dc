//! Nodes that were read whole, and what comes of the open nodes above them.

ghost use Rattle.std.specs.Prelude.{◌≡◌, ◌+◌, ◌-◌, ◌^◌, ◌<◌, ◌≤◌, true, false, List, reverse, option_map, vec_len};
ghost use Rattle.mr_record.specs.declared.record.Record as types;
ghost use Rattle.mr_proof.specs.Cut.{Cut};
ghost use Rattle.mr_proof.specs.Tight.{opens_seen, key_at};
ghost use Rattle.mr_check.specs.private.OpenNodes.{Adds, AddsOnTop, IsLastOnTop};
ghost use Rattle.mr_check.specs.private.Machine.{frames_of, counts_of, counted_so_far, Open, HasReadCut, ClosesNode, CloseFits, after, ways_at};

use crate::frame::{Frame, Stack, pop};
use crate::machine::Machine;
use crate::stage::Stage;
use mr_proof::{AsQuestion, Head, Rule, mask_seen};
use mr_query::Key;
use mr_record::Version;
use mr_tree::{Entry, Hashes};

// Whether the node is to be opened.
pub(crate) fn is_to_be_opened<A: AsQuestion>(q: &A, head: &Head, node: &Entry) -> bool
    ensures { result ≡ opens_seen (ways_at (A.question q.now) head.now)
        (option_map (key_at head.now.version node.now.mask) node.now.rect) }
{
    match node.rect {
        None => false,
        Some(rect) => {
            let mask = mask_seen(head.version, node.mask);
            q.way(head.radius, &Key { rect, mask }).is_open()
        }
    }
}

// Adds an entry to an open node in which more are to come, of which there is then one less.
fn add<H: Hashes>(frame: &mut Frame<H>, version: Version, node: &Entry)
    requires some { 0 < frame.old.left }
    requires few { frame.old.node.count + node.now.count < 2 ^ 64 }
    ensures adds { Adds version H.holds frame.old.node frame.new.node node.now }
    ensures counted { frame.new.node.count ≡ frame.old.node.count + node.now.count }
    ensures left { frame.new.left ≡ frame.old.left - 1 }
{
    frame.node.add_entry(version, node);
    frame.left -= 1;
}

// Whether more entries are to come in the open node on top. If so, this one is added there in
// place: `pop` and `push` would copy what was gathered.
fn goes_on<H: Hashes>(stack: &mut Stack<Frame<H>>, version: Version, node: &Entry) -> bool
    requires { counts_of (reverse stack.old.list.items) + node.now.count < 2 ^ 64 }
    ensures adds { result ≡ true → AddsOnTop version H.holds node.now
        (reverse stack.old.list.items) (reverse stack.new.list.items) }
    ensures last { result ≡ false → IsLastOnTop (reverse stack.old.list.items) }
    ensures same { result ≡ false → stack.new ≡ stack.old }
    ensures deep { vec_len stack.new.list ≡ vec_len stack.old.list }
{
    let deep = stack.list.len();
    if deep == 0 || stack.list[deep - 1].left == 0 {
        return false;
    }
    add(&mut stack.list[deep - 1], version, node);
    true
}

// A node was read whole: what its last field leads to, or the rule that this breaks.
pub(crate) fn close<H: Hashes, A: AsQuestion>(
    q: &A,
    m: &mut Machine<H>,
    node: &Entry,
) -> Option<Rule>
    requires deep { vec_len m.old.frames.list + node.now.level ≤ 7 }
    requires few { counted_so_far m.old + node.now.count < 2 ^ 64 }
    ensures few { counted_so_far m.new ≤ counted_so_far m.old + node.now.count }
    ensures fits { CloseFits m.new.head.kind m.new.stage (vec_len m.new.frames.list) result }
    ensures kept { m.new.latest ≡ m.old.latest }
    ensures closes { (given : List types.Record) (os : List Open) (P : Cut)
        → HasReadCut H.of H.holds (A.question q.now) m.old.head (frames_of m.old) m.old.tally
        node.now
        given os P
        → ClosesNode H.of H.holds (A.question q.now) m.new given
        (after (ways_at (A.question q.now) m.old.head) m.old.head node.now.level os P) result }
{
    if goes_on(&mut m.frames, m.head.version, node) {
        m.stage = Stage::Tag(node.level);
        return None;
    }
    match pop(&mut m.frames) {
        None => {
            m.stage = Stage::End(*node);
            None
        }
        Some(mut frame) => {
            frame.node.add_entry(m.head.version, node);
            let parent = frame.node.close(node.level + 1);
            if !is_to_be_opened(q, &m.head, &parent) {
                return Some(Rule::Needless);
            }
            close(q, m, &parent)
        }
    }
}

//! Items: their tags, pruned parts, and the number of entries of opened nodes.

ghost use Rattle.std.specs.Prelude.{◌≡◌, ◌+◌, ◌^◌, ◌<◌, ◌≤◌, [], List, vec_len};
ghost use Rattle.mr_record.specs.declared.record.Record as types;
ghost use Rattle.mr_proof.specs.Cut.{Pruned, Inner, Leaf};
ghost use Rattle.mr_proof.specs.Limits.{count_limit};
ghost use Rattle.mr_proof.specs.declared.field.Field.{Field};
ghost use Rattle.mr_proof.specs.declared.want.Want.{Want};
ghost use Rattle.mr_proof.specs.Spelling.{Parsed};
ghost use Rattle.mr_proof.specs.Grammar.{Grammar, reads, item, some_items, some_records, opened, unopened};
ghost use Rattle.mr_check.specs.private.Stages.{FitsStage};
ghost use Rattle.mr_check.specs.private.Machine.{frames_of, counted_so_far, Above, InTree, WaitsForField, StepsPastField, StepFits, after, node_next, ways_at, shown_next, behind_mask, stage_of, stepped_by};

use crate::closing::close;
use crate::counts::add_pruned;
use crate::frame::{Frame, push};
use crate::machine::{Machine, StepResult};
use crate::stage::Stage;
use mr_geom::Rect;
use mr_proof::{AsQuestion, PrunedEntry, Rule, mask_seen};
use mr_query::Key;
use mr_record::Version;
use mr_tree::{Hashes, NodeHasher};

// The stage behind a tag.
fn stage_of(level: u8, tag: u8) -> Stage
    ensures { result ≡ stage_of level tag }
{
    if tag == b'P' {
        return Stage::Shown(level);
    }
    if level == 0 {
        Stage::Records
    } else {
        Stage::Entries(level - 1)
    }
}

// The tag of an item of this level.
pub(crate) fn tagged<H: Hashes, A: AsQuestion>(
    q: &A,
    m: &mut Machine<H>,
    level: u8,
    tag: u8,
) -> StepResult
    requires { vec_len m.old.frames.list + level ≤ 7 }
    ensures few { counted_so_far m.new ≡ counted_so_far m.old }
    ensures fits { StepFits m.new.head.kind m.new.stage (vec_len m.new.frames.list) result }
    ensures steps { (given : List types.Record) (a : Above) → a.records ≡ []
        → InTree H.of H.holds (A.question q.now) m.old.head (frames_of m.old) m.old.tally level
        given a
        → StepsPastField H.of H.holds (A.question q.now) m.new given (node_next
        m.old.head.version (ways_at (A.question q.now) m.old.head) level
        (after (ways_at (A.question q.now) m.old.head) m.old.head level a.nodes) tag) result }
{
    m.stage = stage_of(level, tag);
    StepResult::On
}

// The stage, unless the part was to be opened.
fn unopened<H: Hashes, A: AsQuestion>(
    q: &A,
    m: &mut Machine<H>,
    part: &Key,
    stage: Stage,
) -> StepResult
    requires { FitsStage m.old.head.kind stage (vec_len m.old.frames.list) }
    ensures few { counted_so_far m.new ≡ counted_so_far m.old }
    ensures fits { StepFits m.new.head.kind m.new.stage (vec_len m.new.frames.list) result }
    ensures steps { (given : List types.Record) (want : Want) (next : Field → Grammar Parsed)
        → WaitsForField H.of H.holds (A.question q.now) (record m.old { stage = stage }) given
        (reads want next)
        → StepsPastField H.of H.holds (A.question q.now) m.new given
        (unopened (ways_at (A.question q.now) m.old.head) part.now (reads want next)) result }
{
    if q.way(m.head.radius, part).is_open() {
        return StepResult::Broken(Rule::Hidden);
    }
    m.stage = stage;
    StepResult::On
}

// The rectangle of a pruned part.
pub(crate) fn shown<H: Hashes, A: AsQuestion>(
    q: &A,
    m: &mut Machine<H>,
    level: u8,
    rect: &Rect,
) -> StepResult
    requires { vec_len m.old.frames.list + level ≤ 7 }
    ensures few { counted_so_far m.new ≡ counted_so_far m.old }
    ensures fits { StepFits m.new.head.kind m.new.stage (vec_len m.new.frames.list) result }
    ensures steps { (given : List types.Record) (a : Above) → a.records ≡ []
        → InTree H.of H.holds (A.question q.now) m.old.head (frames_of m.old) m.old.tally level
        given a
        → StepsPastField H.of H.holds (A.question q.now) m.new given
        (shown_next m.old.head.version (ways_at (A.question q.now) m.old.head)
        (after (ways_at (A.question q.now) m.old.head) m.old.head level a.nodes) rect.now)
        result }
{
    match m.head.version {
        Version::One => {
            let part = Key {
                rect: *rect,
                mask: mask_seen(Version::One, 0),
            };
            unopened(q, m, &part, Stage::Digest(level, *rect, 0, 0))
        }
        Version::Two => {
            m.stage = Stage::Mask(level, *rect);
            StepResult::On
        }
    }
}

// The mask of a pruned part with this rectangle.
pub(crate) fn masked<H: Hashes, A: AsQuestion>(
    q: &A,
    m: &mut Machine<H>,
    level: u8,
    rect: &Rect,
    mask: u64,
) -> StepResult
    requires { vec_len m.old.frames.list + level ≤ 7 }
    ensures few { counted_so_far m.new ≡ counted_so_far m.old }
    ensures fits { StepFits m.new.head.kind m.new.stage (vec_len m.new.frames.list) result }
    ensures steps { (given : List types.Record) (a : Above) → a.records ≡ []
        → InTree H.of H.holds (A.question q.now) m.old.head (frames_of m.old) m.old.tally level
        given a
        → StepsPastField H.of H.holds (A.question q.now) m.new given
        (behind_mask (ways_at (A.question q.now) m.old.head)
        (after (ways_at (A.question q.now) m.old.head) m.old.head level a.nodes) rect.now mask)
        result }
{
    let part = Key {
        rect: *rect,
        mask: mask_seen(Version::Two, mask),
    };
    unopened(q, m, &part, Stage::Tally(level, *rect, mask))
}

fn stepped(broken: Option<Rule>) -> StepResult
    ensures { result ≡ stepped_by broken }
{
    match broken {
        None => StepResult::On,
        Some(rule) => StepResult::Broken(rule),
    }
}

// A pruned part of this level, with its digest.
pub(crate) fn pruned<H: Hashes, A: AsQuestion>(
    q: &A,
    m: &mut Machine<H>,
    level: u8,
    part: &PrunedEntry,
) -> StepResult
    requires deep { vec_len m.old.frames.list + level ≤ 7 }
    requires counted { part.now.count ≤ count_limit }
    requires few { counted_so_far m.old + count_limit < 2 ^ 64 }
    ensures few { counted_so_far m.new ≤ counted_so_far m.old + count_limit }
    ensures fits { StepFits m.new.head.kind m.new.stage (vec_len m.new.frames.list) result }
    ensures steps { (given : List types.Record) (a : Above) → a.records ≡ []
        → InTree H.of H.holds (A.question q.now) m.old.head (frames_of m.old) m.old.tally level
        given a
        → StepsPastField H.of H.holds (A.question q.now) m.new given (after
        (ways_at (A.question q.now) m.old.head) m.old.head level
        a.nodes (Pruned part.now)) result }
{
    add_pruned(q, &m.head, &mut m.tally.whole, part);
    let node = part.entry(level);
    stepped(close(q, m, &node))
}

// The number of children of an inner node, which are of this level.
pub(crate) fn opened_inner<H: Hashes, A: AsQuestion>(
    q: &A,
    m: &mut Machine<H>,
    below: u8,
    entries: u8,
) -> StepResult
    requires levels { vec_len m.old.frames.list + (below + 1) ≤ 7 }
    requires some { 1 ≤ entries }
    ensures few { counted_so_far m.new ≤ counted_so_far m.old }
    ensures fits { StepFits m.new.head.kind m.new.stage (vec_len m.new.frames.list) result }
    ensures steps { (given : List types.Record) (a : Above) → a.records ≡ []
        → InTree H.of H.holds (A.question q.now) m.old.head (frames_of m.old) m.old.tally
        (below + 1) given a
        → StepsPastField H.of H.holds (A.question q.now) m.new given
        (some_items (item m.old.head.version (ways_at (A.question q.now) m.old.head) below) entries
        (λ Ps. opened m.old.head.version (ways_at (A.question q.now) m.old.head) (Inner Ps)
        (after (ways_at (A.question q.now) m.old.head) m.old.head (below + 1) a.nodes))) result }
{
    let frame = Frame {
        node: NodeHasher::<H>::inner(below + 1, entries),
        left: entries - 1,
    };
    push(&mut m.frames, frame);
    m.stage = Stage::Tag(below);
    StepResult::On
}

// The number of records of a leaf.
pub(crate) fn opened_leaf<H: Hashes, A: AsQuestion>(
    q: &A,
    m: &mut Machine<H>,
    entries: u8,
) -> StepResult
    requires levels { vec_len m.old.frames.list ≤ 7 }
    requires some { 1 ≤ entries }
    ensures few { counted_so_far m.new ≤ counted_so_far m.old }
    ensures fits { StepFits m.new.head.kind m.new.stage (vec_len m.new.frames.list) result }
    ensures steps { (given : List types.Record) (a : Above) → a.records ≡ []
        → InTree H.of H.holds (A.question q.now) m.old.head (frames_of m.old) m.old.tally 0 given a
        → StepsPastField H.of H.holds (A.question q.now) m.new given
        (some_records m.old.head.version (ways_at (A.question q.now) m.old.head) entries
        (λ rs. opened m.old.head.version (ways_at (A.question q.now) m.old.head) (Leaf rs)
        (after (ways_at (A.question q.now) m.old.head) m.old.head 0 a.nodes))) result }
{
    m.leaf = Frame {
        node: NodeHasher::<H>::leaf(entries),
        left: entries - 1,
    };
    m.stage = Stage::Number;
    StepResult::On
}

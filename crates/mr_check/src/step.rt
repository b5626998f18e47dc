//! One more field.

ghost use Rattle.std.specs.Prelude.{◌≡◌, ◌+◌, ◌^◌, ◌<◌, ◌≤◌, List, Option, vec_len};
ghost use Rattle.mr_record.specs.declared.record.Record as types;
ghost use Rattle.mr_proof.specs.Cut.{Cut};
ghost use Rattle.mr_check.specs.private.Stages.{want_at, head_want, MayBe, FitsStage};
ghost use Rattle.mr_proof.specs.Fields.{HasForm};
ghost use Rattle.mr_proof.specs.Limits.{count_limit};
ghost use Rattle.mr_proof.specs.Tight.{Question};
ghost use Rattle.mr_check.specs.declared.machine.StepResult.TheVariants as stepped;
ghost use Rattle.mr_check.specs.private.Machine.{frames_of, counted_so_far, Above, IsOpen, InHead, StepsPastField, StepFits, next_at, head_next, stage_behind, behind_rect};

use crate::headed::behind_field;
use crate::inner::{masked, opened_inner, opened_leaf, pruned, shown, tagged};
use crate::leaf::{record, sized};
use crate::machine::{Machine, StepResult};
use crate::stage::{HeadField, Stage};
use crate::values::{digest_of, number_of, payload_of, rect_of, tag_of};
use mr_geom::Rect;
use mr_proof::{AsQuestion, Field, Head, PrunedEntry};
use mr_record::{Record, Version};
use mr_tree::{Entry, Hashes};

// The stage behind a field of the head.
fn stage_behind(head: &Head, next: Option<HeadField>) -> Stage
    ensures { result ≡ stage_behind head.now next }
{
    match next {
        Some(field) => Stage::Head(field),
        None => {
            if head.count == 0 {
                Stage::End(Entry::none())
            } else {
                Stage::Tag(head.level)
            }
        }
    }
}

// A field of the head.
fn headed<H: Hashes>(m: &mut Machine<H>, at: HeadField, field: &Field) -> StepResult
    requires levels { vec_len m.old.frames.list ≡ 0 }
    requires may { HasForm (head_want m.old.head.kind at) field.now }
    ensures few { counted_so_far m.new ≡ counted_so_far m.old }
    ensures fits { StepFits m.new.head.kind m.new.stage (vec_len m.new.frames.list) result }
    ensures steps { (q : Question) (given : List types.Record)
        → InHead q m.old.head (frames_of m.old) m.old.tally given
        → StepsPastField H.of H.holds q m.new given
        (head_next q.way m.old.head at field.now) result }
{
    let next = behind_field(&mut m.head, at, field);
    m.stage = stage_behind(&m.head, next);
    StepResult::On
}

// The stage alone is another.
fn goes<H: Hashes>(m: &mut Machine<H>, stage: Stage) -> StepResult
    ensures value { result ≡ stepped.On }
    ensures stage { m.new ≡ record m.old { stage = stage } }
{
    m.stage = stage;
    StepResult::On
}

// The stage behind the rectangle of a record.
fn behind_sides(version: Version, number: u64, rect: &Rect) -> Stage
    ensures { result ≡ behind_rect version number rect.now }
{
    match version {
        Version::One => Stage::Length(number, *rect, 0),
        Version::Two => Stage::Layer(number, *rect),
    }
}

// One more field, behind those before.
pub(crate) fn step<H: Hashes, A: AsQuestion>(q: &A, m: &mut Machine<H>, field: &Field) -> StepResult
    requires fits { FitsStage m.old.head.kind m.old.stage (vec_len m.old.frames.list) }
    requires may { MayBe (want_at m.old.head.kind m.old.stage) field.now }
    requires few { counted_so_far m.old + count_limit < 2 ^ 64 }
    ensures few { counted_so_far m.new ≤ counted_so_far m.old + count_limit }
    ensures fits { StepFits m.new.head.kind m.new.stage (vec_len m.new.frames.list) result }
    ensures steps { (given : List types.Record) (a : Above) (whole : Option Cut)
        → IsOpen H.of H.holds (A.question q.now) m.old m.old.stage given a whole
        → StepsPastField H.of H.holds (A.question q.now) m.new given (next_at (A.question q.now).way
        m.old.head
        m.old.leaf.left a m.old.stage field.now) result }
{
    let stage = m.stage;
    match stage {
        Stage::Head(at) => headed(m, at, field),
        Stage::Tag(level) => tagged(q, m, level, tag_of(field)),
        Stage::Shown(level) => shown(q, m, level, &rect_of(field)),
        Stage::Mask(level, rect) => masked(q, m, level, &rect, number_of(field)),
        Stage::Tally(level, rect, mask) => {
            goes(m, Stage::Digest(level, rect, mask, number_of(field)))
        }
        Stage::Digest(level, rect, mask, count) => pruned(
            q,
            m,
            level,
            &PrunedEntry {
                rect,
                mask,
                count,
                digest: digest_of(field),
            },
        ),
        Stage::Entries(below) => opened_inner(q, m, below, number_of(field) as u8),
        Stage::Records => opened_leaf(q, m, number_of(field) as u8),
        Stage::Number => goes(m, Stage::Sides(number_of(field))),
        Stage::Sides(number) => {
            let next = behind_sides(m.head.version, number, &rect_of(field));
            goes(m, next)
        }
        Stage::Layer(number, rect) => goes(m, Stage::Length(number, rect, number_of(field) as u8)),
        Stage::Length(number, rect, layer) => {
            sized(q, m, number, &rect, layer, number_of(field) as u8)
        }
        Stage::Payload(number, rect, layer, _) => {
            m.latest = Record {
                number,
                rect,
                layer,
                payload: payload_of(field),
            };
            record(q, m)
        }
        Stage::End(_) => unreachable!(),
    }
}

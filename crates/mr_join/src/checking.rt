//! The check of a join's proof.

ghost use Rattle.std.specs.Prelude.{◌≡◌, [], ◌∷◌, IfOk};
ghost use Rattle.mr_join.specs.Meets.{rects_of};
ghost use Rattle.mr_join.specs.Verdict.{part_verdict, as_first, first_records, second_taken};
ghost use Rattle.mr_join.specs.private.Answers.{Answers};

use crate::frame::Frame;
use crate::{JoinErr, JoinFault, Meets};
use mr_count::{ChoiceErr, Taken, check_choice};
use mr_geom::Rect;
use mr_outside::Items;
use mr_record::Record;
use mr_tree::Hashes;
use std::alloc::{AllocError, Global};

/// The letter of both proofs.
pub(crate) const LETTER: u8 = b'J';

// The rectangles of the records.
pub(crate) fn rects_of(alloc: Global, records: &[Record]) -> Result<Vec<Rect>, AllocError>
    ensures { IfOk result (λ v. v.items ≡ rects_of records.now) }
{
    let mut rects = Vec::with_capacity(alloc, records.len())?;
    for record in records {
        rects.push(record.rect)?;
    }
    Ok(rects)
}

// What the proof of the first map gives of the records that meet the rectangle.
pub(crate) fn first_taken<H: Hashes>(
    alloc: Global,
    root: &[u8; 32],
    rect: &Rect,
    proof: &[u8],
) -> Result<Taken, JoinErr>
    ensures { Answers result (as_first (part_verdict (record { of = H.of; root = root.now })
        (rect.now ∷ []) proof.now)) }
{
    let list = [*rect];
    let meets = Meets::of(alloc, &list)?;
    match check_choice::<H, Meets>(alloc, root, &meets, LETTER, proof) {
        Ok(taken) => Ok(taken),
        Err(ChoiceErr::Fault(fault)) => Err(JoinErr::Fault(JoinFault::First(fault))),
        Err(ChoiceErr::NoMemory) => Err(JoinErr::NoMemory),
    }
}

// The records of the first map that meet the second map's rectangle.
pub(crate) fn first_records<H: Hashes>(
    alloc: Global,
    root: &[u8; 32],
    frame: &Frame<'_>,
) -> Result<Items<Record>, JoinErr>
    ensures { Answers result (first_records (record { of = H.of; root = root.now })
        frame.now.rect frame.now.first.now) }
{
    match &frame.rect {
        None => Ok(Items::of(Vec::new(alloc))),
        Some(rect) => {
            let taken = first_taken::<H>(alloc, root, rect, frame.first)?;
            Ok(taken.records)
        }
    }
}

// What the proof of the second map gives of the records that meet these.
pub(crate) fn second_taken<H: Hashes>(
    alloc: Global,
    root: &[u8; 32],
    records: &[Record],
    proof: &[u8],
) -> Result<Taken, JoinErr>
    ensures { Answers result (second_taken (record { of = H.of; root = root.now })
        records.now proof.now) }
{
    let list = rects_of(alloc, records)?;
    let meets = Meets::of(alloc, &list)?;
    match check_choice::<H, Meets>(alloc, root, &meets, LETTER, proof) {
        Ok(taken) => Ok(taken),
        Err(ChoiceErr::Fault(fault)) => Err(JoinErr::Fault(JoinFault::Second(fault))),
        Err(ChoiceErr::NoMemory) => Err(JoinErr::NoMemory),
    }
}

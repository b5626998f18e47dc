//! What a crash may have left of an area in memory.

ghost use Rattle.std.specs.Prelude.{◌≡◌, ◌<◌, ◌≤◌, ◌+◌, true, false, vec_len, IfOk};
ghost use Rattle.mr_journal.specs.Torn.{IsTouched};
ghost use Rattle.mr_journal.specs.private.Traced.{trace_of};
ghost use Rattle.mr_journal.specs.Picks.{IsGarbledByte, IsGarbled, IsPicked};

use crate::mem_disk::Trace;
use std::alloc::{AllocError, Global};

// Whether the place lies in one of the ranges.
fn touches(ranges: &[(u64, u64)], place: u64) -> bool
    ensures touched { result ≡ true → IsTouched ranges.now place }
    ensures untouched { result ≡ false → IsTouched ranges.now place → ⊥ }
{
    let mut at = 0;
    while at < ranges.len() {
        let range = ranges[at];
        if lies_in(range.0, range.1, place) {
            return true;
        }
        at += 1;
    }
    false
}

fn lies_in(from: u64, count: u64, place: u64) -> bool
    ensures inside { result ≡ true → (from ≤ place) × (place < from + count) }
    ensures outside { result ≡ false → (from ≤ place) × (place < from + count) → ⊥ }
{
    if place < from {
        return false;
    }
    place - from < count
}

// What stands at a place where every byte that is not synced is 4f.
fn garbled_byte(trace: &Trace, place: usize) -> u8
    requires { place < vec_len trace.now.held }
    ensures { IsGarbledByte (trace_of trace.now) place result }
{
    if place >= trace.synced.len() {
        return 0x4f;
    }
    if touches(&trace.touched, place as u64) {
        return 0x4f;
    }
    trace.held[place]
}

// What was written, with 4f at every place that is not synced.
fn garbled(alloc: Global, trace: &Trace) -> Result<Vec<u8>, AllocError>
    ensures { IfOk result (λ v. IsGarbled (trace_of trace.now) v.items) }
{
    let mut all = Vec::new(alloc);
    while all.len() < trace.held.len() {
        let byte = garbled_byte(trace, all.len());
        all.push(byte)?;
    }
    Ok(all)
}

/// One of the things that a crash may have left of an area. With 0 that is what was synced, with 2
/// what was written with 4f at every place that is not synced, and else what was written.
pub(crate) fn pick_of(alloc: Global, trace: Trace, pick: u64) -> Result<Vec<u8>, AllocError>
    ensures { IfOk result (λ v. IsPicked pick (trace_of trace) v.items) }
{
    if pick == 0 {
        return Ok(trace.synced);
    }
    if pick == 2 {
        return garbled(alloc, &trace);
    }
    Ok(trace.held)
}

//! A disk in memory that keeps its calls, so that what a crash may leave is told.

ghost use Rattle.std.specs.Prelude.{◌≡◌, ◌+◌, ◌-◌, min, take, drop, [], ◌∷◌, ◌++◌, length, Some, not, IfOk, OnOk, OnErr, ⊤, if◌then◌else◌};
ghost use Rattle.mr_outside.specs.Files.{replaced};
ghost use Rattle.mr_outside.specs.Faults.{next_count};
ghost use Rattle.mr_outside.specs.Reading.{FillsFront, GivesFrom};
ghost use Rattle.mr_journal.specs.Images.{Image, part, written, InArea, Unchanged};
ghost use Rattle.mr_journal.specs.Torn.{TornAt};
ghost use Rattle.mr_journal.specs.Moments.{IsDurable, IsDiskCall, KeepsImages};
ghost use Rattle.mr_journal.specs.MemoryDisk.{first_image, same_area, carried_out, wrote, at_rest, change, area_after, contents_after, IsImage, memory_state, left_since, parts_of, contents_of, told_by, images_by, fails_next, IsAsked, IsWrite, IsSync, MakesCall};
ghost use Rattle.mr_journal.specs.private.Traced.{trace_of, write_call};
ghost use Rattle.mr_journal.specs.Picks.{IsPicked};
ghost use Rattle.mr_journal.specs.private.MemoryLaws.{earlier_is, contents_count, is_held, is_told};

use crate::crash::pick_of;
use crate::{Area, Disk, DiskErr};
use std::alloc::{AllocError, Global};

/// A write, which is carried out whole, or where it fails the first half of its bytes.
#[derive(Drop)]
pub(crate) struct Write {
    pub(crate) area: Area,
    pub(crate) at: u64,
    pub(crate) bytes: Vec<u8>,
    pub(crate) whole: bool,
}

/// A call, as far as it changed anything.
#[derive(Drop)]
pub(crate) enum Call {
    // A size, a read, or a sync that failed.
    Asked,
    Wrote(Write),
    Synced(Area),
}

/// A disk in memory, which tells its contents and what a crash may leave. Its calls are numbered
/// from 1, and exactly those whose number is in a list fail; a write that fails writes the first
/// half of its bytes. It keeps what it had at first and each call, and each call takes time in the
/// bytes of all earlier ones: it is for tests.
#[derive(Drop)]
pub struct MemDisk {
    alloc: Global,
    map: Vec<u8>,
    journal: Vec<u8>,
    fail: Vec<u64>,
    calls: Vec<Call>,
    faults: u64,
}

impl MemDisk {
    /// A disk with these bytes, all of them synced. `fail` has the numbers of the calls that fail.
    pub fn new(
        alloc: Global,
        map: &[u8],
        journal: &[u8],
        fail: Vec<u64>,
    ) -> Result<MemDisk, AllocError>
        ensures { IfOk result (λ d. (d.map.items ≡ map.now) × (d.journal.items ≡ journal.now)
            × (d.calls.items ≡ []) × (d.fail.items ≡ fail.items) × (d.faults ≡ 0)) }
    {
        Ok(MemDisk {
            alloc,
            map: Vec::from_slice(alloc, map)?,
            journal: Vec::from_slice(alloc, journal)?,
            fail,
            calls: Vec::new(alloc),
            faults: 0,
        })
    }

    /// A disk as a crash after so many calls may have left it, after all where there are fewer.
    /// With pick 0 it has what was synced, with 2 what was written, with 4f at every place that is
    /// not synced, and else what was written. No call of the new disk fails.
    pub fn crash(&self, step: u64, pick: u64) -> Result<MemDisk, AllocError>
        ensures image { let first = first_image self.now.map.items self.now.journal.items in
            IfOk result (λ d. IsImage first (take step self.now.calls.items)
            (first_image d.map.items d.journal.items)) }
        ensures map { IfOk result
            (λ d. IsPicked pick (area_after Area.Map self.now.map.items
            (take step self.now.calls.items)) d.map.items) }
        ensures journal { IfOk result
            (λ d. IsPicked pick (area_after Area.Journal self.now.journal.items
            (take step self.now.calls.items)) d.journal.items) }
        ensures begins { IfOk result (λ d. (d.calls.items ≡ []) × (d.fail.items ≡ [])
            × (d.faults ≡ 0)) }
    {
        let count = (self.calls.len() as u64).min(step) as usize;
        let (calls, _) = self.calls.as_slice().split_at(count);
        let map = trace_all(self.alloc, Area::Map, &self.map, calls)?;
        let map = pick_of(self.alloc, map, pick)?;
        let journal = trace_all(self.alloc, Area::Journal, &self.journal, calls)?;
        let journal = pick_of(self.alloc, journal, pick)?;
        Ok(MemDisk {
            alloc: self.alloc,
            map,
            journal,
            fail: Vec::new(self.alloc),
            calls: Vec::new(self.alloc),
            faults: 0,
        })
    }

    /// How many calls were made, those that failed among them.
    pub fn calls_made(&self) -> u64
        ensures { result ≡ length self.now.calls.items }
    {
        self.calls.len() as u64
    }

    // Whether the next call is one of those that fail.
    fn next_fails(&self) -> bool
        ensures { result ≡ fails_next (parts_of self.now) }
    {
        let number = (self.calls.len() as u64).saturating_add(1);
        self.fail.contains(&number)
    }
}

fn write_of(area: Area, at: u64, bytes: Vec<u8>, whole: bool) -> Call
    ensures { result ≡ write_call area at bytes whole }
{
    Call::Wrote(Write {
        area,
        at,
        bytes,
        whole,
    })
}

fn is_same(a: Area, b: Area) -> bool
    ensures { result ≡ same_area a b }
{
    match a {
        Area::Map => match b {
            Area::Map => true,
            Area::Journal => false,
        },
        Area::Journal => match b {
            Area::Map => false,
            Area::Journal => true,
        },
    }
}

// These bytes with others from a place on.
fn overlay(alloc: Global, held: &[u8], at: u64, bytes: &[u8]) -> Result<Vec<u8>, AllocError>
    ensures { IfOk result (λ v. v.items ≡ replaced at bytes.now held.now) }
{
    let front = (held.len() as u64).min(at) as usize;
    let (before, rest) = held.split_at(front);
    let skipped = rest.len().min(bytes.len());
    let (_, behind) = rest.split_at(skipped);
    let mut all = Vec::from_slice(alloc, before)?;
    all.extend_from_slice(bytes)?;
    all.extend_from_slice(behind)?;
    Ok(all)
}

// What a write leaves of these bytes.
fn carry(alloc: Global, held: &[u8], write: &Write) -> Result<Vec<u8>, AllocError>
    ensures { IfOk result (λ v. v.items
        ≡ replaced write.now.at (carried_out write.now.whole write.now.bytes.items) held.now) }
{
    let bytes = write.bytes.as_slice();
    if write.whole {
        return overlay(alloc, held, write.at, bytes);
    }
    let (half, _) = bytes.split_at(bytes.len() / 2);
    overlay(alloc, held, write.at, half)
}

/// One area, since its last sync that answered.
#[derive(Drop)]
pub(crate) struct Trace {
    pub(crate) held: Vec<u8>,
    pub(crate) synced: Vec<u8>,
    // Places and lengths of writes.
    pub(crate) touched: Vec<(u64, u64)>,
}

fn trace_write(alloc: Global, mut trace: Trace, write: &Write) -> Result<Trace, AllocError>
    ensures { IfOk result (λ t. trace_of t
        ≡ wrote write.now.at write.now.bytes.items write.now.whole (trace_of trace)) }
{
    let held = carry(alloc, &trace.held, write)?;
    trace
        .touched
        .insert(0, (write.at, write.bytes.len() as u64))?;
    Ok(Trace {
        held,
        synced: trace.synced,
        touched: trace.touched,
    })
}

fn trace_sync(alloc: Global, trace: Trace) -> Result<Trace, AllocError>
    ensures { IfOk result (λ t. trace_of t ≡ at_rest (trace_of trace).held) }
{
    let synced = Vec::from_slice(alloc, &trace.held)?;
    Ok(Trace {
        held: trace.held,
        synced,
        touched: Vec::new(alloc),
    })
}

// What a call leaves of an area.
fn trace_call(alloc: Global, area: Area, trace: Trace, call: &Call) -> Result<Trace, AllocError>
    ensures { IfOk result (λ t. trace_of t ≡ change area (trace_of trace) call.now) }
{
    match call {
        Call::Wrote(write) => {
            if is_same(write.area, area) {
                trace_write(alloc, trace, write)
            } else {
                Ok(trace)
            }
        }
        Call::Asked => Ok(trace),
        Call::Synced(synced) => {
            if is_same(*synced, area) {
                trace_sync(alloc, trace)
            } else {
                Ok(trace)
            }
        }
    }
}

// An area after these calls.
fn trace_all(alloc: Global, area: Area, first: &[u8], calls: &[Call]) -> Result<Trace, AllocError>
    ensures { IfOk result (λ t. trace_of t ≡ area_after area first.now calls.now) }
{
    let mut so_far = Trace {
        held: Vec::from_slice(alloc, first)?,
        synced: Vec::from_slice(alloc, first)?,
        touched: Vec::new(alloc),
    };
    for call in calls {
        so_far = trace_call(alloc, area, so_far, call)?;
    }
    Ok(so_far)
}

impl MemDisk {
    // What a read of the area gives.
    fn held(&self, area: Area) -> Result<Vec<u8>, AllocError>
        ensures { let first = first_image self.now.map.items self.now.journal.items in
            IfOk result (λ v. v.items ≡ part area (contents_after first self.now.calls.items)) }
    {
        match area {
            Area::Map => Ok(trace_all(self.alloc, Area::Map, &self.map, &self.calls)?.held),
            Area::Journal => Ok(
                trace_all(self.alloc, Area::Journal, &self.journal, &self.calls)?.held,
            ),
        }
    }

    // Keeps a call, and counts a fault where it fails.
    fn keep(&mut self, call: Call, fails: bool) -> Result<(), AllocError>
        ensures kept { OnOk result (self.new.calls.items ≡ self.old.calls.items ++ call ∷ []) }
        ensures counted { OnOk result
            (self.new.faults ≡ (if fails then next_count self.old.faults else self.old.faults)) }
        ensures refused { OnErr result
            ((self.new.calls.items ≡ self.old.calls.items) × (self.new.faults ≡ self.old.faults)) }
        ensures first { (self.new.map.items ≡ self.old.map.items)
            × (self.new.journal.items ≡ self.old.journal.items) }
        ensures fail { self.new.fail.items ≡ self.old.fail.items }
    {
        self.calls.push(call)?;
        if fails {
            self.faults = self.faults.saturating_add(1);
        }
        Ok(())
    }
}

impl Disk for MemDisk {
    ghost state = { λ m. memory_state (first_image m.map.items m.journal.items) m.calls.items
        m.faults };

    ghost images = { λ m. left_since (first_image m.map.items m.journal.items) m.calls.items };

    ghost kept = { λ m n. ⊤ };

    ghost still = { λ m n. ⊤ };

    ghost earlier = { λ m. earlier_is (first_image m.map.items m.journal.items) m.calls.items };

    ghost counts = { λ m. contents_count (first_image m.map.items m.journal.items) m.calls.items
        m.faults };

    ghost held = { λ m. is_held (first_image m.map.items m.journal.items) m.calls.items m.faults };

    ghost told = { λ m. is_told (first_image m.map.items m.journal.items) m.calls.items m.faults };

    ghost kept_self = { λ m. tt };

    ghost kept_on = { λ l m n a b. tt };

    ghost still_self = { λ m. tt };

    ghost still_on = { λ l m n a b. tt };

    fn size(&mut self, area: Area) -> Result<u64, DiskErr>
        ensures made { MakesCall IsAsked (parts_of self.old) (parts_of self.new) result }
        ensures length { IfOk result (λ n. n
            ≡ length (part area (contents_of (parts_of self.old)))) }
        ensures contents { Some (contents_of (parts_of self.new))
            ≡ Some (contents_of (parts_of self.old)) }
        ensures passes { IsDiskCall (told_by (parts_of self.old)) (told_by (parts_of self.new))
            (images_by (parts_of self.old)) (images_by (parts_of self.new)) result Unchanged }
        ensures stays { KeepsImages (told_by (parts_of self.old)) (told_by (parts_of self.new))
            (images_by (parts_of self.old)) (images_by (parts_of self.new)) }
    {
        if self.next_fails() {
            self.keep(Call::Asked, true)?;
            return Err(DiskErr::Fault);
        }
        let length = self.held(area)?.len() as u64;
        self.keep(Call::Asked, false)?;
        Ok(length)
    }

    fn read_at(&mut self, area: Area, at: u64, into: &mut [u8]) -> Result<usize, DiskErr>
        ensures made { MakesCall IsAsked (parts_of self.old) (parts_of self.new) result }
        ensures fills { IfOk result (λ n. FillsFront into.old into.new n) }
        ensures gives { IfOk result (λ n. GivesFrom at into.old into.new n
            (part area (contents_of (parts_of self.old)))) }
        ensures contents { Some (contents_of (parts_of self.new))
            ≡ Some (contents_of (parts_of self.old)) }
        ensures passes { IsDiskCall (told_by (parts_of self.old)) (told_by (parts_of self.new))
            (images_by (parts_of self.old)) (images_by (parts_of self.new)) result Unchanged }
        ensures stays { KeepsImages (told_by (parts_of self.old)) (told_by (parts_of self.new))
            (images_by (parts_of self.old)) (images_by (parts_of self.new)) }
    {
        if self.next_fails() {
            self.keep(Call::Asked, true)?;
            return Err(DiskErr::Fault);
        }
        let held = self.held(area)?;
        self.keep(Call::Asked, false)?;
        Ok(copy_from(&held, at, into))
    }

    fn write_at(&mut self, area: Area, at: u64, bytes: &[u8]) -> Result<(), DiskErr>
        ensures made { let whole = not (fails_next (parts_of self.old)) in
            MakesCall (IsWrite area at bytes.now whole)
            (parts_of self.old) (parts_of self.new) result }
        ensures written { OnOk result (Some (contents_of (parts_of self.new))
            ≡ Some (written area at bytes.now (contents_of (parts_of self.old)))) }
        ensures refused { OnErr result ((m : Image)
            × (Some (contents_of (parts_of self.new)) ≡ Some m)
            × InArea area (TornAt at (length bytes.now)) (contents_of (parts_of self.old)) m) }
        ensures passes { IsDiskCall (told_by (parts_of self.old)) (told_by (parts_of self.new))
            (images_by (parts_of self.old)) (images_by (parts_of self.new)) result
            (InArea area (TornAt at (length bytes.now))) }
    {
        let bytes = Vec::from_slice(self.alloc, bytes)?;
        if self.next_fails() {
            self.keep(write_of(area, at, bytes, false), true)?;
            return Err(DiskErr::Fault);
        }
        self.keep(write_of(area, at, bytes, true), false)?;
        Ok(())
    }

    fn sync(&mut self, area: Area) -> Result<(), DiskErr>
        ensures made { let fails = fails_next (parts_of self.old) in
            MakesCall (IsSync area fails) (parts_of self.old) (parts_of self.new) result }
        ensures durable { OnOk result (IsDurable area (told_by (parts_of self.new))
            (images_by (parts_of self.new))) }
        ensures contents { Some (contents_of (parts_of self.new))
            ≡ Some (contents_of (parts_of self.old)) }
        ensures passes { IsDiskCall (told_by (parts_of self.old)) (told_by (parts_of self.new))
            (images_by (parts_of self.old)) (images_by (parts_of self.new)) result Unchanged }
    {
        if self.next_fails() {
            self.keep(Call::Asked, true)?;
            return Err(DiskErr::Fault);
        }
        self.keep(Call::Synced(area), false)?;
        Ok(())
    }
}

// Copies what stands from a place on to the front of `into`, as far as both go.
fn copy_from(bytes: &[u8], at: u64, into: &mut [u8]) -> usize
    ensures count { result ≡ min (length into.old) (length bytes.now - at) }
    ensures copied { into.new ≡ take result (drop at bytes.now) ++ drop result into.old }
{
    let start = (bytes.len() as u64).min(at) as usize;
    let (_before, rest) = bytes.split_at(start);
    let count = rest.len().min(into.len());
    into[..count].copy_from_slice(&rest[..count]);
    count
}

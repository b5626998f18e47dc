//! The bytes of a proof, field by field; and at once a pruned part or a record of which a piece has
//! the whole.

ghost use Rattle.std.specs.Prelude.{◌≡◌, ◌+◌, ◌≤◌, ◌++◌, ◌∷◌, [], ℕ, List, Option, Some, None, length, nat_lt, vec_len, IfOk, IfSome};
ghost use Rattle.mr_record.specs.declared.record.Record as types;
ghost use Rattle.mr_proof.specs.Tight.{Question, key_at, opens_at};
ghost use Rattle.mr_proof.specs.Limits.{place_limit};
ghost use Rattle.mr_proof.specs.Fields.{size_of, field_of, FitsPayload, HasForm};
ghost use Rattle.mr_proof.specs.Cut.{Cut};
ghost use Rattle.mr_proof.specs.Spelling.{Parsed};
ghost use Rattle.mr_proof.specs.Grammar.{Grammar};
ghost use Rattle.mr_check.specs.declared.reader.Progress.TheVariants as turns;
ghost use Rattle.mr_check.specs.declared.stage.Stage.TheVariants as stage;
ghost use Rattle.mr_check.specs.private.Stops.{noted};
ghost use Rattle.mr_check.specs.private.Stages.{want_at, size_in, MayBe, FitsStage};
ghost use Rattle.mr_check.specs.private.Machine.{Above, IsOpen, StepsPastField, StepFits, WaitsPast, next_at, ways_at};
ghost use Rattle.mr_check.specs.private.Reads.{want_of, last_field, IsCounted, FitsReader, IsWholePart, IsWhole, StandsAt, Behind, MakesProgress, TakesSome, TakesJust, FaultOf};
ghost use Rattle.mr_record.specs.Record.{payload_limit};
ghost use Rattle.mr_record.specs.RecordField.{length_place};

use crate::inner::pruned;
use crate::leaf::record;
use crate::machine::{Machine, StepResult};
use crate::parts::{digest_place, part_in, part_size};
use crate::stage::{Stage, want_at};
use crate::step::step;
use mr_outside::Buffer;
use mr_proof::{
    AsQuestion, Fault, Field, Head, PLACE_LIMIT, PrunedEntry, Rule, Want, mask_seen, read_field,
};
use mr_query::Key;
use mr_record::{PAYLOAD_LIMIT, Record, Version, read_record_of};
use mr_tree::{Entry, Hashes};

// A machine, the bytes of the field that is under way, the place of that field, and the fault, once
// one was met.
#[derive(Drop)]
pub(crate) struct Reader<H: Hashes> {
    pub(crate) machine: Machine<H>,
    pub(crate) held: Buffer<PAYLOAD_LIMIT>,
    pub(crate) at: usize,
    pub(crate) fault: Option<Fault>,
}

// What some bytes come to. The whole piece was taken, or so many of its bytes, which end a field.
// Or so many end a record that is handed out, which the machine has; or there is a fault.
pub(crate) enum Progress {
    More,
    Took(usize),
    Found(usize),
    Broken(Fault),
}

// The value of the field of the bytes that are held and these, which are its last.
fn read_whole(want: &Want, held: &mut Buffer<PAYLOAD_LIMIT>, front: &[u8]) -> Result<Field, Rule>
    requires size { length held.old + length front.now ≡ size_of want.now }
    requires few { size_of want.now ≤ payload_limit }
    requires payload { FitsPayload want.now }
    ensures exact { result ≡ field_of want.now (held.old ++ front.now) }
    ensures form { IfOk result (HasForm want.now) }
    ensures held { held.new ≡ [] }
{
    if held.as_slice().is_empty() {
        return read_field(want, front);
    }
    held.put(front);
    let read = read_field(want, held.as_slice());
    *held = Buffer::new();
    read
}

pub(crate) fn fault_at(rule: Rule, at: usize) -> Fault
    ensures { result ≡ record { rule = rule; at = at } }
{
    Fault {
        rule,
        at: at as u64,
    }
}

// There is a fault: nothing more is read.
fn fail<H: Hashes>(r: &mut Reader<H>, rule: Rule, at: usize) -> Progress
    requires deep { vec_len r.old.machine.frames.list ≤ 7 }
    requires place { r.old.at ≤ place_limit }
    requires counted { IsCounted r.old }
    ensures fits { FitsReader r.new }
    ensures fault { r.new.fault ≡ Some (record { rule = rule; at = at }) }
    ensures value { result ≡ turns.Broken (record { rule = rule; at = at }) }
{
    let fault = fault_at(rule, at);
    r.machine.stage = Stage::End(Entry::none());
    r.held = Buffer::new();
    r.fault = Some(fault);
    Progress::Broken(fault)
}

// Whether the field that is under way would end past the limit.
fn is_long<H: Hashes>(r: &Reader<H>) -> bool
    requires { r.now.at ≤ place_limit }
    ensures { result ≡ nat_lt place_limit (r.now.at
        + size_in (want_at r.now.machine.head.kind r.now.machine.stage)) }
{
    match want_at(r.machine.head.kind, &r.machine.stage) {
        None => false,
        Some(want) => PLACE_LIMIT - want.size() < r.at,
    }
}

// Behind what gave no record.
fn goes_on<H: Hashes>(r: &mut Reader<H>, taken: usize) -> Progress
    requires stage { FitsStage r.old.machine.head.kind r.old.machine.stage
        (vec_len r.old.machine.frames.list) }
    requires held { r.old.held ≡ [] }
    requires place { r.old.at ≤ place_limit }
    requires counted { IsCounted r.old }
    requires none { r.old.fault ≡ None }
    ensures fits { FitsReader r.new }
    ensures fault { FaultOf r.new.fault result }
    ensures takes { TakesJust taken result }
    ensures behind { (q : Question) (given : List types.Record) (g : Grammar Parsed) (last : ℕ)
        → noted g ≡ [] → WaitsPast H.of H.holds q r.old.machine given g
        → Behind H.of H.holds q given r.old.at last taken r.new g result }
{
    if is_long(r) {
        let at = r.at;
        return fail(r, Rule::Long, at);
    }
    Progress::Took(taken)
}

// Behind what ended a record that is handed out.
fn hands_out<H: Hashes>(r: &mut Reader<H>, taken: usize) -> Progress
    requires stage { FitsStage r.old.machine.head.kind r.old.machine.stage
        (vec_len r.old.machine.frames.list) }
    requires held { r.old.held ≡ [] }
    requires place { r.old.at ≤ place_limit }
    requires counted { IsCounted r.old }
    requires none { r.old.fault ≡ None }
    ensures fits { FitsReader r.new }
    ensures fault { FaultOf r.new.fault result }
    ensures takes { TakesJust taken result }
    ensures behind { (q : Question) (given : List types.Record) (g : Grammar Parsed) (last : ℕ)
        → noted g ≡ r.old.machine.latest ∷ []
        → WaitsPast H.of H.holds q r.old.machine (given ++ r.old.machine.latest ∷ []) g
        → Behind H.of H.holds q given r.old.at last taken r.new g result }
{
    if is_long(r) {
        let at = r.at;
        return fail(r, Rule::Long, at);
    }
    Progress::Found(taken)
}

// What a step comes to that was made with so many bytes of a piece, the last of a field at this
// place.
fn behind<H: Hashes>(r: &mut Reader<H>, stepped: StepResult, last: usize, taken: usize) -> Progress
    requires stage { StepFits r.old.machine.head.kind r.old.machine.stage
        (vec_len r.old.machine.frames.list) stepped }
    requires held { r.old.held ≡ [] }
    requires place { r.old.at ≤ place_limit }
    requires counted { IsCounted r.old }
    requires none { r.old.fault ≡ None }
    ensures fits { FitsReader r.new }
    ensures fault { FaultOf r.new.fault result }
    ensures takes { TakesJust taken result }
    ensures behind { (q : Question) (given : List types.Record) (g : Grammar Parsed)
        → StepsPastField H.of H.holds q r.old.machine given g stepped
        → Behind H.of H.holds q given r.old.at last taken r.new g result }
{
    match stepped {
        StepResult::Broken(rule) => fail(r, rule, last),
        StepResult::On => goes_on(r, taken),
        StepResult::Found => hands_out(r, taken),
    }
}

// A field was read, with so many bytes of a piece, which are its last.
fn behind_field<H: Hashes, A: AsQuestion>(
    q: &A,
    r: &mut Reader<H>,
    field: &Field,
    size: usize,
    taken: usize,
) -> Progress
    requires stage { FitsStage r.old.machine.head.kind r.old.machine.stage
        (vec_len r.old.machine.frames.list) }
    requires may { MayBe (want_of r.old) field.now }
    requires held { r.old.held ≡ [] }
    requires some { 1 ≤ size }
    requires place { r.old.at + size ≤ place_limit }
    requires counted { IsCounted r.old }
    requires none { r.old.fault ≡ None }
    ensures fits { FitsReader r.new }
    ensures fault { FaultOf r.new.fault result }
    ensures takes { TakesJust taken result }
    ensures behind { (given : List types.Record) (a : Above) (whole : Option Cut)
        → IsOpen H.of H.holds (A.question q.now) r.old.machine r.old.machine.stage given a whole
        → Behind H.of H.holds (A.question q.now) given (r.old.at + size) r.old.at taken r.new
        (next_at (A.question q.now).way r.old.machine.head r.old.machine.leaf.left a
        r.old.machine.stage field.now) result }
{
    let last = r.at;
    r.at += size;
    let stepped = step(q, &mut r.machine, field);
    behind(r, stepped, last, taken)
}

// The field that is under way, as far as the piece has it.
fn next_field<H: Hashes, A: AsQuestion>(
    q: &A,
    r: &mut Reader<H>,
    want: &Want,
    piece: &[u8],
) -> Progress
    requires fits { FitsReader r.old }
    requires wants { want_of r.old ≡ Some want.now }
    requires none { r.old.fault ≡ None }
    ensures fits { FitsReader r.new }
    ensures fault { FaultOf r.new.fault result }
    ensures takes { TakesSome (length piece.now) result }
    ensures turns { (s : List ℕ) → StandsAt H.of H.holds (A.question q.now) r.old s
        → MakesProgress H.of H.holds (A.question q.now) s piece.now r.new result }
{
    let size = want.size();
    let missing = size - r.held.as_slice().len();
    if piece.len() < missing {
        r.held.put(piece);
        return Progress::More;
    }
    let (front, _) = piece.split_at(missing);
    match read_whole(want, &mut r.held, front) {
        Err(rule) => {
            let at = r.at;
            fail(r, rule, at)
        }
        Ok(field) => behind_field(q, r, &field, size, missing),
    }
}

// Behind the last field no byte may stand.
fn at_end<H: Hashes>(r: &mut Reader<H>, piece: &[u8]) -> Progress
    requires fits { FitsReader r.old }
    requires ends { want_of r.old ≡ None }
    requires none { r.old.fault ≡ None }
    ensures fits { FitsReader r.new }
    ensures fault { FaultOf r.new.fault result }
    ensures takes { TakesSome (length piece.now) result }
    ensures turns { (q : Question) (s : List ℕ) → StandsAt H.of H.holds q r.old s
        → MakesProgress H.of H.holds q s piece.now r.new result }
{
    if piece.is_empty() {
        return Progress::More;
    }
    let at = r.at;
    fail(r, Rule::Trailing, at)
}

// The next field, as far as the piece has it.
fn by_field<H: Hashes, A: AsQuestion>(q: &A, r: &mut Reader<H>, piece: &[u8]) -> Progress
    requires fits { FitsReader r.old }
    requires none { r.old.fault ≡ None }
    ensures fits { FitsReader r.new }
    ensures fault { FaultOf r.new.fault result }
    ensures takes { TakesSome (length piece.now) result }
    ensures turns { (s : List ℕ) → StandsAt H.of H.holds (A.question q.now) r.old s
        → MakesProgress H.of H.holds (A.question q.now) s piece.now r.new result }
{
    match want_at(r.machine.head.kind, &r.machine.stage) {
        None => at_end(r, piece),
        Some(want) => next_field(q, r, &want, piece),
    }
}

// Whether the part is to be opened.
fn is_hidden<A: AsQuestion>(q: &A, head: &Head, part: &PrunedEntry) -> bool
    ensures { result ≡ opens_at (ways_at (A.question q.now) head.now)
        (key_at head.now.version part.now.mask part.now.rect) }
{
    let seen = Key {
        rect: part.rect,
        mask: mask_seen(head.version, part.mask),
    };
    q.way(head.radius, &seen).is_open()
}

// The pruned part at the front of the piece, where an item of this level is under way of which
// nothing is held. The piece has to have the whole of it, up to the limit at most, without a fault.
fn whole_part<H: Hashes, A: AsQuestion>(
    q: &A,
    r: &Reader<H>,
    level: u8,
    piece: &[u8],
) -> Option<PrunedEntry>
    requires { r.now.machine.stage ≡ stage.Tag level }
    ensures { IfSome result (IsWholePart (A.question q.now) r.now piece.now level) }
{
    if !r.held.as_slice().is_empty() || PLACE_LIMIT - part_size(r.machine.head.version) < r.at {
        return None;
    }
    match part_in(r.machine.head.version, piece) {
        Some(part) if !is_hidden(q, &r.machine.head, &part) => Some(part),
        _ => None,
    }
}

// That part was read.
fn behind_part<H: Hashes, A: AsQuestion>(
    q: &A,
    r: &mut Reader<H>,
    level: u8,
    part: &PrunedEntry,
    piece: &[u8],
) -> Progress
    requires fits { FitsReader r.old }
    requires none { r.old.fault ≡ None }
    requires whole { IsWholePart (A.question q.now) r.old piece.now level part.now }
    ensures fits { FitsReader r.new }
    ensures fault { FaultOf r.new.fault result }
    ensures takes { TakesSome (length piece.now) result }
    ensures turns { (s : List ℕ) → StandsAt H.of H.holds (A.question q.now) r.old s
        → MakesProgress H.of H.holds (A.question q.now) s piece.now r.new result }
{
    let size = part_size(r.machine.head.version);
    let last = r.at + digest_place(r.machine.head.version);
    r.at += size;
    let stepped = pruned(q, &mut r.machine, level, part);
    behind(r, stepped, last, size)
}

// The record at the front of the piece and its size, where one is under way of which nothing is
// held, and the piece has the whole of it, up to the limit at most.
fn whole_record<H: Hashes>(r: &Reader<H>, piece: &[u8]) -> Option<(Record, usize)>
    requires fits { FitsReader r.now }
    requires stage { r.now.machine.stage ≡ stage.Number }
    ensures { IfSome result (λ p. IsWhole r.now piece.now p.0 p.1) }
{
    if !r.held.as_slice().is_empty() {
        return None;
    }
    match read_record_of(r.machine.head.version, piece) {
        Ok((one, size)) if size <= PLACE_LIMIT - r.at => Some((one, size)),
        _ => None,
    }
}

// The place of the length of a record's payload, behind this place of the record.
fn length_at(version: Version, at: usize) -> usize
    requires { at ≤ place_limit }
    ensures value { result ≡ at + length_place version }
    ensures bound { result ≤ at + 25 }
{
    match version {
        Version::One => at + 24,
        Version::Two => at + 25,
    }
}

// The place of a record's last field.
fn last_field(version: Version, at: usize, one: &Record) -> usize
    requires { at ≤ place_limit }
    ensures { result ≡ last_field version at one.now }
{
    let length = length_at(version, at);
    if one.payload.bytes().is_empty() {
        length
    } else {
        length + 1
    }
}

// That record was read.
fn behind_record<H: Hashes, A: AsQuestion>(
    q: &A,
    r: &mut Reader<H>,
    one: &Record,
    size: usize,
    piece: &[u8],
) -> Progress
    requires fits { FitsReader r.old }
    requires none { r.old.fault ≡ None }
    requires whole { IsWhole r.old piece.now one.now size }
    ensures fits { FitsReader r.new }
    ensures fault { FaultOf r.new.fault result }
    ensures takes { TakesSome (length piece.now) result }
    ensures turns { (s : List ℕ) → StandsAt H.of H.holds (A.question q.now) r.old s
        → MakesProgress H.of H.holds (A.question q.now) s piece.now r.new result }
{
    let last = last_field(r.machine.head.version, r.at, one);
    r.at += size;
    r.machine.latest = *one;
    let stepped = record(q, &mut r.machine);
    behind(r, stepped, last, size)
}

// The next pruned part, record or field, as far as the piece has it.
pub(crate) fn advance<H: Hashes, A: AsQuestion>(q: &A, r: &mut Reader<H>, piece: &[u8]) -> Progress
    requires fits { FitsReader r.old }
    requires none { r.old.fault ≡ None }
    ensures fits { FitsReader r.new }
    ensures fault { FaultOf r.new.fault result }
    ensures takes { TakesSome (length piece.now) result }
    ensures turns { (s : List ℕ) → StandsAt H.of H.holds (A.question q.now) r.old s
        → MakesProgress H.of H.holds (A.question q.now) s piece.now r.new result }
{
    match r.machine.stage {
        Stage::Tag(level) => match whole_part(q, r, level, piece) {
            None => by_field(q, r, piece),
            Some(part) => behind_part(q, r, level, &part, piece),
        },
        Stage::Number => match whole_record(r, piece) {
            None => by_field(q, r, piece),
            Some((one, size)) => behind_record(q, r, &one, size, piece),
        },
        _ => by_field(q, r, piece),
    }
}

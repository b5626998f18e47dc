//! Insertion and removal at their limits, over pages that are in no file. They are asked for below
//! a root that may not rise, where no page may be added, and where an entry would count more
//! records than a map has. The page of the root is blamed.

ghost use Rattle.std.specs.Prelude.{◌≡◌, ◌≤◌, ◌<◌, ◌+◌, ⊤, None, All, IfSome, true};
ghost use Rattle.mr_record.specs.Record.{HasLayer};
ghost use Rattle.mr_record.specs.declared.version.Version.TheVariants.{One, Two};
ghost use Rattle.mr_tree.specs.Digest.{by};
ghost use Rattle.mr_tree.specs.Hash.{xor_of};
ghost use Rattle.mr_tree.specs.Limits.{count_limit};
ghost use Rattle.mr_tree.specs.View.{AreTold};
ghost use Rattle.mr_tree.specs.declared.child.Child as types;
ghost use Rattle.mr_edit.specs.Held.{IsTold};
ghost use Rattle.mr_edit.specs.Replayed.{IsOfVersion};

use crate::assertions::holds;
use mr_batch::{Batch, Directory, read_batch2};
use mr_edit::{EditErr, PageFile, Pager, insert, replay};
use mr_pages::{FIRST, MapFault, MapRule, SECOND, child_on};
use mr_record::{Record, Version};
use mr_tree::{COUNT_LIMIT, Child, NodeView, XorHash};
use std::alloc::Global;
use std::collections::BTreeMap;

// Pages of which nothing is told. Each has as many entries as there may be, all at one place; none
// is free, and so many can be added.
#[derive(Drop)]
struct Full {
    room: u32,
}

// A child with these at the place of the blank record.
fn child_of(id: u32, level: u8) -> Child
    ensures level { result.level ≡ level }
    ensures told { IsTold One result }
{
    Child {
        id,
        level,
        mask: 0,
        count: 0,
        ..Child::blank()
    }
}

// As many children as there may be, of the level below this one.
fn children_below(level: u8) -> [Child; 64]
    requires { 1 ≤ level }
    ensures below { All (λ (c : types.Child). c.level + 1 ≡ level) result }
    ensures told { All (IsTold One) result }
{
    [child_of(9, level - 1); 64]
}

// The blank record, of which it is said that it is on layer 0.
fn blank() -> Record
    ensures first { HasLayer One result }
    ensures second { HasLayer Two result }
{
    Record {
        layer: 0,
        ..Record::blank()
    }
}

// As many records as a leaf may have.
fn full_row() -> [Record; 16]
    ensures first { All (HasLayer One) result }
    ensures second { All (HasLayer Two) result }
{
    [blank(); 16]
}

#[tactic(auto, using(crate::proofs::Layers::leaf_shown))]
fn show_leaf(into: &mut NodeView)
    ensures { AreTold One into.new }
{
    into.set_leaf(&full_row());
}

#[tactic(auto, using(crate::proofs::Layers::inner_shown))]
fn show_inner(level: u8, into: &mut NodeView)
    requires { (1 ≤ level) × (level ≤ 7) }
    ensures { AreTold One into.new }
{
    into.set_inner(level, &children_below(level));
}

// Shows a full node, where there is one of this level, and answers whether there is.
fn show(level: u8, into: &mut NodeView) -> bool
    ensures { result ≡ true → AreTold One into.new }
{
    match level {
        0 => {
            show_leaf(into);
            true
        }
        1..=7 => {
            show_inner(level, into);
            true
        }
        _ => false,
    }
}

impl PageFile for Full {
    ghost use Rattle.std.proofs.Common.{arith};

    ghost scheme = { by One xor_of };

    ghost told = { λ s. None };

    ghost faults = { λ s. 0 };

    ghost reads = { λ s. 0 };

    ghost kept = { λ s t. ⊤ };

    fn version(&self) -> Version {
        Version::One
    }

    fn entry(&self, view: &NodeView, page: u32) -> Child {
        child_on::<XorHash>(FIRST, view, page)
    }

    fn read(&mut self, child: &Child, into: &mut NodeView) -> Result<(), EditErr> {
        if !show(child.level, into) {
            return Err(EditErr::NoMemory);
        }
        if child.id == 0 {
            return Err(EditErr::NoMemory);
        }
        if into.level() != child.level {
            return Err(EditErr::NoMemory);
        }
        if into.len() == 0 {
            return Err(EditErr::NoMemory);
        }
        Ok(())
    }

    fn read_free(&mut self, _page: u32) -> Result<u32, EditErr> {
        Err(EditErr::NoMemory)
    }

    fn write(&mut self, _child: &Child, _view: &NodeView) -> Result<(), EditErr> {
        Ok(())
    }

    fn write_free(&mut self, _page: u32, _next: u32) -> Result<(), EditErr> {
        Ok(())
    }

    fn grow(&mut self) -> Result<u32, EditErr> {
        if self.room == 0 {
            return Err(EditErr::Map(MapFault {
                page: 0,
                rule: MapRule::Page,
            }));
        }
        self.room -= 1;
        Ok(7)
    }

    ghost kept_self = { λ s. tt };

    ghost kept_on = { λ s t u a b. tt };

    ghost kept_faults = { λ s t k. omega arith };
}

// Pages of version 2 of which nothing is told, all at one place and on layer 0. A leaf has 8
// records, and a node above it 24 entries. On level 1 each of them counts 8, but for the last one.
// On level 2 the first one counts what a node of level 1 does, and each of the others one record.
#[derive(Drop)]
struct Counting {
    last: u64,
}

// What the entries of a node of level 1 count together, but for the last one.
const COUNTED: u64 = 184;

// A child at the place of the blank record, with so many records on layer 0.
fn counting_child(level: u8, count: u64) -> Child
    requires some { 1 ≤ count }
    requires few { count ≤ count_limit }
    ensures level { result.level ≡ level }
    ensures told { IsTold Two result }
{
    Child {
        id: 9,
        level,
        mask: 1,
        count,
        ..Child::blank()
    }
}

// Children of the level below this one, of which each counts so many but for the one at a place.
fn counting_children(level: u8, each: u64, at: usize, other: u64) -> [Child; 24]
    requires level { 1 ≤ level }
    requires place { at < 24 }
    requires some { (1 ≤ each) × (1 ≤ other) }
    requires few { (each ≤ count_limit) × (other ≤ count_limit) }
    ensures below { All (λ (c : types.Child). c.level + 1 ≡ level) result }
    ensures told { All (IsTold Two) result }
{
    let mut list = [counting_child(level - 1, each); 24];
    list[at] = counting_child(level - 1, other);
    list
}

// Records of a leaf.
fn some_row() -> [Record; 8]
    ensures { All (HasLayer Two) result }
{
    [blank(); 8]
}

#[tactic(auto, using(crate::proofs::Layers::leaf_counted))]
fn show_counted_leaf(into: &mut NodeView)
    ensures { AreTold Two into.new }
{
    into.set_leaf(&some_row());
}

#[tactic(auto, using(crate::proofs::Layers::inner_counted))]
fn show_counted_inner(level: u8, each: u64, at: usize, other: u64, into: &mut NodeView)
    requires level { (1 ≤ level) × (level ≤ 7) }
    requires place { at < 24 }
    requires some { (1 ≤ each) × (1 ≤ other) }
    requires few { (each ≤ count_limit) × (other ≤ count_limit) }
    ensures { AreTold Two into.new }
{
    into.set_inner(level, &counting_children(level, each, at, other));
}

// Shows a node of this level, where there is one and its entries count what a map may have.
fn show_counted(level: u8, last: u64, into: &mut NodeView) -> bool
    ensures { result ≡ true → AreTold Two into.new }
{
    if last == 0 || last > COUNT_LIMIT {
        return false;
    }
    match level {
        0 => {
            show_counted_leaf(into);
            true
        }
        1 => {
            show_counted_inner(1, 8, 23, last, into);
            true
        }
        2 => {
            let below = last + COUNTED;
            if below > COUNT_LIMIT {
                return false;
            }
            show_counted_inner(2, 1, 0, below, into);
            true
        }
        _ => false,
    }
}

impl PageFile for Counting {
    ghost use Rattle.std.proofs.Common.{arith};

    ghost scheme = { by Two xor_of };

    ghost told = { λ s. None };

    ghost faults = { λ s. 0 };

    ghost reads = { λ s. 0 };

    ghost kept = { λ s t. ⊤ };

    fn version(&self) -> Version {
        Version::Two
    }

    fn entry(&self, view: &NodeView, page: u32) -> Child {
        child_on::<XorHash>(SECOND, view, page)
    }

    fn read(&mut self, child: &Child, into: &mut NodeView) -> Result<(), EditErr> {
        if !show_counted(child.level, self.last, into) {
            return Err(EditErr::NoMemory);
        }
        if child.id == 0 {
            return Err(EditErr::NoMemory);
        }
        if into.level() != child.level {
            return Err(EditErr::NoMemory);
        }
        if into.len() == 0 {
            return Err(EditErr::NoMemory);
        }
        Ok(())
    }

    fn read_free(&mut self, _page: u32) -> Result<u32, EditErr> {
        Err(EditErr::NoMemory)
    }

    fn write(&mut self, _child: &Child, _view: &NodeView) -> Result<(), EditErr> {
        Ok(())
    }

    fn write_free(&mut self, _page: u32, _next: u32) -> Result<(), EditErr> {
        Ok(())
    }

    fn grow(&mut self) -> Result<u32, EditErr> {
        Ok(7)
    }

    ghost kept_self = { λ s. tt };

    ghost kept_on = { λ s t u a b. tt };

    ghost kept_faults = { λ s t k. omega arith };
}

// What a change came to: done, refused since this page is none that may stand there, or refused for
// another cause.
#[derive(Drop)]
enum Answer {
    Done,
    Blamed(u32),
    Refused,
}

fn refusal_of(error: &EditErr) -> Answer {
    match error {
        EditErr::Map(
            MapFault {
                page,
                rule: MapRule::Page,
            },
        ) => Answer::Blamed(*page),
        _ => Answer::Refused,
    }
}

fn answer_of(put: &Result<Child, EditErr>) -> Answer {
    match put {
        Ok(_) => Answer::Done,
        Err(error) => refusal_of(error),
    }
}

// Whether this page was blamed, or the change was done where there is none.
fn is_blamed(answer: &Answer, page: &Option<u32>) -> bool {
    match (answer, page) {
        (Answer::Done, None) => true,
        (Answer::Blamed(found), Some(page)) => found == page,
        _ => false,
    }
}

// What becomes of a record that is put below a root, where so many pages can be added.
fn put_in_full(alloc: Global, root: Option<Child>, room: u32) -> Answer {
    let mut pager = Pager::new(alloc, Full { room }, 0);
    answer_of(&insert(alloc, &mut pager, root, &blank()))
}

// A root on page 5 of this level in version 2.
fn counting_root(level: u8) -> Child {
    Child {
        id: 5,
        level,
        mask: 1,
        count: 1,
        ..Child::blank()
    }
}

// The same where nodes of version 2 count so many in their last entry.
fn put_in_counting(alloc: Global, level: u8, last: u64) -> Answer {
    let mut pager = Pager::new(alloc, Counting { last }, 0);
    answer_of(&insert(alloc, &mut pager, Some(counting_root(level)), &blank()))
}

// A batch that takes the record with the blank one's number out.
#[tactic(auto, using(crate::proofs::Layers::of_version))]
fn removal(alloc: Global) -> Option<Batch>
    ensures { IfSome result (λ b. All (IsOfVersion Two) b.list) }
{
    match read_batch2(alloc, b"batch 1\n- 0\n") {
        Ok(batch) => Some(batch),
        Err(_) => None,
    }
}

// What becomes of that batch there.
fn take_from_counting(alloc: Global, level: u8, last: u64) -> Answer {
    let Some(batch) = removal(alloc) else {
        return Answer::Refused;
    };
    let mut dir = Directory::over(BTreeMap::new(alloc));
    if dir.put(0, blank().rect).is_err() {
        return Answer::Refused;
    }
    let mut pager = Pager::new(alloc, Counting { last }, 0);
    let mut root = Some(counting_root(level));
    match replay(alloc, &mut pager, &mut root, &mut dir, &batch) {
        Ok(()) => Answer::Done,
        Err(error) => refusal_of(&error),
    }
}

// The level of the root on page 5, or that there is none, the pages that can be added, and the page
// that is blamed: a root that may not rise; no room for a first root, for a leaf that is split, and
// for the root above it; and room enough.
const BLAMED: &[(Option<u8>, u32, Option<u32>)] = &[
    (Some(7), 100, Some(5)),
    (None, 0, Some(0)),
    (Some(0), 0, Some(5)),
    (Some(0), 1, Some(5)),
    (Some(0), 2, None),
];

// The level of the root on page 5, what the last entry of a node of level 1 counts, or that the map
// is of version 1, which keeps no count, and the page that is blamed. Just as many records as a map
// has, and one more: in a root of level 1, and of level 2; and in the node below that, for which
// the root is blamed too. An entry that counts as many as a map has already. And full nodes that
// count nothing.
const COUNTS: &[(u8, Option<u64>, Option<u32>)] = &[
    (1, Some(COUNT_LIMIT - 185), None),
    (1, Some(COUNT_LIMIT - 184), Some(5)),
    (2, Some(COUNT_LIMIT - 208), None),
    (2, Some(COUNT_LIMIT - 207), Some(5)),
    (2, Some(COUNT_LIMIT - 184), Some(5)),
    (1, Some(COUNT_LIMIT), Some(5)),
    (1, None, None),
    (2, None, None),
];

// The same where a record is taken out. One more than a map has are counted before, which is not
// seen of a root, and two more.
const TAKEN: &[(u8, u64, Option<u32>)] = &[
    (1, COUNT_LIMIT - 183, None),
    (1, COUNT_LIMIT - 182, Some(5)),
    (2, COUNT_LIMIT - 206, None),
    (2, COUNT_LIMIT - 205, Some(5)),
];

fn are_blamed(alloc: Global) -> bool {
    for (level, room, page) in BLAMED {
        let root = match level {
            Some(level) => Some(child_of(5, *level)),
            None => None,
        };
        if !is_blamed(&put_in_full(alloc, root, *room), page) {
            return false;
        }
    }
    true
}

fn are_counted(alloc: Global) -> bool {
    for (level, last, page) in COUNTS {
        let answer = match last {
            Some(last) => put_in_counting(alloc, *level, *last),
            None => put_in_full(alloc, Some(child_of(5, *level)), 100),
        };
        if !is_blamed(&answer, page) {
            return false;
        }
    }
    true
}

fn are_taken(alloc: Global) -> bool {
    for (level, last, page) in TAKEN {
        if !is_blamed(&take_from_counting(alloc, *level, *last), page) {
            return false;
        }
    }
    true
}

#[test]
fn a_root_that_may_not_rise_and_a_file_that_may_not_grow(rt: HostRuntime) {
    holds(&rt, "the page of the root", are_blamed(rt.alloc()));
}

#[test]
fn an_entry_that_may_not_count_more(rt: HostRuntime) {
    holds(&rt, "by an insertion", are_counted(rt.alloc()));
    holds(&rt, "by a removal", are_taken(rt.alloc()));
}

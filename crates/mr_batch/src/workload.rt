//! Workloads that are made up: records and queries of the words of SplitMix64 (Steele, Lea and
//! Flood 2014), as the crate `rand_xoshiro` has it.

ghost use Rattle.std.specs.Prelude.{◌≡◌, ℕ, ◌+◌, ◌^◌, ◌≤◌, pos, negsuc, ◌≤ℤ◌, ◌∷◌, All, IfOk, length};
ghost use Rattle.mr_record.specs.Record.{IsRecord};
ghost use Rattle.mr_record.specs.RecordText.{IsRecordList};
ghost use Rattle.mr_record.specs.declared.version.Version.TheVariants.{One};
ghost use Rattle.mr_query.specs.Word.{IsCounted, IsAskable};
ghost use Rattle.mr_batch.specs.Workload.{words, upper, lower, coordinate, rectangle_from, extent, rectangle_of_word, record_of_word, generated, shape_of_word, query_of_word, generated_queries};

use mr_geom::{Point, Rect};
use mr_query::{Query, Shape};
use mr_record::{Payload, Record, is_record};
use rand_core::SeedableRng;
use rand_core::utils::NextWord;
use rand_xoshiro::SplitMix64;
use std::alloc::{AllocError, Global};

// How wide and high a made-up window is, in map units.
const WINDOW_SIDE: i32 = 20_000;

// How many records a made-up query for the nearest asks for.
const NEIGHBOURS: u16 = 10;

fn next_word(generator: &mut SplitMix64) -> u64
    ensures { (k : ℕ) → words (k + 1) generator.old ≡ result ∷ words k generator.new }
{
    generator.next_word()
}

fn upper(word: u64) -> u32
    ensures { result ≡ upper word }
{
    (word >> 32) as u32
}

fn lower(word: u64) -> u32
    ensures { result ≡ lower word }
{
    (word % (1 << 32)) as u32
}

// The coordinate of one half of a word, in map units.
fn coordinate(half: u32) -> i32
    ensures value { result ≡ coordinate half }
    ensures low { negsuc 999999 ≤ℤ result }
    ensures high { result ≤ℤ pos 999999 }
{
    (half % 2_000_000) as i32 - 1_000_000
}

// How wide or high the rectangle of a word is, in map units.
fn extent(half: u32) -> i32
    ensures value { result ≡ extent half }
    ensures low { pos 0 ≤ℤ result }
    ensures high { result ≤ℤ pos 63 }
{
    (half % 64) as i32
}

// The rectangle from its lower left corner on, all in map units.
fn rectangle_from(x: i32, y: i32, width: i32, height: i32) -> Rect
    requires left { x ≤ℤ pos 999999 }
    requires low { y ≤ℤ pos 999999 }
    requires least_width { pos 0 ≤ℤ width }
    requires least_height { pos 0 ≤ℤ height }
    requires width { width ≤ℤ pos 20000 }
    requires height { height ≤ℤ pos 20000 }
    ensures { result ≡ rectangle_from x y width height }
{
    match Rect::new(x, y, x + width, y + height) {
        Some(rect) => rect,
        None => unreachable!(),
    }
}

#[tactic(auto, unfolding(crate::specs::Workload::rectangle_of_word))]
fn rectangle_of(word: u64) -> Rect
    ensures { result ≡ rectangle_of_word word }
{
    let (a, b) = (upper(word), lower(word));
    rectangle_from(coordinate(a), coordinate(b), extent(a), extent(b))
}

// The record of a number and a word.
#[tactic(auto, unfolding(crate::specs::Workload::record_of_word))]
fn record_of(number: u64, word: u64) -> Record
    ensures value { result ≡ record_of_word number word }
    ensures record { IsRecord result }
{
    let rect = rectangle_of(word);
    match Payload::new(&word.to_be_bytes()) {
        Some(payload) => {
            let one = Record {
                number,
                rect,
                layer: 0,
                payload,
            };
            is_record(&one);
            one
        }
        None => unreachable!(),
    }
}

/// `n` records, numbered from 1, each of one word of SplitMix64 whose state begins as `start`. The
/// upper half of the word gives the sides from left to right, the lower half those from low to
/// high. Lower corners lie within 1,000,000 map units of 0, and no rectangle is wider or higher
/// than 63. The payload is the 8 bytes of the word, the highest first. The only error is want of
/// memory.
pub fn generate(alloc: Global, n: u32, start: u64) -> Result<Vec<Record>, AllocError>
    requires { n ≤ 2 ^ 20 }
    ensures exact { IfOk result (λ v. v.items ≡ generated n start) }
    ensures records { IfOk result (λ v. IsRecordList One v.items) }
    ensures count { IfOk result (λ v. length v.items ≡ n) }
{
    let mut records = Vec::with_capacity(alloc, n as usize)?;
    let mut generator = SplitMix64::seed_from_u64(start);
    for i in 0..n {
        let word = next_word(&mut generator);
        records.push_reserved(record_of(u64::from(i) + 1, word));
    }
    Ok(records)
}

// What is asked at a place by a word.
#[tactic(auto, unfolding(crate::specs::Workload::shape_of_word))]
fn shape_of(place: u32, word: u64) -> Shape
    ensures value { result ≡ shape_of_word place word }
    ensures counted { IsCounted result }
{
    let x = coordinate(upper(word));
    let y = coordinate(lower(word));
    if place % 2 == 0 {
        Shape::Window(rectangle_from(x, y, WINDOW_SIDE, WINDOW_SIDE))
    } else {
        Shape::Nearest {
            center: Point { x, y },
            k: NEIGHBOURS,
        }
    }
}

/// `n` queries, each of one word of SplitMix64 whose state begins as `start`. The first, and each
/// second one after it, is a square window of 20,000 map units a side. The others ask for the 10
/// nearest records. All of them are of all layers. The upper half of the word gives x, the lower
/// half y, both within 1,000,000 map units of 0. The only error is want of memory.
pub fn generate_queries(alloc: Global, n: u32, start: u64) -> Result<Vec<Query>, AllocError>
    requires { n ≤ 65536 }
    ensures exact { IfOk result (λ v. v.items ≡ generated_queries n start) }
    ensures askable { IfOk result (λ v. All IsAskable v.items) }
    ensures count { IfOk result (λ v. length v.items ≡ n) }
{
    let mut queries = Vec::with_capacity(alloc, n as usize)?;
    let mut generator = SplitMix64::seed_from_u64(start);
    for place in 0..n {
        let word = next_word(&mut generator);
        queries.push_reserved(Query::of(shape_of(place, word)));
    }
    Ok(queries)
}

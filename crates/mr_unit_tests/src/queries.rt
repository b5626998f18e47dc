//! Query words, regions and the answer of a scan, by their calls.

use crate::assertions::all_hold_in_memory;
use crate::calls::{Kind, first_untrue, numbers, rect_in, sides_of};
use crate::made::record_at;
use mr_batch::generate_queries;
use mr_geom::{Point, Region};
use mr_outside::{MemSink, Sink};
use mr_query::{
    Area, Circle, Everywhere, Key, Query, QueryFault, Shape, Window, answer as answer_to, rank,
    read_query, write_query,
};
use mr_record::Record;
use std::alloc::{AllocError, Global};

// Of a word that is no query the first fault counts: what stands before its first `/` goes before
// the mask. A region meets what touches its border: here the squared distance of the rectangle from
// (0, 0) is 25. The area of a query is asked of a part with layers 0 and 5.
const WORDS: &str = "read window:-2147483648,-1,0,2147483647 = window -2147483648 -1 0 2147483647\n\
    read nearest:-2147483648,2147483647,1024 = nearest -2147483648 2147483647 1024\n\
    read nearest:-2147483648,2147483647,1 = nearest -2147483648 2147483647 1\n\
    read neares:0,0,1 = Kind\n\
    read Nearest:0,0,1 = Kind\n\
    read window = Kind\n\
    read  = Kind\n\
    read window:x,0,0 = Parts\n\
    read window:0,0,0,0, = Parts\n\
    read window:1,+1,0,00 = Number 2\n\
    read window:0,0,0,2147483648 = Number 4\n\
    read window:1,0,0,0 = Order\n\
    read nearest:0,0 = Parts\n\
    read nearest:0,0,1, = Parts\n\
    read nearest:x,y,0 = Number 1\n\
    read nearest:0,y,0 = Number 2\n\
    read nearest:0,0,0 = Number 3\n\
    read nearest:0,0,1025 = Number 3\n\
    read nearest:0,0,+1 = Number 3\n\
    read nearest:0,0,01 = Number 3\n\
    read nearest:0,0,18446744073709551616 = Number 3\n\
    read window:0,0,1,1/0000000000000020 = window 0 0 1 1 of 32\n\
    read nearest:0,0,1/ffffffffffffffff = nearest 0 0 1 of 18446744073709551615\n\
    read window:0,0,1,1/0000000000000000 = window 0 0 1 1 of 0\n\
    read window:0,0,1,1/ = Mask\n\
    read window:0,0,1,1/000000000000002 = Mask\n\
    read window:0,0,1,1/00000000000000020 = Mask\n\
    read window:0,0,1,1/00000000000000AF = Mask\n\
    read window:0,0,1,1/0000000000000020/ = Mask\n\
    read window:0,0,1/ = Parts\n\
    read window/0000000000000020 = Kind\n\
    read /0000000000000020 = Kind\n\
    written window:-2147483648,-1,0,2147483647 = window:-2147483648,-1,0,2147483647\n\
    written nearest:-7,2147483647,1024 = nearest:-7,2147483647,1024\n\
    written window:-2147483648,-2147483648,-2147483647,-2147483647/fedcba9876543210 = \
    window:-2147483648,-2147483648,-2147483647,-2147483647/fedcba9876543210\n\
    written nearest:0,0,1/0000000000000001 = nearest:0,0,1/0000000000000001\n\
    generated 2 = window:791033,550767,811033,570767 nearest:398634,282036,10 ";

const REGIONS: &str = "window 0 0 2 2 2 2 3 3 = true\n\
    window 0 0 2 2 3 0 4 2 = false\n\
    circle 25 3 4 5 6 = true\n\
    circle 24 3 4 5 6 = false\n\
    everywhere 3 4 5 6 = true\n\
    area nearest:0,0,1 25 3 4 5 6 = true\n\
    area nearest:0,0,1 24 3 4 5 6 = false\n\
    area nearest:0,0,1 none 3 4 5 6 = true\n\
    area window:0,0,3,4 none 3 4 5 6 = true\n\
    area window:0,0,3,4 none 4 0 5 6 = false\n\
    area window:0,0,3,4 0 3 4 5 6 = true\n\
    area window:0,0,3,4 0 4 0 5 6 = false\n\
    area window:0,0,3,4/0000000000000020 3 4 5 6 = true\n\
    area window:0,0,3,4/ffffffffffffffde 3 4 5 6 = false\n\
    area window:0,0,3,4/0000000000000001 4 0 5 6 = false\n\
    area nearest:0,0,1/0000000000000000 none 3 4 5 6 = false\n\
    area nearest:0,0,1/0000000000000003 25 3 4 5 6 = true\n\
    area nearest:0,0,1/0000000000000002 25 3 4 5 6 = false";

// Points by their number, their left side and their layer: (9, 1) is nearest to (0, 0), the others
// are equally near to it, and two of those have one number. To rank them no layer counts.
const ANSWERS: &str = "ranked 4 = 9:1 2:3 2:-3 5:3 \n\
    ranked 5 = 9:1 2:3 2:-3 5:3 \n\
    ranked 1 = 9:1 \n\
    answered window:-3,0,2,0 = 2:-3 9:1 \n\
    answered nearest:0,0,2 = 9:1 2:3 \n\
    answered window:-3,0,2,0/0000000000000020 = 9:1 \n\
    answered window:-3,0,2,0/0000000000000002 = \n\
    answered nearest:0,0,2/0000000000000001 = 2:-3 5:3 \n\
    answered nearest:0,0,1/0000000000000001 = 2:-3 \n\
    answered nearest:0,0,3/0000000000000020 = 9:1 2:3 \n\
    answered nearest:0,0,1/0000000000000000 = ";

const POINTS: &[(u64, i32, u8)] = &[(5, 3, 0), (2, 3, 5), (2, -3, 0), (9, 1, 5)];

// The layers of the part that an area is asked of.
const LAYERS: u64 = 0b10_0001;

fn fault_of(alloc: Global, fault: QueryFault) -> Result<String, AllocError> {
    match fault {
        QueryFault::Kind => String::from_str(alloc, "Kind"),
        QueryFault::Parts => String::from_str(alloc, "Parts"),
        QueryFault::Number { part } => format!(in alloc; "Number {part}"),
        QueryFault::Order => String::from_str(alloc, "Order"),
        QueryFault::Mask => String::from_str(alloc, "Mask"),
    }
}

fn shape_of(alloc: Global, shape: &Shape) -> Result<String, AllocError> {
    match shape {
        Shape::Window(rect) => {
            let sides = sides_of(alloc, rect)?;
            format!(in alloc; "window {sides}")
        }
        Shape::Nearest { center, k } => {
            let (x, y) = (center.x, center.y);
            format!(in alloc; "nearest {x} {y} {k}")
        }
    }
}

// A query's parts, and its mask where it names one.
fn parts_of(alloc: Global, query: &Query) -> Result<String, AllocError> {
    let shape = shape_of(alloc, &query.shape)?;
    match query.mask {
        Some(mask) => format!(in alloc; "{shape} of {mask}"),
        None => Ok(shape),
    }
}

fn read(alloc: Global, word: &str) -> Result<String, AllocError> {
    match read_query(word) {
        Ok(query) => parts_of(alloc, &query),
        Err(fault) => fault_of(alloc, fault),
    }
}

// The word of a query that is written.
fn written(alloc: Global, word: &str) -> Result<String, AllocError> {
    let mut out = MemSink::new(alloc, Vec::new(alloc));
    if let Ok(query) = read_query(word) {
        let _ = write_query(&mut out, &query);
    }
    String::from_str(alloc, str::from_utf8(out.bytes()).unwrap_or(""))
}

// The words of the first two queries that are generated.
fn generated(alloc: Global) -> Result<String, AllocError> {
    let mut out = MemSink::new(alloc, Vec::new(alloc));
    for query in &generate_queries(alloc, 2, 0)? {
        let _ = write_query(&mut out, query);
        let _ = out.write(b" ");
    }
    String::from_str(alloc, str::from_utf8(out.bytes()).unwrap_or(""))
}

fn is_met<R: Region>(region: &R, sides: &[i32]) -> Option<bool> {
    Some(region.meets(&rect_in(sides)?))
}

fn is_met_by(call: &str, all: &[i32]) -> Option<bool> {
    match (call, all) {
        ("circle", [r2, sides @ ..]) => {
            let center = Point { x: 0, y: 0 };
            let r2 = u128::try_from(*r2).unwrap_or(0);
            is_met(&Circle { center, r2 }, sides)
        }
        ("window", [x0, y0, x1, y1, sides @ ..]) => {
            let rect = rect_in(&[*x0, *y0, *x1, *y1])?;
            is_met(&Window { rect }, sides)
        }
        _ => is_met(&Everywhere, all),
    }
}

// The area of a query, with the squared radius in front of the sides where there is one.
fn is_met_by_area(word: &str, all: &[i32]) -> Option<bool> {
    let Ok(query) = read_query(word) else {
        return None;
    };
    let (radius, sides) = match all {
        [r2, sides @ ..] if sides.len() == 4 => (u128::try_from(*r2).ok(), sides),
        _ => (None, all),
    };
    let part = Key {
        rect: rect_in(sides)?,
        mask: LAYERS,
    };
    Some(Area { query, radius }.reaches(&part))
}

fn met(alloc: Global, call: &str, words: &str) -> Result<String, AllocError> {
    let all = numbers(alloc, words)?;
    let (word, _) = words.split_once(' ').unwrap_or((words, ""));
    let is_met = if call == "area" {
        is_met_by_area(word, &all)
    } else {
        is_met_by(call, &all)
    };
    let told = match is_met {
        Some(true) => "true",
        Some(false) => "false",
        None => "none",
    };
    String::from_str(alloc, told)
}

fn points(alloc: Global) -> Result<Vec<Record>, AllocError> {
    let mut list = Vec::new(alloc);
    for (number, x, layer) in POINTS {
        if let Some(record) = record_at(*number, (*x, 0, *x, 0)) {
            list.push(Record {
                layer: *layer,
                ..record
            })?;
        }
    }
    Ok(list)
}

fn shown(alloc: Global, list: &[Record]) -> Result<String, AllocError> {
    let mut text = String::new(alloc);
    for one in list {
        let (number, (x, _, _, _)) = (one.number, one.rect.corners());
        text.push_str(format!(in alloc; "{number}:{x} ")?.as_str())?;
    }
    Ok(text)
}

fn ranked(alloc: Global, words: &str) -> Result<String, AllocError> {
    let k = words.parse::<u16>().unwrap_or(0);
    shown(
        alloc,
        &rank(alloc, &points(alloc)?, &Point { x: 0, y: 0 }, k)?,
    )
}

fn answered(alloc: Global, word: &str) -> Result<String, AllocError> {
    match read_query(word) {
        Ok(query) => shown(alloc, &answer_to(points(alloc)?, &query)?),
        Err(fault) => fault_of(alloc, fault),
    }
}

/// What a call on queries, regions or points answers.
pub fn answer(alloc: Global, call: &str, words: &str) -> Result<String, AllocError> {
    match call {
        "read" => read(alloc, words),
        "written" => written(alloc, words),
        "generated" => generated(alloc),
        "ranked" => ranked(alloc, words),
        "answered" => answered(alloc, words),
        _ => met(alloc, call, words),
    }
}

#[test]
fn words_of_queries(rt: HostRuntime) {
    all_hold_in_memory(&rt, first_untrue(rt.alloc(), Kind::Queries, WORDS));
}

#[test]
fn regions_and_answers(rt: HostRuntime) {
    all_hold_in_memory(&rt, first_untrue(rt.alloc(), Kind::Queries, REGIONS));
    all_hold_in_memory(&rt, first_untrue(rt.alloc(), Kind::Queries, ANSWERS));
}

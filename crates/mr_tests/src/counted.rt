//! Counts beside a scan, in windows that are drawn, with masks and without, on a map of three
//! levels in version 2, in which each record is on the layer of its column. Each is proved, checked
//! and audited. The root is from a program of another language.

ghost use Rattle.std.specs.Prelude.{◌<◌};

use crate::assertions::holds;
use mr_fixtures::runs::{ran_on, shelf_of};
use mr_outside::MemShelf;
use mr_pages::open_plain;
use mr_record::Record;
use mr_tool::Status::Done;
use mr_tree::{Sha, records_of};
use std::alloc::{AllocError, Global};
use std::thread::Threads;

const WINDOWS: u64 = 500;

const ROOT: &str = "4d7321b302bd485fc7736cf77d4065745bef9b7df754ffe288ed3bb378ac3f56";

// What is asked for: the sides of a window, and the layers. A mask of all layers is not named.
#[derive(Clone, Copy)]
struct Asked {
    x0: u64,
    y0: u64,
    x1: u64,
    y1: u64,
    mask: u64,
}

// The next number of a stream.
fn next(seed: &mut u64) -> u64 {
    *seed = seed
        .wrapping_mul(6_364_136_223_846_793_005)
        .wrapping_add(1_442_695_040_888_963_407);
    *seed >> 33
}

// The layers that are asked for: all, none, about half of them, or about three quarters.
fn layers(seed: &mut u64) -> u64 {
    let one = next(seed).wrapping_mul(11_400_714_819_323_198_485);
    let other = next(seed).wrapping_mul(13_787_848_793_156_543_929);
    match next(seed) % 6 {
        0 => 0,
        1 => one,
        2 => one | other,
        3 => !(one & other),
        _ => u64::MAX,
    }
}

// How wide a window is: little, a quarter of the map, or all of it.
fn width(seed: &mut u64) -> u64
    ensures { result < 21000 }
{
    match next(seed) % 3 {
        0 => next(seed) % 600,
        1 => next(seed) % 6_000,
        _ => next(seed) % 21_000,
    }
}

fn drawn(seed: &mut u64) -> Asked {
    let (x0, y0) = (next(seed) % 20_000, next(seed) % 20_000);
    Asked {
        x0,
        y0,
        x1: x0 + width(seed),
        y1: y0 + width(seed),
        mask: layers(seed),
    }
}

// The query's word.
fn word(alloc: Global, asked: &Asked) -> Result<String, AllocError> {
    let Asked {
        x0,
        y0,
        x1,
        y1,
        mask,
    } = *asked;
    let mut word = format!(in alloc; "window:{x0},{y0},{x1},{y1}")?;
    if mask != u64::MAX {
        word.push('/')?;
        word.push_str(hex::encode(alloc, &mask.to_be_bytes())?.as_str())?;
    }
    Ok(word)
}

// The mask of a layer.
fn bit_of(layer: u8) -> u64 {
    let mut bit = 1u64;
    for _ in 0..layer {
        bit = bit.wrapping_mul(2);
    }
    bit
}

// Whether a record lies inside.
fn is_inside(asked: &Asked, one: &Record) -> bool {
    let (x0, y0, x1, y1) = one.rect.corners();
    let is_right = i128::from(asked.x0) <= i128::from(x0) && i128::from(x1) <= i128::from(asked.x1);
    let is_high = i128::from(asked.y0) <= i128::from(y0) && i128::from(y1) <= i128::from(asked.y1);
    is_right && is_high && asked.mask & bit_of(one.layer) != 0
}

// How many of the records do.
fn scanned(asked: &Asked, records: &[Record]) -> u64 {
    let mut number = 0u64;
    for one in records {
        if is_inside(asked, one) {
            number = number.wrapping_add(1);
        }
    }
    number
}

// The map in file `m`, and its records.
fn mapped<R: Threads + Sync>(
    rt: &R,
    alloc: Global,
) -> Result<(MemShelf, Option<Vec<Record>>), AllocError> {
    let shelf = shelf_of(alloc, &[("r", "places2 1 2000")], &[])?;
    let mut said = Vec::new(alloc);
    let (_, left) = ran_on::<Sha, R>(rt, alloc, "build2 m r", shelf, &mut said)?;
    let mut left = left;
    let records = match open_plain::<Sha, MemShelf>(alloc, &mut left, "m") {
        Ok(map) => Some(records_of(alloc, &map.tree)?),
        Err(_) => None,
    };
    Ok((left, records))
}

// Whether a command line is done, and prints this.
fn prints<R: Threads + Sync>(
    rt: &R,
    alloc: Global,
    line: &str,
    shelf: MemShelf,
    text: &str,
) -> Result<(MemShelf, bool), AllocError> {
    let mut said = Vec::new(alloc);
    let (status, left) = ran_on::<Sha, R>(rt, alloc, line, shelf, &mut said)?;
    Ok((left, status == Done && said.as_slice() == text.as_bytes()))
}

// Whether the count of what is asked for is proved, is this one, and is sound.
fn is_counted<R: Threads + Sync>(
    rt: &R,
    alloc: Global,
    asked: &Asked,
    number: u64,
    shelf: MemShelf,
) -> Result<(MemShelf, bool), AllocError> {
    let query = word(alloc, asked)?;
    let query = query.as_str();
    let mut said = Vec::new(alloc);
    let count = format!(in alloc; "count m {query} p")?;
    let (status, left) = ran_on::<Sha, R>(rt, alloc, count.as_str(), shelf, &mut said)?;
    let check = format!(in alloc; "check-count {ROOT} {query} p")?;
    let text = format!(in alloc; "count {number}\n")?;
    let (left, is_so) = prints(rt, alloc, check.as_str(), left, text.as_str())?;
    let audit = format!(in alloc; "audit-count m {query} p")?;
    let text = format!(in alloc; "sound\ncount {number}\n")?;
    let (left, is_sound) = prints(rt, alloc, audit.as_str(), left, text.as_str())?;
    Ok((left, status == Done && is_so && is_sound))
}

// The number of the first window whose count is not that of a scan, 0 where all are.
fn first_other<R: Threads + Sync>(rt: &R, alloc: Global) -> Result<u64, AllocError> {
    let (shelf, records) = mapped(rt, alloc)?;
    let Some(records) = records else {
        return Ok(WINDOWS);
    };
    let mut shelf = shelf;
    let mut seed = 18u64;
    for window in 0..WINDOWS {
        let asked = drawn(&mut seed);
        let number = scanned(&asked, &records);
        let (left, is_so) = is_counted(rt, alloc, &asked, number, shelf)?;
        if !is_so {
            return Ok(window.wrapping_add(1));
        }
        shelf = left;
    }
    Ok(0)
}

fn are_scanned<R: Threads + Sync>(rt: &R, alloc: Global) -> Result<bool, AllocError> {
    Ok(first_other(rt, alloc)? == 0)
}

#[test]
fn counts_in_windows_that_are_drawn(rt: HostRuntime) {
    holds(&rt, "each count", are_scanned(&rt, rt.alloc()));
}

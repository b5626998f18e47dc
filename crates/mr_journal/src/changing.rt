//! The pages in which a new map differs from an old one.

ghost use Rattle.std.specs.Prelude.{◌≡◌, ◌≤◌, ◌<◌, ◌++◌, ◌==◌, true, length, bytes_eq, IfOk, OnOk};
ghost use Rattle.std.specs.List.{flat_map};
ghost use Rattle.mr_journal.specs.Format.{page_size, is_version, spelled_page, page_of};
ghost use Rattle.mr_journal.specs.Changed.{page_in, is_changed, changed, spelled_if, IsLonger, IsChange};

use crate::body::size_of;
use crate::spelling::{spell_head, spell_page};
use std::alloc::{AllocError, Global};

// The bytes of a page, as far as there are.
fn page_at(size: usize, number: u32, bytes: &[u8]) -> &[u8]
    requires { size ≤ 8192 }
    ensures { result.now ≡ page_in size number bytes.now }
{
    let start = (u64::from(number) * size as u64).min(bytes.len() as u64) as usize;
    let (_, rest) = bytes.split_at(start);
    let (page, _) = rest.split_at(rest.len().min(size));
    page
}

fn is_same(one: &[u8], other: &[u8]) -> bool
    ensures { result ≡ bytes_eq one.now other.now }
{
    one == other
}

// Whether the page is page 0, or is new or other than in the old map.
fn differs(size: usize, number: u32, old: &[u8], new: &[u8]) -> bool
    requires { size ≤ 8192 }
    ensures { result ≡ is_changed size number old.now new.now }
{
    if number == 0 {
        return true;
    }
    !is_same(page_at(size, number, old), page_at(size, number, new))
}

// How many of so many pages of the new map are changed.
fn count_changed(size: usize, old: &[u8], new: &[u8], pages: u32) -> u32
    requires { size ≤ 8192 }
    ensures { result ≡ length (changed size old.now new.now 0 pages) }
{
    let mut count = 0;
    let mut number = 0;
    while number < pages {
        if differs(size, number, old, new) {
            count += 1;
        }
        number += 1;
    }
    count
}

// Puts the page to the end of a body, if it is changed.
fn spell_if_changed(
    body: &mut Vec<u8>,
    size: usize,
    number: u32,
    old: &[u8],
    new: &[u8],
) -> Result<(), AllocError>
    requires { size ≤ 8192 }
    ensures { let changed = is_changed size number old.now new.now in
        OnOk result (body.new.items
        ≡ body.old.items ++ spelled_if changed (page_of number (page_in size number new.now))) }
{
    if differs(size, number, old, new) {
        return spell_page(body, number, page_at(size, number, new));
    }
    Ok(())
}

// Puts the changed ones of so many pages to the end of a body.
fn spell_pages(
    body: &mut Vec<u8>,
    size: usize,
    old: &[u8],
    new: &[u8],
    pages: u32,
) -> Result<(), AllocError>
    requires { size ≤ 8192 }
    ensures { OnOk result (body.new.items
        ≡ body.old.items ++ flat_map spelled_page (changed size old.now new.now 0 pages)) }
{
    let mut number = 0;
    while number < pages {
        spell_if_changed(body, size, number, old, new)?;
        number += 1;
    }
    Ok(())
}

/// The body of a journal that makes a new map, of so many pages, of an old one. It has page 0, and
/// each page that is new or other than in the old map, in rising number. The new map is no shorter
/// than the old one; `version` is 1 or 2. A refusal is want of memory.
pub fn spell_changes(
    alloc: Global,
    version: u8,
    pages: u32,
    old: &[u8],
    new: &[u8],
) -> Result<Vec<u8>, AllocError>
    requires version { is_version version ≡ true }
    requires longer { IsLonger (page_size version) pages old.now new.now }
    ensures { IfOk result (λ b. IsChange version old.now new.now b.items) }
{
    let Some(size) = size_of(version) else {
        return Err(AllocError);
    };
    let count = count_changed(size, old, new, pages);
    let mut body = spell_head(alloc, version, count)?;
    spell_pages(&mut body, size, old, new, pages)?;
    Ok(body)
}

//! The body of a journal as it is read: whether it is whole, and where its pages stand.

ghost use Rattle.std.specs.Prelude.{◌≡◌, ◌==◌, ℕ, ◌+◌, ◌*◌, ◌<◌, ◌≤◌, ◌^◌, ◌∷◌, length, true, false, Option, Some, None, MatchOption};
ghost use Rattle.mr_journal.specs.Format.{page_size, is_version, number_of, first_page, fits, entries, pages_fit, ready, opens};
ghost use Rattle.mr_journal.specs.private.Parsed.{IsParsed};

use crate::gate::GATE;

// Numbers of pages are below this, and there are at most so many entries.
const LIMIT: u32 = 0x10_0000;

/// The entries of a body.
#[derive(Drop)]
pub(crate) struct Entries<'a> {
    /// How many bytes a page has.
    pub(crate) size: usize,
    pub(crate) count: u32,
    pub(crate) bytes: &'a [u8],
}

/// How many bytes a page has in a map of this version, where there is one.
pub(crate) fn size_of(version: u8) -> Option<usize>
    ensures { MatchOption result (is_version version ≡ false)
        (λ n. (is_version version ≡ true) × (n ≡ page_size version) × (1 ≤ n) × (n ≤ 8192)) }
{
    if version == 1 {
        return Some(4096);
    }
    if version == 2 {
        return Some(8192);
    }
    None
}

/// The number that the first four bytes spell.
pub(crate) fn number_at(bytes: &[u8]) -> u32
    ensures { result ≡ number_of bytes.now }
{
    match bytes {
        [a, b, c, d, ..] => {
            u32::from(*a) * 0x100_0000
                + u32::from(*b) * 0x1_0000
                + u32::from(*c) * 0x100
                + u32::from(*d)
        }
        _ => 0,
    }
}

/// The parts of a body, where its version and its number of entries may be.
pub(crate) fn parse(body: &[u8]) -> Option<Entries<'_>>
    ensures { MatchOption result ((n : ℕ) → ready n body.now ≡ false)
        (λ e. IsParsed body.now e.size e.count e.bytes.now) }
{
    let [version, rest @ ..] = body else {
        return None;
    };
    let size = size_of(*version)?;
    let count = number_at(rest);
    if rest.len() < 4 {
        return None;
    }
    if count < 1 {
        return None;
    }
    if count > LIMIT {
        return None;
    }
    let (_, bytes) = rest.split_at(4);
    Some(Entries { size, count, bytes })
}

// Whether the page of the first entry is whole, and stands where it may.
fn page_fits(size: usize, low: u32, reach: u64, entry: &[u8]) -> bool
    requires small { (1 ≤ size) × (size ≤ 8192) }
    ensures fits { result ≡ fits size low reach (first_page size entry.now) }
    ensures whole { result ≡ true → 4 + size ≤ length entry.now }
    ensures below { result ≡ true → number_of entry.now < 2 ^ 20 }
{
    if entry.len() < 4 + size {
        return false;
    }
    let number = number_at(entry);
    if number < low {
        return false;
    }
    if number >= LIMIT {
        return false;
    }
    u64::from(number) * size as u64 <= reach
}

// Whether all pages are whole and stand where they may, in a map of this length.
fn are_placed(size: usize, count: u32, bytes: &[u8], map_length: u64) -> bool
    requires small { (1 ≤ size) × (size ≤ 8192) }
    ensures { result ≡ pages_fit size 0 map_length (entries size count bytes.now) }
{
    let mut rest = bytes;
    let mut left = count;
    let mut low = 0u32;
    let mut reach = map_length;
    while left > 0 {
        if !page_fits(size, low, reach, rest) {
            return false;
        }
        let number = number_at(rest);
        low = number + 1;
        reach = reach.max(u64::from(number) * size as u64 + size as u64);
        let (_, after) = rest.split_at(4 + size);
        rest = after;
        left -= 1;
    }
    true
}

/// Whether this body stands for a change of a map of this length.
pub(crate) fn is_ready(map_length: u64, body: &[u8]) -> bool
    ensures { result ≡ ready map_length body.now }
{
    match parse(body) {
        None => false,
        Some(e) => are_placed(e.size, e.count, e.bytes, map_length),
    }
}

/// The body of an open journal, beside a map of this length.
pub(crate) fn open_body(map_length: u64, journal: &[u8]) -> Option<&[u8]>
    ensures { MatchOption result (opens map_length journal.now ≡ false)
        (λ b. (journal.now ≡ 79 ∷ b.now) × (ready map_length b.now ≡ true)) }
{
    let [gate, body @ ..] = journal else {
        return None;
    };
    if *gate != GATE {
        return None;
    }
    if !is_ready(map_length, body) {
        return None;
    }
    Some(body)
}

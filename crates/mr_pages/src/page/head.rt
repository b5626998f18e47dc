//! Page 0.

ghost use Rattle.std.specs.Prelude.{◌≡◌, ◌≤◌, ◌+◌, ◌++◌, ◌∷◌, true, length, option_map, bytes_eq, Some, None, IfOk, IfErr, MatchResult};
ghost use Rattle.std.specs.Int.{w32, w64, to_be_bytes};
ghost use Rattle.mr_record.specs.Version.{version_byte};
ghost use Rattle.mr_pages.specs.Page.{page_limit};
ghost use Rattle.mr_pages.specs.Page as types;
ghost use Rattle.mr_pages.specs.PageBytes.{magic, root_place, root_size, free_place, head_size, root_level, root_link_bytes, head_bytes, head_page, root_in, fields_in, is_root, is_head, is_sealed, form_of, first_form, second_form, IsLayout, SpellsHead};
ghost use Rattle.mr_pages.specs.Walking.{child_link, head_of, AnswersHead};
ghost use Rattle.mr_pages.specs.Source.{IsOfOneRead};

use crate::layout::{FIRST, LINK_LIMIT, Layout, PAGE_SIZE, SECOND, SECOND_SIZE};
use crate::page::node::{read_root_link, root_len};
use crate::page::put::{are_same, fill, is_filled};
use crate::{MapHead, MapRule};
use mr_outside::Buffer;
use mr_record::{Version, u32_of_bytes, u64_of_bytes};
use mr_tree::{COUNT_LIMIT, Child, LEVEL_LIMIT};

// Where the root node is told.
const ROOT_PLACE: usize = 26;

// The most bytes that are told of it.
const ROOT_LIMIT: usize = 60;

// The most bytes that page 0 says.
const HEAD_LIMIT: usize = ROOT_PLACE + ROOT_LIMIT + 4;

// What the type tells of its values.
fn is_digest(_digest: &[u8; 32])
    ensures { length _digest.now ≡ 32 }
{}

// What page 0 says of a root.
fn encoded_root(version: Version, root: &Child) -> Buffer<LINK_LIMIT>
    ensures bytes { result ≡ root_link_bytes version (Some (child_link root.now)) }
    ensures size { length result ≡ root_size version }
{
    is_digest(&root.digest);
    let mut bytes = Buffer::new();
    bytes.put(&root.id.to_be_bytes());
    bytes.put(root.entry().encoded_as_root(version).as_slice());
    bytes
}

// The bytes at the end of page 0.
const SEAL: &[u8; 4] = b"SEAL";

/// The level of the root node, 0 where there is none.
pub fn level_of_root(root: &Option<Child>) -> u8
    ensures { result ≡ root_level (option_map child_link root.now) }
{
    match root {
        None => 0,
        Some(child) => child.level,
    }
}

// Puts what is told before the root node.
fn put_counts(bytes: &mut Buffer<HEAD_LIMIT>, version: Version, head: &MapHead)
    requires room { length bytes.old + root_place ≤ 90 }
    ensures bytes { bytes.new ≡ bytes.old ++ magic ++ version_byte version ∷ head.now.level
        ∷ (to_be_bytes w64 head.now.batch ++ to_be_bytes w64 head.now.count
        ++ to_be_bytes w32 head.now.pages) }
    ensures size { length bytes.new ≡ length bytes.old + root_place }
{
    bytes.put(&[b'M', b'R', b'M', b'P', version.byte(), head.level]);
    bytes.put(&head.batch.to_be_bytes());
    bytes.put(&head.count.to_be_bytes());
    bytes.put(&head.pages.to_be_bytes());
}

// Puts what is told of the root node.
fn put_root(bytes: &mut Buffer<HEAD_LIMIT>, version: Version, root: &Option<Child>)
    requires { length bytes.old + root_size version ≤ 90 }
    ensures bytes { bytes.new ≡ bytes.old ++ root_link_bytes version
        (option_map child_link root.now) }
    ensures size { length bytes.new ≡ length bytes.old + root_size version }
{
    match root {
        None => put_zeros(bytes, version),
        Some(child) => bytes.put(encoded_root(version, child).as_slice()),
    }
}

// Puts as many zeros as are told of a root.
fn put_zeros(bytes: &mut Buffer<HEAD_LIMIT>, version: Version)
    requires { length bytes.old + root_size version ≤ 90 }
    ensures bytes { bytes.new ≡ bytes.old ++ root_link_bytes version None }
    ensures size { length bytes.new ≡ length bytes.old + root_size version }
{
    match version {
        Version::One => bytes.put(&[0; 52]),
        Version::Two => bytes.put(&[0; 60]),
    }
}

// What page 0 says, up to the gap before the seal.
fn encoded(version: Version, head: &MapHead) -> Buffer<HEAD_LIMIT>
    requires { head.now.level ≡ root_level (option_map child_link head.now.root) }
    ensures { result ≡ head_bytes version (head_of head.now) }
{
    let mut bytes = Buffer::new();
    put_counts(&mut bytes, version, head);
    put_root(&mut bytes, version, &head.root);
    bytes.put(&head.free.to_be_bytes());
    bytes
}

/// Writes page 0 of this layout, with its seal.
pub fn put_head(layout: Layout, head: &MapHead, page: &mut [u8])
    requires layout { IsLayout layout }
    requires level { head.now.level ≡ root_level (option_map child_link head.now.root) }
    requires size { length page.old ≡ layout.size }
    ensures { page.new ≡ (form_of layout).head_page (head_of head.now) }
{
    let (body, end) = page.split_at_mut(layout.size - SEAL.len());
    let bytes = encoded(layout.version, head);
    fill(body, bytes.as_slice());
    end.copy_from_slice(SEAL);
}

fn read_root(version: Version, count: u64, level: u8, raw: &[u8]) -> Option<Child>
    requires { length raw.now ≡ root_size version }
    ensures { option_map child_link result ≡ root_in version count level raw.now }
{
    if count == 0 {
        return None;
    }
    read_root_link(version, count, level, raw)
}

// What the fields say, whatever stands around them.
fn read_fields(version: Version, page: &[u8]) -> MapHead
    requires { head_size version ≤ length page.now }
    ensures fields { head_of result ≡ fields_in version page.now }
    ensures level { result.level ≡ root_level (option_map child_link result.root) }
{
    let count = u64_of_bytes(&page[14..22]);
    let end = ROOT_PLACE + root_len(version);
    let root = read_root(version, count, page[5], &page[ROOT_PLACE..end]);
    MapHead {
        level: level_of_root(&root),
        batch: u64_of_bytes(&page[6..14]),
        count,
        pages: u32_of_bytes(&page[22..ROOT_PLACE]),
        root,
        free: u32_of_bytes(&page[end..end + 4]),
    }
}

fn is_root_entry(count: u64, root: &Option<Child>) -> bool
    ensures { result ≡ is_root count (option_map child_link root.now) }
{
    match root {
        None => count == 0,
        Some(child) => count != 0 && child.id != 0 && child.level <= LEVEL_LIMIT,
    }
}

fn fits(pages: u32, head: &MapHead) -> bool
    ensures { result ≡ is_head pages (head_of head.now) }
{
    head.count <= COUNT_LIMIT && head.pages == pages && is_root_entry(head.count, &head.root)
}

// Whether the page is the spelling of this head, where it has its seal.
fn is_spelled(layout: Layout, head: &MapHead, page: &[u8]) -> bool
    requires layout { IsLayout layout }
    requires level { head.now.level ≡ root_level (option_map child_link head.now.root) }
    requires size { length page.now ≡ layout.size }
    requires sealed { is_sealed layout.size page.now ≡ true }
    ensures { result ≡ bytes_eq (head_page layout (head_of head.now)) page.now }
{
    let (body, _) = page.split_at(layout.size - SEAL.len());
    let bytes = encoded(layout.version, head);
    is_filled(body, bytes.as_slice())
}

fn has_seal(layout: Layout, page: &[u8]) -> bool
    requires layout { IsLayout layout }
    ensures seal { result ≡ is_sealed layout.size page.now }
    ensures size { result ≡ true → length page.now ≡ layout.size }
{
    if page.len() != layout.size {
        return false;
    }
    let (_, end) = page.split_at(layout.size - SEAL.len());
    are_same(end, SEAL)
}

/// Page 0 of a file of this layout of so many pages. A refusal is `Unsealed` where the page does
/// not end with the seal, else `Header` where it is not the spelling of a head.
pub fn head_on(layout: Layout, page: &[u8], pages: u32) -> Result<MapHead, MapRule>
    requires { IsLayout layout }
    ensures exact { AnswersHead result ((form_of layout).head_in pages page.now) }
    ensures level { IfOk result (λ h. h.level ≡ root_level (option_map child_link h.root)) }
    ensures of_one_read { IfErr result IsOfOneRead }
    ensures written { 1 ≤ pages → pages ≤ page_limit
        → IfOk result (λ h. SpellsHead (form_of layout) pages page.now (head_of h)) }
    ensures read { (h : types.Head) → SpellsHead (form_of layout) pages page.now h
        → MatchResult result (λ found. head_of found ≡ h) (λ rule. ⊥) }
{
    if !has_seal(layout, page) {
        return Err(MapRule::Unsealed);
    }
    let head = read_fields(layout.version, page);
    if !fits(pages, &head) {
        return Err(MapRule::Header);
    }
    if !is_spelled(layout, &head, page) {
        return Err(MapRule::Header);
    }
    Ok(head)
}

/// Page 0 of a file of so many pages. A refusal is `Unsealed` where the page does not end with the
/// seal, else `Header` where it is not the spelling of a head.
pub fn read_head(page: &[u8; PAGE_SIZE], pages: u32) -> Result<MapHead, MapRule>
    ensures exact { AnswersHead result (first_form.head_in pages page.now) }
    ensures level { IfOk result (λ h. h.level ≡ root_level (option_map child_link h.root)) }
    ensures of_one_read { IfErr result IsOfOneRead }
    ensures written { 1 ≤ pages → pages ≤ page_limit
        → IfOk result (λ h. SpellsHead first_form pages page.now (head_of h)) }
    ensures read { (h : types.Head) → SpellsHead first_form pages page.now h
        → MatchResult result (λ found. head_of found ≡ h) (λ rule. ⊥) }
{
    head_on(FIRST, page, pages)
}

/// The same of a page of version 2.
pub fn read_head2(page: &[u8; SECOND_SIZE], pages: u32) -> Result<MapHead, MapRule>
    ensures exact { AnswersHead result (second_form.head_in pages page.now) }
    ensures level { IfOk result (λ h. h.level ≡ root_level (option_map child_link h.root)) }
    ensures of_one_read { IfErr result IsOfOneRead }
    ensures written { 1 ≤ pages → pages ≤ page_limit
        → IfOk result (λ h. SpellsHead second_form pages page.now (head_of h)) }
    ensures read { (h : types.Head) → SpellsHead second_form pages page.now h
        → MatchResult result (λ found. head_of found ≡ h) (λ rule. ⊥) }
{
    head_on(SECOND, page, pages)
}

/// Writes page 0, with its seal.
pub fn write_head_page(head: &MapHead, into: &mut [u8; PAGE_SIZE])
    requires level { head.now.level ≡ root_level (option_map child_link head.now.root) }
    ensures { into.new ≡ first_form.head_page (head_of head.now) }
{
    put_head(FIRST, head, into);
}

/// Writes page 0 of version 2, with its seal.
pub fn write_head2_page(head: &MapHead, into: &mut [u8; SECOND_SIZE])
    requires level { head.now.level ≡ root_level (option_map child_link head.now.root) }
    ensures { into.new ≡ second_form.head_page (head_of head.now) }
{
    put_head(SECOND, head, into);
}

//! Pages of nodes.

ghost use Rattle.std.specs.Prelude.{◌≡◌, ◌+◌, ◌-◌, ◌≤◌, ◌<◌, ◌*◌, ◌++◌, true, length, take, map, All, Some, None, MatchOption, option_map};
ghost use Rattle.std.specs.Option.{option_and_then};
ghost use Rattle.std.specs.List.{flat_map};
ghost use Rattle.mr_record.specs.Record.{HasLayer, record_bytes};
ghost use Rattle.mr_record.specs.Version.{told};
ghost use Rattle.mr_record.specs.declared.version.Version.TheVariants.{One, Two};
ghost use Rattle.mr_tree.specs.declared.tree.Tree.TheOpen.{Leaf, Inner};
ghost use Rattle.mr_tree.specs.View.{size, AreTold};
ghost use Rattle.mr_pages.specs.Page.{IsNode};
ghost use Rattle.mr_pages.specs.Page as types;
ghost use Rattle.mr_pages.specs.PageBytes.{many, record_field, link_bytes, link_size, root_size, word_in, may_tell, if_told, link_with, link_in, root_link_in, link_field, before_zeros, from_one_to, leaf_in, inner_in, tagged_in, node_in, node_bytes, node_limit, form_of, first_form, second_form, IsLayout, SpellsNode};
ghost use Rattle.mr_pages.specs.Faults.{of_level};
ghost use Rattle.mr_pages.specs.Walking.{child_link, page_node, ShowsWanted};
ghost use Rattle.mr_tree.specs.Limits.{inner_limit, leaf_limit};

use crate::layout::{FIRST, LINK_LIMIT, Layout, PAGE_SIZE, SECOND, SECOND_SIZE};
use crate::page::put::{are_zero_bytes, fill_up, put};
use mr_geom::Rect;
use mr_outside::Buffer;
use mr_record::{
    Record, Version, encoded, read_record_of, rect_of_bytes, u32_of_bytes, u64_of_bytes,
};
use mr_tree::{
    COUNT_LIMIT, Child, INNER_LIMIT, LEAF_LIMIT, LEVEL_LIMIT, NodeView, as_told, is_view,
};

// What the type tells of its values.
fn is_digest(_digest: &[u8; 32])
    ensures { length _digest.now ≡ 32 }
{}

/// What a page holds of a child: its page, and its entry.
pub fn encoded_link(version: Version, child: &Child) -> Buffer<LINK_LIMIT>
    ensures bytes { result ≡ link_bytes version (child_link child.now) }
    ensures size { length result ≡ link_size version }
{
    is_digest(&child.digest);
    let mut bytes = Buffer::new();
    bytes.put(&child.id.to_be_bytes());
    bytes.put(child.entry().encoded(version).as_slice());
    bytes
}

// Fills all places with the records that stand at the front, and answers what is left.
fn read_records<'a>(version: Version, places: &mut [Record], bytes: &'a [u8]) -> Option<&'a [u8]>
    ensures { MatchOption result
        (many (record_field version) (length places.old) bytes.now ≡ None)
        (λ rest. many (record_field version) (length places.old) bytes.now
        ≡ Some (places.new, rest.now)) }
{
    let mut rest = bytes;
    for place in places.iter_mut() {
        match read_record_of(version, rest) {
            Ok((record, taken)) => {
                *place = record;
                let (_, behind) = rest.split_at(taken);
                rest = behind;
            }
            Err(_) => return None,
        }
    }
    Some(rest)
}

/// How many bytes a page holds of a child.
pub fn link_len(version: Version) -> usize
    ensures { result ≡ link_size version }
{
    match version {
        Version::One => 52,
        Version::Two => 68,
    }
}

// A word that only the second version spells.
fn word_at(version: Version, raw: &[u8], at: usize) -> u64
    requires { at + told version 8 ≤ length raw.now }
    ensures { result ≡ word_in version at raw.now }
{
    match version {
        Version::One => 0,
        Version::Two => u64_of_bytes(&raw[at..at + 8]),
    }
}

// Whether a version may tell this of a node.
fn may_be_told(version: Version, mask: u64, count: u64) -> bool
    ensures { result ≡ may_tell version mask count }
{
    match version {
        Version::One => true,
        Version::Two => mask >= 1 && count >= 1 && count <= COUNT_LIMIT,
    }
}

// The child, if its version may tell this of it.
fn if_told(version: Version, child: Child) -> Option<Child>
    ensures { option_map child_link result ≡ if_told version (child_link child) }
{
    if may_be_told(version, child.mask, child.count) {
        Some(child)
    } else {
        None
    }
}

// A child whose rectangle was read and the number of whose records is known: its digest stands
// from one place to another.
fn link_with(
    version: Version,
    level: u8,
    count: u64,
    from: usize,
    end: usize,
    raw: &[u8],
    rect: Rect,
) -> Child
    requires size { from + 32 ≡ end }
    requires room { end ≤ length raw.now }
    requires word { 20 + told version 8 ≤ length raw.now }
    ensures { child_link result ≡ link_with version level count from end raw.now rect }
{
    let mut digest = [0; 32];
    digest.copy_from_slice(&raw[from..end]);
    Child {
        id: u32_of_bytes(&raw[0..4]),
        level,
        rect,
        mask: word_at(version, raw, 20),
        count,
        digest,
    }
}

/// A child of this level from its bytes.
#[tactic(auto, unfolding(crate::specs::PageBytes::link_in))]
pub fn read_child(version: Version, level: u8, raw: &[u8]) -> Option<Child>
    requires { length raw.now ≡ link_size version }
    ensures { option_map child_link result ≡ link_in version level raw.now }
{
    let rect = rect_of_bytes(&raw[4..20])?;
    let end = link_len(version);
    let count = word_at(version, raw, 28);
    if_told(
        version,
        link_with(version, level, count, end - 32, end, raw, rect),
    )
}

/// A root of this level from its bytes on page 0, with so many records.
#[tactic(auto, unfolding(crate::specs::PageBytes::root_link_in))]
pub fn read_root_link(version: Version, count: u64, level: u8, raw: &[u8]) -> Option<Child>
    requires { length raw.now ≡ root_size version }
    ensures { option_map child_link result ≡ root_link_in version count level raw.now }
{
    let rect = rect_of_bytes(&raw[4..20])?;
    let end = root_len(version);
    if_told(
        version,
        link_with(
            version,
            level,
            as_told(version, count),
            end - 32,
            end,
            raw,
            rect,
        ),
    )
}

/// How many bytes page 0 holds of the root.
pub fn root_len(version: Version) -> usize
    ensures { result ≡ root_size version }
{
    match version {
        Version::One => 52,
        Version::Two => 60,
    }
}

// Fills all places with the children of this level that stand at the front, and answers what is
// left.
fn read_children<'a>(
    version: Version,
    places: &mut [Child],
    level: u8,
    bytes: &'a [u8],
) -> Option<&'a [u8]>
    ensures { MatchOption result
        (many (link_field version level) (length places.old) bytes.now ≡ None)
        (λ rest. many (link_field version level) (length places.old) bytes.now
        ≡ Some (map child_link places.new, rest.now)) }
{
    let size = link_len(version);
    let mut rest = bytes;
    for place in places.iter_mut() {
        if rest.len() < size {
            return None;
        }
        let (raw, behind) = rest.split_at(size);
        match read_child(version, level, raw) {
            Some(child) => {
                *place = child;
                rest = behind;
            }
            None => return None,
        }
    }
    Some(rest)
}

fn show_leaf(version: Version, count: u8, bytes: &[u8], into: &mut NodeView) -> bool
    requires some { 1 ≤ count }
    requires few { count ≤ leaf_limit }
    ensures { ShowsWanted result into.new (option_map Leaf
        (option_and_then before_zeros (many (record_field version) count bytes.now))) }
{
    let mut places = [Record::blank(); 16];
    let (list, _) = places.split_at_mut(usize::from(count));
    match read_records(version, list, bytes) {
        Some(rest) => {
            if !are_zero_bytes(rest) {
                return false;
            }
            into.set_leaf(list);
            true
        }
        None => false,
    }
}

fn show_inner(version: Version, level: u8, count: u8, bytes: &[u8], into: &mut NodeView) -> bool
    requires level { (1 ≤ level) × (level ≤ 7) }
    requires some { 1 ≤ count }
    requires few { count ≤ inner_limit }
    ensures { ShowsWanted result into.new (option_map Inner
        (option_and_then before_zeros (many (link_field version (level - 1)) count bytes.now))) }
{
    let mut places = [Child::blank(); 64];
    let (list, _) = places.split_at_mut(usize::from(count));
    match read_children(version, list, level - 1, bytes) {
        Some(rest) => {
            if !are_zero_bytes(rest) {
                return false;
            }
            into.set_inner(level, list);
            true
        }
        None => false,
    }
}

fn is_from_one_to(limit: u8, n: u8) -> bool
    ensures { result ≡ from_one_to limit n }
{
    n >= 1 && n <= limit
}

fn read_leaf(version: Version, bytes: &[u8], into: &mut NodeView) -> bool
    ensures { ShowsWanted result into.new (leaf_in version bytes.now) }
{
    match bytes {
        [count, rest @ ..] => {
            if !is_from_one_to(LEAF_LIMIT, *count) {
                return false;
            }
            show_leaf(version, *count, rest, into)
        }
        [] => false,
    }
}

fn read_inner(version: Version, level: u8, bytes: &[u8], into: &mut NodeView) -> bool
    ensures { ShowsWanted result into.new (of_level level (inner_in version bytes.now)) }
{
    match bytes {
        [up, count, rest @ ..] => {
            if *up != level {
                return false;
            }
            if !is_from_one_to(LEVEL_LIMIT, *up) {
                return false;
            }
            if !is_from_one_to(INNER_LIMIT, *count) {
                return false;
            }
            show_inner(version, *up, *count, rest, into)
        }
        _ => false,
    }
}

fn read_tagged(version: Version, bytes: &[u8], level: u8, into: &mut NodeView) -> bool
    ensures { ShowsWanted result into.new (of_level level (tagged_in version bytes.now)) }
{
    match bytes {
        [tag, rest @ ..] => {
            if *tag == b'N' {
                return read_inner(version, level, rest, into);
            }
            if *tag != b'L' {
                return false;
            }
            if level != 0 {
                return false;
            }
            read_leaf(version, rest, into)
        }
        [] => false,
    }
}

/// Shows the node of this level that a page of this layout spells, and answers whether it spells
/// one. Where it does not, the view is some node.
pub fn node_on(layout: Layout, page: &[u8], level: u8, into: &mut NodeView) -> bool
    requires { IsLayout layout }
    ensures exact { ShowsWanted result into.new
        (of_level level ((form_of layout).node_in page.now)) }
    ensures written { result ≡ true →
        SpellsNode (form_of layout) level page.now (page_node into.new) }
    ensures read { (n : types.Node) → SpellsNode (form_of layout) level page.now n
        → (result ≡ true) × (page_node into.new ≡ n) }
{
    if page.len() != layout.size {
        return false;
    }
    read_tagged(layout.version, page, level, into)
}

/// Shows the node of this level that the page spells, and answers whether it spells one. Where it
/// does not, the view is some node.
pub fn read_page(page: &[u8; PAGE_SIZE], level: u8, into: &mut NodeView) -> bool
    ensures exact { ShowsWanted result into.new (of_level level (first_form.node_in page.now)) }
    ensures written { result ≡ true → SpellsNode first_form level page.now (page_node into.new) }
    ensures read { (n : types.Node) → SpellsNode first_form level page.now n
        → (result ≡ true) × (page_node into.new ≡ n) }
{
    node_on(FIRST, page, level, into)
}

/// The same of a page of version 2.
pub fn read_page2(page: &[u8; SECOND_SIZE], level: u8, into: &mut NodeView) -> bool
    ensures exact { ShowsWanted result into.new (of_level level (second_form.node_in page.now)) }
    ensures written { result ≡ true → SpellsNode second_form level page.now (page_node into.new) }
    ensures read { (n : types.Node) → SpellsNode second_form level page.now n
        → (result ≡ true) × (page_node into.new ≡ n) }
{
    node_on(SECOND, page, level, into)
}

// Writes records from a place on, and answers the place behind them.
fn put_records(version: Version, page: &mut [u8], at: usize, records: &[Record]) -> usize
    requires room { at + 226 * length records.now ≤ length page.old }
    requires layers { All (HasLayer Two) records.now }
    ensures place { result ≤ at + 226 * length records.now }
    ensures bytes { take result page.new
        ≡ take at page.old ++ flat_map (record_bytes version) records.now }
{
    let mut place = at;
    for record in records {
        place = put(page, place, encoded(version, record).as_slice());
    }
    place
}

// Writes children from a place on, and answers the place behind them.
fn put_children(version: Version, page: &mut [u8], at: usize, children: &[Child]) -> usize
    requires { at + link_size version * length children.now ≤ length page.old }
    ensures place { result ≡ at + link_size version * length children.now }
    ensures bytes { take result page.new ≡ take at page.old ++ flat_map (link_bytes version)
        (map child_link children.now) }
{
    let mut place = at;
    for child in children {
        place = put(page, place, encoded_link(version, child).as_slice());
    }
    place
}

// Writes the node at the page's front, and answers the place behind it.
fn put_front(version: Version, node: &NodeView, page: &mut [u8]) -> usize
    requires some { 1 ≤ size node.now }
    requires room { node_limit version ≤ length page.old }
    ensures place { result ≤ length page.old }
    ensures bytes { take result page.new ≡ node_bytes version (page_node node.now) }
{
    let len = node.len() as u8;
    if node.level() == 0 {
        let at = put(page, 0, &[b'L', len]);
        put_records(version, page, at, node.records())
    } else {
        let at = put(page, 0, &[b'N', node.level(), len]);
        put_children(version, page, at, node.children())
    }
}

/// Writes the page of this layout that spells the node, which has a record or a child at least.
pub fn put_node(layout: Layout, node: &NodeView, page: &mut [u8])
    requires layout { IsLayout layout }
    requires some { 1 ≤ size node.now }
    requires told { AreTold layout.version node.now }
    requires size { length page.old ≡ layout.size }
    ensures page { page.new ≡ (form_of layout).node_page (page_node node.now) }
    ensures node { IsNode layout.version (page_node node.now) }
{
    is_view(node);
    let at = put_front(layout.version, node, page);
    fill_up(page, at);
}

/// Writes the page that spells the node, which has a record or a child at least.
pub fn write_page(node: &NodeView, into: &mut [u8; PAGE_SIZE])
    requires some { 1 ≤ size node.now }
    requires told { AreTold One node.now }
    ensures page { into.new ≡ first_form.node_page (page_node node.now) }
    ensures node { IsNode One (page_node node.now) }
{
    put_node(FIRST, node, into);
}

/// The same of a page of version 2.
pub fn write_page2(node: &NodeView, into: &mut [u8; SECOND_SIZE])
    requires some { 1 ≤ size node.now }
    requires told { AreTold Two node.now }
    ensures page { into.new ≡ second_form.node_page (page_node node.now) }
    ensures node { IsNode Two (page_node node.now) }
{
    put_node(SECOND, node, into);
}

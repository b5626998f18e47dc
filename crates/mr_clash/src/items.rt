//! Items of a proof with no node of the map at their place, one inside another: what is said of
//! their nodes.

ghost use Rattle.std.specs.Prelude.{◌≡◌, ◌≤◌, ◌<◌, ◌++◌, ℕ, List, IfOk, length};
ghost use Rattle.mr_proof.specs.Cut.{Cut, Pruned, Leaf, Inner, Cuts};
ghost use Rattle.mr_proof.specs.Spelling.{FitsCut, cut_bytes};
ghost use Rattle.mr_proof.specs.declared.pruned_entry.PrunedEntry as shown;
ghost use Rattle.mr_record.specs.declared.record.Record as types;
ghost use Rattle.mr_tree.specs.Digest.{by};
ghost use Rattle.mr_tree.specs.Limits.{level_limit};
ghost use Rattle.mr_clash.specs.private.Steps.{left, PassesCut, PassesAll, Passed};

use crate::entry::{digest_of, inner_entry};
use crate::leaf::leaf_summary;
use crate::rest::{Rest, byte, digest, is_pruned, passed, rect, word};
use crate::summary::entry_with;
use mr_record::Version;
use mr_tree::{Entry, Hashes};
use std::alloc::{AllocError, Global};

// The pruned part of this level that stands next.
pub(crate) fn pass_pruned(version: Version, level: u8, from: &mut Rest<'_>) -> Entry
    ensures { (hash : List ℕ → List ℕ) (part : shown.PrunedEntry) (rest : List ℕ)
        → FitsCut version level (Pruned part)
        → left from.old ≡ cut_bytes version (Pruned part) ++ rest
        → Passed (by version hash) level (Pruned part) rest result (left from.new) }
{
    let _tag = byte(from);
    let rect = rect(from);
    let mask = word(version, from);
    let count = word(version, from);
    let digest = digest(from);
    Entry {
        level,
        rect,
        mask,
        count,
        digest,
    }
}

// The leaf that stands next.
fn pass_leaf<H: Hashes>(version: Version, from: &mut Rest<'_>) -> Entry
    ensures { (rs : List types.Record) (rest : List ℕ) → FitsCut version 0 (Leaf rs)
        → left from.old ≡ cut_bytes version (Leaf rs) ++ rest
        → Passed (by version H.of) 0 (Leaf rs) rest result (left from.new) }
{
    let whole = from.bytes;
    let all = leaf_summary(version, from);
    let digest = digest_of::<H>(passed(whole, from));
    entry_with(0, all, digest)
}

// The inner node of this level that stands next.
#[cycle(items)]
fn pass_inner<H: Hashes>(
    alloc: Global,
    version: Version,
    level: u8,
    from: &mut Rest<'_>,
) -> Result<Entry, AllocError>
    requires { 0 < level }
    ensures { (Ps : Cuts) (rest : List ℕ) → level ≤ level_limit → FitsCut version level (Inner Ps)
        → left from.old ≡ cut_bytes version (Inner Ps) ++ rest
        → IfOk result (λ x. Passed (by version H.of) level (Inner Ps) rest x (left from.new)) }
{
    let _tag = byte(from);
    let count = byte(from);
    let children = pass_items::<H>(alloc, version, level - 1, count, from)?;
    Ok(inner_entry::<H>(version, level, &children))
}

// So many items of this level, side by side.
#[cycle(items)]
pub(crate) fn pass_items<H: Hashes>(
    alloc: Global,
    version: Version,
    level: u8,
    count: u8,
    from: &mut Rest<'_>,
) -> Result<Vec<Entry>, AllocError>
    ensures passed { PassesAll (by version H.of) level count (left from.old) (left from.new)
        result }
    ensures length_at_most { IfOk result (λ v. length v.items ≤ count) }
{
    let mut list = Vec::new(alloc);
    for _ in 0..count {
        let one = pass_item::<H>(alloc, version, level, from)?;
        list.push(one)?;
    }
    Ok(list)
}

// The item of this level that stands next.
#[cycle(items)]
pub(crate) fn pass_item<H: Hashes>(
    alloc: Global,
    version: Version,
    level: u8,
    from: &mut Rest<'_>,
) -> Result<Entry, AllocError>
    ensures { PassesCut (by version H.of) level (left from.old) (left from.new) result }
{
    if is_pruned(from) {
        return Ok(pass_pruned(version, level, from));
    }
    if level == 0 {
        return Ok(pass_leaf::<H>(version, from));
    }
    pass_inner::<H>(alloc, version, level, from)
}

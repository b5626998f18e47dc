//! What is found of an item and the node of the map at its place.

ghost use Rattle.std.specs.Prelude.{◌≡◌, ◌<◌, ◌^◌, ◌++◌, ℕ, List, All, IfOk, Some, length, option_map};
ghost use Rattle.mr_record.specs.Record.{HasLayer};
ghost use Rattle.mr_record.specs.declared.record.Record as types;
ghost use Rattle.mr_tree.specs.Digest.{by};
ghost use Rattle.mr_tree.specs.View.{level_of, records_in, preimage_of};
ghost use Rattle.mr_proof.specs.Clash.{differ};
ghost use Rattle.mr_proof.specs.Cut.{Leaf};
ghost use Rattle.mr_proof.specs.Spelling.{FitsCut, cut_bytes};
ghost use Rattle.mr_clash.specs.private.Steps.{left, pair_of, leaf_summary, Closed, WalkedLeaf};

use crate::entry::digest_of;
use crate::finding::{Clash, clash_of, first_of};
use crate::leaf::leaf_summary;
use crate::own::{are_own, pass_own_leaf};
use crate::rest::{Rest, passed};
use crate::strings::{inner_string, owned_string};
use crate::summary::{Summary, entry_with, inner_summary};
use mr_record::Version;
use mr_tree::{Child, Entry, Hashes, NodeView, as_told, is_view};
use std::alloc::{AllocError, Global};

// What is said of an item, and the first pair of it and all below it.
#[derive(Drop)]
pub(crate) struct Walked {
    pub(crate) entry: Entry,
    pub(crate) clash: Option<Clash>,
}

// The same of some items side by side.
#[derive(Drop)]
pub(crate) struct Row {
    pub(crate) entries: Vec<Entry>,
    pub(crate) clash: Option<Clash>,
}

// The digest of a string that was compared with the owner's. Where the two are one it is the
// digest that is held of the owner's, and nothing is hashed.
fn digest_beside<H: Hashes>(clash: &Option<Clash>, held: [u8; 32], shown: &[u8]) -> [u8; 32]
    ensures { (owned : List ℕ) → H.of owned ≡ held
        → option_map pair_of clash.now ≡ differ owned (Some shown.now)
        → result ≡ H.of shown.now }
{
    match clash {
        None => held,
        Some(_) => digest_of::<H>(shown),
    }
}

// The leaf that stands next beside a leaf of the map, of which this is the string.
fn compare_leaf<H: Hashes>(
    alloc: Global,
    version: Version,
    child: &Child,
    owned: Vec<u8>,
    from: &mut Rest<'_>,
) -> Result<Walked, AllocError>
    ensures { H.of owned.items ≡ child.now.digest → (rs : List types.Record) (rest : List ℕ)
        → FitsCut version 0 (Leaf rs) → left from.old ≡ cut_bytes version (Leaf rs) ++ rest
        → IfOk result (λ w.
        WalkedLeaf (by version H.of) rs rest owned.items w (left from.new)) }
{
    let whole = from.bytes;
    let all = leaf_summary(version, from);
    let shown = passed(whole, from);
    let clash = clash_of(alloc, owned, shown)?;
    let digest = digest_beside::<H>(&clash, child.digest, shown);
    let entry = entry_with(0, all, digest);
    Ok(Walked { entry, clash })
}

// What the leaf with the records of this one says of them.
fn view_summary(version: Version, view: &NodeView) -> Summary
    requires { level_of view.now ≡ 0 }
    ensures { result ≡ leaf_summary version (records_in view.now) }
{
    Summary {
        rect: view.rect(),
        mask: view.mask(version),
        count: as_told(version, view.records().len() as u64),
    }
}

// The leaf that stands next beside this leaf of a map of this version. Where it is the map's own,
// it is passed over as it stands, and no string is made.
pub(crate) fn walk_leaf<H: Hashes>(
    alloc: Global,
    version: Version,
    child: &Child,
    view: &NodeView,
    from: &mut Rest<'_>,
) -> Result<Walked, AllocError>
    requires { level_of view.now ≡ 0 }
    ensures { H.of (preimage_of version view.now) ≡ child.now.digest
        → All (HasLayer version) (records_in view.now) → (rs : List types.Record) (rest : List ℕ)
        → FitsCut version 0 (Leaf rs) → left from.old ≡ cut_bytes version (Leaf rs) ++ rest
        → IfOk result (λ w. WalkedLeaf (by version H.of) rs rest (preimage_of version view.now) w
        (left from.new)) }
{
    is_view(view);
    if pass_own_leaf(version, view.records(), from) {
        let entry = entry_with(0, view_summary(version, view), child.digest);
        return Ok(Walked { entry, clash: None });
    }
    let owned = owned_string(alloc, version, view)?;
    compare_leaf::<H>(alloc, version, child, owned, from)
}

// An inner node beside one of the map, of which this is the string, by what its children came to.
fn compare_inner<H: Hashes>(
    alloc: Global,
    version: Version,
    child: &Child,
    owned: Vec<u8>,
    row: Row,
) -> Result<Walked, AllocError>
    requires { length row.entries.items < 2 ^ 8 }
    ensures { H.of owned.items ≡ child.now.digest
        → IfOk result (λ w. Closed (by version H.of) child.now.level owned.items row w) }
{
    let shown = inner_string(alloc, version, child.level, &row.entries)?;
    let clash = clash_of(alloc, owned, &shown)?;
    let digest = digest_beside::<H>(&clash, child.digest, &shown);
    let entry = entry_with(child.level, inner_summary(&row.entries), digest);
    Ok(Walked {
        entry,
        clash: first_of(clash, row.clash),
    })
}

// An inner node beside this one of a map of this version, by what its children came to. Where that
// is what the map holds of them, no string is made.
pub(crate) fn close_inner<H: Hashes>(
    alloc: Global,
    version: Version,
    child: &Child,
    view: &NodeView,
    row: Row,
) -> Result<Walked, AllocError>
    requires few { length row.entries.items < 2 ^ 8 }
    requires inner { 0 < level_of view.now }
    requires level { level_of view.now ≡ child.now.level }
    ensures { H.of (preimage_of version view.now) ≡ child.now.digest
        → IfOk result (λ w.
        Closed (by version H.of) child.now.level (preimage_of version view.now) row w) }
{
    if are_own(view.children(), &row.entries) {
        let entry = entry_with(child.level, inner_summary(&row.entries), child.digest);
        return Ok(Walked {
            entry,
            clash: row.clash,
        });
    }
    let owned = owned_string(alloc, version, view)?;
    compare_inner::<H>(alloc, version, child, owned, row)
}

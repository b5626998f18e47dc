//! Saving a map.

ghost use Rattle.std.specs.Prelude.{◌≡◌, ◌≤◌, length, option_map, IfOk, OnOk};
ghost use Rattle.mr_outside.specs.Told.{OfFile};
ghost use Rattle.mr_tree.specs.Digest.{by, root};
ghost use Rattle.mr_tree.specs.Leaves.{leaf_entries};
ghost use Rattle.mr_tree.specs.WellFormed.{WellFormed, HasLayers};
ghost use Rattle.mr_record.specs.declared.version.Version.TheVariants.{One};
ghost use Rattle.mr_pages.specs.PageBytes.{form_of, form_by, first_form, second_form, layout_by, root_level, IsLayout};
ghost use Rattle.mr_pages.specs.Leaves.{KnowsFirst};
ghost use Rattle.mr_pages.specs.Stands.{StandsForTree};
ghost use Rattle.mr_pages.specs.Walking.{child_link, head_of};
ghost use Rattle.mr_outside.specs.Files.{with_file, overwritten};
ghost use Rattle.mr_outside.specs.Writing.{IsChanged, IsChangedPartly};
ghost use Rattle.mr_pages.specs.Saved.{saved, MayStand, LeavesFile, SaveCauses};

use crate::head::{MapHead, head_root};
use crate::layout::{FIRST, Layout, SECOND};
use crate::making::{make_nodes, zeros};
use crate::page::{level_of_root, put_head};
use mr_outside::{Shelf, ShelfErr};
use mr_record::Version;
use mr_tree::{Entry, Hash32, Hashes, Tree, count_of};
use std::alloc::Global;

// Writes page 0 over the zeros that stand there, between two syncs.
fn seal<S: Shelf>(shelf: &mut S, name: &str, head: &[u8]) -> Result<(), ShelfErr>
    requires { OfFile (S.state shelf.old).files name.now ⊥
        (λ held. length head.now ≤ length held) }
    ensures whole { OnOk result (IsChanged (overwritten name.now 0) head.now
        (S.state shelf.old).files (S.state shelf.new).files) }
    ensures front { IsChangedPartly (overwritten name.now 0) head.now
        (S.state shelf.old).files (S.state shelf.new).files }
    ensures causes { SaveCauses (S.state shelf.old) (S.state shelf.new) result }
    ensures reads { (S.state shelf.new).reads ≡ (S.state shelf.old).reads }
{
    shelf.sync(name)?;
    shelf.write_at(name, 0, head)?;
    shelf.sync(name)
}

// Puts page 0 of a map in the place of as many bytes.
fn put_first(layout: Layout, head: &MapHead, page: &mut Vec<u8>)
    requires layout { IsLayout layout }
    requires level { head.now.level ≡ root_level (option_map child_link head.now.root) }
    requires size { length page.old.items ≡ layout.size }
    ensures page { page.new.items ≡ (form_of layout).head_page (head_of head.now) }
    ensures size { length page.new.items ≡ layout.size }
{
    put_head(layout, head, page.as_mut_slice());
}

// What `save_rooted` does, in pages of the layout of a version.
fn save_named<H: Hashes, S: Shelf>(
    alloc: Global,
    layout: Layout,
    shelf: &mut S,
    name: &str,
    tree: &Tree,
    batch: u64,
    leaves: &[Entry],
) -> Result<[u8; 32], ShelfErr>
    requires layout { IsLayout layout }
    requires by_version { layout ≡ layout_by layout.version }
    requires well { WellFormed tree.now }
    requires layers { HasLayers layout.version tree.now }
    requires known { KnowsFirst (leaf_entries (by layout.version H.of) tree.now) leaves.now }
    ensures root { IfOk result (λ digest. digest ≡ root (by layout.version H.of) tree.now batch) }
    ensures whole { OnOk result (IsChanged (with_file name.now)
        (saved (form_of layout) H.of tree.now batch)
        (S.state shelf.old).files (S.state shelf.new).files) }
    ensures stands { StandsForTree (form_of layout) H.of
        (saved (form_of layout) H.of tree.now batch)
        tree.now batch }
    ensures left { LeavesFile (MayStand (form_of layout) H.of tree.now batch) name.now
        (S.state shelf.old).files (S.state shelf.new).files }
    ensures causes { SaveCauses (S.state shelf.old) (S.state shelf.new) result }
    ensures reads { (S.state shelf.new).reads ≡ (S.state shelf.old).reads }
{
    let mut first = zeros(alloc, layout.size)?;
    let (root, pages) = make_nodes::<H, S>(alloc, layout, shelf, name, tree, leaves)?;
    let head = MapHead {
        level: level_of_root(&root),
        batch,
        count: count_of(tree),
        pages,
        root,
        free: 0,
    };
    put_first(layout, &head, &mut first);
    seal(shelf, name, &first)?;
    Ok(head_root::<H>(layout.version, &head))
}

/// Makes a file that stands for the map with this tree at this batch, in this version, and answers
/// the map's root digest. What is said of the tree's leaves may be given, left to right. A leaf is
/// then not hashed.
///
/// The nodes stand in preorder from page 1 on, and no page is free. Page 0 is zeros until all
/// others are synced, so that a file whose writing was refused half way is no map.
pub fn save_rooted<H: Hash32, S: Shelf>(
    alloc: Global,
    version: Version,
    shelf: &mut S,
    name: &str,
    tree: &Tree,
    batch: u64,
    leaves: &[Entry],
) -> Result<[u8; 32], ShelfErr>
    requires well { WellFormed tree.now }
    requires layers { HasLayers version tree.now }
    requires known { KnowsFirst (leaf_entries (by version H.of) tree.now) leaves.now }
    ensures root { IfOk result (λ digest. digest ≡ root (by version H.of) tree.now batch) }
    ensures stands { OnOk result (OfFile (S.state shelf.new).files name.now ⊥
        (λ bytes. StandsForTree (form_by version) H.of bytes tree.now batch)) }
    ensures whole { OnOk result (IsChanged (with_file name.now)
        (saved (form_by version) H.of tree.now batch)
        (S.state shelf.old).files (S.state shelf.new).files) }
    ensures left { LeavesFile (MayStand (form_by version) H.of tree.now batch) name.now
        (S.state shelf.old).files (S.state shelf.new).files }
    ensures causes { SaveCauses (S.state shelf.old) (S.state shelf.new) result }
    ensures reads { (S.state shelf.new).reads ≡ (S.state shelf.old).reads }
{
    save_named::<H, S>(alloc, Layout::by(version), shelf, name, tree, batch, leaves)
}

/// `save_rooted` in version 1, where nothing is known of the leaves and the root digest is not
/// asked for.
pub fn save_plain<H: Hash32, S: Shelf>(
    alloc: Global,
    shelf: &mut S,
    name: &str,
    tree: &Tree,
    batch: u64,
) -> Result<(), ShelfErr>
    requires well { WellFormed tree.now }
    requires layers { HasLayers One tree.now }
    ensures stands { OnOk result (OfFile (S.state shelf.new).files name.now ⊥
        (λ bytes. StandsForTree first_form H.of bytes tree.now batch)) }
    ensures whole { OnOk result (IsChanged (with_file name.now)
        (saved first_form H.of tree.now batch)
        (S.state shelf.old).files (S.state shelf.new).files) }
    ensures left { LeavesFile (MayStand first_form H.of tree.now batch) name.now
        (S.state shelf.old).files (S.state shelf.new).files }
    ensures causes { SaveCauses (S.state shelf.old) (S.state shelf.new) result }
    ensures reads { (S.state shelf.new).reads ≡ (S.state shelf.old).reads }
{
    save_named::<H, S>(alloc, FIRST, shelf, name, tree, batch, &[])?;
    Ok(())
}

/// The same in version 2.
pub fn save2_plain<H: Hash32, S: Shelf>(
    alloc: Global,
    shelf: &mut S,
    name: &str,
    tree: &Tree,
    batch: u64,
) -> Result<(), ShelfErr>
    requires { WellFormed tree.now }
    ensures stands { OnOk result (OfFile (S.state shelf.new).files name.now ⊥
        (λ bytes. StandsForTree second_form H.of bytes tree.now batch)) }
    ensures whole { OnOk result (IsChanged (with_file name.now)
        (saved second_form H.of tree.now batch)
        (S.state shelf.old).files (S.state shelf.new).files) }
    ensures left { LeavesFile (MayStand second_form H.of tree.now batch) name.now
        (S.state shelf.old).files (S.state shelf.new).files }
    ensures causes { SaveCauses (S.state shelf.old) (S.state shelf.new) result }
    ensures reads { (S.state shelf.new).reads ≡ (S.state shelf.old).reads }
{
    save_named::<H, S>(alloc, SECOND, shelf, name, tree, batch, &[])?;
    Ok(())
}

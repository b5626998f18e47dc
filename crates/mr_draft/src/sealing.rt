//! A draft's file becomes a map.

ghost use Rattle.std.specs.Prelude.{◌≡◌, ◌<◌, ◌≤◌, ◌^◌, length, option_map, OnOk, IfOk, IfErr, IfSome, MatchResult};
ghost use Rattle.mr_tree.specs.Digest.{root_preimage};
ghost use Rattle.mr_tree.specs.View.{IsChild};
ghost use Rattle.mr_tree.specs.Nodes.{root_entry};
ghost use Rattle.mr_outside.specs.Bytes.{AreBytes};
ghost use Rattle.mr_outside.specs.Files.{overwritten};
ghost use Rattle.mr_outside.specs.Writing.{IsChanged, IsChangedPartly};
ghost use Rattle.mr_pages.specs.PageBytes.{layout_by, root_level};
ghost use Rattle.mr_pages.specs.Walking.{child_link};
ghost use Rattle.mr_store.specs.CachedFile.{state_of, name_of};
ghost use Rattle.mr_edit.specs.Shelves.{HasShelfCause};
ghost use Rattle.mr_draft.specs.Draft.{draft_state, draft_of, shelved, SealsMap, SealFails};
ghost use Rattle.mr_draft.specs.Sheets.{HasAllPages, IsFiled, OnlyWrites};

use crate::draft::Draft;
use mr_edit::EditErr;
use mr_outside::Shelf;
use mr_pages::{MapHead, SECOND_SIZE, head_root, level_of_root, put_head};
use mr_store::CachedFile;
use mr_tree::{Child, Hashes};

// Waits until the file stands as it was written.
fn sync<S: Shelf>(file: &mut CachedFile<S>) -> Result<(), EditErr>
    requires { IsFiled (state_of file.old).files (name_of file.old) }
    ensures files { (state_of file.new).files ≡ (state_of file.old).files }
    ensures only { OnlyWrites file.old file.new }
    ensures later { (state_of file.old).faults ≤ (state_of file.new).faults }
    ensures quiet { OnOk result ((state_of file.new).faults ≡ (state_of file.old).faults) }
    ensures cause { IfErr result (HasShelfCause (state_of file.old).faults
        (state_of file.new).faults) }
    ensures reads { (state_of file.new).reads ≡ (state_of file.old).reads }
{
    match file.shelf.sync(file.name.as_str()) {
        Ok(()) => Ok(()),
        Err(error) => Err(EditErr::from(error)),
    }
}

// Writes page 0.
fn put_first<S: Shelf>(file: &mut CachedFile<S>, page: &[u8]) -> Result<(), EditErr>
    requires size { length page.now ≡ file.old.layout.size }
    requires pages { HasAllPages file.old }
    ensures filed { IsFiled (state_of file.new).files (name_of file.old) }
    ensures whole { OnOk result (IsChanged (overwritten (name_of file.old) 0) page.now
        (state_of file.old).files (state_of file.new).files) }
    ensures partly { IsChangedPartly (overwritten (name_of file.old) 0) page.now
        (state_of file.old).files (state_of file.new).files }
    ensures only { OnlyWrites file.old file.new }
    ensures later { (state_of file.old).faults ≤ (state_of file.new).faults }
    ensures quiet { OnOk result ((state_of file.new).faults ≡ (state_of file.old).faults) }
    ensures cause { IfErr result (HasShelfCause (state_of file.old).faults
        (state_of file.new).faults) }
    ensures reads { (state_of file.new).reads ≡ (state_of file.old).reads }
{
    match file.shelf.write_at(file.name.as_str(), 0, page) {
        Ok(()) => Ok(()),
        Err(error) => Err(EditErr::from(error)),
    }
}

// Writes page 0 between two syncs.
fn write_first<S: Shelf>(file: &mut CachedFile<S>, page: &[u8]) -> Result<(), EditErr>
    requires size { length page.now ≡ file.old.layout.size }
    requires pages { HasAllPages file.old }
    ensures whole { OnOk result (IsChanged (overwritten (name_of file.old) 0) page.now
        (state_of file.old).files (state_of file.new).files) }
    ensures partly { IsChangedPartly (overwritten (name_of file.old) 0) page.now
        (state_of file.old).files (state_of file.new).files }
    ensures later { (state_of file.old).faults ≤ (state_of file.new).faults }
    ensures quiet { OnOk result ((state_of file.new).faults ≡ (state_of file.old).faults) }
    ensures cause { IfErr result (HasShelfCause (state_of file.old).faults
        (state_of file.new).faults) }
    ensures reads { (state_of file.new).reads ≡ (state_of file.old).reads }
{
    sync(file)?;
    put_first(file, page)?;
    sync(file)?;
    Ok(())
}

// What the type tells of its values.
fn is_word(_n: u64)
    ensures { _n < 2 ^ 64 }
{}

// Writes page 0, which says this of the map, and answers the root digest.
fn seal_file<S: Shelf, H: Hashes>(
    file: &mut CachedFile<S>,
    head: &MapHead,
) -> Result<[u8; 32], EditErr>
    requires level { head.now.level ≡ root_level (option_map child_link head.now.root) }
    requires sized { file.old.layout.size ≡ (layout_by file.old.layout.version).size }
    requires count { head.now.pages ≡ file.old.pages }
    requires pages { HasAllPages file.old }
    ensures sealed { MatchResult result
        (λ digest. SealsMap H.of (draft_state file.old head.now.free head.now.root head.now.count
        head.now.batch) digest (state_of file.new))
        (SealFails H.of (draft_state file.old head.now.free head.now.root head.now.count
        head.now.batch) (state_of file.new)) }
    ensures digest { IfOk result (λ digest. digest ≡ H.of (root_preimage file.old.layout.version
        head.now.batch head.now.count (root_entry head.now.root))) }
    ensures reads { (state_of file.new).reads ≡ (state_of file.old).reads }
{
    is_word(head.batch);
    let layout = file.layout;
    let mut room = [0; SECOND_SIZE];
    let (page, _) = room.split_at_mut(layout.size);
    put_head(layout, head, page);
    write_first(file, page)?;
    Ok(head_root::<H>(layout.version, head))
}

// What the types tell of their values.
fn is_id(_id: u32)
    ensures { _id < 2 ^ 32 }
{}

fn is_digest(_digest: &[u8; 32])
    ensures { length _digest.now ≡ 32 }
{}

fn are_bytes(_bytes: &[u8])
    ensures { AreBytes _bytes.now }
{}

fn is_child(one: &Child)
    ensures { IsChild one.now }
{
    is_id(one.id);
    let _corners = one.rect.corners();
    is_word(one.mask);
    is_word(one.count);
    is_digest(&one.digest);
    are_bytes(&one.digest);
}

fn is_root(root: &Option<Child>)
    ensures { IfSome root.now IsChild }
{
    if let Some(child) = root {
        is_child(child);
    }
}

impl<S: Shelf, H: Hashes> Draft<S, H> {
    /// Makes the file a map: syncs it, writes page 0, and syncs it again. Answers the root digest.
    pub fn seal(self) -> (S, Result<[u8; 32], EditErr>)
        ensures sealed { MatchResult result.1
            (λ digest. SealsMap H.of (draft_of self) digest (S.state result.0))
            (SealFails H.of (draft_of self) (S.state result.0)) }
        // Told or not, the digest is that of the draft's batch, count and root, which is a node's
        // entry.
        ensures node { IfSome self.root IsChild }
        ensures digest { IfOk result.1 (λ digest. digest ≡ H.of
            (root_preimage self.sheets.file.layout.version self.batch self.count
            (root_entry self.root))) }
        ensures reads { (S.state result.0).reads ≡ (shelved self).reads }
    {
        let Draft {
            alloc: _,
            sheets,
            free,
            root,
            count,
            batch,
        } = self;
        is_root(&root);
        let mut file = sheets.into_file();
        let head = MapHead {
            level: level_of_root(&root),
            batch,
            count,
            pages: file.pages,
            root,
            free,
        };
        let result = seal_file::<S, H>(&mut file, &head);
        (file.close(), result)
    }
}

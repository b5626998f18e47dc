//! What is made of a whole map that is opened.

ghost use Rattle.std.specs.Prelude.{◌≡◌, ◌≤◌, ◌+◌};
ghost use Rattle.mr_outside.specs.Told.{OfFile};
ghost use Rattle.mr_pages.specs.PageBytes.{form_of, IsLayout};
ghost use Rattle.mr_pages.specs.Page.{page_limit};
ghost use Rattle.mr_pages.specs.Opening.{opened_as, opened_of, AnswersMap, SomeBytes, MapCauses};
ghost use Rattle.mr_pages.specs.Gathering.{tree_in};
ghost use Rattle.mr_pages.specs.private.Walks.{HasFirst, IsPaged};
ghost use Rattle.mr_pages.specs.declared.opening.Opened as opened;

use crate::MapErr;
use crate::checking::{Checked, check};
use crate::copying::Copies;
use crate::file_pages::FilePages;
use crate::layout::Layout;
use crate::maker::Trees;
use crate::opening::Opened;
use mr_outside::Shelf;
use mr_tree::{Hashes, Snapshot, Top, Tree};
use std::alloc::Global;
use std::marker::PhantomData;

/// What a whole map is made into.
pub trait Whole<H: Hashes> {
    // the map that it is
    ghost shows: { Self → opened.Opened };

    /// The map that so many pages of a file stand for, or their first fault. Page 0 was read
    /// before.
    fn open_pages<'a, 'b, 'c, S: Shelf>(
        alloc: Global,
        layout: Layout,
        shelf: &'a mut S,
        name: &'b str,
        first: &'c [u8],
        pages: u32,
    ) -> Result<Self, MapErr>
        requires layout { IsLayout layout }
        requires paged { IsPaged (form_of layout) pages (S.state shelf.old).files name.now }
        requires first { HasFirst (form_of layout) (S.state shelf.old).files name.now first.now }
        requires some { 1 ≤ pages }
        requires few { pages ≤ page_limit }
        ensures told { OfFile (S.state shelf.old).files name.now ⊥
            (λ bytes. AnswersMap (form_of layout) H.of bytes (opened_as shows result)) }
        ensures of_some_bytes { SomeBytes (form_of layout) H.of (opened_as shows result) }
        ensures causes { MapCauses name.now (S.state shelf.old) (S.state shelf.new)
            (opened_as shows result) }
        ensures files { (S.state shelf.new).files ≡ (S.state shelf.old).files }
        ensures reads { (S.state shelf.old).reads ≤ (S.state shelf.new).reads }
        ensures reads_at_most { (S.state shelf.new).reads + 1 ≤ (S.state shelf.old).reads + pages };
}

// The tree that was made of a map's root node, or that of a map without one.
fn tree_of(made: Option<Tree>) -> Tree
    ensures { result ≡ tree_in made }
{
    match made {
        None => Tree::Empty,
        Some(tree) => tree,
    }
}

impl<H: Hashes> Whole<H> for Opened {
    ghost shows = { λ map. map };

    fn open_pages<'a, 'b, 'c, S: Shelf>(
        alloc: Global,
        layout: Layout,
        shelf: &'a mut S,
        name: &'b str,
        first: &'c [u8],
        pages: u32,
    ) -> Result<Opened, MapErr> {
        let mut trees = Trees;
        let mut source = FilePages::<'a, 'b, 'c, '_, S, H, Trees> {
            shelf,
            name,
            first,
            layout,
            pages,
            hash: PhantomData,
            into: &mut trees,
        };
        let checked = check::<FilePages<'a, 'b, 'c, '_, S, H, Trees>>(alloc, &mut source)?;
        let Checked { head, made } = checked;
        Ok(Opened {
            tree: tree_of(made),
            version: layout.version,
            batch: head.batch,
        })
    }
}

impl<H: Hashes> Whole<H> for Snapshot<H> {
    ghost shows = { λ s. opened_of s };

    fn open_pages<'a, 'b, 'c, S: Shelf>(
        alloc: Global,
        layout: Layout,
        shelf: &'a mut S,
        name: &'b str,
        first: &'c [u8],
        pages: u32,
    ) -> Result<Snapshot<H>, MapErr> {
        let mut copies = Copies {
            nodes: Vec::new(alloc),
        };
        let mut source = FilePages::<'a, 'b, 'c, '_, S, H, Copies> {
            shelf,
            name,
            first,
            layout,
            pages,
            hash: PhantomData,
            into: &mut copies,
        };
        let checked = check::<FilePages<'a, 'b, 'c, '_, S, H, Copies>>(alloc, &mut source)?;
        let Checked { head, made } = checked;
        Ok(Snapshot::over(
            copies.nodes,
            Top {
                version: layout.version,
                batch: head.batch,
                count: head.count,
                root: made,
            },
        ))
    }
}

//! The pages of a file on a shelf.

ghost use Rattle.std.specs.Prelude.{◌≡◌, ◌/◌, ◌≤◌, ⊤, Bool, true, false, List, IfOk, OnOk, MatchOption};
ghost use Rattle.std.proofs.Props.{props};
ghost use Rattle.mr_tree.specs.Digest.{Scheme};
ghost use Rattle.mr_tree.specs.View.{children_in};
ghost use Rattle.mr_tree.specs.declared.tree.Tree as trees;
ghost use Rattle.mr_pages.specs.PageBytes.{form_of, IsLayout};
ghost use Rattle.mr_pages.specs.File.{is_odd_size};
ghost use Rattle.mr_pages.specs.Page.{page_limit};
ghost use Rattle.mr_pages.specs.Walking.{owned};
ghost use Rattle.mr_pages.specs.Source.{Stay};
ghost use Rattle.mr_pages.specs.Gathering.{AreMade, SuitsChild, tree_over};
ghost use Rattle.mr_pages.specs.private.Walks.{HasFirst, IsPaged, on_shelf};

use crate::head::MapHead;
use crate::layout::{Layout, PAGE_LIMIT, SECOND_SIZE};
use crate::maker::Maker;
use crate::node::Node;
use crate::page::{free_on, head_on, node_on};
use crate::reading::page_into;
use crate::rule::MapRule;
use crate::source::Source;
use mr_outside::{Shelf, ShelfErr};
use mr_tree::{Child, Hashes, NodeView};
use std::alloc::AllocError;
use std::marker::PhantomData;

/// How many pages a file of this size has, if it is one of whole pages.
pub fn page_count(layout: Layout, size: u64) -> Option<u32>
    requires { IsLayout layout }
    ensures { MatchOption result (is_odd_size layout.size size ≡ true)
        (λ n. (is_odd_size layout.size size ≡ false) × (n ≡ size / layout.size)) }
{
    let page_size = layout.size as u64;
    if size == 0 || size % page_size != 0 || size > PAGE_LIMIT as u64 * page_size {
        return None;
    }
    Some((size / page_size) as u32)
}

/// So many pages of a file on a shelf, each read by itself, but for page 0, which was read before;
/// and what is made of their nodes.
#[derive(Drop)]
pub struct FilePages<'a, 'b, 'c, 'd, S: Shelf, H: Hashes, G: Maker> {
    pub shelf: &'a mut S,
    pub name: &'b str,
    pub first: &'c [u8],
    pub layout: Layout,
    pub pages: u32,
    pub hash: PhantomData<H>,
    pub into: &'d mut G,
    ghost few: { pages ≤ page_limit },
    ghost fits: { IsLayout layout },
    ghost paged: { IsPaged (form_of layout) pages (S.state shelf.now).files
        name.now } by { Prim.hlevel props },
    ghost headed: { HasFirst (form_of layout) (S.state shelf.now).files name.now
        first.now } by { Prim.hlevel props },
}

impl<S: Shelf, H: Hashes, G: Maker> Source for FilePages<'_, '_, '_, '_, S, H, G> {
    type Hash = H;

    type Made = G::Made;

    type Held = G::Held;

    ghost state = { λ s. on_shelf (form_of s.layout) (s.shelf.ghost_name, s.into.ghost_name) s.pages
        (S.state s.shelf.now) s.name.now };

    ghost keeps = { λ s page. ⊤ };

    ghost held = { λ s. G.held s.into.now };

    ghost makes = { G.makes };

    fn count(&self) -> u32 {
        self.pages
    }

    fn layout(&self) -> Layout {
        self.layout
    }

    fn head(&self) -> Result<MapHead, MapRule> {
        head_on(self.layout, self.first, self.pages)
    }

    fn node(
        &mut self,
        page: u32,
        level: u8,
        bytes: &mut [u8],
        into: &mut NodeView,
    ) -> Result<bool, ShelfErr> {
        page_into(self.shelf, self.name, self.layout, page, bytes)?;
        Ok(node_on(self.layout, bytes, level, into))
    }

    fn free(&mut self, page: u32) -> Result<Option<u32>, ShelfErr> {
        let mut room = [0; SECOND_SIZE];
        let (bytes, _) = room.split_at_mut(self.layout.size);
        page_into(self.shelf, self.name, self.layout, page, bytes)?;
        Ok(free_on(self.layout, bytes))
    }

    fn make(
        &mut self,
        child: &Child,
        node: Node,
        below: Vec<G::Made>,
    ) -> Result<G::Made, AllocError>
        ensures same { on_shelf (form_of self.new.layout)
            (self.new.shelf.ghost_name, self.new.into.ghost_name)
            self.new.pages
            (S.state self.new.shelf.now) self.new.name.now
            ≡ on_shelf (form_of self.old.layout)
            (self.old.shelf.ghost_name, self.old.into.ghost_name)
            self.old.pages
            (S.state self.old.shelf.now) self.old.name.now }
        ensures made { IfOk result (λ m. (x : Scheme) (root : Bool) (before : G.Held)
            (ts : List trees.Tree) → SuitsChild x root child.now node →
            AreMade (G.makes x false) before (G.held self.old.into.now) (children_in (owned node))
            below.items ts →
            G.makes x root before (G.held self.new.into.now) child.now m (tree_over node ts)) }
        ensures kept { OnOk result ⊤ }
        ensures stay { Stay (λ page. ⊤) (λ page. ⊤) }
    {
        self.into.make_of(child, node, below)
    }
}

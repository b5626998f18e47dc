//! The pages of a file, as a walk over them sees them.

ghost use Rattle.std.specs.Prelude.{◌≡◌, ◌<◌, ◌≤◌, ℕ, Bool, List, length, IfOk, IfErr, OnOk, true, false};
ghost use Rattle.mr_tree.specs.Digest.{Scheme};
ghost use Rattle.mr_tree.specs.View.{children_in};
ghost use Rattle.mr_tree.specs.declared.child.Child as types;
ghost use Rattle.mr_tree.specs.declared.tree.Tree as trees;
ghost use Rattle.mr_pages.specs.Faults.{of_level};
ghost use Rattle.mr_pages.specs.Page.{IsNode, level_of};
ghost use Rattle.mr_pages.specs.PageBytes.{form_of, IsLayout};
ghost use Rattle.mr_pages.specs.Source.{Sourced, GivesPage, GivesHead, ReadsPage, IsOfOneRead, SaysHead, MayKeep, Stay};
ghost use Rattle.mr_pages.specs.Gathering.{AreMade, SuitsChild, tree_over};
ghost use Rattle.mr_pages.specs.Walking.{page_node, owned, ShowsWanted, AnswersHead};

use crate::head::MapHead;
use crate::layout::Layout;
use crate::node::Node;
use crate::rule::MapRule;
use mr_outside::ShelfErr;
use mr_tree::{Child, Hashes, NodeView};
use std::alloc::AllocError;

/// The pages of a file, each read by itself, and what is made of their nodes.
///
/// What is told of a page is told of some bytes that were read there, and of the file where it is
/// told.
pub trait Source {
    type Hash: Hashes;

    // what is made of a node, and of what was made of its children
    type Made: Drop;

    // what was made so far and stands beside
    type Held;

    // what the pages are read as, where that is told, and what was counted
    ghost state: { Self → Sourced };

    // the node of this page is kept
    ghost keeps: { Self → ℕ → Type 0 };

    ghost held: { Self → Self.Held };

    // from what was held before to what is held now: this was made of the node of a child, which
    // may be the root, and of all below it, which are this tree
    ghost makes: { Scheme → (root : Bool) → Self.Held → Self.Held → types.Child → Self.Made →
        trees.Tree → Type 0 };

    /// How many pages there are.
    fn count(&self) -> u32
        ensures { result ≡ (state self.now).pages };

    /// How its pages are laid out.
    fn layout(&self) -> Layout
        ensures form { form_of result ≡ (state self.now).origin.form }
        ensures fits { IsLayout result };

    /// Page 0, which was read before, or the first rule that it breaks.
    fn head(&self) -> Result<MapHead, MapRule>
        requires { 1 ≤ (state self.now).pages }
        ensures shows { GivesHead (state self.now) (λ f. AnswersHead result f.head) }
        ensures of_one_read { IfErr result IsOfOneRead }
        ensures says { IfOk result
            (SaysHead (state self.now).origin.form.version (state self.now).pages) };

    /// Shows the node of this level that the page spells, and answers whether it spells one. Where
    /// it does, the page's bytes are in `bytes`, which has room for them and for nothing else.
    fn node(
        &mut self,
        page: u32,
        level: u8,
        bytes: &mut [u8],
        into: &mut NodeView,
    ) -> Result<bool, ShelfErr>
        requires within { page < (state self.old).pages }
        requires size { length bytes.old ≡ (state self.old).origin.form.size }
        ensures shows { IfOk result (λ shown. GivesPage (state self.old) page
            (λ f. ShowsWanted shown into.new (of_level level (f.node page)))) }
        ensures spelled { IfOk result (λ shown. shown ≡ true →
            IsNode (state self.old).origin.form.version (page_node into.new)
            × (level_of (page_node into.new) ≡ level)) }
        ensures on { IfOk result (λ shown. shown ≡ true →
            bytes.new ≡ (state self.old).origin.form.node_page (page_node into.new)) }
        ensures reads { ReadsPage (state self.old) (state self.new) result }
        ensures holds { held self.new ≡ held self.old }
        ensures stay { Stay (keeps self.old) (keeps self.new) };

    /// The page that a free page names, if this is one.
    fn free(&mut self, page: u32) -> Result<Option<u32>, ShelfErr>
        requires { page < (state self.old).pages }
        ensures next { IfOk result (λ o. GivesPage (state self.old) page (λ f. o ≡ f.free page)) }
        ensures reads { ReadsPage (state self.old) (state self.new) result }
        ensures holds { held self.new ≡ held self.old }
        ensures stay { Stay (keeps self.old) (keeps self.new) };

    /// What is made of the node of a page, which was judged and whose children are in the file, and
    /// of what was made of these children. The node is kept, if this source keeps any.
    fn make(
        &mut self,
        child: &Child,
        node: Node,
        below: Vec<Self::Made>,
    ) -> Result<Self::Made, AllocError>
        requires { MayKeep Self.Hash.of (state self.old) child.now node }
        ensures same { state self.new ≡ state self.old }
        ensures made { IfOk result (λ m. (x : Scheme) (root : Bool) (before : Self.Held)
            (ts : List trees.Tree) → SuitsChild x root child.now node →
            AreMade (makes x false) before (held self.old) (children_in (owned node))
            below.items ts →
            makes x root before (held self.new) child.now m (tree_over node ts)) }
        ensures kept { OnOk result (keeps self.new child.now.id) }
        ensures stay { Stay (keeps self.old) (keeps self.new) };
}

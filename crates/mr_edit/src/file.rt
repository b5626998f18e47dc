//! The pages of a map file under edit.

ghost use Rattle.std.specs.Prelude.{◌≡◌, ℕ, ◌+◌, ◌<◌, ◌≤◌, Option, option_map, All, IfSome, IsSomeAnd, IfOk, IfErr, OnOk};
ghost use Rattle.mr_tree.specs.Digest.{Scheme};
ghost use Rattle.mr_tree.specs.View.{size, level_of, children_in, AreTold, HasCount};
ghost use Rattle.mr_pages.specs.Page.{page_limit, node_entry};
ghost use Rattle.mr_pages.specs.Walking.{child_link, page_node};
ghost use Rattle.mr_edit.specs.PageMap.{PageMap, HasNode, HasFree, with_content, node_content, free_content, longer};
ghost use Rattle.mr_edit.specs.Held.{IsEntryOf};
ghost use Rattle.mr_edit.specs.Causes.{HasEditCause, CanRead};
ghost use Rattle.mr_edit.specs.Outcome.{NeverMap, CanWrite};

use crate::EditErr;
use mr_record::Version;
use mr_tree::{Child, NodeView};

/// A file whose page 0 is left alone, page by page, behind a cache.
pub trait PageFile {
    // the hash function and the version of the map that it is of
    ghost scheme: { Scheme };

    // its pages, where they are told
    ghost told: { Self → Option PageMap };

    // how many faults there were
    ghost faults: { Self → ℕ };

    // how many pages were read
    ghost reads: { Self → ℕ };

    // what a call leaves of the object, from what it was before it
    ghost kept: { Self → Self → Type 0 };

    /// The version of the map that it is of.
    fn version(&self) -> Version
        ensures { result ≡ scheme.version };

    /// What is said of the node that a view shows, where it stands on this page.
    fn entry(&self, view: &NodeView, page: u32) -> Child
        requires some { 1 ≤ size view.now }
        requires counts { All HasCount (children_in view.now) }
        ensures { child_link result ≡ record {
          page = page;
          entry = node_entry scheme (page_node view.now);
        } };

    /// Reads the node of which the child is the entry, and checks it against that.
    fn read(&mut self, child: &Child, into: &mut NodeView) -> Result<(), EditErr>
        ensures same { told self.new ≡ told self.old }
        ensures page { OnOk result (1 ≤ child.now.id) }
        ensures level { OnOk result (level_of into.new ≡ child.now.level) }
        ensures not_empty { OnOk result (1 ≤ size into.new) }
        ensures shown { OnOk result (AreTold scheme.version into.new) }
        ensures node { OnOk result (IfSome (told self.old)
            (λ b. HasNode b child.now.id (page_node into.new))) }
        ensures kept { kept self.old self.new }
        ensures reads { reads self.new ≤ reads self.old + 1 }
        ensures quiet { OnOk result (faults self.new ≡ faults self.old) }
        ensures cause { IfErr result (HasEditCause (faults self.old) (faults self.new)) }
        ensures blames_none_told { IfErr result (λ e. NeverMap e
            (CanRead scheme (told self.old) child.now)) };

    /// The page that a free page names.
    fn read_free(&mut self, page: u32) -> Result<u32, EditErr>
        requires { 1 ≤ page }
        ensures same { told self.new ≡ told self.old }
        ensures free { IfOk result (λ next. IfSome (told self.old) (λ b. HasFree b page next)) }
        ensures blames_none_told { IfErr result (λ e. NeverMap e
            (IsSomeAnd (told self.old) (λ b. (next : ℕ) × HasFree b page next))) }
        ensures kept { kept self.old self.new }
        ensures reads { reads self.new ≤ reads self.old + 1 }
        ensures quiet { OnOk result (faults self.new ≡ faults self.old) }
        ensures cause { IfErr result (HasEditCause (faults self.old) (faults self.new)) };

    /// Writes a node on the page of its entry.
    fn write(&mut self, child: &Child, view: &NodeView) -> Result<(), EditErr>
        requires page { 1 ≤ child.now.id }
        requires some { 1 ≤ size view.now }
        requires said { IsEntryOf scheme child.now view.now }
        requires shown { AreTold scheme.version view.now }
        ensures blames_none_told { IfErr result
            (λ e. NeverMap e (CanWrite (told self.old) child.now.id)) }
        ensures put { OnOk result (told self.new
            ≡ option_map (with_content child.now.id (node_content (page_node view.now)))
            (told self.old)) }
        ensures kept { kept self.old self.new }
        ensures reads { reads self.new ≡ reads self.old }
        ensures quiet { OnOk result (faults self.new ≡ faults self.old) }
        ensures cause { IfErr result (HasEditCause (faults self.old) (faults self.new)) };

    /// Makes a page a free one.
    fn write_free(&mut self, page: u32, next: u32) -> Result<(), EditErr>
        requires { 1 ≤ page }
        ensures put { OnOk result (told self.new
            ≡ option_map (with_content page (free_content next)) (told self.old)) }
        ensures blames_none_told { IfErr result (λ e. NeverMap e (CanWrite (told self.old) page)) }
        ensures kept { kept self.old self.new }
        ensures reads { reads self.new ≡ reads self.old }
        ensures quiet { OnOk result (faults self.new ≡ faults self.old) }
        ensures cause { IfErr result (HasEditCause (faults self.old) (faults self.new)) };

    /// Adds a page at the end, and answers its number.
    fn grow(&mut self) -> Result<u32, EditErr>
        ensures told { OnOk result (told self.new ≡ option_map longer (told self.old)) }
        ensures positive { IfOk result (λ page. 1 ≤ page) }
        ensures last { IfOk result (λ page. IfSome (told self.old) (λ b. page ≡ b.size)) }
        ensures blames_none_told { IfErr result (λ e. NeverMap e
            (IsSomeAnd (told self.old) (λ b. b.size < page_limit))) }
        ensures kept { kept self.old self.new }
        ensures reads { reads self.new ≡ reads self.old }
        ensures quiet { OnOk result (faults self.new ≡ faults self.old) }
        ensures cause { IfErr result (HasEditCause (faults self.old) (faults self.new)) };

    ghost kept_self: { (s : Self) → kept s s };

    ghost kept_on: { (s t u : Self) → kept s t → kept t u → kept s u };

    ghost kept_faults: { (s t : Self) → kept s t → faults s ≤ faults t };
}

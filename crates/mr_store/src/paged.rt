//! A map on disk whose nodes are fetched page by page.

ghost use Rattle.std.specs.Prelude.{◌≡◌, ◌≤◌, ◌+◌, length, Some, None, IfOk, IfErr, OnOk, OnErr, IsOk};
ghost use Rattle.mr_outside.specs.Faults.{next_count};
ghost use Rattle.mr_tree.specs.Nodes.{MayFetch, ShowsNode, HasFetchCause};
ghost use Rattle.mr_store.specs.Kept.{room, used, PutsNode};
ghost use Rattle.mr_store.specs.Again.{ReadsOne, Reread};
ghost use Rattle.mr_outside.specs.Reading.{piece_count};
ghost use Rattle.mr_outside.specs.Causes.{ShelfCauses};
ghost use Rattle.mr_outside.specs.Told.{OfFile};
ghost use Rattle.std.proofs.Props.{props};
ghost use Rattle.mr_store.specs.CachedFile.{entries_of, name_of, page_form, OfBytes, IsHeld, IsGiven};
ghost use Rattle.mr_store.specs.Stored.{top_in, IsStore, IsMapOf};

use crate::cached_file::CachedFile;
use crate::fetching::show_node;
use mr_outside::{Shelf, ShelfErr, read_all};
use mr_pages::MapHead;
use mr_record::Version;
use mr_tree::{Child, Hash32, NodeView, Nodes, NodesErr, Top};
use std::alloc::Global;
use std::marker::PhantomData;

/// A map in a file of the shelf, whose nodes are read page by page. It keeps up to 256 node pages,
/// and checks each page that it reads again against what its parent says of it.
pub struct Paged<S: Shelf, H: Hash32> {
    pub(crate) alloc: Global,
    pub(crate) file: CachedFile<S>,
    pub(crate) head: MapHead,
    pub(crate) fetches: u64,
    pub(crate) refusal: Option<NodesErr>,
    asked: Option<Child>,
    pub(crate) hash: PhantomData<H>,
    ghost store: { IsStore H.of file head } by { Prim.hlevel props },
}

impl<S: Shelf, H: Hash32> Nodes for Paged<S, H> {
    ghost use Rattle.mr_store.specs.Paged.{shelved, stands_for, Keeps};
    ghost use Rattle.mr_store.specs.private.Laws.{keeps_self, keeps_on, keeps_stands, keeps_says, is_well_formed, is_layered, has_ids};

    type Hash = H;

    ghost stands = { λ s. stands_for s };

    ghost says = { λ s. top_in s.file.layout.version s.head };

    ghost fetches = { λ s. s.fetches };

    ghost faults = { λ s. (shelved s).faults };

    ghost refusal = { λ s. s.refusal };

    ghost asked = { λ s c. s.asked ≡ Some c };

    ghost kept = { λ s t. Keeps s t };

    fn top(&self) -> Top {
        Top {
            version: self.file.layout.version,
            batch: self.head.batch,
            count: self.head.count,
            root: self.head.root,
        }
    }

    fn fetch(&mut self, child: &Child, into: &mut NodeView) -> Result<(), NodesErr>
        requires { MayFetch H.of (stands_for self.old) child.now }
        ensures kept { Keeps self.old self.new }
        ensures counted { self.new.fetches ≡ next_count self.old.fetches }
        ensures shows { OnOk result (ShowsNode H.of (stands_for self.old) child.now into.new) }
        ensures cause { IfErr result (HasFetchCause (stands_for self.old) child.now
            (shelved self.old).faults (shelved self.new).faults) }
        ensures quiet { OnOk result ((shelved self.new).faults ≡ (shelved self.old).faults) }
        ensures refused { IfErr result (λ e. self.new.refusal ≡ Some e) }
        ensures unrefused { OnOk result (self.new.refusal ≡ self.old.refusal) }
        ensures asks { self.new.asked ≡ Some child.now }
        // A page that is kept is not read, and any other is read once at most.
        ensures held { IsHeld self.old.file child.now →
            IsOk result × ((shelved self.new).reads ≡ (shelved self.old).reads) }
        ensures one { ReadsOne (shelved self.old) (shelved self.new) }
        // What was read is blamed only where a read was counted.
        ensures read { IfErr result (Reread (shelved self.old).reads (shelved self.new).reads) }
        // Some bytes of a page are refused just so.
        ensures given { IfErr result (IsGiven H.of self.old.file child.now) }
        // The page is kept.
        ensures caches { OnOk result (IsHeld self.new.file child.now) }
        // So is all else, but for what was used longest ago, where the cache is full.
        ensures uses { IsHeld self.old.file child.now →
            entries_of self.new.file ≡ used child.now.id (entries_of self.old.file) }
        ensures puts { ¬ (IsHeld self.old.file child.now) → OnOk result (PutsNode room
            (entries_of self.old.file) (entries_of self.new.file) child.now into.new) }
        ensures leaves { OnErr result (entries_of self.new.file ≡ entries_of self.old.file) }
        ensures length_at_most { length (entries_of self.new.file) ≤ room }
    {
        self.fetches = self.fetches.saturating_add(1);
        self.asked = Some(*child);
        let result = show_node::<H, S>(self.alloc, &mut self.file, &self.head, child, into);
        if let Err(error) = &result {
            self.refusal = Some(*error);
        }
        let _len = self.file.cache.len();
        result
    }

    ghost kept_self = { λ s. keeps_self s };

    ghost kept_on = { λ s t u. keeps_on s t u };

    ghost kept_stands = { λ s t k. keeps_stands s t k };

    ghost kept_says = { λ s t k. keeps_says s t k };

    ghost kept_fetches = { λ s t k. k.fetches };

    ghost kept_faults = { λ s t k. k.faults };

    ghost well_formed = { λ s. is_well_formed H.of s.file s.head s.store };

    ghost layered = { λ s. is_layered H.of s.file s.head s.store };

    ghost numbered = { λ s. has_ids H.of s.file s.head s.store };
}

impl<S: Shelf, H: Hash32> Paged<S, H> {
    ghost use Rattle.mr_store.specs.Paged.{shelved, stands_for, IsSameMap};

    // The map that stands in a file whose page 0 says this, and none of whose nodes was fetched.
    pub(crate) fn over(alloc: Global, file: CachedFile<S>, head: MapHead) -> Paged<S, H>
        requires store { IsStore H.of file head }
        ensures file { result.file ≡ file }
        ensures head { result.head ≡ head }
        ensures fetches { result.fetches ≡ 0 }
        ensures refusal { result.refusal ≡ None }
        ensures asked { result.asked ≡ None }
    {
        Paged {
            alloc,
            file,
            head,
            fetches: 0,
            refusal: None,
            asked: None,
            hash: PhantomData,
        }
    }

    /// Does nothing: it is there for proofs, which learn what the map's file stands for.
    pub fn is_map(&self)
        ensures { OfBytes self.now.file ⊥
            (IsMapOf (page_form self.now.file) H.of (stands_for self.now)) }
    {}

    /// The version of the map.
    pub fn version(&self) -> Version
        ensures { result ≡ (stands_for self.now).version }
    {
        self.file.layout.version
    }

    /// How many pages the map's file has, page 0 included.
    pub fn pages(&self) -> u32
        ensures { result ≡ self.now.head.pages }
    {
        self.head.pages
    }

    /// The bytes of another file of the shelf, or of this one.
    pub fn read_file(&mut self, name: &str) -> Result<Vec<u8>, ShelfErr>
        ensures bytes { IfOk result (λ v. OfFile (shelved self.old).files name.now ⊥
            (λ bytes. v.items ≡ bytes)) }
        ensures causes { ShelfCauses name.now (shelved self.old) (shelved self.new) result }
        ensures same { IsSameMap self.old self.new }
        ensures cache { self.new.file.cache ≡ self.old.file.cache }
        ensures fetches { self.new.fetches ≡ self.old.fetches }
        ensures reads { (shelved self.old).reads ≤ (shelved self.new).reads }
        ensures pieces { let before = (shelved self.old).reads in
            let after = (shelved self.new).reads in
            OfFile (shelved self.old).files name.now (after ≡ before)
            (λ bytes. after ≤ before + piece_count (length bytes)) }
        ensures refusal { self.new.refusal ≡ self.old.refusal }
        ensures asked { self.new.asked ≡ self.old.asked }
    {
        read_all(self.alloc, &mut self.file.shelf, name)
    }

    /// The file of the map, with the nodes of it that are kept, and what its page 0 says.
    pub fn into_parts(self) -> (CachedFile<S>, MapHead)
        ensures file { result.0 ≡ self.file }
        ensures head { result.1 ≡ self.head }
        ensures store { IsStore H.of self.file self.head }
    {
        let Paged {
            alloc: _,
            file,
            head,
            fetches: _,
            refusal: _,
            asked: _,
            hash: _,
        } = self;
        (file, head)
    }

    /// The shelf, as it stands.
    pub fn close(self) -> S
        ensures { result ≡ self.file.shelf }
    {
        let (file, _) = self.into_parts();
        file.close()
    }
}

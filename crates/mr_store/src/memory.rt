//! Maps that are taken into memory whole.

ghost use Rattle.std.specs.Prelude.{◌≡◌, ◌≤◌, ◌+◌, length, Some, IfOk, IfErr, IfSome, OnOk};
ghost use Rattle.mr_tree.specs.Nodes.{HasSomeCause, TellsRefusal, subtrees};
ghost use Rattle.mr_tree.specs.Snapshot.{snapshot_model, tree_of};
ghost use Rattle.mr_store.specs.Blamed.{StopsAt};
ghost use Rattle.mr_store.specs.Paged.{shelved, stands_for, Keeps};
ghost use Rattle.mr_store.specs.Stored.{top_in, IsSaid, IsSnapshotOf};

use crate::copying::copied;
use crate::paged::Paged;
use mr_outside::Shelf;
use mr_pages::MapHead;
use mr_record::Version;
use mr_tree::{Hash32, NodesErr, Snapshot, Top};

// What page 0 says of a map of this version.
fn top_of(version: Version, head: &MapHead) -> Top
    ensures { result ≡ top_in version head.now }
{
    Top {
        version,
        batch: head.batch,
        count: head.count,
        root: head.root,
    }
}

impl<S: Shelf, H: Hash32> Paged<S, H> {
    /// The whole map in memory, made as its nodes are fetched, with no tree beside it.
    ///
    /// Where the tree is not told, `Page` names besides a node with too few entries, or one whose
    /// rectangle, mask or count is not the one that its parent tells of. Or it names a node with a
    /// record's number that was met before. It names the root, where the map has another number of
    /// records than it tells.
    pub fn snapshot(&mut self) -> Result<Snapshot<H>, NodesErr>
        ensures kept { Keeps self.old self.new }
        ensures stands { IfOk result (λ p. IsSnapshotOf (stands_for self.old) p.nodes.items p.top) }
        // Told or not, it is of the map that page 0 told of.
        ensures says { IfOk result (λ p. IsSaid H.of
            (top_in self.old.file.layout.version self.old.head)
            (snapshot_model p.nodes.items p.top)) }
        // There are no more fetches than nodes.
        ensures fetched { IfSome (stands_for self.old).tree
            (λ t. self.new.fetches ≤ self.old.fetches + length (subtrees t)) }
        // Told or not, there are no more of them than nodes of the map in memory.
        ensures fetches_at_most { IfOk result (λ p. self.new.fetches
            ≤ self.old.fetches + length (subtrees (tree_of p.nodes.items p.top))) }
        ensures cause { IfErr result (HasSomeCause (stands_for self.old)
            (shelved self.old).faults (shelved self.new).faults) }
        // Told or not, it stops with what a fetch refused, or blames a node that breaks a rule, or
        // the root for its count; or memory ran out.
        ensures blames { IfErr result (StopsAt H.of (stands_for self.old) self.old.head.root
            self.old.head.count (λ c. self.new.asked ≡ Some c) self.new.refusal) }
        ensures quiet { OnOk result ((shelved self.new).faults ≡ (shelved self.old).faults) }
        // What a fetch refused is what is answered.
        ensures answered { TellsRefusal (λ e. e) self.old.refusal self.new.refusal result }
    {
        let pages = self.head.pages;
        let top = top_of(self.file.layout.version, &self.head);
        copied::<Paged<S, H>>(self.alloc, self, &top, pages)
    }
}

//! A map whose nodes are fetched up to a number of them, and no further.

ghost use Rattle.std.specs.Prelude.{◌≡◌, ◌≤◌, IfOk, IfErr, OnOk, Some};
ghost use Rattle.std.proofs.Common.{rules};
ghost use Rattle.mr_outside.specs.Faults.{next_count};
ghost use Rattle.mr_tree.specs.Nodes.{IsTop, MayFetch, ShowsNode, HasFetchCause};
ghost use Rattle.mr_tree.specs.Snapshot.{snapshot_model};
ghost use Rattle.mr_tree.specs.private.SnapshotLaws.{has_ids};

use mr_tree::{Child, Hashes, NodeView, Nodes, NodesErr, Reader, Top};

/// Fetches so many nodes of a map in memory; every further fetch is a fault.
#[derive(Drop)]
pub struct Stopping<'a, H: Hashes> {
    pub reader: Reader<'a, H>,
    pub left: u64,
    pub fetches: u64,
    pub faults: u64,
    pub refusal: Option<NodesErr>,
    pub asked: Option<Child>,
}

impl<'a, H: Hashes> Nodes for Stopping<'a, H> {
    type Hash = H;

    ghost stands = { λ r.
        snapshot_model r.reader.snapshot.now.nodes.items r.reader.snapshot.now.top };

    ghost says = { λ r. r.reader.snapshot.now.top };

    ghost fetches = { λ r. r.fetches };

    ghost faults = { λ r. r.faults };

    ghost refusal = { λ r. r.refusal };

    ghost asked = { λ r c. r.asked ≡ Some c };

    ghost kept = { λ s t. (t.reader.snapshot ≡ s.reader.snapshot) × (s.fetches ≤ t.fetches)
        × (s.faults ≤ t.faults) };

    fn top(&self) -> Top {
        self.reader.top()
    }

    fn fetch(&mut self, child: &Child, into: &mut NodeView) -> Result<(), NodesErr> {
        self.fetches = self.fetches.saturating_add(1);
        self.asked = Some(*child);
        if self.left == 0 {
            self.faults = self.faults.saturating_add(1);
            self.refusal = Some(NodesErr::Fault);
            return Err(NodesErr::Fault);
        }
        self.left -= 1;
        self.reader.fetch(child, into)
    }

    ghost kept_self = { Prim.search rules };

    ghost kept_on = { Prim.search rules };

    ghost kept_stands = { Prim.search rules };

    ghost kept_says = { Prim.search rules };

    ghost kept_fetches = { Prim.search rules };

    ghost kept_faults = { Prim.search rules };

    ghost well_formed = { λ r. r.reader.snapshot.now.well_formed };

    ghost layered = { λ r. r.reader.snapshot.now.layered };

    ghost numbered = { λ r.
        has_ids r.reader.snapshot.now.nodes.items r.reader.snapshot.now.top };
}

//! Maps whose nodes are fetched one by one.

ghost use Rattle.std.specs.Prelude.{◌≡◌, ℕ, ◌≤◌, Option, Some, IfSome, IfErr, OnOk};
ghost use Rattle.mr_outside.specs.Faults.{next_count};
ghost use Rattle.mr_tree.specs.declared.child.Child as entry;
ghost use Rattle.mr_tree.specs.declared.nodes.NodesErr as error;
ghost use Rattle.mr_tree.specs.declared.nodes.NodesErr.TheVariants as variants;
ghost use Rattle.mr_tree.specs.declared.nodes.Top as head;
ghost use Rattle.mr_tree.specs.WellFormed.{WellFormed, HasLayers};
ghost use Rattle.mr_tree.specs.Nodes.{MapModel, HasIds, IsTop, MayFetch, ShowsNode, HasFetchCause, root_entry, of_shelf};

use crate::{Child, Entry, Hashes, NodeView};
use mr_outside::ShelfErr;
use mr_record::Version;
use std::alloc::{AllocError, AllocFailed};

/// What a map says of itself: its version, the batch that it stands at, the number of its records,
/// and the entry of its root node, which a map without records has not.
#[derive(Clone, Copy, Debug)]
pub struct Top {
    pub version: Version,
    pub batch: u64,
    pub count: u64,
    pub root: Option<Child>,
}

impl Top {
    /// What is said of the root node, and of no node where there is none.
    pub fn root_entry(&self) -> Entry
        ensures { result ≡ root_entry self.now.root }
    {
        match &self.root {
            None => Entry::none(),
            Some(root) => root.entry(),
        }
    }
}

/// Why a node was not fetched.
#[derive(Clone, Copy, Debug)]
pub enum NodesErr {
    /// The page holds another node than the one that its parent, or the head, tells of: the digest
    /// that is held there, and the one that was found.
    Changed {
        page: u32,
        held: [u8; 32],
        found: [u8; 32],
    },
    /// The page that was read spells no node of the child's level.
    Page {
        page: u32,
    },
    /// The page that was read names this page for a child, and the file has none such.
    Outside {
        page: u32,
    },
    /// The file is not there any more.
    Missing,
    /// The store failed.
    Fault,
    NoMemory,
}

impl From<AllocError> for NodesErr {
    ghost from_gives = { λ _ e. e ≡ variants.NoMemory };

    fn from(_error: AllocError) -> NodesErr {
        NodesErr::NoMemory
    }
}

impl<T: Drop> From<AllocFailed<T>> for NodesErr {
    ghost from_gives = { λ _ e. e ≡ variants.NoMemory };

    fn from(_error: AllocFailed<T>) -> NodesErr {
        NodesErr::NoMemory
    }
}

/// The same cause in a fetch's own words.
impl From<ShelfErr> for NodesErr {
    ghost from_gives = { λ e r. r ≡ of_shelf e };

    fn from(error: ShelfErr) -> NodesErr {
        match error {
            ShelfErr::Missing => NodesErr::Missing,
            ShelfErr::Fault => NodesErr::Fault,
            ShelfErr::NoMemory => NodesErr::NoMemory,
        }
    }
}

/// A map whose nodes are fetched one by one, each by the entry that its parent holds of it.
pub trait Nodes {
    type Hash: Hashes;

    // what no call changes: the version, the batch, how far ids go, the tree and the tree under
    // each id
    ghost stands: { Self → MapModel };

    // what the map says of itself, which no call changes either
    ghost says: { Self → head.Top };

    // how many fetches there were
    ghost fetches: { Self → ℕ };

    // how many faults there were
    ghost faults: { Self → ℕ };

    // the last refusal of a fetch, where one was refused
    ghost refusal: { Self → Option error.NodesErr };

    // holds of the child that was asked for last, also where it was refused; it may hold of others
    ghost asked: { Self → entry.Child → Type 0 };

    // what a call leaves of the object, from what it was before it
    ghost kept: { Self → Self → Type 0 };

    /// Version, batch and count of the map, and the entry of its root, whose count is that of the
    /// map in version 2 and 0 in version 1.
    fn top(&self) -> Top
        ensures is { IsTop Self.Hash.of (stands self.now) result }
        ensures says { result ≡ says self.now };

    /// Reads the node of which the child is the entry. After a refusal the view shows any node.
    fn fetch(&mut self, child: &Child, into: &mut NodeView) -> Result<(), NodesErr>
        requires { MayFetch Self.Hash.of (stands self.old) child.now }
        ensures kept { kept self.old self.new }
        ensures counted { fetches self.new ≡ next_count (fetches self.old) }
        ensures shows { OnOk result (ShowsNode Self.Hash.of (stands self.old) child.now into.new) }
        ensures cause { IfErr result
            (HasFetchCause (stands self.old) child.now (faults self.old) (faults self.new)) }
        ensures quiet { OnOk result (faults self.new ≡ faults self.old) }
        ensures refused { IfErr result (λ e. refusal self.new ≡ Some e) }
        ensures unrefused { OnOk result (refusal self.new ≡ refusal self.old) }
        ensures asks { asked self.new child.now };

    ghost kept_self: { (s : Self) → kept s s };

    ghost kept_on: { (s t u : Self) → kept s t → kept t u → kept s u };

    ghost kept_stands: { (s t : Self) → kept s t → stands t ≡ stands s };

    ghost kept_says: { (s t : Self) → kept s t → says t ≡ says s };

    ghost kept_fetches: { (s t : Self) → kept s t → fetches s ≤ fetches t };

    ghost kept_faults: { (s t : Self) → kept s t → faults s ≤ faults t };

    // a tree that is told is well formed
    ghost well_formed: { (s : Self) → IfSome (stands s).tree (λ t. ∥ WellFormed t ∥₁) };

    // of its version
    ghost layered: { (s : Self) → IfSome (stands s).tree (HasLayers (stands s).version) };

    // and each of its nodes has an id of its own
    ghost numbered: { (s : Self) → IfSome (stands s).tree (HasIds (stands s)) };
}

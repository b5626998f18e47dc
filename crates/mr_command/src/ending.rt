//! What a command comes to, and why it may be given up.

ghost use Rattle.std.specs.Prelude.{◌≡◌, ◌++◌, All};
ghost use Rattle.std.specs.String.{string_bytes};
ghost use Rattle.std.proofs.Props.{props};
ghost use Rattle.mr_record.specs.Record.{HasLayer};
ghost use Rattle.mr_record.specs.RecordText.{text_of};
ghost use Rattle.mr_query.specs.Scan.{by_number};
ghost use Rattle.mr_tree.specs.Tree.{records as records_of};
ghost use Rattle.mr_tree.specs.WellFormed.{HasLayers};
ghost use Rattle.mr_command.specs.Shown.{kept_in};

use mr_outside::ShelfErr;
use mr_plan::Status;
use mr_record::{Record, Version};
use mr_tree::Tree;
use std::alloc::{AllocError, Global};

/// The records that are printed.
#[derive(Drop)]
pub enum RecordsOut {
    /// These, in this order.
    Records(Vec<Record>),
    /// Those of a tree, in rising number.
    OfTree(Global, Tree),
}

/// What a command comes to: how it ends and what it prints, a text that may be empty and then a
/// line for each record.
#[derive(Drop)]
pub struct Ending {
    /// How the run is to end, once all is printed.
    pub status: Status,
    /// Whole lines, or nothing.
    pub text: Vec<u8>,
    /// In whose lines the records behind them are printed.
    pub version: Version,
    pub records: RecordsOut,
    ghost layers: { All (HasLayer version) (kept_in records) } by { Prim.hlevel props },
}

impl Ending {
    ghost use Rattle.mr_command.specs.Ending.{printed_of};

    // Prints this text alone.
    pub(crate) fn text(alloc: Global, status: Status, text: Vec<u8>) -> Ending
        ensures status { result.status ≡ status }
        ensures printed { printed_of result ≡ text.items }
    {
        Ending {
            status,
            text,
            version: Version::One,
            records: RecordsOut::Records(Vec::new(alloc)),
        }
    }

    // Prints this line alone.
    pub(crate) fn line(alloc: Global, status: Status, line: String) -> Ending
        ensures status { result.status ≡ status }
        ensures printed { printed_of result ≡ string_bytes line }
    {
        Ending::text(alloc, status, line.into_bytes())
    }

    // Prints this line, and then these records in lines of this version.
    pub(crate) fn both(
        status: Status,
        line: String,
        version: Version,
        records: Vec<Record>,
    ) -> Ending
        requires { All (HasLayer version) records.items }
        ensures status { result.status ≡ status }
        ensures printed { printed_of result ≡ string_bytes line ++ text_of version records.items }
    {
        Ending {
            status,
            text: line.into_bytes(),
            version,
            records: RecordsOut::Records(records),
        }
    }

    // Prints these records alone, in lines of this version.
    pub(crate) fn records(
        alloc: Global,
        status: Status,
        version: Version,
        records: Vec<Record>,
    ) -> Ending
        requires { All (HasLayer version) records.items }
        ensures status { result.status ≡ status }
        ensures printed { printed_of result ≡ text_of version records.items }
    {
        Ending {
            status,
            text: Vec::new(alloc),
            version,
            records: RecordsOut::Records(records),
        }
    }

    // Prints the records of a tree in rising number, in lines of this version. The tree is kept
    // until then, and not copied.
    pub(crate) fn tree(alloc: Global, status: Status, version: Version, tree: Tree) -> Ending
        requires { HasLayers version tree }
        ensures status { result.status ≡ status }
        ensures printed { printed_of result ≡ text_of version (by_number (records_of tree)) }
    {
        Ending {
            status,
            text: Vec::new(alloc),
            version,
            records: RecordsOut::OfTree(alloc, tree),
        }
    }
}

/// Why a run has no ending.
#[derive(Clone, Copy)]
pub enum Halt {
    /// The words spell no command, which no command answers.
    Words,
    /// The shelf failed.
    Shelf,
    /// There was no memory.
    NoMemory,
}

// What a step of a command gives, or what the command comes to where it ends there.
pub(crate) type Step<T> = Result<T, Result<Ending, Halt>>;

impl From<AllocError> for Halt {
    ghost use Rattle.mr_command.specs.declared.ending.Halt.TheVariants as halts;

    ghost from_gives = { λ _ e. e ≡ halts.NoMemory };

    fn from(_error: AllocError) -> Halt {
        Halt::NoMemory
    }
}

impl From<ShelfErr> for Halt {
    ghost use Rattle.mr_command.specs.Ending.{halt_of};

    ghost from_gives = { λ e h. h ≡ halt_of e };

    fn from(error: ShelfErr) -> Halt {
        match error {
            ShelfErr::Missing => Halt::Shelf,
            ShelfErr::Fault => Halt::Shelf,
            ShelfErr::NoMemory => Halt::NoMemory,
        }
    }
}

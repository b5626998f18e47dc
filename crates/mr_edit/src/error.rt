//! Why pages were not changed.

ghost use Rattle.std.specs.Prelude.{◌≡◌};
ghost use Rattle.mr_edit.specs.declared.error.EditErr.TheVariants as errors;
ghost use Rattle.mr_edit.specs.Shelves.{of_shelf, of_nodes};

use mr_outside::ShelfErr;
use mr_pages::{MapFault, MapRule};
use mr_tree::NodesErr;
use std::alloc::AllocError;

/// Why pages were not changed.
#[derive(Clone, Copy)]
pub enum EditErr {
    /// A page that was read is not what its parent says, or a page that is written or freed lies
    /// outside the file. Or the file would grow past its last page, or the root would rise too
    /// high. Or an entry would count more records than a map has, or the root is one that no map of
    /// so many records has. Or a record that is to go out is not there.
    Map(MapFault),
    Missing,
    Fault,
    NoMemory,
}

impl From<AllocError> for EditErr {
    ghost from_gives = { λ _ e. e ≡ errors.NoMemory };

    fn from(_error: AllocError) -> EditErr {
        EditErr::NoMemory
    }
}

/// The same cause in a change's own words.
impl From<ShelfErr> for EditErr {
    ghost from_gives = { λ e r. r ≡ of_shelf e };

    fn from(error: ShelfErr) -> EditErr {
        match error {
            ShelfErr::Missing => EditErr::Missing,
            ShelfErr::Fault => EditErr::Fault,
            ShelfErr::NoMemory => EditErr::NoMemory,
        }
    }
}

/// What is said of a node that was read, in a change's own words.
impl From<NodesErr> for EditErr {
    ghost from_gives = { λ e r. r ≡ of_nodes e };

    fn from(error: NodesErr) -> EditErr {
        match error {
            NodesErr::Changed { page, held, found } => EditErr::Map(MapFault {
                page,
                rule: MapRule::Changed { held, found },
            }),
            NodesErr::Page { page } => EditErr::Map(MapFault {
                page,
                rule: MapRule::Page,
            }),
            NodesErr::Outside { page } => EditErr::Map(MapFault {
                page,
                rule: MapRule::Outside,
            }),
            NodesErr::Missing => EditErr::Missing,
            NodesErr::Fault => EditErr::Fault,
            NodesErr::NoMemory => EditErr::NoMemory,
        }
    }
}

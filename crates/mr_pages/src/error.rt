//! Why a map was not opened.

ghost use Rattle.std.specs.Prelude.{◌≡◌};
ghost use Rattle.mr_pages.specs.Opening.{of_shelf, of_nodes};
ghost use Rattle.mr_pages.specs.declared.error.MapErr.TheVariants as errors;

use crate::{MapFault, MapRule};
use mr_outside::ShelfErr;
use mr_tree::NodesErr;
use std::alloc::{AllocError, AllocFailed};

/// Why a map was not opened.
#[derive(Clone, Copy)]
pub enum MapErr {
    /// The file stands for no map, by this fault.
    Map(MapFault),
    /// There is no file of that name.
    Missing,
    /// The shelf failed; its count of faults says so.
    Fault,
    NoMemory,
}

impl From<AllocError> for MapErr {
    ghost from_gives = { λ _ e. e ≡ errors.NoMemory };

    fn from(_error: AllocError) -> MapErr {
        MapErr::NoMemory
    }
}

impl<T: Drop> From<AllocFailed<T>> for MapErr {
    ghost from_gives = { λ _ e. e ≡ errors.NoMemory };

    fn from(_error: AllocFailed<T>) -> MapErr {
        MapErr::NoMemory
    }
}

impl From<ShelfErr> for MapErr {
    ghost from_gives = { λ e r. r ≡ of_shelf e };

    fn from(error: ShelfErr) -> MapErr {
        match error {
            ShelfErr::Missing => MapErr::Missing,
            ShelfErr::Fault => MapErr::Fault,
            ShelfErr::NoMemory => MapErr::NoMemory,
        }
    }
}

/// A page that is read again breaks a rule, or holds another node than before.
impl From<NodesErr> for MapErr {
    ghost from_gives = { λ e r. r ≡ of_nodes e };

    fn from(error: NodesErr) -> MapErr {
        match error {
            NodesErr::Changed { page, held, found } => MapErr::Map(MapFault {
                page,
                rule: MapRule::Changed { held, found },
            }),
            NodesErr::Page { page } => MapErr::Map(MapFault {
                page,
                rule: MapRule::Page,
            }),
            NodesErr::Outside { page } => MapErr::Map(MapFault {
                page,
                rule: MapRule::Outside,
            }),
            NodesErr::Missing => MapErr::Missing,
            NodesErr::Fault => MapErr::Fault,
            NodesErr::NoMemory => MapErr::NoMemory,
        }
    }
}

//! Why a batch was not applied to a map in place.

use mr_batch::BatchFault;
use mr_journal::DiskErr;
use mr_pages::MapFault;
use std::alloc::AllocError;

/// Why a batch was not applied to a map in place.
#[derive(Clone, Copy)]
pub enum HereErr {
    /// The first fault of the map's file.
    Map(MapFault),
    /// The map is of version 1, and the batch adds a record with a layer above 0.
    Layer,
    /// Why the batch may not be applied.
    Batch(BatchFault),
    /// The disk failed; its count of faults says so.
    Fault,
    /// There was not enough memory.
    NoMemory,
}

impl From<DiskErr> for HereErr {
    ghost use Rattle.std.specs.Prelude.{◌≡◌};
    ghost use Rattle.mr_here.specs.private.Forming.{of_disk};

    ghost from_gives = { λ e h. h ≡ of_disk e };

    fn from(error: DiskErr) -> HereErr {
        match error {
            DiskErr::Fault => HereErr::Fault,
            DiskErr::NoMemory => HereErr::NoMemory,
        }
    }
}

impl From<AllocError> for HereErr {
    ghost use Rattle.std.specs.Prelude.{◌≡◌};
    ghost use Rattle.mr_here.specs.declared.error.HereErr.TheVariants.{NoMemory};

    ghost from_gives = { λ _ e. e ≡ NoMemory };

    fn from(_error: AllocError) -> HereErr {
        HereErr::NoMemory
    }
}

//! A map and its journal on a disk that may crash.

ghost use Rattle.std.specs.Prelude.{◌≡◌, ℕ, ◌≤◌, length, Some, IsTrue, IfSome, IsSome, IfOk, OnOk, OnErr, option_map};
ghost use Rattle.mr_outside.specs.Reading.{FillsFront, GivesFrom};
ghost use Rattle.mr_journal.specs.Images.{Image, DiskState, part, written, InArea, Unchanged};
ghost use Rattle.mr_journal.specs.Torn.{TornAt};
ghost use Rattle.mr_journal.specs.Moments.{IsDiskCall, IsDurable, KeepsImages};

use std::alloc::{AllocError, AllocFailed};

/// The two areas of a disk.
#[derive(Clone, Copy, Debug, PartialEq, Eq)]
pub enum Area {
    /// The map's file: whole pages, of 4,096 bytes in version 1 and of 8,192 in version 2.
    Map,
    /// Pages that are to be put into the map, behind a first byte that says whether they are whole.
    Journal,
}

/// Why a disk refuses, and the calls of this crate that go over it.
#[derive(Clone, Copy, Debug, PartialEq, Eq)]
pub enum DiskErr {
    /// The disk failed; its count of faults says so.
    Fault,
    /// There was not enough memory.
    NoMemory,
}

impl From<AllocError> for DiskErr {
    ghost use Rattle.mr_journal.specs.declared.disk.DiskErr.TheVariants.{NoMemory};

    ghost from_gives = { λ _ e. e ≡ NoMemory };

    fn from(_error: AllocError) -> DiskErr {
        DiskErr::NoMemory
    }
}

impl<T: Drop> From<AllocFailed<T>> for DiskErr {
    ghost use Rattle.mr_journal.specs.declared.disk.DiskErr.TheVariants.{NoMemory};

    ghost from_gives = { λ _ e. e ≡ NoMemory };

    fn from(_error: AllocFailed<T>) -> DiskErr {
        DiskErr::NoMemory
    }
}

/// A map and its journal on a disk that may crash at any moment.
///
/// What a disk has not synced may be lost or torn. Since an area's last sync that answered Ok each
/// range that a write touched, and the part past the old end, may hold any bytes. The length is any
/// from the old to the greatest since.
pub trait Disk {
    /// The contents where they are told, whether it is told what a crash may leave, and the counts.
    ghost state: { Self → DiskState };

    /// What counts as an image since a time. Where it is told what a crash may leave: what a crash
    /// at a moment since then may have left. Where the contents alone are told: the contents. Else
    /// nothing.
    ghost images: { Self → ℕ → Image → Type 0 };

    /// What no call changes.
    ghost kept: { Self → Self → Type 0 };

    /// What a call that writes nothing leaves as it was, beside the contents.
    ghost still: { Self → Self → Type 0 };

    /// The length of the area in bytes.
    fn size(&mut self, area: Area) -> Result<u64, DiskErr>
        ensures length { IfOk result
            (λ n. IfSome (state self.old).contents (λ k. n ≡ length (part area k))) }
        ensures contents { (state self.new).contents ≡ (state self.old).contents }
        ensures passes { IsDiskCall (state self.old) (state self.new) (images self.old)
            (images self.new) result Unchanged }
        ensures stays { KeepsImages (state self.old) (state self.new) (images self.old)
            (images self.new) }
        ensures still { still self.old self.new }
        ensures kept { kept self.old self.new };

    /// Copies bytes of the area, from the place `at` on, to the front of `into`, and answers how
    /// many: as many as there are and as `into` has room for.
    fn read_at(&mut self, area: Area, at: u64, into: &mut [u8]) -> Result<usize, DiskErr>
        ensures fills { IfOk result (λ n. FillsFront into.old into.new n) }
        ensures gives { IfOk result (λ n. IfSome (state self.old).contents
            (λ k. GivesFrom at into.old into.new n (part area k))) }
        ensures contents { (state self.new).contents ≡ (state self.old).contents }
        ensures passes { IsDiskCall (state self.old) (state self.new) (images self.old)
            (images self.new) result Unchanged }
        ensures stays { KeepsImages (state self.old) (state self.new) (images self.old)
            (images self.new) }
        ensures still { still self.old self.new }
        ensures kept { kept self.old self.new };

    /// Replaces the bytes of the area from the place `at` on, and lengthens it where they go past
    /// its end. A refused write may have touched its range.
    fn write_at(&mut self, area: Area, at: u64, bytes: &[u8]) -> Result<(), DiskErr>
        requires { IfSome (state self.old).contents (λ k. at ≤ length (part area k)) }
        ensures written { OnOk result ((state self.new).contents
            ≡ option_map (written area at bytes.now) (state self.old).contents) }
        ensures refused { OnErr result (IfSome (state self.old).contents
            (λ k. (m : Image) × ((state self.new).contents ≡ Some m)
            × InArea area (TornAt at (length bytes.now)) k m)) }
        ensures passes { IsDiskCall (state self.old) (state self.new) (images self.old)
            (images self.new) result
            (InArea area (TornAt at (length bytes.now))) }
        ensures kept { kept self.old self.new };

    /// Waits until all that was written to the area outlives a crash.
    fn sync(&mut self, area: Area) -> Result<(), DiskErr>
        ensures durable { OnOk result (IsDurable area (state self.new) (images self.new)) }
        ensures contents { (state self.new).contents ≡ (state self.old).contents }
        ensures passes { IsDiskCall (state self.old) (state self.new) (images self.old)
            (images self.new) result Unchanged }
        ensures still { still self.old self.new }
        ensures kept { kept self.old self.new };

    /// An image of a later time is one of an earlier.
    ghost earlier: { (d : Self) (t u : ℕ) (c : Image) → t ≤ u → images d u c → images d t c };

    /// The contents are always one of the images.
    ghost counts: { (d : Self) (k : Image) → (state d).contents ≡ Some k
        → images d (state d).clock k };

    /// Nothing is an image where the contents are not told.
    ghost held: { (d : Self) (t : ℕ) (c : Image) → images d t c → IsSome (state d).contents };

    /// A disk that tells what a crash may leave tells its contents.
    ghost told: { (d : Self) → IsTrue (state d).tells_images → IsSome (state d).contents };

    ghost kept_self: { (d : Self) → kept d d };

    ghost kept_on: { (d e f : Self) → kept d e → kept e f → kept d f };

    ghost still_self: { (d : Self) → still d d };

    ghost still_on: { (d e f : Self) → still d e → still e f → still d f };
}

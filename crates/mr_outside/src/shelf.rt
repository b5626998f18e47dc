//! Files by name, and why a call on them is refused.

ghost use Rattle.std.specs.Prelude.{◌≡◌, ◌+◌, ◌≤◌, [], length, None, IfOk, OnOk, OnErr, IsErrOf, ⊤};
ghost use Rattle.mr_outside.specs.Bytes.{AreBytes};
ghost use Rattle.mr_outside.specs.Files.{with_file, grown, overwritten};
ghost use Rattle.mr_outside.specs.State.{Shelved};
ghost use Rattle.mr_outside.specs.Told.{OfFile, HoldBytes};
ghost use Rattle.mr_outside.specs.Causes.{ShelfCauses, CountsRead};
ghost use Rattle.mr_outside.specs.Reading.{FillsFront, GivesFrom};
ghost use Rattle.mr_outside.specs.Writing.{IsThere, IsChanged, WritesOrFront};

use std::alloc::AllocError;
use thiserror::Error;

/// Why a shelf refuses.
#[derive(Clone, Copy, Debug, Error)]
pub enum ShelfErr {
    /// There is no file of that name.
    #[error("no such file")]
    Missing,
    /// The shelf failed; its count of faults says so.
    #[error("the files failed")]
    Fault,
    #[error("out of memory")]
    NoMemory,
}

impl From<AllocError> for ShelfErr {
    ghost use Rattle.mr_outside.specs.declared.shelf.ShelfErr.TheVariants.{NoMemory};

    ghost from_gives = { λ _ e. e ≡ NoMemory };

    fn from(_error: AllocError) -> ShelfErr {
        ShelfErr::NoMemory
    }
}

/// Files by name, as the program is given them from outside.
///
/// Any text may be a name. A shelf over memory tells its files to contracts; one over the real file
/// system tells nothing.
pub trait Shelf {
    /// The files where they are told, and the counts.
    ghost state: { Self → Shelved };

    /// The length of the file in bytes. What is told of it and of each other file are bytes,
    /// whatever is answered.
    fn size(&mut self, name: &str) -> Result<u64, ShelfErr>
        ensures bytes { OfFile (state self.old).files name.now ⊤ AreBytes }
        ensures every { HoldBytes (state self.old).files }
        ensures length { IfOk result (λ n. OfFile (state self.old).files name.now ⊥
            (λ bytes. n ≡ length bytes)) }
        ensures causes { ShelfCauses name.now (state self.old) (state self.new) result }
        ensures files { (state self.new).files ≡ (state self.old).files }
        ensures reads { (state self.new).reads ≡ (state self.old).reads };

    /// Copies bytes of the file, from the place `at` on, to the front of `into`, and answers how
    /// many. These are as many as there are and as `into` has room for, so none at or past the
    /// file's end.
    fn read_at(&mut self, name: &str, at: u64, into: &mut [u8]) -> Result<usize, ShelfErr>
        ensures fills { IfOk result (λ n. FillsFront into.old into.new n) }
        ensures gives { IfOk result (λ n. OfFile (state self.old).files name.now ⊥
            (GivesFrom at into.old into.new n)) }
        ensures causes { ShelfCauses name.now (state self.old) (state self.new) result }
        ensures files { (state self.new).files ≡ (state self.old).files }
        ensures reads { CountsRead (state self.old) (state self.new) result };

    /// Leaves the file empty, whether or not it was there. After a refusal it is as before.
    fn create(&mut self, name: &str) -> Result<(), ShelfErr>
        ensures made { OnOk result
            (IsChanged (with_file name.now) [] (state self.old).files (state self.new).files) }
        ensures refused { OnErr result ((state self.new).files ≡ (state self.old).files) }
        ensures never { IsErrOf result ShelfErr.Missing → (state self.old).files ≡ None }
        ensures causes { ShelfCauses name.now (state self.old) (state self.new) result }
        ensures reads { (state self.new).reads ≡ (state self.old).reads };

    /// Puts the bytes to the end of the file. After a refusal it has grown by some front of them.
    fn append(&mut self, name: &str, bytes: &[u8]) -> Result<(), ShelfErr>
        ensures there { OnOk result (IsThere (state self.old).files name.now) }
        ensures writes { WritesOrFront (grown name.now) bytes.now
            (state self.old) (state self.new) result }
        ensures causes { ShelfCauses name.now (state self.old) (state self.new) result };

    /// Replaces the bytes of the file from the place `at` on. After a refusal some front of these
    /// bytes stands there.
    fn write_at(&mut self, name: &str, at: u64, bytes: &[u8]) -> Result<(), ShelfErr>
        requires { OfFile (state self.old).files name.now ⊤
            (λ held. at + length bytes.now ≤ length held) }
        ensures there { OnOk result (IsThere (state self.old).files name.now) }
        ensures writes { WritesOrFront (overwritten name.now at) bytes.now
            (state self.old) (state self.new) result }
        ensures causes { ShelfCauses name.now (state self.old) (state self.new) result };

    /// Waits until all that was written to the file stands where it outlives the machine's power.
    fn sync(&mut self, name: &str) -> Result<(), ShelfErr>
        ensures there { OnOk result (IsThere (state self.old).files name.now) }
        ensures causes { ShelfCauses name.now (state self.old) (state self.new) result }
        ensures files { (state self.new).files ≡ (state self.old).files }
        ensures reads { (state self.new).reads ≡ (state self.old).reads };
}

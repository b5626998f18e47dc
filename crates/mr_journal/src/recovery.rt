//! A change that a crash cut short is finished.

ghost use Rattle.std.specs.Prelude.{◌≡◌, Some, false, IfSome, IsSomeAnd, IfOk, OnOk, option_map};
ghost use Rattle.mr_journal.specs.Moments.{EveryImage, IsOnlyImage, AddsOnly, DiskCauses};
ghost use Rattle.mr_journal.specs.Format.{is_open, restored, recovered};
ghost use Rattle.mr_journal.specs.States.{IsSettledAt, RestoresAs};

use crate::body::open_body;
use crate::carrying::finish;
use crate::steps::{read_journal, sync_both};
use crate::{Disk, DiskErr};
use std::alloc::Global;

/// Why recovery is refused: as the disk refuses.
pub type RecoverErr = DiskErr;

// Carries out the journal where it is open, once the contents are the only image.
fn redo<D: Disk>(alloc: Global, disk: &mut D) -> Result<bool, DiskErr>
    ensures any_moment { IsOnlyImage (D.state disk.old) (D.images disk.old)
        → AddsOnly (D.state disk.old) (D.state disk.new) (D.images disk.old) (D.images disk.new)
        (RestoresAs (D.state disk.old) (D.images disk.old)) }
    ensures done { IsOnlyImage (D.state disk.old) (D.images disk.old)
        → OnOk result (EveryImage (D.state disk.new) (D.images disk.new)
        (λ c. IsSomeAnd (D.state disk.old).contents
        (λ k. IsSettledAt (restored k) (D.state disk.new).contents c))) }
    ensures answer { IfOk result (λ was. IfSome (D.state disk.old).contents
        (λ k. was ≡ is_open k)) }
    ensures left { OnOk result ((D.state disk.new).contents
        ≡ option_map recovered (D.state disk.old).contents) }
    ensures still { IfOk result (λ was. was ≡ false → D.still disk.old disk.new) }
    ensures shut { IfSome (D.state disk.old).contents
        (λ k. is_open k ≡ false → D.still disk.old disk.new) }
    ensures causes { DiskCauses (D.state disk.old) (D.state disk.new) result }
    ensures kept { D.kept disk.old disk.new }
{
    let held = read_journal(alloc, disk)?;
    match open_body(held.map_length, held.journal.as_slice()) {
        None => Ok(false),
        Some(body) => {
            finish(disk, body)?;
            Ok(true)
        }
    }
}

/// Finishes a change of the map that a crash cut short: puts the pages of an open journal into the
/// map and closes the journal. It answers whether the journal was open, and may be cut short by a
/// crash itself. The whole journal is held in memory where its gate is open; of another one the
/// gate alone is read.
pub fn recover<D: Disk>(alloc: Global, disk: &mut D) -> Result<bool, RecoverErr>
    // Each image at any moment of the call restores to what an image at its start restores to.
    ensures any_moment { AddsOnly (D.state disk.old) (D.state disk.new)
        (D.images disk.old) (D.images disk.new)
        (RestoresAs (D.state disk.old) (D.images disk.old)) }
    // After Ok each image is the contents: its map is the restored one, and its journal isn't open.
    ensures done { OnOk result (EveryImage (D.state disk.new) (D.images disk.new)
        (λ c. IsSomeAnd (D.state disk.old).contents
        (λ k. IsSettledAt (restored k) (D.state disk.new).contents c))) }
    ensures answer { IfOk result (λ was. IfSome (D.state disk.old).contents
        (λ k. was ≡ is_open k)) }
    // Where the journal was open, 00 stands in place of its gate, and else nothing is changed.
    ensures left { OnOk result ((D.state disk.new).contents
        ≡ option_map recovered (D.state disk.old).contents) }
    // Where it wasn't open, nothing is made either that was not there.
    ensures still { IfOk result (λ was. was ≡ false → D.still disk.old disk.new) }
    // Where the contents are told, that goes for every answer.
    ensures shut { IfSome (D.state disk.old).contents
        (λ k. is_open k ≡ false → D.still disk.old disk.new) }
    ensures causes { DiskCauses (D.state disk.old) (D.state disk.new) result }
    ensures kept { D.kept disk.old disk.new }
{
    sync_both(disk)?;
    redo(alloc, disk)
}

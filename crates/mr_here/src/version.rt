//! The version of a map as recovery would leave it.

ghost use Rattle.std.specs.Prelude.{◌≡◌, IfOk, IfSome};
ghost use Rattle.mr_pages.specs.File.{version_of};
ghost use Rattle.mr_journal.specs.Images.{Unchanged};
ghost use Rattle.mr_journal.specs.Moments.{AddsSteps, DiskCauses, KeepsImages};
ghost use Rattle.mr_journal.specs.Format.{restored};

use mr_journal::{Disk, RecoverErr, is_version_two};
use mr_record::Version;
use std::alloc::Global;

/// The version of the map as recovery would leave it, which byte 4 of its file tells. Nothing is
/// written or synced. The whole journal is held in memory where its gate is open; of another one
/// the gate alone is read.
pub fn version_held<D: Disk>(alloc: Global, disk: &mut D) -> Result<Version, RecoverErr>
    ensures version { IfOk result (λ v. IfSome (D.state disk.old).contents
        (λ k. v ≡ version_of (restored k))) }
    ensures contents { (D.state disk.new).contents ≡ (D.state disk.old).contents }
    ensures moves { AddsSteps (D.state disk.old) (D.state disk.new) (D.images disk.old)
        (D.images disk.new) Unchanged }
    ensures causes { DiskCauses (D.state disk.old) (D.state disk.new) result }
    ensures stays { KeepsImages (D.state disk.old) (D.state disk.new) (D.images disk.old)
        (D.images disk.new) }
    ensures still { D.still disk.old disk.new }
    ensures kept { D.kept disk.old disk.new }
{
    if is_version_two(alloc, disk)? {
        return Ok(Version::Two);
    }
    Ok(Version::One)
}

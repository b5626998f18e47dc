//! The version of a map as recovery would leave it.

ghost use Rattle.std.specs.Prelude.{◌≡◌, ◌==◌, ℕ, List, length, Some, Option, MatchOption, IfSome, IfOk, slice_index};
ghost use Rattle.mr_journal.specs.Images.{Unchanged};
ghost use Rattle.mr_journal.specs.Moments.{AddsSteps, DiskCauses, KeepsImages};
ghost use Rattle.mr_journal.specs.Format.{restored};
ghost use Rattle.mr_journal.specs.MemoryDisk.{first_image};

use crate::body::{number_at, open_body, parse};
use crate::steps::read_journal;
use crate::{Area, Disk, DiskErr, RecoverErr};
use std::alloc::Global;

// Byte 4 of page 0, where an open journal has that page, beside a map of this length.
fn head_byte(map_length: u64, journal: &[u8]) -> Option<u8>
    ensures { (map : List ℕ) → length map ≡ map_length → MatchOption result
        (slice_index (restored (first_image map journal.now)) 4 ≡ slice_index map 4)
        (λ b. slice_index (restored (first_image map journal.now)) 4 ≡ b) }
{
    let body = open_body(map_length, journal)?;
    let e = parse(body)?;
    if number_at(e.bytes) != 0 {
        return None;
    }
    let bytes = e.bytes;
    Some(bytes[8])
}

// Byte 4 of the map, or 0 where it has none.
fn map_byte<D: Disk>(disk: &mut D) -> Result<u8, DiskErr>
    ensures byte { IfOk result (λ b. IfSome (D.state disk.old).contents
        (λ k. b ≡ slice_index k.map 4)) }
    ensures contents { (D.state disk.new).contents ≡ (D.state disk.old).contents }
    ensures moves { AddsSteps (D.state disk.old) (D.state disk.new) (D.images disk.old)
        (D.images disk.new) Unchanged }
    ensures causes { DiskCauses (D.state disk.old) (D.state disk.new) result }
    ensures stays { KeepsImages (D.state disk.old) (D.state disk.new) (D.images disk.old)
        (D.images disk.new) }
    ensures still { D.still disk.old disk.new }
    ensures kept { D.kept disk.old disk.new }
{
    let mut byte = [0u8];
    disk.read_at(Area::Map, 4, &mut byte)?;
    Ok(byte[0])
}

/// Whether the map is of version 2 as recovery would leave it, which byte 4 of its file says: 02 in
/// version 2. Nothing is written or synced. The whole journal is held in memory where its gate is
/// open; of another one the gate alone is read.
pub fn is_version_two<D: Disk>(alloc: Global, disk: &mut D) -> Result<bool, RecoverErr>
    ensures version { IfOk result (λ two. IfSome (D.state disk.old).contents
        (λ k. two ≡ (slice_index (restored k) 4 == 2))) }
    ensures contents { (D.state disk.new).contents ≡ (D.state disk.old).contents }
    ensures moves { AddsSteps (D.state disk.old) (D.state disk.new) (D.images disk.old)
        (D.images disk.new) Unchanged }
    ensures causes { DiskCauses (D.state disk.old) (D.state disk.new) result }
    ensures stays { KeepsImages (D.state disk.old) (D.state disk.new) (D.images disk.old)
        (D.images disk.new) }
    ensures still { D.still disk.old disk.new }
    ensures kept { D.kept disk.old disk.new }
{
    let held = read_journal(alloc, disk)?;
    match head_byte(held.map_length, held.journal.as_slice()) {
        Some(byte) => Ok(byte == 2),
        None => Ok(map_byte(disk)? == 2),
    }
}

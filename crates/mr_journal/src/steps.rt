//! Steps of a disk: a write that outlives a crash, both areas synced, an area read.

ghost use Rattle.std.specs.Prelude.{◌≡◌, ◌≤◌, length, IfSome, IfOk, OnOk, option_map};
ghost use Rattle.mr_journal.specs.Images.{part, written, InArea, Unchanged};
ghost use Rattle.mr_journal.specs.Torn.{TornAt};
ghost use Rattle.mr_journal.specs.private.Parsed.{gated};
ghost use Rattle.mr_journal.specs.Moments.{AddsSteps, IsDurable, IsOnlyImage, DiskCauses, KeepsImages};

use crate::gate::{GATE, gate_of};
use crate::{Area, Disk, DiskErr};
use std::alloc::{AllocError, Global};

/// Writes to an area, and waits until that outlives a crash.
pub(crate) fn write_and_sync<D: Disk>(
    disk: &mut D,
    area: Area,
    at: u64,
    bytes: &[u8],
) -> Result<(), DiskErr>
    requires { IfSome (D.state disk.old).contents (λ k. at ≤ length (part area k)) }
    ensures written { OnOk result ((D.state disk.new).contents
        ≡ option_map (written area at bytes.now) (D.state disk.old).contents) }
    ensures durable { OnOk result (IsDurable area (D.state disk.new) (D.images disk.new)) }
    ensures moves { AddsSteps (D.state disk.old) (D.state disk.new) (D.images disk.old)
        (D.images disk.new)
        (InArea area (TornAt at (length bytes.now))) }
    ensures causes { DiskCauses (D.state disk.old) (D.state disk.new) result }
    ensures kept { D.kept disk.old disk.new }
{
    disk.write_at(area, at, bytes)?;
    disk.sync(area)
}

/// Waits until both areas outlive a crash, so that the contents are the only image.
pub(crate) fn sync_both<D: Disk>(disk: &mut D) -> Result<(), DiskErr>
    ensures only { OnOk result (IsOnlyImage (D.state disk.new) (D.images disk.new)) }
    ensures contents { (D.state disk.new).contents ≡ (D.state disk.old).contents }
    ensures moves { AddsSteps (D.state disk.old) (D.state disk.new) (D.images disk.old)
        (D.images disk.new) Unchanged }
    ensures causes { DiskCauses (D.state disk.old) (D.state disk.new) result }
    ensures still { D.still disk.old disk.new }
    ensures kept { D.kept disk.old disk.new }
{
    disk.sync(Area::Map)?;
    disk.sync(Area::Journal)
}

/// The bytes of a journal whose gate is 4f, none of another one; and the length of the map.
#[derive(Drop)]
pub(crate) struct Loaded {
    pub(crate) journal: Vec<u8>,
    pub(crate) map_length: u64,
}

// The bytes of the whole journal.
fn read_whole<D: Disk>(alloc: Global, disk: &mut D) -> Result<Vec<u8>, DiskErr>
    ensures journal { IfOk result (λ v. IfSome (D.state disk.old).contents
        (λ k. v.items ≡ k.journal)) }
    ensures contents { (D.state disk.new).contents ≡ (D.state disk.old).contents }
    ensures moves { AddsSteps (D.state disk.old) (D.state disk.new) (D.images disk.old)
        (D.images disk.new) Unchanged }
    ensures causes { DiskCauses (D.state disk.old) (D.state disk.new) result }
    ensures stays { KeepsImages (D.state disk.old) (D.state disk.new) (D.images disk.old)
        (D.images disk.new) }
    ensures still { D.still disk.old disk.new }
    ensures kept { D.kept disk.old disk.new }
{
    let length = disk.size(Area::Journal)?;
    let mut journal = zeros(alloc, length as usize)?;
    let count = disk.read_at(Area::Journal, 0, journal.as_mut_slice())?;
    journal.truncate(count);
    Ok(journal)
}

// The same where its gate is 4f. No byte behind another gate is read.
fn read_gated<D: Disk>(alloc: Global, disk: &mut D) -> Result<Vec<u8>, DiskErr>
    ensures journal { IfOk result (λ v. IfSome (D.state disk.old).contents
        (λ k. v.items ≡ gated k.journal)) }
    ensures contents { (D.state disk.new).contents ≡ (D.state disk.old).contents }
    ensures moves { AddsSteps (D.state disk.old) (D.state disk.new) (D.images disk.old)
        (D.images disk.new) Unchanged }
    ensures causes { DiskCauses (D.state disk.old) (D.state disk.new) result }
    ensures stays { KeepsImages (D.state disk.old) (D.state disk.new) (D.images disk.old)
        (D.images disk.new) }
    ensures still { D.still disk.old disk.new }
    ensures kept { D.kept disk.old disk.new }
{
    let Some(gate) = gate_of(disk)? else {
        return Ok(Vec::new(alloc));
    };
    if gate != GATE {
        return Ok(Vec::new(alloc));
    }
    read_whole(alloc, disk)
}

/// Reads a journal whose gate is 4f, of another one the gate alone, and asks for the length of the
/// map.
pub(crate) fn read_journal<D: Disk>(alloc: Global, disk: &mut D) -> Result<Loaded, DiskErr>
    ensures held { IfOk result (λ h. IfSome (D.state disk.old).contents
        (λ k. (h.journal.items ≡ gated k.journal) × (h.map_length ≡ length k.map))) }
    ensures contents { (D.state disk.new).contents ≡ (D.state disk.old).contents }
    ensures moves { AddsSteps (D.state disk.old) (D.state disk.new) (D.images disk.old)
        (D.images disk.new) Unchanged }
    ensures causes { DiskCauses (D.state disk.old) (D.state disk.new) result }
    ensures stays { KeepsImages (D.state disk.old) (D.state disk.new) (D.images disk.old)
        (D.images disk.new) }
    ensures still { D.still disk.old disk.new }
    ensures kept { D.kept disk.old disk.new }
{
    let map_length = disk.size(Area::Map)?;
    let journal = read_gated(alloc, disk)?;
    Ok(Loaded {
        journal,
        map_length,
    })
}

fn zeros(alloc: Global, count: usize) -> Result<Vec<u8>, AllocError>
    ensures { IfOk result (λ v. length v.items ≡ count) }
{
    vec![in alloc; 0u8; count]
}

/// The bytes of the whole map.
pub fn read_map<D: Disk>(alloc: Global, disk: &mut D) -> Result<Vec<u8>, DiskErr>
    ensures map { IfOk result (λ v. IfSome (D.state disk.old).contents (λ k. v.items ≡ k.map)) }
    ensures contents { (D.state disk.new).contents ≡ (D.state disk.old).contents }
    ensures moves { AddsSteps (D.state disk.old) (D.state disk.new) (D.images disk.old)
        (D.images disk.new) Unchanged }
    ensures causes { DiskCauses (D.state disk.old) (D.state disk.new) result }
    ensures stays { KeepsImages (D.state disk.old) (D.state disk.new) (D.images disk.old)
        (D.images disk.new) }
    ensures still { D.still disk.old disk.new }
    ensures kept { D.kept disk.old disk.new }
{
    let length = disk.size(Area::Map)?;
    let mut map = zeros(alloc, length as usize)?;
    let count = disk.read_at(Area::Map, 0, map.as_mut_slice())?;
    map.truncate(count);
    Ok(map)
}

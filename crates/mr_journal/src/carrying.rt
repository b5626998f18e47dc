//! The pages of an open journal are put into the map.

ghost use Rattle.std.specs.Prelude.{◌≡◌, ℕ, ◌+◌, ◌*◌, ◌<◌, ◌≤◌, List, length, take, drop, Some, true, IfSome, OnOk, option_map};
ghost use Rattle.mr_journal.specs.Images.{written, InArea};
ghost use Rattle.mr_journal.specs.Torn.{Torn, TornAt};
ghost use Rattle.mr_journal.specs.Moments.{AddsSteps, LeadsThrough, DiskCauses};
ghost use Rattle.mr_journal.specs.Format.{number_of, entries, pages_fit, ready};
ghost use Rattle.mr_journal.specs.private.Parsed.{places, with_pages};
ghost use Rattle.mr_journal.specs.States.{IsShutAt, IsArmedFor, IsSettledAt, EitherOf};
ghost use Rattle.mr_journal.specs.private.Progress.{carried_by, closed_by, IsArmedBy, IsCarriedBy};

use crate::body::{number_at, parse};
use crate::gate::close_gate;
use crate::{Area, Disk, DiskErr};

// Writes the page of the first entry into the map.
fn put_page<D: Disk>(disk: &mut D, size: usize, entry: &[u8]) -> Result<(), DiskErr>
    requires small { (1 ≤ size) × (size ≤ 8192) }
    requires whole { 4 + size ≤ length entry.now }
    requires begins { IfSome (D.state disk.old).contents
        (λ k. number_of entry.now * size ≤ length k.map) }
    ensures written { OnOk result ((D.state disk.new).contents
        ≡ option_map (written Area.Map (number_of entry.now * size) (take size (drop 4 entry.now)))
        (D.state disk.old).contents) }
    ensures moves { AddsSteps (D.state disk.old) (D.state disk.new) (D.images disk.old)
        (D.images disk.new)
        (InArea Area.Map (TornAt (number_of entry.now * size) size)) }
    ensures causes { DiskCauses (D.state disk.old) (D.state disk.new) result }
    ensures kept { D.kept disk.old disk.new }
{
    let place = u64::from(number_at(entry)) * size as u64;
    let (_, behind) = entry.split_at(4);
    let (page, _) = behind.split_at(size);
    disk.write_at(Area::Map, place, page)
}

// Writes the pages of so many entries into the map.
fn put_entries<D: Disk>(disk: &mut D, size: usize, count: u32, bytes: &[u8]) -> Result<(), DiskErr>
    requires small { (1 ≤ size) × (size ≤ 8192) }
    requires whole { (n : ℕ) × (pages_fit size 0 n (entries size count bytes.now) ≡ true) }
    requires begins { IfSome (D.state disk.old).contents
        (λ k. pages_fit size 0 (length k.map) (entries size count bytes.now) ≡ true) }
    ensures written { OnOk result ((D.state disk.new).contents
        ≡ option_map (with_pages size (entries size count bytes.now)) (D.state disk.old).contents) }
    ensures moves { AddsSteps (D.state disk.old) (D.state disk.new) (D.images disk.old)
        (D.images disk.new)
        (InArea Area.Map (Torn (places size (entries size count bytes.now)))) }
    ensures causes { DiskCauses (D.state disk.old) (D.state disk.new) result }
    ensures kept { D.kept disk.old disk.new }
{
    let mut rest = bytes;
    let mut left = count;
    while left > 0 {
        put_page(disk, size, rest)?;
        let (_, after) = rest.split_at(4 + size);
        rest = after;
        left -= 1;
    }
    Ok(())
}

// Writes the pages of an open journal into the map, and waits until they outlive a crash.
fn carry_out<D: Disk>(disk: &mut D, body: &[u8]) -> Result<(), DiskErr>
    requires ready { (n : ℕ) × (ready n body.now ≡ true) }
    requires begins { IfSome (D.state disk.old).contents
        (λ k. ready (length k.map) body.now ≡ true) }
    ensures armed { (map : List ℕ)
        → LeadsThrough (D.state disk.old) (D.state disk.new) (D.images disk.old) (D.images disk.new)
        result (IsArmedBy body.now map) (IsArmedBy body.now map) (IsCarriedBy body.now map) }
    ensures carried { OnOk result ((D.state disk.new).contents
        ≡ option_map (carried_by body.now) (D.state disk.old).contents) }
    ensures causes { DiskCauses (D.state disk.old) (D.state disk.new) result }
    ensures kept { D.kept disk.old disk.new }
{
    let Some(e) = parse(body) else {
        return Ok(());
    };
    put_entries(disk, e.size, e.count, e.bytes)?;
    disk.sync(Area::Map)
}

/// Puts the pages of an open journal into the map, and closes the journal.
pub(crate) fn finish<D: Disk>(disk: &mut D, body: &[u8]) -> Result<(), DiskErr>
    requires ready { (n : ℕ) × (ready n body.now ≡ true) }
    requires begins { IfSome (D.state disk.old).contents
        (λ k. ready (length k.map) body.now ≡ true) }
    ensures shut { (map : List ℕ) → LeadsThrough (D.state disk.old) (D.state disk.new)
        (D.images disk.old) (D.images disk.new)
        result (IsArmedBy body.now map) (EitherOf (IsShutAt map) (IsArmedFor map))
        (IsSettledAt map (D.state disk.new).contents) }
    ensures left { OnOk result ((D.state disk.new).contents
        ≡ option_map (closed_by body.now) (D.state disk.old).contents) }
    ensures causes { DiskCauses (D.state disk.old) (D.state disk.new) result }
    ensures kept { D.kept disk.old disk.new }
{
    carry_out(disk, body)?;
    close_gate(disk)
}

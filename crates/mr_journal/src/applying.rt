//! A change in place: a journal is filled and opened, and then carried out.

ghost use Rattle.std.specs.Prelude.{◌≡◌, ℕ, ◌≤◌, List, length, true, IfSome, OnOk, option_map};
ghost use Rattle.mr_journal.specs.Moments.{LeadsThrough, DiskCauses};
ghost use Rattle.mr_journal.specs.Format.{ready, carried, changed_by};
ghost use Rattle.mr_journal.specs.States.{IsShutAt, IsArmedFor, IsSettledAt, EitherOf};
ghost use Rattle.mr_journal.specs.private.Progress.{opened_by, IsArmedBy};

use crate::carrying::finish;
use crate::gate::{fill, open_gate, prepare_gate};
use crate::{Area, Disk, DiskErr};

// Writes the body into a journal that isn't open, and opens it.
fn arm<D: Disk>(disk: &mut D, body: &[u8]) -> Result<(), DiskErr>
    ensures armed { (map : List ℕ) → ready (length map) body.now ≡ true
        → LeadsThrough (D.state disk.old) (D.state disk.new)
        (D.images disk.old) (D.images disk.new) result
        (IsSettledAt map (D.state disk.old).contents)
        (EitherOf (IsShutAt map) (IsArmedFor (carried body.now map)))
        (IsArmedBy body.now (carried body.now map)) }
    ensures left { 1 ≤ length body.now → OnOk result ((D.state disk.new).contents
        ≡ option_map (opened_by body.now) (D.state disk.old).contents) }
    ensures causes { DiskCauses (D.state disk.old) (D.state disk.new) result }
    ensures kept { D.kept disk.old disk.new }
{
    prepare_gate(disk)?;
    fill(disk, body)?;
    open_gate(disk)
}

/// Puts the pages of a journal's body into the map, so that a crash at any moment leaves the map as
/// it was or, once `recover` was called, with all of them. It begins with contents that are the
/// only image and a journal that isn't open, as `recover` leaves them. After a refusal the disk is
/// to be recovered.
pub fn write_pages<D: Disk>(disk: &mut D, body: &[u8]) -> Result<(), DiskErr>
    requires ready { (n : ℕ) × (ready n body.now ≡ true) }
    requires begins { IfSome (D.state disk.old).contents
        (λ k. ready (length k.map) body.now ≡ true) }
    ensures shut { (map : List ℕ) → ready (length map) body.now ≡ true
        → LeadsThrough (D.state disk.old) (D.state disk.new)
        (D.images disk.old) (D.images disk.new) result
        (IsSettledAt map (D.state disk.old).contents)
        (EitherOf (IsShutAt map) (EitherOf (IsArmedFor (carried body.now map))
        (IsShutAt (carried body.now map))))
        (IsSettledAt (carried body.now map) (D.state disk.new).contents) }
    ensures left { OnOk result ((D.state disk.new).contents
        ≡ option_map (changed_by body.now) (D.state disk.old).contents) }
    ensures causes { DiskCauses (D.state disk.old) (D.state disk.new) result }
    ensures kept { D.kept disk.old disk.new }
{
    arm(disk, body)?;
    finish(disk, body)
}

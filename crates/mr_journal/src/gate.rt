//! The first byte of a journal, which says whether it is open.

ghost use Rattle.std.specs.Prelude.{◌≡◌, ℕ, ◌<◌, ◌≤◌, ◌≢◌, true, List, [], ◌∷◌, length, Some, None, Option, IfSome, IfOk, OnOk, option_map};
ghost use Rattle.mr_journal.specs.Images.{written, Unchanged};
ghost use Rattle.mr_journal.specs.Moments.{AddsSteps, LeadsThrough, DiskCauses, KeepsImages};
ghost use Rattle.mr_journal.specs.Format.{ready, carried};
ghost use Rattle.mr_journal.specs.private.Parsed.{first_of};
ghost use Rattle.mr_journal.specs.States.{IsShutAt, IsArmedFor, IsSettledAt, EitherOf};
ghost use Rattle.mr_journal.specs.private.Progress.{behind, IsClearedAt, IsInvalidAt, HasGate, IsFilledBy, IsArmedBy, IsCarriedBy};

use crate::steps::write_and_sync;
use crate::{Area, Disk, DiskErr};

/// The first byte of an open journal.
pub(crate) const GATE: u8 = 0x4f;

/// The gate, where the journal has a byte. Nothing else of the journal is read.
pub(crate) fn gate_of<D: Disk>(disk: &mut D) -> Result<Option<u8>, DiskErr>
    ensures gate { IfOk result (λ gate. IfSome (D.state disk.old).contents
        (λ k. gate ≡ first_of k.journal)) }
    ensures contents { (D.state disk.new).contents ≡ (D.state disk.old).contents }
    ensures moves { AddsSteps (D.state disk.old) (D.state disk.new) (D.images disk.old)
        (D.images disk.new) Unchanged }
    ensures causes { DiskCauses (D.state disk.old) (D.state disk.new) result }
    ensures stays { KeepsImages (D.state disk.old) (D.state disk.new) (D.images disk.old)
        (D.images disk.new) }
    ensures still { D.still disk.old disk.new }
    ensures kept { D.kept disk.old disk.new }
{
    let mut byte = [0u8];
    let count = disk.read_at(Area::Journal, 0, &mut byte)?;
    if count == 0 {
        return Ok(None);
    }
    Ok(Some(byte[0]))
}

// Closes a journal that would not be open whatever its first byte is.
fn clear_gate<D: Disk>(disk: &mut D) -> Result<(), DiskErr>
    ensures shut { (map : List ℕ) → LeadsThrough (D.state disk.old) (D.state disk.new)
        (D.images disk.old) (D.images disk.new)
        result (IsInvalidAt map) (IsShutAt map) (IsClearedAt map) }
    ensures gate { OnOk result (IfSome (D.state disk.new).contents (λ k. 0 < length k.journal)) }
    ensures written { OnOk result ((D.state disk.new).contents
        ≡ option_map (written Area.Journal 0 (0 ∷ [])) (D.state disk.old).contents) }
    ensures causes { DiskCauses (D.state disk.old) (D.state disk.new) result }
    ensures kept { D.kept disk.old disk.new }
{
    write_and_sync(disk, Area::Journal, 0, &[0])
}

// Takes its version from a journal whose gate isn't open, so that it would not be open with any.
fn clear_version<D: Disk>(disk: &mut D) -> Result<(), DiskErr>
    requires { IfSome (D.state disk.old).contents (λ k. 1 ≤ length k.journal) }
    ensures shut { (map : List ℕ) (gate : ℕ) → gate ≢ 79
        → LeadsThrough (D.state disk.old) (D.state disk.new)
        (D.images disk.old) (D.images disk.new) result
        (λ c. IsShutAt map c × HasGate gate c) (IsShutAt map) (IsInvalidAt map) }
    ensures written { OnOk result ((D.state disk.new).contents
        ≡ option_map (written Area.Journal 1 (0 ∷ [])) (D.state disk.old).contents) }
    ensures causes { DiskCauses (D.state disk.old) (D.state disk.new) result }
    ensures kept { D.kept disk.old disk.new }
{
    write_and_sync(disk, Area::Journal, 1, &[0])
}

// Makes a journal with this gate, which isn't open, one whose gate is 00.
fn prepare_byte<D: Disk>(disk: &mut D, gate: u8) -> Result<(), DiskErr>
    requires { IfSome (D.state disk.old).contents (λ k. 1 ≤ length k.journal) }
    ensures shut { (map : List ℕ) → LeadsThrough (D.state disk.old) (D.state disk.new)
        (D.images disk.old) (D.images disk.new)
        result (λ c. IsShutAt map c × HasGate gate c) (IsShutAt map) (IsClearedAt map) }
    ensures gate { OnOk result (IfSome (D.state disk.new).contents (λ k. 0 < length k.journal)) }
    ensures behind { OnOk result (option_map behind (D.state disk.new).contents
        ≡ option_map behind (D.state disk.old).contents) }
    ensures causes { DiskCauses (D.state disk.old) (D.state disk.new) result }
    ensures kept { D.kept disk.old disk.new }
{
    if gate == 0 {
        return Ok(());
    }
    if gate == GATE {
        return clear_gate(disk);
    }
    clear_version(disk)?;
    clear_gate(disk)
}

/// Makes a journal that isn't open one whose gate is 00.
pub(crate) fn prepare_gate<D: Disk>(disk: &mut D) -> Result<(), DiskErr>
    ensures shut { (map : List ℕ) → LeadsThrough (D.state disk.old) (D.state disk.new)
        (D.images disk.old) (D.images disk.new)
        result (IsSettledAt map (D.state disk.old).contents) (IsShutAt map) (IsClearedAt map) }
    ensures gate { OnOk result (IfSome (D.state disk.new).contents (λ k. 0 < length k.journal)) }
    ensures behind { OnOk result (option_map behind (D.state disk.new).contents
        ≡ option_map behind (D.state disk.old).contents) }
    ensures causes { DiskCauses (D.state disk.old) (D.state disk.new) result }
    ensures kept { D.kept disk.old disk.new }
{
    match gate_of(disk)? {
        None => clear_gate(disk),
        Some(gate) => prepare_byte(disk, gate),
    }
}

/// Writes the body behind a gate of 00.
pub(crate) fn fill<D: Disk>(disk: &mut D, body: &[u8]) -> Result<(), DiskErr>
    requires { IfSome (D.state disk.old).contents (λ k. 0 < length k.journal) }
    ensures filled { (map : List ℕ)
        → LeadsThrough (D.state disk.old) (D.state disk.new) (D.images disk.old) (D.images disk.new)
        result (IsClearedAt map) (IsShutAt map) (IsFilledBy body.now map) }
    ensures written { OnOk result ((D.state disk.new).contents
        ≡ option_map (written Area.Journal 1 body.now) (D.state disk.old).contents) }
    ensures causes { DiskCauses (D.state disk.old) (D.state disk.new) result }
    ensures kept { D.kept disk.old disk.new }
{
    write_and_sync(disk, Area::Journal, 1, body)
}

/// Opens a filled journal.
pub(crate) fn open_gate<D: Disk>(disk: &mut D) -> Result<(), DiskErr>
    ensures armed { (body map : List ℕ) → ready (length map) body ≡ true
        → LeadsThrough (D.state disk.old) (D.state disk.new)
        (D.images disk.old) (D.images disk.new) result
        (IsFilledBy body map) (EitherOf (IsShutAt map) (IsArmedFor (carried body map)))
        (IsArmedBy body (carried body map)) }
    ensures written { OnOk result ((D.state disk.new).contents
        ≡ option_map (written Area.Journal 0 (79 ∷ [])) (D.state disk.old).contents) }
    ensures causes { DiskCauses (D.state disk.old) (D.state disk.new) result }
    ensures kept { D.kept disk.old disk.new }
{
    write_and_sync(disk, Area::Journal, 0, &[GATE])
}

/// Closes a journal whose pages are in the map.
pub(crate) fn close_gate<D: Disk>(disk: &mut D) -> Result<(), DiskErr>
    ensures shut { (body map : List ℕ)
        → LeadsThrough (D.state disk.old) (D.state disk.new) (D.images disk.old) (D.images disk.new)
        result (IsCarriedBy body map) (EitherOf (IsShutAt map) (IsArmedFor map))
        (IsSettledAt map (D.state disk.new).contents) }
    ensures written { OnOk result ((D.state disk.new).contents
        ≡ option_map (written Area.Journal 0 (0 ∷ [])) (D.state disk.old).contents) }
    ensures causes { DiskCauses (D.state disk.old) (D.state disk.new) result }
    ensures kept { D.kept disk.old disk.new }
{
    write_and_sync(disk, Area::Journal, 0, &[0])
}

//! A batch that is applied to a map in place.

ghost use Rattle.std.specs.Prelude.{◌≡◌, ◌⊎◌, ◌≤◌, false, All, ℕ, List, IfErr, IsSome, IfSome, IsSomeAnd, OnOk, IsErrOf};
ghost use Rattle.mr_outside.specs.Faults.{Rose};
ghost use Rattle.mr_pages.specs.Law.{IsMapFile};
ghost use Rattle.mr_pages.specs.declared.opening.Opened.{Opened};
ghost use Rattle.mr_batch.specs.Changes.{IsLayered};
ghost use Rattle.mr_journal.specs.Images.{Image};
ghost use Rattle.mr_journal.specs.Moments.{EveryImage, AddsOnly};
ghost use Rattle.mr_journal.specs.Format.{is_open, restored, recovered};
ghost use Rattle.mr_journal.specs.States.{IsSettledAt};
ghost use Rattle.mr_here.specs.Crashes.{IsMadeOf, IsDoneBy, BecomesBy, EndsBy};
ghost use Rattle.mr_here.specs.Updated.{map_after, Becomes, IsRefusal, WhereJudged, Answers, AnswersSome};

use crate::error::HereErr;
use crate::forming::form;
use mr_batch::Batch;
use mr_journal::{Disk, read_map, recover, write_pages};
use mr_tree::Hash32;
use std::alloc::Global;

// Changes a map whose journal isn't open, once the contents are the only image.
fn apply_settled<H: Hash32, D: Disk>(
    alloc: Global,
    disk: &mut D,
    batch: &Batch,
) -> Result<[u8; 32], HereErr>
    requires { All IsLayered batch.now.list }
    ensures any_moment { (map : List ℕ) → EveryImage (D.state disk.old) (D.images disk.old)
        (IsSettledAt map (D.state disk.old).contents)
        → AddsOnly (D.state disk.old) (D.state disk.new) (D.images disk.old) (D.images disk.new)
        (IsMadeOf (Becomes H.of batch.now) map) }
    ensures done { (map : List ℕ) → EveryImage (D.state disk.old) (D.images disk.old)
        (IsSettledAt map (D.state disk.old).contents)
        → OnOk result (EveryImage (D.state disk.new) (D.images disk.new)
        (IsDoneBy (Becomes H.of batch.now) map (D.state disk.new).contents)) }
    ensures refused { (map : List ℕ) → EveryImage (D.state disk.old) (D.images disk.old)
        (IsSettledAt map (D.state disk.old).contents)
        → IfErr result (λ e. IsRefusal e → EveryImage (D.state disk.new) (D.images disk.new)
        (IsSettledAt map (D.state disk.new).contents)) }
    ensures answer { IfSome (D.state disk.old).contents
        (λ k. Answers H.of batch.now k (D.state disk.new).contents result) }
    ensures some { AnswersSome H.of batch.now result }
    ensures fault { IsErrOf result HereErr.Fault
        → Rose (D.state disk.old).faults (D.state disk.new).faults }
    ensures faults { (D.state disk.old).faults ≤ (D.state disk.new).faults }
    ensures quiet { IsSome (D.state disk.old).contents
        → WhereJudged result ((D.state disk.new).faults ≡ (D.state disk.old).faults) }
    ensures still { IfErr result (λ e. IsRefusal e → D.still disk.old disk.new) }
    ensures kept { D.kept disk.old disk.new }
{
    let map = read_map(alloc, disk)?;
    let formed = form::<H>(alloc, map, batch)?;
    write_pages(disk, formed.body.as_slice())?;
    Ok(formed.root)
}

/// Applies a batch to a map in place, so that a crash at any moment leaves the map as it was or
/// after the batch, and answers the root digest. A change that a crash cut short before is finished
/// first. The whole map and its journal are held in memory. Each record that comes has a layer from
/// 0 to 63.
pub fn apply_here<H: Hash32, D: Disk>(
    alloc: Global,
    disk: &mut D,
    batch: &Batch,
) -> Result<[u8; 32], HereErr>
    requires { All IsLayered batch.now.list }
    // Each image at any moment of the call restores to what an image at its start restores to, or
    // to the map after the batch.
    ensures any_moment { AddsOnly (D.state disk.old) (D.state disk.new)
        (D.images disk.old) (D.images disk.new)
        (BecomesBy (Becomes H.of batch.now) (D.state disk.old) (D.images disk.old)) }
    // After Ok each image is the contents: its map is the one after the batch, and its journal
    // isn't open.
    ensures done { OnOk result (EveryImage (D.state disk.new) (D.images disk.new)
        (EndsBy (Becomes H.of batch.now) (D.state disk.old).contents
        (D.state disk.new).contents)) }
    // Where the map or the batch is refused, each image is the contents, recovered.
    ensures refused { IfErr result (λ e. IsRefusal e
        → EveryImage (D.state disk.new) (D.images disk.new)
        (λ c. IsSomeAnd (D.state disk.old).contents
        (λ k. IsSettledAt (restored k) (D.state disk.new).contents c))) }
    // The answer is that of the map as recovery leaves it, and so are the contents.
    ensures answer { IfSome (D.state disk.old).contents
        (λ k. Answers H.of batch.now (recovered k) (D.state disk.new).contents result) }
    // Told or not, it is that of the bytes of some map.
    ensures some { AnswersSome H.of batch.now result }
    // Where every image at the start restores to a file that stands for one map, every image at any
    // moment restores to one that stands for it, or for the map after the batch.
    ensures stands { (m : Opened) → EveryImage (D.state disk.old) (D.images disk.old)
        (λ c. IsMapFile H.of (restored c) m)
        → (c : Image) → D.images disk.new (D.state disk.old).clock c
        → IsMapFile H.of (restored c) m ⊎ IsMapFile H.of (restored c) (map_after m batch.now) }
    // After Ok every image restores to one that stands for the latter.
    ensures ends { (m : Opened) → EveryImage (D.state disk.old) (D.images disk.old)
        (λ c. IsMapFile H.of (restored c) m)
        → OnOk result (EveryImage (D.state disk.new) (D.images disk.new)
        (λ c. IsMapFile H.of (restored c) (map_after m batch.now))) }
    ensures fault { IsErrOf result HereErr.Fault
        → Rose (D.state disk.old).faults (D.state disk.new).faults }
    ensures faults { (D.state disk.old).faults ≤ (D.state disk.new).faults }
    // Where the contents are told, no fault is counted where map and batch are judged.
    ensures quiet { IsSome (D.state disk.old).contents
        → WhereJudged result ((D.state disk.new).faults ≡ (D.state disk.old).faults) }
    // Where map or batch are refused and the journal wasn't open, nothing is made either that was
    // not there.
    ensures still { IfErr result (λ e. IsRefusal e → IfSome (D.state disk.old).contents
        (λ k. is_open k ≡ false → D.still disk.old disk.new)) }
    ensures kept { D.kept disk.old disk.new }
{
    recover(alloc, disk)?;
    apply_settled::<H, D>(alloc, disk, batch)
}

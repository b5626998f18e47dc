//! The command `apply`.

ghost use Rattle.std.specs.Prelude.{◌≡◌, ◌≢◌, List, ℕ, All, IfSome, Ok};
ghost use Rattle.mr_batch.specs.BatchText.{batch_of_text};
ghost use Rattle.mr_batch.specs.Directory.{IsDirectoryOf};
ghost use Rattle.mr_edit.specs.Replayed.{IsOfVersion};
ghost use Rattle.mr_outside.specs.Bytes.{AreBytes};
ghost use Rattle.mr_tree.specs.Tree.{records};
ghost use Rattle.mr_store.specs.CachedFile.{name_of};
ghost use Rattle.mr_store.specs.Paged.{IsSameMap, shelved, stands_for};
ghost use Rattle.mr_command.specs.private.Applying.{of_copy, of_edit, SaysSealed, MayApply, ComesBehind, IsFewOfCopy, IsFewOfChanges, IsFewOfFile};
ghost use Rattle.mr_command.specs.Ending.{IsEndingOrHalt, IsCarriedOut};
ghost use Rattle.mr_command.specs.private.Steps.{SaysRefusal};
ghost use Rattle.mr_command.specs.private.Inputs.{ReadsValue};
ghost use Rattle.mr_plan.specs.Lines.{bad_batch_line as line_of};
ghost use Rattle.mr_plan.specs.Plan.{comes};
ghost use Rattle.mr_plan.specs.Untold.{MaySayApply};
ghost use Rattle.mr_plan.specs.declared.words.Command.TheVariants as commands;
ghost use Rattle.mr_plan.specs.Say.{ends, say_batch, say_change, say_changed};

use crate::audit_command::needed_beside;
use crate::ending::{Ending, Halt, Step};
use crate::input::bad_text;
use crate::opening::{is_word, unopened};
use crate::saving::say_root;
use mr_batch::{Batch, BatchFault, Directory, admit, read_batch_of};
use mr_draft::copy_map;
use mr_edit::EditErr;
use mr_outside::Shelf;
use mr_pages::MapErr;
use mr_plan::{Status, bad_batch_line};
use mr_store::Paged;
use mr_tree::{Hash32, Nodes};
use std::alloc::Global;

// The ending over a batch that may not be applied.
pub(crate) fn bad_batch(alloc: Global, fault: &BatchFault) -> Result<Ending, Halt>
    ensures { IsEndingOrHalt (ends Status.BadBatch (line_of fault.now)) result }
{
    let line = bad_batch_line(alloc, fault)?;
    Ok(Ending::line(alloc, Status::BadBatch, line))
}

// What the command comes to where the map in a file was not changed: a page is blamed, or the
// shelf is.
fn unchanged(alloc: Global, name: &str, error: &EditErr) -> Result<Ending, Halt>
    ensures { SaysRefusal name.now (of_edit error.now) result }
{
    match error {
        EditErr::Map(fault) => unopened(alloc, name, &MapErr::Map(*fault)),
        EditErr::Missing => Err(Halt::Shelf),
        EditErr::Fault => Err(Halt::Shelf),
        EditErr::NoMemory => Err(Halt::NoMemory),
    }
}

// What the command comes to where it was not copied: what is missing is its file.
fn uncopied(alloc: Global, name: &str, error: &EditErr) -> Result<Ending, Halt>
    ensures { SaysRefusal name.now (of_copy error.now) result }
{
    match error {
        EditErr::Map(fault) => unopened(alloc, name, &MapErr::Map(*fault)),
        EditErr::Missing => unopened(alloc, name, &MapErr::Missing),
        EditErr::Fault => Err(Halt::Shelf),
        EditErr::NoMemory => Err(Halt::NoMemory),
    }
}

// The ending over a map that was written, by its root digest, or over one that was not.
fn say_sealed(alloc: Global, map: &str, sealed: &Result<[u8; 32], EditErr>) -> Result<Ending, Halt>
    ensures { SaysSealed map.now sealed.now result }
{
    match sealed {
        Ok(digest) => say_root(alloc, digest),
        Err(error) => unchanged(alloc, map, error),
    }
}

// The map after a batch that may be applied to it, made of a copy of its file, and its root. The
// directory is that of the map's records.
fn change<H: Hash32, S: Shelf>(
    alloc: Global,
    map: &str,
    new: &str,
    paged: Paged<S, H>,
    dir: Directory,
    batch: &Batch,
) -> (Result<Ending, Halt>, S)
    requires names { name_of paged.file ≢ new.now }
    requires layers { All (IsOfVersion (stands_for paged).version) batch.now.list }
    requires may { IfSome (stands_for paged).tree (MayApply dir paged.head.batch batch.now) }
    ensures { (name : List ℕ) → ComesBehind (MaySayApply H.of map.now name new.now)
        (stands_for paged)
        (λ m. comes (say_changed m.version H.of new.now paged.head.pages m.tree batch.now))
        (IsFewOfCopy paged.head.pages batch.now (shelved paged).reads (S.state result.1).reads)
        (shelved paged) (S.state result.1) result.0 }
{
    match copy_map::<S, H>(alloc, paged, new) {
        Err((shelf, error)) => (uncopied(alloc, map, &error), shelf),
        Ok(draft) => {
            let mut dir = dir;
            let mut draft = draft;
            match draft.apply_batch(&mut dir, batch) {
                Err(error) => (unchanged(alloc, map, &error), draft.close()),
                Ok(()) => {
                    is_word(batch.number());
                    let (shelf, sealed) = draft.seal();
                    (say_sealed(alloc, map, &sealed), shelf)
                }
            }
        }
    }
}

// The map after a batch, and its root; or why the batch may not be applied. The directory is that
// of the map's records.
fn apply_batch<H: Hash32, S: Shelf>(
    alloc: Global,
    map: &str,
    new: &str,
    paged: Paged<S, H>,
    dir: Directory,
    batch: &Batch,
) -> (Result<Ending, Halt>, S)
    requires names { name_of paged.file ≢ new.now }
    requires lists { IfSome (stands_for paged).tree (λ t. IsDirectoryOf dir (records t)) }
    requires text { (text : List ℕ) × AreBytes text
        × (batch_of_text (stands_for paged).version text ≡ Ok batch.now) }
    ensures { (name : List ℕ) → ComesBehind (MaySayApply H.of map.now name new.now)
        (stands_for paged) (λ m. comes (say_batch H.of new.now paged.head.pages m batch.now))
        (IsFewOfChanges paged.head.pages paged.head.batch batch.now (shelved paged).reads
        (S.state result.1).reads) (shelved paged) (S.state result.1) result.0 }
{
    paged.is_map();
    match admit(&dir, paged.top().batch, batch) {
        Err(fault) => (bad_batch(alloc, &fault), paged.close()),
        Ok(()) => change::<H, S>(alloc, map, new, paged, dir, batch),
    }
}

// The batch in a file beside the map's, whose lines are of the map's version. Its text is given up
// for it.
fn batch_beside<H: Hash32, S: Shelf>(
    alloc: Global,
    name: &str,
    paged: &mut Paged<S, H>,
) -> Step<Batch>
    ensures reads { ReadsValue (batch_of_text (stands_for paged.old).version) name.now
        (shelved paged.old) (shelved paged.new) result }
    ensures same { IsSameMap paged.old paged.new }
{
    let version = paged.version();
    let text = needed_beside::<H, S>(alloc, name, paged)?;
    match read_batch_of(alloc, version, &text) {
        Ok(batch) => Ok(batch),
        Err(error) => Err(bad_text(alloc, &error)),
    }
}

// The same for the batch in a file.
fn apply_file<H: Hash32, S: Shelf>(
    alloc: Global,
    map: &str,
    batch: &str,
    new: &str,
    paged: Paged<S, H>,
    dir: Directory,
) -> (Result<Ending, Halt>, S)
    requires names { name_of paged.file ≢ new.now }
    requires lists { IfSome (stands_for paged).tree (λ t. IsDirectoryOf dir (records t)) }
    ensures { let s = stands_for paged in let before = shelved paged in
        ComesBehind (MaySayApply H.of map.now batch.now new.now) s
        (say_change H.of batch.now new.now paged.head.pages)
        (IsFewOfFile s.version paged.head.pages paged.head.batch before.files batch.now
        before.reads (S.state result.1).reads) before (S.state result.1) result.0 }
{
    let mut paged = paged;
    match batch_beside::<H, S>(alloc, batch, &mut paged) {
        Ok(changes) => apply_batch::<H, S>(alloc, map, new, paged, dir, &changes),
        Err(came) => (came, paged.close()),
    }
}

/// The map in a file after the batch in another one, written to a third one in its version. The
/// pages of the map are read once, and the directory of its records is made of them. The batch is
/// read behind them, whose lines are of the map's version. The changes are made on a copy of its
/// file. The new file has another name than the old one. The shelf is handed back.
pub fn apply<H: Hash32, S: Shelf>(
    alloc: Global,
    old: &str,
    batch: &str,
    new: &str,
    shelf: S,
) -> (Result<Ending, Halt>, S)
    requires { old.now ≢ new.now }
    ensures { IsCarriedOut H.of (commands.Apply old.entry batch.entry new.entry) (S.state shelf)
        (S.state result.1) result.0 }
{
    match Paged::<S, H>::open_listed(alloc, shelf, old) {
        Err((shelf, error)) => (unopened(alloc, old, &error), shelf),
        Ok((paged, dir)) => apply_file::<H, S>(alloc, old, batch, new, paged, dir),
    }
}

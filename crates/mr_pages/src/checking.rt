//! Whether a file stands for a map: page 0, the walk, the count of records, the chain of free
//! pages.

ghost use Rattle.std.specs.Prelude.{◌≡◌, ◌≤◌, ◌-◌, length, [], Some, IfOk, IfErr, IfSome, OnOk, option_map, true};
ghost use Rattle.mr_tree.specs.Digest.{by};
ghost use Rattle.mr_pages.specs.File.{File};
ghost use Rattle.mr_pages.specs.Gathering.{MakesTree};
ghost use Rattle.mr_pages.specs.Source.{AllKept, CheckedWhole, ChecksFile, GivesFile, ReadsWithinRoom, IsRootIn, SaysHead, SaysOnce, IfNotFailed, Stay, left};
ghost use Rattle.mr_pages.specs.private.Walks.{CheckedBehind, GivesPages, GivesAll, WalkedAll};
ghost use Rattle.mr_pages.specs.Walking.{child_link, Saw};

use crate::chaining::chain;
use crate::head::MapHead;
use crate::source::Source;
use crate::visited::Visited;
use crate::visiting::visit;
use crate::{MapErr, MapFault, MapRule};
use mr_tree::{Child, NodeView};
use std::alloc::Global;

/// A map without a fault: what page 0 says, and what was made of its root node, if it has one.
#[derive(Drop)]
pub struct Checked<M: Drop> {
    pub head: MapHead,
    pub made: Option<M>,
}

// The walk from the root on.
fn visit_all<P: Source>(
    alloc: Global,
    pages: &mut P,
    root: &Option<Child>,
    seen: &mut Visited,
) -> Result<Option<P::Made>, MapErr>
    requires none { Saw (P.state pages.old).pages seen.old [] [] }
    ensures told { IfNotFailed result (GivesPages (P.state pages.old) seen.old seen.new
        (WalkedAll (by (P.state pages.old).origin.form.version P.Hash.of)
        (MakesTree (P.makes (by (P.state pages.old).origin.form.version P.Hash.of) true)
        (P.held pages.old) (P.held pages.new) root.now)
        (P.state pages.old).pages (option_map child_link root.now)
        result seen.new)) }
    ensures of_one_read { IfErr result SaysOnce }
    ensures kept { (file : File) → (P.state pages.old).file ≡ Some file → OnOk result
        (AllKept file (option_map child_link root.now) (P.keeps pages.new)) }
    ensures inside { OnOk result (IfSome root.now (IsRootIn (P.state pages.old).pages)) }
    ensures room { length seen.new.reached.items ≡ length seen.old.reached.items }
    ensures goes { ReadsWithinRoom (P.state pages.old) (P.state pages.new) (left seen.old)
        (left seen.new)
        result }
{
    match root {
        None => Ok(None),
        Some(child) => match visit::<P>(alloc, pages, child, true, &mut NodeView::new(), seen) {
            Ok(made) => Ok(Some(made)),
            Err(error) => Err(error),
        },
    }
}

// What is behind page 0.
fn check_behind<P: Source>(
    alloc: Global,
    pages: &mut P,
    head: &MapHead,
) -> Result<Option<P::Made>, MapErr>
    ensures told { IfNotFailed result (GivesAll (P.state pages.old)
        (CheckedBehind (P.state pages.old).origin.form.version P.Hash.of
        (MakesTree (P.makes (by (P.state pages.old).origin.form.version P.Hash.of) true)
        (P.held pages.old) (P.held pages.new) head.now.root)
        (P.state pages.old).pages head.now result)) }
    ensures of_one_read { IfErr result SaysOnce }
    ensures kept { (file : File) → (P.state pages.old).file ≡ Some file → OnOk result
        (AllKept file (option_map child_link head.now.root) (P.keeps pages.new)) }
    ensures inside { OnOk result (IfSome head.now.root (IsRootIn (P.state pages.old).pages)) }
    ensures goes { ReadsWithinRoom (P.state pages.old) (P.state pages.new)
        ((P.state pages.old).pages - 1) 0
        result }
{
    let mut seen = Visited::new(alloc, pages.count())?;
    let made = visit_all::<P>(alloc, pages, &head.root, &mut seen)?;
    let found = seen.numbers.count();
    if head.count != found {
        return Err(MapErr::Map(MapFault {
            page: 0,
            rule: MapRule::Count {
                held: head.count,
                found,
            },
        }));
    }
    chain::<P>(pages, head.free, &mut seen)?;
    if let Some(fault) = seen.lost(pages.count()) {
        return Err(MapErr::Map(fault));
    }
    Ok(made)
}

/// What page 0 of a map without a fault says, and what was made of its root node and of all below
/// it, or the first fault.
///
/// Each page is read at most once. Where the file is not told, the answer is that of some bytes.
pub fn check<P: Source>(alloc: Global, pages: &mut P) -> Result<Checked<P::Made>, MapErr>
    requires { 1 ≤ (P.state pages.old).pages }
    ensures told { (file : File) → (P.state pages.old).file ≡ Some file →
        file.version ≡ (P.state pages.old).origin.form.version →
        file.pages ≡ (P.state pages.old).pages → ChecksFile P.Hash.of file result }
    ensures made { (file : File) → (P.state pages.old).file ≡ Some file → IfOk result (λ c.
        MakesTree (P.makes (by (P.state pages.old).origin.form.version P.Hash.of) true)
        (P.held pages.old) (P.held pages.new) c.head.root c.made file) }
    ensures of_some_bytes { IfNotFailed result (GivesFile (P.state pages.old)
        (CheckedWhole (P.state pages.old).origin.form.version P.Hash.of
        (MakesTree (P.makes (by (P.state pages.old).origin.form.version P.Hash.of) true)
        (P.held pages.old) (P.held pages.new))
        (P.state pages.old).pages result)) }
    ensures of_one_read { IfErr result SaysOnce }
    ensures kept { (file : File) → (P.state pages.old).file ≡ Some file → IfOk result (λ c.
        AllKept file (option_map child_link c.head.root) (P.keeps pages.new)) }
    ensures says { IfOk result (λ c. SaysHead (P.state pages.old).origin.form.version
        (P.state pages.old).pages c.head) }
    ensures inside { IfOk result (λ c. IfSome c.head.root (IsRootIn (P.state pages.old).pages)) }
    ensures goes { ReadsWithinRoom (P.state pages.old) (P.state pages.new)
        ((P.state pages.old).pages - 1) 0
        result }
{
    match pages.head() {
        Err(rule) => Err(MapErr::Map(MapFault { page: 0, rule })),
        Ok(head) => {
            let made = check_behind::<P>(alloc, pages, &head)?;
            Ok(Checked { head, made })
        }
    }
}

//! What a walk has seen.

ghost use Rattle.std.specs.Prelude.{◌≡◌, ◌≤◌, ◌-◌, ℕ, List, [], length, IfOk, IfSome};
ghost use Rattle.mr_pages.specs.Faults.{numbers_of};
ghost use Rattle.mr_pages.specs.Walking.{Saw, EntersPage, MeetsNumbers, LosesPage};
ghost use Rattle.mr_pages.specs.Source.{ReachesPage, IsOfOneRead, left};

use crate::numbers::Numbers;
use crate::{MapFault, MapRule};
use mr_record::Record;
use mr_tree::LEAF_LIMIT;
use std::alloc::{AllocError, Global};

/// The pages that a walk has reached, and the numbers of the records that it has met.
#[derive(Drop)]
pub struct Visited {
    pub reached: Vec<bool>,
    pub numbers: Numbers,
}

impl Visited {
    /// Before a walk over a file of this many pages.
    pub fn new(alloc: Global, pages: u32) -> Result<Visited, AllocError>
        ensures told { IfOk result (λ s. Saw pages s [] []) }
        ensures left { IfOk result (λ s. left s ≤ pages - 1) }
    {
        Ok(Visited {
            reached: vec![in alloc; false; pages as usize]?,
            numbers: Numbers::new(alloc, places(pages))?,
        })
    }

    /// Comes to the page of a node.
    pub fn enter(&mut self, page: u32) -> Option<MapRule>
        ensures told { (pages : ℕ) (ps ns : List ℕ) → Saw pages self.old ps ns →
            EntersPage pages ps ns page result self.new }
        ensures step { ReachesPage self.old page result self.new }
        ensures of_one_read { IfSome result IsOfOneRead }
    {
        let at = page as usize;
        if page == 0 || at >= self.reached.len() {
            return Some(MapRule::Outside);
        }
        if self.reached[at] {
            return Some(MapRule::Twice);
        }
        self.reached[at] = true;
        None
    }

    /// Meets the numbers of some records; whether one of them was met before.
    pub fn meet(&mut self, records: &[Record]) -> Result<bool, AllocError>
        ensures told { IfOk result (λ twice. (pages : ℕ) (ps ns : List ℕ) →
            Saw pages self.old ps ns →
            MeetsNumbers pages ps ns (numbers_of records.now) twice self.new) }
        ensures same { self.new.reached ≡ self.old.reached }
    {
        for record in records {
            if self.numbers.meet(record.number)? {
                return Ok(true);
            }
        }
        Ok(false)
    }

    /// The least page that was never reached.
    pub fn lost(&self, pages: u32) -> Option<MapFault>
        requires { length self.now.reached.items ≡ pages }
        ensures told { (ps ns : List ℕ) → Saw pages self.now ps ns → LosesPage pages ps result }
        ensures of_one_read { IfSome result (λ f. IsOfOneRead f.rule) }
    {
        for page in 1..pages {
            if !self.reached[page as usize] {
                return Some(MapFault {
                    page,
                    rule: MapRule::Free,
                });
            }
        }
        None
    }
}

// A place for each record that a file of this many pages has room for, and one at least.
fn places(pages: u32) -> usize
    ensures { 1 ≤ result }
{
    (pages as usize * LEAF_LIMIT as usize).max(1)
}

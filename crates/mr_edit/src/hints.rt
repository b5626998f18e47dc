//! Where things were last seen, which makes a search short. Nothing rests on it: a wrong hint
//! costs time and nothing else.

use mr_record::Record;
use mr_tree::Child;
use std::alloc::{AllocError, Global};
use std::collections::BTreeMap;

// The most levels of a map.
const LEVELS: usize = 8;

// How many nodes each search may look at, and how many more all together, before hints are kept.
const EACH: u32 = 64;

const MORE: u32 = 4096;

// The leaf's page of a record's number, and the page above a page, as they were last seen. They
// are kept once searches were long.
#[derive(Drop)]
pub(crate) struct Hints {
    leaves: BTreeMap<u64, u32>,
    above: BTreeMap<u32, u32>,
    known: bool,
    looks: u32,
}

// The pages on which a record may be found, from its leaf's up, by level; 0 for none.
#[derive(Clone, Copy)]
pub(crate) struct Way {
    pages: [u32; LEVELS],
}

impl Way {
    // A way that is not known.
    pub(crate) fn unknown() -> Way {
        Way { pages: [0; LEVELS] }
    }

    // Which of the children of a node of this level stands on the page to which the way leads
    // below it; their number, if none does.
    pub(crate) fn turn(&self, level: u8, children: &[Child]) -> usize {
        let page = self.page_below(level as usize);
        for at in 0..children.len() {
            if children[at].id == page {
                return at;
            }
        }
        children.len()
    }

    // The page of the way one level below this one, 0 for none.
    fn page_below(&self, level: usize) -> u32 {
        if level == 0 || level > LEVELS {
            return 0;
        }
        self.pages[level - 1]
    }
}

impl Hints {
    // No hints.
    pub(crate) fn new(alloc: Global) -> Hints {
        Hints {
            leaves: BTreeMap::new(alloc),
            above: BTreeMap::new(alloc),
            known: false,
            looks: 0,
        }
    }

    // Begins a search.
    pub(crate) fn search(&mut self) {
        self.looks = self.looks.saturating_sub(EACH);
    }

    // Counts a node that a search looks at.
    pub(crate) fn count(&mut self) {
        self.looks = self.looks.saturating_add(1);
    }

    // Whether searches were long and no hints are kept yet.
    pub(crate) fn are_wanted(&self) -> bool {
        !self.known && self.looks > MORE
    }

    // Keeps hints from now on.
    pub(crate) fn keep(&mut self) {
        self.known = true;
    }

    // Notes the records of a leaf on this page.
    pub(crate) fn saw_leaf(&mut self, page: u32, records: &[Record]) -> Result<(), AllocError> {
        if !self.known {
            return Ok(());
        }
        for one in records {
            self.leaves.insert(one.number, page)?;
        }
        Ok(())
    }

    // Notes the children of a node on this page.
    pub(crate) fn saw_children(&mut self, page: u32, children: &[Child]) -> Result<(), AllocError> {
        if !self.known {
            return Ok(());
        }
        for child in children {
            self.above.insert(child.id, page)?;
        }
        Ok(())
    }

    // The way to the record with this number.
    pub(crate) fn way(&self, number: u64) -> Way {
        let mut way = Way::unknown();
        let mut next = self.leaves.get(&number).copied();
        for at in 0..LEVELS {
            match next {
                None => return way,
                Some(page) => {
                    way.pages[at] = page;
                    next = self.above.get(&page).copied();
                }
            }
        }
        way
    }
}

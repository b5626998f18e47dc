//! The calls on trees: at one leaf and at none, of a record that comes and goes, and of numbers
//! that stand twice.

ghost use Rattle.mr_record.specs.declared.version.Version.TheVariants.{One};
ghost use Rattle.mr_tree.specs.WellFormed.{WellFormed, HasLayers};

use crate::assertions::all_hold_in_memory;
use crate::calls::{Kind, first_untrue, sides_of, text_in};
use crate::made::{are_first, is_first, record_at, record_of, records_of, tree_of};
use mr_grow::{delete, insert};
use mr_pack::{PackErr, pack};
use mr_record::Record;
use mr_tree::{
    Tree, XorHash, count_of, digest_of, level_of, records_of as list_of, rect_of, root_of,
};
use std::alloc::{AllocError, Global};

// Of the tree of some records: its level, how many records it counts and lists, its rectangle, its
// digest and the root digest at batch 0. Digests are told by their last byte where all others are
// zero. Then a record that splits a leaf, and goes: the records of the first leaf below the root,
// and the root digests at batch 1 and 2. And the least number that stands twice.
const CALLS: &str = "tree 7 0 0 0 0 -| = level 0 count 1 list 1 at 0 0 0 0 digest 74 root 24\n\
    tree  = level 0 count 0 list 0 root 68\n\
    grown 17 100 100 100 100 - = 11 root 4, 0 root 28\n\
    twice 9 7 9 8 7 = 7";

const SIXTEEN: &str = "1 1 0 1 0 -\n2 2 0 2 0 -\n3 3 0 3 0 -\n4 4 0 4 0 -\n5 5 0 5 0 -\n\
    6 6 0 6 0 -\n7 7 0 7 0 -\n8 8 0 8 0 -\n9 9 0 9 0 -\n10 10 0 10 0 -\n11 11 0 11 0 -\n\
    12 12 0 12 0 -\n13 13 0 13 0 -\n14 14 0 14 0 -\n15 15 0 15 0 -\n16 16 0 16 0 -\n";

// The last byte of a digest, 0 where another byte is not zero.
fn last_byte(digest: &[u8; 32]) -> u8 {
    let (front, _) = digest.split_at(31);
    if front.iter().all(|byte| *byte == 0) {
        digest[31]
    } else {
        0
    }
}

fn root_byte(tree: &Tree, batch: u64) -> u8
    requires well_formed { WellFormed tree.now }
    requires layers { HasLayers One tree.now }
{
    last_byte(&root_of::<XorHash>(tree, batch))
}

fn shown(alloc: Global, tree: &Tree) -> Result<String, AllocError>
    requires well_formed { WellFormed tree.now }
    requires layers { HasLayers One tree.now }
{
    let (level, count) = (level_of(tree), count_of(tree));
    let (list, root) = (list_of(alloc, tree)?.len(), root_byte(tree, 0));
    let front = format!(in alloc; "level {level} count {count} list {list}")?;
    match (tree, rect_of(tree)) {
        (Tree::Empty, _) => format!(in alloc; "{front} root {root}"),
        (_, Some(rect)) => {
            let digest = last_byte(&digest_of::<XorHash>(tree));
            let sides = sides_of(alloc, &rect)?;
            format!(in alloc; "{front} at {sides} digest {digest} root {root}")
        }
        _ => Ok(front),
    }
}

fn tree_in(alloc: Global, words: &str) -> Result<String, AllocError> {
    let records = records_of(alloc, text_in(alloc, words)?.as_str());
    match tree_of(alloc, records.unwrap_or(Vec::new(alloc))) {
        Some(tree) => shown(alloc, &tree),
        None => String::from_str(alloc, "none"),
    }
}

// The records of the first leaf below the root, 0 where there is none, and the root digest.
fn told(alloc: Global, tree: &Tree, batch: u64) -> Option<(usize, u8)>
    requires { WellFormed tree.now }
{
    let leaf = match tree {
        Tree::Inner(children) => match children.as_slice().first() {
            Some(Tree::Leaf(records)) => records.as_slice().len(),
            _ => 0,
        },
        _ => 0,
    };
    if is_first(alloc, tree) {
        Some((leaf, root_byte(tree, batch)))
    } else {
        None
    }
}

fn grown(alloc: Global, line: &str) -> Option<((usize, u8), (usize, u8))> {
    let tree = tree_of(alloc, records_of(alloc, SIXTEEN)?)?;
    let one = record_of(line)?;
    let Ok(grown) = insert(alloc, tree, one) else {
        return None;
    };
    let before = told(alloc, &grown, 1)?;
    let Ok(left) = delete(alloc, grown, one.number) else {
        return None;
    };
    Some((before, told(alloc, &left, 2)?))
}

// The number that is named as one that stands twice.
fn twice(alloc: Global, list: Vec<Record>) -> Option<u64> {
    if list.len() > 1025 || !are_first(&list) {
        return None;
    }
    match pack(alloc, list) {
        Err(PackErr::NumberTwice { number }) => Some(number),
        _ => None,
    }
}

fn numbered(alloc: Global, words: &str) -> Result<Vec<Record>, AllocError> {
    let mut list = Vec::new(alloc);
    for word in words.split(' ') {
        if let Some(record) = record_at(word.parse::<u64>().unwrap_or(0), (0, 0, 1, 1)) {
            list.push(record)?;
        }
    }
    Ok(list)
}

/// What a call on the tree of some records answers.
pub fn answer(alloc: Global, call: &str, words: &str) -> Result<String, AllocError> {
    match call {
        "tree" => tree_in(alloc, words),
        "grown" => match grown(alloc, words) {
            Some(((first, root), (last, then))) => {
                format!(in alloc; "{first} root {root}, {last} root {then}")
            }
            None => String::from_str(alloc, "none"),
        },
        _ => match twice(alloc, numbered(alloc, words)?) {
            Some(number) => format!(in alloc; "{number}"),
            None => String::from_str(alloc, "none"),
        },
    }
}

#[test]
fn calls_on_trees(rt: HostRuntime) {
    all_hold_in_memory(&rt, first_untrue(rt.alloc(), Kind::Trees, CALLS));
}

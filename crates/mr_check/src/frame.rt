//! Open nodes.

ghost use Rattle.std.specs.Prelude.{◌≡◌, ◌+◌, ◌<◌, ◌≤◌, [], ◌∷◌, reverse, vec_len, vec_capacity, IfOk};
ghost use Rattle.mr_check.specs.private.Popping.{PopsFrame};

use mr_tree::{Hashes, NodeHasher};
use std::alloc::{AllocError, Global};

// An open node: what was gathered of the entries that were read, and how many stand behind the one
// that is under way.
#[derive(Drop)]
pub(crate) struct Frame<H: Hashes> {
    pub(crate) node: NodeHasher<H>,
    pub(crate) left: u8,
}

// The open inner nodes, with room for one of each level. Contracts see the last one first.
#[derive(Drop)]
pub(crate) struct Stack<F> {
    pub(crate) list: Vec<F>,
    ghost room: { vec_capacity list ≡ 7 },
}

pub(crate) fn no_frames<F>(alloc: Global) -> Result<Stack<F>, AllocError>
    ensures items { IfOk result (λ s. s.list.items ≡ []) }
    ensures len { IfOk result (λ s. vec_len s.list ≡ 0) }
{
    let list = Vec::with_capacity(alloc, 7)?;
    Ok(Stack { list })
}

pub(crate) fn push<F>(stack: &mut Stack<F>, frame: F)
    requires { vec_len stack.old.list < 7 }
    ensures items { reverse stack.new.list.items ≡ frame ∷ reverse stack.old.list.items }
    ensures len { vec_len stack.new.list ≡ vec_len stack.old.list + 1 }
{
    // `insert` says that it works in place where there is room, which `push` leaves open
    let end = stack.list.len();
    match stack.list.insert(end, frame) {
        Ok(()) => {}
        Err(_) => unreachable!(),
    }
}

pub(crate) fn pop<F>(stack: &mut Stack<F>) -> Option<F>
    ensures { PopsFrame result (reverse stack.old.list.items) (reverse stack.new.list.items)
        (vec_len stack.old.list) (vec_len stack.new.list) }
{
    stack.list.pop()
}

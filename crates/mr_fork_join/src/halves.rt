//! Halves of a list, and halves of these.

ghost use Rattle.std.specs.Prelude.{◌≡◌, ℕ, ◌+◌, ◌^◌, ◌<◌, ◌≤◌, map, length, All, IfOk};
ghost use Rattle.std.specs.Thread.{IsSync};

use mr_outside::Gate;
use std::alloc::{AllocError, Global};
use std::thread::{Threads, join};

/// What is done to each piece of a list, on whatever thread. All threads share the value of this
/// type, which does not change.
pub trait Work: Sync {
    /// A piece.
    type Piece: Sync;

    /// What is found of a piece.
    type Found: Send + Drop;

    // the pieces that it can be done to
    ghost may: { Self → Self.Piece → Type 0 };

    // what a piece gives
    ghost gives: { Self → Self.Piece → Self.Found };

    // the number that a gate is told of what was found
    ghost number_of: { Self.Found → ℕ };

    /// Does one piece. It refuses for want of memory alone.
    fn carry_out(&self, piece: &Self::Piece) -> Result<Self::Found, AllocError>
        requires { may self.now piece.now }
        ensures { IfOk result (λ found. found ≡ gives self.now piece.now) };

    /// A number taken from what was found, for a gate.
    fn number(found: &Self::Found) -> u64
        ensures { result ≡ number_of found.now };
}

/// How many times a list is halved at most, so that at most 16 parts are at work.
pub const DEPTH_LIMIT: u32 = 4;

// Does pieces one after another, where the first has this place in the whole list.
fn in_order<W: Work, G: Gate>(
    alloc: Global,
    work: &W,
    pieces: &[W::Piece],
    first: usize,
    gate: &G,
) -> Result<Vec<W::Found>, AllocError>
    requires room { first + length pieces.now < 2 ^ 64 }
    requires may { All (W.may work.now) pieces.now }
    ensures { IfOk result (λ v. v.items ≡ map (W.gives work.now) pieces.now) }
{
    let mut all = Vec::with_capacity(alloc, pieces.len())?;
    for (i, piece) in pieces.iter().enumerate() {
        gate.enter(first + i);
        let found = work.carry_out(piece)?;
        gate.leave(first + i, W::number(&found));
        all.push(found)?;
    }
    Ok(all)
}

// Does pieces in two halves, each in halves again, as often as `depth` says.
#[cycle(halves)]
fn halved<W: Work, G: Gate, R: Threads + Sync>(
    rt: &R,
    alloc: Global,
    work: &W,
    pieces: &[W::Piece],
    first: usize,
    depth: u32,
    gate: &G,
) -> Result<Vec<W::Found>, AllocError>
    requires room { first + length pieces.now < 2 ^ 64 }
    requires may { All (W.may work.now) pieces.now }
    ensures { IfOk result (λ v. v.items ≡ map (W.gives work.now) pieces.now) }
{
    if depth == 0 || pieces.len() < 2 {
        return in_order(alloc, work, pieces, first, gate);
    }
    let middle = pieces.len() / 2;
    let next = first + middle;
    let (front, back) = pieces.split_at(middle);
    let left = move || -> Result<Vec<W::Found>, AllocError>
        requires { IsSync R.row × IsSync W.row × IsSync G.row × (0 < depth)
            × (first + length front.now < 2 ^ 64) × All (W.may work.now) front.now }
        ensures { IfOk result (λ v. v.items ≡ map (W.gives work.entry.now) front.entry.now) }
    { halved(rt, alloc, work, front, first, depth - 1, gate) };
    let right = move || -> Result<Vec<W::Found>, AllocError>
        requires { IsSync R.row × IsSync W.row × IsSync G.row × (0 < depth)
            × (next + length back.now < 2 ^ 64) × All (W.may work.now) back.now }
        ensures { IfOk result (λ v. v.items ≡ map (W.gives work.entry.now) back.entry.now) }
    { halved(rt, alloc, work, back, next, depth - 1, gate) };
    let (some, others) = join(rt, left, right);
    let mut all = some?;
    let mut rest = others?;
    all.append(&mut rest)?;
    Ok(all)
}

/// Does all pieces of a list in halves, which threads may do at once, and gives what each piece
/// gives, in the order of the pieces. A list of two or more pieces is halved, at most four levels
/// deep; the pieces of a part that is not halved further are done in order. Whoever does piece `i`
/// passes `gate.enter(i)` once before it, and `gate.leave(i, number)` once, directly after its
/// result is there. No answer depends on the gate.
pub fn in_halves<W: Work, G: Gate, R: Threads + Sync>(
    rt: &R,
    alloc: Global,
    work: &W,
    pieces: &[W::Piece],
    gate: &G,
) -> Result<Vec<W::Found>, AllocError>
    requires { All (W.may work.now) pieces.now }
    ensures { IfOk result (λ v. v.items ≡ map (W.gives work.now) pieces.now) }
{
    halved(rt, alloc, work, pieces, 0, DEPTH_LIMIT, gate)
}

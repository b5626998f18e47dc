//! The parts of a bundle.

ghost use Rattle.std.specs.Prelude.{◌≡◌, ◌≤◌, List, ℕ, length, All, IfOk, IfSome, None};
ghost use Rattle.mr_bundle.specs.Bundle.{AreRead, IsBundleOf, IsFrontOf, LiesIn, bytes_of_parts, part_at as whole_at, parts};

use mr_outside::Items;
use mr_record::u32_of_bytes;
use std::alloc::{AllocError, Global};

/// Where the proof of one part stands: from `start` up to, and without, `end`.
#[derive(Clone, Copy)]
pub struct Part {
    pub start: usize,
    pub end: usize,
}

/// The parts of a bundle that are whole, in order.
#[derive(Drop)]
pub struct Parts {
    pub list: Items<Part>,
    /// Where reading stopped: the place of the length of the first part that is not whole, or,
    /// where all are, of the first byte that is left.
    pub broken: Option<usize>,
}

// The part whose length stands at a place, where it is whole.
#[tactic(auto, unfolding(crate::specs::Bundle::part_at))]
fn part_at(bytes: &[u8], at: usize) -> Option<Part>
    requires { at ≤ length bytes.now }
    ensures exact { result ≡ whole_at bytes.now at }
    ensures lies { IfSome result (LiesIn (length bytes.now)) }
{
    let left = bytes.len() - at;
    if left < 4 {
        return None;
    }
    let start = at + 4;
    let size = u32_of_bytes(&bytes[at..start]) as usize;
    if left - 4 < size {
        return None;
    }
    Some(Part {
        start,
        end: start + size,
    })
}

// What `read_bundle` answers, by the definition.
fn cut_parts(alloc: Global, bytes: &[u8], queries: usize) -> Result<Parts, AllocError>
    ensures list { IfOk result (λ p. p.list ≡ (parts bytes.now queries).list) }
    ensures broken { IfOk result (λ p. p.broken ≡ (parts bytes.now queries).broken) }
    ensures lie { IfOk result (λ p. All (LiesIn (length bytes.now)) p.list) }
    ensures length_at_most { IfOk result (λ p. length p.list ≤ queries) }
{
    let mut list = Vec::new(alloc);
    let mut left = queries;
    let mut at = 0;
    while left > 0 {
        let Some(part) = part_at(bytes, at) else {
            return Ok(Parts {
                list: Items::of(list),
                broken: Some(at),
            });
        };
        list.push(part)?;
        at = part.end;
        left -= 1;
    }
    let broken = if at < bytes.len() { Some(at) } else { None };
    Ok(Parts {
        list: Items::of(list),
        broken,
    })
}

/// The parts of a bundle for so many queries. Part `i` is whole where four bytes of length and as
/// many bytes as they say are there. The first part that is not breaks the bundle, and that part
/// and all later ones are missing. Bytes that are left behind the last part break it too. So a
/// bundle that is not broken is the one spelling of the proofs that its parts hold, and one that is
/// begins with that of its whole parts, up to where it breaks. It refuses for want of memory alone.
pub fn read_bundle(alloc: Global, bytes: &[u8], queries: usize) -> Result<Parts, AllocError>
    ensures list { IfOk result (λ p. p.list ≡ (parts bytes.now queries).list) }
    ensures broken { IfOk result (λ p. p.broken ≡ (parts bytes.now queries).broken) }
    ensures lie { IfOk result (λ p. All (LiesIn (length bytes.now)) p.list) }
    ensures length_at_most { IfOk result (λ p. length p.list ≤ queries) }
    ensures written { IfOk result (λ p. p.broken ≡ None
        → IsBundleOf bytes.now queries (bytes_of_parts bytes.now p.list)) }
    ensures read { (proofs : List (List ℕ)) → IsBundleOf bytes.now queries proofs
        → IfOk result (λ p. AreRead bytes.now p.list p.broken proofs) }
    // Broken or not.
    ensures front { IfOk result (λ p. IsFrontOf bytes.now p.list p.broken) }
{
    cut_parts(alloc, bytes, queries)
}

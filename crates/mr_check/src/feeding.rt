//! A piece of a proof, field by field.

ghost use Rattle.std.specs.Prelude.{◌≡◌, ℕ, List, None, length};
ghost use Rattle.mr_check.specs.Answers.{TakesFrom};
ghost use Rattle.mr_check.specs.private.Reads.{FitsReader, StandsAt, FedBy, FaultFed};

use crate::fed::Fed;
use crate::reader::{Progress, Reader, advance};
use mr_proof::AsQuestion;
use mr_tree::Hashes;

// The fields of a piece, up to the first record that is handed out or the first fault.
pub(crate) fn read_piece<H: Hashes, A: AsQuestion>(q: &A, r: &mut Reader<H>, piece: &[u8]) -> Fed
    requires fits { FitsReader r.old }
    requires none { r.old.fault ≡ None }
    ensures fits { FitsReader r.new }
    ensures fault { FaultFed r.new.fault result }
    ensures taken { TakesFrom (length piece.now) result }
    ensures fed { (s : List ℕ) → StandsAt H.of H.holds (A.question q.now) r.old s
        → FedBy H.of H.holds (A.question q.now) s piece.now r.new result }
{
    let mut at = 0;
    loop {
        let (_, rest) = piece.split_at(at);
        match advance(q, r, rest) {
            Progress::More => return Fed::More,
            Progress::Took(count) => at += count,
            Progress::Found(count) => {
                let one = &r.machine.latest;
                return Fed::Found {
                    taken: at + count,
                    item: *one,
                };
            }
            Progress::Broken(fault) => return Fed::Fault(fault),
        }
    }
}

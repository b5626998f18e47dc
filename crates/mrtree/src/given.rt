//! A run on the words that the system gave.

ghost use Rattle.std.specs.Prelude.{◌≡◌, map, IfOk, IfErr};
ghost use Rattle.std.specs.String.{string_bytes};
ghost use Rattle.std.specs.IoError.{error_kind};
ghost use Rattle.mr_command.specs.Answer.{world};
ghost use Rattle.mr_tool.specs.Run.{EndsWith};

use mr_outside::{NoGate, Shelf, Sink};
use mr_tool::{Status, run};
use mr_tree::Hash32;
use std::alloc::Global;
use std::io::{self, ErrorKind};
use std::thread::Threads;

// Runs the program on the words that the system gave, and answers its exit status.
pub(crate) fn run_given<H: Hash32, S: Shelf, W: Sink, R: Threads + Sync>(
    rt: &R,
    alloc: Global,
    words: io::Result<Vec<String>>,
    shelf: S,
    out: &mut W,
) -> (u8, S)
    ensures given { let before = world (S.state shelf) (W.state out.old) in
        let after = world (S.state result.1) (W.state out.new) in
        IfOk words (λ ws. EndsWith H.of (map string_bytes ws.items) before after result.0) }
    // Where the system gives no words, nothing is done.
    ensures no_memory { IfErr words (λ e. error_kind e ≡ ErrorKind.OutOfMemory → result.0 ≡ 8) }
    ensures not_given { IfErr words
        (λ e. (error_kind e ≡ ErrorKind.OutOfMemory → ⊥) → result.0 ≡ 7) }
    ensures untouched { IfErr words (λ _. (result.1 ≡ shelf) × (out.new ≡ out.old)) }
{
    match words {
        Ok(words) => {
            let (status, shelf) = run::<H, S, W, _, R>(rt, alloc, &words, shelf, out, &NoGate);
            (status.code(), shelf)
        }
        Err(error) => match error.kind() {
            ErrorKind::OutOfMemory => (Status::NoMemory.code(), shelf),
            _ => (Status::Outside.code(), shelf),
        },
    }
}

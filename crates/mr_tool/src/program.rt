//! A run of the program, from its words to its status.

ghost use Rattle.std.specs.Prelude.{◌≡◌, ℕ, List, length, Some, None, map};
ghost use Rattle.std.specs.String.{string_bytes};
ghost use Rattle.mr_outside.specs.Bytes.{AreBytes};
ghost use Rattle.mr_command.specs.Answer.{world};
ghost use Rattle.mr_command.specs.Ending.{RunsPlan, IsCarriedOut};
ghost use Rattle.mr_tool.specs.Run.{IsRun};
ghost use Rattle.mr_plan.specs.Say.{say_root, say_build, say_serve};
ghost use Rattle.mr_plan.specs.Spelling.{IsSpelled};
ghost use Rattle.mr_plan.specs.private.Asking.{MayBeAsked};
ghost use Rattle.mr_plan.specs.declared.words.Command.TheVariants as commands;
ghost use Rattle.mr_query.specs.Word.{IsAskable};

use crate::finish::finish;
use mr_command::{
    Ending, Halt, apply, apply_in_place, audit_count, audit_join_proof, audit_query, build,
    check_bundle, check_count, check_join_proof, check_proof, count, demo, join, list, make,
    prove_query, recover_map, root, serve, upgrade,
};
use mr_outside::{Gate, Shelf, Sink};
use mr_plan::{Command, Status, read_words};
use mr_query::Query;
use mr_record::Version;
use mr_tree::Hash32;
use std::alloc::Global;
use std::thread::Threads;

// Prints the root of records in this version, and hands the shelf back.
fn root_on<H: Hash32, S: Shelf, G: Gate, R: Threads + Sync>(
    rt: &R,
    alloc: Global,
    version: Version,
    records: &str,
    shelf: S,
    gate: &G,
) -> (Result<Ending, Halt>, S)
    ensures { RunsPlan (say_root version H.of records.now) (S.state shelf) (S.state result.1)
        result.0 }
{
    let mut shelf = shelf;
    let came = root::<H, S, G, R>(rt, alloc, version, records, &mut shelf, gate);
    (came, shelf)
}

// Makes a map file of records in this version, and hands the shelf back.
fn build_on<H: Hash32, S: Shelf, G: Gate, R: Threads + Sync>(
    rt: &R,
    alloc: Global,
    version: Version,
    map: &str,
    records: &str,
    shelf: S,
    gate: &G,
) -> (Result<Ending, Halt>, S)
    ensures { RunsPlan (say_build version H.of map.now records.now) (S.state shelf)
        (S.state result.1)
        result.0 }
{
    let mut shelf = shelf;
    let came = build::<H, S, G, R>(rt, alloc, version, map, records, &mut shelf, gate);
    (came, shelf)
}

// Checks a proof, and hands the shelf back.
fn check_on<H: Hash32, S: Shelf>(
    alloc: Global,
    root: &[u8; 32],
    query: &Query,
    proof: &str,
    shelf: S,
) -> (Result<Ending, Halt>, S)
    requires { IsAskable query.now }
    ensures { IsCarriedOut H.of (commands.Check root.now query.now proof.entry) (S.state shelf)
        (S.state result.1) result.0 }
{
    let mut shelf = shelf;
    let came = check_proof::<H, S>(alloc, root, query, proof, &mut shelf);
    (came, shelf)
}

// Proves the queries of a script, and hands the shelf back.
fn serve_on<H: Hash32, S: Shelf, G: Gate, R: Threads + Sync>(
    rt: &R,
    alloc: Global,
    map: &str,
    script: &str,
    bundle: &str,
    shelf: S,
    gate: &G,
) -> (Result<Ending, Halt>, S)
    ensures { RunsPlan (say_serve H.of map.now script.now bundle.now) (S.state shelf)
        (S.state result.1) result.0 }
{
    let mut shelf = shelf;
    let came = serve::<H, S, G, R>(rt, alloc, map, script, bundle, &mut shelf, gate);
    (came, shelf)
}

// Carries out a command, and hands the shelf back.
fn carry_out<H: Hash32, S: Shelf, G: Gate, R: Threads + Sync>(
    rt: &R,
    alloc: Global,
    command: &Command<'_>,
    shelf: S,
    gate: &G,
) -> (Result<Ending, Halt>, S)
    requires { MayBeAsked command.now }
    ensures { IsCarriedOut H.of command.now (S.state shelf) (S.state result.1) result.0 }
{
    match command {
        Command::Root(records) => {
            root_on::<H, S, G, R>(rt, alloc, Version::One, *records, shelf, gate)
        }
        Command::Root2(records) => {
            root_on::<H, S, G, R>(rt, alloc, Version::Two, *records, shelf, gate)
        }
        Command::Build(map, records) => {
            build_on::<H, S, G, R>(rt, alloc, Version::One, *map, *records, shelf, gate)
        }
        Command::Build2(map, records) => {
            build_on::<H, S, G, R>(rt, alloc, Version::Two, *map, *records, shelf, gate)
        }
        Command::Upgrade(old, new) => {
            let mut shelf = shelf;
            let came = upgrade::<H, S>(alloc, *old, *new, &mut shelf);
            (came, shelf)
        }
        Command::List(map) => {
            let mut shelf = shelf;
            let came = list::<H, S>(alloc, *map, &mut shelf);
            (came, shelf)
        }
        Command::Apply(old, batch, new) => apply::<H, S>(alloc, *old, *batch, *new, shelf),
        Command::ApplyHere(map, batch) => apply_in_place::<H, S>(alloc, *map, *batch, shelf),
        Command::Recover(map) => recover_map::<S>(alloc, *map, shelf),
        Command::Prove(map, query, proof) => {
            prove_query::<H, S>(alloc, *map, query, *proof, shelf)
        }
        Command::Check(digest, query, proof) => {
            check_on::<H, S>(alloc, digest, query, *proof, shelf)
        }
        Command::Audit(map, query, proof) => {
            audit_query::<H, S>(alloc, *map, query, *proof, shelf)
        }
        Command::Count(map, query, proof) => count::<H, S>(alloc, *map, query, *proof, shelf),
        Command::CheckCount(digest, query, proof) => {
            let mut shelf = shelf;
            let came = check_count::<H, S>(alloc, digest, query, *proof, &mut shelf);
            (came, shelf)
        }
        Command::AuditCount(map, query, proof) => {
            audit_count::<H, S>(alloc, *map, query, *proof, shelf)
        }
        Command::Join(first, second, proof) => {
            let mut shelf = shelf;
            let came = join::<H, S>(alloc, *first, *second, *proof, &mut shelf);
            (came, shelf)
        }
        Command::CheckJoin(first, second, proof) => {
            let mut shelf = shelf;
            let came = check_join_proof::<H, S>(alloc, first, second, *proof, &mut shelf);
            (came, shelf)
        }
        Command::AuditJoin(first, second, proof) => {
            let mut shelf = shelf;
            let came = audit_join_proof::<H, S>(alloc, *first, *second, *proof, &mut shelf);
            (came, shelf)
        }
        Command::Serve(map, script, bundle) => {
            serve_on::<H, S, G, R>(rt, alloc, *map, *script, *bundle, shelf, gate)
        }
        Command::CheckAll(digest, script, bundle) => {
            let mut shelf = shelf;
            let came = check_bundle::<H, S, G, R>(
                rt, alloc, digest, *script, *bundle, &mut shelf, gate,
            );
            (came, shelf)
        }
        Command::Make(count, seed, records) => {
            let mut shelf = shelf;
            let came = make(alloc, *count, *seed, *records, &mut shelf);
            (came, shelf)
        }
        Command::Demo(count, seed) => { (demo::<H, G, R>(rt, alloc, *count, *seed, gate), shelf) }
    }
}

// What every hash function keeps to.
fn gives_digests<H: Hash32>()
    ensures sized { (bytes : List ℕ) → length (H.of bytes) ≡ 32 }
    ensures bytes { (bytes : List ℕ) → AreBytes bytes → AreBytes (H.of bytes) }
{}

// Runs the program, with all that is promised of a run as one.
fn answered<H: Hash32, S: Shelf, W: Sink, G: Gate, R: Threads + Sync>(
    rt: &R,
    alloc: Global,
    words: &[String],
    shelf: S,
    out: &mut W,
    gate: &G,
) -> (Status, S)
    ensures run { let before = world (S.state shelf) (W.state out.old) in
        let after = world (S.state result.1) (W.state out.new) in
        IsRun H.of (map string_bytes words.now) before after result.0 }
    ensures unspoken { IsSpelled (map string_bytes words.now) None → result.1 ≡ shelf }
{
    match read_words(words) {
        Some(command) => {
            gives_digests::<H>();
            let (came, shelf) = carry_out::<H, S, G, R>(rt, alloc, &command, shelf, gate);
            (finish(out, came), shelf)
        }
        None => (finish(out, Err(Halt::Words)), shelf),
    }
}

/// Runs the program on the words after its name, and hands the shelf back beside the status.
///
/// Inputs are read from the shelf by name, and all that is printed goes to the sink. Where a map of
/// version 1 is made of records, the digests of its leaves are computed in joined halves, and the
/// gate is passed before and after each leaf. So are the queries of a script proved and the parts
/// of a bundle checked, each a piece.
pub fn run<H: Hash32, S: Shelf, W: Sink, G: Gate, R: Threads + Sync>(
    rt: &R,
    alloc: Global,
    words: &[String],
    shelf: S,
    out: &mut W,
    gate: &G,
) -> (Status, S)
    // What is promised of a run, as one record: its fields say each, with a comment.
    ensures run { let before = world (S.state shelf) (W.state out.old) in
        let after = world (S.state result.1) (W.state out.new) in
        IsRun H.of (map string_bytes words.now) before after result.0 }
    // Words that spell no command leave the shelf alone.
    ensures unspoken { IsSpelled (map string_bytes words.now) None → result.1 ≡ shelf }
{
    answered::<H, S, W, G, R>(rt, alloc, words, shelf, out, gate)
}

//! The words of a command.

ghost use Rattle.std.specs.Prelude.{◌≡◌, Option, bytes_eq, map};
ghost use Rattle.std.specs.String.{string_bytes};
ghost use Rattle.mr_plan.specs.private.Kinds.{GivesCommand, reading_of, spares_any};
ghost use Rattle.mr_plan.specs.Spelling.{IsSpelled, AsksAs};
ghost use Rattle.mr_plan.specs.Words.{journal_of};
ghost use Rattle.mr_plan.specs.declared.words.Command as types;

use crate::reader::Reader;
use mr_query::Query;
use mr_tree::COUNT_LIMIT;

// The most records of a demonstration.
const DEMO_LIMIT: u64 = 1 << 16;

/// What the user asks for. Files go by name.
#[derive(Clone, Copy)]
pub enum Command<'a> {
    /// Print the root digest of the records of a file.
    Root(&'a str),
    /// The same in version 2.
    Root2(&'a str),
    /// Write a map of the records of the second file to the first one, and print its root digest.
    /// The nodes are laid out in preorder from page 1 on, and no page is free.
    Build(&'a str, &'a str),
    /// The same in version 2.
    Build2(&'a str, &'a str),
    /// Print the records of the map in a file, in rising number, in lines of the map's version.
    List(&'a str),
    /// Write the map in the first file, of either version, to the second one in version 2, and
    /// print its root digest. The nodes are laid out in preorder from page 1 on, and no page is
    /// free.
    Upgrade(&'a str, &'a str),
    /// Apply the batch in the second file to the map in the first one, write the map after it to
    /// the third one, and print its root digest. The new file is as long as the old one at least.
    Apply(&'a str, &'a str, &'a str),
    /// Apply the batch in the second file to the map in the first one, in its own file, and print
    /// its root digest. A crash at any moment leaves the map as it was or after the batch.
    /// A journal stands beside the map, in a file whose name is the map's with `.journal` behind.
    ApplyHere(&'a str, &'a str),
    /// Finish a change of the map in a file that a crash cut short, by its journal, and print
    /// whether there was one.
    Recover(&'a str),
    /// Write the proof for a query on the map in the first file to the second one, and print its
    /// length.
    Prove(&'a str, Query, &'a str),
    /// Print the answer that the proof in a file proves, against a root digest and for a query.
    Check([u8; 32], Query, &'a str),
    /// Say what the proof in the second file is worth against the map in the first one, for a
    /// query.
    Audit(&'a str, Query, &'a str),
    /// Write the proof of how many records of the map in the first file lie inside a window, on the
    /// layers asked for, to the second file, and print its length. The map has to be of version 2.
    Count(&'a str, Query, &'a str),
    /// Print how many records lie inside a window, as the proof in a file proves it against a root
    /// digest.
    CheckCount([u8; 32], Query, &'a str),
    /// Say what the proof of such a number in the second file is worth against the map in the first
    /// one.
    AuditCount(&'a str, Query, &'a str),
    /// Write the proof of all pairs of records, one of the map in the first file and one of the map
    /// in the second, whose rectangles meet, to the third file, and print its length. Both maps
    /// have to be of version 2.
    Join(&'a str, &'a str, &'a str),
    /// Print these pairs, as the proof in a file proves them against the root digests of the first
    /// and the second map.
    CheckJoin([u8; 32], [u8; 32], &'a str),
    /// Say what the proof of such pairs in the third file is worth against the maps in the first
    /// two. Both have to be of version 2.
    AuditJoin(&'a str, &'a str, &'a str),
    /// Write the proofs for the queries of the script in the second file, on the map in the first
    /// one, to the third one as a bundle. Print how many they are and the bundle's length.
    Serve(&'a str, &'a str, &'a str),
    /// Print the verdict on each part of the bundle in the second file, against a root digest and
    /// for the query at its place in the script in the first one. Then print how many were
    /// accepted, refused and missing.
    CheckAll([u8; 32], &'a str, &'a str),
    /// Write so many generated records, from 0 to 2^20, to a file, and print how many they are. The
    /// second number is the seed.
    Make(u32, u64, &'a str),
    /// Prove and check 64 generated queries in memory on a map of so many generated records, from 1
    /// to 65,536, and print what that gave. The second number is the seed.
    Demo(u32, u64),
}

// The command of a name, of the words behind it as they are.
fn command_of<'a>(words: &mut Reader<'a>) -> Option<Command<'a>>
    ensures { GivesCommand (reading_of words.old) result (reading_of words.new) }
{
    match words.key() {
        "root" => Some(Command::Root(words.file())),
        "root2" => Some(Command::Root2(words.file())),
        "build" => Some(Command::Build(words.file(), words.file())),
        "build2" => Some(Command::Build2(words.file(), words.file())),
        "list" => Some(Command::List(words.file())),
        "upgrade" => Some(Command::Upgrade(words.file(), words.file())),
        "apply" => Some(Command::Apply(words.file(), words.file(), words.file())),
        "apply-here" => Some(Command::ApplyHere(words.file(), words.file())),
        "recover" => Some(Command::Recover(words.file())),
        "prove" => Some(Command::Prove(words.file(), words.query(), words.file())),
        "check" => Some(Command::Check(words.digest(), words.query(), words.file())),
        "audit" => Some(Command::Audit(words.file(), words.query(), words.file())),
        "count" => Some(Command::Count(words.file(), words.window(), words.file())),
        "check-count" => Some(Command::CheckCount(words.digest(), words.window(), words.file())),
        "audit-count" => Some(Command::AuditCount(words.file(), words.window(), words.file())),
        "join" => Some(Command::Join(words.file(), words.file(), words.file())),
        "check-join" => Some(Command::CheckJoin(words.digest(), words.digest(), words.file())),
        "audit-join" => Some(Command::AuditJoin(words.file(), words.file(), words.file())),
        "serve" => Some(Command::Serve(words.file(), words.file(), words.file())),
        "check-all" => Some(Command::CheckAll(words.digest(), words.file(), words.file())),
        "make" => {
            let count = words.number(0, COUNT_LIMIT) as u32;
            let seed = words.number(0, u64::MAX);
            Some(Command::Make(count, seed, words.file()))
        }
        "demo" => {
            let count = words.number(1, DEMO_LIMIT) as u32;
            let seed = words.number(0, u64::MAX);
            Some(Command::Demo(count, seed))
        }
        _ => None,
    }
}

// The end of a journal's name.
const JOURNAL: &[u8] = b".journal";

// Whether this is the name of the journal beside a map's file.
fn is_journal(name: &[u8], map: &[u8]) -> bool
    ensures { result ≡ bytes_eq name.now (journal_of map.now) }
{
    match name.strip_prefix(map) {
        Some(rest) => rest == JOURNAL,
        None => false,
    }
}

// Whether no file that is named is one that the command changes besides.
fn spares_journal(command: &Option<Command<'_>>) -> bool
    ensures { result ≡ spares_any command.now }
{
    match command {
        Some(Command::ApplyHere(map, batch)) => !is_journal(batch.as_bytes(), map.as_bytes()),
        _ => true,
    }
}

/// The command that the words after the program's name spell. `None` where they spell none.
pub fn read_words(words: &[String]) -> Option<Command<'_>>
    ensures written { IsSpelled (map string_bytes words.now) result }
    ensures read { (command : Option types.Command) → IsSpelled (map string_bytes words.now) command
        → AsksAs command result }
{
    let mut reader = Reader::new(words);
    let command = command_of(&mut reader);
    if !reader.is_complete() {
        return None;
    }
    if spares_journal(&command) {
        command
    } else {
        None
    }
}

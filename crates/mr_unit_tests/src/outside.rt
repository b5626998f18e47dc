//! Files and outputs by their calls: in memory with each call failing, over the real file system,
//! and over outputs and shelves that take or give little.

use crate::assertions::{all_hold, all_hold_in_memory, holds, holds_in_memory};
use crate::untold::Untold;
use mr_outside::{MemShelf, MemSink, Shelf, ShelfErr, Sink, SinkErr, read_all, write_all};
use mr_system::{StdShelf, StdSink, SystemFiles};
use std::alloc::{AllocError, Global};
use std::cell::RefCell;
use std::fmt::Display;
use std::path::PathBuf;
use std::test::Fail;
use std::{env, fs, io, process};

// ---- scripts of calls on files

// Bytes that differ from place to place and from piece to piece.
fn many_bytes(alloc: Global, count: u32) -> Result<Vec<u8>, AllocError> {
    let mut bytes = Vec::new(alloc);
    for k in 0..count {
        bytes.push((k % 251) as u8)?;
    }
    Ok(bytes)
}

// The text of a file; of one with many bytes how many they are.
fn shown(alloc: Global, bytes: &[u8]) -> Result<String, AllocError> {
    let count = bytes.len();
    if count > 1000 && count < 1_000_000 {
        let are_those = many_bytes(alloc, count as u32)?.as_slice() == bytes;
        return format!(in alloc; "{count} bytes that are those: {are_those}");
    }
    String::from_str(alloc, str::from_utf8(bytes).unwrap_or("no text"))
}

fn refusal(error: ShelfErr) -> &'static str {
    match error {
        ShelfErr::Missing => "missing",
        ShelfErr::Fault => "fault",
        ShelfErr::NoMemory => "no memory",
    }
}

fn done(answer: Result<(), ShelfErr>) -> &'static str {
    match answer {
        Ok(()) => "ok",
        Err(error) => refusal(error),
    }
}

// Replaces bytes of a file from a place on, once it was asked whether so many stand there.
fn write<S: Shelf>(shelf: &mut S, name: &str, at: u64, bytes: &[u8]) -> Result<(), ShelfErr> {
    let size = shelf.size(name)?;
    if at > size || bytes.len() as u64 > size - at {
        return Ok(());
    }
    shelf.write_at(name, at, bytes)
}

// How many bytes are read from a place on to a buffer of four nines, and what stands there then.
fn read<S: Shelf>(alloc: Global, shelf: &mut S, name: &str, at: u64) -> Result<String, AllocError> {
    let mut into = [9; 4];
    match shelf.read_at(name, at, &mut into) {
        Ok(count) => {
            let [a, b, c, d] = into;
            format!(in alloc; "{count} of {a} {b} {c} {d}")
        }
        Err(error) => String::from_str(alloc, refusal(error)),
    }
}

fn size<S: Shelf>(alloc: Global, shelf: &mut S, name: &str) -> Result<String, AllocError> {
    match shelf.size(name) {
        Ok(size) => format!(in alloc; "{size}"),
        Err(error) => String::from_str(alloc, refusal(error)),
    }
}

fn whole<S: Shelf>(alloc: Global, shelf: &mut S, name: &str) -> Result<String, AllocError> {
    match read_all(alloc, shelf, name) {
        Ok(bytes) => shown(alloc, &bytes),
        Err(error) => String::from_str(alloc, refusal(error)),
    }
}

// What a call on a file of a shelf answers.
fn answer<S: Shelf>(
    alloc: Global,
    shelf: &mut S,
    call: &str,
    name: &str,
    words: &str,
) -> Result<String, AllocError> {
    let told = match call {
        "whole" => return whole(alloc, shelf, name),
        "size" => return size(alloc, shelf, name),
        "read" => return read(alloc, shelf, name, words.parse::<u64>().unwrap_or(0)),
        "create" => done(shelf.create(name)),
        "append" => done(shelf.append(name, words.as_bytes())),
        "write" => done(write(shelf, name, 1, words.as_bytes())),
        "sync" => done(shelf.sync(name)),
        _ => "no call",
    };
    String::from_str(alloc, told)
}

// The names of the files of a script.
#[derive(Clone, Copy)]
struct Names<'a> {
    map: &'a str,
    other: &'a str,
    folder: &'a str,
}

// The first line of a script that does not hold: each is a call, a file's name, words and, behind
// ` = `, what is answered.
fn first_untrue<'a, S: Shelf>(
    alloc: Global,
    shelf: &mut S,
    names: &Names<'_>,
    script: &'a str,
) -> Result<Option<&'a str>, AllocError> {
    for line in script.lines() {
        let (asked, told) = line.split_once(" = ").unwrap_or((line, ""));
        let (call, rest) = asked.split_once(' ').unwrap_or((asked, ""));
        let (name, words) = rest.split_once(' ').unwrap_or((rest, ""));
        let name = match name {
            "map" => names.map,
            "other" => names.other,
            "folder" => names.folder,
            _ => "",
        };
        if answer(alloc, shelf, call, name, words)?.as_str() != told {
            return Ok(Some(line));
        }
    }
    Ok(None)
}

// ---- files in memory

// A file of this text, or of so many bytes, and another one; the call that fails; and a script.
#[derive(Clone, Copy)]
struct Story<'a> {
    map: &'a str,
    many: u32,
    failing: u64,
    script: &'a str,
}

// A file of three pieces is read in four calls, past a fault of each.
const PIECES: &[Story<'static>] = &[
    Story {
        map: "",
        many: 150_000,
        failing: 1,
        script: "whole map = fault\nwhole map = 150000 bytes that are those: true",
    },
    Story {
        map: "",
        many: 150_000,
        failing: 2,
        script: "whole map = fault\nwhole map = 150000 bytes that are those: true",
    },
    Story {
        map: "",
        many: 150_000,
        failing: 3,
        script: "whole map = fault\nwhole map = 150000 bytes that are those: true",
    },
    Story {
        map: "",
        many: 150_000,
        failing: 4,
        script: "whole map = fault\nwhole map = 150000 bytes that are those: true",
    },
    Story {
        map: "",
        many: 150_000,
        failing: 5,
        script: "whole map = 150000 bytes that are those: true\nsize map = fault\n\
            whole other = other\nread other 3 = 2 of 101 114 9 9\nread other 6 = 0 of 9 9 9 9\n\
            whole nameless = missing\nappend nameless more = missing\nsync nameless = missing\n\
            whole nameless = missing\ncreate nameless = ok\nwhole nameless = ",
    },
];

// A file is made, filled and written over, up to each fault. To write over bytes takes two calls.
const WRITTEN: &[Story<'static>] = &[
    Story {
        map: "as it was",
        many: 0,
        failing: 1,
        script: "create map = fault\nwhole map = as it was\nwhole other = other",
    },
    Story {
        map: "as it was",
        many: 0,
        failing: 2,
        script: "create map = ok\nappend map abcdef = fault\nwhole map = abc\nwhole other = other",
    },
    Story {
        map: "as it was",
        many: 0,
        failing: 3,
        script: "create map = ok\nappend map abcdef = ok\nappend map ghi = fault\n\
            whole map = abcdefg\nwhole other = other",
    },
    Story {
        map: "as it was",
        many: 0,
        failing: 5,
        script: "create map = ok\nappend map abcdef = ok\nappend map ghi = ok\n\
            write map XYZ = fault\nwhole map = aXcdefghi\nwhole other = other",
    },
    Story {
        map: "as it was",
        many: 0,
        failing: 6,
        script: "create map = ok\nappend map abcdef = ok\nappend map ghi = ok\n\
            write map XYZ = ok\nsync map = fault\nwhole map = aXYZefghi\nwhole other = other",
    },
    Story {
        map: "as it was",
        many: 0,
        failing: 99,
        script: "create map = ok\nappend map abcdef = ok\nappend map ghi = ok\n\
            write map XYZ = ok\nsync map = ok\nwhole map = aXYZefghi\nwhole other = other",
    },
];

const IN_MEMORY: Names<'static> = Names {
    map: "map",
    other: "other",
    folder: "folder",
};

// A shelf that holds another file of this name before.
fn shelf_of(alloc: Global, story: &Story<'_>) -> Result<MemShelf, AllocError> {
    let mut shelf = MemShelf::new(alloc, vec![in alloc; story.failing]?);
    shelf.put("map", b"before")?;
    shelf.put("other", b"other")?;
    let mut bytes = story.map.as_bytes().to_vec(alloc)?;
    bytes.extend_from_slice(&many_bytes(alloc, story.many)?)?;
    shelf.put("map", &bytes)?;
    Ok(shelf)
}

fn first_other(
    alloc: Global,
    stories: &[Story<'static>],
) -> Result<Option<&'static str>, AllocError> {
    for story in stories {
        let mut shelf = shelf_of(alloc, story)?;
        let line = first_untrue(alloc, &mut shelf, &IN_MEMORY, story.script)?;
        if line.is_some() {
            return Ok(line);
        }
    }
    Ok(None)
}

#[test]
fn files_in_memory(rt: HostRuntime) {
    all_hold_in_memory(&rt, first_other(rt.alloc(), PIECES));
    all_hold_in_memory(&rt, first_other(rt.alloc(), WRITTEN));
}

// The first read gives four bytes, and the others all.
fn short_then_whole(alloc: Global) -> Result<bool, AllocError> {
    let mut shelf = Untold::new(30, b"0123456789abcdefghijklmnopqrst".to_vec(alloc)?);
    shelf.first = 4;
    let short = whole(alloc, &mut shelf, "map")?.as_str() == "0123" && shelf.reads == 1;
    Ok(short && whole(alloc, &mut shelf, "map")?.as_str() == "0123456789abcdefghijklmnopqrst")
}

#[test]
fn a_short_read_ends_the_file(rt: HostRuntime) {
    holds_in_memory(&rt, "four bytes, then all", short_then_whole(rt.alloc()));
}

// ---- files on the real file system

// A new folder and the names of two files in it.
#[derive(Drop)]
struct Room {
    folder: PathBuf,
    map: PathBuf,
    other: PathBuf,
}

fn new_room(rt: &HostRuntime, alloc: Global) -> io::Result<Room> {
    let name = format!(in alloc; "mr_outside-{}", process::id(rt.process()))?;
    let folder = env::temp_dir(rt)?.join(alloc, name.as_str())?;
    fs::create_dir(rt, folder.as_path())?;
    Ok(Room {
        map: folder.join(alloc, "map")?,
        other: folder.join(alloc, "other")?,
        folder,
    })
}

// A script over a shelf of its own.
fn told_by_files<'a, R: SystemFiles>(
    rt: &R,
    alloc: Global,
    room: &Room,
    script: &'a str,
) -> Result<Option<&'a str>, AllocError> {
    let mut shelf = StdShelf::new(rt, alloc);
    first_untrue(alloc, &mut shelf, &names_of(room), script)
}

fn names_of(room: &Room) -> Names<'_> {
    Names {
        map: room.map.as_str(),
        other: room.other.as_str(),
        folder: room.folder.as_str(),
    }
}

// A folder is no file, one that is absent is missed, and one without a name is a fault. A file is
// made, and one that was there grows; each is read as it is then.
const NEW_FILES: &str = "read folder 0 = fault\ncreate folder = fault\nsize map = missing\n\
    size nameless = fault\nappend map more = missing\nwhole other = an input\ncreate map = ok\n\
    append map abcdef = ok\nappend map ghi = ok\nwrite map XYZ = ok\nsync map = ok\n\
    whole map = aXYZefghi\nappend other  that grew = ok\nwhole other = an input that grew";

const AGAIN: &str = "whole map = aXYZefghi\ncreate map = ok\nsize map = 0";

// The name of a file of 70,000 bytes goes to another file between two calls: then the one that was
// opened is read still, up to its end.
const OPENED: &str = "size map = 70000\nread folder 0 = fault";

const RENAMED: &str = "whole map = 70000 bytes that are those: true\nsize map = 70000\n\
    read map 69998 = 2 of 220 221 9 9\nread map 18446744073709551615 = 0 of 9 9 9 9";

// The scripts of a file whose name goes to another one.
fn first_untrue_renamed(
    rt: &HostRuntime,
    alloc: Global,
    room: &Room,
) -> io::Result<Option<&'static str>> {
    let mut shelf = StdShelf::new(rt, alloc);
    fs::write(rt, room.map.as_str(), &many_bytes(alloc, 70_000)?)?;
    fs::write(rt, room.other.as_str(), b"another file")?;
    let before = first_untrue(alloc, &mut shelf, &names_of(room), OPENED)?;
    fs::rename(rt, room.other.as_str(), room.map.as_str())?;
    let after = first_untrue(alloc, &mut shelf, &names_of(room), RENAMED)?;
    let other = told_by_files(rt, alloc, room, "whole map = another file")?;
    Ok(before.or(after).or(other))
}

// All scripts over a folder.
fn first_untrue_in(
    rt: &HostRuntime,
    alloc: Global,
    room: &Room,
) -> io::Result<Option<&'static str>> {
    let mut shelf = StdShelf::new(rt, alloc);
    fs::write(rt, room.other.as_str(), b"an input")?;
    let new = first_untrue(alloc, &mut shelf, &names_of(room), NEW_FILES)?;
    let stands = fs::read(rt, room.map.as_str())?.as_slice() == b"aXYZefghi".as_slice();
    let again = first_untrue(alloc, &mut shelf, &names_of(room), AGAIN)?;
    let renamed = first_untrue_renamed(rt, alloc, room)?;
    fs::remove_file(rt, room.map.as_str())?;
    let gone = told_by_files(rt, alloc, room, "size map = missing")?;
    let written = if stands {
        None
    } else {
        Some("it stands in the file")
    };
    Ok(new.or(written).or(again).or(renamed).or(gone))
}

#[test]
fn files_on_the_real_file_system(rt: HostRuntime) -> Result<(), Fail> {
    let room = new_room(&rt, rt.alloc())?;
    let line = first_untrue_in(&rt, rt.alloc(), &room)?;
    fs::remove_dir(&rt, room.folder.as_path())?;
    all_hold(&rt, line);
    Ok(())
}

// ---- outputs

// Takes at most 7 bytes a call.
#[derive(Drop)]
struct Narrow(MemSink);

impl Sink for Narrow {
    ghost use Rattle.mr_outside.specs.Memory.{sunk};

    ghost state = { λ s. sunk s.0 };

    fn write(&mut self, bytes: &[u8]) -> Result<usize, SinkErr> {
        self.0.write(&bytes[..bytes.len().min(7)])
    }
}

// Writes all, of which nothing is known.
fn put<W: Sink>(out: &mut W, bytes: &[u8]) -> Option<bool> {
    match write_all(out, bytes) {
        Ok(()) => Some(true),
        Err(SinkErr::Fault) => Some(false),
        Err(_) => None,
    }
}

const MUCH: &[u8] = b"as much as the sink takes at once";

// Whether all is written seven bytes at a time, or the first 14 of them where the third call fails.
fn is_written_narrowly(alloc: Global) -> Result<bool, AllocError> {
    let mut out = Narrow(MemSink::new(alloc, Vec::new(alloc)));
    let all = put(&mut out, MUCH) == Some(true) && out.0.bytes() == MUCH;
    let mut out = Narrow(MemSink::new(alloc, vec![in alloc; 3]?));
    let front = put(&mut out, MUCH) == Some(false);
    Ok(all && front && out.0.bytes() == b"as much as the".as_slice())
}

// Whether no call is made for no bytes, and one for some, so that the second one fails.
fn is_written_in_one_call(alloc: Global) -> Result<bool, AllocError> {
    let mut out = MemSink::new(alloc, vec![in alloc; 2]?);
    let first = put(&mut out, b"") == Some(true) && put(&mut out, MUCH) == Some(true);
    Ok(first && put(&mut out, b"second") == Some(false) && out.bytes() == MUCH)
}

#[test]
fn outputs_in_memory(rt: HostRuntime) {
    holds_in_memory(&rt, "seven bytes a call", is_written_narrowly(rt.alloc()));
    holds_in_memory(&rt, "one call", is_written_in_one_call(rt.alloc()));
}

// An output that takes at most so many bytes a call.
#[derive(Drop)]
struct Trickle {
    most: usize,
    taken: RefCell<Vec<u8>>,
}

impl Print for Trickle {
    fn print<D: Display + Drop>(&self, _value: D) -> io::Result<()> {
        Err(io::Error::from(io::ErrorKind::Unsupported))
    }

    fn println<D: Display + Drop>(&self, _value: D) -> io::Result<()> {
        Err(io::Error::from(io::ErrorKind::Unsupported))
    }

    fn write_all(&self, _bytes: &[u8]) -> io::Result<()> {
        Err(io::Error::from(io::ErrorKind::Unsupported))
    }

    fn write_some(&self, bytes: &[u8]) -> io::Result<usize> {
        let count = bytes.len().min(self.most);
        match self.taken.try_borrow_mut() {
            Ok(mut taken) => taken.extend_from_slice(&bytes[..count])?,
            Err(_) => return Err(io::Error::from(io::ErrorKind::ResourceBusy)),
        }
        Ok(count)
    }
}

// Whether all or nothing is written to an output that takes so many bytes a call.
fn trickles(alloc: Global, most: usize) -> bool {
    let narrow = Trickle {
        most,
        taken: RefCell::new(Vec::new(alloc)),
    };
    let written = put(&mut StdSink::new(&narrow), MUCH);
    let taken = narrow.taken.into_inner();
    if most == 0 {
        written == Some(false) && taken.is_empty()
    } else {
        written == Some(true) && taken.as_slice() == MUCH
    }
}

#[test]
fn outputs_that_take_little(rt: HostRuntime) {
    holds(&rt, "three bytes a call", trickles(rt.alloc(), 3));
    holds(&rt, "no byte a call", trickles(rt.alloc(), 0));
}

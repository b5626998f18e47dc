//! Whether the groups of a table hold: rows, stories, and command lines that spell no command. Of a
//! story it is not asked what is left of a file that it makes or changes and does not speak of.
//!
//! By an item `each call fails: at least N` a row is run over real files too, with each call on
//! files and on the output failing in turn. Its one run makes so many of them.

use crate::each_call::holds;
use crate::lines::{begins, bytes_at, group_at, item, key_at};
use crate::steps::{Said, is_so, went};
use mr_fixtures::listed::Listed;
use mr_fixtures::parts::{numbers, small};
use mr_outside::MemShelf;
use mr_system::SystemFiles;
use std::alloc::{AllocError, Global};
use std::thread::Threads;

// The calls of the shelf, or those of the sink, that fail.
fn fails(alloc: Global, group: &[&str], whose: &str) -> Result<Vec<u64>, AllocError> {
    let mut all = Vec::new(alloc);
    for line in group {
        let (key, words) = item(line);
        if key == "fails" && words.starts_with(whose) {
            for number in &numbers(alloc, words)? {
                all.push(small(*number))?;
            }
        }
    }
    Ok(all)
}

// The shelf with the files of a group, none where the parts of one spell nothing.
fn shelf_of(alloc: Global, table: &[&str], group: &[&str]) -> Result<Option<Listed>, AllocError> {
    let mut shelf = MemShelf::new(alloc, fails(alloc, group, "shelf ")?);
    for (at, line) in group.iter().enumerate() {
        let (key, name) = item(line);
        if key == "file" {
            match bytes_at(alloc, table, group, at, (key, name))? {
                Some(bytes) => shelf.put(name, &bytes)?,
                None => return Ok(None),
            }
        }
    }
    Ok(Some(Listed::new(alloc, shelf)))
}

// Whether a group says that a file of this name is left, or that one is made.
fn tells(group: &[&str], name: &str) -> bool {
    for line in group {
        let (key, words) = item(line);
        let (first, _) = words.split_once(' ').unwrap_or((words, ""));
        if matches!(key, "leaves" | "front" | "makes" | "absent") && first == name {
            return true;
        }
    }
    false
}

// Whether a group has a file of this name.
fn has(group: &[&str], name: &str) -> bool {
    for line in group {
        if item(line) == ("file", name) {
            return true;
        }
    }
    false
}

// Whether a word is one of these.
fn is_among(words: &str, word: &str) -> bool {
    for one in words.split(' ') {
        if one == word {
            return true;
        }
    }
    false
}

// Whether a line of one of these two keys has this word.
fn has_word(group: &[&str], keys: (&str, &str), word: &str) -> bool {
    for line in group {
        let (key, words) = item(line);
        if (key == keys.0 || key == keys.1) && is_among(words, word) {
            return true;
        }
    }
    false
}

// Whether a file of this name was made.
fn is_made(made: &[String], name: &str) -> bool {
    for one in made {
        if one.as_str() == name {
            return true;
        }
    }
    false
}

// Whether it is not asked what is left of a file: a story makes or changes it.
fn is_free(group: &[&str], made: &[String], name: &str) -> bool {
    key_at(group, 0) == "story"
        && (is_made(made, name) || has_word(group, ("change", "lay out"), name))
}

// Whether a group names a file that was made: by what it says of it, or a story by a command line,
// and no story by its bytes at the start.
fn names(group: &[&str], name: &str) -> bool {
    tells(group, name)
        || if key_at(group, 0) == "story" {
            has_word(group, ("run", "do"), name)
        } else {
            has(group, name)
        }
}

// Whether a group names each file that was made.
fn names_each(group: &[&str], made: &[String]) -> bool {
    for name in made {
        if !names(group, name.as_str()) {
            return false;
        }
    }
    true
}

// Whether all files of a group are as before, but for those of which it says what is left or that
// a story makes or changes, and no other file was made.
fn is_left(
    alloc: Global,
    table: &[&str],
    group: &[&str],
    shelf: &Listed,
) -> Result<bool, AllocError> {
    for (at, line) in group.iter().enumerate() {
        let (key, name) = item(line);
        if key == "file" && !tells(group, name) && !is_free(group, &shelf.made, name) {
            let bytes = bytes_at(alloc, table, group, at, (key, name))?;
            if shelf.shelf.file(name) != bytes.as_deref() {
                return Ok(false);
            }
        }
    }
    Ok(names_each(group, &shelf.made))
}

// Whether a group runs something, and says of each run how it ends and what it prints.
fn is_whole(group: &[&str]) -> bool {
    let mut runs = 0usize;
    for at in 0..group.len() {
        if key_at(group, at) == "run" {
            runs = runs.wrapping_add(1);
            let (second, third) = (at.wrapping_add(1), at.wrapping_add(2));
            if key_at(group, second) != "status" || !key_at(group, third).starts_with("prints") {
                return false;
            }
        }
    }
    runs > 0
}

// What an item runs, over the shelf that the one before left. The calls of the sink that fail are
// those of the first `run`.
fn done<R: Threads + Sync>(
    rt: &R,
    alloc: Global,
    is_sha: bool,
    item: (&str, &str),
    shelf: Listed,
    said: Said,
    fail: &[u64],
) -> Result<(Said, Listed), AllocError> {
    let (key, words) = item;
    if key == "run" && !said.has_run {
        went(rt, alloc, is_sha, words, shelf, fail)
    } else if key == "run" || key == "do" {
        let (mut told, left) = went(rt, alloc, is_sha, words, shelf, &[])?;
        told.has_run = key == "run" || said.has_run;
        Ok((told, left))
    } else {
        Ok((said, shelf))
    }
}

// Whether an item speaks of a run before there was one.
fn is_early(key: &str, said: &Said) -> bool {
    !said.has_run && matches!(key, "status" | "prints" | "prints front" | "reads")
}

// Whether the item on this line is so.
fn holds_at(
    alloc: Global,
    is_sha: bool,
    table: &[&str],
    group: &[&str],
    at: usize,
    item: (&str, &str),
    shelf: &mut MemShelf,
    said: &Said,
) -> Result<bool, AllocError> {
    if item.0 == "do" && said.status != 0 || is_early(item.0, said) {
        return Ok(false);
    }
    match bytes_at(alloc, table, group, at, item)? {
        Some(bytes) => is_so(alloc, is_sha, item, &bytes, shelf, said),
        None => Ok(false),
    }
}

// Whether a row is so where each call fails in turn.
fn holds_cut<R: Threads + SystemFiles + Sync>(
    rt: &R,
    alloc: Global,
    is_sha: bool,
    table: &[&str],
    group: &[&str],
    least: &str,
) -> Result<bool, AllocError> {
    match shelf_of(alloc, table, group)? {
        Some(files) => holds(rt, alloc, is_sha, table, group, files, least),
        None => Ok(false),
    }
}

fn nothing_said(alloc: Global) -> Said {
    Said {
        status: 0,
        printed: Vec::new(alloc),
        reads: 0,
        agrees: true,
        has_run: false,
    }
}

// Goes through a group over its shelf: the place of the first line that does not hold, or the one
// behind the last where other files are left than it says.
fn first_untrue<R: Threads + SystemFiles + Sync>(
    rt: &R,
    alloc: Global,
    is_sha: bool,
    table: &[&str],
    group: &[&str],
    shelf: Listed,
) -> Result<Option<usize>, AllocError> {
    let fail = fails(alloc, group, "sink ")?;
    let mut shelf = shelf;
    let mut said = nothing_said(alloc);
    for (at, line) in group.iter().enumerate() {
        let this = item(line);
        if this.0 == "each call fails" && !holds_cut(rt, alloc, is_sha, table, group, this.1)? {
            return Ok(Some(at));
        }
        let (told, left) = done(rt, alloc, is_sha, this, shelf, said, &fail)?;
        shelf = left;
        said = told;
        if !holds_at(
            alloc,
            is_sha,
            table,
            group,
            at,
            this,
            &mut shelf.shelf,
            &said,
        )? {
            return Ok(Some(at));
        }
    }
    let is_left = is_left(alloc, table, group, &shelf)?;
    Ok(if is_left { None } else { Some(group.len()) })
}

// The place of the first line of a row or a story that does not hold.
fn first_broken<R: Threads + SystemFiles + Sync>(
    rt: &R,
    alloc: Global,
    is_sha: bool,
    table: &[&str],
    group: &[&str],
) -> Result<Option<usize>, AllocError> {
    match shelf_of(alloc, table, group)? {
        Some(shelf) if is_whole(group) => first_untrue(rt, alloc, is_sha, table, group, shelf),
        _ => Ok(Some(0)),
    }
}

// Whether a command line over the files of its group ends with bad words, and leaves all as it was.
fn is_bad<R: Threads + Sync>(
    rt: &R,
    alloc: Global,
    table: &[&str],
    group: &[&str],
    words: &str,
) -> Result<bool, AllocError> {
    let Some(shelf) = shelf_of(alloc, table, group)? else {
        return Ok(false);
    };
    let (said, left) = went(rt, alloc, false, words, shelf, &[])?;
    let told = said.status == 1 && said.printed.as_slice() == b"bad words\n".as_slice();
    Ok(told && is_left(alloc, table, group, &left)?)
}

// The place of the first command line of a group that does not end with bad words. Each stands
// between quotation marks.
fn first_good<R: Threads + Sync>(
    rt: &R,
    alloc: Global,
    table: &[&str],
    group: &[&str],
) -> Result<Option<usize>, AllocError> {
    let mut lines = 0usize;
    for (at, line) in group.iter().enumerate() {
        if item(line).0 == "line" {
            lines = lines.wrapping_add(1);
            let quoted = line.strip_prefix("line: \"").unwrap_or("root r");
            let words = quoted.strip_suffix('"').unwrap_or("root r");
            if !is_bad(rt, alloc, table, group, words)? {
                return Ok(Some(at));
            }
        }
    }
    Ok(if lines > 0 { None } else { Some(0) })
}

// The place of the first line of a group that does not hold. A false row is one of which something
// behind its first line does not hold.
fn first_wrong<R: Threads + SystemFiles + Sync>(
    rt: &R,
    alloc: Global,
    is_sha: bool,
    table: &[&str],
    group: &[&str],
) -> Result<Option<usize>, AllocError> {
    match key_at(group, 0) {
        "bad words" => first_good(rt, alloc, table, group),
        "false row" => {
            let broken = first_broken(rt, alloc, is_sha, table, group)?;
            Ok(if matches!(broken, Some(at) if at > 0) {
                None
            } else {
                Some(0)
            })
        }
        _ => first_broken(rt, alloc, is_sha, table, group),
    }
}

// The keys of the items that there are.
fn is_known(key: &str) -> bool {
    let file = matches!(key, "file" | "leaves" | "front" | "makes" | "absent");
    let run = matches!(
        key,
        "fails" | "each call fails" | "run" | "do" | "status" | "prints"
    );
    let rest = matches!(
        key,
        "" | "prints front" | "reads" | "line" | "change" | "hashes" | "pages" | "lay out"
    );
    file || run || rest || begins(key)
}

// Whether an item of this key says something in a group that begins with such a key.
fn has_meaning(begin: &str, key: &str) -> bool {
    match begin {
        "row" | "false row" => key != "line",
        "story" => !matches!(key, "line" | "each call fails"),
        "bad words" => matches!(key, "file" | "line"),
        _ => false,
    }
}

// Whether an item has a meaning where it stands, behind the line of this key that began a group.
fn is_meant(begin: &str, key: &str) -> bool {
    key.is_empty() || begins(key) || has_meaning(begin, key)
}

// Whether parts stand below an item of this key.
fn takes_parts(key: &str) -> bool {
    matches!(
        key,
        "let" | "file" | "leaves" | "front" | "prints" | "prints front"
    )
}

// Whether these are calls of the shelf or of the sink.
fn are_calls(alloc: Global, words: &str) -> Result<bool, AllocError> {
    let (whose, places) = words.split_once(' ').unwrap_or((words, ""));
    Ok(matches!(whose, "shelf" | "sink") && !numbers(alloc, places)?.is_empty())
}

// Whether an item may be read as what it says; one that is not known may not.
fn is_read(alloc: Global, key: &str, words: &str) -> Result<bool, AllocError> {
    match key {
        "hash" => Ok(matches!(words, "sha-256" | "xor")),
        "fails" => are_calls(alloc, words),
        _ => Ok(is_known(key)),
    }
}

// Whether a line that is no item is in its place: parts are two spaces in, behind one that takes
// them.
fn is_placed(line: &str, takes: bool) -> bool {
    !line.starts_with(' ') || (line.starts_with("  ") && takes)
}

// How many groups of a table hold, how many do not, and a line on each of those.
#[derive(Drop)]
pub(crate) struct Tally {
    pub(crate) passed: u64,
    pub(crate) failed: u64,
    pub(crate) lines: String,
}

// Notes whether what begins on this line holds.
fn note(
    alloc: Global,
    tally: &mut Tally,
    at: usize,
    line: &str,
    wrong: Option<usize>,
) -> Result<(), AllocError> {
    match wrong {
        None => tally.passed = tally.passed.wrapping_add(1),
        Some(place) => {
            let number = at.wrapping_add(place).wrapping_add(1);
            let text = format!(in alloc; "line {number} does not hold, of {line}\n")?;
            tally.lines.push_str(text.as_str())?;
            tally.failed = tally.failed.wrapping_add(1);
        }
    }
    Ok(())
}

// Goes through a table.
pub(crate) fn tallied<R: Threads + SystemFiles + Sync>(
    rt: &R,
    alloc: Global,
    table: &[&str],
) -> Result<Tally, AllocError> {
    let mut tally = Tally {
        passed: 0,
        failed: 0,
        lines: String::new(alloc),
    };
    let mut is_sha = false;
    let mut takes = false;
    let mut begin = 0usize;
    for (at, line) in table.iter().enumerate() {
        let (key, words) = item(line);
        let is_meant = is_meant(key_at(table, begin), key);
        if !is_placed(line, takes) || !is_meant || !is_read(alloc, key, words)? {
            note(alloc, &mut tally, at, line, Some(0))?;
        }
        if begins(key) {
            begin = at;
        }
        if !line.starts_with(' ') {
            takes = takes_parts(key);
        }
        if key == "hash" {
            is_sha = words == "sha-256";
        } else if begins(key) && key != "let" {
            let wrong = first_wrong(rt, alloc, is_sha, table, group_at(table, at))?;
            note(alloc, &mut tally, at, line, wrong)?;
        }
    }
    Ok(tally)
}

//! The words of a command as they are read, one after the other.

ghost use Rattle.std.specs.Prelude.{◌≡◌, ◌≤◌, map, string_bytes};
ghost use Rattle.std.specs.List.{list_all};
ghost use Rattle.mr_query.specs.Word.{query_of};
ghost use Rattle.mr_record.specs.Decimal.{u64_of};
ghost use Rattle.mr_record.specs.RecordText.{is_lower_digit};
ghost use Rattle.mr_plan.specs.private.Kinds.{HasReadWord, first_word, if_window, is_complete, is_fresh, is_window as has_window, named, noted, reading_of, start, taken, within};
ghost use Rattle.mr_plan.specs.private.Asking.{digest_of_word};
ghost use Rattle.mr_plan.specs.Words.{key, file, digest, query, window, number};

use hex::FromHex;
use mr_geom::Point;
use mr_query::{Query, Shape, read_query};
use mr_record::read_u64;

// What stands where a word is no query, or none for a window. Nothing is asked with it.
const NO_QUERY: Query = Query {
    shape: Shape::Nearest {
        center: Point { x: 0, y: 0 },
        k: 1,
    },
    mask: None,
};

fn are_lower_digits(word: &str) -> bool
    ensures { result ≡ list_all is_lower_digit word.now }
{
    word.as_bytes()
        .iter()
        .all(|b| matches!(*b, b'0'..=b'9' | b'a'..=b'f'))
}

// The digest that 64 lower-case hexadecimal digits write.
#[tactic(auto, unfolding(crate::specs::private::Asking::digest_of_word))]
fn read_digest(word: &str) -> Option<[u8; 32]>
    ensures { result ≡ digest_of_word word.now }
{
    if word.len() != 64 || !are_lower_digits(word) {
        return None;
    }
    <[u8; 32] as FromHex>::from_hex(word).ok()
}

// Whether a window is asked for, and not the nearest records.
fn is_window(shape: &Shape) -> bool
    ensures { result ≡ has_window shape.now }
{
    matches!(shape, Shape::Window(_))
}

// The query for a window that a word spells.
fn read_window(word: &str) -> Option<Query>
    ensures { result ≡ if_window (query_of word.now) }
{
    match read_query(word) {
        Ok(query) => {
            if is_window(&query.shape) {
                Some(query)
            } else {
                None
            }
        }
        Err(_) => None,
    }
}

// The number between two bounds that a word writes in decimal.
fn read_number(word: &str, least: u64, most: u64) -> Option<u64>
    ensures { result ≡ within least most (u64_of word.now) }
{
    let number = read_u64(word.as_bytes())?;
    if least <= number && number <= most {
        Some(number)
    } else {
        None
    }
}

// The words of a command as they are read, one after the other. That a word is not what it has to
// be is noted, and what is read in its place means nothing. A command has three files at most.
#[derive(Clone, Copy)]
pub(crate) struct Reader<'a> {
    // Those that are left.
    words: &'a [String],
    // The last file so far, and the one before it; empty where there is none.
    last: &'a str,
    earlier: &'a str,
    // Each word so far was what it had to be.
    is_right: bool,
}

impl<'a> Reader<'a> {
    // A reader that has read none of them.
    #[tactic(auto, unfolding(crate::specs::private::Kinds::reading_of))]
    pub(crate) fn new(words: &'a [String]) -> Reader<'a>
        ensures { reading_of result ≡ start (map string_bytes words.now) }
    {
        Reader {
            words,
            last: "",
            earlier: "",
            is_right: true,
        }
    }

    // Takes the next word, which is empty where none is left.
    #[tactic(auto, unfolding(crate::specs::private::Kinds::reading_of))]
    fn next(&mut self) -> &'a str
        ensures front { result.now ≡ first_word (reading_of self.old).words }
        ensures behind { reading_of self.new ≡ taken (reading_of self.old) }
    {
        match self.words.split_first() {
            Some((word, rest)) => {
                self.words = rest;
                word.as_str()
            }
            None => {
                self.is_right = false;
                ""
            }
        }
    }

    // Notes whether a word was what it had to be.
    #[tactic(auto, unfolding(crate::specs::private::Kinds::reading_of))]
    fn note(&mut self, fits: bool)
        ensures { reading_of self.new ≡ noted fits (reading_of self.old) }
    {
        self.is_right = fits && self.is_right;
    }

    // The name is not empty, and none of the last two files.
    #[tactic(auto, unfolding(crate::specs::private::Kinds::reading_of))]
    fn is_fresh(&self, name: &str) -> bool
        ensures { result ≡ is_fresh name.now (reading_of self.now).last
            (reading_of self.now).earlier }
    {
        !name.is_empty() && name != self.last && name != self.earlier
    }

    // Remembers the name of a file.
    #[tactic(auto, unfolding(crate::specs::private::Kinds::reading_of))]
    fn remember(&mut self, name: &'a str)
        ensures { reading_of self.new ≡ named name.now (reading_of self.old) }
    {
        self.earlier = self.last;
        self.last = name;
    }

    // The name of a command.
    #[tactic(auto, unfolding(crate::specs::private::Kinds::word_next, crate::specs::private::Kinds::past))]
    pub(crate) fn key(&mut self) -> &'a str
        ensures first { result.now ≡ first_word (reading_of self.old).words }
        ensures key { HasReadWord (key result.now) (reading_of self.old) (reading_of self.new) }
    {
        self.next()
    }

    // The name of a file, which is not empty and none of the two before it.
    #[tactic(auto, unfolding(crate::specs::private::Kinds::word_next, crate::specs::private::Kinds::past))]
    pub(crate) fn file(&mut self) -> &'a str
        ensures { HasReadWord (file result.now) (reading_of self.old) (reading_of self.new) }
    {
        let name = self.next();
        let fresh = self.is_fresh(name);
        self.note(fresh);
        self.remember(name);
        name
    }

    // A digest, in 64 lower-case hexadecimal digits.
    #[tactic(auto, unfolding(crate::specs::private::Kinds::word_next, crate::specs::private::Kinds::past))]
    pub(crate) fn digest(&mut self) -> [u8; 32]
        ensures { HasReadWord (digest result) (reading_of self.old) (reading_of self.new) }
    {
        let digest = read_digest(self.next());
        self.note(digest.is_some());
        digest.unwrap_or([0; 32])
    }

    // A query.
    #[tactic(auto, unfolding(crate::specs::private::Kinds::word_next, crate::specs::private::Kinds::past))]
    pub(crate) fn query(&mut self) -> Query
        ensures { HasReadWord (query result) (reading_of self.old) (reading_of self.new) }
    {
        let query = read_query(self.next());
        self.note(query.is_ok());
        query.unwrap_or(NO_QUERY)
    }

    // A query for a window.
    #[tactic(auto, unfolding(crate::specs::private::Kinds::word_next, crate::specs::private::Kinds::past))]
    pub(crate) fn window(&mut self) -> Query
        ensures { HasReadWord (window result) (reading_of self.old) (reading_of self.new) }
    {
        let query = read_window(self.next());
        self.note(query.is_some());
        query.unwrap_or(NO_QUERY)
    }

    // A number between two bounds, in decimal.
    #[tactic(auto, unfolding(crate::specs::private::Kinds::word_next, crate::specs::private::Kinds::past))]
    pub(crate) fn number(&mut self, least: u64, most: u64) -> u64
        ensures number { HasReadWord (number least most result) (reading_of self.old)
            (reading_of self.new) }
        ensures bounded { result ≤ most }
    {
        let number = read_number(self.next(), least, most);
        self.note(number.is_some());
        number.unwrap_or(0)
    }

    // Each word was what it had to be, and none is left.
    #[tactic(auto, unfolding(crate::specs::private::Kinds::is_complete, crate::specs::private::Kinds::reading_of))]
    pub(crate) fn is_complete(&self) -> bool
        ensures { result ≡ is_complete (reading_of self.now) }
    {
        self.is_right && self.words.is_empty()
    }
}

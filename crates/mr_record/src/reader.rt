//! A text of lines, by the reader of one line.

ghost use Rattle.std.specs.Prelude.{◌≡◌, ℕ, ◌+◌, ◌^◌, ◌<◌, ◌≤◌, ◌∷◌, [], ◌++◌, length, List, IfOk, IfErr, OnOk};
ghost use Rattle.mr_record.specs.declared.text_fault.TextErr.TheVariants as errors;
ghost use Rattle.mr_record.specs.Answer.{AnswersText, RefusesText};
ghost use Rattle.mr_record.specs.Lines.{lines_of};
ghost use Rattle.mr_record.specs.LineTexts.{Reader, value_after, values_after};

use crate::cutting::cut;
use crate::{TextErr, TextFault, TextRule};
use std::alloc::{AllocError, Global};

/// What is kept of the values of earlier lines.
pub trait Memory<T> {
    // what is kept of these values
    ghost keeps: { Self → List T → Type 0 };

    /// Keeps what is to be kept of one value more. It refuses for want of memory alone.
    fn keep(&mut self, earlier: &[T], one: &T) -> Result<(), AllocError>
        requires { keeps self.old earlier.now }
        ensures { OnOk result (keeps self.new (earlier.now ++ one.now ∷ [])) };
}

/// Nothing is kept where each line is read by itself.
impl<T> Memory<T> for () {
    ghost use Rattle.std.specs.Prelude.{⊤};

    ghost keeps = { λ memory earlier. ⊤ };

    fn keep(&mut self, _earlier: &[T], _one: &T) -> Result<(), AllocError> {
        Ok(())
    }
}

/// Reads the lines of a text, each of which spells one value.
pub trait LineReader {
    /// The value of a line.
    type Value: Drop;

    /// What is kept of the values of earlier lines: `()` where a line is read by itself.
    type Memory: Memory<Self::Value> + Drop;

    // how the lines spell values
    ghost reader: { Self → Reader Self.Value };

    /// The most lines.
    fn limit(&self) -> usize
        ensures { result ≡ (reader self.now).limit };

    /// What the first line is counted as.
    fn first(&self) -> u8
        ensures { result ≡ (reader self.now).first };

    /// The fewest bytes of a line with its line feed. It tells how much room to make, and nothing
    /// else.
    fn shortest() -> usize
        ensures { 0 < result };

    /// The value of a line without its line feed, behind the earlier values.
    fn read(
        &self,
        memory: &Self::Memory,
        earlier: &[Self::Value],
        line: &[u8],
    ) -> Result<Self::Value, TextRule>
        requires { Self.Memory.keeps memory.now earlier.now }
        ensures { result ≡ (reader self.now).read earlier.now line.now };
}

/// The first line of a text that is not empty, without its line feed; whether it has one; and the
/// text behind it.
#[tactic(auto, using(crate::proofs::Fields::lines_cut, crate::proofs::Fields::lines_last))]
pub fn first_line(text: &[u8]) -> (&[u8], bool, &[u8])
    requires { 0 < length text.now }
    ensures lines { lines_of text.now
        ≡ record { bytes = result.0.now; ended = result.1 } ∷ lines_of result.2.now }
    ensures shorter { length result.2.now < length text.now }
{
    match cut(text, b'\n') {
        Some((line, rest)) => (line, true, rest),
        None => (text, false, &[]),
    }
}

// The value of a line behind the earlier values.
#[tactic(auto, unfolding(crate::specs::LineTexts::value_after))]
fn read_after<R: LineReader>(
    reader: &R,
    memory: &R::Memory,
    earlier: &[R::Value],
    line: &[u8],
    ended: bool,
) -> Result<R::Value, TextRule>
    requires { R.Memory.keeps memory.now earlier.now }
    ensures { result ≡ value_after (R.reader reader.now) earlier.now
        (record { bytes = line.now; ended = ended }) }
{
    if earlier.len() >= reader.limit() {
        return Err(TextRule::TooMany);
    }
    if !ended {
        return Err(TextRule::NoEnd);
    }
    reader.read(memory, earlier, line)
}

// Puts the value behind the earlier ones.
fn add<T: Drop, M: Memory<T>>(memory: &mut M, values: &mut Vec<T>, one: T) -> Result<(), TextErr>
    requires { M.keeps memory.old values.old.items }
    ensures added { OnOk result (values.new.items ≡ values.old.items ++ one ∷ []) }
    ensures kept { OnOk result (M.keeps memory.new values.new.items) }
    ensures refused { IfErr result (λ e. e ≡ errors.NoMemory) }
{
    memory.keep(values, &one)?;
    values.push(one)?;
    Ok(())
}

// Reads the first line, adds its value, and gives the text behind it.
#[tactic(auto, unfolding(crate::specs::LineTexts::values_after))]
fn take_line<'a, R: LineReader>(
    reader: &R,
    memory: &mut R::Memory,
    values: &mut Vec<R::Value>,
    text: &'a [u8],
) -> Result<&'a [u8], TextErr>
    requires filled { 0 < length text.now }
    requires kept { R.Memory.keeps memory.old values.old.items }
    ensures kept { OnOk result (R.Memory.keeps memory.new values.new.items) }
    ensures shorter { IfOk result (λ rest. length rest.now < length text.now) }
    ensures goes_on { IfOk result (λ rest. values_after (R.reader reader.now) values.old.items
        (lines_of text.now)
        ≡ values_after (R.reader reader.now) values.new.items (lines_of rest.now)) }
    ensures refused { IfErr result (λ e. RefusesText e
        (values_after (R.reader reader.now) values.old.items (lines_of text.now))) }
{
    let (line, ended, rest) = first_line(text);
    let number = values.len() as u64 + u64::from(reader.first());
    match read_after(reader, memory, values, line, ended) {
        Err(rule) => Err(TextErr::Text(TextFault { line: number, rule })),
        Ok(one) => {
            add(memory, values, one)?;
            Ok(rest)
        }
    }
}

// For how many values a text has lines, as far as they may be read.
fn count<R: LineReader>(reader: &R, text: &[u8]) -> usize {
    let feeds = text.iter().filter(|b| **b == b'\n').count();
    feeds.min(text.len() / R::shortest()).min(reader.limit())
}

/// The values of the lines of a text, from a memory that keeps nothing yet. The room for them is
/// made once, so that it is not moved.
pub fn read_values<R: LineReader>(
    alloc: Global,
    reader: &R,
    mut memory: R::Memory,
    text: &[u8],
) -> Result<Vec<R::Value>, TextErr>
    requires { R.Memory.keeps memory [] }
    ensures { AnswersText result (values_after (R.reader reader.now) [] (lines_of text.now)) }
{
    let mut values = Vec::with_capacity(alloc, count(reader, text))?;
    let mut rest = text;
    while !rest.is_empty() {
        rest = take_line(reader, &mut memory, &mut values, rest)?;
    }
    Ok(values)
}

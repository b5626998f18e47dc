//! A batch as a text.

ghost use Rattle.std.specs.Prelude.{◌≡◌, IfOk, IfErr, Ok};
ghost use Rattle.mr_record.specs.Lines.{lines_of};
ghost use Rattle.mr_record.specs.declared.version.Version.TheVariants.{One, Two};
ghost use Rattle.mr_batch.specs.Changes.{Changes};
ghost use Rattle.mr_batch.specs.BatchText.{IsBatch, batch_text, number_of_line, batch_behind, batch_of_lines, batch_of_text};
ghost use Rattle.mr_record.specs.Answer.{RefusesText};
ghost use Rattle.mr_batch.specs.Answer.{AnswersBatch, IsRefusal};

use crate::line::{read_change, read_head};
use crate::links::links;
use crate::{Batch, Change};
use mr_record::{LineReader, TextErr, TextFault, TextRule, Version, first_line, read_values};
use std::alloc::Global;

// The most changes of a batch.
const CHANGE_LIMIT: usize = 1 << 20;

// The number on the first line.
#[tactic(auto, unfolding(crate::specs::BatchText::number_of_line))]
fn read_number(line: &[u8], ended: bool) -> Result<u64, TextRule>
    ensures { result ≡ number_of_line (record { bytes = line.now; ended = ended }) }
{
    if !ended {
        return Err(TextRule::NoEnd);
    }
    read_head(line).ok_or(TextRule::Head)
}

// The number of a batch, and the text behind the first line.
#[tactic(auto, unfolding(crate::specs::BatchText::batch_of_lines))]
fn take_head(_version: Version, text: &[u8]) -> Result<(u64, &[u8]), TextErr>
    ensures goes_on { IfOk result (λ head. batch_of_text _version text.now
        ≡ batch_behind _version head.0 (lines_of head.1.now)) }
    ensures refused { IfErr result (λ e. RefusesText e (batch_of_text _version text.now)) }
{
    if text.is_empty() {
        return Err(TextErr::Text(TextFault {
            line: 1,
            rule: TextRule::Head,
        }));
    }
    let (line, ended, rest) = first_line(text);
    match read_number(line, ended) {
        Err(rule) => Err(TextErr::Text(TextFault { line: 1, rule })),
        Ok(number) => Ok((number, rest)),
    }
}

// Reads changes, each by itself.
#[derive(Drop)]
struct ReadsChanges {
    version: Version,
}

impl LineReader for ReadsChanges {
    type Value = Change;

    type Memory = ();

    ghost use Rattle.mr_batch.specs.BatchText.{change_lines};

    ghost reader = { λ r. change_lines r.version };

    fn limit(&self) -> usize {
        CHANGE_LIMIT
    }

    fn first(&self) -> u8 {
        2
    }

    fn shortest() -> usize {
        b"- 0\n".len()
    }

    fn read(&self, _memory: &(), _earlier: &[Change], line: &[u8]) -> Result<Change, TextRule> {
        read_change(self.version, line)
    }
}

#[tactic(auto, using(crate::proofs::Cuttings::behind_head))]
fn read_all(alloc: Global, version: Version, text: &[u8]) -> Result<Batch, TextErr>
    ensures { AnswersBatch result (batch_of_text version text.now) }
{
    let (number, rest) = take_head(version, text)?;
    let changes = read_values(alloc, &ReadsChanges { version }, (), rest)?;
    let links = links(alloc, &changes)?;
    Ok(Batch::new(number, changes, links))
}

/// Reads a batch text of a version: the line `batch N` and then at most 2^20 lines, each with a
/// line feed. Such a line is `+ ` and a record line, or `- ` and a record number.
pub fn read_batch_of(alloc: Global, version: Version, text: &[u8]) -> Result<Batch, TextErr>
    ensures exact { AnswersBatch result (batch_of_text version text.now) }
    ensures written { IfOk result
        (λ b. IsBatch version b × (text.now ≡ batch_text version b)) }
    ensures read { (b : Changes) → IsBatch version b → text.now ≡ batch_text version b
        → AnswersBatch result (Ok b) }
    ensures refused { IfErr result (λ e. IsRefusal version text.now e) }
{
    read_all(alloc, version, text)
}

/// The same of version 1.
pub fn read_batch(alloc: Global, text: &[u8]) -> Result<Batch, TextErr>
    ensures exact { AnswersBatch result (batch_of_text One text.now) }
    ensures written { IfOk result (λ b. IsBatch One b × (text.now ≡ batch_text One b)) }
    ensures read { (b : Changes) → IsBatch One b → text.now ≡ batch_text One b
        → AnswersBatch result (Ok b) }
    ensures refused { IfErr result (λ e. IsRefusal One text.now e) }
{
    read_batch_of(alloc, Version::One, text)
}

/// The same of version 2.
pub fn read_batch2(alloc: Global, text: &[u8]) -> Result<Batch, TextErr>
    ensures exact { AnswersBatch result (batch_of_text Two text.now) }
    ensures written { IfOk result (λ b. IsBatch Two b × (text.now ≡ batch_text Two b)) }
    ensures read { (b : Changes) → IsBatch Two b → text.now ≡ batch_text Two b
        → AnswersBatch result (Ok b) }
    ensures refused { IfErr result (λ e. IsRefusal Two text.now e) }
{
    read_batch_of(alloc, Version::Two, text)
}

//! Many records as a text.

ghost use Rattle.std.specs.Prelude.{◌≡◌, ◌∷◌, [], ◌++◌, List, IfOk, IfErr, OnOk, Ok};
ghost use Rattle.mr_record.specs.declared.record.Record as types;
ghost use Rattle.mr_record.specs.declared.version.Version.TheVariants.{One, Two};
ghost use Rattle.mr_record.specs.RecordText.{IsRecordList, text_of, records_of_text};
ghost use Rattle.mr_record.specs.Answer.{AnswersText, IsRefusal};

use crate::line::{read_fields, with_layer};
use crate::numbers::Numbers;
use crate::reader::{LineReader, read_values};
use crate::{Record, TextErr, TextRule, Version};
use std::alloc::Global;

// Reads records, and keeps the numbers of the earlier ones.
#[derive(Drop)]
struct ReadsRecords {
    version: Version,
}

impl LineReader for ReadsRecords {
    type Value = Record;

    type Memory = Numbers;

    ghost use Rattle.mr_record.specs.RecordText.{record_lines};

    ghost reader = { λ r. record_lines r.version };

    fn limit(&self) -> usize {
        1 << 20
    }

    fn first(&self) -> u8 {
        1
    }

    fn shortest() -> usize {
        b"0 0 0 0 0 -\n".len()
    }

    // The rule of the layer is the last one, behind that of a number that stands twice.
    fn read(&self, memory: &Numbers, earlier: &[Record], line: &[u8]) -> Result<Record, TextRule> {
        let found = read_fields(self.version, line)?;
        if memory.contains(earlier, found.0.number) {
            return Err(TextRule::Repeat);
        }
        with_layer(found)
    }
}

/// Reads a record text of this version: at most 2^20 lines, each a record and a line feed, with
/// different numbers.
pub fn read_lines_of(alloc: Global, version: Version, text: &[u8]) -> Result<Vec<Record>, TextErr>
    ensures exact { AnswersText result (records_of_text version text.now) }
    ensures written { IfOk result
        (λ v. IsRecordList version v.items × (text.now ≡ text_of version v.items)) }
    ensures read { (rs : List types.Record) → IsRecordList version rs
        → text.now ≡ text_of version rs → AnswersText result (Ok rs) }
    ensures refused { IfErr result (λ e. IsRefusal version text.now e) }
{
    read_values(alloc, &ReadsRecords { version }, Numbers::new(alloc), text)
}

/// `read_lines_of` version 1.
pub fn read_lines(alloc: Global, text: &[u8]) -> Result<Vec<Record>, TextErr>
    ensures exact { AnswersText result (records_of_text One text.now) }
    ensures written { IfOk result
        (λ v. IsRecordList One v.items × (text.now ≡ text_of One v.items)) }
    ensures read { (rs : List types.Record) → IsRecordList One rs → text.now ≡ text_of One rs
        → AnswersText result (Ok rs) }
    ensures refused { IfErr result (λ e. IsRefusal One text.now e) }
{
    read_lines_of(alloc, Version::One, text)
}

/// `read_lines_of` version 2.
pub fn read_lines2(alloc: Global, text: &[u8]) -> Result<Vec<Record>, TextErr>
    ensures exact { AnswersText result (records_of_text Two text.now) }
    ensures written { IfOk result
        (λ v. IsRecordList Two v.items × (text.now ≡ text_of Two v.items)) }
    ensures read { (rs : List types.Record) → IsRecordList Two rs → text.now ≡ text_of Two rs
        → AnswersText result (Ok rs) }
    ensures refused { IfErr result (λ e. IsRefusal Two text.now e) }
{
    read_lines_of(alloc, Version::Two, text)
}

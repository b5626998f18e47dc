//! Many queries as a text.

ghost use Rattle.std.specs.Prelude.{◌≡◌, List, IfOk, IfErr, Ok};
ghost use Rattle.mr_record.specs.Answer.{AnswersText};
ghost use Rattle.mr_query.specs.Script.{IsScript, script_of, query_of_line, queries_of_text, IsScriptRefusal};
ghost use Rattle.mr_query.specs.declared.query.Query as types;

use crate::Query;
use crate::word::read_word;
use mr_record::{LineReader, TextErr, TextRule, read_values};
use std::alloc::Global;

// The most lines of a script.
const SCRIPT_LIMIT: usize = 1 << 16;

// The query of a line without its line feed.
fn read_line(line: &[u8]) -> Result<Query, TextRule>
    ensures { result ≡ query_of_line line.now }
{
    match read_word(line) {
        Ok(query) => Ok(query),
        Err(_) => Err(TextRule::Query),
    }
}

// Reads queries, each by itself.
#[derive(Drop)]
struct ReadsQueries;

impl LineReader for ReadsQueries {
    type Value = Query;

    type Memory = ();

    ghost use Rattle.mr_query.specs.Script.{query_lines};

    ghost reader = { λ r. query_lines };

    fn limit(&self) -> usize {
        SCRIPT_LIMIT
    }

    fn first(&self) -> u8 {
        1
    }

    fn shortest() -> usize {
        b"nearest:0,0,1\n".len()
    }

    fn read(&self, _memory: &(), _earlier: &[Query], line: &[u8]) -> Result<Query, TextRule> {
        read_line(line)
    }
}

/// Reads a script: at most 65,536 lines, each a query's word and a line feed. The refusal is the
/// first line that breaks a rule, and the first rule that it breaks.
pub fn read_script(alloc: Global, text: &[u8]) -> Result<Vec<Query>, TextErr>
    ensures exact { AnswersText result (queries_of_text text.now) }
    ensures written { IfOk result (λ v. IsScript v.items × (text.now ≡ script_of v.items)) }
    ensures read { (qs : List types.Query) → IsScript qs → text.now ≡ script_of qs
        → AnswersText result (Ok qs) }
    ensures refused { IfErr result (λ e. IsScriptRefusal text.now e) }
{
    read_values(alloc, &ReadsQueries, (), text)
}

//! What is printed of a bundle.

ghost use Rattle.std.specs.Prelude.{◌≡◌, ◌+◌, ◌≤◌, ◌<◌, ◌^◌, ◌++◌, ◌∷◌, [], All, length, codes, decimal, OnOk, IfOk};
ghost use Rattle.std.specs.String.{string_bytes};
ghost use Rattle.mr_record.specs.Record.{HasLayer};
ghost use Rattle.mr_bundle.specs.declared.verdict.Verdict.TheVariants as verdicts;
ghost use Rattle.mr_plan.specs.Judged.{HasLines, verdict_text, verdict_lines, missing_part_line, missing_lines, summary_line as line_of_summary, broken_line, broken_text, accepted_count, bundle_text, bundle_status, is_accepted as accepts};

use crate::Status;
use crate::lines::refused_line;
use crate::text::put_records;
use mr_bundle::{Text, Verdict};
use mr_proof::Fault;
use mr_record::{Record, Version};
use std::alloc::{AllocError, Global};

// Puts the number of a query with its answer.
fn put_answered(alloc: Global, out: &mut Text, query: usize, size: usize) -> Result<(), AllocError>
    ensures { OnOk result (out.new.bytes.items ≡ out.old.bytes.items
        ++ (codes "query " ++ decimal query ++ codes " ok " ++ decimal size ++ 10 ∷ [])) }
{
    let mut line = format!(in alloc; "query {query} ok {size}")?;
    line.push('\n')?;
    out.put(line.as_bytes())
}

// Puts an accepted part: a line, and a line of this version for each record of the answer.
fn put_answer(
    alloc: Global,
    out: &mut Text,
    query: usize,
    version: Version,
    answer: &[Record],
) -> Result<(), AllocError>
    requires { All (HasLayer version) answer.now }
    ensures { OnOk result (out.new.bytes.items ≡ out.old.bytes.items
        ++ verdict_text query (verdicts.Accepted version answer.now)) }
{
    put_answered(alloc, out, query, answer.len())?;
    put_records(out, version, answer)
}

// The line on a part that is refused.
#[tactic(auto, using(crate::proofs::BundleLines::refused_text))]
fn query_refused(alloc: Global, query: usize, fault: &Fault) -> Result<String, AllocError>
    ensures { IfOk result (λ line. string_bytes line
        ≡ verdict_text query (verdicts.Refused fault.now)) }
{
    let mut line = format!(in alloc; "query {query} ")?;
    line.push_str(refused_line(alloc, fault)?.as_str())?;
    Ok(line)
}

// Puts the line on a part that is refused.
fn put_refused(alloc: Global, out: &mut Text, query: usize, fault: &Fault) -> Result<(), AllocError>
    ensures { OnOk result (out.new.bytes.items ≡ out.old.bytes.items
        ++ verdict_text query (verdicts.Refused fault.now)) }
{
    let line = query_refused(alloc, query, fault)?;
    out.put(line.as_bytes())
}

// Puts the verdict on the part for a query.
fn put_verdict(
    alloc: Global,
    out: &mut Text,
    query: usize,
    verdict: &Verdict,
) -> Result<(), AllocError>
    requires { HasLines verdict.now }
    ensures { OnOk result (out.new.bytes.items ≡ out.old.bytes.items
        ++ verdict_text query verdict.now) }
{
    match verdict {
        Verdict::Accepted(version, answer) => {
            put_answer(alloc, out, query, *version, answer.as_slice())
        }
        Verdict::Refused(fault) => put_refused(alloc, out, query, fault),
    }
}

// Puts the verdicts, in the order of their queries.
fn put_verdicts(alloc: Global, out: &mut Text, list: &[Verdict]) -> Result<(), AllocError>
    requires { All HasLines list.now }
    ensures { OnOk result (out.new.bytes.items ≡ out.old.bytes.items
        ++ verdict_lines 1 list.now) }
{
    for (i, verdict) in list.iter().enumerate() {
        put_verdict(alloc, out, i + 1, verdict)?;
    }
    Ok(())
}

// Puts the line on a part that is missing.
#[tactic(auto, unfolding(crate::specs::Judged::missing_part_line))]
fn put_missing(alloc: Global, out: &mut Text, query: usize) -> Result<(), AllocError>
    ensures { OnOk result (out.new.bytes.items ≡ out.old.bytes.items ++ missing_part_line query) }
{
    let mut line = format!(in alloc; "query {query} missing")?;
    line.push('\n')?;
    out.put(line.as_bytes())
}

// Puts the lines on so many parts that are missing, from this query on.
fn put_all_missing(
    alloc: Global,
    out: &mut Text,
    query: usize,
    parts: usize,
) -> Result<(), AllocError>
    requires { query + parts < 2 ^ 64 }
    ensures { OnOk result (out.new.bytes.items ≡ out.old.bytes.items
        ++ missing_lines query parts) }
{
    for i in 0..parts {
        put_missing(alloc, out, query + i)?;
    }
    Ok(())
}

// Puts the numbers of parts that are accepted, refused and missing.
#[tactic(auto, unfolding(crate::specs::Judged::summary_line))]
fn put_summary(
    alloc: Global,
    out: &mut Text,
    accepted: usize,
    refused: usize,
    missing: usize,
) -> Result<(), AllocError>
    ensures { OnOk result (out.new.bytes.items ≡ out.old.bytes.items
        ++ line_of_summary accepted refused missing) }
{
    let mut line = format!(in alloc; "accepted {accepted} refused {refused} missing {missing}")?;
    line.push('\n')?;
    out.put(line.as_bytes())
}

// The line on the place where a bundle is broken.
#[tactic(auto, unfolding(crate::specs::Judged::broken_line))]
fn place_line(alloc: Global, place: usize) -> Result<String, AllocError>
    ensures { IfOk result (λ line. string_bytes line ≡ broken_line place) }
{
    let mut line = format!(in alloc; "bundle broken at {place}")?;
    line.push('\n')?;
    Ok(line)
}

// Puts that line.
fn put_place(alloc: Global, out: &mut Text, place: usize) -> Result<(), AllocError>
    ensures { OnOk result (out.new.bytes.items ≡ out.old.bytes.items ++ broken_line place) }
{
    let line = place_line(alloc, place)?;
    out.put(line.as_bytes())
}

// The same where the bundle is broken.
fn put_broken(alloc: Global, out: &mut Text, broken: Option<usize>) -> Result<(), AllocError>
    ensures { OnOk result (out.new.bytes.items ≡ out.old.bytes.items ++ broken_text broken) }
{
    match broken {
        None => Ok(()),
        Some(place) => put_place(alloc, out, place),
    }
}

fn is_accepted(verdict: &Verdict) -> bool
    ensures { result ≡ accepts verdict.now }
{
    match verdict {
        Verdict::Accepted(..) => true,
        Verdict::Refused(_) => false,
    }
}

/// How many verdicts are answers.
pub fn count_accepted(list: &[Verdict]) -> usize
    ensures exact { result ≡ accepted_count list.now }
    ensures length_at_most { result ≤ length list.now }
{
    let mut count = 0;
    for verdict in list {
        if is_accepted(verdict) {
            count += 1;
        }
    }
    count
}

/// What `check-all` prints of a bundle for so many queries.
///
/// The list has the verdicts on the whole parts, in the order of the queries, and `accepted` of
/// them are answers; the queries behind those are missing. `broken` is the place, in bytes from
/// the bundle's front, where it is no bundle any more.
#[tactic(auto, unfolding(crate::specs::Judged::bundle_text))]
pub fn judged_text(
    alloc: Global,
    queries: usize,
    list: &[Verdict],
    accepted: usize,
    broken: Option<usize>,
) -> Result<Text, AllocError>
    requires lines { All HasLines list.now }
    requires few { length list.now ≤ queries }
    requires room { queries + 1 < 2 ^ 64 }
    requires accepted { accepted ≡ accepted_count list.now }
    requires fewer { accepted ≤ length list.now }
    ensures { IfOk result (λ t. t.bytes.items ≡ bundle_text queries list.now broken) }
{
    let missing = queries - list.len();
    let mut out = Text::new(alloc);
    put_verdicts(alloc, &mut out, list)?;
    put_all_missing(alloc, &mut out, list.len() + 1, missing)?;
    put_summary(alloc, &mut out, accepted, list.len() - accepted, missing)?;
    put_broken(alloc, &mut out, broken)?;
    Ok(out)
}

/// The status over a bundle, of whose parts so many are accepted: Done where all are, and it is not
/// broken, else Refused.
pub fn judged_status(list: &[Verdict], accepted: usize, broken: Option<usize>) -> Status
    requires { accepted ≡ accepted_count list.now }
    ensures { result ≡ bundle_status list.now broken }
{
    if accepted == list.len() && broken.is_none() {
        Status::Done
    } else {
        Status::Refused
    }
}

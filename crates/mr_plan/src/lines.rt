//! The lines that are printed.

ghost use Rattle.std.specs.Prelude.{◌≡◌, ◌++◌, ◌∷◌, [], codes, decimal, OnOk, IfOk};
ghost use Rattle.std.specs.String.{string_bytes};
ghost use Rattle.hex.specs.Hex.{encode_lower};
ghost use Rattle.mr_plan.specs.Demo.{map_lines as lines_on_map, query_lines as lines_on_queries, total_lines as lines_on_totals};
ghost use Rattle.mr_plan.specs.Found.{kept_text, bad_map_line};
ghost use Rattle.mr_plan.specs.Lines.{bad_text_line, bad_batch_line, batch_fault_text, numbers_text, needs_version_2_line as line_of_need, recovered_line as line_of_recovery, missing_line, proof_line as line_of_proof, served_line as line_of_served, count_line as line_of_count, counted_line as line_counted, made_line as line_made, digest_line, collision_lines as collision_text, sound_line as line_of_sound};
ghost use Rattle.mr_plan.specs.Refusal.{found_text, refused_line};

use mr_batch::BatchFault;
use mr_pages::{MapFault, MapRule};
use mr_proof::{Fault, Rule};
use mr_record::TextFault;
use std::alloc::{AllocError, Global};

// Puts some bytes in hexadecimal.
fn push_hex(alloc: Global, line: &mut String, bytes: &[u8]) -> Result<(), AllocError>
    ensures { OnOk result
        (string_bytes line.new ≡ string_bytes line.old ++ encode_lower bytes.now) }
{
    line.push_str(hex::encode(alloc, bytes)?.as_str())
}

// Puts the root digest that was computed, where it is another than the held one.
pub(crate) fn push_found(alloc: Global, line: &mut String, rule: &Rule) -> Result<(), AllocError>
    ensures { OnOk result (string_bytes line.new ≡ string_bytes line.old ++ found_text rule.now) }
{
    if let Rule::WrongRoot { found } = rule {
        line.push_str(" found ")?;
        push_hex(alloc, line, found)?;
    }
    Ok(())
}

/// The line on a proof that is refused: `refused RULE at PLACE`, and for another root digest the
/// one that was found.
#[tactic(auto, unfolding(crate::specs::Refusal::refused_line))]
pub fn refused_line(alloc: Global, fault: &Fault) -> Result<String, AllocError>
    ensures { IfOk result (λ line. string_bytes line ≡ refused_line fault.now) }
{
    let rule = fault.rule.name();
    let mut line = format!(in alloc; "refused {rule} at {}", fault.at)?;
    push_found(alloc, &mut line, &fault.rule)?;
    line.push('\n')?;
    Ok(line)
}

/// The line on a text that is refused: `bad text line LINE RULE`.
#[tactic(auto, unfolding(crate::specs::Lines::bad_text_line))]
pub fn bad_text_line(alloc: Global, fault: &TextFault) -> Result<String, AllocError>
    ensures { IfOk result (λ line. string_bytes line ≡ bad_text_line fault.now) }
{
    let rule = fault.rule.name();
    let mut line = format!(in alloc; "bad text line {} {rule}", fault.line)?;
    line.push('\n')?;
    Ok(line)
}

// Puts the number that a map has, and that of the batch.
fn push_numbers(alloc: Global, line: &mut String, held: u64, given: u64) -> Result<(), AllocError>
    ensures { OnOk result
        (string_bytes line.new ≡ string_bytes line.old ++ numbers_text held given) }
{
    line.push_str(format!(in alloc; " held {held} given {given}")?.as_str())
}

// Puts the line of a batch that breaks a rule, and the rule.
fn push_place(alloc: Global, line: &mut String, at: u64, rule: &str) -> Result<(), AllocError>
    ensures { OnOk result (string_bytes line.new ≡ string_bytes line.old
        ++ (codes "line " ++ decimal at ++ 32 ∷ rule.now)) }
{
    line.push_str(format!(in alloc; "line {at} {rule}")?.as_str())
}

// Puts why a batch may not be applied.
fn push_batch_fault(alloc: Global, line: &mut String, fault: &BatchFault) -> Result<(), AllocError>
    ensures { OnOk result
        (string_bytes line.new ≡ string_bytes line.old ++ batch_fault_text fault.now) }
{
    match fault {
        BatchFault::OutOfOrder { held, given } => {
            line.push_str("OutOfOrder")?;
            push_numbers(alloc, line, *held, *given)
        }
        BatchFault::Present { line: at } => push_place(alloc, line, *at, "Present"),
        BatchFault::Absent { line: at } => push_place(alloc, line, *at, "Absent"),
        BatchFault::Full { line: at } => push_place(alloc, line, *at, "Full"),
    }
}

/// The line on a batch that is refused: `bad batch OutOfOrder held HELD given GIVEN`, or `bad batch
/// line LINE RULE`.
#[tactic(auto, unfolding(crate::specs::Lines::bad_batch_line))]
pub fn bad_batch_line(alloc: Global, fault: &BatchFault) -> Result<String, AllocError>
    ensures { IfOk result (λ line. string_bytes line ≡ bad_batch_line fault.now) }
{
    let mut line = String::new(alloc);
    line.push_str("bad batch ")?;
    push_batch_fault(alloc, &mut line, fault)?;
    line.push('\n')?;
    Ok(line)
}

// Puts two digests that differ.
fn push_digests(
    alloc: Global,
    line: &mut String,
    held: &[u8; 32],
    found: &[u8; 32],
) -> Result<(), AllocError>
    ensures { OnOk result (string_bytes line.new ≡ string_bytes line.old
        ++ (codes " held " ++ encode_lower held.now ++ codes " found " ++ encode_lower found.now)) }
{
    line.push_str(" held ")?;
    push_hex(alloc, line, held)?;
    line.push_str(" found ")?;
    push_hex(alloc, line, found)
}

// Puts what differs, where a rule keeps it.
fn push_kept(alloc: Global, line: &mut String, rule: &MapRule) -> Result<(), AllocError>
    ensures { OnOk result (string_bytes line.new ≡ string_bytes line.old ++ kept_text rule.now) }
{
    match rule {
        MapRule::Digest { held, found } => push_digests(alloc, line, held, found),
        MapRule::Changed { held, found } => push_digests(alloc, line, held, found),
        MapRule::Count { held, found } => {
            line.push_str(format!(in alloc; " held {held} found {found}")?.as_str())
        }
        _ => Ok(()),
    }
}

/// The line on a file that stands for no map: `bad map page PAGE RULE`, and what differs.
#[tactic(auto, unfolding(crate::specs::Found::bad_map_line))]
pub fn bad_map_line(alloc: Global, fault: &MapFault) -> Result<String, AllocError>
    ensures { IfOk result (λ line. string_bytes line ≡ bad_map_line fault.now) }
{
    let rule = fault.rule.name();
    let mut line = format!(in alloc; "bad map page {} {rule}", fault.page)?;
    push_kept(alloc, &mut line, &fault.rule)?;
    line.push('\n')?;
    Ok(line)
}

/// The line on a proof that was written: `proof LENGTH`.
#[tactic(auto, unfolding(crate::specs::Lines::proof_line))]
pub fn proof_line(alloc: Global, size: usize) -> Result<String, AllocError>
    ensures { IfOk result (λ s. string_bytes s ≡ line_of_proof size) }
{
    let mut line = format!(in alloc; "proof {size}")?;
    line.push('\n')?;
    Ok(line)
}

/// The line on a bundle that was written: `served QUERIES LENGTH`.
#[tactic(auto, unfolding(crate::specs::Lines::served_line))]
pub fn served_line(alloc: Global, queries: usize, size: usize) -> Result<String, AllocError>
    ensures { IfOk result (λ s. string_bytes s ≡ line_of_served queries size) }
{
    let mut line = format!(in alloc; "served {queries} {size}")?;
    line.push('\n')?;
    Ok(line)
}

// A name and a number.
fn count_line(alloc: Global, name: &str, number: u128) -> Result<String, AllocError>
    ensures { IfOk result (λ s. string_bytes s ≡ line_of_count name.now number) }
{
    let mut line = format!(in alloc; "{name} {number}")?;
    line.push('\n')?;
    Ok(line)
}

/// The line on records that were generated: `made NUMBER`.
#[tactic(auto, unfolding(crate::specs::Lines::made_line))]
pub fn made_line(alloc: Global, count: u32) -> Result<String, AllocError>
    ensures { IfOk result (λ s. string_bytes s ≡ line_made count) }
{
    count_line(alloc, "made", u128::from(count))
}

/// The line on records that are counted: `count NUMBER`.
#[tactic(auto, unfolding(crate::specs::Lines::counted_line))]
pub fn counted_line(alloc: Global, count: u64) -> Result<String, AllocError>
    ensures { IfOk result (λ s. string_bytes s ≡ line_counted count) }
{
    count_line(alloc, "count", u128::from(count))
}

// Puts a line of a name and a number.
fn push_count(alloc: Global, lines: &mut String, name: &str, number: u128) -> Result<(), AllocError>
    ensures { OnOk result
        (string_bytes lines.new ≡ string_bytes lines.old ++ line_of_count name.now number) }
{
    lines.push_str(count_line(alloc, name, number)?.as_str())
}

// Puts the line on a map's root digest.
fn push_root(alloc: Global, lines: &mut String, root: &[u8; 32]) -> Result<(), AllocError>
    ensures { OnOk result
        (string_bytes lines.new ≡ string_bytes lines.old ++ codes "root " ++ digest_line root.now) }
{
    lines.push_str("root ")?;
    lines.push_str(digest_line(alloc, root)?.as_str())
}

/// The lines on a map, as `demo` prints them: how many records it has, the level of its root node,
/// and its root digest.
pub fn map_lines(
    alloc: Global,
    count: u32,
    level: u8,
    root: &[u8; 32],
) -> Result<String, AllocError>
    ensures { IfOk result (λ s. string_bytes s ≡ lines_on_map count level root.now) }
{
    let mut lines = count_line(alloc, "records", u128::from(count))?;
    push_count(alloc, &mut lines, "level", u128::from(level))?;
    push_root(alloc, &mut lines, root)?;
    Ok(lines)
}

/// Puts the lines of `demo` on how many queries there were, and as many that were accepted.
pub fn push_queries(alloc: Global, lines: &mut String, queries: usize) -> Result<(), AllocError>
    ensures { OnOk result
        (string_bytes lines.new ≡ string_bytes lines.old ++ lines_on_queries queries) }
{
    push_count(alloc, lines, "queries", queries as u128)?;
    push_count(alloc, lines, "accepted", queries as u128)
}

/// Puts the lines of `demo` on how many records all answers have, and how many bytes all proofs.
pub fn push_totals(
    alloc: Global,
    lines: &mut String,
    answers: u128,
    bytes: u128,
) -> Result<(), AllocError>
    ensures { OnOk result
        (string_bytes lines.new ≡ string_bytes lines.old ++ lines_on_totals answers bytes) }
{
    push_count(alloc, lines, "answers", answers)?;
    push_count(alloc, lines, "bytes", bytes)
}

// Puts some bytes as a line of hexadecimal.
pub(crate) fn push_hex_line(
    alloc: Global,
    lines: &mut String,
    bytes: &[u8],
) -> Result<(), AllocError>
    ensures { OnOk result
        (string_bytes lines.new ≡ string_bytes lines.old ++ (encode_lower bytes.now ++ 10 ∷ [])) }
{
    push_hex(alloc, lines, bytes)?;
    lines.push('\n')
}

/// `collision`, and then each string as a line of hexadecimal, the map's own first. That they
/// differ and have one hash is for the caller to know.
#[tactic(auto, unfolding(crate::specs::Lines::collision_lines))]
pub fn collision_lines(alloc: Global, owned: &[u8], shown: &[u8]) -> Result<String, AllocError>
    ensures { IfOk result (λ s. string_bytes s ≡ collision_text owned.now shown.now) }
{
    let mut lines = String::new(alloc);
    lines.push_str("collision\n")?;
    push_hex_line(alloc, &mut lines, owned)?;
    push_hex_line(alloc, &mut lines, shown)?;
    Ok(lines)
}

/// `sound`, the line on the honest proof.
pub fn sound_line(alloc: Global) -> Result<String, AllocError>
    ensures { IfOk result (λ s. string_bytes s ≡ line_of_sound) }
{
    let mut line = String::new(alloc);
    line.push_str("sound")?;
    line.push('\n')?;
    Ok(line)
}

/// The line on a map of version 1, where what is asked for has proofs of version 2 alone: `needs
/// version 2`.
pub fn needs_version_2_line(alloc: Global) -> Result<String, AllocError>
    ensures { IfOk result (λ line. string_bytes line ≡ line_of_need) }
{
    let mut line = String::new(alloc);
    line.push_str("needs version 2")?;
    line.push('\n')?;
    Ok(line)
}

/// The line of `recover`: `recovered`, or `clean` where there was nothing to finish.
pub fn recovered_line(alloc: Global, was_open: bool) -> Result<String, AllocError>
    ensures { IfOk result (λ line. string_bytes line ≡ line_of_recovery was_open) }
{
    let mut line = String::new(alloc);
    line.push_str(if was_open { "recovered" } else { "clean" })?;
    line.push('\n')?;
    Ok(line)
}

/// The line on a file that is missing: `missing NAME`.
#[tactic(auto, unfolding(crate::specs::Lines::missing_line))]
pub fn missing_line(alloc: Global, name: &str) -> Result<String, AllocError>
    ensures { IfOk result (λ line. string_bytes line ≡ missing_line name.now) }
{
    format!(in alloc; "missing {name}\n")
}

/// A digest as a line of hexadecimal.
pub fn digest_line(alloc: Global, digest: &[u8; 32]) -> Result<String, AllocError>
    ensures { IfOk result (λ line. string_bytes line ≡ digest_line digest.now) }
{
    let mut line = hex::encode(alloc, digest)?;
    line.push('\n')?;
    Ok(line)
}

//! The lines on joins.

ghost use Rattle.std.specs.Prelude.{◌≡◌, ◌++◌, OnOk, IfOk};
ghost use Rattle.std.specs.String.{string_bytes};
ghost use Rattle.mr_join.specs.declared.fault.JoinFault.TheVariants as faults;
ghost use Rattle.mr_plan.specs.Joins.{first_name, second_name, pair_line, pair_lines, part_refused_line as line_of_part, join_refused_line as line_of_refusal, map_collision_lines as lines_of_collision};
ghost use Rattle.mr_plan.specs.Lines.{sound_line as line_of_sound};

use crate::lines::{push_found, push_hex_line, sound_line};
use mr_bundle::Text;
use mr_join::{FrameRule, JoinFault, Pair};
use mr_proof::Fault;
use std::alloc::{AllocError, Global};

// Puts the line on a pair: `pair FIRST SECOND`.
#[tactic(auto, unfolding(crate::specs::Joins::pair_line))]
fn put_pair(alloc: Global, out: &mut Text, pair: &Pair) -> Result<(), AllocError>
    ensures { OnOk result (out.new.bytes.items ≡ out.old.bytes.items ++ pair_line pair.now) }
{
    let mut line = format!(in alloc; "pair {} {}", pair.first, pair.second)?;
    line.push('\n')?;
    out.put(line.as_bytes())
}

// Puts a line for each pair.
fn put_pairs(alloc: Global, out: &mut Text, pairs: &[Pair]) -> Result<(), AllocError>
    ensures { OnOk result (out.new.bytes.items ≡ out.old.bytes.items ++ pair_lines pairs.now) }
{
    for pair in pairs {
        put_pair(alloc, out, pair)?;
    }
    Ok(())
}

/// A line for each pair of records, `pair FIRST SECOND` by their numbers, in this order.
pub fn pairs_text(alloc: Global, pairs: &[Pair]) -> Result<Text, AllocError>
    ensures { IfOk result (λ t. t.bytes.items ≡ pair_lines pairs.now) }
{
    let mut out = Text::new(alloc);
    put_pairs(alloc, &mut out, pairs)?;
    Ok(out)
}

/// `sound`, the line on the honest proof, and then a line for each pair.
pub fn sound_pairs_text(alloc: Global, pairs: &[Pair]) -> Result<Text, AllocError>
    ensures { IfOk result (λ t. t.bytes.items ≡ line_of_sound ++ pair_lines pairs.now) }
{
    let line = sound_line(alloc)?;
    let mut out = Text::new(alloc);
    out.put(line.as_bytes())?;
    put_pairs(alloc, &mut out, pairs)?;
    Ok(out)
}

// The line on a frame that is refused.
#[tactic(auto, unfolding(crate::specs::Joins::join_refused_line))]
fn frame_refused_line(alloc: Global, rule: &FrameRule, at: u64) -> Result<String, AllocError>
    ensures { IfOk result (λ line. string_bytes line ≡ line_of_refusal (faults.Frame rule.now at)) }
{
    let name = rule.name();
    let mut line = format!(in alloc; "refused frame {name} at {at}")?;
    line.push('\n')?;
    Ok(line)
}

// The line on the proof of one of the two maps, by the name of the map in lines.
#[tactic(auto, unfolding(crate::specs::Joins::part_refused_line))]
fn part_refused_line(alloc: Global, map: &str, fault: &Fault) -> Result<String, AllocError>
    ensures { IfOk result (λ line. string_bytes line ≡ line_of_part map.now fault.now) }
{
    let rule = fault.rule.name();
    let mut line = format!(in alloc; "refused {map} {rule} at {}", fault.at)?;
    push_found(alloc, &mut line, &fault.rule)?;
    line.push('\n')?;
    Ok(line)
}

/// The line on a join's proof that is refused: `refused frame RULE at PLACE`. Of the proof of one
/// of the two maps it is `refused first RULE at PLACE` or `refused second RULE at PLACE`, and for
/// another root digest the one that was found.
#[tactic(auto, unfolding(crate::specs::Joins::join_refused_line))]
pub fn join_refused_line(alloc: Global, fault: &JoinFault) -> Result<String, AllocError>
    ensures { IfOk result (λ line. string_bytes line ≡ line_of_refusal fault.now) }
{
    match fault {
        JoinFault::Frame { rule, at } => frame_refused_line(alloc, rule, *at),
        JoinFault::First(fault) => part_refused_line(alloc, "first", fault),
        JoinFault::Second(fault) => part_refused_line(alloc, "second", fault),
    }
}

// `collision` and the name of the map in lines, and then each string as a line of hexadecimal.
#[tactic(auto, unfolding(crate::specs::Joins::map_collision_lines))]
fn map_collision_lines(
    alloc: Global,
    map: &str,
    owned: &[u8],
    shown: &[u8],
) -> Result<String, AllocError>
    ensures { IfOk result (λ s. string_bytes s ≡ lines_of_collision map.now owned.now shown.now) }
{
    let mut lines = format!(in alloc; "collision {map}")?;
    lines.push('\n')?;
    push_hex_line(alloc, &mut lines, owned)?;
    push_hex_line(alloc, &mut lines, shown)?;
    Ok(lines)
}

/// `collision first`, and then each string as a line of hexadecimal, that of the first map's owner
/// first. That they differ and have one hash is for the caller to know.
pub fn first_collision_lines(
    alloc: Global,
    owned: &[u8],
    shown: &[u8],
) -> Result<String, AllocError>
    ensures { IfOk result (λ s. string_bytes s
        ≡ lines_of_collision first_name owned.now shown.now) }
{
    map_collision_lines(alloc, "first", owned, shown)
}

/// The same of the second map: `collision second`.
pub fn second_collision_lines(
    alloc: Global,
    owned: &[u8],
    shown: &[u8],
) -> Result<String, AllocError>
    ensures { IfOk result (λ s. string_bytes s
        ≡ lines_of_collision second_name owned.now shown.now) }
{
    map_collision_lines(alloc, "second", owned, shown)
}

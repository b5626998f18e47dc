//! The check of a proof for a choice.

ghost use Rattle.std.specs.Prelude.{◌≡◌, IfOk, Err};
ghost use Rattle.mr_record.specs.declared.version.Version.{Version};
ghost use Rattle.mr_tree.specs.Digest.{by};
ghost use Rattle.mr_proof.specs.declared.head.Kind.TheVariants as kinds;
ghost use Rattle.mr_proof.specs.declared.rule.Fault.{Fault};
ghost use Rattle.mr_proof.specs.Halves.{ShowsJust, FaultsJust, StaysRefused, SpellsOneOf, FindsPairOf};
ghost use Rattle.mr_check.specs.Judged.{AnswersCollected};
ghost use Rattle.mr_count.specs.Chosen.{chosen, verdict_for, AnswersChoice, MayBreak, FitsTaken};
ghost use Rattle.mr_count.specs.Accepted.{AcceptedChoiceIsHonest, AcceptsHonestChoice};
ghost use Rattle.mr_count.specs.private.Steps.{GivesCollected, AnswersAs};

use crate::chosen::{Chosen, choice_is_lawful};
use crate::{Choice, ChoiceErr, Taken};
use mr_check::{CheckErr, Collected, check_question};
use mr_outside::Items;
use mr_proof::{accepted_matches_honest, honest_proof_is_accepted};
use mr_tree::Hashes;
use std::alloc::Global;

// What the proof shows.
fn collected_by<H: Hashes, C: Choice>(
    alloc: Global,
    root: &[u8; 32],
    choice: &C,
    kind: u8,
    proof: &[u8],
) -> Result<Collected, CheckErr>
    ensures exact { AnswersCollected H.of root.now (chosen kind (C.ways choice.now)) proof.now
        result }
    ensures shows { ShowsJust H.of root.now (chosen kind (C.ways choice.now)) proof.now }
    ensures faults { FaultsJust H.of root.now (chosen kind (C.ways choice.now)) proof.now }
    ensures longer { StaysRefused H.of root.now (chosen kind (C.ways choice.now)) proof.now }
    ensures one_pair { SpellsOneOf (kinds.Choice kind) proof.now }
    ensures pair { FindsPairOf (kinds.Choice kind) proof.now }
{
    choice_is_lawful(choice, kind);
    let chosen = Chosen {
        choice,
        letter: kind,
    };
    check_question::<H, Chosen<'_, C>>(alloc, root, &chosen, proof)
}

// What it gives.
pub(crate) fn taken_of(collected: Collected) -> Taken
    ensures { GivesCollected collected result }
{
    let Collected { outline, records } = collected;
    Taken {
        count: outline.head.count,
        rect: outline.rect,
        whole: outline.whole,
        records: Items::of(records),
    }
}

// What is answered.
fn answer_of(collected: Result<Collected, CheckErr>) -> Result<Taken, ChoiceErr>
    ensures { AnswersAs collected result }
{
    match collected {
        Err(CheckErr::Fault(fault)) => Err(ChoiceErr::Fault(fault)),
        Err(CheckErr::NoMemory) => Err(ChoiceErr::NoMemory),
        Ok(collected) => Ok(taken_of(collected)),
    }
}

/// What the proof gives of the map with this root digest to the choice, where its kind is this
/// letter; or the first rule that it breaks. It is of version 2, and so is the map.
///
/// The proof is read once, from the front, as `mr_check::check` reads one for a query; kept are the
/// records that are not left out.
pub fn check_choice<H: Hashes, C: Choice>(
    alloc: Global,
    root: &[u8; 32],
    choice: &C,
    kind: u8,
    proof: &[u8],
) -> Result<Taken, ChoiceErr>
    // What is answered: the verdict, by the head and cut that the bytes show, or their fault.
    ensures exact { AnswersChoice result
        (verdict_for H.of root.now kind (C.ways choice.now) proof.now) }
    ensures shows { ShowsJust H.of root.now (chosen kind (C.ways choice.now)) proof.now }
    ensures faults { FaultsJust H.of root.now (chosen kind (C.ways choice.now)) proof.now }
    // No rule on a flag or a squared radius is broken, since there is none.
    ensures rules { (f : Fault) → verdict_for H.of root.now kind (C.ways choice.now) proof.now
        ≡ Err f → MayBreak f.rule }
    ensures fits { IfOk result FitsTaken }
    // What accepted bytes are worth: they are the honest proof of the map with this root, and what
    // they give is of it, or the hash function has a collision. The honest proof of a map of
    // version 2 is accepted, and shows no collision.
    ensures accepted { (v : Version) → AcceptedChoiceIsHonest (by v H.of) kind (C.ways choice.now)
        proof.now }
    ensures complete { AcceptsHonestChoice H.of kind (C.ways choice.now) }
    // A fault stays so behind whatever follows.
    ensures longer { StaysRefused H.of root.now (chosen kind (C.ways choice.now)) proof.now }
    // What the bytes spell: one head and cut at most, which reading finds.
    ensures one_pair { SpellsOneOf (kinds.Choice kind) proof.now }
    ensures pair { FindsPairOf (kinds.Choice kind) proof.now }
{
    choice_is_lawful(choice, kind);
    accepted_matches_honest::<H>(proof);
    honest_proof_is_accepted::<H>();
    answer_of(collected_by::<H, C>(alloc, root, choice, kind, proof))
}

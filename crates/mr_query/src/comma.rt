//! Cutting a word at a comma.

ghost use Rattle.std.specs.Prelude.{◌≡◌, ◌∷◌, [], MatchResult};
ghost use Rattle.mr_query.specs.Word.{comma_parts};
ghost use Rattle.mr_query.specs.declared.query.QueryFault.TheVariants as faults;

use crate::QueryFault;
use mr_record::cut;

// The first part of a text with more than one, and the text behind its comma.
#[tactic(auto, using(crate::proofs::Parts::part_cut, crate::proofs::Parts::part_one))]
pub(crate) fn split_part(text: &[u8]) -> Result<(&[u8], &[u8]), QueryFault>
    ensures { MatchResult result (λ parts. comma_parts text.now ≡ parts.0.now ∷ comma_parts
        parts.1.now)
        (λ e. (e ≡ faults.Parts) × (comma_parts text.now ≡ text.now ∷ [])) }
{
    match cut(text, b',') {
        Some(parts) => Ok(parts),
        None => Err(QueryFault::Parts),
    }
}

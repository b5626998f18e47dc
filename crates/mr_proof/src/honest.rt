//! What proofs learn of the honest proof and of accepted bytes.

ghost use Rattle.std.specs.Prelude.{ℕ, ◌^◌, ◌<◌, length};
ghost use Rattle.mr_record.specs.declared.version.Version.{Version};
ghost use Rattle.mr_query.specs.Word.{IsAskable};
ghost use Rattle.mr_tree.specs.Digest.{by};
ghost use Rattle.mr_tree.specs.WellFormed.{WellFormed, HasLayers};
ghost use Rattle.mr_tree.specs.declared.tree.Tree.{Tree};
ghost use Rattle.mr_proof.specs.Tight.{Question, IsLawful, MayCome, question};
ghost use Rattle.mr_proof.specs.Honest.{proof};
ghost use Rattle.mr_proof.specs.Halves.{AcceptsHonestProof, IsHonestProof, AcceptsHonest};
ghost use Rattle.mr_proof.specs.Headline.{AcceptedMatchesHonest, HonestProofIsQuiet, Headline, AcceptedIsHonest, OthersFail, HonestIsQuiet};

use mr_query::{Query, is_query};
use mr_tree::Hashes;

// ---- of whatever is asked

/// Does nothing: it is there for proofs, which learn that what a query asks is lawful.
pub fn query_is_lawful(q: &Query)
    requires { IsAskable q.now }
    ensures { IsLawful (question q.now) }
{
    is_query(q);
}

/// Does nothing: it is there for proofs, which learn that the honest proof of every map, where
/// there is one, is what its name says, that it is accepted, and that it shows no pair.
pub fn honest_proof_is_accepted<H: Hashes>()
    ensures accepted { (v : Version) (a : Question) → IsLawful a
        → AcceptsHonestProof (by v H.of) a }
    ensures honest { (v : Version) (a : Question) → IsLawful a → (t : Tree) (batch : ℕ)
        → MayCome a v → WellFormed t → HasLayers v t → batch < 2 ^ 64
        → IsHonestProof (by v H.of) t batch a }
    ensures quiet { (v : Version) (a : Question) → IsLawful a
        → HonestProofIsQuiet (by v H.of) a }
{}

/// Does nothing: it is there for proofs, which learn what accepted bytes are worth, whatever the
/// version of the map.
pub fn accepted_matches_honest<H: Hashes>(_bytes: &[u8])
    ensures { (v : Version) (a : Question) → IsLawful a → AcceptedMatchesHonest (by v H.of) a
        _bytes.now }
{}

// ---- of queries

/// Does nothing: it is there for proofs, which learn that the honest proof of every map, where
/// there is one, is what its name says, and that it is accepted.
pub fn honest_is_accepted<H: Hashes>(q: &Query)
    requires { IsAskable q.now }
    ensures accepted { (v : Version) → AcceptsHonest (by v H.of) q.now }
    ensures honest { (v : Version) (t : Tree) (batch : ℕ) → MayCome (question q.now) v
        → WellFormed t → HasLayers v t → batch < 2 ^ 64
        → IsHonestProof (by v H.of) t batch (question q.now) }
    // Its bytes are few, also where a mask is named of a map of version 1 and there is none.
    ensures short { (v : Version) (t : Tree) (batch : ℕ) → WellFormed t
        → length (proof (by v H.of) t batch q.now) < 2 ^ 28 }
{
    is_query(q);
}

/// Does nothing: it is there for proofs, which learn what accepted bytes are worth, whatever the
/// version of the map. All bytes but the honest proof are refused or show a collision, and the
/// honest proof shows none.
pub fn accepted_is_honest<H: Hashes>(q: &Query, _bytes: &[u8])
    requires { IsAskable q.now }
    ensures headline { (v : Version) → Headline (by v H.of) q.now _bytes.now }
    ensures accepted { (v : Version) → AcceptedIsHonest (by v H.of) q.now _bytes.now }
    ensures others { (v : Version) → OthersFail (by v H.of) q.now _bytes.now }
    ensures quiet { (v : Version) → HonestIsQuiet (by v H.of) q.now }
{
    is_query(q);
}

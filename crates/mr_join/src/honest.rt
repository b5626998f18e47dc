//! What proofs learn of the honest proof of a join and of accepted bytes.

ghost use Rattle.mr_join.specs.Accepted.{AcceptedJoinIsHonest, AcceptsHonestJoin};

use crate::frame::frame_of;
use mr_proof::{accepted_matches_honest, honest_proof_is_accepted};
use mr_tree::Hashes;

/// Does nothing: it is there for proofs, which learn that the honest proof of the join of any two
/// maps of version 2 is accepted, gives all pairs, and shows no collision.
pub fn honest_join_is_accepted<F: Hashes, G: Hashes>()
    ensures { AcceptsHonestJoin F.of G.of }
{
    honest_proof_is_accepted::<F>();
    honest_proof_is_accepted::<G>();
}

/// Does nothing: it is there for proofs, which learn what accepted bytes are worth, whatever the
/// two maps of version 2.
pub fn accepted_join_is_honest<F: Hashes, G: Hashes>(bytes: &[u8])
    ensures { AcceptedJoinIsHonest F.of G.of bytes.now }
{
    honest_proof_is_accepted::<F>();
    match frame_of(bytes) {
        Err(_) => {}
        Ok(frame) => {
            accepted_matches_honest::<F>(frame.first);
            accepted_matches_honest::<G>(frame.second);
        }
    }
}

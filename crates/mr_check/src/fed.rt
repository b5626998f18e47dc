//! What a verifier or a judge answers for a piece of a proof.

use mr_proof::Fault;
use mr_record::Record;

/// What a piece of a proof comes to.
#[derive(Clone, Copy)]
pub enum Fed {
    /// The whole piece was taken.
    More,
    /// So many bytes of the piece were taken, the last of which completes a record that is not left
    /// out (of a query: that is in its reach): this one. The rest of the piece is to be fed next.
    Found { taken: usize, item: Record },
    /// The whole piece was taken. This is the verdict of every string that begins with the bytes so
    /// far.
    Fault(Fault),
}
